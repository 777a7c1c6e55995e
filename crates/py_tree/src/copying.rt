ghost use Rattle.std.specs.Prelude.{◌≡◌, IfOk};

mod expressions;
mod statements;

use crate::text::Text;
use lists::Items;
use sqlite_items::Boxed;
use std::alloc::{AllocError, Global};

/// What has equal copies, where memory is found.
trait Duplicate: Sized {
    fn duplicate(&self, alloc: Global) -> Result<Self, AllocError>
        ensures { IfOk result (λ made. made ≡ self.now) };
}

impl Duplicate for Text {
    fn duplicate(&self, alloc: Global) -> Result<Text, AllocError> {
        self.copy(alloc)
    }
}

impl<T: Duplicate + Drop> Duplicate for Boxed<T> {
    fn duplicate(&self, alloc: Global) -> Result<Boxed<T>, AllocError> {
        Boxed::new(alloc, self.get().duplicate(alloc)?)
    }
}

impl<T: Duplicate> Duplicate for Option<T> {
    fn duplicate(&self, alloc: Global) -> Result<Option<T>, AllocError> {
        match self {
            Some(value) => Ok(Some(value.duplicate(alloc)?)),
            None => Ok(None),
        }
    }
}

impl<T: Duplicate + Drop> Duplicate for Items<T> {
    fn duplicate(&self, alloc: Global) -> Result<Items<T>, AllocError> {
        let mut copy = Items::new(alloc);
        for item in self.as_slice() {
            copy.push(item.duplicate(alloc)?)?;
        }
        Ok(copy)
    }
}
