ghost use Rattle.std.specs.Prelude.{◌≡◌, IfOk};

use crate::key::{Key, KeyText, Keys};
use std::alloc::{AllocError, Global};

/// An equal key. Takes a stack as deep as the key.
#[cycle(copy)]
pub fn copy(alloc: Global, key: &Key) -> Result<Key, AllocError>
    ensures { IfOk result (λ copy. copy ≡ key.now) }
{
    match key {
        Key::Nil => Ok(Key::Nil),
        Key::Int(number) => Ok(Key::Int(*number)),
        Key::Str(text) => Ok(Key::Str(KeyText::from_slice(alloc, text.as_slice())?)),
        Key::Tuple(items) => Ok(Key::Tuple(copy_all(alloc, items.as_slice())?)),
    }
}

#[cycle(copy)]
fn copy_all(alloc: Global, keys: &[Key]) -> Result<Keys, AllocError>
    ensures { IfOk result (λ copies. copies ≡ keys.now) }
{
    let mut copies = Keys::new(alloc);
    for key in keys {
        copies.push(copy(alloc, key)?)?;
    }
    Ok(copies)
}
