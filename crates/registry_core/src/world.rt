ghost use Rattle.std.specs.Prelude.{◌≡◌, ◌<◌, Some, length, slice_get};

use crate::loads::Loads;
use std::marker::Model;
use std::sync::Arc;

/// The verdicts of all modules. Contracts see the list, by the modules' numbers.
#[derive(Drop)]
pub struct World<L: Loads> {
    pub(crate) verdicts: Vec<Option<Arc<L::Verdict>>>,
}

impl<L: Loads> Model for World<L> {
    ghost use Rattle.std.specs.Prelude.{◌≡◌, List, true, is_some};
    ghost use Rattle.std.specs.List.{list_all};

    ghost Value = { List L.Verdict };

    ghost use Rattle.registry_core.specs.Stored.{values_of};

    ghost view = { λ world. values_of world.verdicts.items };

    ghost invariant = { λ world. list_all (λ o. is_some o) world.verdicts.items ≡ true };
}

impl<L: Loads> World<L> {
    /// The verdict of a module.
    pub fn verdict(&self, module: u32) -> &L::Verdict
        requires { «module» < length self.now }
        ensures { slice_get self.now «module» ≡ Some result.now }
    {
        match &self.verdicts[module as usize] {
            Some(verdict) => &**verdict,
            None => unreachable!(),
        }
    }
}
