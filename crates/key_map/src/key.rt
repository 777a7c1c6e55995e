ghost use Rattle.std.specs.Prelude.{◌≡◌, IfOk, refl};
ghost use Rattle.std.specs.Cmp.{IsEquivalence, partial_equiv_from_equiv};
ghost use Rattle.std.specs.Ordering.{as_partial_cmp};
ghost use Rattle.key_map.specs.Keys.{key_of, same};
ghost use Rattle.key_map.specs.Hashed.{writes};
ghost use Rattle.key_map.specs.KeyLaws.{keys_equivalent, alike_writes};
ghost use Rattle.key_map.specs.Order.{order};
ghost use Rattle.key_map.specs.OrderLaws.{keys_in_order, keys_in_partial_order, ties_are_same};

use crate::copying::copy;
use crate::hashing::feed;
use crate::order::compare;
use crate::same::are_same;
use sqlite_items::Items;
use std::alloc::{AllocError, Global};
use std::cmp::Ordering;
use std::hash::{Hash, Hasher};

/// The numbers that keys have: those of `int`.
pub type KeyInt = i64;

/// The code points of a text that is a key.
pub type KeyText = Items<char>;

/// The items of a tuple that is a key.
pub type Keys = Items<Key>;

/// A key of a dictionary. `True` is the key 1, and `False` the key 0.
#[cycle(key)]
#[derive(Drop)]
pub enum Key {
    /// The constant `None`.
    Nil,
    Int(KeyInt),
    Str(KeyText),
    Tuple(Keys),
}

impl Key {
    /// An equal key. Takes a stack as deep as the key.
    pub fn copy(&self, alloc: Global) -> Result<Key, AllocError>
        ensures equal { IfOk result (λ copy. copy ≡ self.now) }
    {
        copy(alloc, self)
    }
}

impl PartialEq for Key {
    ghost eq = { λ a b. same (key_of a) (key_of b) };

    ghost laws = { partial_equiv_from_equiv keys_equivalent };

    fn eq(&self, other: &Key) -> bool {
        are_same(self, other)
    }
}

impl Eq for Key {
    ghost laws = { keys_equivalent };
}

impl Hash for Key {
    ghost hash_input = { λ key. writes (key_of key) };

    ghost respects_eq = { alike_writes };

    fn hash<H: Hasher>(&self, state: &mut H) {
        feed(self, state);
    }
}

impl PartialOrd for Key {
    ghost partial_cmp = { as_partial_cmp (λ a b. order (key_of a) (key_of b)) };

    ghost laws = { keys_in_partial_order };

    fn partial_cmp(&self, other: &Key) -> Option<Ordering> {
        Some(compare(self, other))
    }
}

/// Keys that are the same tie, and no others.
impl Ord for Key {
    ghost cmp = { λ a b. order (key_of a) (key_of b) };

    ghost total = { keys_in_order };

    ghost matches_partial_cmp = { λ a b. refl };

    ghost matches_eq = { ties_are_same };

    fn cmp(&self, other: &Key) -> Ordering {
        compare(self, other)
    }
}
