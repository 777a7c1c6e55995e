//! The lists of the loader's types: the kit's `Items`, which contracts see as the list of their elements, with `at`.
#![tactic(auto)]

ghost use Rattle.std.specs.Prelude.{◌≡◌, ◌<◌, List, Some, length, slice_get};

pub use sqlite_items::Items;

/// The elements of a list by their places, from 0.
pub trait ElementAt<T> {
    ghost elements: { Self → List T };

    fn at(&self, place: usize) -> &T
        requires { place < length (elements self.now) }
        ensures { slice_get (elements self.now) place ≡ Some result.now };
}

impl<T> ElementAt<T> for Items<T> {
    ghost elements = { λ items. items };

    fn at(&self, place: usize) -> &T
        requires { place < length self.now }
        ensures { slice_get self.now place ≡ Some result.now }
    {
        &self.as_slice()[place]
    }
}
