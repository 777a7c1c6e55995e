ghost use Rattle.std.specs.Prelude.{⊤, ◌≡◌, [], ◌∷◌, codes};
ghost use Rattle.std.specs.Int.RustNames.{bit_or};
ghost use Rattle.symbols.specs.Kinds.{flag, meets};

use crate::binding::BindingKind;
use bitflags::{Flag, Flags, bitflag_items};

/// The kinds of binding that a name has.
#[derive(Clone, Copy, PartialEq, Eq, Debug)]
pub(crate) struct Kinds(u8);

bitflag_items! {
    impl Kinds: u8 {
        const IMPORT = 1;
        const DEF = 2;
        const CLASS = 4;
        const OTHER = 8;
    }
}

impl Flags for Kinds {
    type Bits = u8;

    ghost exact = { ⊤ };

    ghost table = { (codes "IMPORT", 1) ∷ (codes "DEF", 2) ∷ (codes "CLASS", 4) ∷ (codes "OTHER", 8) ∷ [] };

    ghost set_of = { λ kinds. kinds.0 };

    fn flags<'a>() -> &'a [Flag<Kinds>] {
        Kinds::FLAGS
    }

    fn bits(&self) -> u8 {
        self.0
    }

    fn from_bits_retain(bits: u8) -> Kinds {
        Kinds(bits)
    }
}

impl Kinds {
    /// That kind alone.
    pub fn of(kind: BindingKind) -> Kinds
        ensures { result.0 ≡ flag kind }
    {
        match kind {
            BindingKind::Import => Kinds::IMPORT,
            BindingKind::Def => Kinds::DEF,
            BindingKind::Class => Kinds::CLASS,
            BindingKind::Other => Kinds::OTHER,
        }
    }

    /// Those of imports, defs and classes.
    pub fn definitions() -> Kinds
        ensures { result.0 ≡ 7 }
    {
        Kinds::IMPORT.union(Kinds::DEF).union(Kinds::CLASS)
    }

    /// All kinds.
    pub fn any() -> Kinds
        ensures { result.0 ≡ 15 }
    {
        Kinds::definitions().union(Kinds::OTHER)
    }

    /// Both.
    pub fn and(self, other: Kinds) -> Kinds
        ensures { result.0 ≡ bit_or self.0 other.0 }
    {
        self.union(other)
    }

    /// Whether one of them is among the others.
    pub fn meets(self, others: Kinds) -> bool
        ensures { result ≡ meets others.0 self.0 }
    {
        self.intersects(others)
    }
}
