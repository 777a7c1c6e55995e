ghost use Rattle.std.specs.Prelude.{◌≡◌};

use py_tree::expression::Texts;
use py_tree::text::Text;
use py_values::class_id::ClassId;
use py_values::exception::ExcKind;

/// A class with all its slots and methods, those of its bases among them.
#[derive(Drop)]
pub struct ClassKind {
    pub id: ClassId,
    pub slots: Texts,
    pub methods: Texts,
}

/// A class of a module with its bases.
#[derive(Drop)]
pub struct Class {
    pub name: Text,
    /// The physical line, from 1, of its statement.
    pub line: u32,
    /// The class that it is directly below, where there is one.
    pub base: Option<ClassId>,
    /// It with its bases.
    pub kind: ClassKind,
    /// Its own methods.
    pub methods: Texts,
}

/// A class of a module with its own members alone.
#[derive(Drop)]
pub struct OwnClass {
    pub name: Text,
    /// The physical line, from 1, of its statement.
    pub line: u32,
    pub base: BasePlace,
    /// Those that its body gives, each once.
    pub slots: Texts,
    /// Those of its body, each once.
    pub methods: Texts,
}

/// Where the class stands that another is directly below.
#[derive(Clone, Copy, Debug, PartialEq, Eq)]
pub enum BasePlace {
    /// It has none.
    None,
    /// An earlier class of the module, by its number.
    Earlier(usize),
    /// A class of another module, by its place among those that the module's classes are below.
    Imported(usize),
    Exception(ExcKind),
    /// What stands for the base is none.
    Bad,
}

impl BasePlace {
    ghost use Rattle.symbols.specs.BasePlaces as spec;

    /// The same, where a base that is none is as no base.
    pub(crate) fn standing(self) -> BasePlace
        ensures { result ≡ spec.standing self }
    {
        match self {
            BasePlace::Bad => BasePlace::None,
            other => other,
        }
    }

    /// Whether a base is written there.
    pub(crate) fn is_class(self) -> bool
        ensures { result ≡ spec.is_class self }
    {
        !matches!(self, BasePlace::None)
    }

    /// Whether what stands for the base is none.
    pub(crate) fn is_bad(self) -> bool
        ensures { result ≡ spec.is_bad_place self }
    {
        matches!(self, BasePlace::Bad)
    }
}
