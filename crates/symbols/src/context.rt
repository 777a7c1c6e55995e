ghost use Rattle.std.specs.Prelude.{◌≡◌};
ghost use Rattle.symbols.specs.SpecialNames as spec;
ghost use Rattle.symbols.specs.Contexts.{context_of};
ghost use Rattle.symbols.specs.Views.{spellings};

use crate::binding::StaticName;
use crate::name_map::NameMap;
use crate::names::Names;
use crate::words::{is_among, is_builtin, is_private, is_special, is_word};
use py_tree::text::Text;

/// What the names of a module are bound to where they are static names.
pub(crate) type Statics<'a> = NameMap<'a, StaticName>;

/// The special names that are read, those that are read behind a dot, those of methods, and those that are bound.
const READABLE: [&[u8]; 2] = [b"__name__", b"__all__"];

const READABLE_BEHIND_DOT: [&[u8]; 3] = [b"__name__", b"__all__", b"__init__"];

const MEMBERS: [&[u8]; 2] = [b"__all__", b"__init__"];

const BINDABLE: [&[u8]; 1] = [b"__all__"];

/// Where names stand.
#[derive(Clone, Copy)]
pub(crate) struct Context<'a> {
    pub in_class: bool,
    /// In the body of a method.
    pub in_method: bool,
    pub statics: &'a Statics<'a>,
    /// Those of the function, which hide the module's static names.
    pub locals: &'a Names<'a>,
}

/// What is around a name.
#[derive(Clone, Copy)]
pub(crate) struct Use {
    /// In an annotation, or in the first argument of `cast`.
    pub in_type: bool,
    pub called: bool,
}

impl Use {
    pub fn plain() -> Use
        ensures { result ≡ spec.plain }
    {
        Use {
            in_type: false,
            called: false,
        }
    }

    pub fn typed() -> Use
        ensures { result ≡ spec.typed }
    {
        Use {
            in_type: true,
            called: false,
        }
    }

    pub fn as_callee(self) -> Use
        ensures { result ≡ spec.called self }
    {
        Use {
            called: true,
            ..self
        }
    }

    pub fn as_part(self) -> Use
        ensures { result ≡ spec.uncalled self }
    {
        Use {
            called: false,
            ..self
        }
    }

    /// Whether a name that is bound so may not stand there.
    pub fn misplaces(self, bound: Option<StaticName>) -> bool
        ensures { result ≡ spec.misplaced self bound }
    {
        match bound {
            None => false,
            Some(StaticName::Optional) => !self.in_type,
            Some(StaticName::Any) => !self.in_type,
            Some(StaticName::Int64) => !(self.in_type || self.called),
            Some(StaticName::CBool) => !(self.in_type || self.called),
            Some(StaticName::Box) => !self.called,
            Some(StaticName::Cast) => !self.called,
        }
    }
}

impl<'a> Context<'a> {
    /// In the body of a class.
    pub fn in_class_body(&self) -> Context<'a>
        ensures { context_of result ≡ spec.in_class_body (context_of self.now) }
    {
        Context {
            in_class: true,
            ..*self
        }
    }

    /// The static name to which a name is bound there.
    pub fn static_of(&self, name: &Text) -> Option<StaticName>
        ensures { result ≡ spec.static_of (context_of self.now) name.now }
    {
        if self.locals.has(name) {
            None
        } else {
            self.statics.get(name)
        }
    }

    pub fn is_cast(&self, name: &Text) -> bool
        ensures { result ≡ spec.is_cast (spec.static_of (context_of self.now) name.now) }
    {
        matches!(self.static_of(name), Some(StaticName::Cast))
    }

    /// Whether it is a special name other than the allowed ones, or, inside a class, a private one.
    fn forbids(&self, name: &Text, allowed: &[&[u8]]) -> bool
        ensures { result ≡ spec.forbidden (context_of self.now) (spellings allowed.now) name.now }
    {
        (is_special(name) && !is_among(name, allowed)) || (self.in_class && is_private(name))
    }

    /// Whether a name may not be read there.
    pub fn forbids_read(&self, name: &Text) -> bool
        ensures { result ≡ spec.forbidden_read (context_of self.now) name.now }
    {
        self.forbids(name, &READABLE) || is_word(name, b"super")
    }

    /// Whether a name may not be read there behind a dot.
    pub fn forbids_attribute(&self, name: &Text) -> bool
        ensures { result ≡ spec.forbidden_attribute (context_of self.now) name.now }
    {
        self.forbids(name, &READABLE_BEHIND_DOT)
    }

    /// Whether a name may not be written there behind a dot.
    pub fn forbids_target(&self, name: &Text) -> bool
        ensures { result ≡ spec.forbidden_target (context_of self.now) name.now }
    {
        self.forbids(name, &MEMBERS)
    }

    /// Whether a keyword argument may not have that name there.
    pub fn forbids_keyword(&self, name: &Text) -> bool
        ensures { result ≡ spec.forbidden_keyword (context_of self.now) name.now }
    {
        self.forbids(name, &BINDABLE)
    }

    /// Whether a module or a function may not bind that name there.
    pub fn forbids_binding(&self, name: &Text) -> bool
        ensures { result ≡ spec.forbidden_binding (context_of self.now) name.now }
    {
        self.forbids(name, &BINDABLE) || is_builtin(name) || is_word(name, b"super")
    }

    /// Whether a class may not have a field of that name.
    pub fn forbids_field(&self, name: &Text) -> bool
        ensures { result ≡ spec.forbidden_field (context_of self.now) name.now }
    {
        self.forbids(name, &BINDABLE)
    }

    /// Whether a class may not have a method of that name.
    pub fn forbids_method(&self, name: &Text) -> bool
        ensures { result ≡ spec.forbidden_method (context_of self.now) name.now }
    {
        self.forbids(name, &MEMBERS)
    }
}
