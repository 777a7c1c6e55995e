ghost use Rattle.std.specs.Prelude.{◌≡◌, IsTrue, ◌↔◌};
ghost use Rattle.py_values.specs.Exceptions.{AreAbove, IsBelow, base_of, exceptions_above, name_of};

/// The exception classes (Python library reference: built-in exceptions). `FrozenError` is this project's own.
#[derive(Clone, Copy, Debug, PartialEq, Eq)]
pub enum ExcKind {
    Exception,
    ArithmeticError,
    ZeroDivisionError,
    OverflowError,
    LookupError,
    IndexError,
    KeyError,
    NameError,
    UnboundLocalError,
    AttributeError,
    TypeError,
    ValueError,
    RuntimeError,
    RecursionError,
    FrozenError,
}

impl ExcKind {
    /// The name of the class in ASCII.
    pub fn name(self) -> &'static str
        ensures name { result.now ≡ name_of self }
    {
        match self {
            ExcKind::Exception => "Exception",
            ExcKind::ArithmeticError => "ArithmeticError",
            ExcKind::ZeroDivisionError => "ZeroDivisionError",
            ExcKind::OverflowError => "OverflowError",
            ExcKind::LookupError => "LookupError",
            ExcKind::IndexError => "IndexError",
            ExcKind::KeyError => "KeyError",
            ExcKind::NameError => "NameError",
            ExcKind::UnboundLocalError => "UnboundLocalError",
            ExcKind::AttributeError => "AttributeError",
            ExcKind::TypeError => "TypeError",
            ExcKind::ValueError => "ValueError",
            ExcKind::RuntimeError => "RuntimeError",
            ExcKind::RecursionError => "RecursionError",
            ExcKind::FrozenError => "FrozenError",
        }
    }

    /// The class that it is directly below. All are below `Exception`, and it is below none.
    pub fn base(self) -> Option<ExcKind>
        ensures base { result ≡ base_of self }
    {
        match self {
            ExcKind::Exception => None,
            ExcKind::ArithmeticError
            | ExcKind::LookupError
            | ExcKind::NameError
            | ExcKind::AttributeError
            | ExcKind::TypeError
            | ExcKind::ValueError
            | ExcKind::RuntimeError
            | ExcKind::FrozenError => Some(ExcKind::Exception),
            ExcKind::ZeroDivisionError | ExcKind::OverflowError => Some(ExcKind::ArithmeticError),
            ExcKind::IndexError | ExcKind::KeyError => Some(ExcKind::LookupError),
            ExcKind::UnboundLocalError => Some(ExcKind::NameError),
            ExcKind::RecursionError => Some(ExcKind::RuntimeError),
        }
    }

    /// Whether an `except` for the other class takes it: whether it is that class or one below.
    #[cycle(is_below)]
    pub fn is_below(self, other: ExcKind) -> bool
        ensures below { IsTrue result ↔ IsBelow self other }
    {
        if self == other {
            return true;
        }
        match self.base() {
            Some(base) => base.is_below(other),
            None => false,
        }
    }

    /// The class itself, the one that it is directly below, and so on up to `Exception`.
    pub fn above(self) -> &'static [ExcKind]
        ensures classes { result.now ≡ exceptions_above self }
    {
        match self {
            ExcKind::Exception => &[ExcKind::Exception],
            ExcKind::ArithmeticError => &[ExcKind::ArithmeticError, ExcKind::Exception],
            ExcKind::ZeroDivisionError => &[
                ExcKind::ZeroDivisionError,
                ExcKind::ArithmeticError,
                ExcKind::Exception,
            ],
            ExcKind::OverflowError => &[
                ExcKind::OverflowError,
                ExcKind::ArithmeticError,
                ExcKind::Exception,
            ],
            ExcKind::LookupError => &[ExcKind::LookupError, ExcKind::Exception],
            ExcKind::IndexError => &[
                ExcKind::IndexError,
                ExcKind::LookupError,
                ExcKind::Exception,
            ],
            ExcKind::KeyError => &[ExcKind::KeyError, ExcKind::LookupError, ExcKind::Exception],
            ExcKind::NameError => &[ExcKind::NameError, ExcKind::Exception],
            ExcKind::UnboundLocalError => &[
                ExcKind::UnboundLocalError,
                ExcKind::NameError,
                ExcKind::Exception,
            ],
            ExcKind::AttributeError => &[ExcKind::AttributeError, ExcKind::Exception],
            ExcKind::TypeError => &[ExcKind::TypeError, ExcKind::Exception],
            ExcKind::ValueError => &[ExcKind::ValueError, ExcKind::Exception],
            ExcKind::RuntimeError => &[ExcKind::RuntimeError, ExcKind::Exception],
            ExcKind::RecursionError => &[
                ExcKind::RecursionError,
                ExcKind::RuntimeError,
                ExcKind::Exception,
            ],
            ExcKind::FrozenError => &[ExcKind::FrozenError, ExcKind::Exception],
        }
    }
}

/// The classes above a class are those that it is below.
pub fn exceptions_are_above()
    ensures { (k : ExcKind) → AreAbove k (exceptions_above k) }
{}
