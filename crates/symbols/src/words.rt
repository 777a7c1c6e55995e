ghost use Rattle.std.specs.Prelude.{◌≡◌};
ghost use Rattle.std.specs.List.{find};
ghost use Rattle.std.specs.Str.{bytes_eq};
ghost use Rattle.py_values.specs.Exceptions.{name_of};
ghost use Rattle.symbols.specs.Words as spec;
ghost use Rattle.symbols.specs.Words.{among};
ghost use Rattle.symbols.specs.Views.{spellings};

use crate::binding::StaticName;
use py_tree::text::Text;
use py_values::exception::ExcKind;

const BUILTINS: [&[u8]; 17] = [
    b"object",
    b"print",
    b"len",
    b"range",
    b"str",
    b"repr",
    b"bool",
    b"list",
    b"tuple",
    b"dict",
    b"int",
    b"abs",
    b"min",
    b"max",
    b"ord",
    b"chr",
    b"isinstance",
];

const EXCEPTIONS: [ExcKind; 15] = [
    ExcKind::Exception,
    ExcKind::ArithmeticError,
    ExcKind::ZeroDivisionError,
    ExcKind::OverflowError,
    ExcKind::LookupError,
    ExcKind::IndexError,
    ExcKind::KeyError,
    ExcKind::NameError,
    ExcKind::UnboundLocalError,
    ExcKind::AttributeError,
    ExcKind::TypeError,
    ExcKind::ValueError,
    ExcKind::RuntimeError,
    ExcKind::RecursionError,
    ExcKind::FrozenError,
];

const UNDERSCORES: [char; 2] = ['_', '_'];

/// Whether a name is this word of ASCII.
pub fn is_word(name: &Text, word: &[u8]) -> bool
    ensures { result ≡ bytes_eq name.now word.now }
{
    let mut rest = name.as_slice();
    for byte in word {
        match rest {
            [] => return false,
            [point, behind @ ..] => {
                if *point != char::from(*byte) {
                    return false;
                }
                rest = behind;
            }
        }
    }
    rest.is_empty()
}

/// Whether both are one name.
pub fn is_same(name: &Text, other: &Text) -> bool
    ensures { result ≡ bytes_eq name.now other.now }
{
    name.as_slice() == other.as_slice()
}

/// Whether a name is among these words.
pub fn is_among(name: &Text, words: &[&[u8]]) -> bool
    ensures { result ≡ among name.now (spellings words.now) }
{
    for word in words {
        if is_word(name, word) {
            return true;
        }
    }
    false
}

/// Whether it is a builtin's or an exception's name.
pub(crate) fn is_builtin(name: &Text) -> bool
    ensures { result ≡ spec.is_builtin name.now }
{
    is_among(name, &BUILTINS) || exception_of(name).is_some()
}

/// The exception class of that name.
pub fn exception_of(name: &Text) -> Option<ExcKind>
    ensures { result ≡ spec.exception_named name.now }
{
    exception_among(name, &EXCEPTIONS)
}

fn exception_among(name: &Text, kinds: &[ExcKind]) -> Option<ExcKind>
    ensures { result ≡ find (λ kind. bytes_eq name.now (name_of kind)) kinds.now }
{
    for kind in kinds {
        if is_word(name, kind.name().as_bytes()) {
            return Some(*kind);
        }
    }
    None
}

/// Whether a name begins and ends with two underscores.
pub(crate) fn is_special(name: &Text) -> bool
    ensures { result ≡ spec.is_special name.now }
{
    begins(name) && ends(name)
}

/// Whether a name begins with two underscores and doesn't end with them.
pub(crate) fn is_private(name: &Text) -> bool
    ensures { result ≡ spec.is_private name.now }
{
    begins(name) && !ends(name)
}

fn begins(name: &Text) -> bool
    ensures { result ≡ spec.begins_special name.now }
{
    name.as_slice().starts_with(&UNDERSCORES)
}

fn ends(name: &Text) -> bool
    ensures { result ≡ spec.ends_special name.now }
{
    name.as_slice().ends_with(&UNDERSCORES)
}

/// Whether a module of that name is a marker.
pub fn is_marker(name: &Text) -> bool
    ensures { result ≡ spec.is_marker name.now }
{
    is_word(name, b"__strict__") || is_word(name, b"__static__")
}

/// The static name that an import of a name from a module binds, if it is one.
pub fn static_name(from: &Text, name: &Text) -> Option<StaticName>
    ensures { result ≡ spec.static_name from.now name.now }
{
    if is_word(from, b"typing") {
        typing_name(name)
    } else if is_word(from, b"__static__") {
        own_static_name(name)
    } else {
        None
    }
}

/// The static name that an import of a name from `typing` binds, if it is one.
pub fn typing_name(name: &Text) -> Option<StaticName>
    ensures { result ≡ spec.typing_name name.now }
{
    if is_word(name, b"Optional") {
        Some(StaticName::Optional)
    } else if is_word(name, b"Any") {
        Some(StaticName::Any)
    } else {
        None
    }
}

/// The static name that an import of a name from `__static__` binds, if it is one.
pub fn own_static_name(name: &Text) -> Option<StaticName>
    ensures { result ≡ spec.own_static_name name.now }
{
    if is_word(name, b"int64") {
        Some(StaticName::Int64)
    } else if is_word(name, b"cbool") {
        Some(StaticName::CBool)
    } else if is_word(name, b"box") {
        Some(StaticName::Box)
    } else if is_word(name, b"cast") {
        Some(StaticName::Cast)
    } else {
        None
    }
}
