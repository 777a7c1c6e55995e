ghost use Rattle.std.specs.Prelude.{◌≡◌};
ghost use Rattle.std.specs.Str.{bytes_eq};
ghost use Rattle.py_values.specs.Builtins.{HaveNames, builtins, dict_methods, list_methods, name_of, text_methods};
ghost use Rattle.py_values.specs.Builtins as spec;

/// A builtin function, a builtin type that is called as one, or a method of a text, a list or a dictionary (Python library
/// reference: built-in functions, built-in types).
#[derive(Clone, Copy, Debug, PartialEq, Eq)]
pub enum Builtin {
    Object,
    Print,
    Len,
    Range,
    Str,
    Repr,
    Bool,
    List,
    Tuple,
    Dict,
    Int,
    Abs,
    Min,
    Max,
    Ord,
    Chr,
    IsInstance,
    TextJoin,
    TextSplit,
    TextStartsWith,
    TextEndsWith,
    ListAppend,
    ListExtend,
    ListCopy,
    DictGet,
    DictKeys,
    DictValues,
    DictItems,
    DictCopy,
    DictUpdate,
}

const BUILTINS: [Builtin; 17] = [
    Builtin::Object,
    Builtin::Print,
    Builtin::Len,
    Builtin::Range,
    Builtin::Str,
    Builtin::Repr,
    Builtin::Bool,
    Builtin::List,
    Builtin::Tuple,
    Builtin::Dict,
    Builtin::Int,
    Builtin::Abs,
    Builtin::Min,
    Builtin::Max,
    Builtin::Ord,
    Builtin::Chr,
    Builtin::IsInstance,
];

const TEXT_METHODS: [Builtin; 4] = [
    Builtin::TextJoin,
    Builtin::TextSplit,
    Builtin::TextStartsWith,
    Builtin::TextEndsWith,
];

const LIST_METHODS: [Builtin; 3] = [Builtin::ListAppend, Builtin::ListExtend, Builtin::ListCopy];

const DICT_METHODS: [Builtin; 6] = [
    Builtin::DictGet,
    Builtin::DictKeys,
    Builtin::DictValues,
    Builtin::DictItems,
    Builtin::DictCopy,
    Builtin::DictUpdate,
];

impl Builtin {
    /// Its name in ASCII; that of a method is what stands behind the dot.
    pub fn name(self) -> &'static str
        ensures name { result.now ≡ name_of self }
    {
        match self {
            Builtin::Object => "object",
            Builtin::Print => "print",
            Builtin::Len => "len",
            Builtin::Range => "range",
            Builtin::Str => "str",
            Builtin::Repr => "repr",
            Builtin::Bool => "bool",
            Builtin::List => "list",
            Builtin::Tuple => "tuple",
            Builtin::Dict => "dict",
            Builtin::Int => "int",
            Builtin::Abs => "abs",
            Builtin::Min => "min",
            Builtin::Max => "max",
            Builtin::Ord => "ord",
            Builtin::Chr => "chr",
            Builtin::IsInstance => "isinstance",
            Builtin::TextJoin => "join",
            Builtin::TextSplit => "split",
            Builtin::TextStartsWith => "startswith",
            Builtin::TextEndsWith => "endswith",
            Builtin::ListAppend => "append",
            Builtin::ListExtend => "extend",
            Builtin::ListCopy | Builtin::DictCopy => "copy",
            Builtin::DictGet => "get",
            Builtin::DictKeys => "keys",
            Builtin::DictValues => "values",
            Builtin::DictItems => "items",
            Builtin::DictUpdate => "update",
        }
    }
}

/// The builtin function or type of that name. Takes no memory.
pub fn builtin_named(name: &[char]) -> Option<Builtin>
    ensures builtin { result ≡ spec.named_among builtins name.now }
{
    named_among(name, &BUILTINS)
}

/// The method of texts of that name. Takes no memory.
pub fn text_method(name: &[char]) -> Option<Builtin>
    ensures method { result ≡ spec.named_among text_methods name.now }
{
    named_among(name, &TEXT_METHODS)
}

/// The method of lists of that name. Takes no memory.
pub fn list_method(name: &[char]) -> Option<Builtin>
    ensures method { result ≡ spec.named_among list_methods name.now }
{
    named_among(name, &LIST_METHODS)
}

/// The method of dictionaries of that name. Takes no memory.
pub fn dict_method(name: &[char]) -> Option<Builtin>
    ensures method { result ≡ spec.named_among dict_methods name.now }
{
    named_among(name, &DICT_METHODS)
}

/// Each builtin and each method is found by its name.
pub fn builtins_have_names()
    ensures { HaveNames }
{}

fn named_among(name: &[char], among: &[Builtin]) -> Option<Builtin>
    ensures { result ≡ spec.named_among among.now name.now }
{
    for builtin in among {
        if is_word(name, builtin.name().as_bytes()) {
            return Some(*builtin);
        }
    }
    None
}

/// Whether a name is this word of ASCII.
fn is_word(name: &[char], word: &[u8]) -> bool
    ensures { result ≡ bytes_eq name.now word.now }
{
    let mut rest = name;
    for byte in word {
        match rest {
            [] => return false,
            [point, behind @ ..] => {
                if *point != char::from(*byte) {
                    return false;
                }
                rest = behind;
            }
        }
    }
    rest.is_empty()
}
