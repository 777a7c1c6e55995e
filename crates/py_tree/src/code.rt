ghost use Rattle.std.specs.Prelude.{◌≡◌};
ghost use Rattle.py_tree.specs.Codes.{letter_of, number_of};

use std::fmt;

/// A refusal code. Reports print it as a letter and two digits: `E` for the text, `N` for names and imports,
/// `T` for types and `S` for what a module body does. The variants stand in the order of their codes.
#[derive(Clone, Copy, Debug, PartialEq, Eq)]
pub enum Code {
    /// The file isn't UTF-8.
    BadEncoding,
    /// The file has more than 1,048,576 bytes.
    FileTooLarge,
    /// A tab stands in an indentation.
    TabIndentation,
    /// Characters that spell no token.
    BadToken,
    /// A logical line that spells no form.
    NoForm,
    /// An indentation that can't stand there.
    BadIndentation,
    /// A form that can't stand there.
    MisplacedForm,
    /// More than 100 open brackets, 200 levels of an expression or 100 levels of indentation.
    TooDeep,
    /// An integer literal above the greatest `int`.
    IntegerTooLarge,
    /// No marker stands in its place.
    MisplacedMarker,
    /// A line that this step of the loader doesn't take.
    NotBuilt,
    /// The base of a class is none.
    BadBase,
    /// A name is both a slot and a method.
    MemberClash,
    /// An imported module doesn't exist.
    NoSuchModule,
    /// An imported module is refused.
    RefusedImport,
    /// A module imports itself, by way of others or at once.
    ImportCycle,
    /// An imported module has no such name.
    NoSuchName,
    /// A name is bound twice.
    BoundTwice,
    /// An imported module is plain.
    PlainImport,
    /// An import stands below the top part.
    LateImport,
    /// A name that has a meaning of its own.
    SpecialName,
    /// A value of one type where another is wanted.
    TypeMismatch,
    /// The arguments of a call don't bind.
    UnboundArguments,
    /// A type has no such member.
    NoSuchMember,
    /// A method that can't stand for the one it overrides.
    BadOverride,
    /// A primitive where none is taken.
    PrimitiveMisuse,
    /// An annotation that names no type.
    UnknownType,
    /// The body has an effect on the outside.
    Effect,
    /// The body writes to another module's object.
    ForeignWrite,
    /// The body looks at a value that isn't known yet.
    UnknownValue,
    /// An exception left the body.
    UncaughtException,
    /// The fuel of the import is spent.
    FuelSpent,
}

impl Code {
    /// The letter of the phases that give the code.
    pub fn letter(self) -> char
        ensures { result ≡ letter_of self }
    {
        match self {
            Code::BadEncoding
            | Code::FileTooLarge
            | Code::TabIndentation
            | Code::BadToken
            | Code::NoForm
            | Code::BadIndentation
            | Code::MisplacedForm
            | Code::TooDeep
            | Code::IntegerTooLarge
            | Code::MisplacedMarker
            | Code::NotBuilt => 'E',
            Code::BadBase
            | Code::MemberClash
            | Code::NoSuchModule
            | Code::RefusedImport
            | Code::ImportCycle
            | Code::NoSuchName
            | Code::BoundTwice
            | Code::PlainImport
            | Code::LateImport
            | Code::SpecialName => 'N',
            Code::TypeMismatch
            | Code::UnboundArguments
            | Code::NoSuchMember
            | Code::BadOverride
            | Code::PrimitiveMisuse
            | Code::UnknownType => 'T',
            Code::Effect
            | Code::ForeignWrite
            | Code::UnknownValue
            | Code::UncaughtException
            | Code::FuelSpent => 'S',
        }
    }

    /// The number of the code, below 100.
    pub fn number(self) -> u8
        ensures { result ≡ number_of self }
    {
        match self {
            Code::BadEncoding => 1,
            Code::FileTooLarge => 2,
            Code::TabIndentation => 3,
            Code::BadToken => 4,
            Code::NoForm => 5,
            Code::BadIndentation => 6,
            Code::MisplacedForm => 7,
            Code::TooDeep => 8,
            Code::IntegerTooLarge => 9,
            Code::MisplacedMarker => 10,
            Code::NotBuilt => 99,
            Code::BadBase => 10,
            Code::MemberClash => 11,
            Code::NoSuchModule => 12,
            Code::RefusedImport => 13,
            Code::ImportCycle => 14,
            Code::NoSuchName => 15,
            Code::BoundTwice => 16,
            Code::PlainImport => 17,
            Code::LateImport => 18,
            Code::SpecialName => 19,
            Code::TypeMismatch => 20,
            Code::UnboundArguments => 21,
            Code::NoSuchMember => 22,
            Code::BadOverride => 23,
            Code::PrimitiveMisuse => 24,
            Code::UnknownType => 25,
            Code::Effect => 30,
            Code::ForeignWrite => 31,
            Code::UnknownValue => 32,
            Code::UncaughtException => 33,
            Code::FuelSpent => 34,
        }
    }
}

impl fmt::Display for Code {
    ghost use Rattle.std.specs.Prelude.{Some};
    ghost use Rattle.py_tree.specs.Codes.{printed};

    ghost output = { λ code. Some (printed code) };

    fn fmt<W: fmt::Write>(&self, f: &mut fmt::Formatter<W>) -> fmt::Result {
        let letter = self.letter();
        let number = self.number();
        write!(f, "{letter}{}{}", number / 10, number % 10)
    }
}
