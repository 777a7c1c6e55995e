use py_tree::expression::Texts;
use py_tree::operator::{BinaryOp, CompareOp, Const, UnaryOp};
use py_tree::text::Text;
use py_values::builtin::Builtin;
use py_values::exception::ExcKind;
use py_values::int::PyInt;

/// A variable of the code's scope.
#[derive(Drop)]
pub enum Variable {
    /// The local of that number, from 0, among the function's names.
    Local(u32),
    /// The global of that number, from 0, among the module's names.
    Global(u32),
    /// A name that is none of them.
    Named(Text),
}

/// The arguments of a call: how many stand without a name, and the names of the others behind them.
#[derive(Drop)]
pub struct Shape {
    pub positional: u32,
    pub keywords: Texts,
}

/// A member of a module that is bound to a variable.
#[derive(Drop)]
pub struct Member {
    pub module: Text,
    pub name: Text,
    pub variable: Variable,
}

/// One instruction. The operands stand on a stack: what is taken is taken off it, what is pushed comes onto it. Places are
/// numbers of cells, from 0 at the start of the block.
#[derive(Drop)]
pub enum Instr {
    /// Pushes None.
    Nil,
    Truth(bool),
    Int(PyInt),
    Str(Text),
    Builtin(Builtin),
    /// Pushes an exception class.
    Exception(ExcKind),
    /// Pushes the name of the module.
    ModuleName,
    /// Raises an exception of that class, without arguments.
    Fail(ExcKind),

    Load(Variable),
    /// Binds a variable to the top, which is taken.
    Store(Variable),
    Unbind(Variable),

    DropTop,
    /// Pushes the top again.
    Copy,
    /// Pushes the two on top again.
    CopyTwo,
    /// Takes the top under the one below it.
    Swap,
    /// Takes the top under the two below it.
    Rotate,

    /// Takes so many, of which the last is the top, and pushes the tuple of them.
    Tuple(u32),
    List(u32),
    /// Takes so many pairs of a key and its value.
    Dict(u32),
    Unary(UnaryOp),
    Binary(BinaryOp),
    /// An augmented assignment's operator, which may write to the left operand.
    Augment(BinaryOp),
    Compare(CompareOp),
    Is { negated: bool, constant: Const },
    Not,
    /// Makes a primitive an int or a bool.
    Box,
    GetAttribute(Text),
    /// Takes an object, which is the top, and the value that its attribute is set to.
    SetAttribute(Text),
    GetItem,
    /// Takes an index, which is the top, a container, and the value that its item is set to.
    SetItem,
    /// Takes an iterable, and pushes its items, of which there are to be so many, the first on top.
    Unpack(u32),

    /// Takes the arguments and then the callee.
    Call(Shape),
    /// Tests that the top may be the receiver of that method of a base.
    IsReceiver(Text),
    /// Takes the arguments and then the receiver, and calls that method of a base of the code's class.
    CallBase(Text, Shape),

    /// Begins a statement: its line, where it is one of a module's own body, and a fuel of 1.
    Begin(Option<u32>),
    AtLine(u32),
    Jump(u32),
    /// Takes the top; where it isn't true, goes to the place.
    JumpUnless(u32),
    /// Where the top isn't true, goes to the place with it, else takes it.
    KeepUnless(u32),
    /// Where the top is true, goes to the place with it, else takes it.
    KeepIf(u32),
    /// Takes the top; where it is true, goes to the place for a fuel of 1.
    TurnIf(u32),
    /// Takes an iterable, and begins a loop over its items.
    Iterate,
    /// Where the innermost loop has another item, pushes it and goes to the place for a fuel of 1.
    Next(u32),
    /// Ends the innermost loop.
    EndLoop,
    /// Leaves so many clauses, and goes to the place.
    Leave { clauses: u32, place: u32 },
    /// Leaves so many clauses and the block with the top.
    Return { clauses: u32 },

    /// Takes what stands behind a `raise`, and pushes the exception.
    Make,
    /// Raises the top.
    Throw,
    /// Raises what the innermost clause holds.
    ThrowAgain,
    /// Takes the top; where it doesn't name a class of the exception that is held, goes to the place.
    TakesElse(u32),
    /// Binds the name of a clause, if it has one, to the exception that is held.
    Take(Option<Variable>),
    /// The exception that is held goes on, as raised where it was.
    PassOn,
    /// Leaves the innermost clause.
    Release,

    /// Binds a variable to the module of that name.
    ImportModule(Text, Variable),
    ImportMember(Member),
    /// Takes the default value of a parameter.
    SetDefault { function: u32, parameter: u32 },
    /// Pushes the module's function of that number.
    Function(u32),
    /// Pushes the module's class of that number.
    Class(u32),
}

/// Where an exception goes: to a place, if there is one in the block, and out of how many clauses and loops over items.
#[derive(Clone, Copy, Debug, PartialEq, Eq)]
pub struct Handler {
    pub place: Option<u32>,
    pub clauses: u32,
    pub loops: u32,
}

/// An instruction, and where an exception goes that it raises.
#[derive(Drop)]
pub struct Cell {
    pub instr: Instr,
    pub handler: Handler,
}
