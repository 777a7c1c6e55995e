ghost use Rattle.std.specs.Prelude.{◌≡◌};
ghost use Rattle.py_phrases.specs.Machine as m;
ghost use Rattle.py_phrases.specs.Views.{frame_of, level_of};

use crate::level::{self, Level};
use py_lexer::token::{Keyword, Mark, Token};
use py_tree::operator::{BinaryOp, CompareOp, Const, UnaryOp};
use py_tree::text::Text;

/// What has been opened and waits for an expression. A number counts the items before a comma.
#[derive(Clone, Copy)]
pub enum Frame<'a> {
    /// The whole phrase, which may be a tuple without parentheses.
    Line(usize),
    /// The whole phrase, which may not.
    Lone,
    Group(usize),
    Index(usize),
    Listed(usize),
    /// A key of a dictionary is wanted.
    Entry(usize),
    Value(usize),
    Call(usize),
    /// The value of a keyword argument is wanted.
    Key(&'a Text),
    /// Behind a keyword argument and its comma.
    Named(&'a Text),
    Sign(UnaryOp),
    Product(BinaryOp),
    Sum(BinaryOp),
    Compare(CompareOp),
    Negation,
    And,
    Or,
    /// Behind `if`.
    Test,
    /// Behind `else`.
    Other,
}

impl<'a> Frame<'a> {
    /// The loosest level that may stand behind it.
    pub fn wants(self) -> Level
        ensures { result ≡ m.wants_behind (frame_of self.entry) }
    {
        match self {
            Frame::Sign(_) | Frame::Product(_) => level::SIGN,
            Frame::Sum(_) => level::PRODUCT,
            Frame::Compare(_) => level::SUM,
            Frame::Negation | Frame::And => level::NEGATION,
            Frame::Or => level::CONJUNCTION,
            Frame::Test => level::DISJUNCTION,
            _ => level::EXPRESSION,
        }
    }

    /// The level of what it makes with its last operand, and above all where its end is a token.
    pub fn makes(self) -> Level
        ensures { result ≡ m.makes (frame_of self.entry) }
    {
        match self {
            Frame::Sign(_) => level::SIGN,
            Frame::Product(_) => level::PRODUCT,
            Frame::Sum(_) => level::SUM,
            Frame::Compare(_) => level::COMPARISON,
            Frame::Negation => level::NEGATION,
            Frame::And => level::CONJUNCTION,
            Frame::Or => level::DISJUNCTION,
            Frame::Other => level::EXPRESSION,
            _ => level::BRACKET,
        }
    }

    /// The level of its left operand.
    pub fn left(self) -> Level
        ensures { result ≡ m.left_of (frame_of self.entry) }
    {
        match self {
            Frame::Product(_) => level::PRODUCT,
            Frame::Sum(_) | Frame::Compare(_) => level::SUM,
            Frame::And => level::CONJUNCTION,
            _ => level::DISJUNCTION,
        }
    }

    /// The level that must be wanted where what it makes stands.
    pub fn stands(self) -> Level
        ensures { result ≡ m.stands_at (frame_of self.entry) }
    {
        match self {
            Frame::Product(_) => level::PRODUCT,
            Frame::Sum(_) => level::SUM,
            Frame::Compare(_) => level::COMPARISON,
            Frame::And => level::CONJUNCTION,
            Frame::Or => level::DISJUNCTION,
            _ => level::EXPRESSION,
        }
    }
}

/// A step of building trees on a stack of trees.
#[derive(Clone, Copy)]
pub enum Step<'a> {
    PutName(&'a Text),
    PutInt(u128),
    PutText(&'a Text),
    /// To the text on the stack.
    JoinText(&'a Text),
    PutConstant(Const),
    /// The tree on the stack stands in parentheses.
    Grouped,
    MakeTuple(usize),
    MakeList(usize),
    /// Of that many keys with their values.
    MakeDict(usize),
    MakeUnary(UnaryOp),
    MakeBinary(BinaryOp),
    MakeCompare(CompareOp),
    MakeIs(bool, Const),
    MakeNot,
    MakeAnd,
    MakeOr,
    MakeCond,
    MakeAttr(&'a Text),
    MakeIndex,
    /// Of that many arguments, and of that many names with their values.
    MakeCall(usize, usize),
}

/// What may come next.
#[derive(Clone, Copy)]
pub enum Mode {
    /// An expression is wanted.
    Want,
    /// An expression is wanted, or the bracket closes.
    Next,
    /// A primary has been read.
    Have,
    /// Behind a dot.
    Dotted,
    /// Behind the `not` of `not in`.
    NotIn,
    /// Behind `is`.
    Is,
    /// Behind `is not`.
    IsNot,
    /// A comparison with a constant has been read.
    Compared,
}

/// The whole that is read.
#[derive(Clone, Copy)]
pub enum Whole {
    /// An expression, or a tuple without parentheses.
    List,
    /// An expression.
    Lone,
}

impl Whole {
    /// Whether it may end before the token.
    pub fn ends_before(self, token: &Token) -> bool
        ensures { result ≡ m.ends (level_of self) token.now }
    {
        match self {
            Whole::List => ends_list(token),
            Whole::Lone => ends_lone(token),
        }
    }
}

fn ends_list(token: &Token) -> bool
    ensures { result ≡ m.ends_list token.now }
{
    matches!(
        token,
        Token::Mark(
            Mark::Equal
                | Mark::Colon
                | Mark::PlusEqual
                | Mark::MinusEqual
                | Mark::StarEqual
                | Mark::DoubleSlashEqual
                | Mark::PercentEqual
        )
    )
}

fn ends_lone(token: &Token) -> bool
    ensures { result ≡ m.ends_lone token.now }
{
    matches!(
        token,
        Token::Word(Keyword::As)
            | Token::Mark(
                Mark::Colon | Mark::Comma | Mark::RightParen | Mark::Equal | Mark::RightArrow
            )
    )
}
