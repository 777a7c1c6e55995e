use lists::Items;
use py_tree::text::Text;

/// The tokens of a line, in the order of the text.
pub type Tokens = Items<Token>;

/// The logical lines of a text, in its order.
pub type LogicalLines = Items<LogicalLine>;

/// A logical line that has a token (Python reference: lexical analysis, line structure).
#[derive(Drop)]
pub struct LogicalLine {
    /// The number of spaces that begin its first physical line.
    pub indent: u32,
    /// Its first physical line, from 1.
    pub line: u32,
    pub tokens: Tokens,
}

/// A token (Python reference: lexical analysis).
#[derive(Drop)]
pub enum Token {
    /// An identifier that is no keyword.
    Name(Text),
    /// An integer literal by its value.
    Int(u128),
    /// A string literal by its value.
    Str(Text),
    Word(Keyword),
    Mark(Mark),
}

/// The keywords.
#[derive(Clone, Copy, Debug, PartialEq, Eq)]
pub enum Keyword {
    False,
    None,
    True,
    And,
    As,
    Assert,
    Async,
    Await,
    Break,
    Class,
    Continue,
    Def,
    Del,
    Elif,
    Else,
    Except,
    Finally,
    For,
    From,
    Global,
    If,
    Import,
    In,
    Is,
    Lambda,
    Nonlocal,
    Not,
    Or,
    Pass,
    Raise,
    Return,
    Try,
    While,
    With,
    Yield,
}

/// The operators and delimiters, under the names of Python's token module.
#[derive(Clone, Copy, Debug, PartialEq, Eq)]
pub enum Mark {
    /// `//=`
    DoubleSlashEqual,
    /// `==`
    EqualEqual,
    /// `!=`
    NotEqual,
    /// `<=`
    LessEqual,
    /// `>=`
    GreaterEqual,
    /// `+=`
    PlusEqual,
    /// `-=`
    MinusEqual,
    /// `*=`
    StarEqual,
    /// `%=`
    PercentEqual,
    /// `->`
    RightArrow,
    /// `//`
    DoubleSlash,
    /// `+`
    Plus,
    /// `-`
    Minus,
    /// `*`
    Star,
    /// `%`
    Percent,
    /// `<`
    Less,
    /// `>`
    Greater,
    /// `=`
    Equal,
    /// `(`
    LeftParen,
    /// `)`
    RightParen,
    /// `[`
    LeftBracket,
    /// `]`
    RightBracket,
    /// `{`
    LeftBrace,
    /// `}`
    RightBrace,
    /// `,`
    Comma,
    /// `:`
    Colon,
    /// `.`
    Dot,
}
