ghost use Rattle.std.specs.Prelude.{◌≡◌, map};
ghost use Rattle.std.specs.Option.{option_copied, option_map};
ghost use Rattle.std.specs.Str.{bytes_eq};
ghost use Rattle.py_lexer.specs.Tokens.{after_spelling, first_mark, keyword_among, keyword_of, marks};
ghost use Rattle.py_lexer.specs.Views.{mark_view, spelling_view};

use crate::token::{Keyword, Mark};

/// The keywords by their spelling.
const KEYWORDS: [(&[u8], Keyword); 35] = [
    (b"False", Keyword::False),
    (b"None", Keyword::None),
    (b"True", Keyword::True),
    (b"and", Keyword::And),
    (b"as", Keyword::As),
    (b"assert", Keyword::Assert),
    (b"async", Keyword::Async),
    (b"await", Keyword::Await),
    (b"break", Keyword::Break),
    (b"class", Keyword::Class),
    (b"continue", Keyword::Continue),
    (b"def", Keyword::Def),
    (b"del", Keyword::Del),
    (b"elif", Keyword::Elif),
    (b"else", Keyword::Else),
    (b"except", Keyword::Except),
    (b"finally", Keyword::Finally),
    (b"for", Keyword::For),
    (b"from", Keyword::From),
    (b"global", Keyword::Global),
    (b"if", Keyword::If),
    (b"import", Keyword::Import),
    (b"in", Keyword::In),
    (b"is", Keyword::Is),
    (b"lambda", Keyword::Lambda),
    (b"nonlocal", Keyword::Nonlocal),
    (b"not", Keyword::Not),
    (b"or", Keyword::Or),
    (b"pass", Keyword::Pass),
    (b"raise", Keyword::Raise),
    (b"return", Keyword::Return),
    (b"try", Keyword::Try),
    (b"while", Keyword::While),
    (b"with", Keyword::With),
    (b"yield", Keyword::Yield),
];

/// The operators and delimiters by their spelling, the longer ones first.
const MARKS: [(&[u8], Mark); 27] = [
    (b"//=", Mark::DoubleSlashEqual),
    (b"==", Mark::EqualEqual),
    (b"!=", Mark::NotEqual),
    (b"<=", Mark::LessEqual),
    (b">=", Mark::GreaterEqual),
    (b"+=", Mark::PlusEqual),
    (b"-=", Mark::MinusEqual),
    (b"*=", Mark::StarEqual),
    (b"%=", Mark::PercentEqual),
    (b"->", Mark::RightArrow),
    (b"//", Mark::DoubleSlash),
    (b"+", Mark::Plus),
    (b"-", Mark::Minus),
    (b"*", Mark::Star),
    (b"%", Mark::Percent),
    (b"<", Mark::Less),
    (b">", Mark::Greater),
    (b"=", Mark::Equal),
    (b"(", Mark::LeftParen),
    (b")", Mark::RightParen),
    (b"[", Mark::LeftBracket),
    (b"]", Mark::RightBracket),
    (b"{", Mark::LeftBrace),
    (b"}", Mark::RightBrace),
    (b",", Mark::Comma),
    (b":", Mark::Colon),
    (b".", Mark::Dot),
];

/// The most letters of a keyword.
const GREATEST_LEN: usize = 8;

/// The keyword that a name spells.
#[tactic(auto, using(crate::proofs::Tables::longer_is_none))]
pub(crate) fn keyword_of(name: &[char]) -> Option<Keyword>
    ensures { result ≡ keyword_of name.now }
{
    if name.len() > GREATEST_LEN {
        return None;
    }
    keyword_among(name, &KEYWORDS)
}

/// The keyword that a name spells, among some.
fn keyword_among(name: &[char], keywords: &[(&[u8], Keyword)]) -> Option<Keyword>
    ensures { result ≡ keyword_among (map spelling_view keywords.now) name.now }
{
    for (spelling, keyword) in keywords {
        if is_spelled(name, spelling) {
            return Some(*keyword);
        }
    }
    None
}

/// The longest operator or delimiter at the front, and what is behind it.
pub(crate) fn first_mark(text: &[char]) -> Option<(Mark, &[char])>
    ensures { option_map mark_view result ≡ first_mark marks text.now }
{
    first_mark_among(text, &MARKS)
}

/// The first of some operators and delimiters that stands at the front, and what is behind it.
fn first_mark_among<'a>(text: &'a [char], marks: &[(&[u8], Mark)]) -> Option<(Mark, &'a [char])>
    ensures { option_map mark_view result ≡ first_mark (map spelling_view marks.now) text.now }
{
    for (spelling, mark) in marks {
        if let Some(rest) = after_spelling(text, spelling) {
            return Some((*mark, rest));
        }
    }
    None
}

/// Whether a name is spelled so.
#[tactic(auto, using(crate::proofs::AfterSpelling::spelled_some, crate::proofs::AfterSpelling::whole_none))]
fn is_spelled(name: &[char], spelling: &[u8]) -> bool
    ensures { result ≡ bytes_eq spelling.now name.now }
{
    match after_spelling(name, spelling) {
        Some(rest) => rest.is_empty(),
        None => false,
    }
}

/// What is behind a spelling at the front, if it stands there.
fn after_spelling<'a>(text: &'a [char], spelling: &[u8]) -> Option<&'a [char]>
    ensures { option_copied result ≡ after_spelling spelling.now text.now }
{
    let mut rest = text;
    for byte in spelling {
        match rest {
            [] => return None,
            [character, behind @ ..] => {
                if *character != char::from(*byte) {
                    return None;
                }
                rest = behind;
            }
        }
    }
    Some(rest)
}
