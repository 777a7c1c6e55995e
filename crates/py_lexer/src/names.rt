ghost use Rattle.std.specs.Prelude.{◌≡◌, IfOk, chars, map};
ghost use Rattle.std.specs.List.{list_any};
ghost use Rattle.std.specs.Str.{bytes_eq};
ghost use Rattle.py_lexer.specs.Names.{is_identifier, is_keyword, is_spelled_as_identifier, may_start_identifier};

use std::alloc::{AllocError, Global};
use unicode_ident::{is_xid_continue, is_xid_start};
use unicode_normalization::is_nfkc;

/// The keywords (Python reference: lexical analysis, keywords), in the order of their bytes.
const KEYWORDS: [&[u8]; 35] = [
    b"False",
    b"None",
    b"True",
    b"and",
    b"as",
    b"assert",
    b"async",
    b"await",
    b"break",
    b"class",
    b"continue",
    b"def",
    b"del",
    b"elif",
    b"else",
    b"except",
    b"finally",
    b"for",
    b"from",
    b"global",
    b"if",
    b"import",
    b"in",
    b"is",
    b"lambda",
    b"nonlocal",
    b"not",
    b"or",
    b"pass",
    b"raise",
    b"return",
    b"try",
    b"while",
    b"with",
    b"yield",
];

/// Whether a name is one of the 35 keywords, which no identifier may spell.
pub fn is_keyword(name: &[u8]) -> bool
    ensures { result ≡ is_keyword name.now }
{
    is_among(name, &KEYWORDS)
}

/// Whether a name is one of some names.
pub fn is_among(name: &[u8], names: &[&[u8]]) -> bool
    ensures { result ≡ list_any (bytes_eq name.now) (map (λ other. other.now) names.now) }
{
    names.contains(&name)
}

/// Whether a name is an identifier (Python reference: lexical analysis, identifiers). A keyword is one by its spelling.
pub fn is_identifier(alloc: Global, name: &str) -> Result<bool, AllocError>
    ensures { IfOk result (λ yes. yes ≡ is_identifier (chars name.now)) }
{
    if !is_spelled_as_identifier(name) {
        return Ok(false);
    }
    is_nfkc(alloc, name)
}

/// Whether the first character may start an identifier, and each other may continue one.
fn is_spelled_as_identifier(name: &str) -> bool
    ensures { result ≡ is_spelled_as_identifier (chars name.now) }
{
    let mut characters = name.chars();
    let Some(first) = characters.next() else {
        return false;
    };
    may_start_identifier(first) && characters.all(is_xid_continue)
}

/// Whether a character may start an identifier.
pub(crate) fn may_start_identifier(character: char) -> bool
    ensures { result ≡ may_start_identifier character }
{
    is_xid_start(character) || character == '_'
}
