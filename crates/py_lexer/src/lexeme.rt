ghost use Rattle.std.specs.Prelude.{◌≡◌, ◌≤◌, ◌<◌, IfOk, Some, Result, Ok, Err, length};
ghost use Rattle.std.specs.List.{prefix_len};
ghost use Rattle.std.specs.Option.{option_map};
ghost use Rattle.unicode_ident.specs.Ident.{is_xid_continue};
ghost use Rattle.unicode_normalization.specs.Forms.{is_in_form};
ghost use Rattle.unicode_normalization.specs.declared.Form.TheVariants.{Nfkc};
ghost use Rattle.py_lexer.specs.declared.character.CharKind.TheVariants as kind;
ghost use Rattle.py_lexer.specs.declared.character.TokenKind.TheVariants as token_kind;
ghost use Rattle.py_lexer.specs.Reading.{behind_run, integer_at, kind_at, mark_lexeme_at, name_at, name_token, run_at};
ghost use Rattle.py_lexer.specs.Integers.{in_number};
ghost use Rattle.py_lexer.specs.Strings.{opening};
ghost use Rattle.py_lexer.specs.Tokens.{begins_with_quote, first_mark, marks, named};
ghost use Rattle.py_lexer.specs.Views.{GivesLexeme, IsTokenAt, lexeme_view, opening_view};

use crate::character::{TokenKind, is_quote};
use crate::integer_literal::{integer_value, number_len};
use crate::piece::fault;
use crate::spelled::{first_mark, keyword_of};
use crate::string_literal::{Quotes, after_two, quoted};
use crate::token::Token;
use py_tree::code::Code;
use py_tree::fault::Stop;
use py_tree::integer::GREATEST_INT;
use py_tree::text::Text;
use std::alloc::{AllocError, Global};
use unicode_ident::is_xid_continue;
use unicode_normalization::{IsNormalized, slice};

/// The token at the front of a text, which stands on that line, and what is behind it.
pub(crate) fn token_at(
    alloc: Global,
    starts: TokenKind,
    line: u32,
    text: &[char],
) -> Result<(Token, &[char]), Stop>
    requires { kind_at text.now ≡ Some (kind.Token starts) }
    ensures { IsTokenAt line text.now result }
{
    match starts {
        TokenKind::Name => name_at(alloc, line, text),
        TokenKind::Integer => integer_at(line, text),
        TokenKind::String => string_at(alloc, line, text),
        TokenKind::Mark => mark_at(line, text),
    }
}

/// An identifier or keyword.
fn name_at(alloc: Global, line: u32, text: &[char]) -> Result<(Token, &[char]), Stop>
    ensures { GivesLexeme line (name_at text.now) result }
{
    let (name, rest) = split_name(text);
    match name_token(alloc, name, begins_with_quote(rest)) {
        Ok(Some(token)) => Ok((token, rest)),
        Ok(None) => Err(fault(line, Code::BadToken)),
        Err(error) => Err(Stop::Memory(error)),
    }
}

/// The token of a name, unless a quote touches it or it isn't in NFKC.
fn name_token(alloc: Global, name: &[char], is_touched: bool) -> Result<Option<Token>, AllocError>
    ensures { IfOk result (λ read. read ≡ name_token name.now is_touched) }
{
    if is_touched || !is_in_normal_form(alloc, name)? {
        return Ok(None);
    }
    Ok(Some(named(alloc, name)?))
}

/// An integer literal.
fn integer_at(line: u32, text: &[char]) -> Result<(Token, &[char]), Stop>
    ensures { GivesLexeme line (integer_at text.now) result }
{
    let (literal, rest) = split_number(text);
    match integer_value(literal) {
        None => Err(fault(line, Code::BadToken)),
        Some(value) if value > GREATEST_INT => Err(fault(line, Code::IntegerTooLarge)),
        Some(value) => Ok((Token::Int(value), rest)),
    }
}

/// A string literal.
fn string_at(alloc: Global, line: u32, text: &[char]) -> Result<(Token, &[char]), Stop>
    requires { kind_at text.now ≡ Some (kind.Token token_kind.String) }
    ensures { IsTokenAt line text.now result }
{
    let (quotes, inside) = opening(text[0], &text[1..]);
    match quoted(alloc, quotes, inside) {
        Ok(Some((value, rest))) => Ok((Token::Str(value), rest)),
        Ok(None) => Err(fault(line, Code::BadToken)),
        Err(error) => Err(Stop::Memory(error)),
    }
}

/// An operator or delimiter.
fn mark_at(line: u32, text: &[char]) -> Result<(Token, &[char]), Stop>
    ensures { GivesLexeme line (mark_lexeme_at text.now) result }
{
    match first_mark(text) {
        Some((mark, rest)) => Ok((Token::Mark(mark), rest)),
        None => Err(fault(line, Code::BadToken)),
    }
}

/// The name at the front, and what is behind it.
fn split_name(text: &[char]) -> (&[char], &[char])
    ensures name { result.0.now ≡ run_at is_xid_continue text.now }
    ensures rest { result.1.now ≡ behind_run is_xid_continue text.now }
{
    match text {
        [] => (text, text),
        [_, others @ ..] => text.split_at(1 + name_len(others)),
    }
}

/// The integer literal at the front, and what is behind it.
fn split_number(text: &[char]) -> (&[char], &[char])
    ensures literal { result.0.now ≡ run_at in_number text.now }
    ensures rest { result.1.now ≡ behind_run in_number text.now }
{
    match text {
        [] => (text, text),
        [_, others @ ..] => text.split_at(1 + number_len(others)),
    }
}

/// How many characters at the front continue a name.
#[tactic(auto, using(crate::proofs::Runs::within))]
fn name_len(characters: &[char]) -> usize
    ensures count { result ≡ prefix_len is_xid_continue characters.now }
    ensures within { result ≤ length characters.now }
{
    characters
        .iter()
        .take_while(|c| is_xid_continue(**c))
        .count()
}

/// Whether a quote stands at the front.
fn begins_with_quote(text: &[char]) -> bool
    ensures { result ≡ begins_with_quote text.now }
{
    match text {
        [] => false,
        [first, ..] => is_quote(*first),
    }
}

/// Whether a name is in NFKC.
fn is_in_normal_form(alloc: Global, name: &[char]) -> Result<bool, AllocError>
    ensures { IfOk result (λ yes. yes ≡ is_in_form Nfkc name.now) }
{
    match slice::is_nfkc_quick(name) {
        IsNormalized::Yes => Ok(true),
        IsNormalized::No => Ok(false),
        IsNormalized::Maybe => {
            let mut normal = Vec::new(alloc);
            slice::extend_nfkc(&mut normal, name)?;
            Ok(normal.as_slice() == name)
        }
    }
}

/// The token of a name.
fn named(alloc: Global, name: &[char]) -> Result<Token, AllocError>
    ensures { IfOk result (λ token. token ≡ named name.now) }
{
    match keyword_of(name) {
        Some(keyword) => Ok(Token::Word(keyword)),
        None => Ok(Token::Name(Text::from_slice(alloc, name)?)),
    }
}

/// The opening quotes, by the first of them and what is behind it, and what they open.
fn opening(mark: char, text: &[char]) -> (Quotes, &[char])
    ensures { opening_view result ≡ opening mark text.now }
{
    match after_two(mark, text) {
        Some(inside) => (Quotes { mark, triple: true }, inside),
        None => (
            Quotes {
                mark,
                triple: false,
            },
            text,
        ),
    }
}
