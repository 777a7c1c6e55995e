use py_lexer::lex::lex;
use py_lexer::token::{Mark, Token};
use py_phrases::phrase::{Built, Phrase, expression_at, list_at};
use py_tree::expression::{Expr, Target};
use py_tree::text::Text;
use std::alloc::{AllocError, AllocGlobal, Global};
use std::process::Abort;
use std::test::Fail;

fn is_letter(name: &Text, letter: char) -> bool {
    name.as_slice() == [letter].as_slice()
}

fn is_name(tree: &Expr, letter: char) -> bool {
    match tree {
        Expr::Name(name) => is_letter(name, letter),
        _ => false,
    }
}

/// `a, b`
fn is_tuple_of_a_and_b(tree: &Built<Expr>) -> bool {
    match tree {
        Built::Shallow(Expr::Tuple(items)) => match items.as_slice() {
            [first, second] => is_name(first, 'a') && is_name(second, 'b'),
            _ => false,
        },
        _ => false,
    }
}

fn is_name_a(tree: &Built<Expr>) -> bool {
    match tree {
        Built::Shallow(tree) => is_name(tree, 'a'),
        Built::TooDeep => false,
    }
}

/// The names a and b.
fn are_names_a_and_b(target: &Option<Built<Target>>) -> bool {
    match target {
        Some(Built::Shallow(Target::Names(names))) => match names.as_slice() {
            [first, second] => is_letter(first, 'a') && is_letter(second, 'b'),
            _ => false,
        },
        _ => false,
    }
}

fn is_assigned(alloc: Global, phrase: &Phrase) -> Result<bool, AllocError> {
    if !are_names_a_and_b(&phrase.target(alloc)?) {
        return Ok(false);
    }
    Ok(is_tuple_of_a_and_b(&phrase.expression(alloc)?))
}

/// Of the tokens of `a, b = c`.
fn reads_the_list(alloc: Global, tokens: &[Token]) -> Result<bool, AllocError> {
    match list_at(alloc, tokens)? {
        Some(phrase) => match phrase.rest {
            [Token::Mark(Mark::Equal), Token::Name(_)] => is_assigned(alloc, &phrase),
            _ => Ok(false),
        },
        None => Ok(false),
    }
}

/// Of the tokens of `a, b = c`.
fn reads_the_first_name(alloc: Global, tokens: &[Token]) -> Result<bool, AllocError> {
    match expression_at(alloc, tokens)? {
        Some(phrase) => match phrase.rest {
            [Token::Mark(Mark::Comma), _, _, _] => Ok(is_name_a(&phrase.expression(alloc)?)),
            _ => Ok(false),
        },
        None => Ok(false),
    }
}

fn phrases_agree(rt: &(impl Abort + AllocGlobal), tokens: &[Token]) -> Result<(), Fail> {
    assert!(rt; reads_the_list(rt.alloc(), tokens)?);
    assert!(rt; reads_the_first_name(rt.alloc(), tokens)?);
    Ok(())
}

#[test]
fn a_list_goes_on_behind_its_first_comma(rt: HostRuntime) -> Result<(), Fail> {
    let lines = lex(rt.alloc(), "a, b = c".as_bytes())?;
    assert_eq!(rt; lines.len(), 1);
    for line in lines.as_slice() {
        phrases_agree(&rt, line.tokens.as_slice())?;
    }
    Ok(())
}
