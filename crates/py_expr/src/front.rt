ghost use Rattle.std.specs.Prelude.{◌≡◌, ◌∷◌, MatchOption};
ghost use Rattle.py_phrases.specs.Grammar.{Tokens};
ghost use Rattle.py_phrases.specs.Tokens as t;
ghost use Rattle.py_lexer.specs.declared.token.Token.TheVariants as token;

use py_lexer::token::{Keyword, Mark, Token};
use py_tree::text::Text;

/// What follows the mark, where it stands at the front.
pub(crate) fn after_mark(tokens: &[Token], mark: Mark) -> Option<&[Token]>
    ensures { MatchOption result ((r : Tokens) → tokens.now ≡ token.Mark mark ∷ r → ⊥) (λ rest. tokens.now ≡ token.Mark mark ∷ rest.now) }
{
    match tokens {
        [Token::Mark(first), rest @ ..] if *first == mark => Some(rest),
        _ => None,
    }
}

/// What follows the keyword, where it stands at the front.
pub(crate) fn after_word(tokens: &[Token], word: Keyword) -> Option<&[Token]>
    ensures { MatchOption result ((r : Tokens) → tokens.now ≡ token.Word word ∷ r → ⊥) (λ rest. tokens.now ≡ token.Word word ∷ rest.now) }
{
    match tokens {
        [Token::Word(first), rest @ ..] if *first == word => Some(rest),
        _ => None,
    }
}

/// The name at the front with what follows it, where one stands there.
pub(crate) fn after_name(tokens: &[Token]) -> Option<(&Text, &[Token])>
    ensures { MatchOption result ((n : _) (r : Tokens) → tokens.now ≡ token.Name n ∷ r → ⊥) (λ found. tokens.now ≡ token.Name found.0.now ∷ found.1.now) }
{
    match tokens {
        [Token::Name(name), rest @ ..] => Some((name, rest)),
        _ => None,
    }
}

/// The keyword at the front with what follows it, where one stands there.
pub(crate) fn first_word(tokens: &[Token]) -> Option<(Keyword, &[Token])>
    ensures { MatchOption result ((w : _) (r : Tokens) → tokens.now ≡ token.Word w ∷ r → ⊥) (λ found. tokens.now ≡ token.Word found.0 ∷ found.1.now) }
{
    match tokens {
        [Token::Word(word), rest @ ..] => Some((*word, rest)),
        _ => None,
    }
}

/// The mark at the front with what follows it, where one stands there.
pub(crate) fn first_mark(tokens: &[Token]) -> Option<(Mark, &[Token])>
    ensures { MatchOption result ((m : _) (r : Tokens) → tokens.now ≡ token.Mark m ∷ r → ⊥) (λ found. tokens.now ≡ token.Mark found.0 ∷ found.1.now) }
{
    match tokens {
        [Token::Mark(mark), rest @ ..] => Some((*mark, rest)),
        _ => None,
    }
}

/// What follows `)` and `:`, where they stand at the front.
pub(crate) fn after_closed_head(tokens: &[Token]) -> Option<&[Token]>
    ensures { MatchOption result ((r : Tokens) → tokens.now ≡ t.right_paren ∷ t.colon ∷ r → ⊥) (λ rest. tokens.now ≡ t.right_paren ∷ t.colon ∷ rest.now) }
{
    match tokens {
        [
            Token::Mark(Mark::RightParen),
            Token::Mark(Mark::Colon),
            rest @ ..,
        ] => Some(rest),
        _ => None,
    }
}

/// The name behind `as`, with what follows it and `:`, where they stand at the front.
pub(crate) fn after_bound_name(tokens: &[Token]) -> Option<(&Text, &[Token])>
    ensures { MatchOption result ((n : _) (r : Tokens) → tokens.now ≡ t.as_ ∷ token.Name n ∷ t.colon ∷ r → ⊥) (λ found. tokens.now ≡ t.as_ ∷ token.Name found.0.now ∷ t.colon ∷ found.1.now) }
{
    match tokens {
        [
            Token::Word(Keyword::As),
            Token::Name(name),
            Token::Mark(Mark::Colon),
            rest @ ..,
        ] => Some((name, rest)),
        _ => None,
    }
}
