ghost use Rattle.std.specs.Prelude.{IfOk};
ghost use Rattle.py_lexer.specs.declared.token.Token.TheVariants as token;
ghost use Rattle.py_phrases.specs.Machine as m;
ghost use Rattle.py_phrases.specs.Readers.{Acts};

use crate::level;
use crate::machine::{Frame, Mode, Step};
use crate::reader::Reader;
use py_lexer::token::{Keyword, Mark, Token};
use py_tree::operator::{Const, UnaryOp};
use std::alloc::{AllocError, Global};

// A token where an expression is wanted.
impl<'a> Reader<'a> {
    fn negation(&mut self) -> Result<Option<Mode>, AllocError>
        ensures { IfOk result (Acts m.negation self.old self.new) }
    {
        if self.wants() < level::NEGATION {
            return Ok(None);
        }
        self.open(Frame::Negation, Mode::Want)
    }

    fn word_operand(&mut self, word: Keyword) -> Result<Option<Mode>, AllocError>
        ensures { IfOk result (Acts (λ fs o. m.operand fs o (token.Word word)) self.old self.new) }
    {
        match word {
            Keyword::None => self.put(Step::PutConstant(Const::Nil)),
            Keyword::True => self.put(Step::PutConstant(Const::True)),
            Keyword::False => self.put(Step::PutConstant(Const::False)),
            Keyword::Not => self.negation(),
            _ => Ok(None),
        }
    }

    fn mark_operand(&mut self, mark: Mark) -> Result<Option<Mode>, AllocError>
        ensures { IfOk result (Acts (λ fs o. m.operand fs o (token.Mark mark)) self.old self.new) }
    {
        match mark {
            Mark::Minus => self.open(Frame::Sign(UnaryOp::Minus), Mode::Want),
            Mark::Plus => self.open(Frame::Sign(UnaryOp::Plus), Mode::Want),
            Mark::LeftParen => self.open(Frame::Group(0), Mode::Next),
            Mark::LeftBracket => self.open(Frame::Listed(0), Mode::Next),
            Mark::LeftBrace => self.open(Frame::Entry(0), Mode::Next),
            _ => Ok(None),
        }
    }

    pub fn operand(&mut self, token: &'a Token) -> Result<Option<Mode>, AllocError>
        ensures { IfOk result (Acts (λ fs o. m.operand fs o token.now) self.old self.new) }
    {
        match token {
            Token::Name(name) => self.put(Step::PutName(name)),
            Token::Int(n) => self.put(Step::PutInt(*n)),
            Token::Str(text) => self.put(Step::PutText(text)),
            Token::Word(word) => self.word_operand(*word),
            Token::Mark(mark) => self.mark_operand(*mark),
        }
    }

    fn bracket_after_comma(&mut self) -> Result<Option<Mode>, AllocError>
        ensures { IfOk result (Acts m.bracket_after_comma self.old self.new) }
    {
        match self.top() {
            Some(Frame::Index(n)) => {
                if n == 0 {
                    return Ok(None);
                }
                self.leave();
                self.emit(Step::MakeTuple(n))?;
                self.put(Step::MakeIndex)
            }
            Some(Frame::Listed(n)) => {
                self.leave();
                self.put(Step::MakeList(n))
            }
            _ => Ok(None),
        }
    }

    fn brace_after_comma(&mut self) -> Result<Option<Mode>, AllocError>
        ensures { IfOk result (Acts m.brace_after_comma self.old self.new) }
    {
        match self.top() {
            Some(Frame::Entry(n)) => {
                self.leave();
                self.put(Step::MakeDict(n))
            }
            _ => Ok(None),
        }
    }

    pub fn operand_or_end(
        &mut self,
        alloc: Global,
        token: &'a Token,
    ) -> Result<Option<Mode>, AllocError>
        ensures { IfOk result (Acts (λ fs o. m.operand_or_end fs o token.now) self.old self.new) }
    {
        match token {
            Token::Mark(Mark::RightParen) => self.paren_after_comma(alloc),
            Token::Mark(Mark::RightBracket) => self.bracket_after_comma(),
            Token::Mark(Mark::RightBrace) => self.brace_after_comma(),
            _ => self.operand(token),
        }
    }
}
