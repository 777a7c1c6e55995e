ghost use Rattle.std.specs.Prelude.{◌≡◌, IfOk, OnOk};
ghost use Rattle.py_lexer.specs.declared.token.Token.TheVariants as token;
ghost use Rattle.py_phrases.specs.Machine as m;
ghost use Rattle.py_phrases.specs.Views.{mode_of, frame_of, frames_of, steps_of, maybe_frame};
ghost use Rattle.py_phrases.specs.Readers.{kept, Acts, Steps};

use crate::level::{self, Level};
use crate::machine::{Frame, Mode, Step};
use crate::reader::{Reader, one_more};
use py_lexer::token::{Keyword, Mark, Token};
use py_tree::operator::{BinaryOp, CompareOp, Const};
use py_tree::text::Text;
use std::alloc::{AllocError, Global};

/// The operator that binds tighter than `not`.
fn tight<'a>(token: &Token) -> Option<Frame<'a>>
    ensures { maybe_frame result ≡ m.tight token.now }
{
    match token {
        Token::Mark(Mark::Star) => Some(Frame::Product(BinaryOp::Mul)),
        Token::Mark(Mark::DoubleSlash) => Some(Frame::Product(BinaryOp::FloorDiv)),
        Token::Mark(Mark::Percent) => Some(Frame::Product(BinaryOp::Mod)),
        Token::Mark(Mark::Plus) => Some(Frame::Sum(BinaryOp::Add)),
        Token::Mark(Mark::Minus) => Some(Frame::Sum(BinaryOp::Sub)),
        Token::Mark(Mark::EqualEqual) => Some(Frame::Compare(CompareOp::Eq)),
        Token::Mark(Mark::NotEqual) => Some(Frame::Compare(CompareOp::Ne)),
        Token::Mark(Mark::Less) => Some(Frame::Compare(CompareOp::Lt)),
        Token::Mark(Mark::LessEqual) => Some(Frame::Compare(CompareOp::Le)),
        Token::Mark(Mark::Greater) => Some(Frame::Compare(CompareOp::Gt)),
        Token::Mark(Mark::GreaterEqual) => Some(Frame::Compare(CompareOp::Ge)),
        Token::Word(Keyword::In) => Some(Frame::Compare(CompareOp::In)),
        _ => None,
    }
}

/// The operator that binds looser.
fn loose<'a>(token: &Token) -> Option<Frame<'a>>
    ensures { maybe_frame result ≡ m.loose token.now }
{
    match token {
        Token::Word(Keyword::And) => Some(Frame::And),
        Token::Word(Keyword::Or) => Some(Frame::Or),
        Token::Word(Keyword::If) => Some(Frame::Test),
        _ => None,
    }
}

/// The level of the phrase that the token ends, if it ends one.
fn closes_before(token: &Token) -> Option<Level>
    ensures { result ≡ m.closes_before token.now }
{
    match token {
        Token::Word(Keyword::Not | Keyword::Is) => Some(level::SUM),
        Token::Word(Keyword::Else) => Some(level::DISJUNCTION),
        Token::Mark(
            Mark::Comma | Mark::RightParen | Mark::RightBracket | Mark::RightBrace | Mark::Colon,
        ) => Some(level::EXPRESSION),
        _ => match tight(token) {
            Some(frame) => Some(frame.left()),
            None => match loose(token) {
                Some(frame) => Some(frame.left()),
                None => None,
            },
        },
    }
}

fn constant(token: &Token) -> Option<Const>
    ensures { result ≡ m.constant_of token.now }
{
    match token {
        Token::Word(Keyword::None) => Some(Const::Nil),
        Token::Word(Keyword::True) => Some(Const::True),
        Token::Word(Keyword::False) => Some(Const::False),
        _ => None,
    }
}

// A token behind an expression.
impl<'a> Reader<'a> {
    /// Ends the phrase that the token ends.
    pub fn close_before(&mut self, token: &Token) -> Result<(), AllocError>
        ensures { OnOk result (kept self.new ≡ m.closed_before token.now (frames_of self.old.frames.items) (steps_of self.old.steps.items)) }
    {
        match closes_before(token) {
            Some(level) => self.close(level),
            None => Ok(()),
        }
    }

    fn push(&mut self, frame: Frame<'a>) -> Result<Option<Mode>, AllocError>
        ensures { IfOk result (Acts (m.push (frame_of frame.entry)) self.old self.new) }
    {
        if self.wants() < frame.stands() {
            return Ok(None);
        }
        self.open(frame, Mode::Want)
    }

    fn compared_by(&mut self, mode: Mode) -> Result<Option<Mode>, AllocError>
        ensures { IfOk result (Acts (m.compared_by (mode_of mode)) self.old self.new) }
    {
        if self.wants() < level::COMPARISON {
            return Ok(None);
        }
        Ok(Some(mode))
    }

    fn other(&mut self) -> Result<Option<Mode>, AllocError>
        ensures { IfOk result (Acts m.other self.old self.new) }
    {
        match self.top() {
            Some(Frame::Test) => {
                self.leave();
                self.open(Frame::Other, Mode::Want)
            }
            _ => Ok(None),
        }
    }

    fn comma(&mut self) -> Result<Option<Mode>, AllocError>
        ensures { IfOk result (Acts m.comma self.old self.new) }
    {
        let next = match self.top() {
            Some(Frame::Line(n)) => Frame::Line(one_more(n)?),
            Some(Frame::Group(n)) => Frame::Group(one_more(n)?),
            Some(Frame::Index(n)) => Frame::Index(one_more(n)?),
            Some(Frame::Listed(n)) => Frame::Listed(one_more(n)?),
            Some(Frame::Value(n)) => Frame::Entry(one_more(n)?),
            Some(Frame::Call(n)) => Frame::Call(one_more(n)?),
            Some(Frame::Key(name)) => Frame::Named(name),
            _ => return Ok(None),
        };
        self.leave();
        self.open(next, Mode::Next)
    }

    /// Makes the tuple of what commas separated.
    pub fn list(&mut self, n: usize) -> Result<(), AllocError>
        ensures steps { OnOk result (steps_of self.new.steps.items ≡ m.listed n (steps_of self.old.steps.items)) }
        ensures frames { self.new.frames.items ≡ self.old.frames.items }
    {
        if n == 0 {
            return Ok(());
        }
        self.emit(Step::MakeTuple(one_more(n)?))
    }

    fn bracket(&mut self) -> Result<Option<Mode>, AllocError>
        ensures { IfOk result (Acts m.bracket self.old self.new) }
    {
        match self.top() {
            Some(Frame::Index(n)) => {
                self.leave();
                self.list(n)?;
                self.put(Step::MakeIndex)
            }
            Some(Frame::Listed(n)) => {
                self.leave();
                self.put(Step::MakeList(one_more(n)?))
            }
            _ => Ok(None),
        }
    }

    fn brace(&mut self) -> Result<Option<Mode>, AllocError>
        ensures { IfOk result (Acts m.brace self.old self.new) }
    {
        match self.top() {
            Some(Frame::Value(n)) => {
                self.leave();
                self.put(Step::MakeDict(one_more(n)?))
            }
            _ => Ok(None),
        }
    }

    fn colon(&mut self) -> Result<Option<Mode>, AllocError>
        ensures { IfOk result (Acts m.colon self.old self.new) }
    {
        match self.top() {
            Some(Frame::Entry(n)) => {
                self.leave();
                self.open(Frame::Value(n), Mode::Want)
            }
            _ => Ok(None),
        }
    }

    fn joined(&mut self, text: &'a Text) -> Result<Option<Mode>, AllocError>
        ensures { IfOk result (Acts (m.joined text.now) self.old self.new) }
    {
        match self.newest() {
            Some(Step::PutText(_) | Step::JoinText(_)) => self.put(Step::JoinText(text)),
            _ => Ok(None),
        }
    }

    fn equal(&mut self) -> Result<Option<Mode>, AllocError>
        ensures { IfOk result (Acts m.equal self.old self.new) }
    {
        match self.top() {
            Some(Frame::Call(_) | Frame::Named(_)) => match self.newest() {
                Some(Step::PutName(name)) => self.open(Frame::Key(name), Mode::Want),
                _ => Ok(None),
            },
            _ => Ok(None),
        }
    }

    fn push_if(&mut self, frame: Option<Frame<'a>>) -> Result<Option<Mode>, AllocError>
        ensures { IfOk result (Acts (m.push_if (maybe_frame frame.entry)) self.old self.new) }
    {
        match frame {
            Some(frame) => self.push(frame),
            None => Ok(None),
        }
    }

    fn goes_loose(&mut self, alloc: Global, token: &Token) -> Result<Option<Mode>, AllocError>
        ensures { IfOk result (Acts (m.goes_loose token.now) self.old self.new) }
    {
        match token {
            Token::Word(Keyword::Else) => self.other(),
            Token::Mark(Mark::Comma) => self.comma(),
            Token::Mark(Mark::RightParen) => self.paren(alloc),
            Token::Mark(Mark::RightBracket) => self.bracket(),
            Token::Mark(Mark::RightBrace) => self.brace(),
            Token::Mark(Mark::Colon) => self.colon(),
            _ => self.push_if(loose(token)),
        }
    }

    fn goes_tight(&mut self, alloc: Global, token: &Token) -> Result<Option<Mode>, AllocError>
        ensures { IfOk result (Acts (m.goes_tight (m.tight token.now) token.now) self.old self.new) }
    {
        match tight(token) {
            Some(frame) => self.push(frame),
            None => self.goes_loose(alloc, token),
        }
    }

    fn goes(&mut self, alloc: Global, token: &'a Token) -> Result<Option<Mode>, AllocError>
        ensures { IfOk result (Acts (m.goes token.now) self.old self.new) }
    {
        match token {
            Token::Str(text) => self.joined(text),
            Token::Mark(Mark::Dot) => Ok(Some(Mode::Dotted)),
            Token::Mark(Mark::LeftBracket) => self.open(Frame::Index(0), Mode::Next),
            Token::Mark(Mark::LeftParen) => self.open(Frame::Call(0), Mode::Next),
            Token::Mark(Mark::Equal) => self.equal(),
            Token::Word(Keyword::Not) => self.compared_by(Mode::NotIn),
            Token::Word(Keyword::Is) => self.compared_by(Mode::Is),
            _ => self.goes_tight(alloc, token),
        }
    }

    fn dotted(&mut self, token: &'a Token) -> Result<Option<Mode>, AllocError>
        ensures { IfOk result (Acts (λ fs o. m.dotted fs o token.now) self.old self.new) }
    {
        match token {
            Token::Name(name) => self.put(Step::MakeAttr(name)),
            _ => Ok(None),
        }
    }

    fn not_in(&mut self, token: &Token) -> Result<Option<Mode>, AllocError>
        ensures { IfOk result (Acts (λ fs o. m.not_in fs o token.now) self.old self.new) }
    {
        match token {
            Token::Word(Keyword::In) => self.open(Frame::Compare(CompareOp::NotIn), Mode::Want),
            _ => Ok(None),
        }
    }

    fn is_constant(&mut self, negated: bool, token: &Token) -> Result<Option<Mode>, AllocError>
        ensures { IfOk result (Acts (m.is_constant negated (m.constant_of token.now)) self.old self.new) }
    {
        let Some(right) = constant(token) else {
            return Ok(None);
        };
        self.emit(Step::MakeIs(negated, right))?;
        Ok(Some(Mode::Compared))
    }

    fn is(&mut self, token: &Token) -> Result<Option<Mode>, AllocError>
        ensures { IfOk result (Acts (λ fs o. m.is fs o token.now) self.old self.new) }
    {
        match token {
            Token::Word(Keyword::Not) => Ok(Some(Mode::IsNot)),
            _ => self.is_constant(false, token),
        }
    }

    /// Reads the token. Where it has no place behind what has been read, there is no mode, and what it ends has been ended.
    pub fn step(
        &mut self,
        alloc: Global,
        mode: Mode,
        token: &'a Token,
    ) -> Result<Option<Mode>, AllocError>
        ensures { IfOk result (Steps (mode_of mode) token.now self.old self.new) }
    {
        match mode {
            Mode::Want => self.operand(token),
            Mode::Next => self.operand_or_end(alloc, token),
            Mode::Have => {
                self.close_before(token)?;
                self.goes(alloc, token)
            }
            Mode::Dotted => self.dotted(token),
            Mode::NotIn => self.not_in(token),
            Mode::Is => self.is(token),
            Mode::IsNot => self.is_constant(true, token),
            Mode::Compared => {
                self.close_before(token)?;
                self.goes_loose(alloc, token)
            }
        }
    }
}
