ghost use Rattle.std.specs.Prelude.{◌≡◌, suc, take, [], ◌∷◌, Some, OnOk, IfOk};
ghost use Rattle.py_phrases.specs.Machine as m;
ghost use Rattle.py_phrases.specs.Views.{step_of, steps_of, frame_of, frames_of, maybe_frame, maybe_step, mode_of, level_of, top, rest};
ghost use Rattle.py_phrases.specs.Readers.{kept, Acts};

use crate::level::Level;
use crate::machine::{Frame, Mode, Step, Whole};
use std::alloc::{AllocError, Global};
use std::mem;

/// What is open, and the steps so far.
#[derive(Drop)]
pub struct Reader<'a> {
    frames: Vec<Frame<'a>>,
    steps: Vec<Step<'a>>,
}

impl<'a> Reader<'a> {
    /// Where nothing has been read.
    pub fn new(alloc: Global, whole: Whole) -> Result<Reader<'a>, AllocError>
        ensures { IfOk result (λ r. kept r ≡ m.done (m.bottom (level_of whole) ∷ []) []) }
    {
        let mut reader = Reader {
            frames: Vec::new(alloc),
            steps: Vec::new(alloc),
        };
        match whole {
            Whole::List => reader.enter(Frame::Line(0))?,
            Whole::Lone => reader.enter(Frame::Lone)?,
        }
        Ok(reader)
    }

    pub fn top(&self) -> Option<Frame<'a>>
        ensures { maybe_frame result ≡ top (frames_of self.now.frames.items) }
    {
        self.frames.last().copied()
    }

    /// The newest step.
    pub fn newest(&self) -> Option<Step<'a>>
        ensures { maybe_step result ≡ top (steps_of self.now.steps.items) }
    {
        self.steps.last().copied()
    }

    pub fn leave(&mut self)
        ensures frames { frames_of self.new.frames.items ≡ rest (frames_of self.old.frames.items) }
        ensures steps { self.new.steps.items ≡ self.old.steps.items }
    {
        let _ = self.frames.pop();
    }

    /// The steps, newest last.
    pub fn take_steps(&mut self, alloc: Global) -> Vec<Step<'a>>
        ensures { result.items ≡ self.old.steps.items }
    {
        mem::replace(&mut self.steps, Vec::new(alloc))
    }

    /// The frames, newest last.
    pub fn frames(&self) -> &[Frame<'a>]
        ensures { result.now ≡ self.now.frames.items }
    {
        self.frames.as_slice()
    }

    /// Keeps the first frames, by their number.
    pub fn keep(&mut self, count: usize)
        ensures frames { self.new.frames.items ≡ take count self.old.frames.items }
        ensures steps { self.new.steps.items ≡ self.old.steps.items }
    {
        self.frames.truncate(count);
    }

    pub fn enter(&mut self, frame: Frame<'a>) -> Result<(), AllocError>
        ensures frames { OnOk result (frames_of self.new.frames.items ≡ frame_of frame.entry ∷ frames_of self.old.frames.items) }
        ensures steps { self.new.steps.items ≡ self.old.steps.items }
    {
        self.frames.push(frame)?;
        Ok(())
    }

    pub fn emit(&mut self, step: Step<'a>) -> Result<(), AllocError>
        ensures steps { OnOk result (steps_of self.new.steps.items ≡ step_of step.entry ∷ steps_of self.old.steps.items) }
        ensures frames { self.new.frames.items ≡ self.old.frames.items }
    {
        self.steps.push(step)?;
        Ok(())
    }

    fn make(&mut self, frame: Frame<'a>) -> Result<(), AllocError>
        ensures steps { OnOk result (steps_of self.new.steps.items ≡ m.made (frame_of frame.entry) (steps_of self.old.steps.items)) }
        ensures frames { self.new.frames.items ≡ self.old.frames.items }
    {
        match frame {
            Frame::Sign(op) => self.emit(Step::MakeUnary(op)),
            Frame::Product(op) | Frame::Sum(op) => self.emit(Step::MakeBinary(op)),
            Frame::Compare(op) => self.emit(Step::MakeCompare(op)),
            Frame::Negation => self.emit(Step::MakeNot),
            Frame::And => self.emit(Step::MakeAnd),
            Frame::Or => self.emit(Step::MakeOr),
            Frame::Other => self.emit(Step::MakeCond),
            _ => Ok(()),
        }
    }

    /// Ends the phrases up to the level.
    pub fn close(&mut self, level: Level) -> Result<(), AllocError>
        ensures { OnOk result (kept self.new ≡ m.close level (frames_of self.old.frames.items) (steps_of self.old.steps.items)) }
    {
        while let Some(frame) = self.top() {
            if frame.makes() > level {
                return Ok(());
            }
            self.leave();
            self.make(frame)?;
        }
        Ok(())
    }

    /// The loosest level that may stand here.
    pub fn wants(&self) -> Level
        ensures { result ≡ m.wants (frames_of self.now.frames.items) }
    {
        match self.top() {
            Some(frame) => frame.wants(),
            None => 0,
        }
    }

    /// Puts a tree without parts, or ends a primary.
    pub fn put(&mut self, step: Step<'a>) -> Result<Option<Mode>, AllocError>
        ensures { IfOk result (Acts (λ fs o. Some (m.state m.Have fs (step_of step.entry ∷ o))) self.old self.new) }
    {
        self.emit(step)?;
        Ok(Some(Mode::Have))
    }

    /// Opens the frame.
    pub fn open(&mut self, frame: Frame<'a>, mode: Mode) -> Result<Option<Mode>, AllocError>
        ensures { IfOk result (Acts (λ fs o. Some (m.state (mode_of mode) (frame_of frame.entry ∷ fs) o)) self.old self.new) }
    {
        self.enter(frame)?;
        Ok(Some(mode))
    }
}

/// The number after n.
pub fn one_more(n: usize) -> Result<usize, AllocError>
    ensures { IfOk result (λ next. next ≡ suc n) }
{
    match n.checked_add(1) {
        Some(next) => Ok(next),
        None => Err(AllocError),
    }
}
