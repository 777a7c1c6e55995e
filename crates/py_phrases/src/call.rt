ghost use Rattle.std.specs.Prelude.{◌≡◌, ◌≤◌, ◌-◌, length, take, [], ◌∷◌, IfOk};
ghost use Rattle.py_phrases.specs.Machine as m;
ghost use Rattle.py_phrases.specs.Views.{texts_of, frames_of, maybe_frame, top, rest};
ghost use Rattle.py_phrases.specs.Readers.{Acts, calls};

use crate::machine::{Frame, Mode, Step};
use crate::reader::{Reader, one_more};
use py_tree::text::Text;
use std::alloc::{AllocError, Global};
use std::collections::BTreeSet;

/// A call that ends: its arguments by number, and the number of frames below it.
#[derive(Clone, Copy)]
struct Call {
    args: usize,
    keywords: usize,
    below: usize,
}

/// Whether no name is given twice.
fn no_repeats(alloc: Global, names: &[&Text]) -> Result<bool, AllocError>
    ensures { IfOk result (λ differ. differ ≡ m.no_repeats (texts_of names.now)) }
{
    let mut seen = BTreeSet::new(alloc);
    for name in names {
        if !seen.insert(name.as_slice())? {
            return Ok(false);
        }
    }
    Ok(true)
}

/// The newest of the first frames, by their number.
fn newest<'a>(frames: &[Frame<'a>], count: usize) -> Option<Frame<'a>>
    requires { count ≤ length frames.now }
    ensures newest { maybe_frame result ≡ top (frames_of (take count frames.now)) }
    ensures below { rest (frames_of (take count frames.now)) ≡ frames_of (take (count - 1) frames.now) }
{
    frames[..count].last().copied()
}

/// The call whose last keyword argument has that name, which the newest frame has.
#[tactic(auto, using(crate::proofs::Names::but_newest))]
fn ending_call<'a>(
    alloc: Global,
    name: &'a Text,
    frames: &[Frame<'a>],
) -> Result<Option<Call>, AllocError>
    ensures { IfOk result (calls frames.now (name.now ∷ [])) }
{
    let mut names = Vec::new(alloc);
    names.push(name)?;
    let mut count = frames.len().saturating_sub(1);
    while let Some(Frame::Named(other)) = newest(frames, count) {
        names.push(other)?;
        count -= 1;
    }
    match newest(frames, count) {
        Some(Frame::Call(args)) => {
            let keywords = names.len();
            if !no_repeats(alloc, &names)? {
                return Ok(None);
            }
            Ok(Some(Call {
                args,
                keywords,
                below: count - 1,
            }))
        }
        _ => Ok(None),
    }
}

// A bracket that closes a group or a call.
impl<'a> Reader<'a> {
    /// Ends the call whose last keyword argument has that name, which the newest frame has.
    fn call(&mut self, alloc: Global, name: &'a Text) -> Result<Option<Mode>, AllocError>
        ensures { IfOk result (Acts (λ fs o. m.call (name.now ∷ []) (rest fs) o) self.old self.new) }
    {
        let Some(call) = ending_call(alloc, name, self.frames())? else {
            return Ok(None);
        };
        self.keep(call.below);
        self.put(Step::MakeCall(call.args, call.keywords))
    }

    /// `)` behind an expression.
    pub fn paren(&mut self, alloc: Global) -> Result<Option<Mode>, AllocError>
        ensures { IfOk result (Acts m.paren self.old self.new) }
    {
        match self.top() {
            Some(Frame::Group(n)) => {
                self.leave();
                self.list(n)?;
                self.put(Step::Grouped)
            }
            Some(Frame::Call(n)) => {
                self.leave();
                self.put(Step::MakeCall(one_more(n)?, 0))
            }
            Some(Frame::Key(name)) => self.call(alloc, name),
            _ => Ok(None),
        }
    }

    /// `)` where an expression may stand.
    pub fn paren_after_comma(&mut self, alloc: Global) -> Result<Option<Mode>, AllocError>
        ensures { IfOk result (Acts m.paren_after_comma self.old self.new) }
    {
        match self.top() {
            Some(Frame::Group(0)) => {
                self.leave();
                self.put(Step::MakeTuple(0))
            }
            Some(Frame::Group(n)) => {
                self.leave();
                self.emit(Step::MakeTuple(n))?;
                self.put(Step::Grouped)
            }
            Some(Frame::Call(n)) => {
                self.leave();
                self.put(Step::MakeCall(n, 0))
            }
            Some(Frame::Named(name)) => self.call(alloc, name),
            _ => Ok(None),
        }
    }
}
