ghost use Rattle.std.specs.Prelude.{◌≡◌, ◌∷◌, [], IfOk, MatchOption, length, nat_eq, option_map};
ghost use Rattle.std.specs.List.{list_any};
ghost use Rattle.py_tree.specs.Joined.{statements_of};
ghost use Rattle.py_blocks.specs.Machine as machine;
ghost use Rattle.py_blocks.specs.Rows.{row_of};
ghost use Rattle.py_blocks.specs.Views.{block_of, frame_of, frames_of, owner_of, state_of};

use crate::context::Context;
use crate::form_line::FormLine;
use crate::open_block::{Block, Owner, settled};
use lists::Items;
use py_tree::statement::Stmts;
use sqlite_items::Boxed;
use std::alloc::{AllocError, Global};

/// A block with the head of the next block within.
#[derive(Drop)]
pub(crate) struct Frame {
    block: Block,
    owner: Boxed<Owner>,
}

impl Frame {
    fn is_at(&self, indent: u32) -> bool
        ensures { result ≡ nat_eq self.now.block.indent indent }
    {
        self.block.indent == indent
    }
}

/// The outer blocks, the outermost first.
pub(crate) type Frames = Items<Frame>;

/// What is open behind the rows that were read.
#[derive(Drop)]
pub(crate) struct Builder {
    inner: Block,
    outer: Frames,
    /// The head in the last row, where its block is still to come.
    waiting: Option<Boxed<Owner>>,
}

impl Builder {
    pub fn new(alloc: Global) -> Builder
        ensures { state_of result ≡ machine.start }
    {
        Builder {
            inner: Block::fresh(0, Context::module_level(), Stmts::new(alloc)),
            outer: Frames::new(alloc),
            waiting: None,
        }
    }

    /// Whether a row of that indentation may be next.
    pub fn admits(&self, indent: u32) -> bool
        ensures { result ≡ machine.admits (state_of self.now) indent }
    {
        match self.waiting {
            Some(_) => self.inner.indent < indent,
            None => self.inner.indent == indent || has_indent(&self.outer, indent),
        }
    }

    /// The level of the last row.
    pub fn level(&self) -> usize
        ensures { result ≡ length (state_of self.now).outer }
    {
        self.outer.len()
    }

    /// What is open behind a further row, or none where that can't stand there.
    pub fn step(self, alloc: Global, row: FormLine) -> Result<Option<Builder>, AllocError>
        ensures { IfOk result (λ next. option_map state_of next ≡ machine.step (state_of self) (row_of row)) }
    {
        let Builder {
            inner,
            outer,
            waiting,
        } = self;
        match waiting {
            Some(owner) => below_head(alloc, row, outer, inner, owner),
            None => place_back(alloc, row, outer, inner),
        }
    }

    /// The statements of the module, where all blocks may end.
    pub fn finish(self, alloc: Global) -> Result<Option<Stmts>, AllocError>
        ensures { IfOk result (λ body. option_map statements_of body ≡ machine.finish (state_of self)) }
    {
        if self.waiting.is_some() {
            return Ok(None);
        }
        close(alloc, self.outer, self.inner)
    }
}

/// Whether an outer block has that indentation.
fn has_indent(outer: &Frames, indent: u32) -> bool
    ensures { result ≡ list_any (λ f. nat_eq f.block.indent indent) (frames_of outer.now) }
{
    any_at(outer.as_slice(), indent)
}

fn any_at(frames: &[Frame], indent: u32) -> bool
    ensures { result ≡ list_any (λ f. nat_eq f.block.indent indent) frames.now }
{
    frames.iter().any(|frame| frame.is_at(indent))
}

/// A row in a block of its indentation.
fn place_in(
    alloc: Global,
    row: FormLine,
    outer: Frames,
    block: Block,
) -> Result<Option<Builder>, AllocError>
    ensures { IfOk result (λ next. option_map state_of next ≡ machine.place_in (row_of row) (frames_of outer) (block_of block)) }
{
    match block.place(alloc, row.line, row.form.into_inner())? {
        Some(placed) => Ok(Some(Builder {
            inner: placed.block,
            outer,
            waiting: placed.waiting,
        })),
        None => Ok(None),
    }
}

/// The first row of a block.
fn below_head(
    alloc: Global,
    row: FormLine,
    outer: Frames,
    inner: Block,
    owner: Boxed<Owner>,
) -> Result<Option<Builder>, AllocError>
    ensures { IfOk result (λ next. option_map state_of next ≡ machine.below_head (row_of row) (frames_of outer) (block_of inner) (owner_of owner)) }
{
    if row.indent <= inner.indent {
        return Ok(None);
    }
    let context = owner.get().inside(inner.context);
    let frame = Frame {
        block: inner,
        owner,
    };
    let outer = with_frame(outer, frame)?;
    let block = Block::fresh(row.indent, context, Stmts::new(alloc));
    place_in(alloc, row, outer, block)
}

/// A row behind a whole one, in the block of its indentation, behind the ends of the blocks within.
fn place_back(
    alloc: Global,
    row: FormLine,
    mut outer: Frames,
    mut inner: Block,
) -> Result<Option<Builder>, AllocError>
    ensures { IfOk result (λ next. option_map state_of next ≡ machine.place_back (row_of row) (frames_of outer) (block_of inner)) }
{
    while inner.indent != row.indent {
        let Some(frame) = take_frame(&mut outer) else {
            return Ok(None);
        };
        let Some(block) = leave(alloc, frame, inner)? else {
            return Ok(None);
        };
        inner = block;
    }
    place_in(alloc, row, outer, inner)
}

/// The ends of all blocks.
fn close(alloc: Global, mut outer: Frames, mut inner: Block) -> Result<Option<Stmts>, AllocError>
    ensures { IfOk result (λ body. option_map statements_of body ≡ machine.close (frames_of outer) (block_of inner)) }
{
    while let Some(frame) = take_frame(&mut outer) {
        let Some(block) = leave(alloc, frame, inner)? else {
            return Ok(None);
        };
        inner = block;
    }
    body_of(alloc, inner)
}

/// The block around `inner` behind the end of `inner`, or none where that can't end.
fn leave(alloc: Global, frame: Frame, inner: Block) -> Result<Option<Block>, AllocError>
    ensures { IfOk result (λ block. option_map block_of block ≡ machine.left (frame_of frame) (block_of inner)) }
{
    let Some(body) = body_of(alloc, inner)? else {
        return Ok(None);
    };
    let Frame { block, owner } = frame;
    Ok(Some(block.put(alloc, owner.into_inner(), body)?))
}

/// The statements of a block, or none where its last can't end.
fn body_of(alloc: Global, block: Block) -> Result<Option<Stmts>, AllocError>
    ensures { IfOk result (λ body. option_map statements_of body ≡ machine.body (block_of block)) }
{
    settled(alloc, block.done, block.last)
}

#[tactic(auto, using(crate::proofs::Frames::frame_next))]
fn with_frame(mut outer: Frames, frame: Frame) -> Result<Frames, AllocError>
    ensures { IfOk result (λ all. frames_of all ≡ frame_of frame ∷ frames_of outer) }
{
    outer.push(frame)?;
    Ok(outer)
}

#[tactic(auto, using(crate::proofs::Frames::frame_next))]
fn take_frame(outer: &mut Frames) -> Option<Frame>
    ensures { MatchOption result (frames_of outer.old ≡ []) (λ frame. frames_of outer.old ≡ frame_of frame ∷ frames_of outer.new) }
{
    outer.pop()
}
