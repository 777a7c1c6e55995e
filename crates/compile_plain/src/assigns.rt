ghost use Rattle.std.specs.Prelude.{◌≡◌, ◌+◌, ◌++◌, ◌∷◌, [], IfOk, OnOk, length, map};
ghost use Rattle.py_tree.specs.Syntax as x;
ghost use Rattle.py_tree.specs.Joined.{expression_of, target_of};
ghost use Rattle.compile_plain.specs.Assignments.{assign_code, assign_end, augment_code, augment_end, store};
ghost use Rattle.compile_plain.specs.Expressions.{expr_end};
ghost use Rattle.compile_plain.specs.Trees.{item_code};
ghost use Rattle.compile_plain.specs.Scopes.{names_of};

use crate::block::{Block, next};
use crate::ends::end_of;
use crate::exprs::{number_of, put_expr};
use crate::scope::Scope;
use crate::site::Site;
use bytecode::instr::Instr;
use py_tree::expression::{Expr, Target};
use py_tree::operator::BinaryOp;
use py_tree::text::Text;
use std::alloc::AllocError;

/// The place behind the code of an assignment of the top that begins at a place.
pub(crate) fn end_of_assign(
    target: &Target,
    scope: &Scope<'_>,
    place: u32,
) -> Result<u32, AllocError>
    ensures { IfOk result (λ end. end ≡ assign_end (names_of scope.now) place (target_of target.now)) }
{
    match target {
        Target::Name(_) => next(place),
        Target::Names(names) => next(place)?
            .checked_add(number_of(names.len())?)
            .ok_or(AllocError),
        Target::Attr(e, _) => next(end_of(e.get(), scope, place)?),
        Target::Index(e, d) => {
            let middle = end_of(e.get(), scope, place)?;
            next(end_of(d.get(), scope, middle)?)
        }
    }
}

/// Puts the code that assigns the top.
pub(crate) fn put_assign(
    target: &Target,
    site: &Site<'_>,
    block: &mut Block,
) -> Result<(), AllocError>
    ensures cells { OnOk result (block.new.cells ≡ block.old.cells ++ assign_code (names_of site.now.scope.now) site.now.targets.raised block.old.end (target_of target.now)) }
    ensures end { OnOk result (block.new.end ≡ assign_end (names_of site.now.scope.now) block.old.end (target_of target.now)) }
{
    match target {
        Target::Name(name) => put_store(name, site, block),
        Target::Names(names) => {
            site.put(Instr::Unpack(number_of(names.len())?), block)?;
            put_stores(names.as_slice(), site, block)
        }
        Target::Attr(e, name) => {
            put_expr(e.get(), site, block)?;
            site.put(Instr::SetAttribute(name.copy(site.alloc)?), block)
        }
        Target::Index(e, d) => {
            put_expr(e.get(), site, block)?;
            put_expr(d.get(), site, block)?;
            site.put(Instr::SetItem, block)
        }
    }
}

/// Puts what binds a name to the top.
pub(crate) fn put_store(name: &Text, site: &Site<'_>, block: &mut Block) -> Result<(), AllocError>
    ensures cells { OnOk result (block.new.cells ≡ block.old.cells ++ store (names_of site.now.scope.now) site.now.targets.raised name.now ∷ []) }
    ensures end { OnOk result (block.new.end ≡ block.old.end + 1) }
{
    site.put(Instr::Store(site.scope.variable(site.alloc, name)?), block)
}

fn put_stores(names: &[Text], site: &Site<'_>, block: &mut Block) -> Result<(), AllocError>
    ensures cells { OnOk result (block.new.cells ≡ block.old.cells ++ map (store (names_of site.now.scope.now) site.now.targets.raised) names.now) }
    ensures end { OnOk result (block.new.end ≡ block.old.end + length names.now) }
{
    for name in names {
        put_store(name, site, block)?;
    }
    Ok(())
}

/// Puts the code of an augmented assignment.
pub(crate) fn put_augment(
    target: &Target,
    operator: BinaryOp,
    right: &Expr,
    site: &Site<'_>,
    block: &mut Block,
) -> Result<(), AllocError>
    ensures cells { OnOk result (block.new.cells ≡ block.old.cells ++ augment_code (names_of site.now.scope.now) site.now.targets.raised block.old.end (target_of target.now) operator (expression_of right.now)) }
    ensures end { OnOk result (block.new.end ≡ augment_end (names_of site.now.scope.now) block.old.end (target_of target.now) (expression_of right.now)) }
{
    match target {
        Target::Names(_) => Ok(()),
        Target::Name(name) => {
            site.put(site.scope.load(name), block)?;
            put_expr(right, site, block)?;
            site.put(Instr::Augment(operator), block)?;
            put_store(name, site, block)
        }
        Target::Attr(e, name) => {
            put_expr(e.get(), site, block)?;
            site.put(Instr::Copy, block)?;
            site.put(Instr::GetAttribute(name.copy(site.alloc)?), block)?;
            put_expr(right, site, block)?;
            site.put(Instr::Augment(operator), block)?;
            site.put(Instr::Swap, block)?;
            site.put(Instr::SetAttribute(name.copy(site.alloc)?), block)
        }
        Target::Index(e, d) => put_item_augment(e.get(), d.get(), operator, right, site, block),
    }
}

/// Puts the code of an augmented assignment to an item.
fn put_item_augment(
    e: &Expr,
    d: &Expr,
    operator: BinaryOp,
    right: &Expr,
    site: &Site<'_>,
    block: &mut Block,
) -> Result<(), AllocError>
    ensures cells { OnOk result (block.new.cells ≡ block.old.cells ++ augment_code (names_of site.now.scope.now) site.now.targets.raised block.old.end (x.ToIndex (expression_of e.now) (expression_of d.now)) operator (expression_of right.now)) }
    ensures end { OnOk result (block.new.end ≡ augment_end (names_of site.now.scope.now) block.old.end (x.ToIndex (expression_of e.now) (expression_of d.now)) (expression_of right.now)) }
{
    put_item(e, d, site, block)?;
    put_expr(right, site, block)?;
    site.put(Instr::Augment(operator), block)?;
    site.put(Instr::Rotate, block)?;
    site.put(Instr::SetItem, block)
}

/// Puts the code of an item that is written again: its container, its index, and then the item.
fn put_item(e: &Expr, d: &Expr, site: &Site<'_>, block: &mut Block) -> Result<(), AllocError>
    ensures cells { OnOk result (block.new.cells ≡ block.old.cells ++ item_code (names_of site.now.scope.now) site.now.targets.raised block.old.end (expression_of e.now) (expression_of d.now)) }
    ensures end { OnOk result (block.new.end ≡ expr_end (names_of site.now.scope.now) (expr_end (names_of site.now.scope.now) block.old.end (expression_of e.now)) (expression_of d.now) + 1 + 1) }
{
    put_expr(e, site, block)?;
    put_expr(d, site, block)?;
    site.put(Instr::CopyTwo, block)?;
    site.put(Instr::GetItem, block)
}

/// The place behind the code of an augmented assignment that begins at a place.
pub(crate) fn end_of_augment(
    target: &Target,
    right: &Expr,
    scope: &Scope<'_>,
    place: u32,
) -> Result<u32, AllocError>
    ensures { IfOk result (λ end. end ≡ augment_end (names_of scope.now) place (target_of target.now) (expression_of right.now)) }
{
    match target {
        Target::Names(_) => Ok(place),
        Target::Name(_) => {
            let first = end_of(right, scope, next(place)?)?;
            next(next(first)?)
        }
        Target::Attr(e, _) => {
            let read = next(next(end_of(e.get(), scope, place)?)?)?;
            next(next(next(end_of(right, scope, read)?)?)?)
        }
        Target::Index(e, d) => {
            let middle = end_of(e.get(), scope, place)?;
            let read = next(next(end_of(d.get(), scope, middle)?)?)?;
            next(next(next(end_of(right, scope, read)?)?)?)
        }
    }
}
