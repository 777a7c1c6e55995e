ghost use Rattle.std.specs.Prelude.{◌≡◌, ◌+◌, ◌++◌, ◌∷◌, [], IfOk, OnOk, pos};
ghost use Rattle.py_tree.specs.Joined.{expression_of, expressions_of, keywords_of, pairs_of};
ghost use Rattle.compile_plain.specs.Expressions.{count, count_pairs, expr_code, expr_end, exprs_code, exprs_end, keyword_names, keywords_code, keywords_end, pairs_code, pairs_end, shape, static_code, static_end};
ghost use Rattle.bytecode.specs.declared.instr.Instr.TheVariants as i;
ghost use Rattle.compile_plain.specs.Cells.{cell};
ghost use Rattle.compile_plain.specs.Trees.{and_code, and_end, base_call_code, base_call_end, call_of, cond_code, cond_end, gathered, last_arg_code, last_arg_end, or_code, or_end, operands_code, operands_end};
ghost use Rattle.compile_plain.specs.Scopes.{names_of};

use crate::block::{Block, next};
use crate::ends::end_of;
use crate::scope::CallForm;
use crate::site::Site;
use bytecode::instr::{Instr, Shape};
use py_tree::expression::{Call, Expr, Exprs, Keyword, Keywords, Pair, Pairs, Texts};
use py_tree::operator::Const;
use py_tree::text::Text;
use py_values::exception::ExcKind;
use std::alloc::{AllocError, Global};
use symbols::binding::StaticName;

/// Puts the code of an expression.
#[cycle(exprs)]
pub(crate) fn put_expr(e: &Expr, site: &Site<'_>, block: &mut Block) -> Result<(), AllocError>
    ensures cells { OnOk result (block.new.cells ≡ block.old.cells ++ expr_code (names_of site.now.scope.now) site.now.targets.raised block.old.end (expression_of e.now)) }
    ensures end { OnOk result (block.new.end ≡ expr_end (names_of site.now.scope.now) block.old.end (expression_of e.now)) }
{
    match e {
        Expr::Nil => site.put(Instr::Nil, block),
        Expr::True => site.put(Instr::Truth(true), block),
        Expr::False => site.put(Instr::Truth(false), block),
        Expr::Int(n) => put_int(*n, site, block),
        Expr::Str(text) => site.put(Instr::Str(text.copy(site.alloc)?), block),
        Expr::Name(name) => site.put(site.scope.load(name), block),
        Expr::Tuple(items) => put_items(items, true, site, block),
        Expr::List(items) => put_items(items, false, site, block),
        Expr::Dict(pairs) => put_dict(pairs, site, block),
        Expr::Unary(operator, e) => put_one(e.get(), Instr::Unary(*operator), site, block),
        Expr::Is {
            negated,
            left,
            right,
        } => put_one(left.get(), is(*negated, *right), site, block),
        Expr::Not(e) => put_one(e.get(), Instr::Not, site, block),
        Expr::Attr(e, name) => {
            put_one(
                e.get(),
                Instr::GetAttribute(name.copy(site.alloc)?),
                site,
                block,
            )
        }
        Expr::Binary(operator, _, _) => {
            put_operands(e, site, block)?;
            site.put(Instr::Binary(*operator), block)
        }
        Expr::Compare(operator, _, _) => {
            put_operands(e, site, block)?;
            site.put(Instr::Compare(*operator), block)
        }
        Expr::Index(_, _) => {
            put_operands(e, site, block)?;
            site.put(Instr::GetItem, block)
        }
        Expr::And(_, _) => put_and(e, site, block),
        Expr::Or(_, _) => put_or(e, site, block),
        Expr::Cond { .. } => put_cond(e, site, block),
        Expr::Call(call) => put_call(call.get(), site, block),
    }
}

fn put_int(n: u128, site: &Site<'_>, block: &mut Block) -> Result<(), AllocError>
    ensures cells { OnOk result (block.new.cells ≡ block.old.cells ++ cell site.now.targets.raised (i.Int (pos n)) ∷ []) }
    ensures end { OnOk result (block.new.end ≡ block.old.end + 1) }
{
    site.put(Instr::Int(i64::try_from(n).ok().ok_or(AllocError)?), block)
}

/// Puts the code of a tuple or of a list.
#[cycle(exprs)]
#[tactic(auto, using(crate::proofs::Counts::count_is))]
fn put_items(
    items: &Exprs,
    is_tuple: bool,
    site: &Site<'_>,
    block: &mut Block,
) -> Result<(), AllocError>
    ensures cells { OnOk result (block.new.cells ≡ block.old.cells ++ (exprs_code (names_of site.now.scope.now) site.now.targets.raised block.old.end (expressions_of items.now) ++ cell site.now.targets.raised (gathered is_tuple (count (expressions_of items.now))) ∷ [])) }
    ensures end { OnOk result (block.new.end ≡ exprs_end (names_of site.now.scope.now) block.old.end (expressions_of items.now) + 1) }
{
    let count = number_of(items.len())?;
    put_exprs(items.as_slice(), site, block)?;
    site.put(gathers(is_tuple, count), block)
}

#[cycle(exprs)]
#[tactic(auto, using(crate::proofs::Counts::count_pairs_is))]
fn put_dict(pairs: &Pairs, site: &Site<'_>, block: &mut Block) -> Result<(), AllocError>
    ensures cells { OnOk result (block.new.cells ≡ block.old.cells ++ (pairs_code (names_of site.now.scope.now) site.now.targets.raised block.old.end (pairs_of pairs.now) ++ cell site.now.targets.raised (i.Dict (count_pairs (pairs_of pairs.now))) ∷ [])) }
    ensures end { OnOk result (block.new.end ≡ pairs_end (names_of site.now.scope.now) block.old.end (pairs_of pairs.now) + 1) }
{
    let count = number_of(pairs.len())?;
    put_pairs(pairs.as_slice(), site, block)?;
    site.put(Instr::Dict(count), block)
}

/// What makes a tuple or a list of so many.
fn gathers(is_tuple: bool, count: u32) -> Instr
    ensures { result ≡ gathered is_tuple count }
{
    if is_tuple {
        Instr::Tuple(count)
    } else {
        Instr::List(count)
    }
}

/// Puts the code of the two operands of an expression.
#[cycle(exprs)]
fn put_operands(e: &Expr, site: &Site<'_>, block: &mut Block) -> Result<(), AllocError>
    ensures cells { OnOk result (block.new.cells ≡ block.old.cells ++ operands_code (names_of site.now.scope.now) site.now.targets.raised block.old.end (expression_of e.now)) }
    ensures end { OnOk result (block.new.end ≡ operands_end (names_of site.now.scope.now) block.old.end (expression_of e.now)) }
{
    match e {
        Expr::Binary(_, a, b) => {
            put_expr(a.get(), site, block)?;
            put_expr(b.get(), site, block)
        }
        Expr::Compare(_, a, b) => {
            put_expr(a.get(), site, block)?;
            put_expr(b.get(), site, block)
        }
        Expr::Index(a, b) => {
            put_expr(a.get(), site, block)?;
            put_expr(b.get(), site, block)
        }
        _ => Ok(()),
    }
}

#[cycle(exprs)]
fn put_and(e: &Expr, site: &Site<'_>, block: &mut Block) -> Result<(), AllocError>
    ensures cells { OnOk result (block.new.cells ≡ block.old.cells ++ and_code (names_of site.now.scope.now) site.now.targets.raised block.old.end (expression_of e.now)) }
    ensures end { OnOk result (block.new.end ≡ and_end (names_of site.now.scope.now) block.old.end (expression_of e.now)) }
{
    if let Expr::And(a, b) = e {
        put_expr(a.get(), site, block)?;
        let end = end_of(b.get(), site.scope, next(block.end)?)?;
        site.put(Instr::KeepUnless(end), block)?;
        put_expr(b.get(), site, block)?;
    }
    Ok(())
}

#[cycle(exprs)]
fn put_or(e: &Expr, site: &Site<'_>, block: &mut Block) -> Result<(), AllocError>
    ensures cells { OnOk result (block.new.cells ≡ block.old.cells ++ or_code (names_of site.now.scope.now) site.now.targets.raised block.old.end (expression_of e.now)) }
    ensures end { OnOk result (block.new.end ≡ or_end (names_of site.now.scope.now) block.old.end (expression_of e.now)) }
{
    if let Expr::Or(a, b) = e {
        put_expr(a.get(), site, block)?;
        let end = end_of(b.get(), site.scope, next(block.end)?)?;
        site.put(Instr::KeepIf(end), block)?;
        put_expr(b.get(), site, block)?;
    }
    Ok(())
}

/// Puts the code of `yes if test else no`.
#[cycle(exprs)]
fn put_cond(e: &Expr, site: &Site<'_>, block: &mut Block) -> Result<(), AllocError>
    ensures cells { OnOk result (block.new.cells ≡ block.old.cells ++ cond_code (names_of site.now.scope.now) site.now.targets.raised block.old.end (expression_of e.now)) }
    ensures end { OnOk result (block.new.end ≡ cond_end (names_of site.now.scope.now) block.old.end (expression_of e.now)) }
{
    if let Expr::Cond { test, yes, no } = e {
        put_expr(test.get(), site, block)?;
        let second = next(end_of(yes.get(), site.scope, next(block.end)?)?)?;
        let end = end_of(no.get(), site.scope, second)?;
        site.put(Instr::JumpUnless(second), block)?;
        put_expr(yes.get(), site, block)?;
        site.put(Instr::Jump(end), block)?;
        put_expr(no.get(), site, block)?;
    }
    Ok(())
}

/// Puts the code of an operand, and an instruction behind it.
#[cycle(exprs)]
fn put_one(e: &Expr, last: Instr, site: &Site<'_>, block: &mut Block) -> Result<(), AllocError>
    ensures cells { OnOk result (block.new.cells ≡ block.old.cells ++ (expr_code (names_of site.now.scope.now) site.now.targets.raised block.old.end (expression_of e.now) ++ cell site.now.targets.raised last ∷ [])) }
    ensures end { OnOk result (block.new.end ≡ expr_end (names_of site.now.scope.now) block.old.end (expression_of e.now) + 1) }
{
    put_expr(e, site, block)?;
    site.put(last, block)
}

#[cycle(exprs)]
fn put_call(call: &Call, site: &Site<'_>, block: &mut Block) -> Result<(), AllocError>
    ensures cells { OnOk result (block.new.cells ≡ block.old.cells ++ expr_code (names_of site.now.scope.now) site.now.targets.raised block.old.end (call_of call.now)) }
    ensures end { OnOk result (block.new.end ≡ expr_end (names_of site.now.scope.now) block.old.end (call_of call.now)) }
{
    match site.scope.form(&call.callee) {
        CallForm::Plain => {
            let Call { callee, args, keys } = call;
            put_expr(callee, site, block)?;
            put_exprs(args.as_slice(), site, block)?;
            put_keywords(keys.as_slice(), site, block)?;
            site.put(Instr::Call(shape_of(site.alloc, args, keys)?), block)
        }
        CallForm::Super(name) => put_base(call, name, site, block),
        CallForm::Static(name) => {
            put_last(call, site, block)?;
            put_static(name, site, block)
        }
    }
}

/// Puts the code of a call of a method of a base.
#[cycle(exprs)]
fn put_base(call: &Call, name: &Text, site: &Site<'_>, block: &mut Block) -> Result<(), AllocError>
    ensures cells { OnOk result (block.new.cells ≡ block.old.cells ++ base_call_code (names_of site.now.scope.now) site.now.targets.raised block.old.end name.now (call_of call.now)) }
    ensures end { OnOk result (block.new.end ≡ base_call_end (names_of site.now.scope.now) block.old.end (call_of call.now)) }
{
    if site.scope.class().is_none() {
        return site.put(Instr::Fail(ExcKind::TypeError), block);
    }
    site.put(site.scope.load_receiver(site.alloc)?, block)?;
    site.put(Instr::IsReceiver(name.copy(site.alloc)?), block)?;
    put_exprs(call.args.as_slice(), site, block)?;
    put_keywords(call.keys.as_slice(), site, block)?;
    let shape = shape_of(site.alloc, &call.args, &call.keys)?;
    site.put(Instr::CallBase(name.copy(site.alloc)?, shape), block)
}

/// Puts the code of the last argument alone.
#[cycle(exprs)]
fn put_last(call: &Call, site: &Site<'_>, block: &mut Block) -> Result<(), AllocError>
    ensures cells { OnOk result (block.new.cells ≡ block.old.cells ++ last_arg_code (names_of site.now.scope.now) site.now.targets.raised block.old.end (call_of call.now)) }
    ensures end { OnOk result (block.new.end ≡ last_arg_end (names_of site.now.scope.now) block.old.end (call_of call.now)) }
{
    match call.args.as_slice() {
        [] => site.put(Instr::Nil, block),
        [.., last] => put_expr(last, site, block),
    }
}

#[cycle(exprs)]
pub(crate) fn put_exprs(
    items: &[Expr],
    site: &Site<'_>,
    block: &mut Block,
) -> Result<(), AllocError>
    ensures cells { OnOk result (block.new.cells ≡ block.old.cells ++ exprs_code (names_of site.now.scope.now) site.now.targets.raised block.old.end (expressions_of items.now)) }
    ensures end { OnOk result (block.new.end ≡ exprs_end (names_of site.now.scope.now) block.old.end (expressions_of items.now)) }
{
    for item in items {
        put_expr(item, site, block)?;
    }
    Ok(())
}

#[cycle(exprs)]
fn put_pairs(pairs: &[Pair], site: &Site<'_>, block: &mut Block) -> Result<(), AllocError>
    ensures cells { OnOk result (block.new.cells ≡ block.old.cells ++ pairs_code (names_of site.now.scope.now) site.now.targets.raised block.old.end (pairs_of pairs.now)) }
    ensures end { OnOk result (block.new.end ≡ pairs_end (names_of site.now.scope.now) block.old.end (pairs_of pairs.now)) }
{
    for pair in pairs {
        put_expr(&pair.key, site, block)?;
        put_expr(&pair.value, site, block)?;
    }
    Ok(())
}

#[cycle(exprs)]
fn put_keywords(keys: &[Keyword], site: &Site<'_>, block: &mut Block) -> Result<(), AllocError>
    ensures cells { OnOk result (block.new.cells ≡ block.old.cells ++ keywords_code (names_of site.now.scope.now) site.now.targets.raised block.old.end (keywords_of keys.now)) }
    ensures end { OnOk result (block.new.end ≡ keywords_end (names_of site.now.scope.now) block.old.end (keywords_of keys.now)) }
{
    for key in keys {
        put_expr(&key.value, site, block)?;
    }
    Ok(())
}

fn is(negated: bool, constant: Const) -> Instr
    ensures { result ≡ i.Is negated constant }
{
    Instr::Is { negated, constant }
}

/// Puts the conversion of what a boundary is called with.
fn put_static(name: StaticName, site: &Site<'_>, block: &mut Block) -> Result<(), AllocError>
    ensures cells { OnOk result (block.new.cells ≡ block.old.cells ++ static_code site.now.targets.raised name) }
    ensures end { OnOk result (block.new.end ≡ static_end name block.old.end) }
{
    match name {
        StaticName::Int64 | StaticName::CBool | StaticName::Cast => Ok(()),
        _ => site.put(Instr::Box, block),
    }
}

#[tactic(auto, using(crate::proofs::Counts::count_is))]
fn shape_of(alloc: Global, args: &Exprs, keys: &Keywords) -> Result<Shape, AllocError>
    ensures { IfOk result (λ made. made ≡ shape (expressions_of args.now) (keywords_of keys.now)) }
{
    let positional = number_of(args.len())?;
    let keywords = spellings_of(alloc, keys.as_slice())?;
    Ok(Shape {
        positional,
        keywords,
    })
}

fn spellings_of(alloc: Global, keys: &[Keyword]) -> Result<Texts, AllocError>
    ensures { IfOk result (λ names. names ≡ keyword_names (keywords_of keys.now)) }
{
    let mut names = Texts::new(alloc);
    for key in keys {
        names.push(key.name.copy(alloc)?)?;
    }
    Ok(names)
}

/// The number of so many. Where it passes a u32 there is no memory.
pub(crate) fn number_of(count: usize) -> Result<u32, AllocError>
    ensures { IfOk result (λ number. number ≡ count) }
{
    u32::try_from(count).ok().ok_or(AllocError)
}
