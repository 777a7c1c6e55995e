ghost use Rattle.std.specs.Prelude.{◌≡◌, ◌<◌, ◌++◌, ◌∷◌, [], ℕ, Some, IfOk, OnOk, codes, length, slice_get};
ghost use Rattle.std.specs.List.{flat_map};
ghost use Rattle.py_tree.specs.Joined.{class_of, statement_of, target_of};
ghost use Rattle.symbols.specs.Faults as spec;
ghost use Rattle.symbols.specs.ClassOrders.{IsOrder};
ghost use Rattle.symbols.specs.ClassViews.{founds};
ghost use Rattle.symbols.specs.Lineages.{clash_at};
ghost use Rattle.symbols.specs.declared.class.BasePlace.TheVariants.{Earlier};
ghost use Rattle.symbols.specs.Views.{seen};

use crate::binding::{BindingKind, Bindings};
use crate::bindings::put_name;
use crate::class_list::FoundClasses;
use crate::class_order::order_of;
use crate::class_reading::args_slots;
use crate::lineage::Lineage;
use crate::repeats::members_again;
use crate::scope::scope_of;
use crate::special_lines::{Lines, put_line};
use py_tree::expression::{Target, Texts};
use py_tree::statement::{ClassDef, Stmt, StmtKind};
use py_tree::text::Text;
use std::alloc::{AllocError, Global};

/// The lines of the classes whose base is none.
pub(crate) fn bad_lines(alloc: Global, classes: &FoundClasses) -> Result<Lines, AllocError>
    ensures { IfOk result (λ lines. lines ≡ spec.bad_lines (founds classes.now)) }
{
    let mut lines = Lines::new(alloc);
    for class in classes.own.as_slice() {
        put_line(class.line, class.base.is_bad(), &mut lines)?;
    }
    Ok(lines)
}

/// The lines of the classes with a name that is both a slot and a method.
pub(crate) fn clash_lines(alloc: Global, classes: &FoundClasses) -> Result<Lines, AllocError>
    ensures { IfOk result (λ lines. lines ≡ spec.clash_lines (founds classes.now)) }
{
    let flags = clashes(alloc, classes)?;
    let mut lines = Lines::new(alloc);
    for (number, class) in classes.own.as_slice().iter().enumerate() {
        put_line(class.line, flags[number], &mut lines)?;
    }
    Ok(lines)
}

/// Whether a name is both a slot and a method, of each class.
fn clashes(alloc: Global, classes: &FoundClasses) -> Result<Vec<bool>, AllocError>
    ensures count { IfOk result (λ flags. length flags.items ≡ length classes.now.own) }
    ensures each { IfOk result (λ flags. (number : ℕ) → number < length classes.now.own → slice_get flags.items number ≡ Some (clash_at classes.now (Earlier number))) }
{
    let args = args_slots(alloc)?;
    let order = order_of(alloc, classes)?;
    clashes_in(alloc, classes, args.as_slice(), order.as_slice())
}

/// The same, where the classes are visited in an order that has each of them.
fn clashes_in(
    alloc: Global,
    classes: &FoundClasses,
    args: &[Text],
    order: &[usize],
) -> Result<Vec<bool>, AllocError>
    requires args { args.now ≡ codes "args" ∷ [] }
    requires all { IsOrder (length classes.now.own) order.now }
    ensures count { IfOk result (λ flags. length flags.items ≡ length classes.now.own) }
    ensures each { IfOk result (λ flags. (number : ℕ) → number < length classes.now.own → slice_get flags.items number ≡ Some (clash_at classes.now (Earlier number))) }
{
    let mut flags = vec![in alloc; false; classes.own.len()]?;
    let mut lineage = Lineage::new(alloc, classes, args);
    for number in order {
        flags[*number] = lineage.visit(alloc, *number)?;
    }
    Ok(flags)
}

/// Puts the lines of the second members of one name, of each class.
pub(crate) fn put_repeated_members(
    alloc: Global,
    scope: &[&Stmt],
    lines: &mut Lines,
) -> Result<(), AllocError>
    ensures { OnOk result (lines.new ≡ lines.old ++ flat_map spec.in_class (seen scope.now)) }
{
    for statement in scope {
        put_in_class(alloc, statement, lines)?;
    }
    Ok(())
}

fn put_in_class(alloc: Global, statement: &Stmt, lines: &mut Lines) -> Result<(), AllocError>
    ensures { OnOk result (lines.new ≡ lines.old ++ spec.in_class (statement_of statement.now)) }
{
    match &statement.kind {
        StmtKind::Class(class) => {
            let members = members_of(alloc, class.get())?;
            lines.append(members_again(alloc, members.as_slice())?)
        }
        _ => Ok(()),
    }
}

/// The members of a class.
fn members_of(alloc: Global, class: &ClassDef) -> Result<Bindings, AllocError>
    ensures { IfOk result (λ all. all ≡ spec.members (class_of class.now)) }
{
    let scope = scope_of(alloc, class.body.as_slice())?;
    members_in(alloc, scope.as_slice())
}

fn members_in(alloc: Global, scope: &[&Stmt]) -> Result<Bindings, AllocError>
    ensures { IfOk result (λ all. all ≡ flat_map spec.member_of (seen scope.now)) }
{
    let mut all = Bindings::new(alloc);
    for statement in scope {
        put_member(alloc, statement, &mut all)?;
    }
    Ok(all)
}

fn put_member(alloc: Global, statement: &Stmt, all: &mut Bindings) -> Result<(), AllocError>
    ensures { OnOk result (all.new ≡ all.old ++ spec.member_of (statement_of statement.now)) }
{
    match &statement.kind {
        StmtKind::Annotate(target, _, _) => put_field(alloc, statement.line, target, all),
        StmtKind::Def(method) => {
            put_name(
                alloc,
                statement.line,
                BindingKind::Def,
                &method.get().name,
                all,
            )
        }
        _ => Ok(()),
    }
}

fn put_field(
    alloc: Global,
    line: u32,
    target: &Target,
    all: &mut Bindings,
) -> Result<(), AllocError>
    ensures { OnOk result (all.new ≡ all.old ++ spec.field_binding line (target_of target.now)) }
{
    match target {
        Target::Name(name) => put_name(alloc, line, BindingKind::Other, name, all),
        _ => Ok(()),
    }
}
