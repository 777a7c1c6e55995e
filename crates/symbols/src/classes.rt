ghost use Rattle.std.specs.Prelude.{◌≡◌, ◌++◌, ◌∷◌, [], List, IfOk, OnOk, length};
ghost use Rattle.std.specs.List.{flat_map};
ghost use Rattle.py_tree.specs.Joined.{class_of, expression_of, function_of, maybe_of, statement_of, statements_of, target_of};
ghost use Rattle.py_tree.specs.Syntax as x;
ghost use Rattle.py_tree.specs.Syntax.{Statement};
ghost use Rattle.symbols.specs.Bindings.{first_mentions};
ghost use Rattle.symbols.specs.BasePlaces.{IsPlaced};
ghost use Rattle.symbols.specs.ClassViews.{found_at, founds, joined_last, kinds_of};
ghost use Rattle.symbols.specs.Classes as spec;
ghost use Rattle.symbols.specs.Classes.{class_behind, classes_behind, name_of};
ghost use Rattle.symbols.specs.Names.{with_names};
ghost use Rattle.symbols.specs.Views.{seen};

use crate::bases::base_of;
use crate::class::OwnClass;
use crate::class_list::FoundClasses;
use crate::class_table::ClassTable;
use crate::imported::Imported;
use crate::names::Names;
use crate::outer::Outer;
use crate::scope::scope_of;
use crate::words::is_word;
use py_tree::expression::{Expr, Target, Texts};
use py_tree::statement::{ClassDef, Function, Stmt, StmtKind};
use py_tree::text::Text;
use std::alloc::{AllocError, Global};

/// The classes among these statements of a module.
pub(crate) fn classes_of(
    alloc: Global,
    outer: &Outer,
    scope: &[&Stmt],
) -> Result<FoundClasses, AllocError>
    ensures { IfOk result (λ all. founds all ≡ classes_behind outer.now [] (seen scope.now)) }
{
    let imported = Imported::new(alloc, outer)?;
    let all = classes_in(alloc, imported, scope)?;
    Ok(all.into_found())
}

fn classes_in<'a>(
    alloc: Global,
    imported: Imported<'a>,
    scope: &[&'a Stmt],
) -> Result<ClassTable<'a>, AllocError>
    ensures { IfOk result (λ all. found_at all ≡ classes_behind imported.entry [] (seen scope.now)) }
{
    let mut all = ClassTable::new(alloc, imported);
    for statement in scope {
        all = with_statement(alloc, all, *statement)?;
    }
    Ok(all)
}

/// They, with the class of a statement, if it is one, behind them.
fn with_statement<'a>(
    alloc: Global,
    all: ClassTable<'a>,
    statement: &'a Stmt,
) -> Result<ClassTable<'a>, AllocError>
    ensures outer { IfOk result (λ table. table.outer ≡ all.entry.outer) }
    ensures behind { IfOk result (λ table. (rest : List Statement) → found_at table ++ classes_behind all.entry.outer (found_at table) rest ≡ found_at all.entry ++ classes_behind all.entry.outer (found_at all.entry) (statement_of statement.now ∷ rest)) }
{
    match &statement.kind {
        StmtKind::Class(class) => { with_class(alloc, all, statement.line, class.get()) }
        _ => Ok(all),
    }
}

fn with_class<'a>(
    alloc: Global,
    all: ClassTable<'a>,
    line: u32,
    class: &'a ClassDef,
) -> Result<ClassTable<'a>, AllocError>
    ensures outer { IfOk result (λ table. table.outer ≡ all.entry.outer) }
    ensures behind { IfOk result (λ table. (rest : List Statement) → found_at table ++ classes_behind all.entry.outer (found_at table) rest ≡ found_at all.entry ++ classes_behind all.entry.outer (found_at all.entry) (x.On line (x.Class (class_of class.now)) ∷ rest)) }
{
    let own = own_class(alloc, &all, line, class)?;
    let all = all.with(&class.name, own)?;
    Ok(all)
}

/// The class that stands behind these.
fn own_class(
    alloc: Global,
    earlier: &ClassTable<'_>,
    line: u32,
    class: &ClassDef,
) -> Result<OwnClass, AllocError>
    ensures named { IfOk result (λ own. own.name ≡ name_of (class_of class.now)) }
    ensures placed { IfOk result (λ own. IsPlaced (length (kinds_of earlier.now.outer.bindings)) (length earlier.now.own) own.base) }
    ensures joined { IfOk result (λ own. joined_last earlier.now own ≡ class_behind earlier.now.outer (found_at earlier.now) line (class_of class.now)) }
{
    class_with(
        alloc,
        earlier,
        line,
        &class.name,
        &class.base,
        class.body.as_slice(),
    )
}

/// The class with that name, that base and that body which stands behind these.
fn class_with(
    alloc: Global,
    earlier: &ClassTable<'_>,
    line: u32,
    name: &Text,
    base: &Option<Expr>,
    body: &[Stmt],
) -> Result<OwnClass, AllocError>
    ensures named { IfOk result (λ own. own.name ≡ name.now) }
    ensures placed { IfOk result (λ own. IsPlaced (length (kinds_of earlier.now.outer.bindings)) (length earlier.now.own) own.base) }
    ensures joined { IfOk result (λ own. joined_last earlier.now own ≡ class_behind earlier.now.outer (found_at earlier.now) line (x.Classed name.now (maybe_of base.now) (statements_of body.now))) }
{
    let scope = scope_of(alloc, body)?;
    let name = name.copy(alloc)?;
    let slots = slots_of(alloc, scope.as_slice())?;
    let methods = methods_of(alloc, scope.as_slice())?;
    Ok(OwnClass {
        name,
        line,
        base: base_of(earlier, base),
        slots,
        methods,
    })
}

/// The slots that a class body gives, each once.
#[tactic(auto, using(crate::proofs::Sets::with_names_both))]
fn slots_of<'a>(alloc: Global, body: &[&'a Stmt]) -> Result<Texts, AllocError>
    ensures { IfOk result (λ all. all ≡ first_mentions (spec.own_slots (seen body.now))) }
{
    let mut names = Names::new(alloc);
    add_fields(body, &mut names)?;
    add_inits(alloc, body, &mut names)?;
    names.texts(alloc)
}

/// The methods of a class body, each once.
#[tactic(auto, using(crate::proofs::Sets::with_names_first))]
fn methods_of<'a>(alloc: Global, body: &[&'a Stmt]) -> Result<Texts, AllocError>
    ensures { IfOk result (λ all. all ≡ first_mentions (flat_map spec.method_names (seen body.now))) }
{
    let mut names = Names::new(alloc);
    add_methods(body, &mut names)?;
    names.texts(alloc)
}

#[tactic(auto, using(crate::proofs::Sets::with_names_append))]
fn add_fields<'a>(body: &[&'a Stmt], names: &mut Names<'a>) -> Result<(), AllocError>
    ensures { OnOk result (names.new ≡ with_names names.old (flat_map spec.field_names (seen body.now))) }
{
    for statement in body {
        add_field(*statement, names)?;
    }
    Ok(())
}

fn add_field<'a>(statement: &'a Stmt, names: &mut Names<'a>) -> Result<(), AllocError>
    ensures { OnOk result (names.new ≡ with_names names.old (spec.field_names (statement_of statement.now))) }
{
    match &statement.kind {
        StmtKind::Annotate(target, _, _) => add_target(target, names),
        _ => Ok(()),
    }
}

fn add_target<'a>(target: &'a Target, names: &mut Names<'a>) -> Result<(), AllocError>
    ensures { OnOk result (names.new ≡ with_names names.old (spec.target_name (target_of target.now))) }
{
    match target {
        Target::Name(name) => {
            names.add(name)?;
            Ok(())
        }
        _ => Ok(()),
    }
}

#[tactic(auto, using(crate::proofs::Sets::with_names_append))]
fn add_methods<'a>(body: &[&'a Stmt], names: &mut Names<'a>) -> Result<(), AllocError>
    ensures { OnOk result (names.new ≡ with_names names.old (flat_map spec.method_names (seen body.now))) }
{
    for statement in body {
        add_method(*statement, names)?;
    }
    Ok(())
}

fn add_method<'a>(statement: &'a Stmt, names: &mut Names<'a>) -> Result<(), AllocError>
    ensures { OnOk result (names.new ≡ with_names names.old (spec.method_names (statement_of statement.now))) }
{
    match &statement.kind {
        StmtKind::Def(method) => {
            names.add(&method.get().name)?;
            Ok(())
        }
        _ => Ok(()),
    }
}

#[tactic(auto, using(crate::proofs::Sets::with_names_append))]
fn add_inits<'a>(alloc: Global, body: &[&'a Stmt], names: &mut Names<'a>) -> Result<(), AllocError>
    ensures { OnOk result (names.new ≡ with_names names.old (flat_map spec.in_init (seen body.now))) }
{
    for statement in body {
        add_statement_init(alloc, *statement, names)?;
    }
    Ok(())
}

fn add_statement_init<'a>(
    alloc: Global,
    statement: &'a Stmt,
    names: &mut Names<'a>,
) -> Result<(), AllocError>
    ensures { OnOk result (names.new ≡ with_names names.old (spec.in_init (statement_of statement.now))) }
{
    match &statement.kind {
        StmtKind::Def(method) => add_init(alloc, method.get(), names),
        _ => Ok(()),
    }
}

/// Adds what a method assigns to `self`, where it is `__init__`.
fn add_init<'a>(
    alloc: Global,
    method: &'a Function,
    names: &mut Names<'a>,
) -> Result<(), AllocError>
    ensures { OnOk result (names.new ≡ with_names names.old (spec.init_names (function_of method.now))) }
{
    if !is_word(&method.name, b"__init__") {
        return Ok(());
    }
    add_assigned(alloc, method.body.as_slice(), names)
}

fn add_assigned<'a>(
    alloc: Global,
    body: &'a [Stmt],
    names: &mut Names<'a>,
) -> Result<(), AllocError>
    ensures { OnOk result (names.new ≡ with_names names.old (spec.assigned_names (statements_of body.now))) }
{
    let scope = scope_of(alloc, body)?;
    add_selves(scope.as_slice(), names)
}

#[tactic(auto, using(crate::proofs::Sets::with_names_append))]
fn add_selves<'a>(scope: &[&'a Stmt], names: &mut Names<'a>) -> Result<(), AllocError>
    ensures { OnOk result (names.new ≡ with_names names.old (flat_map spec.self_names (seen scope.now))) }
{
    for statement in scope {
        add_self(*statement, names)?;
    }
    Ok(())
}

fn add_self<'a>(statement: &'a Stmt, names: &mut Names<'a>) -> Result<(), AllocError>
    ensures { OnOk result (names.new ≡ with_names names.old (spec.self_names (statement_of statement.now))) }
{
    match &statement.kind {
        StmtKind::Assign(target, _) => add_attribute(target, names),
        StmtKind::Annotate(target, _, _) => add_attribute(target, names),
        StmtKind::Augment(target, _, _) => add_attribute(target, names),
        _ => Ok(()),
    }
}

/// Adds NAME of `self.NAME`.
fn add_attribute<'a>(target: &'a Target, names: &mut Names<'a>) -> Result<(), AllocError>
    ensures { OnOk result (names.new ≡ with_names names.old (spec.self_attribute (target_of target.now))) }
{
    match target {
        Target::Attr(e, name) => {
            if is_self(e.get()) {
                names.add(name)?;
            }
            Ok(())
        }
        _ => Ok(()),
    }
}

fn is_self(e: &Expr) -> bool
    ensures { result ≡ spec.is_self (expression_of e.now) }
{
    match e {
        Expr::Name(object) => is_word(object, b"self"),
        _ => false,
    }
}
