ghost use Rattle.std.specs.Prelude.{◌≡◌, ◌++◌, IfOk, OnOk};
ghost use Rattle.py_tree.specs.declared.code.Code.TheVariants as code;
ghost use Rattle.std.specs.List.{flat_map};
ghost use Rattle.symbols.specs.Unders.{context_under};
ghost use Rattle.symbols.specs.ClassViews.{founds};
ghost use Rattle.symbols.specs.Faults.{coded};
ghost use Rattle.symbols.specs.FirstFaults.{IsFirstOf};
ghost use Rattle.symbols.specs.Parts.{faults_of, twice_lines, special_in, special_with, class_faults, late_lines};
ghost use Rattle.symbols.specs.SpecialNames.{module_lines};
ghost use Rattle.symbols.specs.Views.{seen};

use crate::binding::Binding;
use crate::bound_names::statics_of;
use crate::class_faults::{bad_lines, clash_lines, put_repeated_members};
use crate::class_list::FoundClasses;
use crate::context::{Context, Statics};
use crate::first_fault::{Faults, first_of, put_faults};
use crate::functions::{FunctionAt, repeated_params};
use crate::imports::{late_imports, module_kind};
use crate::names::Names;
use crate::repeats::definitions_again;
use crate::resolved::ModuleKind;
use crate::special_lines::{Lines, special_lines};
use py_tree::code::Code;
use py_tree::fault::Fault;
use py_tree::statement::Stmt;
use std::alloc::{AllocError, Global};

/// What is known of a module's names before its faults are looked for.
#[derive(Clone, Copy)]
pub(crate) struct Parts<'a> {
    pub body: &'a [Stmt],
    pub bindings: &'a [Binding],
    /// The statements of the module's own scope.
    pub scope: &'a [&'a Stmt],
    pub functions: &'a [FunctionAt<'a>],
}

impl<'a> Parts<'a> {
    /// The first fault of the module's names.
    pub fn first_fault(
        &self,
        alloc: Global,
        classes: &FoundClasses,
    ) -> Result<Option<Fault>, AllocError>
        ensures { IfOk result (λ first. IsFirstOf (faults_of self.now (founds classes.now)) first) }
    {
        let faults = self.faults(alloc, classes)?;
        Ok(first_of(faults.as_slice()))
    }

    fn faults(&self, alloc: Global, classes: &FoundClasses) -> Result<Faults, AllocError>
        ensures { IfOk result (λ faults. faults ≡ faults_of self.now (founds classes.now)) }
    {
        let mut faults = Faults::new(alloc);
        put_class_faults(alloc, classes, &mut faults)?;
        self.put_repeats(alloc, &mut faults)?;
        self.put_late_imports(alloc, &mut faults)?;
        self.put_special_names(alloc, &mut faults)?;
        Ok(faults)
    }

    fn put_repeats(&self, alloc: Global, faults: &mut Faults) -> Result<(), AllocError>
        ensures { OnOk result (faults.new ≡ faults.old ++ coded code.BoundTwice (twice_lines self.now)) }
    {
        let lines = self.repeats(alloc)?;
        put_faults(Code::BoundTwice, lines.as_slice(), faults)
    }

    /// The lines of names that are bound twice.
    fn repeats(&self, alloc: Global) -> Result<Lines, AllocError>
        ensures { IfOk result (λ lines. lines ≡ twice_lines self.now) }
    {
        let mut lines = definitions_again(alloc, self.bindings)?;
        put_repeated_members(alloc, self.scope, &mut lines)?;
        lines.append(repeated_params(alloc, self.functions)?)?;
        Ok(lines)
    }

    fn put_late_imports(&self, alloc: Global, faults: &mut Faults) -> Result<(), AllocError>
        ensures { OnOk result (faults.new ≡ faults.old ++ coded code.LateImport (late_lines self.now)) }
    {
        let lines = late_imports(alloc, self.body, self.functions)?;
        put_faults(Code::LateImport, lines.as_slice(), faults)
    }

    fn put_special_names(&self, alloc: Global, faults: &mut Faults) -> Result<(), AllocError>
        ensures { OnOk result (faults.new ≡ faults.old ++ coded code.SpecialName (special_in self.now)) }
    {
        let lines = special_names(alloc, module_kind(self.body), self.bindings, self.scope)?;
        put_faults(Code::SpecialName, lines.as_slice(), faults)
    }
}

/// The lines of names that stand where they may not, in a module of this kind with these bindings.
fn special_names(
    alloc: Global,
    kind: ModuleKind,
    bindings: &[Binding],
    scope: &[&Stmt],
) -> Result<Lines, AllocError>
    ensures { IfOk result (λ lines. lines ≡ special_with kind bindings.now (seen scope.now)) }
{
    let statics = statics_of(alloc, kind, bindings)?;
    special_under(alloc, &statics, scope)
}

fn special_under(alloc: Global, statics: &Statics<'_>, scope: &[&Stmt]) -> Result<Lines, AllocError>
    ensures { IfOk result (λ lines. lines ≡ flat_map (module_lines (context_under statics.now)) (seen scope.now)) }
{
    let locals = Names::new(alloc);
    let context = Context {
        in_class: false,
        in_method: false,
        statics,
        locals: &locals,
    };
    special_lines(alloc, scope, &context)
}

/// Puts the faults of bases and of members.
fn put_class_faults(
    alloc: Global,
    classes: &FoundClasses,
    faults: &mut Faults,
) -> Result<(), AllocError>
    ensures { OnOk result (faults.new ≡ faults.old ++ class_faults (founds classes.now)) }
{
    let bad = bad_lines(alloc, classes)?;
    put_faults(Code::BadBase, bad.as_slice(), faults)?;
    let clashes = clash_lines(alloc, classes)?;
    put_faults(Code::MemberClash, clashes.as_slice(), faults)
}
