ghost use Rattle.std.specs.Prelude.{◌≡◌, ◌++◌, [], IfOk, OnOk, map};
ghost use Rattle.std.specs.List.{filter};
ghost use Rattle.py_tree.specs.Joined.{param_of};
ghost use Rattle.py_tree.specs.Syntax.{Text as Name};
ghost use Rattle.symbols.specs.Bindings.{first_mentions, is_global, names_of, param_names};
ghost use Rattle.symbols.specs.Names.{found, with_names};
ghost use Rattle.symbols.specs.SpecialNames.{static_in, static_under};

use crate::binding::{Binding, StaticName};
use crate::name_map::NameMap;
use crate::names::Names;
use crate::resolved::ModuleKind;
use py_tree::expression::Param;
use std::alloc::{AllocError, Global};

/// The globals of a module with these bindings: a static name is none.
#[tactic(auto, using(crate::proofs::Sets::with_names_first))]
pub(crate) fn globals_of(alloc: Global, bindings: &[Binding]) -> Result<Names<'_>, AllocError>
    ensures { IfOk result (λ names. names ≡ first_mentions (names_of (filter is_global bindings.now))) }
{
    let mut names = Names::new(alloc);
    for binding in bindings {
        if binding.static_name.is_none() {
            names.add(&binding.name)?;
        }
    }
    Ok(names)
}

/// The locals of a function with these parameters, whose body has these bindings.
#[tactic(auto, using(crate::proofs::Sets::with_names_both))]
pub(crate) fn locals_of<'a>(
    alloc: Global,
    params: &'a [Param],
    bindings: &'a [Binding],
) -> Result<Names<'a>, AllocError>
    ensures { IfOk result (λ names. names ≡ first_mentions (param_names (map param_of params.now) ++ names_of bindings.now)) }
{
    let mut names = Names::new(alloc);
    add_params(params, &mut names)?;
    add_bound(bindings, &mut names)?;
    Ok(names)
}

fn add_params<'a>(params: &'a [Param], names: &mut Names<'a>) -> Result<(), AllocError>
    ensures { OnOk result (names.new ≡ with_names names.old (param_names (map param_of params.now))) }
{
    for param in params {
        names.add(&param.name)?;
    }
    Ok(())
}

fn add_bound<'a>(bindings: &'a [Binding], names: &mut Names<'a>) -> Result<(), AllocError>
    ensures { OnOk result (names.new ≡ with_names names.old (names_of bindings.now)) }
{
    for binding in bindings {
        names.add(&binding.name)?;
    }
    Ok(())
}

/// What a module of this kind with these bindings binds to static names.
pub fn statics_of(
    alloc: Global,
    kind: ModuleKind,
    bindings: &[Binding],
) -> Result<NameMap<'_, StaticName>, AllocError>
    ensures { IfOk result (λ statics. (name : Name) → found statics name ≡ static_in kind bindings.now name) }
{
    let mut statics = NameMap::new(alloc);
    for binding in bindings {
        if let Some(name) = static_under(kind, binding.static_name) {
            statics.keep(&binding.name, name)?;
        }
    }
    Ok(statics)
}

/// The names of `typing` are static names in every module, those of `__static__` in a static one.
fn static_under(kind: ModuleKind, name: Option<StaticName>) -> Option<StaticName>
    ensures { result ≡ static_under kind name }
{
    match (kind, name) {
        (ModuleKind::Static, name) => name,
        (ModuleKind::Strict, Some(StaticName::Optional)) => Some(StaticName::Optional),
        (ModuleKind::Strict, Some(StaticName::Any)) => Some(StaticName::Any),
        (ModuleKind::Strict, _) => None,
    }
}
