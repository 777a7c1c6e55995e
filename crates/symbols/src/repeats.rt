ghost use Rattle.std.specs.Prelude.{◌≡◌, List, [], ◌∷◌, ◌++◌, Some, IfOk, OnOk};
ghost use Rattle.std.specs.List.{filter, flat_map};
ghost use Rattle.py_tree.specs.Syntax.{Text as Name};
ghost use Rattle.symbols.specs.Bindings.{first_mentions, names_of};
ghost use Rattle.symbols.specs.Faults as spec;
ghost use Rattle.symbols.specs.Faults.{is_definition, is_named};
ghost use Rattle.symbols.specs.Names.{found};
ghost use Rattle.symbols.specs.Repeats.{IsRepeats, bound_with, seconds};
ghost use Rattle.symbols.specs.declared.binding.Binding.{Binding as Bound};

use crate::binding::Binding;
use crate::kinds::Kinds;
use crate::name_map::NameMap;
use crate::names::Names;
use crate::special_lines::Lines;
use std::alloc::{AllocError, Global};

/// What is known of the bindings of one name.
#[derive(Clone, Copy)]
pub(crate) struct Repeats {
    kinds: Kinds,
    /// The line of the second of them.
    second: Option<u32>,
}

impl Repeats {
    /// With one binding more.
    fn with(known: Option<Repeats>, binding: &Binding) -> Repeats
        ensures { (earlier : List Bound) → IsRepeats earlier known → IsRepeats (earlier ++ binding.now ∷ []) (Some result) }
    {
        let kind = Kinds::of(binding.kind);
        match known {
            Some(known) => Repeats {
                kinds: known.kinds.and(kind),
                second: Some(known.second.unwrap_or(binding.line)),
            },
            None => Repeats {
                kinds: kind,
                second: None,
            },
        }
    }
}

/// The line of the second binding of each name that has two, where one of its bindings is an import, a def or a class.
#[tactic(auto, using(crate::proofs::Again::of_definitions))]
pub(crate) fn definitions_again(alloc: Global, bindings: &[Binding]) -> Result<Lines, AllocError>
    ensures { IfOk result (λ lines. lines ≡ spec.bound_again is_definition bindings.now) }
{
    again(alloc, bindings, Kinds::definitions())
}

/// The line of the second binding of each name that has two.
#[tactic(auto, using(crate::proofs::Again::of_any))]
pub(crate) fn members_again(alloc: Global, bindings: &[Binding]) -> Result<Lines, AllocError>
    ensures { IfOk result (λ lines. lines ≡ spec.bound_again spec.is_any bindings.now) }
{
    again(alloc, bindings, Kinds::any())
}

/// The line of the second binding of each name that has two, where one of its bindings is of these kinds.
fn again(alloc: Global, bindings: &[Binding], wanted: Kinds) -> Result<Lines, AllocError>
    ensures { IfOk result (λ lines. lines ≡ bound_with wanted.0 bindings.now) }
{
    let repeats = repeats_in(alloc, bindings)?;
    let names = names_in(alloc, bindings)?;
    lines_of(alloc, names.as_slice(), &repeats, wanted)
}

/// What is known of each name.
fn repeats_in(alloc: Global, bindings: &[Binding]) -> Result<NameMap<'_, Repeats>, AllocError>
    ensures { IfOk result (λ repeats. (name : Name) → IsRepeats (filter (is_named name) bindings.now) (found repeats name)) }
{
    let mut repeats = NameMap::new(alloc);
    for binding in bindings {
        let known = repeats.get(&binding.name);
        repeats.put(&binding.name, Repeats::with(known, binding))?;
    }
    Ok(repeats)
}

/// The names, each once.
#[tactic(auto, using(crate::proofs::Sets::with_names_first))]
fn names_in(alloc: Global, bindings: &[Binding]) -> Result<Names<'_>, AllocError>
    ensures { IfOk result (λ names. names ≡ first_mentions (names_of bindings.now)) }
{
    let mut names = Names::new(alloc);
    for binding in bindings {
        names.add(&binding.name)?;
    }
    Ok(names)
}

/// The lines of the second bindings of names that have some of these kinds.
fn lines_of(
    alloc: Global,
    names: &[&[char]],
    repeats: &NameMap<'_, Repeats>,
    wanted: Kinds,
) -> Result<Lines, AllocError>
    ensures { IfOk result (λ lines. lines ≡ flat_map (λ name. seconds wanted.0 (found repeats.now name.now)) names.now) }
{
    let mut lines = Lines::new(alloc);
    for name in names {
        if let Some(known) = repeats.of_points(name) {
            put_second(known, wanted, &mut lines)?;
        }
    }
    Ok(lines)
}

fn put_second(known: Repeats, wanted: Kinds, lines: &mut Lines) -> Result<(), AllocError>
    ensures { OnOk result (lines.new ≡ lines.old ++ seconds wanted.0 (Some known)) }
{
    match known.second {
        Some(line) if known.kinds.meets(wanted) => lines.push(line),
        _ => Ok(()),
    }
}
