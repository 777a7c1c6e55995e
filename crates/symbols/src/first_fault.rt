ghost use Rattle.std.specs.Prelude.{◌≡◌, ◌++◌, ◌∷◌, [], List, MatchOption, OnOk};
ghost use Rattle.symbols.specs.Faults.{IsFirst, coded};
ghost use Rattle.symbols.specs.FirstFaults.{IsFirstOf, no_later};
ghost use Rattle.py_tree.specs.declared.fault.Fault.{Fault as Known};

use lists::Items;
use py_tree::code::Code;
use py_tree::fault::Fault;
use std::alloc::AllocError;

/// Faults of a module.
pub(crate) type Faults = Items<Fault>;

/// Puts a fault of that code for each line.
pub(crate) fn put_faults(code: Code, lines: &[u32], faults: &mut Faults) -> Result<(), AllocError>
    ensures { OnOk result (faults.new ≡ faults.old ++ coded code lines.now) }
{
    for line in lines {
        faults.push(Fault { line: *line, code })?;
    }
    Ok(())
}

/// The one on the least line, and of those the one with the least code.
pub(crate) fn first_of(faults: &[Fault]) -> Option<Fault>
    ensures { IsFirstOf faults.now result }
{
    let mut first = None;
    for fault in faults {
        first = Some(earlier(first, *fault));
    }
    first
}

/// The one of two that is reported.
fn earlier(first: Option<Fault>, fault: Fault) -> Fault
    ensures { (before : List Known) → IsFirstOf before first → IsFirst (before ++ fault ∷ []) result }
{
    match first {
        Some(first) => earlier_of(first, fault),
        None => fault,
    }
}

fn earlier_of(first: Fault, fault: Fault) -> Fault
    ensures { (before : List Known) → IsFirst before first → IsFirst (before ++ fault ∷ []) result }
{
    if is_no_later(first, fault) {
        return first;
    }
    fault
}

/// Whether `a` is on an earlier line, or on the same with a code that is no greater.
pub fn is_no_later(a: Fault, b: Fault) -> bool
    ensures { result ≡ no_later a b }
{
    a.line < b.line || (a.line == b.line && a.code.number() <= b.code.number())
}
