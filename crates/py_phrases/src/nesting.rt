ghost use Rattle.std.specs.Prelude.{◌≡◌, ◌+◌, ℕ, List, ◌∷◌, OnOk, IfOk, reverse};
ghost use Rattle.py_phrases.specs.Emitted as m;
ghost use Rattle.py_phrases.specs.Views.{step_of, steps_of, top, rest};

use crate::machine::Step;
use crate::reader::one_more;
use std::alloc::{AllocError, Global};

fn sum(a: usize, b: usize) -> Result<usize, AllocError>
    ensures { IfOk result (λ total. total ≡ a + b) }
{
    match a.checked_add(b) {
        Some(total) => Ok(total),
        None => Err(AllocError),
    }
}

/// The number of trees that the step puts under one; none where it puts no node.
fn parts(step: Step) -> Result<Option<usize>, AllocError>
    ensures { IfOk result (λ parts. parts ≡ m.parts (step_of step.entry)) }
{
    Ok(Some(match step {
        Step::JoinText(_) | Step::Grouped => return Ok(None),
        Step::MakeTuple(n) | Step::MakeList(n) => n,
        Step::MakeDict(n) => sum(n, n)?,
        Step::MakeCall(n, k) => sum(sum(sum(k, k)?, n)?, 1)?,
        Step::MakeUnary(_) | Step::MakeIs(..) | Step::MakeNot | Step::MakeAttr(_) => 1,
        Step::MakeBinary(_)
        | Step::MakeCompare(_)
        | Step::MakeAnd
        | Step::MakeOr
        | Step::MakeIndex => 2,
        Step::MakeCond => 3,
        _ => 0,
    }))
}

fn take_top(numbers: &mut Vec<usize>) -> Option<usize>
    ensures top { result ≡ top (reverse numbers.old.items) }
    ensures rest { reverse numbers.new.items ≡ rest (reverse numbers.old.items) }
{
    numbers.pop()
}

#[tactic(auto, using(crate::proofs::Nested::over_next, crate::proofs::Nested::over_end))]
fn over(numbers: &mut Vec<usize>, count: usize) -> Result<(), AllocError>
    ensures { OnOk result (reverse numbers.new.items ≡ m.over count 0 (reverse numbers.old.items)) }
{
    let mut deepest = 0;
    for _ in 0..count {
        match take_top(numbers) {
            Some(n) => deepest = n.max(deepest),
            None => return Ok(()),
        }
    }
    numbers.push(one_more(deepest)?)?;
    Ok(())
}

fn nest(numbers: &mut Vec<usize>, step: Step) -> Result<(), AllocError>
    ensures { OnOk result (reverse numbers.new.items ≡ m.nest (m.parts (step_of step.entry)) (reverse numbers.old.items)) }
{
    match parts(step)? {
        Some(count) => over(numbers, count),
        None => Ok(()),
    }
}

/// The nesting of the tree that the steps build. One step alone builds a tree without parts.
pub fn nesting_of(alloc: Global, steps: &[Step]) -> Result<usize, AllocError>
    ensures { IfOk result (λ n. (k : ℕ) (o : List ℕ) → m.nestings (steps_of steps.now) ≡ k ∷ o → n ≡ k) }
{
    match steps {
        [_] => Ok(1),
        _ => counted(alloc, steps),
    }
}

/// The nesting of the tree that the steps build, by the nestings of its parts.
fn counted(alloc: Global, steps: &[Step]) -> Result<usize, AllocError>
    ensures { IfOk result (λ n. (k : ℕ) (o : List ℕ) → m.nestings (steps_of steps.now) ≡ k ∷ o → n ≡ k) }
{
    let mut numbers = Vec::new(alloc);
    for step in steps {
        nest(&mut numbers, *step)?;
    }
    Ok(numbers.pop().unwrap_or(0))
}
