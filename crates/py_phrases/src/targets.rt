ghost use Rattle.std.specs.Prelude.{◌≡◌, IfOk};
ghost use Rattle.py_phrases.specs.Emitted.{trees};
ghost use Rattle.py_phrases.specs.Machine as machine;
ghost use Rattle.py_phrases.specs.TargetSteps as m;
ghost use Rattle.py_phrases.specs.Views.{step_of, steps_of};

use crate::build::{build, build_all};
use crate::machine::Step;
use crate::phrase::Built;
use py_tree::expression::{Target, Texts};
use py_tree::text::Text;
use sqlite_items::Boxed;
use std::alloc::{AllocError, Global};

/// The newest of steps, and those before it.
#[derive(Clone, Copy)]
struct Newest<'s, 'a> {
    step: Step<'a>,
    before: &'s [Step<'a>],
}

fn take_newest<'s, 'a>(steps: &'s [Step<'a>]) -> Option<Newest<'s, 'a>>
    ensures { m.put_together result ≡ steps_of steps.now }
{
    match steps.split_last() {
        Some((step, before)) => Some(Newest {
            step: *step,
            before,
        }),
        None => None,
    }
}

fn behind(alloc: Global, names: Option<Texts>, name: &Text) -> Result<Option<Texts>, AllocError>
    ensures { IfOk result (λ all. all ≡ m.with_name (machine.PutName name.now) names) }
{
    match names {
        Some(names) => {
            let mut names = names;
            names.push(name.copy(alloc)?)?;
            Ok(Some(names))
        }
        None => Ok(None),
    }
}

fn with_name(alloc: Global, names: Option<Texts>, step: Step) -> Result<Option<Texts>, AllocError>
    ensures { IfOk result (λ all. all ≡ m.with_name (step_of step.entry) names) }
{
    match step {
        Step::PutName(name) => behind(alloc, names, name),
        _ => Ok(None),
    }
}

/// The names that the steps put, where they put nothing else.
fn names_of(alloc: Global, steps: &[Step]) -> Result<Option<Texts>, AllocError>
    ensures { IfOk result (λ names. names ≡ m.names_put (steps_of steps.now)) }
{
    let mut names = Some(Texts::new(alloc));
    for step in steps {
        names = with_name(alloc, names, *step)?;
    }
    Ok(names)
}

/// The target of two names or more.
fn several(names: Option<Texts>) -> Option<Target>
    ensures { m.maybe_target result ≡ m.several names }
{
    match names {
        Some(names) => {
            if names.len() < 2 {
                return None;
            }
            Some(Target::Names(names))
        }
        None => None,
    }
}

fn in_parentheses(alloc: Global, steps: &[Step]) -> Result<Option<Target>, AllocError>
    ensures { IfOk result (λ target. m.maybe_target target ≡ m.in_parentheses (steps_of steps.now)) }
{
    match take_newest(steps) {
        Some(
            Newest {
                step: Step::MakeTuple(_),
                before,
            },
        ) => Ok(several(names_of(alloc, before)?)),
        _ => Ok(None),
    }
}

fn attribute(alloc: Global, object: &[Step], name: &Text) -> Result<Option<Target>, AllocError>
    ensures { IfOk result (λ target. m.maybe_target target ≡ m.to_attribute name.now (trees (steps_of object.now))) }
{
    match build(alloc, object)? {
        Some(object) => {
            let object = Boxed::new(alloc, object)?;
            Ok(Some(Target::Attr(object, name.copy(alloc)?)))
        }
        None => Ok(None),
    }
}

fn index(alloc: Global, steps: &[Step]) -> Result<Option<Target>, AllocError>
    ensures { IfOk result (λ target. m.maybe_target target ≡ m.to_index (trees (steps_of steps.now))) }
{
    let mut objects = build_all(alloc, steps)?;
    let Some(place) = objects.pop() else {
        return Ok(None);
    };
    let Some(object) = objects.pop() else {
        return Ok(None);
    };
    let object = Boxed::new(alloc, object)?;
    Ok(Some(Target::Index(object, Boxed::new(alloc, place)?)))
}

fn by_newest(alloc: Global, step: Step, before: &[Step]) -> Result<Option<Target>, AllocError>
    ensures { IfOk result (λ target. m.maybe_target target ≡ m.by_newest (step_of step.entry) (steps_of before.now)) }
{
    match step {
        Step::PutName(name) => Ok(Some(Target::Name(name.copy(alloc)?))),
        Step::MakeAttr(name) => attribute(alloc, before, name),
        Step::MakeIndex => index(alloc, before),
        Step::MakeTuple(_) => Ok(several(names_of(alloc, before)?)),
        Step::Grouped => in_parentheses(alloc, before),
        _ => Ok(None),
    }
}

/// The target that the steps of a phrase spell, if they spell one.
pub fn target_in(alloc: Global, steps: &[Step]) -> Result<Option<Target>, AllocError>
    ensures { IfOk result (λ target. m.maybe_target target ≡ m.target_in (steps_of steps.now)) }
{
    match take_newest(steps) {
        Some(newest) => by_newest(alloc, newest.step, newest.before),
        None => Ok(None),
    }
}

/// The answer for a phrase that is nested too deep for a target of names.
pub fn deep(steps: &[Step]) -> Option<Built<Target>>
    ensures { result ≡ m.deep (steps_of steps.now) }
{
    match take_newest(steps) {
        Some(
            Newest {
                step: Step::MakeAttr(_) | Step::MakeIndex,
                ..
            },
        ) => Some(Built::TooDeep),
        _ => None,
    }
}
