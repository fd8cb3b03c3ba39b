ghost use Rattle.std.specs.Prelude.{◌≡◌, ◌&&◌, length, IfOk};
ghost use Rattle.std.specs.List.{list_all, list_any};
ghost use Rattle.grounder.specs.Sources.{source_of};
ghost use Rattle.grounder.specs.Cuts.{is_bound as is_bound_by, is_bound_value as is_bound_value_by, is_bound_in, fails as fails_by, has_failed as has_failed_by};

use crate::conditions::{holds, is_static};
use crate::start::Start;
use pddl_domain::Schema;
use pddl_meaning::{Condition, Term, Value};
use std::alloc::Global;
use tp_spec::NoMemory;

/// Whether a term stands for an object once so many parameters are bound.
fn is_bound(number: usize, term: Term) -> bool
    ensures { result ≡ is_bound_by number term }
{
    match term {
        Term::Parameter(parameter) => (parameter as usize) < number,
        Term::Object(_) => true,
    }
}

fn are_bound(number: usize, terms: &[Term]) -> bool
    ensures { result ≡ list_all (is_bound_by number) terms.now }
{
    terms.iter().all(|term| is_bound(number, *term))
}

/// Whether each function term of an expression is over bound parameters.
fn is_bound_value(number: usize, value: &Value) -> bool
    ensures { result ≡ is_bound_value_by number value.now }
{
    match value {
        Value::Number(_) => true,
        Value::Call(atom) => are_bound(number, atom.terms.as_slice()),
        Value::Sum(left, right) => is_bound_value(number, left.get())
            && is_bound_value(number, right.get()),
        Value::Difference(left, right) => is_bound_value(number, left.get())
            && is_bound_value(number, right.get()),
    }
}

/// Whether a condition is over bound parameters alone.
fn is_bound_cond(number: usize, condition: &Condition) -> bool
    ensures { result ≡ is_bound_in number condition.now }
{
    match condition {
        Condition::Lit { atom, .. } => are_bound(number, atom.terms.as_slice()),
        Condition::Same { left, right, .. } => is_bound(number, *left) && is_bound(number, *right),
        Condition::Compare { left, right, .. } => is_bound_value(number, left)
            && is_bound_value(number, right),
    }
}

/// Whether a static condition over bound parameters does not hold.
fn fails(
    alloc: Global,
    start: &Start,
    objects: &[u32],
    condition: &Condition,
) -> Result<bool, NoMemory>
    ensures { IfOk result (λ is. is
        ≡ fails_by (source_of start.now.source) objects.now condition.now) }
{
    if !(is_bound_cond(objects.len(), condition) && is_static(start, condition)) {
        return Ok(false);
    }
    let holds = holds(alloc, start, objects, condition)?;
    Ok(!holds)
}

fn any_fails(
    alloc: Global,
    start: &Start,
    objects: &[u32],
    conditions: &[Condition],
) -> Result<bool, NoMemory>
    ensures { IfOk result (λ is. is
        ≡ list_any (fails_by (source_of start.now.source) objects.now) conditions.now) }
{
    for condition in conditions {
        if fails(alloc, start, objects, condition)? {
            return Ok(true);
        }
    }
    Ok(false)
}

/// Whether a static condition of an action, of any time label, is over the first parameters and
/// does not hold of these objects.
pub fn has_failed(
    alloc: Global,
    start: &Start,
    schema: &Schema,
    objects: &[u32],
) -> Result<bool, NoMemory>
    ensures { IfOk result (λ is. is
        ≡ has_failed_by (source_of start.now.source) schema.now objects.now) }
{
    let first = any_fails(alloc, start, objects, schema.start_conds.as_slice())?;
    let all = any_fails(alloc, start, objects, schema.all_conds.as_slice())?;
    let last = any_fails(alloc, start, objects, schema.end_conds.as_slice())?;
    Ok(first || all || last)
}
