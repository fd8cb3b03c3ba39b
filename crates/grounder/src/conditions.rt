ghost use Rattle.std.specs.Prelude.{◌≡◌, ◌==◌, IfOk};
ghost use Rattle.std.specs.List.{list_all};
ghost use Rattle.grounder.specs.Sources.{source_of, object_of, atom_name as name_of_atom};
ghost use Rattle.grounder.specs.Starts.{is_true as is_true_at};
ghost use Rattle.grounder.specs.Rigid.{is_so, is_static as is_static_of, holds as holds_of};
ghost use Rattle.grounder.specs.Kept.{is_known_in, allows as allows_of, conditions_allow};

use crate::sources::{atom_name, object_of};
use crate::start::Start;
use crate::tables::{is_static_predicate, is_true};
use crate::values::{compare, is_known, is_static_value, worth};
use pddl_domain::Schema;
use pddl_meaning::{Atom, Condition, Term};
use std::alloc::Global;
use tp_spec::NoMemory;

/// Whether a test comes out as it is wanted.
pub fn is_so(positive: bool, is: bool) -> bool
    ensures { result ≡ is_so positive is }
{
    if positive { is } else { !is }
}

/// Whether a condition is static: an object equality or its negation, a literal of a static
/// predicate, or a comparison whose functions are all static.
pub fn is_static(start: &Start, condition: &Condition) -> bool
    ensures { result ≡ is_static_of (source_of start.now.source) condition.now }
{
    match condition {
        Condition::Lit { atom, .. } => is_static_predicate(start, atom.head),
        Condition::Same { .. } => true,
        Condition::Compare { left, right, .. } => is_static_value(start, left)
            && is_static_value(start, right),
    }
}

/// Whether two terms stand for one object.
pub fn are_same(objects: &[u32], left: Term, right: Term) -> bool
    ensures { result ≡ (object_of objects.now left == object_of objects.now right) }
{
    object_of(objects, left) == object_of(objects, right)
}

/// Whether an atom is true at the start under a substitution.
fn is_true_of(alloc: Global, start: &Start, objects: &[u32], atom: &Atom) -> Result<bool, NoMemory>
    ensures { IfOk result (λ is. is ≡ is_true_at (source_of start.now.source)
        (name_of_atom (source_of start.now.source) objects.now atom.now)) }
{
    let name = atom_name(alloc, &start.source, objects, atom)?;
    let is = is_true(start, name.as_str());
    Ok(is)
}

/// Whether a condition holds at the start under a substitution.
pub fn holds(
    alloc: Global,
    start: &Start,
    objects: &[u32],
    condition: &Condition,
) -> Result<bool, NoMemory>
    ensures { IfOk result (λ is. is
        ≡ holds_of (source_of start.now.source) objects.now condition.now) }
{
    match condition {
        Condition::Lit { positive, atom } => {
            let is = is_true_of(alloc, start, objects, atom)?;
            Ok(is_so(*positive, is))
        }
        Condition::Same {
            positive,
            left,
            right,
        } => Ok(is_so(*positive, are_same(objects, *left, *right))),
        Condition::Compare { op, left, right } => {
            let left = worth(alloc, start, objects, left)?;
            let right = worth(alloc, start, objects, right)?;
            Ok(compare(*op, left, right))
        }
    }
}

/// Whether what a condition reads is known.
fn is_known_in(
    alloc: Global,
    start: &Start,
    objects: &[u32],
    condition: &Condition,
) -> Result<bool, NoMemory>
    ensures { IfOk result (λ is. is
        ≡ is_known_in (source_of start.now.source) objects.now condition.now) }
{
    match condition {
        Condition::Lit { .. } => Ok(true),
        Condition::Same { .. } => Ok(true),
        Condition::Compare { left, right, .. } => {
            let left = is_known(alloc, start, objects, left)?;
            let right = is_known(alloc, start, objects, right)?;
            Ok(left && right)
        }
    }
}

/// Whether a condition stands in no way of a ground action.
fn allows(
    alloc: Global,
    start: &Start,
    objects: &[u32],
    condition: &Condition,
) -> Result<bool, NoMemory>
    ensures { IfOk result (λ is. is
        ≡ allows_of (source_of start.now.source) objects.now condition.now) }
{
    let holds = holds(alloc, start, objects, condition)?;
    let known = is_known_in(alloc, start, objects, condition)?;
    Ok((!is_static(start, condition) || holds) && known)
}

/// Whether each of some conditions allows a ground action.
fn all_allow(
    alloc: Global,
    start: &Start,
    objects: &[u32],
    conditions: &[Condition],
) -> Result<bool, NoMemory>
    ensures { IfOk result (λ is. is
        ≡ list_all (allows_of (source_of start.now.source) objects.now) conditions.now) }
{
    for condition in conditions {
        if !allows(alloc, start, objects, condition)? {
            return Ok(false);
        }
    }
    Ok(true)
}

/// Whether the conditions of an action allow it, of every time label.
pub fn conditions_allow(
    alloc: Global,
    start: &Start,
    schema: &Schema,
    objects: &[u32],
) -> Result<bool, NoMemory>
    ensures { IfOk result (λ is. is
        ≡ conditions_allow (source_of start.now.source) schema.now objects.now) }
{
    let first = all_allow(alloc, start, objects, schema.start_conds.as_slice())?;
    let all = all_allow(alloc, start, objects, schema.all_conds.as_slice())?;
    let last = all_allow(alloc, start, objects, schema.end_conds.as_slice())?;
    Ok(first && all && last)
}
