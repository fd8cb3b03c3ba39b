ghost use Rattle.std.specs.Prelude.{◌≡◌, not, IfOk};
ghost use Rattle.std.specs.List.{list_all};
ghost use Rattle.tp_spec.specs.Lists.{each_pair};
ghost use Rattle.tp_spec.specs.WellFormed.{is_relative as is_relative_of};
ghost use Rattle.std.specs.Str.{bytes_eq};
ghost use Rattle.grounder.specs.Sources.{source_of, call_name as name_of_call};
ghost use Rattle.grounder.specs.Kept.{is_known_by, rewrites as rewrites_of, are_sound as are_sound_of, is_kept as is_kept_of};

use crate::conditions::conditions_allow;
use crate::durations::has_length;
use crate::sources::call_name;
use crate::start::Start;
use crate::values::is_known;
use pddl_domain::Schema;
use pddl_meaning::{Atom, Change};
use std::alloc::Global;
use tp_spec::{How, NoMemory};

/// Whether what an effect reads is known.
fn is_known_by(
    alloc: Global,
    start: &Start,
    objects: &[u32],
    change: &Change,
) -> Result<bool, NoMemory>
    ensures { IfOk result (λ is. is
        ≡ is_known_by (source_of start.now.source) objects.now change.now) }
{
    match change {
        Change::Lit { .. } => Ok(true),
        Change::Update { value, .. } => is_known(alloc, start, objects, value),
    }
}

fn all_known(
    alloc: Global,
    start: &Start,
    objects: &[u32],
    changes: &[Change],
) -> Result<bool, NoMemory>
    ensures { IfOk result (λ is. is
        ≡ list_all (is_known_by (source_of start.now.source) objects.now) changes.now) }
{
    for change in changes {
        if !is_known_by(alloc, start, objects, change)? {
            return Ok(false);
        }
    }
    Ok(true)
}

fn is_relative(how: How) -> bool
    ensures { result ≡ is_relative_of how }
{
    match how {
        How::Increase => true,
        How::Decrease => true,
        How::Assign => false,
    }
}

/// Whether two function terms have one name under a substitution.
fn are_one(
    alloc: Global,
    start: &Start,
    objects: &[u32],
    left: &Atom,
    right: &Atom,
) -> Result<bool, NoMemory>
    ensures { IfOk result (λ are. are
        ≡ bytes_eq (name_of_call (source_of start.now.source) objects.now left.now)
        (name_of_call (source_of start.now.source) objects.now right.now)) }
{
    let left = call_name(alloc, &start.source, objects, left)?;
    let right = call_name(alloc, &start.source, objects, right)?;
    let are = left.as_bytes() == right.as_bytes();
    Ok(are)
}

/// Whether two effects write one fluent, and not both by increase or decrease.
fn rewrites(
    alloc: Global,
    start: &Start,
    objects: &[u32],
    one: &Change,
    other: &Change,
) -> Result<bool, NoMemory>
    ensures { IfOk result (λ is. is
        ≡ rewrites_of (source_of start.now.source) objects.now one.now other.now) }
{
    match one {
        Change::Lit { .. } => Ok(false),
        Change::Update { how, target, .. } => match other {
            Change::Lit { .. } => Ok(false),
            Change::Update {
                how: how_other,
                target: target_other,
                ..
            } => {
                let are = are_one(alloc, start, objects, target, target_other)?;
                Ok(are && !(is_relative(*how) && is_relative(*how_other)))
            }
        },
    }
}

/// Whether an effect and none of some others write one fluent.
fn none_rewrites(
    alloc: Global,
    start: &Start,
    objects: &[u32],
    first: &Change,
    others: &[Change],
) -> Result<bool, NoMemory>
    ensures { IfOk result (λ is. is ≡ list_all (λ d. not (rewrites_of (source_of start.now.source)
        objects.now first.now d)) others.now) }
{
    for other in others {
        if rewrites(alloc, start, objects, first, other)? {
            return Ok(false);
        }
    }
    Ok(true)
}

fn are_apart(
    alloc: Global,
    start: &Start,
    objects: &[u32],
    changes: &[Change],
) -> Result<bool, NoMemory>
    ensures { IfOk result (λ are. are ≡ each_pair (λ c d. not (rewrites_of
        (source_of start.now.source) objects.now c d)) changes.now) }
{
    let mut rest = changes;
    'changes: loop {
        match rest {
            [first, tail @ ..] => {
                if !none_rewrites(alloc, start, objects, first, tail)? {
                    return Ok(false);
                }
                rest = tail;
            }
            [] => return Ok(true),
        }
    }
}

/// Whether what the effects of a start or an end read is known, and none of them writes a fluent
/// twice unless by increases and decreases alone.
fn are_sound(
    alloc: Global,
    start: &Start,
    objects: &[u32],
    changes: &[Change],
) -> Result<bool, NoMemory>
    ensures { IfOk result (λ are. are
        ≡ are_sound_of (source_of start.now.source) objects.now changes.now) }
{
    let known = all_known(alloc, start, objects, changes)?;
    let apart = are_apart(alloc, start, objects, changes)?;
    Ok(known && apart)
}

/// Whether a substitution gives a ground action.
pub fn is_kept(
    alloc: Global,
    start: &Start,
    schema: &Schema,
    objects: &[u32],
) -> Result<bool, NoMemory>
    ensures { IfOk result (λ is. is
        ≡ is_kept_of (source_of start.now.source) schema.now objects.now) }
{
    let allowed = conditions_allow(alloc, start, schema, objects)?;
    let lasts = has_length(alloc, start, objects, &schema.bounds)?;
    let first = are_sound(alloc, start, objects, schema.start_effects.as_slice())?;
    let last = are_sound(alloc, start, objects, schema.end_effects.as_slice())?;
    Ok(allowed && lasts && first && last)
}
