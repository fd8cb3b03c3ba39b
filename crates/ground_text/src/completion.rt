ghost use Rattle.std.specs.Prelude.{◌≡◌, map, None, IfOk, string_bytes};
ghost use Rattle.problem_rules.specs.Parts.{ground_of};
ghost use Rattle.ground_text.specs.Completion.{name_or_next as name_or_next_of, scale_or_one as scale_or_one_of, filled_values as filled_values_of};
ghost use Rattle.ground_text.specs.Filling.{AreCompleted};

use crate::filling::{filled_actions, filled_timed};
use problem_rules::{Parts, is_empty};
use std::alloc::{AllocError, Global};
use tp_spec::{List, Name};

/// A name, or where it is missing the one before it with `!` behind it.
pub fn name_or_next(alloc: Global, before: &str, name: &str) -> Result<String, AllocError>
    ensures { IfOk result (λ s. string_bytes s ≡ name_or_next_of before.now name.now) }
{
    if !name.is_empty() {
        return String::from_str(alloc, name);
    }
    let mut next = String::from_str(alloc, before)?;
    next.push('!')?;
    Ok(next)
}

/// No value for each name.
fn no_values(alloc: Global, names: &[Name]) -> Result<List<Option<i64>>, AllocError>
    ensures { IfOk result (λ xs. xs ≡ map (λ name. None) names.now) }
{
    let mut values = Vec::new(alloc);
    for _ in names {
        values.push(None)?;
    }
    Ok(List::of(values))
}

/// The values that were read, or none for each fluent.
fn filled_values(
    alloc: Global,
    fluents: &[Name],
    values: List<Option<i64>>,
) -> Result<List<Option<i64>>, AllocError>
    ensures { IfOk result (λ xs. xs ≡ filled_values_of fluents.now values) }
{
    if !is_empty(values.as_slice()) {
        return Ok(values);
    }
    no_values(alloc, fluents)
}

fn scale_or_one(scale: u32) -> u32
    ensures { result ≡ scale_or_one_of scale }
{
    if scale == 0 { 1 } else { scale }
}

/// The parts of a problem whose text may begin with the lines that were read: what is missing is
/// filled in, but for names of facts and fluents, which stay unwritten. None where a tick would not
/// fit in 64 bits.
pub fn complete(alloc: Global, read: Parts) -> Result<Option<Parts>, AllocError>
    ensures { IfOk result (λ o. AreCompleted (ground_of read) o) }
{
    let Parts {
        scale,
        facts,
        fluents,
        actions,
        timed,
        init,
        values,
        goal,
    } = read;
    match filled_timed(alloc, timed)? {
        None => Ok(None),
        Some(timed) => {
            let values = filled_values(alloc, fluents.as_slice(), values)?;
            let actions = filled_actions(alloc, actions)?;
            Ok(Some(Parts {
                scale: scale_or_one(scale),
                facts,
                fluents,
                actions,
                timed,
                init,
                values,
                goal,
            }))
        }
    }
}
