ghost use Rattle.std.specs.Prelude.{◌≡◌, ◌++◌, [], ◌∷◌, map, get_or, slice_get, if◌then◌else◌, IfOk};
ghost use Rattle.std.specs.Option.{option_copied};
ghost use Rattle.grounder.specs.Sources.{source_of};
ghost use Rattle.grounder.specs.Objects.{objects_of as objects_by};
ghost use Rattle.grounder.specs.Kept.{kept as kept_of, kept_behind};

use crate::cuts::has_failed;
use crate::kept::is_kept;
use crate::objects::objects_of;
use crate::start::Start;
use pddl_domain::Schema;
use std::alloc::Global;
use tp_spec::{List, NoMemory};

/// A copy of a list of numbers.
fn copied(alloc: Global, numbers: &[u32]) -> Result<List<u32>, NoMemory>
    ensures { IfOk result (λ copy. copy ≡ numbers.now) }
{
    let copy = Vec::from_slice(alloc, numbers)?;
    Ok(List::of(copy))
}

/// A list of numbers with one more at its end.
fn longer(alloc: Global, numbers: &[u32], number: u32) -> Result<List<u32>, NoMemory>
    ensures { IfOk result (λ more. more ≡ numbers.now ++ number ∷ []) }
{
    let mut more = copied(alloc, numbers)?;
    more.push(number)?;
    Ok(more)
}

/// A row of a table, none where it has fewer.
fn row(rows: &[List<u32>], number: u32) -> Option<&List<u32>>
    ensures { option_copied result ≡ slice_get rows.now number }
{
    rows.get(number as usize)
}

/// The objects of a type, from the table where it has the type.
fn range_of(alloc: Global, start: &Start, sort: u32) -> Result<List<u32>, NoMemory>
    ensures { IfOk result (λ range. range ≡ objects_by (source_of start.now.source) sort) }
{
    match row(start.objects.as_slice(), sort) {
        Some(range) => {
            let range = copied(alloc, range.as_slice())?;
            Ok(range)
        }
        None => objects_of(alloc, &start.source, sort),
    }
}

/// The objects of each of some types.
pub fn ranges_of(alloc: Global, start: &Start, sorts: &[u32]) -> Result<List<List<u32>>, NoMemory>
    ensures { IfOk result (λ ranges. ranges
        ≡ map (objects_by (source_of start.now.source)) sorts.now) }
{
    let mut ranges = List::new(alloc);
    for sort in sorts {
        ranges.push(range_of(alloc, start, *sort)?)?;
    }
    Ok(ranges)
}

/// Puts a copy of a list behind others where it passes.
fn with_list(
    alloc: Global,
    mut lists: List<List<u32>>,
    passes: bool,
    list: &[u32],
) -> Result<List<List<u32>>, NoMemory>
    ensures { IfOk result (λ more. more ≡ lists ++ (if passes then list.now ∷ [] else [])) }
{
    if passes {
        lists.push(copied(alloc, list)?)?;
    }
    Ok(lists)
}

/// Puts a substitution behind others where it gives a ground action.
fn with_substitution(
    alloc: Global,
    start: &Start,
    schema: &Schema,
    objects: &[u32],
    kept: List<List<u32>>,
) -> Result<List<List<u32>>, NoMemory>
    ensures { IfOk result (λ more. more ≡ kept
        ++ kept_behind (source_of start.now.source) schema.now objects.now []) }
{
    let passes = is_kept(alloc, start, schema, objects)?;
    let more = with_list(alloc, kept, passes, objects)?;
    Ok(more)
}

/// Puts those substitutions behind others that begin with these objects, go on with one of each
/// range, and give a ground action. Where a static condition over these objects fails there are
/// none, and none is tried.
fn with_kept(
    alloc: Global,
    start: &Start,
    schema: &Schema,
    objects: &[u32],
    ranges: &[List<u32>],
    mut kept: List<List<u32>>,
) -> Result<List<List<u32>>, NoMemory>
    ensures { IfOk result (λ more. more ≡ kept
        ++ kept_behind (source_of start.now.source) schema.now objects.now ranges.now) }
{
    if has_failed(alloc, start, schema, objects)? {
        return Ok(kept);
    }
    match ranges {
        [] => with_substitution(alloc, start, schema, objects, kept),
        [range, tail @ ..] => {
            for object in range.as_slice() {
                let more = longer(alloc, objects, *object)?;
                kept = with_kept(alloc, start, schema, more.as_slice(), tail, kept)?;
            }
            Ok(kept)
        }
    }
}

/// The substitutions of an action that give a ground action, in order.
pub fn kept_of(alloc: Global, start: &Start, schema: &Schema) -> Result<List<List<u32>>, NoMemory>
    ensures { IfOk result (λ kept. kept ≡ kept_of (source_of start.now.source) schema.now) }
{
    let ranges = ranges_of(alloc, start, schema.sorts.as_slice())?;
    let none = List::new(alloc);
    let kept = with_kept(alloc, start, schema, &[], ranges.as_slice(), none)?;
    Ok(kept)
}

/// For each action the substitutions that give a ground action.
pub fn all_kept(alloc: Global, start: &Start) -> Result<List<List<List<u32>>>, NoMemory>
    ensures { IfOk result (λ all. all
        ≡ map (kept_of (source_of start.now.source)) start.now.source.domain.now.actions) }
{
    let mut all = List::new(alloc);
    for schema in start.source.domain.actions.as_slice() {
        all.push(kept_of(alloc, start, schema)?)?;
    }
    Ok(all)
}

/// The substitutions of an action by its number, none where there is no such action.
pub fn kept_at(all: &[List<List<u32>>], number: usize) -> &[List<u32>]
    ensures { result.now ≡ get_or all.now number [] }
{
    match all.get(number) {
        Some(kept) => kept.as_slice(),
        None => &[],
    }
}
