ghost use Rattle.std.specs.Prelude.{◌≡◌, ◌++◌, [], ◌∷◌, if◌then◌else◌, IfOk};
ghost use Rattle.grounder.specs.Sources.{source_of};
ghost use Rattle.grounder.specs.Objects.{parent_of, climbs, is_below, objects_of, objects_by_type};

use crate::sources::Source;
use pddl_parts::in_32_bits;
use std::alloc::Global;
use tp_spec::{List, NoMemory};

/// The parent of a type; `object` where there is no such type.
fn parent_of(source: &Source, sort: u32) -> u32
    ensures { result ≡ parent_of (source_of source.now) sort }
{
    match source.domain.types.as_slice().get(sort as usize) {
        Some(sort) => sort.parent,
        None => 0,
    }
}

/// Whether a type is met among so many steps up from another one. What has itself as its parent is
/// at the top.
#[tactic(auto, using(crate::proofs::Numbers::climbs_no_more, crate::proofs::Numbers::climbs_step))]
fn climbs(source: &Source, target: u32, steps: usize, sort: u32) -> bool
    ensures { result ≡ climbs (source_of source.now) target steps sort }
{
    if sort == target {
        return true;
    }
    let parent = parent_of(source, sort);
    if steps == 0 {
        return false;
    }
    if parent == sort {
        return false;
    }
    climbs(source, target, steps - 1, parent)
}

/// Whether a type is another one or below it.
fn is_below(source: &Source, target: u32, sort: u32) -> bool
    ensures { result ≡ is_below (source_of source.now) target sort }
{
    climbs(source, target, source.domain.types.as_slice().len(), sort)
}

/// Puts a number behind others where it passes.
pub fn with_number(
    mut numbers: List<u32>,
    passes: bool,
    number: usize,
) -> Result<List<u32>, NoMemory>
    ensures { IfOk result (λ more. more ≡ numbers ++ (if passes then number ∷ [] else [])) }
{
    if passes {
        numbers.push(in_32_bits(number)?)?;
    }
    Ok(numbers)
}

/// The objects of a type, by their numbers in order.
pub fn objects_of(alloc: Global, source: &Source, sort: u32) -> Result<List<u32>, NoMemory>
    ensures { IfOk result (λ objects. objects ≡ objects_of (source_of source.now) sort) }
{
    let mut objects = List::new(alloc);
    for (number, object) in source.task.objects.as_slice().iter().enumerate() {
        objects = with_number(objects, is_below(source, sort, object.sort), number)?;
    }
    Ok(objects)
}

/// For each type its objects, by their numbers in order.
pub fn objects_by_type(alloc: Global, source: &Source) -> Result<List<List<u32>>, NoMemory>
    ensures { IfOk result (λ table. table ≡ objects_by_type (source_of source.now)) }
{
    let mut table = List::new(alloc);
    for number in 0..source.domain.types.as_slice().len() {
        table.push(objects_of(alloc, source, in_32_bits(number)?)?)?;
    }
    Ok(table)
}
