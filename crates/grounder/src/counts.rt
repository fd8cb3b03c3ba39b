ghost use Rattle.std.specs.Prelude.{◌≡◌, ◌^◌, ◌-◌, min, map, length, IfOk};
ghost use Rattle.grounder.specs.Sources.{source_of};
ghost use Rattle.grounder.specs.Objects.{choices_number, number_of as number_by, raw_number as raw_number_of};
ghost use Rattle.grounder.specs.Kept.{kept as kept_by};
ghost use Rattle.grounder.specs.Naming.{facts as facts_by, fluents as fluents_by};
ghost use Rattle.grounder.specs.Grounded.{total as total_of, timed_ticks, excess, IsJudged, IsCounted};

use crate::fault::{CountKind, GroundFault};
use crate::naming::{fact_names, fluent_names};
use crate::search::{all_kept, ranges_of};
use crate::sorted::{sorted_names, sorted_numbers};
use crate::start::Start;
use pddl_domain::Schema;
use pddl_problem::Dated;
use std::alloc::Global;
use tp_spec::{List, Name, NoMemory};

/// How many lists have a member of each of some lists, or 2^128 - 1 where there are more.
fn product(ranges: &[List<u32>]) -> u128
    ensures { result ≡ min (choices_number ranges.now) (2 ^ 128 - 1) }
{
    let mut product: u128 = 1;
    let mut rest = ranges;
    'members: loop {
        match rest {
            [] => return product,
            [range, tail @ ..] => {
                product = product.saturating_mul(range.as_slice().len() as u128);
                rest = tail;
            }
        }
    }
}

/// How many substitutions an action has, or 2^128 - 1 where it has more.
fn number_of(alloc: Global, start: &Start, schema: &Schema) -> Result<u128, NoMemory>
    ensures { IfOk result (λ n. n
        ≡ min (number_by (source_of start.now.source) schema.now.sorts) (2 ^ 128 - 1)) }
{
    let ranges = ranges_of(alloc, start, schema.sorts.as_slice())?;
    let number = product(ranges.as_slice());
    Ok(number)
}

/// How many substitutions all actions have, or 2^128 - 1 where they have more.
fn raw_number(alloc: Global, start: &Start) -> Result<u128, NoMemory>
    ensures { IfOk result (λ n. n ≡ min (raw_number_of (source_of start.now.source)
        start.now.source.domain.now.actions) (2 ^ 128 - 1)) }
{
    let mut sum: u128 = 0;
    let mut rest = start.source.domain.actions.as_slice();
    'actions: loop {
        match rest {
            [] => return Ok(sum),
            [schema, tail @ ..] => {
                sum = sum.saturating_add(number_of(alloc, start, schema)?);
                rest = tail;
            }
        }
    }
}

/// How many lists there are.
fn lists_number(lists: &[List<u32>]) -> u128
    ensures { result ≡ min (length lists.now) (2 ^ 128 - 1) }
{
    lists.len() as u128
}

/// How many members some lists have together, or 2^128 - 1 where they have more.
fn total(all: &[List<List<u32>>]) -> u128
    ensures { result ≡ min (total_of all.now) (2 ^ 128 - 1) }
{
    let mut sum: u128 = 0;
    let mut rest = all;
    'lists: loop {
        match rest {
            [] => return sum,
            [lists, tail @ ..] => {
                sum = sum.saturating_add(lists_number(lists.as_slice()));
                rest = tail;
            }
        }
    }
}

/// All facts, by their names in order.
fn facts_of(alloc: Global, start: &Start, all: &[List<List<u32>>]) -> Result<List<Name>, NoMemory>
    requires { all.now
        ≡ map (kept_by (source_of start.now.source)) start.now.source.domain.now.actions }
    ensures { IfOk result (λ are. are ≡ facts_by (source_of start.now.source)) }
{
    let names = fact_names(alloc, start, all)?;
    let sorted = sorted_names(alloc, names.as_slice())?;
    Ok(sorted)
}

/// All fluents, by their names in order.
fn fluents_of(alloc: Global, start: &Start, all: &[List<List<u32>>]) -> Result<List<Name>, NoMemory>
    requires { all.now
        ≡ map (kept_by (source_of start.now.source)) start.now.source.domain.now.actions }
    ensures { IfOk result (λ are. are ≡ fluents_by (source_of start.now.source)) }
{
    let names = fluent_names(alloc, start, all)?;
    let sorted = sorted_names(alloc, names.as_slice())?;
    Ok(sorted)
}

/// The ticks of timed literals as they come.
fn literal_ticks(alloc: Global, timed: &[Dated]) -> Result<List<u64>, NoMemory>
    ensures { IfOk result (λ ticks. ticks ≡ map (λ d. d.tick) timed.now) }
{
    let mut ticks = List::new(alloc);
    for dated in timed {
        ticks.push(dated.tick)?;
    }
    Ok(ticks)
}

/// The ticks of timed literals, each once and rising.
fn ticks_of(alloc: Global, start: &Start) -> Result<List<u64>, NoMemory>
    ensures { IfOk result (λ are. are ≡ timed_ticks (source_of start.now.source)) }
{
    let ticks = literal_ticks(alloc, start.source.task.timed.as_slice())?;
    let sorted = sorted_numbers(alloc, ticks.as_slice())?;
    Ok(sorted)
}

/// How many names there are.
fn names_number(names: &[Name]) -> u128
    ensures { result ≡ min (length names.now) (2 ^ 128 - 1) }
{
    names.len() as u128
}

/// How many ticks there are.
fn ticks_number(ticks: &[u64]) -> u128
    ensures { result ≡ min (length ticks.now) (2 ^ 128 - 1) }
{
    ticks.len() as u128
}

/// Of a ground problem the substitutions of each action, the facts, the fluents and the ticks of
/// timed literals.
#[derive(Drop)]
pub struct Counted {
    pub kept: List<List<List<u32>>>,
    pub facts: List<Name>,
    pub fluents: List<Name>,
    pub ticks: List<u64>,
}

/// What is counted of a ground problem, or the first count past its limit.
pub fn count(alloc: Global, start: &Start) -> Result<Counted, GroundFault>
    ensures judged { IsJudged (excess (source_of start.now.source)) result }
    ensures are { IfOk result (λ k. IsCounted (source_of start.now.source) k.kept k.facts
        k.fluents k.ticks) }
{
    let number = raw_number(alloc, start)?;
    if number > 16_777_216 {
        let kind = CountKind::Substitutions;
        return Err(GroundFault::TooMany { kind, number });
    }
    let kept = all_kept(alloc, start)?;
    let made = total(kept.as_slice());
    if made > 4096 {
        return Err(GroundFault::TooMany {
            kind: CountKind::Actions,
            number: made,
        });
    }
    let facts = facts_of(alloc, start, kept.as_slice())?;
    let fact_number = names_number(facts.as_slice());
    if fact_number > 4096 {
        return Err(GroundFault::TooMany {
            kind: CountKind::Facts,
            number: fact_number,
        });
    }
    let fluents = fluents_of(alloc, start, kept.as_slice())?;
    let fluent_number = names_number(fluents.as_slice());
    if fluent_number > 256 {
        return Err(GroundFault::TooMany {
            kind: CountKind::Fluents,
            number: fluent_number,
        });
    }
    let ticks = ticks_of(alloc, start)?;
    let tick_number = ticks_number(ticks.as_slice());
    if tick_number > 256 {
        return Err(GroundFault::TooMany {
            kind: CountKind::Timed,
            number: tick_number,
        });
    }
    Ok(Counted {
        kept,
        facts,
        fluents,
        ticks,
    })
}
