ghost use Rattle.std.specs.Prelude.{◌≡◌, Some, IfOk};
ghost use Rattle.std.specs.List.{list_all};
ghost use Rattle.std.specs.Option.{option_copied};
ghost use Rattle.tp_spec.specs.WellFormed.{far};
ghost use Rattle.grounder.specs.Sources.{source_of};
ghost use Rattle.grounder.specs.Lengths.{ticks as ticks_of, raised as raised_by, lowered as lowered_by, least_from as least_of, most_from as most_of, has_worth as has_worth_of, has_length as has_length_of, kind_of as kind_by};

use crate::start::Start;
use crate::values::worth;
use pddl_domain::Bound;
use std::alloc::Global;
use tp_spec::{Kind, List, NoMemory};

/// The last tick that a length may reach.
const FAR: u64 = 1 << 40;

/// A number as ticks: one past the last length stands for all that are greater.
fn ticks(number: i128) -> u64
    ensures { result ≡ ticks_of number }
{
    if number < 0 {
        0
    } else if number <= 1_099_511_627_776 {
        number as u64
    } else {
        FAR + 1
    }
}

fn raised(least: u64, number: Option<i128>) -> u64
    ensures { result ≡ raised_by least number }
{
    match number {
        None => least,
        Some(number) => least.max(ticks(number)),
    }
}

fn lowered(most: u64, number: Option<i128>) -> u64
    ensures { result ≡ lowered_by most number }
{
    match number {
        None => most,
        Some(number) => most.min(ticks(number)),
    }
}

/// The least length, raised by each lower bound.
fn least_from(
    alloc: Global,
    start: &Start,
    objects: &[u32],
    least: u64,
    bounds: &[Bound],
) -> Result<u64, NoMemory>
    ensures { IfOk result (λ length. length
        ≡ least_of (source_of start.now.source) objects.now least bounds.now) }
{
    let mut least = least;
    let mut rest = bounds;
    'bounds: loop {
        match rest {
            [] => return Ok(least),
            [first, tail @ ..] => {
                least = match first {
                    Bound::Least(value) => raised(least, worth(alloc, start, objects, value)?),
                    Bound::Most(_) => least,
                };
                rest = tail;
            }
        }
    }
}

/// The most length, lowered by each upper bound.
fn most_from(
    alloc: Global,
    start: &Start,
    objects: &[u32],
    most: u64,
    bounds: &[Bound],
) -> Result<u64, NoMemory>
    ensures { IfOk result (λ length. length
        ≡ most_of (source_of start.now.source) objects.now most bounds.now) }
{
    let mut most = most;
    let mut rest = bounds;
    'bounds: loop {
        match rest {
            [] => return Ok(most),
            [first, tail @ ..] => {
                most = match first {
                    Bound::Least(_) => most,
                    Bound::Most(value) => lowered(most, worth(alloc, start, objects, value)?),
                };
                rest = tail;
            }
        }
    }
}

/// Whether a bound has a value at the start.
fn has_worth(alloc: Global, start: &Start, objects: &[u32], bound: &Bound) -> Result<bool, NoMemory>
    ensures { IfOk result (λ is. is
        ≡ has_worth_of (source_of start.now.source) objects.now bound.now) }
{
    match bound {
        Bound::Least(value) => Ok(worth(alloc, start, objects, value)?.is_some()),
        Bound::Most(value) => Ok(worth(alloc, start, objects, value)?.is_some()),
    }
}

fn all_have_worth(
    alloc: Global,
    start: &Start,
    objects: &[u32],
    bounds: &[Bound],
) -> Result<bool, NoMemory>
    ensures { IfOk result (λ is. is
        ≡ list_all (has_worth_of (source_of start.now.source) objects.now) bounds.now) }
{
    for bound in bounds {
        if !has_worth(alloc, start, objects, bound)? {
            return Ok(false);
        }
    }
    Ok(true)
}

/// Whether each bound has a value, and some length from 1 to 2^40 is within all of them.
pub fn has_length(
    alloc: Global,
    start: &Start,
    objects: &[u32],
    bounds: &Option<List<Bound>>,
) -> Result<bool, NoMemory>
    ensures { IfOk result (λ is. is
        ≡ has_length_of (source_of start.now.source) objects.now bounds.now) }
{
    match bounds {
        None => Ok(true),
        Some(bounds) => {
            let bounds = bounds.as_slice();
            let known = all_have_worth(alloc, start, objects, bounds)?;
            let least = least_from(alloc, start, objects, 1, bounds)?;
            let most = most_from(alloc, start, objects, FAR, bounds)?;
            Ok(known && least <= most)
        }
    }
}

/// The kind of an action, with its range of lengths where it is durative.
pub fn kind_of(
    alloc: Global,
    start: &Start,
    objects: &[u32],
    bounds: &Option<List<Bound>>,
) -> Result<Kind, NoMemory>
    ensures { IfOk result (λ kind. kind
        ≡ kind_by (source_of start.now.source) objects.now bounds.now) }
{
    match bounds {
        None => Ok(Kind::Instant),
        Some(bounds) => {
            let bounds = bounds.as_slice();
            let least = least_from(alloc, start, objects, 1, bounds)?;
            let most = most_from(alloc, start, objects, FAR, bounds)?;
            Ok(Kind::Durative { least, most })
        }
    }
}
