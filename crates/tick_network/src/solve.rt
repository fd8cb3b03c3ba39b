ghost use Rattle.std.specs.Prelude.{◌≡◌, ℕ, ◌+◌, ◌<◌, ◌≤◌, ◌^◌, min, false, map, length, slice_index, IsTrue, IsOk, IfOk, IfSome, IfNone};
ghost use Rattle.tick_network.specs.Nets.{IsNet, IsSolutionOf, IsAboveAll, IsGreatest, IsLeast, HasNoSolution, AreSmall, row_count, most_steps};
ghost use Rattle.tick_network.specs.Relaxing.{AreAtLeast, mirror};

use crate::net::Net;
use crate::relax::propagated;
use crate::steps::Steps;
use std::alloc::Global;
use std::sync::ledger::Ledger;
use tp_spec::NoMemory;

/// The solution that is greatest in every component: a tick for each variable. None exactly where
/// there is no solution. Its only error is want of memory.
pub fn greatest<L: Ledger>(
    alloc: Global,
    net: &Net,
    steps: &mut Steps<L>,
) -> Result<Option<Vec<u64>>, NoMemory>
    requires { IsNet net.now }
    ensures greatest { IfOk result (λ r. IfSome r (λ ticks. IsGreatest net.now ticks.items)) }
    ensures none { IfOk result (λ r. IfNone r (HasNoSolution net.now)) }
    ensures at_most { steps.new ≤ steps.old + most_steps net.now }
    ensures counted { IfOk result (λ r. IfSome r (λ _. steps.old + row_count net.now ≤ steps.new)) }
{
    match Vec::from_slice(alloc, &net.high) {
        Ok(from) => Ok(greatest_below(net, from, steps)),
        Err(_) => Err(NoMemory),
    }
}

/// The same as `greatest`, from ticks at or above every solution, one for each variable. Where they
/// are a solution themselves, each row is looked at once. It takes no memory.
pub fn lower<L: Ledger>(
    net: &Net,
    from: Vec<u64>,
    steps: &mut Steps<L>,
) -> Result<Option<Vec<u64>>, NoMemory>
    requires net { IsNet net.now }
    requires count { length from.items ≡ length net.now.low.items }
    requires above { IsAboveAll net.now from.items }
    ensures made { IsOk result }
    ensures greatest { IfOk result (λ r. IfSome r (λ ticks. IsGreatest net.now ticks.items)) }
    ensures none { IfOk result (λ r. IfNone r (HasNoSolution net.now)) }
    ensures at_most { steps.new ≤ steps.old + most_steps net.now }
    ensures solved { IsSolutionOf net.now (slice_index from.items)
        → steps.new ≤ steps.old + row_count net.now }
    ensures counted { IfOk result (λ r. IfSome r (λ _. steps.old + row_count net.now ≤ steps.new)) }
{
    Ok(greatest_below(net, cut(from, &net.high), steps))
}

/// The greatest solution, from ticks at or above every solution and within the greatest of each
/// variable.
fn greatest_below<L: Ledger>(net: &Net, from: Vec<u64>, steps: &mut Steps<L>) -> Option<Vec<u64>>
    requires net { IsNet net.now }
    requires count { length from.items ≡ length net.now.low.items }
    requires below { AreAtLeast from.items net.now.high.items }
    requires above { IsAboveAll net.now from.items }
    ensures greatest { IfSome result (λ ticks. IsGreatest net.now ticks.items) }
    ensures none { IfNone result (HasNoSolution net.now) }
    ensures at_most { steps.new ≤ steps.old + most_steps net.now }
    ensures solved { IsSolutionOf net.now (slice_index from.items)
        → steps.new ≤ steps.old + row_count net.now }
    ensures counted { IfSome result (λ _. steps.old + row_count net.now ≤ steps.new) }
{
    if !are_in_order(&net.low, &from) {
        return None;
    }
    propagated(&net.rows, false, &net.low, from, steps)
}

/// Each tick, or the greatest of its variable where that is less.
fn cut(ticks: Vec<u64>, high: &[u64]) -> Vec<u64>
    requires { length ticks.items ≡ length high.now }
    ensures count { length result.items ≡ length ticks.items }
    ensures cut { (v : ℕ) → slice_index result.items v
        ≡ min (slice_index ticks.items v) (slice_index high.now v) }
{
    let mut at = ticks;
    for (v, most) in high.iter().enumerate() {
        if *most < at[v] {
            at[v] = *most;
        }
    }
    at
}

/// The solution that is least in every component: a tick for each variable. None exactly where
/// there is no solution. Its only error is want of memory.
// It is the greatest between ticks counted from the far end, so one relaxation serves both.
pub fn least<L: Ledger>(
    alloc: Global,
    net: &Net,
    steps: &mut Steps<L>,
) -> Result<Option<Vec<u64>>, NoMemory>
    requires { IsNet net.now }
    ensures least { IfOk result (λ r. IfSome r (λ ticks. IsLeast net.now ticks.items)) }
    ensures none { IfOk result (λ r. IfNone r (HasNoSolution net.now)) }
    ensures at_most { steps.new ≤ steps.old + most_steps net.now }
    ensures counted { IfOk result (λ r. IfSome r (λ _. steps.old + row_count net.now ≤ steps.new)) }
{
    if !are_in_order(&net.low, &net.high) {
        return Ok(None);
    }
    let low = mirrored_ticks(alloc, &net.high)?;
    let at = mirrored_ticks(alloc, &net.low)?;
    match propagated(&net.rows, true, &low, at, steps) {
        Some(far) => {
            let ticks = mirrored_ticks(alloc, &far)?;
            Ok(Some(ticks))
        }
        None => Ok(None),
    }
}

const TOP: u64 = 1 << 41;

/// Ticks as they stand from the far end.
fn mirrored_ticks(alloc: Global, ticks: &[u64]) -> Result<Vec<u64>, NoMemory>
    requires { AreSmall ticks.now }
    ensures { IfOk result (λ v. v.items ≡ map mirror ticks.now) }
{
    let mut found = Vec::new(alloc);
    for tick in ticks {
        match found.push(TOP - *tick) {
            Ok(()) => {}
            Err(_) => return Err(NoMemory),
        }
    }
    Ok(found)
}

/// Whether each of the first is at most the second in its place.
fn are_in_order(low: &[u64], high: &[u64]) -> bool
    requires { length low.now ≡ length high.now }
    ensures yes { IsTrue result → AreAtLeast low.now high.now }
    ensures no { result ≡ false
        → (v : ℕ) × (v < length low.now) × (slice_index high.now v < slice_index low.now v) }
{
    for (v, most) in high.iter().enumerate() {
        if *most < low[v] {
            return false;
        }
    }
    true
}
