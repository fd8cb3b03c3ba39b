ghost use Rattle.std.specs.Prelude.{◌≡◌, ◌↔◌, ℕ, ◌+◌, ◌-◌, ◌++◌, ◌<◌, ◌≤◌, ◌^◌, length, map, replicate, slice_get, All, IsTrue, IfOk, IfSome, IfNone};
ghost use Rattle.std.specs.List.{flat_map};
ghost use Rattle.tp_spec.specs.Schedules.{Schedule, IsSchedule};
ghost use Rattle.tp_spec.specs.Words.{Sound};
ghost use Rattle.word_rows.specs.Rows.{by_acts, clock_bounds, length_rows, open_acts, rise_rows};
ghost use Rattle.word_network.specs.Conditions.{AreLimits, AreCommits};
ghost use Rattle.word_network.specs.Nets.{raised as raised_by, lowered as lowered_by, exact_of, lasts_at, IsNetOf};
ghost use Rattle.word_network.specs.Parts.{act_of};

use crate::bounds::{bounds_of_last, push_starts, push_timed};
use crate::parts::{WordParts, parts_of};
use crate::rows::{open_count, rows_of_acts};
use crate::ticks::{lowered, raised};
use crate::waiting::awaited_by;
use std::alloc::Global;
use tick_network::Net;
use tp_spec::{Limits, Mark, NoMemory, Problem, Timed};
use word_rows::Bound;

/// The simple temporal network of a word, with what it was made of.
#[derive(Drop)]
pub struct WordNet {
    pub parts: WordParts,
    pub net: Net,
}

/// Bounds that are both least and greatest ticks, those of timed items and commitments, and the
/// least ticks that the clock sets.
#[derive(Drop)]
struct Asked {
    exact: Vec<Bound>,
    clock: Vec<Bound>,
}

/// The network of a word at a clock (in ticks) and under commitments, or none where it has no
/// schedule by the limit on starts or by a timed item at 0. Its only error is want of memory.
pub fn network_of(
    alloc: Global,
    problem: &Problem,
    limits: &Limits,
    word: &[Mark],
    commits: &[Timed],
    now: u64,
) -> Result<Option<WordNet>, NoMemory>
    requires limits { AreLimits limits.now }
    requires commits { AreCommits problem.now commits.now }
    requires sound { Sound problem.now word.now }
    requires few { length word.now < 2 ^ 31 }
    ensures some { IfOk result (λ r. IfSome r (IsNetOf problem.now limits.now now commits.now
        word.now)) }
    ensures groups { IfOk result (λ r. IfSome r (λ n. n.parts.groups < 2 ^ 31)) }
    ensures acts { IfOk result (λ r. IfSome r (λ n. length n.parts.acts.items < 2 ^ 31)) }
    ensures none { IfOk result (λ r. IfNone r ((x : Schedule)
        → ¬ (IsSchedule problem.now limits.now now commits.now word.now x))) }
{
    problem.keeps_the_rules();
    let parts = parts_of(alloc, problem, word)?;
    let waiting = awaited_by(alloc, &parts.acts, commits)?;
    if !are_few(limits, parts.acts.len(), waiting.len()) {
        return Ok(None);
    }
    if !leaves_room(problem, parts.groups, parts.timed.len()) {
        return Ok(None);
    }
    let asked = asked_by(alloc, problem, now, commits, &parts)?;
    let last = last_bounds(alloc, problem, &parts, &waiting)?;
    let net = net_of(alloc, problem, limits.horizon, &parts, &asked, &last)?;
    Ok(Some(WordNet { parts, net }))
}

/// Whether starts and awaited commitments are together at most the limit.
fn are_few(limits: &Limits, acts: usize, waiting: usize) -> bool
    ensures { IsTrue result ↔ (acts + waiting ≤ limits.now.actions) }
{
    let most = limits.actions as usize;
    acts <= most && waiting <= most - acts
}

/// Whether the next timed item does not stand at 0 behind a group.
fn leaves_room(problem: &Problem, groups: u32, timed: usize) -> bool
    ensures { IsTrue result
        ↔ (0 < groups → IfSome (slice_get problem.now.timed timed) (λ i. 0 < i.tick)) }
{
    match problem.timed.as_slice().get(timed) {
        Some(item) => groups == 0 || item.tick > 0,
        None => true,
    }
}

/// What timed items, commitments and the clock ask.
fn asked_by(
    alloc: Global,
    problem: &Problem,
    now: u64,
    commits: &[Timed],
    parts: &WordParts,
) -> Result<Asked, NoMemory>
    requires groups { parts.now.groups < 2 ^ 31 }
    requires acts { length parts.now.acts.items < 2 ^ 31 }
    requires early { All (λ c. c.start + c.length ≤ 2 ^ 41) commits.now }
    ensures exact { IfOk result (λ a. a.exact.items ≡ exact_of problem.now commits.now
        parts.now.groups (map act_of parts.now.acts.items) parts.now.timed.items) }
    ensures clock { IfOk result (λ a. a.clock.items
        ≡ by_acts (clock_bounds now) commits.now (λ a. 0) (map act_of parts.now.acts.items)) }
{
    let mut exact = Vec::new(alloc);
    let mut clock = Vec::new(alloc);
    push_timed(problem, &parts.timed, &mut exact)?;
    push_starts(
        parts.groups,
        &parts.acts,
        commits,
        now,
        &mut exact,
        &mut clock,
    )?;
    Ok(Asked { exact, clock })
}

/// What the last group asks, if there is one.
fn last_bounds(
    alloc: Global,
    problem: &Problem,
    parts: &WordParts,
    waiting: &[Timed],
) -> Result<Vec<Bound>, NoMemory>
    ensures { IfOk result (λ v. v.items ≡ lasts_at problem.now parts.now.groups
        (length parts.now.timed.items) waiting.now) }
{
    if parts.groups == 0 {
        return Ok(Vec::new(alloc));
    }
    bounds_of_last(alloc, problem, parts.groups - 1, parts.timed.len(), waiting)
}

/// The network by its bounds.
fn net_of(
    alloc: Global,
    problem: &Problem,
    horizon: u64,
    parts: &WordParts,
    asked: &Asked,
    last: &[Bound],
) -> Result<Net, NoMemory>
    requires groups { parts.now.groups < 2 ^ 31 }
    requires acts { length parts.now.acts.items < 2 ^ 31 }
    requires exact { All (λ b. b.variable < parts.now.groups
        + length (open_acts (map act_of parts.now.acts.items))) asked.now.exact.items }
    requires clock { All (λ b. b.variable < parts.now.groups
        + length (open_acts (map act_of parts.now.acts.items))) asked.now.clock.items }
    requires last { All (λ b. b.variable < parts.now.groups
        + length (open_acts (map act_of parts.now.acts.items))) last.now }
    ensures low { IfOk result (λ n. n.low.items ≡ raised_by (raised_by (replicate
        (parts.now.groups + length (open_acts (map act_of parts.now.acts.items))) 0)
        asked.now.exact.items) asked.now.clock.items) }
    ensures high { IfOk result (λ n. n.high.items ≡ lowered_by (lowered_by (replicate
        (parts.now.groups + length (open_acts (map act_of parts.now.acts.items))) horizon)
        asked.now.exact.items) last.now) }
    ensures rows { IfOk result (λ n. n.rows.items ≡ rise_rows (parts.now.groups - 1)
        ++ flat_map (length_rows problem.now parts.now.groups
        (open_acts (map act_of parts.now.acts.items))) (map act_of parts.now.acts.items)) }
{
    let count = parts.groups as usize + open_count(&parts.acts);
    let low = low_of(alloc, count, asked)?;
    let high = high_of(alloc, count, horizon, asked, last)?;
    let rows = rows_of_acts(alloc, problem, parts.groups, &parts.acts)?;
    Ok(Net { low, high, rows })
}

fn low_of(alloc: Global, count: usize, asked: &Asked) -> Result<Vec<u64>, NoMemory>
    requires exact { All (λ b. b.variable < count) asked.now.exact.items }
    requires clock { All (λ b. b.variable < count) asked.now.clock.items }
    ensures { IfOk result (λ v. v.items ≡ raised_by (raised_by (replicate count 0)
        asked.now.exact.items) asked.now.clock.items) }
{
    let Ok(none) = vec![in alloc; 0u64; count] else {
        return Err(NoMemory);
    };
    Ok(raised(raised(none, &asked.exact), &asked.clock))
}

fn high_of(
    alloc: Global,
    count: usize,
    horizon: u64,
    asked: &Asked,
    last: &[Bound],
) -> Result<Vec<u64>, NoMemory>
    requires exact { All (λ b. b.variable < count) asked.now.exact.items }
    requires last { All (λ b. b.variable < count) last.now }
    ensures { IfOk result (λ v. v.items ≡ lowered_by (lowered_by (replicate count horizon)
        asked.now.exact.items) last.now) }
{
    let Ok(all) = vec![in alloc; horizon; count] else {
        return Err(NoMemory);
    };
    Ok(lowered(lowered(all, &asked.exact), last))
}
