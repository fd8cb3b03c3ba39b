ghost use Rattle.std.specs.Prelude.{◌≡◌, ◌+◌, ◌<◌, ◌≤◌, ◌^◌, ◌==◌, [], length, map, count_by, slice_index, IfOk, IfSome, IfNone};
ghost use Rattle.tp_laws.specs.Clocks.{IsDeadline};
ghost use Rattle.tp_spec.specs.Machine.{candidate};
ghost use Rattle.tp_spec.specs.Schedules.{Live};
ghost use Rattle.tp_spec.specs.Words.{Sound};
ghost use Rattle.word_network.specs.Conditions.{AreLimits, AreCommits};
ghost use Rattle.word_network.specs.Deadlines.{opens_of, last_by};
ghost use Rattle.word_network.specs.Parts.{act_of};

use crate::bounds::count_by as count_acts;
use crate::parts::WordAct;
use crate::reading::tick_at;
use crate::solving::last_ticks;
use std::alloc::Global;
use std::marker::Brand;
use std::sync::ledger::{Blank, Ledger};
use tick_network::Steps;
use tp_spec::{Limits, Mark, NoMemory, Problem, Timed};

/// The last clock, in ticks and at most one past the horizon, at which a word is live under
/// commitments. None exactly where it is live at no clock. Its only error is want of memory.
///
/// Dechter, Meiri and Pearl, 'Temporal constraint networks', 1991 (the latest times).
pub fn deadline(
    alloc: Global,
    problem: &Problem,
    limits: &Limits,
    word: &[Mark],
    commits: &[Timed],
) -> Result<Option<u64>, NoMemory>
    requires limits { AreLimits limits.now }
    requires commits { AreCommits problem.now commits.now }
    requires sound { Sound problem.now word.now }
    requires few { length word.now < 2 ^ 31 }
    ensures some { IfOk result (λ r. IfSome r (IsDeadline problem.now limits.now commits.now
        word.now)) }
    ensures none { IfOk result (λ r. IfNone r (¬ (Live problem.now limits.now 0 commits.now
        word.now))) }
{
    deadline_of_blank::<Brand>(alloc, problem, limits, word, commits, Blank::new(1))
}

fn deadline_of_blank<L: Ledger>(
    alloc: Global,
    problem: &Problem,
    limits: &Limits,
    word: &[Mark],
    commits: &[Timed],
    blank: Blank,
) -> Result<Option<u64>, NoMemory>
    requires name { blank.name ≡ L.name }
    requires parts { blank.parts ≡ L.parts }
    requires shared { 0 < L.parts }
    requires limits { AreLimits limits.now }
    requires commits { AreCommits problem.now commits.now }
    requires sound { Sound problem.now word.now }
    requires few { length word.now < 2 ^ 31 }
    ensures some { IfOk result (λ r. IfSome r (IsDeadline problem.now limits.now commits.now
        word.now)) }
    ensures none { IfOk result (λ r. IfNone r (¬ (Live problem.now limits.now 0 commits.now
        word.now))) }
{
    let mut steps: Steps<L> = Steps::new(blank);
    match last_ticks(alloc, problem, limits, word, commits, 0, &mut steps)? {
        Some(found) => {
            let last = last_clock(limits.horizon, &found.parts.acts, &found.ticks, commits);
            Ok(Some(last))
        }
        None => Ok(None),
    }
}

/// The tick of the first start that is no commitment; without one the clock stops first, one tick
/// past the horizon.
fn last_clock(horizon: u64, acts: &[WordAct], ticks: &[u64], commits: &[Timed]) -> u64
    requires { horizon ≤ 2 ^ 40 }
    ensures { result ≡ last_by horizon (slice_index ticks.now)
        (opens_of (candidate [] commits.now (map act_of acts.now))) }
{
    match first_free(acts, commits) {
        Some(group) => tick_at(ticks, group),
        None => horizon + 1,
    }
}

/// The group of the first start that is no commitment.
fn first_free(acts: &[WordAct], commits: &[Timed]) -> Option<u32>
    ensures { result ≡ opens_of (candidate [] commits.now (map act_of acts.now)) }
{
    for i in 0..acts.len() {
        let act = acts[i];
        if count_acts(&acts[..i], act.action) >= count_commits(commits, act.action) {
            return Some(act.opens);
        }
    }
    None
}

fn count_commits(commits: &[Timed], action: u32) -> usize
    ensures { result ≡ count_by (λ c. c.action == action) commits.now }
{
    commits
        .iter()
        .filter(|commit| commit.action == action)
        .count()
}
