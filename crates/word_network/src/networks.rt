ghost use Rattle.std.specs.Prelude.{◌≡◌, ◌+◌, ◌<◌, ◌≤◌, ◌^◌, [], length, IsTrue, IfOk, IfSome, IfNone};
ghost use Rattle.tp_laws.specs.Plans.{none_run};
ghost use Rattle.tp_spec.specs.Schedules.{Live, awaited};
ghost use Rattle.tp_spec.specs.Words.{Sound, progress, acts_of};
ghost use Rattle.word_network.specs.Conditions.{AreLimits, AreCommits};
ghost use Rattle.word_network.specs.Schedules.{IsLatest, IsEarliest, least_steps, most_steps};

use crate::reading::{latest_of, plan_by};
use crate::schedule::Latest;
use crate::solving::{first_ticks, last_ticks};
use std::alloc::Global;
use std::sync::ledger::Ledger;
use tick_network::Steps;
use tp_spec::{Limits, Mark, NoMemory, Plan, Problem, Timed};

/// The greatest schedule of a word at a clock (in ticks) and under commitments. None exactly where
/// the word is not live. Its only error is want of memory.
///
/// Dechter, Meiri and Pearl, 'Temporal constraint networks', 1991 (the latest times).
pub fn latest<L: Ledger>(
    alloc: Global,
    problem: &Problem,
    limits: &Limits,
    word: &[Mark],
    commits: &[Timed],
    now: u64,
    steps: &mut Steps<L>,
) -> Result<Option<Latest>, NoMemory>
    requires limits { AreLimits limits.now }
    requires commits { AreCommits problem.now commits.now }
    requires now { now ≤ 2 ^ 40 + 1 }
    requires sound { Sound problem.now word.now }
    requires few { length word.now < 2 ^ 31 }
    ensures some { IfOk result (λ r. IfSome r (IsLatest problem.now limits.now now commits.now
        word.now)) }
    ensures none { IfOk result (λ r. IfNone r (¬ (Live problem.now limits.now now commits.now
        word.now))) }
    ensures steps { steps.new ≤ steps.old + most_steps problem.now word.now }
    ensures counted { IfOk result (λ r. IfSome r (λ _. steps.old
        + least_steps problem.now word.now ≤ steps.new)) }
{
    match last_ticks(alloc, problem, limits, word, commits, now, steps)? {
        Some(found) => {
            let schedule = latest_of(alloc, &found.parts, &found.ticks)?;
            Ok(Some(schedule))
        }
        None => Ok(None),
    }
}

/// The plan of a word's least schedule at a clock (in ticks) and under commitments, where no act
/// runs after the word and it holds every commitment. None exactly where the word is not live. Its
/// only error is want of memory.
///
/// Dechter, Meiri and Pearl, 'Temporal constraint networks', 1991 (the earliest times).
pub fn earliest<L: Ledger>(
    alloc: Global,
    problem: &Problem,
    limits: &Limits,
    word: &[Mark],
    commits: &[Timed],
    now: u64,
    steps: &mut Steps<L>,
) -> Result<Option<Plan>, NoMemory>
    requires limits { AreLimits limits.now }
    requires commits { AreCommits problem.now commits.now }
    requires now { now ≤ 2 ^ 40 + 1 }
    requires sound { Sound problem.now word.now }
    requires few { length word.now < 2 ^ 31 }
    requires ended { IsTrue (none_run problem.now (progress problem.now word.now)) }
    requires held { awaited (acts_of problem.now word.now) commits.now ≡ [] }
    ensures some { IfOk result (λ r. IfSome r (IsEarliest problem.now limits.now now commits.now
        word.now)) }
    ensures none { IfOk result (λ r. IfNone r (¬ (Live problem.now limits.now now commits.now
        word.now))) }
    ensures steps { steps.new ≤ steps.old + most_steps problem.now word.now }
    ensures counted { IfOk result (λ r. IfSome r (λ _. steps.old
        + least_steps problem.now word.now ≤ steps.new)) }
{
    match first_ticks(alloc, problem, limits, word, commits, now, steps)? {
        Some(found) => {
            let plan = plan_by(alloc, &found.parts, &found.ticks)?;
            Ok(Some(plan))
        }
        None => Ok(None),
    }
}
