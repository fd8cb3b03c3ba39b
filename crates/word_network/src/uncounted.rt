ghost use Rattle.std.specs.Prelude.{◌≡◌, ◌+◌, ◌<◌, ◌≤◌, ◌^◌, [], length, IsTrue, IfOk, IfSome, IfNone};
ghost use Rattle.tp_laws.specs.Plans.{none_run};
ghost use Rattle.tp_spec.specs.Schedules.{Live, awaited};
ghost use Rattle.tp_spec.specs.Words.{Sound, progress, acts_of};
ghost use Rattle.word_network.specs.Conditions.{AreLimits, AreCommits};
ghost use Rattle.word_network.specs.Schedules.{IsLatest, IsEarliest};

use crate::networks::{earliest, latest};
use crate::schedule::Latest;
use std::alloc::Global;
use std::marker::Brand;
use std::sync::ledger::{Blank, Ledger};
use tick_network::Steps;
use tp_spec::{Limits, Mark, NoMemory, Plan, Problem, Timed};

/// The greatest schedule of a word, as `latest`, whose steps nobody counts.
pub fn latest_schedule(
    alloc: Global,
    problem: &Problem,
    limits: &Limits,
    word: &[Mark],
    commits: &[Timed],
    now: u64,
) -> Result<Option<Latest>, NoMemory>
    requires limits { AreLimits limits.now }
    requires commits { AreCommits problem.now commits.now }
    requires now { now ≤ 2 ^ 40 + 1 }
    requires sound { Sound problem.now word.now }
    requires few { length word.now < 2 ^ 31 }
    ensures some { IfOk result (λ r. IfSome r (IsLatest problem.now limits.now now commits.now
        word.now)) }
    ensures none { IfOk result (λ r. IfNone r (¬ (Live problem.now limits.now now commits.now
        word.now))) }
{
    latest_of_blank::<Brand>(alloc, problem, limits, word, commits, now, Blank::new(1))
}

fn latest_of_blank<L: Ledger>(
    alloc: Global,
    problem: &Problem,
    limits: &Limits,
    word: &[Mark],
    commits: &[Timed],
    now: u64,
    blank: Blank,
) -> Result<Option<Latest>, NoMemory>
    requires name { blank.name ≡ L.name }
    requires parts { blank.parts ≡ L.parts }
    requires shared { 0 < L.parts }
    requires limits { AreLimits limits.now }
    requires commits { AreCommits problem.now commits.now }
    requires now { now ≤ 2 ^ 40 + 1 }
    requires sound { Sound problem.now word.now }
    requires few { length word.now < 2 ^ 31 }
    ensures some { IfOk result (λ r. IfSome r (IsLatest problem.now limits.now now commits.now
        word.now)) }
    ensures none { IfOk result (λ r. IfNone r (¬ (Live problem.now limits.now now commits.now
        word.now))) }
{
    let mut steps: Steps<L> = Steps::new(blank);
    latest(alloc, problem, limits, word, commits, now, &mut steps)
}

/// The plan of a word's least schedule, as `earliest`, whose steps nobody counts.
pub fn earliest_plan(
    alloc: Global,
    problem: &Problem,
    limits: &Limits,
    word: &[Mark],
    commits: &[Timed],
    now: u64,
) -> Result<Option<Plan>, NoMemory>
    requires limits { AreLimits limits.now }
    requires commits { AreCommits problem.now commits.now }
    requires now { now ≤ 2 ^ 40 + 1 }
    requires sound { Sound problem.now word.now }
    requires few { length word.now < 2 ^ 31 }
    requires ended { IsTrue (none_run problem.now (progress problem.now word.now)) }
    requires held { awaited (acts_of problem.now word.now) commits.now ≡ [] }
    ensures some { IfOk result (λ r. IfSome r (IsEarliest problem.now limits.now now commits.now
        word.now)) }
    ensures none { IfOk result (λ r. IfNone r (¬ (Live problem.now limits.now now commits.now
        word.now))) }
{
    earliest_of_blank::<Brand>(alloc, problem, limits, word, commits, now, Blank::new(1))
}

fn earliest_of_blank<L: Ledger>(
    alloc: Global,
    problem: &Problem,
    limits: &Limits,
    word: &[Mark],
    commits: &[Timed],
    now: u64,
    blank: Blank,
) -> Result<Option<Plan>, NoMemory>
    requires name { blank.name ≡ L.name }
    requires parts { blank.parts ≡ L.parts }
    requires shared { 0 < L.parts }
    requires limits { AreLimits limits.now }
    requires commits { AreCommits problem.now commits.now }
    requires now { now ≤ 2 ^ 40 + 1 }
    requires sound { Sound problem.now word.now }
    requires few { length word.now < 2 ^ 31 }
    requires ended { IsTrue (none_run problem.now (progress problem.now word.now)) }
    requires held { awaited (acts_of problem.now word.now) commits.now ≡ [] }
    ensures some { IfOk result (λ r. IfSome r (IsEarliest problem.now limits.now now commits.now
        word.now)) }
    ensures none { IfOk result (λ r. IfNone r (¬ (Live problem.now limits.now now commits.now
        word.now))) }
{
    let mut steps: Steps<L> = Steps::new(blank);
    earliest(alloc, problem, limits, word, commits, now, &mut steps)
}
