ghost use Rattle.std.specs.Prelude.{◌≡◌, ◌+◌, ◌<◌, ◌≤◌, ◌^◌, length, IfOk, IfSome, IfNone};
ghost use Rattle.tick_network.specs.Nets.{IsNet, IsGreatest, IsLeast, HasNoSolution, most_steps as most_looks, row_count};
ghost use Rattle.tp_spec.specs.Schedules.{Live};
ghost use Rattle.tp_spec.specs.Words.{Sound};
ghost use Rattle.word_network.specs.Conditions.{AreLimits, AreCommits};
ghost use Rattle.word_network.specs.Schedules.{least_steps, most_steps};
ghost use Rattle.word_network.specs.Solutions.{AreLastOf, AreFirstOf};

use crate::net::{WordNet, network_of};
use crate::parts::WordParts;
use std::alloc::Global;
use std::sync::ledger::Ledger;
use tick_network::{Steps, greatest, least};
use tp_spec::{Limits, Mark, NoMemory, Problem, Timed};

/// Ticks of a word's variables, with what its network was made of.
#[derive(Drop)]
pub struct Solved {
    pub parts: WordParts,
    pub ticks: Vec<u64>,
}

/// The greatest ticks of a word's variables. None exactly where the word is not live.
pub fn last_ticks<L: Ledger>(
    alloc: Global,
    problem: &Problem,
    limits: &Limits,
    word: &[Mark],
    commits: &[Timed],
    now: u64,
    steps: &mut Steps<L>,
) -> Result<Option<Solved>, NoMemory>
    requires limits { AreLimits limits.now }
    requires commits { AreCommits problem.now commits.now }
    requires sound { Sound problem.now word.now }
    requires few { length word.now < 2 ^ 31 }
    ensures some { IfOk result (λ r. IfSome r (AreLastOf problem.now limits.now now commits.now
        word.now)) }
    ensures none { IfOk result (λ r. IfNone r (¬ (Live problem.now limits.now now commits.now
        word.now))) }
    ensures steps { steps.new ≤ steps.old + most_steps problem.now word.now }
    ensures counted { IfOk result (λ r. IfSome r (λ _. steps.old
        + least_steps problem.now word.now ≤ steps.new)) }
{
    match network_of(alloc, problem, limits, word, commits, now)? {
        Some(found) => greatest_of(alloc, found, steps),
        None => Ok(None),
    }
}

fn greatest_of<L: Ledger>(
    alloc: Global,
    found: WordNet,
    steps: &mut Steps<L>,
) -> Result<Option<Solved>, NoMemory>
    requires { IsNet found.net }
    ensures some { IfOk result (λ r. IfSome r (λ s. IsGreatest found.net s.ticks.items)) }
    ensures parts { IfOk result (λ r. IfSome r (λ s. s.parts ≡ found.parts)) }
    ensures none { IfOk result (λ r. IfNone r (HasNoSolution found.net)) }
    ensures steps { steps.new ≤ steps.old + most_looks found.net }
    ensures counted { IfOk result (λ r. IfSome r (λ _.
        steps.old + row_count found.net ≤ steps.new)) }
{
    let WordNet { parts, net } = found;
    match greatest(alloc, &net, steps)? {
        Some(ticks) => Ok(Some(Solved { parts, ticks })),
        None => Ok(None),
    }
}

/// The least ticks of a word's variables. None exactly where the word is not live.
pub fn first_ticks<L: Ledger>(
    alloc: Global,
    problem: &Problem,
    limits: &Limits,
    word: &[Mark],
    commits: &[Timed],
    now: u64,
    steps: &mut Steps<L>,
) -> Result<Option<Solved>, NoMemory>
    requires limits { AreLimits limits.now }
    requires commits { AreCommits problem.now commits.now }
    requires sound { Sound problem.now word.now }
    requires few { length word.now < 2 ^ 31 }
    ensures some { IfOk result (λ r. IfSome r (AreFirstOf problem.now limits.now now commits.now
        word.now)) }
    ensures none { IfOk result (λ r. IfNone r (¬ (Live problem.now limits.now now commits.now
        word.now))) }
    ensures groups { IfOk result (λ r. IfSome r (λ s. s.parts.groups < 2 ^ 31)) }
    ensures acts { IfOk result (λ r. IfSome r (λ s. length s.parts.acts.items < 2 ^ 31)) }
    ensures steps { steps.new ≤ steps.old + most_steps problem.now word.now }
    ensures counted { IfOk result (λ r. IfSome r (λ _. steps.old
        + least_steps problem.now word.now ≤ steps.new)) }
{
    match network_of(alloc, problem, limits, word, commits, now)? {
        Some(found) => least_of(alloc, found, steps),
        None => Ok(None),
    }
}

fn least_of<L: Ledger>(
    alloc: Global,
    found: WordNet,
    steps: &mut Steps<L>,
) -> Result<Option<Solved>, NoMemory>
    requires { IsNet found.net }
    ensures some { IfOk result (λ r. IfSome r (λ s. IsLeast found.net s.ticks.items)) }
    ensures parts { IfOk result (λ r. IfSome r (λ s. s.parts ≡ found.parts)) }
    ensures none { IfOk result (λ r. IfNone r (HasNoSolution found.net)) }
    ensures steps { steps.new ≤ steps.old + most_looks found.net }
    ensures counted { IfOk result (λ r. IfSome r (λ _.
        steps.old + row_count found.net ≤ steps.new)) }
{
    let WordNet { parts, net } = found;
    match least(alloc, &net, steps)? {
        Some(ticks) => Ok(Some(Solved { parts, ticks })),
        None => Ok(None),
    }
}
