ghost use Rattle.std.specs.Prelude.{◌≡◌, ℕ, ◌^◌, ◌<◌, not, length, IsTrue, MatchOption, IfOk};
ghost use Rattle.std.specs.List.{list_all, find};
ghost use Rattle.tp_spec.specs.Lists.{each_pair, each_next};
ghost use Rattle.tp_spec.specs.Courses.{act_before, in_range};
ghost use Rattle.plan_validator.specs.Acts.{reach, keeps, is_small, is_of};
ghost use Rattle.plan_validator.specs.Verdicts.{IsFirstOut, AreActsWhole, IsActsFault};

use crate::verdict::Verdict;
use std::alloc::Global;
use tp_spec::{Kind, Limits, NoMemory, Problem, Timed};

/// Whether an act's length is in its action's range.
fn has_length_in_range(problem: &Problem, act: Timed) -> bool
    ensures { result ≡ in_range problem.now act.action act.length }
{
    match problem.actions.as_slice().get(act.action as usize) {
        Some(action) => match action.kind {
            Kind::Instant => act.length == 0,
            Kind::Durative { least, most } => least <= act.length && act.length <= most,
        },
        None => false,
    }
}

/// The first act whose length is out of its action's range.
pub(crate) fn first_length_out(problem: &Problem, acts: &[Timed]) -> Option<Timed>
    ensures { result ≡ find (λ x. not (in_range problem.now x.action x.length)) acts.now }
{
    let mut rest = acts;
    while let [act, tail @ ..] = rest {
        if !has_length_in_range(problem, *act) {
            return Some(*act);
        }
        rest = tail;
    }
    None
}

/// What acts of one action owe each other: not to start at one tick, or to start only when the
/// earlier ones ended.
#[derive(Clone, Copy, Debug, PartialEq, Eq)]
pub(crate) enum Rule {
    StartsApart,
    InTurn,
}

impl Rule {
    /// From when on an act lets its action start again.
    fn reach(self, act: Timed) -> u64
        requires { IsTrue (is_small act) }
        ensures { result ≡ reach self act }
    {
        match self {
            Rule::StartsApart => act.start + 1,
            Rule::InTurn => act.start + act.length,
        }
    }
}

/// The first act that breaks a rule with one before it. It keeps for each action, of so many, the
/// tick from which on it may start, so that no act is compared with another one.
pub(crate) fn first_out(
    alloc: Global,
    rule: Rule,
    count: usize,
    acts: &[Timed],
) -> Result<Option<Timed>, NoMemory>
    requires inside { IsTrue (list_all (is_of count) acts.now) }
    requires small { IsTrue (list_all is_small acts.now) }
    ensures { IfOk result (λ r. MatchOption r (IsTrue (each_pair (keeps rule) acts.now))
        (λ x. IsFirstOut (keeps rule) acts.now x.start x.action)) }
{
    let mut free = match vec![in alloc; 0u64; count] {
        Ok(free) => free,
        Err(_) => return Err(NoMemory),
    };
    for act in acts {
        let action = act.action as usize;
        let from = free[action];
        if act.start < from {
            return Ok(Some(*act));
        }
        free[action] = from.max(rule.reach(*act));
    }
    Ok(None)
}

/// The first part of a plan's acts alone that is broken: their number, two starts of one action at
/// a tick, a length, or an act that begins before an earlier one of its action ended; none where
/// all are whole.
pub(crate) fn fault_of_acts(
    alloc: Global,
    problem: &Problem,
    limits: &Limits,
    acts: &[Timed],
) -> Result<Option<Verdict>, NoMemory>
    requires in_order { IsTrue (each_next act_before acts.now) }
    requires inside { IsTrue (list_all (is_of (length problem.now.actions)) acts.now) }
    requires small { IsTrue (list_all is_small acts.now) }
    requires few { length acts.now < 2 ^ 31 }
    ensures { IfOk result (λ r. MatchOption r (AreActsWhole problem.now limits.now acts.now)
        (IsActsFault problem.now limits.now acts.now)) }
{
    if acts.len() > limits.actions as usize {
        let acts = acts.len() as u32;
        return Ok(Some(Verdict::TooLong { acts }));
    }
    let count = problem.actions.as_slice().len();
    if let Some(act) = first_out(alloc, Rule::StartsApart, count, acts)? {
        let Timed { start, action, .. } = act;
        return Ok(Some(Verdict::TwiceAt { start, action }));
    }
    if let Some(act) = first_length_out(problem, acts) {
        let Timed { start, action, .. } = act;
        return Ok(Some(Verdict::LengthOut { start, action }));
    }
    if let Some(act) = first_out(alloc, Rule::InTurn, count, acts)? {
        let Timed { start, action, .. } = act;
        return Ok(Some(Verdict::Overlap { start, action }));
    }
    Ok(None)
}
