ghost use Rattle.std.specs.Prelude.{◌≡◌, ◌+◌, ◌<◌, ◌^◌, not, ◌&&◌, ◌||◌, ◌==◌, nat_le, length, Some, IfOk, IsTrue, MatchOption};
ghost use Rattle.std.specs.List.{list_all, list_any, position};
ghost use Rattle.tp_spec.specs.Lists.{each_next};
ghost use Rattle.tp_spec.specs.States.{holds as holds_in};
ghost use Rattle.tp_spec.specs.Courses.{act_before};
ghost use Rattle.world_state.specs.View.{meaning};
ghost use Rattle.plan_validator.specs.Acts.{is_of, is_small};
ghost use Rattle.plan_validator.specs.Verdicts.{IsVerdict};

use crate::acts::fault_of_acts;
use crate::course::judge_course;
use crate::standings::{Standing, standings_of};
use crate::tick::Judged;
use crate::verdict::Verdict;
use std::alloc::Global;
use tp_spec::{Limits, NoMemory, Plan, Problem, Timed};
use world_state::{State, holds};

/// Whether a plan is valid, or else the first of its parts that is broken: its number of acts; two
/// starts of one action at a tick; a length; two acts of one action that overlap; its end; then,
/// tick by tick, two items that interfere, an item's own conditions, a fluent that leaves 64 bits,
/// an invariant of an action that runs; then its goal. It visits only the ticks at which something
/// happens.
///
/// PDDL 2.1, section 6 (plan validity); the order of the parts is this project's own.
pub fn validate(
    alloc: Global,
    problem: &Problem,
    limits: &Limits,
    plan: &Plan,
) -> Result<Verdict, NoMemory>
    requires in_order { IsTrue (each_next act_before plan.now.acts) }
    requires inside { IsTrue (list_all (is_of (length problem.now.actions)) plan.now.acts) }
    requires small { IsTrue (list_all is_small plan.now.acts) }
    requires few { length plan.now.acts < 2 ^ 31 }
    ensures { IfOk result (IsVerdict problem.now limits.now plan.now) }
{
    let acts = plan.acts.as_slice();
    if let Some(fault) = fault_of_acts(alloc, problem, limits, acts)? {
        return Ok(fault);
    }
    let standings = standings_of(alloc, problem, acts)?;
    if !ends_well(limits, acts, plan.end, &standings) {
        return Ok(Verdict::EndOff { end: plan.end });
    }
    match judge_course(alloc, problem, acts, plan.end, &standings)? {
        Judged::Fault(verdict) => Ok(verdict),
        Judged::Passed(state) => match first_unmet_part(problem, &state) {
            Some(part) => Ok(Verdict::GoalUnmet { part }),
            None => Ok(Verdict::Valid),
        },
    }
}

/// Whether a plan ends at 0 or at a happening, no later than the horizon, and no earlier than any
/// act.
fn ends_well(limits: &Limits, acts: &[Timed], end: u64, standings: &[Standing]) -> bool
    requires { IsTrue (list_all is_small acts.now) }
    ensures { result ≡ ((end == 0 || list_any (λ x. x.tick == end) standings.now)
        && nat_le end limits.now.horizon
        && list_all (λ x. nat_le (x.start + x.length) end) acts.now) }
{
    (end == 0 || happens_at(standings, end)) && end <= limits.horizon && all_ended(acts, end)
}

fn happens_at(standings: &[Standing], tick: u64) -> bool
    ensures { result ≡ list_any (λ x. x.tick == tick) standings.now }
{
    standings.iter().any(|standing| standing.tick == tick)
}

/// Whether no act ends after a tick.
fn all_ended(acts: &[Timed], end: u64) -> bool
    requires { IsTrue (list_all is_small acts.now) }
    ensures { result ≡ list_all (λ x. nat_le (x.start + x.length) end) acts.now }
{
    let mut rest = acts;
    while let [act, tail @ ..] = rest {
        if act.start + act.length > end {
            return false;
        }
        rest = tail;
    }
    true
}

/// The first part of the goal that does not hold in a state.
fn first_unmet_part(problem: &Problem, state: &State) -> Option<u32>
    ensures { MatchOption result (IsTrue (list_all (holds_in (meaning state.now)) problem.now.goal))
        (λ part. position (λ c. not (holds_in (meaning state.now) c)) problem.now.goal
        ≡ Some part) }
{
    for (part, cond) in problem.goal.as_slice().iter().enumerate() {
        if !holds(state, cond) {
            return Some(part as u32);
        }
    }
    None
}
