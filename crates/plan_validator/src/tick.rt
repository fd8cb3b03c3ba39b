ghost use Rattle.std.specs.Prelude.{◌≡◌, ℕ, ◌<◌, List, false, not, None, Some, slice_get, IfOk, IfSome, IsTrue, MatchOption};
ghost use Rattle.std.specs.Option.{option_copied};
ghost use Rattle.std.specs.List.{list_all, find};
ghost use Rattle.tp_spec.specs.declared.plan.Timed.{Timed};
ghost use Rattle.tp_spec.specs.declared.problem.Problem.{Problem as Ground};
ghost use Rattle.tp_spec.specs.Items.{after, invariants, own};
ghost use Rattle.tp_spec.specs.Lists.{each_pair};
ghost use Rattle.tp_spec.specs.Interference.{interfere as interferes};
ghost use Rattle.tp_spec.specs.Courses.{happening, runs_at as runs_at_tick, state_before};
ghost use Rattle.world_state.specs.Exact.{is_shallow};
ghost use Rattle.world_state.specs.View.{meaning, IsStateOf};
ghost use Rattle.world_state.specs.Happenings.{is_item_of, same_item};
ghost use Rattle.snap_actions.specs.Tables.{AreTables};
ghost use Rattle.plan_validator.specs.Verdicts.{pairs, is_broken_in};
ghost use Rattle.plan_validator.specs.Watched.{AreRunning};
ghost use Rattle.plan_validator.specs.Course.{is_act_broken, lesser as lesser_of, IsJudged, IsFirstBroken, IsFirstOver};

use crate::verdict::Verdict;
use snap_actions::{Items, interfere};
use std::alloc::Global;
use tp_spec::{Action, Cond, Item, NoMemory, Problem, Timed};
use world_state::{State, all_hold, apply, can, first_overflow};

/// What a tick is judged to be: the first part of it that is broken, or the state after it.
#[derive(Drop)]
pub(crate) enum Judged {
    Fault(Verdict),
    Passed(State),
}

/// Judges one happening: whether two items interfere, whether each item's own conditions hold
/// before, whether there is a state after, and whether the invariants of what runs hold in it. Of
/// the acts it is passed those that run. What it answers is so for each plan in which this is what
/// stands at the tick, what runs, and the state before.
///
/// PDDL 2.1, section 6 (plan validity).
pub(crate) fn judge_tick(
    alloc: Global,
    problem: &Problem,
    tables: &Items,
    running: &[Timed],
    tick: u64,
    here: &[Item],
    state: &State,
) -> Result<Judged, NoMemory>
    requires tables { AreTables problem.now tables.now }
    requires inside { IsTrue (list_all (is_item_of problem.now) here.now) }
    requires different { IsTrue (each_pair (λ i j. not (same_item i j)) here.now) }
    requires of_problem { IsStateOf problem.now state.now }
    ensures { IfOk result (λ r. (acts : List Timed) → here.now ≡ happening problem.now acts tick
        → AreRunning problem.now acts tick running.now
        → state_before problem.now acts tick ≡ Some (meaning state.now)
        → IsJudged problem.now acts tick r) }
{
    if let Some((a, b)) = first_clash(tables, here) {
        return Ok(Judged::Fault(Verdict::Clash { tick, a, b }));
    }
    if let Some(item) = first_unmet(problem, state, here) {
        return Ok(Judged::Fault(Verdict::Unmet { tick, item }));
    }
    let Some(next) = apply(alloc, problem, state, here)? else {
        let fluent = fluent_over(alloc, problem, state, here)?;
        return Ok(Judged::Fault(Verdict::Overflow { tick, fluent }));
    };
    match first_broken(problem, running, tick, &next) {
        Some(action) => Ok(Judged::Fault(Verdict::Broken { tick, action })),
        None => Ok(Judged::Passed(next)),
    }
}

/// The first two items that interfere: the first of them, and then the first one behind it.
fn first_clash(tables: &Items, here: &[Item]) -> Option<(Item, Item)>
    ensures { (p : Ground) → AreTables p tables.now
        → result ≡ find (λ x. interferes p x.0 x.1) (pairs here.now) }
{
    let mut rest = here;
    while let [first, behind @ ..] = rest {
        if let Some(other) = first_against(tables, *first, behind) {
            return Some((*first, other));
        }
        rest = behind;
    }
    None
}

/// The first item that interferes with this one.
fn first_against(tables: &Items, item: Item, others: &[Item]) -> Option<Item>
    ensures { (p : Ground) → AreTables p tables.now
        → result ≡ find (λ x. interferes p item x) others.now }
{
    let mut rest = others;
    while let [first, behind @ ..] = rest {
        if interfere(tables, item, *first) {
            return Some(*first);
        }
        rest = behind;
    }
    None
}

/// The first item whose own conditions do not hold.
fn first_unmet(problem: &Problem, state: &State, here: &[Item]) -> Option<Item>
    ensures { result ≡ find (λ i. not (own problem.now (meaning state.now) i)) here.now }
{
    let mut rest = here;
    while let [first, behind @ ..] = rest {
        if !can(problem, state, *first) {
            return Some(*first);
        }
        rest = behind;
    }
    None
}

/// The invariants of an action.
pub(crate) fn invariants_of(problem: &Problem, action: u32) -> &[Cond]
    ensures is { result.now ≡ invariants problem.now action }
    ensures shallow { IsTrue (list_all is_shallow result.now) }
{
    match action_at(problem, action) {
        Some(action) => action.all_conds.as_slice(),
        None => &[],
    }
}

/// An action of a problem, none where there is no such.
fn action_at(problem: &Problem, action: u32) -> Option<&Action>
    ensures is { option_copied result ≡ slice_get problem.now.actions action }
    ensures shallow { IfSome result (λ a. IsTrue (list_all is_shallow a.now.all_conds)) }
{
    problem.actions.as_slice().get(action as usize)
}

/// The first fluent whose new value leaves 64 bits.
fn fluent_over(
    alloc: Global,
    problem: &Problem,
    state: &State,
    here: &[Item],
) -> Result<u32, NoMemory>
    requires of_problem { IsStateOf problem.now state.now }
    requires inside { IsTrue (list_all (is_item_of problem.now) here.now) }
    requires different { IsTrue (each_pair (λ i j. not (same_item i j)) here.now) }
    requires none { after problem.now (meaning state.now) here.now ≡ None }
    ensures { IfOk result (IsFirstOver problem.now (meaning state.now) here.now) }
{
    match first_overflow(alloc, problem, state, here)? {
        Some(fluent) => Ok(fluent),
        None => unreachable!(),
    }
}

/// The first action, by its number, that runs at a tick with an invariant that does not hold in a
/// state.
fn first_broken(problem: &Problem, acts: &[Timed], tick: u64, state: &State) -> Option<u32>
    ensures { MatchOption result ((a : ℕ)
        → is_broken_in problem.now acts.now tick (meaning state.now) a
        ≡ false) (IsFirstBroken problem.now acts.now tick (meaning state.now)) }
{
    let mut first = None;
    for act in acts {
        if is_broken(problem, *act, tick, state) {
            first = Some(lesser(first, act.action));
        }
    }
    first
}

/// Whether an act runs at a tick and an invariant of its action does not hold in a state.
fn is_broken(problem: &Problem, act: Timed, tick: u64, state: &State) -> bool
    ensures { result ≡ is_act_broken problem.now tick (meaning state.now) act }
{
    runs_at(act, tick) && !all_hold(state, invariants_of(problem, act.action))
}

fn runs_at(act: Timed, tick: u64) -> bool
    ensures { result ≡ runs_at_tick tick act }
{
    act.start <= tick && tick - act.start < act.length
}

/// The lesser of two numbers, of which the first may be missing.
fn lesser(first: Option<u32>, action: u32) -> u32
    ensures { result ≡ lesser_of first action }
{
    match first {
        Some(other) => other.min(action),
        None => action,
    }
}
