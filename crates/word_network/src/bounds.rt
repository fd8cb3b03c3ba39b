ghost use Rattle.std.specs.Prelude.{◌≡◌, ℕ, ◌+◌, ◌-◌, ◌<◌, ◌≤◌, ◌^◌, ◌++◌, ◌∷◌, [], ◌==◌, length, map, slice_get, All, IfOk, IfSome, OnOk};
ghost use Rattle.tp_spec.specs.Schedules.{acts_by, commits_by};
ghost use Rattle.word_rows.specs.Rows.{by_acts, clock_bounds, commit_bounds, next_bounds, open_acts, timed_bounds};
ghost use Rattle.word_network.specs.Nets.{bounds_at};
ghost use Rattle.word_network.specs.Parts.{act_of};

use crate::parts::WordAct;
use crate::rows::end_of_act;
use std::alloc::Global;
use tp_spec::{NoMemory, Problem, Timed};
use word_rows::Bound;

fn push_bound(bounds: &mut Vec<Bound>, variable: u32, tick: u64) -> Result<(), NoMemory>
    ensures { OnOk result (bounds.new.items
        ≡ bounds.old.items ++ record { variable = variable; tick = tick } ∷ []) }
{
    match bounds.push(Bound { variable, tick }) {
        Ok(()) => Ok(()),
        Err(_) => Err(NoMemory),
    }
}

/// Timed items stand at their ticks; `timed` are their groups.
pub fn push_timed(problem: &Problem, timed: &[u32], bounds: &mut Vec<Bound>) -> Result<(), NoMemory>
    ensures { OnOk result (bounds.new.items
        ≡ bounds.old.items ++ timed_bounds timed.now problem.now.timed) }
{
    for (i, group) in timed.iter().enumerate() {
        match problem.timed.as_slice().get(i) {
            Some(item) => push_bound(bounds, *group, item.tick)?,
            None => return Ok(()),
        }
    }
    Ok(())
}

/// What each act asks: a committed one stands where its commitment says, every other one starts
/// at the clock or later.
pub fn push_starts(
    groups: u32,
    acts: &[WordAct],
    commits: &[Timed],
    now: u64,
    exact: &mut Vec<Bound>,
    clock: &mut Vec<Bound>,
) -> Result<(), NoMemory>
    requires groups { groups < 2 ^ 31 }
    requires acts { length acts.now < 2 ^ 31 }
    requires early { All (λ c. c.start + c.length ≤ 2 ^ 41) commits.now }
    ensures exact { OnOk result (exact.new.items ≡ exact.old.items
        ++ by_acts (commit_bounds groups (open_acts (map act_of acts.now))) commits.now (λ a. 0)
        (map act_of acts.now)) }
    ensures clock { OnOk result (clock.new.items ≡ clock.old.items
        ++ by_acts (clock_bounds now) commits.now (λ a. 0) (map act_of acts.now)) }
{
    for i in 0..acts.len() {
        let act = acts[i];
        let seen = count_by(&acts[..i], act.action);
        let commit = nth_commit(commits, act.action, seen);
        push_start(groups, acts, &act, commit, now, exact, clock)?;
    }
    Ok(())
}

/// What one act asks, with its commitment.
fn push_start(
    groups: u32,
    acts: &[WordAct],
    act: &WordAct,
    commit: Option<Timed>,
    now: u64,
    exact: &mut Vec<Bound>,
    clock: &mut Vec<Bound>,
) -> Result<(), NoMemory>
    requires groups { groups < 2 ^ 31 }
    requires acts { length acts.now < 2 ^ 31 }
    requires early { IfSome commit (λ c. c.start + c.length ≤ 2 ^ 41) }
    ensures exact { OnOk result (exact.new.items ≡ exact.old.items
        ++ commit_bounds groups (open_acts (map act_of acts.now)) (act_of act.now) commit) }
    ensures clock { OnOk result (clock.new.items
        ≡ clock.old.items ++ clock_bounds now (act_of act.now) commit) }
{
    match commit {
        None => push_bound(clock, act.opens, now),
        Some(found) => {
            push_bound(exact, act.opens, found.start)?;
            let end = end_of_act(groups, acts, act);
            push_bound(exact, end, found.start + found.length)
        }
    }
}

/// How many acts are of an action.
pub fn count_by(acts: &[WordAct], action: u32) -> usize
    ensures { result ≡ length (acts_by action (map act_of acts.now)) }
{
    let mut count = 0;
    for act in acts {
        if act.action == action {
            count += 1;
        }
    }
    count
}

/// The commitment of an action behind `passed` others of it.
fn nth_commit(commits: &[Timed], action: u32, passed: usize) -> Option<Timed>
    requires { All (λ c. c.start + c.length ≤ 2 ^ 41) commits.now }
    ensures commit { result ≡ slice_get (commits_by action commits.now) passed }
    ensures early { IfSome result (λ c. c.start + c.length ≤ 2 ^ 41) }
{
    let mut left = passed;
    for commit in commits {
        if commit.action == action {
            if left == 0 {
                return Some(*commit);
            }
            left -= 1;
        }
    }
    None
}

/// What the last group of a word asks: it stands before the next timed item, of which `timed` came
/// before, and no later than the commitments that are waited for.
pub fn bounds_of_last(
    alloc: Global,
    problem: &Problem,
    last: u32,
    timed: usize,
    waiting: &[Timed],
) -> Result<Vec<Bound>, NoMemory>
    ensures { IfOk result (λ v. v.items ≡ bounds_at problem.now last timed waiting.now) }
{
    let mut bounds = Vec::new(alloc);
    push_next(problem, last, timed, &mut bounds)?;
    for commit in waiting {
        push_bound(&mut bounds, last, commit.start)?;
    }
    Ok(bounds)
}

fn push_next(
    problem: &Problem,
    last: u32,
    timed: usize,
    bounds: &mut Vec<Bound>,
) -> Result<(), NoMemory>
    ensures { OnOk result (bounds.new.items
        ≡ bounds.old.items ++ next_bounds last (slice_get problem.now.timed timed)) }
{
    match problem.timed.as_slice().get(timed) {
        Some(item) => push_bound(bounds, last, item.tick.saturating_sub(1)),
        None => Ok(()),
    }
}
