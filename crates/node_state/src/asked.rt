ghost use Rattle.std.specs.Prelude.{◌≡◌, ◌≤◌, ◌<◌, ◌*◌, not, ◌||◌, count_by, length, IsTrue};
ghost use Rattle.std.specs.List.{list_all, range_with_len};
ghost use Rattle.tp_spec.specs.States.{holds as holds_in};
ghost use Rattle.tp_spec.specs.Items.{invariants};
ghost use Rattle.world_state.specs.Exact.{is_shallow};
ghost use Rattle.world_state.specs.Rows.{is_in_row};
ghost use Rattle.world_state.specs.View.{meaning};
ghost use Rattle.node_state.specs.Readings.{keep_all};

use tp_spec::{Cond, Problem};
use world_state::{BitRow, State, all_hold, holds};

/// Whether the invariants of all actions that run hold in a state.
pub(crate) fn keep_invariants(problem: &Problem, running: &BitRow, state: &State) -> bool
    ensures { result ≡ keep_all problem.now (is_in_row running.now) (meaning state.now) }
{
    problem.keeps_the_rules();
    for block in 0..problem.actions.as_slice().len().div_ceil(64) {
        if !is_block_kept(problem, running, state, block) {
            return false;
        }
    }
    true
}

/// Whether the invariants of those of a block of 64 actions that run hold in a state.
fn is_block_kept(problem: &Problem, running: &BitRow, state: &State, block: usize) -> bool
    requires { block < 1048576 }
    ensures { result ≡ list_all (λ a. not (is_in_row running.now a)
        || list_all (holds_in (meaning state.now)) (invariants problem.now a))
        (range_with_len (64 * block) 64) }
{
    if running.word(block) == 0 {
        return true;
    }
    for bit in 0..64 {
        if !is_kept(problem, running, state, (64 * block + bit) as u32) {
            return false;
        }
    }
    true
}

/// Whether an action does not run, or its invariants hold in a state.
fn is_kept(problem: &Problem, running: &BitRow, state: &State, action: u32) -> bool
    ensures { result ≡ (not (is_in_row running.now action)
        || list_all (holds_in (meaning state.now)) (invariants problem.now action)) }
{
    !running.has(action) || invariants_hold(problem, state, action)
}

/// Whether the invariants of an action hold in a state.
fn invariants_hold(problem: &Problem, state: &State, action: u32) -> bool
    ensures { result ≡ list_all (holds_in (meaning state.now)) (invariants problem.now action) }
{
    problem.keeps_the_rules();
    all_hold(state, problem.invariants(action))
}

/// Whether each goal part holds in a state.
pub(crate) fn goal_holds(problem: &Problem, state: &State) -> bool
    ensures { result ≡ list_all (holds_in (meaning state.now)) problem.now.goal }
{
    problem.keeps_the_rules();
    all_hold(state, problem.goal.as_slice())
}

/// How many goal parts do not hold in a state.
pub(crate) fn unmet_in(problem: &Problem, state: &State) -> u32
    ensures { result ≡ count_by (λ g. not (holds_in (meaning state.now) g)) problem.now.goal }
{
    problem.keeps_the_rules();
    count_unmet(state, problem.goal.as_slice())
}

/// How many of some conditions do not hold in a state.
fn count_unmet(state: &State, conds: &[Cond]) -> u32
    requires shallow { IsTrue (list_all is_shallow conds.now) }
    requires few { length conds.now ≤ 2147483648 }
    ensures { result ≡ count_by (λ g. not (holds_in (meaning state.now) g)) conds.now }
{
    let mut count = 0;
    for cond in conds {
        if !is_met(state, cond) {
            count += 1;
        }
    }
    count
}

/// Whether a condition holds. Most goal parts are literals, which are judged here without a call.
fn is_met(state: &State, cond: &Cond) -> bool
    requires { IsTrue (is_shallow cond.now) }
    ensures { result ≡ holds_in (meaning state.now) cond.now }
{
    match cond {
        Cond::Lit { fact, positive } => state.has(*fact) == *positive,
        Cond::Compare { .. } => holds(state, cond),
    }
}
