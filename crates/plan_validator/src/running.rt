ghost use Rattle.std.specs.Prelude.{◌≡◌, ◌++◌, not, OnOk};
ghost use Rattle.std.specs.List.{filter};
ghost use Rattle.tp_spec.specs.Lists.{is_empty};
ghost use Rattle.tp_spec.specs.Items.{invariants};
ghost use Rattle.plan_validator.specs.Watched.{is_over as is_over_at, is_watched, begun_at, later_at};

use crate::tick::invariants_of;
use tp_spec::{NoMemory, Problem, Timed};

/// Removes the acts that ended by a tick.
pub(crate) fn drop_ended(running: &mut Vec<Timed>, tick: u64)
    ensures { running.new.items ≡ filter (λ x. not (is_over_at tick x)) running.old.items }
{
    running.retain(|act| !is_over(*act, tick));
}

/// Whether an act ended by a tick.
fn is_over(act: Timed, tick: u64) -> bool
    ensures { result ≡ is_over_at tick act }
{
    act.start <= tick && act.length <= tick - act.start
}

/// Takes in the acts in front that start by a tick, but for those whose actions have no invariant.
pub(crate) fn take_in(
    problem: &Problem,
    running: &mut Vec<Timed>,
    coming: &[Timed],
    tick: u64,
) -> Result<(), NoMemory>
    ensures { OnOk result (running.new.items ≡ running.old.items
        ++ filter (is_watched problem.now) (begun_at tick coming.now)) }
{
    let mut rest = coming;
    while let [act, tail @ ..] = rest {
        if act.start > tick {
            return Ok(());
        }
        if has_invariants(problem, act.action) && running.push(*act).is_err() {
            return Err(NoMemory);
        }
        rest = tail;
    }
    Ok(())
}

fn has_invariants(problem: &Problem, action: u32) -> bool
    ensures { result ≡ not (is_empty (invariants problem.now action)) }
{
    !invariants_of(problem, action).is_empty()
}

/// What is behind the acts in front that start by a tick.
pub(crate) fn later(coming: &[Timed], tick: u64) -> &[Timed]
    ensures { result.now ≡ later_at tick coming.now }
{
    let mut rest = coming;
    while let [act, tail @ ..] = rest {
        if act.start > tick {
            return rest;
        }
        rest = tail;
    }
    rest
}
