ghost use Rattle.std.specs.Prelude.{◌≡◌, length, IfOk, IsTrue};
ghost use Rattle.std.specs.List.{list_all};
ghost use Rattle.tp_spec.specs.Lists.{each_next};
ghost use Rattle.tp_spec.specs.Courses.{act_before};
ghost use Rattle.plan_validator.specs.Acts.{is_of};
ghost use Rattle.plan_validator.specs.Standings.{item_of, front_at, behind_at, AreStandings};
ghost use Rattle.plan_validator.specs.Course.{IsCourse};

use crate::running::{drop_ended, later, take_in};
use crate::standings::{Place, Standing};
use crate::tick::{Judged, judge_tick};
use snap_actions::items_of;
use std::alloc::Global;
use tp_spec::{Item, NoMemory, Problem, Timed};
use world_state::initial;

/// Judges a plan's ticks up to its end, happening by happening: between two of them nothing changes
/// and nothing begins to run. The running acts are kept from one to the next, so that none goes
/// over all acts.
///
/// PDDL 2.1, section 6 (the trace of a plan).
pub(crate) fn judge_course(
    alloc: Global,
    problem: &Problem,
    acts: &[Timed],
    end: u64,
    standings: &[Standing],
) -> Result<Judged, NoMemory>
    requires in_order { IsTrue (each_next act_before acts.now) }
    requires inside { IsTrue (list_all (is_of (length problem.now.actions)) acts.now) }
    requires standings { AreStandings problem.now acts.now 0 standings.now }
    ensures { IfOk result (λ r. IsCourse problem.now acts.now end r) }
{
    let tables = items_of(alloc, problem)?;
    let mut state = initial(alloc, problem)?;
    let mut running = Vec::new(alloc);
    let mut coming = acts;
    let mut rest = standings;
    while let [first, ..] = rest {
        let tick = first.tick;
        if tick > end {
            return Ok(Judged::Passed(state));
        }
        let here = items_at(alloc, rest, tick)?;
        drop_ended(&mut running, tick);
        take_in(problem, &mut running, coming, tick)?;
        coming = later(coming, tick);
        match judge_tick(alloc, problem, &tables, &running, tick, &here, &state)? {
            Judged::Fault(verdict) => return Ok(Judged::Fault(verdict)),
            Judged::Passed(next) => state = next,
        }
        rest = behind(rest, tick);
    }
    Ok(Judged::Passed(state))
}

/// The items in front that stand at a tick.
fn items_at(alloc: Global, standings: &[Standing], tick: u64) -> Result<Vec<Item>, NoMemory>
    ensures { IfOk result (λ v. v.items ≡ front_at tick standings.now) }
{
    let mut items = Vec::new(alloc);
    let mut rest = standings;
    while let [first, tail @ ..] = rest {
        if first.tick != tick {
            return Ok(items);
        }
        match items.push(item(first.place)) {
            Ok(()) => {}
            Err(_) => return Err(NoMemory),
        }
        rest = tail;
    }
    Ok(items)
}

/// What is behind the items in front that stand at a tick.
fn behind(standings: &[Standing], tick: u64) -> &[Standing]
    ensures { result.now ≡ behind_at tick standings.now }
{
    let mut rest = standings;
    while let [first, tail @ ..] = rest {
        if first.tick != tick {
            return rest;
        }
        rest = tail;
    }
    rest
}

fn item(place: Place) -> Item
    ensures { result ≡ item_of place }
{
    match place {
        Place::Fixed(number) => Item::TimedAt(number),
        Place::Ending(action) => Item::End(action),
        Place::Starting(action) => Item::Start(action),
    }
}
