ghost use Rattle.std.specs.Prelude.{◌≡◌, ℕ, [], ◌∷◌, ◌||◌, length, IfOk, OnOk, IsTrue};
ghost use Rattle.std.specs.List.{list_all};
ghost use Rattle.tp_spec.specs.declared.plan.Item.{Item};
ghost use Rattle.tp_spec.specs.Items.{is_durative};
ghost use Rattle.plan_validator.specs.Acts.{is_small, is_of};
ghost use Rattle.plan_validator.specs.Standings.{item_of, has_standing, stands_timed, stands_by, AreInOrder, AreStandings};

use std::alloc::Global;
use tp_spec::{Kind, NoMemory, Problem, Timed};

/// A timed item, or the end or the start of an action, each by its number: in the item order.
#[derive(Clone, Copy, Debug, PartialEq, Eq, PartialOrd, Ord)]
pub(crate) enum Place {
    Fixed(u32),
    Ending(u32),
    Starting(u32),
}

/// An item that stands at a tick: in order of the ticks, and at one tick in the item order.
#[derive(Clone, Copy, Debug, PartialEq, Eq, PartialOrd, Ord)]
pub(crate) struct Standing {
    pub(crate) tick: u64,
    pub(crate) place: Place,
}

/// All that stands at some tick, in order.
///
/// PDDL 2.1, section 5 (the happening sequence of a plan).
pub(crate) fn standings_of(
    alloc: Global,
    problem: &Problem,
    acts: &[Timed],
) -> Result<Vec<Standing>, NoMemory>
    requires inside { IsTrue (list_all (is_of (length problem.now.actions)) acts.now) }
    requires small { IsTrue (list_all is_small acts.now) }
    ensures { IfOk result (λ v. AreStandings problem.now acts.now 0 v.items) }
{
    let mut standings = Vec::new(alloc);
    push_timed(&mut standings, problem)?;
    push_acts(&mut standings, problem, acts)?;
    put_in_order(&mut standings);
    Ok(standings)
}

/// Puts them in order, each but once.
fn put_in_order(standings: &mut Vec<Standing>)
    ensures { AreInOrder standings.old.items standings.new.items }
{
    standings.sort_unstable();
    standings.dedup();
}

/// Adds all timed items.
fn push_timed(standings: &mut Vec<Standing>, problem: &Problem) -> Result<(), NoMemory>
    ensures { OnOk result ((t : ℕ) (i : Item)
        → has_standing standings.new.items t i
        ≡ (has_standing standings.old.items t i
        || stands_timed problem.now (length problem.now.timed) t i)) }
{
    for (index, item) in problem.timed.as_slice().iter().enumerate() {
        let place = Place::Fixed(index as u32);
        push(standings, item.tick, place)?;
    }
    Ok(())
}

/// Adds the starts of all acts, and the ends of the durative ones.
fn push_acts(
    standings: &mut Vec<Standing>,
    problem: &Problem,
    acts: &[Timed],
) -> Result<(), NoMemory>
    requires { IsTrue (list_all is_small acts.now) }
    ensures { OnOk result ((t : ℕ) (i : Item)
        → has_standing standings.new.items t i
        ≡ (has_standing standings.old.items t i || stands_by problem.now acts.now t i)) }
{
    for act in acts {
        push_act(standings, problem, *act)?;
    }
    Ok(())
}

/// Adds the start of an act, and its end where it is durative.
fn push_act(standings: &mut Vec<Standing>, problem: &Problem, act: Timed) -> Result<(), NoMemory>
    requires { IsTrue (is_small act) }
    ensures { OnOk result ((t : ℕ) (i : Item)
        → has_standing standings.new.items t i
        ≡ (has_standing standings.old.items t i || stands_by problem.now (act ∷ []) t i)) }
{
    let Timed {
        action,
        start,
        length,
    } = act;
    push(standings, start, Place::Starting(action))?;
    if has_end(problem, action) {
        push(standings, start + length, Place::Ending(action))
    } else {
        Ok(())
    }
}

/// Whether an action is durative, so that its acts have an end.
fn has_end(problem: &Problem, action: u32) -> bool
    ensures { result ≡ is_durative problem.now action }
{
    match problem.actions.as_slice().get(action as usize) {
        Some(action) => match action.kind {
            Kind::Instant => false,
            Kind::Durative { .. } => true,
        },
        None => false,
    }
}

fn push(standings: &mut Vec<Standing>, tick: u64, place: Place) -> Result<(), NoMemory>
    ensures { OnOk result ((t : ℕ) (i : Item)
        → has_standing standings.new.items t i
        ≡ (has_standing standings.old.items t i
        || has_standing (record { tick = tick; place = place } ∷ []) t i)) }
{
    match standings.push(Standing { tick, place }) {
        Ok(()) => Ok(()),
        Err(_) => Err(NoMemory),
    }
}
