ghost use Rattle.std.specs.Prelude.{◌≡◌, IfOk, IsTrue};
ghost use Rattle.tp_spec.specs.WellFormed.{IsWellFormed};
ghost use Rattle.problem_rules.specs.Parts.{ground_of};
ghost use Rattle.problem_rules.specs.Tests.{is_scale as is_scale_of, are_few_names as are_few_names_of, are_actions as are_actions_of, are_timed as are_timed_of, are_init as are_init_of, is_goal as is_goal_of, names_hold as names_hold_of, items_hold as items_hold_of, states_hold as states_hold_of, ranges_hold as ranges_hold_of, well_formed};

use crate::apart::told_apart;
use crate::checks::{are_conds, each_action, each_timed, ticks_fit, ticks_rise, values_fit};
use crate::names::{all_below, are_names, names_rise, numbers_rise};
use crate::parts::Parts;
use std::alloc::Global;
use tp_spec::{Action, Cond, Name, NoMemory, TimedItem};

/// Whether a scale is one of the four.
pub fn is_scale(scale: u32) -> bool
    ensures { result ≡ is_scale_of scale }
{
    scale == 1 || scale == 10 || scale == 100 || scale == 1000
}

fn are_few_names(most: usize, names: &[Name]) -> bool
    ensures { result ≡ are_few_names_of most names.now }
{
    names.len() <= most && are_names(names) && names_rise(names)
}

fn are_actions(facts: usize, fluents: usize, actions: &[Action]) -> bool
    ensures { result ≡ are_actions_of facts fluents actions.now }
{
    actions.len() <= 4096 && each_action(facts, fluents, actions)
}

fn are_timed(facts: usize, items: &[TimedItem]) -> bool
    ensures { result ≡ are_timed_of facts items.now }
{
    items.len() <= 256 && each_timed(facts, items) && ticks_rise(items)
}

fn are_init(facts: usize, init: &[u32]) -> bool
    ensures { result ≡ are_init_of facts init.now }
{
    all_below(init, facts) && numbers_rise(init)
}

fn is_goal(facts: usize, fluents: usize, goal: &[Cond]) -> bool
    ensures { result ≡ is_goal_of facts fluents goal.now }
{
    goal.len() < 2_147_483_648 && are_conds(facts, fluents, goal)
}

fn names_hold(parts: &Parts) -> bool
    ensures { result ≡ names_hold_of (ground_of parts.now) }
{
    is_scale(parts.scale)
        && are_few_names(4096, parts.facts.as_slice())
        && are_few_names(256, parts.fluents.as_slice())
}

/// Whether actions and timed items keep the rules of a problem.
pub fn items_hold(alloc: Global, parts: &Parts) -> Result<bool, NoMemory>
    ensures { IfOk result (λ is. is ≡ items_hold_of (ground_of parts.now)) }
{
    let facts = parts.facts.as_slice().len();
    let fluents = parts.fluents.as_slice().len();
    if !are_actions(facts, fluents, parts.actions.as_slice()) {
        return Ok(false);
    }
    let apart = told_apart(alloc, parts.actions.as_slice())?;
    Ok(apart && are_timed(facts, parts.timed.as_slice()))
}

/// Whether the start and the goal keep the rules of a problem.
pub fn states_hold(parts: &Parts) -> bool
    ensures { result ≡ states_hold_of (ground_of parts.now) }
{
    let facts = parts.facts.as_slice().len();
    let fluents = parts.fluents.as_slice().len();
    are_init(facts, parts.init.as_slice())
        && parts.values.as_slice().len() == fluents
        && is_goal(facts, fluents, parts.goal.as_slice())
}

/// Whether ticks and values are in their ranges.
pub fn ranges_hold(parts: &Parts) -> bool
    ensures { result ≡ ranges_hold_of (ground_of parts.now) }
{
    ticks_fit(parts.timed.as_slice()) && values_fit(parts.values.as_slice())
}

/// Whether parts pass all tests of the rules.
fn rules_hold(alloc: Global, parts: &Parts) -> Result<bool, NoMemory>
    ensures { IfOk result (λ is. is ≡ well_formed (ground_of parts.now)) }
{
    if !names_hold(parts) {
        return Ok(false);
    }
    let items = items_hold(alloc, parts)?;
    Ok(items && states_hold(parts) && ranges_hold(parts))
}

/// Whether parts keep the rules of a problem.
pub fn is_well_formed(alloc: Global, parts: &Parts) -> Result<bool, NoMemory>
    ensures yes { IfOk result (λ is. IsTrue is → IsWellFormed (ground_of parts.now)) }
    ensures no { IfOk result (λ is. IsWellFormed (ground_of parts.now) → IsTrue is) }
{
    rules_hold(alloc, parts)
}
