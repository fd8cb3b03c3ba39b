ghost use Rattle.std.specs.Prelude.{◌≡◌, [], true, map, is_some, IsTrue, IfSome, IfOk};
ghost use Rattle.tp_spec.specs.Lists.{each_pair};
ghost use Rattle.tp_spec.specs.WellFormed.{name_before, IsWellFormed};
ghost use Rattle.problem_rules.specs.Parts.{ground_of};
ghost use Rattle.grounder.specs.Sources.{source_of};
ghost use Rattle.grounder.specs.Objects.{numbers_where};
ghost use Rattle.grounder.specs.Starts.{is_true as is_true_at, given as given_at};
ghost use Rattle.grounder.specs.Parts.{cond_of as cond_by};
ghost use Rattle.grounder.specs.Grounded.{problem_of, excess, IsGroundable, IsJudged, IsCounted};

use crate::counts::{Counted, count};
use crate::fault::GroundFault;
use crate::objects::with_number;
use crate::parts::{Numbering, actions_of, cond_of};
use crate::sorted::numbered;
use crate::start::Start;
use crate::tables::{given, is_true, start_of};
use crate::timed::timed_items;
use pddl_domain::Domain;
use pddl_meaning::Condition;
use pddl_problem::Task;
use problem_rules::{Parts, is_well_formed};
use std::alloc::Global;
use tp_spec::{Cond, List, Name, NoMemory, Problem};

/// The facts that are true at the start, by their numbers in order.
fn init_of(alloc: Global, start: &Start, facts: &[Name]) -> Result<List<u32>, NoMemory>
    ensures { IfOk result (λ init. init
        ≡ numbers_where (is_true_at (source_of start.now.source)) 0 facts.now) }
{
    let mut init = List::new(alloc);
    for (number, name) in facts.iter().enumerate() {
        init = with_number(init, is_true(start, name.as_str()), number)?;
    }
    Ok(init)
}

/// The values of the fluents at the start.
fn values_of(alloc: Global, start: &Start, fluents: &[Name]) -> Result<List<Option<i64>>, NoMemory>
    ensures { IfOk result (λ values. values
        ≡ map (given_at (source_of start.now.source)) fluents.now) }
{
    let mut values = List::new(alloc);
    for name in fluents {
        values.push(given(start, name.as_str()))?;
    }
    Ok(values)
}

/// The goal, which is not simplified.
fn goal_of(
    alloc: Global,
    start: &Start,
    numbering: &Numbering,
    goal: &[Condition],
) -> Result<List<Cond>, NoMemory>
    ensures { IfOk result (λ conds. conds ≡ map (cond_by (source_of start.now.source)
        numbering.now.facts numbering.now.fluents true []) goal.now) }
{
    let mut conds = List::new(alloc);
    for condition in goal {
        conds.push(cond_of(alloc, start, numbering, true, &[], condition)?)?;
    }
    Ok(conds)
}

/// The numbering of sorted names.
fn numbering_of(alloc: Global, counted: &Counted) -> Result<Numbering, NoMemory>
    requires facts { IsTrue (each_pair name_before counted.now.facts) }
    requires fluents { IsTrue (each_pair name_before counted.now.fluents) }
    ensures facts { IfOk result (λ n. n.facts ≡ counted.now.facts) }
    ensures fluents { IfOk result (λ n. n.fluents ≡ counted.now.fluents) }
{
    let facts = numbered(alloc, counted.facts.as_slice())?;
    let fluents = numbered(alloc, counted.fluents.as_slice())?;
    Ok(Numbering { facts, fluents })
}

/// The parts of the ground problem.
fn parts_of(alloc: Global, scale: u32, start: &Start, counted: Counted) -> Result<Parts, NoMemory>
    requires { IsCounted (source_of start.now.source) counted.kept counted.facts counted.fluents
        counted.ticks }
    ensures { IfOk result (λ p. ground_of p ≡ problem_of scale (source_of start.now.source)) }
{
    let numbering = numbering_of(alloc, &counted)?;
    let Counted {
        kept,
        facts,
        fluents,
        ticks,
    } = counted;
    let actions = actions_of(alloc, start, &numbering, kept.as_slice())?;
    let timed = timed_items(alloc, start, facts.as_slice(), ticks.as_slice())?;
    let init = init_of(alloc, start, facts.as_slice())?;
    let values = values_of(alloc, start, fluents.as_slice())?;
    let goal = goal_of(alloc, start, &numbering, start.source.task.goal.as_slice())?;
    Ok(Parts {
        scale,
        facts,
        fluents,
        actions,
        timed,
        init,
        values,
        goal,
    })
}

/// The ground problem of a domain and a problem over it, which were read at this scale, or the
/// first count past its limit.
///
/// PDDL 2.1, section 5 (grounding of action schemas by substitutions).
pub fn ground(
    alloc: Global,
    domain: &Domain,
    task: &Task,
    scale: u32,
) -> Result<Problem, GroundFault>
    requires { IsGroundable scale (record { domain = domain.now; task = task.now }) }
    ensures problem { IfOk result (λ p. p
        ≡ problem_of scale (record { domain = domain.now; task = task.now })) }
    ensures judged { IsJudged (excess (record { domain = domain.now; task = task.now })) result }
{
    let start = start_of(alloc, domain, task)?;
    match count(alloc, &start) {
        Err(fault) => Err(fault),
        Ok(counted) => {
            let parts = parts_of(alloc, scale, &start, counted)?;
            Ok(parts.into_problem())
        }
    }
}

/// The problem of parts, none where they do not keep the rules of a ground problem.
fn problem_from(alloc: Global, parts: Parts) -> Result<Option<Problem>, NoMemory>
    ensures some { IfOk result (λ o. IfSome o (λ p. p ≡ ground_of parts)) }
    ensures none { IfOk result (λ o. IsWellFormed (ground_of parts) → IsTrue (is_some o)) }
{
    if is_well_formed(alloc, &parts)? {
        Ok(Some(parts.into_problem()))
    } else {
        Ok(None)
    }
}

/// The same without a premise: no problem where it would break a rule of ground problems, which
/// nothing that the readers accept does.
pub fn ground_if_well_formed(
    alloc: Global,
    domain: &Domain,
    task: &Task,
    scale: u32,
) -> Result<Option<Problem>, GroundFault>
    ensures problem { IfOk result (λ o. IfSome o (λ p. p
        ≡ problem_of scale (record { domain = domain.now; task = task.now }))) }
    ensures none { IfOk result (λ o. IsWellFormed
        (problem_of scale (record { domain = domain.now; task = task.now })) → IsTrue (is_some o)) }
    ensures judged { IsJudged (excess (record { domain = domain.now; task = task.now })) result }
{
    let start = start_of(alloc, domain, task)?;
    match count(alloc, &start) {
        Err(fault) => Err(fault),
        Ok(counted) => {
            let parts = parts_of(alloc, scale, &start, counted)?;
            let problem = problem_from(alloc, parts)?;
            Ok(problem)
        }
    }
}
