ghost use Rattle.std.specs.Prelude.{◌≡◌, ◌++◌, [], ◌∷◌, true, map, IfOk};
ghost use Rattle.std.specs.List.{flat_map};
ghost use Rattle.grounder.specs.Sources.{source_of, atom_name as name_of_atom, call_name as name_of_call};
ghost use Rattle.grounder.specs.Kept.{kept};
ghost use Rattle.grounder.specs.Naming.{stays as stays_in, value_fluents, cond_facts, cond_fluents, change_facts, change_fluents, remaining_facts, remaining_fluents, dated_facts, conds_facts, conds_fluents, action_facts, action_fluents, schema_facts, schema_fluents, fact_names as fact_names_of, fluent_names as fluent_names_of};

use crate::conditions::is_static;
use crate::search::kept_at;
use crate::sources::{atom_name, call_name};
use crate::start::Start;
use crate::tables::is_static_function;
use pddl_domain::Schema;
use pddl_meaning::{Atom, Change, Condition, Value};
use std::alloc::Global;
use tp_spec::{List, Name, NoMemory};

/// Puts the name of an atom behind others.
fn with_atom(
    alloc: Global,
    start: &Start,
    objects: &[u32],
    mut names: List<Name>,
    atom: &Atom,
) -> Result<List<Name>, NoMemory>
    ensures { IfOk result (λ more. more ≡ names
        ++ name_of_atom (source_of start.now.source) objects.now atom.now ∷ []) }
{
    let name = atom_name(alloc, &start.source, objects, atom)?;
    names.push(Name::of(alloc, name.as_str())?)?;
    Ok(names)
}

/// Puts the name of a function term behind others.
fn with_call(
    alloc: Global,
    start: &Start,
    objects: &[u32],
    mut names: List<Name>,
    atom: &Atom,
) -> Result<List<Name>, NoMemory>
    ensures { IfOk result (λ more. more ≡ names
        ++ name_of_call (source_of start.now.source) objects.now atom.now ∷ []) }
{
    let name = call_name(alloc, &start.source, objects, atom)?;
    names.push(Name::of(alloc, name.as_str())?)?;
    Ok(names)
}

/// Whether a function term stays as a fluent: in actions where it is not static, in the goal
/// always.
pub fn stays(start: &Start, in_goal: bool, function: u32) -> bool
    ensures { result ≡ stays_in (source_of start.now.source) in_goal function }
{
    in_goal || !is_static_function(start, function)
}

/// Puts the fluents of an expression behind others.
#[tactic(auto, using(std::proofs::Common::append_assoc))]
fn with_value(
    alloc: Global,
    start: &Start,
    in_goal: bool,
    objects: &[u32],
    names: List<Name>,
    value: &Value,
) -> Result<List<Name>, NoMemory>
    ensures { IfOk result (λ more. more ≡ names
        ++ value_fluents (source_of start.now.source) in_goal objects.now value.now) }
{
    match value {
        Value::Number(_) => Ok(names),
        Value::Call(atom) => {
            if !stays(start, in_goal, atom.head) {
                return Ok(names);
            }
            with_call(alloc, start, objects, names, atom)
        }
        Value::Sum(left, right) => {
            let names = with_value(alloc, start, in_goal, objects, names, left.get())?;
            with_value(alloc, start, in_goal, objects, names, right.get())
        }
        Value::Difference(left, right) => {
            let names = with_value(alloc, start, in_goal, objects, names, left.get())?;
            with_value(alloc, start, in_goal, objects, names, right.get())
        }
    }
}

/// Puts the facts of a condition behind others.
fn with_cond_facts(
    alloc: Global,
    start: &Start,
    objects: &[u32],
    names: List<Name>,
    condition: &Condition,
) -> Result<List<Name>, NoMemory>
    ensures { IfOk result (λ more. more ≡ names
        ++ cond_facts (source_of start.now.source) objects.now condition.now) }
{
    match condition {
        Condition::Lit { atom, .. } => with_atom(alloc, start, objects, names, atom),
        Condition::Same { .. } => Ok(names),
        Condition::Compare { .. } => Ok(names),
    }
}

/// Puts the fluents of a condition behind others.
#[tactic(auto, using(std::proofs::Common::append_assoc))]
fn with_cond_fluents(
    alloc: Global,
    start: &Start,
    in_goal: bool,
    objects: &[u32],
    names: List<Name>,
    condition: &Condition,
) -> Result<List<Name>, NoMemory>
    ensures { IfOk result (λ more. more ≡ names
        ++ cond_fluents (source_of start.now.source) in_goal objects.now condition.now) }
{
    match condition {
        Condition::Lit { .. } => Ok(names),
        Condition::Same { .. } => Ok(names),
        Condition::Compare { left, right, .. } => {
            let names = with_value(alloc, start, in_goal, objects, names, left)?;
            with_value(alloc, start, in_goal, objects, names, right)
        }
    }
}

/// Puts the facts of an effect behind others.
fn with_change_facts(
    alloc: Global,
    start: &Start,
    objects: &[u32],
    names: List<Name>,
    change: &Change,
) -> Result<List<Name>, NoMemory>
    ensures { IfOk result (λ more. more ≡ names
        ++ change_facts (source_of start.now.source) objects.now change.now) }
{
    match change {
        Change::Lit { atom, .. } => with_atom(alloc, start, objects, names, atom),
        Change::Update { .. } => Ok(names),
    }
}

/// Puts the fluents of an effect behind others.
#[tactic(auto, using(std::proofs::Common::append_assoc))]
fn with_change_fluents(
    alloc: Global,
    start: &Start,
    objects: &[u32],
    names: List<Name>,
    change: &Change,
) -> Result<List<Name>, NoMemory>
    ensures { IfOk result (λ more. more ≡ names
        ++ change_fluents (source_of start.now.source) objects.now change.now) }
{
    match change {
        Change::Lit { .. } => Ok(names),
        Change::Update { target, value, .. } => {
            let names = with_call(alloc, start, objects, names, target)?;
            with_value(alloc, start, false, objects, names, value)
        }
    }
}

/// Puts the facts of a condition behind others, where it is not static.
fn with_remaining_facts(
    alloc: Global,
    start: &Start,
    objects: &[u32],
    names: List<Name>,
    condition: &Condition,
) -> Result<List<Name>, NoMemory>
    ensures { IfOk result (λ more. more ≡ names
        ++ remaining_facts (source_of start.now.source) objects.now condition.now) }
{
    if is_static(start, condition) {
        return Ok(names);
    }
    with_cond_facts(alloc, start, objects, names, condition)
}

/// Puts the fluents of a condition behind others, where it is not static.
fn with_remaining_fluents(
    alloc: Global,
    start: &Start,
    objects: &[u32],
    names: List<Name>,
    condition: &Condition,
) -> Result<List<Name>, NoMemory>
    ensures { IfOk result (λ more. more ≡ names
        ++ remaining_fluents (source_of start.now.source) objects.now condition.now) }
{
    if is_static(start, condition) {
        return Ok(names);
    }
    with_cond_fluents(alloc, start, false, objects, names, condition)
}

fn with_conds_facts(
    alloc: Global,
    start: &Start,
    objects: &[u32],
    mut names: List<Name>,
    conditions: &[Condition],
) -> Result<List<Name>, NoMemory>
    ensures { IfOk result (λ more. more ≡ names
        ++ conds_facts (source_of start.now.source) objects.now conditions.now) }
{
    for condition in conditions {
        names = with_remaining_facts(alloc, start, objects, names, condition)?;
    }
    Ok(names)
}

fn with_conds_fluents(
    alloc: Global,
    start: &Start,
    objects: &[u32],
    mut names: List<Name>,
    conditions: &[Condition],
) -> Result<List<Name>, NoMemory>
    ensures { IfOk result (λ more. more ≡ names
        ++ conds_fluents (source_of start.now.source) objects.now conditions.now) }
{
    for condition in conditions {
        names = with_remaining_fluents(alloc, start, objects, names, condition)?;
    }
    Ok(names)
}

fn with_changes_facts(
    alloc: Global,
    start: &Start,
    objects: &[u32],
    mut names: List<Name>,
    changes: &[Change],
) -> Result<List<Name>, NoMemory>
    ensures { IfOk result (λ more. more ≡ names
        ++ flat_map (change_facts (source_of start.now.source) objects.now) changes.now) }
{
    for change in changes {
        names = with_change_facts(alloc, start, objects, names, change)?;
    }
    Ok(names)
}

fn with_changes_fluents(
    alloc: Global,
    start: &Start,
    objects: &[u32],
    mut names: List<Name>,
    changes: &[Change],
) -> Result<List<Name>, NoMemory>
    ensures { IfOk result (λ more. more ≡ names
        ++ flat_map (change_fluents (source_of start.now.source) objects.now) changes.now) }
{
    for change in changes {
        names = with_change_fluents(alloc, start, objects, names, change)?;
    }
    Ok(names)
}

/// Puts the facts of a ground action behind others.
#[tactic(auto, using(std::proofs::Common::append_assoc))]
fn with_action_facts(
    alloc: Global,
    start: &Start,
    schema: &Schema,
    names: List<Name>,
    objects: &[u32],
) -> Result<List<Name>, NoMemory>
    ensures { IfOk result (λ more. more ≡ names
        ++ action_facts (source_of start.now.source) schema.now objects.now) }
{
    let names = with_conds_facts(alloc, start, objects, names, schema.start_conds.as_slice())?;
    let names = with_conds_facts(alloc, start, objects, names, schema.all_conds.as_slice())?;
    let names = with_conds_facts(alloc, start, objects, names, schema.end_conds.as_slice())?;
    let names = with_changes_facts(
        alloc,
        start,
        objects,
        names,
        schema.start_effects.as_slice(),
    )?;
    with_changes_facts(alloc, start, objects, names, schema.end_effects.as_slice())
}

/// Puts the fluents of a ground action behind others.
#[tactic(auto, using(std::proofs::Common::append_assoc))]
fn with_action_fluents(
    alloc: Global,
    start: &Start,
    schema: &Schema,
    names: List<Name>,
    objects: &[u32],
) -> Result<List<Name>, NoMemory>
    ensures { IfOk result (λ more. more ≡ names
        ++ action_fluents (source_of start.now.source) schema.now objects.now) }
{
    let names = with_conds_fluents(alloc, start, objects, names, schema.start_conds.as_slice())?;
    let names = with_conds_fluents(alloc, start, objects, names, schema.all_conds.as_slice())?;
    let names = with_conds_fluents(alloc, start, objects, names, schema.end_conds.as_slice())?;
    let names = with_changes_fluents(
        alloc,
        start,
        objects,
        names,
        schema.start_effects.as_slice(),
    )?;
    with_changes_fluents(alloc, start, objects, names, schema.end_effects.as_slice())
}

fn with_kept_facts(
    alloc: Global,
    start: &Start,
    schema: &Schema,
    mut names: List<Name>,
    kept: &[List<u32>],
) -> Result<List<Name>, NoMemory>
    ensures { IfOk result (λ more. more ≡ names
        ++ flat_map (action_facts (source_of start.now.source) schema.now) kept.now) }
{
    for objects in kept {
        names = with_action_facts(alloc, start, schema, names, objects.as_slice())?;
    }
    Ok(names)
}

fn with_kept_fluents(
    alloc: Global,
    start: &Start,
    schema: &Schema,
    mut names: List<Name>,
    kept: &[List<u32>],
) -> Result<List<Name>, NoMemory>
    ensures { IfOk result (λ more. more ≡ names
        ++ flat_map (action_fluents (source_of start.now.source) schema.now) kept.now) }
{
    for objects in kept {
        names = with_action_fluents(alloc, start, schema, names, objects.as_slice())?;
    }
    Ok(names)
}

/// The facts of all ground actions.
fn actions_facts(
    alloc: Global,
    start: &Start,
    all: &[List<List<u32>>],
) -> Result<List<Name>, NoMemory>
    requires { all.now
        ≡ map (kept (source_of start.now.source)) start.now.source.domain.now.actions }
    ensures { IfOk result (λ names. names ≡ flat_map (schema_facts (source_of start.now.source))
        start.now.source.domain.now.actions) }
{
    let mut names = List::new(alloc);
    for (number, schema) in start.source.domain.actions.as_slice().iter().enumerate() {
        names = with_kept_facts(alloc, start, schema, names, kept_at(all, number))?;
    }
    Ok(names)
}

/// The fluents of all ground actions.
fn actions_fluents(
    alloc: Global,
    start: &Start,
    all: &[List<List<u32>>],
) -> Result<List<Name>, NoMemory>
    requires { all.now
        ≡ map (kept (source_of start.now.source)) start.now.source.domain.now.actions }
    ensures { IfOk result (λ names. names ≡ flat_map (schema_fluents (source_of start.now.source))
        start.now.source.domain.now.actions) }
{
    let mut names = List::new(alloc);
    for (number, schema) in start.source.domain.actions.as_slice().iter().enumerate() {
        names = with_kept_fluents(alloc, start, schema, names, kept_at(all, number))?;
    }
    Ok(names)
}

fn with_timed_facts(
    alloc: Global,
    start: &Start,
    mut names: List<Name>,
) -> Result<List<Name>, NoMemory>
    ensures { IfOk result (λ more. more ≡ names
        ++ flat_map (dated_facts (source_of start.now.source)) start.now.source.task.now.timed) }
{
    for dated in start.source.task.timed.as_slice() {
        names = with_atom(alloc, start, &[], names, &dated.atom)?;
    }
    Ok(names)
}

fn with_goal_facts(
    alloc: Global,
    start: &Start,
    mut names: List<Name>,
) -> Result<List<Name>, NoMemory>
    ensures { IfOk result (λ more. more ≡ names
        ++ flat_map (cond_facts (source_of start.now.source) []) start.now.source.task.now.goal) }
{
    for condition in start.source.task.goal.as_slice() {
        names = with_cond_facts(alloc, start, &[], names, condition)?;
    }
    Ok(names)
}

fn with_goal_fluents(
    alloc: Global,
    start: &Start,
    mut names: List<Name>,
) -> Result<List<Name>, NoMemory>
    ensures { IfOk result (λ more. more ≡ names
        ++ flat_map (cond_fluents (source_of start.now.source) true [])
        start.now.source.task.now.goal) }
{
    for condition in start.source.task.goal.as_slice() {
        names = with_cond_fluents(alloc, start, true, &[], names, condition)?;
    }
    Ok(names)
}

/// All atoms of the ground problem, by their names as they come.
#[tactic(auto, using(std::proofs::Common::append_assoc))]
pub fn fact_names(
    alloc: Global,
    start: &Start,
    all: &[List<List<u32>>],
) -> Result<List<Name>, NoMemory>
    requires { all.now
        ≡ map (kept (source_of start.now.source)) start.now.source.domain.now.actions }
    ensures { IfOk result (λ names. names ≡ fact_names_of (source_of start.now.source)) }
{
    let names = actions_facts(alloc, start, all)?;
    let names = with_timed_facts(alloc, start, names)?;
    let names = with_goal_facts(alloc, start, names)?;
    Ok(names)
}

/// All function terms that remain in the ground problem, by their names as they come.
pub fn fluent_names(
    alloc: Global,
    start: &Start,
    all: &[List<List<u32>>],
) -> Result<List<Name>, NoMemory>
    requires { all.now
        ≡ map (kept (source_of start.now.source)) start.now.source.domain.now.actions }
    ensures { IfOk result (λ names. names ≡ fluent_names_of (source_of start.now.source)) }
{
    let names = actions_fluents(alloc, start, all)?;
    let names = with_goal_fluents(alloc, start, names)?;
    Ok(names)
}
