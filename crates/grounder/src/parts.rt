ghost use Rattle.std.specs.Prelude.{◌≡◌, ◌++◌, map, IfOk};
ghost use Rattle.std.specs.List.{flat_map};
ghost use Rattle.tp_spec.specs.declared.expr.Expr.TheVariants.{Sum, Difference};
ghost use Rattle.pddl_meaning.specs.declared.values.Value.TheOpen.{Value-F};
ghost use Rattle.grounder.specs.Sources.{source_of, atom_name as name_of_atom, call_name as name_of_call, named as name_by};
ghost use Rattle.grounder.specs.Starts.{given as given_at};
ghost use Rattle.grounder.specs.Kept.{kept};
ghost use Rattle.grounder.specs.Parts.{number_in as number_of, or_none, expr_at, expr_of as expr_by, certainty as certainty_of, cond_of as cond_by, effect_of as effect_by, cond_left, conds_of as conds_by, action_of as action_by, schema_actions};

use crate::conditions::{are_same, is_so, is_static};
use crate::durations::kind_of;
use crate::naming::stays;
use crate::search::kept_at;
use crate::sources::{atom_name, call_name, named};
use crate::start::Start;
use crate::tables::given;
use pddl_domain::Schema;
use pddl_meaning::{Atom, Change, Condition, Value};
use pddl_parts::{Names, in_32_bits};
use sqlite_items::Boxed;
use std::alloc::Global;
use tp_spec::{Action, Cond, Effect, Expr, List, Name, NoMemory, Op};

/// The facts and the fluents of a ground problem, numbered.
#[derive(Drop)]
pub struct Numbering {
    pub facts: Names,
    pub fluents: Names,
}

/// The number of a name; 0 where it is not there.
fn number_in(names: &Names, name: &str) -> Result<u32, NoMemory>
    ensures { IfOk result (λ number. number ≡ number_of names.now name.now) }
{
    match names.find(name.as_bytes()) {
        None => Ok(0),
        Some(place) => in_32_bits(place),
    }
}

/// The number of an atom's fact.
fn fact_of(
    alloc: Global,
    start: &Start,
    numbering: &Numbering,
    objects: &[u32],
    atom: &Atom,
) -> Result<u32, NoMemory>
    ensures { IfOk result (λ fact. fact ≡ number_of numbering.now.facts
        (name_of_atom (source_of start.now.source) objects.now atom.now)) }
{
    let name = atom_name(alloc, &start.source, objects, atom)?;
    let number = number_in(&numbering.facts, name.as_str())?;
    Ok(number)
}

/// The number of a function term's fluent.
fn fluent_of(
    alloc: Global,
    start: &Start,
    numbering: &Numbering,
    objects: &[u32],
    atom: &Atom,
) -> Result<u32, NoMemory>
    ensures { IfOk result (λ fluent. fluent ≡ number_of numbering.now.fluents
        (name_of_call (source_of start.now.source) objects.now atom.now)) }
{
    let name = call_name(alloc, &start.source, objects, atom)?;
    let number = number_in(&numbering.fluents, name.as_str())?;
    Ok(number)
}

/// The value of a function term at the start; 0 where it has none.
fn value_of(alloc: Global, start: &Start, objects: &[u32], atom: &Atom) -> Result<i64, NoMemory>
    ensures { IfOk result (λ value. value ≡ or_none (given_at (source_of start.now.source)
        (name_of_call (source_of start.now.source) objects.now atom.now))) }
{
    let name = call_name(alloc, &start.source, objects, atom)?;
    let value = given(start, name.as_str()).unwrap_or(0);
    Ok(value)
}

fn boxed(alloc: Global, expr: Expr) -> Result<Boxed<Expr>, NoMemory>
    ensures { IfOk result (λ b. b ≡ expr) }
{
    match Boxed::new(alloc, expr) {
        Ok(expr) => Ok(expr),
        Err(_) => Err(NoMemory),
    }
}

fn sum(alloc: Global, first: Expr, second: Expr) -> Result<Expr, NoMemory>
    ensures { IfOk result (λ e. e ≡ Sum first second) }
{
    let first = boxed(alloc, first)?;
    let second = boxed(alloc, second)?;
    Ok(Expr::Sum(first, second))
}

fn difference(alloc: Global, first: Expr, second: Expr) -> Result<Expr, NoMemory>
    ensures { IfOk result (λ e. e ≡ Difference first second) }
{
    let first = boxed(alloc, first)?;
    let second = boxed(alloc, second)?;
    Ok(Expr::Difference(first, second))
}

/// A function term as an expression: a fluent, or the value of a static one.
fn call_of(
    alloc: Global,
    start: &Start,
    numbering: &Numbering,
    in_goal: bool,
    objects: &[u32],
    atom: &Atom,
) -> Result<Expr, NoMemory>
    ensures { IfOk result (λ e. e ≡ expr_at (source_of start.now.source) numbering.now.fluents
        in_goal objects.now (Value-F.Call atom.now)) }
{
    if stays(start, in_goal, atom.head) {
        let fluent = fluent_of(alloc, start, numbering, objects, atom)?;
        Ok(Expr::Fluent(fluent))
    } else {
        let value = value_of(alloc, start, objects, atom)?;
        Ok(Expr::Number(value))
    }
}

/// An expression under a substitution.
fn expr_of(
    alloc: Global,
    start: &Start,
    numbering: &Numbering,
    in_goal: bool,
    objects: &[u32],
    value: &Value,
) -> Result<Expr, NoMemory>
    ensures { IfOk result (λ e. e ≡ expr_by (source_of start.now.source) numbering.now.fluents
        in_goal objects.now value.now) }
{
    match value {
        Value::Number(number) => Ok(Expr::Number(*number)),
        Value::Call(atom) => call_of(alloc, start, numbering, in_goal, objects, atom),
        Value::Sum(left, right) => {
            let left = expr_of(alloc, start, numbering, in_goal, objects, left.get())?;
            let right = expr_of(alloc, start, numbering, in_goal, objects, right.get())?;
            sum(alloc, left, right)
        }
        Value::Difference(left, right) => {
            let left = expr_of(alloc, start, numbering, in_goal, objects, left.get())?;
            let right = expr_of(alloc, start, numbering, in_goal, objects, right.get())?;
            difference(alloc, left, right)
        }
    }
}

/// What always holds, or what never does.
fn certainty(is: bool) -> Cond
    ensures { result ≡ certainty_of is }
{
    let op = if is { Op::Equal } else { Op::Less };
    Cond::Compare {
        op,
        left: Expr::Number(0),
        right: Expr::Number(0),
    }
}

/// A condition under a substitution.
pub fn cond_of(
    alloc: Global,
    start: &Start,
    numbering: &Numbering,
    in_goal: bool,
    objects: &[u32],
    condition: &Condition,
) -> Result<Cond, NoMemory>
    ensures { IfOk result (λ c. c ≡ cond_by (source_of start.now.source) numbering.now.facts
        numbering.now.fluents in_goal objects.now condition.now) }
{
    match condition {
        Condition::Lit { positive, atom } => {
            let fact = fact_of(alloc, start, numbering, objects, atom)?;
            Ok(Cond::Lit {
                fact,
                positive: *positive,
            })
        }
        Condition::Same {
            positive,
            left,
            right,
        } => Ok(certainty(is_so(*positive, are_same(objects, *left, *right)))),
        Condition::Compare { op, left, right } => {
            let left = expr_of(alloc, start, numbering, in_goal, objects, left)?;
            let right = expr_of(alloc, start, numbering, in_goal, objects, right)?;
            Ok(Cond::Compare {
                op: *op,
                left,
                right,
            })
        }
    }
}

/// An effect under a substitution.
fn effect_of(
    alloc: Global,
    start: &Start,
    numbering: &Numbering,
    objects: &[u32],
    change: &Change,
) -> Result<Effect, NoMemory>
    ensures { IfOk result (λ e. e ≡ effect_by (source_of start.now.source) numbering.now.facts
        numbering.now.fluents objects.now change.now) }
{
    match change {
        Change::Lit { positive, atom } => {
            let fact = fact_of(alloc, start, numbering, objects, atom)?;
            if *positive {
                Ok(Effect::Add(fact))
            } else {
                Ok(Effect::Delete(fact))
            }
        }
        Change::Update { how, target, value } => {
            let fluent = fluent_of(alloc, start, numbering, objects, target)?;
            let value = expr_of(alloc, start, numbering, false, objects, value)?;
            Ok(Effect::Change {
                how: *how,
                fluent,
                value,
            })
        }
    }
}

/// Puts a condition behind others, where it is not static.
fn with_cond(
    alloc: Global,
    start: &Start,
    numbering: &Numbering,
    objects: &[u32],
    mut conds: List<Cond>,
    condition: &Condition,
) -> Result<List<Cond>, NoMemory>
    ensures { IfOk result (λ more. more ≡ conds ++ cond_left (source_of start.now.source)
        numbering.now.facts numbering.now.fluents objects.now condition.now) }
{
    if is_static(start, condition) {
        return Ok(conds);
    }
    conds.push(cond_of(alloc, start, numbering, false, objects, condition)?)?;
    Ok(conds)
}

/// The conditions of an action that remain, in their order.
fn conds_of(
    alloc: Global,
    start: &Start,
    numbering: &Numbering,
    objects: &[u32],
    conditions: &[Condition],
) -> Result<List<Cond>, NoMemory>
    ensures { IfOk result (λ conds. conds ≡ conds_by (source_of start.now.source)
        numbering.now.facts numbering.now.fluents objects.now conditions.now) }
{
    let mut conds = List::new(alloc);
    for condition in conditions {
        conds = with_cond(alloc, start, numbering, objects, conds, condition)?;
    }
    Ok(conds)
}

/// The effects of a start or an end.
fn effects_of(
    alloc: Global,
    start: &Start,
    numbering: &Numbering,
    objects: &[u32],
    changes: &[Change],
) -> Result<List<Effect>, NoMemory>
    ensures { IfOk result (λ effects. effects ≡ map (effect_by (source_of start.now.source)
        numbering.now.facts numbering.now.fluents objects.now) changes.now) }
{
    let mut effects = List::new(alloc);
    for change in changes {
        effects.push(effect_of(alloc, start, numbering, objects, change)?)?;
    }
    Ok(effects)
}

/// The name of a ground action.
fn action_name(
    alloc: Global,
    start: &Start,
    schema: &Schema,
    objects: &[u32],
) -> Result<Name, NoMemory>
    ensures { IfOk result (λ name. name
        ≡ name_by (source_of start.now.source) schema.now.name objects.now) }
{
    let name = named(alloc, &start.source, schema.name.as_str(), objects)?;
    let name = Name::of(alloc, name.as_str())?;
    Ok(name)
}

/// The ground action of a substitution.
fn action_of(
    alloc: Global,
    start: &Start,
    numbering: &Numbering,
    schema: &Schema,
    objects: &[u32],
) -> Result<Action, NoMemory>
    ensures { IfOk result (λ action. action ≡ action_by (source_of start.now.source)
        numbering.now.facts numbering.now.fluents schema.now objects.now) }
{
    let name = action_name(alloc, start, schema, objects)?;
    let kind = kind_of(alloc, start, objects, &schema.bounds)?;
    let start_conds = conds_of(
        alloc,
        start,
        numbering,
        objects,
        schema.start_conds.as_slice(),
    )?;
    let all_conds = conds_of(
        alloc,
        start,
        numbering,
        objects,
        schema.all_conds.as_slice(),
    )?;
    let end_conds = conds_of(
        alloc,
        start,
        numbering,
        objects,
        schema.end_conds.as_slice(),
    )?;
    let first = schema.start_effects.as_slice();
    let start_effects = effects_of(alloc, start, numbering, objects, first)?;
    let last = schema.end_effects.as_slice();
    let end_effects = effects_of(alloc, start, numbering, objects, last)?;
    Ok(Action {
        name,
        kind,
        start_conds,
        all_conds,
        end_conds,
        start_effects,
        end_effects,
    })
}

/// Puts the ground actions of some substitutions behind others.
fn with_kept_actions(
    alloc: Global,
    start: &Start,
    numbering: &Numbering,
    schema: &Schema,
    mut actions: List<Action>,
    kept: &[List<u32>],
) -> Result<List<Action>, NoMemory>
    ensures { IfOk result (λ more. more ≡ actions ++ map (action_by (source_of start.now.source)
        numbering.now.facts numbering.now.fluents schema.now) kept.now) }
{
    for objects in kept {
        actions.push(action_of(alloc, start, numbering, schema, objects.as_slice())?)?;
    }
    Ok(actions)
}

/// All ground actions, in the order of the actions and then of their substitutions.
pub fn actions_of(
    alloc: Global,
    start: &Start,
    numbering: &Numbering,
    all: &[List<List<u32>>],
) -> Result<List<Action>, NoMemory>
    requires { all.now
        ≡ map (kept (source_of start.now.source)) start.now.source.domain.now.actions }
    ensures { IfOk result (λ actions. actions ≡ flat_map (schema_actions
        (source_of start.now.source) numbering.now.facts numbering.now.fluents)
        start.now.source.domain.now.actions) }
{
    let mut actions = List::new(alloc);
    for (number, schema) in start.source.domain.actions.as_slice().iter().enumerate() {
        let kept = kept_at(all, number);
        actions = with_kept_actions(alloc, start, numbering, schema, actions, kept)?;
    }
    Ok(actions)
}
