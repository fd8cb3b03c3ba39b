ghost use Rattle.std.specs.Prelude.{◌≡◌, ◌≤◌, ◌||◌, ◌&&◌, ◌==◌, not, count_by, length, IfOk, IfSome, IsTrue};
ghost use Rattle.std.specs.List.{list_all, list_any};
ghost use Rattle.tp_spec.specs.Items.{adds as adds_fact, deletes as deletes_fact, effects as effects_of};
ghost use Rattle.world_state.specs.Exact.{is_shallow};
ghost use Rattle.world_state.specs.Happenings.{action_effects};
ghost use Rattle.world_state.specs.Rows.{Loses};
ghost use Rattle.world_state.specs.View.{meaning};
ghost use Rattle.node_state.specs.Founds.{unmet_with};
ghost use Rattle.node_state.specs.Readings.{progress_of};
ghost use Rattle.node_state.specs.Ranks.{speaks_of, writes_in, IsFree, is_of_fact, writes_facts, adds_it, deletes_it, fact_by as true_by, holds_by as met_by};

use crate::reading::Reading;
use std::alloc::Global;
use tp_spec::{Cond, Effect, Item, NoMemory, Problem};
use world_state::{BitRow, State, holds};

/// The row of the facts of which no goal part speaks.
pub(crate) fn free_facts(alloc: Global, problem: &Problem) -> Result<BitRow, NoMemory>
    ensures { IfOk result (λ r. IsFree problem.now r) }
{
    problem.keeps_the_rules();
    let mut row = all_facts(alloc, problem.facts.as_slice().len())?;
    drop_spoken(&mut row, problem.goal.as_slice());
    Ok(row)
}

/// The row of all numbers below `count`.
fn all_facts(alloc: Global, count: usize) -> Result<BitRow, NoMemory>
    requires { count ≤ 4294967296 }
{
    let mut row = BitRow::empty(alloc, count)?;
    for fact in 0..count {
        row.insert(fact as u32);
    }
    Ok(row)
}

/// Takes out of a row the facts of which some conditions speak.
fn drop_spoken(row: &mut BitRow, conds: &[Cond])
    ensures { Loses row.old row.new (λ f. list_any (speaks_of f) conds.now) }
{
    for cond in conds {
        drop_fact(row, cond);
    }
}

fn drop_fact(row: &mut BitRow, cond: &Cond)
    ensures { Loses row.old row.new (λ f. speaks_of f cond.now) }
{
    match cond {
        Cond::Lit { fact, .. } => row.remove(*fact),
        Cond::Compare { .. } => {}
    }
}

/// Whether all that effects write are facts of a row.
pub(crate) fn all_write_in(row: &BitRow, effects: &[Effect]) -> bool
    ensures { result ≡ list_all (writes_in row.now) effects.now }
{
    effects.iter().all(|effect| is_write_in(row, effect))
}

fn is_write_in(row: &BitRow, effect: &Effect) -> bool
    ensures { result ≡ writes_in row.now effect.now }
{
    match effect {
        Effect::Add(fact) => row.has(*fact),
        Effect::Delete(fact) => row.has(*fact),
        Effect::Change { .. } => false,
    }
}

/// How many goal parts do not hold after a word's last group with an item more, none where one of
/// its items changes a fluent or this one is a timed item.
pub(crate) fn unmet_by_effects(problem: &Problem, reading: &Reading, item: Item) -> Option<u32>
    ensures { IfSome result (λ n. n ≡ unmet_with problem.now (progress_of reading.now) item) }
{
    match item {
        Item::TimedAt(_) => None,
        Item::End(_) => unmet_by(problem, reading, item, effects_of_action(problem, item)),
        Item::Start(_) => unmet_by(problem, reading, item, effects_of_action(problem, item)),
    }
}

/// The same by an item's effects.
fn unmet_by(problem: &Problem, reading: &Reading, item: Item, effects: &[Effect]) -> Option<u32>
    requires { effects.now ≡ effects_of problem.now item }
    ensures { IfSome result (λ n. n ≡ unmet_with problem.now (progress_of reading.now) item) }
{
    if write_facts(problem, &reading.group, effects) {
        return Some(unmet_after(problem, &reading.before, &reading.group, effects));
    }
    None
}

/// How many goal parts do not hold after a group and some effects more, where none of them changes
/// a fluent.
fn unmet_after(problem: &Problem, before: &State, group: &[Item], effects: &[Effect]) -> u32
    ensures { result ≡ count_by
        (λ g. not (met_by problem.now (meaning before.now) group.now effects.now g))
        problem.now.goal }
{
    problem.keeps_the_rules();
    count_after(problem, before, group, effects, problem.goal.as_slice())
}

/// How many of some conditions do not hold after a group and some effects more.
fn count_after(
    problem: &Problem,
    before: &State,
    group: &[Item],
    effects: &[Effect],
    conds: &[Cond],
) -> u32
    requires shallow { IsTrue (list_all is_shallow conds.now) }
    requires few { length conds.now ≤ 2147483648 }
    ensures { result ≡ count_by
        (λ g. not (met_by problem.now (meaning before.now) group.now effects.now g)) conds.now }
{
    let mut count = 0;
    for cond in conds {
        if !holds_after(problem, before, group, effects, cond) {
            count += 1;
        }
    }
    count
}

/// Whether a condition holds after a group and some effects more, where none of them changes a
/// fluent.
fn holds_after(
    problem: &Problem,
    before: &State,
    group: &[Item],
    effects: &[Effect],
    cond: &Cond,
) -> bool
    requires { IsTrue (is_shallow cond.now) }
    ensures { result ≡ met_by problem.now (meaning before.now) group.now effects.now cond.now }
{
    match cond {
        Cond::Lit { fact, positive } => {
            is_true_after(problem, before, group, effects, *fact) == *positive
        }
        Cond::Compare { .. } => holds(before, cond),
    }
}

/// Whether a fact is true after a group and some effects more: what is added wins.
fn is_true_after(
    problem: &Problem,
    before: &State,
    group: &[Item],
    effects: &[Effect],
    fact: u32,
) -> bool
    ensures { result ≡ true_by problem.now (meaning before.now) group.now effects.now fact }
{
    let kept = before.has(fact)
        && !(group_deletes(problem, group, fact) || any_deletes(effects, fact));
    kept || (group_adds(problem, group, fact) || any_adds(effects, fact))
}

fn group_adds(problem: &Problem, group: &[Item], fact: u32) -> bool
    ensures { result ≡ list_any (adds_it problem.now fact) group.now }
{
    group.iter().any(|item| adds(problem, *item, fact))
}

fn group_deletes(problem: &Problem, group: &[Item], fact: u32) -> bool
    ensures { result ≡ list_any (deletes_it problem.now fact) group.now }
{
    group.iter().any(|item| deletes(problem, *item, fact))
}

/// Whether none of a group and some effects more changes a fluent.
fn write_facts(problem: &Problem, group: &[Item], effects: &[Effect]) -> bool
    ensures { result ≡ (list_all (writes_facts problem.now) group.now
        && list_all is_of_fact effects.now) }
{
    group_writes_facts(problem, group) && are_of_facts(effects)
}

fn group_writes_facts(problem: &Problem, group: &[Item]) -> bool
    ensures { result ≡ list_all (writes_facts problem.now) group.now }
{
    group.iter().all(|item| changes_none(problem, *item))
}

/// Whether an item changes no fluent.
fn changes_none(problem: &Problem, item: Item) -> bool
    ensures { result ≡ writes_facts problem.now item }
{
    match item {
        Item::TimedAt(_) => true,
        Item::End(_) => are_of_facts(effects_of_action(problem, item)),
        Item::Start(_) => are_of_facts(effects_of_action(problem, item)),
    }
}

pub(crate) fn are_of_facts(effects: &[Effect]) -> bool
    ensures { result ≡ list_all is_of_fact effects.now }
{
    effects.iter().all(|effect| is_fact_effect(effect))
}

fn is_fact_effect(effect: &Effect) -> bool
    ensures { result ≡ is_of_fact effect.now }
{
    match effect {
        Effect::Add(_) => true,
        Effect::Delete(_) => true,
        Effect::Change { .. } => false,
    }
}

/// Whether an item adds a fact.
fn adds(problem: &Problem, item: Item, fact: u32) -> bool
    ensures { result ≡ adds_it problem.now fact item }
{
    match item {
        Item::TimedAt(number) => match problem.timed_item(number) {
            Some(timed) => is_among(timed.adds.as_slice(), fact),
            None => false,
        },
        Item::End(_) => any_adds(effects_of_action(problem, item), fact),
        Item::Start(_) => any_adds(effects_of_action(problem, item), fact),
    }
}

/// Whether an item deletes a fact.
fn deletes(problem: &Problem, item: Item, fact: u32) -> bool
    ensures { result ≡ deletes_it problem.now fact item }
{
    match item {
        Item::TimedAt(number) => match problem.timed_item(number) {
            Some(timed) => is_among(timed.deletes.as_slice(), fact),
            None => false,
        },
        Item::End(_) => any_deletes(effects_of_action(problem, item), fact),
        Item::Start(_) => any_deletes(effects_of_action(problem, item), fact),
    }
}

fn is_among(facts: &[u32], fact: u32) -> bool
    ensures { result ≡ list_any (λ g. fact == g) facts.now }
{
    facts.iter().any(|other| fact == *other)
}

fn any_adds(effects: &[Effect], fact: u32) -> bool
    ensures { result ≡ list_any (adds_fact fact) effects.now }
{
    effects.iter().any(|effect| is_add(effect, fact))
}

fn any_deletes(effects: &[Effect], fact: u32) -> bool
    ensures { result ≡ list_any (deletes_fact fact) effects.now }
{
    effects.iter().any(|effect| is_delete(effect, fact))
}

fn is_add(effect: &Effect, fact: u32) -> bool
    ensures { result ≡ adds_fact fact effect.now }
{
    match effect {
        Effect::Add(other) => fact == *other,
        Effect::Delete(_) => false,
        Effect::Change { .. } => false,
    }
}

fn is_delete(effect: &Effect, fact: u32) -> bool
    ensures { result ≡ deletes_fact fact effect.now }
{
    match effect {
        Effect::Add(_) => false,
        Effect::Delete(other) => fact == *other,
        Effect::Change { .. } => false,
    }
}

/// What the end or the start of an action does; nothing of a timed item.
pub(crate) fn effects_of_action(problem: &Problem, item: Item) -> &[Effect]
    ensures { result.now ≡ action_effects problem.now item }
{
    match item {
        Item::TimedAt(_) => &[],
        Item::End(action) => match problem.actions.as_slice().get(action as usize) {
            Some(action) => action.end_effects.as_slice(),
            None => &[],
        },
        Item::Start(action) => match problem.actions.as_slice().get(action as usize) {
            Some(action) => action.start_effects.as_slice(),
            None => &[],
        },
    }
}
