ghost use Rattle.std.specs.Prelude.{◌≡◌, Bool, not, length, bytes_eq, nat_le, nat_lt, ◌&&◌, ◌||◌, ◌==◌, ◌^◌};
ghost use Rattle.std.specs.List.{list_all, list_any};
ghost use Rattle.tp_spec.specs.Lists.{each_next, each_pair, is_empty as is_empty_of};
ghost use Rattle.tp_spec.specs.declared.expr.Expr.{fold-Expr};
ghost use Rattle.tp_spec.specs.WellFormed.{depth, is_i64, is_expr_at, is_expr as is_expr_of, is_cond as is_cond_of, is_effect as is_effect_of, is_relative as is_relative_of, overwrite as overwrite_of, are_effects as are_effects_of, is_kind as is_kind_of, is_action as is_action_of, is_timed as is_timed_of, is_value as is_value_of, is_name as is_name_of};

use crate::names::{all_below, is_name, numbers_rise};
use tp_spec::{Action, Cond, Effect, Expr, How, Kind, TimedItem};

/// The last tick that a length may reach.
const FAR: u64 = 1 << 40;

/// Whether a number has 64 bits with a sign: each `i64` has.
fn is_number(number: i64) -> bool
    ensures { result ≡ is_i64 (number) }
{
    i64::MIN <= number && number <= i64::MAX
}

/// Whether an expression is over the first fluents; its numbers have 64 bits by their type.
fn is_over(fluents: usize, expr: &Expr) -> bool
    ensures { result ≡ fold-Expr Bool (is_expr_at fluents) expr.now }
{
    match expr {
        Expr::Number(number) => is_number(*number),
        Expr::Fluent(fluent) => (*fluent as usize) < fluents,
        Expr::Sum(left, right) => is_over(fluents, left.get()) && is_over(fluents, right.get()),
        Expr::Difference(left, right) => is_over(fluents, left.get())
            && is_over(fluents, right.get()),
    }
}

/// Whether an expression is at most so many operations deep.
fn is_within(levels: u32, expr: &Expr) -> bool
    ensures { result ≡ nat_le (depth expr.now) levels }
{
    match expr {
        Expr::Number(_) => true,
        Expr::Fluent(_) => true,
        Expr::Sum(left, right) => 0 < levels
            && is_within(levels - 1, left.get())
            && is_within(levels - 1, right.get()),
        Expr::Difference(left, right) => 0 < levels
            && is_within(levels - 1, left.get())
            && is_within(levels - 1, right.get()),
    }
}

fn is_expr(fluents: usize, expr: &Expr) -> bool
    ensures { result ≡ is_expr_of fluents expr.now }
{
    is_over(fluents, expr) && is_within(32, expr)
}

fn is_cond(facts: usize, fluents: usize, cond: &Cond) -> bool
    ensures { result ≡ is_cond_of facts fluents cond.now }
{
    match cond {
        Cond::Lit { fact, .. } => (*fact as usize) < facts,
        Cond::Compare { left, right, .. } => is_expr(fluents, left) && is_expr(fluents, right),
    }
}

/// Whether each condition is over the first facts and fluents.
pub fn are_conds(facts: usize, fluents: usize, conds: &[Cond]) -> bool
    ensures { result ≡ list_all (is_cond_of facts fluents) conds.now }
{
    conds.iter().all(|cond| is_cond(facts, fluents, cond))
}

fn is_effect(facts: usize, fluents: usize, effect: &Effect) -> bool
    ensures { result ≡ is_effect_of facts fluents effect.now }
{
    match effect {
        Effect::Add(fact) => (*fact as usize) < facts,
        Effect::Delete(fact) => (*fact as usize) < facts,
        Effect::Change { fluent, value, .. } => (*fluent as usize) < fluents
            && is_expr(fluents, value),
    }
}

fn each_effect(facts: usize, fluents: usize, effects: &[Effect]) -> bool
    ensures { result ≡ list_all (is_effect_of facts fluents) effects.now }
{
    effects
        .iter()
        .all(|effect| is_effect(facts, fluents, effect))
}

fn is_relative(how: How) -> bool
    ensures { result ≡ is_relative_of how }
{
    match how {
        How::Increase => true,
        How::Decrease => true,
        How::Assign => false,
    }
}

/// Whether two effects change one fluent, and not both by increase or decrease.
fn overwrite(one: &Effect, other: &Effect) -> bool
    ensures { result ≡ overwrite_of one.now other.now }
{
    match one {
        Effect::Change { how, fluent, .. } => match other {
            Effect::Change {
                how: how_other,
                fluent: fluent_other,
                ..
            } => { *fluent == *fluent_other && !(is_relative(*how) && is_relative(*how_other)) }
            Effect::Add(_) => false,
            Effect::Delete(_) => false,
        },
        Effect::Add(_) => false,
        Effect::Delete(_) => false,
    }
}

fn none_overwrites(first: &Effect, others: &[Effect]) -> bool
    ensures { result ≡ list_all (λ b. not (overwrite_of first.now b)) others.now }
{
    others.iter().all(|other| !overwrite(first, other))
}

/// Whether no two effects overwrite one another.
fn are_apart(effects: &[Effect]) -> bool
    ensures { result ≡ each_pair (λ a b. not (overwrite_of a b)) effects.now }
{
    let mut rest = effects;
    'effects: loop {
        match rest {
            [first, tail @ ..] => {
                if !none_overwrites(first, tail) {
                    return false;
                }
                rest = tail;
            }
            [] => return true,
        }
    }
}

fn are_effects(facts: usize, fluents: usize, effects: &[Effect]) -> bool
    ensures { result ≡ are_effects_of facts fluents effects.now }
{
    effects.len() <= 4096 && each_effect(facts, fluents, effects) && are_apart(effects)
}

/// Whether there is no item.
pub fn is_empty<T>(items: &[T]) -> bool
    ensures { result ≡ is_empty_of items.now }
{
    match items {
        [] => true,
        [_, ..] => false,
    }
}

fn is_kind(action: &Action) -> bool
    ensures { result ≡ is_kind_of action.now.kind action.now }
{
    match action.kind {
        Kind::Instant => {
            is_empty(action.all_conds.as_slice())
                && is_empty(action.end_conds.as_slice())
                && is_empty(action.end_effects.as_slice())
        }
        Kind::Durative { least, most } => 1 <= least && least <= most && most <= FAR,
    }
}

fn is_action(facts: usize, fluents: usize, action: &Action) -> bool
    ensures { result ≡ is_action_of facts fluents action.now }
{
    is_name(action.name.as_str().as_bytes())
        && is_kind(action)
        && are_conds(facts, fluents, action.start_conds.as_slice())
        && are_conds(facts, fluents, action.all_conds.as_slice())
        && are_conds(facts, fluents, action.end_conds.as_slice())
        && are_effects(facts, fluents, action.start_effects.as_slice())
        && are_effects(facts, fluents, action.end_effects.as_slice())
}

/// Whether each action is well formed over the first facts and fluents.
pub fn each_action(facts: usize, fluents: usize, actions: &[Action]) -> bool
    ensures { result ≡ list_all (is_action_of facts fluents) actions.now }
{
    actions
        .iter()
        .all(|action| is_action(facts, fluents, action))
}

fn is_among(fact: u32, facts: &[u32]) -> bool
    ensures { result ≡ list_any (λ y. fact == y) facts.now }
{
    facts.iter().any(|other| fact == *other)
}

fn are_disjoint(adds: &[u32], deletes: &[u32]) -> bool
    ensures { result ≡ list_all (λ x. not (list_any (λ y. x == y) deletes.now)) adds.now }
{
    adds.iter().all(|fact| !is_among(*fact, deletes))
}

fn is_any(adds: &[u32], deletes: &[u32]) -> bool
    ensures { result ≡ not (is_empty_of adds.now && is_empty_of deletes.now) }
{
    !(is_empty(adds) && is_empty(deletes))
}

fn are_facts(facts: usize, adds: &[u32], deletes: &[u32]) -> bool
    ensures { result ≡ (list_all (λ x. nat_lt x facts) adds.now
        && list_all (λ x. nat_lt x facts) deletes.now) }
{
    all_below(adds, facts) && all_below(deletes, facts)
}

fn are_rising(adds: &[u32], deletes: &[u32]) -> bool
    ensures { result ≡ (each_next nat_lt adds.now && each_next nat_lt deletes.now) }
{
    numbers_rise(adds) && numbers_rise(deletes)
}

fn are_literals(facts: usize, adds: &[u32], deletes: &[u32]) -> bool
    ensures { result ≡ (not (is_empty_of adds.now && is_empty_of deletes.now)
        && (list_all (λ x. nat_lt x facts) adds.now && list_all (λ x. nat_lt x facts) deletes.now)
        && (each_next nat_lt adds.now && each_next nat_lt deletes.now)
        && list_all (λ x. not (list_any (λ y. x == y) deletes.now)) adds.now) }
{
    is_any(adds, deletes)
        && are_facts(facts, adds, deletes)
        && are_rising(adds, deletes)
        && are_disjoint(adds, deletes)
}

fn is_timed(facts: usize, item: &TimedItem) -> bool
    ensures { result ≡ is_timed_of facts item.now }
{
    are_literals(facts, item.adds.as_slice(), item.deletes.as_slice())
}

/// Whether each timed item is well formed over the first facts.
pub fn each_timed(facts: usize, items: &[TimedItem]) -> bool
    ensures { result ≡ list_all (is_timed_of facts) items.now }
{
    items.iter().all(|item| is_timed(facts, item))
}

/// Whether each tick has 64 bits: each `u64` has.
pub fn ticks_fit(items: &[TimedItem]) -> bool
    ensures { result ≡ list_all (λ t. nat_lt t.tick (2 ^ 64)) items.now }
{
    items.iter().all(|item| is_tick(item))
}

fn is_tick(item: &TimedItem) -> bool
    ensures { result ≡ nat_lt item.now.tick (2 ^ 64) }
{
    item.tick <= u64::MAX
}

/// Whether a value is none or has 64 bits with a sign.
fn is_value(value: Option<i64>) -> bool
    ensures { result ≡ is_value_of value }
{
    match value {
        None => true,
        Some(number) => is_number(number),
    }
}

/// Whether each value is none or has 64 bits with a sign.
pub fn values_fit(values: &[Option<i64>]) -> bool
    ensures { result ≡ list_all is_value_of values.now }
{
    values.iter().all(|value| is_value(*value))
}

/// Whether ticks rise strictly.
pub fn ticks_rise(items: &[TimedItem]) -> bool
    ensures { result ≡ each_next (λ s t. nat_lt s.tick t.tick) items.now }
{
    let mut rest = items;
    'pairs: loop {
        match rest {
            [first, tail @ ..] => match tail {
                [second, ..] => {
                    if !(first.tick < second.tick) {
                        return false;
                    }
                    rest = tail;
                }
                [] => return true,
            },
            [] => return true,
        }
    }
}
