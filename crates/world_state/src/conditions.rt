ghost use Rattle.std.specs.Prelude.{◌≡◌, ◌≤◌, length, slice_get, IfSome, IsTrue};
ghost use Rattle.std.specs.List.{list_all};
ghost use Rattle.std.specs.Option.{option_copied};
ghost use Rattle.tp_spec.specs.States.{holds as holds_in, of_both, compares};
ghost use Rattle.tp_spec.specs.Items.{own, is_defined, conditions};
ghost use Rattle.world_state.specs.Exact.{is_shallow, is_shallow_effect, IsExact};
ghost use Rattle.tp_spec.specs.Lists.{some_and};
ghost use Rattle.world_state.specs.Happenings.{action_effects};
ghost use Rattle.world_state.specs.View.{meaning};

use crate::expressions::value_in;
use crate::state::State;
use tp_spec::{Action, Cond, Effect, How, Item, Op, Problem};

/// Whether a condition holds: a literal by membership, a comparison where both sides are defined
/// and compare so.
///
/// PDDL 2.1, section 3.
pub fn holds(state: &State, cond: &Cond) -> bool
    requires { IsTrue (is_shallow cond.now) }
    ensures { result ≡ holds_in (meaning state.now) cond.now }
{
    match cond {
        Cond::Lit { fact, positive } => state.has(*fact) == *positive,
        Cond::Compare { op, left, right } => {
            compare(*op, value_in(state, left), value_in(state, right))
        }
    }
}

/// Whether all conditions hold.
pub fn all_hold(state: &State, conds: &[Cond]) -> bool
    requires { IsTrue (list_all is_shallow conds.now) }
    ensures { result ≡ list_all (holds_in (meaning state.now)) conds.now }
{
    for cond in conds {
        if !is_met(state, cond) {
            return false;
        }
    }
    true
}

/// Whether a condition holds. Most conditions are literals, which are judged here without a call.
fn is_met(state: &State, cond: &Cond) -> bool
    requires { IsTrue (is_shallow cond.now) }
    ensures { result ≡ holds_in (meaning state.now) cond.now }
{
    match cond {
        Cond::Lit { fact, positive } => state.has(*fact) == *positive,
        Cond::Compare { .. } => holds(state, cond),
    }
}

/// An item's own conditions: the written ones hold, each right side that it uses is defined, and
/// each fluent that it increases or decreases is.
///
/// PDDL 2.1, section 6 (applicability of a snap action).
pub fn can(problem: &Problem, state: &State, item: Item) -> bool
    ensures { result ≡ own problem.now (meaning state.now) item }
{
    all_hold(state, conditions_of(problem, item))
        && all_defined(state, effects_of_action(problem, item))
}

/// What is written before an item.
fn conditions_of(problem: &Problem, item: Item) -> &[Cond]
    ensures is { result.now ≡ conditions problem.now item }
    ensures shallow { IsTrue (list_all is_shallow result.now) }
{
    match item {
        Item::TimedAt(_) => &[],
        Item::End(action) => match action_at(problem, action) {
            Some(action) => action.end_conds.as_slice(),
            None => &[],
        },
        Item::Start(action) => match action_at(problem, action) {
            Some(action) => action.start_conds.as_slice(),
            None => &[],
        },
    }
}

/// What the end or the start of an action does; nothing of a timed item.
pub(crate) fn effects_of_action(problem: &Problem, item: Item) -> &[Effect]
    ensures is { result.now ≡ action_effects problem.now item }
    ensures shallow { IsTrue (list_all is_shallow_effect result.now) }
    ensures few { length result.now ≤ 4096 }
{
    match item {
        Item::TimedAt(_) => &[],
        Item::End(action) => match action_at(problem, action) {
            Some(action) => action.end_effects.as_slice(),
            None => &[],
        },
        Item::Start(action) => match action_at(problem, action) {
            Some(action) => action.start_effects.as_slice(),
            None => &[],
        },
    }
}

/// An action of a problem, none where there is no such.
fn action_at(problem: &Problem, action: u32) -> Option<&Action>
    ensures is { option_copied result ≡ slice_get problem.now.actions action }
    ensures exact { IfSome result (λ a. IsExact a.now) }
{
    problem.actions.as_slice().get(action as usize)
}

/// Whether the right sides of all effects are defined, and each fluent that they increase or
/// decrease.
fn all_defined(state: &State, effects: &[Effect]) -> bool
    requires { IsTrue (list_all is_shallow_effect effects.now) }
    ensures { result ≡ list_all (is_defined (meaning state.now)) effects.now }
{
    for effect in effects {
        if !has_values(state, effect) {
            return false;
        }
    }
    true
}

/// Whether the right side of an effect is defined, and the fluent that it increases or decreases.
fn has_values(state: &State, effect: &Effect) -> bool
    requires { IsTrue (is_shallow_effect effect.now) }
    ensures { result ≡ is_defined (meaning state.now) effect.now }
{
    match effect {
        Effect::Add(_) => true,
        Effect::Delete(_) => true,
        Effect::Change { how, fluent, value } => match how {
            How::Increase => state.fluent(*fluent).is_some() && value_in(state, value).is_some(),
            How::Decrease => state.fluent(*fluent).is_some() && value_in(state, value).is_some(),
            How::Assign => value_in(state, value).is_some(),
        },
    }
}

/// How two values compare. Where one of them is none they do not.
fn compare(op: Op, left: Option<i128>, right: Option<i128>) -> bool
    ensures { result ≡ some_and (of_both (compares op) left right) (λ b. b) }
{
    match left {
        Some(left) => match right {
            Some(right) => compare_numbers(op, left, right),
            None => false,
        },
        None => false,
    }
}

fn compare_numbers(op: Op, left: i128, right: i128) -> bool
    ensures { result ≡ compares op left right }
{
    match op {
        Op::Less => left < right,
        Op::LessEq => left <= right,
        Op::Equal => left == right,
        Op::MoreEq => left >= right,
        Op::More => left > right,
    }
}
