ghost use Rattle.std.specs.Prelude.{◌≡◌, ℕ, ◌+◌, ◌*◌, ◌<◌, ◌≤◌, ◌^◌, true, false, not, ◌||◌, ◌==◌, length, get_or, Some, None, IfOk, IfSome, MatchOption, IsTrue, if◌then◌else◌};
ghost use Rattle.std.specs.Option.{option_map};
ghost use Rattle.std.specs.List.{list_all, list_any};
ghost use Rattle.tp_spec.specs.Lists.{each_pair};
ghost use Rattle.tp_spec.specs.Items.{adds, after, change, changed, deletes, effects, effects_of, fits, has_after, next};
ghost use Rattle.world_state.specs.Rows.{is_in_row, width, Takes, Loses};
ghost use Rattle.world_state.specs.Exact.{is_shallow_effect, IsBounded, AreBounded};
ghost use Rattle.world_state.specs.Happenings.{is_item_of, same_item, changed_by, new_value, AreValuesAfter};
ghost use Rattle.world_state.specs.View.{meaning, IsStateOf};

use crate::conditions::effects_of_action;
use crate::expressions::{difference, sum, value_in, widened};
use crate::rows::BitRow;
use crate::state::State;
use std::alloc::Global;
use tp_spec::{Effect, How, Item, NoMemory, Problem};

/// The state after a set of items of one tick, none exactly where a new value leaves 64 bits. All
/// right sides are taken in the state before.
///
/// PDDL 2.1, section 6 (happenings). Items that do not interfere commute; of others the later in
/// the list is applied first.
pub fn apply(
    alloc: Global,
    problem: &Problem,
    state: &State,
    items: &[Item],
) -> Result<Option<State>, NoMemory>
    requires of_problem { IsStateOf problem.now state.now }
    requires inside { IsTrue (list_all (is_item_of problem.now) items.now) }
    requires different { IsTrue (each_pair (λ i j. not (same_item i j)) items.now) }
    ensures is { IfOk result (λ r. option_map meaning r
        ≡ after problem.now (meaning state.now) items.now) }
    ensures of_problem { IfOk result (λ r. IfSome r (λ s. IsStateOf problem.now s)) }
{
    problem.keeps_the_rules();
    match values_after(alloc, problem, state, items)? {
        None => Ok(None),
        Some(values) => {
            let facts = facts_after(alloc, problem, state, items)?;
            Ok(Some(State::of_parts(facts, values)))
        }
    }
}

/// The values of all fluents after the items, none where there is no state after them.
fn values_after(
    alloc: Global,
    problem: &Problem,
    state: &State,
    items: &[Item],
) -> Result<Option<Vec<Option<i64>>>, NoMemory>
    requires of_problem { IsStateOf problem.now state.now }
    requires inside { IsTrue (list_all (is_item_of problem.now) items.now) }
    requires different { IsTrue (each_pair (λ i j. not (same_item i j)) items.now) }
    ensures { IfOk result (λ r. MatchOption r
        (has_after problem.now (meaning state.now) items.now ≡ false)
        (λ v. AreValuesAfter problem.now (meaning state.now) items.now v.items)) }
{
    problem.keeps_the_rules();
    let wide = new_values(alloc, problem, state, items)?;
    narrowed(alloc, &wide)
}

/// The row of the facts that are true after the items.
fn facts_after(
    alloc: Global,
    problem: &Problem,
    state: &State,
    items: &[Item],
) -> Result<BitRow, NoMemory>
    requires { IsStateOf problem.now state.now }
    ensures wide { IfOk result (λ r. width r ≡ length state.now.words) }
    ensures has { IfOk result (λ r. (f : ℕ)
        → is_in_row r f ≡ (next (meaning state.now) (effects_of problem.now items.now)).fact f) }
{
    problem.keeps_the_rules();
    let mut facts = state.copied_facts(alloc)?;
    delete_facts(&mut facts, problem, items);
    add_facts(&mut facts, problem, items);
    Ok(facts)
}

/// The least fluent whose new value after a set of items leaves 64 bits, none exactly where there
/// is a state after.
pub fn first_overflow(
    alloc: Global,
    problem: &Problem,
    state: &State,
    items: &[Item],
) -> Result<Option<u32>, NoMemory>
    requires of_problem { IsStateOf problem.now state.now }
    requires inside { IsTrue (list_all (is_item_of problem.now) items.now) }
    requires different { IsTrue (each_pair (λ i j. not (same_item i j)) items.now) }
    ensures none { IfOk result (λ r. r ≡ None → (x : ℕ)
        → fits (changed (meaning state.now) x (effects_of problem.now items.now)) ≡ true) }
    ensures some { IfOk result (λ r. IfSome r
        (λ y. fits (changed (meaning state.now) y (effects_of problem.now items.now)) ≡ false)) }
    ensures first { IfOk result (λ r. IfSome r
        (λ y. (x : ℕ) → x < y
        → fits (changed (meaning state.now) x (effects_of problem.now items.now)) ≡ true)) }
{
    problem.keeps_the_rules();
    let wide = new_values(alloc, problem, state, items)?;
    Ok(first_wide(&wide))
}

/// The index of the first value that leaves 64 bits.
fn first_wide(values: &[Option<i128>]) -> Option<u32>
    requires { length values.now ≤ 256 }
    ensures none { result ≡ None → list_all fits values.now ≡ true }
    ensures some { IfSome result (λ y. fits (get_or values.now y None) ≡ false) }
    ensures first { IfSome result (λ y. (x : ℕ) → x < y → fits (get_or values.now x None) ≡ true) }
{
    for (index, value) in values.iter().enumerate() {
        if narrow(*value).is_none() {
            return Some(index as u32);
        }
    }
    None
}

/// The values of all fluents after the items, in 128 bits.
fn new_values(
    alloc: Global,
    problem: &Problem,
    state: &State,
    items: &[Item],
) -> Result<Vec<Option<i128>>, NoMemory>
    requires { length items.now ≤ 8448 }
    ensures kept { IsTrue (list_all fits state.now.values) }
    ensures len { IfOk result (λ v. length v.items ≡ length state.now.values) }
    ensures is { IfOk result (λ v. (x : ℕ) → x < length v.items
        → get_or v.items x None
        ≡ changed (meaning state.now) x (effects_of problem.now items.now)) }
{
    let mut wide = widened_values(alloc, state.values())?;
    change_by_items(&mut wide, problem, state, items);
    Ok(wide)
}

/// Values in 128 bits.
fn widened_values(alloc: Global, values: &[Option<i64>]) -> Result<Vec<Option<i128>>, NoMemory>
    ensures same { IfOk result (λ v. v.items ≡ values.now) }
    ensures bounded { IfOk result (λ v. AreBounded (2 ^ 63) v.items) }
{
    let mut wide = Vec::new(alloc);
    for value in values {
        match wide.push(widened(*value)) {
            Ok(()) => {}
            Err(_) => return Err(NoMemory),
        }
    }
    Ok(wide)
}

/// What the items make of the values, the last one first.
fn change_by_items(wide: &mut [Option<i128>], problem: &Problem, state: &State, items: &[Item])
    requires few { length items.now ≤ 8448 }
    requires bounded { AreBounded (2 ^ 63) wide.old }
    ensures len { length wide.new ≡ length wide.old }
    ensures is { (x : ℕ) → x < length wide.old
        → get_or wide.new x None
        ≡ changed_by (meaning state.now) x (effects_of problem.now items.now)
        (get_or wide.old x None) }
{
    for index in (0..items.len()).rev() {
        change_by_effects(wide, state, effects_of_action(problem, items[index]));
    }
}

/// What effects make of the values, the last one first.
fn change_by_effects(wide: &mut [Option<i128>], state: &State, effects: &[Effect])
    requires shallow { IsTrue (list_all is_shallow_effect effects.now) }
    requires few { length effects.now ≤ 4096 }
    requires bounded { AreBounded (2 ^ 125) wide.old }
    ensures len { length wide.new ≡ length wide.old }
    ensures is { (x : ℕ) → x < length wide.old
        → get_or wide.new x None
        ≡ changed_by (meaning state.now) x effects.now (get_or wide.old x None) }
    ensures bounded { (b : ℕ) → AreBounded b wide.old
        → AreBounded (b + length effects.now * 2 ^ 95) wide.new }
{
    for index in (0..effects.len()).rev() {
        change_by_effect(wide, state, &effects[index]);
    }
}

/// What an effect makes of the values.
fn change_by_effect(wide: &mut [Option<i128>], state: &State, effect: &Effect)
    requires shallow { IsTrue (is_shallow_effect effect.now) }
    requires bounded { AreBounded (2 ^ 126) wide.old }
    ensures len { length wide.new ≡ length wide.old }
    ensures is { (x : ℕ) → x < length wide.old
        → get_or wide.new x None
        ≡ change (meaning state.now) x effect.now (get_or wide.old x None) }
    ensures bounded { (b : ℕ) → AreBounded b wide.old → AreBounded (b + 2 ^ 95) wide.new }
{
    if let Effect::Change { how, fluent, value } = effect {
        let index = *fluent as usize;
        if index < wide.len() {
            wide[index] = updated(*how, wide[index], value_in(state, value));
        }
    }
}

/// A new value of a fluent.
fn updated(how: How, old: Option<i128>, operand: Option<i128>) -> Option<i128>
    requires old_fits { IsBounded (2 ^ 126) old }
    requires operand_fits { IsBounded (2 ^ 95) operand }
    ensures is { result ≡ new_value how old operand }
    ensures bounded { (b : ℕ) → IsBounded b old → IsBounded (b + 2 ^ 95) result }
{
    match how {
        How::Increase => sum(old, operand),
        How::Decrease => difference(old, operand),
        How::Assign => operand,
    }
}

/// The values in 64 bits, none where one of them leaves these.
fn narrowed(alloc: Global, wide: &[Option<i128>]) -> Result<Option<Vec<Option<i64>>>, NoMemory>
    ensures { IfOk result (λ r. MatchOption r (list_all fits wide.now ≡ false)
        (λ v. (v.items ≡ wide.now) × (list_all fits wide.now ≡ true))) }
{
    let mut values = Vec::new(alloc);
    for value in wide {
        let Some(value) = narrow(*value) else {
            return Ok(None);
        };
        match values.push(value) {
            Ok(()) => {}
            Err(_) => return Err(NoMemory),
        }
    }
    Ok(Some(values))
}

/// A value in 64 bits, none where it leaves these.
fn narrow(value: Option<i128>) -> Option<Option<i64>>
    ensures { result ≡ (if fits value then Some value else None) }
{
    match value {
        None => Some(None),
        Some(number) => match i64::try_from(number) {
            Ok(number) => Some(Some(number)),
            Err(_) => None,
        },
    }
}

/// Takes out of a row what the items delete.
fn delete_facts(facts: &mut BitRow, problem: &Problem, items: &[Item])
    ensures { Loses facts.old facts.new
        (λ f. list_any (λ i. list_any (deletes f) (effects problem.now i)) items.now) }
{
    for item in items {
        delete_by_item(facts, problem, *item);
    }
}

fn delete_by_item(facts: &mut BitRow, problem: &Problem, item: Item)
    ensures { Loses facts.old facts.new (λ f. list_any (deletes f) (effects problem.now item)) }
{
    match item {
        Item::TimedAt(number) => match problem.timed_item(number) {
            Some(timed) => facts.remove_each(timed.deletes.as_slice()),
            None => {}
        },
        Item::End(_) => delete_by_effects(facts, effects_of_action(problem, item)),
        Item::Start(_) => delete_by_effects(facts, effects_of_action(problem, item)),
    }
}

fn delete_by_effects(facts: &mut BitRow, effects: &[Effect])
    ensures { Loses facts.old facts.new (λ f. list_any (deletes f) effects.now) }
{
    for effect in effects {
        delete_by_effect(facts, effect);
    }
}

fn delete_by_effect(facts: &mut BitRow, effect: &Effect)
    ensures { Loses facts.old facts.new (λ f. deletes f effect.now) }
{
    match effect {
        Effect::Add(_) => {}
        Effect::Delete(fact) => facts.remove(*fact),
        Effect::Change { .. } => {}
    }
}

/// Puts into a row what the items add.
fn add_facts(facts: &mut BitRow, problem: &Problem, items: &[Item])
    ensures { Takes facts.old facts.new
        (λ f. list_any (λ i. list_any (adds f) (effects problem.now i)) items.now) }
{
    for item in items {
        add_by_item(facts, problem, *item);
    }
}

fn add_by_item(facts: &mut BitRow, problem: &Problem, item: Item)
    ensures { Takes facts.old facts.new (λ f. list_any (adds f) (effects problem.now item)) }
{
    match item {
        Item::TimedAt(number) => match problem.timed_item(number) {
            Some(timed) => facts.insert_each(timed.adds.as_slice()),
            None => {}
        },
        Item::End(_) => add_by_effects(facts, effects_of_action(problem, item)),
        Item::Start(_) => add_by_effects(facts, effects_of_action(problem, item)),
    }
}

fn add_by_effects(facts: &mut BitRow, effects: &[Effect])
    ensures { Takes facts.old facts.new (λ f. list_any (adds f) effects.now) }
{
    for effect in effects {
        add_by_effect(facts, effect);
    }
}

fn add_by_effect(facts: &mut BitRow, effect: &Effect)
    ensures { Takes facts.old facts.new (λ f. adds f effect.now) }
{
    match effect {
        Effect::Add(fact) => facts.insert(*fact),
        Effect::Delete(_) => {}
        Effect::Change { .. } => {}
    }
}
