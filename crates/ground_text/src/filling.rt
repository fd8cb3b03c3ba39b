ghost use Rattle.std.specs.Prelude.{◌≡◌, ◌+◌, ◌^◌, ◌<◌, ◌&&◌, ◌==◌, ◌≤◌, length, [], ◌∷◌, IfOk, OnOk};
ghost use Rattle.std.specs.List.{list_all};
ghost use Rattle.tp_spec.specs.Lists.{is_empty as is_empty_of};
ghost use Rattle.ground_text.specs.Completion.{bang_name as bang_name_of, bangs as bangs_of, first_free as first_free_of, marked as marked_of, with_name as with_name_of, name_or_bangs as name_or_bangs_of, kind_or_instant as kind_or_instant_of, filled_action as filled_action_of, filled_actions as filled_actions_of};
ghost use Rattle.ground_text.specs.Filling.{tick_of, IsFilledItem, AreFilledTimed};

use crate::bytes::name_of;
use problem_rules::is_empty;
use std::alloc::{AllocError, Global};
use tp_spec::{Action, Kind, List, Name, TimedItem};

/// A name of so many bytes `!`.
#[tactic(auto, using(crate::proofs::Filled::bang_more))]
fn bang_name(alloc: Global, len: usize) -> Result<Name, AllocError>
    ensures { IfOk result (λ n. n ≡ bang_name_of len) }
{
    let mut text = String::new(alloc);
    for _ in 0..len {
        text.push('!')?;
    }
    name_of(alloc, text.as_str())
}

/// Whether each byte is `!`.
fn are_bangs(name: &[u8]) -> bool
    ensures { result ≡ list_all (λ c. c == 33) name.now }
{
    name.iter().all(|byte| *byte == 33)
}

/// How many bytes a name of `!` alone has, and 0 for each other name.
fn bangs(name: &str) -> usize
    ensures { result ≡ bangs_of name.now }
{
    if are_bangs(name.as_bytes()) {
        name.len()
    } else {
        0
    }
}

/// The first place without a mark, or the one behind them all.
fn first_free(marks: &[bool]) -> usize
    ensures is { result ≡ first_free_of marks.now }
    ensures within { result ≤ length marks.now }
{
    marks.iter().take_while(|mark| **mark).count()
}

/// Puts as many places without a mark behind the others as it takes for this one to be there.
#[tactic(auto, using(crate::proofs::Marks::marked_push))]
fn reach(marks: &mut Vec<bool>, place: usize) -> Result<(), AllocError>
    ensures same { IfOk result (λ _. marked_of place marks.new.items
        ≡ marked_of place marks.old.items) }
    ensures room { OnOk result (place < length marks.new.items) }
{
    for _ in marks.len()..=place {
        marks.push(false)?;
    }
    Ok(())
}

/// Marks a place.
#[tactic(auto, using(crate::proofs::Marks::marked_set))]
fn mark(marks: &mut Vec<bool>, place: usize) -> Result<(), AllocError>
    ensures { IfOk result (λ _. marks.new.items ≡ marked_of place marks.old.items) }
{
    reach(marks, place)?;
    marks[place] = true;
    Ok(())
}

/// Marks the place of a name of `!` alone.
fn mark_name(marks: &mut Vec<bool>, name: &str) -> Result<(), AllocError>
    ensures { IfOk result (λ _. marks.new.items ≡ with_name_of name.now marks.old.items) }
{
    let count = bangs(name);
    if count == 0 {
        return Ok(());
    }
    mark(marks, count - 1)
}

/// A name of `!` alone whose place has no mark.
fn free_name(alloc: Global, marks: &[bool]) -> Result<Name, AllocError>
    ensures { IfOk result (λ n. n ≡ bang_name_of (first_free_of marks.now + 1)) }
{
    bang_name(alloc, first_free(marks) + 1)
}

/// The name of an action, or where it is missing one of `!` alone whose place has no mark.
fn name_or_bangs(alloc: Global, marks: &[bool], name: Name) -> Result<Name, AllocError>
    ensures { IfOk result (λ n. n ≡ name_or_bangs_of (first_free_of marks.now) name) }
{
    if !name.as_str().is_empty() {
        return Ok(name);
    }
    free_name(alloc, marks)
}

fn kind_or_instant(kind: Kind) -> Kind
    ensures { result ≡ kind_or_instant_of kind }
{
    match kind {
        Kind::Instant => Kind::Instant,
        Kind::Durative { least, most } => if most == 0 {
            Kind::Instant
        } else {
            Kind::Durative { least, most }
        }
    }
}

/// An action whose name and kind are filled in where they are missing.
fn filled_action(alloc: Global, marks: &[bool], action: Action) -> Result<Action, AllocError>
    ensures { IfOk result (λ a. a ≡ filled_action_of (first_free_of marks.now) action) }
{
    let Action {
        name,
        kind,
        start_conds,
        all_conds,
        end_conds,
        start_effects,
        end_effects,
    } = action;
    let name = name_or_bangs(alloc, marks, name)?;
    Ok(Action {
        name,
        kind: kind_or_instant(kind),
        start_conds,
        all_conds,
        end_conds,
        start_effects,
        end_effects,
    })
}

/// Actions with the missing ones filled in, each under a name of its own: of as few `!` as no
/// action before it has, so of no more than there are actions.
pub fn filled_actions(alloc: Global, actions: List<Action>) -> Result<List<Action>, AllocError>
    ensures { IfOk result (λ xs. xs ≡ filled_actions_of [] actions) }
{
    let mut items = Vec::new(alloc);
    let mut marks = Vec::new(alloc);
    for action in actions.into_vec() {
        let action = filled_action(alloc, marks.as_slice(), action)?;
        mark_name(&mut marks, action.name.as_str())?;
        items.push(action)?;
    }
    Ok(List::of(items))
}

fn is_missing(item: &TimedItem) -> bool
    ensures { result ≡ (is_empty_of item.now.adds && is_empty_of item.now.deletes) }
{
    is_empty(item.adds.as_slice()) && is_empty(item.deletes.as_slice())
}

/// The first fact added at a tick.
fn first_added(alloc: Global, tick: u64) -> Result<TimedItem, AllocError>
    ensures { IfOk result (λ t. t ≡ record { tick = tick; adds = 0 ∷ []; deletes = [] }) }
{
    let mut adds = Vec::new(alloc);
    adds.push(0)?;
    Ok(TimedItem {
        tick,
        adds: List::of(adds),
        deletes: List::new(alloc),
    })
}

/// A timed item, or where it is missing the first fact added at the tick that comes next; none
/// where that does not fit.
fn filled_item(
    alloc: Global,
    next: Option<u64>,
    item: TimedItem,
) -> Result<Option<TimedItem>, AllocError>
    ensures { IfOk result (λ o. IsFilledItem (tick_of next) item o) }
{
    if !is_missing(&item) {
        return Ok(Some(item));
    }
    match next {
        Some(tick) => Ok(Some(first_added(alloc, tick)?)),
        None => Ok(None),
    }
}

/// The tick behind that of an item; none where it does not fit in 64 bits.
fn next_tick(item: &TimedItem) -> Option<u64>
    ensures next { tick_of result ≡ item.now.tick + 1 }
    ensures fits { item.now.tick < 2 ^ 64 }
{
    let tick = item.tick;
    tick.checked_add(1)
}

/// Timed items with the missing ones filled in, or none where a tick would not fit in 64 bits.
pub fn filled_timed(
    alloc: Global,
    items: List<TimedItem>,
) -> Result<Option<List<TimedItem>>, AllocError>
    ensures { IfOk result (λ o. AreFilledTimed items o) }
{
    let mut filled = Vec::new(alloc);
    let mut next = Some(0);
    for item in items.into_vec() {
        match filled_item(alloc, next, item)? {
            Some(item) => {
                next = next_tick(&item);
                filled.push(item)?;
            }
            None => return Ok(None),
        }
    }
    Ok(Some(List::of(filled)))
}
