ghost use Rattle.std.specs.Prelude.{◌≡◌, IfOk};
ghost use Rattle.std.specs.List.{flat_map};
ghost use Rattle.tp_spec.specs.WellFormed.{Ground};
ghost use Rattle.ground_text.specs.Reading.{counted_at, name_at, action_at, instant_at, durative_at, timed_at, parts_at, added as added_by, deleted as deleted_by};
ghost use Rattle.problem_rules.specs.Parts.{ground_of};

use crate::bytes::{first_is, index, name, number, skip};
use crate::reading::{conds, effects, indices, values};
use problem_rules::Parts;
use std::alloc::{AllocError, Global};
use tp_spec::{Action, Effect, Kind, List, Name, TimedItem};

/// What follows the name of an instant action.
#[tactic(auto, unfolding(crate::specs::Reading::instant_at))]
fn instant(alloc: Global, name: Name, bytes: &[u8]) -> Result<(Action, &[u8]), AllocError>
    ensures { IfOk result (λ x. (x.0, x.1.now) ≡ instant_at name bytes.now) }
{
    let (start_conds, rest) = conds(alloc, skip(bytes, 10))?;
    let (start_effects, rest) = effects(alloc, skip(rest, 3))?;
    let action = Action {
        name,
        kind: Kind::Instant,
        start_conds,
        all_conds: List::new(alloc),
        end_conds: List::new(alloc),
        start_effects,
        end_effects: List::new(alloc),
    };
    Ok((action, skip(rest, 1)))
}

/// What follows the name of a durative action.
#[tactic(auto, unfolding(crate::specs::Reading::durative_at))]
fn durative(alloc: Global, name: Name, bytes: &[u8]) -> Result<(Action, &[u8]), AllocError>
    ensures { IfOk result (λ x. (x.0, x.1.now) ≡ durative_at name bytes.now) }
{
    let (least, rest) = number(skip(bytes, 7));
    let (most, rest) = number(skip(rest, 1));
    let (start_conds, rest) = conds(alloc, skip(rest, 3))?;
    let (all_conds, rest) = conds(alloc, skip(rest, 3))?;
    let (end_conds, rest) = conds(alloc, skip(rest, 3))?;
    let (start_effects, rest) = effects(alloc, skip(rest, 3))?;
    let (end_effects, rest) = effects(alloc, skip(rest, 3))?;
    let action = Action {
        name,
        kind: Kind::Durative { least, most },
        start_conds,
        all_conds,
        end_conds,
        start_effects,
        end_effects,
    };
    Ok((action, skip(rest, 1)))
}

/// The block of an action.
#[tactic(auto, unfolding(crate::specs::Reading::action_at))]
fn action(alloc: Global, bytes: &[u8]) -> Result<(Action, &[u8]), AllocError>
    ensures { IfOk result (λ x. (x.0, x.1.now) ≡ action_at bytes.now) }
{
    let (name, rest) = name(alloc, skip(bytes, 4))?;
    if first_is(b'i', rest) {
        return instant(alloc, name, rest);
    }
    durative(alloc, name, rest)
}

/// The facts that effects add.
fn added(alloc: Global, effects: &[Effect]) -> Result<List<u32>, AllocError>
    ensures { IfOk result (λ xs. xs ≡ flat_map added_by effects.now) }
{
    let mut facts = Vec::new(alloc);
    for effect in effects {
        if let Effect::Add(fact) = effect {
            facts.push(*fact)?;
        }
    }
    Ok(List::of(facts))
}

/// The facts that effects delete.
fn deleted(alloc: Global, effects: &[Effect]) -> Result<List<u32>, AllocError>
    ensures { IfOk result (λ xs. xs ≡ flat_map deleted_by effects.now) }
{
    let mut facts = Vec::new(alloc);
    for effect in effects {
        if let Effect::Delete(fact) = effect {
            facts.push(*fact)?;
        }
    }
    Ok(List::of(facts))
}

/// The line of a timed item.
#[tactic(auto, unfolding(crate::specs::Reading::timed_at))]
fn timed(alloc: Global, bytes: &[u8]) -> Result<(TimedItem, &[u8]), AllocError>
    ensures { IfOk result (λ x. (x.0, x.1.now) ≡ timed_at bytes.now) }
{
    let (tick, rest) = number(skip(bytes, 3));
    let (literals, rest) = effects(alloc, rest)?;
    let adds = added(alloc, literals.as_slice())?;
    let deletes = deleted(alloc, literals.as_slice())?;
    let item = TimedItem {
        tick,
        adds,
        deletes,
    };
    Ok((item, skip(rest, 1)))
}

/// A count of names, and as many lines, read as at most so many.
#[tactic(auto, unfolding(crate::specs::Reading::counted_at))]
fn names(alloc: Global, most: u64, bytes: &[u8]) -> Result<(List<Name>, &[u8]), AllocError>
    ensures { IfOk result (λ x. (x.0, x.1.now) ≡ counted_at name_at most bytes.now) }
{
    let (count, rest) = number(bytes);
    let count = count.min(most);
    let mut items = Vec::new(alloc);
    let mut rest = skip(rest, 1);
    for _ in 0..count {
        let (item, after) = name(alloc, rest)?;
        items.push(item)?;
        rest = after;
    }
    Ok((List::of(items), rest))
}

/// A count of actions, and as many blocks, read as at most so many.
#[tactic(auto, unfolding(crate::specs::Reading::counted_at))]
fn actions(alloc: Global, most: u64, bytes: &[u8]) -> Result<(List<Action>, &[u8]), AllocError>
    ensures { IfOk result (λ x. (x.0, x.1.now) ≡ counted_at action_at most bytes.now) }
{
    let (count, rest) = number(bytes);
    let count = count.min(most);
    let mut items = Vec::new(alloc);
    let mut rest = skip(rest, 1);
    for _ in 0..count {
        let (item, after) = action(alloc, rest)?;
        items.push(item)?;
        rest = after;
    }
    Ok((List::of(items), rest))
}

/// A count of timed items, and as many lines, read as at most so many.
#[tactic(auto, unfolding(crate::specs::Reading::counted_at))]
fn timed_items(
    alloc: Global,
    most: u64,
    bytes: &[u8],
) -> Result<(List<TimedItem>, &[u8]), AllocError>
    ensures { IfOk result (λ x. (x.0, x.1.now) ≡ counted_at timed_at most bytes.now) }
{
    let (count, rest) = number(bytes);
    let count = count.min(most);
    let mut items = Vec::new(alloc);
    let mut rest = skip(rest, 1);
    for _ in 0..count {
        let (item, after) = timed(alloc, rest)?;
        items.push(item)?;
        rest = after;
    }
    Ok((List::of(items), rest))
}

/// The parts of the problem whose text this would be.
#[tactic(auto, unfolding(crate::specs::Reading::parts_at))]
pub fn read_parts(alloc: Global, bytes: &[u8]) -> Result<Parts, AllocError>
    ensures { IfOk result (λ p. ground_of p ≡ parts_at bytes.now) }
{
    let (scale, rest) = index(skip(bytes, 15));
    let (facts, rest) = names(alloc, 4096, skip(rest, 7))?;
    let (fluents, rest) = names(alloc, 256, skip(rest, 8))?;
    let (actions, rest) = actions(alloc, 4096, skip(rest, 8))?;
    let (timed, rest) = timed_items(alloc, 256, skip(rest, 6))?;
    let (init, rest) = indices(alloc, skip(rest, 4))?;
    let (values, rest) = values(alloc, skip(rest, 7))?;
    let (goal, _) = conds(alloc, skip(rest, 5))?;
    Ok(Parts {
        scale,
        facts,
        fluents,
        actions,
        timed,
        init,
        values,
        goal,
    })
}
