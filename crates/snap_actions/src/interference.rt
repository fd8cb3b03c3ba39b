ghost use Rattle.std.specs.Prelude.{◌≡◌, ◌||◌};
ghost use Rattle.tp_spec.specs.Interference.{interfere as interferes};
ghost use Rattle.tp_spec.specs.declared.problem.Problem.{Problem as Ground};
ghost use Rattle.snap_actions.specs.Tables.{meets, touch_facts, touch_fluents, AreTables};

use crate::tables::{ItemRows, Items};
use tp_spec::Item;
use world_state::BitRow;

/// Whether two items interfere, in either direction: the one asks a fact that the other adds or
/// deletes, adds what the other deletes, or writes a fluent that the other reads, or both write one
/// fluent and not both by increase or decrease. It takes the time of the items' rows. An item that
/// the problem does not have interferes with none.
///
/// PDDL 2.1, section 6 ('no moving targets'); the part on fluents is this project's own.
pub fn interfere(items: &Items, a: Item, b: Item) -> bool
    ensures { (p : Ground) → AreTables p items.now → result ≡ interferes p a b }
{
    match items.rows(a) {
        None => false,
        Some(first) => match items.rows(b) {
            None => false,
            Some(second) => touches(first, second) || touches(second, first),
        },
    }
}

/// Whether an item's effects disturb another one's conditions or collide with its effects.
fn touches(a: &ItemRows, b: &ItemRows) -> bool
    ensures { result ≡ (touch_facts a.now b.now || touch_fluents a.now b.now) }
{
    touches_facts(a, b) || touches_fluents(a, b)
}

fn touches_facts(a: &ItemRows, b: &ItemRows) -> bool
    ensures { result ≡ touch_facts a.now b.now }
{
    meet(&a.added, &b.asked)
        || meet(&a.deleted, &b.asked)
        || meet(&a.added, &b.deleted)
        || meet(&a.deleted, &b.added)
}

fn touches_fluents(a: &ItemRows, b: &ItemRows) -> bool
    ensures { result ≡ touch_fluents a.now b.now }
{
    meet(&a.stepped, &b.read)
        || meet(&a.assigned, &b.read)
        || meet(&a.stepped, &b.assigned)
        || meet(&a.assigned, &b.stepped)
        || meet(&a.assigned, &b.assigned)
}

/// Whether two rows have a number in common.
fn meet(a: &BitRow, b: &BitRow) -> bool
    ensures { result ≡ meets a.now b.now }
{
    a.meets(b)
}
