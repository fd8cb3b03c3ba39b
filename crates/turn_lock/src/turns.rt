//! How a lock is opened, and how a seat has its turn.
ghost use Rattle.std.specs.Prelude.{◌≡◌, ◌<◌, ◌≤◌, ◌^◌, [], ◌∷◌, length, IfOk, IfErr};
ghost use mathlib.Core.List.{IsPrefix};
ghost use Rattle.turn_lock.specs.Turns.{with_turn};
ghost use Rattle.turn_lock.specs.Lock.{IsSeatOf, IsHeldOf, opened, all_parts, parts_of, parts_held, seen, made, entered, made_before};

use crate::plays::Count;
use crate::rule::Opening;
use crate::steps::{ENTRIES, SLOT, draw, end, wait};
use crate::story::Story;
use crate::turn::{Held, Seat, Turn};
use atomic_table::{Refused, Table};
use std::alloc::{AllocFailed, Global};
use std::snapshot::Snapshot;
use std::sync::Wait;
use tp_spec::NoMemory;

// A vector with the one value.
fn alone<V>(alloc: Global, value: V) -> Result<Vec<Option<V>>, V>
    ensures ok { IfOk result (λ v. v.items ≡ Some value ∷ []) }
    ensures err { IfErr result (λ v. v ≡ value) }
{
    let mut slots = Vec::new(alloc);
    match slots.push(Some(value)) {
        Ok(()) => Ok(slots),
        Err(AllocFailed { value }) => {
            slots.destroy_empty();
            match value {
                Some(value) => Err(value),
                None => unreachable!(),
            }
        }
    }
}

// The one value of the vector.
fn only<V>(mut slots: Vec<Option<V>>) -> V
    requires { (v : V) × (slots.items ≡ Some v ∷ []) }
    ensures { slots.items ≡ Some result ∷ [] }
{
    let Some(Some(value)) = slots.pop() else {
        unreachable!()
    };
    slots.destroy_empty();
    value
}

impl<V: Story> Turn<V> {
    /// A lock over the value, and the seat that holds all its parts and has seen the value's
    /// entries. At `Err` memory was refused, and the value comes back.
    pub fn new(alloc: Global, value: V, parts: u32) -> Result<(Turn<V>, Seat<V>), (NoMemory, V)>
        requires parts { 1 ≤ parts }
        requires few { length (V.entries value) < 2 ^ 64 }
        ensures lock { IfOk result (λ r. IsSeatOf r.0 r.1 × (opened r.0 ≡ value)
            × (all_parts r.0 ≡ parts)) }
        ensures seat { IfOk result (λ r. (parts_of r.1 ≡ parts) × (seen r.1 ≡ V.entries value)
            × (made r.1 ≡ [] ∷ [])) }
        ensures err { IfErr result (λ e. e.1 ≡ value) }
    {
        let count = value.count();
        let about = Opening {
            value: Snapshot::of(&value),
            parts,
        };
        let slots = match alone(alloc, value) {
            Ok(slots) => slots,
            Err(value) => return Err((NoMemory, value)),
        };
        match Table::new(alloc, &[count, 0, 0], slots, &about) {
            Ok((table, place)) => Ok((Turn { table }, Seat { parts, place })),
            Err(Refused { slots }) => Err((NoMemory, only(slots))),
        }
    }

    /// Waits for the turns of those that came before, and takes the value.
    pub fn enter<R: Wait>(&self, rt: &R, seat: Seat<V>) -> Held<V>
        requires { IsSeatOf self.now seat }
        ensures held { IsHeldOf V.entries V.same_charter self.now result }
        ensures entered { entered result ≡ result.value }
        ensures longer { IsPrefix (seen seat) (V.entries result.value) }
        ensures charter { V.same_charter (opened self.now) result.value }
        ensures made { made_before result ≡ made seat }
        ensures parts { parts_held result ≡ parts_of seat }
    {
        let (parts, mut place) = seat.take_apart();
        let table = &self.table.shared;
        let ticket = draw(table, &mut place);
        wait(rt, table, &mut place, ticket);
        let count = table.load::<Count>(&mut place, ENTRIES);
        let Some(value) = table.exchange(&mut place, SLOT, None) else {
            unreachable!()
        };
        Held {
            entered: Snapshot::of(&value),
            value,
            count,
            parts,
            place,
        }
    }

    /// Ends the turn: the value goes back, and the seat has seen its entries and made the new ones.
    pub fn leave(&self, held: Held<V>) -> Seat<V>
        requires held { IsHeldOf V.entries V.same_charter self.now held }
        requires longer { IsPrefix (V.entries (entered held)) (V.entries held.value) }
        requires few { length (V.entries held.value) < 2 ^ 64 }
        requires charter { V.same_charter (entered held) held.value }
        ensures seat { IsSeatOf self.now result }
        ensures seen { seen result ≡ V.entries held.value }
        ensures made { made result
            ≡ with_turn (made_before held) (length (V.entries (entered held)))
            (length (V.entries held.value)) }
        ensures parts { parts_of result ≡ parts_held held }
    {
        let Held {
            value,
            entered: _,
            count,
            parts,
            mut place,
        } = held;
        let added = value.count() - count;
        end(&self.table.shared, &mut place, value, added);
        Seat { parts, place }
    }
}
