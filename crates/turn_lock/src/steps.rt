//! The steps of a turn, on a seat's place at the table.
ghost use Rattle.std.specs.Prelude.{◌≡◌, ◌+◌, ◌<◌, ◌^◌, [], ◌∷◌, length, Some, None};
ghost use mathlib.Core.List.{IsPrefix};
ghost use Rattle.turn_lock.specs.declared.rule.Stage.TheVariants.{Idle};
ghost use Rattle.turn_lock.specs.Told.{Draws, IsWaiting, IsServing, Taken, at_stage, turned};

use crate::plays::{Add, Count, Draw, End, Look};
use crate::rule::{Place, Shared};
use crate::story::Story;
use std::sync::Wait;
use std::{hint, thread};

// Words of the table.
pub(crate) const ENTRIES: usize = 0;

pub(crate) const NEXT: usize = 1;

pub(crate) const SERVED: usize = 2;

// How often the next in line looks before it leaves the processor to others.
const LOOKS: u32 = 100;

// The slot of the value.
pub(crate) const SLOT: usize = 0;

// Draws the next ticket.
pub(crate) fn draw<V: Story>(table: &Shared<V>, place: &mut Place<V>) -> u64
    requires lock { (place.old.table_id ≡ table.now.table_id) × (table.now.table_id.words ≡ 3) }
    requires idle { place.old.me.0.stage ≡ Idle }
    requires parts { 0 < place.old.me.0.parts }
    ensures same { (place.new.table_id ≡ place.old.table_id) × (place.new.id ≡ place.old.id) }
    ensures draws { Draws place.old.me result place.new.me }
{
    table.fetch_add::<Draw>(place, NEXT, 1)
}

// The next in line looks a few times more. Then it leaves the processor to others, as all those
// behind it do at once.
fn pause<V: Story>(table: &Shared<V>, ticket: u64, served: u64)
    requires { table.now.table_id.words ≡ 3 }
{
    if ticket.wrapping_sub(served) == 1 {
        for _ in 0..LOOKS {
            if table.peek(SERVED) == ticket {
                return;
            }
            hint::spin_loop();
        }
    }
    thread::yield_now();
}

// Waits until the ticket is served, and takes the slot out.
pub(crate) fn wait<V: Story, R: Wait>(rt: &R, table: &Shared<V>, place: &mut Place<V>, ticket: u64)
    requires lock { (place.old.table_id ≡ table.now.table_id) × (table.now.table_id.words ≡ 3) }
    requires waits { IsWaiting ticket place.old.me.0.stage }
    ensures same { (place.new.table_id ≡ place.old.table_id) × (place.new.id ≡ place.old.id) }
    ensures taken { Taken V.entries V.same_charter place.old.me place.new.me }
{
    for _ in rt.forever() {
        let served = table.load::<Look>(place, SERVED);
        if served == ticket {
            return;
        }
        pause(table, ticket, served);
    }
    unreachable!()
}

// Puts the value back with the entries that were added, and lets the next ticket be served.
pub(crate) fn end<V: Story>(table: &Shared<V>, place: &mut Place<V>, value: V, added: u64)
    requires lock { (place.old.table_id ≡ table.now.table_id) × (table.now.table_id.words ≡ 3) }
    requires serving { IsServing place.old.me.0.stage }
    requires slot { place.old.me.1 ≡ (0, None) ∷ [] }
    requires longer { IsPrefix place.old.me.0.seen (V.entries value) }
    requires added { length (V.entries value) ≡ length place.old.me.0.seen + added }
    requires few { length (V.entries value) < 2 ^ 64 }
    requires charter { (o : V) × (place.old.me.0.opened ≡ Some o) × V.same_charter o value }
    ensures same { (place.new.table_id ≡ place.old.table_id) × (place.new.id ≡ place.old.id) }
    ensures ends { place.new.me ≡ (at_stage (turned place.old.me.0 (V.entries value)) Idle, []) }
{
    match table.exchange(place, SLOT, Some(value)) {
        None => {}
        Some(_) => unreachable!(),
    }
    table.fetch_add::<Add>(place, ENTRIES, added);
    table.fetch_add::<End>(place, SERVED, 1);
}
