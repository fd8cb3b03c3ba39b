//! How seats are split and joined, and how a lock is closed.
ghost use Rattle.std.specs.Prelude.{◌≡◌, ◌+◌, ◌-◌, ◌<◌, ◌≤◌, [], ◌∷◌, ◌++◌, length};
ghost use mathlib.Core.List.{IsPrefix};
ghost use Rattle.turn_lock.specs.declared.rule.Stage.TheVariants.{Idle};
ghost use Rattle.turn_lock.specs.Turns.{Covers};
ghost use Rattle.turn_lock.specs.Told.{given, less, longer};
ghost use Rattle.turn_lock.specs.Lock.{IsSeatOf, opened, all_parts, parts_of, seen, made};

use crate::plays::{Agree, Amount, Cut, Glue};
use crate::rule::{Place, Shared};
use crate::steps::{ENTRIES, SLOT};
use crate::story::Story;
use crate::turn::{Seat, Turn};
use std::marker::Brand;

// Gives some parts of a seat to a new one.
fn cut<V: Story, A: Amount>(table: &Shared<V>, place: &mut Place<V>, parts: u32) -> Place<V>
    requires lock { (place.old.table_id ≡ table.now.table_id) × (table.now.table_id.words ≡ 3) }
    requires idle { place.old.me.0.stage ≡ Idle }
    requires parts { (0 < parts) × (parts < place.old.me.0.parts) × (parts ≡ A.amount) }
    ensures left { (place.new.table_id ≡ place.old.table_id)
        × (place.new.me ≡ (less parts place.old.me.0, place.old.me.1)) }
    ensures right { (result.table_id ≡ place.old.table_id)
        × (result.me ≡ (given parts place.old.me.0, [])) }
{
    table.split_seat::<Cut<A>>(place)
}

impl<V: Story> Seat<V> {
    /// Its parts of the right to close the lock.
    pub fn parts(&self) -> u32
        ensures { result ≡ parts_of self.now }
    {
        self.parts
    }
}

impl<V: Story> Turn<V> {
    /// Two seats from one: the second has `parts` of its parts, has seen as much and has made
    /// nothing yet.
    pub fn split(&self, seat: Seat<V>, parts: u32) -> (Seat<V>, Seat<V>)
        requires seat { IsSeatOf self.now seat }
        requires parts { (1 ≤ parts) × (parts < parts_of seat) }
        ensures seats { IsSeatOf self.now result.0 × IsSeatOf self.now result.1 }
        ensures parts { (parts_of result.0 ≡ parts_of seat - parts) × (parts_of result.1 ≡ parts) }
        ensures seen { (seen result.0 ≡ seen seat) × (seen result.1 ≡ seen seat) }
        ensures made { (made result.0 ≡ made seat) × (made result.1 ≡ [] ∷ []) }
    {
        let (all, mut place) = seat.take_apart();
        let other = cut::<V, Brand>(&self.table.shared, &mut place, parts);
        let left = Seat {
            parts: all - parts,
            place,
        };
        let right = Seat {
            parts,
            place: other,
        };
        (left, right)
    }

    /// One seat from two. It has seen the longer list, which begins with both, and keeps the turns
    /// of both apart.
    pub fn join(&self, into: Seat<V>, other: Seat<V>) -> Seat<V>
        requires into { IsSeatOf self.now into }
        requires other { IsSeatOf self.now other }
        ensures seat { IsSeatOf self.now result }
        ensures parts { parts_of result ≡ parts_of into + parts_of other }
        ensures seen { seen result ≡ longer (seen into) (seen other) }
        ensures begins { IsPrefix (seen into) (seen result) × IsPrefix (seen other) (seen result) }
        ensures made { made result ≡ made into ++ made other }
    {
        let (parts, mut place) = into.take_apart();
        let (more, from) = other.take_apart();
        let table = &self.table.shared;
        table.join_seat::<Glue>(&mut place, from);
        table.load::<Agree>(&mut place, ENTRIES);
        Seat {
            parts: parts + more,
            place,
        }
    }

    /// The value. Its entries begin with what the seat has seen, and behind those at `new` they are
    /// the turns that the seats made.
    pub fn close(self, seat: Seat<V>) -> V
        requires seat { IsSeatOf self seat }
        requires all { parts_of seat ≡ all_parts self }
        ensures longer { IsPrefix (seen seat) (V.entries result) }
        ensures charter { V.same_charter (opened self) result }
        ensures turns { Covers (length (V.entries (opened self))) (length (V.entries result))
            (made seat) }
    {
        let Turn { table } = self;
        let (_, place) = seat.take_apart();
        let mut closed = table.close_with(place);
        let slot = closed.take(SLOT);
        closed.free();
        let Some(value) = slot else { unreachable!() };
        value
    }
}
