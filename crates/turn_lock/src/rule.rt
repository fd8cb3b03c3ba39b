//! The table under the lock. Word 0 counts the entries, word 1 is the next ticket and word 2 the
//! ticket served, both modulo 2^64. Slot 0 holds the value, or nothing while a seat has its turn.
use crate::story::Story;
use atomic_table::{Seat as TableSeat, Shared as TableShared, TableRule};
use std::collections::LinkedList;
use std::snapshot::Snapshot;

/// What a seat does: it rests, waits with a ticket, or has its turn.
pub enum Stage {
    Idle,
    Waiting(u64),
    Serving(u64),
}

/// What a seat knows. No value of it is made.
pub struct View<V, E> {
    /// The value that `new` was given; nothing once the seat was joined to another.
    pub opened: Option<V>,
    pub parts: u64,
    pub stage: Stage,
    /// The entries that it has seen.
    pub seen: LinkedList<E>,
    /// What a seat that was just joined had seen.
    pub joined: LinkedList<E>,
    /// The turns that it and the seats joined to it made, each a stretch of positions, in a group
    /// for each seat.
    pub made: LinkedList<LinkedList<(u64, u64)>>,
}

/// What the lock was opened with.
#[derive(Drop)]
pub struct Opening<V> {
    pub value: Snapshot<V>,
    pub parts: u32,
}

/// The rule between two steps.
pub struct Tickets;

impl<V: Story> TableRule<Option<V>, View<V, V::Entry>, Opening<V>> for Tickets {
    ghost use Rattle.turn_lock.specs.Kept.{Kept, first_view};

    ghost holds = { λ o. Kept V.entries V.same_charter o.value.value o.parts };

    ghost first = { λ o. first_view V.entries o.value.value o.parts };
}

/// A seat at the table.
pub type Place<V> = TableSeat<Option<V>, View<V, <V as Story>::Entry>>;

/// The table that threads share.
pub type Shared<V> = TableShared<Option<V>, View<V, <V as Story>::Entry>, Opening<V>, Tickets>;
