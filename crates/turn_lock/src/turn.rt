//! The lock, its seats and the value that a seat holds for a turn.
ghost use Rattle.std.specs.Prelude.{◌≡◌};

use crate::rule::{Opening, Place, Tickets, View};
use crate::story::Story;
use atomic_table::Table;
use std::alloc::Global;
use std::snapshot::Snapshot;

/// A lock by tickets over a value. Threads share it where the value may go from one to another.
pub struct Turn<V: Story> {
    pub(crate) table: Table<Option<V>, View<V, V::Entry>, Opening<V>, Tickets, Global>,
    ghost sized: { (table.shared.table_id.words ≡ 3) × (table.shared.table_id.slots ≡ 1) },
}

/// What one thread enters the lock with. It knows the entries that it has seen and the turns that
/// it made. A seat that is dropped takes its parts with it, and the lock can no longer be closed.
pub struct Seat<V: Story> {
    pub(crate) parts: u32,
    pub(crate) place: Place<V>,
}

/// The value, for one turn. It ends in `Turn::leave`, since it cannot be dropped.
pub struct Held<V: Story> {
    /// The value as it is now. Contracts name it as it was when the turn began by `entered`.
    pub value: V,
    pub(crate) entered: Snapshot<V>,
    pub(crate) count: u64,
    pub(crate) parts: u32,
    pub(crate) place: Place<V>,
}

impl<V: Story> Seat<V> {
    // Its parts and its place at the table.
    pub(crate) fn take_apart(self) -> (u32, Place<V>)
        ensures { (result.0 ≡ self.parts) × (result.1 ≡ self.place) }
    {
        let Seat { parts, place } = self;
        (parts, place)
    }
}

impl<V: Story> Drop for Seat<V> {
    fn drop(self) {
        let Seat { parts: _, place: _ } = self;
    }
}

fn needs_sync<T: Sync>(_shared: &T) {}

fn needs_send<T: Send>(_moved: &T) {}

// Where the value may go from thread to thread, threads may share the lock, and a seat may go from
// one to another.
fn crosses<V: Story + Send>(lock: &Turn<V>, seat: &Seat<V>) {
    needs_sync(lock);
    needs_send(lock);
    needs_send(seat);
}
