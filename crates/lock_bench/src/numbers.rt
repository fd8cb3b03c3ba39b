//! A list of numbers, as a story.
ghost use Rattle.std.specs.Prelude.{◌≡◌, ◌≤◌, [], length, IfOk, vec_capacity};
ghost use mathlib.Core.List.{IsPrefix};

use std::alloc::{AllocError, Global};
use turn_lock::Story;

/// Numbers, in memory that was taken before.
#[derive(Drop)]
pub struct Numbers {
    pub items: Vec<u64>,
}

impl Numbers {
    /// No numbers yet, and room for so many.
    pub fn with_room(alloc: Global, room: usize) -> Result<Numbers, AllocError>
        ensures empty { IfOk result (λ n. n.items.items ≡ []) }
        ensures room { IfOk result (λ n. room ≤ vec_capacity n.items) }
    {
        Ok(Numbers {
            items: Vec::with_capacity(alloc, room)?,
        })
    }

    /// Reads the last `reads` numbers and adds one to them, where there is room.
    pub fn add(&mut self, number: u64, reads: usize)
        ensures { IsPrefix self.old.items.items self.new.items.items }
    {
        let last = sum_of_last(self.items.as_slice(), reads);
        if self.items.len() < self.items.capacity() {
            self.items.push_reserved(last ^ number);
        }
    }

    /// How many numbers there are.
    pub fn len(&self) -> u64
        ensures { result ≡ length self.now.items.items }
    {
        self.items.len() as u64
    }
}

// The sum of the last numbers, as it wraps.
fn sum_of_last(items: &[u64], count: usize) -> u64 {
    let mut sum = 0u64;
    for number in &items[items.len().saturating_sub(count)..] {
        sum = sum.wrapping_add(*number);
    }
    sum
}

impl Story for Numbers {
    type Entry = u64;

    ghost entries = { λ n. n.items.items };

    ghost same_charter = { λ _ _. Unit {0} };

    fn count(&self) -> u64 {
        self.len()
    }

    ghost charter_self = { λ _. tt };

    ghost charter_on = { λ _ _ _ _ _. tt };
}
