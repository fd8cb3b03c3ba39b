ghost use Rattle.std.specs.Prelude.{◌≡◌, ℕ, List, [], ◌∷◌, ◌++◌, Option, Some, IfSome};
ghost use Rattle.tp_world.specs.Counts.{one_more};
ghost use Rattle.tp_world.specs.Readings.{reading_at};

use crate::requests::Begun;
use std::marker::Model;

/// A clock in ticks. It is never refused a reading.
pub trait Clock {
    /// How often it was read, up to the greatest `u64`.
    ghost count: { Self → ℕ };

    /// The last reading.
    ghost last: { Self → ℕ };

    /// The number of ticks of a unit of time.
    ghost rate: { Self → ℕ };

    /// The readings from the first one on, where the clock says them before.
    ghost given: { Self → Option (List ℕ) };

    /// The rates that it was begun with, in order.
    ghost begun: { Self → List ℕ };

    /// Sets the number of ticks of a unit of time. It is no reading.
    fn begin(&mut self, per_unit: u32)
        ensures rate { rate self.new ≡ per_unit }
        ensures begun { begun self.new ≡ begun self.old ++ per_unit ∷ [] }
        ensures count { count self.new ≡ count self.old }
        ensures last { last self.new ≡ last self.old }
        ensures given { given self.new ≡ given self.old };

    /// The time now, in ticks.
    fn read(&mut self) -> u64
        ensures count { count self.new ≡ one_more (count self.old) }
        ensures last { last self.new ≡ result }
        ensures rate { rate self.new ≡ rate self.old }
        ensures begun { begun self.new ≡ begun self.old }
        ensures given { given self.new ≡ given self.old }
        ensures reading { IfSome (given self.old)
            (λ readings. result ≡ reading_at readings (count self.old)) };
}

/// A clock that gives the readings of a list in order, then the last one again and again, and 0
/// where the list is empty. No reading takes memory.
#[derive(Debug, Drop)]
pub struct ListClock {
    readings: Vec<u64>,
    count: u64,
    last: u64,
    rate: u32,
    begun: Begun,
}

impl Model for ListClock {
    ghost use Rattle.tp_world.specs.Readings.{ClockState};

    ghost Value = { ClockState };

    ghost view = { λ c. record {
      readings = c.readings.items;
      count = c.count;
      last = c.last;
      rate = c.rate;
      begun = c.begun.made;
    } };
}

impl ListClock {
    /// A clock that was never read, at one tick a unit of time.
    pub fn new(readings: Vec<u64>) -> ListClock
        ensures { result ≡ record {
          readings = readings.items;
          count = 0;
          last = 0;
          rate = 1;
          begun = [];
        } }
    {
        ListClock {
            readings,
            count: 0,
            last: 0,
            rate: 1,
            begun: Begun::new(),
        }
    }
}

impl Clock for ListClock {
    ghost count = { λ c. c.count };

    ghost last = { λ c. c.last };

    ghost rate = { λ c. c.rate };

    ghost given = { λ c. Some c.readings };

    ghost begun = { λ c. c.begun };

    fn begin(&mut self, per_unit: u32) {
        self.begun.note_rates(&[per_unit]);
        self.rate = per_unit;
    }

    fn read(&mut self) -> u64 {
        self.last = reading_of(&self.readings, self.count);
        self.count = self.count.saturating_add(1);
        self.last
    }
}

/// The reading that comes after `count` earlier ones.
fn reading_of(readings: &[u64], count: u64) -> u64
    ensures { result ≡ reading_at readings.now count }
{
    if count < readings.len() as u64 {
        readings[count as usize]
    } else if readings.is_empty() {
        0
    } else {
        readings[readings.len() - 1]
    }
}
