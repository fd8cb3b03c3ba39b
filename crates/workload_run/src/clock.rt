ghost use Rattle.std.specs.Prelude.{◌≡◌, []};
ghost use Rattle.workload_run.specs.Readings.{turn_readings};

use std::marker::Model;
use tp_world::{Begun, Clock};

/// A clock whose k-th reading, counted from 0, is k / 1000 ticks, rounded down. No reading takes
/// memory.
#[derive(Debug, Drop)]
pub struct TurnClock {
    count: u64,
    last: u64,
    rate: u32,
    begun: Begun,
}

impl Model for TurnClock {
    ghost use Rattle.workload_run.specs.Readings.{TurnState};

    ghost Value = { TurnState };

    ghost view = { λ c. record {
      count = c.count;
      last = c.last;
      rate = c.rate;
      begun = c.begun.made;
    } };
}

impl TurnClock {
    /// A clock that was never read, at one tick a unit of time.
    pub fn new() -> TurnClock
        ensures { result ≡ record {
          count = 0;
          last = 0;
          rate = 1;
          begun = [];
        } }
    {
        TurnClock {
            count: 0,
            last: 0,
            rate: 1,
            begun: Begun::new(),
        }
    }
}

impl Clock for TurnClock {
    ghost use Rattle.std.specs.Prelude.{Some};

    ghost count = { λ c. c.count };

    ghost last = { λ c. c.last };

    ghost rate = { λ c. c.rate };

    ghost given = { λ _. Some turn_readings };

    ghost begun = { λ c. c.begun };

    fn begin(&mut self, per_unit: u32) {
        self.begun.note_rates(&[per_unit]);
        self.rate = per_unit;
    }

    fn read(&mut self) -> u64 {
        let count = self.count;
        self.last = count / 1000;
        self.count = count.saturating_add(1);
        self.last
    }
}
