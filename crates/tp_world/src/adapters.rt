//! Adapters of the real thing. They do not say what the system holds, so no clause speaks of it.
ghost use Rattle.std.specs.Prelude.{◌≡◌, ◌*◌, ◌/◌, ◌-◌, ◌^◌, min, [], None};
ghost use Rattle.std.specs.Duration.{as_nanos};

use crate::clock::Clock;
use crate::files::{Files, LoadFault, SaveFault};
use crate::gate::{Gate, Point};
use crate::requests::{Begun, Puts, Requests};
use crate::sink::{SendFault, Sink};
use std::alloc::Global;
use std::fs::Files as SystemFiles;
use std::io::{ErrorKind, Print, Read, Write};
use std::time::{Clock as SystemClock, Duration, Instant};
use std::{fs, io, thread};

/// The files of the system, by their paths.
#[derive(Drop)]
pub struct DiskFiles<R> {
    rt: R,
    load_faults: u64,
    save_faults: u64,
    requests: Requests,
}

impl<R: SystemFiles> DiskFiles<R> {
    /// The files that this runtime reaches.
    pub fn new(rt: R) -> DiskFiles<R>
        ensures { ⟦<DiskFiles<R> as Files>⟧.view result ≡ record {
          contents = None;
          load_faults = 0;
          save_faults = 0;
          requests = [];
        } }
    {
        DiskFiles {
            rt,
            load_faults: 0,
            save_faults: 0,
            requests: Requests::new(),
        }
    }
}

impl<R: SystemFiles> Files for DiskFiles<R> {
    ghost view = { λ f. record {
      contents = None;
      load_faults = f.load_faults;
      save_faults = f.save_faults;
      requests = f.requests.made;
    } };

    /// At most one byte more than `most` is read. A file that cannot be read counts a fault.
    fn load(&mut self, alloc: Global, name: &str, most: u64) -> Result<Vec<u8>, LoadFault> {
        self.requests.note_load(name.as_bytes());
        match read_front(alloc, &self.rt, name, most.saturating_add(1)) {
            Ok(text) if text.len() as u64 > most => Err(LoadFault::TooLong),
            Ok(text) => Ok(text),
            Err(e) if e.kind() == ErrorKind::OutOfMemory => Err(LoadFault::NoMemory),
            Err(_) => {
                self.load_faults = self.load_faults.saturating_add(1);
                Err(LoadFault::Failed)
            }
        }
    }

    fn save(&mut self, _alloc: Global, name: &str, bytes: &[u8]) -> Result<(), SaveFault> {
        self.requests.note_save(name.as_bytes(), bytes);
        match fs::write(&self.rt, name, bytes) {
            Ok(()) => Ok(()),
            Err(_) => {
                self.save_faults = self.save_faults.saturating_add(1);
                Err(SaveFault::Failed)
            }
        }
    }
}

/// The first `limit` bytes of a file, or all where it has fewer.
fn read_front<R: SystemFiles>(
    alloc: Global,
    rt: &R,
    name: &str,
    limit: u64,
) -> io::Result<Vec<u8>> {
    let mut text = Vec::new(alloc);
    fs::open(rt, name)?.take(limit).read_to_end(&mut text)?;
    Ok(text)
}

/// The standard output. Each put has gone out when it answers.
#[derive(Drop)]
pub struct StdSink<R> {
    rt: R,
    faults: u64,
    puts: Puts,
}

impl<R: Print> StdSink<R> {
    /// The standard output of this runtime.
    pub fn new(rt: R) -> StdSink<R>
        ensures { ⟦<StdSink<R> as Sink>⟧.view result
            ≡ record { held = None; faults = 0; puts = [] } }
    {
        StdSink {
            rt,
            faults: 0,
            puts: Puts::new(),
        }
    }
}

impl<R: Print> Sink for StdSink<R> {
    ghost view = { λ s. record { held = None; faults = s.faults; puts = s.puts.made } };

    fn put(&mut self, bytes: &[u8]) -> Result<(), SendFault> {
        self.puts.note_put(bytes);
        match write_out(&self.rt, bytes) {
            Ok(()) => Ok(()),
            Err(_) => {
                self.faults = self.faults.saturating_add(1);
                Err(SendFault::Failed)
            }
        }
    }
}

/// Writes bytes to the standard output, and keeps none back.
fn write_out(rt: &impl Print, bytes: &[u8]) -> io::Result<()> {
    let mut out = io::writer(rt);
    out.write_all(bytes)?;
    out.flush()
}

/// The time since it was made, in ticks of a second divided by the rate. Where the system refuses
/// the moment, a reading is the last one.
#[derive(Drop)]
pub struct ElapsedClock<R> {
    rt: R,
    began: Option<Instant>,
    count: u64,
    last: u64,
    rate: u32,
    begun: Begun,
}

impl<R: SystemClock> ElapsedClock<R> {
    /// A clock that is at 0 now, at one tick a second.
    pub fn new(rt: R) -> ElapsedClock<R>
        ensures given { ⟦<ElapsedClock<R> as Clock>⟧.given result ≡ None }
        ensures count { ⟦<ElapsedClock<R> as Clock>⟧.count result ≡ 0 }
        ensures last { ⟦<ElapsedClock<R> as Clock>⟧.last result ≡ 0 }
        ensures rate { ⟦<ElapsedClock<R> as Clock>⟧.rate result ≡ 1 }
        ensures begun { ⟦<ElapsedClock<R> as Clock>⟧.begun result ≡ [] }
    {
        let began = Instant::now(&rt).ok();
        ElapsedClock {
            rt,
            began,
            count: 0,
            last: 0,
            rate: 1,
            begun: Begun::new(),
        }
    }
}

impl<R: SystemClock> Clock for ElapsedClock<R> {
    ghost count = { λ c. c.count };

    ghost last = { λ c. c.last };

    ghost rate = { λ c. c.rate };

    ghost given = { λ _. None };

    ghost begun = { λ c. c.begun.made };

    fn begin(&mut self, per_unit: u32) {
        self.begun.note_rates(&[per_unit]);
        self.rate = per_unit;
    }

    fn read(&mut self) -> u64 {
        if let Some(elapsed) = since(&self.rt, self.began) {
            self.last = ticks_in(elapsed, self.rate);
        }
        self.count = self.count.saturating_add(1);
        self.last
    }
}

/// The time since a moment, where the system gave that moment and gives this one.
fn since(rt: &impl SystemClock, began: Option<Instant>) -> Option<Duration> {
    began?.elapsed(rt).ok()
}

/// The whole ticks in a time, at `rate` ticks a second, up to the greatest `u64`.
fn ticks_in(time: Duration, rate: u32) -> u64
    ensures { result ≡ min (as_nanos time * rate / 1_000_000_000) (2 ^ 64 - 1) }
{
    let rate = u64::from(rate);
    let seconds = time.as_secs();
    let nanoseconds = u64::from(time.subsec_nanos());
    seconds
        .saturating_mul(rate)
        .saturating_add(nanoseconds * rate / 1_000_000_000)
}

/// A gate that holds an actor for 5 milliseconds where it has nothing to do.
#[derive(Drop)]
pub struct PauseGate<R> {
    rt: R,
}

impl<R: SystemClock> PauseGate<R> {
    /// A gate that pauses by this runtime.
    pub fn new(rt: R) -> PauseGate<R> {
        PauseGate { rt }
    }
}

impl<R: SystemClock + Sync> Gate for PauseGate<R> {
    fn pass(&self, _actor: u32, _turn: u64, point: Point) {
        match point {
            Point::Sprout => {}
            Point::Idle | Point::Look => thread::sleep(&self.rt, Duration::from_millis(5)),
        }
    }
}
