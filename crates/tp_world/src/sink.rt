ghost use Rattle.std.specs.Prelude.{◌≡◌, ℕ, List, [], ◌∷◌, ◌++◌, Some, None, OnOk, IsErrOf, take};
ghost use Rattle.std.specs.Io.KnownBytes.{Appends, Keeps};
ghost use Rattle.tp_world.specs.Counts.{one_more};
ghost use Rattle.tp_world.specs.Faults.{CountsPut};
ghost use Rattle.tp_world.specs.Sinks.{SinkView, AppendsFront, bytes_of_put};

use crate::requests::Puts;
use std::alloc::Global;
use std::marker::Model;

/// Why a put was refused: the sink failed, after it took some bytes from the front or none; or
/// memory was refused, and it took none.
#[derive(Clone, Copy, Debug, PartialEq, Eq)]
pub enum SendFault {
    Failed,
    NoMemory,
}

/// What takes bytes, one put after another.
pub trait Sink {
    /// What it holds, where it says so, how often a put failed, and the puts that it was asked for.
    ghost view: { Self → SinkView };

    /// Appends bytes. A put that fails raises the count of faults; every other leaves it.
    fn put(&mut self, bytes: &[u8]) -> Result<(), SendFault>
        ensures ok { OnOk result (Appends (view self.old).held (view self.new).held bytes.now) }
        ensures front { IsErrOf result SendFault.Failed
            → AppendsFront (view self.old).held (view self.new).held bytes.now }
        ensures no_memory { IsErrOf result SendFault.NoMemory
            → Keeps (view self.old).held (view self.new).held }
        ensures faults { CountsPut result (view self.old).faults (view self.new).faults }
        ensures puts { (view self.new).puts ≡ (view self.old).puts ++ bytes.now ∷ [] };
}

/// A sink in memory. Some of its puts fail, each after a set number of bytes.
#[derive(Debug, Drop)]
pub struct MemorySink {
    bytes: Vec<u8>,
    failing: Vec<(u64, u64)>,
    calls: u64,
    faults: u64,
    puts: Puts,
}

impl Model for MemorySink {
    ghost use Rattle.tp_world.specs.Sinks.{SinkState};

    ghost Value = { SinkState };

    ghost view = { λ s. record {
      bytes = s.bytes.items;
      failing = s.failing.items;
      calls = s.calls;
      faults = s.faults;
      puts = s.puts.made;
    } };
}

impl MemorySink {
    /// A sink that holds nothing. Each pair of `failing` is the number of a put that fails, counted
    /// from 0, and the number of its bytes that still go out, or all where it has fewer. Where
    /// several pairs have one number, the first counts.
    pub fn new(alloc: Global, failing: Vec<(u64, u64)>) -> MemorySink
        ensures { result ≡ record {
          bytes = [];
          failing = failing.items;
          calls = 0;
          faults = 0;
          puts = [];
        } }
    {
        MemorySink {
            bytes: Vec::new(alloc),
            failing,
            calls: 0,
            faults: 0,
            puts: Puts::new(),
        }
    }

    /// What it holds.
    pub fn bytes(&self) -> &[u8]
        ensures { self.now.bytes ≡ result.now }
    {
        &self.bytes
    }
}

impl Sink for MemorySink {
    ghost view = { λ s. record { held = Some s.bytes; faults = s.faults; puts = s.puts } };

    /// Memory may be refused at any put, which then appends nothing and still has its number.
    fn put(&mut self, bytes: &[u8]) -> Result<(), SendFault>
        ensures ok { OnOk result (bytes_of_put self.old.failing self.old.calls ≡ None) }
        ensures all { OnOk result (self.new ≡ record self.old {
          bytes = self.old.bytes ++ bytes.now;
          calls = one_more self.old.calls;
          puts = self.old.puts ++ bytes.now ∷ [];
        }) }
        ensures front { IsErrOf result SendFault.Failed → (n : ℕ)
            × (bytes_of_put self.old.failing self.old.calls ≡ Some n)
            × (self.new ≡ record self.old {
              bytes = self.old.bytes ++ take n bytes.now;
              calls = one_more self.old.calls;
              faults = one_more self.old.faults;
              puts = self.old.puts ++ bytes.now ∷ [];
            }) }
        ensures no_memory { IsErrOf result SendFault.NoMemory → self.new ≡ record self.old {
          calls = one_more self.old.calls;
          puts = self.old.puts ++ bytes.now ∷ [];
        } }
    {
        let number = self.calls;
        self.calls = self.calls.saturating_add(1);
        self.puts.note_put(bytes);
        match bytes_of(&self.failing, number) {
            None => match self.bytes.extend_from_slice(bytes) {
                Ok(()) => Ok(()),
                Err(_) => Err(SendFault::NoMemory),
            },
            Some(most) => match self.bytes.extend_from_slice(front_of(bytes, most)) {
                Ok(()) => {
                    self.faults = self.faults.saturating_add(1);
                    Err(SendFault::Failed)
                }
                Err(_) => Err(SendFault::NoMemory),
            },
        }
    }
}

/// How many bytes of this put still go out, where it fails.
fn bytes_of(failing: &[(u64, u64)], number: u64) -> Option<u64>
    ensures { result ≡ bytes_of_put failing.now number }
{
    let pair = failing.iter().find(|pair| pair.0 == number)?;
    Some(pair.1)
}

/// The first `most` bytes, or all where there are fewer.
fn front_of(bytes: &[u8], most: u64) -> &[u8]
    ensures { result.now ≡ take most bytes.now }
{
    if most < bytes.len() as u64 {
        &bytes[..most as usize]
    } else {
        bytes
    }
}
