ghost use Rattle.std.specs.Prelude.{◌≡◌};

use std::alloc::Global;
use tp_world::{SendFault, Sink};

/// The most bytes of a put that is kept.
const MOST_KEPT: usize = 256;

/// A sink that hands each put on to another one, and keeps the bytes of the last put where they are
/// at most 256 and memory is there for them.
#[derive(Drop)]
pub struct KeepingSink<S> {
    sink: S,
    last: Vec<u8>,
}

impl<S: Sink> KeepingSink<S> {
    /// One that hands on to this sink.
    pub fn new(alloc: Global, sink: S) -> KeepingSink<S>
        ensures { ⟦<KeepingSink<S> as Sink>⟧.view result ≡ S.view sink }
    {
        KeepingSink {
            sink,
            last: Vec::new(alloc),
        }
    }

    /// The bytes of the last put; none where they are not kept.
    pub fn last(&self) -> &[u8] {
        &self.last
    }

    /// Keeps the bytes of a put.
    fn keep(&mut self, bytes: &[u8])
        ensures { self.new.sink ≡ self.old.sink }
    {
        self.last.clear();
        if bytes.len() <= MOST_KEPT && self.last.extend_from_slice(bytes).is_err() {
            self.last.clear();
        }
    }
}

impl<S: Sink> Sink for KeepingSink<S> {
    ghost view = { λ s. S.view s.sink };

    fn put(&mut self, bytes: &[u8]) -> Result<(), SendFault> {
        self.keep(bytes);
        self.sink.put(bytes)
    }
}
