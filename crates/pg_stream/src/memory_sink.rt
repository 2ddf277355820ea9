ghost use Rattle.std.specs.Prelude.{◌≡◌, ◌<◌, [], length};
ghost use Rattle.pg_stream.specs.Outside.{SinkTakes};
ghost use Rattle.pg_stream.specs.MemoryOutside.{SinkFollows, sink_seen};

use crate::{Sink, SinkWrite};
use pg_wire::Sequence;
use std::alloc::Global;
use std::marker::Model;

/// A sink in memory: it keeps what it took.
#[derive(Debug, Drop)]
pub struct MemorySink {
    taken: Vec<u8>,
    failing: Sequence<u64>,
    calls: u64,
    faults: u64,
}

impl Model for MemorySink {
    ghost use Rattle.pg_stream.specs.MemoryOutside.{MemorySinkState};

    ghost Value = { MemorySinkState };

    ghost view = { λ s. record { taken = s.taken.items; failing = s.failing; calls = s.calls; faults = s.faults } };
}

impl MemorySink {
    /// Has taken nothing. The calls with these numbers fail; the first is 1.
    pub fn new(alloc: Global, failing: Sequence<u64>) -> Self
        ensures { result ≡ record { taken = []; failing = failing; calls = 0; faults = 0 } }
    {
        MemorySink {
            taken: Vec::new(alloc),
            failing,
            calls: 0,
            faults: 0,
        }
    }

    /// The bytes that it took.
    pub fn taken(&self) -> &[u8]
        ensures { self.now.taken ≡ result.now }
    {
        &self.taken
    }
}

impl Sink for MemorySink {
    ghost seen = { λ s. sink_seen s };

    /// Takes all, unless the call is to fail. Want of memory is `Failed` and counts as a fault.
    fn write(&mut self, from: &[u8]) -> SinkWrite
        requires { 0 < length from.now }
        ensures sink { SinkTakes (sink_seen self.old) (sink_seen self.new) result from.now }
        ensures follows { SinkFollows self.old self.new result (length from.now) }
    {
        self.calls = self.calls.saturating_add(1);
        if self.failing.as_slice().contains(&self.calls) {
            self.faults = self.faults.saturating_add(1);
            return SinkWrite::Failed;
        }
        match self.taken.extend_from_slice(from) {
            Ok(()) => SinkWrite::Moved(from.len()),
            Err(_) => {
                self.faults = self.faults.saturating_add(1);
                SinkWrite::Failed
            }
        }
    }
}
