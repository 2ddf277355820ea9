ghost use Rattle.std.specs.Prelude.{◌≡◌, ◌<◌, length};
ghost use Rattle.pg_stream.specs.Outside.{SourceReads};
ghost use Rattle.pg_stream.specs.MemoryOutside.{SourceFollows, source_seen};

use crate::copying::copy_front;
use crate::{Source, SourceRead};
use pg_wire::{Blob, Sequence};
use std::marker::Model;

/// A source in memory.
#[derive(Debug, Drop)]
pub struct MemorySource {
    bytes: Blob,
    given: usize,
    most: usize,
    failing: Sequence<u64>,
    calls: u64,
    faults: u64,
}

impl Model for MemorySource {
    ghost use Rattle.std.specs.Prelude.{◌≤◌, length, drop};
    ghost use Rattle.pg_stream.specs.MemoryOutside.{MemorySourceState};

    ghost Value = { MemorySourceState };

    ghost view = { λ s. record { left = drop s.given s.bytes; most = s.most; failing = s.failing; calls = s.calls; faults = s.faults } };

    ghost invariant = { λ s. s.given ≤ length s.bytes };
}

impl MemorySource {
    /// Gives these bytes, at most so many by one read (one at least). The calls with these numbers fail; the first is 1.
    pub fn new(bytes: Blob, most: usize, failing: Sequence<u64>) -> Self
        ensures { result ≡ record { left = bytes; most = most; failing = failing; calls = 0; faults = 0 } }
    {
        MemorySource {
            bytes,
            given: 0,
            most,
            failing,
            calls: 0,
            faults: 0,
        }
    }
}

impl Source for MemorySource {
    ghost seen = { λ s. source_seen s };

    fn read(&mut self, into: &mut [u8]) -> SourceRead
        requires { 0 < length into.old }
        ensures source { SourceReads (source_seen self.old) (source_seen self.new) result into.new }
        ensures follows { SourceFollows self.old self.new result (length into.old) }
    {
        self.calls = self.calls.saturating_add(1);
        if self.failing.as_slice().contains(&self.calls) {
            self.faults = self.faults.saturating_add(1);
            return SourceRead::Failed;
        }
        let rest = &self.bytes.as_bytes()[self.given..];
        if rest.is_empty() {
            return SourceRead::End;
        }
        let piece = &rest[..rest.len().min(self.most.max(1))];
        let count = copy_front(into, piece);
        self.given += count;
        SourceRead::Moved(count)
    }
}
