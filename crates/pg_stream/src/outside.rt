ghost use Rattle.std.specs.Prelude.{◌<◌, length};
ghost use Rattle.pg_stream.specs.Outside.{SourceSeen, SinkSeen, SourceReads, SinkTakes};

/// What one read of a source gave.
#[derive(Clone, Copy, Debug, PartialEq, Eq)]
pub enum SourceRead {
    /// So many bytes, one at least.
    Moved(usize),
    End,
    Failed,
}

/// What one write of a sink took.
#[derive(Clone, Copy, Debug, PartialEq, Eq)]
pub enum SinkWrite {
    /// So many bytes, one at least.
    Moved(usize),
    Failed,
}

/// Where bytes come from, in any pieces.
///
/// It counts its failures in a `u64` that never falls: each raises it, and one that stands at the type's end counts as risen.
pub trait Source {
    /// The bytes that are left, where it tells them, and its failures.
    ghost seen: { Self → SourceSeen };

    fn read(&mut self, into: &mut [u8]) -> SourceRead
        requires { 0 < length into.old }
        ensures { SourceReads (seen self.old) (seen self.new) result into.new };
}

/// Where bytes go, in any pieces. It counts its failures as a `Source` does.
pub trait Sink {
    /// The bytes that it took, where it tells them, and its failures.
    ghost seen: { Self → SinkSeen };

    fn write(&mut self, from: &[u8]) -> SinkWrite
        requires { 0 < length from.now }
        ensures { SinkTakes (seen self.old) (seen self.new) result from.now };
}
