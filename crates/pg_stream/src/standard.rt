ghost use Rattle.std.specs.Prelude.{◌≡◌, None};

use crate::{Sink, SinkWrite, Source, SourceRead};
use std::io::{Read, Write};
use std::marker::Model;

/// A source over a reader of the standard library, as standard input. A read of no bytes is its end. It tells no bytes.
#[derive(Drop)]
pub struct StdSource<R> {
    reader: R,
    faults: u64,
}

impl<R> Model for StdSource<R> {
    ghost use Rattle.std.specs.Prelude.{None};
    ghost use Rattle.pg_stream.specs.Outside.{SourceSeen};

    ghost Value = { SourceSeen };

    ghost view = { λ s. record { left = None; faults = s.faults } };
}

impl<R> StdSource<R> {
    pub fn new(reader: R) -> Self
        ensures { result ≡ record { left = None; faults = 0 } }
    {
        StdSource { reader, faults: 0 }
    }
}

impl<R: Read> Source for StdSource<R> {
    ghost seen = { λ s. s };

    fn read(&mut self, into: &mut [u8]) -> SourceRead {
        match self.reader.read(into) {
            Ok(0) => SourceRead::End,
            Ok(count) => SourceRead::Moved(count),
            Err(_) => {
                self.faults = self.faults.saturating_add(1);
                SourceRead::Failed
            }
        }
    }
}

/// A sink over a writer of the standard library, as standard output. A write of no bytes has failed. It tells no bytes.
#[derive(Drop)]
pub struct StdSink<W> {
    writer: W,
    faults: u64,
}

impl<W> Model for StdSink<W> {
    ghost use Rattle.std.specs.Prelude.{None};
    ghost use Rattle.pg_stream.specs.Outside.{SinkSeen};

    ghost Value = { SinkSeen };

    ghost view = { λ s. record { taken = None; faults = s.faults } };
}

impl<W> StdSink<W> {
    pub fn new(writer: W) -> Self
        ensures { result ≡ record { taken = None; faults = 0 } }
    {
        StdSink { writer, faults: 0 }
    }
}

impl<W: Write> Sink for StdSink<W> {
    ghost seen = { λ s. s };

    fn write(&mut self, from: &[u8]) -> SinkWrite {
        match self.writer.write(from) {
            Ok(count) if count > 0 => SinkWrite::Moved(count),
            _ => {
                self.faults = self.faults.saturating_add(1);
                SinkWrite::Failed
            }
        }
    }
}
