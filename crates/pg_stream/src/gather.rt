ghost use Rattle.std.specs.Prelude.{◌≡◌, []};
ghost use Rattle.pg_stream.specs.Outside.{Sent, GathersOnce, ReadAll};

use crate::{Sink, SinkWrite, Source, SourceRead};

/// The most bytes that `read_all` keeps as a whole.
const GATHER_MAX: usize = 67_108_864;

/// How many bytes one read asks for.
const READ_SIZE: usize = 8192;

/// How far a source was read.
#[derive(Clone, Copy, Debug, PartialEq, Eq)]
pub enum Gathered {
    /// To its end.
    Whole,
    /// To more than 67108864 bytes.
    TooLong,
    /// To a read that failed.
    Failed,
    /// To a piece that found no room.
    OutOfMemory,
}

// Adds what one read into the chunk gives.
fn gather_once<S: Source>(
    source: &mut S,
    chunk: &mut [u8; READ_SIZE],
    bytes: &mut Vec<u8>,
) -> Option<Gathered>
    ensures { GathersOnce (S.seen source.old) (S.seen source.new) result bytes.old.items bytes.new.items }
{
    match source.read(chunk) {
        SourceRead::Moved(count) => match bytes.extend_from_slice(&chunk[..count]) {
            Ok(()) => None,
            Err(_) => Some(Gathered::OutOfMemory),
        },
        SourceRead::End => Some(Gathered::Whole),
        SourceRead::Failed => Some(Gathered::Failed),
    }
}

/// Reads a source to its end, or to more than 67108864 bytes.
pub fn read_all<S: Source>(source: &mut S, bytes: &mut Vec<u8>) -> Gathered
    requires { bytes.old.items ≡ [] }
    ensures { ReadAll (S.seen source.old) (S.seen source.new) result bytes.new.items }
{
    let mut chunk = [0u8; READ_SIZE];
    while bytes.len() <= GATHER_MAX {
        match gather_once(source, &mut chunk, bytes) {
            None => {}
            Some(end) => return end,
        }
    }
    Gathered::TooLong
}

/// Writes a text, and tells whether the sink took it whole.
pub fn send<K: Sink>(sink: &mut K, text: &[u8]) -> bool
    ensures { Sent (K.seen sink.old) (K.seen sink.new) result text.now }
{
    let mut rest = text;
    while !rest.is_empty() {
        match sink.write(rest) {
            SinkWrite::Moved(count) => rest = &rest[count..],
            SinkWrite::Failed => return false,
        }
    }
    true
}
