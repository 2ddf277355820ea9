// Sources, sinks and streams.

use crate::row::blob;
use crate::stream::links::push_piece;
use pg_stream::{
    Gathered, Link, MemoryLink, MemorySink, MemorySource, PgStream, ReadEvent, Sink, SinkWrite,
    Source, StdSink, StdSource, read_all, send,
};
use pg_wire::{Blob, DataRow, Error, Poll, Sequence, cut_data_row};
use std::alloc::Global;

// Whether a source is read with this answer, and gives just these bytes.
fn is_gathered<S: Source>(alloc: Global, source: &mut S, answer: Gathered, bytes: &[u8]) -> bool {
    let mut read = Vec::new(alloc);
    read_all(source, &mut read) == answer && read.as_slice() == bytes
}

/// Whether a source gives just these bytes.
pub fn is_read<S: Source>(alloc: Global, source: &mut S, bytes: &[u8]) -> bool {
    is_gathered(alloc, source, Gathered::Whole, bytes)
}

fn second(alloc: Global) -> Sequence<u64> {
    let mut calls = Sequence::new(alloc);
    let _ = calls.push(2);
    calls
}

/// A source in memory fails at its second call, and goes on where it was.
pub fn source_fails_at_a_call(alloc: Global) -> bool {
    let mut source = MemorySource::new(blob(alloc, b"abcde"), 3, second(alloc));
    let failed = is_gathered(alloc, &mut source, Gathered::Failed, b"abc");
    failed && is_read(alloc, &mut source, b"de")
}

/// A sink in memory fails at its second call, which takes nothing.
pub fn sink_fails_at_a_call(alloc: Global) -> bool {
    let mut sink = MemorySink::new(alloc, second(alloc));
    let sent = send(&mut sink, b"ab") && send(&mut sink, b"") && !send(&mut sink, b"cd");
    let goes_on = sink.write(b"ef") == SinkWrite::Moved(2);
    sent && goes_on && sink.taken() == b"abef".as_slice()
}

/// A reader as a source.
pub fn std_reader(alloc: Global) -> bool {
    let mut source = StdSource::new(b"abc".as_slice());
    is_read(alloc, &mut source, b"abc")
}

/// A writer as a sink.
pub fn std_writer(alloc: Global) -> bool {
    let mut out = Vec::new(alloc);
    let mut sink = StdSink::new(&mut out);
    let sent = send(&mut sink, b"defg");
    drop(sink);
    sent && out.as_slice() == b"defg".as_slice()
}

/// A writer without room.
pub fn std_writer_without_room() -> bool {
    let mut room = [0; 3];
    let mut small = StdSink::new(room.as_mut_slice());
    !send(&mut small, b"hijk")
}

fn parameters(alloc: Global) -> Sequence<ReadEvent> {
    let mut reads = Sequence::new(alloc);
    push_piece(alloc, &mut reads, b"S\x00\x00\x00\x11TimeZone\x00UTC\x00");
    push_piece(
        alloc,
        &mut reads,
        b"S\x00\x00\x00\x18server_version\x0016.3\x00",
    );
    push_piece(alloc, &mut reads, b"S\x00\x00\x00\x11TimeZone\x00GMT\x00");
    push_piece(alloc, &mut reads, b"Z\x00\x00\x00\x05I");
    reads
}

// Whether a poll is ready and well.
fn is_ready<T: Drop>(poll: Poll<Result<T, Error>>) -> bool {
    matches!(&poll, Poll::Ready(Ok(_)))
}

fn stream_of(alloc: Global, reads: Sequence<ReadEvent>) -> PgStream<MemoryLink> {
    let link = MemoryLink::new(alloc, reads, Sequence::new(alloc), false, false);
    PgStream::new(alloc, link)
}

fn keeps_parameters(alloc: Global, stream: &mut PgStream<MemoryLink>) -> bool {
    is_ready(stream.poll_heard(alloc))
        && stream.parameter("TimeZone") == Some("GMT")
        && stream.parameter("server_version").is_none()
        && stream.server_version_num() == Some(160003)
}

/// A stream keeps the last value of each parameter, and the version as a number.
pub fn keeps_the_last_parameters(alloc: Global) -> bool {
    let mut stream = stream_of(alloc, parameters(alloc));
    keeps_parameters(alloc, &mut stream)
}

fn is_well(done: Result<(), Error>) -> bool {
    done.is_ok()
}

fn sends_the_rest(stream: &mut PgStream<MemoryLink>) -> bool {
    if stream.spare() != 8 {
        return false;
    }
    stream.queue_cleanup(b"defgh");
    stream.spare() == 3
        && is_ready(stream.poll_send())
        && stream.link().taken() == b"abcdefgh".as_slice()
}

fn keeps_room(stream: &mut PgStream<MemoryLink>, frames: &Blob) -> bool {
    is_well(stream.reserve_cleanup(8))
        && is_well(stream.queue(frames))
        && is_well(stream.shrink_buffers())
        && sends_the_rest(stream)
}

/// A stream keeps the room that was asked for, also where its buffers shrink.
pub fn keeps_room_for_cleanup(alloc: Global) -> bool {
    let frames = blob(alloc, b"abc");
    let mut stream = stream_of(alloc, Sequence::new(alloc));
    keeps_room(&mut stream, &frames)
}

// Keeps the next row, which shares what was received.
fn keep_row(
    alloc: Global,
    stream: &mut PgStream<MemoryLink>,
    rows: &mut Vec<DataRow>,
) -> Result<(), Error> {
    match stream.poll_ahead(alloc) {
        Poll::Ready(Ok(front)) => {
            let frame = stream.share(front)?;
            stream.pass(front);
            rows.push(cut_data_row(alloc, frame)?)?;
            Ok(())
        }
        Poll::Ready(Err(e)) => Err(e),
        Poll::Pending => Ok(()),
    }
}

fn is_row(row: &DataRow, value: &[u8]) -> bool {
    row.len() == 1 && row.get(0) == Some(value)
}

fn are_shared(rows: &[DataRow]) -> bool {
    match rows {
        [first, second, third] => {
            let is_shared = !first.storage().is_unique();
            is_shared && is_row(first, b"1") && is_row(second, b"22") && is_row(third, b"333")
        }
        _ => false,
    }
}

fn rows(alloc: Global) -> Sequence<ReadEvent> {
    let mut reads = Sequence::new(alloc);
    push_piece(
        alloc,
        &mut reads,
        b"D\x00\x00\x00\x0b\x00\x01\x00\x00\x00\x011D\x00\x00\x00\x0c\x00\x01\x00\x00\x00\x0222D\x00\x00",
    );
    push_piece(alloc, &mut reads, b"\x00\x0d\x00\x01\x00\x00\x00\x03333");
    reads
}

/// Rows that came in one piece share its storage, and stay the same whatever is read later.
pub fn rows_share_a_piece(alloc: Global) -> bool {
    let mut stream = stream_of(alloc, rows(alloc));
    let mut kept = Vec::new(alloc);
    for _ in 0..3 {
        drop(keep_row(alloc, &mut stream, &mut kept));
    }
    are_shared(&kept)
}
