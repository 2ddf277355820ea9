//! Connections over links in memory.

ghost use Rattle.std.specs.Prelude.{◌≡◌, false};
ghost use Rattle.pg_auth.specs.Nonce.{IsNonce};

use crate::lines::read_event;
use pg_conn::{Establish, MemoryDial, PgConnection, establish};
use pg_options::{PgConnectOptions, PgSettings};
use pg_stream::{Link, MemoryLink, ReadEvent, WriteEvent};
use pg_wire::{Blob, Error, Poll, Sequence};
use std::alloc::{AllocError, Global};
use std::collections::VecDeque;

// How often a start-up is polled. Over a socket a poll that answers `Pending` has waited for its timeout.
const POLLS: u32 = 1000;

// A server that accepts the user.
const SERVER: &[u8] = b"R\x00\x00\x00\x08\x00\x00\x00\x00Z\x00\x00\x00\x05I";

/// The connect options of a URL, where nothing is set in the surroundings.
pub fn options(alloc: Global, url: &str) -> Result<PgConnectOptions, Error> {
    let settings = PgSettings::empty();
    let options = PgConnectOptions::from_str(alloc, &settings, url);
    drop(settings);
    options
}

// The connection of a start-up, which is polled to its end.
fn settle<L: Link + Drop>(mut start: Establish<L>) -> Result<PgConnection<L>, Error>
    requires { start.startup.is_finished ≡ false }
{
    for _ in 0..POLLS {
        match start.poll() {
            Poll::Pending => {}
            Poll::Ready(answer) => return answer,
        }
    }
    Err(Error::StartupPending)
}

/// The connection that a start-up over this link comes to.
pub fn start<L: Link + Drop>(
    alloc: Global,
    options: &PgConnectOptions,
    nonce: &[u8],
    link: L,
) -> Result<PgConnection<L>, Error>
    requires { IsNonce nonce.now }
{
    match establish(alloc, options, nonce, link) {
        Ok(start) => settle(start),
        Err((error, link)) => {
            drop(link);
            Err(error)
        }
    }
}

/// The connection by this URL over a link in memory.
pub fn connect(
    alloc: Global,
    url: &str,
    reads: Sequence<ReadEvent>,
    writes: Sequence<WriteEvent>,
) -> Result<PgConnection<MemoryLink>, Error> {
    match options(alloc, url) {
        Ok(options) => {
            let link = MemoryLink::new(alloc, reads, writes, false, false);
            let conn = start(alloc, &options, b"n", link);
            drop(options);
            conn
        }
        Err(error) => {
            drop(reads);
            drop(writes);
            Err(error)
        }
    }
}

/// What a link reads whose server says this at once.
pub fn one_piece(alloc: Global, bytes: &[u8]) -> Result<Sequence<ReadEvent>, AllocError> {
    let piece = ReadEvent::Piece(Blob::from_slice(alloc, bytes)?);
    let mut reads = Sequence::new(alloc);
    reads.push(piece)?;
    Ok(reads)
}

/// What a link reads whose server accepts the user, and then says nothing.
pub fn accepted(alloc: Global) -> Result<Sequence<ReadEvent>, AllocError> {
    one_piece(alloc, SERVER)
}

/// A dial in memory with one link, which gives these and takes nothing, with these words, and whose calls of these numbers fail.
pub fn one_link(
    alloc: Global,
    reads: Sequence<ReadEvent>,
    words: VecDeque<u32>,
    failing: Sequence<u64>,
) -> Result<MemoryDial, AllocError> {
    let link = MemoryLink::new(alloc, reads, Sequence::new(alloc), false, false);
    let mut links = VecDeque::new(alloc);
    links.push_back(link)?;
    Ok(MemoryDial::new(links, words, failing))
}

fn write_event(word: &str) -> Option<WriteEvent> {
    match word {
        "take" => Some(WriteEvent::Take {
            most: usize::MAX,
            times: 1,
        }),
        "block" => Some(WriteEvent::Wait),
        _ => None,
    }
}

/// A connection to a server that accepts the user, whose link then does what these words say: what `read_event` reads, and of its writes `take` for one
/// that takes all, and `block` for one that takes nothing yet.
pub fn open(alloc: Global, words: &str) -> Result<PgConnection<MemoryLink>, Error> {
    let mut reads = accepted(alloc)?;
    let mut writes = Sequence::new(alloc);
    for word in words.split(' ') {
        match write_event(word) {
            Some(event) => writes.push(event)?,
            None => reads.push(read_event(alloc, word)?)?,
        }
    }
    connect(alloc, "postgres://u@h/d", reads, writes)
}
