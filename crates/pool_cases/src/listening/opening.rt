//! Dials whose links go on with given events, and listeners that begin.
ghost use Rattle.std.specs.Prelude.{◌≡◌, false, IfOk, IsSome};
ghost use Rattle.pg_conn.specs.Dials.{AreUncalled};

use crate::listening::calls::POLLS;
use crate::listening::words::{MOST, first};
use case_tools::{link, push_link, read_event};
use pg_conn::MemoryDial;
use pg_listen::Released;
use pg_listening::{Connecting, ConnectionSource, Listener};
use pg_stream::{MemoryLink, ReadEvent};
use pg_wire::{Blob, Error, Poll, Sequence};
use std::alloc::Global;
use std::collections::VecDeque;
use std::sync::Wait;

// A server that accepts the user.
const SERVER: &[u8] = b"R\x00\x00\x00\x08\x00\x00\x00\x00Z\x00\x00\x00\x05I";

fn event(alloc: Global, word: &str) -> Result<ReadEvent, Error> {
    match word {
        "start" => Ok(ReadEvent::Piece(Blob::from_slice(alloc, SERVER)?)),
        word => read_event(alloc, word),
    }
}

// What a link gives.
fn reads(alloc: Global, events: &str) -> Result<Sequence<ReadEvent>, Error> {
    let mut reads = Sequence::new(alloc);
    let mut rest = events;
    for _ in 0..MOST {
        if rest.is_empty() {
            break;
        }
        let (word, behind) = first(rest, " ");
        reads.push(event(alloc, word)?)?;
        rest = behind;
    }
    Ok(reads)
}

fn links(alloc: Global, all: &str) -> Result<VecDeque<MemoryLink>, Error>
    ensures { IfOk result (λ links. AreUncalled links.items) }
{
    let mut links = VecDeque::new(alloc);
    let mut rest = all;
    for _ in 0..MOST {
        if rest.is_empty() {
            break;
        }
        let (events, behind) = first(rest, " | ");
        push_link(&mut links, link(alloc, reads(alloc, events)?))?;
        rest = behind;
    }
    Ok(links)
}

/// A dial that gives these links.
pub(crate) fn dial(alloc: Global, all: &str) -> Result<MemoryDial, Error> {
    match links(alloc, all) {
        Ok(links) => Ok(MemoryDial::new(links, VecDeque::new(alloc), Sequence::new(alloc))),
        Err(error) => Err(error),
    }
}

/// Lets a connection go that was released.
pub(crate) fn let_go<L: Drop>(released: Option<Released<L>>) {
    match released {
        Some(Released::Closed(conn)) => drop(conn),
        Some(Released::Foreign(conn)) => drop(conn),
        Some(Released::Kept) => {}
        None => {}
    }
}

// Polls a start-up to its end.
fn poll_connect<B, R>(rt: &R, state: &mut Connecting<Listener<B>>) -> Result<Listener<B>, Error>
where
    B: ConnectionSource,
    B::L: Drop,
    R: Wait,
    requires over { state.old.is_over ≡ false }
    requires listener { IsSome state.old.listener }
{
    for _ in 0..POLLS {
        match state.poll(rt) {
            Poll::Pending => {}
            Poll::Ready(answer) => return answer,
        }
    }
    Err(Error::StartupPending)
}

/// The listener of a start-up, or why it has no connection.
pub(crate) fn connect<B, R>(rt: &R, state: Connecting<Listener<B>>) -> Result<Listener<B>, Error>
where
    B: ConnectionSource + Drop,
    B::L: Drop,
    R: Wait,
    requires over { state.is_over ≡ false }
    requires listener { IsSome state.listener }
{
    let mut state = state;
    let answer = poll_connect(rt, &mut state);
    let_go(state.into_released(rt));
    answer
}
