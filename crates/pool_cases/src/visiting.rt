//! Visits of a pool over a link in memory: a connection is acquired, used, and released.
ghost use Rattle.std.specs.Prelude.{◌≡◌};

use crate::opening::connect;
use pg_conn::{MemoryDial, PgConnection};
use pg_guards::PgExecutor;
use pg_listen::{PgPool, PoolConnection, PoolLedger, PoolSeat, Released};
use pg_stream::{MemoryLink, ReadEvent};
use pg_wire::{Blob, Error, Sequence};
use std::alloc::{AllocError, Global};
use std::collections::VecDeque;
use std::sync::Wait;

pub(crate) type Pool<G> = PgPool<G, MemoryLink>;

// A server that accepts the user, and then answers nothing.
const SERVER: &[u8] = b"R\x00\x00\x00\x08\x00\x00\x00\x00Z\x00\x00\x00\x05I";

/// A dial that gives one link.
pub(crate) fn one_link(alloc: Global) -> Result<MemoryDial, AllocError> {
    let bytes = Blob::from_slice(alloc, SERVER)?;
    let mut reads = Sequence::new(alloc);
    reads.push(ReadEvent::Piece(bytes))?;
    let link = MemoryLink::new(alloc, reads, Sequence::new(alloc), false, false);
    let mut links = VecDeque::new(alloc);
    links.push_back(link)?;
    Ok(MemoryDial::new(links, VecDeque::new(alloc), Sequence::new(alloc)))
}

/// What became of a connection, which is let go where the pool doesn't keep it.
pub(crate) fn released<L: Drop>(answer: Released<L>) -> &'static str {
    match answer {
        Released::Foreign(conn) => {
            drop(conn);
            "foreign"
        }
        Released::Kept => "kept",
        Released::Closed(conn) => {
            drop(conn);
            "let go"
        }
    }
}

/// Why there is no connection.
pub(crate) fn refused(error: Error) -> &'static str {
    let why = match &error {
        Error::PoolTimedOut { .. } => "timed out",
        Error::PoolClosed { .. } => "closed",
        _ => "failed",
    };
    drop(error);
    why
}

/// What is done with a connection before it is released.
#[derive(Clone, Copy)]
pub(crate) enum Use {
    Nothing,
    /// A transaction is begun and given up: its ROLLBACK stays unsent.
    BeginAndDrop,
    /// The pool is told not to keep it.
    Mark,
}

// Begins a transaction, and gives it up behind the first poll.
fn begin_and_drop(conn: &mut PgConnection<MemoryLink>) {
    let mut begin = conn.begin();
    let answer = begin.poll();
    drop(answer);
}

fn put_to_use(held: &mut PoolConnection<MemoryLink>, how: Use)
    ensures { held.new.name ≡ held.old.name }
{
    match how {
        Use::Nothing => {}
        Use::BeginAndDrop => begin_and_drop(held.conn_mut()),
        Use::Mark => held.close_on_drop(),
    }
}

/// Gives a connection back behind such a use.
pub(crate) fn give_back<G: PoolLedger, R: Wait>(
    rt: &R,
    pool: &Pool<G>,
    seat: &mut PoolSeat<G>,
    held: PoolConnection<MemoryLink>,
    how: Use,
) -> &'static str
    requires mine { held.name ≡ pool.now.name }
    requires theirs { seat.old.name ≡ pool.now.name }
    ensures { seat.new.name ≡ seat.old.name }
{
    let mut held = held;
    put_to_use(&mut held, how);
    released(held.release(rt, pool, seat))
}

/// Acquires a connection and gives it back.
pub(crate) fn visit<G: PoolLedger, R: Wait>(
    rt: &R,
    alloc: Global,
    pool: &Pool<G>,
    seat: &mut PoolSeat<G>,
    how: Use,
) -> &'static str
    requires { seat.old.name ≡ pool.now.name }
    ensures { seat.new.name ≡ seat.old.name }
{
    let Ok(mut dial) = one_link(alloc) else {
        return "no memory";
    };
    match connect(rt, alloc, pool, seat, &mut dial) {
        Ok(held) => give_back(rt, pool, seat, held, how),
        Err(error) => refused(error),
    }
}
