//! Copies over a pool of maximum 1, whose server gives what they need one behind the other.
ghost use Rattle.std.specs.Prelude.{◌≡◌};

use crate::copying::{End, How, copied_in, copied_out};
use crate::opening::{connect, fill};
use crate::rows::{audited_two, close, pair, pool};
use crate::visiting::{Pool, Use, give_back, released};
use pg_conn::MemoryDial;
use pg_copying::{PgPoolCopyExt, PoolCopy};
use pg_listen::{PoolLedger, PoolSeat, Ticket};
use pg_stream::{MemoryLink, ReadEvent};
use pg_wire::{Blob, Error, Sequence, Text};
use std::alloc::{AllocError, Global};
use std::collections::VecDeque;
use std::fmt::Write;
use std::marker::Brand;
use std::sync::Wait;
use std::sync::ledger::Blank;

// It accepts the user.
const READY: &[u8] = b"R\x00\x00\x00\x08\x00\x00\x00\x00Z\x00\x00\x00\x05I";

// It awaits data of two columns.
const AWAITS: &[u8] = b"G\x00\x00\x00\x0b\x00\x00\x02\x00\x00\x00\x00";

// It has copied two rows.
const COPIED: &[u8] = b"C\x00\x00\x00\x0bCOPY 2\x00Z\x00\x00\x00\x05I";

// It gives two pieces, of which one is empty.
const GIVES: &[u8] =
    b"H\x00\x00\x00\x07\x00\x00\x00d\x00\x00\x00\x05ad\x00\x00\x00\x04c\x00\x00\x00\x04C\x00\x00\x00\x0bCOPY 2\x00Z\x00\x00\x00\x05I";

// It gives one piece, and is not done.
const BEGINS: &[u8] = b"H\x00\x00\x00\x07\x00\x00\x00d\x00\x00\x00\x05a";

// What came of a copy, and of its connection.
type Told = (End, &'static str);

fn push(alloc: Global, reads: &mut Sequence<ReadEvent>, bytes: &[u8]) -> Result<(), AllocError> {
    reads.push(ReadEvent::Piece(Blob::from_slice(alloc, bytes)?))
}

// A dial that gives one link: its server serves a copy from the client, one to the client, and the begin of another one.
fn dial(alloc: Global) -> Result<MemoryDial, AllocError> {
    let mut reads = Sequence::new(alloc);
    push(alloc, &mut reads, READY)?;
    push(alloc, &mut reads, AWAITS)?;
    push(alloc, &mut reads, COPIED)?;
    push(alloc, &mut reads, GIVES)?;
    push(alloc, &mut reads, BEGINS)?;
    let link = MemoryLink::new(alloc, reads, Sequence::new(alloc), false, false);
    let mut links = VecDeque::new(alloc);
    links.push_back(link)?;
    Ok(MemoryDial::new(links, VecDeque::new(alloc), Sequence::new(alloc)))
}

// Makes the connection, and releases it.
fn make<G: PoolLedger, R: Wait>(
    rt: &R,
    alloc: Global,
    pool: &Pool<G>,
    seat: &mut PoolSeat<G>,
    ticket: Ticket,
) -> Told
    requires mine { ticket.name ≡ pool.now.name }
    requires theirs { seat.old.name ≡ pool.now.name }
    ensures { seat.new.name ≡ seat.old.name }
{
    let Ok(mut dial) = dial(alloc) else {
        let _ = ticket.give_back(rt, pool, seat);
        return (End::Failed, "no memory");
    };
    match fill(rt, alloc, pool, seat, ticket, &mut dial) {
        Ok(held) => (End::Made, give_back(rt, pool, seat, held, Use::Nothing)),
        Err(error) => (refusal(error), "none"),
    }
}

// Why there is no copy.
fn refusal(error: Error) -> End {
    let end = match &error {
        Error::PoolTimedOut { place } => End::TimedOut(*place),
        Error::PoolClosed { place } => End::Closed(*place),
        _ => End::Failed,
    };
    drop(error);
    end
}

// A copy from the client.
fn copy_in<G: PoolLedger, R: Wait>(
    rt: &R,
    alloc: Global,
    pool: &Pool<G>,
    seat: &mut PoolSeat<G>,
    how: How,
) -> Told
    requires named { pool.now.name ≡ 7 }
    requires theirs { seat.old.name ≡ pool.now.name }
    ensures { seat.new.name ≡ seat.old.name }
{
    let Ok(statement) = Text::from_str(alloc, "COPY t FROM STDIN") else {
        return (End::Failed, "no memory");
    };
    match pool.copy_in_raw(rt, seat, statement) {
        Ok(PoolCopy::Started(state)) => {
            let (held, end) = copied_in(state, how);
            match held {
                Some(held) => (end, released(held.release(rt, pool, seat))),
                None => (end, "none"),
            }
        }
        Ok(PoolCopy::New(ticket)) => make(rt, alloc, pool, seat, ticket),
        Err(error) => (refusal(error), "none"),
    }
}

// A copy to the client.
fn copy_out<G: PoolLedger, R: Wait>(
    rt: &R,
    alloc: Global,
    pool: &Pool<G>,
    seat: &mut PoolSeat<G>,
    how: How,
) -> Told
    requires named { pool.now.name ≡ 7 }
    requires theirs { seat.old.name ≡ pool.now.name }
    ensures { seat.new.name ≡ seat.old.name }
{
    let Ok(statement) = Text::from_str(alloc, "COPY t TO STDOUT") else {
        return (End::Failed, "no memory");
    };
    match pool.copy_out_raw(rt, seat, statement) {
        Ok(PoolCopy::Started(state)) => {
            let (held, end) = copied_out(state, how);
            (end, released(held.release(rt, pool, seat)))
        }
        Ok(PoolCopy::New(ticket)) => make(rt, alloc, pool, seat, ticket),
        Err(error) => (refusal(error), "none"),
    }
}

// The first participant has the one connection while the second asks for a copy.
fn crowd<G: PoolLedger, R: Wait>(
    rt: &R,
    alloc: Global,
    pool: &Pool<G>,
    first: &mut PoolSeat<G>,
    second: &mut PoolSeat<G>,
) -> Told
    requires named { pool.now.name ≡ 7 }
    requires first { first.old.name ≡ pool.now.name }
    requires second { second.old.name ≡ pool.now.name }
    ensures first { first.new.name ≡ first.old.name }
    ensures second { second.new.name ≡ second.old.name }
{
    let Ok(mut dial) = dial(alloc) else {
        return (End::Failed, "no memory");
    };
    match connect(rt, alloc, pool, first, &mut dial) {
        Ok(held) => {
            let (end, _) = copy_out(rt, alloc, pool, second, How::Whole);
            (end, give_back(rt, pool, first, held, Use::Nothing))
        }
        Err(error) => (refusal(error), "none"),
    }
}

// What there is no memory for is missing in what is printed.
fn tell(out: &mut String, told: Told) {
    let (end, word) = told;
    let _ = write!(out, "{end:?} {word}, ");
}

// Copies over the first connection, up to one that is given up.
fn play_first<G: PoolLedger, R: Wait>(
    rt: &R,
    alloc: Global,
    pool: &Pool<G>,
    first: &mut PoolSeat<G>,
    second: &mut PoolSeat<G>,
    out: &mut String,
)
    requires named { pool.now.name ≡ 7 }
    requires first { first.old.name ≡ pool.now.name }
    requires second { second.old.name ≡ pool.now.name }
    ensures first { first.new.name ≡ first.old.name }
    ensures second { second.new.name ≡ second.old.name }
{
    tell(out, copy_in(rt, alloc, pool, first, How::Whole));
    tell(out, copy_in(rt, alloc, pool, first, How::Whole));
    tell(out, copy_out(rt, alloc, pool, first, How::Whole));
    tell(out, crowd(rt, alloc, pool, first, second));
    tell(out, copy_in(rt, alloc, pool, second, How::Unpolled));
    tell(out, copy_out(rt, alloc, pool, second, How::Unpolled));
    tell(out, copy_out(rt, alloc, pool, second, How::Open));
}

// A copy from the client that is given up while it is open, and copies over a pool that is closed.
fn play_last<G: PoolLedger, R: Wait>(
    rt: &R,
    alloc: Global,
    pool: &Pool<G>,
    first: &mut PoolSeat<G>,
    second: &mut PoolSeat<G>,
    out: &mut String,
)
    requires named { pool.now.name ≡ 7 }
    requires first { first.old.name ≡ pool.now.name }
    requires second { second.old.name ≡ pool.now.name }
    ensures first { first.new.name ≡ first.old.name }
    ensures second { second.new.name ≡ second.old.name }
{
    tell(out, copy_in(rt, alloc, pool, second, How::Open));
    tell(out, copy_in(rt, alloc, pool, second, How::Open));
    let closed = close(rt, alloc, pool, second);
    tell(out, copy_in(rt, alloc, pool, first, How::Whole));
    tell(out, copy_out(rt, alloc, pool, second, How::Whole));
    let _ = out.push_str(closed);
}

// The copies of two participants.
fn play<G: PoolLedger, R: Wait>(
    rt: &R,
    alloc: Global,
    pool: &Pool<G>,
    seats: Vec<PoolSeat<G>>,
) -> Result<String, Error>
    requires named { pool.now.name ≡ 7 }
    requires parts { G.parts ≡ 2 }
{
    let Some((mut first, mut second)) = pair(seats) else {
        return Err(Error::StartupPending);
    };
    let mut told = String::new(alloc);
    play_first(rt, alloc, pool, &mut first, &mut second, &mut told);
    play_last(rt, alloc, pool, &mut first, &mut second, &mut told);
    audited_two(rt, alloc, pool, told, first, second)
}

// A pool of maximum 1, and two participants.
fn row_of_copies<G: PoolLedger, R: Wait>(
    rt: &R,
    alloc: Global,
    blank: Blank,
) -> Result<String, Error>
    requires most { G.most ≡ 1 }
    requires ledger { blank.name ≡ G.name }
    requires parts { (blank.parts ≡ G.parts) × (blank.parts ≡ 2) }
{
    match pool::<G>(alloc, 1, 2, blank) {
        Ok((pool, seats)) => play(rt, alloc, &pool, seats),
        Err(error) => Err(error),
    }
}

/// The row of copies over a pool.
pub(crate) fn copies<R: Wait>(rt: &R, alloc: Global) -> Result<String, Error> {
    row_of_copies::<Brand, R>(rt, alloc, Blank::new(2))
}
