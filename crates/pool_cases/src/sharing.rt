//! Two threads that share a pool of maximum 1.
ghost use Rattle.std.specs.Prelude.{◌≡◌};

use crate::rows::{pair, pool};
use crate::visiting::{Pool, Use, visit};
use pg_listen::{PoolLedger, PoolSeat};
use pg_pool::Pooled;
use pg_wire::Error;
use std::alloc::{AllocError, Global};
use std::marker::Brand;
use std::sync::Wait;
use std::sync::ledger::{Blank, Ledger};
use std::thread::{Threads, join};

// How often each thread asks for the one connection.
const ROUNDS: u32 = 500;

// The calls of a thread that asks so often, and gives back at once what it gets.
fn calls<G: PoolLedger, R: Wait>(
    rt: &R,
    alloc: Global,
    pool: &Pool<G>,
    seat: &mut PoolSeat<G>,
) -> u64
    requires { seat.old.name ≡ pool.now.name }
{
    let mut calls: u64 = 0;
    for _ in 0..ROUNDS {
        let more = if visit(rt, alloc, pool, seat, Use::Nothing) == "kept" {
            2
        } else {
            1
        };
        calls = calls.saturating_add(more);
    }
    calls
}

// Whether the receipts of these participants are those of the places from 0 on.
fn has_each_place<G: Ledger>(alloc: Global, seats: &[PoolSeat<G>]) -> Result<bool, AllocError> {
    let mut places = Vec::new(alloc);
    for seat in seats {
        for receipt in seat.receipts() {
            places.push(receipt.place)?;
        }
    }
    places.sort()?;
    Ok((0..).zip(places).all(|(index, place)| index == place))
}

// The calls of two threads, with a participant each.
fn calls_of_both<G: PoolLedger + Send + Sync, R: Threads + Wait + Sync>(
    rt: &R,
    alloc: Global,
    pool: &Pool<G>,
    first: &mut PoolSeat<G>,
    second: &mut PoolSeat<G>,
) -> u64
    requires first { first.old.name ≡ pool.now.name }
    requires second { second.old.name ≡ pool.now.name }
{
    let (one, other) = join(
        rt,
        || calls(rt, alloc, pool, first),
        || calls(rt, alloc, pool, second),
    );
    one.saturating_add(other)
}

// Whether the participants have receipts for so many calls, each at its place.
fn audited<G: PoolLedger, C: Pooled, O, R: Wait>(
    rt: &R,
    alloc: Global,
    pool: &pg_pool::Pool<G, C, O>,
    calls: u64,
    first: PoolSeat<G>,
    second: PoolSeat<G>,
) -> Result<String, Error>
    requires { G.parts ≡ 2 }
{
    let seats = vec![in alloc; first, second]?;
    let in_order = has_each_place(alloc, seats.as_slice())?;
    let are_all = pool.audit(rt, seats)? == calls;
    Ok(format!(in alloc; "an entry for each call: {are_all}, each at its place: {in_order}")?)
}

// The calls of two threads, and what they come to.
fn play<G: PoolLedger + Send + Sync, R: Threads + Wait + Sync>(
    rt: &R,
    alloc: Global,
    pool: &Pool<G>,
    seats: Vec<PoolSeat<G>>,
) -> Result<String, Error>
    requires named { pool.now.name ≡ 7 }
    requires parts { G.parts ≡ 2 }
{
    let Some((mut first, mut second)) = pair(seats) else {
        return Err(Error::StartupPending);
    };
    let calls = calls_of_both(rt, alloc, pool, &mut first, &mut second);
    audited(rt, alloc, pool, calls, first, second)
}

// A pool of maximum 1, and two participants.
fn row_of_threads<G: PoolLedger + Send + Sync, R: Threads + Wait + Sync>(
    rt: &R,
    alloc: Global,
    blank: Blank,
) -> Result<String, Error>
    requires most { G.most ≡ 1 }
    requires ledger { blank.name ≡ G.name }
    requires parts { (blank.parts ≡ G.parts) × (blank.parts ≡ 2) }
{
    match pool::<G>(alloc, 1, 2, blank) {
        Ok((pool, seats)) => play(rt, alloc, &pool, seats),
        Err(error) => Err(error),
    }
}

/// The row of two threads that share a pool of maximum 1.
pub(crate) fn threads<R: Threads + Wait + Sync>(rt: &R, alloc: Global) -> Result<String, Error> {
    row_of_threads::<Brand, R>(rt, alloc, Blank::new(2))
}
