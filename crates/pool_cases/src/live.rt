//! Eight threads that share a pool of four connections to a server, and make 20,000 short calls in all.
ghost use Rattle.std.specs.Prelude.{◌≡◌, IfOk, vec_len};

use crate::calling::{CALLS, Calls, Tally};
use crate::opening::connect;
use crate::rows::NAME;
use crate::visiting::{refused, released};
use pg_conn::{Dial, SocketDial};
use pg_guards::PgExecutor;
use pg_listen::{PgPool, PgPoolOptions, PoolConnection, PoolLedger, PoolSeat};
use pg_options::{PgConnectOptions, PgSettings};
use pg_stream::SocketLink;
use pg_wire::Error;
use rand::rngs::SysRng;
use std::alloc::{AllocError, Global};
use std::marker::Brand;
use std::net::{Net, TcpListener, TcpStream};
use std::random::RandomSource;
use std::sync::Wait;
use std::sync::ledger::{Blank, Ledger};
use std::thread;
use std::thread::Threads;
use std::time::{Clock, Duration};

const THREADS: u32 = 8;

const CONNECTIONS: u32 = 4;

// The calls that a thread makes before it gives its connection back.
const CALLS_OF_A_VISIT: u32 = 5;

// How often a thread asks for a connection, and how long it waits where all are out.
const TRIES: u32 = 60_000;

const WAIT_MS: u64 = 5;

type Pool<G> = PgPool<G, SocketLink>;

/// What all threads came to, how many receipts they have, and how many entries an audit of the pool found.
#[derive(Clone, Copy)]
pub(crate) struct Shared {
    pub(crate) tally: Tally,
    pub(crate) receipts: u64,
    pub(crate) entries: u64,
}

impl Shared {
    /// Whether each call had its own numbers or was dropped, and each entry has its receipt.
    pub(crate) fn is_right(&self) -> bool {
        let calls = self.tally.whole.saturating_add(self.tally.dropped);
        calls == u64::from(THREADS * CALLS) && self.receipts == self.entries
    }
}

fn call_often(alloc: Global, held: &mut PoolConnection<SocketLink>, calls: &mut Calls)
    ensures { held.new.name ≡ held.old.name }
{
    for _ in 0..CALLS_OF_A_VISIT {
        calls.call(alloc, held.conn_mut());
    }
}

// Makes some calls, or waits where all connections are out.
fn visit<G: PoolLedger, D: Dial<L = SocketLink>, R: Wait + Clock>(
    rt: &R,
    alloc: Global,
    pool: &Pool<G>,
    seat: &mut PoolSeat<G>,
    dial: &mut D,
    calls: &mut Calls,
)
    requires { seat.old.name ≡ pool.now.name }
    ensures { seat.new.name ≡ seat.old.name }
{
    match connect(rt, alloc, pool, seat, dial) {
        Ok(held) => {
            let mut held = held;
            call_often(alloc, &mut held, calls);
            let _ = released(held.release(rt, pool, seat));
        }
        Err(error) => {
            let is_timed_out = refused(error) == "timed out";
            calls.miss(is_timed_out);
            thread::sleep(rt, Duration::from_millis(WAIT_MS));
        }
    }
}

// The calls of one thread.
fn work<G, R>(
    rt: &R,
    alloc: Global,
    pool: &Pool<G>,
    seed: u64,
    seat: PoolSeat<G>,
) -> (Tally, PoolSeat<G>)
where
    G: PoolLedger,
    R: Wait + Clock + Net<Listener = TcpListener, Stream = TcpStream> + RandomSource,
{
    let mut seat = seat;
    let mut dial = SocketDial::new(alloc, rt, SysRng::new(rt));
    let mut calls = Calls::new(seed, seat.number());
    if seat.pool_name() == pool.name() {
        for _ in 0..TRIES {
            if calls.left == 0 {
                break;
            }
            visit(rt, alloc, pool, &mut seat, &mut dial, &mut calls);
        }
    }
    (calls.tally, seat)
}

// What all threads came to, how many receipts they have, and the participants.
fn gathered<G: Ledger>(
    alloc: Global,
    threads: Vec<(Tally, PoolSeat<G>)>,
) -> Result<(Tally, u64, Vec<PoolSeat<G>>), AllocError>
    ensures { IfOk result (λ r. vec_len r.2 ≡ vec_len threads) }
{
    let mut all = Tally::default();
    let mut receipts: u64 = 0;
    let mut seats = Vec::new(alloc);
    for (tally, seat) in threads {
        all.add(tally);
        receipts = receipts.saturating_add(seat.receipts().len() as u64);
        seats.push(seat)?;
    }
    Ok((all, receipts, seats))
}

// Each participant works in a thread of its own.
fn work_all<G, R>(
    rt: &R,
    alloc: Global,
    pool: &Pool<G>,
    seed: u64,
    seats: Vec<PoolSeat<G>>,
) -> Result<(Tally, u64, Vec<PoolSeat<G>>), AllocError>
where
    G: PoolLedger + Send + Sync,
    R: Threads
        + Wait
        + Clock
        + Net<Listener = TcpListener, Stream = TcpStream>
        + RandomSource
        + Sync,
    ensures { IfOk result (λ r. vec_len r.2 ≡ vec_len seats) }
{
    let threads = thread::map_vec(rt, seats, &|seat| work(rt, alloc, pool, seed, seat))?;
    gathered(alloc, threads)
}

// A pool of this ledger, which the threads share.
fn share<G, R>(
    rt: &R,
    alloc: Global,
    options: PgConnectOptions,
    seed: u64,
    blank: Blank,
) -> Result<Shared, Error>
where
    G: PoolLedger + Send + Sync,
    R: Threads
        + Wait
        + Clock
        + Net<Listener = TcpListener, Stream = TcpStream>
        + RandomSource
        + Sync,
    requires most { G.most ≡ 4 }
    requires ledger { blank.name ≡ G.name }
    requires parts { (blank.parts ≡ G.parts) × (blank.parts ≡ 8) }
{
    let (pool, seats) = PgPoolOptions::new()
        .max_connections(CONNECTIONS)
        .build::<G, SocketLink>(alloc, NAME, options, THREADS, blank)?;
    let (tally, receipts, seats) = work_all(rt, alloc, &pool, seed, seats)?;
    let entries = pool.audit(rt, seats)?;
    Ok(Shared {
        tally,
        receipts,
        entries,
    })
}

/// The threads share a pool of connections to the server of this URL.
pub(crate) fn live<R>(rt: &R, alloc: Global, url: &str, seed: u64) -> Result<Shared, Error>
where
    R: Threads
        + Wait
        + Clock
        + Net<Listener = TcpListener, Stream = TcpStream>
        + RandomSource
        + Sync,
{
    let settings = PgSettings::empty();
    let options = PgConnectOptions::from_str(alloc, &settings, url);
    drop(settings);
    share::<Brand, R>(rt, alloc, options?, seed, Blank::new(8))
}
