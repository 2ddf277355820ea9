//! A row, over a pool of one connection.
ghost use Rattle.std.specs.Prelude.{◌≡◌, true, false, IsSome};

use crate::listening::calls::{make_all, make_each};
use crate::listening::live::{hear, on_server};
use crate::listening::opening::{connect, dial, let_go};
use crate::listening::receiving::next;
use crate::listening::telling::{failed, history, lost, pending, released};
use crate::listening::words::first;
use crate::rows::{NAME, pair, pool};
use case_tools::Shown;
use pg_conn::{Dial, MemoryDial};
use pg_listen::{PgPool, PoolLedger, PoolSeat};
use pg_listening::{Connecting, ConnectionSource, Listener, connect_with};
use pg_options::PgSettings;
use pg_pool::{Pool, Pooled};
use pg_stream::MemoryLink;
use pg_wire::{Error, Poll};
use std::alloc::Global;
use std::marker::Brand;
use std::net::{Net, TcpListener, TcpStream};
use std::random::RandomSource;
use std::sync::Wait;
use std::sync::ledger::Blank;

// A stream is asked so often.
const NEXT: u32 = 3;

const URL: &str = "postgres://u@h/d";

/// A server, the calls of a row that are made on a listener there, and whether it tells behind them what it hears.
#[derive(Clone, Copy)]
pub(crate) struct Place<'a> {
    pub(crate) url: &'a str,
    pub(crate) calls: &'a str,
    pub(crate) hears: bool,
}

// Ends a listener by its stream.
fn end_by_stream<B, R>(rt: &R, out: &mut String, listener: Listener<B>)
where
    B: ConnectionSource + Drop,
    B::L: Shown + Drop,
    R: Wait,
{
    let mut stream = listener.into_stream();
    for _ in 0..NEXT {
        next(rt, out, &mut stream);
    }
    lost(out, stream.lost());
    released(out, stream.into_released(rt));
}

// Ends a listener by its `release`, or else lets it go.
fn end_by_release<B, R>(rt: &R, out: &mut String, listener: Listener<B>)
where
    B: ConnectionSource + Drop,
    B::L: Shown + Drop,
    R: Wait,
{
    lost(out, listener.lost());
    let mut state = listener.release();
    match state.poll(rt) {
        Poll::Pending => pending(out),
        Poll::Ready(Ok(what)) => released(out, what),
        Poll::Ready(Err(error)) => failed(out, error),
    }
    match state.into_listener() {
        Some(listener) => let_go(listener.into_released(rt)),
        None => {}
    }
}

// Lets a listener go.
fn end_at_once<B, R>(rt: &R, out: &mut String, listener: Listener<B>)
where
    B: ConnectionSource + Drop,
    B::L: Shown + Drop,
    R: Wait,
{
    lost(out, listener.lost());
    released(out, listener.into_released(rt));
}

fn end<B, R>(rt: &R, out: &mut String, listener: Listener<B>, calls: &str)
where
    B: ConnectionSource + Drop,
    B::L: Shown + Drop,
    R: Wait,
{
    if calls.ends_with("stream") {
        end_by_stream(rt, out, listener);
    } else if calls.ends_with("release") {
        end_by_release(rt, out, listener);
    } else {
        end_at_once(rt, out, listener);
    }
}

// A row on a listener whose pool others have too.
fn play<G, C, O, B, R>(
    rt: &R,
    alloc: Global,
    out: &mut String,
    pool: &Pool<G, C, O>,
    other: &mut PoolSeat<G>,
    state: Connecting<Listener<B>>,
    calls: &str,
)
where
    G: PoolLedger,
    C: Pooled + Drop,
    B: ConnectionSource + Drop,
    B::L: Shown + Drop,
    R: Wait,
    requires over { state.is_over ≡ false }
    requires listener { IsSome state.listener }
{
    match connect(rt, state) {
        Ok(listener) => {
            let mut listener = listener;
            make_all(rt, alloc, out, pool, other, &mut listener, calls);
            end(rt, out, listener, calls);
        }
        Err(error) => failed(out, error),
    }
}

// A row on a listener that is lent a pool and a participant of it.
fn play_lent<G, D, R>(
    rt: &R,
    alloc: Global,
    out: &mut String,
    pool: &PgPool<G, D::L>,
    seats: (PoolSeat<G>, PoolSeat<G>),
    dial: D,
    calls: &str,
)
where
    G: PoolLedger,
    D: Dial + Drop,
    D::L: Shown + Drop,
    R: Wait,
    requires { seats.0.name ≡ pool.now.name }
{
    let (mut seat, mut other) = seats;
    let state = connect_with(alloc, pool, &mut seat, dial);
    play(rt, alloc, out, pool, &mut other, state, calls);
    history(out, &seat);
}

// The same over a pool of two participants.
fn lent<G: PoolLedger, R: Wait>(
    rt: &R,
    alloc: Global,
    out: &mut String,
    place: Place<'_>,
    blank: Blank,
    dial: MemoryDial,
) -> Result<(), Error>
    requires most { G.most ≡ 1 }
    requires ledger { blank.name ≡ G.name }
    requires parts { (blank.parts ≡ G.parts) × (blank.parts ≡ 2) }
{
    match pool::<G>(alloc, 1, 2, blank) {
        Ok((pool, seats)) => match pair(seats) {
            Some(seats) => {
                play_lent(rt, alloc, out, &pool, seats, dial, place.calls);
                Ok(())
            }
            None => Err(Error::StartupPending),
        },
        Err(error) => Err(error),
    }
}

// What is done with a listener whose pool nobody else has.
fn play_alone<B, R>(
    rt: &R,
    alloc: Global,
    out: &mut String,
    state: Connecting<Listener<B>>,
    place: Place<'_>,
) -> Result<(), Error>
where
    B: ConnectionSource + Drop,
    B::L: Shown + Drop,
    R: Wait + Print,
    requires over { state.is_over ≡ false }
    requires listener { IsSome state.listener }
{
    match connect(rt, state) {
        Ok(listener) => {
            let mut listener = listener;
            make_each(rt, alloc, out, &mut listener, place.calls);
            let done = if place.hears {
                hear(rt, out, &mut listener)
            } else {
                Ok(())
            };
            end_at_once(rt, out, listener);
            done
        }
        Err(error) => Err(error),
    }
}

/// A listener on a pool of its own.
pub(crate) fn alone<G, D, R>(
    rt: &R,
    alloc: Global,
    out: &mut String,
    place: Place<'_>,
    blank: Blank,
    dial: D,
) -> Result<(), Error>
where
    G: PoolLedger,
    D: Dial + Drop,
    D::L: Shown + Drop + Send,
    R: Wait + Print,
    requires most { G.most ≡ 1 }
    requires ledger { blank.name ≡ G.name }
    requires parts { (blank.parts ≡ G.parts) × (blank.parts ≡ 1) }
{
    let settings = PgSettings::empty();
    let begun = pg_listening::connect::<G, D>(alloc, NAME, &settings, place.url, blank, dial);
    drop(settings);
    match begun {
        Ok(state) => play_alone(rt, alloc, out, state, place),
        Err((error, dial)) => {
            drop(dial);
            Err(error)
        }
    }
}

// The calls of a row, on a server in memory.
fn in_memory(calls: &str) -> Place<'_> {
    Place {
        url: URL,
        calls,
        hears: false,
    }
}

// What is done over links in memory.
fn played<R: Wait + Print>(
    rt: &R,
    alloc: Global,
    out: &mut String,
    calls: &str,
    dial: MemoryDial,
) -> Result<(), Error> {
    match calls.strip_prefix("alone ") {
        Some(calls) => {
            let place = in_memory(calls);
            alone::<Brand, MemoryDial, R>(rt, alloc, out, place, Blank::new(1), dial)
        }
        None => lent::<Brand, R>(rt, alloc, out, in_memory(calls), Blank::new(2), dial),
    }
}

/// A row, by its calls and its links, or else by its calls on the server of this URL.
pub(crate) fn told<R>(rt: &R, alloc: Global, url: Option<&str>, row: &str) -> Result<String, Error>
where
    R: Wait + Print + Net<Listener = TcpListener, Stream = TcpStream> + RandomSource,
{
    let (calls, links) = first(row, " | ");
    let mut out = String::new(alloc);
    match url {
        Some(url) => on_server(rt, alloc, &mut out, url, calls)?,
        None => {
            let given = dial(alloc, links)?;
            played(rt, alloc, &mut out, calls, given)?;
        }
    }
    Ok(out)
}
