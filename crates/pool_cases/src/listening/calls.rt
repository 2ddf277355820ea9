//! The calls of a row on its listener.
use crate::listening::changing::change_channels;
use crate::listening::querying::{fetch_many, fetch_optional};
use crate::listening::receiving::{next_buffered, receive, try_receive};
use crate::listening::statements::{describe, prepare};
use crate::listening::telling::{failed, taken_back};
use crate::listening::words::{MOST, first};
use case_tools::Shown;
use pg_listen::{PoolLedger, PoolSeat};
use pg_listening::{ConnectionSource, Listener};
use pg_pool::{Pool, Pooled};
use std::alloc::Global;
use std::sync::Wait;

/// A call is polled so often at most.
pub(crate) const POLLS: u32 = 1000;

/// What is asked in each query.
pub(crate) const SQL: &str = "SELECT";

/// There is no memory for what a call asks.
pub(crate) const WANTING: &str = " no memory";

// What a word asks of a listener.
#[derive(Clone, Copy)]
enum Asked {
    Recv,
    Try,
    Poll,
    Next,
    Many,
    First,
    Row,
    Prepare,
    Describe,
    Take,
    Lazy,
    Ignore,
    Change,
    // It is done behind the other calls.
    Later,
}

static WORDS: [(&str, Asked); 14] = [
    ("recv", Asked::Recv),
    ("try", Asked::Try),
    ("poll", Asked::Poll),
    ("next", Asked::Next),
    ("many", Asked::Many),
    ("first", Asked::First),
    ("row", Asked::Row),
    ("prepare", Asked::Prepare),
    ("describe", Asked::Describe),
    ("take", Asked::Take),
    ("lazy", Asked::Lazy),
    ("ignore", Asked::Ignore),
    ("release", Asked::Later),
    ("stream", Asked::Later),
];

fn meaning(word: &str) -> Asked {
    for (name, meaning) in &WORDS {
        if *name == word {
            return *meaning;
        }
    }
    Asked::Change
}

// A call of a row.
fn make<B, R>(rt: &R, alloc: Global, out: &mut String, listener: &mut Listener<B>, call: &str)
where
    B: ConnectionSource,
    B::L: Shown + Drop,
    R: Wait,
{
    match meaning(call) {
        Asked::Recv => receive(rt, out, listener),
        Asked::Try => try_receive(rt, out, listener, POLLS),
        Asked::Poll => try_receive(rt, out, listener, 1),
        Asked::Next => next_buffered(out, listener),
        Asked::Many => fetch_many(rt, alloc, out, listener),
        Asked::First => fetch_optional(rt, alloc, out, listener, false),
        Asked::Row => fetch_optional(rt, alloc, out, listener, true),
        Asked::Prepare => prepare(rt, alloc, out, listener),
        Asked::Describe => describe(rt, alloc, out, listener),
        Asked::Take => taken_back(out, listener),
        Asked::Lazy => listener.eager_reconnect(false),
        Asked::Ignore => listener.ignore_pool_close_event(true),
        Asked::Change => change_channels(rt, alloc, out, listener, call),
        Asked::Later => {}
    }
}

// The pool is closed by another participant, if it is one of that pool.
fn close<G: PoolLedger, C: Pooled + Drop, O, R: Wait>(
    rt: &R,
    alloc: Global,
    out: &mut String,
    pool: &Pool<G, C, O>,
    other: &mut PoolSeat<G>,
) {
    if other.pool_name() == pool.name() {
        match pool.close(rt, alloc, other) {
            Ok(conns) => drop(conns),
            Err(error) => failed(out, error),
        }
    }
}

/// The calls of a row.
pub(crate) fn make_each<B, R>(
    rt: &R,
    alloc: Global,
    out: &mut String,
    listener: &mut Listener<B>,
    calls: &str,
)
where
    B: ConnectionSource,
    B::L: Shown + Drop,
    R: Wait,
{
    let mut rest = calls;
    for _ in 0..MOST {
        if rest.is_empty() {
            break;
        }
        let (call, behind) = first(rest, " ");
        make(rt, alloc, out, listener, call);
        rest = behind;
    }
}

/// The calls of a row, behind some of which another participant may close the pool.
pub(crate) fn make_all<G, C, O, B, R>(
    rt: &R,
    alloc: Global,
    out: &mut String,
    pool: &Pool<G, C, O>,
    other: &mut PoolSeat<G>,
    listener: &mut Listener<B>,
    calls: &str,
)
where
    G: PoolLedger,
    C: Pooled + Drop,
    B: ConnectionSource,
    B::L: Shown + Drop,
    R: Wait,
{
    let (before, behind) = first(calls, " close");
    make_each(rt, alloc, out, listener, before);
    if before.len() < calls.len() {
        close(rt, alloc, out, pool, other);
        make_each(rt, alloc, out, listener, behind.trim_start());
    }
}
