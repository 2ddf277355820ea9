//! Cases of migrations, in memory and at a server.

use crate::migrating::case::{connect, numbers};
use crate::migrating::making::make_call;
use crate::migrating::opening;
use crate::migrating::telling::push;
use case_tools::{Shown, behind, entry, number, push_bytes};
use pg_guards::PgExecutor;
use pg_migrate::{Clock, MemoryClock, SystemClock};
use pg_wire::Sequence;
use std::alloc::Global;
use std::collections::VecDeque;

// Makes the calls of a case, one behind the other.
fn make_calls<C: PgExecutor, K: Clock>(
    alloc: Global,
    case: &str,
    conn: &mut C,
    clock: &mut K,
    told: &mut String,
) {
    let mut polls = 1;
    for line in case.lines() {
        polls = number(line, "polls", polls);
        if let Some(words) = behind(line, "call") {
            make_call(alloc, case, conn, words, clock, polls, told);
        }
    }
}

/// What was sent behind the start-up.
pub(crate) fn push_sent<C: PgExecutor>(holder: &C, told: &mut String)
where
    C::L: Shown,
{
    let conn = holder.conn_ref();
    let (started, _) = conn.started();
    if let Some(sent) = conn.link().sent() {
        drop(push_bytes(told, sent.get(started as usize..).unwrap_or(&[])));
    }
}

// Makes the calls on this connection, where there is one.
fn play_on<C: PgExecutor + Drop, K: Clock>(
    alloc: Global,
    case: &str,
    conn: Option<C>,
    clock: &mut K,
    told: &mut String,
)
where
    C::L: Shown,
{
    match conn {
        Some(mut conn) => {
            make_calls(alloc, case, &mut conn, clock, told);
            push_sent(&conn, told);
            drop(conn);
        }
        None => push(told, "  no connection\n"),
    }
}

fn play_in_memory(alloc: Global, case: &str, told: &mut String) {
    match numbers(alloc, case, "clock") {
        Ok(times) => {
            let mut clock = MemoryClock::new(VecDeque::from(times), Sequence::new(alloc));
            let conn = connect(alloc, case, "server").ok();
            play_on(alloc, case, conn, &mut clock, told);
            drop(clock);
        }
        Err(_) => push(told, "  no clock\n"),
    }
}

// Over a socket.
fn play_live(rt: &HostRuntime, url: &str, case: &str, told: &mut String) {
    let alloc = rt.alloc();
    let mut clock = SystemClock::new(rt);
    let conn = opening::connect(rt, alloc, url, number(case, "patience", 10));
    play_on(alloc, case, conn, &mut clock, told);
}

/// Plays a case, and tells what its calls answered.
pub(crate) fn play(rt: &HostRuntime, case: &str, told: &mut String) {
    match entry(case, "url") {
        Some(url) => play_live(rt, url, case, told),
        None => play_in_memory(rt.alloc(), case, told),
    }
}
