//! Cases of advisory locks over links in memory, and at a server two connections that contend for one.

mod calls;
pub(crate) mod exchange;
mod live;
mod telling;

use crate::migrating::case::{connect, key};
use crate::migrating::locks::calls::call;
use crate::migrating::locks::live::live;
use crate::migrating::playing::push_sent;
use crate::migrating::telling::push;
use case_tools::{behind, connect_to, number, word};
use pg_guards::PgExecutor;
use pg_wire::Error;
use std::alloc::Global;

// Makes the calls of a case, one behind the other.
fn make_calls<C: PgExecutor>(case: &str, conn: &mut C, told: &mut String) {
    let key = key(case);
    let mut polls = 1;
    for line in case.lines() {
        polls = number(line, "polls", polls);
        if let Some(word) = behind(line, "call") {
            call(conn, word, key, polls, told);
        }
    }
}

/// Plays a case, and tells what its calls answered.
pub(crate) fn play(alloc: Global, case: &str, told: &mut String) {
    match connect(alloc, case, "server") {
        Ok(mut conn) => {
            make_calls(case, &mut conn, told);
            push_sent(&conn, told);
            drop(conn);
        }
        Err(error) => {
            drop(error);
            push(told, "  no connection\n");
        }
    }
}

fn contend_at(rt: &HostRuntime, url: &str, told: &mut String) -> Result<(), Error> {
    let mut first = connect_to(rt, rt.alloc(), url)?;
    let mut other = connect_to(rt, rt.alloc(), url)?;
    let played = live(&mut first, &mut other, told);
    drop(first);
    drop(other);
    played
}

/// Tells of two connections that contend for a lock at the server of this URL.
pub(crate) fn contend(rt: &HostRuntime, url: &str, told: &mut String) {
    if let Err(error) = contend_at(rt, url, told) {
        push(told, word(&error));
        push(told, "\n");
        drop(error);
    }
}
