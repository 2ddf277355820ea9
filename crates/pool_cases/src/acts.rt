//! Cases of copies, most of them from the client, and of notifications, each on a connection of its own.
//!
//! A case is what is done on a connection, and what its link does behind the start-up. What is done stands with commas, each with
//! what it takes behind a dash:
//!
//!     copy-N      a copy to the table `t` begins, and is polled so often at most; where it isn't open by then its state is dropped
//!     send-HEX    bytes are sent to it, in hexadecimal, by one poll
//!     push-HEX    the same by as many polls as it takes
//!     read-HEX    the same by one poll from a source that gives three bytes at a time
//!     fail-HEX    the same from one that fails behind its first three bytes
//!     pipe-HEX    the same from one that gives as many as are asked for, by as many polls as it takes
//!     tell        how its data is formatted
//!     finish-N    it is finished, by so many polls at most
//!     abort-N     it is given up by the message `no`
//!     null-N      it is given up by a message with a zero byte
//!     leave       it is dropped
//!     out-N       a copy of so many rows to the client, of which the pieces are counted
//!     ping-N      a ping, by so many polls at most
//!
//! In place of these stands `idle` for five polls for a notification, and `owed` for the same behind a query that is polled once and dropped.
//!
//! What the link does: bytes in hexadecimal that a read gives, `wait`, `end`, `fail`; and of its writes `take` for one that takes all, and `block` for one that takes nothing yet.
//!
//! Told is each answer, of copies behind each call how far it came (groups, frames heard, waits and moves), and last the bytes that were sent.

mod acting;
mod news;
mod polling;
mod telling;

use case_tools::{connect_to, open};
use pg_conn::PgConnection;
use pg_stream::MemoryLink;
use pg_wire::Error;
use std::alloc::Global;
use std::net::{Net, TcpStream};
use std::random::RandomSource;
use telling::push_sent;

fn play(
    alloc: Global,
    conn: &mut PgConnection<MemoryLink>,
    acts: &str,
    told: &mut String,
) -> Result<(), Error> {
    match acts {
        "idle" | "owed" => news::play(alloc, conn, acts == "owed", told),
        acts => {
            acting::play(alloc, conn, acts, told)?;
            push_sent(told, conn);
            Ok(())
        }
    }
}

fn in_memory(alloc: Global, acts: &str, events: &str) -> Result<String, Error> {
    let mut conn = open(alloc, events)?;
    let mut told = String::new(alloc);
    let played = play(alloc, &mut conn, acts, &mut told);
    drop(conn);
    played?;
    Ok(told)
}

fn on_server<R>(rt: &R, alloc: Global, url: &str, acts: &str) -> Result<String, Error>
where
    R: Net<Stream = TcpStream> + RandomSource,
{
    let mut conn = connect_to(rt, alloc, url)?;
    let mut told = String::new(alloc);
    let played = acting::play(alloc, &mut conn, acts, &mut told);
    drop(conn);
    played?;
    Ok(told)
}

/// What comes of a case, on a connection to the server of this URL where there is one.
pub(crate) fn told<R>(rt: &R, alloc: Global, url: Option<&str>, case: &str) -> Result<String, Error>
where
    R: Net<Stream = TcpStream> + RandomSource,
{
    let (acts, events) = case.split_once(' ').unwrap_or((case, ""));
    match url {
        Some(url) => on_server(rt, alloc, url, acts),
        None => in_memory(alloc, acts, events),
    }
}
