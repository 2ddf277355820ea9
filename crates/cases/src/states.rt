//! Cases of calls by their own states, which `top` never makes. The script is one of `top`: it says what the link does. A step is
//! polled once, or where it has more polls, to the end of its items.

use crate::calls::{Stand, close, keep, play_step, settled};
use crate::case::script;
use crate::guards::{give_up, transact};
use crate::holes::filled;
use crate::options::options;
use case_tools::entry;
use pg_conn::laws::at_statement;
use pg_conn::{PgConnection, establish};
use pg_options::PgConnectOptions;
use pg_script::{Script, Step, read_script};
use pg_stream::MemoryLink;
use pg_wire::{Poll, Sequence};
use std::alloc::{AllocError, Global};
use std::fmt::Write;
use std::mem;

type Connection = PgConnection<MemoryLink>;

fn ready(answer: Poll<Option<Connection>>) -> Option<Connection> {
    match answer {
        Poll::Ready(conn) => conn,
        Poll::Pending => None,
    }
}

fn start(alloc: Global, options: &PgConnectOptions, link: MemoryLink) -> Option<Connection> {
    match establish(alloc, options, b"n", link) {
        Ok(mut start) => {
            let conn = ready(settled(start.poll()));
            drop(start);
            conn
        }
        Err((error, link)) => {
            drop(error);
            drop(link);
            None
        }
    }
}

// A connection over the link, whose start-up ends with its first poll.
fn connect(alloc: Global, url: &str, link: MemoryLink) -> Option<Connection> {
    match options(alloc, url) {
        Ok(options) => {
            let conn = start(alloc, &options, link);
            drop(options);
            conn
        }
        Err(error) => {
            drop(error);
            drop(link);
            None
        }
    }
}

fn push_stand(told: &mut String, stand: Stand) -> Result<(), AllocError> {
    match stand {
        Stand::Waits => told.push_str("waits\n"),
        Stand::Shows(rows) => write!(told, "shows {rows}\n"),
        Stand::Ends(rows) => write!(told, "ends {rows}\n"),
        Stand::NoNumber => told.push_str("no number\n"),
        Stand::Fails => told.push_str("fails\n"),
    }
}

// Plays a step with such arguments.
fn play_filled(alloc: Global, conn: &mut Connection, step: Step, names: &str) -> Stand {
    let Step { call, polls, most } = step;
    match filled(alloc, call, names) {
        Some(call) => play_step(alloc, conn, Step { call, polls, most }),
        None => Stand::Fails,
    }
}

fn play_steps(
    alloc: Global,
    conn: &mut Connection,
    case: &str,
    steps: Vec<Step>,
    told: &mut String,
) -> Result<(), AllocError> {
    let mut rest = entry(case, "holes");
    for step in steps {
        let stand = match rest {
            Some(holes) => {
                let (names, later) = holes.split_once('/').unwrap_or((holes, holes));
                rest = Some(later);
                play_filled(alloc, conn, step, names)
            }
            None => play_step(alloc, conn, step),
        };
        push_stand(told, stand)?;
    }
    Ok(())
}

// Closes a connection where a transaction on it has come to its end.
fn close_where(conn: Connection, is_so: bool, last: &[u8]) -> Stand {
    if is_so {
        close(conn, last)
    } else {
        drop(conn);
        Stand::Fails
    }
}

fn drop_savepoint(mut conn: Connection) -> Stand {
    let is_so = matches!(transact(&mut conn), Stand::Ends(2));
    let last =
        b"Q\x00\x00\x00\x2cROLLBACK TO SAVEPOINT _sqlx_savepoint_1\x00Q\x00\x00\x00\x0bCOMMIT\x00X\x00\x00\x00\x04";
    close_where(conn, is_so, last)
}

fn drop_commit(mut conn: Connection) -> Stand {
    let is_so = matches!(give_up(&mut conn), Stand::Waits);
    let last =
        b"Q\x00\x00\x00\x0aBEGIN\x00Q\x00\x00\x00\x0bCOMMIT\x00Q\x00\x00\x00\x0dROLLBACK\x00X\x00\x00\x00\x04";
    close_where(conn, is_so, last)
}

fn close_behind_the_last_number(conn: Connection) -> Stand {
    let last =
        b"P\x00\x00\x00\x1asqlx_s_4294967295\x00a\x00\x00\x00D\x00\x00\x00\x17Ssqlx_s_4294967295\x00S\x00\x00\x00\x04X\x00\x00\x00\x04";
    close(conn, last)
}

// Closes a connection, and tells what was sent behind its start-up, whose message says its own length.
fn tell_sent(alloc: Global, conn: Connection, told: &mut String) -> Result<(), AllocError> {
    let mut call = conn.close();
    let answer = settled(call.poll());
    drop(call);
    match answer {
        Poll::Ready(Some(link)) => {
            let sent = behind_start(alloc, link.taken());
            drop(link);
            write!(told, "sent {}\n", sent?)
        }
        Poll::Ready(None) | Poll::Pending => told.push_str("fails\n"),
    }
}

fn behind_start(alloc: Global, taken: &[u8]) -> Result<String, AllocError> {
    match taken {
        [0, 0, 0, length, ..] => hex::encode(alloc, taken.get(*length as usize..).unwrap_or(&[])),
        _ => Ok(String::new(alloc)),
    }
}

// What is done with a connection behind its steps.
fn leave(conn: Connection, case: &str) -> Option<Stand> {
    match entry(case, "then") {
        Some("close") => Some(close(conn, b"X\x00\x00\x00\x04")),
        Some("close behind the last number") => Some(close_behind_the_last_number(conn)),
        Some("drop a savepoint") => Some(drop_savepoint(conn)),
        Some("drop a commit") => Some(drop_commit(conn)),
        Some(_) => Some(keep(conn)),
        None => {
            drop(conn);
            None
        }
    }
}

fn play_over(
    alloc: Global,
    mut conn: Connection,
    case: &str,
    steps: Vec<Step>,
    told: &mut String,
) -> Result<(), AllocError> {
    let played = play_steps(alloc, &mut conn, case, steps, told);
    if let Some("tell") = entry(case, "then") {
        return tell_sent(alloc, conn, told);
    }
    match leave(conn, case) {
        Some(stand) => push_stand(told, stand),
        None => played,
    }
}

// Where the case says so, the connection gives its last number next.
fn numbered(conn: Connection, case: &str) -> Connection {
    match entry(case, "next") {
        Some(_) => at_statement(conn, u32::MAX),
        None => conn,
    }
}

fn url(case: &str) -> &str {
    entry(case, "url").unwrap_or("postgres://u@h")
}

// The link that a script says.
fn link(alloc: Global, script: &mut Script) -> MemoryLink {
    let reads = mem::replace(&mut script.events, Sequence::new(alloc));
    let writes = mem::replace(&mut script.writes, Sequence::new(alloc));
    MemoryLink::new(alloc, reads, writes, false, false)
}

fn play_script(
    alloc: Global,
    case: &str,
    mut script: Script,
    told: &mut String,
) -> Result<(), AllocError> {
    let link = link(alloc, &mut script);
    let steps = mem::replace(&mut script.steps, Sequence::new(alloc)).into_vec();
    drop(script);
    match connect(alloc, url(case), link) {
        Some(conn) => play_over(alloc, numbered(conn, case), case, steps, told),
        None => {
            drop(steps);
            Ok(())
        }
    }
}

/// Plays a script by the states of calls, and tells how each call stood when it was dropped.
pub(crate) fn play_states(alloc: Global, case: &str, told: &mut String) -> Result<(), AllocError> {
    let text = script(alloc, case)?;
    match read_script(alloc, text.as_bytes()) {
        Ok(script) => play_script(alloc, case, script, told),
        Err(_) => Ok(()),
    }
}
