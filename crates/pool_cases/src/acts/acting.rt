//! What is done on a connection, one behind the other.

ghost use Rattle.pg_conn.specs.Feeding.{IsFed};

use crate::acts::polling;
use crate::acts::telling::{
    push, push_answer, push_failure, push_formats, push_number, push_progress,
};
use pg_conn::PgConnection;
use pg_copying::{PgCopyIn, copy_in_raw};
use pg_guards::{PgExecutor, copy_out_raw};
use pg_stream::{Link, MemorySource};
use pg_wire::{Blob, Poll, Sequence, Text};
use std::alloc::{AllocError, Global};
use std::fmt::Write;

// The most that is done in a row.
const MOST: usize = 1000;

// The polls of what is not to be polled once alone. One that waits does so for the socket's own timeout.
const POLLS: u64 = 1000;

// The first word, what it takes, and the words behind it.
fn first(acts: &str) -> (&str, &str, &str) {
    let (word, rest) = acts.split_once(',').unwrap_or((acts, ""));
    let (word, argument) = word.split_once('-').unwrap_or((word, ""));
    (word, argument, rest)
}

fn number(argument: &str) -> u64 {
    argument.parse::<u64>().unwrap_or(1)
}

fn bytes(alloc: Global, digits: &str) -> Vec<u8> {
    hex::decode(alloc, digits).unwrap_or(Vec::new(alloc))
}

// The source of this word: it gives the bytes three at a time, or as many as it is asked for, and may fail behind the first three.
fn source(alloc: Global, word: &str, digits: &str) -> Result<MemorySource, AllocError> {
    let mut failing = Sequence::new(alloc);
    if word == "fail" {
        failing.push(2)?;
    }
    let most = if word == "pipe" { usize::MAX } else { 3 };
    Ok(MemorySource::new(Blob::from_vec(bytes(alloc, digits)), most, failing))
}

fn feeds(word: &str) -> bool {
    matches!(word, "tell" | "send" | "push" | "read" | "pipe" | "fail")
}

// How often what feeds a copy is polled.
fn feed_polls(word: &str) -> u64 {
    if matches!(word, "push" | "pipe") {
        POLLS
    } else {
        1
    }
}

// What is done with a copy that is open and stays so.
fn feed<C: PgExecutor>(
    alloc: Global,
    copy: &mut PgCopyIn<C>,
    word: &str,
    argument: &str,
    out: &mut String,
) -> Result<(), AllocError>
    requires { IsFed (C.conn copy.old.conn) }
    ensures { IsFed (C.conn copy.new.conn) }
{
    let polls = feed_polls(word);
    match word {
        "tell" => push_formats(out, copy),
        "send" | "push" => {
            let answer = polling::send(copy, &bytes(alloc, argument), polls);
            push_answer(out, "sent", &answer);
            drop(answer);
        }
        _ => {
            let mut source = source(alloc, word, argument)?;
            let answer = polling::read(copy, &mut source, polls);
            push_answer(out, "read", &answer);
            drop(answer);
        }
    }
    Ok(())
}

// How it is ended.
fn end<C: PgExecutor + Drop>(
    alloc: Global,
    copy: PgCopyIn<C>,
    word: &str,
    argument: &str,
    out: &mut String,
) -> Result<(), AllocError>
    requires { IsFed (C.conn copy.conn) }
{
    let polls = number(argument);
    let message = Text::from_str(alloc, if word == "null" { "\0" } else { "no" })?;
    match word {
        "finish" => {
            let answer = polling::finish(copy.finish(), polls);
            push_number(out, "rows", &answer);
            drop(answer);
        }
        "abort" | "null" => {
            let answer = polling::abort(copy.abort(message), polls);
            push_answer(out, "aborted", &answer);
            drop(answer);
        }
        _ => drop(copy),
    }
    Ok(())
}

// What is done with a copy up to its end, and what is to be done behind that.
fn spend<'t, C: PgExecutor + Drop>(
    alloc: Global,
    mut copy: PgCopyIn<C>,
    mut acts: &'t str,
    out: &mut String,
) -> Result<&'t str, AllocError>
    requires { IsFed (C.conn copy.conn) }
{
    push(out, " open");
    for _ in 0..MOST {
        let (word, argument, rest) = first(acts);
        acts = rest;
        if !feeds(word) {
            end(alloc, copy, word, argument, out)?;
            return Ok(acts);
        }
        feed(alloc, &mut copy, word, argument, out)?;
    }
    drop(copy);
    Ok(acts)
}

fn copy<'t, C: PgExecutor>(
    alloc: Global,
    conn: &mut C,
    polls: u64,
    acts: &'t str,
    out: &mut String,
) -> Result<&'t str, AllocError> {
    let statement = Text::from_str(alloc, "COPY t FROM STDIN")?;
    match polling::open(copy_in_raw(conn, statement), polls) {
        Poll::Ready(Ok(copy)) => spend(alloc, copy, acts, out),
        Poll::Ready(Err(error)) => {
            push_failure(out, &error);
            drop(error);
            Ok(acts)
        }
        Poll::Pending => {
            push(out, " pending");
            Ok(acts)
        }
    }
}

// A copy of so many rows to the client.
fn copy_out<C: PgExecutor>(alloc: Global, conn: &mut C, rows: u64, out: &mut String) {
    let mut statement = String::new(alloc);
    let _ = write!(
        statement,
        "COPY (SELECT generate_series(1, {rows})) TO STDOUT"
    );
    let state = copy_out_raw(conn, Text::from_string(statement));
    let answer = polling::copy_out(state, rows.saturating_add(POLLS));
    push_number(out, "pieces", &answer);
    drop(answer);
}

fn ping<L: Link>(conn: &mut PgConnection<L>, polls: u64, out: &mut String) {
    let answer = case_tools::ping(conn, polls);
    push_answer(out, "ok", &answer);
    drop(answer);
}

// The next call, and what is to be done behind it.
fn step<'t, C: PgExecutor>(
    alloc: Global,
    conn: &mut C,
    acts: &'t str,
    out: &mut String,
) -> Result<&'t str, AllocError> {
    let (word, argument, mut rest) = first(acts);
    let number = number(argument);
    match word {
        "copy" => rest = copy(alloc, conn, number, rest, out)?,
        "out" => copy_out(alloc, conn, number, out),
        "ping" => ping(conn.conn_mut(), number, out),
        _ => return Ok(rest),
    }
    push_progress(out, conn.conn_ref());
    Ok(rest)
}

/// All of it.
pub(crate) fn play<C: PgExecutor>(
    alloc: Global,
    conn: &mut C,
    acts: &str,
    out: &mut String,
) -> Result<(), AllocError> {
    let mut rest = acts;
    for _ in 0..MOST {
        if rest.is_empty() {
            break;
        }
        rest = step(alloc, conn, rest, out)?;
    }
    Ok(())
}
