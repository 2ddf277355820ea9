//! The queries of a listener.
ghost use Rattle.std.specs.Prelude.{◌≡◌, false};

use crate::listening::calls::{POLLS, SQL};
use crate::listening::telling::{counted, failed, pending, shown};
use either::Either;
use pg_conn::{PgQueryResult, PgRow, Query};
use pg_listening::{ConnectionSource, Listener};
use pg_wire::{Poll, Text};
use std::alloc::Global;
use std::sync::Wait;

// The query of a call, by a statement that is kept or not. Where there is no memory for it, an empty one is asked, and answers otherwise.
fn query(alloc: Global, is_kept: bool) -> Query {
    let query = if is_kept {
        Query::new(alloc, SQL)
    } else {
        Query::raw(alloc, SQL)
    };
    match query {
        Ok(query) => query,
        Err(error) => {
            drop(error);
            Query::from_text(Text::new(alloc))
        }
    }
}

/// The first row of a query, by the columns of a statement that is kept, or else by whether there is one.
pub(crate) fn fetch_optional<B, R>(
    rt: &R,
    alloc: Global,
    out: &mut String,
    listener: &mut Listener<B>,
    is_kept: bool,
)
where
    B: ConnectionSource,
    B::L: Drop,
    R: Wait,
{
    let mut state = listener.fetch_optional(query(alloc, is_kept));
    match state.poll(rt) {
        Poll::Pending => pending(out),
        Poll::Ready(answer) => shown(out, answer, is_kept),
    }
}

// How many rows an item is.
fn rows_of(item: Either<PgQueryResult, PgRow>) -> u64 {
    match item {
        Either::Right(row) => {
            drop(row);
            1
        }
        Either::Left(_) => 0,
    }
}

/// How many rows a query gives.
pub(crate) fn fetch_many<B, R>(rt: &R, alloc: Global, out: &mut String, listener: &mut Listener<B>)
where
    B: ConnectionSource,
    B::L: Drop,
    R: Wait,
{
    let mut rows: u64 = 0;
    let mut state = listener.fetch_many(query(alloc, false));
    for _ in 0..POLLS {
        match state.poll_next(rt) {
            Poll::Pending => {}
            Poll::Ready(Some(Ok(item))) => rows = rows.saturating_add(rows_of(item)),
            Poll::Ready(Some(Err(error))) => return failed(out, error),
            Poll::Ready(None) => return counted(out, rows),
        }
    }
    pending(out);
}
