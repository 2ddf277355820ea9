//! What the answers behind a preparation tell of its statement, whoever asks for them.
ghost use Rattle.pg_describe.specs.Describing.{FitsNulls, HearsTurn, TellsNulls};

use crate::Describe;
use crate::flags::read_flags;
use pg_call::Turn;
use pg_conn::{PgRow, PgStatement};
use pg_wire::{Error, Poll, Sequence};
use std::alloc::Global;

// The whole of a statement, and of the rows that tell of its columns.
fn described(
    alloc: Global,
    statement: PgStatement,
    rows: Sequence<PgRow>,
) -> Result<Describe, Error>
    ensures { TellsNulls statement rows result }
{
    match read_flags(alloc, rows.as_slice()) {
        Ok(nullable) => Ok(Describe::new(statement, nullable)),
        Err(e) => Err(e),
    }
}

/// What a poll of the query on nulls has come to. Where it waits, the statement is handed back.
pub fn hear(
    alloc: Global,
    statement: PgStatement,
    answer: Poll<Turn>,
) -> (Poll<Result<Describe, Error>>, Option<PgStatement>)
    requires { FitsNulls answer }
    ensures { HearsTurn statement answer result.0 result.1 }
{
    match answer {
        Poll::Pending => (Poll::Pending, Some(statement)),
        Poll::Ready(turn) => match turn.into_rows() {
            Ok(rows) => (Poll::Ready(described(alloc, statement, rows)), None),
            Err(e) => {
                drop(statement);
                (Poll::Ready(Err(e)), None)
            }
        },
    }
}
