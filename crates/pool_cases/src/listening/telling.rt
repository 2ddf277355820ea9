//! The words of answers. What there is no memory for is missing in what is printed.
use crate::listening::statements::push_columns;
use case_tools::{Shown, push_byte, push_error};
use pg_conn::PgRow;
use pg_listen::{PoolSeat, Released};
use pg_listening::{ConnectionSource, Listener, PgNotification};
use pg_wire::Error;
use std::sync::ledger::Ledger;

// What a client sends first.
const START: &[u8] =
    b"\x00\x00\x00\x65\x00\x03\x00\x00user\x00u\x00database\x00d\x00DateStyle\x00ISO, MDY\x00client_encoding\x00UTF8\x00TimeZone\x00UTC\x00extra_float_digits\x002\x00\x00";

/// A text.
pub(crate) fn push(out: &mut String, text: &str) {
    let _ = out.push_str(text);
}

/// A call that hasn't ended within its polls.
pub(crate) fn pending(out: &mut String) {
    push(out, " pending");
}

/// Why a call failed.
pub(crate) fn failed(out: &mut String, error: Error) {
    drop(push_error(out, &error));
    drop(error);
}

fn payload(out: &mut String, told: PgNotification) {
    push(out, " ");
    push(out, told.payload());
    drop(told);
}

/// What `try_recv` answers.
pub(crate) fn tried(out: &mut String, answer: Result<Option<PgNotification>, Error>) {
    match answer {
        Ok(Some(told)) => payload(out, told),
        Ok(None) => push(out, " none"),
        Err(error) => failed(out, error),
    }
}

/// What `recv` answers.
pub(crate) fn received(out: &mut String, answer: Result<PgNotification, Error>) {
    match answer {
        Ok(told) => payload(out, told),
        Err(error) => failed(out, error),
    }
}

/// What a stream answers.
pub(crate) fn streamed(out: &mut String, answer: Option<Result<PgNotification, Error>>) {
    match answer {
        Some(answer) => received(out, answer),
        None => push(out, " none"),
    }
}

/// What a change of the channels answers.
pub(crate) fn changed(out: &mut String, answer: Result<(), Error>) {
    match answer {
        Ok(()) => push(out, " ok"),
        Err(error) => failed(out, error),
    }
}

/// How many rows a query has given.
pub(crate) fn counted(out: &mut String, rows: u64) {
    let _ = write!(out, " rows {rows}");
}

/// The row of a query by its columns, or else by whether there is one.
pub(crate) fn shown(out: &mut String, answer: Result<Option<PgRow>, Error>, is_whole: bool) {
    match answer {
        Ok(Some(row)) => {
            if is_whole {
                push_columns(out, row.columns());
            } else {
                push(out, " row true");
            }
            drop(row);
        }
        Ok(None) => push(out, if is_whole { " no row" } else { " row false" }),
        Err(error) => failed(out, error),
    }
}

/// What was read before.
pub(crate) fn buffered(out: &mut String, told: Option<PgNotification>) {
    push(out, " (");
    if let Some(told) = &told {
        push(out, told.payload());
    }
    push(out, ")");
    drop(told);
}

// What a link has taken.
fn taken<L: Shown>(out: &mut String, link: &L) {
    push(out, " /");
    let taken = link.sent().unwrap_or(b"");
    let rest = match taken.strip_prefix(START) {
        Some(rest) => {
            push(out, " start-up");
            rest
        }
        None => taken,
    };
    if !rest.is_empty() {
        push(out, " ");
    }
    for byte in rest {
        drop(push_byte(out, *byte));
    }
}

/// What each of these links has taken.
pub(crate) fn lost<L: Shown>(out: &mut String, links: &[L]) {
    for link in links {
        taken(out, link);
    }
}

/// The same of links that are handed out.
pub(crate) fn taken_back<B: ConnectionSource>(out: &mut String, listener: &mut Listener<B>)
where
    B::L: Shown + Drop,
{
    let links = listener.take_lost();
    lost(out, links.as_slice());
    drop(links);
}

/// What became of the connection.
pub(crate) fn released<L: Shown + Drop>(out: &mut String, released: Option<Released<L>>) {
    match released {
        Some(Released::Closed(conn)) => {
            push(out, " closed");
            let link = conn.close_hard();
            taken(out, &link);
            drop(link);
        }
        Some(Released::Foreign(conn)) => {
            drop(conn);
            push(out, " foreign");
        }
        Some(Released::Kept) => push(out, " kept"),
        None => push(out, " none held"),
    }
}

/// What the pool has noted of a participant.
pub(crate) fn history<G: Ledger>(out: &mut String, seat: &PoolSeat<G>) {
    for receipt in seat.receipts() {
        let _ = write!(out, " {:?}", receipt.entry.act);
    }
}
