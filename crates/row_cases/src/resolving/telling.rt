//! What is written of an answer of the resolver.

use crate::telling::{push, push_number, push_quoted};
use pg_wire::{CallerFault, Error, Oid, ProtocolFault, Text};

/// A number, or a minus where there is none.
pub fn push_oid(told: &mut String, oid: Option<Oid>) {
    match oid {
        Some(oid) => push_number(told, u64::from(oid.0)),
        None => push(told, "-"),
    }
}

fn push_types(told: &mut String, oids: &[Oid]) {
    push(told, "types");
    for oid in oids {
        push(told, " ");
        push_number(told, u64::from(oid.0));
    }
}

/// Why nothing came of a case.
pub fn push_error(told: &mut String, error: Error) {
    match &error {
        Error::Protocol(ProtocolFault::Types { oids }) => push_types(told, oids.as_slice()),
        Error::Protocol(ProtocolFault::Caller(CallerFault::TooMany { count })) => {
            push(told, "too many ");
            push_number(told, *count as u64);
        }
        Error::ColumnDecode { index } => {
            push(told, "column ");
            push_number(told, *index as u64);
        }
        _ => push(told, "another error"),
    }
    drop(error);
}

fn push_first(told: &mut String, first: &Option<Text>, is_last: bool) {
    let text = match first {
        Some(text) => text.as_str(),
        None => "",
    };
    push_quoted(told, text);
    push(told, if is_last { " true" } else { " false" });
}

/// A text between quotes and whether it is the last, of what is asked in parts.
pub fn push_asked(told: &mut String, asked: Result<(Option<Text>, bool), Error>) {
    match asked {
        Ok(asked) => {
            push_first(told, &asked.0, asked.1);
            drop(asked);
        }
        Err(error) => push_error(told, error),
    }
}

/// How it ended.
pub fn push_end(told: &mut String, end: Result<(), Error>) {
    match end {
        Ok(()) => push(told, "ok"),
        Err(error) => push_error(told, error),
    }
}
