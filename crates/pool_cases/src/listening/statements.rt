//! Statements that a listener prepares and describes, and what is told of them.
ghost use Rattle.std.specs.Prelude.{◌≡◌};

use crate::listening::calls::SQL;
use crate::listening::telling::{failed, pending, push};
use pg_conn::{ColumnOrigin, PgColumn, PgStatement, Preparation};
use pg_listening::{ConnectionSource, Describe, Listener};
use pg_wire::{Error, Poll, Text};
use std::alloc::Global;
use std::sync::Wait;

// The statement of a call. Where there is no memory for it, an empty one is asked, and answers otherwise.
fn statement(alloc: Global) -> Text {
    match Text::from_str(alloc, SQL) {
        Ok(text) => text,
        Err(_) => Text::new(alloc),
    }
}

/// Prepares a statement.
pub(crate) fn prepare<B, R>(rt: &R, alloc: Global, out: &mut String, listener: &mut Listener<B>)
where
    B: ConnectionSource,
    B::L: Drop,
    R: Wait,
{
    let preparation = Preparation::untyped(alloc, statement(alloc));
    let mut state = listener.prepare_with(preparation);
    match state.poll(rt) {
        Poll::Pending => pending(out),
        Poll::Ready(answer) => prepared(out, answer),
    }
}

/// Describes a statement in full.
pub(crate) fn describe<B, R>(rt: &R, alloc: Global, out: &mut String, listener: &mut Listener<B>)
where
    B: ConnectionSource,
    B::L: Drop,
    R: Wait,
{
    let mut state = listener.describe(statement(alloc));
    match state.poll(rt) {
        Poll::Pending => pending(out),
        Poll::Ready(answer) => described(out, answer),
    }
}

// Where a column comes from.
fn push_origin(out: &mut String, origin: &ColumnOrigin) {
    match origin {
        ColumnOrigin::Unknown => push(out, "=?"),
        ColumnOrigin::Expression => {}
        ColumnOrigin::Table(of) => {
            let _ = write!(out, "={}.{}", of.table.as_str(), of.name.as_str());
        }
    }
}

/// How many columns there are, and each by its name, its type and where it comes from.
pub(crate) fn push_columns(out: &mut String, columns: &[PgColumn]) {
    let _ = write!(out, " columns {}", columns.len());
    for column in columns {
        let _ = write!(out, " {}:{}", column.name(), column.type_info().name());
        push_origin(out, column.origin());
    }
}

// A statement, by how many parameters it has, and by its columns.
fn prepared(out: &mut String, answer: Result<PgStatement, Error>) {
    match answer {
        Ok(told) => {
            let _ = write!(out, " parameters {}", told.parameter_oids().len());
            push_columns(out, told.columns());
            drop(told);
        }
        Err(error) => failed(out, error),
    }
}

// Whether a column may be null.
fn nullable(flag: Option<bool>) -> &'static str {
    match flag {
        Some(true) => " nullable",
        Some(false) => " never-null",
        None => " unknown",
    }
}

// A statement that is described in full, by its columns and by whether each may be null.
fn described(out: &mut String, answer: Result<Describe, Error>) {
    match answer {
        Ok(told) => {
            push_columns(out, told.columns());
            for flag in told.nullable() {
                push(out, nullable(*flag));
            }
            drop(told);
        }
        Err(error) => failed(out, error),
    }
}
