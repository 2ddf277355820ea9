//! What is written of answers, and what was sent. What there is no memory for is missing in what is printed.

use case_tools::{push_byte, word};
use pg_migrate::{AppliedMigration, MigrateError};
use pg_wire::{Error, Poll};
use std::fmt::Write;

/// What a call answers, or why it failed, as a line is written of it.
pub(crate) trait Told: Drop {
    fn push(&self, out: &mut String);
}

/// Writes a text.
pub(crate) fn push(out: &mut String, text: &str) {
    let _ = out.push_str(text);
}

impl Told for () {
    fn push(&self, out: &mut String) {
        push(out, "ok\n");
    }
}

impl Told for u64 {
    fn push(&self, out: &mut String) {
        let _ = write!(out, "ok {self}\n");
    }
}

impl Told for bool {
    fn push(&self, out: &mut String) {
        let _ = write!(out, "ok {self}\n");
    }
}

impl Told for Option<i64> {
    fn push(&self, out: &mut String) {
        match self {
            None => push(out, "ok none\n"),
            Some(version) => {
                let _ = write!(out, "ok {version}\n");
            }
        }
    }
}

fn push_applied(one: &AppliedMigration, out: &mut String) {
    let _ = write!(out, " {}:", one.version);
    for byte in one.checksum.as_bytes() {
        drop(push_byte(out, *byte));
    }
}

impl Told for Vec<AppliedMigration> {
    fn push(&self, out: &mut String) {
        push(out, "ok");
        for one in self.as_slice() {
            push_applied(one, out);
        }
        push(out, "\n");
    }
}

impl Told for Error {
    fn push(&self, out: &mut String) {
        let _ = match self {
            Error::Database(error) => write!(out, "Database {}\n", error.code()),
            error => write!(out, "{error:?}\n"),
        };
    }
}

// Why a call of a migration failed, in a word.
fn word_of(error: &Error) -> &'static str {
    match error {
        Error::ColumnDecode { .. } => "Decode",
        error => word(error),
    }
}

impl Told for MigrateError {
    fn push(&self, out: &mut String) {
        let _ = match self {
            MigrateError::Execute(error) => write!(out, "Execute {}\n", word_of(error)),
            MigrateError::ExecuteMigration(error, version) => {
                write!(out, "ExecuteMigration {} {version}\n", word_of(error))
            }
        };
    }
}

/// The word of a call.
pub(crate) fn push_word(out: &mut String, word: &str) {
    push(out, "  ");
    push(out, word);
    push(out, ": ");
}

fn push_answer<T: Told, E: Told>(out: &mut String, answer: &Poll<Result<T, E>>) {
    match answer {
        Poll::Pending => push(out, "waits\n"),
        Poll::Ready(Ok(value)) => value.push(out),
        Poll::Ready(Err(error)) => error.push(out),
    }
}

/// A line of a call and its answer.
pub(crate) fn push_call<T: Told, E: Told>(
    out: &mut String,
    word: &str,
    answer: Poll<Result<T, E>>,
) {
    push_word(out, word);
    push_answer(out, &answer);
    drop(answer);
}

/// The same of a call that waits still.
pub(crate) fn push_waits(out: &mut String, word: &str) {
    push_word(out, word);
    push(out, "waits\n");
}
