//! What is written of answers. What there is no memory for is missing in what is printed.

use case_tools::{push_error, sent};
use pg_conn::PgConnection;
use pg_copying::PgCopyIn;
use pg_guards::PgExecutor;
use pg_stream::MemoryLink;
use pg_wire::{Error, Poll};
use std::fmt::Write;

/// A text.
pub(crate) fn push(out: &mut String, text: &str) {
    let _ = out.push_str(text);
}

/// Why a call failed.
pub(crate) fn push_failure(out: &mut String, error: &Error) {
    drop(push_error(out, error));
}

/// What a call has come to that answers by this word.
pub(crate) fn push_answer(out: &mut String, word: &str, answer: &Poll<Result<(), Error>>) {
    match answer {
        Poll::Pending => push(out, " pending"),
        Poll::Ready(Ok(())) => {
            push(out, " ");
            push(out, word);
        }
        Poll::Ready(Err(error)) => push_failure(out, error),
    }
}

/// What one has come to that answers how many there are.
pub(crate) fn push_number(out: &mut String, word: &str, answer: &Poll<Result<u64, Error>>) {
    match answer {
        Poll::Pending => push(out, " pending"),
        Poll::Ready(Ok(number)) => {
            let _ = write!(out, " {word}({number})");
        }
        Poll::Ready(Err(error)) => push_failure(out, error),
    }
}

/// How the data of a copy is formatted, as a whole and by columns.
pub(crate) fn push_formats<C: PgExecutor>(out: &mut String, copy: &PgCopyIn<C>) {
    push(
        out,
        if copy.is_textual() {
            " text("
        } else {
            " binary("
        },
    );
    for column in 0..copy.num_columns() {
        let text = copy.column_is_textual(column);
        push(out, if text { "t" } else { "b" });
    }
    push(out, ")");
}

/// How far the last call has come.
pub(crate) fn push_progress<L>(out: &mut String, conn: &PgConnection<L>) {
    let progress = conn.progress();
    let _ = write!(
        out,
        " [{} {} {} {}]",
        progress.groups, progress.heard, progress.waits, progress.moved
    );
}

/// The bytes that were sent behind the start-up.
pub(crate) fn push_sent(out: &mut String, conn: &PgConnection<MemoryLink>) {
    push(out, " | ");
    for byte in sent(conn) {
        let _ = write!(out, "{byte:02x}");
    }
}
