//! Polls for a notification, and what they answer.

use crate::acts::telling::{push, push_failure};
use pg_conn::{PgConnection, Query};
use pg_stream::MemoryLink;
use pg_wire::{Error, Notification, Poll};
use std::alloc::Global;

// A query is polled once, and dropped.
fn drop_query(alloc: Global, conn: &mut PgConnection<MemoryLink>) -> Result<(), Error> {
    let query = Query::raw(alloc, "SELECT")?;
    let mut call = conn.execute(query);
    let answer = call.poll();
    drop(answer);
    Ok(())
}

fn push_answer(out: &mut String, answer: &Poll<Result<Notification, Error>>) {
    match answer {
        Poll::Pending => push(out, " pending"),
        Poll::Ready(Ok(notification)) => {
            push(out, " ");
            push(out, notification.payload.as_str());
        }
        Poll::Ready(Err(error)) => push_failure(out, error),
    }
}

// Polls five times, and tells what came.
fn answers(conn: &mut PgConnection<MemoryLink>, out: &mut String) {
    conn.set_notifications(true);
    for _ in 0..5 {
        let answer = conn.poll_notification();
        push_answer(out, &answer);
        drop(answer);
    }
}

/// The answers of five polls, perhaps behind a query that is polled once and dropped.
pub(crate) fn play(
    alloc: Global,
    conn: &mut PgConnection<MemoryLink>,
    is_owed: bool,
    out: &mut String,
) -> Result<(), Error> {
    if is_owed {
        drop_query(alloc, conn)?;
    }
    answers(conn, out);
    Ok(())
}
