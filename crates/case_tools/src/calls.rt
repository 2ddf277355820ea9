//! Calls that are polled so often at most, and dropped.

use pg_conn::PgConnection;
use pg_stream::Link;
use pg_wire::{Error, Poll};

type Answer = Poll<Result<(), Error>>;

/// Polls a ping.
pub fn ping<L: Link>(conn: &mut PgConnection<L>, polls: u64) -> Answer {
    let mut state = conn.ping();
    for _ in 0..polls {
        match state.poll() {
            Poll::Pending => {}
            answer => return answer,
        }
    }
    Poll::Pending
}

/// Polls a flush.
pub fn flush<L: Link>(conn: &mut PgConnection<L>, polls: u64) -> Answer {
    let mut state = conn.flush();
    for _ in 0..polls {
        match state.poll() {
            Poll::Pending => {}
            answer => return answer,
        }
    }
    Poll::Pending
}
