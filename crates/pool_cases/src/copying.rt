//! Copies on a connection of a pool, each to its end or given up before it.
ghost use Rattle.std.specs.Prelude.{◌≡◌, false, IfSome};
ghost use Rattle.pg_conn.specs.Connections.{is_over};
ghost use Rattle.pg_conn.specs.Feeding.{IsFed};
ghost use Rattle.pg_copying.specs.Copies.{IsOpening};

use crate::opening::POLLS;
use pg_copying::{BeginCopyIn, PgCopyIn};
use pg_guards::CopyOut;
use pg_listen::PoolConnection;
use pg_stream::MemoryLink;
use pg_wire::Poll;

type Held = PoolConnection<MemoryLink>;

/// How far a copy goes.
#[derive(Clone, Copy)]
pub(crate) enum How {
    Whole,
    /// It is given up behind its first poll.
    Open,
    /// It is given up before that.
    Unpolled,
}

/// What a copy came to.
#[derive(Clone, Copy, Debug)]
pub(crate) enum End {
    /// The pool was full, by the entry at this place.
    TimedOut(u64),
    /// It was closed, by the entry at this place.
    Closed(u64),
    /// There was leave to make a connection, which was used.
    Made,
    /// So many rows were copied.
    Rows(u64),
    /// So many pieces came.
    Pieces(u64),
    Open,
    Unpolled,
    Failed,
}

fn finish(copy: PgCopyIn<Held>) -> (Held, End)
    requires open { IsFed copy.conn.conn }
    requires named { copy.conn.name ≡ 7 }
    ensures { result.0.name ≡ 7 }
{
    let mut state = copy.finish();
    let end = match state.poll() {
        Poll::Ready(Ok(rows)) => End::Rows(rows),
        Poll::Ready(Err(error)) => {
            drop(error);
            End::Failed
        }
        Poll::Pending => End::Failed,
    };
    (state.into_conn(), end)
}

// A copy from the client that is open.
fn use_open(copy: PgCopyIn<Held>, how: How) -> (Held, End)
    requires open { IsFed copy.conn.conn }
    requires named { copy.conn.name ≡ 7 }
    ensures { result.0.name ≡ 7 }
{
    match how {
        How::Whole => finish(copy),
        How::Open | How::Unpolled => (copy.into_conn(), End::Open),
    }
}

// Its first poll, and what comes behind it.
fn open(state: BeginCopyIn<Held>, how: How) -> (Option<Held>, End)
    requires calling { IsOpening (λ p. p.conn) state.request state.conn }
    requires named { IfSome state.conn (λ held. held.name ≡ 7) }
    ensures { IfSome result.0 (λ held. held.name ≡ 7) }
{
    let mut state = state;
    match state.poll() {
        Poll::Ready(Ok(copy)) => {
            match state.into_conn() {
                Some(_held) => unreachable!(),
                None => {}
            }
            let (held, end) = use_open(copy, how);
            (Some(held), end)
        }
        Poll::Ready(Err(error)) => {
            drop(error);
            (state.into_conn(), End::Failed)
        }
        Poll::Pending => (state.into_conn(), End::Failed),
    }
}

/// A copy from the client, without data.
pub(crate) fn copied_in(state: BeginCopyIn<Held>, how: How) -> (Option<Held>, End)
    requires calling { IsOpening (λ p. p.conn) state.request state.conn }
    requires named { IfSome state.conn (λ held. held.name ≡ 7) }
    ensures { IfSome result.0 (λ held. held.name ≡ 7) }
{
    match how {
        How::Whole | How::Open => open(state, how),
        How::Unpolled => (state.into_conn(), End::Unpolled),
    }
}

// Polls it so often at most.
fn give(state: CopyOut<Held>, polls: u32) -> (Held, End)
    requires over { is_over state.request state.conn.conn.call ≡ false }
    requires named { state.conn.name ≡ 7 }
    ensures { result.0.name ≡ 7 }
{
    let mut state = state;
    let mut pieces: u64 = 0;
    for _ in 0..polls {
        match state.poll_next() {
            Poll::Pending => {}
            Poll::Ready(Some(Ok(piece))) => {
                drop(piece);
                pieces = pieces.saturating_add(1);
            }
            Poll::Ready(Some(Err(error))) => {
                drop(error);
                return (state.into_conn(), End::Failed);
            }
            Poll::Ready(None) => return (state.into_conn(), End::Pieces(pieces)),
        }
    }
    (state.into_conn(), End::Open)
}

/// A copy to the client.
pub(crate) fn copied_out(state: CopyOut<Held>, how: How) -> (Held, End)
    requires over { is_over state.request state.conn.conn.call ≡ false }
    requires named { state.conn.name ≡ 7 }
    ensures { result.0.name ≡ 7 }
{
    match how {
        How::Whole => give(state, POLLS),
        How::Open => give(state, 1),
        How::Unpolled => (state.into_conn(), End::Unpolled),
    }
}
