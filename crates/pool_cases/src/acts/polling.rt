//! Each call by its own state: it is polled so often at most, and dropped.

ghost use Rattle.std.specs.Prelude.{◌≡◌, false};
ghost use Rattle.pg_conn.specs.Connections.{is_over};
ghost use Rattle.pg_conn.specs.Feeding.{IsFed};
ghost use Rattle.pg_copying.specs.Aborts.{IsAborting};
ghost use Rattle.pg_copying.specs.Copies.{HandsOpen, IsFinishing, IsOpening};

use pg_copying::{BeginCopyIn, CopyAbort, CopyFinish, PgCopyIn};
use pg_guards::{CopyOut, PgExecutor};
use pg_stream::Source;
use pg_wire::{Error, Poll};

type Answer<T> = Poll<Result<T, Error>>;

/// Polls a copy that begins.
pub(crate) fn open<C: PgExecutor + Drop>(
    mut state: BeginCopyIn<C>,
    polls: u64,
) -> Answer<PgCopyIn<C>>
    requires { IsOpening C.conn state.request state.conn }
    ensures { HandsOpen C.conn (λ copy. copy.conn) result }
{
    for _ in 0..polls {
        match state.poll() {
            Poll::Pending => {}
            answer => return answer,
        }
    }
    Poll::Pending
}

/// Polls one that is finished.
pub(crate) fn finish<C: PgExecutor + Drop>(mut state: CopyFinish<C>, polls: u64) -> Answer<u64>
    requires { IsFinishing state.is_ended (C.conn state.conn) }
{
    for _ in 0..polls {
        match state.poll() {
            Poll::Pending => {}
            answer => return answer,
        }
    }
    Poll::Pending
}

/// Polls one that is given up by a message.
pub(crate) fn abort<C: PgExecutor + Drop>(mut state: CopyAbort<C>, polls: u64) -> Answer<()>
    requires { IsAborting state.stage (C.conn state.conn) }
{
    for _ in 0..polls {
        match state.poll() {
            Poll::Pending => {}
            answer => return answer,
        }
    }
    Poll::Pending
}

/// Sends bytes to a copy.
pub(crate) fn send<C: PgExecutor>(copy: &mut PgCopyIn<C>, bytes: &[u8], polls: u64) -> Answer<()>
    requires { IsFed (C.conn copy.old.conn) }
    ensures { IsFed (C.conn copy.new.conn) }
{
    let mut state = copy.send(bytes);
    for _ in 0..polls {
        match state.poll() {
            Poll::Pending => {}
            answer => return answer,
        }
    }
    Poll::Pending
}

/// Sends what a source gives.
pub(crate) fn read<C: PgExecutor, S: Source>(
    copy: &mut PgCopyIn<C>,
    source: &mut S,
    polls: u64,
) -> Answer<()>
    requires { IsFed (C.conn copy.old.conn) }
    ensures { IsFed (C.conn copy.new.conn) }
{
    let mut state = copy.read_from(source);
    for _ in 0..polls {
        match state.poll() {
            Poll::Pending => {}
            answer => return answer,
        }
    }
    Poll::Pending
}

/// Polls a copy to the client, and counts its pieces.
pub(crate) fn copy_out<C: PgExecutor + Drop>(mut state: CopyOut<C>, polls: u64) -> Answer<u64>
    requires { is_over state.request (C.conn state.conn).call ≡ false }
{
    let mut pieces: u64 = 0;
    for _ in 0..polls {
        match state.poll_next() {
            Poll::Pending => {}
            Poll::Ready(Some(Ok(piece))) => {
                drop(piece);
                pieces = pieces.saturating_add(1);
            }
            Poll::Ready(Some(Err(error))) => return Poll::Ready(Err(error)),
            Poll::Ready(None) => return Poll::Ready(Ok(pieces)),
        }
    }
    Poll::Pending
}
