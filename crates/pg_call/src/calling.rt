use crate::{CallAnswer, CallItem, Reply, Request, Waiting};
use pg_wire::{CopyResponseData, Error};

/// How far the running call has come.
///
/// | State | Next |
/// |---|---|
/// | `Idle` | `Asked` by a start |
/// | `Asked` | `Waiting` once its frames are written; ends where no frame can say it |
/// | `Waiting` | drops what is owed to earlier calls; then a flush ends once all is sent, a close queues its frame: `Closing`, and others theirs: `Own` |
/// | `Own` | takes its own reply, message by message, up to ReadyForQuery or an error |
/// | `Closing` | ends once all is sent |
#[derive(Drop)]
pub enum Call {
    Idle,
    /// It was not polled yet.
    Asked(Request),
    /// Its frames are written and wait for the replies that are owed to earlier calls.
    Waiting(Waiting),
    /// Its own reply comes.
    Own(Reply),
    /// Its last frame is queued.
    Closing,
}

/// One step of the running call within a poll.
#[derive(Drop)]
pub enum Beat {
    /// The call goes on.
    More,
    /// The link has to be asked again later.
    Waits,
    Yields(CallItem),
    /// The server awaits the data of a copy from the client.
    Opens(CopyResponseData),
    Ends(Result<CallAnswer, Error>),
    /// The exchange has ended, and this is asked next, of the same connection: the call isn't over yet.
    HandsOn(Request),
}

/// What a message made of the call, and whether a CopyFail is due for it.
#[derive(Drop)]
pub struct Taken {
    pub beat: Beat,
    pub fails_copy: bool,
}
