//! Data of a copy from the client, queued and sent in pieces on a connection. (PostgreSQL manual, "Message Formats", CopyData.)
ghost use Rattle.std.specs.Prelude.{◌≡◌, ◌<◌, ◌≤◌, length, OnErr, IfErr, IfOk};
ghost use Rattle.pg_conn.specs.Connections.{begun, seen_by};
ghost use Rattle.pg_copying.specs.Feeds.{PollsSending, QueuesPiece, ReadsOn, ReadsPiece, SendsRest};

use pg_conn::PgConnection;
use pg_stream::{Link, Source, SourceRead};
use pg_wire::{Error, IoCause, Poll};

/// The most bytes that one message of data carries.
pub const PG_COPY_MAX_DATA_LEN: usize = 1073741818;

// The most bytes that are read of a source at once.
const SOURCE_PIECE: usize = 8192;

// The most pieces that are read of a source in a poll: each takes a call of the link, of which a poll has no more.
const MOST_PIECES: u16 = 256;

// Queues the first of these bytes as one piece, and answers how many they are.
fn queue_piece<L>(conn: &mut PgConnection<L>, rest: &[u8]) -> Result<usize, Error>
    requires { 0 < length rest.now }
    ensures ok { IfOk result (QueuesPiece conn.old conn.new rest.now) }
    ensures err { OnErr result (conn.new ≡ conn.old) }
    ensures cause { IfErr result (λ e. e ≡ Error.OutOfMemory) }
{
    let size = rest.len().min(PG_COPY_MAX_DATA_LEN);
    conn.feed(&rest[..size])?;
    Ok(size)
}

// Sends what is queued, and then these bytes, each piece before the next is queued, with the calls of the link that are left. It answers how many of them it has queued.
fn send_rest<L: Link>(conn: &mut PgConnection<L>, rest: &[u8]) -> (usize, Poll<Result<(), Error>>)
    ensures { SendsRest (seen_by L.seen conn.old) (seen_by L.seen conn.new) rest.now result.0 result.1 }
{
    let mut queued = 0;
    loop {
        match conn.poll_fed_more() {
            Poll::Ready(Ok(())) => {}
            Poll::Ready(Err(e)) => return (queued, Poll::Ready(Err(e))),
            Poll::Pending => return (queued, Poll::Pending),
        }
        if queued == rest.len() {
            return (queued, Poll::Ready(Ok(())));
        }
        match queue_piece(conn, &rest[queued..]) {
            Ok(size) => queued += size,
            Err(e) => return (queued, Poll::Ready(Err(e))),
        }
    }
}

/// One poll that sends these bytes, of which so many were queued before, and how many of them are queued behind it. Where there are none it does nothing.
pub(crate) fn poll_send<L: Link>(
    conn: &mut PgConnection<L>,
    bytes: &[u8],
    queued: usize,
) -> (usize, Poll<Result<(), Error>>)
    requires { queued ≤ length bytes.now }
    ensures { PollsSending L.seen conn.old conn.new bytes.now queued result.0 result.1 }
{
    if bytes.is_empty() {
        return (queued, Poll::Ready(Ok(())));
    }
    conn.begin_feeding();
    let (more, answer) = send_rest(conn, &bytes[queued..]);
    (queued + more, answer)
}

// Reads a source once, and queues what it gave as one piece. It answers whether it gave some: it has said its end where it has not.
fn read_piece<L, S: Source>(conn: &mut PgConnection<L>, source: &mut S) -> Result<bool, Error>
    ensures { ReadsPiece conn.old conn.new (S.seen source.old) (S.seen source.new) result }
{
    let mut buffer = [0; SOURCE_PIECE];
    match source.read(&mut buffer) {
        SourceRead::End => Ok(false),
        SourceRead::Failed => Err(Error::Io(IoCause::Source)),
        SourceRead::Moved(count) => match conn.feed(&buffer[..count]) {
            Ok(()) => Ok(true),
            Err(e) => Err(e),
        },
    }
}

// Sends what is queued, and then what a source gives, up to its end: each piece before the next is read, with the calls of the link that are left.
fn read_on<L: Link, S: Source>(
    conn: &mut PgConnection<L>,
    source: &mut S,
) -> Poll<Result<(), Error>>
    ensures { ReadsOn (seen_by L.seen conn.old) (seen_by L.seen conn.new) (S.seen source.old) (S.seen source.new) result }
{
    let mut pieces = 0;
    loop {
        match conn.poll_fed_more() {
            Poll::Ready(Ok(())) => {}
            Poll::Ready(Err(e)) => return Poll::Ready(Err(e)),
            Poll::Pending => return Poll::Pending,
        }
        if pieces == MOST_PIECES {
            return Poll::Pending;
        }
        match read_piece(conn, source) {
            Ok(true) => pieces += 1,
            Ok(false) => return Poll::Ready(Ok(())),
            Err(e) => return Poll::Ready(Err(e)),
        }
    }
}

/// One poll that does so.
pub(crate) fn poll_read<L: Link, S: Source>(
    conn: &mut PgConnection<L>,
    source: &mut S,
) -> Poll<Result<(), Error>>
    ensures { ReadsOn (begun (seen_by L.seen conn.old)) (seen_by L.seen conn.new) (S.seen source.old) (S.seen source.new) result }
{
    conn.begin_feeding();
    read_on(conn, source)
}
