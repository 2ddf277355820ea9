//! What a listener asks of the connection that is held: each call lends it once.
ghost use Rattle.std.specs.Prelude.{◌≡◌, ◌≤◌, true, []};
ghost use Rattle.pg_call.specs.Answers.{total_turn};
ghost use Rattle.pg_call.specs.declared.kind.How.TheVariants as hows;
ghost use Rattle.pg_call.specs.declared.kind.Kind.{Kind};
ghost use Rattle.pg_call.specs.declared.kind.Kind.TheVariants as kinds;
ghost use Rattle.pg_stream.specs.Notifications.{TakesOldest, none_kept};
ghost use Rattle.pg_stream.specs.Streams.{stream_by};
ghost use Rattle.pg_conn.specs.Connections.{left, seen_by};
ghost use Rattle.pg_conn.specs.News.{PollsNews, ReadsNews, with_kept};
ghost use Rattle.pg_conn.specs.States.{IsCalling, PollFits, turn_of};
ghost use Rattle.pg_conn.specs.Turns.{PollsWithin};
ghost use Rattle.pg_listening.specs.Buffers.{news_begun};
ghost use Rattle.pg_listening.specs.Listening.{NoneClosed, Saves, TurnsOpen};

use pg_conn::{PgConnection, PgQueryResult, Turn};
use pg_guards::PgExecutor;
use pg_wire::{Error, Notification, Poll};
use std::collections::VecDeque;

/// The connection keeps the notifications that it reads from now on, and none that it read before.
pub(crate) fn begin<C: PgExecutor>(holder: C) -> C
    ensures { result ≡ C.with_conn holder (with_kept news_begun (C.conn holder)) }
{
    let mut holder = holder;
    let conn = holder.conn_mut();
    conn.set_notifications(false);
    conn.set_notifications(true);
    holder
}

/// The connection gives up the call that runs, and keeps no notifications any longer.
pub(crate) fn end<C: PgExecutor>(holder: C) -> C
    ensures { result ≡ C.with_conn holder (with_kept none_kept (left (C.conn holder))) }
{
    let mut holder = holder;
    let conn = holder.conn_mut();
    conn.abandon();
    conn.set_notifications(false);
    holder
}

/// Takes the oldest notification that is kept.
pub(crate) fn take_oldest<C: PgExecutor>(holder: &mut C) -> Option<Notification>
    ensures holder { holder.new ≡ C.with_conn holder.old (C.conn holder.new) }
    ensures same { C.conn holder.new ≡ with_kept (C.conn holder.new).stream.notifications (C.conn holder.old) }
    ensures takes { TakesOldest (C.conn holder.old).stream.notifications (C.conn holder.new).stream.notifications result }
{
    holder.conn_mut().next_buffered()
}

// Puts what is kept behind what is kept of earlier connections. Room for each is made before it is taken.
fn save_news<L>(
    conn: &mut PgConnection<L>,
    earlier: &mut VecDeque<Notification>,
) -> Result<(), Error>
    ensures same { conn.new ≡ with_kept conn.new.stream.notifications conn.old }
    ensures saves { Saves conn.old.stream.notifications conn.new.stream.notifications earlier.old.items earlier.new.items result }
{
    loop {
        match earlier.reserve(1) {
            Ok(()) => {}
            Err(_) => return Err(Error::OutOfMemory),
        }
        match conn.next_buffered() {
            Some(notification) => earlier.push_back_reserved(notification),
            None => return Ok(()),
        }
    }
}

/// The same on the connection that is held.
pub(crate) fn save<C: PgExecutor>(
    holder: &mut C,
    earlier: &mut VecDeque<Notification>,
) -> Result<(), Error>
    ensures holder { holder.new ≡ C.with_conn holder.old (C.conn holder.new) }
    ensures same { C.conn holder.new ≡ with_kept (C.conn holder.new).stream.notifications (C.conn holder.old) }
    ensures saves { Saves (C.conn holder.old).stream.notifications (C.conn holder.new).stream.notifications earlier.old.items earlier.new.items result }
{
    save_news(holder.conn_mut(), earlier)
}

/// One poll for a notification.
pub(crate) fn poll_news<C: PgExecutor>(
    holder: &mut C,
    left: &mut u16,
) -> Poll<Result<Notification, Error>>
    requires keeping { (C.conn holder.old).stream.notifications.keeping ≡ true }
    requires left { left.old ≤ 256 }
    ensures holder { holder.new ≡ C.with_conn holder.old (C.conn holder.new) }
    ensures polls { PollsNews left.old left.new (seen_by C.L.seen (C.conn holder.old)) (seen_by C.L.seen (C.conn holder.new)) result }
{
    holder.conn_mut().poll_notification_within(left)
}

/// One poll of a call on the connection that is held.
pub(crate) fn poll_running<C: PgExecutor>(holder: &mut C, left: &mut u16) -> Poll<Turn>
    requires calling { (kind : Kind) × IsCalling kind (C.conn holder.old) }
    requires keeping { (C.conn holder.old).stream.notifications.keeping ≡ true }
    requires left { left.old ≤ 256 }
    ensures holder { holder.new ≡ C.with_conn holder.old (C.conn holder.new) }
    ensures polls { PollsWithin left.old (seen_by C.L.seen (C.conn holder.old)) (seen_by C.L.seen (C.conn holder.new)) result }
    ensures left { left.new ≤ left.old }
    ensures news { ReadsNews (stream_by C.L.seen (C.conn holder.old).stream) (stream_by C.L.seen (C.conn holder.new).stream) [] }
    ensures apart { TurnsOpen result }
{
    holder.conn_mut().poll_call_within(left)
}

/// One poll of a statement on the connection that is held.
pub(crate) fn poll_statement<C: PgExecutor>(
    holder: &mut C,
    left: &mut u16,
) -> Poll<Result<PgQueryResult, Error>>
    requires calling { IsCalling (kinds.Run hows.Execute) (C.conn holder.old) }
    requires keeping { (C.conn holder.old).stream.notifications.keeping ≡ true }
    requires left { left.old ≤ 256 }
    ensures holder { holder.new ≡ C.with_conn holder.old (C.conn holder.new) }
    ensures polls { PollsWithin left.old (seen_by C.L.seen (C.conn holder.old)) (seen_by C.L.seen (C.conn holder.new)) (turn_of total_turn result) }
    ensures left { left.new ≤ left.old }
    ensures calling { PollFits (kinds.Run hows.Execute) (C.conn holder.new) (turn_of total_turn result) }
    ensures news { ReadsNews (stream_by C.L.seen (C.conn holder.old).stream) (stream_by C.L.seen (C.conn holder.new).stream) [] }
    ensures apart { NoneClosed result }
{
    match holder.conn_mut().poll_call_within(left) {
        Poll::Pending => Poll::Pending,
        Poll::Ready(turn) => Poll::Ready(turn.into_total()),
    }
}
