//! Notifications that a connection keeps, and the wait for one. What is read meanwhile comes as in `specs/News.antt`: in order, and once.
ghost use Rattle.std.specs.Prelude.{◌≡◌, ◌≤◌, ℕ, [], true, Err};
ghost use Rattle.futures.specs.declared.task.Poll.{Poll};
ghost use Rattle.futures.specs.declared.task.Poll.TheVariants.{Ready};
ghost use Rattle.pg_call.specs.declared.answer.Turn.{Turn};
ghost use Rattle.pg_call.specs.declared.request.Request.{Request};
ghost use Rattle.pg_stream.specs.Notifications.{TakesOldest, keeping_from};
ghost use Rattle.pg_stream.specs.Streams.{stream_by};
ghost use Rattle.pg_conn.specs.Connections.{ConnSeen, left, seen_by, started_call};
ghost use Rattle.pg_conn.specs.News.{AwaitsNews, AwaitsOnce, BreaksBy, Drains, FindsNews, PollsNews, ReadsNews, with_kept};
ghost use Rattle.pg_conn.specs.Turns.{PollsMore, PollsWithin};

use crate::polling::fault_in;
use crate::{PgConnection, Request};
use pg_call::Kind;
use pg_stream::{Link, PgStream};
use pg_wire::{Error, Notification, Poll, ProtocolFault, ServerFault};
use std::alloc::Global;

impl<L> PgConnection<L> {
    /// Whether the notifications that are read are kept from now on, for `next_buffered` and `poll_notification`. Where they aren't, those kept are let
    /// go.
    pub fn set_notifications(&mut self, keep: bool)
        ensures { self.new ≡ with_kept (keeping_from keep self.old.stream.notifications) self.old }
    {
        self.stream.set_notifications(keep);
    }

    /// Takes the oldest of the notifications that are kept. It asks nothing of the link.
    pub fn next_buffered(&mut self) -> Option<Notification>
        ensures same { self.new ≡ with_kept self.new.stream.notifications self.old }
        ensures takes { TakesOldest self.old.stream.notifications self.new.stream.notifications result }
    {
        self.stream.next_buffered()
    }
}

impl<L: Link> PgConnection<L> {
    // Reads away what is owed, as a flush.
    fn drain(&mut self, left: &mut u16) -> Poll<Result<(), Error>>
        requires keeping { self.old.stream.notifications.keeping ≡ true }
        requires left { left.old ≤ 256 }
        ensures { Drains left.old left.new (seen_by L.seen self.old) (seen_by L.seen self.new) result }
    {
        self.start(Request::Flush);
        match self.poll_call_within(left) {
            Poll::Pending => Poll::Pending,
            Poll::Ready(turn) => Poll::Ready(turn.into_unit(Kind::Flush)),
        }
    }

    // Waits for a notification with nothing owed.
    fn await_unasked(&mut self, left: &mut u16) -> Poll<Result<Notification, Error>>
        requires keeping { self.old.stream.notifications.keeping ≡ true }
        requires none { self.old.stream.notifications.kept ≡ [] }
        ensures awaits { AwaitsNews (stream_by L.seen self.old.stream) (stream_by L.seen self.new.stream) result }
        ensures breaks { BreaksBy self.new.broken result }
        ensures left { left.new ≡ self.new.stream.left }
    {
        let answer = await_news(&mut self.stream, self.alloc);
        *left = self.stream.left();
        match answer {
            Poll::Ready(Ok(notification)) => Poll::Ready(Ok(notification)),
            Poll::Ready(Err(e)) => {
                self.broken = fault_in(&e);
                Poll::Ready(Err(e))
            }
            Poll::Pending => Poll::Pending,
        }
    }

    // Goes on behind the flush: one that was kept in it is given first, but behind its error.
    fn go_on_behind(
        &mut self,
        drained: Poll<Result<(), Error>>,
        left: &mut u16,
    ) -> Poll<Result<Notification, Error>>
        requires keeping { self.old.stream.notifications.keeping ≡ true }
        ensures { (total : ℕ) (a : ConnSeen) → Drains total left.old a (seen_by L.seen self.old) drained → FindsNews total left.new a (seen_by L.seen self.new) result }
    {
        match drained {
            Poll::Ready(Err(e)) => Poll::Ready(Err(e)),
            Poll::Ready(Ok(())) => match self.next_buffered() {
                Some(notification) => Poll::Ready(Ok(notification)),
                None => self.await_unasked(left),
            },
            Poll::Pending => match self.next_buffered() {
                Some(notification) => Poll::Ready(Ok(notification)),
                None => Poll::Pending,
            },
        }
    }

    /// Gives the oldest notification that is kept. Where none is, it first drops what is owed to earlier calls, and then waits for one: all within so
    /// many calls of the link, of which it takes off as many as it makes. A call that still runs is given up. While nothing is owed an ErrorResponse is
    /// passed over, such as that of a server that shuts down; an error in a reply that is owed is answered, and so is a message that may not come.
    /// (PostgreSQL manual, "Message Flow", "Asynchronous Operations".)
    pub fn poll_notification_within(&mut self, left: &mut u16) -> Poll<Result<Notification, Error>>
        requires keeping { self.old.stream.notifications.keeping ≡ true }
        requires left { left.old ≤ 256 }
        ensures { PollsNews left.old left.new (seen_by L.seen self.old) (seen_by L.seen self.new) result }
    {
        if let Some(notification) = self.next_buffered() {
            return Poll::Ready(Ok(notification));
        }
        let drained = self.drain(left);
        self.go_on_behind(drained, left)
    }

    /// The same within 256 calls of the link.
    pub fn poll_notification(&mut self) -> Poll<Result<Notification, Error>>
        requires { self.old.stream.notifications.keeping ≡ true }
        ensures { (left : ℕ) × PollsNews 256 left (seen_by L.seen self.old) (seen_by L.seen self.new) result }
    {
        let mut left = 256;
        self.poll_notification_within(&mut left)
    }
}

// The answer where a message comes that no reply asks for.
fn unlawful(tag: u8) -> Poll<Result<Notification, Error>>
    ensures { result ≡ Ready (Err (Error.Protocol (ProtocolFault.Server (ServerFault.Unlawful tag)))) }
{
    let fault = ServerFault::Unlawful { tag };
    Poll::Ready(Err(Error::Protocol(ProtocolFault::Server(fault))))
}

// One message more while a notification is awaited with nothing owed. An ErrorResponse is passed over, such as that of a server that shuts down.
fn await_once<L: Link>(
    stream: &mut PgStream<L>,
    alloc: Global,
) -> Option<Poll<Result<Notification, Error>>>
    requires keeping { stream.old.notifications.keeping ≡ true }
    requires none { stream.old.notifications.kept ≡ [] }
    ensures { AwaitsOnce (stream_by L.seen stream.old) (stream_by L.seen stream.new) result }
{
    match stream.ahead_once(alloc) {
        None => match stream.next_buffered() {
            Some(notification) => Some(Poll::Ready(Ok(notification))),
            None => None,
        },
        Some(Poll::Pending) => Some(Poll::Pending),
        Some(Poll::Ready(Err(e))) => Some(Poll::Ready(Err(e))),
        Some(Poll::Ready(Ok(front))) => {
            if front.tag == b'E' {
                stream.pass(front);
                return None;
            }
            Some(unlawful(front.tag))
        }
    }
}

// The same until there is an answer.
fn await_news<L: Link>(stream: &mut PgStream<L>, alloc: Global) -> Poll<Result<Notification, Error>>
    requires keeping { stream.old.notifications.keeping ≡ true }
    requires none { stream.old.notifications.kept ≡ [] }
    ensures { AwaitsNews (stream_by L.seen stream.old) (stream_by L.seen stream.new) result }
{
    loop {
        if let Some(answer) = await_once(stream, alloc) {
            return answer;
        }
    }
}

/// Whatever a call reads of notifications while they are kept stands behind those that were kept before it, in order and once: in each of its polls, in its
/// start and in its drop.
pub fn what_a_call_reads_is_kept()
    ensures polls { (left : ℕ) (a b : ConnSeen) (answer : Poll Turn) → PollsWithin left a b answer → a.stream.notifications.keeping ≡ true → ReadsNews a.stream b.stream [] }
    ensures more { (a b : ConnSeen) (answer : Poll Turn) → PollsMore a b answer → a.stream.notifications.keeping ≡ true → ReadsNews a.stream b.stream [] }
    ensures starts { (a : ConnSeen) (request : Request) → a.stream.notifications.keeping ≡ true → ReadsNews a.stream (started_call request a).stream [] }
    ensures leaves { (a : ConnSeen) → a.stream.notifications.keeping ≡ true → ReadsNews a.stream (left a).stream [] }
{}
