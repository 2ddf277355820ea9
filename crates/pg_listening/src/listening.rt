//! What a listener does with the connection that it holds, and what it keeps beyond it.
ghost use Rattle.std.specs.Prelude.{◌≡◌, ◌≤◌, ◌++◌, ◌∷◌, List, true, false, [], None, Some, IsSome, is_some, option_to_list, Ok, Err, OnOk, OnErr, IfOk, IfErr, option_map};
ghost use Rattle.futures.specs.declared.task.Poll.TheVariants.{Ready};
ghost use Rattle.pg_wire.specs.declared.message.notification_response.Notification as told;
ghost use Rattle.pg_request.specs.Queries.{plain_text};
ghost use Rattle.pg_stream.specs.Notifications.{none_kept};
ghost use Rattle.pg_conn.specs.Connections.{left};
ghost use Rattle.pg_call.specs.declared.kind.Kind.{Kind};
ghost use Rattle.pg_conn.specs.Turns.{PollsWithin};
ghost use Rattle.pg_conn.specs.News.{PollsNews, given, with_kept};
ghost use Rattle.pg_conn.specs.States.{TellsStatement};
ghost use Rattle.pg_listening.specs.Changes.{changed};
ghost use Rattle.pg_listening.specs.Channels.{listen_each_text};
ghost use Rattle.pg_listening.specs.Buffers.{Hears, kept_on, buffered, news_begun};
ghost use Rattle.pg_listening.specs.Listening.{CallsOn, FailsOn, NoneClosed, OnHeld, OnlyKept, PollsStatement, Starts, StaysHeld, TurnsOpen, behind_after, buffers_by, channels_behind, learnt_in, query_of, stored_behind, stream_in, waits};

use crate::holding::{begin, end, poll_news, poll_running, poll_statement, save, take_oldest};
use crate::{ChannelChange, listen_each_text};
use pg_call::Prepared;
use pg_conn::{PgStatement, Query, Request, Turn};
use pg_guards::PgExecutor;
use pg_guards::holding::start;
use pg_learning::Learnt;
use pg_wire::{Error, Notification, Poll, Sequence, Text};
use std::alloc::Global;
use std::collections::VecDeque;
use std::marker::Model;

/// A listener but for what finds it connections: what holds the present one, where there is one, the notifications that were read and not given
/// yet, and the channels in the order in which they were asked for. It outlives each connection.
pub struct Listening<C: PgExecutor> {
    alloc: Global,
    conn: Option<C>,
    earlier: VecDeque<Notification>,
    channels: Sequence<Text>,
    behind: Option<Sequence<Text>>,
    is_asking: bool,
}

impl<C: PgExecutor> Model for Listening<C> {
    ghost use Rattle.pg_listening.specs.Listening.{IsListening, ListeningOf};

    ghost Value = { ListeningOf C };

    ghost view = { λ l. record { conn = l.conn; earlier = l.earlier.items; channels = l.channels; behind = l.behind; is_asking = l.is_asking } };

    ghost invariant = { λ l. IsListening C.conn (record { conn = l.conn; earlier = l.earlier.items; channels = l.channels; behind = l.behind; is_asking = l.is_asking }) };
}

// The channels behind the Ok of a change, where that makes it.
fn behind(
    alloc: Global,
    change: &ChannelChange,
    channels: &[Text],
) -> Result<Option<Sequence<Text>>, Error>
    ensures ok { IfOk result (λ behind. behind ≡ stored_behind change.now channels.now) }
    ensures err { IfErr result (λ e. e ≡ Error.OutOfMemory) }
{
    match change {
        ChannelChange::ListenAll(_) => Ok(None),
        _ => match change.applied(alloc, channels) {
            Ok(next) => Ok(Some(next)),
            Err(e) => Err(e),
        },
    }
}

impl<C: PgExecutor> Listening<C> {
    /// It holds no connection, and listens to no channel yet.
    pub fn new(alloc: Global) -> Self
        ensures { result ≡ record { conn = None; earlier = []; channels = []; behind = None; is_asking = false } }
    {
        Listening {
            alloc,
            conn: None,
            earlier: VecDeque::new(alloc),
            channels: Sequence::new(alloc),
            behind: None,
            is_asking: false,
        }
    }

    /// The channels.
    pub fn channels(&self) -> &[Text]
        ensures { result.now ≡ self.now.channels }
    {
        self.channels.as_slice()
    }

    /// Whether a connection is held.
    pub fn is_held(&self) -> bool
        ensures { result ≡ is_some self.now.conn }
    {
        self.conn.is_some()
    }

    /// Whether a statement is asked.
    pub fn is_asking(&self) -> bool
        ensures { result ≡ self.now.is_asking }
    {
        self.is_asking
    }

    /// Takes up a connection, which keeps nothing that was read before.
    pub fn hold(&mut self, conn: C)
        requires { self.old.conn ≡ None }
        ensures { self.new ≡ record self.old { conn = Some (C.with_conn conn (with_kept news_begun (C.conn conn))) } }
    {
        match self.conn.replace(begin(conn)) {
            None => {}
            Some(_before) => unreachable!(),
        }
    }

    /// Puts what the connection keeps behind what is kept of earlier ones, so that none is lost with it. An `Err` is want of memory.
    pub fn save(&mut self) -> Result<(), Error>
        ensures hears { Hears [] (buffers_by C.conn C.L.seen self.old) (buffers_by C.conn C.L.seen self.new) [] }
        ensures holder { StaysHeld C.conn C.with_conn self.old.conn self.new.conn }
        ensures same { OnlyKept C.conn self.old.conn self.new.conn }
        ensures channels { self.new.channels ≡ self.old.channels }
        ensures saved { OnOk result (kept_on (stream_in C.conn C.L.seen self.new.conn) ≡ []) }
        ensures err { OnErr result (result ≡ Err Error.OutOfMemory) }
    {
        self.is_asking = false;
        match &mut self.conn {
            Some(conn) => save(conn, &mut self.earlier),
            None => Ok(()),
        }
    }

    /// Lets the connection go as it is.
    pub fn let_go(&mut self) -> Option<C>
        ensures conn { result ≡ self.old.conn }
        ensures rest { self.new ≡ record self.old { conn = None; is_asking = false } }
    {
        self.is_asking = false;
        self.conn.take()
    }

    /// Takes the oldest notification that is kept. It asks nothing of the link.
    pub fn next_buffered(&mut self) -> Option<Notification>
        ensures hears { Hears [] (buffers_by C.conn C.L.seen self.old) (buffers_by C.conn C.L.seen self.new) (option_to_list result) }
        ensures none { result ≡ None → self.new ≡ self.old }
        ensures oldest { option_to_list result ++ buffered (buffers_by C.conn C.L.seen self.new) ≡ buffered (buffers_by C.conn C.L.seen self.old) }
        ensures empty { result ≡ None → buffered (buffers_by C.conn C.L.seen self.old) ≡ [] }
        ensures holder { StaysHeld C.conn C.with_conn self.old.conn self.new.conn }
        ensures channels { self.new.channels ≡ self.old.channels }
        ensures behind { self.new.behind ≡ self.old.behind }
        ensures asking { self.new.is_asking ≡ self.old.is_asking }
    {
        if let Some(oldest) = self.earlier.pop_front() {
            return Some(oldest);
        }
        let Some(conn) = &mut self.conn else {
            return None;
        };
        take_oldest(conn)
    }

    /// Gives the oldest notification that is kept, or waits for one, within so many calls of the link, as `poll_notification_within` of the connection.
    /// A statement that is asked is given up.
    pub fn poll_within(&mut self, left: &mut u16) -> Poll<Result<Notification, Error>>
        requires held { IsSome self.old.conn }
        requires left { left.old ≤ 256 }
        ensures hears { Hears [] (buffers_by C.conn C.L.seen self.old) (buffers_by C.conn C.L.seen self.new) (given result) }
        ensures left { left.new ≤ left.old }
        ensures oldest { (oldest : told.Notification) (later : List told.Notification) → self.old.earlier ≡ oldest ∷ later → result ≡ Ready (Ok oldest) }
        ensures polls { self.old.earlier ≡ [] → OnHeld (λ a b. PollsNews left.old left.new a b result) C.conn C.L.seen self.old.conn self.new.conn }
        ensures fails { FailsOn result (stream_in C.conn C.L.seen self.old.conn) (stream_in C.conn C.L.seen self.new.conn) }
        ensures holder { StaysHeld C.conn C.with_conn self.old.conn self.new.conn }
        ensures channels { self.new.channels ≡ self.old.channels }
        ensures asking { self.new.is_asking ≡ false }
    {
        self.is_asking = false;
        if let Some(oldest) = self.earlier.pop_front() {
            return Poll::Ready(Ok(oldest));
        }
        let Some(conn) = &mut self.conn else {
            unreachable!()
        };
        poll_news(conn, left)
    }

    // Asks a statement.
    fn ask(&mut self, statement: Text, behind: Option<Sequence<Text>>)
        requires { IsSome self.old.conn }
        ensures starts { Starts C.conn C.with_conn (Request.Execute (plain_text statement)) self.old.conn self.new.conn }
        ensures hears { Hears [] (buffers_by C.conn C.L.seen self.old) (buffers_by C.conn C.L.seen self.new) [] }
        ensures holder { StaysHeld C.conn C.with_conn self.old.conn self.new.conn }
        ensures channels { self.new.channels ≡ self.old.channels }
        ensures behind { self.new.behind ≡ behind }
        ensures asking { self.new.is_asking ≡ true }
    {
        let Some(conn) = &mut self.conn else {
            unreachable!()
        };
        start(conn, Request::Execute(Query::from_text(statement)));
        self.behind = behind;
        self.is_asking = true;
    }

    /// Makes a change of the channels without asking for it: of several channels before their statement is asked, and of others where no connection is
    /// held that could be asked. An `Err` is want of memory, and then nothing has changed.
    pub fn store(&mut self, change: &ChannelChange) -> Result<(), Error>
        ensures ok { OnOk result (self.new ≡ record self.old { channels = changed change.now self.old.channels }) }
        ensures err { OnErr result ((self.new ≡ self.old) × (result ≡ Err Error.OutOfMemory)) }
    {
        match change.applied(self.alloc, self.channels()) {
            Ok(next) => {
                self.channels = next;
                Ok(())
            }
            Err(e) => Err(e),
        }
    }

    /// Begins a change of the channels, which does nothing before its first poll; a call that still runs is given up. It is made behind the Ok of its
    /// statement, but for that of several channels, which are stored before. An `Err` is want of memory, and then nothing has changed.
    pub fn change(&mut self, change: &ChannelChange) -> Result<(), Error>
        requires { IsSome self.old.conn }
        ensures starts { OnOk result (Starts C.conn C.with_conn (query_of change.now) self.old.conn self.new.conn) }
        ensures hears { Hears [] (buffers_by C.conn C.L.seen self.old) (buffers_by C.conn C.L.seen self.new) [] }
        ensures holder { StaysHeld C.conn C.with_conn self.old.conn self.new.conn }
        ensures channels { self.new.channels ≡ self.old.channels }
        ensures behind { OnOk result (self.new.behind ≡ stored_behind change.now self.old.channels) }
        ensures asking { OnOk result (self.new.is_asking ≡ true) }
        ensures err { OnErr result ((self.new ≡ self.old) × (result ≡ Err Error.OutOfMemory)) }
    {
        let behind = match behind(self.alloc, change, self.channels()) {
            Ok(behind) => behind,
            Err(e) => return Err(e),
        };
        match change.statement(self.alloc) {
            Ok(statement) => {
                self.ask(statement, behind);
                Ok(())
            }
            Err(e) => {
                drop(behind);
                Err(e)
            }
        }
    }

    /// Begins to listen to all of the channels again, as a new connection does. An `Err` is want of memory, and then nothing has changed.
    pub fn listen_again(&mut self) -> Result<(), Error>
        requires { IsSome self.old.conn }
        ensures starts { OnOk result (Starts C.conn C.with_conn (Request.Execute (plain_text (listen_each_text self.old.channels))) self.old.conn self.new.conn) }
        ensures hears { Hears [] (buffers_by C.conn C.L.seen self.old) (buffers_by C.conn C.L.seen self.new) [] }
        ensures holder { StaysHeld C.conn C.with_conn self.old.conn self.new.conn }
        ensures channels { self.new.channels ≡ self.old.channels }
        ensures behind { OnOk result (self.new.behind ≡ None) }
        ensures asking { OnOk result (self.new.is_asking ≡ true) }
        ensures err { OnErr result ((self.new ≡ self.old) × (result ≡ Err Error.OutOfMemory)) }
    {
        match listen_each_text(self.alloc, self.channels()) {
            Ok(statement) => {
                self.ask(statement, None);
                Ok(())
            }
            Err(e) => Err(e),
        }
    }

    /// Moves on the statement that is asked, within so many calls of the link.
    pub fn poll_change(&mut self, left: &mut u16) -> Poll<Result<(), Error>>
        requires asking { self.old.is_asking ≡ true }
        requires left { left.old ≤ 256 }
        ensures hears { Hears [] (buffers_by C.conn C.L.seen self.old) (buffers_by C.conn C.L.seen self.new) [] }
        ensures left { left.new ≤ left.old }
        ensures polls { OnHeld (λ a b. PollsStatement left.old a b result) C.conn C.L.seen self.old.conn self.new.conn }
        ensures holder { StaysHeld C.conn C.with_conn self.old.conn self.new.conn }
        ensures channels { self.new.channels ≡ channels_behind result self.old.behind self.old.channels }
        ensures behind { self.new.behind ≡ behind_after result self.old.behind }
        ensures asking { self.new.is_asking ≡ waits result }
        ensures apart { NoneClosed result }
    {
        let Some(conn) = &mut self.conn else {
            unreachable!()
        };
        match poll_statement(conn, left) {
            Poll::Pending => Poll::Pending,
            Poll::Ready(Err(e)) => {
                self.is_asking = false;
                Poll::Ready(Err(e))
            }
            Poll::Ready(Ok(_)) => {
                self.is_asking = false;
                if let Some(next) = self.behind.take() {
                    self.channels = next;
                }
                Poll::Ready(Ok(()))
            }
        }
    }

    /// Begins a call on the connection that is held, which does nothing before its first poll. One that still runs is given up, a statement of a change
    /// too.
    pub fn start(&mut self, request: Request)
        requires { IsSome self.old.conn }
        ensures starts { Starts C.conn C.with_conn request self.old.conn self.new.conn }
        ensures hears { Hears [] (buffers_by C.conn C.L.seen self.old) (buffers_by C.conn C.L.seen self.new) [] }
        ensures holder { StaysHeld C.conn C.with_conn self.old.conn self.new.conn }
        ensures channels { self.new.channels ≡ self.old.channels }
        ensures asking { self.new.is_asking ≡ false }
    {
        let Some(conn) = &mut self.conn else {
            unreachable!()
        };
        start(conn, request);
        self.is_asking = false;
    }

    /// Moves the call on that runs, within so many calls of the link.
    pub fn poll_call(&mut self, left: &mut u16) -> Poll<Turn>
        requires calling { (kind : Kind) × CallsOn C.conn kind self.old.conn }
        requires left { left.old ≤ 256 }
        ensures hears { Hears [] (buffers_by C.conn C.L.seen self.old) (buffers_by C.conn C.L.seen self.new) [] }
        ensures left { left.new ≤ left.old }
        ensures polls { OnHeld (λ a b. PollsWithin left.old a b result) C.conn C.L.seen self.old.conn self.new.conn }
        ensures holder { StaysHeld C.conn C.with_conn self.old.conn self.new.conn }
        ensures channels { self.new.channels ≡ self.old.channels }
        ensures asking { self.new.is_asking ≡ false }
        ensures apart { TurnsOpen result }
    {
        self.is_asking = false;
        let Some(conn) = &mut self.conn else {
            unreachable!()
        };
        poll_running(conn, left)
    }

    /// What is told of a statement that was prepared on the connection that is held, by what that one has learnt, or by nothing where none is held. Only want
    /// of memory refuses it.
    pub fn statement(&self, prepared: Prepared) -> Result<PgStatement, Error>
        ensures { TellsStatement (learnt_in C.conn self.now.conn) prepared result }
    {
        match &self.conn {
            Some(conn) => conn.conn_ref().statement(prepared),
            None => PgStatement::told(self.alloc, &Learnt::new(self.alloc), prepared),
        }
    }

    /// Hands back what holds the connection, which keeps no notifications any longer. A call that runs is given up.
    pub fn into_conn(self) -> Option<C>
        ensures { result ≡ option_map (λ c. C.with_conn c (with_kept none_kept (left (C.conn c)))) self.conn }
    {
        let Listening {
            alloc: _,
            conn,
            earlier,
            channels,
            behind,
            is_asking: _,
        } = self;
        drop(earlier);
        drop(channels);
        drop(behind);
        match conn {
            Some(conn) => Some(end(conn)),
            None => None,
        }
    }
}
