//! A listener with where its connections come from.
ghost use Rattle.std.specs.Prelude.{◌≡◌, ◌⊎◌, ◌≤◌, ◌++◌, true, false, [], None, Err, IsSome, OnErr, OnOk, is_some, option_to_list};
ghost use Rattle.pg_call.specs.Answers.{TurnFits};
ghost use Rattle.pg_call.specs.declared.kind.Kind.TheVariants as kinds;
ghost use Rattle.pg_conn.specs.News.{given};
ghost use Rattle.pg_describe.specs.Describing.{TellsTurn};
ghost use Rattle.pg_listening.specs.Buffers.{buffered};
ghost use Rattle.pg_listening.specs.Hearing.{GivesOldest, HearsBy, OnReady, TellsLoss, buffers_of, channels_at_ok, gave_by, is_changing, learnt_of};
ghost use Rattle.pg_listening.specs.Failing.{CausedBy, Fails, OnFailed};
ghost use Rattle.pg_listening.specs.Sources.{IsDialled};
ghost use Rattle.pg_listening.specs.Leaving.{OnReleased};
ghost use Rattle.pg_call.specs.declared.kind.Kind.{Kind};
ghost use Rattle.pg_listening.specs.Querying.{IsQuerying, NotesTurn, Queries};
ghost use Rattle.pg_listening.specs.Waiting.{AsksClosed, NotesBy, OnNone, OnPending, ReadiesBy, WaitsBy};
ghost use Rattle.pg_listening.specs.Listeners.{CausedBehind, MakesChange, beside_by, goes_on, stored_by, wanted_by};

use crate::{ChannelChange, ConnectionSource, Hearing, PgNotification, PoolSource};
use pg_call::{Request, Turn};
use pg_conn::PgStatement;
use pg_listen::Released;
use pg_wire::{Error, Notification, Poll, Text};
use std::alloc::Global;
use std::marker::Model;
use std::mem;
use std::sync::Wait;

// What was told, as notifications of a listener.
fn told(
    answer: Poll<Result<Option<Notification>, Error>>,
) -> Poll<Result<Option<PgNotification>, Error>>
    ensures { result ≡ answer }
{
    match answer {
        Poll::Pending => Poll::Pending,
        Poll::Ready(Err(e)) => Poll::Ready(Err(e)),
        Poll::Ready(Ok(None)) => Poll::Ready(Ok(None)),
        Poll::Ready(Ok(Some(told))) => Poll::Ready(Ok(Some(PgNotification::over(told)))),
    }
}

// The same of a call that gives one.
fn told_one(answer: Poll<Result<Notification, Error>>) -> Poll<Result<PgNotification, Error>>
    ensures { result ≡ answer }
{
    match answer {
        Poll::Pending => Poll::Pending,
        Poll::Ready(Err(e)) => Poll::Ready(Err(e)),
        Poll::Ready(Ok(told)) => Poll::Ready(Ok(PgNotification::over(told))),
    }
}

/// It hears what other sessions tell the channels that it listens to, over one connection after another. It must be spent, by `into_released`. (PostgreSQL
/// manual, "SQL Commands", LISTEN, NOTIFY.)
pub struct Listener<B: ConnectionSource> {
    pub(crate) source: B,
    pub(crate) hearing: Hearing<B>,
}

/// A listener over the connections of a pool, with what holds that pool and its participant, and with its dial.
pub type PgListener<G, P, S, D> = Listener<PoolSource<G, P, S, D>>;

impl<B: ConnectionSource> Model for Listener<B> {
    ghost use Rattle.std.specs.Prelude.{◌≡◌};
    ghost use Rattle.pg_listening.specs.Listeners.{ListenerOf};

    ghost Value = { ListenerOf B B.Held B.Startup B.L };

    ghost view = { λ l. record { source = l.source; hearing = l.hearing } };

    ghost invariant = { λ l. l.hearing.name ≡ (B.now l.source).name };
}

impl<B: ConnectionSource> Listener<B> {
    // Where its memory comes from.
    pub(crate) fn allocator(&self) -> Global {
        self.hearing.alloc
    }

    // The statement that a turn tells, with what its connection has learnt.
    pub(crate) fn statement_told(&self, turn: Turn) -> Result<PgStatement, Error>
        requires { TurnFits kinds.Prepare turn }
        ensures { TellsTurn (learnt_of B.Held.conn self.now.hearing) turn result }
    {
        match turn.into_statement() {
            Ok(prepared) => self.hearing.listening.statement(prepared),
            Err(e) => Err(e),
        }
    }

    /// The channels that it listens to, in the order in which they were asked for.
    pub fn channels(&self) -> &[Text]
        ensures { result.now ≡ self.now.hearing.listening.channels }
    {
        self.hearing.listening.channels()
    }

    /// Whether a loss is told behind a reconnect, or else before it.
    pub fn eager_reconnect(&mut self, yes: bool)
        ensures { self.new ≡ record self.old { hearing = record self.old.hearing { is_eager = yes } } }
    {
        self.hearing.is_eager = yes;
    }

    /// Whether it listens on where its pool was closed.
    pub fn ignore_pool_close_event(&mut self, yes: bool)
        ensures { self.new ≡ record self.old { hearing = record self.old.hearing { ignores_close = yes } } }
    {
        self.hearing.ignores_close = yes;
    }

    /// The links of lost connections and of failed reconnects, in order.
    pub fn lost(&self) -> &[B::L]
        ensures { result.now ≡ self.now.hearing.lost }
    {
        self.hearing.lost.as_slice()
    }

    /// Takes them.
    pub fn take_lost(&mut self) -> Vec<B::L>
        ensures lost { result.items ≡ self.old.hearing.lost }
        ensures rest { self.new ≡ record self.old { hearing = record self.old.hearing { lost = [] } } }
    {
        let none = Vec::new(self.hearing.alloc);
        mem::replace(&mut self.hearing.lost, none)
    }

    /// Takes the oldest notification that is buffered. It asks nothing of the link.
    pub fn next_buffered(&mut self) -> Option<PgNotification>
        ensures hears { HearsBy B.L.seen B.Held.conn self.old.hearing self.new.hearing (option_to_list result) }
        ensures rest { self.new ≡ record self.old { hearing = self.new.hearing } }
        ensures channels { self.new.hearing.listening.channels ≡ self.old.hearing.listening.channels }
        ensures oldest { option_to_list result ++ buffered (buffers_of B.L.seen B.Held.conn self.new.hearing) ≡ buffered (buffers_of B.L.seen B.Held.conn self.old.hearing) }
    {
        match self.hearing.next_buffered() {
            Some(told) => Some(PgNotification::over(told)),
            None => None,
        }
    }

    // A change of the channels that has not begun begins.
    fn begin_asked(&mut self, change: &mut Option<ChannelChange>) -> Result<(), Error>
        requires changing { goes_on change.old self.old.hearing ≡ true }
        ensures hears { HearsBy B.L.seen B.Held.conn self.old.hearing self.new.hearing [] }
        ensures channels { OnOk result (self.new.hearing.listening.channels ≡ stored_by change.old self.old.hearing) }
        ensures next { OnOk result (channels_at_ok self.new.hearing ≡ wanted_by change.old self.old.hearing) }
        ensures changing { OnOk result (is_changing self.new.hearing ≡ true) }
        ensures rest { self.new ≡ record self.old { hearing = self.new.hearing } }
        ensures begun { change.new ≡ None }
        ensures err { OnErr result ((self.new ≡ self.old) × (result ≡ Err Error.OutOfMemory)) }
    {
        match change.take() {
            Some(change) => self.hearing.begin_change(change),
            None => Ok(()),
        }
    }

    /// Lets its connection go as it stands, or gives the leave to make one back. There is no answer exactly where no connection is held.
    pub fn into_released<R: Wait>(self, rt: &R) -> Option<Released<B::L>>
    where
        B: Drop,
        B::L: Drop,
        ensures some { is_some result ≡ is_some self.hearing.listening.conn }
        ensures releases { OnReleased B.handed B.Held.conn B.Held.with_conn (B.now self.source).most self.hearing.listening.conn result }
    {
        let Listener { source, hearing } = self;
        let mut source = source;
        hearing.into_released(rt, &mut source)
    }
}

impl<B: ConnectionSource> Listener<B>
where
    B::L: Drop,
{
    // Begins a change of the channels in its first poll, and moves it on.
    pub(crate) fn poll_asking<R: Wait>(
        &mut self,
        rt: &R,
        change: &mut Option<ChannelChange>,
        left: &mut u16,
    ) -> Poll<Result<(), Error>>
        requires left { left.old ≤ 256 }
        requires changing { goes_on change.old self.old.hearing ≡ true }
        ensures hears { HearsBy B.L.seen B.Held.conn self.old.hearing self.new.hearing [] }
        ensures changes { MakesChange change.old self.old.hearing self.new.hearing result }
        ensures begun { change.new ≡ None }
        ensures left { left.new ≤ left.old }
        ensures causes { CausedBehind B.L.seen B.Held.conn B.Held.with_conn B.filling (beside_by B.now self.old self.new) left.old left.new self.old.hearing self.new.hearing result }
        ensures closed { NotesBy B.L (B.now self.old.source).most (B.now self.new.source).seat result }
    {
        match self.begin_asked(change) {
            Ok(()) => {}
            Err(e) => return Poll::Ready(Err(e)),
        }
        self.hearing.poll_change(rt, &mut self.source, left)
    }

    // Asks what is yet to be asked, and moves its call on.
    pub(crate) fn poll_query<R: Wait>(
        &mut self,
        rt: &R,
        request: &mut Option<Request>,
        left: &mut u16,
    ) -> Poll<Turn>
        requires left { left.old ≤ 256 }
        requires querying { (kind : Kind) × IsQuerying B.Held.conn kind request.old self.old.hearing }
        ensures hears { HearsBy B.L.seen B.Held.conn self.old.hearing self.new.hearing [] }
        ensures channels { self.new.hearing.listening.channels ≡ self.old.hearing.listening.channels }
        ensures source { IsDialled (B.now self.old.source) (B.now self.new.source) }
        ensures left { left.new ≤ left.old }
        ensures queries { Queries B.L.seen B.Held.conn B.Held.with_conn B.filling (beside_by B.now self.old self.new) left.old left.new request.old request.new self.old.hearing self.new.hearing result }
        ensures closed { NotesTurn B.L (B.now self.old.source).most (B.now self.new.source).seat result }
    {
        let asked = request.take();
        let (answer, rest) = self.hearing.poll_query(rt, &mut self.source, asked, left);
        *request = rest;
        answer
    }

    // Goes on until a first connection is held.
    pub(crate) fn poll_connect<R: Wait>(
        &mut self,
        rt: &R,
        left: &mut u16,
    ) -> Poll<Result<(), Error>>
        requires left { left.old ≤ 256 }
        ensures hears { HearsBy B.L.seen B.Held.conn self.old.hearing self.new.hearing [] }
        ensures channels { self.new.hearing.listening.channels ≡ self.old.hearing.listening.channels }
        ensures left { left.new ≤ left.old }
        ensures held { OnReady result (IsSome self.new.hearing.listening.conn) }
        ensures causes { CausedBy B.L.seen B.Held.conn B.Held.with_conn B.filling (beside_by B.now self.old self.new) left.old left.new self.old.hearing self.new.hearing result }
        ensures closed { NotesBy B.L (B.now self.old.source).most (B.now self.new.source).seat result }
    {
        self.hearing.poll_connect(rt, &mut self.source, left)
    }

    // Gives a notification, or tells a loss.
    pub(crate) fn poll_try_recv<R: Wait>(
        &mut self,
        rt: &R,
        left: &mut u16,
    ) -> Poll<Result<Option<PgNotification>, Error>>
        requires left { left.old ≤ 256 }
        ensures hears { HearsBy B.L.seen B.Held.conn self.old.hearing self.new.hearing (gave_by result) }
        ensures channels { self.new.hearing.listening.channels ≡ self.old.hearing.listening.channels }
        ensures left { left.new ≤ left.old }
        ensures loss { TellsLoss B.L.seen B.Held.conn self.old.hearing self.new.hearing result }
        ensures oldest { self.old.hearing.is_lost ≡ false → GivesOldest (buffered (buffers_of B.L.seen B.Held.conn self.old.hearing)) result }
        ensures again { OnNone result (self.old.hearing.is_eager ≡ true → ReadiesBy B.L.seen B.Held.conn B.Held.with_conn self.old.hearing self.new.hearing) }
        ensures causes { CausedBy B.L.seen B.Held.conn B.Held.with_conn B.filling (beside_by B.now self.old self.new) left.old left.new self.old.hearing self.new.hearing result }
        ensures closed { NotesBy B.L (B.now self.old.source).most (B.now self.new.source).seat result }
        ensures asks { self.old.hearing.is_lost ≡ false → buffered (buffers_of B.L.seen B.Held.conn self.old.hearing) ≡ [] → self.old.hearing.ignores_close ≡ false → AsksClosed B.L (B.now self.old.source).most (B.now self.old.source).seat result }
    {
        told(self.hearing.poll_try_recv(rt, &mut self.source, left))
    }

    // Gives a notification, over lost connections.
    pub(crate) fn poll_recv<R: Wait>(
        &mut self,
        rt: &R,
        left: &mut u16,
    ) -> Poll<Result<PgNotification, Error>>
        requires left { left.old ≤ 256 }
        ensures hears { HearsBy B.L.seen B.Held.conn self.old.hearing self.new.hearing (given result) }
        ensures channels { self.new.hearing.listening.channels ≡ self.old.hearing.listening.channels }
        ensures left { left.new ≤ left.old }
        ensures pending { OnPending result (WaitsBy B.L.seen B.Held.conn B.filling left.old left.new self.old.hearing self.new.hearing ⊎ (left.new ≡ 0)) }
        ensures fails { OnFailed (Fails B.L.seen B.Held.conn B.Held.with_conn B.filling (beside_by B.now self.old self.new) left.old left.new self.old.hearing self.new.hearing) result }
        ensures closed { NotesBy B.L (B.now self.old.source).most (B.now self.new.source).seat result }
    {
        told_one(self.hearing.poll_recv(rt, &mut self.source, left))
    }
}
