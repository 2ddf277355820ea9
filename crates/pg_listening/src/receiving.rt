//! How a listener gives what it hears, and tells what it loses.
ghost use Rattle.std.specs.Prelude.{◌≡◌, ◌⊎◌, ◌<◌, ◌≤◌, true, false, [], Err, IfErr, IsSome};
ghost use Rattle.pg_pool.specs.Seats.{SeatSeen};
ghost use Rattle.pg_listen.specs.Pools.{Section};
ghost use Rattle.pg_conn.specs.News.{given};
ghost use Rattle.pg_listening.specs.Buffers.{buffered};
ghost use Rattle.pg_listening.specs.Listening.{FailsOn, stream_in};
ghost use Rattle.pg_listening.specs.Failing.{CausedBy, CausedOn, Fails, OnFailed, beside_of};
ghost use Rattle.pg_listening.specs.Sources.{IsDialled, IsSeated};
ghost use Rattle.pg_listening.specs.Hearing.{GivesOldest, HearsBy, LossBehind, OnReady, TellsLoss, buffers_of, gave_by};
ghost use Rattle.pg_listening.specs.Leaving.{RefusesClosed};
ghost use Rattle.pg_listening.specs.Waiting.{AsksClosed, ListensAgain, NotesBy, OnNone, OnPending, ReadiesBy, StartsFrom, WaitsBy};

use crate::{ConnectionSource, Hearing};
use pg_wire::{Error, Notification, Poll};
use std::sync::Wait;

// Whether a poll goes on behind a loss, which takes off one call at least.
fn goes_on(before: u16, left: &mut u16) -> bool
    requires { left.old ≤ before }
    ensures some { result ≡ true → left.new < before }
    ensures none { result ≡ false → left.new ≡ 0 }
    ensures fewer { left.new ≤ left.old }
{
    if *left < before {
        return true;
    }
    if *left == 0 {
        return false;
    }
    *left -= 1;
    true
}

impl<B: ConnectionSource> Hearing<B> {
    /// Whether a loss is yet to be told. A call of `poll_try_recv` or `poll_recv` begins with none, and tells no loss of an earlier one.
    pub(crate) fn set_lost(&mut self, yes: bool)
        ensures { self.new ≡ record self.old { is_lost = yes } }
    {
        self.is_lost = yes;
    }

    // Where the pool was closed, that is an error, unless it is to be ignored.
    fn refuse_closed<R: Wait>(&self, rt: &R, source: &mut B) -> Result<(), Error>
        ensures source { IsSeated (B.now source.old) (B.now source.new) }
        ensures refuses { IfErr result (λ e. Section {A = B.L} (B.now source.old).most (λ a b. (s : SeatSeen) × RefusesClosed s (B.now source.new).seat a b (Err e))) }
        ensures asks { self.now.ignores_close ≡ false → Section {A = B.L} (B.now source.old).most (λ a b. RefusesClosed (B.now source.old).seat (B.now source.new).seat a b result) }
    {
        if self.ignores_close {
            return Ok(());
        }
        source.refuse_closed(rt)
    }

    // Waits for a notification on the connection that is held. Room for its link is made before it is asked.
    #[tactic(auto, using(crate::proofs::HearingLaws::hears_nothing, crate::proofs::HearingLaws::hears_without, crate::proofs::BufferingLaws::hears_behind, crate::proofs::BufferingLaws::at_once))]
    fn wait(&mut self, left: &mut u16) -> Poll<Result<Notification, Error>>
        requires held { IsSome self.old.listening.conn }
        requires left { left.old ≤ 256 }
        ensures hears { HearsBy B.L.seen B.Held.conn self.old self.new (given result) }
        ensures channels { self.new.listening.channels ≡ self.old.listening.channels }
        ensures left { left.new ≤ left.old }
        ensures fails { FailsOn result (stream_in B.Held.conn B.L.seen self.old.listening.conn) (stream_in B.Held.conn B.L.seen self.new.listening.conn) }
        ensures held { IsSome self.new.listening.conn }
        ensures lost { self.new.lost ≡ self.old.lost }
        ensures loss { self.new.is_lost ≡ self.old.is_lost }
        ensures startup { self.new.startup ≡ self.old.startup }
        ensures causes { CausedOn B.L.seen B.Held.conn B.Held.with_conn B.filling left.old left.new self.old self.new result }
    {
        match self.lost.reserve(1) {
            Ok(()) => {}
            Err(_) => return Poll::Ready(Err(Error::OutOfMemory)),
        }
        self.is_again = false;
        self.listening.poll_within(left)
    }
}

impl<B: ConnectionSource> Hearing<B>
where
    B::L: Drop,
{
    // Tells a loss: behind a reconnect where that is wanted at once.
    #[tactic(auto, using(crate::proofs::HearingLaws::hears_nothing, crate::proofs::HearingLaws::hears_without, crate::proofs::BufferingLaws::hears_behind, crate::proofs::TellingLaws::untold_same, crate::proofs::TellingLaws::untold_by, crate::proofs::TellingLaws::hears_same, crate::proofs::TellingLaws::tells_later, crate::proofs::TellingLaws::tells_same, crate::proofs::TellingLaws::gives_first, crate::proofs::TellingLaws::gives_none, crate::proofs::SourceLaws::dialled, crate::proofs::SourceLaws::dialled_then))]
    fn poll_loss<R: Wait>(
        &mut self,
        rt: &R,
        source: &mut B,
        left: &mut u16,
    ) -> Poll<Result<Option<Notification>, Error>>
        requires mine { self.old.name ≡ (B.now source.old).name }
        requires left { left.old ≤ 256 }
        ensures hears { HearsBy B.L.seen B.Held.conn self.old self.new (gave_by result) }
        ensures channels { self.new.listening.channels ≡ self.old.listening.channels }
        ensures source { IsDialled (B.now source.old) (B.now source.new) }
        ensures left { left.new ≤ left.old }
        ensures loss { LossBehind result self.old.is_lost self.new.is_lost }
        ensures none { gave_by result ≡ [] }
        ensures startup { OnReady result (StartsFrom B.L.seen B.filling self.old.startup self.new.startup) }
        ensures again { OnNone result (self.old.is_eager ≡ true → ReadiesBy B.L.seen B.Held.conn B.Held.with_conn self.old self.new) }
        ensures causes { CausedBy B.L.seen B.Held.conn B.Held.with_conn B.filling (beside_of (B.now source.old) (B.now source.new)) left.old left.new self.old self.new result }
    {
        if !self.is_eager {
            self.set_lost(false);
            return Poll::Ready(Ok(None));
        }
        match self.poll_connected(rt, source, left) {
            Poll::Pending => Poll::Pending,
            Poll::Ready(Err(e)) => Poll::Ready(Err(e)),
            Poll::Ready(Ok(())) => {
                self.set_lost(false);
                Poll::Ready(Ok(None))
            }
        }
    }

    // Waits for a notification on the connection that is held, and tells its loss.
    #[tactic(auto, using(crate::proofs::HearingLaws::hears_nothing, crate::proofs::HearingLaws::hears_without, crate::proofs::BufferingLaws::hears_behind, crate::proofs::TellingLaws::untold_same, crate::proofs::TellingLaws::untold_by, crate::proofs::TellingLaws::hears_same, crate::proofs::TellingLaws::tells_later, crate::proofs::TellingLaws::tells_same, crate::proofs::TellingLaws::gives_first, crate::proofs::TellingLaws::gives_none, crate::proofs::SourceLaws::dialled, crate::proofs::SourceLaws::dialled_then))]
    fn poll_news<R: Wait>(
        &mut self,
        rt: &R,
        source: &mut B,
        left: &mut u16,
    ) -> Poll<Result<Option<Notification>, Error>>
        requires held { IsSome self.old.listening.conn }
        requires mine { self.old.name ≡ (B.now source.old).name }
        requires left { left.old ≤ 256 }
        ensures hears { HearsBy B.L.seen B.Held.conn self.old self.new (gave_by result) }
        ensures channels { self.new.listening.channels ≡ self.old.listening.channels }
        ensures source { IsDialled (B.now source.old) (B.now source.new) }
        ensures left { left.new ≤ left.old }
        ensures loss { TellsLoss B.L.seen B.Held.conn self.old self.new result }
        ensures startup { OnReady result (StartsFrom B.L.seen B.filling self.old.startup self.new.startup) }
        ensures again { OnNone result (self.old.is_eager ≡ true → ListensAgain B.L.seen B.Held.conn B.Held.with_conn self.old.listening.channels self.new) }
        ensures causes { CausedBy B.L.seen B.Held.conn B.Held.with_conn B.filling (beside_of (B.now source.old) (B.now source.new)) left.old left.new self.old self.new result }
    {
        match self.wait(left) {
            Poll::Pending => Poll::Pending,
            Poll::Ready(Ok(notification)) => Poll::Ready(Ok(Some(notification))),
            Poll::Ready(Err(Error::Io(_))) => match self.lose(rt, source) {
                Ok(()) => {
                    self.set_lost(true);
                    self.poll_loss(rt, source, left)
                }
                Err(e) => Poll::Ready(Err(e)),
            },
            Poll::Ready(Err(e)) => Poll::Ready(Err(e)),
        }
    }

    /// Gives the oldest notification that is buffered. Where none is, and the pool was closed, it answers `PoolClosed`, unless that is to be ignored;
    /// else it waits for one, over a connection that listens to all of the channels. `None` tells, once, that the connection was lost.
    #[tactic(auto, using(crate::proofs::HearingLaws::hears_nothing, crate::proofs::HearingLaws::hears_without, crate::proofs::BufferingLaws::hears_behind, crate::proofs::TellingLaws::untold_same, crate::proofs::TellingLaws::untold_by, crate::proofs::TellingLaws::hears_same, crate::proofs::TellingLaws::tells_later, crate::proofs::TellingLaws::tells_same, crate::proofs::TellingLaws::gives_first, crate::proofs::TellingLaws::gives_none, crate::proofs::SourceLaws::dialled, crate::proofs::SourceLaws::dialled_then))]
    pub fn poll_try_recv<R: Wait>(
        &mut self,
        rt: &R,
        source: &mut B,
        left: &mut u16,
    ) -> Poll<Result<Option<Notification>, Error>>
        requires mine { self.old.name ≡ (B.now source.old).name }
        requires left { left.old ≤ 256 }
        ensures hears { HearsBy B.L.seen B.Held.conn self.old self.new (gave_by result) }
        ensures channels { self.new.listening.channels ≡ self.old.listening.channels }
        ensures source { IsDialled (B.now source.old) (B.now source.new) }
        ensures left { left.new ≤ left.old }
        ensures loss { TellsLoss B.L.seen B.Held.conn self.old self.new result }
        ensures oldest { self.old.is_lost ≡ false → GivesOldest (buffered (buffers_of B.L.seen B.Held.conn self.old)) result }
        ensures startup { OnReady result (StartsFrom B.L.seen B.filling self.old.startup self.new.startup) }
        ensures again { OnNone result (self.old.is_eager ≡ true → ReadiesBy B.L.seen B.Held.conn B.Held.with_conn self.old self.new) }
        ensures causes { CausedBy B.L.seen B.Held.conn B.Held.with_conn B.filling (beside_of (B.now source.old) (B.now source.new)) left.old left.new self.old self.new result }
        ensures closed { NotesBy B.L (B.now source.old).most (B.now source.new).seat result }
        ensures asks { self.old.is_lost ≡ false → buffered (buffers_of B.L.seen B.Held.conn self.old) ≡ [] → self.old.ignores_close ≡ false → AsksClosed B.L (B.now source.old).most (B.now source.old).seat result }
    {
        if self.is_lost {
            return self.poll_loss(rt, source, left);
        }
        match self.next_buffered() {
            Some(notification) => return Poll::Ready(Ok(Some(notification))),
            None => {}
        }
        match self.refuse_closed(rt, source) {
            Ok(()) => {}
            Err(e) => return Poll::Ready(Err(e)),
        }
        match self.poll_connected(rt, source, left) {
            Poll::Pending => Poll::Pending,
            Poll::Ready(Err(e)) => Poll::Ready(Err(e)),
            Poll::Ready(Ok(())) => self.poll_news(rt, source, left),
        }
    }

    /// Gives a notification as `poll_try_recv` does, and goes on over lost connections. What a loss leaves of `left` it goes on within, and a loss takes
    /// one off at least.
    #[tactic(auto, using(crate::proofs::HearingLaws::hears_nothing, crate::proofs::HearingLaws::hears_without, crate::proofs::BufferingLaws::hears_behind, crate::proofs::BufferingLaws::at_once, crate::proofs::SourceLaws::dialled, crate::proofs::SourceLaws::seated_then, crate::proofs::SourceLaws::dialled_then))]
    pub fn poll_recv<R: Wait>(
        &mut self,
        rt: &R,
        source: &mut B,
        left: &mut u16,
    ) -> Poll<Result<Notification, Error>>
        requires mine { self.old.name ≡ (B.now source.old).name }
        requires left { left.old ≤ 256 }
        ensures hears { HearsBy B.L.seen B.Held.conn self.old self.new (given result) }
        ensures channels { self.new.listening.channels ≡ self.old.listening.channels }
        ensures source { IsDialled (B.now source.old) (B.now source.new) }
        ensures left { left.new ≤ left.old }
        ensures pending { OnPending result (WaitsBy B.L.seen B.Held.conn B.filling left.old left.new self.old self.new ⊎ (left.new ≡ 0)) }
        ensures fails { OnFailed (Fails B.L.seen B.Held.conn B.Held.with_conn B.filling (beside_of (B.now source.old) (B.now source.new)) left.old left.new self.old self.new) result }
        ensures closed { NotesBy B.L (B.now source.old).most (B.now source.new).seat result }
    {
        loop {
            let before = *left;
            match self.poll_try_recv(rt, source, left) {
                Poll::Pending => return Poll::Pending,
                Poll::Ready(Err(e)) => return Poll::Ready(Err(e)),
                Poll::Ready(Ok(Some(notification))) => return Poll::Ready(Ok(notification)),
                Poll::Ready(Ok(None)) => {}
            }
            if !goes_on(before, left) {
                return Poll::Pending;
            }
        }
    }
}
