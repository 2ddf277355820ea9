//! How a listener changes its channels.
ghost use Rattle.std.specs.Prelude.{◌≡◌, ◌≤◌, true, false, [], None, Some, Err, IsSome, OnErr, OnOk, unwrap_or};
ghost use Rattle.pg_listening.specs.Changes.{changed, listens};
ghost use Rattle.pg_listening.specs.Listening.{stored_behind};
ghost use Rattle.pg_listening.specs.Failing.{CausedBy, CausedOn, beside_of};
ghost use Rattle.pg_listening.specs.Sources.{IsDialled};
ghost use Rattle.pg_listening.specs.Hearing.{Changes, HearsBy, channels_at_ok, is_changing, is_stored_first, stored_first};

use crate::{ChannelChange, ConnectionSource, Hearing};
use pg_wire::{Error, Poll};
use std::sync::Wait;

// Several channels are stored before their statement is asked.
fn is_stored_first(change: &ChannelChange) -> bool
    ensures { result ≡ is_stored_first change.now }
{
    match change {
        ChannelChange::ListenAll(_) => true,
        ChannelChange::Listen(_) | ChannelChange::Unlisten(_) | ChannelChange::UnlistenAll => false,
    }
}

impl<B: ConnectionSource> Hearing<B> {
    fn ask(&mut self, change: ChannelChange)
        ensures { self.new ≡ record self.old { asked = Some change } }
    {
        self.asked = Some(change);
    }

    // Makes a change that asks nothing.
    fn make_unasked(&mut self, change: &ChannelChange) -> Result<(), Error>
        ensures ok { OnOk result (self.new ≡ record self.old { listening = record self.old.listening { channels = changed change.now self.old.listening.channels } }) }
        ensures err { OnErr result ((self.new ≡ self.old) × (result ≡ Err Error.OutOfMemory)) }
    {
        self.listening.store(change)
    }

    /// Begins a change of the channels, which does nothing before its first poll. Several channels are stored at once, and every other change is made
    /// behind the Ok of its statement. An `Err` is want of memory, and then nothing has changed.
    #[tactic(auto, using(crate::proofs::HearingLaws::hears_nothing, crate::proofs::HearingLaws::hears_without, crate::proofs::BufferingLaws::hears_behind, crate::proofs::BufferingLaws::at_once))]
    pub fn begin_change(&mut self, change: ChannelChange) -> Result<(), Error>
        ensures hears { HearsBy B.L.seen B.Held.conn self.old self.new [] }
        ensures channels { OnOk result (self.new.listening.channels ≡ stored_first change self.old.listening.channels) }
        ensures next { OnOk result (channels_at_ok self.new ≡ changed change self.old.listening.channels) }
        ensures changing { OnOk result (is_changing self.new ≡ true) }
        ensures err { OnErr result ((self.new ≡ self.old) × (result ≡ Err Error.OutOfMemory)) }
    {
        if !is_stored_first(&change) {
            self.ask(change);
            return Ok(());
        }
        match self.make_unasked(&change) {
            Ok(()) => {
                self.ask(change);
                Ok(())
            }
            Err(e) => {
                drop(change);
                Err(e)
            }
        }
    }
}

impl<B: ConnectionSource> Hearing<B>
where
    B::L: Drop,
{
    // Asks a change on the connection that is held.
    #[tactic(auto, using(crate::proofs::HearingLaws::hears_nothing, crate::proofs::HearingLaws::hears_without, crate::proofs::BufferingLaws::hears_behind, crate::proofs::BufferingLaws::at_once))]
    fn poll_asked_held(&mut self, change: &ChannelChange, left: &mut u16) -> Poll<Result<(), Error>>
        requires left { left.old ≤ 256 }
        requires held { IsSome self.old.listening.conn }
        ensures hears { HearsBy B.L.seen B.Held.conn self.old self.new [] }
        ensures changes { Changes self.old.listening.channels (unwrap_or (stored_behind change.now self.old.listening.channels) self.old.listening.channels) self.new result }
        ensures left { left.new ≤ left.old }
        ensures loss { self.new.is_lost ≡ self.old.is_lost }
        ensures causes { CausedOn B.L.seen B.Held.conn B.Held.with_conn B.filling left.old left.new self.old self.new result }
    {
        self.asked = None;
        self.is_again = false;
        match self.listening.change(change) {
            Ok(()) => self.listening.poll_change(left),
            Err(e) => Poll::Ready(Err(e)),
        }
    }

    // Asks a change that listens to fewer channels.
    #[tactic(auto, using(crate::proofs::HearingLaws::hears_nothing, crate::proofs::HearingLaws::hears_without, crate::proofs::BufferingLaws::hears_behind, crate::proofs::BufferingLaws::at_once))]
    fn poll_fewer(&mut self, change: &ChannelChange, left: &mut u16) -> Poll<Result<(), Error>>
        requires left { left.old ≤ 256 }
        requires fewer { listens change.now ≡ false }
        ensures hears { HearsBy B.L.seen B.Held.conn self.old self.new [] }
        ensures changes { Changes self.old.listening.channels (unwrap_or (stored_behind change.now self.old.listening.channels) self.old.listening.channels) self.new result }
        ensures left { left.new ≤ left.old }
        ensures loss { self.new.is_lost ≡ self.old.is_lost }
        ensures causes { CausedOn B.L.seen B.Held.conn B.Held.with_conn B.filling left.old left.new self.old self.new result }
    {
        if self.listening.is_held() {
            return self.poll_asked_held(change, left);
        }
        match self.make_unasked(change) {
            Ok(()) => Poll::Ready(Ok(())),
            Err(e) => Poll::Ready(Err(e)),
        }
    }

    // Asks a change. One that listens to more channels takes up a connection where none is held.
    #[tactic(auto, using(crate::proofs::HearingLaws::hears_nothing, crate::proofs::HearingLaws::hears_without, crate::proofs::BufferingLaws::hears_behind, crate::proofs::BufferingLaws::at_once, crate::proofs::SourceLaws::dialled, crate::proofs::SourceLaws::seated_then, crate::proofs::SourceLaws::dialled_then))]
    fn poll_asked<R: Wait>(
        &mut self,
        rt: &R,
        source: &mut B,
        change: ChannelChange,
        left: &mut u16,
    ) -> Poll<Result<(), Error>>
        requires mine { self.old.name ≡ (B.now source.old).name }
        requires left { left.old ≤ 256 }
        ensures hears { HearsBy B.L.seen B.Held.conn self.old self.new [] }
        ensures changes { Changes self.old.listening.channels (unwrap_or (stored_behind change self.old.listening.channels) self.old.listening.channels) self.new result }
        ensures source { IsDialled (B.now source.old) (B.now source.new) }
        ensures left { left.new ≤ left.old }
        ensures loss { self.new.is_lost ≡ self.old.is_lost }
        ensures causes { CausedBy B.L.seen B.Held.conn B.Held.with_conn B.filling (beside_of (B.now source.old) (B.now source.new)) left.old left.new self.old self.new result }
    {
        if !change.listens() {
            let answer = self.poll_fewer(&change, left);
            drop(change);
            return answer;
        }
        match self.poll_connected(rt, source, left) {
            Poll::Pending => {
                self.ask(change);
                Poll::Pending
            }
            Poll::Ready(Err(e)) => {
                drop(change);
                Poll::Ready(Err(e))
            }
            Poll::Ready(Ok(())) => {
                let answer = self.poll_asked_held(&change, left);
                drop(change);
                answer
            }
        }
    }

    /// Moves a change on. One that listens to more channels takes up a connection where none is held; one that listens to fewer asks nothing then.
    #[tactic(auto, using(crate::proofs::HearingLaws::hears_nothing, crate::proofs::HearingLaws::hears_without, crate::proofs::BufferingLaws::hears_behind, crate::proofs::BufferingLaws::at_once, crate::proofs::SourceLaws::dialled, crate::proofs::SourceLaws::seated_then, crate::proofs::SourceLaws::dialled_then))]
    pub fn poll_change<R: Wait>(
        &mut self,
        rt: &R,
        source: &mut B,
        left: &mut u16,
    ) -> Poll<Result<(), Error>>
        requires mine { self.old.name ≡ (B.now source.old).name }
        requires left { left.old ≤ 256 }
        requires changing { is_changing self.old ≡ true }
        ensures hears { HearsBy B.L.seen B.Held.conn self.old self.new [] }
        ensures changes { Changes self.old.listening.channels (channels_at_ok self.old) self.new result }
        ensures source { IsDialled (B.now source.old) (B.now source.new) }
        ensures left { left.new ≤ left.old }
        ensures loss { self.new.is_lost ≡ self.old.is_lost }
        ensures causes { CausedBy B.L.seen B.Held.conn B.Held.with_conn B.filling (beside_of (B.now source.old) (B.now source.new)) left.old left.new self.old self.new result }
    {
        match self.asked.take() {
            Some(change) => self.poll_asked(rt, source, change, left),
            None => self.listening.poll_change(left),
        }
    }
}
