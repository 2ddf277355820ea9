//! How a listener comes by a connection, and how it loses one.
ghost use Rattle.std.specs.Prelude.{◌≡◌, ◌≤◌, ◌<◌, ◌++◌, true, false, [], None, Some, IfErr, IsSome, OnErr, OnOk, is_some, option_to_list, vec_capacity, vec_len};
ghost use Rattle.pg_listening.specs.Listening.{NoneClosed};
ghost use Rattle.pg_listening.specs.Failing.{CausedBy, CausedOn, PollsAgain, beside_of};
ghost use Rattle.pg_listening.specs.Sources.{IsDialled, IsSeated};
ghost use Rattle.pg_listening.specs.Hearing.{AsksAgain, HearsBy, LosesHeld, OnReady};
ghost use Rattle.pg_listening.specs.Leaving.{Fills};
ghost use Rattle.pg_listening.specs.Waiting.{ReadiesBy, StartsFrom};

use crate::handing::spent;
use crate::{ConnectionSource, Found, Hearing};
use pg_wire::{Error, Poll};
use std::sync::Wait;

// Keeps a link that was lost, if there is one, in room for it.
fn keep_lost<L>(lost: &mut Vec<L>, link: Option<L>)
    requires { vec_len lost.old < vec_capacity lost.old }
    ensures { lost.new.items ≡ lost.old.items ++ option_to_list link }
{
    match link {
        Some(link) => lost.push_reserved(link),
        None => {}
    }
}

impl<B: ConnectionSource> Hearing<B> {
    // The connection is lost: what it keeps goes behind what is kept of earlier ones, its pool keeps it no longer, and its link is kept.
    #[tactic(auto, using(crate::proofs::HearingLaws::hears_nothing, crate::proofs::HearingLaws::hears_without, crate::proofs::BufferingLaws::hears_behind, crate::proofs::BufferingLaws::at_once, crate::proofs::SourceLaws::dialled, crate::proofs::SourceLaws::seated_then, crate::proofs::SourceLaws::dialled_then))]
    pub(crate) fn lose<R: Wait>(&mut self, rt: &R, source: &mut B) -> Result<(), Error>
        requires held { IsSome self.old.listening.conn }
        requires mine { self.old.name ≡ (B.now source.old).name }
        ensures hears { HearsBy B.L.seen B.Held.conn self.old self.new [] }
        ensures channels { self.new.listening.channels ≡ self.old.listening.channels }
        ensures source { IsSeated (B.now source.old) (B.now source.new) }
        ensures loss { self.new.is_lost ≡ self.old.is_lost }
        ensures link { OnOk result (LosesHeld B.Held.conn self.old.listening.conn self.old.lost self.new.lost) }
        ensures lost { OnErr result (self.new.lost ≡ self.old.lost) }
        ensures startup { self.new.startup ≡ self.old.startup }
        ensures ready { self.new.is_ready ≡ false }
        ensures memory { IfErr result (λ e. e ≡ Error.OutOfMemory) }
    {
        self.is_again = false;
        self.is_ready = false;
        match self.listening.save() {
            Ok(()) => {}
            Err(e) => return Err(e),
        }
        match self.lost.reserve(1) {
            Ok(()) => {}
            Err(_) => return Err(Error::OutOfMemory),
        }
        let mut held = self.listening.let_go();
        let link = source.close(rt, &mut held);
        spent(held);
        match link {
            Some(link) => {
                self.lost.push_reserved(link);
                Ok(())
            }
            None => unreachable!(),
        }
    }

    // Takes up a connection.
    #[tactic(auto, using(crate::proofs::HearingLaws::hears_nothing, crate::proofs::HearingLaws::hears_without, crate::proofs::BufferingLaws::hears_behind, crate::proofs::BufferingLaws::at_once))]
    fn hold(&mut self, held: B::Held)
        requires none { self.old.listening.conn ≡ None }
        requires mine { (B.handed held).name ≡ self.old.name }
        ensures hears { HearsBy B.L.seen B.Held.conn self.old self.new [] }
        ensures channels { self.new.listening.channels ≡ self.old.listening.channels }
        ensures held { IsSome self.new.listening.conn }
        ensures startup { self.new.startup ≡ self.old.startup }
        ensures lost { self.new.lost ≡ self.old.lost }
        ensures loss { self.new.is_lost ≡ self.old.is_lost }
        ensures ready { self.new.is_ready ≡ false }
    {
        self.is_again = false;
        self.is_ready = false;
        self.listening.hold(held);
    }

    fn start(&mut self, state: B::Startup)
        requires none { self.old.startup ≡ None }
        requires fills { Fills B.L.seen B.filling self.old.name state }
        ensures { self.new ≡ record self.old { startup = Some state } }
    {
        match self.startup.replace(state) {
            None => {}
            Some(_before) => unreachable!(),
        }
    }
}

impl<B: ConnectionSource> Hearing<B>
where
    B::L: Drop,
{
    // Moves the start-up on. Where it has failed its link is kept.
    #[tactic(auto, using(crate::proofs::HearingLaws::hears_nothing, crate::proofs::HearingLaws::hears_without, crate::proofs::BufferingLaws::hears_behind, crate::proofs::BufferingLaws::at_once, crate::proofs::SourceLaws::dialled, crate::proofs::SourceLaws::seated_then, crate::proofs::SourceLaws::dialled_then))]
    fn poll_start_up<R: Wait>(
        &mut self,
        rt: &R,
        source: &mut B,
        left: &mut u16,
    ) -> Poll<Result<(), Error>>
        requires none { self.old.listening.conn ≡ None }
        requires starts { IsSome self.old.startup }
        requires mine { self.old.name ≡ (B.now source.old).name }
        requires left { left.old ≤ 256 }
        ensures hears { HearsBy B.L.seen B.Held.conn self.old self.new [] }
        ensures channels { self.new.listening.channels ≡ self.old.listening.channels }
        ensures source { IsSeated (B.now source.old) (B.now source.new) }
        ensures loss { self.new.is_lost ≡ self.old.is_lost }
        ensures left { left.new ≤ left.old }
        ensures lost { OnReady result (self.new.lost ≡ self.old.lost) }
        ensures held { OnReady result (IsSome self.new.listening.conn) }
        ensures startup { OnReady result (StartsFrom B.L.seen B.filling self.old.startup self.new.startup) }
        ensures ready { OnReady result (self.new.is_ready ≡ false) }
        ensures causes { CausedOn B.L.seen B.Held.conn B.Held.with_conn B.filling left.old left.new self.old self.new result }
    {
        match self.lost.reserve(1) {
            Ok(()) => {}
            Err(_) => return Poll::Ready(Err(Error::OutOfMemory)),
        }
        match source.poll_startup(rt, &mut self.startup, left) {
            Poll::Pending => Poll::Pending,
            Poll::Ready(Err((e, link))) => {
                keep_lost(&mut self.lost, link);
                Poll::Ready(Err(e))
            }
            Poll::Ready(Ok(held)) => {
                self.hold(held);
                Poll::Ready(Ok(()))
            }
        }
    }

    /// Goes on until a connection is held. It is one that is idle in the pool, or a new one over a link that the dial opens. Where this fails the leave
    /// to make it is given back, and the next poll begins anew.
    #[tactic(auto, using(crate::proofs::HearingLaws::hears_nothing, crate::proofs::HearingLaws::hears_without, crate::proofs::BufferingLaws::hears_behind, crate::proofs::BufferingLaws::at_once, crate::proofs::SourceLaws::dialled, crate::proofs::SourceLaws::seated_then, crate::proofs::SourceLaws::dialled_then))]
    pub fn poll_held<R: Wait>(
        &mut self,
        rt: &R,
        source: &mut B,
        left: &mut u16,
    ) -> Poll<Result<(), Error>>
        requires mine { self.old.name ≡ (B.now source.old).name }
        requires left { left.old ≤ 256 }
        ensures hears { HearsBy B.L.seen B.Held.conn self.old self.new [] }
        ensures channels { self.new.listening.channels ≡ self.old.listening.channels }
        ensures source { IsDialled (B.now source.old) (B.now source.new) }
        ensures loss { self.new.is_lost ≡ self.old.is_lost }
        ensures left { left.new ≤ left.old }
        ensures lost { OnReady result (self.new.lost ≡ self.old.lost) }
        ensures held { OnReady result (IsSome self.new.listening.conn) }
        ensures startup { OnReady result (StartsFrom B.L.seen B.filling self.old.startup self.new.startup) }
        ensures ready { OnReady result (self.new.is_ready ≡ true → self.new ≡ self.old) }
        ensures causes { CausedBy B.L.seen B.Held.conn B.Held.with_conn B.filling (beside_of (B.now source.old) (B.now source.new)) left.old left.new self.old self.new result }
    {
        if self.listening.is_held() {
            return Poll::Ready(Ok(()));
        }
        if self.startup.is_some() {
            return self.poll_start_up(rt, source, left);
        }
        // Room for a link that is lost in this is made before.
        match self.lost.reserve(1) {
            Ok(()) => {}
            Err(_) => return Poll::Ready(Err(Error::OutOfMemory)),
        }
        match source.find(rt, self.alloc) {
            Ok(Found::Held(held)) => {
                self.hold(held);
                Poll::Ready(Ok(()))
            }
            Ok(Found::Starting(state)) => {
                self.start(state);
                self.poll_start_up(rt, source, left)
            }
            Err((e, link)) => {
                keep_lost(&mut self.lost, link);
                Poll::Ready(Err(e))
            }
        }
    }

    /// The same of a first connection, which has nothing to listen to again where no channel is asked for yet.
    #[tactic(auto, using(crate::proofs::HearingLaws::hears_nothing, crate::proofs::HearingLaws::hears_without, crate::proofs::BufferingLaws::hears_behind, crate::proofs::BufferingLaws::at_once, crate::proofs::SourceLaws::dialled, crate::proofs::SourceLaws::seated_then, crate::proofs::SourceLaws::dialled_then))]
    pub fn poll_connect<R: Wait>(
        &mut self,
        rt: &R,
        source: &mut B,
        left: &mut u16,
    ) -> Poll<Result<(), Error>>
        requires mine { self.old.name ≡ (B.now source.old).name }
        requires left { left.old ≤ 256 }
        ensures hears { HearsBy B.L.seen B.Held.conn self.old self.new [] }
        ensures channels { self.new.listening.channels ≡ self.old.listening.channels }
        ensures source { IsDialled (B.now source.old) (B.now source.new) }
        ensures loss { self.new.is_lost ≡ self.old.is_lost }
        ensures left { left.new ≤ left.old }
        ensures held { OnReady result (IsSome self.new.listening.conn) }
        ensures startup { OnReady result (StartsFrom B.L.seen B.filling self.old.startup self.new.startup) }
        ensures causes { CausedBy B.L.seen B.Held.conn B.Held.with_conn B.filling (beside_of (B.now source.old) (B.now source.new)) left.old left.new self.old self.new result }
    {
        match self.poll_held(rt, source, left) {
            Poll::Pending => Poll::Pending,
            Poll::Ready(Err(e)) => Poll::Ready(Err(e)),
            Poll::Ready(Ok(())) => {
                self.is_ready = self.listening.channels().is_empty();
                Poll::Ready(Ok(()))
            }
        }
    }

    // Begins to listen to all of the channels again, where this is not asked yet.
    #[tactic(auto, using(crate::proofs::HearingLaws::hears_nothing, crate::proofs::HearingLaws::hears_without, crate::proofs::BufferingLaws::hears_behind, crate::proofs::BufferingLaws::at_once))]
    fn ask_again(&mut self) -> Result<(), Error>
        requires held { IsSome self.old.listening.conn }
        ensures hears { HearsBy B.L.seen B.Held.conn self.old self.new [] }
        ensures channels { self.new.listening.channels ≡ self.old.listening.channels }
        ensures held { IsSome self.new.listening.conn }
        ensures asks { OnOk result ((self.new.listening.is_asking ≡ true) × (self.new.listening.behind ≡ None)) }
        ensures starts { OnOk result (AsksAgain B.Held.conn B.Held.with_conn self.old self.new) }
        ensures lost { self.new.lost ≡ self.old.lost }
        ensures loss { self.new.is_lost ≡ self.old.is_lost }
        ensures startup { self.new.startup ≡ self.old.startup }
        ensures memory { IfErr result (λ e. e ≡ Error.OutOfMemory) }
    {
        if self.is_again && self.listening.is_asking() {
            return Ok(());
        }
        self.is_again = false;
        match self.listening.listen_again() {
            Ok(()) => {
                self.is_again = true;
                Ok(())
            }
            Err(e) => Err(e),
        }
    }

    // Moves the statement on that listens to all of them.
    #[tactic(auto, using(crate::proofs::HearingLaws::hears_nothing, crate::proofs::HearingLaws::hears_without, crate::proofs::BufferingLaws::hears_behind, crate::proofs::BufferingLaws::at_once))]
    fn poll_again(&mut self, left: &mut u16) -> Poll<Result<(), Error>>
        requires held { IsSome self.old.listening.conn }
        requires asks { (self.old.listening.is_asking ≡ true) × (self.old.listening.behind ≡ None) }
        requires left { left.old ≤ 256 }
        ensures hears { HearsBy B.L.seen B.Held.conn self.old self.new [] }
        ensures channels { self.new.listening.channels ≡ self.old.listening.channels }
        ensures loss { self.new.is_lost ≡ self.old.is_lost }
        ensures left { left.new ≤ left.old }
        ensures lost { self.new.lost ≡ self.old.lost }
        ensures held { IsSome self.new.listening.conn }
        ensures startup { self.new.startup ≡ self.old.startup }
        ensures polls { PollsAgain B.L.seen B.Held.conn left.old self.old self.new result }
        ensures apart { NoneClosed result }
    {
        match self.lost.reserve(1) {
            Ok(()) => {}
            Err(_) => return Poll::Ready(Err(Error::OutOfMemory)),
        }
        match self.listening.poll_change(left) {
            Poll::Pending => Poll::Pending,
            Poll::Ready(Ok(())) => {
                self.is_ready = true;
                Poll::Ready(Ok(()))
            }
            Poll::Ready(Err(e)) => Poll::Ready(Err(e)),
        }
    }

    /// Goes on until a connection is held that listens to all of the channels. Where this fails the leave to make it is given back, or the connection let
    /// go, and the next poll begins anew: where a statement that listens again has failed, so has the reconnect.
    #[tactic(auto, using(crate::proofs::HearingLaws::hears_nothing, crate::proofs::HearingLaws::hears_without, crate::proofs::BufferingLaws::hears_behind, crate::proofs::BufferingLaws::at_once, crate::proofs::SourceLaws::dialled, crate::proofs::SourceLaws::seated_then, crate::proofs::SourceLaws::dialled_then))]
    pub fn poll_connected<R: Wait>(
        &mut self,
        rt: &R,
        source: &mut B,
        left: &mut u16,
    ) -> Poll<Result<(), Error>>
        requires mine { self.old.name ≡ (B.now source.old).name }
        requires left { left.old ≤ 256 }
        ensures hears { HearsBy B.L.seen B.Held.conn self.old self.new [] }
        ensures channels { self.new.listening.channels ≡ self.old.listening.channels }
        ensures source { IsDialled (B.now source.old) (B.now source.new) }
        ensures loss { self.new.is_lost ≡ self.old.is_lost }
        ensures left { left.new ≤ left.old }
        ensures lost { OnReady result (self.new.lost ≡ self.old.lost) }
        ensures held { OnReady result (IsSome self.new.listening.conn) }
        ensures startup { OnReady result (StartsFrom B.L.seen B.filling self.old.startup self.new.startup) }
        ensures ready { OnReady result (ReadiesBy B.L.seen B.Held.conn B.Held.with_conn self.old self.new) }
        ensures causes { CausedBy B.L.seen B.Held.conn B.Held.with_conn B.filling (beside_of (B.now source.old) (B.now source.new)) left.old left.new self.old self.new result }
    {
        match self.poll_held(rt, source, left) {
            Poll::Pending => return Poll::Pending,
            Poll::Ready(Err(e)) => return Poll::Ready(Err(e)),
            Poll::Ready(Ok(())) => {}
        }
        if self.is_ready {
            return Poll::Ready(Ok(()));
        }
        match self.ask_again() {
            Ok(()) => {}
            Err(e) => return Poll::Ready(Err(e)),
        }
        match self.poll_again(left) {
            Poll::Pending => Poll::Pending,
            Poll::Ready(Ok(())) => Poll::Ready(Ok(())),
            Poll::Ready(Err(e)) => match self.lose(rt, source) {
                Ok(()) => Poll::Ready(Err(e)),
                Err(wanting) => {
                    drop(e);
                    Poll::Ready(Err(wanting))
                }
            },
        }
    }
}
