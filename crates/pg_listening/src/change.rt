//! The calls of a listener that change its channels.
ghost use Rattle.std.specs.Prelude.{◌≡◌, true, false, [], None, Some};
ghost use Rattle.pg_listening.specs.Hearing.{HearsBy};
ghost use Rattle.pg_listening.specs.Waiting.{NotesBy};
ghost use Rattle.pg_listening.specs.Listeners.{CausedBegun, MakesChange, beside_by, goes_on, is_answered};

use crate::answering::is_answered;
use crate::{ChannelChange, ConnectionSource, Listener, PgListener};
use pg_wire::{Error, Poll, Sequence, Text};
use std::sync::Wait;

/// The state of `PgListener::listen`, `listen_all`, `unlisten` and `unlisten_all`. It does nothing before its first poll; dropped before its end it leaves
/// the channels as they stand, and a statement that was sent is given up.
pub type ChangeChannels<'l, G, P, S, D> = Changing<'l, PgListener<G, P, S, D>, ChannelChange>;

/// That state, over whatever listens.
pub struct Changing<'l, W, C> {
    listener: &'l mut W,
    change: Option<C>,
    is_over: bool,
}

impl<W, C: Drop> Drop for Changing<'_, W, C> {
    fn drop(self)
        ensures { self.exit.0.now ≡ self.entry.listener.now }
    {
        let Changing {
            listener: _,
            change,
            is_over: _,
        } = self;
        drop(change);
    }
}

impl<W, C> Changing<'_, W, C> {
    /// Whether a poll has ended the call.
    pub fn is_finished(&self) -> bool
        ensures { result ≡ self.now.is_over }
    {
        self.is_over
    }
}

impl<B: ConnectionSource> Listener<B> {
    /// Listens to a channel, which is stored once its statement has succeeded.
    pub fn listen(&mut self, channel: Text) -> Changing<'_, Self, ChannelChange>
        ensures same { result.listener.ghost_name ≡ self.entry.ghost_name }
        ensures listener { result.listener.now ≡ self.old }
        ensures change { result.change ≡ Some (ChannelChange.Listen channel) }
        ensures over { result.is_over ≡ false }
    {
        Changing {
            listener: self,
            change: Some(ChannelChange::Listen(channel)),
            is_over: false,
        }
    }

    /// Listens to several channels, which are stored before their statement is asked.
    pub fn listen_all(&mut self, channels: Sequence<Text>) -> Changing<'_, Self, ChannelChange>
        ensures same { result.listener.ghost_name ≡ self.entry.ghost_name }
        ensures listener { result.listener.now ≡ self.old }
        ensures change { result.change ≡ Some (ChannelChange.ListenAll channels) }
        ensures over { result.is_over ≡ false }
    {
        Changing {
            listener: self,
            change: Some(ChannelChange::ListenAll(channels)),
            is_over: false,
        }
    }

    /// Listens to a channel no longer. It asks nothing where no connection is held.
    pub fn unlisten(&mut self, channel: Text) -> Changing<'_, Self, ChannelChange>
        ensures same { result.listener.ghost_name ≡ self.entry.ghost_name }
        ensures listener { result.listener.now ≡ self.old }
        ensures change { result.change ≡ Some (ChannelChange.Unlisten channel) }
        ensures over { result.is_over ≡ false }
    {
        Changing {
            listener: self,
            change: Some(ChannelChange::Unlisten(channel)),
            is_over: false,
        }
    }

    /// Listens to no channel any longer. It asks nothing where no connection is held.
    pub fn unlisten_all(&mut self) -> Changing<'_, Self, ChannelChange>
        ensures same { result.listener.ghost_name ≡ self.entry.ghost_name }
        ensures listener { result.listener.now ≡ self.old }
        ensures change { result.change ≡ Some ChannelChange.UnlistenAll }
        ensures over { result.is_over ≡ false }
    {
        Changing {
            listener: self,
            change: Some(ChannelChange::UnlistenAll),
            is_over: false,
        }
    }
}

impl<B: ConnectionSource> Changing<'_, Listener<B>, ChannelChange>
where
    B::L: Drop,
{
    /// Moves the call on, by at most 256 calls of the link.
    pub fn poll<R: Wait>(&mut self, rt: &R) -> Poll<Result<(), Error>>
        requires over { self.old.is_over ≡ false }
        requires goes { goes_on self.old.change self.old.listener.now.hearing ≡ true }
        ensures over { self.new.is_over ≡ is_answered result }
        ensures same { self.new.listener.ghost_name ≡ self.old.listener.ghost_name }
        ensures hears { HearsBy B.L.seen B.Held.conn self.old.listener.now.hearing self.new.listener.now.hearing [] }
        ensures changes { MakesChange self.old.change self.old.listener.now.hearing self.new.listener.now.hearing result }
        ensures begun { self.new.change ≡ None }
        ensures causes { CausedBegun B.L.seen B.Held.conn B.Held.with_conn B.filling (beside_by B.now self.old.listener.now self.new.listener.now) self.old.listener.now.hearing self.new.listener.now.hearing result }
        ensures closed { NotesBy B.L (B.now self.old.listener.now.source).most (B.now self.new.listener.now.source).seat result }
    {
        let mut left = 256;
        let answer = self.listener.poll_asking(rt, &mut self.change, &mut left);
        self.is_over = is_answered(&answer);
        answer
    }
}
