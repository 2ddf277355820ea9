ghost use Rattle.std.specs.Prelude.{◌≡◌, ◌++◌, [], None, option_to_list};
ghost use Rattle.pg_listening.specs.Buffers.{buffered};
ghost use Rattle.pg_listening.specs.Hearing.{HearsBy, buffers_of, fresh_hearing};

use crate::listening::Listening;
use crate::{ChannelChange, ConnectionSource};
use pg_wire::Notification;
use std::alloc::Global;
use std::marker::Model;

/// A listener but for where its connections come from, which each poll is lent.
pub struct Hearing<B: ConnectionSource> {
    pub(crate) alloc: Global,
    pub(crate) name: u64,
    pub(crate) listening: Listening<B::Held>,
    pub(crate) asked: Option<ChannelChange>,
    pub(crate) startup: Option<B::Startup>,
    pub(crate) lost: Vec<B::L>,
    pub(crate) is_ready: bool,
    pub(crate) is_again: bool,
    pub(crate) is_lost: bool,
    pub(crate) is_eager: bool,
    pub(crate) ignores_close: bool,
}

impl<B: ConnectionSource> Model for Hearing<B> {
    ghost use Rattle.pg_listening.specs.Hearing.{HearingOf, IsHearing};

    ghost Value = { HearingOf B.Held B.Startup B.L };

    ghost view = { λ h. record { name = h.name; listening = h.listening; asked = h.asked; startup = h.startup; lost = h.lost.items; is_ready = h.is_ready; is_again = h.is_again; is_lost = h.is_lost; is_eager = h.is_eager; ignores_close = h.ignores_close } };

    ghost invariant = { λ h. IsHearing B.L.seen B.handed B.filling (record { name = h.name; listening = h.listening; asked = h.asked; startup = h.startup; lost = h.lost.items; is_ready = h.is_ready; is_again = h.is_again; is_lost = h.is_lost; is_eager = h.is_eager; ignores_close = h.ignores_close }) };
}

impl<B: ConnectionSource> Hearing<B> {
    /// It holds no connection of the pool of this name, and listens to no channel yet. A loss is told behind a reconnect, unless the caller says
    /// otherwise.
    pub fn new(alloc: Global, name: u64, ignores_close: bool) -> Self
        ensures { result ≡ fresh_hearing name ignores_close }
    {
        Hearing {
            alloc,
            name,
            listening: Listening::new(alloc),
            asked: None,
            startup: None,
            lost: Vec::new(alloc),
            is_ready: false,
            is_again: false,
            is_lost: false,
            is_eager: true,
            ignores_close,
        }
    }

    /// Takes the oldest notification that is buffered. It asks nothing of the link.
    #[tactic(auto, using(crate::proofs::HearingLaws::hears_nothing, crate::proofs::HearingLaws::hears_without, crate::proofs::BufferingLaws::hears_behind, crate::proofs::BufferingLaws::at_once))]
    pub fn next_buffered(&mut self) -> Option<Notification>
        ensures hears { HearsBy B.L.seen B.Held.conn self.old self.new (option_to_list result) }
        ensures channels { self.new.listening.channels ≡ self.old.listening.channels }
        ensures oldest { option_to_list result ++ buffered (buffers_of B.L.seen B.Held.conn self.new) ≡ buffered (buffers_of B.L.seen B.Held.conn self.old) }
        ensures same { result ≡ None → self.new ≡ self.old }
        ensures empty { result ≡ None → buffered (buffers_of B.L.seen B.Held.conn self.old) ≡ [] }
        ensures loss { self.new.is_lost ≡ self.old.is_lost }
        ensures startup { self.new.startup ≡ self.old.startup }
    {
        self.listening.next_buffered()
    }
}
