ghost use Rattle.std.specs.Prelude.{◌≡◌, IfErr, OnOk, OnErr, [], ◌∷◌};
ghost use Rattle.pg_wire.specs.Decoding.{IsRefused};
ghost use Rattle.pg_stream.specs.Streams.{framed};
ghost use Rattle.pg_stream.specs.Asynchronous.{IsSaid};
ghost use Rattle.pg_stream.specs.Notifications.{none_kept, keeping_from, with_news, TakesOldest, KeepsBy};

use crate::parameters::memory_alone;
use pg_wire::{Error, Notification, decode_notification_response};
use std::alloc::{AllocError, Global};
use std::collections::VecDeque;
use std::marker::Model;

/// The notifications that were taken aside and kept, oldest first, and whether those that come are kept.
pub(crate) struct Notifications {
    keeping: bool,
    kept: VecDeque<Notification>,
}

impl Drop for Notifications {
    fn drop(self) {
        let Notifications {
            keeping: _,
            kept: _,
        } = self;
    }
}

impl Model for Notifications {
    ghost use Rattle.pg_stream.specs.Notifications.{KeptSeen};

    ghost Value = { KeptSeen };

    ghost view = { λ n. record { keeping = n.keeping; kept = n.kept.items } };
}

impl Notifications {
    pub(crate) fn new(alloc: Global) -> Self
        ensures { result ≡ none_kept }
    {
        Notifications {
            keeping: false,
            kept: VecDeque::new(alloc),
        }
    }

    /// Keeps those that come, or lets all go.
    pub(crate) fn keep(&mut self, keep: bool)
        ensures { self.new ≡ keeping_from keep self.old }
    {
        self.keeping = keep;
        if !keep {
            self.kept.clear();
        }
    }

    /// Takes the oldest.
    pub(crate) fn next(&mut self) -> Option<Notification>
        ensures { TakesOldest self.old self.new result }
    {
        self.kept.pop_front()
    }

    // Keeps one, where they are kept.
    fn add(&mut self, notification: Notification) -> Result<(), AllocError>
        ensures ok { OnOk result (self.new ≡ with_news (notification ∷ []) self.old) }
        ensures err { OnErr result (self.new ≡ self.old) }
    {
        if !self.keeping {
            return Ok(());
        }
        match self.kept.push_back(notification) {
            Ok(()) => Ok(()),
            Err(_) => Err(AllocError),
        }
    }

    /// Keeps the notification that the body of an `A` message tells, all or none of it.
    pub(crate) fn take(&mut self, alloc: Global, body: &[u8]) -> Result<(), Error>
        ensures said { OnOk result (IsSaid (framed 65 body.now)) }
        ensures keeps { OnOk result (KeepsBy (framed 65 body.now) self.old self.new) }
        ensures refused { IfErr result (λ e. IsRefused 65 body.now e) }
        ensures err { OnErr result (self.new ≡ self.old) }
    {
        let notification = decode_notification_response(alloc, body)?;
        self.add(notification)?;
        Ok(())
    }

    /// Keeps the notification that the body of an `A` message tells, where it is in its format.
    pub(crate) fn note(&mut self, alloc: Global, body: &[u8]) -> Result<(), AllocError>
        ensures keeps { OnOk result (KeepsBy (framed 65 body.now) self.old self.new) }
        ensures err { OnErr result (self.new ≡ self.old) }
    {
        match self.take(alloc, body) {
            Ok(()) => Ok(()),
            Err(error) => memory_alone(error),
        }
    }
}
