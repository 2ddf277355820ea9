ghost use Rattle.std.specs.Prelude.{◌≡◌, ◌<◌, length};
ghost use Rattle.pg_stream.specs.Links.{Reads, Writes, Upgrades};
ghost use Rattle.pg_stream.specs.Sockets.{uncalled, is_wait};

use crate::{Asked, LinkRead, LinkUpgrade, LinkWrite, TlsWish};
use std::io::{ErrorKind, Read, Write};
use std::marker::Model;

// How long a read or a write waits where a link's maker says nothing else, in milliseconds.
pub(crate) const WAIT_MS: u64 = 10;

/// The counts of a link over a socket. It tells no bytes.
#[derive(Drop)]
pub(crate) struct SocketCounts {
    can_upgrade: bool,
    is_local: bool,
    asked: Asked,
    calls: u64,
    moved: u64,
    read_waits: u64,
    write_waits: u64,
    ends: u64,
    faults: u64,
    upgrade_faults: u64,
}

impl Model for SocketCounts {
    ghost use Rattle.std.specs.Prelude.{None};
    ghost use Rattle.pg_stream.specs.Links.{LinkSeen};
    ghost use Rattle.pg_stream.specs.Sockets.{socket_plan};

    ghost Value = { LinkSeen };

    ghost view = { λ c. record { plan = socket_plan c.can_upgrade c.is_local; secured = None; given = None; taken = None; wait_places = None; read_places = None; asked = c.asked; calls = c.calls; moved = c.moved; read_waits = c.read_waits; write_waits = c.write_waits; ends = c.ends; faults = c.faults; upgrade_faults = c.upgrade_faults } };
}

impl SocketCounts {
    // Nothing was called yet.
    pub(crate) fn new(is_local: bool) -> Self
        ensures { result ≡ uncalled is_local }
    {
        SocketCounts {
            can_upgrade: false,
            is_local,
            asked: Asked::none(),
            calls: 0,
            moved: 0,
            read_waits: 0,
            write_waits: 0,
            ends: 0,
            faults: 0,
            upgrade_faults: 0,
        }
    }

    // TLS is not to be had over a bare socket.
    pub(crate) fn can_upgrade(&self) -> bool
        ensures { result ≡ self.now.plan.can_upgrade }
    {
        self.can_upgrade
    }

    // Whether both ends are on this machine.
    pub(crate) fn is_local(&self) -> bool
        ensures { result ≡ self.now.plan.is_local }
    {
        self.is_local
    }

    // Reads once, and counts what came of it. A read of no bytes is the end.
    pub(crate) fn read<S: Read>(&mut self, socket: &mut S, into: &mut [u8]) -> LinkRead
        requires { 0 < length into.old }
        ensures { Reads self.old self.new result into.new }
    {
        self.calls = self.calls.saturating_add(1);
        self.asked = self.asked.with(into.len());
        match socket.read(into) {
            Ok(count) if count > 0 => {
                self.moved = self.moved.saturating_add(1);
                LinkRead::Moved(count)
            }
            Ok(_) => {
                self.ends = self.ends.saturating_add(1);
                LinkRead::End
            }
            Err(error) if is_wait(error.kind()) => {
                self.read_waits = self.read_waits.saturating_add(1);
                LinkRead::NotYet
            }
            Err(_) => {
                self.faults = self.faults.saturating_add(1);
                LinkRead::Failed
            }
        }
    }

    // Writes once, and counts what came of it. A write of no bytes has failed.
    pub(crate) fn write<S: Write>(&mut self, socket: &mut S, from: &[u8]) -> LinkWrite
        requires { 0 < length from.now }
        ensures { Writes self.old self.new result from.now }
    {
        self.calls = self.calls.saturating_add(1);
        match socket.write(from) {
            Ok(count) if count > 0 => {
                self.moved = self.moved.saturating_add(1);
                LinkWrite::Moved(count)
            }
            Err(error) if is_wait(error.kind()) => {
                self.write_waits = self.write_waits.saturating_add(1);
                LinkWrite::NotYet
            }
            _ => {
                self.faults = self.faults.saturating_add(1);
                LinkWrite::Failed
            }
        }
    }

    // There is none to be made.
    pub(crate) fn refuse_upgrade(&mut self, _wish: TlsWish) -> LinkUpgrade
        ensures { Upgrades self.old self.new _wish result }
    {
        self.calls = self.calls.saturating_add(1);
        self.upgrade_faults = self.upgrade_faults.saturating_add(1);
        LinkUpgrade::Failed
    }
}

// Whether nothing was moved only because it would have taken longer, or because a signal cut the wait short.
fn is_wait(kind: ErrorKind) -> bool
    ensures { result ≡ is_wait kind }
{
    matches!(
        kind,
        ErrorKind::WouldBlock | ErrorKind::TimedOut | ErrorKind::Interrupted
    )
}
