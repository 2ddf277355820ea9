//! Where a listener's connections come from.
ghost use Rattle.std.specs.Prelude.{◌≡◌, ◌≤◌, IfErr, IfOk, IfSome, IsSome, None, option_and_then, option_map};
ghost use Rattle.pg_startup.specs.Establishing.{kept_link};
ghost use Rattle.pg_listen.specs.Pools.{Section};
ghost use Rattle.pg_listening.specs.Failing.{FindsNone, beside_of};
ghost use Rattle.pg_listening.specs.Sources.{IsDialled, IsSeated};
ghost use Rattle.pg_listening.specs.Leaving.{Drops, FillsOn, GivesBack, HeldIs, IsFound, PollsStartUp, RefusesClosed, StartsIn};

use pg_guards::PgExecutor;
use pg_listen::Released;
use pg_stream::Link;
use pg_wire::{Error, Poll};
use std::alloc::Global;
use std::sync::Wait;

/// What a pool has for a listener.
pub enum Found<C, S> {
    Held(C),
    Starting(S),
}

/// A pool with a participant of it, and a dial. What holds a connection of it, and a start-up on its way to one, are types of their own here, since a function
/// that names them, a pool or a dial by their parts is dear to prove.
pub trait ConnectionSource {
    ghost use Rattle.pg_conn.specs.Connections.{ConnOf};
    ghost use Rattle.pg_listen.specs.Handed.{FillingOf, HeldOf};
    ghost use Rattle.pg_listening.specs.Sources.{SourceSeen};

    /// The links of its connections.
    type L: Link;

    /// What holds a connection that it has handed out.
    type Held: PgExecutor<L = Self::L>;

    /// A start-up on its way to a connection.
    type Startup;

    /// What holds a connection, as a pool knows it.
    ghost handed: { Self.Held → HeldOf Self.L };

    /// Such a start-up, as one of a pool.
    ghost filling: { Self.Startup → FillingOf Self.L };

    /// What is seen of it.
    ghost now: { Self → SourceSeen };

    /// A connection that is idle, or else a start-up. Where there is neither, the link that was dialled is handed back.
    fn find<R: Wait>(
        &mut self,
        rt: &R,
        alloc: Global,
    ) -> Result<Found<Self::Held, Self::Startup>, (Error, Option<Self::L>)>
        ensures found { IfOk result (IsFound Self.L.seen handed filling (now self.old).name) }
        ensures faults { IfOk result (λ found. (now self.new).faults ≡ (now self.old).faults) }
        ensures none { IfErr result (λ e. FindsNone Self.L.seen (beside_of (now self.old) (now self.new)) e.0 e.1) }
        ensures source { IsDialled (now self.old) (now self.new) };

    /// Moves a start-up on. Behind its end it is gone, and where it has failed its leave is given back, and its link handed back.
    fn poll_startup<R: Wait>(
        &mut self,
        rt: &R,
        startup: &mut Option<Self::Startup>,
        left: &mut u16,
    ) -> Poll<Result<Self::Held, (Error, Option<Self::L>)>>
    where
        Self::L: Drop,
        requires starts { IsSome startup.old }
        requires mine { StartsIn Self.L.seen filling (now self.old).name startup.old }
        requires left { left.old ≤ 256 }
        ensures fills { FillsOn Self.L.seen handed filling (now self.old).name startup.new result }
        ensures left { left.new ≤ left.old }
        ensures polls { PollsStartUp Self.L.seen filling left.old left.new startup.old startup.new result }
        ensures source { IsSeated (now self.old) (now self.new) };

    /// Gives a start-up up, and its leave back. Its link is handed back, unless a connection has it.
    fn give_up<R: Wait>(&mut self, rt: &R, startup: &mut Option<Self::Startup>) -> Option<Self::L>
        requires { StartsIn Self.L.seen filling (now self.old).name startup.old }
        ensures gone { startup.new ≡ None }
        ensures link { result ≡ option_and_then (λ s. kept_link (filling s).connecting.startup.phase) startup.old }
        ensures source { IsSeated (now self.old) (now self.new) };

    /// Hands a connection back, which the pool is to keep no longer: its link.
    fn close<R: Wait>(&mut self, rt: &R, held: &mut Option<Self::Held>) -> Option<Self::L>
        requires { HeldIs handed (now self.old).name held.old }
        ensures gone { held.new ≡ None }
        ensures link { result ≡ option_map (λ h. (Self.Held.conn h).stream.link) held.old }
        ensures drops { IfSome held.old (λ h. Section {A = Self.L} (now self.old).most (λ a b. Drops (now self.old).seat (now self.new).seat a b (handed h).id)) }
        ensures source { IsSeated (now self.old) (now self.new) };

    /// Gives a connection back to the pool.
    fn release<R: Wait>(
        &mut self,
        rt: &R,
        held: &mut Option<Self::Held>,
    ) -> Option<Released<Self::L>>
        requires { HeldIs handed (now self.old).name held.old }
        ensures gone { held.new ≡ None }
        ensures releases { GivesBack (now self.old).most (now self.old).seat (now self.new).seat (option_map handed held.old) result }
        ensures source { IsSeated (now self.old) (now self.new) };

    /// Where the pool was closed, this is noted, and is an error with the place of that entry.
    fn refuse_closed<R: Wait>(&mut self, rt: &R) -> Result<(), Error>
        ensures closed { Section {A = Self.L} (now self.old).most (λ a b. RefusesClosed (now self.old).seat (now self.new).seat a b result) }
        ensures source { IsSeated (now self.old) (now self.new) };

    /// What is done with a connection leaves what else the pool knows of it.
    ghost handed_with: { (c : Self.Held) (w : ConnOf Self.L) → handed (Self.Held.with_conn c w) ≡ record (handed c) { conn = w } };
}
