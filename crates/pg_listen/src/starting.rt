ghost use Rattle.std.specs.Prelude.{◌≡◌, ◌≤◌, ℕ, false, Some, IfOk, IfErr};
ghost use Rattle.pg_auth.specs.Nonce.{IsNonce};
ghost use Rattle.pg_startup.specs.Establishing.{Begins, IsLeft, RefusesStart, kept_link};
ghost use Rattle.pg_conn.specs.Connecting.{PollsConnect};
ghost use Rattle.pg_listen.specs.Handed.{UsesLeave, connection_of};

use crate::PoolConnection;
use pg_conn::{Establish, establish};
use pg_options::PgConnectOptions;
use pg_pool::Ticket;
use pg_stream::Link;
use pg_wire::{Error, Poll};
use std::alloc::Global;
use std::marker::Model;

/// A start-up on its way to a connection of a pool. It has the leave to make it, so it must be spent, by `into_ticket`.
pub struct EstablishPooled<L> {
    startup: Establish<L>,
    ticket: Option<Ticket>,
}

impl<L> Model for EstablishPooled<L> {
    ghost use Rattle.pg_listen.specs.Handed.{FillingOf, CanFill};

    ghost Value = { FillingOf L };

    ghost view = { λ e. record { connecting = e.startup; ticket = e.ticket } };

    ghost invariant = { λ e. CanFill (record { connecting = e.startup; ticket = e.ticket }) };
}

/// What becomes of the leave to make a connection.
pub trait TicketExt {
    ghost use Rattle.pg_listen.specs.Handed.{TicketSeen};

    /// The leave itself.
    ghost leave: { Self → TicketSeen };

    /// Begins a start-up over a link. The refusals that need no server come at once, before the link is touched, and hand the leave and the link
    /// back. The nonce is the client's for SCRAM. (PostgreSQL manual, "Message Flow", "Start-up" and "SSL Session Encryption".)
    fn establish<L: Link>(
        self,
        alloc: Global,
        options: &PgConnectOptions,
        nonce: &[u8],
        link: L,
    ) -> Result<EstablishPooled<L>, (Error, Ticket, L)>
        requires { IsNonce nonce.now }
        ensures ok { IfOk result (λ s. Begins options.now nonce.now (L.seen link).plan link s.connecting.startup × (s.ticket ≡ Some (leave self))) }
        ensures capacity { IfOk result (λ s. s.connecting.capacity ≡ options.now.statement_cache_capacity) }
        ensures err { IfErr result (λ e. RefusesStart options.now (L.seen link).plan e.0 × (e.1 ≡ leave self) × (e.2 ≡ link)) };
}

impl TicketExt for Ticket {
    ghost leave = { λ t. t };

    fn establish<L: Link>(
        self,
        alloc: Global,
        options: &PgConnectOptions,
        nonce: &[u8],
        link: L,
    ) -> Result<EstablishPooled<L>, (Error, Ticket, L)> {
        match establish(alloc, options, nonce, link) {
            Ok(startup) => Ok(EstablishPooled {
                startup,
                ticket: Some(self),
            }),
            Err((e, link)) => Err((e, self, link)),
        }
    }
}

impl<L> EstablishPooled<L> {
    /// Whether a poll has answered.
    pub fn is_finished(&self) -> bool
        ensures { result ≡ self.now.connecting.startup.is_finished }
    {
        self.startup.is_finished()
    }

    /// Gives the start-up up, and hands back the leave, which is gone exactly where a poll has answered the connection.
    pub fn into_ticket(self) -> Option<Ticket>
    where
        L: Drop,
        ensures { result ≡ self.ticket }
    {
        let EstablishPooled { startup, ticket } = self;
        drop(startup);
        ticket
    }

    /// The same, and hands back the link as well, which is gone exactly where a poll has answered the connection.
    pub fn into_parts(self) -> (Option<Ticket>, Option<L>)
        ensures ticket { result.0 ≡ self.ticket }
        ensures link { result.1 ≡ kept_link self.connecting.startup.phase }
    {
        let EstablishPooled { startup, ticket } = self;
        (ticket, startup.into_link())
    }
}

impl<L: Link> EstablishPooled<L> {
    /// Moves the start-up on, within so many calls of the link, of which it takes off as many as it makes.
    pub fn poll_within(&mut self, left: &mut u16) -> Poll<Result<PoolConnection<L>, Error>>
        requires left { left.old ≤ 256 }
        requires goes { self.old.connecting.startup.is_finished ≡ false }
        ensures ticket { UsesLeave self.old.ticket self.new.ticket result }
        ensures left { IsLeft self.new.connecting.startup result }
        ensures polls { PollsConnect L.seen left.old left.new self.old.connecting self.new.connecting (connection_of result) }
    {
        match self.startup.poll_within(left) {
            Poll::Pending => Poll::Pending,
            Poll::Ready(Err(e)) => Poll::Ready(Err(e)),
            Poll::Ready(Ok(conn)) => match self.ticket.take() {
                Some(ticket) => Poll::Ready(Ok(ticket.fill(conn))),
                None => unreachable!(),
            },
        }
    }

    /// Moves the start-up on, by at most 256 calls of the link.
    pub fn poll(&mut self) -> Poll<Result<PoolConnection<L>, Error>>
        requires { self.old.connecting.startup.is_finished ≡ false }
        ensures ticket { UsesLeave self.old.ticket self.new.ticket result }
        ensures left { IsLeft self.new.connecting.startup result }
        ensures polls { (left : ℕ) × PollsConnect L.seen 256 left self.old.connecting self.new.connecting (connection_of result) }
    {
        let mut left = 256;
        self.poll_within(&mut left)
    }
}
