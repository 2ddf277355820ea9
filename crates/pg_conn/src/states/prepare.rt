ghost use Rattle.std.specs.Prelude.{◌≡◌, false, None, Some, option_map};
ghost use Rattle.pg_call.specs.declared.kind.Kind.TheVariants as kinds;
ghost use Rattle.pg_conn.specs.Connections.{seen_by, begun_by, is_over, left_by};
ghost use Rattle.pg_conn.specs.States.{IsCalling, KeepsCalling, PollsPrepare, StaysPreparing, TellsStatement, is_ready, to_prepare, untyped};

use crate::{Asks, PgConnection, PgStatement, Preparation, Request};
use pg_call::{Keeping, Prepared};
use pg_stream::Link;
use pg_wire::{Error, Oids, Poll, Sequence, Text};
use std::alloc::Global;
use std::mem;

/// The call `prepare`: it answers the statement as the server has described it. (PostgreSQL manual, "Message Flow", "Extended Query".)
pub struct Prepare<'c, L, R: Asks = Request> {
    conn: &'c mut PgConnection<L>,
    request: Option<R>,
    ghost calling: { KeepsCalling kinds.Prepare (option_map R.asked request) conn.now },
}

/// What prepares a statement, without taking memory.
pub fn prepare_request(alloc: Global, preparation: Preparation) -> Request
    ensures { result ≡ to_prepare preparation }
{
    let mut preparation = preparation;
    let sql = mem::replace(&mut preparation.sql, Text::new(alloc));
    let declared = mem::replace(&mut preparation.types, Sequence::new(alloc));
    Request::Prepare(Prepared {
        sql,
        parameters: Oids::new(alloc),
        columns: None,
        keeping: Keeping::Stays,
        declared: Some(declared),
    })
}

impl<L> PgConnection<L> {
    /// Prepares a statement, and asks what it takes and gives: the types of its parameters, which the server finds, and the columns of its rows.
    /// Nothing of the statement is kept at the server's side under a name, unless statements are kept.
    /// (PostgreSQL manual, "Message Flow", "Extended Query".)
    pub fn prepare(&mut self, sql: Text) -> Prepare<'_, L>
        ensures same { result.conn.ghost_name ≡ self.entry.ghost_name }
        ensures conn { result.conn.now ≡ self.old }
        ensures request { result.request ≡ Some (to_prepare (untyped sql)) }
        ensures calling { IsCalling kinds.Prepare (begun_by result.request result.conn.now) }
    {
        let preparation = Preparation::untyped(self.alloc, sql);
        self.prepare_with(preparation)
    }

    /// The same where the caller says the types of the first parameters; the server finds each that the caller doesn't say. A type that is known by its name
    /// alone is looked up first, unless a statement of this text is kept.
    pub fn prepare_with(&mut self, preparation: Preparation) -> Prepare<'_, L>
        ensures same { result.conn.ghost_name ≡ self.entry.ghost_name }
        ensures conn { result.conn.now ≡ self.old }
        ensures request { result.request ≡ Some (to_prepare preparation) }
        ensures calling { IsCalling kinds.Prepare (begun_by result.request result.conn.now) }
    {
        let request = prepare_request(self.alloc, preparation);
        Prepare {
            conn: self,
            request: Some(request),
        }
    }
}

impl<L> PgConnection<L> {
    /// What is told of a statement that was prepared on this connection: its columns have the types and the origins that were looked up. Only want of memory
    /// refuses it.
    pub fn statement(&self, prepared: Prepared) -> Result<PgStatement, Error>
        ensures { TellsStatement self.now.learnt prepared result }
    {
        PgStatement::told(self.alloc, &self.learnt, prepared)
    }
}

impl<L, R: Asks + Drop> Drop for Prepare<'_, L, R> {
    fn drop(self)
        ensures { self.exit.0.now ≡ left_by self.entry.request self.entry.conn.now }
    {
        let Prepare { conn, request } = self;
        conn.leave(request);
    }
}

impl<L> Prepare<'_, L> {
    /// Whether a poll has ended the call.
    pub fn is_finished(&self) -> bool
        ensures { result ≡ is_over self.now.request self.now.conn.now.call }
    {
        self.request.is_none() && !self.conn.is_running()
    }
}

impl<L: Link> Prepare<'_, L> {
    /// Moves the call on.
    pub fn poll(&mut self) -> Poll<Result<PgStatement, Error>>
        requires over { is_over self.old.request self.old.conn.now.call ≡ false }
        ensures same { self.new.conn.ghost_name ≡ self.old.conn.ghost_name }
        ensures asked { self.new.request ≡ None }
        ensures polls { PollsPrepare (seen_by L.seen (begun_by self.old.request self.old.conn.now)) (seen_by L.seen self.new.conn.now) result }
        ensures over { is_over self.new.request self.new.conn.now.call ≡ is_ready result }
        ensures calling { IsCalling kinds.Prepare (begun_by self.old.request self.old.conn.now) → StaysPreparing self.new.conn.now result }
    {
        match self.conn.poll_with(&mut self.request) {
            Poll::Pending => Poll::Pending,
            Poll::Ready(turn) => match turn.into_statement() {
                Ok(prepared) => Poll::Ready(self.conn.statement(prepared)),
                Err(e) => Poll::Ready(Err(e)),
            },
        }
    }
}
