//! Calls of one statement.

ghost use Rattle.std.specs.Prelude.{◌≡◌, true, false, not, None, Result};
ghost use Rattle.pg_wire.specs.declared.error.Error as declared_error;
ghost use Rattle.pg_call.specs.declared.kind.How.TheVariants as hows;
ghost use Rattle.pg_call.specs.declared.kind.Kind.TheVariants as kinds;
ghost use Rattle.pg_call.specs.declared.request.Request as declared_request;
ghost use Rattle.pg_conn.specs.Connections.{ConnOf};
ghost use Rattle.pg_migrating.specs.Asking.{CallsFor, StandsAt, StaysFor, is_asked, left_of};
ghost use Rattle.pg_migrating.specs.Answers.{TellsBy, is_done, never};

use crate::asking::{Asking, Question};
use crate::reading::{Reading, told};
use pg_call::Turn;
use pg_guards::PgExecutor;
use pg_migrate::MigrateError;
use pg_wire::{Error, Poll};
use std::alloc::Global;
use std::marker::PhantomData;

/// The state of a call of `Migrate` that asks one statement, which owns what holds the connection. It does nothing before its first poll, and is
/// dropped as any call.
pub struct MigrateCall<C: PgExecutor, R, Q = Question> {
    pub(crate) alloc: Global,
    pub(crate) asking: Asking<C, Q>,
    pub(crate) reading: PhantomData<R>,
}

/// Nothing is read of the answer.
#[derive(Clone, Copy)]
pub struct Done;

/// The state of `create_schema_if_not_exists`, `ensure_migrations_table` and `skip` of `Migrate`.
pub type MigrateStatement<C> = MigrateCall<C, Done>;

impl Reading for Done {
    type Value = ();

    ghost how = { hows.Execute };

    ghost reads = { is_done };

    ghost misreads = { never };

    fn read(_alloc: Global, turn: Turn) -> Result<(), Error> {
        match turn.into_total() {
            Ok(_) => Ok(()),
            Err(e) => Err(e),
        }
    }
}

impl<C: PgExecutor, R, Q> MigrateCall<C, R, Q> {
    /// Whether a poll has ended the call.
    pub fn is_finished(&self) -> bool
        ensures { result ≡ not (is_asked self.now.asking.question (C.conn self.now.asking.conn).call) }
    {
        !self.asking.is_asked()
    }
}

impl<C: PgExecutor, R, Q: Drop> MigrateCall<C, R, Q> {
    /// Hands back what holds the connection, as the drop of the state leaves it: a call that runs is given up.
    pub fn into_conn(self) -> C
        ensures { result ≡ C.with_conn self.asking.conn (left_of false self.asking.question (C.conn self.asking.conn)) }
    {
        let MigrateCall {
            alloc: _,
            asking,
            reading: _,
        } = self;
        asking.into_conn(false)
    }
}

impl<C: PgExecutor, R: Reading> MigrateCall<C, R> {
    /// Moves the call on, by at most 256 calls of the link, and answers what is read of its answer.
    pub fn poll(&mut self) -> Poll<Result<R::Value, MigrateError>>
        requires over { is_asked self.old.asking.question (C.conn self.old.asking.conn).call ≡ true }
        requires calling { CallsFor (kinds.Run R.how) self.old.asking.question (C.conn self.old.asking.conn) }
        ensures holder { self.new.asking.conn ≡ C.with_conn self.old.asking.conn (C.conn self.new.asking.conn) }
        ensures asked { self.new.asking.question ≡ None }
        ensures tells { (asked : Result declared_request.Request declared_error.Error) (first : ConnOf C.L) → StandsAt C.L.seen asked first self.old.asking.question (C.conn self.old.asking.conn) → TellsBy R.reads R.misreads C.L.seen asked first (C.conn self.new.asking.conn) result }
        ensures calling { StaysFor (kinds.Run R.how) (C.conn self.new.asking.conn) result }
    {
        let mut left = 256;
        match self.asking.poll(&mut left) {
            Poll::Pending => Poll::Pending,
            Poll::Ready(turn) => Poll::Ready(told(R::read(self.alloc, turn))),
        }
    }
}

impl<C: PgExecutor + Drop, R, Q: Drop> Drop for MigrateCall<C, R, Q> {
    fn drop(self) {
        let conn = self.into_conn();
        let _ = conn;
    }
}
