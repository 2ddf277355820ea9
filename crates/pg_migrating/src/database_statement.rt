//! Calls of one statement on a database.

ghost use Rattle.std.specs.Prelude.{◌≡◌, Result, option_copied, option_map};
ghost use Rattle.pg_wire.specs.declared.error.Error as declared_error;
ghost use Rattle.pg_call.specs.declared.kind.Kind.TheVariants as kinds;
ghost use Rattle.pg_migrating.specs.Databases.{Stays, TellsBy};
ghost use Rattle.pg_migrating.specs.Sessions.{Goes, Stands, is_over};
ghost use Rattle.pg_migrating.specs.declared.errand.Errand as declared_errand;

use crate::opening::Sessions;
use crate::reading::Reading;
use crate::session::{SessionOf, poll};
use crate::statement::Done;
use pg_guards::PgExecutor;
use pg_wire::{Error, Poll};
use std::alloc::Global;
use std::marker::PhantomData;

/// The state of a call of `MigrateDatabase` that asks one statement. Its first poll dials; once its statement is answered, its connection is let
/// go. A drop lets go what it has opened, and leaves the dial as it is.
pub struct DatabaseCall<'d, D: Sessions, R> {
    pub(crate) alloc: Global,
    pub(crate) dial: &'d mut D,
    pub(crate) session: SessionOf<D>,
    pub(crate) reading: PhantomData<R>,
}

/// The state of `create_database` and `drop_database` of `MigrateDatabase`.
pub type DatabaseStatement<'d, D> = DatabaseCall<'d, D, Done>;

impl<'d, D: Sessions, R> DatabaseCall<'d, D, R> {
    /// Whether a poll has ended the call.
    pub fn is_finished(&self) -> bool
        ensures { result ≡ is_over self.now.session }
    {
        self.session.is_over()
    }

    /// What holds the connection, once the start-up has come to it and until the call has ended.
    pub fn conn(&self) -> Option<&D::Conn>
        ensures { option_map D.Conn.conn (option_copied result) ≡ self.now.session.conn }
    {
        self.session.conn()
    }
}

impl<'d, D: Sessions, R: Reading> DatabaseCall<'d, D, R> {
    /// Moves the call on, by at most 256 calls of the link, and answers what is read of its answer.
    pub fn poll(&mut self) -> Poll<Result<R::Value, Error>>
        requires goes { Goes D.opens (kinds.Run R.how) self.old.session }
        ensures same { self.new.dial.ghost_name ≡ self.old.dial.ghost_name }
        ensures goes { Stays D.opens (kinds.Run R.how) self.new.session result }
        ensures tells { (asked : Result declared_errand.Errand declared_error.Error) (first : D) → Stands D.L.seen D.opens asked first self.old.session self.old.dial.now → TellsBy R.reads R.misreads D.L.seen D.opens asked first self.new.session self.new.dial.now result }
    {
        let mut left = 256;
        match poll(self.alloc, &mut self.session, self.dial, &mut left) {
            Poll::Pending => Poll::Pending,
            Poll::Ready(turn) => {
                self.session.close();
                Poll::Ready(R::read(self.alloc, turn))
            }
        }
    }
}

impl<D: Sessions, R> Drop for DatabaseCall<'_, D, R> {
    fn drop(self) {
        let DatabaseCall {
            alloc: _,
            dial: _,
            session: _,
            reading: _,
        } = self;
    }
}
