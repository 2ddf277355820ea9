//! The lock of migrations.

ghost use Rattle.std.specs.Prelude.{◌≡◌, ◌≤◌, true, false, not, None};
ghost use Rattle.pg_call.specs.declared.kind.How.TheVariants as hows;
ghost use Rattle.pg_call.specs.declared.kind.Kind.TheVariants as kinds;
ghost use Rattle.pg_call.specs.Answers.{TurnFits};
ghost use Rattle.pg_conn.specs.Connections.{ConnOf};
ghost use Rattle.pg_migrating.specs.Answers.{EndsBy};
ghost use Rattle.pg_migrating.specs.Asking.{CallsFor, is_asked, left_of};
ghost use Rattle.pg_migrating.specs.Locks.{CallsLock, HidesName, IsNamed, NameGoes, StandsLock, StaysLock, TellsLock, TellsName, lock_statement};
ghost use Rattle.pg_migrating.specs.Requests.{IsRequestOf};

use crate::asking::{Asking, Question};
use crate::binding::{INT8, bind, none};
use crate::demand::Demand;
use crate::reading::told;
use crate::requests::prepared;
use pg_call::{How, Turn};
use pg_guards::PgExecutor;
use pg_migrate::{MigrateError, current_database_text, generate_lock_id, lock_text, unlock_text};
use pg_wire::{Error, Poll, Text};
use std::alloc::Global;

/// Whether the lock is taken or given back.
#[derive(Clone, Copy)]
pub(crate) enum LockWay {
    Lock,
    Unlock,
}

/// The state of `Migrate::lock` and `Migrate::unlock`, which owns what holds the connection. It asks for the database's name, whose
/// `generate_lock_id` is the key of the lock, and then for the lock. It does nothing before its first poll, and is dropped as any call: a lock that
/// was sent may be held then. (PostgreSQL manual, "Explicit Locking", "Advisory Locks".)
pub struct MigrationLock<C: PgExecutor, Q = Question> {
    alloc: Global,
    asking: Asking<C, Q>,
    way: LockWay,
    is_named: bool,
}

// What asks for the lock of this key.
fn request(alloc: Global, way: LockWay, id: i64) -> Result<Demand, Error>
    ensures { IsRequestOf hows.Execute 0 (lock_statement way id) result }
{
    let key = bind(alloc, none(alloc), INT8, &id.to_be_bytes());
    match way {
        LockWay::Lock => prepared(alloc, How::Execute, lock_text(), key),
        LockWay::Unlock => prepared(alloc, How::Execute, unlock_text(), key),
    }
}

// The key of the lock of the database that the row names.
fn key_of(alloc: Global, turn: Turn) -> Result<i64, MigrateError>
    requires { TurnFits (kinds.Run hows.FetchOne) turn }
    ensures { EndsBy IsNamed HidesName turn result }
{
    match turn.into_one() {
        Ok(row) => match row.try_get::<Text>(alloc, 0) {
            Ok(name) => Ok(generate_lock_id(name.as_str())),
            Err(e) => Err(MigrateError::Execute(e)),
        },
        Err(e) => Err(MigrateError::Execute(e)),
    }
}

impl<C: PgExecutor> MigrationLock<C> {
    pub(crate) fn new(alloc: Global, conn: C, way: LockWay) -> Self
        ensures conn { result.asking.conn ≡ conn }
        ensures way { result.way ≡ way }
        ensures stands { StandsLock C.L.seen way (C.conn conn) result.is_named result.asking.question (C.conn result.asking.conn) }
        ensures goes { is_asked result.asking.question (C.conn result.asking.conn).call ≡ true }
        ensures calling { CallsLock result.is_named result.asking.question (C.conn result.asking.conn) }
    {
        let name = prepared(alloc, How::FetchOne, current_database_text(), none(alloc));
        MigrationLock {
            alloc,
            asking: Asking {
                conn,
                question: Some(name),
            },
            way,
            is_named: false,
        }
    }

    // One poll of the call that asks for the name. Where it was answered, the lock is asked, and there is no answer yet.
    fn poll_name(&mut self, left: &mut u16) -> Option<Poll<Result<(), MigrateError>>>
        requires over { is_asked self.old.asking.question (C.conn self.old.asking.conn).call ≡ true }
        requires left { left.old ≤ 256 }
        requires named { self.old.is_named ≡ false }
        requires calling { CallsFor (kinds.Run hows.FetchOne) self.old.asking.question (C.conn self.old.asking.conn) }
        ensures holder { self.new.asking.conn ≡ C.with_conn self.old.asking.conn (C.conn self.new.asking.conn) }
        ensures left { left.new ≤ left.old }
        ensures way { self.new.way ≡ self.old.way }
        ensures goes { NameGoes self.new.is_named self.new.asking.question (C.conn self.new.asking.conn) result }
        ensures tells { (first : ConnOf C.L) → StandsLock C.L.seen self.old.way first false self.old.asking.question (C.conn self.old.asking.conn) → TellsName C.L.seen self.old.way first self.new.asking.question (C.conn self.new.asking.conn) result }
    {
        match self.asking.poll(left) {
            Poll::Pending => Some(Poll::Pending),
            Poll::Ready(turn) => match key_of(self.alloc, turn) {
                Ok(id) => {
                    self.is_named = true;
                    let question = request(self.alloc, self.way, id);
                    self.asking.ask(question);
                    None
                }
                Err(e) => Some(Poll::Ready(Err(e))),
            },
        }
    }

    // One poll of the call that asks for the lock.
    fn poll_lock(&mut self, left: &mut u16) -> Poll<Result<(), MigrateError>>
        requires over { is_asked self.old.asking.question (C.conn self.old.asking.conn).call ≡ true }
        requires left { left.old ≤ 256 }
        requires named { self.old.is_named ≡ true }
        requires calling { CallsLock true self.old.asking.question (C.conn self.old.asking.conn) }
        ensures holder { self.new.asking.conn ≡ C.with_conn self.old.asking.conn (C.conn self.new.asking.conn) }
        ensures way { self.new.way ≡ self.old.way }
        ensures asked { self.new.asking.question ≡ None }
        ensures named { self.new.is_named ≡ true }
        ensures tells { (first : ConnOf C.L) → StandsLock C.L.seen self.old.way first true self.old.asking.question (C.conn self.old.asking.conn) → TellsLock C.L.seen self.old.way first true (C.conn self.new.asking.conn) result }
        ensures calling { StaysLock true (C.conn self.new.asking.conn) result }
    {
        match self.asking.poll_end(left) {
            Poll::Pending => Poll::Pending,
            Poll::Ready(end) => Poll::Ready(told(end)),
        }
    }

    /// Moves the call on, by at most 256 calls of the link.
    pub fn poll(&mut self) -> Poll<Result<(), MigrateError>>
        requires over { is_asked self.old.asking.question (C.conn self.old.asking.conn).call ≡ true }
        requires calling { CallsLock self.old.is_named self.old.asking.question (C.conn self.old.asking.conn) }
        ensures holder { self.new.asking.conn ≡ C.with_conn self.old.asking.conn (C.conn self.new.asking.conn) }
        ensures way { self.new.way ≡ self.old.way }
        ensures asked { self.new.asking.question ≡ None }
        ensures tells { (first : ConnOf C.L) → StandsLock C.L.seen self.old.way first self.old.is_named self.old.asking.question (C.conn self.old.asking.conn) → TellsLock C.L.seen self.old.way first self.new.is_named (C.conn self.new.asking.conn) result }
        ensures calling { StaysLock self.new.is_named (C.conn self.new.asking.conn) result }
    {
        let mut left = 256;
        if self.is_named {
            return self.poll_lock(&mut left);
        }
        match self.poll_name(&mut left) {
            Some(answer) => answer,
            None => self.poll_lock(&mut left),
        }
    }
}

impl<C: PgExecutor, Q> MigrationLock<C, Q> {
    /// Whether a poll has ended the call.
    pub fn is_finished(&self) -> bool
        ensures { result ≡ not (is_asked self.now.asking.question (C.conn self.now.asking.conn).call) }
    {
        !self.asking.is_asked()
    }
}

impl<C: PgExecutor, Q: Drop> MigrationLock<C, Q> {
    /// Hands back what holds the connection, as the drop of the state leaves it: a call that runs is given up.
    pub fn into_conn(self) -> C
        ensures { result ≡ C.with_conn self.asking.conn (left_of false self.asking.question (C.conn self.asking.conn)) }
    {
        let MigrationLock {
            alloc: _,
            asking,
            way: _,
            is_named: _,
        } = self;
        asking.into_conn(false)
    }
}

impl<C: PgExecutor + Drop, Q: Drop> Drop for MigrationLock<C, Q> {
    fn drop(self) {
        let conn = self.into_conn();
        let _ = conn;
    }
}
