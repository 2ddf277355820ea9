//! The call that takes a lock and waits for it: its statement is prepared, and then run with the key. Room for the guard is kept before it runs, so that
//! the lock can be released without memory wherever the call ends. (PostgreSQL manual, "Advisory Lock Functions".)
ghost use Rattle.std.specs.Prelude.{◌≡◌, OnErr, OnOk, IfOk, IfErr};
ghost use Rattle.pg_call.specs.declared.kind.How.TheVariants as hows;
ghost use Rattle.pg_call.specs.declared.kind.Kind.TheVariants as kinds;
ghost use Rattle.pg_conn.specs.Connections.{ConnOf, started_call, started_next};
ghost use Rattle.pg_conn.specs.States.{PollFits, to_prepare, untyped};
ghost use Rattle.pg_locks.specs.Locks.{lock_statement};
ghost use Rattle.pg_locking.specs.Locking.{GoesOnLocking, HearsLocked, IsLocking, Locks, PollsLock, PreparesBy, PreparesLock, StaysLocking, is_asked, is_due, left_locking, lock_at, lock_request};
ghost use Rattle.pg_locking.specs.Rooms.{IsHeld, IsUnheld};

use crate::holding::{give_up, hold};
use pg_conn::{PgConnection, Preparation, Request, Turn, prepare_request};
use pg_locks::{PgAdvisoryLockKey, key_query};
use pg_stream::Link;
use pg_wire::{Error, Poll, Text};

/// How far it has come.
#[derive(Clone, Copy, Debug)]
pub enum Stage {
    /// It was not polled yet.
    Asked,
    /// Its statement is prepared.
    Preparing,
    /// Its statement runs. Once so many groups are queued, it was asked for the lock.
    Locking(u64),
    /// It has ended.
    Over,
}

/// A lock that is waited for.
#[derive(Clone, Copy, Debug)]
pub(crate) struct LockCall {
    pub key: PgAdvisoryLockKey,
    pub stage: Stage,
}

// Whether the statement that locks was asked to run.
fn is_asked<L>(conn: &PgConnection<L>, at: u64) -> bool
    ensures { result ≡ is_asked at conn.now }
{
    at <= conn.progress().groups
}

// Whether the lock has to be released behind this error.
fn is_due<L>(conn: &PgConnection<L>, at: u64, error: &Error) -> bool
    ensures { result ≡ is_due at error.now conn.now }
{
    !matches!(error, Error::Database(_)) && is_asked(conn, at)
}

// Begins to prepare the statement.
fn prepare<L>(conn: &mut PgConnection<L>, key: PgAdvisoryLockKey) -> Result<(), Error>
    ensures ok { OnOk result (conn.new ≡ started_call (to_prepare (untyped (lock_statement key))) conn.old) }
    ensures err { OnErr result (conn.new ≡ conn.old) }
    ensures memory { IfErr result (λ e. e ≡ Error.OutOfMemory) }
{
    let alloc = conn.allocator();
    let sql = match Text::from_str(alloc, key.lock_statement()) {
        Ok(sql) => sql,
        Err(_) => return Err(Error::OutOfMemory),
    };
    conn.start(prepare_request(alloc, Preparation::untyped(alloc, sql)));
    Ok(())
}

// How many groups are queued once the statement is asked to run.
fn lock_at<L>(conn: &PgConnection<L>, sql: &str) -> u64
    ensures { result ≡ lock_at sql.now conn.now }
{
    let more = if conn.keeps_statement(sql) { 1 } else { 2 };
    conn.progress().groups.saturating_add(more)
}

// Begins to run it, with room for the guard. Without memory it is not begun.
fn run<L>(conn: &mut PgConnection<L>, key: PgAdvisoryLockKey) -> Result<u64, Error>
    ensures at { IfOk result (λ at. at ≡ lock_at (lock_statement key) conn.old) }
    ensures ok { OnOk result ((h : ConnOf L) × IsHeld conn.old h × (conn.new ≡ started_next (lock_request key) h)) }
    ensures err { OnErr result (IsUnheld conn.old conn.new) }
    ensures memory { IfErr result (λ e. e ≡ Error.OutOfMemory) }
{
    let sql = key.lock_statement();
    let query = match key_query(conn.allocator(), sql, key) {
        Ok(query) => query,
        Err(e) => return Err(e),
    };
    let at = lock_at(conn, sql);
    match hold(conn) {
        Ok(()) => {
            conn.start_next(Request::Execute(query));
            Ok(at)
        }
        Err(e) => {
            drop(query);
            Err(e)
        }
    }
}

impl LockCall {
    /// One that was not polled yet.
    pub fn new(key: PgAdvisoryLockKey) -> Self
        ensures { result ≡ record { key = key; stage = Stage.Asked } }
    {
        LockCall {
            key,
            stage: Stage::Asked,
        }
    }

    // What a poll has come to while the statement runs.
    fn hear_locked<L>(
        &mut self,
        conn: &mut PgConnection<L>,
        at: u64,
        answer: Poll<Turn>,
    ) -> Poll<Result<(), Error>>
        requires stage { self.old.stage ≡ Stage.Over }
        requires fits { PollFits (kinds.Run hows.Execute) conn.old answer }
        ensures key { self.new.key ≡ self.old.key }
        ensures hears { HearsLocked self.old.key at answer conn.old conn.new self.new.stage result }
        ensures stays { StaysLocking self.new.stage conn.new result }
    {
        match answer {
            Poll::Pending => {
                self.stage = Stage::Locking(at);
                Poll::Pending
            }
            Poll::Ready(turn) => match turn.into_total() {
                Ok(_) => Poll::Ready(Ok(())),
                Err(e) => {
                    let due = is_due(conn, at, &e);
                    give_up(conn, self.key, due);
                    Poll::Ready(Err(e))
                }
            },
        }
    }

    // The first poll of the statement, behind its preparation.
    fn lock<L: Link>(&mut self, conn: &mut PgConnection<L>) -> Poll<Result<(), Error>>
        requires { self.old.stage ≡ Stage.Over }
        ensures key { self.new.key ≡ self.old.key }
        ensures locks { Locks L.seen self.old.key conn.old conn.new self.new.stage result }
        ensures stays { StaysLocking self.new.stage conn.new result }
    {
        match run(conn, self.key) {
            Ok(at) => {
                let answer = conn.poll_more();
                self.hear_locked(conn, at, answer)
            }
            Err(e) => Poll::Ready(Err(e)),
        }
    }

    // What a poll has come to while the statement is prepared.
    fn hear_prepared<L: Link>(
        &mut self,
        conn: &mut PgConnection<L>,
        answer: Poll<Turn>,
    ) -> Poll<Result<(), Error>>
        requires stage { self.old.stage ≡ Stage.Over }
        requires fits { PollFits kinds.Prepare conn.old answer }
        ensures key { self.new.key ≡ self.old.key }
        ensures hears { PreparesBy L.seen self.old.key answer conn.old conn.new self.new.stage result }
        ensures stays { StaysLocking self.new.stage conn.new result }
    {
        match answer {
            Poll::Pending => {
                self.stage = Stage::Preparing;
                Poll::Pending
            }
            Poll::Ready(turn) => match turn.into_statement() {
                Ok(prepared) => {
                    drop(prepared);
                    self.lock(conn)
                }
                Err(e) => Poll::Ready(Err(e)),
            },
        }
    }

    // One poll of the preparation that runs.
    fn poll_prepare<L: Link>(&mut self, conn: &mut PgConnection<L>) -> Poll<Result<(), Error>>
        requires stage { self.old.stage ≡ Stage.Over }
        requires calling { IsLocking Stage.Preparing conn.old }
        ensures key { self.new.key ≡ self.old.key }
        ensures polls { PreparesLock L.seen self.old.key conn.old conn.new self.new.stage result }
        ensures stays { StaysLocking self.new.stage conn.new result }
    {
        let answer = conn.poll_call();
        self.hear_prepared(conn, answer)
    }

    // The first poll of all.
    fn poll_first<L: Link>(&mut self, conn: &mut PgConnection<L>) -> Poll<Result<(), Error>>
        requires { self.old.stage ≡ Stage.Over }
        ensures key { self.new.key ≡ self.old.key }
        ensures polls { PollsLock L.seen self.old.key Stage.Asked conn.old conn.new self.new.stage result }
        ensures stays { StaysLocking self.new.stage conn.new result }
    {
        match prepare(conn, self.key) {
            Ok(()) => self.poll_prepare(conn),
            Err(e) => Poll::Ready(Err(e)),
        }
    }

    // One poll of the statement that runs.
    fn poll_lock<L: Link>(&mut self, conn: &mut PgConnection<L>, at: u64) -> Poll<Result<(), Error>>
        requires stage { self.old.stage ≡ Stage.Over }
        requires calling { IsLocking (Stage.Locking at) conn.old }
        ensures key { self.new.key ≡ self.old.key }
        ensures polls { GoesOnLocking L.seen self.old.key at conn.old conn.new self.new.stage result }
        ensures stays { StaysLocking self.new.stage conn.new result }
    {
        let answer = conn.poll_call();
        self.hear_locked(conn, at, answer)
    }

    /// Moves the call on.
    pub fn poll<L: Link>(&mut self, conn: &mut PgConnection<L>) -> Poll<Result<(), Error>>
        requires { IsLocking self.old.stage conn.old }
        ensures key { self.new.key ≡ self.old.key }
        ensures polls { PollsLock L.seen self.old.key self.old.stage conn.old conn.new self.new.stage result }
        ensures stays { StaysLocking self.new.stage conn.new result }
    {
        let stage = self.stage;
        self.stage = Stage::Over;
        match stage {
            Stage::Asked => self.poll_first(conn),
            Stage::Preparing => self.poll_prepare(conn),
            Stage::Locking(at) => self.poll_lock(conn, at),
            Stage::Over => unreachable!(),
        }
    }

    /// Gives the call up where it runs. A lock that was asked for is released behind it.
    pub fn leave<L>(self, conn: &mut PgConnection<L>)
        ensures { conn.new ≡ left_locking self.key self.stage conn.old }
    {
        match self.stage {
            Stage::Asked | Stage::Over => {}
            Stage::Preparing => conn.abandon(),
            Stage::Locking(at) => {
                let due = is_asked(conn, at);
                give_up(conn, self.key, due);
            }
        }
    }
}
