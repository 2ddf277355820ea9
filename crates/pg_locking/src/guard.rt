ghost use Rattle.std.specs.Prelude.{◌≡◌, None, Some, true, false};
ghost use Rattle.std.proofs.Common.{ap};
ghost use Rattle.pg_conn.specs.Holding.{took_held};
ghost use Rattle.pg_locks.specs.Locks.{unlock_query};

use crate::flag_call::Asking;
use crate::lock_call::Stage;
use crate::{AcquireLock, ForceRelease, ReleaseNow, TryAcquireLock};
use pg_conn::PgConnection;
use pg_guards::PgExecutor;
use pg_locks::{PgAdvisoryLock, PgAdvisoryLockKey};

/// A lock that is held, without what holds its connection: the room for its release stays on that connection. It must be spent, by `drop_on` or by
/// `leak_on`.
pub struct HeldLock {
    key: PgAdvisoryLockKey,
}

// Queues the text that releases the lock, on the connection that is held, and gives the room of a guard up.
fn release_on<C: PgExecutor>(holder: &mut C, key: PgAdvisoryLockKey)
    ensures { holder.new ≡ C.with_conn holder.old (took_held (Some (unlock_query key)) (C.conn holder.old)) }
{
    let text = key.unlock_query();
    let _ = holder.conn_mut().take_held(Some(text.as_str()));
}

// Gives the room of a guard up.
fn forget_on<C: PgExecutor>(holder: &mut C)
    ensures { holder.new ≡ C.with_conn holder.old (took_held None (C.conn holder.old)) }
{
    let _ = holder.conn_mut().take_held(None);
}

impl HeldLock {
    /// The lock of this key, which somebody has taken.
    pub(crate) fn new(key: PgAdvisoryLockKey) -> Self
        ensures { result ≡ record { key = key } }
    {
        HeldLock { key }
    }

    pub fn key(&self) -> &PgAdvisoryLockKey
        ensures { result.now ≡ self.now.key }
    {
        &self.key
    }

    /// Releases the lock without waiting: the text that does is queued, and the next call on the connection sends it. It takes no memory. On a connection
    /// on which no lock is held it does nothing. (PostgreSQL manual, "Advisory Lock Functions".)
    pub fn drop_on<C: PgExecutor>(self, conn: &mut C)
        ensures { conn.new ≡ C.with_conn conn.old (took_held (Some (unlock_query self.key)) (C.conn conn.old)) }
    {
        let HeldLock { key } = self;
        release_on(conn, key);
    }

    /// Leaves the lock to the session, which holds it to its end.
    pub fn leak_on<C: PgExecutor>(self, conn: &mut C)
        ensures { conn.new ≡ C.with_conn conn.old (took_held None (C.conn conn.old)) }
    {
        let HeldLock { key: _ } = self;
        forget_on(conn);
    }

    /// Its key alone, without its room.
    pub(crate) fn into_key(self) -> PgAdvisoryLockKey
        ensures { result ≡ self.key }
    {
        let HeldLock { key } = self;
        key
    }
}

/// An advisory lock that is held by the session of the connection which `C` holds. Where the guard is dropped the lock is released without waiting: the
/// next call on the connection sends the text that does, and no memory is taken. Where the connection was exchanged by `conn_mut` for another one, on which
/// no lock is held, nothing is queued there. (PostgreSQL manual, "Explicit Locking", "Advisory Locks".)
pub struct PgAdvisoryLockGuard<C: PgExecutor> {
    conn: C,
    lock: HeldLock,
}

impl<C: PgExecutor> PgAdvisoryLockGuard<C> {
    /// Takes a lock, and waits for it. (PostgreSQL manual, "Advisory Lock Functions", pg_advisory_lock.)
    pub fn acquire(lock: &PgAdvisoryLock, conn: C) -> AcquireLock<C>
        ensures conn { result.conn ≡ Some conn }
        ensures call { result.call ≡ record { key = lock.now.key; stage = Stage.Asked } }
    {
        AcquireLock::new(conn, *lock.key())
    }

    /// Takes a lock where nobody else holds it. (PostgreSQL manual, "Advisory Lock Functions", pg_try_advisory_lock.)
    pub fn try_acquire(lock: &PgAdvisoryLock, conn: C) -> TryAcquireLock<C>
        ensures conn { result.conn ≡ Some conn }
        ensures call { result.call ≡ record { key = lock.now.key; holds = true; asking = Asking.Asked } }
    {
        TryAcquireLock::new(conn, *lock.key())
    }

    /// Releases a lock, whether or not a guard holds it, and tells whether the session held it.
    /// (PostgreSQL manual, "Advisory Lock Functions", pg_advisory_unlock.)
    pub fn force_release(lock: &PgAdvisoryLock, conn: C) -> ForceRelease<C>
        ensures conn { result.conn ≡ Some conn }
        ensures call { result.call ≡ record { key = lock.now.key; holds = false; asking = Asking.Asked } }
    {
        ForceRelease::new(conn, *lock.key())
    }

    /// The guard of a lock that was taken on what is held.
    pub(crate) fn over(conn: C, key: PgAdvisoryLockKey) -> Self
        ensures conn { result.conn ≡ conn }
        ensures lock { result.lock ≡ record { key = key } }
    {
        PgAdvisoryLockGuard {
            conn,
            lock: HeldLock::new(key),
        }
    }

    pub fn key(&self) -> &PgAdvisoryLockKey
        ensures { result.now ≡ self.now.lock.key }
    {
        self.lock.key()
    }

    /// What holds the connection, and the lock without it. The lock is still held.
    pub fn into_parts(self) -> (C, HeldLock)
        ensures { result ≡ (self.conn, self.lock) }
    {
        let PgAdvisoryLockGuard { conn, lock } = self;
        (conn, lock)
    }

    /// Releases the lock as the drop of the guard does, and hands back what holds the connection.
    pub fn into_conn(self) -> C
        ensures { result ≡ C.with_conn self.conn (took_held (Some (unlock_query self.lock.key)) (C.conn self.conn)) }
    {
        let (conn, lock) = self.into_parts();
        let mut conn = conn;
        lock.drop_on(&mut conn);
        conn
    }

    /// Leaves the lock to the session, which holds it to its end, and hands back what holds the connection.
    pub fn leak(self) -> C
        ensures { result ≡ C.with_conn self.conn (took_held None (C.conn self.conn)) }
    {
        let (conn, lock) = self.into_parts();
        let mut conn = conn;
        lock.leak_on(&mut conn);
        conn
    }

    /// Releases the lock and waits for that. (PostgreSQL manual, "Advisory Lock Functions", pg_advisory_unlock.)
    pub fn release_now(self) -> ReleaseNow<C>
        ensures conn { result.conn ≡ Some self.conn }
        ensures call { result.call ≡ record { key = self.lock.key; holds = false; asking = Asking.Asked } }
    {
        ReleaseNow::new(self)
    }
}

impl<C: PgExecutor + Drop> Drop for PgAdvisoryLockGuard<C> {
    fn drop(self) {
        let conn = self.into_conn();
        let _ = conn;
    }
}

impl<C: PgExecutor> PgExecutor for PgAdvisoryLockGuard<C> {
    type L = C::L;

    ghost conn = { λ t. C.conn t.conn };

    ghost with_conn = { λ t w. record t { conn = C.with_conn t.conn w } };

    ghost written = { λ t w. C.written t.conn w };

    ghost unwritten = { λ t. ap (λ c. record t { conn = c }) (C.unwritten t.conn) };

    ghost overwritten = { λ t v w. ap (λ c. record t { conn = c }) (C.overwritten t.conn v w) };

    fn conn_ref(&self) -> &PgConnection<C::L> {
        self.conn.conn_ref()
    }

    fn conn_mut(&mut self) -> &mut PgConnection<C::L> {
        self.conn.conn_mut()
    }
}
