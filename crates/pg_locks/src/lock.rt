ghost use Rattle.std.specs.Prelude.{◌≡◌, IfOk, IfErr};
ghost use Rattle.pg_wire.specs.declared.error.Error.TheVariants.{OutOfMemory};
ghost use Rattle.pg_locks.specs.declared.key.PgAdvisoryLockKey.TheVariants.{BigInt};
ghost use Rattle.pg_locks.specs.Locks.{number_of_text};

use crate::key::PgAdvisoryLockKey;
use pg_wire::Error;
use std::alloc::Global;

/// A lock that the clients of a database agree upon. The server holds it for a session, and it stands for nothing in the database.
/// (PostgreSQL manual, "Advisory Locks".)
#[derive(Clone, Copy, Debug)]
pub struct PgAdvisoryLock {
    key: PgAdvisoryLockKey,
}

impl PgAdvisoryLock {
    /// The lock of a text: its key is that of `PgAdvisoryLockKey::from_text`. Only want of memory refuses it.
    pub fn new(alloc: Global, key_string: &str) -> Result<Self, Error>
        ensures lock { IfOk result (λ lock. lock.key ≡ BigInt (number_of_text key_string.now)) }
        ensures memory { IfErr result (λ e. e ≡ OutOfMemory) }
    {
        let key = PgAdvisoryLockKey::from_text(alloc, key_string)?;
        Ok(PgAdvisoryLock { key })
    }

    /// The lock of a key, without taking memory.
    pub fn with_key(key: PgAdvisoryLockKey) -> Self
        ensures { result.key ≡ key }
    {
        PgAdvisoryLock { key }
    }

    pub fn key(&self) -> &PgAdvisoryLockKey
        ensures { result.now ≡ self.now.key }
    {
        &self.key
    }
}
