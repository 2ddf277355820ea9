ghost use Rattle.std.specs.Prelude.{◌≡◌, IfOk, IfErr};
ghost use Rattle.pg_wire.specs.declared.error.Error.TheVariants.{OutOfMemory};
ghost use Rattle.pg_locks.specs.declared.key.PgAdvisoryLockKey.TheVariants.{BigInt};
ghost use Rattle.pg_locks.specs.Locks.{number_of_text, as_bigint};

use pg_auth::hkdf8;
use pg_wire::Error;
use std::alloc::Global;

/// What an advisory lock is taken on: a number of 64 bits, or two of 32 bits. No key of one kind is a key of the other.
/// (PostgreSQL manual, "Advisory Lock Functions".)
#[derive(Clone, Copy, Debug, PartialEq, Eq)]
pub enum PgAdvisoryLockKey {
    BigInt(i64),
    IntPair(i32, i32),
}

// The first eight bytes that HKDF over SHA-256 (RFC 5869) expands from a text, read from the low byte on.
#[tactic(auto, unfolding(crate::specs::Locks::info))]
pub(crate) fn number_of_text(alloc: Global, text: &str) -> Result<i64, Error>
    ensures value { IfOk result (λ number. number ≡ number_of_text text.now) }
    ensures memory { IfErr result (λ e. e ≡ OutOfMemory) }
{
    let bytes = hkdf8(
        alloc,
        text.as_bytes(),
        b"SQLx (Rust) Postgres advisory lock",
    )?;
    Ok(i64::from_le_bytes(bytes))
}

impl PgAdvisoryLockKey {
    /// The key that stands for a text, the same one on every machine: the first eight bytes that HKDF over SHA-256 (RFC 5869)
    /// expands from it, read from the low byte on. Only want of memory refuses it.
    pub fn from_text(alloc: Global, text: &str) -> Result<Self, Error>
        ensures value { IfOk result (λ key. key ≡ BigInt (number_of_text text.now)) }
        ensures memory { IfErr result (λ e. e ≡ OutOfMemory) }
    {
        let number = number_of_text(alloc, text)?;
        Ok(PgAdvisoryLockKey::BigInt(number))
    }

    /// The number of 64 bits, where the key is one.
    pub fn as_bigint(&self) -> Option<i64>
        ensures { result ≡ as_bigint self.now }
    {
        match self {
            PgAdvisoryLockKey::BigInt(number) => Some(*number),
            PgAdvisoryLockKey::IntPair(_, _) => None,
        }
    }
}
