ghost use Rattle.std.specs.Prelude.{◌≡◌, map};
ghost use Rattle.pg_script.specs.Reading.{Gives};
ghost use Rattle.pg_script.specs.Words.{begins_key, key_from, key_of};

use crate::bare::{found, int4_of, int8_of, parts};
use crate::error::LineError;
use pg_locks::PgAdvisoryLockKey;
use std::alloc::Global;

/// Whether a word begins as the key of a lock does, by a digit or a minus.
pub(crate) fn begins_key(word: &[u8]) -> bool
    ensures { result ≡ begins_key word.now }
{
    match word {
        [first, ..] => *first == b'-' || first.is_ascii_digit(),
        [] => false,
    }
}

// The key of these numbers.
fn key_from(parts: &[&[u8]]) -> Result<PgAdvisoryLockKey, LineError>
    ensures { Gives (λ k. k) result (key_from (map (λ p. p.now) parts.now)) }
{
    match parts {
        [number] => Ok(PgAdvisoryLockKey::BigInt(found(int8_of(number))?)),
        [first, second] => {
            let first = found(int4_of(first))?;
            let second = found(int4_of(second))?;
            Ok(PgAdvisoryLockKey::IntPair(first, second))
        }
        _ => Err(LineError::Bad),
    }
}

/// The key of a lock: one number, or two that a comma joins.
pub(crate) fn key_of(alloc: Global, word: &[u8]) -> Result<PgAdvisoryLockKey, LineError>
    ensures { Gives (λ k. k) result (key_of word.now) }
{
    let parts = parts(alloc, word)?;
    key_from(&parts)
}
