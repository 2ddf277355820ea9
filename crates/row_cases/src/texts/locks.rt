use crate::telling::{push, push_quoted};
use crate::texts::told::push_error;
use pg_locks::{PgAdvisoryLock, PgAdvisoryLockKey, key_line};
use std::alloc::Global;
use std::fmt::Write;

fn push_key(told: &mut String, alloc: Global, text: &str) {
    match PgAdvisoryLock::new(alloc, text) {
        Ok(lock) => {
            let key = lock.key();
            let _ = write!(told, "{key:?}");
        }
        Err(error) => push_error(told, error),
    }
}

// The key of a text's lock, and the line that tells it.
pub(crate) fn key_of_text(told: &mut String, alloc: Global, text: &str) {
    push_key(told, alloc, text);
    push(told, " ");
    match key_line(alloc, text) {
        Ok(line) => push_quoted(told, line.as_str()),
        Err(error) => push_error(told, error),
    }
}

// A number, or two with a comma between them.
fn key(row: &str) -> PgAdvisoryLockKey {
    match row.split_once(',') {
        Some((first, second)) => {
            PgAdvisoryLockKey::IntPair(first.parse().unwrap_or(0), second.parse().unwrap_or(0))
        }
        None => PgAdvisoryLockKey::BigInt(row.parse().unwrap_or(0)),
    }
}

// The texts of a key; the row is the key.
pub(crate) fn lock_texts(told: &mut String, row: &str) {
    let lock = PgAdvisoryLock::with_key(key(row));
    let key = lock.key();
    push(told, key.lock_statement());
    push(told, " | ");
    push(told, key.try_lock_statement());
    push(told, " | ");
    push(told, key.unlock_statement());
    push(told, " | ");
    let query = key.unlock_query();
    push(told, query.as_str());
}
