//! The calls of a case of migrations.

use crate::migrating::calls::call;
use crate::migrating::telling::push;
use case_tools::entry;
use pg_guards::PgExecutor;
use pg_migrate::{Clock, Migration};
use pg_wire::{Blob, Text};
use std::alloc::{AllocError, Global};

// A migration with this number and this script.
fn migration(
    alloc: Global,
    number: &str,
    script: &str,
    no_tx: bool,
) -> Result<Migration, AllocError> {
    let sql = Text::from_str(alloc, script)?;
    let description = Text::from_str(alloc, "seven")?;
    let checksum = Blob::from_slice(alloc, b"sum")?;
    Ok(Migration {
        version: number.parse::<i64>().unwrap_or(7),
        description,
        sql,
        checksum,
        no_tx,
    })
}

// The number and the script of a migration: those of these words, or else number 7 and the script of the case.
fn parts<'a>(case: &'a str, words: &'a str) -> (&'a str, &'a str) {
    match words.split_once(' ') {
        Some(parts) => parts,
        None => ("7", entry(case, "script").unwrap_or("CREATE")),
    }
}

/// Makes a call on what holds a connection, and tells what it answered.
pub(crate) fn make_call<C: PgExecutor, K: Clock>(
    alloc: Global,
    case: &str,
    conn: &mut C,
    words: &str,
    clock: &mut K,
    polls: u64,
    told: &mut String,
) {
    let (word, of) = words.split_once(' ').unwrap_or((words, ""));
    let (number, script) = parts(case, of);
    match migration(alloc, number, script, entry(case, "no_tx").is_some()) {
        Ok(migration) => {
            call(alloc, &mut *conn, word, &migration, clock, polls, told);
            drop(migration);
        }
        Err(_) => push(told, "  no migration\n"),
    }
}
