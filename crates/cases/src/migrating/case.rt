//! What a case says.

use case_tools::{behind, entry, reads};
use pg_conn::PgConnection;
use pg_locking::PgAdvisoryLockKey;
use pg_stream::MemoryLink;
use pg_wire::{Error, Sequence};
use std::alloc::{AllocError, Global};

fn subject(case: &str) -> Option<&str> {
    entry(case, "database")
        .or(entry(case, "lock"))
        .or(entry(case, "migration"))
}

/// Whether it is a case of migrations, databases or locks.
pub(crate) fn is_case(case: &str) -> bool {
    subject(case).is_some()
}

/// What a case is about.
pub(crate) fn about(case: &str) -> &str {
    subject(case).unwrap_or("")
}

/// The numbers behind the marks of this word.
pub(crate) fn numbers(alloc: Global, case: &str, mark: &str) -> Result<Vec<u64>, AllocError> {
    let mut numbers = Vec::new(alloc);
    for line in case.lines() {
        if let Some(digits) = behind(line, mark) {
            numbers.push(digits.parse::<u64>().unwrap_or(0))?;
        }
    }
    Ok(numbers)
}

fn pair(first: &str, second: &str) -> PgAdvisoryLockKey {
    PgAdvisoryLockKey::IntPair(
        first.parse::<i32>().unwrap_or(0),
        second.parse::<i32>().unwrap_or(0),
    )
}

/// What a lock is taken on.
pub(crate) fn key(case: &str) -> PgAdvisoryLockKey {
    let numbers = entry(case, "key").unwrap_or("5");
    match numbers.split_once(' ') {
        Some((first, second)) => pair(first, second),
        None => PgAdvisoryLockKey::BigInt(numbers.parse::<i64>().unwrap_or(0)),
    }
}

/// The connection in memory whose server sends the lines of this mark.
pub(crate) fn connect(
    alloc: Global,
    case: &str,
    mark: &str,
) -> Result<PgConnection<MemoryLink>, Error> {
    let reads = reads(alloc, case, mark)?;
    let url = entry(case, "url").unwrap_or("postgres://u@h");
    case_tools::connect(alloc, url, reads, Sequence::new(alloc))
}
