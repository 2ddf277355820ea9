//! Queries with the numbers of a key as their arguments.
ghost use Rattle.std.specs.Prelude.{◌≡◌, IfOk, IfErr};
ghost use Rattle.pg_locks.specs.Keys.{HasKey, with_key};

use crate::key::PgAdvisoryLockKey;
use pg_arguments::PgArguments;
use pg_request::Query;
use pg_wire::Error;
use std::alloc::Global;

// An int8.
fn one_number(alloc: Global, number: i64) -> Result<PgArguments, Error>
    ensures ok { IfOk result (HasKey (PgAdvisoryLockKey.BigInt number)) }
    ensures memory { IfErr result (λ e. e ≡ Error.OutOfMemory) }
{
    let mut arguments = PgArguments::new(alloc);
    match arguments.add(number) {
        Ok(()) => Ok(arguments),
        Err(_) => Err(Error::OutOfMemory),
    }
}

// Two int4.
fn two_numbers(alloc: Global, first: i32, second: i32) -> Result<PgArguments, Error>
    ensures ok { IfOk result (HasKey (PgAdvisoryLockKey.IntPair first second)) }
    ensures memory { IfErr result (λ e. e ≡ Error.OutOfMemory) }
{
    let mut arguments = PgArguments::new(alloc);
    match arguments.add(first) {
        Ok(()) => {}
        Err(_) => return Err(Error::OutOfMemory),
    }
    match arguments.add(second) {
        Ok(()) => Ok(arguments),
        Err(_) => Err(Error::OutOfMemory),
    }
}

// The numbers of a key.
fn arguments_of(alloc: Global, key: PgAdvisoryLockKey) -> Result<PgArguments, Error>
    ensures ok { IfOk result (HasKey key) }
    ensures memory { IfErr result (λ e. e ≡ Error.OutOfMemory) }
{
    match key {
        PgAdvisoryLockKey::BigInt(number) => one_number(alloc, number),
        PgAdvisoryLockKey::IntPair(first, second) => two_numbers(alloc, first, second),
    }
}

/// The query of this text with them, whose statement is kept. Their types are built in, so only want of memory refuses it.
pub fn key_query(alloc: Global, sql: &str, key: PgAdvisoryLockKey) -> Result<Query, Error>
    ensures ok { IfOk result (λ query. query ≡ with_key sql.now key) }
    ensures memory { IfErr result (λ e. e ≡ Error.OutOfMemory) }
{
    match arguments_of(alloc, key) {
        Ok(arguments) => match Query::with(alloc, sql, &arguments) {
            Ok(query) => Ok(query),
            Err(_) => Err(Error::OutOfMemory),
        },
        Err(e) => Err(e),
    }
}
