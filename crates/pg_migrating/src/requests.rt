//! The requests of the statements.

ghost use Rattle.std.specs.Prelude.{List};
ghost use Rattle.pg_call.specs.declared.kind.How.TheVariants as hows;
ghost use Rattle.pg_migrate.specs.Orders.{Bound, Prepared, Script, row_of};
ghost use Rattle.pg_migrating.specs.Requests.{Binds, IsRequestOf};
ghost use Rattle.pg_migrating.specs.Texts.{text_of};

use crate::binding::{BYTEA, INT8, TEXT, bind, none, version_of};
use crate::demand::{Demand, Wish};
use crate::texts::{Wording, text};
use pg_arguments::PgArguments;
use pg_call::How;
use pg_migrate::Migration;
use pg_request::Query;
use pg_wire::{Error, Text};
use std::alloc::Global;

/// A text without arguments, which may hold several statements.
pub(crate) fn script(alloc: Global, sql: &str) -> Result<Demand, Error>
    ensures { IsRequestOf hows.Execute 0 (Script sql.now) result }
{
    match Query::raw(alloc, sql) {
        Ok(query) => Ok(Demand {
            of: Wish::Query(How::Execute, query),
        }),
        Err(e) => Err(e),
    }
}

/// A statement with these arguments, where there are such.
pub(crate) fn prepared(
    alloc: Global,
    how: How,
    sql: &str,
    arguments: Result<PgArguments, Error>,
) -> Result<Demand, Error>
    ensures { (bounds : List Bound) → Binds bounds arguments → IsRequestOf how 0 (Prepared sql.now bounds) result }
{
    let arguments = match arguments {
        Ok(arguments) => arguments,
        Err(e) => return Err(e),
    };
    match Query::with(alloc, sql, &arguments) {
        Ok(query) => Ok(Demand {
            of: Wish::Query(how, query),
        }),
        Err(e) => Err(e),
    }
}

/// A text over this name, without arguments.
pub(crate) fn named_script(alloc: Global, wording: Wording, name: &str) -> Result<Demand, Error>
    ensures { IsRequestOf hows.Execute 0 (Script (text_of wording name.now)) result }
{
    match text(alloc, wording, name) {
        Ok(sql) => Ok(Demand {
            of: Wish::Query(How::Execute, Query::from_text(Text::from_string(sql))),
        }),
        Err(_) => Err(Error::OutOfMemory),
    }
}

/// A text over this name, with these arguments, where there are such.
pub(crate) fn named(
    alloc: Global,
    how: How,
    wording: Wording,
    name: &str,
    arguments: Result<PgArguments, Error>,
) -> Result<Demand, Error>
    ensures { (bounds : List Bound) → Binds bounds arguments → IsRequestOf how 0 (Prepared (text_of wording name.now) bounds) result }
{
    match text(alloc, wording, name) {
        Ok(sql) => prepared(alloc, how, sql.as_str(), arguments),
        Err(_) => {
            drop(arguments);
            Err(Error::OutOfMemory)
        }
    }
}

/// What adds the row of a migration.
pub(crate) fn insert_row(alloc: Global, table: &str, migration: &Migration) -> Result<Demand, Error>
    ensures { IsRequestOf hows.Execute 0 (row_of table.now migration.now) result }
{
    let version = bind(
        alloc,
        none(alloc),
        INT8,
        &version_of(migration).to_be_bytes(),
    );
    let described = bind(alloc, version, TEXT, migration.description.as_bytes());
    let row = bind(alloc, described, BYTEA, migration.checksum.as_bytes());
    named(alloc, How::Execute, Wording::InsertRow, table, row)
}
