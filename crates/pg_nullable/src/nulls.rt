ghost use Rattle.std.specs.Prelude.{◌≡◌, ◌<◌, ◌≤◌, ◌++◌, List, Option, false, length, OnOk, IfOk, IfErr};
ghost use Rattle.pg_arguments.specs.Arguments.{HasValues};
ghost use Rattle.pg_arguments.specs.Encoded.{Encoded};
ghost use Rattle.pg_request.specs.Asked.{kept_query, sent_as};
ghost use Rattle.pg_resolve.specs.Nullable.{RefusesColumns};
ghost use Rattle.pg_nullable.specs.Nulls.{AsksNulls, AsksOfAny, column_types, column_values, types_for, values_for};

use pg_arguments::PgArguments;
use pg_columns::PgColumn;
use pg_request::Query;
use pg_resolve::nullable_query;
use pg_wire::{Error, Text};
use std::alloc::Global;

// Adds the arguments of the column at this place: the place, its table and its number there.
fn add_column(arguments: &mut PgArguments, place: usize, column: &PgColumn) -> Result<(), Error>
    requires { place < 21845 }
    ensures values { OnOk result ((values : List (Option Encoded)) → HasValues arguments.old values → HasValues arguments.new (values ++ column_values place column.now)) }
    ensures types { OnOk result (arguments.new.types ≡ arguments.old.types ++ column_types) }
    ensures memory { IfErr result (λ e. e ≡ Error.OutOfMemory) }
{
    arguments.add(place as i32)?;
    arguments.add(column.relation_id())?;
    arguments.add(column.relation_attribute_no())
}

// The arguments of all columns.
fn arguments_for(alloc: Global, columns: &[PgColumn]) -> Result<PgArguments, Error>
    requires { length columns.now ≤ 21845 }
    ensures values { IfOk result (λ a. HasValues a (values_for columns.now (length columns.now))) }
    ensures types { IfOk result (λ a. a.types ≡ types_for (length columns.now)) }
    ensures memory { IfErr result (λ e. e ≡ Error.OutOfMemory) }
{
    let mut arguments = PgArguments::new(alloc);
    for place in 0..columns.len() {
        add_column(&mut arguments, place, &columns[place])?;
    }
    Ok(arguments)
}

// The query of this text with these arguments, whose statement isn't kept. Their types are built in, so only want of memory refuses it.
fn query_of(alloc: Global, text: &Text, arguments: &PgArguments) -> Result<Query, Error>
    ensures ok { IfOk result (λ query. query ≡ record (kept_query text.now (sent_as arguments.now)) { persistent = false }) }
    ensures memory { IfErr result (λ e. e ≡ Error.OutOfMemory) }
{
    match Query::with(alloc, text.as_str(), arguments) {
        Ok(query) => Ok(query.persistent(false)),
        Err(_) => Err(Error::OutOfMemory),
    }
}

// The query on columns of which there is one at least.
fn query_on(alloc: Global, columns: &[PgColumn]) -> Result<Query, Error>
    requires { 0 < length columns.now }
    ensures ok { IfOk result (AsksNulls columns.now) }
    ensures err { IfErr result (RefusesColumns (length columns.now)) }
{
    let text = nullable_query(alloc, columns.len())?;
    let arguments = arguments_for(alloc, columns)?;
    query_of(alloc, &text, &arguments)
}

/// The query on these columns, whose statement isn't kept; there is none where there is no column. Its rows tell in order whether a column may be null, and a
/// null where nothing is known of it. More than 21845 columns, with more than 65535 arguments, are `TooMany`; any other refusal is want of memory.
pub fn nulls_query(alloc: Global, columns: &[PgColumn]) -> Result<Option<Query>, Error>
    ensures ok { IfOk result (AsksOfAny columns.now) }
    ensures err { IfErr result (RefusesColumns (length columns.now)) }
{
    if columns.is_empty() {
        return Ok(None);
    }
    query_on(alloc, columns).map(Some)
}
