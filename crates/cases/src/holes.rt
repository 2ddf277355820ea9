//! Queries whose arguments are OIDs of types that are known by their names alone, which no script says.

use pg_arguments::{PgArguments, PgTypeInfo};
use pg_conn::Query;
use pg_script::Call;
use pg_wire::Error;
use std::alloc::Global;

// An argument for each of these types: its OID.
fn oids_of(alloc: Global, names: &str) -> Result<PgArguments, Error> {
    let mut arguments = PgArguments::new(alloc);
    for name in names.split(" ") {
        arguments.push_hole(PgTypeInfo::with_name(alloc, name)?)?;
    }
    Ok(arguments)
}

// The same query with these arguments.
fn with_oids(alloc: Global, query: &Query, names: &str) -> Result<Query, Error> {
    let arguments = oids_of(alloc, names)?;
    let filled = Query::with(alloc, query.sql(), &arguments)?;
    Ok(filled.persistent(query.is_persistent()))
}

/// The same call with the OIDs of these types for arguments, where it executes a query.
pub(crate) fn filled(alloc: Global, call: Call, names: &str) -> Option<Call> {
    match call {
        Call::Execute(query) => match with_oids(alloc, &query, names) {
            Ok(filled) => Some(Call::Execute(filled)),
            Err(error) => {
                drop(error);
                None
            }
        },
        other => Some(other),
    }
}
