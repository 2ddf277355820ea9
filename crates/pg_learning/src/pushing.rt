//! What isn't known is asked for.
ghost use Rattle.std.specs.Prelude.{◌≡◌, ◌++◌, ◌∷◌, [], Some, is_some, map, option_map, IfOk, OnOk};
ghost use Rattle.pg_resolve.specs.Cached.{known};
ghost use Rattle.pg_resolve.specs.Resolving.{by_oid, no_rows};
ghost use Rattle.pg_learning.specs.Learning.{types_in, unknown, unnamed, unnamed_one};

use pg_arguments::PgTypeInfo;
use pg_columns::PgColumn;
use pg_resolve::{ColumnResolver, Resolver, TableCache, TypeCache, Wanted};
use pg_wire::Oid;
use std::alloc::{AllocError, Global};

// Whether a type is known: it is built in, or was looked up.
fn is_known(alloc: Global, types: &TypeCache, oid: Oid) -> Result<bool, AllocError>
    ensures { IfOk result (λ is. is ≡ is_some (known types.now oid)) }
{
    match types.by_oid(oid) {
        Some(_) => Ok(true),
        None => Ok(PgTypeInfo::builtin(alloc, oid)?.is_some()),
    }
}

/// Asks for a type; the row of it tells the original name again.
pub(crate) fn push_wanted(
    alloc: Global,
    resolver: &mut Resolver,
    original: Option<&str>,
    wanted: Wanted,
) -> Result<(), AllocError>
    ensures { OnOk result (resolver.new ≡ record resolver.old { pushed = resolver.old.pushed ++ record { original = option_map (λ name. name.now) original.entry; wanted = wanted } ∷ [] }) }
{
    match resolver.push_type(alloc, original, wanted) {
        Ok(()) => Ok(()),
        Err(_) => Err(AllocError),
    }
}

// Asks for a type that isn't known.
fn push_oid(
    alloc: Global,
    types: &TypeCache,
    resolver: &mut Resolver,
    oid: Oid,
) -> Result<(), AllocError>
    ensures { OnOk result (resolver.new ≡ record resolver.old { pushed = resolver.old.pushed ++ map by_oid (unknown types.now (oid ∷ [])) }) }
{
    if is_known(alloc, types, oid)? {
        return Ok(());
    }
    push_wanted(alloc, resolver, None, Wanted::Oid(oid))
}

/// Those of the types of parameters and of columns that aren't known are asked for.
pub(crate) fn ask_unknown(
    alloc: Global,
    types: &TypeCache,
    parameters: &[Oid],
    columns: &[PgColumn],
) -> Result<Resolver, AllocError>
    ensures { IfOk result (λ r. r ≡ record no_rows { pushed = map by_oid (unknown types.now (types_in parameters.now columns.now)) }) }
{
    let mut resolver = Resolver::new(alloc);
    for oid in parameters {
        push_oid(alloc, types, &mut resolver, *oid)?;
    }
    for column in columns {
        push_oid(alloc, types, &mut resolver, column.field().type_id)?;
    }
    Ok(resolver)
}

// Asks for a column of a table, where one of their names isn't known.
fn push_name(
    tables: &TableCache,
    resolver: &mut ColumnResolver,
    table: Option<Oid>,
    attribute: Option<i16>,
) -> Result<(), AllocError>
    ensures { OnOk result (resolver.new ≡ resolver.old ++ unnamed_one tables.now table attribute) }
{
    let (Some(table), Some(attribute)) = (table, attribute) else {
        return Ok(());
    };
    let is_named = tables.column(table, attribute).is_some();
    if is_named {
        return Ok(());
    }
    match resolver.push_column(table, attribute) {
        Ok(()) => Ok(()),
        Err(_) => Err(AllocError),
    }
}

/// Asks for those columns of tables whose names aren't known.
pub(crate) fn push_names(
    tables: &TableCache,
    resolver: &mut ColumnResolver,
    columns: &[PgColumn],
) -> Result<(), AllocError>
    ensures { OnOk result (resolver.new ≡ resolver.old ++ unnamed tables.now columns.now) }
{
    for column in columns {
        let table = column.relation_id();
        push_name(tables, resolver, table, column.relation_attribute_no())?;
    }
    Ok(())
}
