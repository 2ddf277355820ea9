ghost use Rattle.std.specs.Prelude.{IfOk, IfErr, OnOk};
ghost use Rattle.pg_learning.specs.Lookups.{IsTypeRow, IsColumnRow, IsNoRow, AreReadBefore, type_columns, column_columns};
ghost use Rattle.pg_learning.specs.Parts.{AreNames, AreCodes, AreMembers};

use crate::column::{column, column_or_null};
use crate::parts::{Codes, Members, Names};
use pg_resolve::{ColumnResolverRow, TypeResolverRow};
use pg_wire::{DataRow, Error};
use std::alloc::Global;

fn names(alloc: Global, values: &DataRow) -> Result<Names, Error>
    ensures ok { IfOk result (AreNames values.now) }
    ensures read { OnOk result (AreReadBefore type_columns values.now 4) }
    ensures err { IfErr result (IsNoRow type_columns values.now) }
{
    let oid = column(alloc, values, 0)?;
    let pretty_name = column(alloc, values, 1)?;
    let catalog_name = column(alloc, values, 2)?;
    let original_name = column_or_null(alloc, values, 3)?;
    Ok(Names {
        oid,
        pretty_name,
        catalog_name,
        original_name,
    })
}

fn codes(alloc: Global, values: &DataRow) -> Result<Codes, Error>
    requires { AreReadBefore type_columns values.now 4 }
    ensures ok { IfOk result (AreCodes values.now) }
    ensures read { OnOk result (AreReadBefore type_columns values.now 9) }
    ensures err { IfErr result (IsNoRow type_columns values.now) }
{
    let typtype = column(alloc, values, 4)?;
    let typcategory = column(alloc, values, 5)?;
    let typelem = column_or_null(alloc, values, 6)?;
    let typbasetype = column_or_null(alloc, values, 7)?;
    let rngsubtype = column_or_null(alloc, values, 8)?;
    Ok(Codes {
        typtype,
        typcategory,
        typelem,
        typbasetype,
        rngsubtype,
    })
}

fn members(alloc: Global, values: &DataRow) -> Result<Members, Error>
    requires { AreReadBefore type_columns values.now 9 }
    ensures ok { IfOk result (AreMembers values.now) }
    ensures err { IfErr result (IsNoRow type_columns values.now) }
{
    let enum_labels = column(alloc, values, 9)?;
    let record_attributes = column(alloc, values, 10)?;
    Ok(Members {
        enum_labels,
        record_attributes,
    })
}

/// Reads a row of the type lookup. `Error::ColumnDecode` names the first column that is missing, that is null where it may not be, or
/// whose text is no value of it; any further columns are passed over.
pub fn type_row(alloc: Global, values: &DataRow) -> Result<TypeResolverRow, Error>
    ensures ok { IfOk result (IsTypeRow values.now) }
    ensures err { IfErr result (IsNoRow type_columns values.now) }
{
    let names = names(alloc, values)?;
    let codes = codes(alloc, values)?;
    let members = members(alloc, values)?;
    Ok(TypeResolverRow {
        oid: names.oid,
        pretty_name: names.pretty_name,
        catalog_name: names.catalog_name,
        original_name: names.original_name,
        typtype: codes.typtype,
        typcategory: codes.typcategory,
        typelem: codes.typelem,
        typbasetype: codes.typbasetype,
        rngsubtype: codes.rngsubtype,
        enum_labels: members.enum_labels,
        record_attributes: members.record_attributes,
    })
}

/// Reads a row of the column lookup. `Error::ColumnDecode` names the first column of which nothing is read, as for a row of the type
/// lookup.
pub fn column_row(alloc: Global, values: &DataRow) -> Result<ColumnResolverRow, Error>
    ensures ok { IfOk result (IsColumnRow values.now) }
    ensures err { IfErr result (IsNoRow column_columns values.now) }
{
    let table_oid = column(alloc, values, 0)?;
    let table_name = column(alloc, values, 1)?;
    let columns = column(alloc, values, 2)?;
    Ok(ColumnResolverRow {
        table_oid,
        table_name,
        columns,
    })
}
