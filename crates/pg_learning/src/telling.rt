//! Columns with the types that were looked up, and where they come from.
ghost use Rattle.std.specs.Prelude.{◌≡◌, IfOk, option_map};
ghost use Rattle.pg_learning.specs.Telling.{learnt_column, learnt_columns, learnt_origin, learnt_type, named_origin};

use crate::Learnt;
use pg_arguments::PgTypeInfo;
use pg_columns::{ColumnOrigin, PgColumn, TableColumn};
use pg_resolve::{TableCache, TypeCache};
use pg_wire::{Sequence, Text};
use std::alloc::{AllocError, Global};

fn type_of(alloc: Global, types: &TypeCache, column: &PgColumn) -> Result<PgTypeInfo, AllocError>
    ensures { IfOk result (λ t. t ≡ learnt_type types.now column.now) }
{
    match types.by_oid(column.field().type_id) {
        Some(of) => of.to_copy(alloc),
        None => column.type_info().to_copy(alloc),
    }
}

// A column of a table by the names of both, where they were looked up.
fn named(
    alloc: Global,
    names: Option<(&str, &str)>,
    told: &ColumnOrigin,
) -> Result<ColumnOrigin, AllocError>
    ensures { IfOk result (λ o. o ≡ named_origin (option_map (λ names. (names.0.now, names.1.now)) names.entry) told.now) }
{
    let Some((table, name)) = names else {
        return told.to_copy(alloc);
    };
    let table = Text::from_str(alloc, table)?;
    let name = Text::from_str(alloc, name)?;
    Ok(ColumnOrigin::Table(TableColumn { table, name }))
}

fn origin_of(
    alloc: Global,
    tables: &TableCache,
    column: &PgColumn,
) -> Result<ColumnOrigin, AllocError>
    ensures { IfOk result (λ o. o ≡ learnt_origin tables.now column.now) }
{
    let told = column.origin();
    match (column.relation_id(), column.relation_attribute_no()) {
        (Some(table), Some(attribute)) => named(alloc, tables.column(table, attribute), told),
        _ => told.to_copy(alloc),
    }
}

impl Learnt {
    fn column(&self, alloc: Global, column: &PgColumn) -> Result<PgColumn, AllocError>
        ensures { IfOk result (λ c. c ≡ learnt_column self.now column.now) }
    {
        let type_info = type_of(alloc, &self.types, column)?;
        let origin = origin_of(alloc, &self.tables, column)?;
        column.learnt(alloc, type_info, origin)
    }

    /// The same columns, with the types that were looked up under their OIDs, and with the names of their tables and of themselves where these were looked up.
    pub fn columns(
        &self,
        alloc: Global,
        columns: &[PgColumn],
    ) -> Result<Sequence<PgColumn>, AllocError>
        ensures { IfOk result (λ told. told ≡ learnt_columns self.now columns.now) }
    {
        let mut told = Sequence::new(alloc);
        for column in columns {
            told.push(self.column(alloc, column)?)?;
        }
        Ok(told)
    }
}
