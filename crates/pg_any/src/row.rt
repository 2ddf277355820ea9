ghost use Rattle.std.specs.Prelude.{IfOk, IfErr};
ghost use Rattle.pg_any.specs.Rows.{IsAnyRow, RefusesRow};

use crate::column::{AnyColumn, any_column};
use crate::value::AnyValue;
use pg_rows::PgRow;
use pg_wire::{Error, Sequence};
use std::alloc::Global;

/// A row by the kinds of its columns.
#[derive(Debug, Drop)]
pub struct AnyRow {
    pub columns: Sequence<AnyColumn>,
    /// A value for each column.
    pub values: Sequence<AnyValue>,
}

/// The generic form of a row: its described columns, and their values. `ColumnDecode` with a column's place comes only where the column's type
/// has no kind, or the bytes there are no value of its kind.
pub fn any_row(alloc: Global, row: &PgRow) -> Result<AnyRow, Error>
    ensures ok { IfOk result (IsAnyRow row.now) }
    ensures err { IfErr result (RefusesRow row.now) }
{
    let mut columns = Sequence::new(alloc);
    let mut values = Sequence::new(alloc);
    for (place, column) in row.columns().iter().enumerate() {
        values.push(row.try_get::<AnyValue>(alloc, place)?)?;
        columns.push(any_column(alloc, column)?)?;
    }
    Ok(AnyRow { columns, values })
}
