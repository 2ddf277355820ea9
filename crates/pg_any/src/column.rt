ghost use Rattle.std.specs.Prelude.{◌≡◌, Some, IfOk, IfErr};
ghost use Rattle.pg_any.specs.Columns.{any_column_of, RefusesColumn};

use crate::kind::{AnyKind, kind_of};
use pg_columns::PgColumn;
use pg_wire::{Error, Text};
use std::alloc::Global;

/// A column of an `AnyRow`.
#[derive(Debug, Drop)]
pub struct AnyColumn {
    /// Its place in the row, from 0 on.
    pub ordinal: usize,
    pub name: Text,
    pub kind: AnyKind,
}

/// The generic form of a column. `ColumnDecode` with its place comes exactly where its type has no kind, but for want of memory.
pub fn any_column(alloc: Global, column: &PgColumn) -> Result<AnyColumn, Error>
    ensures ok { IfOk result (λ any. any_column_of column.now ≡ Some any) }
    ensures err { IfErr result (RefusesColumn column.now) }
{
    let ordinal = column.ordinal();
    let Some(kind) = kind_of(column.type_info()) else {
        return Err(Error::ColumnDecode { index: ordinal });
    };
    let name = Text::from_str(alloc, column.name())?;
    Ok(AnyColumn {
        ordinal,
        name,
        kind,
    })
}
