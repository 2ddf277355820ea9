ghost use Rattle.std.specs.Prelude.{◌≡◌, IfOk};

use pg_wire::Text;
use std::alloc::{AllocError, Global};

/// A column of a table, by their names.
#[derive(Debug, Drop)]
pub struct TableColumn {
    pub table: Text,
    pub name: Text,
}

/// Where a column of a result comes from.
#[derive(Debug, Drop)]
pub enum ColumnOrigin {
    /// Nobody has looked it up.
    Unknown,
    /// It is no column of a table.
    Expression,
    /// It is this column of a table.
    Table(TableColumn),
}

impl TableColumn {
    /// The same column in texts of its own.
    pub fn to_copy(&self, alloc: Global) -> Result<Self, AllocError>
        ensures { IfOk result (λ c. c ≡ self.now) }
    {
        let table = self.table.to_copy(alloc)?;
        let name = self.name.to_copy(alloc)?;
        Ok(TableColumn { table, name })
    }
}

impl ColumnOrigin {
    /// The same origin in texts of its own.
    pub fn to_copy(&self, alloc: Global) -> Result<Self, AllocError>
        ensures { IfOk result (λ o. o ≡ self.now) }
    {
        Ok(match self {
            ColumnOrigin::Unknown => ColumnOrigin::Unknown,
            ColumnOrigin::Expression => ColumnOrigin::Expression,
            ColumnOrigin::Table(column) => ColumnOrigin::Table(column.to_copy(alloc)?),
        })
    }
}
