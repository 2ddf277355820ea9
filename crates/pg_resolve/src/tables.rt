ghost use Rattle.std.specs.Prelude.{◌≡◌, OnOk, OnErr, option_map};
ghost use Rattle.pg_resolve.specs.Tables.{no_tables, column_key, column_named, enter_table, put_column, put_columns, with_row, PutsFront, KeepsPart};

use crate::map::put;
use crate::row::ColumnResolverRow;
use pg_wire::{Oid, Text};
use std::alloc::{AllocError, Global};
use std::collections::BTreeMap;
use std::marker::Model;

/// The names of tables and of their columns that a connection has looked up.
pub struct TableCache {
    tables: BTreeMap<u32, Text>,
    columns: BTreeMap<u64, Text>,
}

// By hand, so that whoever lets one go makes one call, and doesn't go through its parts.
impl Drop for TableCache {
    fn drop(self) {
        let TableCache {
            tables: _,
            columns: _,
        } = self;
    }
}

impl Model for TableCache {
    ghost use Rattle.pg_resolve.specs.Tables.{TablesSeen};

    ghost Value = { TablesSeen };

    ghost view = { λ c. record { tables = c.tables.entries; columns = c.columns.entries } };
}

// One key for a table and the number of its column, which may be negative.
#[tactic(auto, unfolding(crate::specs::Tables::column_key))]
fn column_key(table: Oid, attribute: i16) -> u64
    ensures { result ≡ column_key table attribute }
{
    65_536 * (table.0 as u64) + attribute.cast_unsigned() as u64
}

impl TableCache {
    pub fn new(alloc: Global) -> Self
        ensures { result ≡ no_tables }
    {
        TableCache {
            tables: BTreeMap::new(alloc),
            columns: BTreeMap::new(alloc),
        }
    }

    /// The names of a table and of a column of it, where both were looked up.
    pub fn column(&self, table: Oid, attribute: i16) -> Option<(&str, &str)>
        ensures { option_map (λ names. (names.0.now, names.1.now)) result ≡ column_named self.now table attribute }
    {
        match self.tables.get(&table.0) {
            Some(table_name) => match self.columns.get(&column_key(table, attribute)) {
                Some(name) => Some((table_name.as_str(), name.as_str())),
                None => None,
            },
            None => None,
        }
    }

    // Keeps the name of a table that has none.
    fn enter_table(&mut self, table: Oid, name: Text) -> Result<(), AllocError>
        ensures ok { OnOk result (self.new ≡ enter_table table name self.old) }
        ensures err { OnErr result (self.new ≡ self.old) }
    {
        match self.tables.get(&table.0) {
            Some(_) => Ok(()),
            None => put(&mut self.tables, table.0, name),
        }
    }

    // Keeps the name of a column in place of an older one.
    fn put_column(&mut self, table: Oid, column: (i16, Text)) -> Result<(), AllocError>
        ensures ok { OnOk result (self.new ≡ put_column table column self.old) }
        ensures err { OnErr result (self.new ≡ self.old) }
    {
        let (attribute, name) = column;
        put(&mut self.columns, column_key(table, attribute), name)
    }

    fn put_columns(&mut self, table: Oid, columns: Vec<(i16, Text)>) -> Result<(), AllocError>
        ensures ok { OnOk result (self.new ≡ put_columns table columns.items self.old) }
        ensures err { OnErr result (PutsFront table columns.items self.old self.new) }
    {
        for column in columns {
            self.put_column(table, column)?;
        }
        Ok(())
    }

    // Keeps the names that a row tells.
    pub(crate) fn keep(&mut self, row: ColumnResolverRow) -> Result<(), AllocError>
        ensures ok { OnOk result (self.new ≡ with_row row self.old) }
        ensures err { OnErr result (KeepsPart row self.old self.new) }
    {
        let ColumnResolverRow {
            table_oid,
            table_name,
            columns,
        } = row;
        self.enter_table(table_oid, table_name)?;
        self.put_columns(table_oid, columns.into_vec())
    }
}
