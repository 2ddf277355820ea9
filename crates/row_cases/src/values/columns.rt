// Columns by their names.

use crate::row::text;
use crate::telling::{push, push_number};
use pg_columns::{ColumnOrigin, PgColumn, TableColumn, column_by_name};
use pg_values::PgTypeInfo;
use pg_wire::{Field, Oid};
use std::alloc::{AllocError, Global};

fn field(alloc: Global, name: &str) -> Field {
    Field {
        name: text(alloc, name),
        relation_id: Some(Oid(16384)),
        relation_attribute_no: Some(2),
        type_id: Oid(25),
        size: -1,
        modifier: -1,
        format: 0,
    }
}

fn origin(alloc: Global, name: &str) -> ColumnOrigin {
    ColumnOrigin::Table(TableColumn {
        table: text(alloc, "t"),
        name: text(alloc, name),
    })
}

// A column, and its copy in its place.
fn column(alloc: Global, ordinal: usize, name: &str) -> Result<PgColumn, AllocError> {
    let type_info = PgTypeInfo::under_oid(alloc, Oid(25))?;
    let column = PgColumn::new(ordinal, field(alloc, name), type_info, origin(alloc, name));
    let copy = column.to_copy(alloc);
    drop(column);
    copy
}

fn add(alloc: Global, columns: &mut Vec<PgColumn>, name: &str) {
    if let Ok(made) = column(alloc, columns.len(), name) {
        let _ = columns.push(made);
    }
}

fn tell(told: &mut String, column: &PgColumn) {
    push_number(told, column.ordinal() as u64);
    push(told, " ");
    push(told, column.name());
    push(told, " ");
    push(told, column.type_info().name());
}

/// Which of the columns `a`, `b` and `a` has this name.
pub fn find(told: &mut String, alloc: Global, name: &str) {
    let mut columns = Vec::new(alloc);
    add(alloc, &mut columns, "a");
    add(alloc, &mut columns, "b");
    add(alloc, &mut columns, "a");
    match column_by_name(alloc, &columns, name) {
        Ok(column) => tell(told, column),
        Err(error) => {
            drop(error);
            push(told, "none");
        }
    }
}
