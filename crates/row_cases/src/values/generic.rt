// Types and rows in their generic forms.

use crate::row::{bytes, counted, put, put_value};
use crate::telling::push_shown;
use crate::values::rows::row_of;
use pg_any::{AnyRow, any_kind, any_row};
use pg_values::{PgTypeInfo, PgValueFormat};
use pg_wire::{Error, Oid};
use std::alloc::{AllocError, Global};
use std::fmt::Write;

// Columns `c` of types with these OIDs.
fn described(alloc: Global, oids: &str) -> Vec<u8> {
    let mut fields = Vec::new(alloc);
    let mut count: u16 = 0;
    for oid in oids.split(',') {
        let oid: u32 = oid.parse().unwrap_or(0);
        put(&mut fields, b"c\0\0\0\0\0\0\0");
        put(&mut fields, &oid.to_be_bytes());
        put(&mut fields, b"\xff\xff\xff\xff\xff\xff\0\0");
        count = count.saturating_add(1);
    }
    counted(alloc, count, &fields)
}

fn put_word(alloc: Global, values: &mut Vec<u8>, word: &str) {
    if word == "null" {
        return put_value(values, None);
    }
    let value = bytes(alloc, word);
    put_value(values, Some(&value));
}

// A row of these values.
fn valued(alloc: Global, words: &str) -> Vec<u8> {
    let mut values = Vec::new(alloc);
    let mut count: u16 = 0;
    for word in words.split(',') {
        put_word(alloc, &mut values, word);
        count = count.saturating_add(1);
    }
    counted(alloc, count, &values)
}

fn generic(alloc: Global, format: PgValueFormat, oids: &str, words: &str) -> Result<AnyRow, Error> {
    let columns = described(alloc, oids);
    let values = valued(alloc, words);
    let row = row_of(alloc, &columns, format, &values)?;
    any_row(alloc, &row)
}

fn tell(told: &mut String, row: &AnyRow) {
    for (column, value) in row.columns.as_slice().iter().zip(row.values.as_slice()) {
        let (ordinal, name) = (column.ordinal, column.name.as_str());
        let _ = write!(told, "[{ordinal} {name} {:?} {value:?}]", column.kind);
    }
}

/// A row of values in a format, under columns of types with these OIDs.
pub fn play(told: &mut String, alloc: Global, format: PgValueFormat, oids: &str, words: &str) {
    match generic(alloc, format, oids, words) {
        Ok(row) => tell(told, &row),
        Err(error) => push_shown(told, error),
    }
}

fn type_of(alloc: Global, word: &str) -> Result<PgTypeInfo, AllocError> {
    match word.parse::<u32>() {
        Ok(oid) => PgTypeInfo::under_oid(alloc, Oid(oid)),
        Err(_) => PgTypeInfo::with_name(alloc, word),
    }
}

/// The kind of a type, by its OID, or by its name where it is declared by that.
pub fn play_kind(told: &mut String, alloc: Global, word: &str) {
    if let Ok(of) = type_of(alloc, word) {
        push_shown(told, any_kind(&of));
    }
}
