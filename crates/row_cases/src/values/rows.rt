//! Values of rows, by the place and by the name of their columns.

use crate::row::{counted, put_value};
use crate::telling::{push, push_number, push_shown};
use pg_columns::{PgColumn, PgColumns};
use pg_rows::{Heading, PgRow};
use pg_values::{Decode, PgValueFormat};
use pg_wire::{Blob, Error, Oid, Text, decode_data_row, decode_row_description};
use std::alloc::Global;
use std::fmt::{Debug, Write};

// The columns a, b and a, of type text, the first and the last of table 16384.
const COLUMNS: &[u8] =
    b"\0\x03a\0\0\0\x40\0\0\x01\0\0\0\x19\xff\xff\xff\xff\xff\xff\0\0b\0\0\0\0\0\0\0\0\0\0\x19\xff\xff\xff\xff\xff\xff\0\0a\0\0\0\x40\0\0\x02\0\0\0\x19\xff\xff\xff\xff\xff\xff\0\0";

/// A row under these columns.
pub fn row_of(
    alloc: Global,
    columns: &[u8],
    format: PgValueFormat,
    body: &[u8],
) -> Result<PgRow, Error> {
    let description = decode_row_description(alloc, columns)?;
    let columns = PgColumns::described(alloc, description)?;
    let heading = Heading {
        columns: Some(columns),
        format,
    };
    Ok(PgRow::new(decode_data_row(alloc, body)?, heading))
}

// A row of one value.
fn single(alloc: Global, format: PgValueFormat, value: Option<&[u8]>) -> Result<PgRow, Error> {
    let mut values = Vec::new(alloc);
    put_value(&mut values, value);
    row_of(alloc, COLUMNS, format, &counted(alloc, 1, &values))
}

// The value of a row that has it alone.
fn value<T: Decode>(
    alloc: Global,
    format: PgValueFormat,
    value: Option<&[u8]>,
) -> Result<T, Error> {
    single(alloc, format, value)?.try_get(alloc, 0)
}

/// A value as the only one of a row in this format.
pub fn read_row<T: Decode + Debug>(
    told: &mut String,
    alloc: Global,
    format: PgValueFormat,
    bytes: Option<&[u8]>,
) {
    push_shown(told, value::<T>(alloc, format, bytes));
}

#[derive(Clone, Copy)]
pub enum Element {
    Bool,
    Int2,
    Int4,
    Int8,
    Oid,
    Text,
    Bytea,
    Char,
}

pub static ARRAYS: [(&str, Element); 10] = [
    ("bool[]", Element::Bool),
    ("int2[]", Element::Int2),
    ("int4[]", Element::Int4),
    ("int8[]", Element::Int8),
    ("oid[]", Element::Oid),
    ("text[]", Element::Text),
    ("varchar[]", Element::Text),
    ("name[]", Element::Text),
    ("bytea[]", Element::Bytea),
    ("\"char\"[]", Element::Char),
];

/// An array of these elements, as the only value of a row in this format.
pub fn read_array_row(
    told: &mut String,
    alloc: Global,
    format: PgValueFormat,
    element: Element,
    bytes: Option<&[u8]>,
) {
    match element {
        Element::Bool => read_row::<Vec<Option<bool>>>(told, alloc, format, bytes),
        Element::Int2 => read_row::<Vec<Option<i16>>>(told, alloc, format, bytes),
        Element::Int4 => read_row::<Vec<Option<i32>>>(told, alloc, format, bytes),
        Element::Int8 => read_row::<Vec<Option<i64>>>(told, alloc, format, bytes),
        Element::Oid => read_row::<Vec<Option<Oid>>>(told, alloc, format, bytes),
        Element::Text => read_row::<Vec<Option<Text>>>(told, alloc, format, bytes),
        Element::Bytea => read_row::<Vec<Option<Blob>>>(told, alloc, format, bytes),
        Element::Char => read_row::<Vec<Option<i8>>>(told, alloc, format, bytes),
    }
}

// A row of the texts 1, 2 and 3, or of the first two of them.
fn texts(alloc: Global, is_short: bool) -> Result<PgRow, Error> {
    let body: &[u8] = if is_short {
        b"\0\x02\0\0\0\x011\0\0\0\x012"
    } else {
        b"\0\x03\0\0\0\x011\0\0\0\x012\0\0\0\x013"
    };
    row_of(alloc, COLUMNS, PgValueFormat::Text, body)
}

fn push_column(told: &mut String, column: &PgColumn) {
    push_number(told, column.ordinal() as u64);
    push(told, " ");
    push(told, column.name());
    push(told, " ");
    push(told, column.type_info().name());
    let (table, place) = (column.relation_id(), column.relation_attribute_no());
    let _ = write!(told, " {table:?} {place:?} {:?} ", column.origin());
}

fn tell_column(told: &mut String, row: &PgRow, place: usize) {
    if let Some(column) = row.columns().get(place) {
        push_column(told, column);
    }
    push_shown(told, row.try_get_raw(place).map(|v| v.value));
}

fn tell_named(told: &mut String, alloc: Global, row: &PgRow, name: &str) {
    push_shown(told, row.try_get_by_name::<Text>(alloc, name));
    push(told, " ");
    push_shown(told, row.try_get_by_name::<bool>(alloc, name));
    push(told, " ");
    push_shown(told, row.try_get_raw_by_name(alloc, name).map(|v| v.value));
}

fn tell_by(told: &mut String, alloc: Global, row: &PgRow, column: &str) {
    match column.parse::<usize>() {
        Ok(place) => tell_column(told, row, place),
        Err(_) => tell_named(told, alloc, row, column),
    }
}

/// The column at a place, or of a name, of a row of three texts, or of two.
pub fn play_columns(told: &mut String, alloc: Global, is_short: bool, column: &str) {
    match texts(alloc, is_short) {
        Ok(row) => tell_by(told, alloc, &row, column),
        Err(error) => push_shown(told, error),
    }
}
