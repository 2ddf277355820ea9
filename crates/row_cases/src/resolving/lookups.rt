//! Rows of lookups, as a server sends them.

use crate::resolving::telling::{push_error, push_oid};
use crate::row::{counted, put_value};
use crate::telling::{push, push_number, push_quoted};
use pg_learning::{column_row, type_row};
use pg_resolve::{ColumnResolverRow, TypeResolverRow};
use pg_wire::{DataRow, Error, Oid, Text, decode_data_row};
use std::alloc::Global;
use std::fmt::Write;

// A minus stands for a null.
fn put_word(values: &mut Vec<u8>, word: &str) {
    put_value(
        values,
        if word == "-" {
            None
        } else {
            Some(word.as_bytes())
        },
    );
}

// The body of a row's message, of values that have a bar between them.
fn body_of(alloc: Global, words: &str) -> Vec<u8> {
    let mut count: u16 = 0;
    let mut values = Vec::new(alloc);
    for word in words.split('|') {
        count = count.wrapping_add(1);
        put_word(&mut values, word);
    }
    counted(alloc, count, &values)
}

fn row_of(alloc: Global, words: &str) -> Result<DataRow, Error> {
    if words.is_empty() {
        return Ok(DataRow::new(alloc));
    }
    decode_data_row(alloc, &body_of(alloc, words))
}

fn push_labels(told: &mut String, labels: &[Text]) {
    push(told, " labels");
    for label in labels {
        push(told, " ");
        push_quoted(told, label.as_str());
    }
}

fn push_attributes(told: &mut String, attributes: &[(Text, Oid)]) {
    push(told, " attributes");
    for attribute in attributes {
        push(told, " ");
        push_quoted(told, attribute.0.as_str());
        push(told, ":");
        push_number(told, u64::from(attribute.1.0));
    }
}

fn push_type_row(told: &mut String, row: &TypeResolverRow) {
    push_number(told, u64::from(row.oid.0));
    push(told, " ");
    push_quoted(told, row.pretty_name.as_str());
    push(told, " ");
    push_quoted(told, row.catalog_name.as_str());
    push(told, " ");
    match &row.original_name {
        Some(name) => push_quoted(told, name.as_str()),
        None => push(told, "-"),
    }
    let _ = write!(told, " {:?} {:?} ", row.typtype, row.typcategory);
    push_oid(told, row.typelem);
    push(told, " ");
    push_oid(told, row.typbasetype);
    push(told, " ");
    push_oid(told, row.rngsubtype);
    push_labels(told, row.enum_labels.as_slice());
    push_attributes(told, row.record_attributes.as_slice());
}

fn type_row_of(alloc: Global, words: &str) -> Result<TypeResolverRow, Error> {
    let values = row_of(alloc, words)?;
    let row = type_row(alloc, &values);
    drop(values);
    row
}

/// What a row of a type lookup with these values tells.
pub fn read_type(told: &mut String, alloc: Global, words: &str) {
    match type_row_of(alloc, words) {
        Ok(row) => push_type_row(told, &row),
        Err(error) => push_error(told, error),
    }
}

fn push_column_row(told: &mut String, row: &ColumnResolverRow) {
    push_number(told, u64::from(row.table_oid.0));
    push(told, " ");
    push_quoted(told, row.table_name.as_str());
    for column in row.columns.as_slice() {
        let _ = write!(told, " {}:", column.0);
        push_quoted(told, column.1.as_str());
    }
}

fn column_row_of(alloc: Global, words: &str) -> Result<ColumnResolverRow, Error> {
    let values = row_of(alloc, words)?;
    let row = column_row(alloc, &values);
    drop(values);
    row
}

/// What a row of a column lookup with these values tells.
pub fn read_columns(told: &mut String, alloc: Global, words: &str) {
    match column_row_of(alloc, words) {
        Ok(row) => push_column_row(told, &row),
        Err(error) => push_error(told, error),
    }
}
