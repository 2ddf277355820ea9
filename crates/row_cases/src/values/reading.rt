// Values that are read.

use crate::telling::{push, push_shown};
use pg_values::{
    Decode, Encode, PgArgumentBuffer, PgTypeInfo, PgValueFormat, PgValueRef, read_array,
    read_composite,
};
use pg_wire::{Error, Oid};
use std::alloc::Global;
use std::fmt::Debug;

// A value of type `int4[]`: the types of this row's values don't look at theirs.
fn read_as<T: Decode>(
    alloc: Global,
    format: PgValueFormat,
    value: Option<&[u8]>,
) -> Result<T, Error> {
    let of = PgTypeInfo::under_oid(alloc, Oid(1007))?;
    let value = PgValueRef {
        value,
        type_info: &of,
        format,
    };
    T::decode(alloc, value)
}

/// The value of a row, which stands there in its text form.
pub fn value_of<T: Decode>(alloc: Global, bytes: Option<&[u8]>) -> Result<T, Error> {
    read_as(alloc, PgValueFormat::Text, bytes)
}

/// What some bytes are in the binary format, and in the text format.
pub fn read<T: Decode + Debug>(told: &mut String, alloc: Global, bytes: Option<&[u8]>) {
    push_shown(told, read_as::<T>(alloc, PgValueFormat::Binary, bytes));
    push(told, " ");
    push_shown(told, read_as::<T>(alloc, PgValueFormat::Text, bytes));
}

// The value behind a length; the length -1 is that of a null.
fn behind_length(bytes: &[u8]) -> Option<&[u8]> {
    match bytes {
        [255, 255, 255, 255] => None,
        [_, _, _, _, value @ ..] => Some(value),
        _ => None,
    }
}

fn read_again<T: Encode + Decode>(alloc: Global, bytes: Option<&[u8]>) -> Result<T, Error> {
    let mut buffer = PgArgumentBuffer::new(alloc);
    buffer.add(value_of::<T>(alloc, bytes)?)?;
    let value = behind_length(buffer.as_bytes());
    read_as(alloc, PgValueFormat::Binary, value)
}

/// The value of a row as it is read again from its binary encoding.
pub fn keep<T: Encode + Decode + Debug>(told: &mut String, alloc: Global, bytes: Option<&[u8]>) {
    push_shown(told, read_again::<T>(alloc, bytes));
}

/// The items of an array's text, or the fields of a record's.
pub fn read_items(told: &mut String, alloc: Global, is_array: bool, bytes: &[u8]) {
    let text = str::from_utf8(bytes).unwrap_or("");
    let items = if is_array {
        read_array(alloc, text)
    } else {
        read_composite(alloc, text)
    };
    push_shown(told, items);
}
