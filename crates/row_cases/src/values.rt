//! Cases of types, arguments and values.
//!
//! A row is a word that says what is tried, a word for a type, and a value's bytes in hexadecimal or `null`; of generic forms the OIDs of
//! one type or more, and as many values.

mod columns;
mod digests;
mod generic;
mod given;
mod iterators;
mod kinds;
mod mood;
mod putting;
mod reading;
mod rows;

use crate::row::{bytes, meant, two};
use crate::values::kinds::{TRIED, Tried, play};
use crate::values::rows::play_columns;
use pg_values::PgValueFormat;
use std::alloc::Global;

/// What came of a row.
pub fn answer(told: &mut String, alloc: Global, row: &str) {
    let (verb, rest) = two(row, ' ');
    let (kind, digits) = two(rest, ' ');
    match meant(&TRIED, verb).unwrap_or(Tried::Read) {
        Tried::Types => given::types_alone(told, alloc),
        Tried::Digests => digests::digests(told, alloc),
        Tried::Columns => columns::find(told, alloc, kind),
        Tried::Row => play_columns(told, alloc, false, kind),
        Tried::ShortRow => play_columns(told, alloc, true, kind),
        Tried::AnyKind => generic::play_kind(told, alloc, kind),
        Tried::AnyText => generic::play(told, alloc, PgValueFormat::Text, kind, digits),
        Tried::AnyBinary => generic::play(told, alloc, PgValueFormat::Binary, kind, digits),
        tried if digits == "null" => play(told, alloc, tried, kind, None),
        tried => {
            let bytes = bytes(alloc, digits);
            play(told, alloc, tried, kind, Some(&bytes));
        }
    }
}
