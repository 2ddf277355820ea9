// What a row tries, and on a value of which type.

use crate::row::meant;
use crate::telling::{push, push_shown};
use crate::values::iterators::{play_items, play_vector};
use crate::values::mood::Mood;
use crate::values::putting::put;
use crate::values::reading::{keep, read, read_items, value_of};
use crate::values::rows::{ARRAYS, read_array_row, read_row};
use pg_values::{Decode, Encode, PgValueFormat, Typed};
use pg_wire::{Blob, Oid, Text};
use std::alloc::Global;
use std::fmt::Debug;

#[derive(Clone, Copy)]
pub enum Tried {
    /// A value read from the binary and from the text format.
    Read,
    /// A value encoded, and read again.
    Keep,
    /// A value as the only argument.
    Add,
    /// A value as the second argument.
    Second,
    /// A value as the only one of a buffer, before and after the OID of its first open type is known.
    Buffer,
    /// The items of an array's text, or the fields of a record's.
    Array,
    Record,
    /// Arguments of types that are known only at run time.
    Types,
    /// The digests of all short texts.
    Digests,
    /// A column by its name.
    Columns,
    /// A value of a row, in the text and in the binary format.
    TextRow,
    BinaryRow,
    /// A column of a row by its place or name; of a row that has fewer values than columns.
    Row,
    ShortRow,
    /// The kind of a type that drivers of several databases have in common; a row in such forms.
    AnyKind,
    AnyText,
    AnyBinary,
}

#[derive(Clone, Copy)]
enum Kind {
    Bool,
    Char,
    Int2,
    Int4,
    Int8,
    Oid,
    Text,
    Bytea,
    OptionalInt4,
    OptionalInt8,
    Int4Array,
    OptionalInt4Array,
    ArrayOfOptionals,
    OptionalBoolArray,
    Mood,
    MoodArray,
    Items,
    Vector,
}

pub static TRIED: [(&str, Tried); 17] = [
    ("anykind", Tried::AnyKind),
    ("anytext", Tried::AnyText),
    ("anybinary", Tried::AnyBinary),
    ("columns", Tried::Columns),
    ("textrow", Tried::TextRow),
    ("binaryrow", Tried::BinaryRow),
    ("row", Tried::Row),
    ("shortrow", Tried::ShortRow),
    ("read", Tried::Read),
    ("keep", Tried::Keep),
    ("add", Tried::Add),
    ("second", Tried::Second),
    ("buffer", Tried::Buffer),
    ("array", Tried::Array),
    ("record", Tried::Record),
    ("types", Tried::Types),
    ("digests", Tried::Digests),
];

static KINDS: [(&str, Kind); 22] = [
    ("bool", Kind::Bool),
    ("char", Kind::Char),
    ("\"char\"", Kind::Char),
    ("int2", Kind::Int2),
    ("int4", Kind::Int4),
    ("int8", Kind::Int8),
    ("oid", Kind::Oid),
    ("text", Kind::Text),
    ("varchar", Kind::Text),
    ("bpchar", Kind::Text),
    ("name", Kind::Text),
    ("bytea", Kind::Bytea),
    ("int4?", Kind::OptionalInt4),
    ("int8?", Kind::OptionalInt8),
    ("int4[]", Kind::Int4Array),
    ("int4[]?", Kind::OptionalInt4Array),
    ("int4?[]", Kind::ArrayOfOptionals),
    ("bool[]?", Kind::OptionalBoolArray),
    ("mood", Kind::Mood),
    ("mood[]", Kind::MoodArray),
    ("items", Kind::Items),
    ("vector", Kind::Vector),
];

fn play_as<T: Decode + Encode + Typed + Debug>(
    told: &mut String,
    alloc: Global,
    tried: Tried,
    bytes: Option<&[u8]>,
) {
    match tried {
        Tried::Read => read::<T>(told, alloc, bytes),
        Tried::Keep => keep::<T>(told, alloc, bytes),
        Tried::TextRow => read_row::<T>(told, alloc, PgValueFormat::Text, bytes),
        Tried::BinaryRow => read_row::<T>(told, alloc, PgValueFormat::Binary, bytes),
        tried => match value_of::<T>(alloc, bytes) {
            Ok(value) => put(told, alloc, tried, value),
            Err(error) => push_shown(told, error),
        },
    }
}

fn play_kind(told: &mut String, alloc: Global, tried: Tried, kind: Kind, bytes: Option<&[u8]>) {
    match kind {
        Kind::Bool => play_as::<bool>(told, alloc, tried, bytes),
        Kind::Char => play_as::<i8>(told, alloc, tried, bytes),
        Kind::Int2 => play_as::<i16>(told, alloc, tried, bytes),
        Kind::Int4 => play_as::<i32>(told, alloc, tried, bytes),
        Kind::Int8 => play_as::<i64>(told, alloc, tried, bytes),
        Kind::Oid => play_as::<Oid>(told, alloc, tried, bytes),
        Kind::Text => play_as::<Text>(told, alloc, tried, bytes),
        Kind::Bytea => play_as::<Blob>(told, alloc, tried, bytes),
        Kind::OptionalInt4 => play_as::<Option<i32>>(told, alloc, tried, bytes),
        Kind::OptionalInt8 => play_as::<Option<i64>>(told, alloc, tried, bytes),
        Kind::Int4Array => play_as::<Vec<i32>>(told, alloc, tried, bytes),
        Kind::OptionalInt4Array => play_as::<Option<Vec<i32>>>(told, alloc, tried, bytes),
        Kind::ArrayOfOptionals => play_as::<Vec<Option<i32>>>(told, alloc, tried, bytes),
        Kind::OptionalBoolArray => play_as::<Option<Vec<bool>>>(told, alloc, tried, bytes),
        Kind::Mood => play_as::<Mood>(told, alloc, tried, bytes),
        Kind::MoodArray => play_as::<Vec<Mood>>(told, alloc, tried, bytes),
        Kind::Items => play_items(told, alloc, tried, bytes),
        Kind::Vector => play_vector(told, alloc, tried, bytes),
    }
}

fn play_word(told: &mut String, alloc: Global, tried: Tried, word: &str, bytes: Option<&[u8]>) {
    match meant(&KINDS, word) {
        Some(kind) => play_kind(told, alloc, tried, kind, bytes),
        None => push(told, "no type"),
    }
}

// An array of a row may have nulls.
fn play_row(told: &mut String, alloc: Global, tried: Tried, word: &str, bytes: Option<&[u8]>) {
    let format = match tried {
        Tried::BinaryRow => PgValueFormat::Binary,
        _ => PgValueFormat::Text,
    };
    match meant(&ARRAYS, word) {
        Some(element) => read_array_row(told, alloc, format, element, bytes),
        None => play_word(told, alloc, tried, word, bytes),
    }
}

/// What comes of a row.
pub fn play(told: &mut String, alloc: Global, tried: Tried, word: &str, bytes: Option<&[u8]>) {
    match tried {
        Tried::Array => read_items(told, alloc, true, bytes.unwrap_or(b"")),
        Tried::Record => read_items(told, alloc, false, bytes.unwrap_or(b"")),
        Tried::TextRow | Tried::BinaryRow => play_row(told, alloc, tried, word, bytes),
        tried => play_word(told, alloc, tried, word, bytes),
    }
}
