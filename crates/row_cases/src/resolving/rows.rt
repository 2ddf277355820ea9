//! Rows of lookups, made of words.

use crate::resolving::words::{list, next, number, text_or_none};
use crate::row::{meant, text, two};
use pg_resolve::{ColumnResolverRow, TypCategory, TypType, TypeResolverRow};
use pg_wire::{Oid, Sequence};
use std::alloc::Global;

static TYPTYPES: [(&str, TypType); 5] = [
    ("c", TypType::Composite),
    ("d", TypType::Domain),
    ("e", TypType::Enum),
    ("p", TypType::Pseudo),
    ("r", TypType::Range),
];

static TYPCATEGORIES: [(&str, TypCategory); 5] = [
    ("A", TypCategory::Array),
    ("C", TypCategory::Composite),
    ("E", TypCategory::Enum),
    ("P", TypCategory::Pseudo),
    ("R", TypCategory::Range),
];

fn oid_or_none(word: &str) -> Option<Oid> {
    if word == "-" {
        return None;
    }
    Some(Oid(number(word)))
}

/// The OID of a row of the type lookup.
pub fn oid(words: &str) -> Oid {
    Oid(number(two(words, ' ').0))
}

/// A row of the type lookup.
pub fn type_row(alloc: Global, words: &str) -> TypeResolverRow {
    let mut words = words;
    let words = &mut words;
    TypeResolverRow {
        oid: Oid(number(next(words, ' '))),
        pretty_name: text(alloc, next(words, ' ')),
        catalog_name: text(alloc, next(words, ' ')),
        original_name: text_or_none(alloc, next(words, ' ')),
        typtype: meant(&TYPTYPES, next(words, ' ')).unwrap_or(TypType::Base),
        typcategory: meant(&TYPCATEGORIES, next(words, ' ')).unwrap_or(TypCategory::User),
        typelem: oid_or_none(next(words, ' ')),
        typbasetype: oid_or_none(next(words, ' ')),
        rngsubtype: oid_or_none(next(words, ' ')),
        enum_labels: Sequence::from_vec(list(alloc, next(words, ' '), ',')),
        record_attributes: Sequence::from_vec(list(alloc, next(words, ' '), ',')),
    }
}

/// A row of the column lookup.
pub fn column_row(alloc: Global, words: &str) -> ColumnResolverRow {
    let mut words = words;
    let words = &mut words;
    ColumnResolverRow {
        table_oid: Oid(number(next(words, ' '))),
        table_name: text(alloc, next(words, ' ')),
        columns: Sequence::from_vec(list(alloc, next(words, ' '), ',')),
    }
}
