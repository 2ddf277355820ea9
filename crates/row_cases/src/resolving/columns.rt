//! Columns that are asked for.

use crate::resolving::rows::column_row;
use crate::resolving::telling::{push_asked, push_end};
use crate::resolving::words::{attribute, number};
use crate::row::two;
use crate::telling::push;
use pg_resolve::{ColumnResolver, TableCache};
use pg_wire::{Error, Oid, Text};
use std::alloc::Global;

// A table and the number of a column, written as `16500:1`.
fn column(word: &str) -> (Oid, i16) {
    let (table, place) = two(word, ':');
    (Oid(number(table)), attribute(place))
}

fn ask(
    alloc: Global,
    resolver: &mut ColumnResolver,
    words: &str,
) -> Result<(Option<Text>, bool), Error> {
    for word in words.split(' ') {
        let (table, attribute) = column(word);
        resolver.push_column(table, attribute)?;
    }
    let first = resolver.query(alloc)?;
    let next = resolver.query(alloc)?;
    Ok((first, next.is_none()))
}

/// The text of a lookup of columns, and whether it is the last.
pub fn lookup(told: &mut String, alloc: Global, words: &str) {
    let mut resolver = ColumnResolver::new(alloc);
    push_asked(told, ask(alloc, &mut resolver, words));
    drop(resolver);
}

fn take_rows(alloc: Global, cache: &mut TableCache, rows: &str) -> Result<(), Error> {
    let mut resolver = ColumnResolver::new(alloc);
    for words in rows.split(';') {
        resolver.take_row(cache, column_row(alloc, words))?;
    }
    Ok(())
}

fn push_names(told: &mut String, cache: &TableCache, words: &str) {
    for word in words.split(' ') {
        push(told, ", ");
        let (table, attribute) = column(word);
        let (table, dot, name) = match cache.column(table, attribute) {
            Some((table, name)) => (table, ".", name),
            None => ("-", "", ""),
        };
        push(told, table);
        push(told, dot);
        push(told, name);
    }
}

/// The names of columns after some rows, which stand behind a semicolon each.
pub fn names(told: &mut String, alloc: Global, words: &str) {
    let (asked, rows) = two(words, ';');
    let mut cache = TableCache::new(alloc);
    push_end(told, take_rows(alloc, &mut cache, rows));
    push_names(told, &cache, asked);
    drop(cache);
}
