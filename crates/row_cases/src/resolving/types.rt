//! Types that are looked up.

use crate::resolving::kinds::push_kind;
use crate::resolving::rows::{oid, type_row};
use crate::resolving::telling::{push_asked, push_end, push_error, push_oid};
use crate::resolving::words::number;
use crate::row::text;
use crate::telling::{push, push_number};
use pg_arguments::PgTypeInfo;
use pg_resolve::{Resolver, TypeCache, Wanted};
use pg_wire::{Error, Oid, Text};
use std::alloc::Global;

fn take_row(
    alloc: Global,
    resolver: &mut Resolver,
    cache: &mut TypeCache,
    row: &Text,
) -> Result<(), Error> {
    let row = type_row(alloc, row.as_str());
    resolver.take_row(alloc, cache, row)
}

// Takes the rows with each of these OIDs.
fn take_all(alloc: Global, cache: &mut TypeCache, rows: &[Text], oids: &str) -> Result<(), Error> {
    let mut resolver = Resolver::new(alloc);
    for word in oids.split(' ') {
        let wanted = Oid(number(word));
        for row in rows {
            if oid(row.as_str()) == wanted {
                take_row(alloc, &mut resolver, cache, row)?;
            }
        }
    }
    resolver.ended(alloc)
}

// The name, the levels, the kind, the OID under the name, and that of the array.
fn push_known(told: &mut String, cache: &TypeCache, oid: Oid, of: &PgTypeInfo) {
    push(told, of.name());
    push(told, "/");
    push_number(told, u64::from(of.levels()));
    push(told, "/");
    push_kind(told, of.kind());
    push(told, "/");
    push_oid(told, cache.by_name(of.name()));
    push(told, "/");
    push_oid(told, cache.array_of(oid));
}

// What is known of a type, told by a copy of it.
fn push_type(told: &mut String, alloc: Global, cache: &TypeCache, oid: Oid) {
    let Some(of) = cache.by_oid(oid) else {
        return push(told, "not known");
    };
    if let Ok(copy) = of.to_copy(alloc) {
        push_known(told, cache, oid, &copy);
        drop(copy);
    }
}

fn push_types(told: &mut String, alloc: Global, cache: &TypeCache, oids: &str) {
    for word in oids.split(' ') {
        push(told, ", ");
        push(told, word);
        push(told, " ");
        push_type(told, alloc, cache, Oid(number(word)));
    }
}

/// What the rows with these OIDs leave, taken in this order.
pub fn take(told: &mut String, alloc: Global, rows: &[Text], oids: &str) {
    let mut cache = TypeCache::new(alloc);
    push_end(told, take_all(alloc, &mut cache, rows, oids));
    push_types(told, alloc, &cache, oids);
    drop(cache);
}

// Whether a lookup asks for the type with this OID.
fn is_asked(alloc: Global, text: &str, oid: Oid) -> bool {
    let mut entry = String::new(alloc);
    push(&mut entry, "(NULL, ");
    push_number(&mut entry, u64::from(oid.0));
    push(&mut entry, ")");
    text.contains(entry.as_str())
}

// Takes the rows that a lookup asks by their OIDs.
fn answer_lookup(
    alloc: Global,
    resolver: &mut Resolver,
    cache: &mut TypeCache,
    rows: &[Text],
    text: &str,
) -> Result<(), Error> {
    for row in rows {
        if is_asked(alloc, text, oid(row.as_str())) {
            take_row(alloc, resolver, cache, row)?;
        }
    }
    Ok(())
}

// How many lookups were made until none was left.
fn answer_lookups(
    alloc: Global,
    resolver: &mut Resolver,
    cache: &mut TypeCache,
    rows: &[Text],
    wanted: Oid,
) -> Result<u8, Error> {
    resolver.push_type(alloc, None, Wanted::Oid(wanted))?;
    for made in 0..100u8 {
        match resolver.query(alloc)? {
            Some(text) => answer_lookup(alloc, resolver, cache, rows, text.as_str())?,
            None => return Ok(made),
        }
    }
    Ok(100)
}

/// What a type is, where each lookup is answered by the rows that it asks.
pub fn serve(told: &mut String, alloc: Global, rows: &[Text], wanted: &str) {
    let wanted = Oid(number(wanted));
    let mut cache = TypeCache::new(alloc);
    let mut resolver = Resolver::new(alloc);
    match answer_lookups(alloc, &mut resolver, &mut cache, rows, wanted) {
        Ok(made) => {
            push_number(told, u64::from(made));
            push(told, " lookups, ");
            push_end(told, resolver.ended(alloc));
            push(told, ", ");
            push_type(told, alloc, &cache, wanted);
        }
        Err(error) => push_error(told, error),
    }
    drop(resolver);
    drop(cache);
}

// `oid:7`, `name:mood` or `element:mood`.
fn push_wanted(alloc: Global, resolver: &mut Resolver, word: &str) -> Result<(), Error> {
    match word.split_once(':') {
        Some(("name", name)) => {
            resolver.push_type(alloc, Some(name), Wanted::Name(text(alloc, name)))
        }
        Some(("element", name)) => {
            resolver.push_type(alloc, Some(name), Wanted::Element(text(alloc, name)))
        }
        Some((_, oid)) => resolver.push_type(alloc, None, Wanted::Oid(Oid(number(oid)))),
        None => Ok(()),
    }
}

fn ask(alloc: Global, resolver: &mut Resolver, words: &str) -> Result<(Option<Text>, bool), Error> {
    for word in words.split(' ') {
        push_wanted(alloc, resolver, word)?;
    }
    let first = resolver.query(alloc)?;
    let next = resolver.query(alloc)?;
    Ok((first, next.is_none()))
}

/// The text of a lookup, and whether it is the last.
pub fn lookup(told: &mut String, alloc: Global, words: &str) {
    let mut resolver = Resolver::new(alloc);
    push_asked(told, ask(alloc, &mut resolver, words));
    drop(resolver);
}
