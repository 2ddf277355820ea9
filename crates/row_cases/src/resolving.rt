//! Cases of the resolver. The rows are those that a server with such types gives.
//!
//! A row begins with a word. `row` keeps a row of a type lookup: its OID, its pretty, catalog and original names, its two codes, the OIDs of
//! element, base and subtype, its labels and its attributes; a minus stands for none. `forget` forgets all rows. `take` takes the rows with
//! these OIDs in this order. `serve` asks for a type and answers each lookup by the rows that it asks. `text` writes a lookup, and `columns`
//! a column lookup. `names` takes rows of a column lookup, behind a semicolon each, and tells names of columns. `type_row` and `column_row`
//! read a row of a lookup from its values, which have a bar between them; a minus stands for a null. `nullable` writes the query that asks of
//! so many columns whether they may be null, and `plan` marks a query's outputs by its plan.

mod columns;
mod described;
mod kinds;
mod lookups;
mod plans;
mod rows;
mod telling;
mod types;
mod words;

use crate::row::{meant, text, two};
use crate::telling::push;
use pg_wire::Text;
use std::alloc::Global;

#[derive(Clone, Copy)]
enum Verb {
    Row,
    Forget,
    Take,
    Serve,
    Text,
    Columns,
    Names,
    TypeRow,
    ColumnRow,
    Nullable,
    Plan,
}

static VERBS: [(&str, Verb); 11] = [
    ("row", Verb::Row),
    ("forget", Verb::Forget),
    ("take", Verb::Take),
    ("serve", Verb::Serve),
    ("text", Verb::Text),
    ("columns", Verb::Columns),
    ("names", Verb::Names),
    ("type_row", Verb::TypeRow),
    ("column_row", Verb::ColumnRow),
    ("nullable", Verb::Nullable),
    ("plan", Verb::Plan),
];

fn play(told: &mut String, alloc: Global, rows: &mut Vec<Text>, verb: Verb, rest: &str) {
    match verb {
        Verb::Row => {
            let _ = rows.push(text(alloc, rest));
            push(told, "kept");
        }
        Verb::Forget => {
            rows.clear();
            push(told, "forgotten");
        }
        Verb::Take => types::take(told, alloc, rows, rest),
        Verb::Serve => types::serve(told, alloc, rows, rest),
        Verb::Text => types::lookup(told, alloc, rest),
        Verb::Columns => columns::lookup(told, alloc, rest),
        Verb::Names => columns::names(told, alloc, rest),
        Verb::TypeRow => lookups::read_type(told, alloc, rest),
        Verb::ColumnRow => lookups::read_columns(told, alloc, rest),
        Verb::Nullable => described::nullable(told, alloc, rest),
        Verb::Plan => plans::walk(told, alloc, rest),
    }
}

/// What came of a row, with those that are kept.
pub fn answer(told: &mut String, alloc: Global, kept: &mut Vec<Text>, row: &str) {
    let (word, rest) = two(row, ' ');
    match meant(&VERBS, word) {
        Some(verb) => play(told, alloc, kept, verb, rest),
        None => push(told, "no such case"),
    }
}
