//! What is asked of the columns of a statement.

use crate::resolving::telling::push_error;
use crate::telling::{push, push_number};
use pg_resolve::nullable_query;
use pg_wire::Text;
use std::alloc::Global;

// A long text is told by its length.
fn push_query(told: &mut String, text: &Text) {
    if text.len() < 1000 {
        return push(told, text.as_str());
    }
    push_number(told, text.len() as u64);
    push(told, " bytes");
}

/// The query that asks of so many columns whether they may be null.
pub fn nullable(told: &mut String, alloc: Global, columns: &str) {
    let columns = columns.parse::<usize>().unwrap_or(0);
    if columns == 0 {
        return push(told, "no columns");
    }
    match nullable_query(alloc, columns) {
        Ok(query) => push_query(told, &query),
        Err(error) => push_error(told, error),
    }
}
