ghost use Rattle.std.specs.Prelude.{◌≡◌, ◌∷◌, [], IfOk, map};
ghost use Rattle.pg_report.specs.declared.outcome.Item.TheVariants as items;
ghost use Rattle.pg_play.specs.Shown.{item_of};

use pg_conn::CallItem;
use pg_report::Item;
use pg_rows::PgRow;
use std::alloc::{AllocError, Global};

/// The rows of an answer. Their values stay where they are.
pub(crate) fn rows_of(alloc: Global, rows: Vec<PgRow>) -> Result<Vec<Item>, AllocError>
    ensures { IfOk result (λ told. told.items ≡ map (λ row. items.Row row.values) rows.items) }
{
    let mut items = Vec::with_capacity(alloc, rows.len())?;
    for row in rows {
        items.push(Item::Row(row.into_values()))?;
    }
    Ok(items)
}

/// One row alone.
pub(crate) fn one_row(alloc: Global, row: PgRow) -> Result<Vec<Item>, AllocError>
    ensures { IfOk result (λ told. told.items ≡ items.Row row.values ∷ []) }
{
    let mut items = Vec::with_capacity(alloc, 1)?;
    items.push(Item::Row(row.into_values()))?;
    Ok(items)
}

/// An item that a call showed.
pub(crate) fn item_of(item: CallItem) -> Item
    ensures { result ≡ item_of item }
{
    match item {
        CallItem::Row(row) => Item::Row(row.into_values()),
        CallItem::Count(count) => Item::Count(count.rows_affected()),
        CallItem::Piece(piece) => Item::Piece(piece),
    }
}
