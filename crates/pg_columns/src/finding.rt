ghost use Rattle.std.specs.Prelude.{◌≡◌, ◌<◌, ℕ, Some, IfOk, IfErr, length, slice_get};
ghost use Rattle.pg_columns.specs.Columns.{IsLastNamed, MissesName, MissesPlace, names_of};

use crate::PgColumn;
use pg_wire::{Error, Text};
use std::alloc::Global;

/// The place of the column of this name; of several that have it the last one's.
pub fn place_of(columns: &[PgColumn], name: &str) -> Option<usize>
    ensures { IsLastNamed name.now (names_of columns.now) result }
{
    let mut place = columns.len();
    while place > 0 {
        place -= 1;
        if columns[place].name() == name {
            return Some(place);
        }
    }
    None
}

/// The column at a place. There is none exactly where the place isn't below their number.
pub fn column_at(columns: &[PgColumn], index: usize) -> Result<&PgColumn, Error>
    ensures ok { IfOk result (λ c. slice_get columns.now index ≡ Some c.now) }
    ensures err { IfErr result (MissesPlace columns.now index) }
{
    match columns.get(index) {
        Some(column) => Ok(column),
        None => Err(Error::ColumnIndexOutOfBounds {
            index,
            len: columns.len(),
        }),
    }
}

/// The same where there must be one.
pub fn place_by_name(alloc: Global, columns: &[PgColumn], name: &str) -> Result<usize, Error>
    ensures ok { IfOk result (λ place. IsLastNamed name.now (names_of columns.now) (Some place) × (place < length columns.now)) }
    ensures err { IfErr result (MissesName name.now (names_of columns.now)) }
{
    match place_of(columns, name) {
        Some(place) => Ok(place),
        None => Err(Error::ColumnNotFound {
            name: Text::from_str(alloc, name)?,
        }),
    }
}

/// The column of a name; of several that have it the last one.
pub fn column_by_name<'c>(
    alloc: Global,
    columns: &'c [PgColumn],
    name: &str,
) -> Result<&'c PgColumn, Error>
    ensures ok { IfOk result (λ c. (place : ℕ) × IsLastNamed name.now (names_of columns.now) (Some place) × (slice_get columns.now place ≡ Some c.now)) }
    ensures err { IfErr result (MissesName name.now (names_of columns.now)) }
{
    let place = place_by_name(alloc, columns, name)?;
    Ok(&columns[place])
}
