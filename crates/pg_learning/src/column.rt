ghost use Rattle.std.specs.Prelude.{◌≡◌, IfOk, IfErr, option_map, slice_get};
ghost use Rattle.pg_learning.specs.Texts.{Given, GivenOrNull};
ghost use Rattle.pg_learning.specs.Lookups.{At};
ghost use Rattle.pg_learning.specs.Parts.{IsOfColumn, IsNoColumn};

use crate::from_text::{FromText, given, given_or_null};
use pg_wire::{DataRow, Error};
use std::alloc::Global;

// The value at a place, where the row has one there.
fn value_at(values: &DataRow, place: usize) -> Option<Option<&[u8]>>
    ensures { option_map (λ v. option_map (λ b. b.now) v) result ≡ slice_get values.now place }
{
    if place < values.len() {
        Some(values.get(place))
    } else {
        None
    }
}

// The error of a column whose value was refused with another.
fn column_error(error: Error, place: usize) -> Error
    ensures { IsOfColumn error place result }
{
    match error {
        Error::OutOfMemory => Error::OutOfMemory,
        _ => Error::ColumnDecode { index: place },
    }
}

/// The value of a column that may not be null.
pub(crate) fn column<T: FromText>(alloc: Global, values: &DataRow, place: usize) -> Result<T, Error>
    ensures value { IfOk result (At (Given T.means) values.now place) }
    ensures cause { IfErr result (IsNoColumn (Given T.means) values.now place) }
{
    let Some(value) = value_at(values, place) else {
        return Err(Error::ColumnDecode { index: place });
    };
    match given(alloc, value) {
        Ok(read) => Ok(read),
        Err(error) => Err(column_error(error, place)),
    }
}

/// The value of a column that may be null.
pub(crate) fn column_or_null<T: FromText>(
    alloc: Global,
    values: &DataRow,
    place: usize,
) -> Result<Option<T>, Error>
    ensures value { IfOk result (At (GivenOrNull T.means) values.now place) }
    ensures cause { IfErr result (IsNoColumn (GivenOrNull T.means) values.now place) }
{
    let Some(value) = value_at(values, place) else {
        return Err(Error::ColumnDecode { index: place });
    };
    match given_or_null(alloc, value) {
        Ok(read) => Ok(read),
        Err(error) => Err(column_error(error, place)),
    }
}
