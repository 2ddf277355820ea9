ghost use Rattle.std.specs.Prelude.{◌≡◌, ◌↔◌, ◌<◌, ℕ, Some, length, option_map, slice_index_or, None, IsTrue, IfOk, IfErr};
ghost use Rattle.pg_columns.specs.Columns.{IsLastNamed, MissesName, MissesPlace, names_of};
ghost use Rattle.pg_rows.specs.Rows.{columns_in, value_at, IsValueAt, Reads, RefusesValue, Misreads, ReadsNamed, MisreadsNamed};

use crate::Heading;
use pg_columns::{PgColumn, column_at, place_by_name};
use pg_values::{Decode, PgValueRef};
use pg_wire::{DataRow, Error};
use std::alloc::Global;
use std::marker::Model;

/// One row of a result: contracts see its values' bytes, in which a null is None, and its heading.
/// (PostgreSQL manual, "Message Flow", "Simple Query" and "Extended Query".)
#[derive(Debug)]
pub struct PgRow {
    values: DataRow,
    heading: Heading,
}

// By hand, so that whoever lets one go makes one call, and doesn't go through its parts.
impl Drop for PgRow {
    fn drop(self) {
        let PgRow {
            values: _,
            heading: _,
        } = self;
    }
}

impl Model for PgRow {
    ghost use Rattle.pg_rows.specs.Rows.{RowSeen};

    ghost Value = { RowSeen };

    ghost view = { λ r. record { values = r.values; heading = r.heading } };
}

impl PgRow {
    /// The row that a DataRow message carries, under this heading.
    pub fn new(values: DataRow, heading: Heading) -> Self
        ensures { result ≡ record { values = values; heading = heading } }
    {
        PgRow { values, heading }
    }

    /// Its values alone, without taking memory.
    pub fn into_values(self) -> DataRow
        ensures { result ≡ self.values }
    {
        let PgRow { values, heading } = self;
        drop(heading);
        values
    }

    /// The number of values.
    pub fn len(&self) -> usize
        ensures { result ≡ length self.now.values }
    {
        self.values.len()
    }

    pub fn is_empty(&self) -> bool
        ensures { IsTrue result ↔ (length self.now.values ≡ 0) }
    {
        self.values.is_empty()
    }

    /// The bytes of a value, or None for a null. In a row of a query without arguments they are the value's text, and else its binary form.
    pub fn value(&self, index: usize) -> Option<&[u8]>
        requires { index < length self.now.values }
        ensures { option_map (λ x. x.now) result ≡ slice_index_or self.now.values index None }
    {
        self.values.get(index)
    }

    /// The columns that are described: at most as many as there are values.
    pub fn columns(&self) -> &[PgColumn]
        ensures { result.now ≡ columns_in self.now }
    {
        let columns = match &self.heading.columns {
            Some(columns) => columns.as_slice(),
            None => &[],
        };
        match columns.get(..self.len()) {
            Some(columns) => columns,
            None => columns,
        }
    }

    // The value of a column.
    fn raw(&self, index: usize) -> PgValueRef<'_>
        requires { index < length (columns_in self.now) }
        ensures { IsValueAt self.now index result.type_info.now result.format (option_map (λ b. b.now) result.value) }
    {
        PgValueRef {
            value: self.value(index),
            type_info: self.columns()[index].type_info(),
            format: self.heading.format,
        }
    }

    // The same as a value of a type.
    fn read<T: Decode>(&self, alloc: Global, index: usize) -> Result<T, Error>
        requires { index < length (columns_in self.now) }
        ensures ok { IfOk result (Reads T.reads self.now index) }
        ensures err { IfErr result (RefusesValue T.reads self.now index) }
    {
        match T::decode(alloc, self.raw(index)) {
            Ok(value) => Ok(value),
            Err(Error::Decode) => Err(Error::ColumnDecode { index }),
            Err(error) => Err(error),
        }
    }

    // A place below the number of columns.
    fn place(&self, index: usize) -> Result<usize, Error>
        ensures ok { IfOk result (λ place. (place ≡ index) × (index < length (columns_in self.now))) }
        ensures err { IfErr result (MissesPlace (columns_in self.now) index) }
    {
        let _ = column_at(self.columns(), index)?;
        Ok(index)
    }

    /// The value of a column by its place, from 0 on, as the server sent it. `ColumnIndexOutOfBounds` comes exactly where the place isn't
    /// below the number of columns.
    pub fn try_get_raw(&self, index: usize) -> Result<PgValueRef<'_>, Error>
        ensures ok { IfOk result (λ v. IsValueAt self.now index v.type_info.now v.format (option_map (λ b. b.now) v.value)) }
        ensures err { IfErr result (MissesPlace (columns_in self.now) index) }
    {
        let place = self.place(index)?;
        Ok(self.raw(place))
    }

    /// The same by the column's name; of several columns that have it the last one. `ColumnNotFound` comes exactly where none has it, but for
    /// want of memory.
    pub fn try_get_raw_by_name(&self, alloc: Global, name: &str) -> Result<PgValueRef<'_>, Error>
        ensures ok { IfOk result (λ v. (place : ℕ) × IsLastNamed name.now (names_of (columns_in self.now)) (Some place) × IsValueAt self.now place v.type_info.now v.format (option_map (λ b. b.now) v.value)) }
        ensures err { IfErr result (MissesName name.now (names_of (columns_in self.now))) }
    {
        let place = place_by_name(alloc, self.columns(), name)?;
        Ok(self.raw(place))
    }

    /// The value of a column by its place, from 0 on. `ColumnIndexOutOfBounds` comes exactly where the place isn't below the number of columns,
    /// and `ColumnDecode` exactly where the bytes there are no value of the asked type.
    pub fn try_get<T: Decode>(&self, alloc: Global, index: usize) -> Result<T, Error>
        ensures ok { IfOk result (Reads T.reads self.now index) }
        ensures err { IfErr result (Misreads T.reads self.now index) }
    {
        let place = self.place(index)?;
        self.read(alloc, place)
    }

    /// The same by the column's name; of several columns that have it the last one. `ColumnNotFound` comes exactly where none has it, but for
    /// want of memory.
    pub fn try_get_by_name<T: Decode>(&self, alloc: Global, name: &str) -> Result<T, Error>
        ensures ok { IfOk result (ReadsNamed T.reads self.now name.now) }
        ensures err { IfErr result (MisreadsNamed T.reads self.now name.now) }
    {
        let place = place_by_name(alloc, self.columns(), name)?;
        self.read(alloc, place)
    }
}
