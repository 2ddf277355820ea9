ghost use Rattle.std.specs.Prelude.{◌≡◌, Some};
ghost use Rattle.pg_script.specs.Reading.{Gives};

use crate::error::LineError;
use pg_wire::{Blob, Sequence, Text};
use std::alloc::Global;

/// An argument that stands without quotes.
#[derive(Drop)]
pub(crate) enum Bare {
    /// A null of the type with this OID.
    Null(u32),
    Bool(bool),
    Int2(i16),
    Int4(i32),
    Int8(i64),
    Oid(u32),
    Int4s(Sequence<i32>),
}

/// An argument of a query.
#[derive(Drop)]
pub(crate) enum Argument {
    Bare(Bare),
    Text(Text),
    Bytea(Blob),
    Texts(Sequence<Text>),
    /// A value of the type of this name, by its binary encoding.
    Named(Text, Blob),
}

fn copied_numbers(alloc: Global, numbers: &[i32]) -> Result<Sequence<i32>, LineError>
    ensures { Gives (λ n. n) result (Some numbers.now) }
{
    let numbers = Vec::from_slice(alloc, numbers)?;
    Ok(Sequence::from_vec(numbers))
}

impl Bare {
    /// An equal argument.
    pub(crate) fn to_copy(&self, alloc: Global) -> Result<Self, LineError>
        ensures { Gives (λ a. a) result (Some self.now) }
    {
        Ok(match self {
            Bare::Null(oid) => Bare::Null(*oid),
            Bare::Bool(value) => Bare::Bool(*value),
            Bare::Int2(value) => Bare::Int2(*value),
            Bare::Int4(value) => Bare::Int4(*value),
            Bare::Int8(value) => Bare::Int8(*value),
            Bare::Oid(value) => Bare::Oid(*value),
            Bare::Int4s(values) => Bare::Int4s(copied_numbers(alloc, values.as_slice())?),
        })
    }
}
