ghost use Rattle.std.specs.Prelude.{IfOk, IfErr};
ghost use Rattle.pg_values.specs.Values.{IsNoValue};
ghost use Rattle.pg_learning.specs.Texts.{AreTwo, IsPair};

use crate::from_text::{FromText, given};
use crate::items::bytes_of;
use pg_values::read_composite;
use pg_wire::{Error, Text};
use std::alloc::Global;

// The two fields of a record that has no others.
fn two<A: FromText, B: FromText>(alloc: Global, fields: &[Option<Text>]) -> Result<(A, B), Error>
    ensures value { IfOk result (AreTwo A.means B.means fields.now) }
    ensures cause { IfErr result (IsNoValue (AreTwo A.means B.means fields.now)) }
{
    match fields {
        [first, second] => {
            let first = given::<A>(alloc, bytes_of(first))?;
            let second = given::<B>(alloc, bytes_of(second))?;
            Ok((first, second))
        }
        _ => Err(Error::Decode),
    }
}

impl<A: FromText, B: FromText> FromText for (A, B) {
    ghost means = { IsPair A.means B.means };

    fn from_text(alloc: Global, bytes: &[u8]) -> Result<Self, Error> {
        let Ok(text) = str::from_utf8(bytes) else {
            return Err(Error::Decode);
        };
        let fields = read_composite(alloc, text)?;
        two(alloc, &fields)
    }
}
