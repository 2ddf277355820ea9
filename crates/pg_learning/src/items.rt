ghost use Rattle.std.specs.Prelude.{◌≡◌, IfOk, IfErr, option_map};
ghost use Rattle.pg_values.specs.Arrays.{ReadsEach};
ghost use Rattle.pg_values.specs.Values.{IsNoValue};
ghost use Rattle.pg_learning.specs.Texts.{Given, AreItems};

use crate::from_text::{FromText, given};
use pg_values::read_array;
use pg_wire::{Error, Sequence, Text};
use std::alloc::Global;

pub(crate) fn bytes_of(text: &Option<Text>) -> Option<&[u8]>
    ensures { option_map (λ b. b.now) result ≡ text.now }
{
    match text {
        Some(text) => Some(text.as_bytes()),
        None => None,
    }
}

// Elements whose texts are there already.
fn each<T: FromText>(alloc: Global, elements: &[Option<Text>]) -> Result<Sequence<T>, Error>
    ensures value { IfOk result (ReadsEach (Given T.means) elements.now) }
    ensures cause { IfErr result (IsNoValue (ReadsEach (Given T.means) elements.now)) }
{
    let mut items = Sequence::new(alloc);
    for element in elements {
        items.push(given::<T>(alloc, bytes_of(element))?)?;
    }
    Ok(items)
}

impl<T: FromText> FromText for Sequence<T> {
    ghost means = { AreItems T.means };

    fn from_text(alloc: Global, bytes: &[u8]) -> Result<Self, Error> {
        let Ok(text) = str::from_utf8(bytes) else {
            return Err(Error::Decode);
        };
        let elements = read_array(alloc, text)?;
        each(alloc, &elements)
    }
}
