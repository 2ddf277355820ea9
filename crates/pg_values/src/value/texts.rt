ghost use Rattle.pg_values.specs.Values.{ReadsBy, IsNoValue, IsTextOf, AreBytesOf, AreHexOf};
ghost use Rattle.std.specs.Prelude.{◌≡◌, Ok, IfOk, IfErr};
ghost use Rattle.hex.specs.Hex.{decode_of};

use crate::decode::Decode;
use crate::format::{PgValueFormat, PgValueRef};
use hex::FromHexError;
use pg_wire::{Blob, Error, Text};
use std::alloc::Global;

fn text(alloc: Global, bytes: &[u8]) -> Result<Text, Error>
    ensures value { IfOk result (IsTextOf bytes.now) }
    ensures cause { IfErr result (IsNoValue (IsTextOf bytes.now)) }
{
    match str::from_utf8(bytes) {
        Ok(text) => Ok(Text::from_str(alloc, text)?),
        Err(_) => Err(Error::Decode),
    }
}

impl Decode for Text {
    ghost reads = { λ _. ReadsBy IsTextOf IsTextOf };

    fn decode(alloc: Global, value: PgValueRef<'_>) -> Result<Self, Error> {
        match value.value {
            Some(bytes) => text(alloc, bytes),
            None => Err(Error::Decode),
        }
    }
}

fn bytes_of(alloc: Global, digits: &[u8]) -> Result<Blob, Error>
    ensures value { IfOk result (λ b. decode_of digits.now ≡ Ok b) }
    ensures cause { IfErr result (IsNoValue (λ b. decode_of digits.now ≡ Ok b)) }
{
    match hex::decode(alloc, digits) {
        Ok(bytes) => Ok(Blob::from_vec(bytes)),
        Err(FromHexError::OutOfMemory) => Err(Error::OutOfMemory),
        Err(_) => Err(Error::Decode),
    }
}

fn hex_text(alloc: Global, bytes: &[u8]) -> Result<Blob, Error>
    ensures value { IfOk result (AreHexOf bytes.now) }
    ensures cause { IfErr result (IsNoValue (AreHexOf bytes.now)) }
{
    match bytes {
        [b'\\', b'x', digits @ ..] => bytes_of(alloc, digits),
        _ => Err(Error::Decode),
    }
}

impl Decode for Blob {
    ghost reads = { λ _. ReadsBy AreBytesOf AreHexOf };

    fn decode(alloc: Global, value: PgValueRef<'_>) -> Result<Self, Error> {
        let Some(bytes) = value.value else {
            return Err(Error::Decode);
        };
        match value.format {
            PgValueFormat::Binary => Ok(Blob::from_slice(alloc, bytes)?),
            PgValueFormat::Text => hex_text(alloc, bytes),
        }
    }
}
