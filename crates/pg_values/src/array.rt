ghost use Rattle.pg_values.specs.Arrays.{OfItems, IsArray, element_type};
ghost use Rattle.pg_values.specs.Texts.{IsTextArray};
ghost use Rattle.pg_values.specs.Values.{ReadsBy};
ghost use Rattle.pg_values.specs.declared.format.PgValueFormat.TheVariants as formats;

use crate::array_reading::{read_binary, read_text};
use crate::decode::Decode;
use crate::format::{PgValueFormat, PgValueRef};
use pg_wire::Error;
use std::alloc::Global;

impl<T: Decode> Decode for Vec<T> {
    ghost reads = { λ of. ReadsBy (λ bytes. OfItems (IsArray (T.reads (element_type of) formats.Binary) bytes)) (λ bytes. OfItems (IsTextArray (T.reads (element_type of) formats.Text) bytes)) };

    fn decode(alloc: Global, value: PgValueRef<'_>) -> Result<Self, Error> {
        let Some(bytes) = value.value else {
            return Err(Error::Decode);
        };
        match value.format {
            PgValueFormat::Binary => read_binary(alloc, bytes, value.type_info),
            PgValueFormat::Text => read_text(alloc, bytes, value.type_info),
        }
    }
}
