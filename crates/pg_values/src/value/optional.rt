ghost use Rattle.pg_values.specs.Values.{ReadsOptional};

use crate::decode::Decode;
use crate::format::PgValueRef;
use pg_wire::Error;
use std::alloc::Global;

impl<T: Decode> Decode for Option<T> {
    ghost reads = { λ of. ReadsOptional (T.reads of) };

    fn decode(alloc: Global, value: PgValueRef<'_>) -> Result<Self, Error> {
        if value.value.is_none() {
            return Ok(None);
        }
        Ok(Some(T::decode(alloc, value)?))
    }
}
