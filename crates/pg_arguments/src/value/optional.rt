ghost use Rattle.pg_arguments.specs.Images.{optional};

use crate::argument_buffer::PgArgumentBuffer;
use crate::encode::{Encode, IsNull, PgHasArrayType, Typed};
use crate::type_info::PgTypeInfo;
use pg_wire::Error;
use std::alloc::Global;

impl<T: Typed> Typed for Option<T> {
    ghost described = { T.described };

    fn type_info(alloc: Global) -> Result<PgTypeInfo, Error> {
        T::type_info(alloc)
    }
}

impl<T: PgHasArrayType> PgHasArrayType for Option<T> {
    ghost array_described = { T.array_described };

    fn array_type_info(alloc: Global) -> Result<PgTypeInfo, Error> {
        T::array_type_info(alloc)
    }
}

impl<T: Encode> Encode for Option<T> {
    ghost encoding = { optional T.encoding };

    fn encode(self, out: &mut PgArgumentBuffer) -> Result<IsNull, Error> {
        match self {
            Some(value) => value.encode(out),
            None => Ok(IsNull::Yes),
        }
    }
}
