ghost use Rattle.pg_arguments.specs.Builtin.{type_under};
ghost use Rattle.pg_arguments.specs.Encoding.{Image};
ghost use Rattle.pg_arguments.specs.Images.{bool_image};

use crate::argument_buffer::PgArgumentBuffer;
use crate::encode::{Encode, IsNull, PgHasArrayType, Typed};
use crate::type_info::PgTypeInfo;
use pg_wire::{Error, Oid};
use std::alloc::Global;

impl Typed for bool {
    ghost described = { type_under 16 };

    fn type_info(alloc: Global) -> Result<PgTypeInfo, Error> {
        Ok(PgTypeInfo::under_oid(alloc, Oid(16))?)
    }
}

impl PgHasArrayType for bool {
    ghost array_described = { type_under 1000 };

    fn array_type_info(alloc: Global) -> Result<PgTypeInfo, Error> {
        Ok(PgTypeInfo::under_oid(alloc, Oid(1000))?)
    }
}

impl Encode for bool {
    ghost encoding = { λ b. Image (bool_image b) };

    fn encode(self, out: &mut PgArgumentBuffer) -> Result<IsNull, Error> {
        out.push_bytes(&[u8::from(self)])?;
        Ok(IsNull::No)
    }
}
