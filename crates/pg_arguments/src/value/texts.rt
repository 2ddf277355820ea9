ghost use Rattle.std.specs.Prelude.{◌≡◌, Ok};
ghost use Rattle.pg_arguments.specs.Builtin.{type_under};
ghost use Rattle.pg_arguments.specs.Encoding.{Image};
ghost use Rattle.pg_arguments.specs.Encoded.{plain};

use crate::argument_buffer::PgArgumentBuffer;
use crate::encode::{Encode, IsNull, PgHasArrayType, Typed};
use crate::type_info::PgTypeInfo;
use pg_wire::{Blob, Error, Oid, Text};
use std::alloc::Global;

impl Typed for Text {
    ghost described = { type_under 25 };

    fn type_info(alloc: Global) -> Result<PgTypeInfo, Error> {
        Ok(PgTypeInfo::under_oid(alloc, Oid(25))?)
    }
}

impl PgHasArrayType for Text {
    ghost array_described = { type_under 1009 };

    fn array_type_info(alloc: Global) -> Result<PgTypeInfo, Error> {
        Ok(PgTypeInfo::under_oid(alloc, Oid(1009))?)
    }
}

impl Encode for Text {
    ghost encoding = { λ t. Image (plain t) };

    fn encode(self, out: &mut PgArgumentBuffer) -> Result<IsNull, Error> {
        out.push_bytes(self.as_bytes())?;
        Ok(IsNull::No)
    }
}

impl Typed for Blob {
    ghost described = { type_under 17 };

    fn type_info(alloc: Global) -> Result<PgTypeInfo, Error> {
        Ok(PgTypeInfo::under_oid(alloc, Oid(17))?)
    }
}

impl PgHasArrayType for Blob {
    ghost array_described = { type_under 1001 };

    fn array_type_info(alloc: Global) -> Result<PgTypeInfo, Error> {
        Ok(PgTypeInfo::under_oid(alloc, Oid(1001))?)
    }
}

impl Encode for Blob {
    ghost encoding = { λ b. Image (plain b) };

    fn encode(self, out: &mut PgArgumentBuffer) -> Result<IsNull, Error> {
        out.push_bytes(self.as_bytes())?;
        Ok(IsNull::No)
    }
}
