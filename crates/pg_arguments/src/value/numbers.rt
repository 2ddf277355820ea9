ghost use Rattle.std.specs.Prelude.{◌≡◌};
ghost use Rattle.pg_arguments.specs.Builtin.{type_under};
ghost use Rattle.pg_arguments.specs.Encoding.{Image};
ghost use Rattle.pg_arguments.specs.Images.{signed8_image, signed16_image, signed32_image, signed64_image, oid_image};

use crate::argument_buffer::PgArgumentBuffer;
use crate::encode::{Encode, IsNull, PgHasArrayType, Typed};
use crate::type_info::PgTypeInfo;
use pg_wire::{Error, Oid};
use std::alloc::Global;

impl Typed for i8 {
    ghost described = { type_under 18 };

    fn type_info(alloc: Global) -> Result<PgTypeInfo, Error> {
        Ok(PgTypeInfo::under_oid(alloc, Oid(18))?)
    }
}

impl PgHasArrayType for i8 {
    ghost array_described = { type_under 1002 };

    fn array_type_info(alloc: Global) -> Result<PgTypeInfo, Error> {
        Ok(PgTypeInfo::under_oid(alloc, Oid(1002))?)
    }
}

impl Encode for i8 {
    ghost encoding = { λ z. Image (signed8_image z) };

    fn encode(self, out: &mut PgArgumentBuffer) -> Result<IsNull, Error> {
        out.push_bytes(&self.to_be_bytes())?;
        Ok(IsNull::No)
    }
}

impl Typed for i16 {
    ghost described = { type_under 21 };

    fn type_info(alloc: Global) -> Result<PgTypeInfo, Error> {
        Ok(PgTypeInfo::under_oid(alloc, Oid(21))?)
    }
}

impl PgHasArrayType for i16 {
    ghost array_described = { type_under 1005 };

    fn array_type_info(alloc: Global) -> Result<PgTypeInfo, Error> {
        Ok(PgTypeInfo::under_oid(alloc, Oid(1005))?)
    }
}

impl Encode for i16 {
    ghost encoding = { λ z. Image (signed16_image z) };

    fn encode(self, out: &mut PgArgumentBuffer) -> Result<IsNull, Error> {
        out.push_bytes(&self.to_be_bytes())?;
        Ok(IsNull::No)
    }
}

impl Typed for i32 {
    ghost described = { type_under 23 };

    fn type_info(alloc: Global) -> Result<PgTypeInfo, Error> {
        Ok(PgTypeInfo::under_oid(alloc, Oid(23))?)
    }
}

impl PgHasArrayType for i32 {
    ghost array_described = { type_under 1007 };

    fn array_type_info(alloc: Global) -> Result<PgTypeInfo, Error> {
        Ok(PgTypeInfo::under_oid(alloc, Oid(1007))?)
    }
}

impl Encode for i32 {
    ghost encoding = { λ z. Image (signed32_image z) };

    fn encode(self, out: &mut PgArgumentBuffer) -> Result<IsNull, Error> {
        out.push_bytes(&self.to_be_bytes())?;
        Ok(IsNull::No)
    }
}

impl Typed for i64 {
    ghost described = { type_under 20 };

    fn type_info(alloc: Global) -> Result<PgTypeInfo, Error> {
        Ok(PgTypeInfo::under_oid(alloc, Oid(20))?)
    }
}

impl PgHasArrayType for i64 {
    ghost array_described = { type_under 1016 };

    fn array_type_info(alloc: Global) -> Result<PgTypeInfo, Error> {
        Ok(PgTypeInfo::under_oid(alloc, Oid(1016))?)
    }
}

impl Encode for i64 {
    ghost encoding = { λ z. Image (signed64_image z) };

    fn encode(self, out: &mut PgArgumentBuffer) -> Result<IsNull, Error> {
        out.push_bytes(&self.to_be_bytes())?;
        Ok(IsNull::No)
    }
}

impl Typed for Oid {
    ghost described = { type_under 26 };

    fn type_info(alloc: Global) -> Result<PgTypeInfo, Error> {
        Ok(PgTypeInfo::under_oid(alloc, Oid(26))?)
    }
}

impl PgHasArrayType for Oid {
    ghost array_described = { type_under 1028 };

    fn array_type_info(alloc: Global) -> Result<PgTypeInfo, Error> {
        Ok(PgTypeInfo::under_oid(alloc, Oid(1028))?)
    }
}

impl Encode for Oid {
    ghost encoding = { λ n. Image (oid_image n) };

    fn encode(self, out: &mut PgArgumentBuffer) -> Result<IsNull, Error> {
        out.push_bytes(&self.0.to_be_bytes())?;
        Ok(IsNull::No)
    }
}
