ghost use Rattle.pg_arguments.specs.Encoded.{plain, open_oid};
ghost use Rattle.pg_arguments.specs.Encoding.{Image, Null};

use crate::argument_buffer::PgArgumentBuffer;
use crate::encode::{Encode, IsNull};
use crate::type_info::PgTypeInfo;
use pg_wire::Error;

// Bytes that are an encoding already.
#[derive(Clone, Copy)]
pub(crate) struct Bytes<'a>(pub(crate) &'a [u8]);

impl Encode for Bytes<'_> {
    ghost encoding = { λ b. Image (plain b.0.now) };

    fn encode(self, out: &mut PgArgumentBuffer) -> Result<IsNull, Error> {
        out.push_bytes(self.0)?;
        Ok(IsNull::No)
    }
}

// A null of any type.
#[derive(Clone, Copy)]
pub(crate) struct NoValue;

impl Encode for NoValue {
    ghost encoding = { λ _. Null };

    fn encode(self, _out: &mut PgArgumentBuffer) -> Result<IsNull, Error> {
        Ok(IsNull::Yes)
    }
}

// The OID of a type.
#[derive(Drop)]
pub(crate) struct OidOf(pub(crate) PgTypeInfo);

impl Encode for OidOf {
    ghost encoding = { λ t. Image (open_oid t.0) };

    fn encode(self, out: &mut PgArgumentBuffer) -> Result<IsNull, Error> {
        let OidOf(of) = self;
        out.push_hole(of)?;
        Ok(IsNull::No)
    }
}
