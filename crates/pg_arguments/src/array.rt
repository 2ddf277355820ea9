ghost use Rattle.std.specs.Prelude.{◌≡◌, OnOk, OnErr, IfErr};
ghost use Rattle.pg_wire.specs.declared.error.Error.TheVariants as errors;
ghost use Rattle.pg_arguments.specs.Types.{oid_of};
ghost use Rattle.pg_arguments.specs.Encoded.{joined};
ghost use Rattle.pg_arguments.specs.Encoding.{Extends};
ghost use Rattle.pg_arguments.specs.Arrays.{oid_place, array_front, array_head, elements, array_encoding, AddsElements, RefusesElements};

use crate::argument_buffer::PgArgumentBuffer;
use crate::encode::{Encode, IsNull, PgHasArrayType, Typed};
use crate::type_info::PgTypeInfo;
use pg_wire::Error;
use std::alloc::Global;

// Adds the OID of a type, or the place for it.
fn push_oid(out: &mut PgArgumentBuffer, of: PgTypeInfo) -> Result<(), Error>
    ensures ok { OnOk result (out.new ≡ joined out.old (oid_place (oid_of of) of)) }
    ensures err { OnErr result (out.new ≡ out.old) }
    ensures cause { IfErr result (λ e. e ≡ errors.OutOfMemory) }
{
    match of.oid() {
        Some(oid) => out.push_bytes(&oid.0.to_be_bytes()),
        None => out.push_hole(of),
    }
}

// Adds what stands in front of the number of elements, or some of it.
pub(crate) fn push_front(out: &mut PgArgumentBuffer, of: PgTypeInfo) -> Result<(), Error>
    ensures ok { OnOk result (out.new ≡ joined out.old (array_front of)) }
    ensures kept { OnErr result (Extends out.old out.new) }
    ensures cause { IfErr result (λ e. e ≡ errors.OutOfMemory) }
{
    out.push_bytes(&[0, 0, 0, 1, 0, 0, 0, 0])?;
    push_oid(out, of)
}

// Adds what stands in front of the elements, or some of it.
fn push_head(out: &mut PgArgumentBuffer, of: PgTypeInfo, length: u32) -> Result<(), Error>
    ensures ok { OnOk result (out.new ≡ joined out.old (array_head of length)) }
    ensures kept { OnErr result (Extends out.old out.new) }
    ensures cause { IfErr result (λ e. e ≡ errors.OutOfMemory) }
{
    push_front(out, of)?;
    let length = length.to_be_bytes();
    out.push_bytes(&[length[0], length[1], length[2], length[3], 0, 0, 0, 1])
}

// Adds the elements, or some of them.
fn push_elements<T: Encode>(out: &mut PgArgumentBuffer, values: Vec<T>) -> Result<(), Error>
    ensures ok { OnOk result (AddsElements (elements T.encoding values.items) out.old out.new) }
    ensures kept { OnErr result (Extends out.old out.new) }
    ensures cause { IfErr result (RefusesElements (elements T.encoding values.items)) }
{
    for value in values {
        out.add(value)?;
    }
    Ok(())
}

impl<T: PgHasArrayType> Typed for Vec<T> {
    ghost described = { T.array_described };

    fn type_info(alloc: Global) -> Result<PgTypeInfo, Error> {
        T::array_type_info(alloc)
    }
}

impl<T: Encode + Typed> Encode for Vec<T> {
    ghost encoding = { λ v. array_encoding T.described (elements T.encoding v.items) };

    fn encode(self, out: &mut PgArgumentBuffer) -> Result<IsNull, Error> {
        let length = self.len();
        if length > 2147483647 {
            return Err(Error::Encode { index: 0 });
        }
        push_head(out, T::type_info(*self.allocator())?, length as u32)?;
        push_elements(out, self)?;
        Ok(IsNull::No)
    }
}
