// A type of a user's own, as an argument and as a value.

ghost use Rattle.std.specs.Prelude.{if◌then◌else◌, ◌==◌, [], ◌∷◌, ◌≡◌, codes};
ghost use Rattle.pg_arguments.specs.Types.{named_type, array_of_named};
ghost use Rattle.pg_arguments.specs.Encoded.{plain};
ghost use Rattle.pg_arguments.specs.Encoding.{Image, Refused};
ghost use Rattle.pg_values.specs.Values.{ReadsBy};

use pg_values::{
    Decode, Encode, IsNull, PgArgumentBuffer, PgHasArrayType, PgTypeInfo, PgValueRef, Typed,
};
use pg_wire::Error;
use std::alloc::Global;

/// A type that the database of a user has: one letter, of which `z` is refused as an argument.
#[derive(Clone, Copy, Debug)]
pub struct Mood(u8);

impl Typed for Mood {
    ghost described = { named_type (codes "mood") };

    fn type_info(alloc: Global) -> Result<PgTypeInfo, Error> {
        Ok(PgTypeInfo::with_name(alloc, "mood")?)
    }
}

impl PgHasArrayType for Mood {
    ghost array_described = { array_of_named (codes "mood") };

    fn array_type_info(alloc: Global) -> Result<PgTypeInfo, Error> {
        Ok(PgTypeInfo::array_of(alloc, "mood")?)
    }
}

impl Encode for Mood {
    ghost encoding = { λ m. (if m.0 == 122 then Refused else Image (plain (m.0 ∷ []))) };

    fn encode(self, out: &mut PgArgumentBuffer) -> Result<IsNull, Error> {
        out.push_bytes(&[self.0])?;
        if self.0 == b'z' {
            return Err(Error::Encode { index: 7 });
        }
        Ok(IsNull::No)
    }
}

impl Decode for Mood {
    ghost reads = { λ _. ReadsBy (λ bytes m. bytes ≡ m.0 ∷ []) (λ bytes m. bytes ≡ m.0 ∷ []) };

    fn decode(_alloc: Global, value: PgValueRef<'_>) -> Result<Self, Error> {
        match value.value {
            Some([letter]) => Ok(Mood(*letter)),
            _ => Err(Error::Decode),
        }
    }
}
