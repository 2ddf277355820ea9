ghost use Rattle.pg_values.specs.Values.{Answers, ReadsBy, IsBool, IsBoolText};

use crate::decode::Decode;
use crate::format::{PgValueFormat, PgValueRef};
use pg_wire::Error;
use std::alloc::Global;

fn binary(bytes: &[u8]) -> Option<bool>
    ensures { Answers (IsBool bytes.now) result }
{
    match bytes {
        [1] => Some(true),
        [0] => Some(false),
        _ => None,
    }
}

fn text(bytes: &[u8]) -> Option<bool>
    ensures { Answers (IsBoolText bytes.now) result }
{
    match bytes {
        [b't'] => Some(true),
        [b'f'] => Some(false),
        _ => None,
    }
}

impl Decode for bool {
    ghost reads = { λ _. ReadsBy IsBool IsBoolText };

    fn decode(_alloc: Global, value: PgValueRef<'_>) -> Result<Self, Error> {
        let Some(bytes) = value.value else {
            return Err(Error::Decode);
        };
        match value.format {
            PgValueFormat::Binary => binary(bytes).ok_or(Error::Decode),
            PgValueFormat::Text => text(bytes).ok_or(Error::Decode),
        }
    }
}
