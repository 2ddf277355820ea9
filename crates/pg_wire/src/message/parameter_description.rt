ghost use Rattle.std.specs.Prelude.{◌≡◌, option_map, IfOk};
ghost use Rattle.pg_wire.specs.Backend as backend;
ghost use Rattle.pg_wire.specs.Decoding.{Decodes};
ghost use Rattle.pg_wire.specs.Reading.{whole, counted_at, many_at, number32_at};

use crate::reading::{malformed, number16, number32};
use crate::{Error, Oid, Oids};
use std::alloc::{AllocError, Global};

fn types(alloc: Global, count: u16, bytes: &[u8]) -> Result<Option<(Vec<Oid>, &[u8])>, AllocError>
    ensures { IfOk result (λ r. option_map (λ x. (x.0.items, x.1.now)) r ≡ many_at number32_at count bytes.now) }
{
    let mut types = Vec::new(alloc);
    let mut rest = bytes;
    for _ in 0..count {
        let Some((number, after)) = number32(rest) else {
            return Ok(None);
        };
        types.push(Oid(number))?;
        rest = after;
    }
    Ok(Some((types, rest)))
}

#[tactic(auto, unfolding(crate::specs::Reading::whole, crate::specs::Reading::counted_at))]
fn all_types(alloc: Global, body: &[u8]) -> Result<Option<Vec<Oid>>, AllocError>
    ensures { IfOk result (λ r. option_map (λ v. v.items) r ≡ whole (counted_at number32_at) body.now) }
{
    let Some((count, rest)) = number16(body) else {
        return Ok(None);
    };
    match types(alloc, count, rest)? {
        Some((types, [])) => Ok(Some(types)),
        _ => Ok(None),
    }
}

/// Reads the body of a `t` message: the types of a statement's parameters, in order.
/// (PostgreSQL manual, "Message Formats", ParameterDescription.)
pub fn decode_parameter_description(alloc: Global, body: &[u8]) -> Result<Oids, Error>
    ensures { Decodes backend.ParameterDescription 116 body.now result }
{
    match all_types(alloc, body)? {
        Some(types) => Ok(Oids::from_vec(types)),
        None => Err(malformed(b't')),
    }
}
