ghost use Rattle.std.specs.Prelude.{◌≡◌, option_map, IfOk};
ghost use Rattle.pg_wire.specs.Reading.{whole, listed_at, entry_at, detail_at};

use crate::Blob;
use crate::fields::{ErrorField, ErrorFields};
use crate::reading::{byte, ended};
use std::alloc::{AllocError, Global};

#[tactic(auto, unfolding(crate::specs::Reading::detail_at))]
fn detail(alloc: Global, bytes: &[u8]) -> Result<Option<(ErrorField, &[u8])>, AllocError>
    ensures { IfOk result (λ r. option_map (λ x. (x.0, x.1.now)) r ≡ detail_at bytes.now) }
{
    let Some((code, rest)) = byte(bytes) else {
        return Ok(None);
    };
    let Some((text, rest)) = ended(rest) else {
        return Ok(None);
    };
    let text = Blob::from_slice(alloc, text)?;
    Ok(Some((ErrorField { code, text }, rest)))
}

// A field, or the zero byte that ends them.
#[tactic(auto, unfolding(crate::specs::Reading::entry_at))]
fn entry(alloc: Global, bytes: &[u8]) -> Result<Option<(Option<ErrorField>, &[u8])>, AllocError>
    ensures { IfOk result (λ r. option_map (λ x. (x.0, x.1.now)) r ≡ entry_at detail_at bytes.now) }
{
    match bytes {
        [] => Ok(None),
        [0, rest @ ..] => Ok(Some((None, rest))),
        [_, ..] => match detail(alloc, bytes)? {
            Some((detail, rest)) => Ok(Some((Some(detail), rest))),
            None => Ok(None),
        },
    }
}

// The fields up to a zero byte, and the bytes behind it.
fn details(alloc: Global, bytes: &[u8]) -> Result<Option<(Vec<ErrorField>, &[u8])>, AllocError>
    ensures { IfOk result (λ r. option_map (λ x. (x.0.items, x.1.now)) r ≡ listed_at detail_at bytes.now) }
{
    let mut details = Vec::new(alloc);
    let mut rest = bytes;
    for _ in 0..bytes.len() {
        let Some((next, after)) = entry(alloc, rest)? else {
            return Ok(None);
        };
        match next {
            None => return Ok(Some((details, after))),
            Some(detail) => details.push(detail)?,
        }
        rest = after;
    }
    Ok(None)
}

// The fields of an error or a notice, which are the whole body.
#[tactic(auto, unfolding(crate::specs::Reading::whole))]
pub(super) fn error_fields(alloc: Global, body: &[u8]) -> Result<Option<ErrorFields>, AllocError>
    ensures { IfOk result (λ r. r ≡ whole (listed_at detail_at) body.now) }
{
    match details(alloc, body)? {
        Some((details, [])) => Ok(Some(ErrorFields::new(alloc, details)?)),
        _ => Ok(None),
    }
}
