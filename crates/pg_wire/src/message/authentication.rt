ghost use Rattle.std.specs.Prelude.{◌≡◌, IfOk};
ghost use Rattle.pg_wire.specs.Decoding.{DecodesAs};
ghost use Rattle.pg_wire.specs.Requests.{IsAsked, IsRequest};

use super::mechanisms::mechanism_names;
use crate::reading::{malformed, number32};
use crate::{Error, Mechanisms, Text};
use std::alloc::{AllocError, Global};

/// What the server asks for at the start of a session, or that it asks for nothing more.
/// (PostgreSQL manual, "Message Formats", AuthenticationOk and those after it.)
#[derive(Debug, Drop)]
pub enum Authentication {
    /// The client is who it says.
    Ok,
    CleartextPassword,
    Md5Password { salt: [u8; 4] },
    /// One of these mechanisms is to be begun.
    Sasl { mechanisms: Mechanisms },
    SaslContinue { data: Text },
    SaslFinal { data: Text },
    /// A method that this library does not know.
    Other { code: u32 },
}

fn accepted(rest: &[u8]) -> Option<Authentication>
    ensures { IsRequest 0 rest.now result }
{
    match rest {
        [] => Some(Authentication::Ok),
        [_, ..] => None,
    }
}

fn cleartext(rest: &[u8]) -> Option<Authentication>
    ensures { IsRequest 3 rest.now result }
{
    match rest {
        [] => Some(Authentication::CleartextPassword),
        [_, ..] => None,
    }
}

fn hashed(rest: &[u8]) -> Option<Authentication>
    ensures { IsRequest 5 rest.now result }
{
    match rest {
        [a, b, c, d] => Some(Authentication::Md5Password {
            salt: [*a, *b, *c, *d],
        }),
        _ => None,
    }
}

fn sasl(alloc: Global, rest: &[u8]) -> Result<Option<Authentication>, AllocError>
    ensures { IfOk result (IsRequest 10 rest.now) }
{
    match mechanism_names(alloc, rest)? {
        Some(mechanisms) => Ok(Some(Authentication::Sasl { mechanisms })),
        None => Ok(None),
    }
}

fn sasl_continue(alloc: Global, rest: &[u8]) -> Result<Option<Authentication>, AllocError>
    ensures { IfOk result (IsRequest 11 rest.now) }
{
    match str::from_utf8(rest) {
        Ok(text) => Ok(Some(Authentication::SaslContinue {
            data: Text::from_str(alloc, text)?,
        })),
        Err(_) => Ok(None),
    }
}

fn sasl_final(alloc: Global, rest: &[u8]) -> Result<Option<Authentication>, AllocError>
    ensures { IfOk result (IsRequest 12 rest.now) }
{
    match str::from_utf8(rest) {
        Ok(text) => Ok(Some(Authentication::SaslFinal {
            data: Text::from_str(alloc, text)?,
        })),
        Err(_) => Ok(None),
    }
}

fn request(alloc: Global, code: u32, rest: &[u8]) -> Result<Option<Authentication>, AllocError>
    ensures { IfOk result (IsRequest code rest.now) }
{
    match code {
        0 => Ok(accepted(rest)),
        3 => Ok(cleartext(rest)),
        5 => Ok(hashed(rest)),
        10 => sasl(alloc, rest),
        11 => sasl_continue(alloc, rest),
        12 => sasl_final(alloc, rest),
        _ => Ok(Some(Authentication::Other { code })),
    }
}

/// Reads the body of an `R` message.
pub fn decode_authentication(alloc: Global, body: &[u8]) -> Result<Authentication, Error>
    ensures { DecodesAs IsAsked 82 body.now result }
{
    match number32(body) {
        Some((code, rest)) => match request(alloc, code, rest)? {
            Some(request) => Ok(request),
            None => Err(malformed(b'R')),
        },
        None => Err(malformed(b'R')),
    }
}
