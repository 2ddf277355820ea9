ghost use Rattle.std.specs.Prelude.{◌≡◌, ◌∷◌, ◌++◌, ◌<◌, ◌≤◌, ◌^◌, List, ℕ, length, OnOk, OnErr, IfErr};
ghost use Rattle.pg_wire.specs.Bytes.{number32, HasNoNul};
ghost use Rattle.pg_wire.specs.Encoding.{Allows, Refuses};
ghost use Rattle.pg_wire.specs.Frame.{bytes_of, frontend_tags, IsWhole};
ghost use Rattle.pg_wire.specs.Frontend.{sasl_first, sasl_next};

use crate::appending::{append_frame, append_header, check_body, check_text};
use crate::{Blob, Error};
use std::alloc::AllocError;

// Adds the frame of a mechanism and the first response, or some of it.
fn append_pieces(
    out: &mut Blob,
    size: u32,
    mechanism: &[u8],
    response: &[u8],
) -> Result<(), AllocError>
    requires { length response.now < 2 ^ 32 }
    ensures ok { OnOk result (out.new ≡ out.old ++ (112 ∷ number32 size) ++ mechanism.now ++ number32 (length response.now) ++ response.now) }
    ensures part { (more : List ℕ) × (out.new ≡ out.old ++ more) }
{
    append_header(out, b'p', size)?;
    out.append(mechanism)?;
    out.append(&(response.len() as u32).to_be_bytes())?;
    out.append(response)
}

// The same, or nothing.
fn append_initial(
    out: &mut Blob,
    size: u32,
    mechanism: &[u8],
    response: &[u8],
) -> Result<(), AllocError>
    requires { length response.now < 2 ^ 32 }
    ensures ok { OnOk result (out.new ≡ out.old ++ (112 ∷ number32 size) ++ mechanism.now ++ number32 (length response.now) ++ response.now) }
    ensures err { OnErr result (out.new ≡ out.old) }
{
    let start = out.len();
    let done = append_pieces(out, size, mechanism, response);
    if done.is_err() {
        out.truncate(start);
    }
    done
}

/// Adds the frame that chooses the mechanism SCRAM-SHA-256 and begins it, or nothing.
/// (PostgreSQL manual, "Message Formats", SASLInitialResponse.)
pub fn encode_sasl_initial(out: &mut Blob, response: &str) -> Result<(), Error>
    ensures ok { OnOk result (out.new ≡ out.old ++ bytes_of (sasl_first response.now)) }
    ensures whole { OnOk result (HasNoNul response.now × IsWhole frontend_tags (sasl_first response.now)) }
    ensures err { OnErr result (out.new ≡ out.old) }
    ensures allowed { OnOk result (Allows 0 (HasNoNul response.now) (length (sasl_first response.now).body)) }
    ensures cause { IfErr result (Refuses 0 (HasNoNul response.now) (length (sasl_first response.now).body)) }
{
    check_text(response)?;
    let size = check_body(response.len() as u64 + 18)?;
    append_initial(out, size, b"SCRAM-SHA-256\0", response.as_bytes())?;
    Ok(())
}

/// Adds the frame of a further SASL message, or nothing.
/// (PostgreSQL manual, "Message Formats", SASLResponse.)
pub fn encode_sasl_response(out: &mut Blob, response: &str) -> Result<(), Error>
    ensures ok { OnOk result (out.new ≡ out.old ++ bytes_of (sasl_next response.now)) }
    ensures whole { OnOk result (HasNoNul response.now × IsWhole frontend_tags (sasl_next response.now)) }
    ensures err { OnErr result (out.new ≡ out.old) }
    ensures allowed { OnOk result (Allows 0 (HasNoNul response.now) (length (sasl_next response.now).body)) }
    ensures cause { IfErr result (Refuses 0 (HasNoNul response.now) (length (sasl_next response.now).body)) }
{
    check_text(response)?;
    let size = check_body(response.len() as u64)?;
    append_frame(out, b'p', size, response.as_bytes(), &[])?;
    Ok(())
}
