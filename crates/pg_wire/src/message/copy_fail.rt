ghost use Rattle.std.specs.Prelude.{◌≡◌, ◌++◌, length, OnOk, OnErr, IfErr};
ghost use Rattle.pg_wire.specs.Bytes.{HasNoNul};
ghost use Rattle.pg_wire.specs.Frame.{bytes_of, frontend_tags, IsWhole};
ghost use Rattle.pg_wire.specs.Frontend.{frontend_frame, HasFrontendFrame, CopyFail};
ghost use Rattle.pg_wire.specs.Encoding.{Allows, Refuses};

use crate::appending::{append_frame, check_body, check_text};
use crate::{Blob, Error};

/// Adds the frame that ends a copy to the server with an error, or nothing.
/// (PostgreSQL manual, "Message Formats", CopyFail.)
pub fn encode_copy_fail(out: &mut Blob, message: &str) -> Result<(), Error>
    ensures ok { OnOk result (out.new ≡ out.old ++ bytes_of (frontend_frame (CopyFail message.now))) }
    ensures whole { OnOk result (HasFrontendFrame (CopyFail message.now) × IsWhole frontend_tags (frontend_frame (CopyFail message.now))) }
    ensures err { OnErr result (out.new ≡ out.old) }
    ensures allowed { OnOk result (Allows 0 (HasNoNul message.now) (length (frontend_frame (CopyFail message.now)).body)) }
    ensures cause { IfErr result (Refuses 0 (HasNoNul message.now) (length (frontend_frame (CopyFail message.now)).body)) }
{
    check_text(message)?;
    let length = check_body(message.len() as u64 + 1)?;
    append_frame(out, b'f', length, message.as_bytes(), &[0])?;
    Ok(())
}
