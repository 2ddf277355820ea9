ghost use Rattle.std.specs.Prelude.{◌≡◌, ◌++◌, length, OnOk, OnErr, IfErr};
ghost use Rattle.pg_wire.specs.Bytes.{HasNoNul};
ghost use Rattle.pg_wire.specs.Frame.{bytes_of, frontend_tags, IsWhole};
ghost use Rattle.pg_wire.specs.Frontend.{frontend_frame, HasFrontendFrame, Query};
ghost use Rattle.pg_wire.specs.Encoding.{Allows, Refuses};

use crate::appending::{append_frame, check_body, check_text};
use crate::{Blob, Error};

/// Adds the frame of a simple query, or nothing.
/// (PostgreSQL manual, "Message Formats", Query.)
pub fn encode_query(out: &mut Blob, sql: &str) -> Result<(), Error>
    ensures ok { OnOk result (out.new ≡ out.old ++ bytes_of (frontend_frame (Query sql.now))) }
    ensures whole { OnOk result (HasFrontendFrame (Query sql.now) × IsWhole frontend_tags (frontend_frame (Query sql.now))) }
    ensures err { OnErr result (out.new ≡ out.old) }
    ensures allowed { OnOk result (Allows 0 (HasNoNul sql.now) (length (frontend_frame (Query sql.now)).body)) }
    ensures cause { IfErr result (Refuses 0 (HasNoNul sql.now) (length (frontend_frame (Query sql.now)).body)) }
{
    check_text(sql)?;
    let length = check_body(sql.len() as u64 + 1)?;
    append_frame(out, b'Q', length, sql.as_bytes(), &[0])?;
    Ok(())
}
