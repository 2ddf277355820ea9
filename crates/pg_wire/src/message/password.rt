ghost use Rattle.std.specs.Prelude.{◌≡◌, ◌++◌, length, OnOk, OnErr, IfErr};
ghost use Rattle.pg_wire.specs.Bytes.{HasNoNul};
ghost use Rattle.pg_wire.specs.Encoding.{Allows, Refuses};
ghost use Rattle.pg_wire.specs.Frame.{bytes_of, frontend_tags, IsWhole};
ghost use Rattle.pg_wire.specs.Frontend.{password};

use crate::appending::{append_frame, check_body, check_text};
use crate::{Blob, Error};

/// Adds the frame of a password, in clear or hashed, or nothing.
/// (PostgreSQL manual, "Message Formats", PasswordMessage.)
pub fn encode_password(out: &mut Blob, text: &str) -> Result<(), Error>
    ensures ok { OnOk result (out.new ≡ out.old ++ bytes_of (password text.now)) }
    ensures whole { OnOk result (HasNoNul text.now × IsWhole frontend_tags (password text.now)) }
    ensures err { OnErr result (out.new ≡ out.old) }
    ensures allowed { OnOk result (Allows 0 (HasNoNul text.now) (length (password text.now).body)) }
    ensures cause { IfErr result (Refuses 0 (HasNoNul text.now) (length (password text.now).body)) }
{
    check_text(text)?;
    let size = check_body(text.len() as u64 + 1)?;
    append_frame(out, b'p', size, text.as_bytes(), &[0])?;
    Ok(())
}
