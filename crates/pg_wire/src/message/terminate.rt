ghost use Rattle.std.specs.Prelude.{◌≡◌, ◌++◌, OnOk, OnErr, IfErr};
ghost use Rattle.pg_wire.specs.Frame.{bytes_of, frontend_tags, IsWhole};
ghost use Rattle.pg_wire.specs.Frontend.{frontend_frame, Terminate};
ghost use Rattle.pg_wire.specs.declared.error.Error.TheVariants.{OutOfMemory};

use crate::appending::append_frame;
use crate::{Blob, Error};

/// Adds the frame that ends the session, or nothing.
/// (PostgreSQL manual, "Message Formats", Terminate.)
pub fn encode_terminate(out: &mut Blob) -> Result<(), Error>
    ensures ok { OnOk result (out.new ≡ out.old ++ bytes_of (frontend_frame Terminate)) }
    ensures whole { OnOk result (IsWhole frontend_tags (frontend_frame Terminate)) }
    ensures err { OnErr result (out.new ≡ out.old) }
    ensures cause { IfErr result (λ e. e ≡ OutOfMemory) }
{
    append_frame(out, b'X', 4, &[], &[])?;
    Ok(())
}
