ghost use Rattle.std.specs.Prelude.{◌≡◌, ◌++◌, OnOk, OnErr, IfErr};
ghost use Rattle.pg_wire.specs.Frame.{bytes_of, frontend_tags, IsWhole};
ghost use Rattle.pg_wire.specs.Frontend.{frontend_frame, Sync};
ghost use Rattle.pg_wire.specs.declared.error.Error.TheVariants.{OutOfMemory};

use crate::appending::append_frame;
use crate::{Blob, Error};

/// Adds the frame that ends a group of the extended query, or nothing.
/// (PostgreSQL manual, "Message Formats", Sync.)
pub fn encode_sync(out: &mut Blob) -> Result<(), Error>
    ensures ok { OnOk result (out.new ≡ out.old ++ bytes_of (frontend_frame Sync)) }
    ensures whole { OnOk result (IsWhole frontend_tags (frontend_frame Sync)) }
    ensures err { OnErr result (out.new ≡ out.old) }
    ensures cause { IfErr result (λ e. e ≡ OutOfMemory) }
{
    append_frame(out, b'S', 4, &[], &[])?;
    Ok(())
}
