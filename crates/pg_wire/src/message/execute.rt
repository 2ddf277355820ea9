ghost use Rattle.std.specs.Prelude.{◌≡◌, ◌++◌, OnOk, OnErr, IfErr};
ghost use Rattle.pg_wire.specs.Frame.{bytes_of, frontend_tags, IsWhole};
ghost use Rattle.pg_wire.specs.Frontend.{frontend_frame, HasFrontendFrame, Execute, name_under, portal_name};
ghost use Rattle.pg_wire.specs.declared.error.Error.TheVariants.{OutOfMemory};

use crate::appending::append_frame;
use crate::{Blob, Error, PortalId};

/// Adds the frame that runs a portal, or nothing. The limit is the greatest number of rows, and 0 is none.
/// (PostgreSQL manual, "Message Formats", Execute.)
pub fn encode_execute(out: &mut Blob, portal: PortalId, limit: u32) -> Result<(), Error>
    ensures ok { OnOk result (out.new ≡ out.old ++ bytes_of (frontend_frame (Execute (name_under portal_name portal) limit))) }
    ensures whole { OnOk result (HasFrontendFrame (Execute (name_under portal_name portal) limit) × IsWhole frontend_tags (frontend_frame (Execute (name_under portal_name portal) limit))) }
    ensures err { OnErr result (out.new ≡ out.old) }
    ensures cause { IfErr result (λ e. e ≡ OutOfMemory) }
{
    let name = portal.name();
    let size = name.len() as u32 + 9;
    let limit = limit.to_be_bytes();
    let tail = [0, limit[0], limit[1], limit[2], limit[3]];
    append_frame(out, b'E', size, name.as_str().as_bytes(), &tail)?;
    Ok(())
}
