ghost use Rattle.std.specs.Prelude.{◌≡◌, ◌++◌, OnOk, OnErr, IfErr};
ghost use Rattle.pg_wire.specs.Frame.{bytes_of, frontend_tags, IsWhole};
ghost use Rattle.pg_wire.specs.Frontend.{frontend_frame, HasFrontendFrame, CloseStatement, ClosePortal, name_under, statement_name, portal_name};
ghost use Rattle.pg_wire.specs.declared.error.Error.TheVariants.{OutOfMemory};

use super::named::append_named;
use crate::{Blob, Error, PortalId, StatementId};

/// Adds the frame that closes a statement, or nothing.
/// (PostgreSQL manual, "Message Formats", Close.)
pub fn encode_close_statement(out: &mut Blob, statement: StatementId) -> Result<(), Error>
    ensures ok { OnOk result (out.new ≡ out.old ++ bytes_of (frontend_frame (CloseStatement (name_under statement_name statement)))) }
    ensures whole { OnOk result (HasFrontendFrame (CloseStatement (name_under statement_name statement)) × IsWhole frontend_tags (frontend_frame (CloseStatement (name_under statement_name statement)))) }
    ensures err { OnErr result (out.new ≡ out.old) }
    ensures cause { IfErr result (λ e. e ≡ OutOfMemory) }
{
    let name = statement.name();
    append_named(out, b'C', b'S', name.as_str().as_bytes())?;
    Ok(())
}

/// Adds the frame that closes a portal, or nothing.
/// (PostgreSQL manual, "Message Formats", Close.)
pub fn encode_close_portal(out: &mut Blob, portal: PortalId) -> Result<(), Error>
    ensures ok { OnOk result (out.new ≡ out.old ++ bytes_of (frontend_frame (ClosePortal (name_under portal_name portal)))) }
    ensures whole { OnOk result (HasFrontendFrame (ClosePortal (name_under portal_name portal)) × IsWhole frontend_tags (frontend_frame (ClosePortal (name_under portal_name portal)))) }
    ensures err { OnErr result (out.new ≡ out.old) }
    ensures cause { IfErr result (λ e. e ≡ OutOfMemory) }
{
    let name = portal.name();
    append_named(out, b'C', b'P', name.as_str().as_bytes())?;
    Ok(())
}
