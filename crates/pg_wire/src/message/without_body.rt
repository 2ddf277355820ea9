ghost use Rattle.std.specs.Prelude.{◌≡◌, ◌≢◌, [], length, OnOk, OnErr, IfErr, Err};
ghost use Rattle.pg_wire.specs.Backend as backend;
ghost use Rattle.pg_wire.specs.Decoding.{Decodes, malformed};
ghost use Rattle.pg_wire.specs.declared.error.Error.TheVariants as errors;
ghost use Rattle.pg_wire.specs.declared.error.ProtocolFault.TheVariants as faults;
ghost use Rattle.pg_wire.specs.declared.error.ServerFault.TheVariants as servers;

use crate::Error;
use crate::reading::malformed;

/// A statement was parsed. (PostgreSQL manual, "Message Formats", ParseComplete.)
#[derive(Clone, Copy, Debug, PartialEq, Eq)]
pub struct ParseComplete;

fn no_body(tag: u8, body: &[u8]) -> Result<(), Error>
    ensures ok { OnOk result (body.now ≡ []) }
    ensures err { OnErr result ((length body.now ≢ 0) × (result ≡ Err (errors.Protocol (faults.Server (servers.Malformed tag))))) }
{
    if !body.is_empty() {
        return Err(malformed(tag));
    }
    Ok(())
}

/// Reads the body of an `I` message, which is empty: the query had no command.
/// (PostgreSQL manual, "Message Formats", EmptyQueryResponse.)
pub fn decode_empty_query(body: &[u8]) -> Result<(), Error>
    ensures exact { Decodes (λ _. backend.EmptyQueryResponse) 73 body.now result }
    ensures err { IfErr result (λ e. e ≡ malformed 73) }
{
    no_body(b'I', body)
}

/// Reads the body of a `1` message, which is empty.
pub fn decode_parse_complete(body: &[u8]) -> Result<ParseComplete, Error>
    ensures exact { Decodes (λ _. backend.ParseComplete) 49 body.now result }
    ensures err { IfErr result (λ e. e ≡ malformed 49) }
{
    no_body(b'1', body)?;
    Ok(ParseComplete)
}

/// Reads the body of a `2` message, which is empty: values were bound to a statement.
/// (PostgreSQL manual, "Message Formats", BindComplete.)
pub fn decode_bind_complete(body: &[u8]) -> Result<(), Error>
    ensures exact { Decodes (λ _. backend.BindComplete) 50 body.now result }
    ensures err { IfErr result (λ e. e ≡ malformed 50) }
{
    no_body(b'2', body)
}

/// Reads the body of a `3` message, which is empty: a statement or a portal was closed.
/// (PostgreSQL manual, "Message Formats", CloseComplete.)
pub fn decode_close_complete(body: &[u8]) -> Result<(), Error>
    ensures exact { Decodes (λ _. backend.CloseComplete) 51 body.now result }
    ensures err { IfErr result (λ e. e ≡ malformed 51) }
{
    no_body(b'3', body)
}

/// Reads the body of an `n` message, which is empty: the statement or portal gives no rows.
/// (PostgreSQL manual, "Message Formats", NoData.)
pub fn decode_no_data(body: &[u8]) -> Result<(), Error>
    ensures exact { Decodes (λ _. backend.NoData) 110 body.now result }
    ensures err { IfErr result (λ e. e ≡ malformed 110) }
{
    no_body(b'n', body)
}

/// Reads the body of an `s` message, which is empty: an Execute reached its limit of rows.
/// (PostgreSQL manual, "Message Formats", PortalSuspended.)
pub fn decode_portal_suspended(body: &[u8]) -> Result<(), Error>
    ensures exact { Decodes (λ _. backend.PortalSuspended) 115 body.now result }
    ensures err { IfErr result (λ e. e ≡ malformed 115) }
{
    no_body(b's', body)
}

/// Reads the body of a `c` message, which is empty: the data of a copy has ended.
/// (PostgreSQL manual, "Message Formats", CopyDone.)
pub fn decode_copy_done(body: &[u8]) -> Result<(), Error>
    ensures exact { Decodes (λ _. backend.BackendCopyDone) 99 body.now result }
    ensures err { IfErr result (λ e. e ≡ malformed 99) }
{
    no_body(b'c', body)
}
