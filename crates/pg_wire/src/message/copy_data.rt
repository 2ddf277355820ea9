ghost use Rattle.std.specs.Prelude.{◌≡◌, ◌++◌, length, OnOk, OnErr, IfErr};
ghost use Rattle.pg_wire.specs.Frame.{bytes_of, frontend_tags, IsWhole};
ghost use Rattle.pg_wire.specs.Frontend.{frontend_frame, CopyData};
ghost use Rattle.pg_wire.specs.Backend as backend;
ghost use Rattle.pg_wire.specs.Decoding.{Decodes};
ghost use Rattle.pg_wire.specs.Encoding.{Allows, Refuses};

use crate::appending::{append_frame, check_body};
use crate::{Blob, Error};
use std::alloc::Global;

/// Reads the body of a `d` message, any bytes. (PostgreSQL manual, "Message Formats", CopyData.)
pub fn decode_copy_data(alloc: Global, body: &[u8]) -> Result<Blob, Error>
    ensures { Decodes backend.BackendCopyData 100 body.now result }
{
    Ok(Blob::from_slice(alloc, body)?)
}

/// Adds the frame of some data of a copy to the server, or nothing.
/// (PostgreSQL manual, "Message Formats", CopyData.)
pub fn encode_copy_bytes(out: &mut Blob, bytes: &[u8]) -> Result<(), Error>
    ensures ok { OnOk result (out.new ≡ out.old ++ bytes_of (frontend_frame (CopyData bytes.now))) }
    ensures whole { OnOk result (IsWhole frontend_tags (frontend_frame (CopyData bytes.now))) }
    ensures err { OnErr result (out.new ≡ out.old) }
    ensures allowed { OnOk result (Allows 0 (Unit {0}) (length bytes.now)) }
    ensures cause { IfErr result (Refuses 0 (Unit {0}) (length bytes.now)) }
{
    let size = check_body(bytes.len() as u64)?;
    append_frame(out, b'd', size, bytes, &[])?;
    Ok(())
}
