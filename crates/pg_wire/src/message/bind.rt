ghost use Rattle.std.specs.Prelude.{◌≡◌, ◌∷◌, ◌++◌, [], List, ℕ, Option, length, flat_map, OnOk, OnErr, IfErr};
ghost use Rattle.pg_wire.specs.Bytes.{number16, number32, ended, value};
ghost use Rattle.pg_wire.specs.Encoding.{Allows, Refuses};
ghost use Rattle.pg_wire.specs.Frame.{bytes_of, frontend_tags, IsWhole};
ghost use Rattle.pg_wire.specs.Frontend.{frontend_frame, HasFrontendFrame, Bind, bind_body, name_under, statement_name};

use crate::appending::{append_header, check_body, check_count};
use crate::{Blob, Error, StatementId};
use std::alloc::AllocError;

// Adds the unnamed portal, the statement, one binary format for all values, and their count, or some of it.
fn append_head(out: &mut Blob, name: &[u8], count: u16) -> Result<(), AllocError>
    ensures ok { OnOk result (out.new ≡ out.old ++ ended [] ++ ended name.now ++ number16 1 ++ number16 1 ++ number16 count) }
    ensures part { (more : List ℕ) × (out.new ≡ out.old ++ more) }
{
    let count = count.to_be_bytes();
    out.append(&[0])?;
    out.append(name)?;
    out.append(&[0, 0, 1, 0, 1, count[0], count[1]])
}

// Adds the frame, or some of it. Its end is one binary format for all columns.
fn append_bind(
    out: &mut Blob,
    size: u32,
    name: &[u8],
    count: u16,
    params: &[u8],
) -> Result<(), AllocError>
    ensures ok { OnOk result (out.new ≡ out.old ++ (66 ∷ number32 size) ++ bind_body name.now count params.now) }
    ensures part { (more : List ℕ) × (out.new ≡ out.old ++ more) }
{
    append_header(out, b'B', size)?;
    append_head(out, name, count)?;
    out.append(params)?;
    out.append(&[0, 1, 0, 1])
}

/// Adds the frame that binds values to a statement in the unnamed portal, or nothing. `params` are `count` values as they
/// stand in the message: the length of each in four bytes, -1 for a null, and its bytes.
/// (PostgreSQL manual, "Message Formats", Bind.)
pub fn encode_bind(
    out: &mut Blob,
    statement: StatementId,
    count: u64,
    params: &[u8],
) -> Result<(), Error>
    ensures ok { OnOk result (out.new ≡ out.old ++ bytes_of (record { tag = 66; body = bind_body (name_under statement_name statement) count params.now })) }
    ensures values { OnOk result ((values : List (Option (List ℕ))) → length values ≡ count → flat_map value values ≡ params.now → out.new ≡ out.old ++ bytes_of (frontend_frame (Bind (name_under statement_name statement) values))) }
    ensures fits { OnOk result ((values : List (Option (List ℕ))) → length values ≡ count → flat_map value values ≡ params.now → HasFrontendFrame (Bind (name_under statement_name statement) values)) }
    ensures whole { OnOk result (IsWhole frontend_tags (record { tag = 66; body = bind_body (name_under statement_name statement) count params.now })) }
    ensures err { OnErr result (out.new ≡ out.old) }
    ensures allowed { OnOk result (Allows count (Unit {0}) (length (bind_body (name_under statement_name statement) count params.now))) }
    ensures cause { IfErr result (Refuses count (Unit {0}) (length (bind_body (name_under statement_name statement) count params.now))) }
{
    let count = check_count(count)?;
    let name = statement.name();
    let size = check_body(name.len() as u64 + params.len() as u64 + 12)?;
    let start = out.len();
    let done = append_bind(out, size, name.as_str().as_bytes(), count, params);
    if done.is_err() {
        out.truncate(start);
    }
    done?;
    Ok(())
}
