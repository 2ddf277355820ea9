ghost use Rattle.std.specs.Prelude.{◌≡◌, ◌∷◌, ◌++◌, ◌≤◌, List, ℕ, length, flat_map, OnOk, OnErr, IfErr};
ghost use Rattle.std.specs.List.{AllByRecursion};
ghost use Rattle.pg_wire.specs.Bytes.{number16, number32, ended, HasNoNul};
ghost use Rattle.pg_wire.specs.Encoding.{Allows, Refuses};
ghost use Rattle.pg_wire.specs.Frame.{bytes_of, frontend_tags, IsWhole};
ghost use Rattle.pg_wire.specs.Frontend.{frontend_frame, HasFrontendFrame, IsNumber32, Parse, name_under, type_list, statement_name};

use crate::appending::{append_header, check_body, check_count, check_text};
use crate::{Blob, Error, Oid, StatementId};
use std::alloc::AllocError;

fn append_types(out: &mut Blob, types: &[Oid]) -> Result<(), AllocError>
    ensures ok { OnOk result (out.new ≡ out.old ++ flat_map number32 types.now) }
    ensures part { (more : List ℕ) × (out.new ≡ out.old ++ more) }
    ensures numbers { OnOk result (AllByRecursion IsNumber32 types.now) }
{
    for oid in types {
        out.append(&oid.0.to_be_bytes())?;
    }
    Ok(())
}

// Adds a name and a text, each ended by a zero byte, or some of it.
fn append_texts(out: &mut Blob, name: &[u8], text: &[u8]) -> Result<(), AllocError>
    ensures ok { OnOk result (out.new ≡ out.old ++ ended name.now ++ ended text.now) }
    ensures part { (more : List ℕ) × (out.new ≡ out.old ++ more) }
{
    out.append(name)?;
    out.append(&[0])?;
    out.append(text)?;
    out.append(&[0])
}

// Adds the frame, or some of it.
fn append_parse(
    out: &mut Blob,
    size: u32,
    name: &[u8],
    sql: &[u8],
    count: u16,
    types: &[Oid],
) -> Result<(), AllocError>
    ensures ok { OnOk result (out.new ≡ out.old ++ (80 ∷ number32 size) ++ ended name.now ++ ended sql.now ++ number16 count ++ flat_map number32 types.now) }
    ensures part { (more : List ℕ) × (out.new ≡ out.old ++ more) }
    ensures numbers { OnOk result (AllByRecursion IsNumber32 types.now) }
{
    append_header(out, b'P', size)?;
    append_texts(out, name, sql)?;
    out.append(&count.to_be_bytes())?;
    append_types(out, types)
}

// Adds the frame, or nothing.
fn append_whole(
    out: &mut Blob,
    size: u32,
    name: &[u8],
    sql: &[u8],
    count: u16,
    types: &[Oid],
) -> Result<(), AllocError>
    ensures ok { OnOk result (out.new ≡ out.old ++ (80 ∷ number32 size) ++ ended name.now ++ ended sql.now ++ number16 count ++ flat_map number32 types.now) }
    ensures err { OnErr result (out.new ≡ out.old) }
    ensures numbers { OnOk result (AllByRecursion IsNumber32 types.now) }
{
    let start = out.len();
    let done = append_parse(out, size, name, sql, count, types);
    if done.is_err() {
        out.truncate(start);
    }
    done
}

fn body_length(name: &str, sql: &str, types: &[Oid]) -> u64
    requires { (length name.now ≤ 17) × (length types.now ≤ 65535) }
    ensures { result ≡ length (ended name.now ++ ended sql.now ++ type_list types.now) }
{
    name.len() as u64 + sql.len() as u64 + 4 * types.len() as u64 + 4
}

/// Adds the frame that prepares a statement whose parameters have these types, or nothing; a type 0 is left open.
/// (PostgreSQL manual, "Message Formats", Parse.)
pub fn encode_parse(
    out: &mut Blob,
    statement: StatementId,
    sql: &str,
    types: &[Oid],
) -> Result<(), Error>
    ensures ok { OnOk result (out.new ≡ out.old ++ bytes_of (frontend_frame (Parse (name_under statement_name statement) sql.now types.now))) }
    ensures whole { OnOk result (HasFrontendFrame (Parse (name_under statement_name statement) sql.now types.now) × IsWhole frontend_tags (frontend_frame (Parse (name_under statement_name statement) sql.now types.now))) }
    ensures err { OnErr result (out.new ≡ out.old) }
    ensures allowed { OnOk result (Allows (length types.now) (HasNoNul sql.now) (length (frontend_frame (Parse (name_under statement_name statement) sql.now types.now)).body)) }
    ensures cause { IfErr result (Refuses (length types.now) (HasNoNul sql.now) (length (frontend_frame (Parse (name_under statement_name statement) sql.now types.now)).body)) }
{
    let count = check_count(types.len() as u64)?;
    check_text(sql)?;
    let name = statement.name();
    let size = check_body(body_length(name.as_str(), sql, types))?;
    let name = name.as_str().as_bytes();
    append_whole(out, size, name, sql.as_bytes(), count, types)?;
    Ok(())
}
