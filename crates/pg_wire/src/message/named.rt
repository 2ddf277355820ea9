ghost use Rattle.std.specs.Prelude.{◌≡◌, ◌∷◌, ◌++◌, ◌≤◌, List, ℕ, length, OnOk, OnErr};
ghost use Rattle.pg_wire.specs.Bytes.{ended};
ghost use Rattle.pg_wire.specs.Frame.{bytes_of};

use crate::Blob;
use crate::appending::append_header;
use std::alloc::AllocError;

// Adds a frame whose body is a letter for the kind, and a name, or some of it.
fn append_pieces(out: &mut Blob, tag: u8, kind: u8, name: &[u8]) -> Result<(), AllocError>
    requires { length name.now ≤ 17 }
    ensures ok { OnOk result (out.new ≡ out.old ++ bytes_of (record { tag = tag; body = kind ∷ ended name.now })) }
    ensures part { (more : List ℕ) × (out.new ≡ out.old ++ more) }
{
    append_header(out, tag, name.len() as u32 + 6)?;
    out.append(&[kind])?;
    out.append(name)?;
    out.append(&[0])
}

// The same, or nothing.
pub(super) fn append_named(out: &mut Blob, tag: u8, kind: u8, name: &[u8]) -> Result<(), AllocError>
    requires { length name.now ≤ 17 }
    ensures ok { OnOk result (out.new ≡ out.old ++ bytes_of (record { tag = tag; body = kind ∷ ended name.now })) }
    ensures err { OnErr result (out.new ≡ out.old) }
{
    let start = out.len();
    let done = append_pieces(out, tag, kind, name);
    if done.is_err() {
        out.truncate(start);
    }
    done
}
