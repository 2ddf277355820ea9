ghost use Rattle.std.specs.Prelude.{◌≡◌, ◌<◌, ◌++◌, OnOk, string_bytes};
ghost use Rattle.std.specs.Char.{encode_utf8};
ghost use Rattle.pg_migrate.specs.Quoting.{doubled, quoted};

use std::alloc::AllocError;

fn put_twice(out: &mut String, ch: char) -> Result<(), AllocError>
    ensures { OnOk result (string_bytes out.new ≡ string_bytes out.old ++ (encode_utf8 ch ++ encode_utf8 ch)) }
{
    out.push(ch)?;
    out.push(ch)
}

// A character, twice where it is the mark.
#[tactic(auto, using(crate::proofs::QuoteLaws::mark_doubled, crate::proofs::QuoteLaws::char_kept))]
fn put_doubled(out: &mut String, mark: char, ch: char) -> Result<(), AllocError>
    requires { mark < 128 }
    ensures { OnOk result (string_bytes out.new ≡ string_bytes out.old ++ doubled mark (encode_utf8 ch)) }
{
    if ch == mark {
        put_twice(out, ch)
    } else {
        out.push(ch)
    }
}

fn put_all_doubled(out: &mut String, mark: char, text: &str) -> Result<(), AllocError>
    requires { mark < 128 }
    ensures { OnOk result (string_bytes out.new ≡ string_bytes out.old ++ doubled mark text.now) }
{
    for ch in text.chars() {
        put_doubled(out, mark, ch)?;
    }
    Ok(())
}

/// Adds a text between two marks, with each mark in it doubled. (PostgreSQL manual, "Identifiers and Key Words", "String Constants".)
#[tactic(auto, using(crate::proofs::QuoteLaws::quoted_put))]
pub fn put_quoted(out: &mut String, mark: char, text: &str) -> Result<(), AllocError>
    requires { mark < 128 }
    ensures { OnOk result (string_bytes out.new ≡ string_bytes out.old ++ quoted mark text.now) }
{
    out.push(mark)?;
    put_all_doubled(out, mark, text)?;
    out.push(mark)
}
