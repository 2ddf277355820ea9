ghost use Rattle.std.specs.Prelude.{◌≡◌, ◌++◌, ◌<◌, OnOk, flat_map, string_bytes};
ghost use Rattle.std.specs.Char.{digit_char};
ghost use Rattle.std.specs.Fmt.{decimal};
ghost use Rattle.pg_report.specs.Bytes.{hex, hex_byte, hex_or_dash, quoted_text, quoted_byte, named_number, behind_comma, numbers_or_dash};

use itoa::Buffer;
use pg_wire::Oid;
use std::alloc::AllocError;

// A lower-case hexadecimal digit.
fn digit(n: u8) -> char
    requires { n < 16 }
    ensures value { result ≡ digit_char n }
    ensures ascii { result < 128 }
{
    if n < 10 {
        char::from(b'0' + n)
    } else {
        char::from(b'a' + (n - 10))
    }
}

pub(crate) fn put_byte(out: &mut String, byte: u8) -> Result<(), AllocError>
    ensures { OnOk result (string_bytes out.new ≡ string_bytes out.old ++ hex_byte byte) }
{
    out.push(digit(byte / 16))?;
    out.push(digit(byte % 16))
}

// Most numbers of a report have one digit.
#[tactic(auto, using(std::proofs::lemmas::Fmt::decimal_digit))]
fn put_small(out: &mut String, n: u8) -> Result<(), AllocError>
    requires { n < 10 }
    ensures { OnOk result (string_bytes out.new ≡ string_bytes out.old ++ decimal n) }
{
    out.push(char::from(b'0' + n))
}

pub(crate) fn put_number(out: &mut String, n: u64) -> Result<(), AllocError>
    ensures { OnOk result (string_bytes out.new ≡ string_bytes out.old ++ decimal n) }
{
    if n < 10 {
        return put_small(out, n as u8);
    }
    let mut digits = Buffer::new();
    out.push_str(digits.format(n))
}

fn put_hex(out: &mut String, bytes: &[u8]) -> Result<(), AllocError>
    ensures { OnOk result (string_bytes out.new ≡ string_bytes out.old ++ hex bytes.now) }
{
    for byte in bytes {
        put_byte(out, *byte)?;
    }
    Ok(())
}

#[tactic(auto, unfolding(crate::specs::Bytes::hex_or_dash))]
pub(crate) fn put_hex_or_dash(out: &mut String, bytes: &[u8]) -> Result<(), AllocError>
    ensures { OnOk result (string_bytes out.new ≡ string_bytes out.old ++ hex_or_dash bytes.now) }
{
    if bytes.is_empty() {
        out.push_str("-")
    } else {
        put_hex(out, bytes)
    }
}

fn put_quoted_byte(out: &mut String, byte: u8) -> Result<(), AllocError>
    ensures { OnOk result (string_bytes out.new ≡ string_bytes out.old ++ quoted_byte byte) }
{
    match byte {
        b'"' => out.push_str("\\\""),
        b'\\' => out.push_str("\\\\"),
        b' '..=b'~' => out.push(char::from(byte)),
        _ => {
            out.push_str("\\x")?;
            put_byte(out, byte)
        }
    }
}

fn put_quoted_bytes(out: &mut String, bytes: &[u8]) -> Result<(), AllocError>
    ensures { OnOk result (string_bytes out.new ≡ string_bytes out.old ++ flat_map quoted_byte bytes.now) }
{
    for byte in bytes {
        put_quoted_byte(out, *byte)?;
    }
    Ok(())
}

#[tactic(auto, unfolding(crate::specs::Bytes::quoted_text))]
pub(crate) fn put_quoted_text(out: &mut String, bytes: &[u8]) -> Result<(), AllocError>
    ensures { OnOk result (string_bytes out.new ≡ string_bytes out.old ++ quoted_text bytes.now) }
{
    out.push_str("\"")?;
    put_quoted_bytes(out, bytes)?;
    out.push_str("\"")
}

#[tactic(auto, unfolding(crate::specs::Bytes::named_number))]
pub(crate) fn put_named_number(out: &mut String, word: &str, n: u64) -> Result<(), AllocError>
    ensures { OnOk result (string_bytes out.new ≡ string_bytes out.old ++ named_number word.now n) }
{
    out.push_str(word)?;
    out.push(' ')?;
    put_number(out, n)
}

fn put_behind_commas(out: &mut String, oids: &[Oid]) -> Result<(), AllocError>
    ensures { OnOk result (string_bytes out.new ≡ string_bytes out.old ++ flat_map behind_comma oids.now) }
{
    for oid in oids {
        out.push_str(",")?;
        put_number(out, u64::from(oid.0))?;
    }
    Ok(())
}

#[tactic(auto, unfolding(crate::specs::Bytes::numbers_or_dash))]
pub(crate) fn put_oids(out: &mut String, oids: &[Oid]) -> Result<(), AllocError>
    ensures { OnOk result (string_bytes out.new ≡ string_bytes out.old ++ numbers_or_dash oids.now) }
{
    match oids {
        [] => out.push_str("-"),
        [first, rest @ ..] => {
            put_number(out, u64::from(first.0))?;
            put_behind_commas(out, rest)
        }
    }
}
