ghost use Rattle.std.specs.Prelude.{◌≡◌, ◌<◌, ◌++◌, OnOk, IfOk, IfErr, string_bytes};
ghost use Rattle.pg_auth.specs.Nonce.{IsNonce};
ghost use Rattle.pg_auth.specs.Scram.{IsPlain, client_first, client_first_bare, saslname, saslname_character};
ghost use Rattle.pg_auth.specs.ScramAnswers.{RefusesUser};

use super::ascii::push_ascii;
use super::plain::check_plain;
use pg_wire::{ConfigPart, Error, Text};
use std::alloc::{AllocError, Global};

// A comma and an equals sign mean something in a message, so a name has them as `=2C` and `=3D`.
#[tactic(auto, unfolding(crate::specs::Scram::saslname_character))]
fn push_character(text: &mut String, byte: u8) -> Result<(), AllocError>
    requires { byte < 128 }
    ensures { OnOk result (string_bytes text.new ≡ string_bytes text.old ++ saslname_character byte) }
{
    match byte {
        b',' => text.push_str("=2C"),
        b'=' => text.push_str("=3D"),
        _ => text.push(char::from(byte)),
    }
}

#[tactic(auto, using(crate::proofs::PlainLemmas::plain_at))]
fn push_saslname(text: &mut String, user: &str) -> Result<(), AllocError>
    requires { IsPlain user.now }
    ensures { OnOk result (string_bytes text.new ≡ string_bytes text.old ++ saslname user.now) }
{
    for byte in user.as_bytes() {
        push_character(text, *byte)?;
    }
    Ok(())
}

#[tactic(auto, using(crate::proofs::PlainLemmas::printable_ascii), unfolding(crate::specs::Scram::client_first_bare))]
pub(super) fn push_client_first_bare(
    text: &mut String,
    user: &str,
    nonce: &[u8],
) -> Result<(), AllocError>
    requires user { IsPlain user.now }
    requires nonce { IsNonce nonce.now }
    ensures { OnOk result (string_bytes text.new ≡ string_bytes text.old ++ client_first_bare user.now nonce.now) }
{
    text.push_str("n=")?;
    push_saslname(text, user)?;
    text.push_str(",r=")?;
    push_ascii(text, nonce)
}

/// The message that begins a SCRAM exchange, without channel binding. (RFC 5802, section 7, `client-first-message`.)
///
/// Besides want of memory it is refused with `SaslUser` at the user's first byte outside printable ASCII.
#[tactic(auto, unfolding(crate::specs::Scram::client_first))]
pub fn scram_client_first(alloc: Global, user: &str, nonce: &[u8]) -> Result<Text, Error>
    requires { IsNonce nonce.now }
    ensures text { IfOk result (λ text. text ≡ client_first user.now nonce.now) }
    ensures plain { OnOk result (IsPlain user.now) }
    ensures refused { IfErr result (λ e. RefusesUser user.now e) }
{
    check_plain(user, ConfigPart::SaslUser)?;
    let mut text = String::from_str(alloc, "n,,")?;
    push_client_first_bare(&mut text, user, nonce)?;
    Ok(Text::from_string(text))
}
