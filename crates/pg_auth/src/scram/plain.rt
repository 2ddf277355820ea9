ghost use Rattle.std.specs.Prelude.{◌≡◌, ℕ, OnOk, IfErr};
ghost use Rattle.pg_wire.specs.declared.error.Error.TheVariants.{Configuration};
ghost use Rattle.pg_auth.specs.Scram.{IsPlain, first_outside, is_outside};

use pg_wire::{ConfigPart, Error};

fn is_outside(byte: u8) -> bool
    ensures { result ≡ is_outside byte }
{
    byte < b' ' || byte > b'~'
}

#[tactic(auto, unfolding(crate::specs::Scram::first_outside))]
fn first_outside(text: &str) -> Option<usize>
    ensures { result ≡ first_outside text.now }
{
    text.as_bytes().iter().position(|byte| is_outside(*byte))
}

/// Refuses a text with a byte outside printable ASCII, which SASLprep (RFC 4013) could change, with the place of the first one.
pub fn check_plain(text: &str, part: ConfigPart) -> Result<(), Error>
    ensures ok { OnOk result (IsPlain text.now) }
    ensures err { IfErr result (λ e. (place : ℕ) × (first_outside text.now ≡ Some place) × (e ≡ Configuration part place)) }
{
    match first_outside(text) {
        Some(place) => Err(Error::Configuration { part, place }),
        None => Ok(()),
    }
}
