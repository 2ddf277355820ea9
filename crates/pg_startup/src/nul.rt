ghost use Rattle.std.specs.Prelude.{◌≡◌, ℕ, None, Some, OnOk, IfErr};
ghost use Rattle.pg_wire.specs.Bytes.{HasNoNul};
ghost use Rattle.pg_wire.specs.declared.error.Error.TheVariants.{Configuration};
ghost use Rattle.pg_wire.specs.declared.error.ConfigPart.TheVariants.{Nul};
ghost use Rattle.pg_startup.specs.Nuls.{first_nul};

use pg_wire::{ConfigPart, Error};

#[tactic(auto, unfolding(crate::specs::Nuls::first_nul))]
fn first_nul(text: &str) -> Option<usize>
    ensures { result ≡ first_nul text.now }
{
    text.as_bytes().iter().position(|byte| *byte == 0)
}

/// Refuses a text that a zero byte would cut off, with the place of the first one.
#[tactic(auto, using(crate::proofs::NulLaws::no_nul))]
pub(crate) fn check_nul(text: &str) -> Result<(), Error>
    ensures ok { OnOk result (HasNoNul text.now) }
    ensures none { OnOk result (first_nul text.now ≡ None) }
    ensures err { IfErr result (λ e. (place : ℕ) × (first_nul text.now ≡ Some place) × (e ≡ Configuration Nul place)) }
{
    match first_nul(text) {
        Some(place) => Err(Error::Configuration {
            part: ConfigPart::Nul,
            place,
        }),
        None => Ok(()),
    }
}
