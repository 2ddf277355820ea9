ghost use Rattle.std.specs.Prelude.{◌≡◌, MatchOption};
ghost use Rattle.std.specs.Int.{w16};
ghost use Rattle.std.specs.Str.Parse.{IsNumeral, without_leading_sign, without_leading_plus};
ghost use Rattle.pg_values.specs.Values.{IsDecimal, IsOidText};

use crate::from_text::FromText;
use pg_wire::{Error, Oid};
use std::alloc::Global;

// The text of bytes, which numerals have.
#[tactic(auto, using(pg_values::proofs::NumeralLaws::signed_numeral, pg_values::proofs::NumeralLaws::plus_numeral))]
fn digits(bytes: &[u8]) -> Option<&str>
    ensures { MatchOption result ((IsNumeral 10 (without_leading_sign bytes.now) → ⊥) × (IsNumeral 10 (without_leading_plus bytes.now) → ⊥)) (λ t. t.now ≡ bytes.now) }
{
    str::from_utf8(bytes).ok()
}

impl FromText for i16 {
    ghost means = { IsDecimal w16 };

    fn from_text(_alloc: Global, bytes: &[u8]) -> Result<Self, Error> {
        let Some(text) = digits(bytes) else {
            return Err(Error::Decode);
        };
        match text.parse::<i16>() {
            Ok(number) => Ok(number),
            Err(_) => Err(Error::Decode),
        }
    }
}

impl FromText for Oid {
    ghost means = { IsOidText };

    fn from_text(_alloc: Global, bytes: &[u8]) -> Result<Self, Error> {
        let Some(text) = digits(bytes) else {
            return Err(Error::Decode);
        };
        match text.parse::<u32>() {
            Ok(number) => Ok(Oid(number)),
            Err(_) => Err(Error::Decode),
        }
    }
}
