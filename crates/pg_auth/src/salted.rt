ghost use Rattle.std.specs.Prelude.{◌≡◌, IfOk, IfErr};
ghost use Rattle.pg_wire.specs.declared.error.Error.TheVariants.{OutOfMemory};
ghost use Rattle.pg_auth.specs.Hi.{hi};

use crate::keyed_hash::HmacKey;
use crate::xor::xored;
use pg_wire::{Blob, Error};
use std::alloc::Global;

/// A password that is made costly to guess: `Hi` over HMAC with SHA-256. No rounds act as one.
/// (RFC 5802, section 2.2; RFC 7677.)
///
/// All rounds are counted out, up to 4294967295 of them. Only want of memory refuses it.
#[tactic(auto, unfolding(crate::specs::Hi::hi, crate::specs::Hi::u, crate::specs::Hi::u_through))]
pub fn hi(alloc: Global, password: &[u8], salt: &[u8], rounds: u32) -> Result<[u8; 32], Error>
    ensures value { IfOk result (λ salted. salted ≡ hi password.now salt.now rounds) }
    ensures memory { IfErr result (λ e. e ≡ OutOfMemory) }
{
    let mut first = Blob::from_slice(alloc, salt)?;
    first.append(&1u32.to_be_bytes())?;
    let key = HmacKey::new(password);
    let mut round = key.sign(first.as_bytes());
    let mut salted = round;
    for _ in 0..rounds.saturating_sub(1) {
        let next = key.sign(&round);
        let sum = xored(salted, &next);
        round = next;
        salted = sum;
    }
    Ok(salted)
}
