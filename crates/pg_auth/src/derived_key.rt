ghost use Rattle.std.specs.Prelude.{◌≡◌, IfOk, IfErr};
ghost use Rattle.pg_wire.specs.declared.error.Error.TheVariants.{OutOfMemory};
ghost use Rattle.pg_auth.specs.Hkdf.{hkdf8};

use crate::keyed_hash::hmac;
use pg_wire::{Blob, Error};
use std::alloc::Global;

/// The first eight bytes that HKDF over SHA-256 expands from some material, without a salt. (RFC 5869, section 2.)
///
/// Only want of memory refuses it.
#[tactic(auto, unfolding(crate::specs::Hkdf::hkdf8))]
pub fn hkdf8(alloc: Global, material: &[u8], info: &[u8]) -> Result<[u8; 8], Error>
    ensures value { IfOk result (λ key. key ≡ hkdf8 material.now info.now) }
    ensures memory { IfErr result (λ e. e ≡ OutOfMemory) }
{
    let mut message = Blob::from_slice(alloc, info)?;
    message.append(&[1])?;
    let extracted = hmac(&[0; 32], material);
    let block = hmac(&extracted, message.as_bytes());
    let mut key = [0; 8];
    key.copy_from_slice(&block[..8]);
    Ok(key)
}
