ghost use Rattle.std.specs.Prelude.{◌≡◌, List, ℕ};
ghost use Rattle.pg_auth.specs.Hmac.{block_of, hmac};

use crate::xor::xored;
use sha2::{Digest, Sha256};

// The number of bytes that SHA-256 takes in at a time.
const BLOCK: usize = 64;

#[tactic(auto, unfolding(crate::specs::Hmac::block_of))]
fn block(key: &[u8]) -> [u8; BLOCK]
    ensures { result ≡ block_of key.now }
{
    let mut block = [0; BLOCK];
    if key.len() > BLOCK {
        block[..32].copy_from_slice(&Sha256::digest(key));
    } else {
        block[..key.len()].copy_from_slice(key);
    }
    block
}

// A key that both hashes have taken in, so that each further message costs no more than its own blocks.
// (RFC 2104, section 4.)
#[derive(Drop)]
pub(crate) struct HmacKey {
    inner: Sha256,
    outer: Sha256,
}

impl HmacKey {
    ghost use Rattle.pg_auth.specs.Keyed.{IsKey};

    pub fn new(key: &[u8]) -> HmacKey
        ensures { IsKey result key.now }
    {
        let key = block(key);
        let mut inner = Sha256::new();
        inner.update(xored([0x36; BLOCK], &key));
        let mut outer = Sha256::new();
        outer.update(xored([0x5C; BLOCK], &key));
        HmacKey { inner, outer }
    }

    #[tactic(auto, unfolding(crate::specs::Hmac::hmac))]
    pub fn sign(&self, message: &[u8]) -> [u8; 32]
        ensures { (key : List ℕ) → IsKey self.now key → result ≡ hmac key message.now }
    {
        let mut inner = self.inner.clone().unwrap();
        inner.update(message);
        let mut outer = self.outer.clone().unwrap();
        outer.update(inner.finalize());
        outer.finalize()
    }
}

/// The HMAC of a message over SHA-256. (RFC 2104, section 2.)
pub fn hmac(key: &[u8], message: &[u8]) -> [u8; 32]
    ensures { result ≡ hmac key.now message.now }
{
    HmacKey::new(key).sign(message)
}
