// The keys and signatures of an exchange (RFC 5802, section 3), of the salted password and the messages of both sides.

ghost use Rattle.std.specs.Prelude.{◌≡◌};
ghost use Rattle.sha2.specs.Sha256.{sha256};
ghost use Rattle.pg_auth.specs.Hmac.{hmac};
ghost use Rattle.pg_auth.specs.Scram.{client_key, client_proof, server_key, server_signature};

use crate::keyed_hash::hmac;
use crate::xor::xored;
use sha2::{Digest, Sha256};

pub(crate) fn client_key(salted: &[u8; 32]) -> [u8; 32]
    ensures { result ≡ client_key salted.now }
{
    hmac(salted, b"Client Key")
}

// What the server keeps of the client's key.
pub(crate) fn stored_key(client_key: &[u8; 32]) -> [u8; 32]
    ensures { result ≡ sha256 client_key.now }
{
    Sha256::digest(client_key)
}

pub(crate) fn client_signature(stored_key: &[u8; 32], message: &[u8]) -> [u8; 32]
    ensures { result ≡ hmac stored_key.now message.now }
{
    hmac(stored_key, message)
}

pub(crate) fn server_key(salted: &[u8; 32]) -> [u8; 32]
    ensures { result ≡ server_key salted.now }
{
    hmac(salted, b"Server Key")
}

#[tactic(auto, unfolding(crate::specs::Scram::client_proof))]
pub(super) fn client_proof(salted: &[u8; 32], message: &[u8]) -> [u8; 32]
    ensures { result ≡ client_proof salted.now message.now }
{
    let client_key = client_key(salted);
    let signature = client_signature(&stored_key(&client_key), message);
    xored(client_key, &signature)
}

#[tactic(auto, unfolding(crate::specs::Scram::server_signature))]
pub(super) fn server_signature(salted: &[u8; 32], message: &[u8]) -> [u8; 32]
    ensures { result ≡ server_signature salted.now message.now }
{
    hmac(&server_key(salted), message)
}
