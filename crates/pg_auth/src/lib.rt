//! What a client answers to prove a password to a PostgreSQL server, and the decision on TLS before it.
//!
//! Each text is a function of what is passed in, equal to the formula of its standard: RFC 2104 (HMAC), RFC 5869 (HKDF),
//! RFC 5802 and RFC 7677 (SCRAM-SHA-256), and the manual's MD5 text. No bytes are sent or read here, no random words are
//! drawn but from a generator that is handed in, and no secret is kept or printed. Begin with `scram_proof` and `MaybeUpgradeTls`.
#![tactic(auto)]

mod derived_key;
mod keyed_hash;
mod md5_text;
mod nonce;
mod salted;
mod scram;
mod tls;
mod xor;

pub use derived_key::hkdf8;
pub use keyed_hash::hmac;
pub use md5_text::md5_password;
pub use nonce::{is_nonce, make_nonce, nonce_of};
pub use salted::hi;
pub use scram::{ScramAnswer, check_plain, scram_client_first, scram_proof, scram_verifier};
pub use tls::{MaybeUpgradeTls, TlsPlan};
