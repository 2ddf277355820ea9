ghost use Rattle.std.specs.Prelude.{◌≡◌, ◌<◌, ◌↔◌, length, IsTrue};
ghost use Rattle.std.specs.List.{list_all};
ghost use Rattle.pg_auth.specs.Nonce.{IsNonce, is_printable, nonce_character, nonce_of, drawn, left_after};

use arrayvec::ArrayString;
use rand_core::Rng;

fn is_printable(byte: u8) -> bool
    ensures { result ≡ is_printable byte }
{
    (byte >= 0x21 && byte <= 0x2B) || (byte >= 0x2D && byte <= 0x7E)
}

// Printable ASCII without a space and without a comma, which is what a nonce is made of.
pub(crate) fn all_printable(bytes: &[u8]) -> bool
    ensures { result ≡ list_all is_printable bytes.now }
{
    bytes.iter().all(|byte| is_printable(*byte))
}

/// Whether these bytes may be a client's nonce: 1 to 127 printable ASCII characters without a space and without a comma.
/// (RFC 5802, section 7, `printable`.)
#[tactic(auto, using(crate::proofs::NonceLemmas::is_nonce_by, crate::proofs::NonceLemmas::nonce_passes))]
pub fn is_nonce(bytes: &[u8]) -> bool
    ensures { IsTrue result ↔ IsNonce bytes.now }
{
    !bytes.is_empty() && bytes.len() <= 127 && all_printable(bytes)
}

#[tactic(auto, unfolding(crate::specs::Nonce::nonce_character))]
fn character(word: u32) -> char
    ensures value { result ≡ nonce_character word }
    ensures ascii { result < 128 }
{
    let place = (word % 93) as u8;
    let byte = 0x21 + place;
    char::from(if byte < b',' { byte } else { byte + 1 })
}

/// A nonce from 128 random words: the first says how long it is, each other is a character. (RFC 5802, section 5.1, attribute `r`.)
pub fn nonce_of(words: &[u32]) -> ArrayString<127>
    requires { length words.now ≡ 128 }
    ensures value { result.bytes ≡ nonce_of words.now }
    ensures lawful { IsNonce result.bytes }
{
    let count = 64 + (words[0] % 64) as usize;
    let characters = &words[1..count + 1];
    let mut nonce = ArrayString::new();
    for word in characters {
        nonce.push(character(*word));
    }
    nonce
}

/// A nonce from the next 128 words of a generator.
pub fn make_nonce<R: Rng>(rng: &mut R) -> ArrayString<127>
    ensures value { result.bytes ≡ nonce_of (drawn 128 (R.stream rng.old)) }
    ensures lawful { IsNonce result.bytes }
    ensures left { R.stream rng.new ≡ left_after 128 (R.stream rng.old) }
{
    let mut words = [0; 128];
    for word in words.iter_mut() {
        *word = rng.next_u32();
    }
    nonce_of(&words)
}
