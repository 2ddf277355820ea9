// Every text of up to five characters over the marks of the grammars, read as an array and as a record. The digests of all answers are
// those that `tests/short_texts.py` prints.

ghost use Rattle.std.specs.Prelude.{◌≤◌};

use crate::telling::push;
use pg_values::{read_array, read_composite};
use pg_wire::{Error, Text};
use std::alloc::Global;
use std::fmt::Write;

const ALPHABET: &[u8; 12] = b"{},\"\\NUL()a ";

// How many texts have no character, one, and so on up to five.
const COUNTS: [u32; 6] = [1, 12, 144, 1728, 20736, 248832];

#[derive(Clone, Copy)]
enum Form {
    Array,
    Record,
}

// FNV-1a with 64 bits, and how many texts were read.
#[derive(Clone, Copy)]
struct Digest {
    hash: u64,
    taken: u64,
}

fn with_byte(hash: u64, byte: u8) -> u64 {
    (hash ^ byte as u64).wrapping_mul(0x100000001b3)
}

fn with_bytes(hash: u64, bytes: &[u8]) -> u64 {
    let mut hash = hash;
    for byte in bytes {
        hash = with_byte(hash, *byte);
    }
    hash
}

fn with_item(hash: u64, item: &Option<Text>) -> u64 {
    match item {
        Some(text) => {
            let length = (text.len() % 256) as u8;
            let hash = with_byte(with_byte(hash, b'T'), length);
            with_bytes(hash, text.as_bytes())
        }
        None => with_byte(hash, b'N'),
    }
}

fn with_items(hash: u64, items: &[Option<Text>]) -> u64 {
    let mut hash = with_byte(hash, b'K');
    for item in items {
        hash = with_item(hash, item);
    }
    with_byte(hash, b'.')
}

fn with_answer(digest: Digest, answer: Result<Vec<Option<Text>>, Error>) -> Digest {
    match answer {
        Ok(items) => Digest {
            hash: with_items(digest.hash, &items),
            taken: digest.taken.wrapping_add(1),
        },
        Err(Error::Decode) => Digest {
            hash: with_byte(digest.hash, b'E'),
            taken: digest.taken,
        },
        Err(_) => Digest { hash: 0, taken: 0 },
    }
}

fn with_text(alloc: Global, form: Form, digest: Digest, text: &str) -> Digest {
    match form {
        Form::Array => with_answer(digest, read_array(alloc, text)),
        Form::Record => with_answer(digest, read_composite(alloc, text)),
    }
}

// The characters of a number in the digits of the alphabet, the last digit last.
fn spell(number: u32, out: &mut [u8]) {
    let mut rest = number;
    for place in out.iter_mut().rev() {
        *place = ALPHABET[(rest % 12) as usize];
        rest /= 12;
    }
}

fn with_length(alloc: Global, form: Form, digest: Digest, length: usize, count: u32) -> Digest
    requires { length ≤ 5 }
{
    let mut digest = digest;
    for number in 0..count {
        let mut text = [b' '; 5];
        spell(number, &mut text[..length]);
        if let Ok(text) = str::from_utf8(&text[..length]) {
            digest = with_text(alloc, form, digest, text);
        }
    }
    digest
}

fn digest_of(alloc: Global, form: Form) -> Digest {
    let mut digest = Digest {
        hash: 0xcbf29ce484222325,
        taken: 0,
    };
    for length in 0..6 {
        digest = with_length(alloc, form, digest, length, COUNTS[length]);
    }
    digest
}

fn push_digest(told: &mut String, digest: Digest) {
    let (hash, taken) = (digest.hash, digest.taken);
    let _ = write!(told, "{hash} {taken}");
}

/// The digest and the number of the texts that were read, of arrays and of records.
pub fn digests(told: &mut String, alloc: Global) {
    push_digest(told, digest_of(alloc, Form::Array));
    push(told, ", ");
    push_digest(told, digest_of(alloc, Form::Record));
}
