ghost use Rattle.std.specs.Prelude.{◌≡◌, ◌≢◌, ◌-◌, ◌<◌, ◌≤◌, ℕ, List, length, option_map, slice_index, IfErr};
ghost use Rattle.pg_wire.specs.Backend as backend;
ghost use Rattle.pg_wire.specs.Completion.{rows_affected};
ghost use Rattle.pg_wire.specs.Decoding.{DecodesAs, malformed};
ghost use Rattle.pg_wire.specs.Reading.{whole, ended_at, count_after, count_in};

use crate::Error;
use crate::reading::{ended, malformed};
use std::marker::Model;

/// The end of a command: contracts see the number of rows that its tag counts.
/// (PostgreSQL manual, "Message Formats", CommandComplete.)
#[derive(Clone, Copy, Debug, PartialEq, Eq)]
pub struct CommandComplete {
    rows: u64,
}

impl Model for CommandComplete {
    ghost use Rattle.std.specs.Prelude.{ℕ};

    ghost Value = { ℕ };

    ghost view = { λ c. c.rows };

    ghost inverse = { λ n. record { rows = n } };
}

impl CommandComplete {
    /// The number behind the tag's last space, or 0 where there is none.
    pub fn rows_affected(&self) -> u64
        ensures { result ≡ self.now }
    {
        self.rows
    }
}

// The place behind the last space, or 0 where there is no space.
fn word_start(tag: &[u8]) -> usize
    ensures bound { result ≤ length tag.now }
    ensures word { (k : ℕ) → result ≤ k → k < length tag.now → slice_index tag.now k ≢ 32 }
    ensures space { 0 < result → slice_index tag.now (result - 1) ≡ 32 }
{
    let mut start = 0;
    for place in 0..tag.len() {
        if tag[place] == b' ' {
            start = place + 1;
        }
    }
    start
}

// The number with one more digit, where it has room.
fn next_count(count: u64, byte: u8) -> Option<u64>
    ensures { result ≡ count_after count byte }
{
    if !byte.is_ascii_digit() {
        return None;
    }
    count.checked_mul(10)?.checked_add(u64::from(byte - b'0'))
}

// The number that digits alone spell, where it has room.
fn count_of(text: &[u8]) -> Option<u64>
    ensures { result ≡ count_in text.now }
{
    let mut count: u64 = 0;
    for byte in text {
        match next_count(count, *byte) {
            Some(next) => count = next,
            None => return None,
        }
    }
    Some(count)
}

fn rows_of(tag: &[u8]) -> u64
    ensures { result ≡ rows_affected tag.now }
{
    let start = word_start(tag);
    if start == 0 {
        return 0;
    }
    count_of(&tag[start..]).unwrap_or(0)
}

// The tag, which is all of the body.
#[tactic(auto, unfolding(crate::specs::Reading::whole))]
fn tag_of(body: &[u8]) -> Option<&[u8]>
    ensures { option_map (λ x. x.now) result ≡ whole ended_at body.now }
{
    match ended(body) {
        Some((tag, [])) => Some(tag),
        _ => None,
    }
}

/// Reads the body of a `C` message.
pub fn decode_command_complete(body: &[u8]) -> Result<CommandComplete, Error>
    ensures exact { DecodesAs (λ c m. (tag : List ℕ) × (m ≡ backend.CommandComplete tag) × (c ≡ rows_affected tag)) 67 body.now result }
    ensures err { IfErr result (λ e. e ≡ malformed 67) }
{
    match tag_of(body) {
        Some(tag) => Ok(CommandComplete { rows: rows_of(tag) }),
        None => Err(malformed(b'C')),
    }
}
