//! Cases of messages, written and read. The bytes are the ones that the manual and the drivers of other languages give.
//!
//! A row is a word for a message, and, where it is read, the bytes of its body in hexadecimal. It is written with the message's frame, or
//! with what was read, behind it.

mod reading;
mod writing;

use crate::row::{bytes, meant, two};
use crate::telling::push;
use crate::wire::reading::{GOT, tell_got};
use crate::wire::writing::{SENT, tell_sent};
use std::alloc::Global;

fn tell_read(told: &mut String, alloc: Global, word: &str, digits: &str) {
    let body = bytes(alloc, digits);
    match meant(&GOT, word) {
        Some(message) => tell_got(told, alloc, message, &body),
        None => push(told, "no such message"),
    }
}

/// What came of a row.
pub fn answer(told: &mut String, alloc: Global, row: &str) {
    let (word, digits) = two(row, ' ');
    match meant(&SENT, word) {
        Some(message) => tell_sent(told, alloc, message),
        None => tell_read(told, alloc, word, digits),
    }
}
