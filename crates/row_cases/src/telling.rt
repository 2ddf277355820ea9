//! What is written of an answer. What there is no memory for is missing in what is printed.

use std::alloc::Global;
use std::fmt::{Debug, Write};

/// Writes a text.
pub fn push(told: &mut String, text: &str) {
    let _ = told.push_str(text);
}

/// Writes a text between quotes.
pub fn push_quoted(told: &mut String, text: &str) {
    let _ = write!(told, "{text:?}");
}

pub fn push_number(told: &mut String, number: u64) {
    let _ = write!(told, "{number}");
}

/// Writes bytes in hexadecimal.
pub fn push_bytes(told: &mut String, alloc: Global, bytes: &[u8]) {
    if let Ok(digits) = hex::encode(alloc, bytes) {
        push(told, digits.as_str());
    }
}

/// Writes what a value's type shows of it.
pub fn push_shown<T: Debug + Drop>(told: &mut String, value: T) {
    let _ = write!(told, "{value:?}");
    drop(value);
}
