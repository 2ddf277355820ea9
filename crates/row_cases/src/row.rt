//! What the words of a row stand for. Want of memory makes something shorter of them, and so another answer than the row's.

use pg_wire::{Blob, Text};
use std::alloc::Global;

/// What stands before a mark, and behind it.
pub fn two(words: &str, mark: char) -> (&str, &str) {
    words.split_once(mark).unwrap_or((words, ""))
}

/// What a word means, if it is one of these.
pub fn meant<T: Copy + Drop>(words: &[(&str, T)], word: &str) -> Option<T> {
    for (name, meaning) in words {
        if *name == word {
            return Some(*meaning);
        }
    }
    None
}

pub fn text(alloc: Global, word: &str) -> Text {
    match Text::from_str(alloc, word) {
        Ok(text) => text,
        Err(_) => Text::new(alloc),
    }
}

pub fn blob(alloc: Global, bytes: &[u8]) -> Blob {
    match Blob::from_slice(alloc, bytes) {
        Ok(blob) => blob,
        Err(_) => Blob::new(alloc),
    }
}

/// The bytes that are written in hexadecimal; none where that is not so.
pub fn bytes(alloc: Global, digits: &str) -> Vec<u8> {
    match hex::decode(alloc, digits) {
        Ok(bytes) => bytes,
        Err(_) => Vec::new(alloc),
    }
}

/// Adds bytes.
pub fn put(bytes: &mut Vec<u8>, more: &[u8]) {
    let _ = bytes.extend_from_slice(more);
}

/// Adds a value of a row behind its length; a null has none.
pub fn put_value(values: &mut Vec<u8>, value: Option<&[u8]>) {
    let Some(value) = value else {
        return put(values, &u32::MAX.to_be_bytes());
    };
    let length = u32::try_from(value.len()).unwrap_or(u32::MAX);
    put(values, &length.to_be_bytes());
    put(values, value);
}

/// So many items, behind their number.
pub fn counted(alloc: Global, count: u16, items: &[u8]) -> Vec<u8> {
    let mut body = Vec::new(alloc);
    put(&mut body, &count.to_be_bytes());
    put(&mut body, items);
    body
}
