//! The lines of a case, each of which begins with a mark.

use pg_stream::ReadEvent;
use pg_wire::{Blob, Error, Sequence};
use std::alloc::Global;

/// What stands behind the mark of a line, if the line has this mark.
pub fn behind<'a>(line: &'a str, mark: &str) -> Option<&'a str> {
    let (first, rest) = line.split_once(' ').unwrap_or((line, ""));
    if first == mark { Some(rest) } else { None }
}

/// What stands behind the first such mark of a case.
pub fn entry<'a>(case: &'a str, mark: &str) -> Option<&'a str> {
    for line in case.lines() {
        if let Some(rest) = behind(line, mark) {
            return Some(rest);
        }
    }
    None
}

/// The number behind a mark, or this one where there is none.
pub fn number(case: &str, mark: &str, otherwise: u64) -> u64 {
    match entry(case, mark) {
        Some(digits) => digits.parse::<u64>().unwrap_or(otherwise),
        None => otherwise,
    }
}

/// Bytes by their hexadecimal digits.
pub fn bytes(alloc: Global, digits: &str) -> Result<Blob, Error> {
    match hex::decode(alloc, digits.as_bytes()) {
        Ok(bytes) => Ok(Blob::from_vec(bytes)),
        Err(_) => Err(Error::Decode),
    }
}

/// What a read of this word does: `wait`, `end` and `fail`, and else it gives the bytes of these digits.
pub fn read_event(alloc: Global, word: &str) -> Result<ReadEvent, Error> {
    match word {
        "wait" => Ok(ReadEvent::Wait),
        "end" => Ok(ReadEvent::End),
        "fail" => Ok(ReadEvent::Fail),
        digits => Ok(ReadEvent::Piece(bytes(alloc, digits)?)),
    }
}

/// What a link reads: the bytes of the lines that have this mark, and a wait for each line `wait`.
pub fn reads(alloc: Global, lines: &str, mark: &str) -> Result<Sequence<ReadEvent>, Error> {
    let mut reads = Sequence::new(alloc);
    for line in lines.lines() {
        if let Some(digits) = behind(line, mark) {
            reads.push(ReadEvent::Piece(bytes(alloc, digits)?))?;
        } else if line == "wait" {
            reads.push(ReadEvent::Wait)?;
        }
    }
    Ok(reads)
}
