use crate::case::{is_written, number, script, text, words};
use crate::states::play_states;
use case_tools::entry;
use pg_conn::MemoryDial;
use pg_play::top;
use pg_stream::{MemoryLink, MemorySink, MemorySource, ReadEvent};
use pg_wire::{Blob, Sequence};
use std::alloc::{AllocError, Global};
use std::collections::VecDeque;
use std::str;

// A server that accepts the user and answers one query.
const SERVER: &[u8] =
    b"R\x00\x00\x00\x08\x00\x00\x00\x00Z\x00\x00\x00\x05IC\x00\x00\x00\x0dSELECT 1\x00Z\x00\x00\x00\x05I";

fn only(alloc: Global, call: u64) -> Result<Sequence<u64>, AllocError> {
    let mut calls = Sequence::new(alloc);
    calls.push(call)?;
    Ok(calls)
}

fn no_links(alloc: Global) -> MemoryDial {
    MemoryDial::new(
        VecDeque::new(alloc),
        VecDeque::new(alloc),
        Sequence::new(alloc),
    )
}

fn reads(alloc: Global) -> Result<Sequence<ReadEvent>, AllocError> {
    let bytes = Blob::from_slice(alloc, SERVER)?;
    let mut reads = Sequence::new(alloc);
    reads.push(ReadEvent::Piece(bytes))?;
    Ok(reads)
}

fn one_link(alloc: Global, failing: u64) -> Result<MemoryDial, AllocError> {
    let failing = only(alloc, failing)?;
    let reads = reads(alloc)?;
    let link = MemoryLink::new(alloc, reads, Sequence::new(alloc), false, false);
    let mut links = VecDeque::new(alloc);
    links.push_back(link)?;
    Ok(MemoryDial::new(links, VecDeque::new(alloc), failing))
}

fn dial(alloc: Global, case: &str) -> Result<MemoryDial, AllocError> {
    match entry(case, "dial") {
        Some(_) => one_link(alloc, number(case, "dial")),
        None => Ok(no_links(alloc)),
    }
}

fn most(case: &str) -> usize {
    match entry(case, "read") {
        Some(_) => 16,
        None => 65536,
    }
}

fn source(alloc: Global, case: &str) -> Result<MemorySource, AllocError> {
    let failing = only(alloc, number(case, "read"))?;
    let script = script(alloc, case)?;
    let bytes = Blob::from_slice(alloc, script.as_bytes())?;
    Ok(MemorySource::new(bytes, most(case), failing))
}

// Each of the next three makes one of the values that `top` takes, and lets it go behind the one call that takes it. They answer the
// program's status.
fn run_dialling(
    alloc: Global,
    case: &str,
    words: &[String],
    source: &mut MemorySource,
    sink: &mut MemorySink,
) -> Result<u8, AllocError> {
    let mut dial = dial(alloc, case)?;
    let ran = top(alloc, words, source, sink, &mut dial);
    let status = ran.status;
    drop(ran);
    drop(dial);
    Ok(status)
}

fn run_reading(
    alloc: Global,
    case: &str,
    words: &[String],
    sink: &mut MemorySink,
) -> Result<u8, AllocError> {
    let mut source = source(alloc, case)?;
    let status = run_dialling(alloc, case, words, &mut source, sink);
    drop(source);
    status
}

fn run(alloc: Global, case: &str, sink: &mut MemorySink) -> Result<u8, AllocError> {
    let words = words(alloc, case)?;
    let status = run_reading(alloc, case, &words, sink);
    drop(words);
    status
}

fn is_so(alloc: Global, case: &str, status: u8, written: &str) -> Result<bool, AllocError> {
    let all = text(alloc, case, "<")?;
    Ok(u64::from(status) == number(case, "status") && is_written(case, &all, written))
}

fn report(alloc: Global, case: &str, status: u8, written: &[u8]) -> Result<String, AllocError> {
    let about = entry(case, "case").unwrap_or("");
    let written = str::from_utf8(written).unwrap_or("no text");
    if is_so(alloc, case, status, written)? {
        format!(in alloc; "ok {about}")
    } else {
        format!(in alloc; "{about}: status {status}\n{written}")
    }
}

// Plays a case by `top`.
fn play_program(alloc: Global, case: &str) -> Result<String, AllocError> {
    let failing = only(alloc, number(case, "write"))?;
    let mut sink = MemorySink::new(alloc, failing);
    let told = match run(alloc, case, &mut sink) {
        Ok(status) => report(alloc, case, status, sink.taken()),
        Err(error) => Err(error),
    };
    drop(sink);
    told
}

// Plays a case by the states of calls.
fn play_calls(alloc: Global, case: &str) -> Result<String, AllocError> {
    let mut told = String::new(alloc);
    play_states(alloc, case, &mut told)?;
    report(alloc, case, 0, told.as_bytes())
}

/// Plays a case, and tells what came.
pub(crate) fn play(alloc: Global, case: &str) -> Result<String, AllocError> {
    match entry(case, "states") {
        None => play_program(alloc, case),
        Some(_) => play_calls(alloc, case),
    }
}
