//! Cases of what stands without a connection: messages, links and streams, values, texts, and the resolver.
//!
//! Its words are the names of the files that it plays; what the rows of each are says the module of that name. A row begins with a word
//! that says what is tried. It is written with what came of it behind it.
#![tactic(auto)]

mod resolving;
mod row;
mod stream;
mod telling;
mod texts;
mod values;
mod wire;

use crate::telling::push;
use pg_wire::Text;
use std::{env, fs, io};

// What came of a row of this file. What stays kept from one row to the next is the resolver's alone.
fn answer(told: &mut String, rt: &HostRuntime, file: &str, kept: &mut Vec<Text>, row: &str) {
    match file {
        "wire" => wire::answer(told, rt.alloc(), row),
        "stream" => stream::answer(told, rt, row),
        "values" => values::answer(told, rt.alloc(), row),
        "texts" => texts::answer(told, rt.alloc(), row),
        "resolving" => resolving::answer(told, rt.alloc(), kept, row),
        _ => push(told, "no such file"),
    }
}

fn play(rt: &HostRuntime, file: &str) -> io::Result<()> {
    let rows = fs::read_to_string(rt, file)?;
    let mut kept = Vec::new(rt.alloc());
    for row in rows.lines() {
        let mut told = String::new(rt.alloc());
        answer(&mut told, rt, file, &mut kept, row);
        println!(rt; "{row} -> {told}")?;
    }
    Ok(())
}

fn main(rt: HostRuntime) -> io::Result<()> {
    for file in env::args(&rt)?.skip(1) {
        play(&rt, file.as_str())?;
    }
    Ok(())
}
