//! Cases of the whole program, and of what no script reaches: the states of calls, migrations, databases and advisory locks, and dials by themselves.
//!
//! The cases stand in the files that its words name, with an empty line between two. It prints a line for each: `ok` and what the case is about, or else how it
//! ended and what it wrote; and of migrations, databases and locks what their calls answered. The word `dials` stands for the cases of dials. A word that is a
//! URL, as `postgres://USER@HOST:PORT/DATABASE`, is a server on which two connections contend for a lock.
#![tactic(auto)]

mod calls;
mod case;
mod dials;
mod guards;
mod holes;
mod migrating;
mod options;
mod playing;
mod states;

use crate::dials::{
    dials_a_host, dials_a_local_socket, dials_an_address_between_brackets, draws_words,
    gives_its_lists, misses_a_host,
};
use crate::playing::play;
use std::{env, fs, io};

// What is told while the calls of a case are made.
fn print_calls(rt: &HostRuntime, case: &str) -> io::Result<()> {
    let mut told = String::new(rt.alloc());
    migrating::play(rt, case, &mut told);
    print!(rt; "{told}")
}

// What two connections do that contend for a lock.
fn print_contention(rt: &HostRuntime, url: &str) -> io::Result<()> {
    let mut told = String::new(rt.alloc());
    migrating::contend(rt, url, &mut told);
    print!(rt; "{told}")
}

fn play_case(rt: &HostRuntime, case: &str) -> io::Result<()> {
    if migrating::is_case(case) {
        return print_calls(rt, case);
    }
    let told = play(rt.alloc(), case)?;
    println!(rt; "{told}")
}

fn play_file(rt: &HostRuntime, file: &str) -> io::Result<()> {
    let text = fs::read_to_string(rt, file)?;
    for case in text.split("\n\n") {
        play_case(rt, case)?;
    }
    Ok(())
}

fn tell(rt: &HostRuntime, about: &str, is_so: bool) -> io::Result<()> {
    let word = if is_so { "ok" } else { "not so:" };
    println!(rt; "{word} {about}")
}

fn try_dials(rt: &HostRuntime) -> io::Result<()> {
    tell(
        rt,
        "a dial in memory gives its lists",
        gives_its_lists(rt.alloc())?,
    )?;
    tell(rt, "a host is dialled", dials_a_host(rt)?)?;
    tell(
        rt,
        "an address between brackets is dialled",
        dials_an_address_between_brackets(rt)?,
    )?;
    tell(rt, "a local socket is dialled", dials_a_local_socket(rt)?)?;
    tell(
        rt,
        "a dial that nobody answers is a fault",
        misses_a_host(rt)?,
    )?;
    tell(
        rt,
        "words are drawn until the source fails",
        draws_words(rt),
    )
}

fn main(rt: HostRuntime) -> io::Result<()> {
    for word in env::args(&rt)?.skip(1) {
        match word.as_str() {
            "dials" => try_dials(&rt)?,
            url if url.starts_with("postgres://") => print_contention(&rt, url)?,
            file => play_file(&rt, file)?,
        }
    }
    Ok(())
}
