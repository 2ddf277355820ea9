// A case is a text. Each of its lines begins with a mark:
//
//     case      what the case is about
//     word      a word of the command line
//     >         a line of the script
//     last      the script's last line, which has no end of line
//     dial      the dial has one link, and its call with this number fails
//     read      a read of the script takes 16 bytes, and the one with this number fails
//     write     the write with this number fails
//     status    how the program ends, where it is not 0
//     <         a line that is written
//     end       how what is written ends, where the lines of `<` are its begin and not all of it
//     has       with `end`, a line further on
//     states    the steps are played by the states of calls: what is written is how each stood, and the rows of its last poll
//     url       with `states`: the options of the connection, where they aren't `postgres://u@h`
//     next      with `states`: the connection gives its last number to the next statement
//     then      what is done with the connection behind them: `close`, `keep` for a close that is given up, or `tell` for a close behind which what was sent
//               behind the start-up is written
//     holes     with `states`: the arguments of each query that is executed are the OIDs of these types, one step behind another by `/`
//
// A line with another mark is a remark.

use case_tools::{behind, entry};
use std::alloc::{AllocError, Global};

/// The number behind a mark, and 0 without it.
pub(crate) fn number(case: &str, mark: &str) -> u64 {
    case_tools::number(case, mark, 0)
}

/// The text of the lines that have a mark.
pub(crate) fn text(alloc: Global, case: &str, mark: &str) -> Result<String, AllocError> {
    let mut text = String::new(alloc);
    for line in case.lines() {
        if let Some(rest) = behind(line, mark) {
            text.push_str(rest)?;
            text.push_str("\n")?;
        }
    }
    Ok(text)
}

/// The words of the command line.
pub(crate) fn words(alloc: Global, case: &str) -> Result<Vec<String>, AllocError> {
    let mut words = Vec::new(alloc);
    for line in case.lines() {
        if let Some(word) = behind(line, "word") {
            words.push(String::from_str(alloc, word)?)?;
        }
    }
    Ok(words)
}

/// The text of the script.
pub(crate) fn script(alloc: Global, case: &str) -> Result<String, AllocError> {
    let mut script = text(alloc, case, ">")?;
    script.push_str(entry(case, "last").unwrap_or(""))?;
    Ok(script)
}

fn has_lines(case: &str, written: &str) -> bool {
    let mut lines = written.lines();
    for line in case.lines() {
        if let Some(wanted) = behind(line, "has") {
            if !lines.any(|it| it == wanted) {
                return false;
            }
        }
    }
    true
}

fn ends_so(written: &str, end: &str) -> bool {
    match written.strip_suffix('\n') {
        Some(rest) => rest.ends_with(end),
        None => false,
    }
}

/// Whether this is what the case says is written, where `all` are its lines of `<`.
pub(crate) fn is_written(case: &str, all: &str, written: &str) -> bool {
    match entry(case, "end") {
        None => written == all,
        Some(end) => match written.strip_prefix(all) {
            Some(rest) => has_lines(case, rest) && ends_so(rest, end),
            None => false,
        },
    }
}
