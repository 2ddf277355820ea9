ghost use Rattle.std.specs.Prelude.{◌≡◌, ◌≤◌, ◌∷◌, length, take, drop};
ghost use Rattle.pg_script.specs.Scripts.{empty_script, as_script, lines_of, lines_behind, read_from, read_text, ReadsAs};
ghost use Rattle.pg_script.specs.declared.kind.Kind.TheVariants as kinds;
ghost use Rattle.pg_script.specs.Grammar.{Says, Reads, Refuses, SaysLive, ReadsLive, RefusesLive};

use crate::error::{LineError, ReadError};
use crate::kind::Kind;
use crate::lexer::Lexer;
use crate::live::LiveScript;
use crate::script::Script;
use memchr::memchr;
use std::alloc::Global;

/// The most bytes of a script.
const LIMIT: usize = 67_108_864;

// Where the first line ends.
fn line_end(text: &[u8]) -> usize
    ensures bound { result ≤ length text.now }
    ensures cut { lines_of text.now ≡ take result text.now ∷ lines_behind (drop result text.now) }
{
    match memchr(b'\n', text) {
        Some(end) => end,
        None => text.len(),
    }
}

fn read_lines(alloc: Global, kind: Kind, text: &[u8]) -> Result<Script, ReadError>
    requires { length text.now ≤ 67108864 }
    ensures { ReadsAs result (read_from kind 0 empty_script (lines_of text.now)) }
{
    let mut script = Script::new(alloc);
    let mut lexer = Lexer::new(alloc);
    let mut rest = text;
    let mut number = 0u64;
    loop {
        let (line, behind) = rest.split_at(line_end(rest));
        match script.add_line(alloc, &mut lexer, kind, line) {
            Ok(()) => {}
            Err(LineError::Bad) => return Err(ReadError::BadLine(number + 1)),
            Err(LineError::OutOfMemory) => return Err(ReadError::OutOfMemory),
        }
        number += 1;
        match behind {
            [] => return Ok(script),
            [_, after @ ..] => rest = after,
        }
    }
}

fn read_limited(alloc: Global, kind: Kind, text: &[u8]) -> Result<Script, ReadError>
    ensures { ReadsAs result (read_text kind text.now) }
{
    if LIMIT < text.len() {
        return Err(ReadError::BadLine(0));
    }
    read_lines(alloc, kind, text)
}

/// Reads a script, in time and memory that grow with its length. Nothing in it is required: a text without any line is the
/// empty script.
pub fn read_script(alloc: Global, text: &[u8]) -> Result<Script, ReadError>
    // A script that is read is one that the text spells; a bad line is the text's first one.
    ensures says { Says result text.now }
    // And the other way round: a text that spells a script is read, and a bad line is told.
    ensures reads { Reads result text.now }
    ensures refuses { Refuses result text.now }
    // The same, computed.
    ensures exact { ReadsAs result (read_text kinds.Memory text.now) }
{
    read_limited(alloc, Kind::Memory, text)
}

fn read_steps(alloc: Global, text: &[u8]) -> Result<LiveScript, ReadError>
    ensures { ReadsAs (as_script result) (read_text kinds.Live text.now) }
{
    match read_limited(alloc, Kind::Live, text) {
        Ok(script) => Ok(LiveScript::of(script)),
        Err(error) => Err(error),
    }
}

/// Reads the script of a live run, in which only the lines `start` and `step` stand, and those that are passed over.
pub fn read_live(alloc: Global, text: &[u8]) -> Result<LiveScript, ReadError>
    // What is read is what the text spells, as a script that says nothing else; a bad line is the text's first one.
    ensures says { SaysLive result text.now }
    // And the other way round: a text that spells such a script is read, and a bad line is told.
    ensures reads { ReadsLive result text.now }
    ensures refuses { RefusesLive result text.now }
    // The same, computed.
    ensures exact { ReadsAs (as_script result) (read_text kinds.Live text.now) }
{
    read_steps(alloc, text)
}
