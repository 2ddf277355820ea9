ghost use Rattle.std.specs.Prelude.{◌≡◌, IfOk, replicate, unwrap_or};
ghost use Rattle.pg_auth.specs.Nonce.{IsNonce};
ghost use Rattle.pg_conn.specs.Dials.{HandsOut};
ghost use Rattle.pg_play.specs.Connecting.{options_of};
ghost use Rattle.pg_play.specs.Commands.{argued_command, plain_command};
ghost use Rattle.pg_play.specs.Top.{IsPlay, PlayedOrStarved, ScriptIs, WordIs, ArgumentIs, RunIs, TopIs, status_after, played_of, live_of};

use crate::command::{Argued, Command};
use crate::connecting::options_of;
use crate::ending::Ending;
use crate::live::run_live;
use crate::played::{Played, Ran};
use crate::playing::play;
use crate::sampling::run_sample;
use crate::showing_key::show_key;
use crate::showing_options::show_options;
use pg_conn::Dial;
use pg_options::PgConnectOptions;
use pg_script::{Nonce, ReadError, Script, read_script};
use pg_stream::{Gathered, MemoryLink, Sink, Source, read_all, send};
use pg_wire::Error;
use std::alloc::Global;

/// The polls that start-up has where a script does not say them.
pub(crate) const START_POLLS: u32 = 1000;

/// The nonce that a script's start-up has where the script does not say it.
const NONCE: [u8; 64] = [b'n'; 64];

// The nonce that a script says.
fn nonce_said(said: &Option<Nonce>) -> &[u8]
    ensures value { result.now ≡ unwrap_or said.now (replicate 64 110) }
    ensures lawful { IsNonce result.now }
{
    match said {
        Some(nonce) => nonce.as_bytes(),
        None => &NONCE,
    }
}

// Plays a script over a link whose reads and writes do what it says.
fn play_over(alloc: Global, options: &PgConnectOptions, script: Script) -> Played<MemoryLink>
    requires { options.now ≡ options_of script }
    ensures { IsPlay script result }
{
    let polls = script.start_polls.unwrap_or(START_POLLS);
    let link = MemoryLink::new(
        alloc,
        script.events,
        script.writes,
        script.can_upgrade,
        script.is_local,
    );
    let nonce = nonce_said(&script.nonce);
    play(alloc, options, nonce, polls, script.steps.as_slice(), link)
}

/// Plays a script, where its options can be had.
pub(crate) fn play_script(alloc: Global, script: Script) -> Result<Played<MemoryLink>, Error>
    ensures { IfOk result (λ p. IsPlay script p) }
{
    let options = options_of(alloc, &script)?;
    Ok(play_over(alloc, &options, script))
}

// What comes of a script, without memory too.
fn play_or_starve<L: Drop>(alloc: Global, script: Script) -> Ending<L>
    ensures { PlayedOrStarved script result }
{
    match play_script(alloc, script) {
        Ok(played) => Ending::of(played),
        Err(_) => Ending::NoMemory,
    }
}

// Reads a script, lets its text go, and plays it.
fn run_script<S: Source, L: Drop>(alloc: Global, source: &mut S) -> Ending<L>
    ensures { ScriptIs (S.seen source.old) (S.seen source.new) result }
{
    let mut bytes = Vec::new(alloc);
    match read_all(source, &mut bytes) {
        Gathered::Failed => Ending::ReadFailed,
        Gathered::OutOfMemory => Ending::NoMemory,
        Gathered::TooLong => Ending::BadScript(0),
        Gathered::Whole => {
            let said = read_script(alloc, &bytes);
            drop(bytes);
            match said {
                Ok(script) => play_or_starve(alloc, script),
                Err(ReadError::BadLine(line)) => Ending::BadScript(line),
                Err(ReadError::OutOfMemory) => Ending::NoMemory,
            }
        }
    }
}

// Does what one word says.
fn run_word<S: Source, L: Drop>(alloc: Global, word: &str, source: &mut S) -> Ending<L>
    ensures { WordIs (plain_command word.now) (S.seen source.old) (S.seen source.new) result }
{
    match Command::of(word) {
        Command::Script => run_script(alloc, source),
        Command::Help => Ending::Help,
        Command::Version => Ending::Version,
        Command::Unknown => Ending::BadWords,
    }
}

// Does what a word and its argument say.
fn run_with_argument<S: Source, D: Dial>(
    alloc: Global,
    word: &str,
    argument: &str,
    source: &mut S,
    dial: &mut D,
) -> Ending<D::L>
where
    D::L: Drop,
    ensures { ArgumentIs D.L.seen (HandsOut D.gives D.draws dial.old dial.new) (argued_command word.now) argument.now (S.seen source.old) (S.seen source.new) (D.seen dial.old) (D.seen dial.new) result }
{
    match Argued::of(word) {
        Argued::Options => show_options(alloc, argument),
        Argued::Live => run_live(alloc, argument, source, dial),
        Argued::Sample => run_sample(alloc, argument),
        Argued::Key => show_key(alloc, argument),
        Argued::Unknown => Ending::BadWords,
    }
}

// Does what the words say.
fn run<S: Source, D: Dial>(
    alloc: Global,
    words: &[String],
    source: &mut S,
    dial: &mut D,
) -> Ending<D::L>
where
    D::L: Drop,
    ensures { RunIs D.L.seen (HandsOut D.gives D.draws dial.old dial.new) words.now (S.seen source.old) (S.seen source.new) (D.seen dial.old) (D.seen dial.new) result }
{
    match words {
        [word] => run_word(alloc, word.as_str(), source),
        [word, argument] => {
            run_with_argument(alloc, word.as_str(), argument.as_str(), source, dial)
        }
        _ => Ending::BadWords,
    }
}

// The status behind a text that was written whole or not.
fn status_after(whole: bool, status: u8) -> u8
    ensures { result ≡ status_after whole status }
{
    if whole { status } else { 4 }
}

// What has run, behind its text.
fn ran<L: Drop>(ending: Ending<L>, status: u8) -> Ran<L>
    ensures status { result.status ≡ status }
    ensures played { result.played ≡ played_of ending }
    ensures live { result.live ≡ live_of ending }
{
    let (played, live) = ending.played();
    Ran {
        status,
        played,
        live,
    }
}

/// The whole program. By its words it plays a script over a link in memory, or its steps over a link that it dials, and writes the
/// report; shows the connect options that a URL says, or the key of a text; or tells how it is called. For other words, a bad script or URL, a source or a
/// dial that fails and want of memory it writes a line that says so.
pub fn top<S: Source, K: Sink, D: Dial>(
    alloc: Global,
    words: &[String],
    source: &mut S,
    sink: &mut K,
    dial: &mut D,
) -> Ran<D::L>
where
    D::L: Drop,
    ensures { TopIs D.L.seen (HandsOut D.gives D.draws dial.old dial.new) words.now (S.seen source.old) (S.seen source.new) (K.seen sink.old) (K.seen sink.new) (D.seen dial.old) (D.seen dial.new) result.status result.played result.live }
{
    let ending = run(alloc, words, source, dial);
    match ending.text(alloc) {
        Ok(text) => {
            let status = status_after(send(sink, text.as_bytes()), ending.status());
            ran(ending, status)
        }
        Err(_) => {
            let status = status_after(send(sink, b"out of memory\n"), 5);
            ran(ending, status)
        }
    }
}
