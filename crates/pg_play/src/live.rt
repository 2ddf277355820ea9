ghost use Rattle.pg_conn.specs.Dials.{HandsOut};
ghost use Rattle.pg_options.specs.FromUrl.{options_of_text};
ghost use Rattle.pg_options.specs.Options.{no_settings};
ghost use Rattle.pg_play.specs.Top.{DialedIs, IsUndialed, LiveIs, LiveUrlIs};

use crate::ending::Ending;
use crate::playing::play;
use crate::program::START_POLLS;
use pg_conn::{Dial, DialFailed, draw_nonce};
use pg_options::{PgConnectOptions, PgSettings};
use pg_script::{LiveScript, ReadError, read_live};
use pg_stream::{Gathered, Source, read_all};
use pg_wire::Error;
use std::alloc::Global;

// How a play ends that has no link or no nonce.
fn undialed<L>(failed: DialFailed) -> Ending<L>
    ensures { IsUndialed failed result }
{
    match failed {
        DialFailed::Fault => Ending::DialFailed,
        DialFailed::OutOfMemory => Ending::NoMemory,
    }
}

// Plays the steps of a script over a link to the server that the options name.
fn dial_and_play<D: Dial>(
    alloc: Global,
    options: &PgConnectOptions,
    script: &LiveScript,
    dial: &mut D,
) -> Ending<D::L>
where
    D::L: Drop,
    ensures { DialedIs D.L.seen (HandsOut D.gives D.draws dial.old dial.new) options.now script.now (D.seen dial.old) (D.seen dial.new) result }
{
    let link = match dial.dial(options) {
        Ok(link) => link,
        Err(failed) => return undialed(failed),
    };
    match draw_nonce(dial) {
        Ok(nonce) => {
            let polls = script.start_polls.unwrap_or(START_POLLS);
            let nonce = nonce.as_str().as_bytes();
            let steps = script.steps.as_slice();
            Ending::of_live(play(alloc, options, nonce, polls, steps, link))
        }
        Err(failed) => undialed(failed),
    }
}

// Reads a script and plays its steps over a link to the server that the options name.
fn play_live<S: Source, D: Dial>(
    alloc: Global,
    options: &PgConnectOptions,
    source: &mut S,
    dial: &mut D,
) -> Ending<D::L>
where
    D::L: Drop,
    ensures { LiveIs D.L.seen (HandsOut D.gives D.draws dial.old dial.new) options.now (S.seen source.old) (S.seen source.new) (D.seen dial.old) (D.seen dial.new) result }
{
    let mut bytes = Vec::new(alloc);
    match read_all(source, &mut bytes) {
        Gathered::Failed => Ending::ReadFailed,
        Gathered::OutOfMemory => Ending::NoMemory,
        Gathered::TooLong => Ending::BadScript(0),
        Gathered::Whole => match read_live(alloc, &bytes) {
            Ok(script) => dial_and_play(alloc, options, &script, dial),
            Err(ReadError::BadLine(line)) => Ending::BadScript(line),
            Err(ReadError::OutOfMemory) => Ending::NoMemory,
        },
    }
}

/// Plays the steps of a script over a link to the server that a URL names. The URL is read first, then the script, and only then
/// is anything dialled; the nonce is drawn behind the dial.
pub(crate) fn run_live<S: Source, D: Dial>(
    alloc: Global,
    url: &str,
    source: &mut S,
    dial: &mut D,
) -> Ending<D::L>
where
    D::L: Drop,
    ensures { LiveUrlIs D.L.seen (HandsOut D.gives D.draws dial.old dial.new) (options_of_text no_settings url.now) (S.seen source.old) (S.seen source.new) (D.seen dial.old) (D.seen dial.new) result }
{
    match PgConnectOptions::from_str(alloc, &PgSettings::empty(), url) {
        Ok(options) => play_live(alloc, &options, source, dial),
        Err(Error::OutOfMemory) => Ending::NoMemory,
        Err(e) => Ending::Refused(e),
    }
}
