ghost use Rattle.std.specs.Prelude.{◌≡◌, IfOk, string_bytes};
ghost use Rattle.pg_play.specs.Top.{EndingIs, LiveEndingIs, SampleEndingIs, TellsEnding, bad_script_text, refused_text, start_status, status_of, played_of, live_of};

use crate::played::Played;
use pg_report::{Started, live_report, put_error, report, summary};
use pg_stream::MemoryLink;
use pg_wire::Error;
use std::alloc::{AllocError, Global};
use std::fmt::Write;

/// How the program is called.
pub(crate) const HELP: &str = "zapoteboom WORD
script       reads a script from standard input, plays it in memory and writes the report
live URL     dials the server of a URL, plays the steps of a script there and writes the report
sample N     plays a made script of N steps in memory, from 1 to 100000, and writes one line that sums it up
options URL  writes the connect options that a URL says
key TEXT     writes the key of the advisory lock of a text
--help       writes this text
--version    writes the name and the version
";

/// The name and the version.
pub(crate) const VERSION: &str = "zapoteboom 0.1.0\n";

/// How the program ends, before its text is written.
#[derive(Drop)]
pub(crate) enum Ending<L> {
    Played(Played<MemoryLink>),
    /// What was played over a link that was dialled.
    Live(Played<L>),
    /// What was played of a script that was made and not read.
    Sampled(Played<MemoryLink>),
    /// The lines of connect options, or the one of a key.
    Shown(String),
    Help,
    Version,
    BadWords,
    /// A URL that says no options, or options that no URL says.
    Refused(Error),
    BadScript(u64),
    ReadFailed,
    DialFailed,
    NoMemory,
}

// The status behind a start-up that ended so.
fn start_status(start: &Result<Started, Error>) -> u8
    ensures { result ≡ start_status start.now }
{
    match start {
        Ok(_) => 0,
        Err(Error::OutOfMemory) => 5,
        Err(_) => 1,
    }
}

impl<L: Drop> Ending<L> {
    /// What was played in memory. A start-up without memory counts as none.
    pub(crate) fn of(played: Played<MemoryLink>) -> Self
        ensures { EndingIs result played }
    {
        match start_status(&played.start) {
            5 => Ending::NoMemory,
            _ => Ending::Played(played),
        }
    }

    /// What was played of a script that was made. A start-up without memory counts as none.
    pub(crate) fn of_sample(played: Played<MemoryLink>) -> Self
        ensures { SampleEndingIs result played }
    {
        match start_status(&played.start) {
            5 => Ending::NoMemory,
            _ => Ending::Sampled(played),
        }
    }

    /// What was played over a link that was dialled. A start-up without memory counts as none.
    pub(crate) fn of_live(played: Played<L>) -> Self
        ensures { LiveEndingIs result played }
    {
        match start_status(&played.start) {
            5 => Ending::NoMemory,
            _ => Ending::Live(played),
        }
    }

    pub(crate) fn status(&self) -> u8
        ensures { result ≡ status_of self.now }
    {
        match self {
            Ending::Played(played) => start_status(&played.start),
            Ending::Live(played) => start_status(&played.start),
            Ending::Sampled(played) => start_status(&played.start),
            Ending::Shown(_) | Ending::Help | Ending::Version => 0,
            Ending::BadWords | Ending::Refused(_) | Ending::BadScript(_) => 2,
            Ending::ReadFailed => 3,
            Ending::NoMemory => 5,
            Ending::DialFailed => 6,
        }
    }

    /// What was played in memory, and what over a link that was dialled.
    pub(crate) fn played(self) -> (Option<Played<MemoryLink>>, Option<Played<L>>)
        ensures { result ≡ (played_of self, live_of self) }
    {
        match self {
            Ending::Played(played) => (Some(played), None),
            Ending::Sampled(played) => (Some(played), None),
            Ending::Live(played) => (None, Some(played)),
            _ => (None, None),
        }
    }

    /// The text to write.
    pub(crate) fn text(&self, alloc: Global) -> Result<String, AllocError>
        ensures { IfOk result (λ t. TellsEnding self.now (string_bytes t)) }
    {
        match self {
            Ending::Played(played) => report(
                alloc,
                &played.start,
                played.outcomes.as_slice(),
                played.link.taken(),
            ),
            Ending::Live(played) => live_report(alloc, &played.start, played.outcomes.as_slice()),
            Ending::Sampled(played) => summary(
                alloc,
                &played.start,
                played.outcomes.as_slice(),
                played.link.taken(),
            ),
            Ending::Shown(lines) => String::from_str(alloc, lines.as_str()),
            Ending::Help => String::from_str(alloc, HELP),
            Ending::Version => String::from_str(alloc, VERSION),
            Ending::BadWords => String::from_str(alloc, "bad words\n"),
            Ending::Refused(error) => refused(alloc, error),
            Ending::BadScript(line) => bad_script(alloc, *line),
            Ending::ReadFailed => String::from_str(alloc, "read failed\n"),
            Ending::DialFailed => String::from_str(alloc, "dial failed\n"),
            Ending::NoMemory => String::from_str(alloc, "out of memory\n"),
        }
    }
}

// Why there are no options to show.
fn refused(alloc: Global, error: &Error) -> Result<String, AllocError>
    ensures { IfOk result (λ t. string_bytes t ≡ refused_text error.now) }
{
    let mut text = String::new(alloc);
    text.push_str("error ")?;
    put_error(&mut text, error)?;
    text.push_str("\n")?;
    Ok(text)
}

// The first bad line of a script.
fn bad_script(alloc: Global, line: u64) -> Result<String, AllocError>
    ensures { IfOk result (λ t. string_bytes t ≡ bad_script_text line) }
{
    let mut text = String::new(alloc);
    text.push_str("bad script: line ")?;
    write!(text, "{line}")?;
    text.push_str("\n")?;
    Ok(text)
}
