ghost use Rattle.std.specs.Prelude.{◌≡◌, string_bytes};
ghost use Rattle.pg_options.specs.Answering.{GivesBy};
ghost use Rattle.pg_play.specs.Commands.{lines_of_options, lines_of_url};
ghost use Rattle.pg_play.specs.Top.{OptionsIs};

use crate::ending::Ending;
use pg_options::{PgConnectOptions, PgSettings};
use pg_report::option_lines;
use pg_wire::Error;
use std::alloc::Global;

// The lines of options, with their URL.
fn lines_of_options(alloc: Global, options: &PgConnectOptions) -> Result<String, Error>
    ensures { GivesBy string_bytes result (lines_of_options options.now) }
{
    let url = options.build_url(alloc)?;
    Ok(option_lines(alloc, options, url.as_str())?)
}

// The lines of the options that a URL alone says.
fn lines_of_url(alloc: Global, url: &str) -> Result<String, Error>
    ensures { GivesBy string_bytes result (lines_of_url url.now) }
{
    let options = PgConnectOptions::from_str(alloc, &PgSettings::empty(), url)?;
    lines_of_options(alloc, &options)
}

/// Shows the options that a URL alone says. All is computed before anything is written.
pub(crate) fn show_options<L>(alloc: Global, url: &str) -> Ending<L>
    ensures { OptionsIs url.now result }
{
    match lines_of_url(alloc, url) {
        Ok(lines) => Ending::Shown(lines),
        Err(Error::OutOfMemory) => Ending::NoMemory,
        Err(e) => Ending::Refused(e),
    }
}
