ghost use Rattle.std.specs.Prelude.{◌≡◌};
ghost use Rattle.pg_sample.specs.Counts.{count_of};
ghost use Rattle.pg_play.specs.Top.{SampledOrStarved, SampleIs};

use crate::ending::Ending;
use crate::program::play_script;
use pg_sample::{count_of, sample_script};
use pg_script::Script;
use std::alloc::Global;

// What comes of a script that was made, without memory too.
fn sample_or_starve<L: Drop>(alloc: Global, script: Script) -> Ending<L>
    ensures { SampledOrStarved script result }
{
    match play_script(alloc, script) {
        Ok(played) => Ending::of_sample(played),
        Err(_) => Ending::NoMemory,
    }
}

/// Plays a script of as many steps as a word says.
pub(crate) fn run_sample<L: Drop>(alloc: Global, word: &str) -> Ending<L>
    ensures { SampleIs (count_of word.now) result }
{
    match count_of(word) {
        Some(count) => match sample_script(alloc, count) {
            Ok(script) => sample_or_starve(alloc, script),
            Err(_) => Ending::NoMemory,
        },
        None => Ending::BadWords,
    }
}
