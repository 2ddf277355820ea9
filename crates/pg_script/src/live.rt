ghost use Rattle.std.specs.Prelude.{◌≡◌};
ghost use Rattle.pg_script.specs.Scripts.{live_part};

use crate::script::Script;
use crate::step::Step;
use pg_wire::Sequence;

/// What is to be played over a real link.
#[derive(Debug, Drop)]
pub struct LiveScript {
    /// The polls that start-up has at most, where the script says them.
    pub start_polls: Option<u32>,
    pub steps: Sequence<Step>,
}

impl LiveScript {
    pub(crate) fn of(script: Script) -> Self
        ensures { result ≡ live_part script }
    {
        LiveScript {
            start_polls: script.start_polls,
            steps: script.steps,
        }
    }
}
