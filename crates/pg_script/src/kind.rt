ghost use Rattle.std.specs.Prelude.{◌≡◌};
ghost use Rattle.pg_script.specs.Scripts.{allows};

use crate::line::Line;

/// What a script is for, which says what lines it may have.
#[derive(Clone, Copy)]
pub(crate) enum Kind {
    /// A play over a link in memory: any line.
    Memory,
    /// A play over a real link: the polls of start-up, and steps.
    Live,
}

impl Kind {
    pub(crate) fn allows(self, line: &Line) -> bool
        ensures { result ≡ allows self line.now }
    {
        match self {
            Kind::Memory => true,
            Kind::Live => match line {
                Line::Blank | Line::Start(_) | Line::Step { .. } => true,
                _ => false,
            },
        }
    }
}
