ghost use Rattle.std.specs.Prelude.{◌≡◌};
ghost use Rattle.pg_play.specs.Commands.{plain_command, argued_command};

/// What a command line of one word asks for.
#[derive(Clone, Copy, Debug, PartialEq, Eq)]
pub(crate) enum Command {
    Script,
    Help,
    Version,
    Unknown,
}

/// What a command line of a word and its argument asks for.
#[derive(Clone, Copy, Debug, PartialEq, Eq)]
pub(crate) enum Argued {
    Options,
    Live,
    Sample,
    Key,
    Unknown,
}

impl Argued {
    pub(crate) fn of(word: &str) -> Self
        ensures { result ≡ argued_command word.now }
    {
        if word == "options" {
            Argued::Options
        } else if word == "live" {
            Argued::Live
        } else if word == "sample" {
            Argued::Sample
        } else if word == "key" {
            Argued::Key
        } else {
            Argued::Unknown
        }
    }
}

impl Command {
    pub(crate) fn of(word: &str) -> Self
        ensures { result ≡ plain_command word.now }
    {
        if word == "script" {
            Command::Script
        } else if word == "--help" {
            Command::Help
        } else if word == "--version" {
            Command::Version
        } else {
            Command::Unknown
        }
    }
}
