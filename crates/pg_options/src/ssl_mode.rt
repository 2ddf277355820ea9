ghost use Rattle.std.specs.Prelude.{◌≡◌};
ghost use Rattle.pg_options.specs.SslModes.{ssl_mode_name, ssl_mode_from};

use pg_wire::{ConfigPart, Error};
use std::str::FromStr;

/// Whether TLS is asked for, and what it must verify (PostgreSQL manual, "SSL Support", "Protection Provided in Different Modes").
#[derive(Clone, Copy, Debug, Default, PartialEq, Eq)]
pub enum PgSslMode {
    /// Never.
    Disable,
    /// Only where the server insists: here, never.
    Allow,
    /// Where the link and the server can.
    #[default]
    Prefer,
    /// Always; nothing is verified.
    Require,
    /// Always, with a certificate that the root signed.
    VerifyCa,
    /// The same, and the host's name stands in it.
    VerifyFull,
}

impl PgSslMode {
    /// The mode of this name, in any ASCII case: `disable`, `allow`, `prefer`, `require`, `verify-ca` or `verify-full`.
    #[tactic(auto, unfolding(crate::specs::SslModes::ssl_mode_from))]
    pub fn from_name(name: &str) -> Option<Self>
        ensures { result ≡ ssl_mode_from name.now }
    {
        if name.eq_ignore_ascii_case("disable") {
            Some(PgSslMode::Disable)
        } else if name.eq_ignore_ascii_case("allow") {
            Some(PgSslMode::Allow)
        } else if name.eq_ignore_ascii_case("prefer") {
            Some(PgSslMode::Prefer)
        } else if name.eq_ignore_ascii_case("require") {
            Some(PgSslMode::Require)
        } else if name.eq_ignore_ascii_case("verify-ca") {
            Some(PgSslMode::VerifyCa)
        } else if name.eq_ignore_ascii_case("verify-full") {
            Some(PgSslMode::VerifyFull)
        } else {
            None
        }
    }

    /// The name of the mode, as a URL has it.
    pub fn name(self) -> &'static str
        ensures { result.now ≡ ssl_mode_name self }
    {
        match self {
            PgSslMode::Disable => "disable",
            PgSslMode::Allow => "allow",
            PgSslMode::Prefer => "prefer",
            PgSslMode::Require => "require",
            PgSslMode::VerifyCa => "verify-ca",
            PgSslMode::VerifyFull => "verify-full",
        }
    }
}

/// `from_name`, where an unknown name is `Configuration` with part `SslMode` and place 0.
impl FromStr for PgSslMode {
    ghost use Rattle.std.specs.Prelude.{◌≡◌, ok_or};
    ghost use Rattle.pg_wire.specs.declared.error.Error.TheVariants.{Configuration};
    ghost use Rattle.pg_wire.specs.declared.error.ConfigPart.TheVariants as parts;
    ghost use Rattle.pg_options.specs.SslModes.{ssl_mode_from};

    type Err = Error;

    ghost from_str_gives = { λ name r. r ≡ ok_or (ssl_mode_from name) (Configuration parts.SslMode 0) };

    fn from_str(name: &str) -> Result<Self, Error> {
        match PgSslMode::from_name(name) {
            Some(mode) => Ok(mode),
            None => Err(Error::Configuration {
                part: ConfigPart::SslMode,
                place: 0,
            }),
        }
    }
}
