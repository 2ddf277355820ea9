use pg_options::{PgConnectOptions, PgSslMode};
use pg_stream::TlsWish;
use pg_wire::{Error, TlsCause};

/// What is to be done about TLS before the startup message.
#[derive(Clone, Copy, Debug, PartialEq, Eq)]
pub enum TlsPlan {
    /// Nothing: the connection is plain.
    Plain,
    /// An SSLRequest is sent. Where TLS is required, a server that has none is refused.
    Ask { required: bool, wish: TlsWish },
}

/// The decision on TLS that these options make.
#[derive(Drop)]
pub struct MaybeUpgradeTls<'a>(pub &'a PgConnectOptions);

impl MaybeUpgradeTls<'_> {
    ghost use Rattle.std.specs.Prelude.{◌≡◌};
    ghost use Rattle.pg_auth.specs.Tls.{tls_plan};

    /// What to do over a link that can or cannot be upgraded, and that is local or not.
    /// (PostgreSQL manual, "SSL Support", "Protection Provided in Different Modes".)
    ///
    /// `CannotUpgrade` is the only refusal: TLS is required, and the link, which is not local, cannot be upgraded.
    pub fn wants(&self, can_upgrade: bool, is_local: bool) -> Result<TlsPlan, Error>
        ensures { result ≡ tls_plan self.now.0.now.ssl_mode can_upgrade is_local }
    {
        let (required, verify_certificate, verify_host) = match self.0.get_ssl_mode() {
            PgSslMode::Disable | PgSslMode::Allow => return Ok(TlsPlan::Plain),
            PgSslMode::Prefer => (false, false, false),
            PgSslMode::Require => (true, false, false),
            PgSslMode::VerifyCa => (true, true, false),
            PgSslMode::VerifyFull => (true, true, true),
        };
        match (is_local, can_upgrade, required) {
            (true, _, _) | (false, false, false) => Ok(TlsPlan::Plain),
            (false, false, true) => Err(Error::Tls(TlsCause::CannotUpgrade)),
            (false, true, _) => Ok(TlsPlan::Ask {
                required,
                wish: TlsWish {
                    verify_certificate,
                    verify_host,
                },
            }),
        }
    }
}
