ghost use Rattle.std.specs.Prelude.{◌≡◌, IfOk, IfErr};
ghost use Rattle.pg_auth.specs.Nonce.{IsNonce};
ghost use Rattle.pg_startup.specs.Establishing.{Begins, RefusesStart};

use crate::Establish;
use pg_options::PgConnectOptions;
use pg_stream::Link;
use pg_wire::Error;
use std::alloc::Global;

/// Begins a start-up over a link. The refusals that need no server come at once, before the link is touched, and hand the link
/// back: a text with a zero byte (`Configuration`), one that is too long (`TooLong`), and then a link that can't be upgraded where
/// the options require TLS (`CannotUpgrade`). The nonce is the client's for SCRAM. The connection may keep as many statements as the options
/// say, and 65536 at most. (PostgreSQL manual, "Message Flow", "Start-up" and
/// "SSL Session Encryption".)
pub fn establish<L: Link>(
    alloc: Global,
    options: &PgConnectOptions,
    nonce: &[u8],
    link: L,
) -> Result<Establish<L>, (Error, L)>
    requires { IsNonce nonce.now }
    ensures ok { IfOk result (λ e. Begins options.now nonce.now (L.seen link).plan link e.startup) }
    ensures capacity { IfOk result (λ e. e.capacity ≡ options.now.statement_cache_capacity) }
    ensures err { IfErr result (λ e. RefusesStart options.now (L.seen link).plan e.0 × (e.1 ≡ link)) }
{
    match pg_startup::establish(alloc, options, nonce, link) {
        Ok(startup) => Ok(Establish::over(alloc, options.get_cache_capacity(), startup)),
        Err(refused) => Err(refused),
    }
}
