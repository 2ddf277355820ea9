ghost use Rattle.std.specs.Prelude.{◌≡◌, IfOk, IfErr};
ghost use Rattle.pg_auth.specs.Nonce.{IsNonce};
ghost use Rattle.pg_startup.specs.Establishing.{IsBeginning, Begins, IsPrepared, RefusesPreparing, RefusesStart};

use crate::client::Client;
use crate::parameters::startup_message;
use crate::starting::Establish;
use pg_auth::{MaybeUpgradeTls, TlsPlan};
use pg_options::PgConnectOptions;
use pg_stream::Link;
use pg_wire::{Blob, Error};
use std::alloc::Global;
use std::marker::Model;

/// What is prepared for a start-up before its link is touched.
#[derive(Drop)]
struct Prepared {
    client: Client,
    plan: TlsPlan,
    message: Blob,
}

impl Model for Prepared {
    ghost use Rattle.pg_startup.specs.Establishing.{PreparedSeen};

    ghost Value = { PreparedSeen };

    ghost view = { λ p. record { client = p.client; plan = p.plan; message = p.message } };
}

// What a start-up with these options needs, where TLS is wanted so.
fn prepare(
    alloc: Global,
    options: &PgConnectOptions,
    nonce: &[u8],
    wants: Result<TlsPlan, Error>,
) -> Result<Prepared, Error>
    requires { IsNonce nonce.now }
    ensures ok { IfOk result (IsPrepared options.now nonce.now wants) }
    ensures err { IfErr result (RefusesPreparing options.now wants) }
{
    let message = startup_message(alloc, options)?;
    let plan = wants?;
    let client = Client::new(alloc, options, nonce)?;
    Ok(Prepared {
        client,
        plan,
        message,
    })
}

impl Prepared {
    // Begins a start-up over a link.
    fn over<L>(self, alloc: Global, link: L) -> Result<Establish<L>, (Error, L)>
        ensures ok { IfOk result (IsBeginning link self.client self.plan self.message) }
        ensures err { IfErr result (λ e. (e.0 ≡ Error.OutOfMemory) × (e.1 ≡ link)) }
    {
        let Prepared {
            client,
            plan,
            message,
        } = self;
        Establish::begin(alloc, link, client, plan, message)
    }
}

/// Begins a start-up over a link. The refusals that need no server come at once, before the link is touched, and hand the link
/// back: a text with a zero byte (`Configuration`), one that is too long (`TooLong`), and then a link that can't be upgraded where
/// the options require TLS (`CannotUpgrade`). (PostgreSQL manual, "Message Flow", "Start-up" and "SSL Session Encryption".)
pub fn establish<L: Link>(
    alloc: Global,
    options: &PgConnectOptions,
    nonce: &[u8],
    link: L,
) -> Result<Establish<L>, (Error, L)>
    requires { IsNonce nonce.now }
    ensures ok { IfOk result (Begins options.now nonce.now (L.seen link).plan link) }
    ensures err { IfErr result (λ e. RefusesStart options.now (L.seen link).plan e.0 × (e.1 ≡ link)) }
{
    let wants = MaybeUpgradeTls(options).wants(link.can_upgrade(), link.is_local());
    match prepare(alloc, options, nonce, wants) {
        Ok(prepared) => prepared.over(alloc, link),
        Err(e) => Err((e, link)),
    }
}
