//! A listener on a pool of its own.
ghost use Rattle.std.specs.Prelude.{◌≡◌, ◌⊎◌, Err, IfErr, IfOk};
ghost use Rattle.pg_options.specs.FromUrl.{options_of_text};
ghost use Rattle.pg_wire.specs.declared.error.Error.TheVariants.{OutOfMemory};
ghost use Rattle.pg_listening.specs.Listeners.{BeginsAlone, IsFirst};

use crate::{Connect, connect_with};
use pg_conn::Dial;
use pg_listen::{PgPool, PgPoolOptions, PoolLedger, PoolSeat};
use pg_options::{PgConnectOptions, PgSettings};
use pg_stream::Link;
use pg_wire::Error;
use std::alloc::Global;
use std::sync::ledger::Blank;

// A pool of one connection, and its one participant.
fn pool_of_one<G: PoolLedger, L: Link + Send>(
    alloc: Global,
    name: u64,
    options: PgConnectOptions,
    blank: Blank,
) -> Result<(PgPool<G, L>, PoolSeat<G>), Error>
    requires most { G.most ≡ 1 }
    requires ledger { blank.name ≡ G.name }
    requires parts { (blank.parts ≡ G.parts) × (blank.parts ≡ 1) }
    ensures pool { IfOk result (λ r. r.0 ≡ record { name = name; options = options }) }
    ensures seat { IfOk result (λ r. IsFirst name r.1) }
    ensures err { IfErr result (λ e. e ≡ OutOfMemory) }
{
    let of_one = PgPoolOptions::new().max_connections(1);
    match of_one.build(alloc, name, options, 1, blank) {
        Ok((pool, seats)) => {
            let mut seats = seats;
            match seats.pop() {
                Some(seat) => Ok((pool, seat)),
                None => unreachable!(),
            }
        }
        Err(e) => Err(e),
    }
}

/// A listener on a pool of its own, of one connection. Nobody else can close that pool, so a close of it is ignored. The ledger has one part. Where the
/// URL can't be read, the dial is handed back.
pub fn connect<G: PoolLedger, D: Dial>(
    alloc: Global,
    name: u64,
    env: &PgSettings,
    url: &str,
    blank: Blank,
    dial: D,
) -> Result<Connect<G, PgPool<G, D::L>, PoolSeat<G>, D>, (Error, D)>
where
    D::L: Send,
    requires most { G.most ≡ 1 }
    requires ledger { blank.name ≡ G.name }
    requires parts { (blank.parts ≡ G.parts) × (blank.parts ≡ 1) }
    ensures ok { IfOk result (λ c. BeginsAlone D.seen G.most name (options_of_text env.now url.now) dial c.listener c.is_over) }
    ensures err { IfErr result (λ e. (e.1 ≡ dial) × ((options_of_text env.now url.now ≡ Err e.0) ⊎ (e.0 ≡ OutOfMemory))) }
{
    let options = match PgConnectOptions::from_str(alloc, env, url) {
        Ok(options) => options,
        Err(e) => return Err((e, dial)),
    };
    match pool_of_one(alloc, name, options, blank) {
        Ok((pool, seat)) => {
            let mut state = connect_with(alloc, pool, seat, dial);
            state.ignore_close();
            Ok(state)
        }
        Err(e) => Err((e, dial)),
    }
}
