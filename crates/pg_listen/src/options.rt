ghost use Rattle.std.specs.Prelude.{◌≡◌, ◌<◌, IfOk, IfErr, vec_len};
ghost use Rattle.pg_wire.specs.declared.error.Error.TheVariants.{OutOfMemory};
ghost use Rattle.pg_pool.specs.Pools.{new_seats, told_seats};

use crate::PgPool;
use pg_options::PgConnectOptions;
use pg_pool::{Pool, PoolLedger, PoolSeat};
use pg_stream::Link;
use pg_wire::Error;
use std::alloc::Global;
use std::sync::ledger::Blank;

/// How a pool is built.
#[derive(Clone, Copy, Debug, PartialEq, Eq)]
pub struct PgPoolOptions {
    max: u32,
}

impl PgPoolOptions {
    /// At most ten connections.
    pub fn new() -> Self
        ensures { result.max ≡ 10 }
    {
        PgPoolOptions { max: 10 }
    }

    /// At most so many connections are out or idle.
    pub fn max_connections(self, max: u32) -> Self
        requires { 0 < max }
        ensures { result.max ≡ max }
    {
        PgPoolOptions { max }
    }

    /// A pool of this name without a connection, and so many participants. The ledger has a part for each.
    pub fn build<G: PoolLedger, L: Link + Send>(
        self,
        alloc: Global,
        name: u64,
        options: PgConnectOptions,
        seats: u32,
        blank: Blank,
    ) -> Result<(PgPool<G, L>, Vec<PoolSeat<G>>), Error>
        requires some { 0 < seats }
        requires most { self.max ≡ G.most }
        requires ledger { blank.name ≡ G.name }
        requires parts { (blank.parts ≡ G.parts) × (blank.parts ≡ seats) }
        ensures pool { IfOk result (λ r. r.0 ≡ record { name = name; options = options }) }
        ensures seats { IfOk result (λ r. (told_seats r.1.items ≡ new_seats name seats) × (vec_len r.1 ≡ seats)) }
        ensures err { IfErr result (λ e. e ≡ OutOfMemory) }
    {
        Ok(Pool::build(alloc, name, options, self.max, seats, blank)?)
    }
}
