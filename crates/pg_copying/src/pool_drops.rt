//! What a caller knows of a copy over a pool that is given up: each law as the contract of the shortest user.
ghost use Rattle.std.specs.Prelude.{◌≡◌, None, Some, IfSome};
ghost use Rattle.pg_conn.specs.Cleanliness.{is_clean};
ghost use Rattle.pg_conn.specs.Feeding.{IsFed};
ghost use Rattle.pg_copying.specs.PoolCopies.{ReleasesIfHeld, ReleasesTo, left_conn, left_held};

use crate::{BeginCopyIn, PgCopyIn, copy_in_raw};
use pg_guards::{CopyOut, PgExecutor, copy_out_raw};
use pg_listen::PgPool;
use pg_pool::{Pool, PoolConnection, PoolLedger, PoolSeat, Pooled, Released};
use pg_stream::Link;
use pg_wire::Text;
use std::sync::Wait;

/// A copy from the client that is never polled hands back what holds its connection as it was: what a pool handed out as well as any other.
pub fn a_copy_in_that_is_never_polled<C: PgExecutor>(held: C, statement: Text) -> Option<C>
    ensures { result ≡ Some held }
{
    copy_in_raw(held, statement).into_conn()
}

/// So does one to the client.
pub fn a_copy_out_that_is_never_polled<C: PgExecutor>(held: C, statement: Text) -> C
    ensures { result ≡ held }
{
    copy_out_raw(held, statement).into_conn()
}

/// A copy from the client that is given up before it is open, and whose connection is released: the pool is given what the drop of a call's state leaves, and keeps that
/// only where it is clean.
pub fn a_copy_in_that_is_given_up<G: PoolLedger, C: PgExecutor + Pooled, O>(
    rt: &impl Wait,
    pool: &Pool<G, C, O>,
    seat: &mut PoolSeat<G>,
    copy: BeginCopyIn<PoolConnection<C>>,
) -> Option<Released<C>>
    requires mine { IfSome copy.conn (λ held. held.name ≡ pool.now.name) }
    requires theirs { seat.old.name ≡ pool.now.name }
    ensures seat { seat.new.name ≡ seat.old.name }
    ensures releases { ReleasesIfHeld C.clean G.most seat.old seat.new (left_held C.conn C.with_conn copy.request) copy.conn result }
{
    match copy.into_conn() {
        Some(held) => Some(held.release(rt, pool, seat)),
        None => None,
    }
}

/// The same of a copy to the client, at whatever piece it stands.
pub fn a_copy_out_that_is_given_up<G: PoolLedger, C: PgExecutor + Pooled, O>(
    rt: &impl Wait,
    pool: &Pool<G, C, O>,
    seat: &mut PoolSeat<G>,
    copy: CopyOut<PoolConnection<C>>,
) -> Released<C>
    requires mine { copy.conn.name ≡ pool.now.name }
    requires theirs { seat.old.name ≡ pool.now.name }
    ensures seat { seat.new.name ≡ seat.old.name }
    ensures releases { ReleasesTo C.clean G.most seat.old seat.new (left_held C.conn C.with_conn copy.request copy.conn) result }
{
    copy.into_conn().release(rt, pool, seat)
}

/// A copy from the client that is open and is given up: its reply stays owed, so the pool never keeps the connection.
pub fn an_open_copy_that_is_given_up<G: PoolLedger, L: Link>(
    rt: &impl Wait,
    pool: &PgPool<G, L>,
    seat: &mut PoolSeat<G>,
    copy: PgCopyIn<pg_listen::PoolConnection<L>>,
) -> pg_listen::Released<L>
    requires open { IsFed copy.conn.conn }
    requires mine { copy.conn.name ≡ pool.now.name }
    requires theirs { seat.old.name ≡ pool.now.name }
    ensures seat { seat.new.name ≡ seat.old.name }
    ensures releases { ReleasesTo is_clean G.most seat.old seat.new (left_conn None copy.conn) result }
    ensures handed { result ≡ Released.Kept → ⊥ }
{
    copy.into_conn().release(rt, pool, seat)
}
