ghost use Rattle.std.specs.Prelude.{◌≡◌, Some, IfOk};
ghost use Rattle.pg_call.specs.declared.kind.Kind.TheVariants as kinds;
ghost use Rattle.pg_conn.specs.Connections.{begun_by};
ghost use Rattle.pg_conn.specs.States.{IsCalling};
ghost use Rattle.pg_copying.specs.Copies.{IsOpening};
ghost use Rattle.pg_copying.specs.PoolCopies.{AcquiresFor, BegunOver, IfStarted, IsNewCopyIn, IsNewCopyOut, IsOfPool};

use crate::{BeginCopyIn, copy_in_raw};
use pg_guards::{CopyOut, PgExecutor, copy_out_raw};
use pg_pool::{Acquired, Pool, PoolConnection, PoolLedger, PoolSeat, Pooled, Ticket};
use pg_wire::{Error, Text};
use std::sync::Wait;

/// A copy over a pool.
pub enum PoolCopy<S> {
    /// Its state, over a connection that was idle, and is clean. It must be spent, by its `into_conn`.
    Started(S),
    /// Leave to make a connection, on which the copy may then begin.
    New(Ticket),
}

/// Copies that take their connection out of a pool.
pub trait PgPoolCopyExt {
    ghost use Rattle.std.specs.Prelude.{ℕ};

    /// The ledger of the pool.
    type G: PoolLedger;

    /// What the pool keeps.
    type C: PgExecutor + Pooled;

    /// The name of the pool.
    ghost name: { Self → ℕ };

    /// Acquires as `Pool::acquire` does, with its refusals and in one critical section. Where a connection is idle it is handed to `copy_in_raw` of this crate,
    /// whose state does nothing before its first poll.
    fn copy_in_raw(
        &self,
        rt: &impl Wait,
        seat: &mut PoolSeat<Self::G>,
        statement: Text,
    ) -> Result<PoolCopy<BeginCopyIn<PoolConnection<Self::C>>>, Error>
        requires { seat.old.name ≡ name self.now }
        ensures named { IfOk result (IsOfPool (name self.now) (λ s. s.conn)) }
        ensures calling { IfOk result (IfStarted (λ s. IsOpening (λ p. Self.C.conn p.conn) s.request s.conn)) }
        ensures seat { seat.new.name ≡ seat.old.name }
        ensures acquires { AcquiresFor Self.C.clean Self.G.most seat.old seat.new result (IsNewCopyIn statement) };

    /// The same with `copy_out_raw` of `pg_guards`.
    fn copy_out_raw(
        &self,
        rt: &impl Wait,
        seat: &mut PoolSeat<Self::G>,
        statement: Text,
    ) -> Result<PoolCopy<CopyOut<PoolConnection<Self::C>>>, Error>
        requires { seat.old.name ≡ name self.now }
        ensures named { IfOk result (IsOfPool (name self.now) (λ s. Some s.conn)) }
        ensures calling { IfOk result (IfStarted (λ s. IsCalling kinds.CopyOut (begun_by s.request (Self.C.conn s.conn.conn)))) }
        ensures seat { seat.new.name ≡ seat.old.name }
        ensures acquires { AcquiresFor Self.C.clean Self.G.most seat.old seat.new result (λ held s. IsNewCopyOut statement held s.conn s.request) };
}

// A copy from the client over a connection that was idle, or leave.
fn begin_in<C: PgExecutor + Pooled>(
    acquired: Acquired<C>,
    statement: Text,
) -> PoolCopy<BeginCopyIn<PoolConnection<C>>>
    ensures over { BegunOver acquired result (IsNewCopyIn statement) }
    ensures calling { IfStarted (λ s. IsOpening (λ p. C.conn p.conn) s.request s.conn) result }
{
    match acquired {
        Acquired::Idle(held) => PoolCopy::Started(copy_in_raw(held, statement)),
        Acquired::New(ticket) => PoolCopy::New(ticket),
    }
}

// The same to the client.
fn begin_out<C: PgExecutor + Pooled>(
    acquired: Acquired<C>,
    statement: Text,
) -> PoolCopy<CopyOut<PoolConnection<C>>>
    ensures over { BegunOver acquired result (λ held s. IsNewCopyOut statement held s.conn s.request) }
    ensures calling { IfStarted (λ s. IsCalling kinds.CopyOut (begun_by s.request (C.conn s.conn.conn))) result }
{
    match acquired {
        Acquired::Idle(held) => PoolCopy::Started(copy_out_raw(held, statement)),
        Acquired::New(ticket) => PoolCopy::New(ticket),
    }
}

impl<G: PoolLedger, C: PgExecutor + Pooled, O> PgPoolCopyExt for Pool<G, C, O> {
    type G = G;

    type C = C;

    ghost name = { λ p. p.name };

    fn copy_in_raw(
        &self,
        rt: &impl Wait,
        seat: &mut PoolSeat<G>,
        statement: Text,
    ) -> Result<PoolCopy<BeginCopyIn<PoolConnection<C>>>, Error> {
        match self.acquire(rt, seat) {
            Ok(acquired) => Ok(begin_in(acquired, statement)),
            Err(e) => Err(e),
        }
    }

    fn copy_out_raw(
        &self,
        rt: &impl Wait,
        seat: &mut PoolSeat<G>,
        statement: Text,
    ) -> Result<PoolCopy<CopyOut<PoolConnection<C>>>, Error> {
        match self.acquire(rt, seat) {
            Ok(acquired) => Ok(begin_out(acquired, statement)),
            Err(e) => Err(e),
        }
    }
}
