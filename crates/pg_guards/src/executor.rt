ghost use Rattle.std.specs.Prelude.{◌≡◌, refl};
ghost use Rattle.std.specs.Borrow.{sem, Lends};
ghost use denote.Ref.{at_last};
ghost use Rattle.std.proofs.Common.{ap};

use pg_conn::PgConnection;
use pg_stream::Link;

/// What holds a connection: the connection itself, a mutable reference to a holder, or a guard. A guard that is generic over its holder
/// works on any of them.
pub trait PgExecutor {
    ghost use Rattle.pg_conn.specs.Connections.{ConnOf};
    ghost use Rattle.pg_conn.specs.contracts.connection.PgConnection.{the_row};

    /// The link under the connection.
    type L: Link;

    /// The connection that it holds.
    ghost conn: { Self → ConnOf Self.L };

    /// The same holder, of another connection.
    ghost with_conn: { Self → ConnOf Self.L → Self };

    /// The connection, to look at.
    fn conn_ref(&self) -> &PgConnection<Self::L>
        ensures { result.now ≡ conn self.now };

    /// The connection, to work with: what is done to it is done to the holder's, and nothing else of the holder changes.
    fn conn_mut(&mut self) -> &mut PgConnection<Self::L>
        ensures* lends { sem 𝓛 (Lends Self.row (the_row Self.L.row) self.entry result (with_conn self.old)) }
        ensures value { result.now ≡ conn self.old };

    ghost written: { (x : Self) (w : ConnOf Self.L) → conn (with_conn x w) ≡ w };

    ghost unwritten: { (x : Self) → with_conn x (conn x) ≡ x };

    ghost overwritten: { (x : Self) (v w : ConnOf Self.L) → with_conn (with_conn x v) w ≡ with_conn x w };
}

impl<L: Link> PgExecutor for PgConnection<L> {
    type L = L;

    ghost conn = { λ c. c };

    ghost with_conn = { λ _ w. w };

    ghost written = { λ _ _. refl };

    ghost unwritten = { λ _. refl };

    ghost overwritten = { λ _ _ _. refl };

    fn conn_ref(&self) -> &PgConnection<L> {
        self
    }

    fn conn_mut(&mut self) -> &mut PgConnection<L> {
        self
    }
}

impl<C: PgExecutor> PgExecutor for &mut C {
    type L = C::L;

    ghost conn = { λ r. C.conn r.now };

    ghost with_conn = { λ r w. at_last r (C.with_conn r.now w) };

    ghost written = { λ r w. C.written r.now w };

    ghost unwritten = { λ r. ap (λ x. at_last r x) (C.unwritten r.now) };

    ghost overwritten = { λ r v w. ap (λ x. at_last r x) (C.overwritten r.now v w) };

    fn conn_ref(&self) -> &PgConnection<C::L> {
        (**self).conn_ref()
    }

    fn conn_mut(&mut self) -> &mut PgConnection<C::L> {
        (**self).conn_mut()
    }
}
