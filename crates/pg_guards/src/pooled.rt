ghost use Rattle.std.specs.Prelude.{◌≡◌};
ghost use Rattle.std.proofs.Common.{ap};

use crate::PgExecutor;
use pg_conn::PgConnection;
use pg_pool::PoolConnection;

impl<C: PgExecutor> PgExecutor for PoolConnection<C> {
    type L = C::L;

    ghost conn = { λ p. C.conn p.conn };

    ghost with_conn = { λ p w. record p { conn = C.with_conn p.conn w } };

    ghost written = { λ p w. C.written p.conn w };

    ghost unwritten = { λ p. ap (λ c. record p { conn = c }) (C.unwritten p.conn) };

    ghost overwritten = { λ p v w. ap (λ c. record p { conn = c }) (C.overwritten p.conn v w) };

    fn conn_ref(&self) -> &PgConnection<C::L> {
        self.conn.conn_ref()
    }

    fn conn_mut(&mut self) -> &mut PgConnection<C::L> {
        self.conn.conn_mut()
    }
}
