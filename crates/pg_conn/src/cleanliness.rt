ghost use Rattle.std.specs.Prelude.{◌≡◌};
ghost use Rattle.pg_conn.specs.Cleanliness.{is_clean};

use crate::PgConnection;
use pg_pool::Pooled;

impl<L> PgConnection<L> {
    /// Whether nothing of what was done on it is left, so that somebody else may have it: the server has not broken it, no reply is owed,
    /// all bytes are sent, no call runs, no lock is held by a guard, and no transaction is open.
    pub fn is_clean(&self) -> bool
        ensures { result ≡ is_clean self.now }
    {
        self.broken.is_none()
            && self.running.ledger.owed == 0
            && !self.should_flush()
            && !self.is_running()
            && self.held == 0
            && self.transaction_depth() == 0
    }
}

// A pool keeps connections that are clean.
impl<L> Pooled for PgConnection<L> {
    ghost clean = { λ c. is_clean c };

    fn is_clean(&self) -> bool {
        PgConnection::is_clean(self)
    }
}
