ghost use Rattle.std.specs.Prelude.{◌≡◌, true, false, Some};
ghost use Rattle.std.proofs.Common.{ap};
ghost use Rattle.pg_request.specs.Queries.{plain_text};
ghost use Rattle.pg_call.specs.declared.request.Request.TheVariants as requests;
ghost use Rattle.pg_conn.specs.Connections.{begun_by, commit_of, rolled_back, rollback_of};
ghost use Rattle.pg_conn.specs.States.{IsCallingPlainly};
ghost use Rattle.pg_guards.specs.Holders.{IsBeginning};

use crate::holding::roll_back;
use crate::{BeginTransaction, EndTransaction, PgExecutor};
use pg_conn::{PgConnection, Query, Request, commit_request, rollback_request};
use pg_wire::Text;

/// A transaction, or a savepoint in one, that is open on the connection which `C` holds. Only a begin that was answered Ok makes one. It is
/// left by `commit` or `rollback`; where it is dropped instead, what it opened is rolled back without waiting: the ROLLBACK is queued, the next call
/// on the connection sends it, and no memory is taken. (PostgreSQL manual, "Tutorial", "Transactions"; "SQL Commands", BEGIN, SAVEPOINT.)
pub struct Transaction<C: PgExecutor> {
    conn: C,
}

/// A transaction on a connection that is borrowed.
pub type PgTransaction<'c, L> = Transaction<&'c mut PgConnection<L>>;

impl<C: PgExecutor> Transaction<C> {
    /// Opens a transaction, or a savepoint where one is open. (PostgreSQL manual, "SQL Commands", BEGIN, SAVEPOINT.)
    pub fn begin(conn: C) -> BeginTransaction<C>
        ensures conn { result.conn ≡ Some conn }
        ensures request { result.request ≡ Some (requests.Begin (C.conn conn).rule.depth) }
        ensures refused { result.is_refused ≡ false }
        ensures calling { IsBeginning C.conn result.request result.conn }
    {
        let request = Request::Begin(conn.conn_ref().transaction_depth());
        BeginTransaction {
            conn: Some(conn),
            request: Some(request),
            is_refused: false,
        }
    }

    /// Opens a transaction by this text. Where one is open the first poll refuses it, since a savepoint has no text of its own.
    /// (PostgreSQL manual, "SQL Commands", BEGIN.)
    pub fn begin_with(conn: C, sql: Text) -> BeginTransaction<C>
        ensures conn { result.conn ≡ Some conn }
        ensures request { result.request ≡ Some (requests.BeginWith (plain_text sql)) }
        ensures refused { result.is_refused ≡ false }
        ensures calling { IsBeginning C.conn result.request result.conn }
    {
        BeginTransaction {
            conn: Some(conn),
            request: Some(Request::BeginWith(Query::from_text(sql))),
            is_refused: false,
        }
    }

    /// The guard of what a begin has opened on what is held.
    pub(crate) fn over(conn: C) -> Self
        ensures { result ≡ record { conn = conn } }
    {
        Transaction { conn }
    }

    /// Commits the transaction, or releases its savepoint. (PostgreSQL manual, "SQL Commands", COMMIT, RELEASE SAVEPOINT.)
    pub fn commit(self) -> EndTransaction<C>
        ensures conn { result.conn ≡ self.conn }
        ensures request { result.request ≡ Some (commit_of (C.conn self.conn).rule.depth) }
        ensures due { result.is_due ≡ true }
        ensures calling { IsCallingPlainly (begun_by result.request (C.conn result.conn)) }
    {
        let Transaction { conn } = self;
        let request = commit_request(conn.conn_ref().transaction_depth());
        EndTransaction {
            conn,
            request: Some(request),
            is_due: true,
        }
    }

    /// Rolls the transaction back, or what was done behind its savepoint.
    /// (PostgreSQL manual, "SQL Commands", ROLLBACK, ROLLBACK TO SAVEPOINT.)
    pub fn rollback(self) -> EndTransaction<C>
        ensures conn { result.conn ≡ self.conn }
        ensures request { result.request ≡ Some (rollback_of (C.conn self.conn).rule.depth) }
        ensures due { result.is_due ≡ true }
        ensures calling { IsCallingPlainly (begun_by result.request (C.conn result.conn)) }
    {
        let Transaction { conn } = self;
        let request = rollback_request(conn.conn_ref().transaction_depth());
        EndTransaction {
            conn,
            request: Some(request),
            is_due: true,
        }
    }

    /// Rolls back what it opened, as its drop does, and hands back what holds the connection.
    /// (PostgreSQL manual, "SQL Commands", ROLLBACK, ROLLBACK TO SAVEPOINT.)
    pub fn into_conn(self) -> C
        ensures { result ≡ C.with_conn self.conn (rolled_back (C.conn self.conn)) }
    {
        let Transaction { conn } = self;
        roll_back(conn)
    }
}

impl<C: PgExecutor + Drop> Drop for Transaction<C> {
    fn drop(self) {
        let conn = self.into_conn();
        let _ = conn;
    }
}

impl<C: PgExecutor> PgExecutor for Transaction<C> {
    type L = C::L;

    ghost conn = { λ t. C.conn t.conn };

    ghost with_conn = { λ t w. record { conn = C.with_conn t.conn w } };

    ghost written = { λ t w. C.written t.conn w };

    ghost unwritten = { λ t. ap (λ c. record { conn = c }) (C.unwritten t.conn) };

    ghost overwritten = { λ t v w. ap (λ c. record { conn = c }) (C.overwritten t.conn v w) };

    fn conn_ref(&self) -> &PgConnection<C::L> {
        self.conn.conn_ref()
    }

    fn conn_mut(&mut self) -> &mut PgConnection<C::L> {
        self.conn.conn_mut()
    }
}
