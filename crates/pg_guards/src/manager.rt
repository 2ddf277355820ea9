ghost use Rattle.std.specs.Prelude.{◌≡◌, ◌<◌, Some, IsSome, IfSome, IfOk, OnOk, IfErr};
ghost use Rattle.pg_conn.specs.Connections.{begin_of, begun_by, commit_of, rolled_back, rollback_of};
ghost use Rattle.pg_conn.specs.States.{IsCallingPlainly};

use pg_conn::{Begin, Commit, PgConnection, Rollback};
use pg_wire::{Error, Text};

/// The calls that open and end transactions, on a connection itself. Nothing rolls back by itself what they opened.
#[derive(Clone, Copy)]
pub struct PgTransactionManager;

impl PgTransactionManager {
    /// Opens a transaction, or a savepoint where one is open; where there is a text, by that. Where one is open a text is refused, since a savepoint has
    /// none of its own. (PostgreSQL manual, "SQL Commands", BEGIN, SAVEPOINT.)
    pub fn begin<L>(
        conn: &mut PgConnection<L>,
        statement: Option<Text>,
    ) -> Result<Begin<'_, L>, Error>
        ensures same { IfOk result (λ call. call.conn.ghost_name ≡ conn.entry.ghost_name) }
        ensures conn { IfOk result (λ call. call.conn.now ≡ conn.old) }
        ensures request { IfOk result (λ call. call.request ≡ Some (begin_of conn.old.rule.depth statement)) }
        ensures calling { IfOk result (λ call. IsCallingPlainly (begun_by call.request call.conn.now)) }
        ensures outside { OnOk result (IfSome statement (λ sql. conn.old.rule.depth ≡ 0)) }
        ensures err { IfErr result (λ e. (e ≡ Error.InvalidSavePointStatement) × IsSome statement × (0 < conn.old.rule.depth)) }
    {
        match statement {
            Some(sql) => conn.begin_with(sql),
            None => Ok(conn.begin()),
        }
    }

    /// Commits the transaction, or releases the last savepoint. Where none is open it only reads what is owed.
    /// (PostgreSQL manual, "SQL Commands", COMMIT, RELEASE SAVEPOINT.)
    pub fn commit<L>(conn: &mut PgConnection<L>) -> Commit<'_, L>
        ensures same { result.conn.ghost_name ≡ conn.entry.ghost_name }
        ensures conn { result.conn.now ≡ conn.old }
        ensures request { result.request ≡ Some (commit_of conn.old.rule.depth) }
        ensures calling { IsCallingPlainly (begun_by result.request result.conn.now) }
    {
        conn.commit()
    }

    /// Rolls the transaction back, or to the last savepoint. Where none is open it only reads what is owed.
    /// (PostgreSQL manual, "SQL Commands", ROLLBACK, ROLLBACK TO SAVEPOINT.)
    pub fn rollback<L>(conn: &mut PgConnection<L>) -> Rollback<'_, L>
        ensures same { result.conn.ghost_name ≡ conn.entry.ghost_name }
        ensures conn { result.conn.now ≡ conn.old }
        ensures request { result.request ≡ Some (rollback_of conn.old.rule.depth) }
        ensures calling { IsCallingPlainly (begun_by result.request result.conn.now) }
    {
        conn.rollback()
    }

    /// Rolls back without waiting: the next call sends the ROLLBACK, and reads its reply away. It takes no memory. A call that still runs is given
    /// up. Where nothing is open it does nothing else.
    pub fn start_rollback<L>(conn: &mut PgConnection<L>)
        ensures { conn.new ≡ rolled_back conn.old }
    {
        conn.start_rollback();
    }

    /// How many transactions and savepoints are open.
    pub fn get_transaction_depth<L>(conn: &PgConnection<L>) -> u64
        ensures { result ≡ conn.now.rule.depth }
    {
        conn.transaction_depth()
    }
}
