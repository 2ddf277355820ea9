//! What a state asks of the connection that is held. Each lends it once.

ghost use Rattle.std.specs.Prelude.{◌≡◌};
ghost use Rattle.pg_migrating.specs.Asking.{groups_of};

use pg_guards::PgExecutor;

/// How many transactions and savepoints are open.
pub(crate) fn depth<C: PgExecutor>(holder: &C) -> u64
    ensures { result ≡ (C.conn holder.now).rule.depth }
{
    holder.conn_ref().transaction_depth()
}

/// How many groups the call that ran last has queued.
pub(crate) fn groups<C: PgExecutor>(holder: &C) -> u64
    ensures { result ≡ groups_of (C.conn holder.now) }
{
    holder.conn_ref().progress().groups
}
