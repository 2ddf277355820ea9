//! What is written of a connection.

use pg_guards::PgExecutor;
use std::fmt::Write;

/// How far the last call has come, and how many locks are held by guards.
pub(crate) fn push_progress<C: PgExecutor>(holder: &C, told: &mut String) {
    let conn = holder.conn_ref();
    let progress = conn.progress();
    let _ = write!(
        told,
        " groups {} heard {} waits {} moved {} held {}",
        progress.groups,
        progress.heard,
        progress.waits,
        progress.moved,
        conn.held_locks()
    );
}
