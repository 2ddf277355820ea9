//! The room for the release of a lock, on the connection that is to hold it.
ghost use Rattle.std.specs.Prelude.{◌≡◌, None, OnErr, OnOk, IfErr};
ghost use Rattle.pg_conn.specs.Holding.{gave_up};
ghost use Rattle.pg_locking.specs.Locking.{release_if};
ghost use Rattle.pg_locking.specs.Rooms.{IsHeld, IsHeldFor, IsUnheld, given_if};

use pg_conn::PgConnection;
use pg_locks::PgAdvisoryLockKey;
use pg_wire::Error;

/// Counts one guard more, and keeps room for its release.
pub(crate) fn hold<L>(conn: &mut PgConnection<L>) -> Result<(), Error>
    ensures ok { OnOk result (IsHeld conn.old conn.new) }
    ensures err { OnErr result (IsUnheld conn.old conn.new) }
    ensures memory { IfErr result (λ e. e ≡ Error.OutOfMemory) }
{
    match conn.hold() {
        Ok(()) => Ok(()),
        Err(e) => Err(e),
    }
}

/// The same where a guard is to be.
pub(crate) fn hold_for<L>(conn: &mut PgConnection<L>, holds: bool) -> Result<(), Error>
    ensures ok { OnOk result (IsHeldFor holds conn.old conn.new) }
    ensures err { OnErr result (IsUnheld conn.old conn.new) }
    ensures memory { IfErr result (λ e. e ≡ Error.OutOfMemory) }
{
    if holds { hold(conn) } else { Ok(()) }
}

/// Gives that room up, where it was kept.
pub(crate) fn give_back<L>(conn: &mut PgConnection<L>, holds: bool)
    ensures { conn.new ≡ given_if holds conn.old }
{
    if holds {
        conn.give_up_held(None);
    }
}

/// Gives the running call up, and the room of its guard. Where it is due, the lock is released.
pub(crate) fn give_up<L>(conn: &mut PgConnection<L>, key: PgAdvisoryLockKey, due: bool)
    ensures { conn.new ≡ gave_up (release_if due key) conn.old }
{
    if due {
        let text = key.unlock_query();
        conn.give_up_held(Some(text.as_str()));
    } else {
        conn.give_up_held(None);
    }
}
