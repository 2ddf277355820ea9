//! The guards of advisory locks that a play has, as their keys in order, and the room that is kept for their releases.
ghost use Rattle.std.specs.Prelude.{◌≡◌, ◌<◌, ◌↔◌, true, IsTrue, length, vec_capacity};
ghost use Rattle.pg_conn.specs.Connections.{seen_by};
ghost use Rattle.pg_play.specs.Locks.{IsFirstAt, is_had};
ghost use Rattle.pg_play.specs.Plays.{KeepsRoom};

use pg_conn::PgConnection;
use pg_locks::PgAdvisoryLockKey;
use pg_report::{Answer, End};
use pg_script::{Call, Chain, Step};
use pg_stream::Link;

// Whether there may be one guard more behind a step.
fn may_guard(step: &Step) -> bool {
    matches!(step.call, Call::Chain(Chain::Lock(_) | Chain::TryLock(_)))
}

// Keeps room for one, where there is memory.
fn keep_one<L: Link>(conn: &mut PgConnection<L>) -> bool
    ensures { KeepsRoom (seen_by L.seen conn.old) (seen_by L.seen conn.new) }
{
    conn.hold().is_ok()
}

/// Keeps room for all guards that there may be behind some steps, as far as there is memory.
pub(crate) fn keep_room<L: Link>(conn: &mut PgConnection<L>, steps: &[Step])
    ensures { KeepsRoom (seen_by L.seen conn.old) (seen_by L.seen conn.new) }
{
    for step in steps {
        if may_guard(step) && !keep_one(conn) {
            return;
        }
    }
}

/// Whether there is room for one guard more, and memory for its key.
pub(crate) fn has_room<L>(conn: &PgConnection<L>, guards: &mut Vec<PgAdvisoryLockKey>) -> bool
    ensures same { guards.new.items ≡ guards.old.items }
    ensures held { result ≡ true → length guards.new.items < conn.now.held }
    ensures room { result ≡ true → length guards.new.items < vec_capacity guards.new }
{
    (guards.len() as u64) < conn.held_locks() && guards.reserve(1).is_ok()
}

/// Whether a lock was taken by a call that ended so.
pub(crate) fn is_had(end: &End) -> bool
    ensures { result ≡ is_had end.now }
{
    match end {
        End::Ok(Answer::Held(flag)) => *flag,
        End::Ok(_) => true,
        End::Err(_) | End::Dropped => false,
    }
}

// Whether two keys are the same one.
fn is_same(a: PgAdvisoryLockKey, b: PgAdvisoryLockKey) -> bool
    ensures { IsTrue result ↔ (a ≡ b) }
{
    match (a, b) {
        (PgAdvisoryLockKey::BigInt(a), PgAdvisoryLockKey::BigInt(b)) => a == b,
        (PgAdvisoryLockKey::IntPair(a, c), PgAdvisoryLockKey::IntPair(b, d)) => a == b && c == d,
        _ => false,
    }
}

/// Where the first guard of a key stands.
pub(crate) fn first_of(guards: &[PgAdvisoryLockKey], key: PgAdvisoryLockKey) -> Option<usize>
    ensures { IsFirstAt key guards.now result }
{
    let mut index = 0;
    for guard in guards {
        if is_same(*guard, key) {
            return Some(index);
        }
        index += 1;
    }
    None
}
