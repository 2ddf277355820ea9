//! What follows from the definitions of this crate, each law as the contract of a function that does nothing.
ghost use Rattle.std.specs.Prelude.{◌≡◌, ◌<◌, ◌-◌, ◌^◌, Bool, true, false, List, ℕ, None, Result, Some};
ghost use Rattle.futures.specs.declared.task.Poll.{Poll};
ghost use Rattle.pg_wire.specs.declared.error.Error.{Error};
ghost use Rattle.pg_stream.specs.Links.{LinkSeen};
ghost use Rattle.pg_locks.specs.declared.key.PgAdvisoryLockKey.{PgAdvisoryLockKey};
ghost use Rattle.pg_locks.specs.Locks.{lock_statement, unlock_query};
ghost use Rattle.pg_rule.specs.Caches.{entry_at};
ghost use Rattle.pg_rule.specs.declared.cache.Entry.{Entry};
ghost use Rattle.pg_rule.specs.declared.rule.Rule.{Rule};
ghost use Rattle.pg_call.specs.declared.kind.How.TheVariants as hows;
ghost use Rattle.pg_call.specs.declared.kind.Keeping.TheVariants as keepings;
ghost use Rattle.pg_call.specs.declared.request.Request.TheVariants as requests;
ghost use Rattle.pg_call.specs.declared.statement.Goal.TheVariants as goals;
ghost use Rattle.pg_call.specs.Requests.{spelled};
ghost use Rattle.pg_conn.specs.Connections.{ConnSeen, counted_anew, ended, left, with_group};
ghost use Rattle.pg_conn.specs.Holding.{IsRelease, gave_up, held_fewer, release, took_held};
ghost use Rattle.pg_conn.specs.Statements.{asked_by, describe};
ghost use Rattle.pg_conn.specs.Turns.{HasAllRoom};
ghost use Rattle.pg_locking.specs.Flags.{PollsFlag, forgot_if, left_asking, left_releasing};
ghost use Rattle.pg_locks.specs.Keys.{key_arguments};
ghost use Rattle.pg_locking.specs.Locking.{PollsLock, left_locking, lock_request};
ghost use Rattle.pg_locking.specs.declared.flag_call.Asking.{Asking};
ghost use Rattle.pg_locking.specs.declared.lock_call.Stage.{Stage};

/// Whatever is polled or given up of a lock, there stays room for the cleanup of the call, for a rollback of each transaction that is open, and for the
/// release of each lock that is held: 64 bytes each. The text that releases a lock has 51 bytes at most, which any two numbers of 32 bits and any of 64 need.
pub fn a_connection_has_room_for_its_releases()
    ensures locks { (key : PgAdvisoryLockKey) (before after : Stage) (a b : ConnSeen) (answer : Poll (Result (Unit {0}) Error)) → PollsLock (λ (l : LinkSeen). l) key before a b after answer → IsRelease (unlock_query key) → HasAllRoom a → HasAllRoom b }
    ensures leaves_lock { (key : PgAdvisoryLockKey) (stage : Stage) (c : ConnSeen) → IsRelease (unlock_query key) → HasAllRoom c → HasAllRoom (left_locking key stage c) }
    ensures flags { (key : PgAdvisoryLockKey) (holds : Bool) (before after : Asking) (a b : ConnSeen) (answer : Poll (Result Bool Error)) → PollsFlag (λ (l : LinkSeen). l) key holds before a b after answer → HasAllRoom a → HasAllRoom b }
    ensures leaves_flag { (holds : Bool) (asking : Asking) (c : ConnSeen) → HasAllRoom c → HasAllRoom (left_asking holds asking c) }
    ensures forgets { (asking : Asking) (c : ConnSeen) → HasAllRoom c → HasAllRoom (forgot_if asking c) }
    ensures leaves_release { (key : PgAdvisoryLockKey) (asking : Asking) (c : ConnSeen) → IsRelease (unlock_query key) → HasAllRoom c → HasAllRoom (left_releasing key asking c) }
{}

/// So the release of a lock that is held is always queued, and nothing else: one lock fewer is held, and one reply more is owed. There is no room for one reply
/// more than a number of 64 bits counts.
pub fn a_lock_that_is_given_up_is_released()
    ensures gives_up { (text : List ℕ) (c : ConnSeen) → IsRelease text → HasAllRoom c → 0 < c.held → (left c).ledger.owed < 2 ^ 64 - 1 → gave_up (Some text) c ≡ with_group (spelled (release text)) (held_fewer (ended (left c))) }
    ensures takes { (text : List ℕ) (c : ConnSeen) → IsRelease text → HasAllRoom c → 0 < c.held → (left c).ledger.owed < 2 ^ 64 - 1 → took_held (Some text) c ≡ with_group (spelled (release text)) (held_fewer (ended (counted_anew (left c)))) }
{}

/// Which exchange comes first once the statement that locks is to run: where it is kept it runs in that one, with the key's numbers, and else it is described
/// in that one, to be run in the next.
pub fn a_statement_that_is_kept_is_run_at_once()
    ensures kept { (key : PgAdvisoryLockKey) (rule : Rule) (e : Entry) → entry_at (lock_statement key) rule.cache.entries ≡ Some e → asked_by rule (lock_request key) ≡ requests.Run (record { how = hows.Execute; statement = e.statement; again = None; arguments = key_arguments key; columns = Some e.columns; is_looked_up = false; keeping = keepings.Hits e.statement }) }
    ensures unkept { (key : PgAdvisoryLockKey) (rule : Rule) → entry_at (lock_statement key) rule.cache.entries ≡ None → asked_by rule (lock_request key) ≡ describe (goals.Run hows.Execute) (lock_statement key) (key_arguments key) true rule }
{}
