//! Each call by its own state: it is polled, and dropped.

ghost use Rattle.std.specs.Prelude.{◌≡◌, None};
ghost use Rattle.pg_locking.specs.Flags.{IsAsking};
ghost use Rattle.pg_locking.specs.Held.{OnHeld};
ghost use Rattle.pg_locking.specs.Locking.{IsLocking};

use crate::migrating::locks::telling::push_progress;
use crate::migrating::telling::{push, push_word};
use case_tools::{flush, ping, word};
use either::Either;
use pg_guards::PgExecutor;
use pg_locking::{
    AcquireLock, ForceRelease, PgAdvisoryLock, PgAdvisoryLockGuard, PgAdvisoryLockKey, ReleaseNow,
    TryAcquireLock,
};
use pg_wire::{Error, Poll};

type Answer<T> = Poll<Result<T, Error>>;

/// Polls a lock that is waited for, so often at most.
pub(crate) fn take<C: PgExecutor + Drop>(
    mut state: AcquireLock<C>,
    polls: u64,
) -> Answer<PgAdvisoryLockGuard<C>>
    requires { OnHeld C.conn (IsLocking state.call.stage) state.conn }
{
    for _ in 0..polls {
        match state.poll() {
            Poll::Pending => {}
            answer => return answer,
        }
    }
    Poll::Pending
}

/// The same of a lock that is asked for.
pub(crate) fn try_take<C: PgExecutor + Drop>(
    mut state: TryAcquireLock<C>,
    polls: u64,
) -> Answer<Either<PgAdvisoryLockGuard<C>, C>>
    requires { OnHeld C.conn (IsAsking state.call.asking) state.conn }
{
    for _ in 0..polls {
        match state.poll() {
            Poll::Pending => {}
            answer => return answer,
        }
    }
    Poll::Pending
}

// Of one that is released by its guard.
fn release<C: PgExecutor + Drop>(mut state: ReleaseNow<C>, polls: u64) -> Answer<C>
    requires { OnHeld C.conn (IsAsking state.call.asking) state.conn }
{
    for _ in 0..polls {
        match state.poll() {
            Poll::Pending => {}
            answer => return answer,
        }
    }
    Poll::Pending
}

/// And of one that is released without it.
pub(crate) fn force<C: PgExecutor + Drop>(
    mut state: ForceRelease<C>,
    polls: u64,
) -> Answer<(C, bool)>
    requires { OnHeld C.conn (IsAsking state.call.asking) state.conn }
{
    for _ in 0..polls {
        match state.poll() {
            Poll::Pending => {}
            answer => return answer,
        }
    }
    Poll::Pending
}

// What a call has come to.
fn short<T>(answer: &Answer<T>) -> &'static str {
    match answer {
        Poll::Pending => "waits",
        Poll::Ready(Ok(_)) => "ok",
        Poll::Ready(Err(error)) => word(error),
    }
}

/// The same of one that hands nothing on.
pub(crate) fn push_short<T: Drop>(answer: Answer<T>, told: &mut String) {
    push(told, short(&answer));
    drop(answer);
}

// What is done with a guard that was taken.
#[derive(Clone, Copy)]
enum Spending {
    Drop,
    Leak,
    Parts,
    Release,
    Unpolled,
    Within,
}

fn spending_of(word: &str) -> Spending {
    match word {
        "leak" => Spending::Leak,
        "parts" => Spending::Parts,
        "release" => Spending::Release,
        "unpolled" => Spending::Unpolled,
        "within" => Spending::Within,
        _ => Spending::Drop,
    }
}

// Takes another lock on what holds the connection, and lets both go.
fn take_within<C: PgExecutor + Drop>(conn: C, polls: u64, told: &mut String) {
    let lock = PgAdvisoryLock::with_key(PgAdvisoryLockKey::BigInt(6));
    push_short(take(PgAdvisoryLockGuard::acquire(&lock, conn), polls), told);
}

fn let_go<C: PgExecutor + Drop>(
    guard: PgAdvisoryLockGuard<C>,
    spending: Spending,
    polls: u64,
    told: &mut String,
) {
    match spending {
        Spending::Drop => drop(guard),
        Spending::Leak => drop(guard.leak()),
        Spending::Parts => {
            let (mut conn, lock) = guard.into_parts();
            lock.drop_on(&mut conn);
            drop(conn);
        }
        Spending::Release => push_short(release(guard.release_now(), polls), told),
        Spending::Unpolled => drop(guard.release_now()),
        Spending::Within => take_within(guard, polls, told),
    }
}

fn spend<C: PgExecutor + Drop>(
    guard: PgAdvisoryLockGuard<C>,
    word: &str,
    polls: u64,
    told: &mut String,
) {
    push(told, "taken");
    push_progress(&guard, told);
    push(told, ", ");
    let_go(guard, spending_of(word), polls, told);
}

// A state that is dropped before its first poll.
fn ask_not<C: PgExecutor + Drop>(conn: C, lock: &PgAdvisoryLock) {
    drop(PgAdvisoryLockGuard::acquire(lock, conn));
}

fn take_and<C: PgExecutor + Drop>(
    conn: C,
    lock: &PgAdvisoryLock,
    word: &str,
    polls: u64,
    told: &mut String,
) {
    match take(PgAdvisoryLockGuard::acquire(lock, conn), polls) {
        Poll::Ready(Ok(guard)) => spend(guard, word, polls, told),
        answer => push_short(answer, told),
    }
}

fn try_and_drop<C: PgExecutor + Drop>(
    conn: C,
    lock: &PgAdvisoryLock,
    polls: u64,
    told: &mut String,
) {
    match try_take(PgAdvisoryLockGuard::try_acquire(lock, conn), polls) {
        Poll::Ready(Ok(Either::Left(guard))) => spend(guard, "drop", polls, told),
        Poll::Ready(Ok(Either::Right(conn))) => {
            drop(conn);
            push(told, "somebody has it");
        }
        answer => push_short(answer, told),
    }
}

fn force_and_tell<C: PgExecutor + Drop>(
    conn: C,
    lock: &PgAdvisoryLock,
    polls: u64,
    told: &mut String,
) {
    match force(PgAdvisoryLockGuard::force_release(lock, conn), polls) {
        Poll::Ready(Ok((conn, held))) => {
            drop(conn);
            push(told, if held { "was held" } else { "was not held" });
        }
        answer => push_short(answer, told),
    }
}

fn made<C: PgExecutor + Drop>(
    mut conn: C,
    word: &str,
    lock: &PgAdvisoryLock,
    polls: u64,
    told: &mut String,
) {
    match word {
        "unasked" => ask_not(conn, lock),
        "try" => try_and_drop(conn, lock, polls, told),
        "force" => force_and_tell(conn, lock, polls, told),
        "ping" => {
            push_short(ping(conn.conn_mut(), 1), told);
            drop(conn);
        }
        "flush" => {
            push_short(flush(conn.conn_mut(), 1), told);
            drop(conn);
        }
        _ => take_and(conn, lock, word, polls, told),
    }
}

/// Makes a call, and tells what it answered.
pub(crate) fn call<C: PgExecutor>(
    conn: &mut C,
    word: &str,
    key: PgAdvisoryLockKey,
    polls: u64,
    told: &mut String,
) {
    let lock = PgAdvisoryLock::with_key(key);
    push_word(told, word);
    made(&mut *conn, word, &lock, polls, told);
    push_progress(conn, told);
    push(told, "\n");
}
