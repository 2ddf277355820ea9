//! Calls about locks on the connection that is held.
ghost use Rattle.std.specs.Prelude.{◌≡◌};
ghost use Rattle.pg_locking.specs.Flags.{IsAsking, PollsFlag, StaysAsking, forgot_if, left_asking, left_releasing};
ghost use Rattle.pg_locking.specs.Locking.{IsLocking, PollsLock, StaysLocking, left_locking};

use crate::flag_call::FlagCall;
use crate::lock_call::LockCall;
use pg_guards::PgExecutor;
use pg_wire::{Error, Poll};

/// One poll of a lock that is waited for.
pub(crate) fn poll_lock<C: PgExecutor>(
    holder: &mut C,
    call: &mut LockCall,
) -> Poll<Result<(), Error>>
    requires { IsLocking call.old.stage (C.conn holder.old) }
    ensures holder { holder.new ≡ C.with_conn holder.old (C.conn holder.new) }
    ensures key { call.new.key ≡ call.old.key }
    ensures polls { PollsLock C.L.seen call.old.key call.old.stage (C.conn holder.old) (C.conn holder.new) call.new.stage result }
    ensures stays { StaysLocking call.new.stage (C.conn holder.new) result }
{
    call.poll(holder.conn_mut())
}

/// What its drop does.
pub(crate) fn leave_lock<C: PgExecutor>(holder: C, call: LockCall) -> C
    ensures { result ≡ C.with_conn holder (left_locking call.key call.stage (C.conn holder)) }
{
    let mut holder = holder;
    call.leave(holder.conn_mut());
    holder
}

/// One poll of a call that is answered by a truth value.
pub(crate) fn poll_flag<C: PgExecutor>(
    holder: &mut C,
    call: &mut FlagCall,
) -> Poll<Result<bool, Error>>
    requires { IsAsking call.old.asking (C.conn holder.old) }
    ensures holder { holder.new ≡ C.with_conn holder.old (C.conn holder.new) }
    ensures same { call.new ≡ record call.old { asking = call.new.asking } }
    ensures polls { PollsFlag C.L.seen call.old.key call.old.holds call.old.asking (C.conn holder.old) (C.conn holder.new) call.new.asking result }
    ensures stays { StaysAsking call.new.asking (C.conn holder.new) result }
{
    call.poll(holder.conn_mut())
}

/// What its drop does.
pub(crate) fn leave_flag<C: PgExecutor>(holder: C, call: FlagCall) -> C
    ensures { result ≡ C.with_conn holder (left_asking call.holds call.asking (C.conn holder)) }
{
    let mut holder = holder;
    call.leave(holder.conn_mut());
    holder
}

/// One poll of the release of a lock that a guard holds.
pub(crate) fn poll_release<C: PgExecutor>(
    holder: &mut C,
    call: &mut FlagCall,
) -> Poll<Result<bool, Error>>
    requires { IsAsking call.old.asking (C.conn holder.old) }
    ensures holder { holder.new ≡ C.with_conn holder.old (C.conn holder.new) }
    ensures same { call.new ≡ record call.old { asking = call.new.asking } }
    ensures polls { PollsFlag C.L.seen call.old.key call.old.holds call.old.asking (forgot_if call.old.asking (C.conn holder.old)) (C.conn holder.new) call.new.asking result }
    ensures stays { StaysAsking call.new.asking (C.conn holder.new) result }
{
    call.poll_release(holder.conn_mut())
}

/// What its drop does.
pub(crate) fn leave_release<C: PgExecutor>(holder: C, call: FlagCall) -> C
    ensures { result ≡ C.with_conn holder (left_releasing call.key call.asking (C.conn holder)) }
{
    let mut holder = holder;
    call.leave_release(holder.conn_mut());
    holder
}
