ghost use Rattle.std.specs.Prelude.{◌≡◌, ◌≤◌, ◌++◌, length, codes};
ghost use Rattle.std.specs.Fmt.{signed_decimal};
ghost use Rattle.pg_wire.specs.Bytes.{HasNoNul};
ghost use Rattle.pg_locks.specs.Locks.{lock_statement, try_lock_statement, unlock_statement, unlock_query};

use crate::key::PgAdvisoryLockKey;
use arrayvec::ArrayString;
use itoa::Buffer;

// A call with one number; what stands before the number has 26 bytes.
#[tactic(auto, using(crate::proofs::LockLaws::one_said))]
fn with_number(call: &str, number: i64) -> ArrayString<51>
    requires long { length call.now ≡ 26 }
    requires said { HasNoNul call.now }
    ensures text { result.bytes ≡ call.now ++ signed_decimal number ++ codes ")" }
    ensures said { HasNoNul result.bytes }
    ensures short { length result.bytes ≤ 51 }
{
    let mut text = ArrayString::new();
    let mut buffer = Buffer::new();
    text.push_str(call);
    text.push_str(buffer.format(number));
    text.push_str(")");
    text
}

// A call with two numbers.
#[tactic(auto, using(crate::proofs::LockLaws::two_said))]
fn with_numbers(call: &str, first: i32, second: i32) -> ArrayString<51>
    requires long { length call.now ≡ 26 }
    requires said { HasNoNul call.now }
    ensures text { result.bytes ≡ call.now ++ signed_decimal first ++ codes ", " ++ signed_decimal second ++ codes ")" }
    ensures said { HasNoNul result.bytes }
    ensures short { length result.bytes ≤ 51 }
{
    let mut text = ArrayString::new();
    let mut first_buffer = Buffer::new();
    let mut second_buffer = Buffer::new();
    text.push_str(call);
    text.push_str(first_buffer.format(first));
    text.push_str(", ");
    text.push_str(second_buffer.format(second));
    text.push_str(")");
    text
}

impl PgAdvisoryLockKey {
    /// The statement that takes the lock, and waits for it. Its arguments are the key's numbers, as those of the next two.
    pub fn lock_statement(&self) -> &'static str
        ensures text { result.now ≡ lock_statement self.now }
        ensures said { HasNoNul result.now }
    {
        match self {
            PgAdvisoryLockKey::BigInt(_) => "SELECT pg_advisory_lock($1)",
            PgAdvisoryLockKey::IntPair(_, _) => "SELECT pg_advisory_lock($1, $2)",
        }
    }

    /// The statement that takes the lock where nobody else holds it, and tells whether it did.
    pub fn try_lock_statement(&self) -> &'static str
        ensures text { result.now ≡ try_lock_statement self.now }
        ensures said { HasNoNul result.now }
    {
        match self {
            PgAdvisoryLockKey::BigInt(_) => "SELECT pg_try_advisory_lock($1)",
            PgAdvisoryLockKey::IntPair(_, _) => "SELECT pg_try_advisory_lock($1, $2)",
        }
    }

    /// The statement that releases the lock, and tells whether it was held.
    pub fn unlock_statement(&self) -> &'static str
        ensures text { result.now ≡ unlock_statement self.now }
        ensures said { HasNoNul result.now }
    {
        match self {
            PgAdvisoryLockKey::BigInt(_) => "SELECT pg_advisory_unlock($1)",
            PgAdvisoryLockKey::IntPair(_, _) => "SELECT pg_advisory_unlock($1, $2)",
        }
    }

    /// The query that releases the lock without arguments, as a dropped guard queues it.
    pub fn unlock_query(&self) -> ArrayString<51>
        ensures text { result.bytes ≡ unlock_query self.now }
        ensures said { HasNoNul result.bytes }
        ensures short { length result.bytes ≤ 51 }
    {
        match self {
            PgAdvisoryLockKey::BigInt(number) => {
                with_number("SELECT pg_advisory_unlock(", *number)
            }
            PgAdvisoryLockKey::IntPair(first, second) => {
                with_numbers("SELECT pg_advisory_unlock(", *first, *second)
            }
        }
    }
}
