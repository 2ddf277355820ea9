ghost use Rattle.std.specs.Prelude.{◌≡◌, ◌-◌, ◌^◌, min};
ghost use Rattle.std.specs.Duration.{as_nanos};
ghost use Rattle.pg_migrate.specs.Clocks.{as_int8};

use std::time::Duration;

// The greatest int8 (PostgreSQL manual, "Numeric Types").
const INT8_MAX: u64 = 0x7fff_ffff_ffff_ffff;

/// The nanoseconds between two readings of a clock: none where the second tells an earlier time.
pub fn elapsed(start: u64, end: u64) -> u64
    ensures { result ≡ end - start }
{
    end.saturating_sub(start)
}

/// Nanoseconds as an int8, which stops at the greatest one, 292 years.
pub fn as_int8(nanos: u64) -> i64
    ensures { result ≡ as_int8 nanos }
{
    nanos.min(INT8_MAX) as i64
}

// The nanoseconds of a span; the greatest number where they are more.
pub(crate) fn nanos_of(span: Duration) -> u64
    ensures { result ≡ min (as_nanos span) (2 ^ 64 - 1) }
{
    let seconds = span.as_secs().saturating_mul(1_000_000_000);
    seconds.saturating_add(u64::from(span.subsec_nanos()))
}
