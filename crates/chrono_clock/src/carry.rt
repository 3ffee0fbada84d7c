//! The carry from nanoseconds to seconds.
ghost use Rattle.std.specs.Prelude.{◌≡◌, ℕ, pos, ◌<◌, ◌^◌, ◌+ℤ◌, ◌≤ℤ◌, unsigned_abs};
ghost use Rattle.chrono_clock.specs.Duration.{nanos_of, nanos_per_second};

use crate::lengths::NANOS_PER_SEC;

/// Returns the same number of nanoseconds, with less than a second of them past the seconds. It carries at most one second.
#[inline]
pub(crate) fn carried(secs: i64, nanos: u32) -> (i64, u32)
    requires few { unsigned_abs secs < 2 ^ 62 }
    requires one_carry { nanos < 2_000_000_000 }
    ensures same { nanos_of result.0 result.1 ≡ nanos_of secs nanos }
    ensures past_second { result.1 < nanos_per_second }
    ensures at_least { secs ≤ℤ result.0 }
    ensures at_most { result.0 ≤ℤ (secs +ℤ pos 1) }
{
    let carry = (nanos >= NANOS_PER_SEC) as u32;
    (secs + carry as i64, nanos - carry * NANOS_PER_SEC)
}
