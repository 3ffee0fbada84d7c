//! The ISO week of a Thursday (ISO 8601 week date).
ghost use Rattle.std.specs.Prelude.{◌≡◌, ◌+◌, ◌-◌, ◌/◌};
ghost use Rattle.std.specs.Int.{IsInRange};

/// Returns the week of a Thursday, from its place in the year `place`. It divides by 7 as one product with 2^14 / 7,
/// rounded up.
#[inline]
pub(crate) fn week_of_thursday(place: u32) -> u32
    requires { IsInRange 1 366 place }
    ensures { result ≡ (place - 1) / 7 + 1 }
{
    ((place + 6) * 2_341) >> 14
}
