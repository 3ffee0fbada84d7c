//! Weekdays as remainders of 7.

ghost use Rattle.std.specs.Prelude.{◌≡◌, ◌%◌};
ghost use Rattle.chrono_units.specs.Weekday.{weekday_from_monday};

use chrono_units::Weekday;

/// Returns the weekday `days` days after a Monday.
#[inline]
pub(crate) fn days_after_monday(days: u32) -> Weekday
    ensures { result ≡ weekday_from_monday (days % 7) }
{
    match days % 7 {
        0 => Weekday::Mon,
        1 => Weekday::Tue,
        2 => Weekday::Wed,
        3 => Weekday::Thu,
        4 => Weekday::Fri,
        5 => Weekday::Sat,
        _ => Weekday::Sun,
    }
}
