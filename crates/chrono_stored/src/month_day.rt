//! Conversions between a day of the year and a month with a day, by closed formulas.
//!
//! February has 30 days in these formulas. The lengths of the months are then so even that one linear formula, rounded
//! down, gives the month of a day.

ghost use Rattle.std.specs.Prelude.{◌≡◌, ◌+◌, ◌-◌, ◌≤◌, SomeIff, if◌then◌else◌};
ghost use Rattle.std.specs.Int.{IsInRange};
ghost use Rattle.chrono_units.specs.Years.{month_length_in};
ghost use Rattle.chrono_calendar.specs.Days.{month_of_ordinal, day_of_ordinal, days_of_months_in};

// The days that a February of 30 days has more than that of a leap year or of a common year.
#[inline]
fn missing_days(leap: bool) -> u32
    ensures { result ≡ (if leap then 1 else 2) }
{
    if leap { 1 } else { 2 }
}

/// Returns the month and the day of the month of the day `ordinal` of a leap year or of a common year, all from 1.
#[inline]
pub(crate) fn month_day(leap: bool, ordinal: u32) -> (u32, u32)
    requires { IsInRange 1 (if leap then 366 else 365) ordinal }
    ensures month { result.0 ≡ month_of_ordinal leap ordinal }
    ensures day { result.1 ≡ day_of_ordinal leap ordinal }
{
    let missing = missing_days(leap);
    let even = if ordinal > 61 - missing {
        ordinal - 1 + missing
    } else {
        ordinal - 1
    };
    let scaled = 67 * even + 2080;
    (scaled / 2048, scaled % 2048 / 67 + 1)
}

// The days of a leap year or of a common year before a month, from 1; for 13, those of the whole year.
#[inline]
fn days_before_month(leap: bool, month: u32) -> u32
    requires { IsInRange 1 13 month }
    ensures { result ≡ days_of_months_in leap (month - 1) }
{
    let even = (489 * month - 480) / 16;
    if month > 2 {
        even - missing_days(leap)
    } else {
        even
    }
}

/// Returns the day of the year of a day of a month, in a leap year or in a common year, all from 1.
///
/// Returns `None` if such years have no such day. A month ends where the next one begins.
#[inline]
pub(crate) fn ordinal_of_month_day(leap: bool, month: u32, day: u32) -> Option<u32>
    ensures { SomeIff result
        (IsInRange 1 12 month × IsInRange 1 (month_length_in leap month) day)
        (days_of_months_in leap (month - 1) + day) }
{
    if month < 1 || month > 12 {
        return None;
    }
    let place = u64::from(days_before_month(leap, month)) + u64::from(day);
    if day < 1 || place > u64::from(days_before_month(leap, month + 1)) {
        return None;
    }
    Some(place as u32)
}
