//! The days before a year, counted from a year that is before all years of the library.
ghost use Rattle.std.specs.Prelude.{◌≡◌, pos, neg_ℤ, ◌+ℤ◌, ◌≤ℤ◌};
ghost use Rattle.chrono_calendar.specs.Days.{days_before_year};

/// The number of years from -262,399, where the count begins, to year 1: 656 cycles of 400 years.
pub const YEARS_TO_ONE: i32 = 262_400;

/// The number of days in those years. They are whole weeks.
pub const DAYS_TO_ONE: i32 = 95_839_632;

/// Returns the number of days from 1 January of the year -262,399 to 1 January of the year `year`.
///
/// Requires `year` to be from -262,143 to 262,144.
///
/// ```
/// counted_years::days_counted_before(2) - counted_years::days_counted_before(1) // 365
/// ```
#[inline]
pub fn days_counted_before(year: i32) -> u32
    requires low { neg_ℤ (pos 262_143) ≤ℤ year }
    requires high { year ≤ℤ pos 262_144 }
    ensures { pos result ≡ days_before_year year +ℤ pos 95_839_632 }
{
    let years = (year - 1 + YEARS_TO_ONE) as u32;
    let centuries = years / 100;
    1461 * years / 4 - centuries + centuries / 4
}
