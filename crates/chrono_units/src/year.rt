//! Years of the proleptic Gregorian calendar: the leap rule, and the lengths of years and months.
//!
//! Year 0 is the year before year 1, as in ISO 8601. The leap rule holds for every year.

ghost use Rattle.std.specs.Prelude.{◌≡◌, ◌≤◌};
ghost use Rattle.chrono_units.specs.Years.{is_leap_year as leap_rule, is_year as year_range, month_length_in, year_length as length_of_year};

/// The first year of the library.
pub const MIN_YEAR: i32 = -262_143;

/// The last year of the library.
pub const MAX_YEAR: i32 = 262_142;

/// Returns whether the library has dates of the year `year`, so whether it is from [`MIN_YEAR`] to [`MAX_YEAR`].
///
/// ```
/// year::is_year(262_142) // true
/// year::is_year(262_143) // false
/// ```
#[inline]
pub fn is_year(year: i32) -> bool
    ensures { result ≡ year_range year }
{
    MIN_YEAR <= year && year <= MAX_YEAR
}

/// Returns whether the year `year` is a leap year: a multiple of 4, but not of 100 unless also of 400.
///
/// ```
/// (year::is_leap_year(2024), year::is_leap_year(2000), year::is_leap_year(0)) // (true, true, true)
/// (year::is_leap_year(2023), year::is_leap_year(1900)) // (false, false)
/// ```
#[inline]
pub fn is_leap_year(year: i32) -> bool
    ensures { result ≡ leap_rule year }
{
    if year % 100 == 0 {
        year % 400 == 0
    } else {
        year % 4 == 0
    }
}

/// Returns how many days the year `year` has: 366 if it is a leap year, else 365.
///
/// ```
/// year::year_length(2024) // 366
/// ```
#[inline]
pub fn year_length(year: i32) -> u32
    ensures { result ≡ length_of_year year }
{
    if is_leap_year(year) { 366 } else { 365 }
}

/// Returns how many days the month `month` has, in a leap year or in a common year: 28 to 31.
///
/// Requires `month` to be from 1 to 12.
///
/// ```
/// year::month_length(true, 2) // 29
/// year::month_length(false, 2) // 28
/// ```
#[inline]
pub fn month_length(leap: bool, month: u32) -> u8
    requires from_january { 1 ≤ month }
    requires to_december { month ≤ 12 }
    ensures { result ≡ month_length_in leap month }
{
    // The months of 31 and of 30 days take turns, from January to July and again from August on.
    let taking_turns = 30 + ((month + month / 8) % 2) as u8;
    if month == 2 {
        28 + u8::from(leap)
    } else {
        taking_turns
    }
}
