//! Day counts: the part of a year between two dates, as an exact fraction (ISDA 2006 Definitions, section 4.16).
ghost use Rattle.std.specs.Prelude.{◌≡◌, ◌≤◌, ◌==◌, ◌&&◌, nat_lt, if◌then◌else◌, pos, neg_ℤ, ◌+ℤ◌, ◌-ℤ◌, ◌*ℤ◌, ◌≤ℤ◌};
ghost use Rattle.chrono_datetime.specs.Days.{month_of, ordinal_of, year_of};
ghost use Rattle.chrono_datetime.specs.Years.{is_leap_year};
ghost use Rattle.chrono_business.specs.LeapDays.{leap_before};
ghost use Rattle.chrono_business.specs.DayCounts.{at_most_30 as up_to_30, days_30_360, days_30e_360, days_actual_actual, days_of_360 as days_of_months};

use chrono_datetime::{Datelike, NaiveDate};

/// An exact fraction, which is not reduced. Two are equal if both their numbers are.
#[derive(Clone, Copy, PartialEq, Eq, Hash, Debug)]
pub struct Fraction {
    /// The number above the line.
    pub numerator: i64,
    /// The number below the line, which is positive.
    pub denominator: i64,
}

/// Returns the days from `from` to `to`, those in leap years over 366 and all others over 365.
///
/// This is "Actual/Actual" or "Actual/Actual (ISDA)" (ISDA 2006, section 4.16(b)).
/// The day `from` counts, and the day `to` does not. If `to` is the earlier, the result is negative.
/// Then the day `to` counts, and the day `from` does not.
///
/// ```
/// use chrono_datetime::NaiveDate;
/// let (from, to) = (NaiveDate::from_ymd_opt(2023, 12, 31)?, NaiveDate::from_ymd_opt(2024, 1, 2)?);
/// actual_actual_isda(from, to) // Fraction { numerator: 731, denominator: 133590 }
/// ```
///
/// The denominator is always 365 times 366, which is 133,590.
pub fn actual_actual_isda(from: NaiveDate, to: NaiveDate) -> Fraction
    ensures numerator { result.numerator ≡ days_actual_actual from to }
    ensures denominator { result.denominator ≡ pos 133_590 }
{
    let leap = leap_days_before(to) - leap_days_before(from);
    Fraction {
        numerator: 366 * days_between(from, to) - leap,
        denominator: 365 * 366,
    }
}

/// Returns the days from `from` to `to` over 360: "Actual/360" (ISDA 2006, section 4.16(e)).
///
/// ```
/// use chrono_datetime::NaiveDate;
/// let (from, to) = (NaiveDate::from_ymd_opt(2024, 1, 1)?, NaiveDate::from_ymd_opt(2024, 3, 1)?);
/// actual_360(from, to) // Fraction { numerator: 60, denominator: 360 }
/// ```
pub fn actual_360(from: NaiveDate, to: NaiveDate) -> Fraction
    ensures numerator { result.numerator ≡ to -ℤ from }
    ensures denominator { result.denominator ≡ pos 360 }
{
    Fraction {
        numerator: days_between(from, to),
        denominator: 360,
    }
}

/// Returns the days from `from` to `to` over 365: "Actual/365 (Fixed)" (ISDA 2006, section 4.16(d)).
///
/// ```
/// use chrono_datetime::NaiveDate;
/// let (from, to) = (NaiveDate::from_ymd_opt(2024, 1, 1)?, NaiveDate::from_ymd_opt(2025, 1, 1)?);
/// actual_365_fixed(from, to) // Fraction { numerator: 366, denominator: 365 }
/// ```
///
/// The denominator is 365 in leap years too.
pub fn actual_365_fixed(from: NaiveDate, to: NaiveDate) -> Fraction
    ensures numerator { result.numerator ≡ to -ℤ from }
    ensures denominator { result.denominator ≡ pos 365 }
{
    Fraction {
        numerator: days_between(from, to),
        denominator: 365,
    }
}

/// Returns the days from `from` to `to` over 360, where each month has 30 days.
///
/// This is "30/360" or "Bond Basis" (ISDA 2006, section 4.16(f)). A `from` on the 31st counts as the 30th.
/// A `to` on the 31st counts as the 30th only if `from` is later than the 29th of its month.
/// `from` stays the first date even if `to` is the earlier.
///
/// ```
/// use chrono_datetime::NaiveDate;
/// let (from, to) = (NaiveDate::from_ymd_opt(2007, 2, 28)?, NaiveDate::from_ymd_opt(2007, 8, 31)?);
/// thirty_360(from, to) // Fraction { numerator: 183, denominator: 360 }
/// ```
pub fn thirty_360(from: NaiveDate, to: NaiveDate) -> Fraction
    ensures numerator { result.numerator ≡ days_30_360 from to }
    ensures denominator { result.denominator ≡ pos 360 }
{
    let last = bond_last(from.day(), to.day());
    Fraction {
        numerator: days_of_360(from, to, at_most_30(from.day()), last),
        denominator: 360,
    }
}

/// Returns the days from `from` to `to` over 360, where each month has 30 days and a 31st counts as the 30th.
///
/// This is "30E/360" or "Eurobond Basis" (ISDA 2006, section 4.16(g)).
///
/// ```
/// use chrono_datetime::NaiveDate;
/// let (from, to) = (NaiveDate::from_ymd_opt(2007, 2, 28)?, NaiveDate::from_ymd_opt(2007, 8, 31)?);
/// thirty_e_360(from, to) // Fraction { numerator: 182, denominator: 360 }
/// ```
pub fn thirty_e_360(from: NaiveDate, to: NaiveDate) -> Fraction
    ensures numerator { result.numerator ≡ days_30e_360 from to }
    ensures denominator { result.denominator ≡ pos 360 }
{
    Fraction {
        numerator: days_of_360(from, to, at_most_30(from.day()), at_most_30(to.day())),
        denominator: 360,
    }
}

// The days from one date to another.
fn days_between(from: NaiveDate, to: NaiveDate) -> i64
    ensures value { result ≡ to -ℤ from }
    ensures low { neg_ℤ (pos 200_000_000) ≤ℤ result }
    ensures high { result ≤ℤ pos 200_000_000 }
{
    i64::from(to.num_days_from_ce() - from.num_days_from_ce())
}

// The days of leap years before a date, less those before year 1.
// A leap year before the date's year gives 366, and its own year gives the days before the date.
fn leap_days_before(date: NaiveDate) -> i64
    ensures value { result ≡ leap_before date }
    ensures low { neg_ℤ (pos 80_000_000_000) ≤ℤ result }
    ensures high { result ≤ℤ pos 80_000_000_000 }
{
    366 * leap_years_before(date) + leap_days_in_year(date)
}

// The leap years before a date's year, less those before year 1.
// They are what is left of the days before that year if each year has 365.
fn leap_years_before(date: NaiveDate) -> i64
    ensures value { result ≡ (date -ℤ pos (ordinal_of date)) -ℤ pos 365 *ℤ (year_of date -ℤ pos 1) }
    ensures low { neg_ℤ (pos 200_000_000) ≤ℤ result }
    ensures high { result ≤ℤ pos 200_000_000 }
{
    let whole_years = 365 * (date.year() - 1);
    i64::from(date.num_days_from_ce() - date.ordinal() as i32) - i64::from(whole_years)
}

// The days before a date in its year, if that is a leap year.
fn leap_days_in_year(date: NaiveDate) -> i64
    ensures value { result ≡ (if is_leap_year (year_of date) then pos (ordinal_of date) -ℤ pos 1 else pos 0) }
    ensures low { pos 0 ≤ℤ result }
    ensures high { result ≤ℤ pos 365 }
{
    if date.leap_year() {
        return i64::from(date.ordinal0());
    }
    0
}

// 360 days for each year between two dates, 30 for each month, and the days from one of its days to another.
fn days_of_360(from: NaiveDate, to: NaiveDate, first: u32, last: u32) -> i64
    requires first { first ≤ 31 }
    requires last { last ≤ 31 }
    ensures { result ≡ days_of_months from to first last }
{
    difference(days_360(from, first), days_360(to, last))
}

// The days of 30-day months from January of the year -262,144 to a day of the date's month.
fn days_360(date: NaiveDate, day: u32) -> u32
    requires { day ≤ 31 }
    ensures value { pos result ≡ (pos 360 *ℤ year_of date +ℤ pos 30 *ℤ pos (month_of date))
        +ℤ (pos day +ℤ pos 94_371_840) }
    ensures few { result ≤ 200_000_000 }
{
    month_number(date) * 30 + day
}

// The months from December of the year -262,145 to the date's.
fn month_number(date: NaiveDate) -> u32
    ensures value { pos result ≡ (pos 12 *ℤ year_of date +ℤ pos (month_of date)) +ℤ pos 3_145_728 }
    ensures few { result ≤ 6_291_456 }
{
    (date.year() + 262_144) as u32 * 12 + date.month()
}

// The difference of two numbers of days.
fn difference(from: u32, to: u32) -> i64
    requires from { from ≤ 200_000_000 }
    requires to { to ≤ 200_000_000 }
    ensures value { result ≡ pos to -ℤ pos from }
{
    i64::from(to) - i64::from(from)
}

// The last day, which is at most the 30th if the first is later than the 29th.
fn bond_last(first: u32, last: u32) -> u32
    ensures value { result ≡ (if (last == 31) && nat_lt 29 first then 30 else last) }
    ensures few { result ≤ last }
{
    if first > 29 { at_most_30(last) } else { last }
}

// The day of a month, and of the 31st the 30th.
fn at_most_30(day: u32) -> u32
    ensures { result ≡ up_to_30 day }
{
    if day == 31 { 30 } else { day }
}
