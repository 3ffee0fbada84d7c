//! The ISO year and week of a day (ISO 8601 week date), from the Thursday of its week.

ghost use Rattle.std.specs.Prelude.{◌≡◌, ◌+◌, ◌-◌, ◌*◌, ◌/◌, ◌<◌, ◌≤◌, pos, neg_ℤ, ◌≤ℤ◌};
ghost use Rattle.std.specs.Int.{IsInRange};
ghost use Rattle.chrono_calendar.specs.Days.{IsDate};
ghost use Rattle.chrono_calendar.specs.Weeks.{iso_week_of, iso_year_of};

use crate::conversion::{days_before_day, last_quarter, year_after, years_and_part};

// 2^32 / 7, rounded up.
const PART_OF_WEEK: u64 = 613_566_757;

// The weeks of a cycle of 400 years.
const WEEKS_OF_CYCLE: u32 = 20_871;

// 2^19 times the weeks of 365 1/4 days, rounded up.
const WEEKS_OF_YEAR: u64 = 27_356_599;

// The whole weeks in as many days: a division by 7 as the upper half of one product.
#[inline]
fn weeks_in(days: u32) -> u32
    requires { days < 200_000_000 }
    ensures { result ≡ days / 7 }
{
    ((PART_OF_WEEK * days as u64) >> 32) as u32
}

// The whole years before the Thursday that as many weeks and three days precede, and its whole weeks in its own year.
//
// A cycle is whole weeks too, so the centuries before that day are found from the weeks.
#[inline]
fn years_and_weeks(weeks: u32) -> (u32, u32)
    requires { weeks < 28_000_000 }
    ensures begun { let n = result.0 in
        365 * n + n / 4 + n / 400 ≤ 7 * weeks + 3 + n / 100 }
    ensures in_year { let n = result.0 + 1 in
        7 * weeks + 3 + n / 100 < 365 * n + n / 4 + n / 400 }
    ensures weeks { let n = result.0 in
        result.1 ≡ (7 * weeks + 3 + n / 100 - (365 * n + n / 4 + n / 400)) / 7 }
{
    let centuries = (4 * weeks + 2) / WEEKS_OF_CYCLE;
    let (years, part) = years_and_part(last_quarter(7 * weeks + 3, centuries));
    (years, ((WEEKS_OF_YEAR * part) >> 58) as u32)
}

/// Returns the ISO year of the day with the number `days`, and its week there.
///
/// The days are counted from a Monday, so each Thursday comes after whole weeks and three days. The week belongs to the
/// year of its Thursday, and the Thursdays of a year count its weeks.
#[inline]
pub(crate) fn iso_year_and_week(days: i32) -> (i32, u32)
    requires { IsDate days }
    ensures year { result.0 ≡ iso_year_of days }
    ensures week { result.1 ≡ iso_week_of days }
    ensures year_in_range { (neg_ℤ (pos 262_143) ≤ℤ result.0) × (result.0 ≤ℤ pos 262_143) }
    ensures week_in_range { IsInRange 1 53 result.1 }
{
    let (years, weeks) = years_and_weeks(weeks_in(days_before_day(days)));
    (year_after(years), weeks + 1)
}
