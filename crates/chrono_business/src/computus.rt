//! Easter of a year, by integer arithmetic alone.
ghost use Rattle.std.specs.Prelude.{◌≡◌, ◌≤◌, ◌↔◌, ◌-◌, ◌%◌, ◌==◌, ◌&&◌, ◌||◌, nat_lt, if◌then◌else◌, ◌≤ℤ◌, neg_ℤ, pos, IsSome, IfSome};
ghost use Rattle.chrono_datetime.specs.Years.{IsYear};
ghost use Rattle.chrono_datetime.specs.Days.{day_number_of_ymd, year_of};
ghost use Rattle.chrono_datetime.specs.Weeks.{days_from_sunday_of};
ghost use Rattle.chrono_business.specs.Easter.{date_of_easter, days_to_moon, epact, golden_number, sunday_after};

use chrono_datetime::{Datelike, NaiveDate};

// Years after which the moons of the tables come again.
const YEARS_OF_MOONS: i32 = 5_700_000;

// Whole weeks, more days than there are before the day 0.
const WEEKS_BEFORE_ZERO: i32 = 95_746_133;

/// Returns Easter Sunday of `year` by the Gregorian tables of the moon.
///
/// Returns `None` if the year is not from -262,143 to 262,142.
///
/// ```
/// easter(2024) // Some(2024-03-31)
/// easter(300_000) // None
/// ```
///
/// Easter is from 22 March to 25 April. For years before 1583 the function still uses the Gregorian tables.
/// So it does not return the day on which Easter was kept then.
pub fn easter(year: i32) -> Option<NaiveDate>
    ensures date { result ≡ date_of_easter year }
    ensures exists { IsSome result ↔ IsYear year }
    ensures sunday { IfSome result (λ e. days_from_sunday_of e ≡ 0) }
    ensures year { IfSome result (λ e. year_of e ≡ year) }
    ensures earliest { IfSome result (λ e. day_number_of_ymd year 3 22 ≤ℤ e) }
    ensures latest { IfSome result (λ e. e ≤ℤ day_number_of_ymd year 4 25) }
{
    let equinox = NaiveDate::from_ymd_opt(year, 3, 21)?;
    let full_moon = equinox.num_days_from_ce() + days_to_full_moon(year);
    NaiveDate::from_num_days_from_ce_opt(next_sunday(full_moon))
}

// The days from 21 March to the paschal full moon.
fn days_to_full_moon(year: i32) -> i32
    requires { IsYear year }
    ensures value { result ≡ pos (days_to_moon (golden_number year) (epact year)) }
    ensures few { result ≤ℤ pos 28 }
{
    moon_of_year((year + YEARS_OF_MOONS) as u32) as i32
}

// The same of a year that is not negative.
fn moon_of_year(year: u32) -> u32
    requires from { 5_000_000 ≤ year }
    requires to { year ≤ 6_000_000 }
    ensures value { result ≡ days_to_moon (golden_number (pos year)) (epact (pos year)) }
    ensures few { result ≤ 28 }
{
    moon_in_march(place_of_epact(year), year % 19 + 1)
}

// The days from 8 March to where the epact of the year stands.
fn place_of_epact(year: u32) -> u32
    requires from { 5_000_000 ≤ year }
    requires to { year ≤ 6_000_000 }
    ensures value { result ≡ (53 - epact (pos year)) % 30 }
    ensures few { result ≤ 29 }
{
    let century = year / 100;
    let solar = century - century / 4;
    let lunar = (8 * century + 13) / 25;
    (19 * (year % 19) + 15 + solar - lunar) % 30
}

// The last two epacts count a day earlier: 24 always, and 25 in the later years of the cycle.
fn moon_in_march(days: u32, golden: u32) -> u32
    requires { days ≤ 29 }
    ensures value { result ≡ (if (days == 29) || ((days == 28) && nat_lt 11 golden) then days - 1 else days) }
    ensures few { result ≤ 28 }
{
    if days == 29 || (days == 28 && golden > 11) {
        days - 1
    } else {
        days
    }
}

// The Sunday after a day.
fn next_sunday(day: i32) -> i32
    requires from { neg_ℤ (pos 95_746_129) ≤ℤ day }
    requires to { day ≤ℤ pos 95_745_500 }
    ensures value { result ≡ sunday_after day }
{
    day + 7 - ((day + WEEKS_BEFORE_ZERO) as u32 % 7) as i32
}
