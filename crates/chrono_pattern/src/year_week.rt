//! The weeks of a year that begin on Sunday, and those that begin on Monday.
ghost use Rattle.std.specs.Prelude.{◌≡◌, ◌+◌, ◌-◌, ◌/◌, ◌%◌, ◌<◌, ◌≤◌, ℕ, IfSome, Some};
ghost use Rattle.chrono_datetime.specs.Days.{day_number_of_yo};
ghost use Rattle.chrono_datetime.specs.Weeks.{days_from_sunday_of};
ghost use Rattle.chrono_datetime.specs.Years.{IsYear};
ghost use Rattle.chrono_pattern.specs.YearWeeks.{week_from_monday, week_from_sunday};

use chrono_datetime::{Datelike, NaiveDate};

// The week of its year that a date lies in, with weeks from Sunday on. Days before the first Sunday are in week 0.
pub(crate) fn week_from_sunday(date: NaiveDate) -> u32
    ensures value { result ≡ week_from_sunday date }
    ensures few { result ≤ 53 }
{
    (date.ordinal() + 6 - date.weekday().num_days_from_sunday()) / 7
}

// The same with weeks from Monday on.
pub(crate) fn week_from_monday(date: NaiveDate) -> u32
    ensures value { result ≡ week_from_monday date }
    ensures few { result ≤ 53 }
{
    (date.ordinal() + 6 - date.weekday().num_days_from_monday()) / 7
}

// The weekday of a year's first day, as the days from Sunday to it.
pub(crate) fn first_weekday(year: i32) -> Option<u32>
    ensures first { IsYear year → result ≡ Some (days_from_sunday_of (day_number_of_yo year 1)) }
    ensures few { IfSome result (λ days. days < 7) }
{
    let date = NaiveDate::from_yo_opt(year, 1)?;
    Some(date.weekday().num_days_from_sunday())
}

// The day of the year by its week and its weekday, a number from 1 for Monday. The weeks begin so many days after Sunday. So many days
// after Sunday lies the first day of the year.
pub(crate) fn ordinal_in_week(first: u32, start: u32, week: u32, weekday: u32) -> Option<u32>
    requires first { first < 7 }
    requires start { start < 7 }
    ensures { (ordinal : ℕ) → 0 < ordinal → ordinal ≤ 366 → 0 < weekday → weekday ≤ 7 → (first + ordinal + 6) % 7 ≡ weekday % 7
        → week ≡ (ordinal + 6 - (weekday + 7 - start) % 7) / 7 → result ≡ Some ordinal }
{
    if week > 53 || weekday > 7 {
        return None;
    }
    let place = (weekday + 7 - start) % 7;
    // How many days of the year are before the first of these weeks.
    let before = (7 + start - first) % 7;
    let past = 7 * week + before + place;
    if past < 7 { None } else { Some(past - 6) }
}
