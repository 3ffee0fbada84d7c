//! Questions on dates: ages, months, weekdays and weeks.
ghost use Rattle.std.specs.Prelude.{◌≡◌};
ghost use Rattle.chrono_datetime.specs.Days.{date_of_ymd, year_of, month_of};
ghost use Rattle.chrono_datetime.specs.Years.{month_length};
ghost use Rattle.chrono_datetime.specs.Weekday.{days_since};
ghost use Rattle.chrono_datetime.specs.Weeks.{weekday_of, iso_year_of, iso_week_of, date_of_nth_weekday};
ghost use Rattle.chrono_datetime.specs.YearsBetween.{years_between};
ghost use Rattle.chrono_datetime.specs.declared.Weekday.TheVariants.{Fri};

use chrono_datetime::{Datelike, NaiveDate, Weekday};

/// A person's age in whole years on a date; `None` before the day of birth.
pub fn age_on(date: NaiveDate, birth: NaiveDate) -> Option<u32>
    ensures { result ≡ years_between date birth }
{
    date.years_since(birth)
}

/// The last day of the date's month.
pub fn last_day_of_month(date: NaiveDate) -> Option<NaiveDate>
    ensures { result ≡ date_of_ymd (year_of date) (month_of date)
        (month_length (year_of date) (month_of date)) }
{
    date.with_day(u32::from(date.num_days_in_month()))
}

/// The third Friday of a month; `None` exactly if the calendar has no such month.
pub fn third_friday(year: i32, month: u32) -> Option<NaiveDate>
    ensures { result ≡ date_of_nth_weekday year month Fri 3 }
{
    NaiveDate::from_weekday_of_month_opt(year, month, Weekday::Fri, 3)
}

/// The days from a date to the next given weekday, 0 to 6: 0 if the date has it.
pub fn days_to(date: NaiveDate, weekday: Weekday) -> u32
    ensures { result ≡ days_since weekday (weekday_of date) }
{
    weekday.days_since(date.weekday())
}

/// The year and the week of it that label a date (ISO 8601).
pub fn week_label(date: NaiveDate) -> (i32, u32)
    ensures year { result.0 ≡ iso_year_of date }
    ensures week { result.1 ≡ iso_week_of date }
{
    let week = date.iso_week();
    (week.year(), week.week())
}
