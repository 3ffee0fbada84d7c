//! Date arithmetic over any stored form, by the laws of [`DayForm`] alone.
//!
//! Each function reads a form, computes with plain numbers, and asks the form for the date that results. It returns `None`
//! exactly if that date does not exist. The examples use `PackedForm` of the crate `chrono_stored`.
ghost use Rattle.std.specs.Prelude.{◌≡◌, pos, neg_ℤ, ◌+◌, ◌≤◌, ◌+ℤ◌, ◌≤ℤ◌, ◌<ℤ◌, IfSome};
ghost use Rattle.std.specs.Int.{IsInRange};
ghost use Rattle.std.specs.Option.{option_map};
ghost use Rattle.chrono_units.specs.Years.{IsYear};
ghost use Rattle.chrono_calendar.specs.Days.{IsCalendarName, date_of_day, day_number_of_ymd, days_before_year};
ghost use Rattle.chrono_calendar.specs.Weeks.{IsFirstOfWeek, date_of_iso, date_of_nth_weekday, days_from_sunday_of, iso_week_of, iso_year_of, week_first_of, weekday_of};
ghost use Rattle.chrono_calendar.specs.MonthMoves.{month_move};
ghost use Rattle.chrono_calendar.specs.Recurrence.{date_every, date_on};
ghost use Rattle.chrono_calendar.specs.YearsBetween.{years_between as whole_years};

use crate::counted_years::days_counted_before;
use crate::form::DayForm;
use crate::steps::Steps;
use chrono_units::year::{MAX_YEAR, MIN_YEAR, year_length};
use chrono_units::{Weekday, WeekdaySet};

/// Returns the date with the day number `days`, as [`DayForm::from_day`] does, with no counter of steps.
///
/// Returns `None` if `days` is outside the range of dates.
///
/// ```
/// use chrono_stored::PackedForm;
/// forms::from_day::<PackedForm>(738_945)?.year_month_day() // (2024, 2, 29)
/// ```
#[inline]
pub fn from_day<F: DayForm>(days: i32) -> Option<F>
    ensures { option_map F.number result ≡ date_of_day days }
{
    let mut steps = Steps::new();
    let date = F::from_day(days, &mut steps);
    steps.end();
    date
}

/// Returns the date `k` days later, or earlier for a negative `k`, as [`move_days`] does, with no counter of steps.
///
/// Returns `None` if that day is outside the range of dates.
///
/// ```
/// use chrono_stored::PackedForm;
/// forms::days_later(PackedForm::from_ymd(2023, 2, 28)?, 1)?.year_month_day() // (2023, 3, 1)
/// ```
#[inline]
pub fn days_later<F: DayForm>(f: F, k: i64) -> Option<F>
    ensures { option_map F.number result ≡ date_of_day (F.number f +ℤ k) }
{
    let mut steps = Steps::new();
    let date = move_days(f, k, &mut steps);
    steps.end();
    date
}

/// Returns the date `k` days later, or earlier for a negative `k`.
///
/// Returns `None` if that day is outside the range of dates.
///
/// ```
/// use chrono_stored::PackedForm;
/// let start = PackedForm::from_ymd(2023, 2, 28)?;
/// let mut steps = Steps::new();
/// let date = forms::move_days(start, 1, &mut steps);
/// steps.end();
/// date?.year_month_day() // (2023, 3, 1)
/// ```
///
/// It adds at most four steps to `steps`: one for reading the form, and those of [`DayForm::from_day`].
#[inline]
pub fn move_days<F: DayForm>(f: F, k: i64, steps: &mut Steps) -> Option<F>
    ensures date { option_map F.number result ≡ date_of_day (F.number f +ℤ k) }
    ensures taken { steps.new ≡ steps.old + 1 + F.steps_of (F.number f +ℤ k) }
    ensures cost { steps.new ≤ steps.old + 4 }
{
    steps.tick();
    let target = i64::from(f.day()).checked_add(k)?;
    let day = i32::try_from(target).ok()?;
    F::from_day(day, steps)
}

/// Returns the date `k` months later, or earlier for a negative `k`.
///
/// The day of the month stays. If the new month is too short, the result is its last day. Returns `None` if the new year is
/// outside the range of years.
///
/// ```
/// use chrono_stored::PackedForm;
/// forms::move_months(PackedForm::from_ymd(2023, 1, 31)?, 1)?.year_month_day() // (2023, 2, 28)
/// ```
#[inline]
pub fn move_months<F: DayForm>(f: F, k: i64) -> Option<F>
    ensures { option_map F.number result ≡ month_move (F.number f) k }
{
    f.move_months(k)
}

/// Returns the date `k * i` months later, or earlier for a negative `k`, in one move.
///
/// If the new month is too short, the result is its last day. Returns `None` if the new year is outside the range of years.
///
/// ```
/// use chrono_stored::PackedForm;
/// let date = PackedForm::from_ymd(2024, 1, 31)?;
/// forms::every_months(date, 1, 1)?.year_month_day() // (2024, 2, 29)
/// forms::every_months(date, 1, 2)?.year_month_day() // (2024, 3, 31)
/// ```
///
/// A longer month later has the original day again, as 31 March here.
#[inline]
pub fn every_months<F: DayForm>(f: F, k: i32, i: u32) -> Option<F>
    ensures { option_map F.number result ≡ date_every (F.number f) k i }
{
    move_months(f, i64::from(k) * i64::from(i))
}

/// Returns the ISO year and its week, from 1 to 53 (ISO 8601 week date): those of the Thursday of the date's week.
///
/// ```
/// use chrono_stored::PackedForm;
/// forms::iso_name(&PackedForm::from_ymd(2024, 12, 30)?) // (2025, 1)
/// ```
///
/// The last days of the year 262,142 are in the ISO year 262,143.
#[inline]
pub fn iso_name<F: DayForm>(f: &F) -> (i32, u32)
    ensures year { result.0 ≡ iso_year_of (F.number f.now) }
    ensures week { result.1 ≡ iso_week_of (F.number f.now) }
    // One year more than dates have: their last days may be in a week of the next year.
    ensures year_in_range { (neg_ℤ (pos 262_143) ≤ℤ result.0) × (result.0 ≤ℤ pos 262_143) }
    ensures week_in_range { IsInRange 1 53 result.1 }
{
    f.iso_name()
}

// The weekday of the day before the year, from 0 for Sunday.
#[inline]
fn days_from_sunday_before(year: i32) -> u32
    requires low { neg_ℤ (pos 262_143) ≤ℤ year }
    requires high { year ≤ℤ pos 262_143 }
    ensures { result ≡ days_from_sunday_of (days_before_year year) }
{
    days_counted_before(year) % 7
}

/// Returns the date with the ISO year `year`, the week `week` and the weekday `weekday` (ISO 8601 week date).
///
/// Returns `None` if the ISO year has no such week, or the day is outside the range of dates.
///
/// ```
/// use chrono_stored::PackedForm;
/// use chrono_units::Weekday;
/// forms::from_iso::<PackedForm>(2020, 53, Weekday::Sun)?.year_month_day() // (2021, 1, 3)
/// forms::from_iso::<PackedForm>(2021, 53, Weekday::Mon) == None // true
/// ```
#[inline]
pub fn from_iso<F: DayForm>(year: i32, week: u32, weekday: Weekday) -> Option<F>
    ensures { option_map F.number result ≡ date_of_iso year week weekday }
{
    if year < MIN_YEAR || year > MAX_YEAR + 1 {
        return None;
    }
    if week == 0 || week > 53 {
        return None;
    }
    // The days from the Monday of week 1 to 4 January, which that week always holds.
    let before_monday = (days_from_sunday_before(year) + 3) % 7;
    let length = year_length(year);
    // A week belongs to the year that its Thursday is in.
    if week * 7 > length + before_monday {
        return None;
    }
    let place = week * 7 + weekday.num_days_from_monday();
    if place <= before_monday + 3 {
        return F::from_yo(year - 1, place + year_length(year - 1) - before_monday - 3);
    }
    let ordinal = place - before_monday - 3;
    if ordinal > length {
        return F::from_yo(year + 1, ordinal - length);
    }
    F::from_yo(year, ordinal)
}

/// Returns the day number of the first day of the date's week, if weeks begin on `start`.
///
/// ```
/// use chrono_stored::PackedForm;
/// use chrono_units::Weekday;
/// let date = PackedForm::from_ymd(1, 1, 1)?;
/// (date.weekday(), date.day()) // (Mon, 1)
/// forms::week_first(&date, Weekday::Sun) // 0
/// ```
///
/// The result can be the number of a day outside the range of dates.
#[inline]
pub fn week_first<F: DayForm>(f: &F, start: Weekday) -> i32
    ensures value { result ≡ week_first_of (F.number f.now) start }
    ensures starts { weekday_of result ≡ start }
    ensures not_after { result ≤ℤ F.number f.now }
    ensures within { F.number f.now <ℤ (result +ℤ pos 7) }
    ensures in_range { IsFirstOfWeek result }
{
    f.day() - f.weekday().days_since(start) as i32
}

/// Returns the first date from `f` on whose weekday is in `set`. It can be `f` itself.
///
/// Returns `None` if `set` is empty, or the day is after the last date.
///
/// ```
/// use chrono_stored::PackedForm;
/// use chrono_units::{Weekday, WeekdaySet};
/// let set = WeekdaySet::from_array([Weekday::Tue, Weekday::Thu]);
/// forms::first_on(PackedForm::from_ymd(2024, 12, 30)?, set)?.year_month_day() // (2024, 12, 31)
/// ```
#[inline]
pub fn first_on<F: DayForm>(f: F, set: WeekdaySet) -> Option<F>
    ensures { option_map F.number result ≡ date_on (F.number f) set }
{
    let start = f.day();
    let ahead = set.days_until(f.weekday())?;
    from_day(start + ahead as i32)
}

/// Returns the `n`-th day of the month that falls on `weekday`, counted from 1.
///
/// Returns `None` if `year` or `month` is out of range, `n` is 0, or the month has fewer than `n` such days.
///
/// ```
/// use chrono_stored::PackedForm;
/// use chrono_units::Weekday;
/// forms::nth_weekday::<PackedForm>(2024, 1, Weekday::Fri, 3)?.year_month_day() // (2024, 1, 19)
/// forms::nth_weekday::<PackedForm>(2024, 1, Weekday::Fri, 5) == None // true
/// ```
#[inline]
pub fn nth_weekday<F: DayForm>(year: i32, month: u32, weekday: Weekday, n: u8) -> Option<F>
    ensures { option_map F.number result ≡ date_of_nth_weekday year month weekday n }
{
    if n == 0 {
        return None;
    }
    let first: F = F::from_ymd(year, month, 1)?;
    let ahead = weekday.days_since(first.weekday());
    F::from_ymd(year, month, (u32::from(n) - 1) * 7 + ahead + 1)
}

/// Returns the number of whole years from `base` to `f`.
///
/// This is the difference of the years. It is one less if the month and day of `f` come before those of `base`. Returns
/// `None` if `f` is before `base`.
///
/// ```
/// use chrono_stored::PackedForm;
/// let base = PackedForm::from_ymd(2000, 2, 29)?;
/// forms::years_between(&PackedForm::from_ymd(2001, 2, 28)?, &base) // Some(0)
/// forms::years_between(&PackedForm::from_ymd(2001, 3, 1)?, &base) // Some(1)
/// ```
#[inline]
pub fn years_between<F: DayForm>(f: &F, base: &F) -> Option<u32>
    ensures { result ≡ whole_years (F.number f.now) (F.number base.now) }
{
    years_between_names(f.year_month_day(), base.year_month_day())
}

/// Returns the number of whole years from the date with the name `base` to that with the name `date`, as [`years_between`]
/// does.
///
/// A name is a year, a month and a day of the month. Requires the dates to exist.
///
/// ```
/// forms::years_between_names((2001, 2, 28), (2000, 2, 29)) // Some(0)
/// ```
#[inline]
pub fn years_between_names(date: (i32, u32, u32), base: (i32, u32, u32)) -> Option<u32>
    requires date { IsYear date.0 × IsCalendarName date.0 date.1 date.2 }
    requires base { IsYear base.0 × IsCalendarName base.0 base.1 base.2 }
    ensures { result ≡ whole_years (day_number_of_ymd date.0 date.1 date.2) (day_number_of_ymd base.0 base.1 base.2) }
{
    let (year, month, day) = date;
    let (base_year, base_month, base_day) = base;
    let is_earlier = month * 32 + day < base_month * 32 + base_day; // no month has 32 days
    let years = year - base_year - i32::from(is_earlier);
    if years < 0 {
        return None;
    }
    Some(years as u32)
}
