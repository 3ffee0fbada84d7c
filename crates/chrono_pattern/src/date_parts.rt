//! The date that the parts of a text give.
ghost use Rattle.std.specs.Prelude.{◌≡◌, ◌↔◌, ◌<◌, ◌≤ℤ◌, ℕ, ℤ, pos, true, false, Ok, Err, Some, None, IfOk, IfSome, IfErr};
ghost use Rattle.std.specs.Int.{int_div_euclid, int_rem_euclid};
ghost use Rattle.chrono_datetime.specs.Days.{IsDate, day_of, month_of, year_of};
ghost use Rattle.chrono_datetime.specs.Years.{IsYear};
ghost use Rattle.chrono_pattern.specs.DateParts.{date_fits, day_fits, in_window, names_calendar, names_date, names_ordinal, names_week, names_year, names_year_week, says, week_fits, weekday_at_number, year_fits, year_week_fits};
ghost use Rattle.chrono_pattern.specs.PlainParts.{IsCalendarAlone};
ghost use Rattle.chrono_pattern.specs.YearWeeks.{weeks_begun};
ghost use Rattle.chrono_pattern.specs.Parts.{fault_of_parts};
ghost use Rattle.chrono_pattern.specs.declared.error.ReadFault.TheVariants.{NotEnough};

use crate::error::ReadFault;
use crate::parsed::Parsed;
use crate::year_week::{first_weekday, ordinal_in_week, week_from_monday, week_from_sunday};
use chrono_datetime::{Datelike, NaiveDate, Weekday};

impl Parsed {
    /// Returns the date that fits all parts.
    ///
    /// It has to be named in one of these ways:
    ///
    /// - by year, month and day;
    /// - by year and day of the year;
    /// - by year, week of the year from Sunday or from Monday on, and weekday;
    /// - by ISO year, ISO week and weekday.
    ///
    /// A year is also its century and its year there, or that year alone for 1970 to 2069.
    ///
    /// chrono 0.4.23 differs in these:
    ///
    /// - By `%g` an ISO year of 1970 to 2069 is named there. Here `%G` has to name it, and `%g` is only compared.
    /// - Beside an ISO date, a century alone is not enough there, and a year of the century may be of any century.
    /// - No year below 0 has a century there. A week of the year is compared with chrono's own count.
    ///
    /// # Errors
    ///
    /// Returns `NotEnough` if no date is named, which is told by the fields alone. Returns `Impossible` if no date fits, also for a day that the
    /// calendar does not have. For that chrono answers `OutOfRange`.
    ///
    /// ```
    /// let parsed = Pattern::new(b"%a %d.%m.%y").ok()?.read_parts(b"Thu 29.02.24").ok()?;
    /// parsed.to_date().ok() // Some(2024-02-29)
    /// let parsed = Pattern::new(b"%a %d.%m.%y").ok()?.read_parts(b"Fri 29.02.24").ok()?;
    /// parsed.to_date().err() // Some(Impossible)
    /// Pattern::new(b"%Y-%j").ok()?.read_parts(b"2024-366").ok()?.to_date().ok() // Some(2024-12-31)
    /// Pattern::new(b"%Y-%j").ok()?.read_parts(b"2023-366").ok()?.to_date().err() // Some(Impossible)
    /// Pattern::new(b"%G-W%V-%u").ok()?.read_parts(b"2020-W53-5").ok()?.to_date().ok() // Some(2021-01-01)
    /// Pattern::new(b"%G-W%V-%u").ok()?.read_parts(b"2021-W53-5").ok()?.to_date().err() // Some(Impossible)
    /// Pattern::new(b"%d.%m.%y").ok()?.read_parts(b"01.01.69").ok()?.to_date().ok() // Some(2069-01-01)
    /// Pattern::new(b"%d.%m.%y").ok()?.read_parts(b"01.01.70").ok()?.to_date().ok() // Some(1970-01-01)
    /// Parsed::new().to_date().err() // Some(NotEnough)
    /// ```
    pub fn to_date(&self) -> Result<NaiveDate, ReadFault>
        ensures named { IfOk result (λ n. names_date self.now ≡ true) }
        ensures fits { IfOk result (λ n. date_fits self.now n ≡ true) }
        ensures in_range { IfOk result (λ n. IsDate n) }
        // So no two dates fit parts that name one.
        ensures every { (n : ℤ) → IsDate n → names_date self.now ≡ true → date_fits self.now n ≡ true → result ≡ Ok n }
        ensures not_enough { (result ≡ Err NotEnough) ↔ (names_date self.now ≡ false) }
        ensures error { IfErr result (λ e. e ≡ fault_of_parts (names_date self.now)) }
    {
        if let Some(date) = plain_date(self) {
            return Ok(date);
        }
        any_date(*self)
    }
}

// The date of a year, a month and a day, where no other part of a date is given.
#[inline(always)]
fn plain_date(parts: &Parsed) -> Option<NaiveDate>
    ensures named { IfSome result (λ d. names_date parts.now ≡ true) }
    ensures fits { IfSome result (λ d. date_fits parts.now d ≡ true) }
    ensures in_range { IfSome result (λ d. IsDate d) }
    ensures only { IfSome result (λ d. (n : ℤ) → IsDate n → date_fits parts.now n ≡ true → d ≡ n) }
{
    if !is_calendar_alone(parts) {
        return None;
    }
    date_named(parts.year, parts.month, parts.day)
}

// The date with this year, month and day.
#[inline(always)]
fn date_named(year: Option<i32>, month: Option<i32>, day: Option<i32>) -> Option<NaiveDate>
    ensures date { IfSome result (λ d. IsDate d) }
    ensures year { IfSome result (λ d. year ≡ Some (year_of d)) }
    ensures month { IfSome result (λ d. month ≡ Some (pos (month_of d))) }
    ensures day { IfSome result (λ d. day ≡ Some (pos (day_of d))) }
{
    let year = year?;
    NaiveDate::from_ymd_opt(year, natural(month)?, natural(day)?)
}

// Whether no part of a date is given besides a year, a month and a day.
#[inline(always)]
fn is_calendar_alone(parts: &Parsed) -> bool
    ensures { result ≡ true → IsCalendarAlone parts.now }
{
    is_absent(parts.year_div_100)
        && is_absent(parts.year_mod_100)
        && is_absent(parts.ordinal)
        && is_absent(parts.quarter)
        && is_absent(parts.isoyear)
        && is_absent(parts.isoyear_mod_100)
        && is_absent(parts.isoweek)
        && is_absent(parts.weekday)
        && is_absent(parts.week_from_sun)
        && is_absent(parts.week_from_mon)
}

// Whether a part is not given.
#[inline(always)]
fn is_absent(part: Option<i32>) -> bool
    ensures { result ≡ true → part ≡ None }
{
    match part {
        None => true,
        Some(_) => false,
    }
}

// A part that is given and is no number below 0.
#[inline(always)]
pub(crate) fn natural(part: Option<i32>) -> Option<u32>
    ensures value { IfSome result (λ n. part ≡ Some (pos n)) }
    ensures every { (n : ℕ) → part ≡ Some (pos n) → result ≡ Some n }
{
    let value = part?;
    if value < 0 {
        None
    } else {
        Some(value.unsigned_abs())
    }
}

// The date that fits all parts. It is apart, so that the usual ones take few instructions.
#[inline(never)]
fn any_date(parts: Parsed) -> Result<NaiveDate, ReadFault>
    ensures named { IfOk result (λ n. names_date parts ≡ true) }
    ensures fits { IfOk result (λ n. date_fits parts n ≡ true) }
    ensures in_range { IfOk result (λ n. IsDate n) }
    ensures every { (n : ℤ) → IsDate n → names_date parts ≡ true → date_fits parts n ≡ true → result ≡ Ok n }
    ensures not_enough { (result ≡ Err NotEnough) ↔ (names_date parts ≡ false) }
    ensures error { IfErr result (λ e. e ≡ fault_of_parts (names_date parts)) }
{
    if !names_date(parts) {
        return Err(ReadFault::NotEnough);
    }
    match named_date(parts) {
        Some(date) => {
            if fits_date(parts, date) {
                Ok(date)
            } else {
                Err(ReadFault::Impossible)
            }
        }
        None => Err(ReadFault::Impossible),
    }
}

// Whether a part is this value, if it is given.
pub(crate) fn says(part: Option<i32>, value: i32) -> bool
    ensures { result ≡ says part value }
{
    match part {
        None => true,
        Some(given) => given == value,
    }
}

// Whether the parts suffice for a date.
#[tactic(auto, unfolding(crate::specs::DateParts::names_date))]
pub(crate) fn names_date(parts: Parsed) -> bool
    ensures { result ≡ names_date parts }
{
    if names_calendar(parts) {
        true
    } else if names_ordinal(parts) {
        true
    } else if names_week(parts) {
        true
    } else if names_year_week(parts.week_from_sun, parts) {
        true
    } else {
        names_year_week(parts.week_from_mon, parts)
    }
}

// Whether the parts name a year.
fn names_year(parts: Parsed) -> bool
    ensures { result ≡ names_year parts }
{
    if parts.year.is_some() {
        true
    } else {
        parts.year_mod_100.is_some()
    }
}

// Whether the parts name a year, a month and a day.
#[tactic(auto, unfolding(crate::specs::DateParts::names_calendar))]
fn names_calendar(parts: Parsed) -> bool
    ensures { result ≡ names_calendar parts }
{
    names_year(parts) && parts.month.is_some() && parts.day.is_some()
}

// Whether the parts name a year and a day there.
#[tactic(auto, unfolding(crate::specs::DateParts::names_ordinal))]
fn names_ordinal(parts: Parsed) -> bool
    ensures { result ≡ names_ordinal parts }
{
    names_year(parts) && parts.ordinal.is_some()
}

// Whether the parts name an ISO year, a week and a weekday.
#[tactic(auto, unfolding(crate::specs::DateParts::names_week))]
fn names_week(parts: Parsed) -> bool
    ensures { result ≡ names_week parts }
{
    parts.isoyear.is_some() && parts.isoweek.is_some() && parts.weekday.is_some()
}

// Whether the parts name a year, this week of it and a weekday.
#[tactic(auto, unfolding(crate::specs::DateParts::names_year_week))]
fn names_year_week(week: Option<i32>, parts: Parsed) -> bool
    ensures { result ≡ names_year_week week parts }
{
    names_year(parts) && week.is_some() && parts.weekday.is_some()
}

// Whether a date fits all parts.
#[tactic(auto, unfolding(crate::specs::DateParts::date_fits))]
pub(crate) fn fits_date(parts: Parsed, date: NaiveDate) -> bool
    ensures fits { result ≡ date_fits parts date }
    ensures in_range { IsDate date }
{
    fits_year(parts, date_year(date))
        && fits_day(parts, date)
        && fits_week(parts, date)
        && fits_year_week(parts, date)
}

// The year of a date. It shows that the date is in the range of dates.
fn date_year(date: NaiveDate) -> i32
    ensures value { result ≡ year_of date }
    ensures in_range { IsDate date }
{
    date.year()
}

// Whether a year fits its parts.
#[tactic(auto, unfolding(crate::specs::DateParts::year_fits))]
fn fits_year(parts: Parsed, year: i32) -> bool
    ensures { result ≡ year_fits parts year }
{
    says(parts.year, year)
        && says(parts.year_div_100, year.div_euclid(100))
        && says(parts.year_mod_100, year.rem_euclid(100))
        && is_in_window(parts, year)
}

// Whether a year of a century that stands alone may stand for a year.
fn is_in_window(parts: Parsed, year: i32) -> bool
    ensures { result ≡ in_window parts.year parts.year_div_100 parts.year_mod_100 year }
{
    match (parts.year, parts.year_div_100, parts.year_mod_100) {
        (None, None, Some(_)) => 1_970 <= year && year <= 2_069,
        _ => true,
    }
}

// Whether a date fits the parts of a day of the year.
#[tactic(auto, unfolding(crate::specs::DateParts::day_fits))]
fn fits_day(parts: Parsed, date: NaiveDate) -> bool
    ensures { result ≡ day_fits parts date }
{
    says(parts.month, date.month() as i32)
        && says(parts.day, date.day() as i32)
        && says(parts.ordinal, date.ordinal() as i32)
        && says(parts.quarter, date.quarter() as i32)
}

// Whether a date fits the parts of a day of an ISO week.
#[tactic(auto, unfolding(crate::specs::DateParts::week_fits))]
fn fits_week(parts: Parsed, date: NaiveDate) -> bool
    ensures { result ≡ week_fits parts date }
{
    says(parts.isoyear, date.iso_week().year())
        && says(
            parts.isoyear_mod_100,
            date.iso_week().year().rem_euclid(100),
        )
        && says(parts.isoweek, date.iso_week().week() as i32)
        && says(parts.weekday, date.weekday().number_from_monday() as i32)
}

// Whether a date fits the parts of a week of the year.
#[tactic(auto, unfolding(crate::specs::DateParts::year_week_fits))]
fn fits_year_week(parts: Parsed, date: NaiveDate) -> bool
    ensures { result ≡ year_week_fits parts date }
{
    says(parts.week_from_sun, week_from_sunday(date) as i32)
        && says(parts.week_from_mon, week_from_monday(date) as i32)
}

// The date that the parts name, if they name one.
fn named_date(parts: Parsed) -> Option<NaiveDate>
    ensures { (n : ℤ) → IsDate n → names_date parts ≡ true → date_fits parts n ≡ true → result ≡ Some n }
{
    if names_calendar(parts) {
        calendar_date(parts)
    } else if names_ordinal(parts) {
        ordinal_date(parts)
    } else if names_week(parts) {
        week_date(parts)
    } else if names_year_week(parts.week_from_sun, parts) {
        year_week_date(parts, parts.week_from_sun, 0)
    } else {
        year_week_date(parts, parts.week_from_mon, 1)
    }
}

// The date by year, month and day.
fn calendar_date(parts: Parsed) -> Option<NaiveDate>
    ensures { (n : ℤ) → IsDate n → names_calendar parts ≡ true → date_fits parts n ≡ true → result ≡ Some n }
{
    let year = named_year(parts)?;
    let month = parts.month?;
    let day = parts.day?;
    NaiveDate::from_ymd_opt(year, month.unsigned_abs(), day.unsigned_abs())
}

// The date by year and day of the year.
fn ordinal_date(parts: Parsed) -> Option<NaiveDate>
    ensures { (n : ℤ) → IsDate n → names_ordinal parts ≡ true → date_fits parts n ≡ true → result ≡ Some n }
{
    let year = named_year(parts)?;
    let ordinal = parts.ordinal?;
    NaiveDate::from_yo_opt(year, ordinal.unsigned_abs())
}

// The date by ISO year, week and weekday.
fn week_date(parts: Parsed) -> Option<NaiveDate>
    ensures { (n : ℤ) → IsDate n → names_week parts ≡ true → date_fits parts n ≡ true → result ≡ Some n }
{
    let year = parts.isoyear?;
    let week = parts.isoweek?;
    let weekday = parts.weekday?;
    NaiveDate::from_isoywd_opt(year, week.unsigned_abs(), weekday_at_number(weekday))
}

// The date by year, week of the year and weekday. The weeks begin so many days after Sunday.
fn year_week_date(parts: Parsed, week: Option<i32>, start: u32) -> Option<NaiveDate>
    requires { start < 7 }
    ensures { (n : ℤ) → IsDate n → names_year_week week parts ≡ true → says week (pos (weeks_begun start n)) ≡ true → date_fits parts n ≡ true
        → result ≡ Some n }
{
    let year = named_year(parts)?;
    let week = week?;
    let weekday = parts.weekday?;
    let first = first_weekday(year)?;
    let ordinal = ordinal_in_week(first, start, week.unsigned_abs(), weekday.unsigned_abs())?;
    NaiveDate::from_yo_opt(year, ordinal)
}

// The weekday of a number from 1 for Monday, and Sunday for any other.
fn weekday_at_number(number: i32) -> Weekday
    ensures { result ≡ weekday_at_number number }
{
    if number == 1 {
        Weekday::Mon
    } else if number == 2 {
        Weekday::Tue
    } else if number == 3 {
        Weekday::Wed
    } else if number == 4 {
        Weekday::Thu
    } else if number == 5 {
        Weekday::Fri
    } else if number == 6 {
        Weekday::Sat
    } else {
        Weekday::Sun
    }
}

// The year that the parts name.
fn named_year(parts: Parsed) -> Option<i32>
    ensures { (y : ℤ) → IsYear y → names_year parts ≡ true → year_fits parts y ≡ true → result ≡ Some y }
{
    match parts.year {
        Some(_) => parts.year,
        None => year_in_century(parts),
    }
}

// The year that its place in its century names, with the century or alone.
fn year_in_century(parts: Parsed) -> Option<i32>
    ensures { (y : ℤ) → IsYear y → parts.year ≡ None → names_year parts ≡ true → year_fits parts y ≡ true → result ≡ Some y }
{
    let part = parts.year_mod_100?;
    match parts.year_div_100 {
        Some(century) => year_of_century(century, part),
        None => year_in_window(part),
    }
}

// The year of a century by its place there. Nothing if it is none of a date.
fn year_of_century(century: i32, part: i32) -> Option<i32>
    ensures { (y : ℤ) → IsYear y → century ≡ int_div_euclid y (pos 100) → part ≡ int_rem_euclid y (pos 100) → result ≡ Some y }
{
    if century < -3_000 || century > 3_000 || part < 0 || part > 99 {
        return None;
    }
    Some(century * 100 + part)
}

// The year from 1970 to 2069 with this place in its century, if there is one.
fn year_in_window(part: i32) -> Option<i32>
    ensures { (y : ℤ) → pos 1970 ≤ℤ y → y ≤ℤ pos 2069 → part ≡ int_rem_euclid y (pos 100) → result ≡ Some y }
{
    if part < 0 || part > 99 {
        None
    } else if part < 70 {
        Some(2_000 + part)
    } else {
        Some(1_900 + part)
    }
}
