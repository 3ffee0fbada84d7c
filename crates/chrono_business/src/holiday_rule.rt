//! Rules that define holidays.
//!
//! `HolidayDay` is the day that is named in a year, and `Moved` says where it goes from a weekend.
//! `HolidayRule` has both, with the years in which the rule holds.
ghost use Rattle.std.specs.Prelude.{◌≡◌, ◌≤◌, ◌==◌, if◌then◌else◌, pos, ◌+ℤ◌, IfSome};
ghost use Rattle.std.specs.Option.{option_and_then};
ghost use Rattle.chrono_datetime.specs.Weekday.{days_from_monday};
ghost use Rattle.chrono_datetime.specs.Days.{IsDate, date_of_day};
ghost use Rattle.chrono_datetime.specs.Weeks.{date_of_last_weekday};
ghost use Rattle.chrono_business.specs.HolidayRules.{holiday_named, date_of_easter_plus, date_of_equinox, date_of_rule, day_of_equinox, from_saturday, from_sunday, moved_by};

use crate::computus::easter;
use chrono_datetime::{Datelike, Month, NaiveDate, Weekday};

// The first year for which the formula of the equinoxes is made.
const FIRST_EQUINOX: i32 = 1980;

// The last one.
const LAST_EQUINOX: i32 = 2099;

/// A day that every year has, or some years.
#[derive(Clone, Copy, PartialEq, Eq, Hash, Debug)]
pub enum HolidayDay {
    /// This day of this month, such as 25 December.
    Fixed(Month, u32),
    /// The `n`-th day of the month with this weekday, counted from 1, such as the fourth Thursday in November.
    NthWeekday(u8, Weekday, Month),
    /// The last day of the month with this weekday, such as the last Monday in May.
    LastWeekday(Weekday, Month),
    /// The day that is this number of days after Easter Sunday. A negative number is before it.
    EasterPlus(i32),
    /// The day of the equinox in March, by Japan's time.
    ///
    /// The years from 1980 to 2099 have it: the formula of Japan's Hydrographic Department is made for them.
    VernalEquinox,
    /// The day of the equinox in September, by Japan's time. The years from 1980 to 2099 have it.
    AutumnalEquinox,
}

/// Where a holiday goes that falls on a Saturday or a Sunday. On any other day it stays.
#[derive(Clone, Copy, PartialEq, Eq, Hash, Debug)]
pub enum Moved {
    /// The holiday is not moved.
    Stays,
    /// A holiday on Sunday goes to Monday. On Saturday it stays.
    SundayToMonday,
    /// A holiday on Saturday or Sunday goes to the Monday after it.
    ToMonday,
    /// The holiday goes to the nearer workday: from Saturday to Friday, and from Sunday to Monday.
    ToNearer,
    /// The holiday goes two days later: from Saturday to Monday, and from Sunday to Tuesday.
    ///
    /// This serves two holidays that follow one another, such as Christmas Day and Boxing Day.
    TwoDaysOn,
    /// A holiday on Sunday goes this number of days later. On Saturday it stays.
    ///
    /// This serves a holiday that others follow, such as 3 May in Japan, which goes from Sunday to 6 May.
    SundayPlus(u8),
}

/// A rule of holidays: a day, where it goes from a weekend, and the years in which the rule holds.
#[derive(Clone, Copy, PartialEq, Eq, Hash, Debug)]
pub struct HolidayRule {
    /// The day that is named.
    pub day: HolidayDay,
    /// Where the day goes if it is on a weekend.
    pub moved: Moved,
    /// The first year in which the rule holds.
    pub first_year: i32,
    /// The last year in which the rule holds.
    pub last_year: i32,
}

impl HolidayDay {
    /// Returns the date that is named in `year`.
    ///
    /// Returns `None` if the year has no such day.
    ///
    /// ```
    /// use chrono_datetime::{Month, Weekday};
    /// HolidayDay::NthWeekday(4, Weekday::Thu, Month::November).date_in(2024) // Some(2024-11-28)
    /// HolidayDay::Fixed(Month::February, 29).date_in(2023) // None
    /// ```
    #[tactic(auto, unfolding(crate::specs::HolidayRules::holiday_named))]
    pub fn date_in(self, year: i32) -> Option<NaiveDate>
        ensures { result ≡ holiday_named self year }
    {
        match self {
            HolidayDay::Fixed(month, day) => {
                NaiveDate::from_ymd_opt(year, month.number_from_month(), day)
            }
            HolidayDay::NthWeekday(n, weekday, month) => {
                NaiveDate::from_weekday_of_month_opt(year, month.number_from_month(), weekday, n)
            }
            HolidayDay::LastWeekday(weekday, month) => {
                last_weekday(year, month.number_from_month(), weekday)
            }
            HolidayDay::EasterPlus(days) => easter_plus(year, days),
            HolidayDay::VernalEquinox => equinox(year, 3, 20_843_100),
            HolidayDay::AutumnalEquinox => equinox(year, 9, 23_248_800),
        }
    }
}

impl Moved {
    /// Returns the date to which a holiday on `date` is moved.
    ///
    /// Returns `None` if that date is out of range.
    ///
    /// ```
    /// use chrono_datetime::NaiveDate;
    /// Moved::ToNearer.date_from(NaiveDate::from_ymd_opt(2021, 7, 4)?) // Some(2021-07-05)
    /// ```
    pub fn date_from(self, date: NaiveDate) -> Option<NaiveDate>
        ensures date { result ≡ date_of_day (date +ℤ moved_by self date) }
        ensures exists { IfSome result (λ e. IsDate e) }
    {
        date.moved_by_days(self.days_from(date.weekday()))
    }

    // The days by which a holiday on a weekday is moved.
    fn days_from(self, weekday: Weekday) -> i64
        ensures { result ≡ (if days_from_monday weekday == 5 then from_saturday self
            else (if days_from_monday weekday == 6 then from_sunday self else pos 0)) }
    {
        match weekday.num_days_from_monday() {
            5 => self.from_saturday(),
            6 => self.from_sunday(),
            _ => 0,
        }
    }

    #[tactic(auto, unfolding(crate::specs::HolidayRules::from_saturday))]
    fn from_saturday(self) -> i64
        ensures { result ≡ from_saturday self }
    {
        match self {
            Moved::Stays | Moved::SundayToMonday | Moved::SundayPlus(_) => 0,
            Moved::ToMonday | Moved::TwoDaysOn => 2,
            Moved::ToNearer => -1,
        }
    }

    #[tactic(auto, unfolding(crate::specs::HolidayRules::from_sunday))]
    fn from_sunday(self) -> i64
        ensures { result ≡ from_sunday self }
    {
        match self {
            Moved::Stays => 0,
            Moved::SundayToMonday | Moved::ToMonday | Moved::ToNearer => 1,
            Moved::TwoDaysOn => 2,
            Moved::SundayPlus(days) => i64::from(days),
        }
    }
}

impl HolidayRule {
    /// Returns the date of the holiday of `year`, moved off the weekend. It can lie in the year before or after.
    ///
    /// Returns `None` if the rule does not hold in `year`, or if there is no such date.
    ///
    /// ```
    /// use chrono_datetime::Month;
    /// let day = HolidayDay::Fixed(Month::January, 1);
    /// let rule = HolidayRule { day, moved: Moved::ToNearer, first_year: 1971, last_year: 2100 };
    /// rule.date_in(2022) // Some(2021-12-31)
    /// rule.date_in(1970) // None
    /// ```
    #[tactic(auto, unfolding(crate::specs::HolidayRules::date_of_rule))]
    pub fn date_in(&self, year: i32) -> Option<NaiveDate>
        ensures date { result ≡ date_of_rule self.now year }
    {
        if year < self.first_year || self.last_year < year {
            return None;
        }
        moved_date(self.day.date_in(year), self.moved)
    }
}

// The date, if there is one, moved.
fn moved_date(date: Option<NaiveDate>, moved: Moved) -> Option<NaiveDate>
    ensures { result ≡ option_and_then (λ n. date_of_day (n +ℤ moved_by moved n)) date }
{
    moved.date_from(date?)
}

// The last of a month's days with the weekday.
fn last_weekday(year: i32, month: u32, weekday: Weekday) -> Option<NaiveDate>
    ensures { result ≡ date_of_last_weekday year month weekday }
{
    let first = NaiveDate::from_ymd_opt(year, month, 1)?;
    first.last_day_of_month().week(weekday).checked_first_day()
}

// The date `days` days after Easter.
fn easter_plus(year: i32, days: i32) -> Option<NaiveDate>
    ensures { result ≡ date_of_easter_plus year days }
{
    easter(year)?.moved_by_days(i64::from(days))
}

// The date of an equinox in Japan. In 1980 it comes at `first` in this month, in millionths of a day.
fn equinox(year: i32, month: u32, first: u32) -> Option<NaiveDate>
    requires from { 20_000_000 ≤ first }
    requires to { first ≤ 24_000_000 }
    ensures { result ≡ date_of_equinox year month first }
{
    if year < FIRST_EQUINOX || LAST_EQUINOX < year {
        return None;
    }
    let years = (year - FIRST_EQUINOX) as u32;
    NaiveDate::from_ymd_opt(year, month, day_of_equinox(first, years))
}

// The day of the month of an equinox so many years after 1980.
fn day_of_equinox(first: u32, years: u32) -> u32
    requires from { 20_000_000 ≤ first }
    requires to { first ≤ 24_000_000 }
    requires few { years ≤ 119 }
    ensures { result ≡ day_of_equinox first years }
{
    (first + 242_194 * years) / 1_000_000 - years / 4
}
