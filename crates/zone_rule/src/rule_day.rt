//! `RuleDay`: a day of each year.
ghost use Rattle.std.specs.Prelude.{◌≡◌, ◌↔◌, ◌+◌, ◌-◌, ◌<◌, ◌≤◌, ◌==◌, IsTrue, false, ℤ, pos, ◌+ℤ◌, ◌≤ℤ◌, unsigned_abs};
ghost use Rattle.std.specs.Int.{IsInRange};
ghost use Rattle.chrono_units.specs.Years.{IsYear};
ghost use Rattle.chrono_units.specs.declared.weekday.Weekday.{Weekday};
ghost use Rattle.chrono_datetime.specs.Days.{IsDate, day_number_of_yo, days_before_year, days_of_months_in};
ghost use Rattle.chrono_datetime.specs.Weeks.{date_of_last_weekday};
ghost use Rattle.zone_rule.specs.declared.rule_day.RuleDay.TheVariants.{Week};
ghost use Rattle.zone_rule.specs.RuleDays.{date_of_rule_day, date_of_week, days_later, least_place, ordinal_of_julian, week_place};
ghost use Rattle.zone_rule.specs.Changes.{IsRuleDay, day_in_year};

use chrono_datetime::{Datelike, NaiveDate, Weekday};
use chrono_units::year::is_leap_year;

// The week that means the last one.
const LAST_WEEK: u8 = 5;

// The place of 1 March in a common year.
const FIRST_OF_MARCH: u16 = 60;

/// A day of each year, as a time zone rule names it.
///
/// ```
/// RuleDay::Julian(60).date_in(2024) // Some(2024-03-01)
/// RuleDay::FromZero(59).date_in(2024) // Some(2024-02-29)
/// ```
#[derive(Clone, Copy, Debug, PartialEq, Eq)]
pub enum RuleDay {
    /// `Mm.w.d`: the `week`-th such weekday of the month, or the last one if `week` is 5.
    Week {
        /// From 1 to 12.
        month: u32,
        /// From 1 to 5.
        week: u8,
        /// The weekday, which a rule writes as a number from 0 for Sunday.
        weekday: Weekday,
    },
    /// `Jn`: the `n`-th day of the year, from 1 to 365, with 29 February left out.
    Julian(u16),
    /// `n`: the day `n` days after 1 January, from 0 to 365.
    FromZero(u16),
}

impl RuleDay {
    /// Returns the date of this day in a year.
    ///
    /// Returns `None` if the day does not exist, as the day 365 days after 1 January of a common year. Also returns `None`
    /// if a number is out of range, or if the year is not from -262,143 to 262,142.
    ///
    /// ```
    /// use chrono_datetime::Weekday;
    /// let last = RuleDay::Week { month: 10, week: 5, weekday: Weekday::Sun };
    /// last.date_in(2024) // Some(2024-10-27)
    /// RuleDay::Julian(59).date_in(2024) // Some(2024-02-28)
    /// RuleDay::Julian(366).date_in(2023) // None
    /// RuleDay::FromZero(365).date_in(2023) // None
    /// ```
    pub fn date_in(self, year: i32) -> Option<NaiveDate>
        ensures { result ≡ date_of_rule_day year self }
    {
        match self {
            RuleDay::Week {
                month,
                week,
                weekday,
            } => week_or_last(year, month, week, weekday),
            RuleDay::Julian(n) => NaiveDate::from_yo_opt(year, julian_ordinal(year, n)),
            RuleDay::FromZero(n) => NaiveDate::from_yo_opt(year, u32::from(n) + 1),
        }
    }

    /// Returns whether the numbers of this day are in range.
    ///
    /// ```
    /// RuleDay::Julian(365).is_in_range() // true
    /// RuleDay::Julian(0).is_in_range() // false
    /// RuleDay::FromZero(0).is_in_range() // true
    /// ```
    pub fn is_in_range(self) -> bool
        ensures { IsTrue result ↔ IsRuleDay self }
    {
        match self {
            RuleDay::Week { month, week, .. } => {
                1 <= month && month <= 12 && 1 <= week && week <= LAST_WEEK
            }
            RuleDay::Julian(n) => 1 <= n && n <= 365,
            RuleDay::FromZero(n) => n <= 365,
        }
    }

    // The number of this day in a year. Of a common year, day 365 from zero is the first day of the next year.
    pub(crate) fn number_in(self, year: i32) -> i32
        requires year { IsYear year }
        requires day { IsRuleDay self }
        ensures value { result ≡ day_in_year year self }
        ensures in_range { unsigned_abs result < 96_000_000 }
    {
        match self {
            RuleDay::Week {
                month,
                week,
                weekday,
            } => week_number(year, month, week, weekday),
            RuleDay::Julian(n) => first_of(year) - 1 + julian_ordinal(year, n) as i32,
            RuleDay::FromZero(n) => first_of(year) + i32::from(n),
        }
    }

    // The least place that this day has in a year, where 1 January has place 1, and how many days later it comes at most.
    #[inline]
    pub(crate) fn places(self) -> (u32, u32)
        requires { IsRuleDay self }
        ensures place { result.0 ≡ least_place self }
        ensures later { result.1 ≡ days_later self }
        ensures least { (y : ℤ) → IsYear y → (days_before_year y +ℤ pos result.0) ≤ℤ day_in_year y self }
        ensures most { (y : ℤ) → IsYear y → day_in_year y self ≤ℤ (days_before_year y +ℤ pos (result.0 + result.1)) }
        ensures some { 0 < result.0 }
        ensures in_range { result.0 + result.1 < 367 }
    {
        match self {
            RuleDay::Week { month, week, .. } => week_places(month, week),
            RuleDay::Julian(n) => (u32::from(n), 1),
            RuleDay::FromZero(n) => (u32::from(n) + 1, 0),
        }
    }
}

// The least place that the `week`-th such weekday of the month has in a year, or the last one if `week` is 5, and how many days later it comes at
// most.
#[inline]
fn week_places(month: u32, week: u8) -> (u32, u32)
    requires month { IsInRange 1 12 month }
    requires week { IsInRange 1 5 week }
    ensures place { result.0 ≡ week_place (week == 5) (days_of_months_in false (month - 1)) week }
    ensures later { (w : Weekday) → result.1 ≡ days_later (Week month week w) }
    ensures least { (y : ℤ) (w : Weekday) → IsYear y → (days_before_year y +ℤ pos result.0) ≤ℤ day_in_year y (Week month week w) }
    ensures most { (y : ℤ) (w : Weekday) → IsYear y → day_in_year y (Week month week w) ≤ℤ (days_before_year y +ℤ pos (result.0 + result.1)) }
    ensures some { 0 < result.0 }
    ensures in_range { result.0 + result.1 < 367 }
{
    let before = days_before_month(month);
    if week == LAST_WEEK {
        (before + 22, 10)
    } else {
        (before + 7 * u32::from(week) - 6, 7)
    }
}

// The days of a common year before a month.
#[inline]
fn days_before_month(month: u32) -> u32
    requires { IsInRange 1 12 month }
    ensures days { result ≡ days_of_months_in false (month - 1) }
    ensures in_range { result ≤ 334 }
{
    if month > 2 {
        (979 * month - 2_919) / 32 + 59
    } else {
        31 * (month - 1)
    }
}

// The number of 1 January.
fn first_of(year: i32) -> i32
    requires { IsYear year }
    ensures value { result ≡ day_number_of_yo year 1 }
    ensures in_range { IsDate result }
{
    NaiveDate::from_yo_opt(year, 1).unwrap().num_days_from_ce()
}

// The number of the `week`-th such weekday of the month, or of the last one if `week` is 5.
fn week_number(year: i32, month: u32, week: u8, weekday: Weekday) -> i32
    requires year { IsYear year }
    requires month { IsInRange 1 12 month }
    requires week { IsInRange 1 5 week }
    ensures value { result ≡ day_in_year year (Week month week weekday) }
    ensures in_range { IsDate result }
{
    week_or_last(year, month, week, weekday)
        .unwrap()
        .num_days_from_ce()
}

// The `week`-th such weekday of the month, or the last one if `week` is 5.
fn week_or_last(year: i32, month: u32, week: u8, weekday: Weekday) -> Option<NaiveDate>
    ensures { result ≡ date_of_week year month week weekday }
{
    if week == LAST_WEEK {
        last_in_month(year, month, weekday)
    } else {
        NaiveDate::from_weekday_of_month_opt(year, month, weekday, week)
    }
}

// The last such weekday of the month: the fifth, or the fourth if there is no fifth.
fn last_in_month(year: i32, month: u32, weekday: Weekday) -> Option<NaiveDate>
    ensures { result ≡ date_of_last_weekday year month weekday }
{
    match NaiveDate::from_weekday_of_month_opt(year, month, weekday, 5) {
        Some(fifth) => Some(fifth),
        None => NaiveDate::from_weekday_of_month_opt(year, month, weekday, 4),
    }
}

// The place in the year of its `n`-th day with 29 February left out.
fn julian_ordinal(year: i32, n: u16) -> u32
    ensures { result ≡ ordinal_of_julian year n }
{
    if is_leap_year(year) && FIRST_OF_MARCH <= n {
        u32::from(n) + 1
    } else {
        u32::from(n)
    }
}
