//! Lists of holidays in the caller's memory. They are strictly increasing.
ghost use Rattle.std.specs.Prelude.{◌≡◌, ◌≤◌, ◌<◌, ◌⊎◌, ◌+◌, ◌++◌, ◌∷◌, ℤ, true, false, length, take, drop, filter, Some, IfSome, IfNone};
ghost use Rattle.chrono_datetime.specs.RisingDates.{AreRising};
ghost use Rattle.chrono_business.specs.OpenDays.{AreHolidays, is_holiday, is_workday};
ghost use Rattle.chrono_business.specs.HolidayRules.{date_of_rule};
ghost use Rattle.chrono_business.specs.HolidayLists.{AreHolidaysWith, AreTooMany, IsOfRules};

use crate::holiday_rule::HolidayRule;
use chrono_datetime::{Datelike, LAST_DAY, NaiveDate, WeekdaySet};

/// Writes the holidays of `rules` for the years from `first_year` to `last_year` at the beginning of `out`.
///
/// The dates are strictly increasing, and those on the weekend are left out. Returns how many there are.
/// [`Calendar::new`](crate::Calendar::new) takes them. Returns `None` if `out` is too short.
///
/// ```
/// use chrono_datetime::{NaiveDate, Weekday, WeekdaySet};
/// let weekend = WeekdaySet::from_array([Weekday::Sat, Weekday::Sun]);
/// let mut out = [NaiveDate::MIN; 20];
/// holidays_of(&target(), 2024, 2024, weekend, &mut out) // Some(6)
/// &out[..3] // [2024-01-01, 2024-03-29, 2024-04-01]
/// ```
///
/// Elements of `out` past the holidays, and all elements after `None`, can have any value.
pub fn holidays_of(
    rules: &[HolidayRule],
    first_year: i32,
    last_year: i32,
    weekend: WeekdaySet,
    out: &mut [NaiveDate],
) -> Option<usize>
    ensures bound { IfSome result (λ n. n ≤ length out.old) }
    ensures holidays { IfSome result (λ n. AreHolidays weekend (take n out.new)) }
    ensures of_rules { IfSome result (λ n. (d : ℤ) → is_holiday (take n out.new) d ≡ true →
        IsOfRules rules.now first_year last_year d) }
    ensures each { IfSome result (λ n. (d : ℤ) → IsOfRules rules.now first_year last_year d →
        is_workday weekend d ≡ true → is_holiday (take n out.new) d ≡ true) }
    ensures none { IfNone result (AreTooMany (λ d. IsOfRules rules.now first_year last_year d ×
        (is_workday weekend d ≡ true)) (length out.old)) }
{
    let mut len = 0;
    for year in first_year..=last_year {
        len = insert_year(rules, year, weekend, out, len)?;
    }
    Some(len)
}

/// Moves the `dates` that are not on the weekend to the beginning of the slice, in their order.
///
/// Returns how many there are. If `dates` were strictly increasing, these are the holidays of a calendar.
///
/// ```
/// use chrono_datetime::{NaiveDate, Weekday, WeekdaySet};
/// let mut dates = [NaiveDate::from_ymd_opt(2024, 6, 1)?, NaiveDate::from_ymd_opt(2024, 6, 3)?];
/// without_weekends(WeekdaySet::from_array([Weekday::Sat, Weekday::Sun]), &mut dates) // 1
/// dates[0] // 2024-06-03
/// ```
///
/// Elements past these can have any value.
pub fn without_weekends(weekend: WeekdaySet, dates: &mut [NaiveDate]) -> usize
    ensures bound { result ≤ length dates.old }
    ensures left { take result dates.new ≡ filter (is_workday weekend) dates.old }
    ensures holidays { AreRising dates.old → AreHolidays weekend (take result dates.new) }
{
    let mut count = 0;
    for place in 0..dates.len() {
        let date = dates[place];
        prove!(date.num_days_from_ce() <= LAST_DAY);
        if !weekend.contains(date.weekday()) {
            dates[count] = date;
            count += 1;
        }
    }
    count
}

// Inserts the dates of the rules of a year into the first `len` of a slice, which are holidays.
// Returns how many there are then, and `None` if the slice is too short.
fn insert_year(
    rules: &[HolidayRule],
    year: i32,
    weekend: WeekdaySet,
    dates: &mut [NaiveDate],
    len: usize,
) -> Option<usize>
    requires bound { len ≤ length dates.old }
    requires holidays { AreHolidays weekend (take len dates.old) }
    ensures bound { IfSome result (λ n. n ≤ length dates.old) }
    ensures some { IfSome result (λ n. AreHolidaysWith weekend (take len dates.old)
        (λ d. IsOfRules rules.now year year d) (take n dates.new)) }
    ensures none { IfNone result (AreTooMany (λ d. (is_holiday (take len dates.old) d ≡ true) ⊎
        (IsOfRules rules.now year year d × (is_workday weekend d ≡ true))) (length dates.old)) }
{
    let mut count = len;
    for rule in rules {
        count = insert_rule(rule, year, weekend, dates, count)?;
    }
    Some(count)
}

// Inserts the date of a rule of a year, if there is one, into the first `len` of a slice, which are holidays.
// Returns how many there are then, and `None` if the slice is too short.
fn insert_rule(
    rule: &HolidayRule,
    year: i32,
    weekend: WeekdaySet,
    dates: &mut [NaiveDate],
    len: usize,
) -> Option<usize>
    requires bound { len ≤ length dates.old }
    requires holidays { AreHolidays weekend (take len dates.old) }
    ensures bound { IfSome result (λ n. n ≤ length dates.old) }
    ensures some { IfSome result (λ n. AreHolidaysWith weekend (take len dates.old)
        (λ d. date_of_rule rule.now year ≡ Some d) (take n dates.new)) }
    ensures none { IfNone result (AreTooMany (λ d. (is_holiday (take len dates.old) d ≡ true) ⊎
        ((date_of_rule rule.now year ≡ Some d) × (is_workday weekend d ≡ true))) (length dates.old)) }
{
    match rule.date_in(year) {
        Some(date) => insert(weekend, dates, len, date),
        None => Some(len),
    }
}

// Inserts the days of a list, but for those on the weekend, into the first `len` of a slice, which are holidays.
// Returns how many there are then, and `None` if the slice is too short.
pub(crate) fn insert_all(
    weekend: WeekdaySet,
    more: &[NaiveDate],
    dates: &mut [NaiveDate],
    len: usize,
) -> Option<usize>
    requires bound { len ≤ length dates.old }
    requires holidays { AreHolidays weekend (take len dates.old) }
    ensures bound { IfSome result (λ n. n ≤ length dates.old) }
    ensures some { IfSome result (λ n. AreHolidaysWith weekend (take len dates.old)
        (λ d. is_holiday more.now d ≡ true) (take n dates.new)) }
    ensures none { IfNone result (AreTooMany (λ d. (is_holiday (take len dates.old) d ≡ true) ⊎
        ((is_holiday more.now d ≡ true) × (is_workday weekend d ≡ true))) (length dates.old)) }
{
    let mut count = len;
    for date in more {
        count = insert(weekend, dates, count, *date)?;
    }
    Some(count)
}

// Inserts a date into the first `len` of a slice, which are holidays, unless it is there or on the weekend.
// Returns how many there are then, and `None` if the slice is too short.
pub(crate) fn insert(
    weekend: WeekdaySet,
    dates: &mut [NaiveDate],
    len: usize,
    date: NaiveDate,
) -> Option<usize>
    requires bound { len ≤ length dates.old }
    requires holidays { AreHolidays weekend (take len dates.old) }
    ensures bound { IfSome result (λ n. n ≤ length dates.old) }
    ensures holidays { IfSome result (λ n. AreHolidays weekend (take n dates.new)) }
    ensures only { IfSome result (λ n. (d : ℤ) → is_holiday (take n dates.new) d ≡ true →
        (is_holiday (take len dates.old) d ≡ true) ⊎ ((d ≡ date) × (is_workday weekend date ≡ true))) }
    ensures kept { IfSome result (λ n. (d : ℤ) → is_holiday (take len dates.old) d ≡ true →
        is_holiday (take n dates.new) d ≡ true) }
    ensures here { IfSome result (λ n. is_workday weekend date ≡ true → is_holiday (take n dates.new) date ≡ true) }
    ensures none { IfNone result (AreTooMany (λ d. (is_holiday (take len dates.old) d ≡ true) ⊎
        ((d ≡ date) × (is_workday weekend date ≡ true))) (length dates.old)) }
{
    prove!(date.num_days_from_ce() <= LAST_DAY);
    if weekend.contains(date.weekday()) {
        return Some(len);
    }
    match dates[..len].binary_search(&date) {
        Ok(_) => Some(len),
        Err(place) => insert_at(dates, len, place, date),
    }
}

// Inserts a date at a place among the first `len` of a slice.
// Returns how many there are then, and `None` if the slice is too short.
fn insert_at(dates: &mut [NaiveDate], len: usize, place: usize, date: NaiveDate) -> Option<usize>
    requires place { place ≤ len }
    requires len { len ≤ length dates.old }
    ensures more { IfSome result (λ n. n ≡ len + 1) }
    ensures bound { IfSome result (λ n. n ≤ length dates.old) }
    ensures after { IfSome result (λ n. take n dates.new ≡ take place dates.old ++ date ∷ drop place (take len dates.old)) }
    ensures none { IfNone result (len ≡ length dates.old) }
{
    if len == dates.len() {
        return None;
    }
    dates[len] = date;
    dates[place..len + 1].rotate_right(1);
    Some(len + 1)
}
