//! Twenty questions of an office: days on which it is open, anniversaries, hours, days counted, ISO years and third Fridays.
//!
//! Eighteen have no proof file. The two others say what their file adds.
ghost use Rattle.std.specs.Prelude.{◌≡◌, ◌↔◌, ℤ, ◌≤ℤ◌, ◌<ℤ◌, ◌+ℤ◌, ◌-ℤ◌, ◌<◌, pos, neg_ℤ, Some, IsSome, IfSome, IsTrue, count_by, take};
ghost use Rattle.chrono_datetime.specs.Years.{IsYear};
ghost use Rattle.chrono_datetime.specs.Days.{date_of_ymd, year_of, month_of, day_of};
ghost use Rattle.chrono_datetime.specs.Weeks.{date_of_nth_weekday, iso_year_of, weekday_of};
ghost use Rattle.chrono_datetime.specs.WeekdaySet.{contains, single};
ghost use Rattle.chrono_datetime.specs.MonthMoves.{month_first_of, month_length_of};
ghost use Rattle.chrono_datetime.specs.DateLists.{days_from};
ghost use Rattle.chrono_datetime.specs.Duration.{nanos_per_minute, whole_units};
ghost use Rattle.chrono_datetime.specs.Time.{IsPlain, place, time_at};
ghost use Rattle.chrono_datetime.specs.Moment.{moment_on};
ghost use Rattle.chrono_datetime.specs.Recurrence.{is_on};
ghost use Rattle.chrono_datetime.specs.declared.Weekday.TheVariants.{Fri, Sun};

use chrono_datetime::{
    Datelike, Days, NaiveDate, NaiveDateTime, NaiveTime, TimeDelta, Weekday, WeekdaySet, law,
};

// ---- days on which the office is open

/// Returns the next meeting on some weekdays. It is at most six days later.
pub fn next_meeting(date: NaiveDate, days: WeekdaySet) -> Option<NaiveDate>
    ensures weekday { IfSome result (λ e. IsTrue (contains days (weekday_of e))) }
    ensures not_before { IfSome result (λ e. date ≤ℤ e) }
    ensures near { IfSome result (λ e. e ≤ℤ (date +ℤ pos 6)) }
{
    date.first_on(days)
}

/// Returns the first day from Monday to Friday. It is at most two days later.
pub fn next_working_day(date: NaiveDate) -> Option<NaiveDate>
    ensures { IfSome result (λ e. e ≤ℤ (date +ℤ pos 2)) }
{
    date.first_on(WeekdaySet::from_array([
        Weekday::Mon,
        Weekday::Tue,
        Weekday::Wed,
        Weekday::Thu,
        Weekday::Fri,
    ]))
}

/// Returns the first open day of an office that is open on five weekdays or more. It is at most two days later.
pub fn next_open_day(date: NaiveDate, week: WeekdaySet) -> Option<NaiveDate>
    ensures { IfSome result (λ e. e ≤ℤ (date +ℤ pos 2)) }
{
    if week.len() < 5 {
        return None;
    }
    date.first_on(week)
}

/// Returns the Friday on which an order is picked up. Up to day 1,000,000 there always is one.
pub fn pick_up(order: NaiveDate) -> NaiveDate
    requires { order ≤ℤ pos 1_000_000 }
    ensures weekday { weekday_of result ≡ Fri }
    ensures near { result ≤ℤ (order +ℤ pos 6) }
{
    order.first_on(WeekdaySet::single(Weekday::Fri)).unwrap()
}

/// Returns the day of delivery: the third day after the order, or the next open day.
pub fn delivery(order: NaiveDate, week: WeekdaySet) -> Option<NaiveDate>
    ensures after { IfSome result (λ e. (order +ℤ pos 3) ≤ℤ e) }
    ensures near { IfSome result (λ e. e ≤ℤ (order +ℤ pos 9)) }
{
    order.checked_add_days(Days::new(3))?.first_on(week)
}

// ---- anniversaries

/// Returns the anniversary of a date in `year`.
pub fn anniversary(date: NaiveDate, year: i32) -> Option<NaiveDate>
    ensures { result ≡ date_of_ymd year (month_of date) (day_of date) }
{
    date.with_year(year)
}

/// Returns the anniversary of a date-time in `year`, at the same time.
pub fn anniversary_of_moment(start: NaiveDateTime, year: i32) -> Option<NaiveDateTime>
    ensures { result ≡ moment_on (date_of_ymd year (month_of start.date) (day_of start.date)) start.time }
{
    start.with_year(year)
}

/// Returns the birthday in `year`. It is 28 February for the 29th in a common year.
pub fn birthday(birth: NaiveDate, year: i32) -> Option<NaiveDate>
    ensures date { day_of birth < 29 → result ≡ date_of_ymd year (month_of birth) (day_of birth) }
    ensures exists { IsSome result ↔ IsYear year }
{
    if let Some(day) = birth.with_year(year) {
        return Some(day);
    }
    NaiveDate::from_ymd_opt(year, 2, 28)
}

/// Returns whether the anniversary of `date` in the year of `today` has passed.
pub fn has_passed(date: NaiveDate, today: NaiveDate) -> bool
    ensures { (e : ℤ) → date_of_ymd (year_of today) (month_of date) (day_of date) ≡ Some e →
        IsTrue result ↔ (e <ℤ today) }
{
    match date.with_year(today.year()) {
        Some(day) => day < today,
        None => false,
    }
}

// ---- hours

/// Returns how long the office is open.
pub fn open_for(from: NaiveTime, to: NaiveTime) -> TimeDelta
    requires from { IsPlain from }
    requires to { IsPlain to }
    ensures { result ≡ pos (place to) -ℤ pos (place from) }
{
    to.signed_duration_since(from)
}

/// Returns the whole minutes of a meeting.
pub fn minutes(from: NaiveTime, to: NaiveTime) -> i64
    requires from { IsPlain from }
    requires to { IsPlain to }
    ensures { result ≡ whole_units nanos_per_minute (pos (place to) -ℤ pos (place from)) }
{
    to.signed_duration_since(from).num_minutes()
}

/// Returns the time until the office closes at 17:00. It is negative after that.
pub fn until_closing(now: NaiveTime) -> TimeDelta
    requires { IsPlain now }
    ensures { result ≡ pos (place (time_at 17 0 0 0)) -ℤ pos (place now) }
{
    NaiveTime::from_hms_opt(17, 0, 0)
        .unwrap()
        .signed_duration_since(now)
}

// ---- days counted

/// Returns how many of `days` days are Sundays.
pub fn sundays(date: NaiveDate, days: usize) -> usize
    ensures { result ≡ count_by (is_on (single Sun)) (take days (days_from date)) }
{
    let sunday = WeekdaySet::single(Weekday::Sun);
    date.iter_days()
        .take(days)
        .filter(|day| sunday.contains(day.weekday()))
        .count()
}

/// Returns on how many days of the date's month the office is open.
pub fn open_days_of_month(date: NaiveDate, week: WeekdaySet) -> usize
    ensures { result ≡ count_by (is_on week) (take (month_length_of date) (days_from (month_first_of date))) }
{
    date.first_day_of_month()
        .iter_days()
        .take(usize::from(date.num_days_in_month()))
        .filter(|day| week.contains(day.weekday()))
        .count()
}

// ---- ISO years

/// Returns the first day of an ISO year. Of the ISO years that dates have, only the first has none.
pub fn iso_new_year(year: i32) -> Option<NaiveDate>
    ensures exists { IsSome result ↔ ((neg_ℤ (pos 262_143) <ℤ year) × (year ≤ℤ pos 262_143)) }
    ensures year { IfSome result (λ e. iso_year_of e ≡ year) }
    ensures first { IfSome result (λ e. (d : ℤ) → iso_year_of d ≡ year → e ≤ℤ d) }
{
    NaiveDate::from_isoywd_opt(year, 1, Weekday::Mon)
}

/// Returns the first day of the ISO year in which the date lies. It is not after the date.
pub fn iso_year_start(date: NaiveDate) -> Option<NaiveDate>
    ensures year { IfSome result (λ e. iso_year_of e ≡ iso_year_of date) }
    ensures not_after { IfSome result (λ e. e ≤ℤ date) }
{
    NaiveDate::from_isoywd_opt(date.iso_week().year(), 1, Weekday::Mon)
}

/// Returns the last day of an ISO year: the day before the next one begins.
///
/// Its file says that `year + 1` fits the type, so that the clause `before` is that of this year.
pub fn iso_year_end(year: i32) -> Option<NaiveDate>
    requires { year ≤ℤ pos 262_142 }
    ensures { IfSome result (λ e. iso_year_of e ≡ year) }
{
    NaiveDate::from_isoywd_opt(year + 1, 1, Weekday::Mon)?.pred_opt()
}

// ---- third Fridays

/// Returns whether the date is the third Friday of its month.
pub fn is_third_friday(date: NaiveDate) -> bool
    ensures { IsTrue result ↔ (date_of_nth_weekday (year_of date) (month_of date) Fri 3 ≡ Some date) }
{
    law::sevens_of_days_have_each_weekday();
    date.weekday() == Weekday::Fri && date.day() >= 15 && date.day() <= 21
}

/// Returns which day with its weekday the date is in its month, from 1 to 5.
pub fn place_in_month(date: NaiveDate) -> u32
    ensures { date_of_nth_weekday (year_of date) (month_of date) (weekday_of date) result ≡ Some date }
{
    law::sevens_of_days_have_each_weekday();
    (date.day() + 6) / 7
}

/// Returns the third Friday of a month: the first from the 15th on.
///
/// Its file says that the Friday lies in the same month, since no month ends before the 21st.
pub fn third_friday_from_the_15th(year: i32, month: u32) -> Option<NaiveDate>
    ensures { IfSome result (λ e. date_of_nth_weekday year month Fri 3 ≡ Some e) }
{
    law::dates_are_days_of_years();
    law::months_are_days_in_a_row();
    law::sevens_of_days_have_each_weekday();
    let start = NaiveDate::from_ymd_opt(year, month, 15)?;
    let friday = start.first_on(WeekdaySet::single(Weekday::Fri))?;
    Some(friday)
}
