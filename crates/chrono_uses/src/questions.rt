//! Questions of a scheduler and of a billing calendar: a month's third Friday, the next working day, Mondays counted,
//! a year later, the days that a month has left.
ghost use Rattle.std.specs.Prelude.{◌≡◌, ◌↔◌, ◌+◌, ◌≤ℤ◌, ◌<ℤ◌, ◌+ℤ◌, ◌-ℤ◌, pos, min, unsigned_abs, IsSome, IfSome, IsTrue, [], ◌∷◌};
ghost use Rattle.std.specs.Int.{IsInRange};
ghost use Rattle.chrono_datetime.specs.Years.{IsYear};
ghost use Rattle.chrono_datetime.specs.Days.{year_of, month_of, day_of};
ghost use Rattle.chrono_datetime.specs.Weeks.{weekday_of};
ghost use Rattle.chrono_datetime.specs.WeekdaySet.{contains, set_of, single};
ghost use Rattle.chrono_datetime.specs.MonthMoves.{month_length_of};
ghost use Rattle.chrono_datetime.specs.Recurrence.{count_where, date_on, is_on};
ghost use Rattle.chrono_datetime.specs.declared.Weekday.TheVariants.{Mon, Tue, Wed, Thu, Fri};

use chrono_datetime::{Datelike, Days, NaiveDate, Weekday, WeekdaySet, law};

/// The third Friday of a month, when options expire; `None` exactly if the library does not have the month.
pub fn expiry(year: i32, month: u32) -> Option<NaiveDate>
    ensures exists { IsSome result ↔ (IsYear year × IsInRange 1 12 month) }
    ensures weekday { IfSome result (λ e. weekday_of e ≡ Fri) }
    ensures month { IfSome result (λ e. month_of e ≡ month) }
    ensures day { IfSome result (λ e. IsInRange 15 21 (day_of e)) }
{
    NaiveDate::from_weekday_of_month_opt(year, month, Weekday::Fri, 3)
}

/// A third Friday by another way: a fortnight after the first Friday on or after the first of the month.
pub fn expiry_by_steps(year: i32, month: u32) -> Option<NaiveDate>
    ensures weekday { IfSome result (λ e. weekday_of e ≡ Fri) }
    ensures day { IfSome result (λ e. IsInRange 15 21 (day_of e)) }
{
    law::weekdays_follow();
    law::months_are_days_in_a_row();
    let first = NaiveDate::from_ymd_opt(year, month, 1)?;
    let friday = first.first_on(WeekdaySet::single(Weekday::Fri))?;
    friday.checked_add_days(Days::new(14))
}

/// The first day from Monday to Friday that is not before a date; `None` only where the calendar ends first.
pub fn next_weekday(date: NaiveDate) -> Option<NaiveDate>
    ensures date { result ≡ date_on date (set_of (Mon ∷ Tue ∷ Wed ∷ Thu ∷ Fri ∷ [])) }
    ensures weekday { IfSome result (λ e.
        IsTrue (contains (set_of (Mon ∷ Tue ∷ Wed ∷ Thu ∷ Fri ∷ [])) (weekday_of e))) }
    ensures near { IfSome result (λ e. e ≤ℤ (date +ℤ pos 2)) }
{
    date.first_on(WeekdaySet::from_array([
        Weekday::Mon,
        Weekday::Tue,
        Weekday::Wed,
        Weekday::Thu,
        Weekday::Fri,
    ]))
}

/// How many Mondays there are from a date on, to before another that is not earlier: one for each week, or part of a week, from
/// the first of them on.
pub fn mondays_between(from: NaiveDate, to: NaiveDate) -> u32
    ensures { from ≤ℤ to →
        result ≡ count_where (is_on (single Mon)) (unsigned_abs (to -ℤ from)) from }
{
    law::weekly_counts_come_again();
    let days = from.num_days_from_ce().abs_diff(to.num_days_from_ce());
    let to_monday = Weekday::Mon.days_since(from.weekday());
    (days + 6 - to_monday) / 7
}

/// The same number by a walk over the days.
pub fn mondays_walked(from: NaiveDate, to: NaiveDate) -> u32
    ensures { from ≤ℤ to →
        result ≡ count_where (is_on (single Mon)) (unsigned_abs (to -ℤ from)) from }
{
    law::counts_add_up();
    let monday = WeekdaySet::single(Weekday::Mon);
    let mut mondays = 0;
    let mut days = from.iter_days();
    while let Some(day) = days.step() {
        if day >= to {
            break;
        }
        if monday.contains(day.weekday()) {
            mondays += 1;
        }
    }
    mondays
}

/// The same day a year later, of 29 February the 28th; `None` exactly past the last year.
pub fn year_later(date: NaiveDate) -> Option<NaiveDate>
    ensures year { IfSome result (λ e. year_of e ≡ year_of date +ℤ pos 1) }
    ensures month { IfSome result (λ e. month_of e ≡ month_of date) }
    ensures day { IfSome result (λ e. day_of e ≡ min (day_of date) (month_length_of e)) }
    ensures exists { IsSome result ↔ (year_of date <ℤ pos 262_142) }
{
    law::days_have_names();
    date.moved_by_months(12)
}

/// The days of the date's month that come after it.
pub fn days_left_in_month(date: NaiveDate) -> u32
    ensures { day_of date + result ≡ month_length_of date }
{
    u32::from(date.num_days_in_month()) - date.day()
}
