//! Laws of dates, each as the contract of a function: the ends of the dates, their names, weeks, month moves, lists and
//! texts.
ghost use Rattle.std.specs.Prelude.{◌≡◌, ◌↔◌, ◌<◌, ◌≤◌, ◌+◌, ◌-◌, ◌*◌, ◌/◌, ◌≤ℤ◌, ◌+ℤ◌, ℕ, ℤ, Some, None, pos, neg_ℤ, length, slice_get, codes};
ghost use Rattle.chrono_units.specs.declared.weekday.Weekday.{Weekday};
ghost use Rattle.chrono_calendar.specs.Days.{IsDate, date_of_day, day_of, month_of, ordinal_of, year_of};
ghost use Rattle.chrono_calendar.specs.Recurrence.{dates_left};
ghost use Rattle.chrono_calendar.specs.Weeks.{date_of_nth_weekday, iso_week_of, iso_year_of, weekday_of};
ghost use Rattle.chrono_naive.specs.DateLists.{IsDayCursor, days_from, days_left, weeks_from};
ghost use Rattle.chrono_naive.specs.DateText.{date_text};

use crate::naive_date::{MAX_DATE, MIN_DATE, NaiveDate};
pub use chrono_calendar::law::{
    calendar_comes_again, calendar_names_are_in_order, counts_add_up, counts_between_days,
    dates_are_counted, dates_are_days_of_years, dates_have_one_calendar_name,
    dates_have_one_iso_name, dates_have_one_number, dates_have_one_ordinal_name, days_have_names,
    first_where_is_least, iso_names_are_in_order, iso_weeks_begin_on_monday, known_days,
    known_moves, known_recurrences, known_weeks, later_multiples_are_later, month_moves_add_up,
    month_moves_come_back, month_moves_keep_order, month_moves_reach_dates,
    months_are_days_in_a_row, months_have_28_to_31_days, names_have_days,
    ordinal_names_are_in_order, weekdays_follow, weekly_counts_come_again,
    weeks_have_one_first_day, whole_years_are_birthdays, years_and_months_rise,
};

/// Two dates of one name are one date. The name may be a calendar date, an ordinal date or a week date.
///
/// Call it in a function that compares the names of two dates, in front of the comparison.
pub fn dates_of_one_name_are_one(first: NaiveDate, second: NaiveDate)
    ensures calendar { year_of first ≡ year_of second → month_of first ≡ month_of second
        → day_of first ≡ day_of second → first ≡ second }
    ensures ordinal { year_of first ≡ year_of second → ordinal_of first ≡ ordinal_of second
        → first ≡ second }
    ensures iso { iso_year_of first ≡ iso_year_of second → iso_week_of first ≡ iso_week_of second
        → weekday_of first ≡ weekday_of second → first ≡ second }
{}

/// The text of a date in the years 0 to 9999 has ten bytes.
pub fn four_digit_years_have_ten_bytes()
    ensures { (n : ℤ) → pos 0 ≤ℤ year_of n → year_of n ≤ℤ pos 9_999 → length (date_text n) ≡ 10 }
{}

/// The text of a date has at most thirteen bytes.
pub fn dates_have_at_most_thirteen_bytes()
    ensures { (n : ℤ) → IsDate n → length (date_text n) ≤ 13 }
{}

/// Different dates have different texts.
pub fn dates_have_texts_of_their_own()
    ensures { (n m : ℤ) → IsDate n → IsDate m → date_text n ≡ date_text m → n ≡ m }
{}

/// The first date, as [`NaiveDate::MIN`] and as [`MIN_DATE`]: its day number is -95,746,129.
///
/// ```
/// law::first_date() // (-262143-01-01, -262143-01-01)
/// ```
pub fn first_date() -> (NaiveDate, NaiveDate)
    ensures of_type { result.0 ≡ neg_ℤ (pos 95_746_129) }
    ensures of_crate { result.1 ≡ neg_ℤ (pos 95_746_129) }
{
    (NaiveDate::MIN, MIN_DATE)
}

/// The last date, as [`NaiveDate::MAX`] and as [`MAX_DATE`]: its day number is 95,745,399.
///
/// ```
/// law::last_date() // (+262142-12-31, +262142-12-31)
/// ```
pub fn last_date() -> (NaiveDate, NaiveDate)
    ensures of_type { result.0 ≡ pos 95_745_399 }
    ensures of_crate { result.1 ≡ pos 95_745_399 }
{
    (NaiveDate::MAX, MAX_DATE)
}

/// States which date each item of an iterator is, and how many items there are. Items are counted from 0.
///
/// Item `k` of [`NaiveDate::iter_days`] lies `k` days after the start, if that is a date. Item `k` of
/// [`NaiveDate::iter_weeks`] lies `7 * k` days after the start, if the day a week after it is a date.
pub fn dates_lie_in_steps()
    ensures day { (n : ℤ) (k : ℕ) → IsDayCursor n →
        slice_get (days_from n) k ≡ date_of_day (n +ℤ pos k) }
    ensures days { (n : ℤ) → length (days_from n) ≡ dates_left n }
    ensures week { (n : ℤ) (k : ℕ) → IsDate (n +ℤ pos (7 * k + 7)) →
        slice_get (weeks_from n) k ≡ Some (n +ℤ pos (7 * k)) }
    ensures no_week { (n : ℤ) (k : ℕ) → IsDate n → (IsDate (n +ℤ pos (7 * k + 7)) → ⊥) →
        slice_get (weeks_from n) k ≡ None }
    ensures weeks { (n : ℤ) → length (weeks_from n) ≡ days_left n / 7 }
{}

/// States which day of a month is the `k`-th with its weekday: that of the `k`-th seven days. So a Friday from the 15th to
/// the 21st is the third Friday.
pub fn sevens_of_days_have_each_weekday()
    ensures nth { (n : ℤ) (k : ℕ) → IsDate n → 7 * (k - 1) < day_of n → day_of n ≤ 7 * k →
        date_of_nth_weekday (year_of n) (month_of n) (weekday_of n) k ≡ Some n }
    ensures is { (n : ℤ) (k : ℕ) (d : Weekday) → IsDate n →
        (date_of_nth_weekday (year_of n) (month_of n) d k ≡ Some n)
        ↔ ((weekday_of n ≡ d) × (7 * (k - 1) < day_of n) × (day_of n ≤ 7 * k)) }
{}

/// Known texts of six dates: two with years of four digits, the first day of year 0, the day before it, and both ends.
pub fn known_date_texts()
    ensures plain { date_text (pos 735_438) ≡ codes "2014-07-24" }
    ensures day_739250 { date_text (pos 739_250) ≡ codes "2024-12-30" }
    ensures year_zero { date_text (neg_ℤ (pos 365)) ≡ codes "0000-01-01" }
    ensures before_zero { date_text (neg_ℤ (pos 366)) ≡ codes "-0001-12-31" }
    ensures first { date_text (neg_ℤ (pos 95_746_129)) ≡ codes "-262143-01-01" }
    ensures last { date_text (pos 95_745_399) ≡ codes "+262142-12-31" }
{}
