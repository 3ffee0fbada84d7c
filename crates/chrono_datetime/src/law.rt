//! Laws of date-times, each as the contract of a function: their ends, and known values. It passes on the laws of the
//! crates below.
ghost use Rattle.std.specs.Prelude.{◌≡◌, pos, neg_ℤ, Some, None, codes};
ghost use Rattle.std.specs.Str.{byte};
ghost use Rattle.std.proofs.Common.{Less};
ghost use Rattle.chrono_clock.specs.Time.{time_at};
ghost use Rattle.chrono_datetime.specs.Moment.{IsMoment, moment, moment_cmp, moment_distance, reach};
ghost use Rattle.chrono_datetime.specs.MomentText.{moment_text};

use crate::naive_date_time::{MAX_DATETIME, MIN_DATETIME, NaiveDateTime};
pub use chrono_clock::law::{
    first_time, greatest_duration, known_time_texts, last_time, least_duration,
};
use chrono_clock::{SECS_PER_DAY, Timelike};
pub use chrono_naive::law::{
    calendar_comes_again, calendar_names_are_in_order, counts_add_up, counts_between_days,
    dates_are_counted, dates_are_days_of_years, dates_have_at_most_thirteen_bytes,
    dates_have_one_calendar_name, dates_have_one_iso_name, dates_have_one_number,
    dates_have_one_ordinal_name, dates_have_texts_of_their_own, dates_lie_in_steps,
    dates_of_one_name_are_one, days_have_names, first_date, first_where_is_least,
    four_digit_years_have_ten_bytes, iso_names_are_in_order, iso_weeks_begin_on_monday,
    known_date_texts, known_days, known_moves, known_recurrences, known_weeks, last_date,
    later_multiples_are_later, month_moves_add_up, month_moves_come_back, month_moves_keep_order,
    month_moves_reach_dates, months_are_days_in_a_row, months_have_28_to_31_days, names_have_days,
    ordinal_names_are_in_order, sevens_of_days_have_each_weekday, weekdays_follow,
    weekly_counts_come_again, weeks_have_one_first_day, whole_years_are_birthdays,
    years_and_months_rise,
};
use chrono_naive::{Datelike, LAST_DAY};
pub use chrono_units::law::named_sets;

// What the nanoseconds of a second lie below, a leap second's among them.
const PAST_LEAP_SECOND: u32 = 2_000_000_000;

/// Each date-time is one of the calendar's: its date is one of its dates, and its time is a time of day.
pub fn date_times_exist(moment: NaiveDateTime)
    ensures { IsMoment moment }
{
    prove!(moment.date().num_days_from_ce() <= LAST_DAY);
    prove!(moment.time().num_seconds_from_midnight() < SECS_PER_DAY);
    prove!(moment.time().nanosecond() < PAST_LEAP_SECOND);
}

/// The first date-time, as [`NaiveDateTime::MIN`] and as [`MIN_DATETIME`]: day -95,746,129, 00:00:00.
///
/// ```
/// law::first_date_time().0 // -262143-01-01T00:00:00
/// ```
pub fn first_date_time() -> (NaiveDateTime, NaiveDateTime)
    ensures of_type { result.0 ≡ moment (neg_ℤ (pos 95_746_129)) (time_at 0 0 0 0) }
    ensures of_crate { result.1 ≡ moment (neg_ℤ (pos 95_746_129)) (time_at 0 0 0 0) }
{
    (NaiveDateTime::MIN, MIN_DATETIME)
}

/// The last date-time outside a leap second, as [`NaiveDateTime::MAX`] and as [`MAX_DATETIME`]: day 95,745,399,
/// 23:59:59.999999999.
///
/// ```
/// law::last_date_time().0 // +262142-12-31T23:59:59.999999999
/// ```
pub fn last_date_time() -> (NaiveDateTime, NaiveDateTime)
    ensures of_type { result.0 ≡ moment (pos 95_745_399) (time_at 23 59 59 999_999_999) }
    ensures of_crate { result.1 ≡ moment (pos 95_745_399) (time_at 23 59 59 999_999_999) }
{
    (NaiveDateTime::MAX, MAX_DATETIME)
}

/// Known moves from 23:59:60.5 on two dates.
///
/// On 30 June 2015, which is day 735,779, half a second later is midnight of the next day. One second earlier is
/// 23:59:59.5. On the last date, 499,999,999 nanoseconds later is still in the leap second. Half a second later is past
/// the last date.
pub fn known_reaches()
    ensures next_day { let leap = moment (pos 735_779) (time_at 23 59 59 1_500_000_000) in
        reach leap (pos 500_000_000) ≡ Some (moment (pos 735_780) (time_at 0 0 0 0)) }
    ensures second_back { let leap = moment (pos 735_779) (time_at 23 59 59 1_500_000_000) in
        reach leap (neg_ℤ (pos 1_000_000_000))
        ≡ Some (moment (pos 735_779) (time_at 23 59 59 500_000_000)) }
    ensures last_end { let leap = moment (pos 95_745_399) (time_at 23 59 59 1_500_000_000) in
        reach leap (pos 499_999_999)
        ≡ Some (moment (pos 95_745_399) (time_at 23 59 59 1_999_999_999)) }
    ensures past_last { let leap = moment (pos 95_745_399) (time_at 23 59 59 1_500_000_000) in
        reach leap (pos 500_000_000) ≡ None }
{}

/// Known distances from 23:59:60.5 on 30 June 2015, in a leap second.
///
/// The distance to one o'clock of the next day is 3,599.5 s. The distance to midnight is -0.5 s, although midnight comes
/// later.
#[tactic(auto, unfolding(crate::specs::Moment::moment_distance, chrono_clock::specs::Time::distance))]
pub fn known_moment_distances()
    ensures one_o_clock { let leap = moment (pos 735_779) (time_at 23 59 59 1_500_000_000) in
        moment_distance (moment (pos 735_780) (time_at 1 0 0 0)) leap ≡ pos 3_599_500_000_000 }
    ensures midnight { let leap = moment (pos 735_779) (time_at 23 59 59 1_500_000_000) in
        moment_distance (moment (pos 735_780) (time_at 0 0 0 0)) leap ≡ neg_ℤ (pos 500_000_000) }
{}

/// Known comparisons: by date first, whatever the times; then by second, whatever the fractions; then by fraction.
pub fn known_moment_order()
    ensures by_date { moment_cmp (moment (pos 1) (time_at 23 59 59 0))
        (moment (pos 2) (time_at 0 0 0 0)) ≡ Less }
    ensures by_second { moment_cmp (moment (pos 1) (time_at 0 0 0 999_999_999))
        (moment (pos 1) (time_at 0 0 1 0)) ≡ Less }
    ensures by_fraction { moment_cmp (moment (pos 1) (time_at 0 0 1 0))
        (moment (pos 1) (time_at 0 0 1 1)) ≡ Less }
{}

/// Known texts: in a leap second with a space, and with a fraction of six digits and a `T`.
pub fn known_moment_texts()
    ensures leap { moment_text (byte " ") (moment (pos 736_153) (time_at 23 59 59 1_500_000_000))
        ≡ codes "2016-07-08 23:59:60.500" }
    ensures six_digits { moment_text (byte "T") (moment (pos 719_163) (time_at 1 2 3 1_000))
        ≡ codes "1970-01-01T01:02:03.000001" }
{}
