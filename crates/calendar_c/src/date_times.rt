//! Date-times: their parts, their moves by durations, and how far two are apart.
ghost use Rattle.std.specs.Prelude.{◌≡◌, pos};
ghost use Rattle.std.specs.Option.{option_and_then, option_map};
ghost use Rattle.chrono_datetime.specs.Moment.{moment_distance, reach};
ghost use Rattle.numbers_c.specs.Answers.{count_or_none, or_none};
ghost use Rattle.numbers_c.specs.DateTimes.{duration_from_c, duration_or_none, moment_at, moment_from_c, numbers_or_none};

use chrono_datetime::{Datelike, NaiveDateTime, TimeDelta, Timelike};
use numbers_c::{
    CalendarDateTime, CalendarDuration, NONE, date_time_at, date_time_of, duration_of,
    duration_or_none, numbers_or_none,
};

/// Returns the date-time at a second of a date, from 0 to 86,399, and `nanos` nanoseconds after it.
#[unsafe(no_mangle)]
pub extern "C" fn calendar_date_time_new(
    date: i32,
    second_of_day: u32,
    nanos: u32,
) -> CalendarDateTime
    ensures numbers { result ≡ numbers_or_none (moment_at date second_of_day nanos) }
    // The numbers that are answered stand for that date-time again, and for none if there is none.
    ensures named { moment_from_c result ≡ moment_at date second_of_day nanos }
{
    numbers_or_none(date_time_at(date, second_of_day, nanos))
}

/// Returns the date of a date-time.
#[unsafe(no_mangle)]
pub extern "C" fn calendar_date_time_date(moment: CalendarDateTime) -> i32
    ensures { result ≡ or_none (option_map (λ m. m.date) (moment_from_c moment)) }
{
    match date_time_of(moment) {
        Some(moment) => moment.date().num_days_from_ce(),
        None => NONE,
    }
}

/// Returns the second of the day of a date-time, from 0 to 86,399.
#[unsafe(no_mangle)]
pub extern "C" fn calendar_date_time_second_of_day(moment: CalendarDateTime) -> i32
    ensures { result ≡ count_or_none (option_map (λ m. m.time.second) (moment_from_c moment)) }
{
    match date_time_of(moment) {
        Some(moment) => moment.time().num_seconds_from_midnight() as i32,
        None => NONE,
    }
}

/// Returns the date-time that is `by` later. From inside a leap second the move counts that leap second and no other.
#[unsafe(no_mangle)]
pub extern "C" fn calendar_date_time_add(
    moment: CalendarDateTime,
    by: CalendarDuration,
) -> CalendarDateTime
    ensures numbers { result ≡ numbers_or_none
        (option_and_then (λ m. option_and_then (reach m) (duration_from_c by)) (moment_from_c moment)) }
    ensures named { moment_from_c result
        ≡ option_and_then (λ m. option_and_then (reach m) (duration_from_c by)) (moment_from_c moment) }
{
    numbers_or_none(moved(moment, by))
}

/// Returns the time from `base` to `moment`.
#[unsafe(no_mangle)]
pub extern "C" fn calendar_date_time_since(
    moment: CalendarDateTime,
    base: CalendarDateTime,
) -> CalendarDuration
    ensures numbers { result ≡ duration_or_none
        (option_and_then (λ m. option_map (moment_distance m) (moment_from_c base)) (moment_from_c moment)) }
    ensures named { duration_from_c result
        ≡ option_and_then (λ m. option_map (moment_distance m) (moment_from_c base)) (moment_from_c moment) }
{
    duration_or_none(distance(moment, base))
}

// Where a duration leads from a date-time.
#[inline]
fn moved(moment: CalendarDateTime, by: CalendarDuration) -> Option<NaiveDateTime>
    ensures { result
        ≡ option_and_then (λ m. option_and_then (reach m) (duration_from_c by)) (moment_from_c moment) }
{
    let moment = date_time_of(moment)?;
    moment.checked_add_signed(duration_of(by)?)
}

// How far a date-time is from another.
#[inline]
fn distance(moment: CalendarDateTime, base: CalendarDateTime) -> Option<TimeDelta>
    ensures { result
        ≡ option_and_then (λ m. option_map (moment_distance m) (moment_from_c base)) (moment_from_c moment) }
{
    let moment = date_time_of(moment)?;
    Some(moment.signed_duration_since(date_time_of(base)?))
}
