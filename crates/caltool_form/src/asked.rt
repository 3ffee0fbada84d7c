//! The results that commands ask for: a date, a date-time, a number of years, a duration.
ghost use Rattle.std.specs.Prelude.{◌≡◌, ◌+ℤ◌};
ghost use Rattle.std.specs.Option.{option_map, option_and_then};
ghost use Rattle.chrono_clock.specs.Moment.{moment, moment_distance};
ghost use Rattle.chrono_calendar.specs.Days.{date_of_day};
ghost use Rattle.chrono_calendar.specs.MonthMoves.{month_move};
ghost use Rattle.chrono_calendar.specs.Recurrence.{date_every, date_on};
ghost use Rattle.chrono_calendar.specs.YearsBetween.{years_between};
ghost use Rattle.caltool_form.specs.Named.{date_named as the_date, duration_named as the_duration, moment_named as the_moment, months_of, reach_named};

use crate::command_answers::CommandAnswers;
use crate::named::{duration_named, time_named};
use caltool_command::{CalendarDate, DateAndTime, MonthSpan};
use chrono_calendar::forms;
use chrono_clock::{NaiveTime, TimeDelta};
use chrono_units::WeekdaySet;

// The date of a year, a month and a day.
#[inline(always)]
#[tactic(auto, unfolding(crate::specs::Named::date_named))]
pub(crate) fn date_named<A: CommandAnswers>(date: CalendarDate) -> Option<A::Date>
    ensures { option_map A.number result ≡ the_date date }
{
    A::from_ymd(date.year, date.month, date.day)
}

// The date and the time of day of a date-time.
#[inline]
#[tactic(auto, unfolding(crate::specs::Named::moment_named))]
fn moment_named<A: CommandAnswers>(named: DateAndTime) -> Option<(A::Date, NaiveTime)>
    ensures { option_map (λ m. moment (A.number m.0) m.1) result ≡ the_moment named }
{
    let date = date_named::<A>(named.date)?;
    let time = time_named(named.time)?;
    Some((date, time))
}

// The date so many days later, or earlier where the count is negative.
pub(crate) fn moved_by_days<A: CommandAnswers>(date: CalendarDate, count: i64) -> Option<A::Date>
    ensures { option_map A.number result
        ≡ option_and_then (λ n. date_of_day (n +ℤ count)) (the_date date) }
{
    A::move_days(date_named::<A>(date)?, count)
}

// The date so many months later, or earlier.
pub(crate) fn moved_by_months<A: CommandAnswers>(
    date: CalendarDate,
    span: MonthSpan,
) -> Option<A::Date>
    ensures { option_map A.number result
        ≡ option_and_then (λ n. month_move n (months_of span)) (the_date date) }
{
    A::move_months(date_named::<A>(date)?, span)
}

// The first date from a date on with one of these weekdays.
pub(crate) fn first_of_days<A: CommandAnswers>(
    date: CalendarDate,
    days: WeekdaySet,
) -> Option<A::Date>
    ensures { option_map A.number result
        ≡ option_and_then (λ n. date_on n days) (the_date date) }
{
    A::first_on(date_named::<A>(date)?, days)
}

// The date so many times so many months later, or earlier.
pub(crate) fn moved_every<A: CommandAnswers>(
    date: CalendarDate,
    months: i32,
    times: u32,
) -> Option<A::Date>
    ensures { option_map A.number result
        ≡ option_and_then (λ n. date_every n months times) (the_date date) }
{
    A::every_months(date_named::<A>(date)?, months, times)
}

// The whole years from the second date to the first, which the years, months and days tell.
pub(crate) fn years_since<A: CommandAnswers>(date: CalendarDate, base: CalendarDate) -> Option<u32>
    ensures { result
        ≡ option_and_then (λ n. option_and_then (λ m. years_between n m) (the_date base))
        (the_date date) }
{
    date_named::<A>(date)?;
    date_named::<A>(base)?;
    forms::years_between_names(
        (date.year, date.month, date.day),
        (base.year, base.month, base.day),
    )
}

// The date-time a duration later.
pub(crate) fn moved<A: CommandAnswers>(
    from: DateAndTime,
    seconds: i64,
    nanoseconds: u32,
) -> Option<(A::Date, NaiveTime)>
    ensures { option_map (λ m. moment (A.number m.0) m.1) result
        ≡ option_and_then (λ m. option_and_then (λ x. reach_named m x) (the_duration seconds nanoseconds))
        (the_moment from) }
{
    let (date, time) = moment_named::<A>(from)?;
    A::move_moment(date, time, duration_named(seconds, nanoseconds)?)
}

// How far the first date-time is from the second.
pub(crate) fn difference<A: CommandAnswers>(
    first: DateAndTime,
    second: DateAndTime,
) -> Option<TimeDelta>
    ensures { result
        ≡ option_and_then (λ a. option_map (λ b. moment_distance a b) (the_moment second))
        (the_moment first) }
{
    let (date, time) = moment_named::<A>(first)?;
    let (base, base_time) = moment_named::<A>(second)?;
    Some(A::distance(date, time, base, base_time))
}
