//! Commands made from names and numbers.
ghost use Rattle.std.specs.Prelude.{◌≡◌};
ghost use Rattle.caltool_command.specs.Commands.{command_from, calendar_date, clock_time, date_and_time, weekday_set};

use crate::arguments::{CalendarDate, ClockTime, DateAndTime};
use crate::command::Command;
use crate::name::Name;
use crate::types::{to_i32, to_months, to_u8, to_u32, to_weekday};
use chrono_units::WeekdaySet;

/// Returns the command with the name `name` and the numbers `numbers`.
///
/// Returns `None` if the command takes another number of numbers, or one of them does not fit its type.
#[inline(always)]
pub fn command_from(name: Name, numbers: &[i64]) -> Option<Command>
    ensures { result ≡ command_from name numbers.now }
{
    match name {
        Name::Ymd => ymd(numbers),
        Name::Yo => yo(numbers),
        Name::Iwd => iwd(numbers),
        Name::Day => day(numbers),
        Name::Wom => wom(numbers),
        Name::Days => days(numbers),
        Name::Months => months(numbers),
        Name::Week => week(numbers),
        Name::Move => moved(numbers),
        Name::Diff => diff(numbers),
        Name::Since => since(numbers),
        Name::Set => set(numbers),
        Name::On => on(numbers),
        Name::Every => every(numbers),
    }
}

#[tactic(auto, unfolding(crate::specs::Commands::command_from))]
fn ymd(numbers: &[i64]) -> Option<Command>
    ensures { result ≡ command_from Name.Ymd numbers.now }
{
    let [year, month, day] = numbers else {
        return None;
    };
    let date = calendar_date(*year, *month, *day)?;
    Some(Command::Ymd { date })
}

#[tactic(auto, unfolding(crate::specs::Commands::command_from))]
fn yo(numbers: &[i64]) -> Option<Command>
    ensures { result ≡ command_from Name.Yo numbers.now }
{
    let [year, ordinal] = numbers else {
        return None;
    };
    let year = to_i32(*year)?;
    let ordinal = to_u32(*ordinal)?;
    Some(Command::Yo { year, ordinal })
}

#[tactic(auto, unfolding(crate::specs::Commands::command_from))]
fn iwd(numbers: &[i64]) -> Option<Command>
    ensures { result ≡ command_from Name.Iwd numbers.now }
{
    let [year, week, weekday] = numbers else {
        return None;
    };
    let year = to_i32(*year)?;
    let week = to_u32(*week)?;
    let weekday = to_weekday(*weekday)?;
    Some(Command::Iwd {
        year,
        week,
        weekday,
    })
}

#[tactic(auto, unfolding(crate::specs::Commands::command_from))]
fn day(numbers: &[i64]) -> Option<Command>
    ensures { result ≡ command_from Name.Day numbers.now }
{
    let [number] = numbers else {
        return None;
    };
    let number = to_i32(*number)?;
    Some(Command::Day { number })
}

#[tactic(auto, unfolding(crate::specs::Commands::command_from))]
fn wom(numbers: &[i64]) -> Option<Command>
    ensures { result ≡ command_from Name.Wom numbers.now }
{
    let [year, month, weekday, nth] = numbers else {
        return None;
    };
    let year = to_i32(*year)?;
    let month = to_u32(*month)?;
    let weekday = to_weekday(*weekday)?;
    let nth = to_u8(*nth)?;
    Some(Command::Wom {
        year,
        month,
        weekday,
        nth,
    })
}

#[tactic(auto, using(crate::proofs::Counts::no_days))]
fn days(numbers: &[i64]) -> Option<Command>
    ensures { result ≡ command_from Name.Days numbers.now }
{
    let [year, month, day, count] = numbers else {
        return None;
    };
    let date = calendar_date(*year, *month, *day)?;
    let count = *count;
    Some(Command::Days { date, count })
}

#[tactic(auto, unfolding(crate::specs::Commands::command_from))]
fn months(numbers: &[i64]) -> Option<Command>
    ensures { result ≡ command_from Name.Months numbers.now }
{
    let [year, month, day, span] = numbers else {
        return None;
    };
    let date = calendar_date(*year, *month, *day)?;
    let span = to_months(*span)?;
    Some(Command::Months { date, span })
}

#[tactic(auto, unfolding(crate::specs::Commands::command_from))]
fn week(numbers: &[i64]) -> Option<Command>
    ensures { result ≡ command_from Name.Week numbers.now }
{
    let [year, month, day, start] = numbers else {
        return None;
    };
    let date = calendar_date(*year, *month, *day)?;
    let start = to_weekday(*start)?;
    Some(Command::Week { date, start })
}

#[tactic(auto, using(crate::proofs::Counts::no_moved))]
fn moved(numbers: &[i64]) -> Option<Command>
    ensures { result ≡ command_from Name.Move numbers.now }
{
    let [
        year,
        month,
        day,
        hour,
        minute,
        second,
        fraction,
        seconds,
        nanoseconds,
    ] = numbers
    else {
        return None;
    };
    let date = calendar_date(*year, *month, *day)?;
    let time = clock_time(*hour, *minute, *second, *fraction)?;
    let from = DateAndTime { date, time };
    let seconds = *seconds;
    let nanoseconds = to_u32(*nanoseconds)?;
    Some(Command::Move {
        from,
        seconds,
        nanoseconds,
    })
}

#[tactic(auto, using(crate::proofs::Counts::no_diff))]
fn diff(numbers: &[i64]) -> Option<Command>
    ensures { result ≡ command_from Name.Diff numbers.now }
{
    let [
        year,
        month,
        day,
        hour,
        minute,
        second,
        fraction,
        year_2,
        month_2,
        day_2,
        hour_2,
        minute_2,
        second_2,
        fraction_2,
    ] = numbers
    else {
        return None;
    };
    let date = calendar_date(*year, *month, *day)?;
    let time = clock_time(*hour, *minute, *second, *fraction)?;
    let date_2 = calendar_date(*year_2, *month_2, *day_2)?;
    let time_2 = clock_time(*hour_2, *minute_2, *second_2, *fraction_2)?;
    let first = DateAndTime { date, time };
    let second = DateAndTime {
        date: date_2,
        time: time_2,
    };
    Some(Command::Diff { first, second })
}

#[tactic(auto, using(crate::proofs::Counts::no_since))]
fn since(numbers: &[i64]) -> Option<Command>
    ensures { result ≡ command_from Name.Since numbers.now }
{
    let [year, month, day, year_2, month_2, day_2] = numbers else {
        return None;
    };
    let date = calendar_date(*year, *month, *day)?;
    let base = calendar_date(*year_2, *month_2, *day_2)?;
    Some(Command::Since { date, base })
}

#[tactic(auto, unfolding(crate::specs::Commands::command_from))]
fn set(numbers: &[i64]) -> Option<Command>
    ensures { result ≡ command_from Name.Set numbers.now }
{
    let [start, days @ ..] = numbers else {
        return None;
    };
    let start = to_weekday(*start)?;
    let days = weekday_set(days)?;
    Some(Command::Set { start, days })
}

#[tactic(auto, using(crate::proofs::Counts::no_on))]
fn on(numbers: &[i64]) -> Option<Command>
    ensures { result ≡ command_from Name.On numbers.now }
{
    let [year, month, day, days @ ..] = numbers else {
        return None;
    };
    let date = calendar_date(*year, *month, *day)?;
    let days = weekday_set(days)?;
    Some(Command::On { date, days })
}

#[tactic(auto, using(crate::proofs::Counts::no_every))]
fn every(numbers: &[i64]) -> Option<Command>
    ensures { result ≡ command_from Name.Every numbers.now }
{
    let [year, month, day, months, times] = numbers else {
        return None;
    };
    let date = calendar_date(*year, *month, *day)?;
    let months = to_i32(*months)?;
    let times = to_u32(*times)?;
    Some(Command::Every {
        date,
        months,
        times,
    })
}

// A year, a month and a day.
#[tactic(auto, unfolding(crate::specs::Commands::calendar_date))]
fn calendar_date(year: i64, month: i64, day: i64) -> Option<CalendarDate>
    ensures { result ≡ calendar_date year month day }
{
    let year = to_i32(year)?;
    let month = to_u32(month)?;
    let day = to_u32(day)?;
    Some(CalendarDate { year, month, day })
}

// An hour, a minute, a second and a nanosecond.
#[tactic(auto, unfolding(crate::specs::Commands::clock_time))]
fn clock_time(hour: i64, minute: i64, second: i64, nanosecond: i64) -> Option<ClockTime>
    ensures { result ≡ clock_time hour minute second nanosecond }
{
    let hour = to_u32(hour)?;
    let minute = to_u32(minute)?;
    let second = to_u32(second)?;
    let nanosecond = to_u32(nanosecond)?;
    Some(ClockTime {
        hour,
        minute,
        second,
        nanosecond,
    })
}

// The set of these weekdays.
fn weekday_set(numbers: &[i64]) -> Option<WeekdaySet>
    ensures { result ≡ weekday_set numbers.now }
{
    let mut days = WeekdaySet::EMPTY;
    for number in numbers {
        days.insert(to_weekday(*number)?);
    }
    Some(days)
}
