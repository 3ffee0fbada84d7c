//! The commands of `caltool`.

use crate::arguments::{CalendarDate, DateAndTime, MonthSpan};
use chrono_units::{Weekday, WeekdaySet};

/// A command: a command word with its numbers.
#[derive(Clone, Copy, Debug, PartialEq, Eq)]
pub enum Command {
    /// `ymd Y M D`: the date with a year, a month and a day.
    Ymd {
        /// The date.
        date: CalendarDate,
    },
    /// `yo Y O`: the date with a year and a day of the year (ISO 8601 ordinal date).
    Yo {
        /// The year, proleptic Gregorian.
        year: i32,
        /// The day of the year, from 1.
        ordinal: u32,
    },
    /// `iwd Y W D`: the date with an ISO year, a week and a weekday (ISO 8601 week date).
    Iwd {
        /// The ISO year.
        year: i32,
        /// The week, from 1.
        week: u32,
        /// The weekday.
        weekday: Weekday,
    },
    /// `day N`: the date with a day number.
    Day {
        /// The day number: 1 for 0001-01-01.
        number: i32,
    },
    /// `wom Y M D K`: the `K`-th day of a month that falls on a given weekday.
    Wom {
        /// The year, proleptic Gregorian.
        year: i32,
        /// The month, from 1 for January.
        month: u32,
        /// The weekday.
        weekday: Weekday,
        /// The number of the day among those of the month with this weekday, from 1.
        nth: u8,
    },
    /// `days Y M D K`: the date `K` days later than a date.
    Days {
        /// The date.
        date: CalendarDate,
        /// The number of days. A negative number moves back.
        count: i64,
    },
    /// `months Y M D K`: the date `K` months later than a date.
    Months {
        /// The date.
        date: CalendarDate,
        /// The number of months, later or earlier.
        span: MonthSpan,
    },
    /// `week Y M D S`: the week of a date, if weeks begin on the weekday `S`.
    Week {
        /// The date.
        date: CalendarDate,
        /// The weekday on which weeks begin.
        start: Weekday,
    },
    /// `move Y M D h m s n S N`: the date and time `S` seconds and `N` nanoseconds later.
    Move {
        /// The date and time.
        from: DateAndTime,
        /// The number of seconds. A negative number moves back.
        seconds: i64,
        /// The number of nanoseconds added to the seconds.
        nanoseconds: u32,
    },
    /// `diff` and two of `Y M D h m s n`: the first date and time minus the second.
    Diff {
        /// The date and time from which the second is subtracted.
        first: DateAndTime,
        /// The date and time that is subtracted.
        second: DateAndTime,
    },
    /// `since Y M D Y M D`: the number of whole years from the second date to the first.
    Since {
        /// The date at which the years end.
        date: CalendarDate,
        /// The date at which the years start.
        base: CalendarDate,
    },
    /// `set S D ..`: a set of weekdays, and its days in the order of the week from `S`.
    Set {
        /// The weekday with which the order starts.
        start: Weekday,
        /// The set of the weekdays after it. The line may repeat a weekday.
        days: WeekdaySet,
    },
    /// `on Y M D S ..`: the first date from a date on whose weekday is one of those listed.
    On {
        /// The first date that can be the result.
        date: CalendarDate,
        /// The weekdays. There can be none, and the line may repeat one.
        days: WeekdaySet,
    },
    /// `every Y M D K I`: the date `K * I` months later than a date, in one move.
    Every {
        /// The date to move.
        date: CalendarDate,
        /// The number of months between two dates of the series. A negative number goes back.
        months: i32,
        /// The number of the date in the series: 0 for the date itself.
        times: u32,
    },
}
