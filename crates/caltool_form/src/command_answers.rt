//! The trait of the types that answer commands: they find, move, compare and read dates.
ghost use Rattle.std.specs.Prelude.{◌≡◌, ℤ, pos, neg_ℤ, ◌+ℤ◌, ◌≤ℤ◌};
ghost use Rattle.std.specs.Int.{IsInRange};
ghost use Rattle.std.specs.Option.{option_map};
ghost use Rattle.chrono_units.specs.Years.{IsYear};
ghost use Rattle.chrono_clock.specs.Moment.{moment, moment_distance};
ghost use Rattle.chrono_calendar.specs.Days.{IsCalendarName, date_of_day, date_of_ymd, date_of_yo, year_of, month_of, day_of, ordinal_of};
ghost use Rattle.chrono_calendar.specs.MonthMoves.{month_move};
ghost use Rattle.chrono_calendar.specs.Recurrence.{date_every, date_on};
ghost use Rattle.chrono_calendar.specs.Weeks.{date_of_iso, date_of_nth_weekday, iso_week_of, iso_year_of, week_first_of, weekday_of};
ghost use Rattle.caltool_form.specs.Named.{months_of, reach_named};

use caltool_command::MonthSpan;
use chrono_clock::{NaiveTime, TimeDelta};
use chrono_units::{Weekday, WeekdaySet};

/// A type that answers commands. It finds, moves and reads dates of its own type `Date`.
///
/// The texts of the answers are written in one place, for all such types.
pub trait CommandAnswers {
    /// A date.
    type Date: Copy;

    // The day number of a date.
    ghost number: { Self.Date → ℤ };

    /// Returns the date with this year, month and day (ISO 8601 calendar date), or `None` if it is invalid.
    fn from_ymd(year: i32, month: u32, day: u32) -> Option<Self::Date>
        ensures { option_map number result ≡ date_of_ymd year month day };

    /// Returns the date with this year and day of the year (ISO 8601 ordinal date), or `None` if it is invalid.
    fn from_yo(year: i32, ordinal: u32) -> Option<Self::Date>
        ensures { option_map number result ≡ date_of_yo year ordinal };

    /// Returns the date with this ISO year, week and weekday (ISO 8601 week date), or `None` if it is invalid.
    fn from_iso(year: i32, week: u32, weekday: Weekday) -> Option<Self::Date>
        ensures { option_map number result ≡ date_of_iso year week weekday };

    /// Returns the date with the day number `day`, or `None` if it is out of range.
    fn from_day(day: i32) -> Option<Self::Date>
        ensures { option_map number result ≡ date_of_day day };

    /// Returns the `nth` day of a month that falls on `weekday`, counted from 1, or `None` if there is no such date.
    fn nth_weekday(year: i32, month: u32, weekday: Weekday, nth: u8) -> Option<Self::Date>
        ensures { option_map number result ≡ date_of_nth_weekday year month weekday nth };

    /// Returns the date `count` days later, or earlier for a negative `count`. Returns `None` if it is out of range.
    fn move_days(date: Self::Date, count: i64) -> Option<Self::Date>
        ensures { option_map number result ≡ date_of_day (number date +ℤ count) };

    /// Returns the date `span` later or earlier. If the new month is too short, it is its last day. Returns `None` if
    /// it is out of range.
    fn move_months(date: Self::Date, span: MonthSpan) -> Option<Self::Date>
        ensures { option_map number result ≡ month_move (number date) (months_of span) };

    /// Returns the date and time of day a duration later, or `None` if it is out of range.
    fn move_moment(
        date: Self::Date,
        time: NaiveTime,
        by: TimeDelta,
    ) -> Option<(Self::Date, NaiveTime)>
        ensures { option_map (λ m. moment (number m.0) m.1) result
            ≡ reach_named (moment (number date) time) by };

    /// Returns the first and the last day of the date's week, if weeks begin on `start`. A day out of range is `None`.
    fn week(date: Self::Date, start: Weekday) -> (Option<Self::Date>, Option<Self::Date>)
        ensures first { option_map number result.0
            ≡ date_of_day (week_first_of (number date) start) }
        ensures last { option_map number result.1
            ≡ date_of_day (week_first_of (number date) start +ℤ pos 6) };

    /// Returns the first date from `date` on whose weekday is in `days`. Returns `None` if `days` is empty, or the date
    /// is out of range.
    fn first_on(date: Self::Date, days: WeekdaySet) -> Option<Self::Date>
        ensures { option_map number result ≡ date_on (number date) days };

    /// Returns the date `months * times` months later, in one move, or `None` if it is out of range.
    fn every_months(date: Self::Date, months: i32, times: u32) -> Option<Self::Date>
        ensures { option_map number result ≡ date_every (number date) months times };

    /// Returns the duration from one date and time of day to another.
    fn distance(
        date: Self::Date,
        time: NaiveTime,
        base: Self::Date,
        base_time: NaiveTime,
    ) -> TimeDelta
        ensures { result
            ≡ moment_distance (moment (number date) time) (moment (number base) base_time) };

    /// Returns the year, the month and the day of the month.
    fn year_month_day(date: Self::Date) -> (i32, u32, u32)
        ensures year { result.0 ≡ year_of (number date) }
        ensures month { result.1 ≡ month_of (number date) }
        ensures day { result.2 ≡ day_of (number date) }
        ensures in_range { IsYear (year_of (number date)) }
        ensures exists { IsCalendarName (year_of (number date)) (month_of (number date))
            (day_of (number date)) };

    /// Returns the day number.
    fn day(date: Self::Date) -> i32
        ensures { result ≡ number date };

    /// Returns the weekday.
    fn weekday(date: Self::Date) -> Weekday
        ensures { result ≡ weekday_of (number date) };

    /// Returns the ISO year and its week (ISO 8601 week date).
    fn iso_name(date: Self::Date) -> (i32, u32)
        ensures year { result.0 ≡ iso_year_of (number date) }
        ensures week { result.1 ≡ iso_week_of (number date) }
        ensures year_in_range { (neg_ℤ (pos 262_143) ≤ℤ result.0) × (result.0 ≤ℤ pos 262_143) }
        ensures week_in_range { IsInRange 1 53 result.1 };

    /// Returns the day of the year.
    fn ordinal(date: Self::Date) -> u32
        ensures { result ≡ ordinal_of (number date) };
}
