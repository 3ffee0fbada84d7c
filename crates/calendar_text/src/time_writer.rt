//! Dates and date-times, written.
ghost use Rattle.std.specs.Prelude.{◌≡◌, ◌+◌, ◌≤◌, ◌++◌, length};
ghost use Rattle.chrono_rules.specs.WrittenRules.{basic_date_text, four_digits};
ghost use Rattle.calendar_text.specs.CalendarTimes.{basic_clock_text, basic_moment_text, calendar_time_text};

use crate::calendar_time::CalendarTime;
use chrono_datetime::{Datelike, NaiveDate, NaiveDateTime, NaiveTime, Timelike};
use chrono_text::Text;

// Puts a time.
#[tactic(auto, unfolding(crate::specs::CalendarTimes::calendar_time_text))]
pub(crate) fn put_time<const N: usize>(text: &mut Text<N>, time: &CalendarTime)
    requires { length text.old + 32 ≤ N }
    ensures text { text.new ≡ text.old ++ calendar_time_text time.now }
    ensures fits { length text.new ≤ length text.old + 23 }
{
    match time {
        CalendarTime::Date(date) => put_date(text, *date),
        CalendarTime::Local(moment) => put_moment(text, *moment),
        CalendarTime::Utc(moment) => {
            put_moment(text, *moment);
            text.push(b'Z');
        }
    }
}

// Puts a date, a `T` and a time of day.
fn put_moment<const N: usize>(text: &mut Text<N>, moment: NaiveDateTime)
    requires { length text.old + 31 ≤ N }
    ensures text { text.new ≡ text.old ++ basic_moment_text moment }
    ensures fits { length text.new ≤ length text.old + 22 }
{
    put_date(text, moment.date());
    text.push(b'T');
    put_clock(text, moment.time());
}

// Puts a year, a month and a day.
fn put_date<const N: usize>(text: &mut Text<N>, date: NaiveDate)
    requires { length text.old + 24 ≤ N }
    ensures text { text.new ≡ text.old ++ basic_date_text date }
    ensures fits { length text.new ≤ length text.old + 15 }
{
    put_year(text, date.year());
    text.push_two(date.month());
    text.push_two(date.day());
}

// Puts a year, in four digits if it is one from 0 to 9999.
fn put_year<const N: usize>(text: &mut Text<N>, year: i32)
    requires { length text.old + 20 ≤ N }
    ensures text { text.new ≡ text.old ++ four_digits year }
    ensures fits { length text.new ≤ length text.old + 11 }
{
    if 0 <= year && year <= 9_999 {
        text.push_four(year.unsigned_abs());
    } else {
        text.push_i32(year);
    }
}

// Puts an hour, a minute and a second.
fn put_clock<const N: usize>(text: &mut Text<N>, time: NaiveTime)
    requires { length text.old + 6 ≤ N }
    ensures text { text.new ≡ text.old ++ basic_clock_text time }
    ensures fits { length text.new ≡ length text.old + 6 }
{
    text.push_two(time.hour());
    text.push_two(time.minute());
    text.push_two(time.second());
}
