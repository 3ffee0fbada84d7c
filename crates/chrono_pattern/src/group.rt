//! Writes the numbers and the words of a date-time that stand together.
ghost use Rattle.std.specs.Prelude.{◌≡◌, ◌+◌, ◌<◌, ◌≤◌, ◌++◌, ◌∷◌, length, pos, unsigned_abs};
ghost use Rattle.std.specs.Int.{int_rem_euclid};
ghost use Rattle.std.specs.Str.{byte};
ghost use Rattle.chrono_datetime.specs.Days.{day_of, month_of, year_of};
ghost use Rattle.chrono_datetime.specs.Time.{hour12_of, hour_of, minute_of};
ghost use Rattle.chrono_datetime.specs.WeekdayText.{weekday_text};
ghost use Rattle.chrono_datetime.specs.Weeks.{weekday_of};
ghost use Rattle.chrono_pattern.specs.GroupParts.{clock_at, letters_of_month, padded_year, spaced, two};
ghost use Rattle.chrono_pattern.specs.Groups.{group_text};
ghost use Rattle.chrono_pattern.specs.Words.{half_text};

use crate::item::GroupField;
use crate::number::{clock_second, put_spaced, put_two, put_year};
use crate::word::{half, month_name};
use chrono_datetime::{Datelike, NaiveDate, NaiveDateTime, NaiveTime, Timelike};
use chrono_text::Text;

// Puts the numbers and the words of a group.
#[tactic(auto, unfolding(crate::specs::Groups::group_text, crate::specs::Numbers::field_text, crate::specs::Words::word_text, crate::specs::GroupParts::two, crate::specs::GroupParts::spaced, crate::specs::GroupParts::padded_year, crate::specs::GroupParts::clock_at, crate::specs::GroupParts::letters_of_month))]
#[inline(never)]
pub(crate) fn put_group<const N: usize>(
    text: &mut Text<N>,
    group: GroupField,
    moment: NaiveDateTime,
)
    requires room { length text.old + 31 ≤ N }
    ensures text { text.new ≡ text.old ++ group_text group moment }
    ensures fits { length text.new ≤ length text.old + 31 }
{
    match group {
        GroupField::YearMonthDay => put_date(text, moment.date()),
        GroupField::MonthDayYear => put_slashed(text, moment.date()),
        GroupField::HourMinute => put_hour_minute(text, moment.time().hour(), moment.time()),
        GroupField::HourMinuteSecond => put_clock(text, moment.time().hour(), moment.time()),
        GroupField::HalfClock => put_half_clock(text, moment.time()),
        GroupField::DayMonthYear => put_short_date(text, moment.date()),
        GroupField::DateAndTime => put_date_and_time(text, moment.date(), moment.time()),
    }
}

// Puts a byte and a number below 100 behind it.
#[inline(always)]
fn put_behind<const N: usize>(text: &mut Text<N>, byte: u8, n: u32)
    requires small { n < 100 }
    requires room { length text.old + 3 ≤ N }
    ensures text { text.new ≡ text.old ++ byte ∷ two n }
    ensures fits { length text.new ≤ length text.old + 3 }
{
    text.push(byte);
    put_two(text, n);
}

// Puts a byte and a year behind it.
fn put_year_behind<const N: usize>(text: &mut Text<N>, byte: u8, year: i32)
    requires room { length text.old + 12 ≤ N }
    ensures text { text.new ≡ text.old ++ byte ∷ padded_year year }
    ensures fits { length text.new ≤ length text.old + 12 }
{
    text.push(byte);
    put_year(text, year);
}

// Puts a byte and the three letters of a month behind it.
#[tactic(auto, unfolding(crate::specs::GroupParts::letters_of_month))]
fn put_month_behind<const N: usize>(text: &mut Text<N>, byte: u8, date: NaiveDate)
    requires room { length text.old + 4 ≤ N }
    ensures text { text.new ≡ text.old ++ byte ∷ letters_of_month date }
    ensures fits { length text.new ≤ length text.old + 4 }
{
    text.push(byte);
    text.push_text(&month_name(date)[..3]);
}

// Puts a year, a month and a day of the month.
#[inline(always)]
fn put_date<const N: usize>(text: &mut Text<N>, date: NaiveDate)
    requires room { length text.old + 17 ≤ N }
    ensures text { text.new ≡ text.old ++ padded_year (year_of date) ++ byte "-" ∷ two (month_of date) ++ byte "-" ∷ two (day_of date) }
    ensures fits { length text.new ≤ length text.old + 17 }
{
    let (year, month, day) = date.year_month_day();
    put_year(text, year);
    put_behind(text, b'-', month);
    put_behind(text, b'-', day);
}

// Puts a month, a day of the month and a year of the century.
fn put_slashed<const N: usize>(text: &mut Text<N>, date: NaiveDate)
    requires room { length text.old + 8 ≤ N }
    ensures text { text.new ≡ text.old ++ two (month_of date) ++ byte "/" ∷ two (day_of date)
        ++ byte "/" ∷ two (unsigned_abs (int_rem_euclid (year_of date) (pos 100))) }
    ensures fits { length text.new ≤ length text.old + 8 }
{
    let (year, month, day) = date.year_month_day();
    put_two(text, month);
    put_behind(text, b'/', day);
    put_behind(text, b'/', year.rem_euclid(100).unsigned_abs());
}

// Puts an hour and a minute.
#[inline(always)]
fn put_hour_minute<const N: usize>(text: &mut Text<N>, hour: u32, time: NaiveTime)
    requires hour { hour < 100 }
    requires room { length text.old + 5 ≤ N }
    ensures text { text.new ≡ text.old ++ two hour ++ byte ":" ∷ two (minute_of time) }
    ensures fits { length text.new ≤ length text.old + 5 }
{
    put_two(text, hour);
    put_behind(text, b':', time.minute());
}

// Puts an hour, a minute and a second.
#[inline(always)]
#[tactic(auto, unfolding(crate::specs::GroupParts::clock_at))]
fn put_clock<const N: usize>(text: &mut Text<N>, hour: u32, time: NaiveTime)
    requires hour { hour < 100 }
    requires room { length text.old + 8 ≤ N }
    ensures text { text.new ≡ text.old ++ clock_at hour time }
    ensures fits { length text.new ≤ length text.old + 8 }
{
    put_hour_minute(text, hour, time);
    put_behind(text, b':', clock_second(time));
}

// Puts a time of day on the clock of twelve hours.
fn put_half_clock<const N: usize>(text: &mut Text<N>, time: NaiveTime)
    requires room { length text.old + 11 ≤ N }
    ensures text { text.new ≡ text.old ++ clock_at (hour12_of time) time ++ byte " " ∷ half_text time }
    ensures fits { length text.new ≤ length text.old + 11 }
{
    put_clock(text, time.hour12().1, time);
    text.push(b' ');
    text.push_text(half(time));
}

// Puts a day, the letters of a month and a year.
fn put_short_date<const N: usize>(text: &mut Text<N>, date: NaiveDate)
    requires room { length text.old + 18 ≤ N }
    ensures text { text.new ≡ text.old ++ spaced (day_of date) ++ byte "-" ∷ letters_of_month date ++ byte "-" ∷ padded_year (year_of date) }
    ensures fits { length text.new ≤ length text.old + 18 }
{
    put_spaced(text, date.day());
    put_month_behind(text, b'-', date);
    put_year_behind(text, b'-', date.year());
}

// Puts the letters of a weekday and of a month, and a day.
#[tactic(auto, using(crate::proofs::WriteLemmas::letters))]
fn put_day<const N: usize>(text: &mut Text<N>, date: NaiveDate)
    requires room { length text.old + 10 ≤ N }
    ensures text { text.new ≡ text.old ++ weekday_text (weekday_of date) ++ byte " " ∷ letters_of_month date ++ byte " " ∷ spaced (day_of date) }
    ensures fits { length text.new ≤ length text.old + 10 }
{
    date.weekday().put_into(text);
    put_month_behind(text, b' ', date);
    text.push(b' ');
    put_spaced(text, date.day());
}

// Puts a day and a time of day.
fn put_day_and_clock<const N: usize>(text: &mut Text<N>, date: NaiveDate, time: NaiveTime)
    requires room { length text.old + 19 ≤ N }
    ensures text { text.new ≡ text.old ++ (weekday_text (weekday_of date) ++ byte " " ∷ letters_of_month date ++ byte " " ∷ spaced (day_of date))
        ++ byte " " ∷ clock_at (hour_of time) time }
    ensures fits { length text.new ≤ length text.old + 19 }
{
    put_day(text, date);
    text.push(b' ');
    put_clock(text, time.hour(), time);
}

// Puts a day, a time of day and a year.
fn put_date_and_time<const N: usize>(text: &mut Text<N>, date: NaiveDate, time: NaiveTime)
    requires room { length text.old + 31 ≤ N }
    ensures text { text.new ≡ text.old ++ (weekday_text (weekday_of date) ++ byte " " ∷ letters_of_month date ++ byte " " ∷ spaced (day_of date))
        ++ byte " " ∷ clock_at (hour_of time) time ++ byte " " ∷ padded_year (year_of date) }
    ensures fits { length text.new ≤ length text.old + 31 }
{
    put_day_and_clock(text, date, time);
    put_year_behind(text, b' ', date.year());
}
