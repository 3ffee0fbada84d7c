//! The texts of the results of commands, each appended to a text. The text of no result is `none`.
ghost use Rattle.std.specs.Prelude.{◌≡◌, ◌≤◌, ◌+◌, ◌++◌, length, take, codes, IfSome};
ghost use Rattle.std.specs.Fmt.{decimal, signed_decimal};
ghost use Rattle.std.specs.Option.{option_map};
ghost use Rattle.std.specs.Str.{byte};
ghost use Rattle.chrono_units.specs.WeekdaySet.{walk};
ghost use Rattle.chrono_units.specs.WeekdayText.{weekday_text, set_text};
ghost use Rattle.chrono_clock.specs.Moment.{moment};
ghost use Rattle.chrono_text.specs.Text.{duration_text, two_digits, week_text, year_text};
ghost use Rattle.chrono_clock.specs.TimeText.{time_text};
ghost use Rattle.chrono_calendar.specs.Days.{ordinal_of, year_of};
ghost use Rattle.chrono_calendar.specs.Weeks.{iso_week_of, iso_year_of, week_first_of, weekday_of};
ghost use Rattle.caltool_form.specs.SpacedDays.{spaced_days_text};
ghost use Rattle.caltool_form.specs.Private.{listed_days_text};
ghost use Rattle.caltool_form.specs.Answers.{date_line, names_of, week_line};
ghost use Rattle.caltool_form.specs.Texts.{text_of_date, text_of_moment, text_or_none};

use crate::command_answers::CommandAnswers;
use chrono_clock::{NaiveTime, TimeDelta, Timelike};
use chrono_text::Text;
use chrono_units::{Weekday, WeekdaySet};
use std::simd::prelude::*;

// What stands for a value that does not exist.
fn push_none<const N: usize>(out: &mut Text<N>)
    requires { length out.old + 13 ≤ N }
    ensures text { out.new ≡ out.old ++ codes "none" }
    ensures fits { length out.new ≤ length out.old + 13 }
{
    out.push_text(b"none");
}

// A date with all its names.
pub(crate) fn push_date_line<A: CommandAnswers, const N: usize>(
    out: &mut Text<N>,
    date: Option<A::Date>,
)
    requires { length out.old + 63 ≤ N }
    ensures text { out.new ≡ out.old ++ date_line (option_map A.number date) }
    ensures fits { length out.new ≤ length out.old + 63 }
{
    match date {
        None => push_none(out),
        Some(date) => push_names::<A, N>(out, date),
    }
}

// The first and the last day of the date's week from the start on.
pub(crate) fn push_week_line<A: CommandAnswers, const N: usize>(
    out: &mut Text<N>,
    date: Option<A::Date>,
    start: Weekday,
)
    requires { length out.old + 63 ≤ N }
    ensures text { out.new ≡ out.old
        ++ text_or_none (λ n. week_line (week_first_of n start)) (option_map A.number date) }
    ensures fits { length out.new ≤ length out.old + 63 }
{
    match date {
        None => push_none(out),
        Some(date) => push_week_days::<A, N>(out, date, start),
    }
}

// These two days, each of them `none` where it is no date.
fn push_week_days<A: CommandAnswers, const N: usize>(
    out: &mut Text<N>,
    date: A::Date,
    start: Weekday,
)
    requires { length out.old + 63 ≤ N }
    ensures text { out.new ≡ out.old ++ week_line (week_first_of (A.number date) start) }
    ensures fits { length out.new ≤ length out.old + 63 }
{
    let (first, last) = A::week(date, start);
    push_date_or_none::<A, N>(out, first);
    out.push_text(b" ");
    push_date_or_none::<A, N>(out, last);
}

// A date, or `none`.
fn push_date_or_none<A: CommandAnswers, const N: usize>(out: &mut Text<N>, date: Option<A::Date>)
    requires { length out.old + 15 ≤ N }
    ensures text { out.new ≡ out.old ++ text_or_none text_of_date (option_map A.number date) }
    ensures fits { length out.new ≤ length out.old + 13 }
{
    match date {
        None => push_none(out),
        Some(date) => push_date::<A, N>(out, date),
    }
}

// A date-time in one word.
pub(crate) fn push_moment<A: CommandAnswers, const N: usize>(
    out: &mut Text<N>,
    reached: Option<(A::Date, NaiveTime)>,
)
    requires { length out.old + 63 ≤ N }
    ensures text { out.new ≡ out.old
        ++ text_or_none (text_of_moment (byte "T")) (option_map (λ m. moment (A.number m.0) m.1) reached) }
    ensures fits { length out.new ≤ length out.old + 63 }
{
    match reached {
        None => push_none(out),
        Some((date, time)) => push_date_and_time::<A, N>(out, date, time),
    }
}

// A duration.
pub(crate) fn push_distance<const N: usize>(out: &mut Text<N>, distance: Option<TimeDelta>)
    requires { length out.old + 63 ≤ N }
    ensures text { out.new ≡ out.old ++ text_or_none duration_text distance }
    ensures fits { length out.new ≤ length out.old + 63 }
{
    match distance {
        None => push_none(out),
        Some(distance) => distance.put_into(out),
    }
}

// A number of years.
pub(crate) fn push_years<const N: usize>(out: &mut Text<N>, years: Option<u32>)
    requires { length out.old + 63 ≤ N }
    ensures text { out.new ≡ out.old ++ text_or_none decimal years }
    ensures fits { length out.new ≤ length out.old + 63 }
{
    match years {
        None => push_none(out),
        Some(years) => out.push_u32(years),
    }
}

// A set, and its days in week order from the start. No branch depends on the set, since processors guess that badly.
pub(crate) fn push_set_and_walk<const N: usize>(out: &mut Text<N>, days: WeekdaySet, start: Weekday)
    requires { length out.old + 63 ≤ N }
    ensures text { out.new ≡ out.old ++ (set_text days ++ spaced_days_text (walk days start)) }
    ensures fits { length out.new ≤ length out.old + 63 }
{
    push_set(out, days);
    push_spaced_days(out, days, start);
}

// A set, in brackets.
fn push_set<const N: usize>(out: &mut Text<N>, days: WeekdaySet)
    requires { length out.old + 36 ≤ N }
    ensures text { out.new ≡ out.old ++ set_text days }
    ensures fits { length out.new ≤ length out.old + 35 }
{
    out.push(b'[');
    push_listed_days(out, days);
    // No comma stands behind the last day.
    out.shorten(2 * usize::from(days.len().min(1)));
    out.push(b']');
}

// The days of a set from Monday on, each before a comma and a space.
#[inline]
fn push_listed_days<const N: usize>(out: &mut Text<N>, days: WeekdaySet)
    requires { length out.old + 35 ≤ N }
    ensures text { out.new ≡ out.old ++ listed_days_text (walk days Weekday.Mon) }
    ensures fits { length out.new ≤ length out.old + 35 }
{
    let mut day = Weekday::Mon;
    let mut left = 7u32;
    while left > 0 {
        out.push_text_if(days.contains(day), listed_name(day));
        day = day.succ();
        left -= 1;
    }
}

// The days of a set in week order from the start, each after a space.
#[inline]
fn push_spaced_days<const N: usize>(out: &mut Text<N>, days: WeekdaySet, start: Weekday)
    requires { length out.old + 28 ≤ N }
    ensures text { out.new ≡ out.old ++ spaced_days_text (walk days start) }
    ensures fits { length out.new ≤ length out.old + 28 }
{
    let mut day = start;
    let mut left = 7u32;
    while left > 0 {
        out.push_text_if(days.contains(day), spaced_name(day));
        day = day.succ();
        left -= 1;
    }
}

// The name of a day before a comma and a space, to be put at once.
#[inline]
fn listed_name(day: Weekday) -> [u8; 5]
    ensures { result ≡ weekday_text day ++ codes ", " }
{
    let name = spaced_name(day);
    [name[1], name[2], name[3], b',', b' ']
}

// The name of a day after a space, to be put at once.
#[inline]
fn spaced_name(day: Weekday) -> [u8; 4]
    ensures { result ≡ codes " " ++ weekday_text day }
{
    match day {
        Weekday::Mon => *b" Mon",
        Weekday::Tue => *b" Tue",
        Weekday::Wed => *b" Wed",
        Weekday::Thu => *b" Thu",
        Weekday::Fri => *b" Fri",
        Weekday::Sat => *b" Sat",
        Weekday::Sun => *b" Sun",
    }
}

// ---- the texts of dates

// A date.
fn push_date<A: CommandAnswers, const N: usize>(out: &mut Text<N>, date: A::Date)
    requires { length out.old + 15 ≤ N }
    ensures text { out.new ≡ out.old ++ text_of_date (A.number date) }
    ensures fits { length out.new ≤ length out.old + 13 }
{
    let (year, month, day) = A::year_month_day(date);
    out.push_calendar_date(year, month, day);
}

// A date with all its names. The ISO year is the year of most dates, so its text is put again.
fn push_names<A: CommandAnswers, const N: usize>(out: &mut Text<N>, date: A::Date)
    requires { length out.old + 63 ≤ N }
    ensures text { out.new ≡ out.old ++ names_of (A.number date) }
    ensures fits { length out.new ≤ length out.old + 63 }
{
    let start = out.as_bytes().len();
    push_date::<A, N>(out, date);
    // Six bytes of the date stand behind its year.
    let len = out.as_bytes().len() - start - 6;
    push_day_and_weekday::<A, N>(out, date);
    let year = u8x8::from_slice(&out.as_bytes()[start..]).to_array();
    push_week_and_ordinal::<A, N>(out, date, year, len);
}

// The day number and the weekday, each after a space.
fn push_day_and_weekday<A: CommandAnswers, const N: usize>(out: &mut Text<N>, date: A::Date)
    requires { length out.old + 21 ≤ N }
    ensures text { out.new ≡ out.old ++ codes " " ++ signed_decimal (A.number date) ++ codes " "
        ++ weekday_text (weekday_of (A.number date)) }
    ensures fits { length out.new ≤ length out.old + 16 }
{
    out.push_text(b" ");
    out.push_i32(A::day(date));
    out.push_text_if(true, spaced_name(A::weekday(date)));
}

// The ISO week and the ordinal, each after a space. The first `len` bytes of `year` are the text of the date's year.
fn push_week_and_ordinal<A: CommandAnswers, const N: usize>(
    out: &mut Text<N>,
    date: A::Date,
    year: [u8; 8],
    len: usize,
)
    requires room { length out.old + 32 ≤ N }
    requires few { len ≤ 7 }
    requires year { take len year ≡ year_text (year_of (A.number date)) }
    ensures text { out.new
        ≡ out.old
        ++ codes " " ++ week_text (iso_year_of (A.number date)) (iso_week_of (A.number date))
        ++ codes " " ++ decimal (ordinal_of (A.number date)) }
    ensures fits { length out.new ≤ length out.old + 23 }
{
    out.push(b' ');
    let ordinal = A::ordinal(date);
    push_week::<A, N>(out, date, ordinal, year, len);
    out.push(b' ');
    out.push_short_u32(ordinal);
}

// The ISO week of a date with this ordinal. The first `len` bytes of `year` are the text of the date's year.
#[inline]
fn push_week<A: CommandAnswers, const N: usize>(
    out: &mut Text<N>,
    date: A::Date,
    ordinal: u32,
    year: [u8; 8],
    len: usize,
)
    requires room { length out.old + 13 ≤ N }
    requires ordinal { ordinal ≡ ordinal_of (A.number date) }
    requires few { len ≤ 7 }
    requires year { take len year ≡ year_text (year_of (A.number date)) }
    ensures text { out.new
        ≡ out.old ++ week_text (iso_year_of (A.number date)) (iso_week_of (A.number date)) }
    ensures fits { length out.new ≤ length out.old + 11 }
{
    match week_of_year::<A>(date, ordinal, A::weekday(date)) {
        Some(week) => push_week_of_year(out, year, len, week),
        None => push_iso_week::<A, N>(out, date),
    }
}

// The ISO week of a date, if its Thursday is one of the first 364 days of the date's year. That is then the ISO year.
#[inline]
fn week_of_year<A: CommandAnswers>(date: A::Date, ordinal: u32, weekday: Weekday) -> Option<u32>
    requires ordinal { ordinal ≡ ordinal_of (A.number date) }
    requires weekday { weekday ≡ weekday_of (A.number date) }
    ensures week { IfSome result (λ week. week ≡ iso_week_of (A.number date)) }
    ensures year { IfSome result (λ _. iso_year_of (A.number date) ≡ year_of (A.number date)) }
    ensures few { IfSome result (λ week. week ≤ 52) }
{
    let place = ordinal + 3;
    let from_monday = weekday.num_days_from_monday();
    if place <= from_monday {
        return None;
    }
    let thursday = place - from_monday;
    if thursday > 364 {
        return None;
    }
    Some((thursday + 6) / 7)
}

// The text of a year, which is the first `len` bytes of `year`, and a week of it.
#[inline]
fn push_week_of_year<const N: usize>(out: &mut Text<N>, year: [u8; 8], len: usize, week: u32)
    requires room { length out.old + 13 ≤ N }
    requires few { len ≤ 7 }
    requires small { week ≤ 52 }
    ensures text { out.new ≡ out.old ++ take len year ++ codes "-W" ++ two_digits week }
    ensures fits { length out.new ≤ length out.old + 11 }
{
    push_front(out, year, len);
    out.push(b'-');
    out.push(b'W');
    out.push_two(week);
}

// The first `len` bytes, of which all are put at once.
#[inline]
fn push_front<const N: usize>(out: &mut Text<N>, bytes: [u8; 8], len: usize)
    requires room { length out.old + 8 ≤ N }
    requires few { len ≤ 8 }
    ensures { out.new ≡ out.old ++ take len bytes }
{
    out.push_text_if(true, bytes);
    out.shorten(8 - len);
}

// The ISO year and the week of a date.
fn push_iso_week<A: CommandAnswers, const N: usize>(out: &mut Text<N>, date: A::Date)
    requires { length out.old + 11 ≤ N }
    ensures text { out.new
        ≡ out.old ++ week_text (iso_year_of (A.number date)) (iso_week_of (A.number date)) }
    ensures fits { length out.new ≤ length out.old + 11 }
{
    let (year, week) = A::iso_name(date);
    out.push_week(year, week);
}

// A date and a time of day with a `T` between.
fn push_date_and_time<A: CommandAnswers, const N: usize>(
    out: &mut Text<N>,
    date: A::Date,
    time: NaiveTime,
)
    requires { length out.old + 63 ≤ N }
    ensures text { out.new ≡ out.old ++ text_of_moment (byte "T") (moment (A.number date) time) }
    ensures fits { length out.new ≤ length out.old + 63 }
{
    push_date::<A, N>(out, date);
    out.push_text(b"T");
    push_time(out, time);
}

// A time of day.
fn push_time<const N: usize>(out: &mut Text<N>, time: NaiveTime)
    requires { length out.old + 18 ≤ N }
    ensures text { out.new ≡ out.old ++ time_text time }
    ensures fits { length out.new ≤ length out.old + 18 }
{
    out.push_clock(time.hour(), time.minute(), time.second(), time.nanosecond());
}
