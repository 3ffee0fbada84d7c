//! Lines of answers, as texts or as objects of JSON (RFC 8259).
ghost use Rattle.std.specs.Prelude.{◌≡◌, Some};
ghost use Rattle.std.specs.Fmt.{WritesOnOk};
ghost use Rattle.dates_answer.specs.Lines.{reply_object, reply_text, day_object, key_text, line_text, months_days_text, names_object, numbers_in_object, parts_text};

use crate::form::OutputForm;
use crate::names::{DayNames, OrdinalName, WeekName};
use crate::parts::Parts;
use chrono_datetime::{Datelike, NaiveDate, NaiveDateTime, NaiveTime, TimeDelta, Weekday};
use chrono_zoned::{DateTime, FixedOffset};
use std::fmt;

/// The key under which an object of JSON has an answer.
#[derive(Clone, Copy, PartialEq, Eq)]
pub enum Key {
    /// A day.
    Date,
    /// A date-time.
    Moment,
    /// A time of day.
    Time,
    /// How long it is between two date-times.
    Duration,
    /// Days.
    Days,
    /// Weeks.
    Weeks,
    /// Months.
    Months,
    /// Years.
    Years,
    /// Hours.
    Hours,
    /// Minutes.
    Minutes,
    /// Seconds.
    Seconds,
    /// Open days.
    OpenDays,
    /// Whether a day is open.
    Open,
    /// Whether a year is a leap year.
    Leap,
    /// A weekday.
    Weekday,
    /// An instant in seconds since 1970 in UTC.
    Unix,
    /// The rule of a time zone.
    Rule,
    /// A text.
    Text,
}

/// What a line says.
#[derive(Clone, Copy)]
pub enum Reply {
    /// A day by all its names.
    Names(NaiveDate),
    /// A day.
    Date(NaiveDate),
    /// A weekday.
    Weekday(Weekday),
    /// A date-time.
    Moment(NaiveDateTime),
    /// A date-time with its offset.
    Stamp(DateTime<FixedOffset>),
    /// A time of day.
    Clock(NaiveTime),
    /// How long it is between two date-times.
    Duration(TimeDelta),
    /// A number of what the key says.
    Number(Key, i64),
    /// Whether it is what the key says.
    Whether(Key, bool),
    /// Years, months and days.
    Parts(Parts),
    /// The first day of a week and its last.
    Week(NaiveDate, NaiveDate),
    /// That there is no such thing as the key says.
    Nothing(Key),
    /// That there are no years, months and days.
    NoParts,
    /// That there is no such week, or its first day if its last is no date.
    NoWeek(Option<NaiveDate>),
    /// That no clock shows such a time.
    NoClock,
    /// The name of the program and its version.
    Version,
}

/// A line of an answer, without its end: as a text, such as `2024-02-29`, or as an object of JSON, such as `{"date":"2024-02-29"}`.
#[derive(Clone, Copy)]
pub struct ReplyLine {
    /// The form that is wanted.
    pub form: OutputForm,
    /// What the line says.
    pub reply: Reply,
}

impl fmt::Display for ReplyLine {
    ghost output = { λ line. Some (line_text line.form line.reply) };

    /// Writes the line.
    fn fmt<W: fmt::Write>(&self, f: &mut fmt::Formatter<W>) -> fmt::Result {
        match self.form {
            OutputForm::Text => write_text(&self.reply, f),
            OutputForm::Json => write_object(&self.reply, f),
        }
    }
}

/// A day of a sheet as an object of JSON, such as `{"date":"2024-03-29","week":"2024-W13-5","weekday":"Friday","open":false}`.
#[derive(Clone, Copy)]
pub struct DayObject {
    /// The day.
    pub date: NaiveDate,
    /// Whether it is open.
    pub is_open: bool,
}

impl fmt::Display for DayObject {
    ghost output = { λ day. Some (day_object day.date day.is_open) };

    /// Writes the day with its week and its weekday, and whether it is open.
    #[tactic(auto, unfolding(crate::specs::Lines::day_object))]
    fn fmt<W: fmt::Write>(&self, f: &mut fmt::Formatter<W>) -> fmt::Result {
        let DayObject { date, is_open } = *self;
        let week = WeekName { date };
        let weekday = date.weekday().name();
        write!(
            f,
            "{{\"date\":\"{date}\",\"week\":\"{week}\",\"weekday\":\"{weekday}\",\"open\":{is_open}}}"
        )
    }
}

impl fmt::Display for Parts {
    ghost output = { λ parts. Some (parts_text parts) };

    /// Writes years, months and days as `1y 2m 3d`: those that are 0 are left out, and all are `0d`.
    #[tactic(auto, unfolding(crate::specs::Lines::parts_text, crate::specs::Lines::months_days_text))]
    fn fmt<W: fmt::Write>(&self, f: &mut fmt::Formatter<W>) -> fmt::Result {
        let Parts {
            years,
            months,
            days,
        } = *self;
        let rest = MonthsDays { months, days };
        match (years, months, days) {
            (0, _, _) => write!(f, "{rest}"),
            (_, 0, 0) => write!(f, "{years}y"),
            _ => write!(f, "{years}y {rest}"),
        }
    }
}

/// Months and days behind years.
#[derive(Clone, Copy)]
pub struct MonthsDays {
    /// The months.
    pub months: i64,
    /// The days.
    pub days: i64,
}

impl fmt::Display for MonthsDays {
    ghost output = { λ it. Some (months_days_text it.months it.days) };

    /// Writes months and days as `2m 3d`: one that is 0 is left out, and both are `0d`.
    #[tactic(auto, unfolding(crate::specs::Lines::months_days_text))]
    fn fmt<W: fmt::Write>(&self, f: &mut fmt::Formatter<W>) -> fmt::Result {
        let MonthsDays { months, days } = *self;
        match (months, days) {
            (0, _) => write!(f, "{days}d"),
            (_, 0) => write!(f, "{months}m"),
            _ => write!(f, "{months}m {days}d"),
        }
    }
}

// An answer as a text.
#[tactic(auto, unfolding(crate::specs::Lines::reply_text))]
fn write_text<W: fmt::Write>(reply: &Reply, f: &mut fmt::Formatter<W>) -> fmt::Result
    ensures writes { WritesOnOk W.write_str_gives f.old result (reply_text reply.now) f.new }
{
    match *reply {
        Reply::Names(date) => write!(f, "{}", DayNames { date }),
        Reply::Date(date) => write!(f, "{date}"),
        Reply::Weekday(day) => f.write_str(day.name()),
        Reply::Moment(moment) => write!(f, "{moment:?}"),
        Reply::Stamp(stamp) => write!(f, "{stamp:?}"),
        Reply::Clock(time) => write!(f, "{time}"),
        Reply::Duration(duration) => write!(f, "{duration}"),
        Reply::Number(_, number) => write!(f, "{number}"),
        Reply::Whether(_, true) => f.write_str("yes"),
        Reply::Whether(_, false) => f.write_str("no"),
        Reply::Parts(parts) => write!(f, "{parts}"),
        Reply::Week(first, last) => write!(f, "{first} {last}"),
        Reply::Nothing(_) | Reply::NoParts | Reply::NoWeek(_) | Reply::NoClock => {
            f.write_str("none")
        }
        Reply::Version => f.write_str("dates 0.2.0-dev"),
    }
}

// An answer as an object.
#[tactic(auto, unfolding(crate::specs::Lines::reply_object, crate::specs::Lines::parts_object))]
fn write_object<W: fmt::Write>(reply: &Reply, f: &mut fmt::Formatter<W>) -> fmt::Result
    ensures writes { WritesOnOk W.write_str_gives f.old result (reply_object reply.now) f.new }
{
    match *reply {
        Reply::Names(date) => write_names(date, f),
        Reply::Date(date) => write!(f, "{{\"date\":\"{date}\"}}"),
        Reply::Weekday(day) => write!(f, "{{\"weekday\":\"{}\"}}", day.name()),
        Reply::Moment(moment) => write!(f, "{{\"moment\":\"{moment:?}\"}}"),
        Reply::Stamp(stamp) => write!(f, "{{\"moment\":\"{stamp:?}\"}}"),
        Reply::Clock(time) => write!(f, "{{\"time\":\"{time}\"}}"),
        Reply::Duration(duration) => write!(f, "{{\"duration\":\"{duration}\"}}"),
        Reply::Number(key, number) => write!(f, "{{\"{}\":{number}}}", key_name(key)),
        Reply::Whether(key, yes) => write!(f, "{{\"{}\":{yes}}}", key_name(key)),
        Reply::Parts(
            Parts {
                years,
                months,
                days,
            },
        ) => write!(
            f,
            "{{\"years\":{years},\"months\":{months},\"days\":{days}}}"
        ),
        Reply::Week(first, last) => { write!(f, "{{\"first\":\"{first}\",\"last\":\"{last}\"}}") }
        Reply::Nothing(key) => write!(f, "{{\"{}\":null}}", key_name(key)),
        Reply::NoParts => f.write_str("{\"years\":null,\"months\":null,\"days\":null}"),
        Reply::NoWeek(None) => f.write_str("{\"first\":null,\"last\":null}"),
        Reply::NoWeek(Some(first)) => write!(f, "{{\"first\":\"{first}\",\"last\":null}}"),
        Reply::NoClock => f.write_str("{\"moment\":null,\"name\":null}"),
        Reply::Version => f.write_str("{\"version\":\"0.2.0-dev\"}"),
    }
}

// A day by its names as an object.
#[tactic(auto, unfolding(crate::specs::Lines::names_object))]
fn write_names<W: fmt::Write>(date: NaiveDate, f: &mut fmt::Formatter<W>) -> fmt::Result
    ensures writes { WritesOnOk W.write_str_gives f.old result (names_object date) f.new }
{
    let ordinal = OrdinalName { date };
    let week = WeekName { date };
    let numbers = DayNumbers { date };
    write!(
        f,
        "{{\"date\":\"{date}\",\"ordinal\":\"{ordinal}\",\"week\":\"{week}\",{numbers}}}"
    )
}

/// The weekday and the numbers of a day, as they stand in an object.
#[derive(Clone, Copy)]
pub struct DayNumbers {
    /// The day.
    pub date: NaiveDate,
}

impl fmt::Display for DayNumbers {
    ghost output = { λ numbers. Some (numbers_in_object numbers.date) };

    /// Writes the weekday, the day's number and the days since 1970-01-01, each under its key.
    fn fmt<W: fmt::Write>(&self, f: &mut fmt::Formatter<W>) -> fmt::Result {
        let weekday = self.date.weekday().name();
        let number = self.date.num_days_from_ce();
        let unix = self.date.to_epoch_days();
        write!(
            f,
            "\"weekday\":\"{weekday}\",\"day_number\":{number},\"unix_day\":{unix}"
        )
    }
}

/// Returns the text of the key, such as `open_days`.
#[tactic(auto, unfolding(crate::specs::Lines::key_text))]
pub fn key_name(key: Key) -> &'static str
    ensures { result.now ≡ key_text key }
{
    match key {
        Key::Date => "date",
        Key::Moment => "moment",
        Key::Time => "time",
        Key::Duration => "duration",
        Key::Days => "days",
        Key::Weeks => "weeks",
        Key::Months => "months",
        Key::Years => "years",
        Key::Hours => "hours",
        Key::Minutes => "minutes",
        Key::Seconds => "seconds",
        Key::OpenDays => "open_days",
        Key::Open => "open",
        Key::Leap => "leap",
        Key::Weekday => "weekday",
        Key::Unix => "unix",
        Key::Rule => "rule",
        Key::Text => "text",
    }
}
