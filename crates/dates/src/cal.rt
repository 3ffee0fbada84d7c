//! A month or a year as a sheet.

use crate::explain::month_name;
use crate::prelude::*;
use chrono_business::Calendar;
use chrono_text::read_year;
use dates_answer::{DayObject, MonthSheet};

const FIRST: Opt = option!(
    "--first", "WEEKDAY"; "on which weekday weeks begin (default: mon)",
    values: WEEKDAYS, default: "mon"
);

pub(crate) fn command() -> &'static CommandRow {
    row!(
        "cal", &[operand!("MONTH|YEAR|DAY"; required: false)],
        &[FIRST, NOW, WEEKEND, CALENDAR, HOLIDAYS, JSON, HELP];
        help: "print a month or a year as a sheet",
        more: "A MONTH is written as 2024-02 or 'Feb 2024', a YEAR as 2024. Of a DAY it prints\n\
            the month, and of no word that of today.\n\
            Each row begins with its ISO week, that of its Thursday. * marks a closed day,\n\
            < the DAY or today, and # a day that is both.",
        example: "$ dates cal 2021-02\n\
            \x20   February 2021\n\
            \x20   Mo Tu We Th Fr Sa Su\n\
            W05  1  2  3  4  5  6* 7*\n\
            W06  8  9 10 11 12 13*14*\n\
            W07 15 16 17 18 19 20*21*\n\
            W08 22 23 24 25 26 27*28*"
    )
}

// The month or the year as sheets with closed days marked; `none` where the calendar has no such year.
pub(crate) fn answer(asked: &mut Asked<'_>) {
    let time = asked.time();
    let start = asked.weekday(asked.option("--first"), "expected a weekday as mon");
    let mut holidays = asked.holidays();
    if !asked.is_over && !holidays.knows(time.first) {
        return asked.print_nowhere(&Start::Day(time.first), "", UNKNOWN);
    }
    if !asked.is_over {
        let printed = print_time(asked.rt, asked.form, time, start, &mut holidays);
        asked.done(printed);
    }
}

// What is shown: the month or the year that begins on a day, and which day is marked.
#[derive(Clone, Copy)]
struct Time {
    first: NaiveDate,
    is_year: bool,
    marked: Option<NaiveDate>,
}

impl Time {
    // The month or the year that begins on a day, with no day marked.
    fn from(first: NaiveDate, is_year: bool) -> Time {
        let marked = None;
        Time {
            first,
            is_year,
            marked,
        }
    }

    // The month of a day that is marked.
    fn about(date: NaiveDate) -> Time {
        let mut time = Time::from(date.first_day_of_month(), false);
        time.marked = Some(date);
        time
    }
}

// Prints a month or a year whose weeks begin on a weekday.
fn print_time(
    rt: &HostRuntime,
    form: OutputForm,
    time: Time,
    start: Weekday,
    holidays: &mut Holidays,
) -> io::Result<()> {
    let first = time.first;
    let calendar = holidays.calendar(years_of(first, first))?;
    match form {
        OutputForm::Text if time.is_year => print_year(rt, first, start, &calendar),
        OutputForm::Text => print_month(rt, time, start, &calendar),
        OutputForm::Json => print_days(rt, first, days_of(first, time.is_year), &calendar),
    }
}

impl Asked<'_> {
    // The month or the year that the word names, or that of its day, or of today.
    fn time(&mut self) -> Time {
        let Some(word) = self.words.operand(0) else {
            return Time::about(self.day_shown());
        };
        let text = word.text.as_bytes();
        if read_year(text).is_some() {
            return Time::from(self.start_of_year(word), true);
        }
        match read_month(text) {
            Ok(first) => Time::from(first, false),
            Err(error) if error.cause != ReadCause::NotThisForm => {
                self.unread(word, Unreadable::Form(error), MONTH_EXPECTED);
                Time::about(NaiveDate::MIN)
            }
            Err(_) => {
                let start = self.start_as(word, MONTH_EXPECTED);
                Time::about(self.day_at(word, start, MONTH_EXPECTED))
            }
        }
    }
}

const MONTH_EXPECTED: &str = "expected a month as 2024-02, a year as 2024 or a day as 2024-02-29";

// A month alone.
fn print_month(
    rt: &HostRuntime,
    time: Time,
    start: Weekday,
    calendar: &Calendar,
) -> io::Result<()> {
    let (year, mut sheet) = (time.first.year(), month_of(time.first, 0, start));
    sheet.marked = time.marked;
    println!(rt; "    {} {}", name_of(&sheet), Year { year })?;
    println!(rt; "{}", heading(start))?;
    print_rows(rt, &[sheet], calendar)
}

// The months of the year that begins on a day, three side by side.
fn print_year(
    rt: &HostRuntime,
    first: NaiveDate,
    start: Weekday,
    calendar: &Calendar,
) -> io::Result<()> {
    println!(rt; "{:37}{}", "", Year { year: first.year() })?;
    for quarter in 0..4u32 {
        let months = 3 * i64::from(quarter);
        let left = month_of(first, months, start);
        let middle = month_of(first, months + 1, start);
        let right = month_of(first, months + 2, start);
        let (a, b, c) = (name_of(&left), name_of(&middle), name_of(&right));
        let heading = heading(start);
        println!(rt; "\n    {a:<23}    {b:<23}    {c}\n{heading}  {heading}  {heading}")?;
        print_rows(rt, &[left, middle, right], calendar)?;
    }
    Ok(())
}

// The sheet of the month so many months on.
fn month_of(first: NaiveDate, months: i64, start: Weekday) -> MonthSheet {
    MonthSheet {
        month: first.moved_by_months(months).unwrap_or(first),
        start,
        marked: None,
    }
}

// The weeks of months, side by side.
fn print_rows(rt: &HostRuntime, sheets: &[MonthSheet], calendar: &Calendar) -> io::Result<()> {
    for row in 0..6 {
        let mut gap = "";
        if has_days(sheets, row) {
            for sheet in sheets {
                print!(rt; "{gap}{}", sheet.row(row, calendar))?;
                gap = "  ";
            }
            println!(rt; "")?;
        }
    }
    Ok(())
}

// Whether a month has a day in a row.
fn has_days(sheets: &[MonthSheet], row: u32) -> bool {
    for sheet in sheets {
        if sheet.has_days(row) {
            return true;
        }
    }
    false
}

// So many days from one on, each with its week, its weekday and whether it is open.
fn print_days(
    rt: &HostRuntime,
    first: NaiveDate,
    count: u32,
    calendar: &Calendar,
) -> io::Result<()> {
    for date in first.iter_days().take(count as usize) {
        let is_open = calendar.is_open(date);
        println!(rt; "{}", DayObject { date, is_open })?;
    }
    Ok(())
}

// How many days a month or a year has.
fn days_of(first: NaiveDate, is_year: bool) -> u32 {
    match is_year {
        true if first.leap_year() => 366,
        true => 365,
        false => first.last_day_of_month().day(),
    }
}

// The name of a sheet's month.
fn name_of(sheet: &MonthSheet) -> &'static str {
    month_name(sheet.month.month())
}

// The weekdays above the columns of a sheet whose weeks begin on one, 25 columns wide.
fn heading(start: Weekday) -> &'static str {
    match start {
        Weekday::Mon => "    Mo Tu We Th Fr Sa Su ",
        Weekday::Tue => "    Tu We Th Fr Sa Su Mo ",
        Weekday::Wed => "    We Th Fr Sa Su Mo Tu ",
        Weekday::Thu => "    Th Fr Sa Su Mo Tu We ",
        Weekday::Fri => "    Fr Sa Su Mo Tu We Th ",
        Weekday::Sat => "    Sa Su Mo Tu We Th Fr ",
        Weekday::Sun => "    Su Mo Tu We Th Fr Sa ",
    }
}
