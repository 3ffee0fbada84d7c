//! Answers over any stored form of a date, by the laws of [`DayForm`] alone.
ghost use Rattle.std.specs.Prelude.{◌≡◌, IsErrOf, OnOk};
ghost use Rattle.caltool_form.specs.Answers.{answer_of};
ghost use Rattle.caltool_form.specs.Runs.{AnsweredAll, AnsweredEnded, AnsweredPart};

use crate::answer::{Answer, answer_by};
use crate::command_answers::CommandAnswers;
use crate::fault::RunFault;
use crate::run::run_by;
use caltool_command::MonthSpan;
use chrono_calendar::{DayForm, forms};
use chrono_clock::{NaiveTime, TimeDelta};
use chrono_units::{Weekday, WeekdaySet};
use std::io::{Read, Write};
use std::marker::PhantomData;

// Answers by dates of the form `F`.
pub(crate) struct FormAnswers<F: DayForm> {
    form: PhantomData<F>,
}

impl<F: DayForm> CommandAnswers for FormAnswers<F> {
    type Date = F;

    ghost number = { F.number };

    fn from_ymd(year: i32, month: u32, day: u32) -> Option<F> {
        F::from_ymd(year, month, day)
    }

    fn from_yo(year: i32, ordinal: u32) -> Option<F> {
        F::from_yo(year, ordinal)
    }

    fn from_iso(year: i32, week: u32, weekday: Weekday) -> Option<F> {
        forms::from_iso(year, week, weekday)
    }

    fn from_day(day: i32) -> Option<F> {
        forms::from_day(day)
    }

    fn nth_weekday(year: i32, month: u32, weekday: Weekday, nth: u8) -> Option<F> {
        forms::nth_weekday(year, month, weekday, nth)
    }

    fn move_days(date: F, count: i64) -> Option<F> {
        forms::days_later(date, count)
    }

    fn move_months(date: F, span: MonthSpan) -> Option<F> {
        let months = match span {
            MonthSpan::Later(months) => i64::from(months),
            MonthSpan::Earlier(months) => -i64::from(months),
        };
        forms::move_months(date, months)
    }

    fn move_moment(date: F, time: NaiveTime, by: TimeDelta) -> Option<(F, NaiveTime)> {
        let (time, days) = time.landing(by);
        let date = forms::days_later(date, days)?;
        Some((date, time))
    }

    fn week(date: F, start: Weekday) -> (Option<F>, Option<F>) {
        let first = forms::week_first(&date, start);
        (forms::from_day(first), forms::from_day(first + 6))
    }

    fn first_on(date: F, days: WeekdaySet) -> Option<F> {
        forms::first_on(date, days)
    }

    fn every_months(date: F, months: i32, times: u32) -> Option<F> {
        forms::every_months(date, months, times)
    }

    fn distance(date: F, time: NaiveTime, base: F, base_time: NaiveTime) -> TimeDelta {
        let days = i64::from(date.day()) - i64::from(base.day());
        TimeDelta::days(days) + time.signed_duration_since(base_time)
    }

    fn year_month_day(date: F) -> (i32, u32, u32) {
        date.year_month_day()
    }

    fn day(date: F) -> i32 {
        date.day()
    }

    fn weekday(date: F) -> Weekday {
        date.weekday()
    }

    fn iso_name(date: F) -> (i32, u32) {
        date.iso_name()
    }

    fn ordinal(date: F) -> u32 {
        date.ordinal()
    }
}

/// Returns the answer to one line, over dates of the stored form `F`. `line` has no newline.
///
/// The answer has at most 63 bytes, and is the same for each form.
pub fn answer_form<F: DayForm>(line: &[u8]) -> Answer
    ensures { result ≡ answer_of line.now }
{
    answer_by::<FormAnswers<F>>(line)
}

/// Answers each line of the input with one line, until the input ends, over dates of the stored form `F`.
///
/// The output is the same for each form. The function repeats no failed call and allocates no memory.
///
/// Returns `RunFault::Read` after a failed read, or after 2^64 - 1 reads that saw no end. By then it has answered each
/// line that ended in a newline. Returns `RunFault::Write` after a write that failed or wrote nothing, or if the flush
/// at the end failed.
pub fn run_form<F: DayForm, R: Read, W: Write>(r: &mut R, w: &mut W) -> Result<(), RunFault>
    // The input was read to its end, and its whole output written.
    ensures ok { OnOk result (AnsweredAll answer_of
        (R.remaining r.old) (R.remaining r.new) (W.contents w.old) (W.contents w.new)) }
    // The lines that a newline ends among the bytes read are answered, and nothing else is written.
    ensures read { IsErrOf result RunFault.Read
        → AnsweredEnded answer_of
        (R.remaining r.old) (R.remaining r.new) (W.contents w.old) (W.contents w.new) }
    // The writer got the output of the bytes read, or only its first part.
    ensures write { IsErrOf result RunFault.Write
        → AnsweredPart answer_of
        (R.remaining r.old) (R.remaining r.new) (W.contents w.old) (W.contents w.new) }
{
    run_by::<FormAnswers<F>, R, W>(r, w)
}
