//! The reading of whole texts of Quartz.
ghost use Rattle.std.specs.Prelude.{◌≡◌, ◌≤◌, length, IfOk, IfErr, IfSome, Err, None};
ghost use Rattle.chrono_cron.specs.PlacedWords.{placed_words};
ghost use Rattle.chrono_cron.specs.ScheduleErrors.{front_or, schedule_error_at};
ghost use Rattle.timed_cron.specs.Private.{AreQuartzWords, IsWordOf, word_of, year_word_of};
ghost use Rattle.timed_cron.specs.QuartzTexts.{calendar_read, clock_read, fields_read, named_by_both, quartz_read, schedule_of, words_read, years_read};
ghost use Rattle.timed_cron.specs.TimedErrors.{error_byte};
ghost use Rattle.timed_cron.specs.declared.timed_error.TimedError.TheVariants.{Fields as InFields};

use crate::dialect_field::{FieldFault, is_mark, read_items};
use crate::field_reader::{error_at, field_error, read_field};
use crate::quartz_days::{DaySets, read_days, read_weekdays};
use crate::quartz_form::{months, plain, years};
use crate::timed_error::TimedError;
use crate::timed_schedule::TimedSchedule;
use crate::word_errors::{count_error, front_fault, one_word_fault, text_error};
use crate::words::{Ends, next_word, word};
use crate::year_set::YearSet;
use chrono_cron::{FieldSets, MonthDays, Schedule, ScheduleFault, ScheduleField};
use chrono_sets::{NumberSet, PlaceSet};

// The words of six fields, and that of the years.
#[derive(Clone, Copy)]
pub(crate) struct Words {
    pub(crate) second: Ends,
    pub(crate) minute: Ends,
    pub(crate) hour: Ends,
    pub(crate) day: Ends,
    pub(crate) month: Ends,
    pub(crate) weekday: Ends,
    pub(crate) year: Option<Ends>,
}

// The schedule of a text.
#[tactic(auto, unfolding(crate::specs::QuartzTexts::quartz_read))]
pub(crate) fn read_quartz(text: &[u8]) -> Result<TimedSchedule, TimedError>
    ensures read { result ≡ quartz_read text.now }
    ensures byte { IfErr result (λ e. error_byte e ≤ length text.now) }
{
    match quartz_words(text) {
        Ok(words) => read_words(text, words),
        Err(count) => Err(count_error(text, count)),
    }
}

// The schedule of six words or seven.
fn read_words(text: &[u8], words: Words) -> Result<TimedSchedule, TimedError>
    requires { AreQuartzWords text.now words }
    ensures read { result ≡ words_read (length text.now) (placed_words 0 text.now) }
    ensures byte { IfErr result (λ e. error_byte e ≤ length text.now) }
{
    if let Some(fault) = front_fault(word(text, words.second)) {
        return Err(text_error(words.second.place, fault));
    }
    read_fields(text, words)
}

// The schedule of the fields.
#[tactic(auto, unfolding(crate::specs::QuartzTexts::fields_read))]
fn read_fields(text: &[u8], words: Words) -> Result<TimedSchedule, TimedError>
    requires { AreQuartzWords text.now words }
    ensures read { result ≡ fields_read (word_of text.now words.second) (word_of text.now words.minute) (word_of text.now words.hour)
        (word_of text.now words.day) (word_of text.now words.month) (word_of text.now words.weekday) (year_word_of text.now words.year) }
    ensures byte { IfErr result (λ e. error_byte e ≤ length text.now) }
{
    let clock = read_clock(text, words.second, words.minute, words.hour)?;
    let days = read_calendar(text, words.day, words.month, words.weekday)?;
    let years = read_years(text, words.year)?;
    Ok(schedule_of(&clock, &days, years))
}

// The schedule of what the fields list and name.
fn schedule_of(
    clock: &(NumberSet, NumberSet, NumberSet),
    calendar: &(DaySets, NumberSet, DaySets),
    years: Option<YearSet>,
) -> TimedSchedule
    ensures { result ≡ schedule_of clock.now calendar.now years }
{
    let sets = FieldSets {
        minutes: clock.1,
        hours: clock.2,
        days: calendar.0.numbers,
        months: calendar.1,
        weekdays: calendar.2.numbers,
        month_days: named_by_both(&calendar.0.named, &calendar.2.named),
        either: false,
        follows_clock: false,
    };
    TimedSchedule {
        schedule: Schedule { sets },
        seconds: clock.0,
        years,
    }
}

// The day that the first of the two fields of days names, and that which the second does.
fn named_by_both(days: &MonthDays, weekdays: &MonthDays) -> MonthDays
    ensures { result ≡ named_by_both days.now weekdays.now }
{
    MonthDays {
        from_end: days.from_end,
        nearest_workdays: days.nearest_workdays,
        last_workday: days.last_workday,
        last_weekdays: weekdays.last_weekdays,
        nth_weekdays: weekdays.nth_weekdays,
    }
}

// The seconds, the minutes and the hours.
#[tactic(auto, unfolding(crate::specs::QuartzTexts::clock_read))]
fn read_clock(
    text: &[u8],
    second: Ends,
    minute: Ends,
    hour: Ends,
) -> Result<(NumberSet, NumberSet, NumberSet), TimedError>
    requires second { IsWordOf text.now second }
    requires minute { IsWordOf text.now minute }
    requires hour { IsWordOf text.now hour }
    ensures read { result ≡ clock_read (word_of text.now second) (word_of text.now minute) (word_of text.now hour) }
    ensures byte { IfErr result (λ e. error_byte e ≤ length text.now) }
{
    let seconds = match read_items(word(text, second), plain(0, 59), NumberSet::none()) {
        Ok(seconds) => seconds,
        Err(fault) => return Err(TimedError::Seconds(error_at(second, None, fault))),
    };
    let minutes = read_field(text, minute, plain(0, 59), ScheduleField::Minute)?;
    let hours = read_field(text, hour, plain(0, 23), ScheduleField::Hour)?;
    Ok((seconds, minutes, hours))
}

// The days of the month, the months and the days of the week.
#[tactic(auto, unfolding(crate::specs::QuartzTexts::calendar_read))]
fn read_calendar(
    text: &[u8],
    day: Ends,
    month: Ends,
    weekday: Ends,
) -> Result<(DaySets, NumberSet, DaySets), TimedError>
    requires day { IsWordOf text.now day }
    requires month { IsWordOf text.now month }
    requires weekday { IsWordOf text.now weekday }
    ensures read { result ≡ calendar_read (word_of text.now day) (word_of text.now month) (word_of text.now weekday) }
    ensures byte { IfErr result (λ e. error_byte e ≤ length text.now) }
{
    let days = match read_days(word(text, day)) {
        Ok(days) => days,
        Err(fault) => return Err(field_error(day, ScheduleField::Day, fault)),
    };
    let listed = read_field(text, month, months(), ScheduleField::Month)?;
    let weekdays = match read_weekdays(word(text, weekday)) {
        Ok(weekdays) => weekdays,
        Err(fault) => return Err(field_error(weekday, ScheduleField::Weekday, fault)),
    };
    if is_mark(word(text, day)) == is_mark(word(text, weekday)) {
        return Err(TimedError::QuestionMarks(weekday.place));
    }
    Ok((days, listed, weekdays))
}

// The years.
#[tactic(auto, unfolding(crate::specs::QuartzTexts::years_read))]
fn read_years(text: &[u8], year: Option<Ends>) -> Result<Option<YearSet>, TimedError>
    requires { IfSome year (λ y. IsWordOf text.now y) }
    ensures read { result ≡ years_read (year_word_of text.now year) }
    ensures byte { IfErr result (λ e. error_byte e ≤ length text.now) }
{
    let Some(year) = year else {
        return Ok(None);
    };
    match read_items(word(text, year), years(), PlaceSet::none()) {
        Ok(places) => Ok(Some(YearSet { places })),
        Err(fault) => Err(TimedError::Years(error_at(year, None, fault))),
    }
}

// The words of a text, if they are six or seven. Otherwise what is wrong with their number, and where.
fn quartz_words(text: &[u8]) -> Result<Words, FieldFault>
    ensures words { IfOk result (λ w. AreQuartzWords text.now w) }
    ensures count { IfErr result (λ count. words_read (length text.now) (placed_words 0 text.now)
        ≡ Err (InFields (schedule_error_at None (front_or (placed_words 0 text.now) count)))) }
    ensures within { IfErr result (λ count. count.0 ≤ length text.now) }
{
    let too_few = (text.len(), ScheduleFault::TooFewFields);
    let Some(second) = next_word(text, 0) else {
        return Err((text.len(), ScheduleFault::Empty));
    };
    let Some(minute) = next_word(text, second.end) else {
        return Err(one_word_fault(text, second));
    };
    let Some(hour) = next_word(text, minute.end) else {
        return Err(too_few);
    };
    let Some(day) = next_word(text, hour.end) else {
        return Err(too_few);
    };
    let Some(month) = next_word(text, day.end) else {
        return Err(too_few);
    };
    let Some(weekday) = next_word(text, month.end) else {
        return Err(too_few);
    };
    let year = next_word(text, weekday.end);
    if let Some(year) = year {
        if let Some(eighth) = next_word(text, year.end) {
            return Err((eighth.place, ScheduleFault::TooManyFields));
        }
    }
    Ok(Words {
        second,
        minute,
        hour,
        day,
        month,
        weekday,
        year,
    })
}
