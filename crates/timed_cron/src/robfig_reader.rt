//! The reading of whole texts of robfig/cron.
ghost use Rattle.std.specs.Prelude.{◌≡◌, ◌≢◌, ◌≤◌, ◌∷◌, [], ℕ, List, length, not, ◌&&◌, IfOk, IfErr, IfSome, IfNone};
ghost use Rattle.std.specs.Str.{byte};
ghost use Rattle.chrono_text.specs.Lists.{pieces};
ghost use Rattle.chrono_cron.specs.PlacedWords.{placed_words};
ghost use Rattle.timed_cron.specs.Private.{AreFiveWords, IsOnlyWord, IsOtherCount, IsWordOf, bytes_of, word_of};
ghost use Rattle.timed_cron.specs.RobfigTexts.{has_star, is_star_item, is_star_or_mark, robfig_days_read, robfig_fields_read, robfig_meaning_read, robfig_read, robfig_schedule, robfig_times_read, robfig_words_read};
ghost use Rattle.timed_cron.specs.TimedErrors.{error_byte};

use crate::dialect_field::{FieldFault, cut_at, is_mark, is_star, read_step};
use crate::field_form::FieldNames;
use crate::field_reader::read_field;
use crate::robfig_form::robfig_form;
use crate::timed_error::TimedError;
use crate::timed_schedule::TimedSchedule;
use crate::word_errors::{count_error, front_fault, one_word_fault, text_error};
use crate::words::{Ends, next_word, word};
use chrono_cron::{FieldSets, MonthDays, Schedule, ScheduleFault, ScheduleField, nickname_meaning};
use chrono_sets::NumberSet;
use chrono_text::first_piece;

// The words of five fields.
#[derive(Clone, Copy)]
pub(crate) struct FiveWords {
    pub(crate) minute: Ends,
    pub(crate) hour: Ends,
    pub(crate) day: Ends,
    pub(crate) month: Ends,
    pub(crate) weekday: Ends,
}

// The schedule of a text.
#[tactic(auto, unfolding(crate::specs::RobfigTexts::robfig_read))]
pub(crate) fn read_robfig(text: &[u8]) -> Result<TimedSchedule, TimedError>
    ensures read { result ≡ robfig_read text.now }
    ensures byte { IfErr result (λ e. error_byte e ≤ length text.now) }
{
    match five_words(text) {
        Ok(words) => read_words(text, words),
        Err(count) => read_nickname(text, count),
    }
}

// The schedule of five words.
fn read_words(text: &[u8], words: FiveWords) -> Result<TimedSchedule, TimedError>
    requires { AreFiveWords text.now words }
    ensures read { result ≡ robfig_words_read (length text.now) (placed_words 0 text.now) }
    ensures byte { IfErr result (λ e. error_byte e ≤ length text.now) }
{
    if let Some(fault) = front_fault(word(text, words.minute)) {
        return Err(text_error(words.minute.place, fault));
    }
    read_fields(text, words)
}

// The schedule of the fields.
#[tactic(auto, unfolding(crate::specs::RobfigTexts::robfig_fields_read))]
fn read_fields(text: &[u8], words: FiveWords) -> Result<TimedSchedule, TimedError>
    requires { AreFiveWords text.now words }
    ensures read { result ≡ robfig_fields_read (word_of text.now words.minute) (word_of text.now words.hour) (word_of text.now words.day)
        (word_of text.now words.month) (word_of text.now words.weekday) }
    ensures byte { IfErr result (λ e. error_byte e ≤ length text.now) }
{
    let times = read_times(text, words.minute, words.hour)?;
    let days = read_days(text, words.day, words.month, words.weekday)?;
    let either = !has_star(word(text, words.day)) && !has_star(word(text, words.weekday));
    Ok(schedule_of(times, days, either))
}

// The minutes and the hours.
#[tactic(auto, unfolding(crate::specs::RobfigTexts::robfig_times_read))]
fn read_times(text: &[u8], minute: Ends, hour: Ends) -> Result<(NumberSet, NumberSet), TimedError>
    requires minute { IsWordOf text.now minute }
    requires hour { IsWordOf text.now hour }
    ensures read { result ≡ robfig_times_read (word_of text.now minute) (word_of text.now hour) }
    ensures byte { IfErr result (λ e. error_byte e ≤ length text.now) }
{
    let minutes = robfig_form(FieldNames::Nothing, 0, 59);
    let hours = robfig_form(FieldNames::Nothing, 0, 23);
    let minutes = read_field(text, minute, minutes, ScheduleField::Minute)?;
    let hours = read_field(text, hour, hours, ScheduleField::Hour)?;
    Ok((minutes, hours))
}

// The days of the month, the months and the days of the week.
#[tactic(auto, unfolding(crate::specs::RobfigTexts::robfig_days_read))]
fn read_days(
    text: &[u8],
    day: Ends,
    month: Ends,
    weekday: Ends,
) -> Result<(NumberSet, NumberSet, NumberSet), TimedError>
    requires day { IsWordOf text.now day }
    requires month { IsWordOf text.now month }
    requires weekday { IsWordOf text.now weekday }
    ensures read { result ≡ robfig_days_read (word_of text.now day) (word_of text.now month) (word_of text.now weekday) }
    ensures byte { IfErr result (λ e. error_byte e ≤ length text.now) }
{
    let days = robfig_form(FieldNames::Nothing, 1, 31);
    let months = robfig_form(FieldNames::Months, 1, 12);
    let weekdays = robfig_form(FieldNames::WeekdaysFromZero, 0, 6);
    let days = read_field(text, day, days, ScheduleField::Day)?;
    let months = read_field(text, month, months, ScheduleField::Month)?;
    let weekdays = read_field(text, weekday, weekdays, ScheduleField::Weekday)?;
    Ok((days, months, weekdays))
}

// The schedule of what the fields list.
fn schedule_of(
    times: (NumberSet, NumberSet),
    days: (NumberSet, NumberSet, NumberSet),
    either: bool,
) -> TimedSchedule
    ensures { result ≡ robfig_schedule times days either }
{
    let sets = FieldSets {
        minutes: times.0,
        hours: times.1,
        days: days.0,
        months: days.1,
        weekdays: days.2,
        month_days: MonthDays::none(),
        either,
        follows_clock: false,
    };
    TimedSchedule::new(Schedule { sets }, NumberSet::single(0))
}

// Whether a field has the star bit: one of its items has it.
#[tactic(auto, unfolding(crate::specs::RobfigTexts::has_star))]
fn has_star(text: &[u8]) -> bool
    ensures { result ≡ has_star text.now }
{
    let mut rest = text;
    loop {
        let (item, behind) = first_piece(rest, b',');
        if is_star_item(item) {
            return true;
        }
        match behind {
            [_, next @ ..] => rest = next,
            [] => return false,
        }
    }
}

// Whether an item has the star bit: it is `*` or `?`, by steps of 1.
#[tactic(auto, unfolding(crate::specs::RobfigTexts::is_star_item, crate::specs::DialectFields::step_read))]
fn is_star_item(item: &[u8]) -> bool
    ensures { result ≡ is_star_item item.now }
{
    let Some((front, back)) = cut_at(item, b'/') else {
        return is_star_or_mark(item);
    };
    match read_step(back) {
        Ok(step) => is_star_or_mark(front) && step == 1,
        Err(_) => false,
    }
}

// Whether the text is `*` or `?`.
fn is_star_or_mark(text: &[u8]) -> bool
    ensures { result ≡ is_star_or_mark text.now }
{
    is_star(text) || is_mark(text)
}

// The schedule of a text that is not five words: of a nickname.
fn read_nickname(text: &[u8], count: FieldFault) -> Result<TimedSchedule, TimedError>
    requires count { IsOtherCount text.now count }
    requires within { count.0 ≤ length text.now }
    ensures read { result ≡ robfig_words_read (length text.now) (placed_words 0 text.now) }
    ensures byte { IfErr result (λ e. error_byte e ≤ length text.now) }
{
    let Some(alone) = only_word(text) else {
        return Err(count_error(text, count));
    };
    match read_meaning(nickname_meaning(word(text, alone))) {
        Some(schedule) => Ok(schedule),
        None => Err(count_error(text, count)),
    }
}

// The schedule of the fields for which a nickname stands; none if they cannot be read.
fn read_meaning(text: &[u8]) -> Option<TimedSchedule>
    ensures { result ≡ robfig_meaning_read (placed_words 0 text.now) }
{
    let Ok(words) = five_words(text) else {
        return None;
    };
    match read_fields(text, words) {
        Ok(schedule) => Some(schedule),
        Err(_) => None,
    }
}

// The word of a text that has no other.
fn only_word(text: &[u8]) -> Option<Ends>
    ensures some { IfSome result (λ w. IsOnlyWord text.now w) }
    ensures none { IfNone result ((w : ℕ × List ℕ) → placed_words 0 text.now ≢ w ∷ []) }
{
    let Some(first) = next_word(text, 0) else {
        return None;
    };
    match next_word(text, first.end) {
        Some(_) => None,
        None => Some(first),
    }
}

// The words of a text, if they are five. Otherwise what is wrong with their number, and where.
fn five_words(text: &[u8]) -> Result<FiveWords, FieldFault>
    ensures words { IfOk result (λ w. AreFiveWords text.now w) }
    ensures count { IfErr result (λ count. IsOtherCount text.now count) }
    ensures within { IfErr result (λ count. count.0 ≤ length text.now) }
{
    let too_few = (text.len(), ScheduleFault::TooFewFields);
    let Some(minute) = next_word(text, 0) else {
        return Err((text.len(), ScheduleFault::Empty));
    };
    let Some(hour) = next_word(text, minute.end) else {
        return Err(one_word_fault(text, minute));
    };
    let Some(day) = next_word(text, hour.end) else {
        return Err(too_few);
    };
    let Some(month) = next_word(text, day.end) else {
        return Err(too_few);
    };
    let Some(weekday) = next_word(text, month.end) else {
        return Err(too_few);
    };
    if let Some(sixth) = next_word(text, weekday.end) {
        return Err((sixth.place, ScheduleFault::TooManyFields));
    }
    Ok(FiveWords {
        minute,
        hour,
        day,
        month,
        weekday,
    })
}
