//! What is wrong with the words of a text: with their number, or with what stands in front in place of a field.
ghost use Rattle.std.specs.Prelude.{◌≡◌, ◌≤◌, length, None};
ghost use Rattle.chrono_cron.specs.PlacedWords.{placed_words};
ghost use Rattle.chrono_cron.specs.ScheduleErrors.{front_fault, front_or, one_word_fault, schedule_error_at, told_or};
ghost use Rattle.timed_cron.specs.Private.{IsWordAt, bytes_of, word_of};
ghost use Rattle.timed_cron.specs.TimedErrors.{error_byte};
ghost use Rattle.timed_cron.specs.declared.timed_error.TimedError.TheVariants.{Fields as InFields};

use crate::dialect_field::FieldFault;
use crate::timed_error::TimedError;
use crate::words::{Ends, next_word};
use chrono_cron::{ScheduleError, ScheduleFault};
use chrono_text::{begins_but_for_case, same_but_for_case};

// What is wrong with a text of one word.
pub(crate) fn one_word_fault(text: &[u8], word: Ends) -> FieldFault
    requires { IsWordAt text.now 0 word.place word.end }
    ensures value { result ≡ one_word_fault (length text.now) (word_of text.now word) }
    ensures within { result.0 ≤ length text.now }
{
    if text[word.place] == b'@' {
        (word.place, ScheduleFault::UnknownNickname)
    } else {
        (text.len(), ScheduleFault::TooFewFields)
    }
}

// The error of a text with this number of words.
pub(crate) fn count_error(text: &[u8], count: FieldFault) -> TimedError
    requires { count.0 ≤ length text.now }
    ensures error { result ≡ InFields (schedule_error_at None (front_or (placed_words 0 text.now) count)) }
    ensures byte { error_byte result ≤ length text.now }
{
    match next_word(text, 0) {
        Some(first) => number_error(text, first, count),
        None => text_error(count.0, count.1),
    }
}

// The error of a text whose first word this is, and that has another number of words than its dialect.
pub(crate) fn number_error(text: &[u8], first: Ends, count: (usize, ScheduleFault)) -> TimedError
    requires first { IsWordAt text.now 0 first.place first.end }
    requires count { count.0 ≤ length text.now }
    ensures error { result ≡ InFields (schedule_error_at None (told_or first.place (front_fault (bytes_of text.now first.place first.end)) count)) }
    ensures byte { error_byte result ≤ length text.now }
{
    let (byte, fault) = match front_fault(&text[first.place..first.end]) {
        Some(fault) => (first.place, fault),
        None => count,
    };
    text_error(byte, fault)
}

// The error of a text in no one of its fields.
pub(crate) fn text_error(byte: usize, fault: ScheduleFault) -> TimedError
    ensures { result ≡ InFields (schedule_error_at None (byte, fault)) }
{
    TimedError::Fields(ScheduleError {
        field: None,
        byte,
        fault,
    })
}

// What a first word is in place of a field: an interval, the start of a machine or a time zone.
#[tactic(auto, unfolding(chrono_cron::specs::ScheduleErrors::front_fault))]
pub(crate) fn front_fault(word: &[u8]) -> Option<ScheduleFault>
    ensures { result ≡ front_fault word.now }
{
    if same_but_for_case(word, b"@every") {
        return Some(ScheduleFault::Interval);
    }
    if same_but_for_case(word, b"@reboot") {
        return Some(ScheduleFault::Reboot);
    }
    if begins_but_for_case(word, b"TZ=") || begins_but_for_case(word, b"CRON_TZ=") {
        return Some(ScheduleFault::TimeZone);
    }
    None
}
