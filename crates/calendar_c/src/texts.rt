//! The texts of dates and date-times, written into the caller's bytes and read.
ghost use Rattle.std.specs.Prelude.{◌≡◌, ◌≢◌, ◌⊎◌, ◌<◌, ◌≤◌, ℤ, pos, None, Some, length};
ghost use Rattle.std.specs.Option.{option_map};
ghost use Rattle.std.specs.Str.{byte};
ghost use Rattle.chrono_datetime.specs.Days.{IsDate, date_of_day};
ghost use Rattle.chrono_datetime.specs.DateText.{date_text};
ghost use Rattle.chrono_datetime.specs.Moment.{Moment};
ghost use Rattle.chrono_datetime.specs.MomentText.{moment_text};
ghost use Rattle.chrono_reading.specs.DateTexts.{IsDateText};
ghost use Rattle.chrono_reading.specs.DateTimeTexts.{IsDateTimeText};
ghost use Rattle.numbers_c.specs.Answers.{count_or_none, none_number};
ghost use Rattle.numbers_c.specs.DateTimes.{moment_from_c, numbers_for_c, numbers_or_none};
ghost use Rattle.numbers_c.specs.Texts.{length_of, overwritten, text_within};

use chrono_reading::{read_date, read_date_time};
use chrono_text::Text;
use numbers_c::{
    CalendarDateTime, NONE, date_of, date_time_of, number_or_none, numbers_or_none, write_over,
};

// How many bytes the longest date has.
const LONGEST_DATE: usize = 13;

// How many bytes the longest date-time has.
const LONGEST_DATE_TIME: usize = 32;

/// Writes the date as `2024-02-29` over the first bytes, if they are enough, and returns their number. A year before 0 or
/// after 9999 has its sign.
#[unsafe(no_mangle)]
pub extern "C" fn calendar_write_date(date: i32, text: &mut [u8]) -> i32
    ensures length { result ≡ count_or_none
        (length_of (text_within (length text.old) (option_map date_text (date_of_day date)))) }
    ensures enough { IsDate date → 13 ≤ length text.old → result ≡ pos (length (date_text date)) }
    ensures bytes { text.new
        ≡ overwritten (text_within (length text.old) (option_map date_text (date_of_day date))) text.old }
{
    let Some(date) = date_of(date) else {
        return NONE;
    };
    let mut written = Text::<LONGEST_DATE>::new();
    date.put_into(&mut written);
    write_over(text, written.as_bytes())
}

/// Returns the date whose text the bytes are, as [`calendar_write_date`] writes it.
#[unsafe(no_mangle)]
pub extern "C" fn calendar_read_date(text: &[u8]) -> i32
    ensures read { result ≢ none_number → IsDateText text.now result }
    ensures every { (n : ℤ) → IsDateText text.now n → result ≡ n }
{
    number_or_none(read_date(text).ok())
}

/// Writes the date-time as `2024-02-29T23:59:60.500` over the first bytes, if they are enough, and returns their number.
#[unsafe(no_mangle)]
pub extern "C" fn calendar_write_date_time(moment: CalendarDateTime, text: &mut [u8]) -> i32
    ensures length { result ≡ count_or_none
        (length_of (text_within (length text.old) (option_map (moment_text (byte "T")) (moment_from_c moment)))) }
    ensures enough { (m : Moment) → moment_from_c moment ≡ Some m → 32 ≤ length text.old
        → result ≡ pos (length (moment_text (byte "T") m)) }
    ensures bytes { text.new
        ≡ overwritten (text_within (length text.old) (option_map (moment_text (byte "T")) (moment_from_c moment))) text.old }
{
    let Some(moment) = date_time_of(moment) else {
        return NONE;
    };
    let mut written = Text::<LONGEST_DATE_TIME>::new();
    moment.put_into(&mut written, b'T');
    write_over(text, written.as_bytes())
}

/// Returns the date-time whose text the bytes are, as [`calendar_write_date_time`] writes it. It takes a `T` or a space, and a
/// fraction of one to nine digits.
#[unsafe(no_mangle)]
pub extern "C" fn calendar_read_date_time(text: &[u8]) -> CalendarDateTime
    ensures read { (result ≡ numbers_or_none None) ⊎ ((m : Moment) × (result ≡ numbers_for_c m) × IsDateTimeText text.now m) }
    ensures every { (m : Moment) → IsDateTimeText text.now m → result ≡ numbers_for_c m }
    ensures named { (m : Moment) → IsDateTimeText text.now m → moment_from_c result ≡ Some m }
{
    numbers_or_none(read_date_time(text).ok())
}
