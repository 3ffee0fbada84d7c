//! Times of day: that of a date-time, and their texts, written into the caller's bytes and read.
ghost use Rattle.std.specs.Prelude.{◌≡◌, ◌⊎◌, ◌≤◌, pos, None, Some, length};
ghost use Rattle.std.specs.Option.{option_map};
ghost use Rattle.chrono_clock.specs.Time.{TimeOfDay};
ghost use Rattle.chrono_clock.specs.TimeText.{time_text};
ghost use Rattle.chrono_reading.specs.TimeTexts.{IsTimeText};
ghost use Rattle.numbers_c.specs.Answers.{count_or_none};
ghost use Rattle.numbers_c.specs.DateTimes.{moment_from_c, time_for_c, time_from_c, time_or_none};
ghost use Rattle.numbers_c.specs.Texts.{length_of, overwritten, text_within};

use chrono_reading::read_time;
use chrono_text::Text;
use numbers_c::{
    CalendarDateTime, CalendarTimeOfDay, NONE, date_time_of, time_of, time_or_none, write_over,
};

// How many bytes the longest time of day has.
const LONGEST: usize = 18;

/// Returns the time of day of a date-time, with its leap second.
#[unsafe(no_mangle)]
pub extern "C" fn calendar_date_time_time(moment: CalendarDateTime) -> CalendarTimeOfDay
    ensures numbers { result ≡ time_or_none (option_map (λ m. m.time) (moment_from_c moment)) }
    ensures named { time_from_c result ≡ option_map (λ m. m.time) (moment_from_c moment) }
{
    match date_time_of(moment) {
        Some(moment) => time_or_none(Some(moment.time())),
        None => time_or_none(None),
    }
}

/// Writes the time of day as `23:59:60.500` over the first bytes, if they are enough, and returns their number.
#[unsafe(no_mangle)]
pub extern "C" fn calendar_write_time(time: CalendarTimeOfDay, text: &mut [u8]) -> i32
    ensures length { result ≡ count_or_none
        (length_of (text_within (length text.old) (option_map time_text (time_from_c time)))) }
    ensures enough { (t : TimeOfDay) → time_from_c time ≡ Some t → 18 ≤ length text.old
        → result ≡ pos (length (time_text t)) }
    ensures bytes { text.new
        ≡ overwritten (text_within (length text.old) (option_map time_text (time_from_c time))) text.old }
{
    let Some(time) = time_of(time) else {
        return NONE;
    };
    let mut written = Text::<LONGEST>::new();
    time.put_into(&mut written);
    write_over(text, written.as_bytes())
}

/// Returns the time of day whose text the bytes are, as [`calendar_write_time`] writes it. It takes a fraction of one to nine
/// digits.
#[unsafe(no_mangle)]
pub extern "C" fn calendar_read_time(text: &[u8]) -> CalendarTimeOfDay
    ensures read { (result ≡ time_or_none None) ⊎ ((t : TimeOfDay) × (result ≡ time_for_c t) × IsTimeText text.now t) }
    ensures every { (t : TimeOfDay) → IsTimeText text.now t → result ≡ time_for_c t }
    ensures named { (t : TimeOfDay) → IsTimeText text.now t → time_from_c result ≡ Some t }
{
    time_or_none(read_time(text).ok())
}
