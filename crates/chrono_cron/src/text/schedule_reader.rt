//! The reading of whole texts of schedules.
ghost use Rattle.std.specs.Prelude.{◌≡◌, ◌≢◌, ◌↔◌, ◌∷◌, [], not, ◌&&◌, ◌||◌, ◌==◌, ◌<◌, ◌≤◌, ℕ, List, length, Some, None, Ok, IfSome, IfNone, IfOk, IfErr, IsErr};
ghost use Rattle.chrono_cron.specs.PlacedWords.{placed_words};
ghost use Rattle.chrono_cron.specs.ScheduleErrors.{IsScheduleRead, schedule_error_at, first_wrong, front_or, schedule_error, wrong_field};
ghost use Rattle.chrono_cron.specs.ScheduleTexts.{IsScheduleText, begins_with_star, fields_of};
ghost use Rattle.chrono_cron.specs.declared.field_sets.FieldSets.{FieldSets};

use crate::field_sets::FieldSets;
use crate::schedule::Schedule;
use crate::text::day_fields::{named_days, read_days, read_weekdays};
use crate::text::field::read_field;
use crate::text::first_error::field_error;
use crate::text::nicknames::nickname_meaning;
use crate::text::number_names::Names;
use crate::text::schedule_error::{ScheduleError, ScheduleFault, ScheduleField};
use crate::text::split_fields::{Fields, five_words, front_or, next_word};
use std::str::FromStr;

/// Reads a schedule as cron writes it, such as `30 4 1,15 * mon-fri`. Returns the [`Schedule`].
///
/// If `text` is no schedule, returns what is wrong and where, as a [`ScheduleError`]. It names the first of the five fields that cannot be read.
/// It names no field if there are more than five fields or fewer.
///
/// ```
/// read_schedule(b"0 12 * * 1-5").is_ok() // true
/// let error = read_schedule(b"0 25 * * *").err()?;
/// (error.field, error.byte, error.fault) // (Some(Hour), 2, OutOfRange)
/// ```
///
/// Spaces or tabs stand between the fields, and may stand before and behind them. The fields, in order:
///
/// - minutes, 0 to 59;
/// - hours, 0 to 23;
/// - days of the month, 1 to 31;
/// - months, 1 to 12 or `jan` to `dec`;
/// - weekdays, 0 to 7 or `sun` to `sat`. 0 and 7 are both Sunday.
///
/// [`crate::read_field`] says how each is read. An item of the days may be `L`, `L-k`, `LW` or `kW`. An item of the weekdays may be `dL` or
/// `d#k`. Their letters may have either case: see [`crate::MonthDays`].
///
/// Seven nicknames stand for five fields: `@yearly`, `@annually`, `@monthly`, `@weekly`, `@daily`, `@midnight` and `@hourly`. Their letters may
/// have either case.
///
/// Days follow the rule of POSIX and cronie. If neither field of days begins with `*`, a day needs to be in only one of them. Otherwise it has
/// to be in both.
///
/// Where the minutes or the hours begin with `*`, as in `*/5 2 * * *`, the schedule follows the clock of a zone: see
/// [`FieldSets::follows_clock`](crate::FieldSets).
pub fn read_schedule(text: &[u8]) -> Result<Schedule, ScheduleError>
    ensures read { IfOk result (λ s. IsScheduleText text.now s.sets) }
    // Whatever sets the text lists are the answer's: no text is refused, and none has two meanings.
    ensures every { (s : FieldSets) → IsScheduleText text.now s → result ≡ Ok (record { sets = s }) }
    ensures sets { (s : FieldSets) → IsScheduleText text.now s → IfOk result (λ schedule. schedule.sets ≡ s) }
    ensures found { IsErr result ↔ ((s : FieldSets) → ¬ IsScheduleText text.now s) }
    ensures error { IfErr result (λ e. e ≡ schedule_error text.now) }
    ensures field { IfErr result (λ e. wrong_field text.now ≡ e.field) }
    ensures byte { IfErr result (λ e. e.byte ≤ length text.now) }
{
    match five_words(text) {
        Ok(fields) => match read_fields(&fields) {
            Ok(schedule) => Ok(schedule),
            Err(field) => Err(field_error(&fields.word(field), field)),
        },
        Err(count) => match read_nickname(text) {
            Some(schedule) => Ok(schedule),
            None => Err(unfielded_error(text, count)),
        },
    }
}

// The schedule that five words write, or the first of them that cannot be read as its field.
fn read_fields(fields: &Fields) -> Result<Schedule, ScheduleField>
    ensures read { IfOk result (λ s. (text : List ℕ) → fields_of text ≡ fields.now.minute.text.now ∷ fields.now.hour.text.now
        ∷ fields.now.day.text.now ∷ fields.now.month.text.now ∷ fields.now.weekday.text.now ∷ [] → IsScheduleText text s.sets) }
    ensures wrong { IfErr result (λ field. first_wrong (fields.now.minute.text.now ∷ fields.now.hour.text.now
        ∷ fields.now.day.text.now ∷ fields.now.month.text.now ∷ fields.now.weekday.text.now ∷ []) ≡ Some field) }
{
    let (day, weekday) = (fields.day.text, fields.weekday.text);
    let Some(minutes) = read_field(fields.minute.text, Names::Numbers, 0, 59) else {
        return Err(ScheduleField::Minute);
    };
    let Some(hours) = read_field(fields.hour.text, Names::Numbers, 0, 23) else {
        return Err(ScheduleField::Hour);
    };
    let Some(days) = read_days(day) else {
        return Err(ScheduleField::Day);
    };
    let Some(months) = read_field(fields.month.text, Names::Months, 1, 12) else {
        return Err(ScheduleField::Month);
    };
    let Some(weekdays) = read_weekdays(weekday) else {
        return Err(ScheduleField::Weekday);
    };
    Ok(Schedule {
        sets: FieldSets {
            minutes,
            hours,
            days: days.numbers,
            months,
            weekdays: weekdays.numbers,
            month_days: named_days(days.named, weekdays.named),
            either: is_either_enough(day, weekday),
            follows_clock: is_starred_in_time(fields.minute.text, fields.hour.text),
        },
    })
}

// The schedule of a text that is not five words: of a nickname.
fn read_nickname(text: &[u8]) -> Option<Schedule>
    requires { (a b c d e : ℕ × List ℕ) → placed_words 0 text.now ≢ a ∷ b ∷ c ∷ d ∷ e ∷ [] }
    ensures read { IfSome result (λ s. IsScheduleText text.now s.sets) }
    ensures none { IfNone result ((s : FieldSets) → ¬ IsScheduleText text.now s) }
{
    let Some(word) = next_word(text, 0) else {
        return None;
    };
    if let Some(_) = next_word(text, word.end()) {
        return None;
    }
    match five_words(nickname_meaning(word.text)) {
        Ok(fields) => match read_fields(&fields) {
            Ok(schedule) => Some(schedule),
            Err(_) => None,
        },
        Err(_) => None,
    }
}

// The error of a text with this number of words, which are not five.
fn unfielded_error(text: &[u8], count: (usize, ScheduleFault)) -> ScheduleError
    requires { count.0 ≤ length text.now }
    ensures error { result ≡ schedule_error_at None (front_or (placed_words 0 text.now) count) }
    ensures byte { result.byte ≤ length text.now }
{
    let (byte, fault) = front_or(text, count);
    ScheduleError {
        field: None,
        byte,
        fault,
    }
}

impl FromStr for Schedule {
    type Err = ScheduleError;

    ghost from_str_gives = { IsScheduleRead };

    /// Reads a schedule as [`read_schedule`] does.
    fn from_str(text: &str) -> Result<Schedule, ScheduleError> {
        read_schedule(text.as_bytes())
    }
}

// Whether one of the two fields of days is enough: neither begins with `*`.
fn is_either_enough(day: &[u8], weekday: &[u8]) -> bool
    ensures { (not (begins_with_star day.now) && not (begins_with_star weekday.now)) ≡ result }
{
    !begins_with_star(day) && !begins_with_star(weekday)
}

// Whether the minutes or the hours begin with `*`.
fn is_starred_in_time(minute: &[u8], hour: &[u8]) -> bool
    ensures { (begins_with_star minute.now || begins_with_star hour.now) ≡ result }
{
    begins_with_star(minute) || begins_with_star(hour)
}

// Whether a text begins with `*`.
#[tactic(auto, unfolding(crate::specs::ScheduleTexts::begins_with_star))]
fn begins_with_star(text: &[u8]) -> bool
    ensures { result ≡ begins_with_star text.now }
{
    text.first() == Some(&b'*')
}
