//! `ZonedText`: a schedule and the name of its time zone, as one text has them.
ghost use Rattle.std.specs.Prelude.{◌≡◌, ◌↔◌, ◌<◌, ◌≤◌, length, IfErr, IfOk, IfSome, IsErr, IsSome};
ghost use Rattle.std.specs.List.{position_or_len};
ghost use Rattle.chrono_text.specs.Lists.{is_blank};
ghost use Rattle.chrono_cron.specs.declared.field_sets.FieldSets.{FieldSets};
ghost use Rattle.chrono_cron.specs.ScheduleErrors.{error_behind, schedule_error};
ghost use Rattle.chrono_cron.specs.ScheduleTexts.{IsScheduleText};
ghost use Rattle.zoned_cron.specs.ZonedTexts.{mark_len, schedule_part, zone_len, zone_name};

use chrono_cron::{Schedule, ScheduleError, read_schedule};
use chrono_text::begins_but_for_case;

/// A schedule and the name of its time zone.
///
/// [`read_zoned_text`] makes it.
///
/// ```
/// read_zoned_text(b"CRON_TZ=Europe/Berlin 30 2 * * *").ok()?.zone == Some(b"Europe/Berlin") // true
/// ```
#[derive(Clone, Copy)]
pub struct ZonedText<'a> {
    /// The bytes of the zone's name. `None` if the text names no zone.
    pub zone: Option<&'a [u8]>,
    /// The schedule, in the zone's local time.
    pub schedule: Schedule,
}

/// Reads a schedule with the name of a time zone in front: `CRON_TZ=NAME` or `TZ=NAME`, and then what [`read_schedule`] reads.
///
/// The name ends at the first space or tab. It may be any bytes, or none: this function asks no database. A text with no such word in front
/// is read as a schedule alone. A blank in front of the word makes it part of the schedule, which [`read_schedule`] then refuses. The letters
/// `CRON_TZ` and `TZ` may have either case.
///
/// Go's library robfig/cron has schedules of this form. In a table of cronie `CRON_TZ=NAME` is a line of its own.
///
/// # Errors
///
/// Returns what [`read_schedule`] says of the schedule. The error's byte counts from the beginning of the whole text.
///
/// ```
/// read_zoned_text(b"TZ=UTC 30 2 * * *").is_ok() // true
/// read_zoned_text(b"30 2 * * *").ok()?.zone.is_none() // true
/// let error = read_zoned_text(b"TZ=UTC 30 24 * * *").err()?;
/// (error.byte, read_schedule(b" 30 24 * * *").err()?.byte) // (10, 4)
/// read_zoned_text(b"TZ=UTC @reboot").err()?.fault // Reboot
/// ```
pub fn read_zoned_text(text: &[u8]) -> Result<ZonedText<'_>, ScheduleError>
    ensures read { IfOk result (λ z. IsScheduleText (schedule_part text.now) z.schedule.sets) }
    // Whatever sets the schedule lists are the answer's: it has one meaning.
    ensures every { (s : FieldSets) → IsScheduleText (schedule_part text.now) s → IfOk result (λ z. z.schedule.sets ≡ s) }
    ensures found { IsErr result ↔ ((s : FieldSets) → ¬ IsScheduleText (schedule_part text.now) s) }
    ensures error { IfErr result (λ e. e ≡ error_behind (zone_len text.now) (schedule_error (schedule_part text.now))) }
    ensures zone { IfOk result (λ z. IsSome z.zone ↔ (0 < mark_len text.now)) }
    ensures name { IfOk result (λ z. IfSome z.zone (λ name. name.now ≡ zone_name text.now)) }
{
    let mark = mark_len(text);
    if mark == 0 {
        return match read_schedule(text) {
            Ok(schedule) => Ok(ZonedText {
                zone: None,
                schedule,
            }),
            Err(error) => Err(error),
        };
    }
    let (_, named) = text.split_at(mark);
    let (name, part) = named.split_at(name_len(named));
    match read_schedule(part) {
        Ok(schedule) => Ok(ZonedText {
            zone: Some(name),
            schedule,
        }),
        Err(error) => Err(ScheduleError {
            field: error.field,
            byte: text.len() - part.len() + error.byte,
            fault: error.fault,
        }),
    }
}

// How many bytes of the text say that a name of a zone follows.
#[tactic(auto, unfolding(crate::specs::ZonedTexts::mark_len))]
fn mark_len(text: &[u8]) -> usize
    ensures value { result ≡ mark_len text.now }
    ensures within { result ≤ length text.now }
{
    if begins_but_for_case(text, b"CRON_TZ=") {
        return 8;
    }
    if begins_but_for_case(text, b"TZ=") {
        3
    } else {
        0
    }
}

// How many bytes stand in front of the first space or tab.
fn name_len(text: &[u8]) -> usize
    ensures value { result ≡ position_or_len is_blank text.now }
    ensures within { result ≤ length text.now }
{
    let mut len = 0;
    while len < text.len() {
        if is_blank(text[len]) {
            return len;
        }
        len += 1;
    }
    len
}

// Whether a byte is a space or a tab.
#[inline]
fn is_blank(byte: u8) -> bool
    ensures { result ≡ is_blank byte }
{
    byte == b' ' || byte == b'\t'
}
