//! The offsets of a text, and the changes of daylight time.
ghost use Rattle.std.specs.Prelude.{◌≡◌, ◌≤◌, ℤ, Ok, IfOk, IfErr, length};
ghost use Rattle.zone_rule.specs.Changes.{YearlyChange};
ghost use Rattle.zone_rule.specs.declared.rule.Daylight.{Daylight};
ghost use Rattle.zone_text.specs.ChangeTexts.{AreChangesText};
ghost use Rattle.zone_text.specs.ZoneTexts.{IsAhead, IsDaylightTimes, daylight_ahead, written_ahead};

use crate::change::read_change;
use crate::error::{ZoneTextError, ZoneTextFault, error_at};
use crate::hours::signed_seconds;
use crate::name::split_offset;
use chrono_text::{part_place, split_at_byte};
use zone_rule::{Change, Daylight, FixedOffset};

const SECS_PER_HOUR: i32 = 3_600;

// The offset and the changes of daylight time, at the end of a text, where standard time has the offset.
pub(crate) fn read_daylight(
    whole: &[u8],
    text: &[u8],
    standard: FixedOffset,
) -> Result<Daylight, ZoneTextError>
    ensures read { IfOk result (λ d. IsDaylightTimes standard text.now d) }
    ensures every { (d : Daylight) → IsDaylightTimes standard text.now d → result ≡ Ok d }
    ensures error { IfErr result (λ e. e.byte ≤ length whole.now) }
{
    let (offset, rest) = split_offset(text);
    let offset = offset_of(daylight_ahead(standard, offset), part_place(whole, text, 0))?;
    let [b',', changes @ ..] = rest else {
        return Err(error_at(ZoneTextFault::NoDays, part_place(whole, rest, 0)));
    };
    let (begins, ends) = read_changes(whole, changes)?;
    Ok(Daylight {
        offset,
        begins,
        ends,
    })
}

// When daylight time begins and ends, at the end of a text.
fn read_changes(whole: &[u8], text: &[u8]) -> Result<(Change, Change), ZoneTextError>
    ensures read { IfOk result (λ it. AreChangesText text.now it.0 it.1) }
    ensures every { (begins ends : YearlyChange) → AreChangesText text.now begins ends → result ≡ Ok (begins, ends) }
    ensures error { IfErr result (λ e. e.byte ≤ length whole.now) }
{
    let Some((begins, ends)) = split_at_byte(text, b',') else {
        return Err(error_at(ZoneTextFault::NoChange, whole.len()));
    };
    let Some(begins) = read_change(begins) else {
        return Err(error_at(ZoneTextFault::NoChange, part_place(whole, text, 0)));
    };
    let Some(ends) = read_change(ends) else {
        return Err(error_at(ZoneTextFault::NoChange, part_place(whole, ends, 0)));
    };
    Ok((begins, ends))
}

// The offset of so many seconds, or what is wrong at a byte.
pub(crate) fn offset_of(ahead: Option<i32>, byte: usize) -> Result<FixedOffset, ZoneTextError>
    ensures read { IfOk result (λ x. IsAhead ahead x) }
    ensures every { (x : ℤ) → IsAhead ahead x → result ≡ Ok x }
    ensures error { IfErr result (λ e. e.byte ≡ byte) }
{
    let Some(seconds) = ahead else {
        return Err(error_at(ZoneTextFault::NoOffset, byte));
    };
    match FixedOffset::east_opt(seconds) {
        Some(offset) => Ok(offset),
        None => Err(error_at(ZoneTextFault::OffsetOfDay, byte)),
    }
}

// The seconds by which a clock is ahead of UTC, of the text of those by which it is behind.
pub(crate) fn written_ahead(text: &[u8]) -> Option<i32>
    ensures { result ≡ written_ahead text.now }
{
    let behind = signed_seconds(text)?;
    Some(-behind)
}

// The same of daylight time, where standard time has the offset.
fn daylight_ahead(standard: FixedOffset, text: &[u8]) -> Option<i32>
    ensures { result ≡ daylight_ahead standard text.now }
{
    if text.is_empty() {
        return Some(standard.local_minus_utc() + SECS_PER_HOUR);
    }
    written_ahead(text)
}
