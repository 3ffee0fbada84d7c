//! `ZoneText`: a rule with the names of its times.
ghost use Rattle.std.specs.Prelude.{◌≡◌, ◌≤◌, ℕ, List, IfOk, IfErr, IsOkAnd, length};
ghost use Rattle.zone_rule.specs.declared.rule.ZoneRule.{ZoneRule};
ghost use Rattle.zone_text.specs.ZoneTexts.{IsZoneText};

use crate::clock::{offset_of, read_daylight, written_ahead};
use crate::error::ZoneTextError;
use crate::name::{read_name, split_offset};
use chrono_text::part_place;
use zone_rule::ZoneRule;

/// A rule, and the names of its standard time and its daylight time.
///
/// ```
/// let zone = read(b"<+0330>-3:30").ok()?;
/// zone.standard_name // [43, 48, 51, 51, 48]
/// zone.rule.standard // +03:30
/// ```
#[derive(Clone, Copy, Debug, PartialEq, Eq)]
pub struct ZoneText<'a> {
    /// The name of standard time, with no angle brackets.
    pub standard_name: &'a [u8],
    /// The name of daylight time. It is empty if there is no daylight time.
    pub daylight_name: &'a [u8],
    /// The rule.
    pub rule: ZoneRule,
}

/// Reads the rule that `text` writes, such as `EST5EDT,M3.2.0,M11.1.0` or `<+0330>-3:30`, and its names, which are slices of
/// `text`.
///
/// If `text` writes none, returns what is wrong first, and at which byte. The contract does not say which fault is named.
///
/// ```
/// let dublin = read(b"IST-1GMT0,M10.5.0,M3.5.0/1").ok()?;
/// dublin.rule.standard // +01:00
/// dublin.rule.daylight?.offset // +00:00
/// read(b"EST").err() // Some(ZoneTextError { fault: NoOffset, byte: 3 })
/// read(b"XXX24").err() // Some(ZoneTextError { fault: OffsetOfDay, byte: 3 })
/// ```
///
/// - The offset is how far the clock is behind UTC, so `EST5` is west of Greenwich. Daylight time with none is an hour ahead of
///   standard time.
/// - A time with none is 02:00. Its hours are from -167 to 167.
/// - Numbers and names may be of any length. A text that begins with `:` is none.
pub fn read(text: &[u8]) -> Result<ZoneText<'_>, ZoneTextError>
    ensures read { IfOk result (λ it. IsZoneText text.now it.standard_name.now it.daylight_name.now it.rule) }
    // Whatever names and rule have this text are the answer: no text is refused, and none has two meanings.
    ensures every { (standard daylight : List ℕ) (rule : ZoneRule) → IsZoneText text.now standard daylight rule
        → IsOkAnd result (λ it. (it.standard_name.now ≡ standard) × (it.daylight_name.now ≡ daylight) × (it.rule ≡ rule)) }
    ensures error { IfErr result (λ e. e.byte ≤ length text.now) }
{
    let (standard_name, behind) = read_name(text, text)?;
    let (offset, rest) = split_offset(behind);
    let standard = offset_of(written_ahead(offset), part_place(text, behind, 0))?;
    if rest.is_empty() {
        let rule = ZoneRule {
            standard,
            daylight: None,
        };
        return Ok(ZoneText {
            standard_name,
            // It is empty.
            daylight_name: rest,
            rule,
        });
    }
    let (daylight_name, behind) = read_name(text, rest)?;
    let daylight = read_daylight(text, behind, standard)?;
    let rule = ZoneRule {
        standard,
        daylight: Some(daylight),
    };
    Ok(ZoneText {
        standard_name,
        daylight_name,
        rule,
    })
}
