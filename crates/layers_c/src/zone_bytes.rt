//! Zones of the bytes of a TZif file, or of the text of a rule.
ghost use Rattle.std.specs.Prelude.{◌≡◌, ◌≤◌, IfErr, IfOk, Option, length, take};
ghost use Rattle.zone.specs.Parts.{IsZone, ZoneParts};
ghost use Rattle.zone_rule.specs.declared.rule.ZoneRule.{ZoneRule};
ghost use Rattle.zone_database.specs.OwnedZones.{IsFooterOf};
ghost use Rattle.layers_c.specs.Zones.{HoldsZone, IsZoneOfRule, IsZoneOfShortFile, is_of_file};
ghost use Rattle.layers_c.specs.ZoneFaults.{IsFileReason, IsPartsReason, IsReason, IsTextReason, footer_start};

use zone::{FixedOffset, Row, Zone, ZoneFault, ZoneRule};
use zone_file::{ZoneFileError, ZoneRowsError};
use zone_text::ZoneTextError;

// A zone has at most so many rows.
pub(crate) const MOST_ROWS: usize = 512;

// Why bytes hold no zone.
#[derive(Clone, Copy)]
pub(crate) enum NoZone {
    // They are no TZif file.
    File(ZoneFileError),
    // No kind of local time holds at first.
    FirstKind,
    // The file has too many rows, or the row at a place has no kind.
    Rows(ZoneRowsError),
    // The text, or the footer that begins at a byte, writes no rule.
    Rule(usize, ZoneTextError),
    // The rows and the rule make up no zone.
    Parts(ZoneFault),
}

// Room for the rows of a zone.
pub(crate) fn row_room() -> [Row; MOST_ROWS]
    ensures { length result ≡ 512 }
{
    [Row {
        second: 0,
        offset: FixedOffset::east_opt(0).unwrap(),
    }; MOST_ROWS]
}

// The zone that bytes hold, or why they hold none.
pub(crate) fn zone_of<'a>(bytes: &[u8], room: &'a mut [Row]) -> Result<Zone<'a>, NoZone>
    requires { length room.old ≡ 512 }
    ensures held { IfOk result (λ z. HoldsZone bytes.now z) }
    ensures only { IfOk result (λ z. (y : ZoneParts) → HoldsZone bytes.now y → z ≡ y) }
    ensures none { IfErr result (λ _. (y : ZoneParts) → ¬ HoldsZone bytes.now y) }
    ensures why { IfErr result (λ why. IsReason bytes.now why) }
{
    if is_of_file(bytes) {
        zone_of_file(bytes, room)
    } else {
        zone_of_rule(bytes, first_rows(room, 0))
    }
}

// Whether bytes begin as those of a TZif file do.
#[tactic(auto, unfolding(crate::specs::Zones::is_of_file))]
fn is_of_file(bytes: &[u8]) -> bool
    ensures { result ≡ is_of_file bytes.now }
{
    bytes.starts_with(b"TZif")
}

// The zone of the rule that a text writes, with no row.
fn zone_of_rule<'a>(text: &[u8], rows: &'a [Row]) -> Result<Zone<'a>, NoZone>
    requires { length rows.now ≡ 0 }
    ensures held { IfOk result (λ z. IsZoneOfRule text.now z) }
    ensures only { IfOk result (λ z. (y : ZoneParts) → IsZoneOfRule text.now y → z ≡ y) }
    ensures none { IfErr result (λ _. (y : ZoneParts) → ¬ IsZoneOfRule text.now y) }
    ensures why { IfErr result (λ why. IsTextReason text.now why) }
{
    match zone_text::read(text) {
        Ok(read) => {
            let rule = read.rule;
            zone_of_parts(rule.standard, rows, Some(rule))
        }
        Err(error) => Err(NoZone::Rule(0, error)),
    }
}

// So many rows of the room.
fn first_rows(room: &[Row], count: usize) -> &[Row]
    requires { count ≤ length room.now }
    ensures { result.now ≡ take count room.now }
{
    &room[..count]
}

// The zone of a TZif file.
fn zone_of_file<'a>(bytes: &[u8], room: &'a mut [Row]) -> Result<Zone<'a>, NoZone>
    requires { length room.old ≡ 512 }
    ensures held { IfOk result (λ z. IsZoneOfShortFile bytes.now z) }
    ensures only { IfOk result (λ z. (y : ZoneParts) → IsZoneOfShortFile bytes.now y → z ≡ y) }
    ensures none { IfErr result (λ _. (y : ZoneParts) → ¬ IsZoneOfShortFile bytes.now y) }
    ensures why { IfErr result (λ why. IsFileReason bytes.now why) }
{
    let file = match zone_file::read(bytes) {
        Ok(file) => file,
        Err(error) => return Err(NoZone::File(error)),
    };
    let Some(kind) = file.kind(0) else {
        return Err(NoZone::FirstKind);
    };
    let rule = match rule_of_footer(file.footer) {
        Ok(rule) => rule,
        Err(error) => return Err(NoZone::Rule(place_of_footer(bytes, file.footer), error)),
    };
    match file.read_rows(room) {
        Ok(count) => zone_of_parts(kind.offset, first_rows(room, count), rule),
        Err(error) => Err(NoZone::Rows(error)),
    }
}

// The zone of its parts, if they make up one.
fn zone_of_parts<'a>(
    first: FixedOffset,
    rows: &'a [Row],
    rule: Option<ZoneRule>,
) -> Result<Zone<'a>, NoZone>
    ensures parts { IfOk result (λ z. (z ≡ record { first = first; rows = rows.now; rule = rule }) × IsZone z) }
    ensures none { IfErr result (λ _. ¬ IsZone (record { first = first; rows = rows.now; rule = rule })) }
    ensures why { IfErr result (λ why. IsPartsReason (record { first = first; rows = rows.now; rule = rule }) why) }
{
    match Zone::new(first, rows, rule) {
        Ok(zone) => Ok(zone),
        Err(fault) => Err(NoZone::Parts(fault)),
    }
}

// The rule that a footer writes, if it is not empty.
fn rule_of_footer(footer: &[u8]) -> Result<Option<ZoneRule>, ZoneTextError>
    ensures read { IfOk result (λ rule. IsFooterOf footer.now rule) }
    ensures only { IfOk result (λ rule. (r : Option ZoneRule) → IsFooterOf footer.now r → rule ≡ r) }
    ensures none { IfErr result (λ _. (r : Option ZoneRule) → ¬ IsFooterOf footer.now r) }
    ensures within { IfErr result (λ e. e.byte ≤ length footer.now) }
{
    if footer.is_empty() {
        return Ok(None);
    }
    match zone_text::read(footer) {
        Ok(read) => Ok(Some(read.rule)),
        Err(error) => Err(error),
    }
}

// The byte of a file at which its footer begins, which a newline ends.
fn place_of_footer(bytes: &[u8], footer: &[u8]) -> usize
    ensures { result ≡ footer_start bytes.now footer.now }
{
    bytes.len().saturating_sub(footer.len().saturating_add(1))
}
