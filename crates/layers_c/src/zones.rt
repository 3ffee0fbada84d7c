//! Time zones: how far a clock is ahead of UTC, and the offsets of a local time.
ghost use Rattle.std.specs.Prelude.{◌≡◌, ◌⊎◌, ℤ, ◌<ℤ◌, ◌≤ℤ◌, ◌^◌, neg_ℤ, pos};
ghost use Rattle.chrono_zoned.specs.Zones.{HoldsUntil, IsMapped};
ghost use Rattle.chrono_zoned.specs.declared.mapped_local_time.MappedLocalTime.{MappedLocalTime};
ghost use Rattle.numbers_c.specs.Answers.{none_number};
ghost use Rattle.zone.specs.Parts.{SetsAt, ZoneParts, zone_offset};
ghost use Rattle.layers_c.specs.Zones.{HoldsZone, no_offsets, offset_numbers};

use crate::zone_bytes::{row_room, zone_of};
use chrono_zoned::{FixedOffset, MappedLocalTime};
use numbers_c::NONE;

/// The offsets of a local time, in seconds ahead of UTC.
#[repr(C)]
#[derive(Clone, Copy)]
pub struct CalendarOffsets {
    /// How many there are: 0, 1 or 2. The greatest `u32` says that there is no zone.
    pub count: u32,
    /// The offset at the only instant, or at the earlier one of two.
    pub earlier: i32,
    /// The same, or the offset at the later instant.
    pub later: i32,
}

/// Returns how many seconds the clock of a zone is ahead of UTC at a second since 1970.
#[unsafe(no_mangle)]
pub extern "C" fn calendar_zone_offset_at(zone: &[u8], second: i64) -> i32
    ensures offset { (z : ZoneParts) → HoldsZone zone.now z → result ≡ zone_offset z second }
    ensures no_zone { ((z : ZoneParts) → ¬ HoldsZone zone.now z) → result ≡ none_number }
{
    let mut room = row_room();
    match zone_of(zone, &mut room) {
        Ok(zone) => zone.offset_of_instant(second).local_minus_utc(),
        Err(_) => NONE,
    }
}

/// Returns the offsets at all instants at which the clock of a zone shows a local second, counted since 1970.
#[unsafe(no_mangle)]
pub extern "C" fn calendar_zone_offsets_of_local(zone: &[u8], local: i64) -> CalendarOffsets
    ensures offsets { (z : ZoneParts) → HoldsZone zone.now z
        → (found : MappedLocalTime ℤ) × (result ≡ offset_numbers found) × IsMapped (zone_offset z) local found }
    ensures no_zone { ((z : ZoneParts) → ¬ HoldsZone zone.now z) → result ≡ no_offsets }
{
    let mut room = row_room();
    match zone_of(zone, &mut room) {
        Ok(zone) => offset_numbers(zone.offsets_of_local(local)),
        Err(_) => no_offsets(),
    }
}

/// Returns the next second at which a zone sets its clock, up to which it keeps the offset that it has at a second. The greatest `i64` says
/// that there is none before it.
#[unsafe(no_mangle)]
pub extern "C" fn calendar_zone_holds_until(zone: &[u8], second: i64) -> i64
    ensures holds { (z : ZoneParts) → HoldsZone zone.now z → HoldsUntil (zone_offset z) second result }
    ensures later { (z : ZoneParts) → HoldsZone zone.now z → second <ℤ pos 9_223_372_036_854_775_807 → second <ℤ result }
    ensures first { (z : ZoneParts) → HoldsZone zone.now z → (t : ℤ) → SetsAt z t → second <ℤ t → result ≤ℤ t }
    ensures end { (z : ZoneParts) → HoldsZone zone.now z
        → (result ≡ pos 9_223_372_036_854_775_807) ⊎ (SetsAt z result × (second <ℤ result)) }
    ensures no_zone { ((z : ZoneParts) → ¬ HoldsZone zone.now z) → result ≡ neg_ℤ (pos (2 ^ 63)) }
{
    let mut room = row_room();
    match zone_of(zone, &mut room) {
        Ok(zone) => zone.stretch_of_instant(second).until,
        Err(_) => i64::MIN,
    }
}

// The numbers of offsets.
fn offset_numbers(found: MappedLocalTime<FixedOffset>) -> CalendarOffsets
    ensures { result ≡ offset_numbers found }
{
    match found {
        MappedLocalTime::None => offsets(0, 0, 0),
        MappedLocalTime::Single(only) => {
            let only = only.local_minus_utc();
            offsets(1, only, only)
        }
        MappedLocalTime::Ambiguous(earlier, later) => {
            offsets(2, earlier.local_minus_utc(), later.local_minus_utc())
        }
    }
}

// The numbers of no zone.
fn no_offsets() -> CalendarOffsets
    ensures { result ≡ no_offsets }
{
    offsets(u32::MAX, 0, 0)
}

// So many offsets.
fn offsets(count: u32, earlier: i32, later: i32) -> CalendarOffsets
    ensures { result ≡ record { count = count; earlier = earlier; later = later } }
{
    CalendarOffsets {
        count,
        earlier,
        later,
    }
}
