//! The instant that a local time stands for.
ghost use Rattle.std.specs.Prelude.{◌≡◌, ℤ, pos, neg_ℤ, ◌+ℤ◌, ◌-ℤ◌, ◌≤ℤ◌, ◌<ℤ◌, IfNone, IfSome, IsFalse, IsTrue};
ghost use Rattle.chrono_instant.specs.Instants.{IsEpochSecond, epoch_second};
ghost use Rattle.chrono_zoned.specs.Offsets.{IsOffset};
ghost use Rattle.chrono_zoned.specs.Zones.{Shows};
ghost use Rattle.zoned_rules.specs.LocalInstants.{HasDates, IsInstantOf};
ghost use Rattle.zoned_rules.specs.Private.{IsOffsetBefore};

use chrono_datetime::NaiveDateTime;
use chrono_datetime::law::date_times_exist;
use chrono_instant::{AddOffset, FixedOffset, Timestamp};
use chrono_zoned::{DateTime, InZone, TimeZone};

// The seconds of a day. A clock is ahead of UTC, or behind it, by less.
pub(crate) const DAY: i64 = 86_400;

/// Returns the instant that the local time `local` stands for in `zone` (RFC 5545, 3.3.5).
///
/// It is the first instant at which the clock shows `local`. Where the clock skips `local`, the offset before the gap counts.
/// So 02:30 stands for the instant of 03:30 where the clock is set ahead from 02:00 to 03:00.
///
/// Returns `None` if UTC or the clock has no date there.
///
/// ```
/// use chrono_datetime::{AndTime, NaiveDate};
/// let local = NaiveDate::from_ymd_opt(2024, 1, 1)?.and_hms_opt(9, 30, 0)?;
/// instant_of(FixedOffset::east_opt(3_600)?, local) // Some(2024-01-01T09:30:00+01:00)
/// ```
pub fn instant_of<Z: TimeZone>(zone: Z, local: NaiveDateTime) -> Option<DateTime<Z>>
    ensures stands { IfSome result (λ d. IsInstantOf (Z.ahead zone) (epoch_second local) (epoch_second d.utc)) }
    // The fraction of the second stays.
    ensures fraction { IfSome result (λ d. d.utc.time.fraction ≡ local.time.fraction) }
    ensures zone { IfSome result (λ d. d.zone ≡ zone) }
    ensures none { IfNone result ((u : ℤ) → IsInstantOf (Z.ahead zone) (epoch_second local) u → ¬ HasDates (Z.ahead zone) u) }
    // It stands for an instant then too, which has no date.
    ensures without_date { IfNone result ((u : ℤ) × IsInstantOf (Z.ahead zone) (epoch_second local) u) }
{
    let utc = local.checked_sub_offset(offset_of(zone, local))?;
    zone.from_utc_datetime(&utc)
}

// The second of the instant that a local time stands for.
pub(crate) fn second_of<Z: TimeZone>(zone: Z, local: NaiveDateTime) -> i64
    ensures stands { IsInstantOf (Z.ahead zone) (epoch_second local) result }
    ensures low { (epoch_second local -ℤ pos 86_400) <ℤ result }
    ensures high { result <ℤ (epoch_second local +ℤ pos 86_400) }
    ensures date { IsEpochSecond (epoch_second local) }
{
    local.timestamp() - i64::from(offset_of(zone, local).local_minus_utc())
}

// Each offset of a zone is less than a day.
pub(crate) fn offsets_are_small<Z: TimeZone>(zone: Z)
    ensures { (v : ℤ) → IsOffset (Z.ahead zone v) }
{
    let _near = zone.stretch_from(0);
}

// The offset by which a local time leads to the instant that it stands for.
fn offset_of<Z: TimeZone>(zone: Z, local: NaiveDateTime) -> FixedOffset
    ensures { IsInstantOf (Z.ahead zone) (epoch_second local) (epoch_second local -ℤ result) }
{
    match zone.offset_from_local_datetime(&local).earliest() {
        Some(offset) => offset,
        None => offset_before(zone, local.timestamp()),
    }
}

// The offset before the gap in which a local second lies. The clock shows an earlier second until a day before, and a later one from a day
// behind.
fn offset_before<Z: TimeZone>(zone: Z, gap: i64) -> FixedOffset
    requires date { IsEpochSecond gap }
    requires skipped { (v : ℤ) → ¬ Shows (Z.ahead zone) gap v }
    ensures { IsOffsetBefore (Z.ahead zone) gap result }
{
    let first = zone.stretch_from(gap - DAY);
    let mut offset = first.offset;
    let mut second = first.until.min(gap + DAY);
    while shows_before(zone, second, gap) {
        let stretch = zone.stretch_from(second);
        offset = stretch.offset;
        second = stretch.until.min(gap + DAY);
    }
    offset
}

// Whether the clock shows an earlier local second than that one at a second.
fn shows_before<Z: TimeZone>(zone: Z, second: i64, local: i64) -> bool
    requires low { neg_ℤ (pos 9_000_000_000_000) ≤ℤ second }
    requires high { second ≤ℤ pos 9_000_000_000_000 }
    ensures before { IsTrue result → (second +ℤ Z.ahead zone second) <ℤ local }
    ensures not_before { IsFalse result → local ≤ℤ (second +ℤ Z.ahead zone second) }
    ensures near { IsOffset (Z.ahead zone second) }
{
    let stretch = zone.stretch_from(second);
    second + i64::from(stretch.offset.local_minus_utc()) < local
}
