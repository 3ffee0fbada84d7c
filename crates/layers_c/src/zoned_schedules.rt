//! Schedules in a zone: the next and the last instant at which one fires.
ghost use Rattle.std.specs.Prelude.{◌≡◌, Option, None, Some};
ghost use Rattle.chrono_datetime.specs.Moment.{Moment};
ghost use Rattle.chrono_zoned.specs.Zoned.{ShowsDate};
ghost use Rattle.numbers_c.specs.DateTimes.{moment_from_c, numbers_or_none};
ghost use Rattle.zone.specs.Parts.{ZoneParts, zone_offset};
ghost use Rattle.zoned_cron.specs.Fires.{FollowsClock, as_planned, as_shown};
ghost use Rattle.layers_c.specs.Schedules.{sets_from_c};
ghost use Rattle.layers_c.specs.Zones.{HoldsZone};
ghost use Rattle.layers_c.specs.ZonedSchedules.{IsLastBy, IsLastFiring, IsNextBy, IsNextFiring};

use crate::schedule_numbers::{CalendarSchedule, schedule_of};
use crate::zone_bytes::{row_room, zone_of};
use chrono_datetime::NaiveDateTime;
use chrono_instant::Timestamp;
use chrono_zoned::InZone;
use numbers_c::{CalendarDateTime, date_time_of, numbers_or_none};
use zone::Zone;
use zoned_cron::{Policy, Schedule, ZonedSchedule};

/// Returns the first instant after `start` at which a schedule fires in a zone, as Vixie's cron and cronie do. Both are in UTC.
#[unsafe(no_mangle)]
pub extern "C" fn calendar_zone_schedule_next(
    schedule: &CalendarSchedule,
    zone: &[u8],
    start: CalendarDateTime,
) -> CalendarDateTime
    ensures next { (z : ZoneParts) (s : Moment) → HoldsZone zone.now z → moment_from_c start ≡ Some s → ShowsDate (zone_offset z) s
        → (found : Option Moment) × (result ≡ numbers_or_none found) × IsNextFiring (sets_from_c schedule.now) (zone_offset z) s found }
    ensures no_date { (z : ZoneParts) (s : Moment) → HoldsZone zone.now z → moment_from_c start ≡ Some s → ¬ ShowsDate (zone_offset z) s
        → result ≡ numbers_or_none None }
    ensures no_start { moment_from_c start ≡ None → result ≡ numbers_or_none None }
    ensures no_zone { ((z : ZoneParts) → ¬ HoldsZone zone.now z) → result ≡ numbers_or_none None }
{
    let mut room = row_room();
    let Ok(zone) = zone_of(zone, &mut room) else {
        return numbers_or_none(None);
    };
    let Some(start) = date_time_of(start) else {
        return numbers_or_none(None);
    };
    numbers_or_none(next_firing(schedule_of(schedule), &zone, start))
}

/// Returns the last instant before `start` at which a schedule fires in a zone, as Vixie's cron and cronie do. Both are in UTC.
#[unsafe(no_mangle)]
pub extern "C" fn calendar_zone_schedule_prev(
    schedule: &CalendarSchedule,
    zone: &[u8],
    start: CalendarDateTime,
) -> CalendarDateTime
    ensures last { (z : ZoneParts) (s : Moment) → HoldsZone zone.now z → moment_from_c start ≡ Some s → ShowsDate (zone_offset z) s
        → (found : Option Moment) × (result ≡ numbers_or_none found) × IsLastFiring (sets_from_c schedule.now) (zone_offset z) s found }
    ensures no_date { (z : ZoneParts) (s : Moment) → HoldsZone zone.now z → moment_from_c start ≡ Some s → ¬ ShowsDate (zone_offset z) s
        → result ≡ numbers_or_none None }
    ensures no_start { moment_from_c start ≡ None → result ≡ numbers_or_none None }
    ensures no_zone { ((z : ZoneParts) → ¬ HoldsZone zone.now z) → result ≡ numbers_or_none None }
{
    let mut room = row_room();
    let Ok(zone) = zone_of(zone, &mut room) else {
        return numbers_or_none(None);
    };
    let Some(start) = date_time_of(start) else {
        return numbers_or_none(None);
    };
    numbers_or_none(last_firing(schedule_of(schedule), &zone, start))
}

// The moment of UTC at which a schedule next fires in a zone.
fn next_firing(schedule: Schedule, zone: &Zone<'_>, start: NaiveDateTime) -> Option<NaiveDateTime>
    ensures next { ShowsDate (zone_offset zone.now) start → IsNextFiring schedule.sets (zone_offset zone.now) start result }
    ensures no_date { ¬ ShowsDate (zone_offset zone.now) start → result ≡ None }
{
    next_by(schedule, zone, Policy::vixie(&schedule), start)
}

// The same by a policy.
fn next_by(
    schedule: Schedule,
    zone: &Zone<'_>,
    policy: Policy,
    start: NaiveDateTime,
) -> Option<NaiveDateTime>
    ensures next { ShowsDate (zone_offset zone.now) start → IsNextBy schedule.sets (zone_offset zone.now) policy start result }
    ensures no_date { ¬ ShowsDate (zone_offset zone.now) start → result ≡ None }
{
    let Some(start) = zone.from_utc_datetime(&start) else {
        return None;
    };
    match ZonedSchedule::new(schedule, zone, policy).next_after(start) {
        Some(found) => Some(found.naive_utc()),
        None => None,
    }
}

// The moment of UTC at which a schedule last fired in a zone.
fn last_firing(schedule: Schedule, zone: &Zone<'_>, start: NaiveDateTime) -> Option<NaiveDateTime>
    ensures last { ShowsDate (zone_offset zone.now) start → IsLastFiring schedule.sets (zone_offset zone.now) start result }
    ensures no_date { ¬ ShowsDate (zone_offset zone.now) start → result ≡ None }
{
    last_by(schedule, zone, Policy::vixie(&schedule), start)
}

// The same by a policy.
fn last_by(
    schedule: Schedule,
    zone: &Zone<'_>,
    policy: Policy,
    start: NaiveDateTime,
) -> Option<NaiveDateTime>
    ensures last { ShowsDate (zone_offset zone.now) start → IsLastBy schedule.sets (zone_offset zone.now) policy start result }
    ensures no_date { ¬ ShowsDate (zone_offset zone.now) start → result ≡ None }
{
    let Some(start) = zone.from_utc_datetime(&start) else {
        return None;
    };
    match ZonedSchedule::new(schedule, zone, policy).prev_before(start) {
        Some(last) => Some(last.naive_utc()),
        None => None,
    }
}
