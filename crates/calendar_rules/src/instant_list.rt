//! The instants of the times that a calendar's text lists.
ghost use Rattle.std.specs.Prelude.{◌≡◌, ◌≤◌, ◌<◌, IfErr, IfNone, IfOk, IfSome, List, length, take};
ghost use Rattle.chrono_instant.specs.Instants.{epoch_second};
ghost use Rattle.chrono_zoned.specs.Zoned.{Zoned};
ghost use Rattle.zoned_rules.specs.LocalInstants.{HasDates};
ghost use Rattle.calendar_rules.specs.Private.{IsListFault};
ghost use Rattle.calendar_rules.specs.Recurrences.{AreInstantsOf, IsInstantOfTime};

use crate::recurrence_error::CalendarRuleError;
use calendar_text::{CalendarTime, TimeList};
use chrono_datetime::law::date_times_exist;
use chrono_instant::Timestamp;
use chrono_zoned::{DateTime, InZone, TimeZone};
use zoned_rules::instant_of;

// Writes the instants of the times into a slice. Returns how many they are.
pub(crate) fn put_instants<Z: TimeZone>(
    times: TimeList<'_>,
    zone: Z,
    out: &mut [DateTime<Z>],
) -> Result<usize, CalendarRuleError>
    ensures instants { IfOk result (λ len. AreInstantsOf Z.ahead zone times.entry (take len out.new)) }
    ensures within { IfOk result (λ len. len ≤ length out.new) }
    ensures length { length out.new ≡ length out.old }
    ensures none { IfErr result (λ _. (ds : List (Zoned Z)) → AreInstantsOf Z.ahead zone times.entry ds → length out.old < length ds) }
    ensures fault { IfErr result (IsListFault Z.ahead zone times.entry (length out.old)) }
{
    let mut times = times;
    let mut len = 0;
    while let Some(time) = times.next() {
        let Some(instant) = instant_of_time(zone, time) else {
            return Err(CalendarRuleError::NoInstant);
        };
        if len >= out.len() {
            return Err(CalendarRuleError::TooManyTimes);
        }
        out[len] = instant;
        len += 1;
    }
    Ok(len)
}

// The instant of a time: none of a date, and none that has no date in UTC or by the clock.
fn instant_of_time<Z: TimeZone>(zone: Z, time: CalendarTime) -> Option<DateTime<Z>>
    ensures some { IfSome result (IsInstantOfTime Z.ahead zone time) }
    ensures none { IfNone result ((d : Zoned Z) → ¬ IsInstantOfTime Z.ahead zone time d) }
{
    let instant = match time {
        CalendarTime::Date(_) => return None,
        CalendarTime::Local(local) => instant_of(zone, local),
        CalendarTime::Utc(utc) => zone.from_utc_datetime(&utc),
    };
    match instant {
        Some(instant) => {
            instants_have_dates(instant);
            Some(instant)
        }
        None => None,
    }
}

// UTC and the clock of a date-time's zone have a date at its instant.
fn instants_have_dates<Z: TimeZone>(instant: DateTime<Z>)
    ensures { HasDates (Z.ahead instant.zone) (epoch_second instant.utc) }
{
    date_times_exist(instant.naive_utc());
    date_times_exist(instant.naive_local());
}
