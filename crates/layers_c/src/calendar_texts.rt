//! Texts of calendars in a zone: the next and the last instant, and lists of instants.
ghost use Rattle.std.specs.Prelude.{◌≡◌, ◌≤◌, false, List, Option, Some, None, length, map, take, drop};
ghost use Rattle.chrono_datetime.specs.Moment.{Moment};
ghost use Rattle.chrono_zoned.specs.Zoned.{ShowsDate};
ghost use Rattle.numbers_c.specs.DateTimes.{moment_from_c, numbers_for_c, numbers_or_none};
ghost use Rattle.zone.specs.Parts.{ZoneParts, zone_offset};
ghost use Rattle.layers_c.specs.Calendars.{AreInstantsUpTo, AreListedOfText, AreMeant, IsAnswerMeant, IsAnswerOfText, IsLastMeant, IsLastOfText, IsNextMeant, IsNextOfText, MeansNoRecurrence, MeansNone};
ghost use Rattle.layers_c.specs.Zones.{HoldsZone};

use crate::calendar_recurrences::{recurrence_in, time_room};
use crate::schedules::is_up_to;
use crate::zone_bytes::{row_room, zone_of};
use calendar_rules::ZonedRecurrence;
use chrono_datetime::NaiveDateTime;
use chrono_instant::Timestamp;
use chrono_zoned::{DateTime, InZone, TimeZone};
use numbers_c::{CalendarDateTime, date_time_of, numbers_or_none};
use zone::Zone;

/// Returns the first instant after `start` that the text of a calendar has in a zone. Both are in UTC.
#[unsafe(no_mangle)]
pub extern "C" fn calendar_text_next(
    text: &[u8],
    zone: &[u8],
    start: CalendarDateTime,
) -> CalendarDateTime
    ensures next { (z : ZoneParts) (s : Moment) → HoldsZone zone.now z → moment_from_c start ≡ Some s → ShowsDate (zone_offset z) s
        → ¬ MeansNoRecurrence text.now z → (found : Option Moment) × (result ≡ numbers_or_none found) × IsNextOfText text.now z s found }
    ensures no_text { (z : ZoneParts) → HoldsZone zone.now z → MeansNoRecurrence text.now z → result ≡ numbers_or_none None }
    ensures no_date { (z : ZoneParts) (s : Moment) → HoldsZone zone.now z → moment_from_c start ≡ Some s → ¬ ShowsDate (zone_offset z) s
        → result ≡ numbers_or_none None }
    ensures no_start { moment_from_c start ≡ None → result ≡ numbers_or_none None }
    ensures no_zone { ((z : ZoneParts) → ¬ HoldsZone zone.now z) → result ≡ numbers_or_none None }
{
    let mut room = row_room();
    let Ok(zone) = zone_of(zone, &mut room) else {
        return numbers_or_none(None);
    };
    let Some(start) = date_time_of(start) else {
        return numbers_or_none(None);
    };
    numbers_or_none(next_instant(text, &zone, start))
}

/// Returns the last instant before `start` that the text of a calendar has in a zone. Both are in UTC.
#[unsafe(no_mangle)]
pub extern "C" fn calendar_text_prev(
    text: &[u8],
    zone: &[u8],
    start: CalendarDateTime,
) -> CalendarDateTime
    ensures last { (z : ZoneParts) (s : Moment) → HoldsZone zone.now z → moment_from_c start ≡ Some s → ShowsDate (zone_offset z) s
        → ¬ MeansNoRecurrence text.now z → (found : Option Moment) × (result ≡ numbers_or_none found) × IsLastOfText text.now z s found }
    ensures no_text { (z : ZoneParts) → HoldsZone zone.now z → MeansNoRecurrence text.now z → result ≡ numbers_or_none None }
    ensures no_date { (z : ZoneParts) (s : Moment) → HoldsZone zone.now z → moment_from_c start ≡ Some s → ¬ ShowsDate (zone_offset z) s
        → result ≡ numbers_or_none None }
    ensures no_start { moment_from_c start ≡ None → result ≡ numbers_or_none None }
    ensures no_zone { ((z : ZoneParts) → ¬ HoldsZone zone.now z) → result ≡ numbers_or_none None }
{
    let mut room = row_room();
    let Ok(zone) = zone_of(zone, &mut room) else {
        return numbers_or_none(None);
    };
    let Some(start) = date_time_of(start) else {
        return numbers_or_none(None);
    };
    numbers_or_none(last_instant(text, &zone, start))
}

/// Returns whether the text of a calendar has an instant in a zone at `moment`, which is in UTC.
#[unsafe(no_mangle)]
pub extern "C" fn calendar_text_is_instance(
    text: &[u8],
    zone: &[u8],
    moment: CalendarDateTime,
) -> bool
    ensures instance { (z : ZoneParts) (m : Moment) → HoldsZone zone.now z → moment_from_c moment ≡ Some m → ShowsDate (zone_offset z) m
        → ¬ MeansNoRecurrence text.now z → IsAnswerOfText text.now z m result }
    ensures no_text { (z : ZoneParts) → HoldsZone zone.now z → MeansNoRecurrence text.now z → result ≡ false }
    ensures no_date { (z : ZoneParts) (m : Moment) → HoldsZone zone.now z → moment_from_c moment ≡ Some m → ¬ ShowsDate (zone_offset z) m
        → result ≡ false }
    ensures no_moment { moment_from_c moment ≡ None → result ≡ false }
    ensures no_zone { ((z : ZoneParts) → ¬ HoldsZone zone.now z) → result ≡ false }
{
    let mut room = row_room();
    let Ok(zone) = zone_of(zone, &mut room) else {
        return false;
    };
    match date_time_of(moment) {
        Some(moment) => has_instant(text, &zone, moment),
        None => false,
    }
}

/// Writes the instants after `start`, up to `until`, that the text of a calendar has in a zone, and returns how many it wrote. All are in UTC.
#[unsafe(no_mangle)]
pub extern "C" fn calendar_text_instances(
    text: &[u8],
    zone: &[u8],
    start: CalendarDateTime,
    until: CalendarDateTime,
    out: &mut [CalendarDateTime],
) -> usize
    ensures instants { (z : ZoneParts) (s u : Moment) → HoldsZone zone.now z → moment_from_c start ≡ Some s → moment_from_c until ≡ Some u
        → ShowsDate (zone_offset z) s → ¬ MeansNoRecurrence text.now z → AreListedOfText text.now z s u (length out.old) (take result out.new) }
    ensures within { result ≤ length out.old }
    ensures rest { drop result out.new ≡ drop result out.old }
    ensures no_text { (z : ZoneParts) → HoldsZone zone.now z → MeansNoRecurrence text.now z → result ≡ 0 }
    ensures no_date { (z : ZoneParts) (s : Moment) → HoldsZone zone.now z → moment_from_c start ≡ Some s → ¬ ShowsDate (zone_offset z) s
        → result ≡ 0 }
    ensures no_start { moment_from_c start ≡ None → result ≡ 0 }
    ensures no_until { moment_from_c until ≡ None → result ≡ 0 }
    ensures no_zone { ((z : ZoneParts) → ¬ HoldsZone zone.now z) → result ≡ 0 }
{
    let mut room = row_room();
    let Ok(zone) = zone_of(zone, &mut room) else {
        return 0;
    };
    let Some(start) = date_time_of(start) else {
        return 0;
    };
    let Some(until) = date_time_of(until) else {
        return 0;
    };
    write_instants(text, &zone, start, until, out)
}

// The first moment of UTC after a start at which a text has an instant.
fn next_instant(text: &[u8], zone: &Zone<'_>, start: NaiveDateTime) -> Option<NaiveDateTime>
    ensures next { ShowsDate (zone_offset zone.now) start → ¬ MeansNoRecurrence text.now zone.now → IsNextOfText text.now zone.now start result }
    ensures no_text { MeansNoRecurrence text.now zone.now → result ≡ None }
    ensures no_date { ¬ ShowsDate (zone_offset zone.now) start → result ≡ None }
{
    let (mut dates, mut exceptions) = (time_room(zone), time_room(zone));
    next_by(text, zone, start, &mut dates, &mut exceptions)
}

// The last moment of UTC before a start at which a text has an instant.
fn last_instant(text: &[u8], zone: &Zone<'_>, start: NaiveDateTime) -> Option<NaiveDateTime>
    ensures last { ShowsDate (zone_offset zone.now) start → ¬ MeansNoRecurrence text.now zone.now → IsLastOfText text.now zone.now start result }
    ensures no_text { MeansNoRecurrence text.now zone.now → result ≡ None }
    ensures no_date { ¬ ShowsDate (zone_offset zone.now) start → result ≡ None }
{
    let (mut dates, mut exceptions) = (time_room(zone), time_room(zone));
    last_by(text, zone, start, &mut dates, &mut exceptions)
}

// Whether a text has an instant at a moment of UTC.
fn has_instant(text: &[u8], zone: &Zone<'_>, moment: NaiveDateTime) -> bool
    ensures instance { ShowsDate (zone_offset zone.now) moment → ¬ MeansNoRecurrence text.now zone.now → IsAnswerOfText text.now zone.now moment result }
    ensures no_text { MeansNoRecurrence text.now zone.now → result ≡ false }
    ensures no_date { ¬ ShowsDate (zone_offset zone.now) moment → result ≡ false }
{
    let (mut dates, mut exceptions) = (time_room(zone), time_room(zone));
    has_by(text, zone, moment, &mut dates, &mut exceptions)
}

// Writes the instants of a text after a start, up to another moment, and returns how many it wrote.
fn write_instants(
    text: &[u8],
    zone: &Zone<'_>,
    start: NaiveDateTime,
    until: NaiveDateTime,
    out: &mut [CalendarDateTime],
) -> usize
    ensures instants { ShowsDate (zone_offset zone.now) start → ¬ MeansNoRecurrence text.now zone.now
        → AreListedOfText text.now zone.now start until (length out.old) (take result out.new) }
    ensures within { result ≤ length out.old }
    ensures rest { drop result out.new ≡ drop result out.old }
    ensures no_text { MeansNoRecurrence text.now zone.now → result ≡ 0 }
    ensures no_date { ¬ ShowsDate (zone_offset zone.now) start → result ≡ 0 }
{
    let (mut dates, mut exceptions) = (time_room(zone), time_room(zone));
    write_by(text, zone, start, until, out, &mut dates, &mut exceptions)
}

// The same by any clock, with room for the times: the first moment,
fn next_by<Z: TimeZone>(
    text: &[u8],
    zone: Z,
    start: NaiveDateTime,
    dates: &mut [DateTime<Z>],
    exceptions: &mut [DateTime<Z>],
) -> Option<NaiveDateTime>
    requires dates { length dates.old ≡ 256 }
    requires exceptions { length exceptions.old ≡ 256 }
    ensures next { ShowsDate (Z.ahead zone) start → ¬ MeansNone Z.ahead zone text.now → IsNextMeant Z.ahead zone text.now start result }
    ensures no_text { MeansNone Z.ahead zone text.now → result ≡ None }
    ensures no_date { ¬ ShowsDate (Z.ahead zone) start → result ≡ None }
{
    let Some(start) = zone.from_utc_datetime(&start) else {
        return None;
    };
    let Ok(set) = recurrence_in(text, zone, dates, exceptions) else {
        return None;
    };
    match set.next_after(start) {
        Some(found) => Some(found.naive_utc()),
        None => None,
    }
}

// the last one,
fn last_by<Z: TimeZone>(
    text: &[u8],
    zone: Z,
    start: NaiveDateTime,
    dates: &mut [DateTime<Z>],
    exceptions: &mut [DateTime<Z>],
) -> Option<NaiveDateTime>
    requires dates { length dates.old ≡ 256 }
    requires exceptions { length exceptions.old ≡ 256 }
    ensures last { ShowsDate (Z.ahead zone) start → ¬ MeansNone Z.ahead zone text.now → IsLastMeant Z.ahead zone text.now start result }
    ensures no_text { MeansNone Z.ahead zone text.now → result ≡ None }
    ensures no_date { ¬ ShowsDate (Z.ahead zone) start → result ≡ None }
{
    let Some(start) = zone.from_utc_datetime(&start) else {
        return None;
    };
    let Ok(set) = recurrence_in(text, zone, dates, exceptions) else {
        return None;
    };
    match set.prev_before(start) {
        Some(last) => Some(last.naive_utc()),
        None => None,
    }
}

// whether there is an instant,
fn has_by<Z: TimeZone>(
    text: &[u8],
    zone: Z,
    moment: NaiveDateTime,
    dates: &mut [DateTime<Z>],
    exceptions: &mut [DateTime<Z>],
) -> bool
    requires dates { length dates.old ≡ 256 }
    requires exceptions { length exceptions.old ≡ 256 }
    ensures instance { ShowsDate (Z.ahead zone) moment → ¬ MeansNone Z.ahead zone text.now → IsAnswerMeant Z.ahead zone text.now moment result }
    ensures no_text { MeansNone Z.ahead zone text.now → result ≡ false }
    ensures no_date { ¬ ShowsDate (Z.ahead zone) moment → result ≡ false }
{
    let Some(instant) = zone.from_utc_datetime(&moment) else {
        return false;
    };
    match recurrence_in(text, zone, dates, exceptions) {
        Ok(set) => set.is_instance(instant),
        Err(_) => false,
    }
}

// and the list.
fn write_by<Z: TimeZone>(
    text: &[u8],
    zone: Z,
    start: NaiveDateTime,
    until: NaiveDateTime,
    out: &mut [CalendarDateTime],
    dates: &mut [DateTime<Z>],
    exceptions: &mut [DateTime<Z>],
) -> usize
    requires dates { length dates.old ≡ 256 }
    requires exceptions { length exceptions.old ≡ 256 }
    ensures instants { ShowsDate (Z.ahead zone) start → ¬ MeansNone Z.ahead zone text.now
        → AreMeant Z.ahead zone text.now start until (length out.old) (take result out.new) }
    ensures within { result ≤ length out.old }
    ensures rest { drop result out.new ≡ drop result out.old }
    ensures no_text { MeansNone Z.ahead zone text.now → result ≡ 0 }
    ensures no_date { ¬ ShowsDate (Z.ahead zone) start → result ≡ 0 }
{
    let Some(start) = zone.from_utc_datetime(&start) else {
        return 0;
    };
    match recurrence_in(text, zone, dates, exceptions) {
        Ok(set) => write_members(&set, start, until, out),
        Err(_) => 0,
    }
}

// Writes the instants of a recurrence after one, up to a moment, and returns how many it wrote.
fn write_members<Z: TimeZone>(
    set: &ZonedRecurrence<'_, Z>,
    start: DateTime<Z>,
    until: NaiveDateTime,
    out: &mut [CalendarDateTime],
) -> usize
    ensures instants { (ms : List Moment) × (take result out.new ≡ map numbers_for_c ms) × AreInstantsUpTo Z.ahead set.now start.utc until (length out.old) ms }
    ensures within { result ≤ length out.old }
    ensures rest { drop result out.new ≡ drop result out.old }
{
    let mut last = start;
    let mut count = 0;
    while count < out.len() {
        let Some(instant) = set.next_after(last) else {
            return count;
        };
        let moment = instant.naive_utc();
        if is_up_to(until, moment) {
            out[count] = numbers_or_none(Some(moment));
            count += 1;
            last = instant;
        } else {
            return count;
        }
    }
    count
}
