//! Schedules: when one is due, and the next and the last time.
ghost use Rattle.std.specs.Prelude.{◌≡◌, ◌≤◌, ◌<◌, Some, None, IfSome, length, take, drop};
ghost use Rattle.chrono_datetime.specs.Moment.{Moment};
ghost use Rattle.chrono_datetime.specs.Time.{IsPlain};
ghost use Rattle.numbers_c.specs.DateTimes.{moment_from_c, numbers_or_none};
ghost use Rattle.layers_c.specs.Schedules.{IsLastDue, IsNextDue, due_numbers, dues_up_to, is_due_at, is_up_to, sets_from_c};

use crate::schedule_numbers::{CalendarSchedule, schedule_of};
use chrono_cron::Schedule;
use chrono_datetime::NaiveDateTime;
use chrono_datetime::law::date_times_exist;
use numbers_c::{CalendarDateTime, date_time_of, numbers_or_none};

/// Returns the first date-time after `start` at which the schedule is due.
#[unsafe(no_mangle)]
pub extern "C" fn calendar_schedule_next(
    schedule: &CalendarSchedule,
    start: CalendarDateTime,
) -> CalendarDateTime
    ensures next { (s : Moment) → moment_from_c start ≡ Some s
        → IsNextDue (sets_from_c schedule.now) s (moment_from_c result) }
    ensures no_start { moment_from_c start ≡ None → moment_from_c result ≡ None }
    ensures numbers { result ≡ numbers_or_none (moment_from_c result) }
{
    let Some(start) = date_time_of(start) else {
        return no_numbers();
    };
    plain_numbers(schedule_of(schedule).next_after(start))
}

/// Returns the last date-time before `start` at which the schedule is due.
#[unsafe(no_mangle)]
pub extern "C" fn calendar_schedule_prev(
    schedule: &CalendarSchedule,
    start: CalendarDateTime,
) -> CalendarDateTime
    ensures last { (s : Moment) → moment_from_c start ≡ Some s
        → IsLastDue (sets_from_c schedule.now) s (moment_from_c result) }
    ensures no_start { moment_from_c start ≡ None → moment_from_c result ≡ None }
    ensures numbers { result ≡ numbers_or_none (moment_from_c result) }
{
    let Some(start) = date_time_of(start) else {
        return no_numbers();
    };
    plain_numbers(schedule_of(schedule).prev_before(start))
}

/// Returns whether the schedule is due at `moment`.
#[unsafe(no_mangle)]
pub extern "C" fn calendar_schedule_is_due(
    schedule: &CalendarSchedule,
    moment: CalendarDateTime,
) -> bool
    ensures { result ≡ is_due_at (sets_from_c schedule.now) (moment_from_c moment) }
{
    match date_time_of(moment) {
        Some(moment) => schedule_of(schedule).is_due(moment),
        None => false,
    }
}

/// Writes the date-times after `start`, up to `until`, at which the schedule is due, and returns how many it wrote.
#[unsafe(no_mangle)]
pub extern "C" fn calendar_schedule_due(
    schedule: &CalendarSchedule,
    start: CalendarDateTime,
    until: CalendarDateTime,
    out: &mut [CalendarDateTime],
) -> usize
    ensures count { result
        ≡ length (due_numbers (sets_from_c schedule.now) (moment_from_c start) (moment_from_c until) (length out.old)) }
    ensures due { take result out.new
        ≡ due_numbers (sets_from_c schedule.now) (moment_from_c start) (moment_from_c until) (length out.old) }
    ensures rest { drop result out.new ≡ drop result out.old }
{
    let Some(start) = date_time_of(start) else {
        return 0;
    };
    let Some(until) = date_time_of(until) else {
        return 0;
    };
    write_due(&schedule_of(schedule), start, until, out)
}

// Writes the moments after a start, up to another, at which the schedule is due, and returns how many it wrote.
fn write_due(
    schedule: &Schedule,
    start: NaiveDateTime,
    until: NaiveDateTime,
    out: &mut [CalendarDateTime],
) -> usize
    ensures count { result ≡ length (due_numbers schedule.now.sets (Some start) (Some until) (length out.old)) }
    ensures due { take result out.new ≡ due_numbers schedule.now.sets (Some start) (Some until) (length out.old) }
    ensures rest { drop result out.new ≡ drop result out.old }
{
    let mut moments = schedule.after(start);
    let mut count = 0;
    while count < out.len() {
        let Some(moment) = moments.step() else {
            return count;
        };
        if is_up_to(until, moment) {
            out[count] = numbers_or_none(Some(moment));
            count += 1;
        } else {
            return count;
        }
    }
    count
}

// Whether a moment is not after another.
#[inline]
pub(crate) fn is_up_to(until: NaiveDateTime, moment: NaiveDateTime) -> bool
    ensures { result ≡ is_up_to until moment }
{
    moment.cmp(&until).is_le()
}

// The numbers of a moment that is in no leap second, if there is one.
#[inline]
pub(crate) fn plain_numbers(found: Option<NaiveDateTime>) -> CalendarDateTime
    requires { IfSome found (λ m. IsPlain m.time) }
    ensures numbers { result ≡ numbers_or_none found }
    ensures named { moment_from_c result ≡ found }
{
    match found {
        Some(moment) => numbers_of_plain(moment),
        None => no_numbers(),
    }
}

// The numbers of a moment that is in no leap second.
#[inline]
fn numbers_of_plain(moment: NaiveDateTime) -> CalendarDateTime
    requires { IsPlain moment.time }
    ensures numbers { result ≡ numbers_or_none (Some moment) }
    ensures named { moment_from_c result ≡ Some moment }
{
    date_times_exist(moment);
    numbers_or_none(Some(moment))
}

// The numbers of no moment.
#[inline]
pub(crate) fn no_numbers() -> CalendarDateTime
    ensures numbers { result ≡ numbers_or_none None }
    ensures named { moment_from_c result ≡ None }
{
    numbers_or_none(None)
}
