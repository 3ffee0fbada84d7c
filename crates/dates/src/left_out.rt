//! Weekdays that a sequence leaves out: when nothing else follows, and how short steps pass them at once.

use crate::prelude::*;

// So many nanoseconds have a day and a week.
const DAY: i64 = 86_400_000_000_000;

const WEEK: i64 = 604_800_000_000_000;

// Days and weeks come again by the same weekdays after so many steps, and so do short times, each of which here leads to another day.
const STEPS_OF_A_WEEK: u32 = 7;

// Months and years do so after those of 400 years, which are whole weeks.
const STEPS_OF_MONTHS: u32 = 4_800;

// After so many steps that are left out in a row none follows that is not.
pub(crate) fn most_left_out(step: Move) -> u32 {
    match step {
        Move::Calendar(span) | Move::ShortMonths(span) => match span.unit {
            Unit::Days | Unit::Weeks => STEPS_OF_A_WEEK,
            Unit::Months | Unit::Years => STEPS_OF_MONTHS,
        },
        Move::OpenDays(_) => STEPS_OF_A_WEEK,
        Move::Time(Some(time)) => most_times_left_out(time),
        Move::Time(None) => 0,
    }
}

// The same of steps by a time: those of a day or more, but for whole weeks, come to the same second of a week after those of both.
fn most_times_left_out(time: TimeDelta) -> u32 {
    let Some(drift) = drift_of(time) else {
        return u32::MAX;
    };
    if drift.unsigned_abs() < DAY.unsigned_abs() {
        return STEPS_OF_A_WEEK;
    }
    let common = common_part(WEEK.unsigned_abs(), drift.unsigned_abs());
    let steps = WEEK.unsigned_abs().checked_div(common);
    u32::try_from(steps.unwrap_or(0)).unwrap_or(u32::MAX)
}

// By how many nanoseconds a step goes on in the week, or back where that is shorter.
fn drift_of(time: TimeDelta) -> Option<i64> {
    let over = time.num_nanoseconds()? % WEEK;
    if over > WEEK / 2 {
        over.checked_sub(WEEK)
    } else if over < -(WEEK / 2) {
        over.checked_add(WEEK)
    } else {
        Some(over)
    }
}

// The greatest common divisor of two numbers, by Euclid's steps, of which 64-bit numbers take fewer than 100.
fn common_part(first: u64, second: u64) -> u64 {
    let (mut greater, mut less) = (first, second);
    for _ in 0..100 {
        match greater.checked_rem(less) {
            Some(rest) => {
                greater = less;
                less = rest;
            }
            None => break,
        }
    }
    greater
}

// The time of the steps that lead from one of a sequence by times to the first on another weekday, where steps drift by less than a day.
pub(crate) fn time_behind_day(start: &Start, step: Move) -> Option<TimeDelta> {
    let Move::Time(Some(time)) = step else {
        return None;
    };
    let drift = drift_of(time)?;
    let size = drift.unsigned_abs();
    if size >= DAY.unsigned_abs() {
        return None;
    }
    let midnight = start.local().time().signed_duration_since(NaiveTime::MIN);
    let gone = u64::try_from(midnight.num_nanoseconds()?).ok()?;
    let gap = if drift < 0 {
        gone.checked_add(1)?
    } else {
        DAY.unsigned_abs().saturating_sub(gone).max(1)
    };
    let count = gap.checked_add(size)?.checked_sub(1)?.checked_div(size)?;
    Some(times(time, count).unwrap_or(TimeDelta::MAX))
}

// A time so many times, if it is not too long.
fn times(time: TimeDelta, count: u64) -> Option<TimeDelta> {
    if let Ok(count) = i32::try_from(count) {
        return time.checked_mul(count);
    }
    let count = i64::try_from(count).ok()?;
    let nanos = time.num_nanoseconds()?.checked_mul(count)?;
    Some(TimeDelta::nanoseconds(nanos))
}
