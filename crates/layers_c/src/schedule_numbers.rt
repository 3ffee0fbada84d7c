//! Schedules as the numbers that stand for them.
ghost use Rattle.std.specs.Prelude.{◌≡◌, ◌==◌, ◌<◌};
ghost use Rattle.std.specs.Int.{bit_at};
ghost use Rattle.chrono_cron.specs.WritableSchedules.{IsWritable};
ghost use Rattle.layers_c.specs.Schedules.{sets_from_c};

use crate::number_sets::{digits_of, set_of};
use chrono_cron::{FieldSets, MonthDays, Schedule};

/// A schedule as ten numbers. The digit for 2^k of a set says whether `k` is a member.
///
/// Ten numbers of any value are a schedule. Digits of numbers that a field cannot have make no difference.
#[repr(C)]
#[derive(Clone, Copy)]
pub struct CalendarSchedule {
    /// The minutes past the hour, 0 to 59.
    pub minutes: u64,
    /// The hours, 0 to 23.
    pub hours: u64,
    /// The days of the month, 1 to 31.
    pub days: u64,
    /// The months, 1 to 12.
    pub months: u64,
    /// The weekdays, from 0 for Sunday to 6.
    pub weekdays: u64,
    /// `L` and `L-k`: the day of the month that `k` days follow.
    pub days_from_end: u64,
    /// `kW`: the workday that is nearest to the `k`-th day.
    pub nearest_workdays: u64,
    /// `dL`: the last day of the month with the weekday `d`.
    pub last_weekdays: u64,
    /// `d#k`: the `k`-th day of the month with the weekday `d`, as `7 * (k - 1) + d`.
    pub nth_weekdays: u64,
    /// The digit for 1 says whether one field of days is enough. That for 2 says whether `LW`, the last workday, counts. That for 4 says whether
    /// the schedule follows the clock of a zone.
    pub marks: u64,
}

// The schedule for which the numbers stand.
#[inline]
#[tactic(auto, unfolding(crate::specs::Schedules::sets_from_c))]
pub(crate) fn schedule_of(numbers: &CalendarSchedule) -> Schedule
    ensures { result.sets ≡ sets_from_c numbers.now }
{
    Schedule {
        sets: FieldSets {
            minutes: set_of(numbers.minutes),
            hours: set_of(numbers.hours),
            days: set_of(numbers.days),
            months: set_of(numbers.months),
            weekdays: set_of(numbers.weekdays),
            month_days: month_days_of(numbers),
            either: is_marked(numbers.marks, 0),
            follows_clock: is_marked(numbers.marks, 2),
        },
    }
}

// The days that are named by the end, the workdays and the weeks of the month.
#[inline]
#[tactic(auto, unfolding(crate::specs::Schedules::sets_from_c))]
fn month_days_of(numbers: &CalendarSchedule) -> MonthDays
    ensures { result ≡ (sets_from_c numbers.now).month_days }
{
    MonthDays {
        from_end: set_of(numbers.days_from_end),
        nearest_workdays: set_of(numbers.nearest_workdays),
        last_workday: is_marked(numbers.marks, 1),
        last_weekdays: set_of(numbers.last_weekdays),
        nth_weekdays: set_of(numbers.nth_weekdays),
    }
}

// Whether a digit of the marks is 1.
#[inline]
#[tactic(auto, using(std::proofs::lemmas::Nat::Bits::shr_and_one))]
fn is_marked(marks: u64, place: u32) -> bool
    requires { place < 64 }
    ensures { result ≡ (bit_at marks place == 1) }
{
    marks >> place & 1 == 1
}

// The numbers of a schedule that a text can write.
#[tactic(auto, unfolding(crate::specs::Schedules::sets_from_c))]
pub(crate) fn numbers_of(schedule: &Schedule) -> CalendarSchedule
    requires { IsWritable schedule.now.sets }
    ensures { sets_from_c result ≡ schedule.now.sets }
{
    let sets = &schedule.sets;
    let named = &sets.month_days;
    CalendarSchedule {
        minutes: digits_of(sets.minutes),
        hours: digits_of(sets.hours),
        days: digits_of(sets.days),
        months: digits_of(sets.months),
        weekdays: digits_of(sets.weekdays),
        days_from_end: digits_of(named.from_end),
        nearest_workdays: digits_of(named.nearest_workdays),
        last_weekdays: digits_of(named.last_weekdays),
        nth_weekdays: digits_of(named.nth_weekdays),
        marks: marks_of(sets.either, named.last_workday, sets.follows_clock),
    }
}

// The marks of all three.
#[inline]
fn marks_of(either: bool, last_workday: bool, follows_clock: bool) -> u64
    ensures either { (bit_at result 0 == 1) ≡ either }
    ensures last_workday { (bit_at result 1 == 1) ≡ last_workday }
    ensures follows_clock { (bit_at result 2 == 1) ≡ follows_clock }
{
    match (either, last_workday, follows_clock) {
        (false, false, false) => 0,
        (true, false, false) => 1,
        (false, true, false) => 2,
        (true, true, false) => 3,
        (false, false, true) => 4,
        (true, false, true) => 5,
        (false, true, true) => 6,
        (true, true, true) => 7,
    }
}
