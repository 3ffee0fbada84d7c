//! `Window`: between which seconds of a mean year a yearly change comes.
//!
//! A mean year has the 400th part of the seconds of 400 years. Mean years are counted from 1 January 1970. A calendar year begins less than
//! two days before or behind its mean year. So one division tells of most seconds that they are far from all changes.
ghost use Rattle.std.specs.Prelude.{◌≡◌, ◌<◌, pos, ◌+ℤ◌, ◌-ℤ◌, ◌≤ℤ◌, unsigned_abs};
ghost use Rattle.std.specs.Int.{int_div_euclid, int_rem_euclid};
ghost use Rattle.chrono_zoned.specs.Offsets.{IsOffset};
ghost use Rattle.zone_rule.specs.Changes.{IsChange, IsWindow, change_second};
ghost use Rattle.zone_rule.specs.Private.{ComesWithin};

use crate::change::Change;
use crate::rule_day::RuleDay;
use chrono_zoned::FixedOffset;

/// The seconds of a mean year.
pub(crate) const SECS_PER_MEAN_YEAR: i64 = 31_556_952;

// A year of the calendar begins no more seconds before its mean year, and no more behind it.
const MOST_BEFORE: i32 = 109_296;

const MOST_BEHIND: i32 = 127_224;

const SECS_PER_DAY: i32 = 86_400;

// The seconds from which and up to which a change comes, counted from the beginning of a mean year.
#[derive(Clone, Copy)]
pub(crate) struct Window {
    pub(crate) low: i64,
    pub(crate) high: i64,
}

// A change that has come, from which and up to which second, counted from the beginning of a later mean year, and in which year.
#[derive(Clone, Copy)]
pub(crate) struct Past {
    pub(crate) low: i64,
    pub(crate) high: i64,
    pub(crate) year: i32,
}

impl Change {
    // The window of the last change that has come by the second at the place of its mean year. If it may not have come, then of the one before.
    #[inline(always)]
    pub(crate) fn last_window(&self, offset: FixedOffset, second: i64, place: i64) -> Past
        requires first { pos 0 ≤ℤ second }
        requires last { second ≤ℤ pos 12_622_867_200 }
        requires place { place ≡ int_rem_euclid second (pos 31_556_952) }
        ensures comes { ComesWithin (change_second offset self.now) (second -ℤ place) result }
        ensures low { unsigned_abs result.low < 80_000_000 }
        ensures high { unsigned_abs result.high < 80_000_000 }
        ensures year { (pos 1_969 ≤ℤ result.year) × (result.year ≤ℤ pos 2_370) }
        ensures change { IsChange self.now }
        ensures offset { IsOffset offset }
    {
        let window = self.window(offset);
        let year = year_of(second);
        if place < window.high {
            return Past {
                low: window.low - SECS_PER_MEAN_YEAR,
                high: window.high - SECS_PER_MEAN_YEAR,
                year: year - 1,
            };
        }
        Past {
            low: window.low,
            high: window.high,
            year,
        }
    }
}

// The number of the mean year of a second, which a year of the calendar has too.
#[inline(always)]
fn year_of(second: i64) -> i32
    requires first { pos 0 ≤ℤ second }
    requires last { second ≤ℤ pos 12_622_867_200 }
    ensures value { result ≡ pos 1_970 +ℤ int_div_euclid second (pos 31_556_952) }
    ensures low { pos 1_970 ≤ℤ result }
    ensures high { result ≤ℤ pos 2_370 }
{
    1_970 + second.div_euclid(SECS_PER_MEAN_YEAR) as i32
}

// Between which seconds of each mean year a change on a day comes, where the clock before it is that of UTC.
pub(crate) fn window_of(day: RuleDay, second: i32) -> (i32, i32)
    requires { IsChange (record { day = day; second = second }) }
    ensures { IsWindow (record { day = day; second = second }) result.0 result.1 }
{
    let (least, days) = day.places();
    let low = least as i32 - 1;
    let high = low + days as i32;
    (
        low * SECS_PER_DAY + second - MOST_BEFORE,
        high * SECS_PER_DAY + second + MOST_BEHIND,
    )
}
