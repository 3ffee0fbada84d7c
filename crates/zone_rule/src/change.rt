//! `Change`: when a clock is set in each year.
ghost use Rattle.std.specs.Prelude.{◌≡◌, ◌<◌, pos, ◌+ℤ◌, ◌-ℤ◌, ◌*ℤ◌, unsigned_abs};
ghost use Rattle.std.specs.Option.{SomeIff};
ghost use Rattle.chrono_units.specs.Years.{IsYear};
ghost use Rattle.chrono_clock.specs.Time.{seconds_per_day};
ghost use Rattle.chrono_datetime.specs.Fields.{unix_epoch_day};
ghost use Rattle.chrono_zoned.specs.Offsets.{IsOffset};
ghost use Rattle.zone_rule.specs.Changes.{IsChange, IsRuleDay, LiesWithin, change_second};

use crate::mean_year::{Window, window_of};
use crate::rule_day::RuleDay;
use chrono_zoned::FixedOffset;
use std::fmt;
use std::marker::Model;

// The seconds of 168 hours.
const SECS_PER_WEEK: i32 = 604_800;

pub(crate) const SECS_PER_DAY: i64 = 86_400;

// The number of 1 January 1970.
pub(crate) const UNIX_EPOCH_DAY: i64 = 719_163;

/// When a clock is set in each year: a day, and a time on it.
///
/// The time is what the clock shows before it is set. It is counted in seconds from the day's midnight. It may lie on another
/// day, up to 167 hours, 59 minutes and 59 seconds away.
///
/// ```
/// use chrono_datetime::Weekday;
/// // At 02:00 of the second Sunday of March.
/// Change::new(RuleDay::Week { month: 3, week: 2, weekday: Weekday::Sun }, 7_200)?.second() // 7200
/// ```
#[derive(Clone, Copy)]
#[derive_where(PartialEq, Eq)]
pub struct Change {
    day: RuleDay,
    second: i32,
    // Between these seconds of each mean year the change comes, where the clock before it is that of UTC.
    #[derive_where(skip(EqHashOrd))]
    low: i32,
    #[derive_where(skip(EqHashOrd))]
    high: i32,
}

impl Model for Change {
    ghost use Rattle.std.specs.Prelude.{◌≡◌, ℤ};
    ghost use Rattle.std.proofs.Common.{ap, sym, ◌∙◌};
    ghost use Rattle.zone_rule.specs.Changes.{IsWindow, YearlyChange, window_high, window_low};

    ghost Value = { YearlyChange };

    ghost view = { λ a. record { day = a.day; second = a.second } };

    ghost invariant = { λ a. IsWindow (record { day = a.day; second = a.second }) a.low a.high };

    ghost inverse = { λ c. record { day = c.day; second = c.second; low = window_low c; high = window_high c } };

    ghost inverse_ok = { λ a h.
        let with_window : ℤ → ℤ → Inside = λ l u. record { day = a.day; second = a.second; low = l; high = u } in
        let change : YearlyChange = record { day = a.day; second = a.second } in
        ap (λ (l : ℤ). with_window l (window_high change)) (sym h.low) ∙ ap (λ (u : ℤ). with_window a.low u) (sym h.high) };
}

impl fmt::Debug for Change {
    fn fmt<W: fmt::Write>(&self, f: &mut fmt::Formatter<W>) -> fmt::Result {
        f.debug_struct("Change")
            .field("day", &self.day)
            .field("second", &self.second)
            .finish()
    }
}

impl Change {
    /// Returns the change on a day, `second` seconds from its midnight.
    ///
    /// Returns `None` if a number of the day is out of range, or if `second` is not from -604,799 to 604,799.
    ///
    /// ```
    /// Change::new(RuleDay::Julian(366), 0) // None
    /// Change::new(RuleDay::Julian(365), 604_800) // None
    /// ```
    pub fn new(day: RuleDay, second: i32) -> Option<Change>
        ensures { SomeIff result (IsChange (record { day = day; second = second })) (record { day = day; second = second }) }
    {
        if second <= -SECS_PER_WEEK || SECS_PER_WEEK <= second || !day.is_in_range() {
            return None;
        }
        let (low, high) = window_of(day, second);
        Some(Change {
            day,
            second,
            low,
            high,
        })
    }

    /// Returns the day.
    ///
    /// ```
    /// Change::new(RuleDay::Julian(60), 0)?.day() // Julian(60)
    /// ```
    pub fn day(&self) -> RuleDay
        ensures value { result ≡ self.now.day }
        ensures in_range { IsRuleDay result }
    {
        self.day
    }

    /// Returns the seconds from the day's midnight to the change.
    ///
    /// ```
    /// Change::new(RuleDay::Julian(60), -3_600)?.second() // -3600
    /// ```
    pub fn second(&self) -> i32
        ensures value { result ≡ self.now.second }
        ensures in_range { unsigned_abs result < 604_800 }
    {
        self.second
    }

    // Between which seconds of each mean year the change comes, where the clock before it is so far ahead of UTC.
    #[inline(always)]
    pub(crate) fn window(&self, offset: FixedOffset) -> Window
        ensures lies { LiesWithin (change_second offset self.now) result.low result.high }
        ensures low { unsigned_abs result.low < 40_000_000 }
        ensures high { unsigned_abs result.high < 40_000_000 }
        ensures change { IsChange self.now }
        ensures offset { IsOffset offset }
    {
        let (low, high) = (i64::from(self.low), i64::from(self.high));
        let ahead = i64::from(offset.local_minus_utc());
        Window {
            low: low - ahead,
            high: high - ahead,
        }
    }

    // The second of the change in a year, where the clock before it is so far ahead of UTC.
    pub(crate) fn second_in(&self, year: i32, offset: FixedOffset) -> i64
        requires { IsYear year }
        ensures value { result ≡ change_second offset self.now year }
        ensures in_range { unsigned_abs result < 8_400_000_000_000 }
        ensures change { IsChange self.now }
        ensures offset { IsOffset offset }
    {
        second_of(
            self.day.number_in(year),
            self.second,
            offset.local_minus_utc(),
        )
    }
}

// The second at which a clock, so far ahead of UTC, shows a second of a day.
#[inline]
pub(crate) fn second_of(day: i32, second: i32, offset: i32) -> i64
    requires day { unsigned_abs day < 96_000_000 }
    requires second { unsigned_abs second < 604_800 }
    requires offset { unsigned_abs offset < 86_400 }
    ensures value { result ≡ (day -ℤ unix_epoch_day) *ℤ pos seconds_per_day +ℤ second -ℤ offset }
    ensures in_range { unsigned_abs result < 8_400_000_000_000 }
{
    let days = i64::from(day) - UNIX_EPOCH_DAY;
    days * SECS_PER_DAY + i64::from(second) - i64::from(offset)
}
