//! `ZoneRule`: standard time, and daylight time in a part of each year.
ghost use Rattle.std.specs.Prelude.{◌≡◌, ◌↔◌, ◌⊎◌, Bool, if◌then◌else◌, ℤ, pos, neg_ℤ, ◌+ℤ◌, ◌-ℤ◌, ◌<ℤ◌, ◌≤ℤ◌, ◌<◌, IfNone, IfSome, IsSome, Some, unsigned_abs};
ghost use Rattle.chrono_units.specs.Years.{IsYear};
ghost use Rattle.chrono_zoned.specs.Offsets.{IsOffset};
ghost use Rattle.chrono_zoned.specs.Zones.{HoldsUntil, IsMapped};
ghost use Rattle.zone_rule.specs.Changes.{IsChange, IsNextOf, IsYearOfCycle, change_second, last_by, year_of_second};
ghost use Rattle.zone_rule.specs.Private.{AreKnown};
ghost use Rattle.zone_rule.specs.Rules.{IsNextSetting, IsSetAt, IsSteadyUntil, is_daylight, is_daylight_by, rule_offset};

use crate::change::{Change, SECS_PER_DAY, UNIX_EPOCH_DAY};
use crate::mean_year::SECS_PER_MEAN_YEAR;
use crate::turn::{turn_at, turn_near};
use chrono_datetime::{Datelike, NaiveDate};
use chrono_zoned::{FixedOffset, MappedLocalTime, Stretch};

// The seconds of 400 years, after which the calendar comes again.
const SECS_PER_CYCLE: i64 = 12_622_780_800;

// The seconds of four days. Where a change may be so near, its year is looked at.
const SECS_NEAR: i64 = 345_600;

/// A clock in each year: how far standard time is ahead of UTC, and daylight time if there is one.
///
/// ```
/// ZoneRule { standard: FixedOffset::east_opt(19_800)?, daylight: None }.offset_of_instant(0) // +05:30
/// ```
#[derive(Clone, Copy, Debug, PartialEq, Eq)]
pub struct ZoneRule {
    /// How far standard time is ahead of UTC.
    pub standard: FixedOffset,
    /// Daylight time, if the clock is ever set.
    pub daylight: Option<Daylight>,
}

/// Daylight time: how far it is ahead of UTC, and when it begins and ends in each year.
///
/// It may end in the year after, as south of the equator. It may be behind standard time, as in Dublin.
///
/// ```
/// let begins = Change::new(RuleDay::Julian(60), 7_200)?;
/// let ends = Change::new(RuleDay::Julian(300), 7_200)?;
/// Daylight { offset: FixedOffset::east_opt(3_600)?, begins, ends }.offset // +01:00
/// ```
#[derive(Clone, Copy, Debug, PartialEq, Eq)]
pub struct Daylight {
    /// How far daylight time is ahead of UTC.
    pub offset: FixedOffset,
    /// When it begins: standard time shows this time.
    pub begins: Change,
    /// When it ends: daylight time shows this time.
    pub ends: Change,
}

// Whether daylight time holds, and for how many seconds it then holds or does not.
#[derive(Clone, Copy)]
struct Hold {
    is_daylight: bool,
    wait: i64,
}

impl ZoneRule {
    /// Returns the offset at the instant `second`, in seconds from 1 January 1970 in UTC.
    ///
    /// It is that of daylight time if the last change up to then began daylight time. If one change comes at the same second
    /// as another, daylight time has begun.
    ///
    /// ```
    /// let begins = Change::new(RuleDay::Julian(60), 7_200)?;
    /// let ends = Change::new(RuleDay::Julian(300), 7_200)?;
    /// let daylight = Daylight { offset: FixedOffset::east_opt(3_600)?, begins, ends };
    /// let rule = ZoneRule { standard: FixedOffset::east_opt(0)?, daylight: Some(daylight) };
    /// rule.offset_of_instant(1_709_258_399) // +00:00
    /// rule.offset_of_instant(1_709_258_400) // +01:00
    /// ```
    pub fn offset_of_instant(&self, second: i64) -> FixedOffset
        ensures { result ≡ rule_offset self.now second }
    {
        let Some(daylight) = self.daylight else {
            return self.standard;
        };
        if daylight.holds_at(self.standard, second.rem_euclid(SECS_PER_CYCLE)) {
            daylight.offset
        } else {
            self.standard
        }
    }

    /// Returns whether daylight time holds at the instant `second`, in seconds from 1 January 1970 in UTC.
    ///
    /// ```
    /// let begins = Change::new(RuleDay::Julian(60), 7_200)?;
    /// let ends = Change::new(RuleDay::Julian(300), 7_200)?;
    /// let daylight = Daylight { offset: FixedOffset::east_opt(3_600)?, begins, ends };
    /// let rule = ZoneRule { standard: FixedOffset::east_opt(0)?, daylight: Some(daylight) };
    /// rule.is_daylight_at(1_729_990_799) // true
    /// rule.is_daylight_at(1_729_990_800) // false
    /// ```
    pub fn is_daylight_at(&self, second: i64) -> bool
        ensures { result ≡ is_daylight_by self.now.standard self.now.daylight second }
    {
        let Some(daylight) = self.daylight else {
            return false;
        };
        daylight.holds_at(self.standard, second.rem_euclid(SECS_PER_CYCLE))
    }

    /// Returns the seconds at which daylight time begins and ends in a year, from 1 January 1970 in UTC.
    ///
    /// The end may come first. Each is counted to the year of its day, from which its hours may lead away. Returns `None` if the
    /// rule has no daylight time, or if the year is not from -262,143 to 262,142.
    ///
    /// ```
    /// let begins = Change::new(RuleDay::Julian(60), 7_200)?;
    /// let ends = Change::new(RuleDay::Julian(300), 7_200)?;
    /// let daylight = Daylight { offset: FixedOffset::east_opt(3_600)?, begins, ends };
    /// let rule = ZoneRule { standard: FixedOffset::east_opt(0)?, daylight: Some(daylight) };
    /// rule.changes_in(2024) // Some((1709258400, 1729990800))
    /// rule.changes_in(262_143) // None
    /// ```
    pub fn changes_in(&self, year: i32) -> Option<(i64, i64)>
        ensures exists { IsSome result ↔ (IsSome self.now.daylight × IsYear year) }
        ensures begins { IfSome result (λ r. IfSome self.now.daylight (λ d. r.0 ≡ change_second self.now.standard d.begins year)) }
        ensures ends { IfSome result (λ r. IfSome self.now.daylight (λ d. r.1 ≡ change_second d.offset d.ends year)) }
    {
        let daylight = self.daylight?;
        // The year is one of the library's.
        NaiveDate::from_yo_opt(year, 1)?;
        let begins = daylight.begins.second_in(year, self.standard);
        Some((begins, daylight.ends.second_in(year, daylight.offset)))
    }

    /// Returns the next second after `second` at which the rule sets the clock, from 1 January 1970 in UTC.
    ///
    /// Daylight time begins or ends there, even if the offset stays the same. Returns `None` if the rule has no daylight time, or
    /// if that second is past `i64::MAX`.
    ///
    /// ```
    /// let begins = Change::new(RuleDay::Julian(60), 7_200)?;
    /// let ends = Change::new(RuleDay::Julian(300), 7_200)?;
    /// let daylight = Daylight { offset: FixedOffset::east_opt(3_600)?, begins, ends };
    /// let rule = ZoneRule { standard: FixedOffset::east_opt(0)?, daylight: Some(daylight) };
    /// rule.next_change(1_709_258_399) // Some(1709258400)
    /// rule.next_change(1_709_258_400) // Some(1729990800)
    /// rule.next_change(i64::MAX) // None
    /// ```
    pub fn next_change(&self, second: i64) -> Option<i64>
        ensures next { IfSome result (IsNextSetting self.now second) }
        ensures none { IfNone result ((t : ℤ) → IsSetAt self.now t → second <ℤ t → pos 9_223_372_036_854_775_807 <ℤ t) }
    {
        second.checked_add(self.seconds_to_change(second)?)
    }

    /// Returns how many seconds after `second` the rule sets the clock next. Returns `None` if it has no daylight time.
    ///
    /// ```
    /// let begins = Change::new(RuleDay::Julian(60), 7_200)?;
    /// let ends = Change::new(RuleDay::Julian(300), 7_200)?;
    /// let daylight = Daylight { offset: FixedOffset::east_opt(3_600)?, begins, ends };
    /// let rule = ZoneRule { standard: FixedOffset::east_opt(0)?, daylight: Some(daylight) };
    /// rule.seconds_to_change(1_709_258_399) // Some(1)
    /// ```
    pub fn seconds_to_change(&self, second: i64) -> Option<i64>
        ensures exists { IsSome result ↔ IsSome self.now.daylight }
        ensures next { IfSome result (λ wait. IsNextSetting self.now second (second +ℤ wait)) }
        ensures steady { IfSome result (λ wait. IsSteadyUntil self.now second (second +ℤ wait)) }
    {
        let daylight = self.daylight?;
        Some(daylight.hold_from(self.standard, second).wait)
    }

    /// Returns the offset at the instant `second`, and the next second at which the rule sets the clock, up to which it holds.
    ///
    /// It is `i64::MAX` if there is none up to then.
    ///
    /// ```
    /// let begins = Change::new(RuleDay::Julian(60), 7_200)?;
    /// let ends = Change::new(RuleDay::Julian(300), 7_200)?;
    /// let daylight = Daylight { offset: FixedOffset::east_opt(3_600)?, begins, ends };
    /// let rule = ZoneRule { standard: FixedOffset::east_opt(0)?, daylight: Some(daylight) };
    /// rule.stretch_of_instant(1_709_258_399).until // 1709258400
    /// ```
    #[inline(never)]
    pub fn stretch_of_instant(&self, second: i64) -> Stretch
        ensures offset { result.offset ≡ rule_offset self.now second }
        ensures holds { HoldsUntil (rule_offset self.now) second result.until }
        ensures later { second <ℤ pos 9_223_372_036_854_775_807 → second <ℤ result.until }
        ensures near { (u : ℤ) → IsOffset (rule_offset self.now u) }
        ensures first { (t : ℤ) → IsSetAt self.now t → second <ℤ t → result.until ≤ℤ t }
        ensures end { (result.until ≡ pos 9_223_372_036_854_775_807) ⊎ (IsSetAt self.now result.until × (second <ℤ result.until)) }
    {
        let Some(daylight) = self.daylight else {
            return Stretch::without_end(self.standard);
        };
        let hold = daylight.hold_from(self.standard, second);
        let offset = daylight.offset_if(self.standard, hold.is_daylight);
        // A proof knows the range of what is read. The compiler leaves it out.
        let _near = (
            self.standard.local_minus_utc(),
            daylight.offset.local_minus_utc(),
        );
        let Some(until) = second.checked_add(hold.wait) else {
            return Stretch {
                offset,
                until: i64::MAX,
            };
        };
        Stretch { offset, until }
    }

    // The same as [`stretch_of_instant`](Self::stretch_of_instant), but the stretch may end before the next change.
    #[inline(always)]
    pub(crate) fn stretch_near(&self, second: i64) -> Stretch
        ensures offset { result.offset ≡ rule_offset self.now second }
        ensures holds { HoldsUntil (rule_offset self.now) second result.until }
        ensures later { second <ℤ pos 9_223_372_036_854_775_807 → second <ℤ result.until }
        ensures near { (u : ℤ) → IsOffset (rule_offset self.now u) }
    {
        if let Some(stretch) = self.stretch_far(second) {
            return stretch;
        }
        self.stretch_of_instant(second)
    }

    // A stretch from a second on, if no change is near it, in the years 1970 to 2369. `None` says nothing.
    #[inline(always)]
    fn stretch_far(&self, second: i64) -> Option<Stretch>
        ensures offset { IfSome result (λ t. t.offset ≡ rule_offset self.now second) }
        ensures holds { IfSome result (λ t. HoldsUntil (rule_offset self.now) second t.until) }
        ensures later { IfSome result (λ t. second <ℤ t.until) }
        ensures near { IfSome result (λ _. (u : ℤ) → IsOffset (rule_offset self.now u)) }
    {
        let daylight = self.daylight?;
        if second < 0 || SECS_PER_CYCLE <= second {
            return None;
        }
        let hold = daylight.hold_by_windows(self.standard, second)?;
        // A proof knows the range of what is read. The compiler leaves it out.
        let _near = (
            self.standard.local_minus_utc(),
            daylight.offset.local_minus_utc(),
        );
        Some(Stretch {
            offset: daylight.offset_if(self.standard, hold.is_daylight),
            until: second + hold.wait,
        })
    }

    /// Returns the offsets at all instants at which the clock shows the local second `local`, the earlier instant first.
    ///
    /// There is none if the clock is set ahead past `local`. There are two if it is set back, and shows `local` twice.
    ///
    /// ```
    /// let begins = Change::new(RuleDay::Julian(60), 7_200)?;
    /// let ends = Change::new(RuleDay::Julian(300), 7_200)?;
    /// let daylight = Daylight { offset: FixedOffset::east_opt(3_600)?, begins, ends };
    /// let rule = ZoneRule { standard: FixedOffset::east_opt(0)?, daylight: Some(daylight) };
    /// rule.offsets_of_local(1_709_258_399) // Single(+00:00)
    /// rule.offsets_of_local(1_709_258_400) // None
    /// rule.offsets_of_local(1_709_262_000) // Single(+01:00)
    /// ```
    pub fn offsets_of_local(&self, local: i64) -> MappedLocalTime<FixedOffset>
        ensures { IsMapped (rule_offset self.now) local result }
    {
        let Some(daylight) = self.daylight else {
            return MappedLocalTime::Single(self.standard);
        };
        daylight.offsets_of_local(self.standard, local)
    }
}

impl Daylight {
    // The offsets at all instants at which the clock shows the local second, where standard time has the offset.
    fn offsets_of_local(self, standard: FixedOffset, local: i64) -> MappedLocalTime<FixedOffset>
        ensures { IsMapped (λ u. if is_daylight standard self u then self.offset else standard) local result }
    {
        let place = local.rem_euclid(SECS_PER_CYCLE);
        let of_standard = place - i64::from(standard.local_minus_utc());
        let of_daylight = place - i64::from(self.offset.local_minus_utc());
        let (by_standard, by_daylight) = self.holds_at_both(standard, of_standard, of_daylight);
        offsets_shown(standard, self.offset, by_standard, by_daylight)
    }

    // How far the clock is ahead of UTC, where daylight time holds or does not.
    #[inline]
    fn offset_if(&self, standard: FixedOffset, holds: bool) -> FixedOffset
        ensures { result ≡ if holds then self.now.offset else standard }
    {
        if holds { self.offset } else { standard }
    }

    // Whether daylight time holds at the second, and for how long, where standard time has the offset.
    fn hold_from(&self, standard: FixedOffset, second: i64) -> Hold
        ensures holds { result.is_daylight ≡ is_daylight standard self.now second }
        ensures next { IsNextSetting (record { standard = standard; daylight = Some self.now }) second (second +ℤ result.wait) }
        ensures steady { IsSteadyUntil (record { standard = standard; daylight = Some self.now }) second (second +ℤ result.wait) }
    {
        self.hold_in_cycle(standard, second.rem_euclid(SECS_PER_CYCLE))
    }

    // The same in the years 1970 to 2369.
    fn hold_in_cycle(&self, standard: FixedOffset, second: i64) -> Hold
        requires first { pos 0 ≤ℤ second }
        requires last { second <ℤ pos 12_622_780_800 }
        ensures holds { result.is_daylight ≡ is_daylight standard self.now second }
        ensures next { IsNextSetting (record { standard = standard; daylight = Some self.now }) second (second +ℤ result.wait) }
        ensures known { AreKnown standard self.now }
    {
        let year = year_of_second(second);
        if let Some(hold) = self.hold_in_year(standard, year, second) {
            return hold;
        }
        let begins = next_of(&self.begins, standard, year, second);
        let ends = next_of(&self.ends, self.offset, year, second);
        Hold {
            is_daylight: self.is_last_begun(standard, year, second),
            wait: begins.min(ends) - second,
        }
    }

    // Whether daylight time holds at each of two seconds, in or beside the years 1970 to 2369. Mostly no change comes between them.
    #[inline]
    fn holds_at_both(&self, standard: FixedOffset, one: i64, other: i64) -> (bool, bool)
        requires low { (neg_ℤ (pos 86_400) ≤ℤ one) × (neg_ℤ (pos 86_400) ≤ℤ other) }
        requires high { (one ≤ℤ pos 12_622_867_200) × (other ≤ℤ pos 12_622_867_200) }
        ensures one { result.0 ≡ is_daylight standard self.now one }
        ensures other { result.1 ≡ is_daylight standard self.now other }
    {
        if let Some(holds) = self.holds_through(standard, one.min(other), one.max(other)) {
            return (holds, holds);
        }
        (self.holds_at(standard, one), self.holds_at(standard, other))
    }

    // Whether daylight time holds from a second up to another. `None` if it may begin or end between them.
    #[inline]
    fn holds_through(&self, standard: FixedOffset, first: i64, last: i64) -> Option<bool>
        requires low { neg_ℤ (pos 86_400) ≤ℤ first }
        requires high { last ≤ℤ pos 12_622_867_200 }
        requires order { first ≤ℤ last }
        ensures { IfSome result (λ h. (u : ℤ) → first ≤ℤ u → u ≤ℤ last → is_daylight standard self.now u ≡ h) }
    {
        if first < 0 || SECS_PER_CYCLE <= first {
            return None;
        }
        let hold = self.hold_on(standard, first);
        if hold.wait <= last - first {
            return None;
        }
        Some(hold.is_daylight)
    }

    // Whether daylight time holds at the second, in the years 1970 to 2369, and for how long that stays so at least.
    #[inline]
    fn hold_on(&self, standard: FixedOffset, second: i64) -> Hold
        requires first { pos 0 ≤ℤ second }
        requires last { second <ℤ pos 12_622_780_800 }
        ensures { (u : ℤ) → second ≤ℤ u → u <ℤ (second +ℤ result.wait) → is_daylight standard self.now u ≡ result.is_daylight }
    {
        match self.hold_far(standard, second) {
            Some(hold) => hold,
            None => self.hold_in_cycle(standard, second),
        }
    }

    // The same by the changes of the second's year, if they tell it.
    #[inline(always)]
    fn hold_in_year(&self, standard: FixedOffset, year: i32, second: i64) -> Option<Hold>
        requires own { year ≡ year_of_second second }
        requires cycle { IsYearOfCycle year }
        requires first { neg_ℤ (pos 86_400) ≤ℤ second }
        requires last { second ≤ℤ pos 12_622_867_200 }
        ensures holds { IfSome result (λ h. h.is_daylight ≡ is_daylight standard self.now second) }
        ensures next { IfSome result (λ h. IsNextSetting (record { standard = standard; daylight = Some self.now }) second (second +ℤ h.wait)) }
        ensures known { AreKnown standard self.now }
    {
        let begins = self.begins.second_in(year, standard);
        let ends = self.ends.second_in(year, self.offset);
        if begins < ends {
            let turn = turn_at(&self.begins, standard, year, begins, ends, second)?;
            Some(Hold {
                is_daylight: turn.is_first,
                wait: turn.next - second,
            })
        } else {
            let turn = turn_at(&self.ends, self.offset, year, ends, begins, second)?;
            Some(Hold {
                is_daylight: !turn.is_first,
                wait: turn.next - second,
            })
        }
    }

    // The same where no change is near, by the mean year of the second. `None` says nothing.
    #[inline(always)]
    fn hold_far(&self, standard: FixedOffset, second: i64) -> Option<Hold>
        requires first { pos 0 ≤ℤ second }
        requires last { second ≤ℤ pos 12_622_867_200 }
        ensures holds { IfSome result (λ h. (u : ℤ) → second ≤ℤ u → u <ℤ (second +ℤ h.wait) → is_daylight standard self.now u ≡ h.is_daylight) }
        ensures long { IfSome result (λ h. pos 345_600 ≤ℤ h.wait) }
        ensures short { IfSome result (λ h. h.wait ≤ℤ pos 120_000_000) }
    {
        let place = second.rem_euclid(SECS_PER_MEAN_YEAR);
        let begun = self.begins.last_window(standard, second, place);
        let ended = self.ends.last_window(self.offset, second, place);
        let wait = begun.low.min(ended.low) + SECS_PER_MEAN_YEAR - place;
        if place < begun.high || place < ended.high || wait < SECS_NEAR {
            return None;
        }
        if begun.low < ended.high && ended.low <= begun.high {
            return None;
        }
        Some(Hold {
            is_daylight: ended.high <= begun.low,
            wait,
        })
    }

    // The same, also near a change, if that is the next one.
    #[inline(always)]
    fn hold_by_windows(&self, standard: FixedOffset, second: i64) -> Option<Hold>
        requires first { pos 0 ≤ℤ second }
        requires last { second ≤ℤ pos 12_622_867_200 }
        ensures holds { IfSome result (λ h. (u : ℤ) → second ≤ℤ u → u <ℤ (second +ℤ h.wait) → is_daylight standard self.now u ≡ h.is_daylight) }
        ensures later { IfSome result (λ h. pos 0 <ℤ h.wait) }
        ensures short { IfSome result (λ h. h.wait <ℤ pos 9_000_000_000_000) }
    {
        if let Some(hold) = self.hold_far(standard, second) {
            return Some(hold);
        }
        self.hold_near(standard, second)
    }

    // The same by the year of the next change.
    #[inline(never)]
    fn hold_near(&self, standard: FixedOffset, second: i64) -> Option<Hold>
        requires first { pos 0 ≤ℤ second }
        requires last { second ≤ℤ pos 12_622_867_200 }
        ensures holds { IfSome result (λ h. (u : ℤ) → second ≤ℤ u → u <ℤ (second +ℤ h.wait) → is_daylight standard self.now u ≡ h.is_daylight) }
        ensures later { IfSome result (λ h. pos 0 <ℤ h.wait) }
        ensures short { IfSome result (λ h. h.wait <ℤ pos 9_000_000_000_000) }
    {
        let place = second.rem_euclid(SECS_PER_MEAN_YEAR);
        let begun = self.begins.last_window(standard, second, place);
        let ended = self.ends.last_window(self.offset, second, place);
        if place < begun.high || place < ended.high {
            return None;
        }
        if begun.low < ended.low {
            let turn = turn_near(&self.begins, standard, begun, ended, second, place)?;
            return hold_until(turn.is_first, second, turn.next);
        }
        let turn = turn_near(&self.ends, self.offset, ended, begun, second, place)?;
        hold_until(!turn.is_first, second, turn.next)
    }

    // Whether daylight time holds at the second, in or beside the years 1970 to 2369.
    #[inline]
    fn holds_at(&self, standard: FixedOffset, second: i64) -> bool
        requires first { neg_ℤ (pos 86_400) ≤ℤ second }
        requires last { second ≤ℤ pos 12_622_867_200 }
        ensures { result ≡ is_daylight standard self.now second }
    {
        if second >= 0 {
            if let Some(hold) = self.hold_far(standard, second) {
                return hold.is_daylight;
            }
        }
        self.holds_near(standard, second)
    }

    // The same, by the changes of the second's year.
    #[inline(never)]
    fn holds_near(&self, standard: FixedOffset, second: i64) -> bool
        requires first { neg_ℤ (pos 86_400) ≤ℤ second }
        requires last { second ≤ℤ pos 12_622_867_200 }
        ensures { result ≡ is_daylight standard self.now second }
    {
        let year = year_of_second(second);
        if let Some(hold) = self.hold_in_year(standard, year, second) {
            return hold.is_daylight;
        }
        self.is_last_begun(standard, year, second)
    }

    // Whether the last change up to the second began daylight time, by the changes of four years.
    fn is_last_begun(&self, standard: FixedOffset, year: i32, second: i64) -> bool
        requires own { year ≡ year_of_second second }
        requires cycle { IsYearOfCycle year }
        ensures { result ≡ is_daylight standard self.now second }
    {
        last_by(&self.ends, self.offset, year, second)
            <= last_by(&self.begins, standard, year, second)
    }
}

// That daylight time holds or does not, from a second on until another. `None` if that does not come later.
#[inline(always)]
fn hold_until(is_daylight: bool, second: i64, until: i64) -> Option<Hold>
    requires first { pos 0 ≤ℤ second }
    requires last { second ≤ℤ pos 12_622_867_200 }
    requires near { unsigned_abs until < 8_400_000_000_000 }
    ensures holds { (test : ℤ → Bool) → ((u : ℤ) → second ≤ℤ u → u <ℤ until → test u ≡ is_daylight)
        → IfSome result (λ h. (u : ℤ) → second ≤ℤ u → u <ℤ (second +ℤ h.wait) → test u ≡ h.is_daylight) }
    ensures later { IfSome result (λ h. pos 0 <ℤ h.wait) }
    ensures short { IfSome result (λ h. h.wait <ℤ pos 9_000_000_000_000) }
{
    if until <= second {
        return None;
    }
    Some(Hold {
        is_daylight,
        wait: until - second,
    })
}

// The offsets at all instants at which the clock shows a local time, where daylight time holds or does not at the instants to which
// the two offsets lead.
fn offsets_shown(
    standard: FixedOffset,
    daylight: FixedOffset,
    holds_by_standard: bool,
    holds_by_daylight: bool,
) -> MappedLocalTime<FixedOffset>
    ensures { (test : ℤ → Bool) (l : ℤ) → test (l -ℤ standard) ≡ holds_by_standard → test (l -ℤ daylight) ≡ holds_by_daylight
        → IsMapped (λ u. if test u then daylight else standard) l result }
{
    if !holds_by_daylight {
        return if holds_by_standard {
            MappedLocalTime::None
        } else {
            MappedLocalTime::Single(standard)
        };
    }
    if holds_by_standard {
        return MappedLocalTime::Single(daylight);
    }
    if daylight.local_minus_utc() < standard.local_minus_utc() {
        MappedLocalTime::Ambiguous(standard, daylight)
    } else {
        MappedLocalTime::Ambiguous(daylight, standard)
    }
}

// The year of the second, in UTC.
fn year_of_second(second: i64) -> i32
    requires first { neg_ℤ (pos 86_400) ≤ℤ second }
    requires last { second ≤ℤ pos 12_622_867_200 }
    ensures value { result ≡ year_of_second second }
    ensures in_range { IsYearOfCycle result }
{
    let day = second.div_euclid(SECS_PER_DAY) + UNIX_EPOCH_DAY;
    NaiveDate::from_num_days_from_ce_opt(day as i32)
        .unwrap()
        .year()
}

// The last second up to `second` that the change has in the years up to the next one.
fn last_by(change: &Change, offset: FixedOffset, year: i32, second: i64) -> i64
    requires { IsYearOfCycle year }
    ensures { result ≡ last_by (change_second offset change.now) year second }
{
    let next = change.second_in(year + 1, offset);
    if next <= second {
        return next;
    }
    let same = change.second_in(year, offset);
    if same <= second {
        return same;
    }
    let before = change.second_in(year - 1, offset);
    if before <= second {
        return before;
    }
    change.second_in(year - 2, offset)
}

// The first second after `second`, which lies in the year, that the change has in any year.
fn next_of(change: &Change, offset: FixedOffset, year: i32, second: i64) -> i64
    requires own { year ≡ year_of_second second }
    requires cycle { IsYearOfCycle year }
    ensures next { IsNextOf (change_second offset change.now) second result }
    ensures change { IsChange change.now }
    ensures offset { IsOffset offset }
{
    let mut at = year - 1;
    let mut next = change.second_in(at, offset);
    while next <= second {
        at += 1;
        next = change.second_in(at, offset);
    }
    next
}
