//! What a search passes over by BYSETPOS.
ghost use Rattle.std.specs.Prelude.{◌≡◌, ◌≤◌, ◌<◌, ◌+◌, ◌-◌, ◌&&◌, ◌||◌, nat_lt, ◌≤ℤ◌, ◌<ℤ◌, ◌+ℤ◌, ℕ, ℤ, pos, true, false, if◌then◌else◌, IfSome, IsTrue};
ghost use Rattle.chrono_datetime.specs.Days.{IsDate};
ghost use Rattle.chrono_datetime.specs.Recurrence.{count_between};
ghost use Rattle.chrono_datetime.specs.PassedOver.{PassedOver};
ghost use Rattle.chrono_sets.specs.FiniteSets.{has, is_empty};
ghost use Rattle.chrono_rules.specs.ByParts.{date_passes, passes};
ghost use Rattle.chrono_rules.specs.Instances.{in_positions, is_member};
ghost use Rattle.chrono_rules.specs.RuleParts.{lacks_positions};
ghost use Rattle.chrono_rules.specs.Periods.{period_end, period_first};

use crate::rule::{Frequency, Rule};
use crate::search::repeats::PAST_LAST_DAY;
use chrono_datetime::{Datelike, NaiveDate};
use chrono_sets::PlaceSet;

impl Rule {
    // How many days of its period pass before this one, if BYSETPOS has places from the front.
    pub(crate) fn passing_before(&self, start: NaiveDate, day: NaiveDate) -> u32
        ensures value { is_empty self.now.positions ≡ false → result ≡ count_between (date_passes self.now start)
            (period_first self.now.frequency self.now.week_start day) day }
        ensures few { result ≤ 366 }
    {
        if self.positions.is_empty() {
            return 0;
        }
        let first = self.to_period_first(day);
        self.count_passing(start, day, first, 0)
    }

    // How many of them pass from this one on, if it has places from the back.
    pub(crate) fn passing_from(&self, start: NaiveDate, day: NaiveDate) -> u32
        ensures value { is_empty self.now.positions_from_end ≡ false → result ≡ count_between (date_passes self.now start)
            day (period_end self.now.frequency self.now.week_start day) }
    {
        if self.positions_from_end.is_empty() {
            return 0;
        }
        let end = self.to_period_end(day);
        self.count_passing(start, day, 0, end)
    }

    // How many of the period's days pass from some day up to the date. `passed` of them are before the date.
    // `None` if the date passes and BYSETPOS names its place.
    // In the period `before` days pass before that day, and `left` from it on.
    #[inline]
    fn passed_with(
        &self,
        start: NaiveDate,
        date: NaiveDate,
        before: u32,
        left: u32,
        passed: u32,
    ) -> Option<u32>
        requires before { before ≤ 366 }
        requires passed { passed ≤ 366 }
        ensures count { IfSome result (λ n. n ≡ passed + (if passes self.now start date then 1 else 0)) }
        ensures step { IfSome result (λ n. n ≤ passed + 1) }
        ensures off { IfSome result (λ n. passes self.now start date ≡ true →
            (has self.now.positions (before + passed + 1) || has self.now.positions_from_end (left - passed)) ≡ false) }
    {
        if !self.passes(start, date) {
            return Some(passed);
        }
        if self.has_position(before + passed + 1, left.saturating_sub(passed)) {
            return None;
        }
        Some(passed + 1)
    }

    // Whether BYSETPOS names only places that no period has. A day, a week and a month have no more places than days.
    pub(crate) fn names_no_place(&self) -> bool
        ensures { IsTrue result → (start : ℤ) (d : ℤ) → is_member self.now start d ≡ false }
    {
        match self.frequency {
            Frequency::Daily => self.names_none_up_to(1),
            Frequency::Weekly => self.names_none_up_to(7),
            Frequency::Monthly => self.names_none_up_to(31),
            Frequency::Yearly => false,
        }
    }

    // Whether it names places, but none from the front or from the back up to a number.
    fn names_none_up_to(&self, most: u32) -> bool
        requires { most < 64 }
        ensures named { IsTrue result → lacks_positions self.now ≡ false }
        ensures front { IsTrue result → (k : ℕ) → k ≤ most → has self.now.positions k ≡ false }
        ensures back { IsTrue result → (k : ℕ) → k ≤ most → has self.now.positions_from_end k ≡ false }
    {
        if self.lacks_positions() || self.positions.gap_up(0) <= most {
            return false;
        }
        self.positions_from_end.gap_up(0) > most
    }

    // Whether BYSETPOS names a place from the front, or one from the back.
    #[inline]
    pub(crate) fn has_position(&self, front: u32, back: u32) -> bool
        ensures { result ≡ (has self.now.positions front || has self.now.positions_from_end back) }
    {
        has_place(&self.positions, front) || has_place(&self.positions_from_end, back)
    }

    // How many days from this one on have no place that BYSETPOS names, at most those of its period, of which so many pass before it.
    fn days_to_position(&self, start: NaiveDate, day: NaiveDate, before: u32) -> i64
        requires some { lacks_positions self.now ≡ false }
        requires before { is_empty self.now.positions ≡ false → before ≡ count_between (date_passes self.now start)
            (period_first self.now.frequency self.now.week_start day) day }
        requires few { before ≤ 366 }
        ensures passed { PassedOver (is_member self.now start) day (day +ℤ result) }
        ensures low { pos 0 ≤ℤ result }
        ensures high { result ≤ℤ pos 366 }
    {
        let left = self.passing_from(start, day);
        let end = self.to_period_end(day);
        let mut passed = 0;
        let mut later = 0;
        while later < end {
            let Some(date) = day.moved_by_days(later) else {
                return later;
            };
            let Some(count) = self.passed_with(start, date, before, left, passed) else {
                return later;
            };
            passed = count;
            later += 1;
        }
        later
    }

    // How many days from this one on have no place that BYSETPOS names, at most those of its period.
    // The period ends `end` days later, and BYSETPOS names none of their places from the front.
    // They are looked at from the period's end back, up to the last place that is named.
    fn days_to_place_from_end(&self, start: NaiveDate, day: NaiveDate, end: i64) -> i64
        requires some { lacks_positions self.now ≡ false }
        requires end { (day +ℤ end) ≡ period_end self.now.frequency self.now.week_start day }
        requires low { pos 1 ≤ℤ end }
        requires high { end ≤ℤ pos 366 }
        requires dates { (d : ℤ) → day ≤ℤ d → d <ℤ (day +ℤ end) → IsDate d }
        requires front { (d : ℤ) → day ≤ℤ d → d <ℤ (day +ℤ end) → date_passes self.now start d ≡ true →
            has self.now.positions (count_between (date_passes self.now start)
            (period_first self.now.frequency self.now.week_start d) (d +ℤ pos 1)) ≡ false }
        ensures passed { PassedOver (is_member self.now start) day (day +ℤ result) }
        ensures low { pos 0 ≤ℤ result }
        ensures high { result ≤ℤ pos 366 }
    {
        let last = last_place(&self.positions_from_end);
        let mut first = end;
        let mut later = end;
        let mut place = 0;
        while later > 0 {
            if place >= last {
                return first;
            }
            later -= 1;
            let behind = place;
            place = self.and_later(start, day, later, behind);
            first = self.earlier_named(behind, place, later, first);
        }
        first
    }

    // The day that lies `later` days later if BYSETPOS names its place from the back, which is one more than that of the days behind it; else `first`.
    #[inline]
    fn earlier_named(&self, behind: u32, place: u32, later: i64, first: i64) -> i64
        requires { place < 384 }
        ensures { result ≡ (if nat_lt behind place && has self.now.positions_from_end place then later else first) }
    {
        if behind < place && self.positions_from_end.contains(place) {
            later
        } else {
            first
        }
    }

    // How many days from this one on have no place that BYSETPOS names, at most those of its period; 0 where the rule names no place.
    #[inline]
    pub(crate) fn passed_by_position(&self, start: NaiveDate, day: NaiveDate) -> i64
        ensures passed { PassedOver (is_member self.now start) day (day +ℤ result) }
        ensures named { result ≡ pos 0 → in_positions self.now start day ≡ true }
        ensures low { pos 0 ≤ℤ result }
        ensures high { result ≤ℤ pos 366 }
    {
        if self.lacks_positions() {
            return 0;
        }
        let days = self.days_to_named_place(start, day);
        if days > 0 {
            return days;
        }
        if self.in_positions(start, day) { 0 } else { 1 }
    }

    // The same, where the rule names places: but it may be 0 too where none is that of the day.
    fn days_to_named_place(&self, start: NaiveDate, day: NaiveDate) -> i64
        requires { lacks_positions self.now ≡ false }
        ensures passed { PassedOver (is_member self.now start) day (day +ℤ result) }
        ensures low { pos 0 ≤ℤ result }
        ensures high { result ≤ℤ pos 366 }
    {
        if self.frequency == Frequency::Daily {
            // The one day of the period is looked at by itself.
            return 0;
        }
        let before = self.passing_before(start, day);
        if before < last_place(&self.positions) {
            return self.days_to_position(start, day, before);
        }
        let end = self.to_period_end(day);
        if i64::from(day.num_days_from_ce()) + end > i64::from(PAST_LAST_DAY) {
            // The calendar ends within the period.
            return self.days_to_position(start, day, before);
        }
        self.days_to_place_from_end(start, day, end)
    }
}

// A number above which the set has none.
fn last_place(set: &PlaceSet) -> u32
    ensures none { (k : ℕ) → result < k → has set.now k ≡ false }
    ensures few { result < 384 }
{
    set.last().unwrap_or(0)
}

// Whether the set has the number, which may be larger than all that a set can have.
#[inline]
fn has_place(set: &PlaceSet, number: u32) -> bool
    ensures { result ≡ has set.now number }
{
    if number >= 384 {
        let last = last_place(set);
        prove!(last < number);
        return false;
    }
    set.contains(number)
}
