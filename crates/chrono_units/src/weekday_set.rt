//! Sets of weekdays, stored as seven binary digits.

ghost use Rattle.std.specs.Prelude.{◌≡◌, ◌↔◌, ℕ, ◌^◌, ◌<◌, ◌==◌, IsTrue, false, not, length, List, IfSome};
ghost use Rattle.std.specs.Cmp.{partial_order_from_own_ties};
ghost use Rattle.std.specs.Cmp.Rules.{comparing, hashing};
ghost use Rattle.std.specs.Hash as hash;
ghost use Rattle.std.specs.Iterator.{IsFinite};
ghost use Rattle.std.specs.Iterator.Runs.{WholeRun};
ghost use Rattle.std.specs.Ordering.{as_partial_cmp, nat_cmp, on};
ghost use Rattle.std.proofs.Common.{rules};
ghost use Rattle.chrono_units.specs.SetDigits.{set_at};
ghost use Rattle.chrono_units.specs.Weekday.{days_from_monday};
ghost use Rattle.chrono_units.specs.WeekdaySet as set;
ghost use Rattle.chrono_units.specs.WeekdaySet.{set_number, walk, weekday_after};

use crate::weekday::Weekday;
use crate::weekday_set_iter::WeekdaySetIter;
use std::cmp::Ordering;
use std::hash::{Hash, Hasher};
use std::marker::Model;

/// A set of weekdays.
///
/// Contracts see it as a record that says for each day whether it is a member. Sets compare by a number of seven binary
/// digits, one for each day, with Monday's as the lowest. So {Sun} is 64, and is greater than the set of all other
/// days, which is 63. `{:?}` prints these digits.
#[derive(Clone, Copy)]
pub struct WeekdaySet {
    // The set's number, whose digit 7 is always 0.
    digits: u8,
}

impl Model for WeekdaySet {
    ghost use Rattle.std.specs.Prelude.{ℕ, ◌<◌};
    ghost use Rattle.chrono_units.specs.WeekdaySet.{DaySet, set_number};
    ghost use Rattle.chrono_units.specs.SetDigits.{set_at, set_number-set_at};
    ghost use Rattle.std.proofs.Common.{ap};

    ghost Value = { DaySet };

    ghost view = { λ s. set_at s.digits };

    ghost invariant = { λ s. s.digits < 128 };

    ghost inverse = { λ days. record { digits = set_number days } };

    ghost inverse_ok = { λ s h.
        let with_digits : ℕ → Inside = λ n. record { digits = n } in
        ap with_digits (set_number-set_at s.digits h) };
}

impl WeekdaySet {
    /// The set with no day.
    pub const EMPTY: WeekdaySet = WeekdaySet { digits: 0 };

    /// The set of all seven days.
    pub const ALL: WeekdaySet = WeekdaySet { digits: 0b111_1111 };

    /// Returns the set of the days in the array `days`.
    ///
    /// ```
    /// WeekdaySet::from_array([Weekday::Mon, Weekday::Thu]) // WeekdaySet(0001001)
    /// ```
    pub fn from_array<const C: usize>(days: [Weekday; C]) -> WeekdaySet
        ensures { result ≡ set.set_of days.entry }
    {
        let mut members = WeekdaySet::EMPTY;
        for day in days {
            members.insert(day);
        }
        members
    }

    /// Returns the set of the days that the iterator `iter` yields. The iterator must end.
    ///
    /// Use it in place of `collect`, which needs an allocator.
    ///
    /// ```
    /// WeekdaySet::from_iter([Weekday::Sun, Weekday::Mon].into_iter()) // WeekdaySet(1000001)
    /// ```
    pub fn from_iter<I: Iterator<Item = Weekday>>(iter: I) -> WeekdaySet
        requires callable { I.can_next iter }
        requires ends { IsFinite (I.remaining iter) }
        // The run of the iterator to its end gives some days, and the answer is the set of these.
        ensures { WholeRun I.next_gives iter (λ run. result ≡ set.set_of run.items) }
    {
        let mut members = WeekdaySet::EMPTY;
        for day in iter {
            members.insert(day);
        }
        members
    }

    /// Returns the set of one day, `weekday`.
    ///
    /// ```
    /// WeekdaySet::single(Weekday::Tue) // WeekdaySet(0000010)
    /// ```
    #[inline]
    pub fn single(weekday: Weekday) -> WeekdaySet
        ensures { result ≡ set.single weekday }
    {
        WeekdaySet {
            digits: digit(weekday),
        }
    }

    /// Returns the only member of the set.
    ///
    /// Returns `None` if the set is empty or has more than one member.
    ///
    /// ```
    /// WeekdaySet::single(Weekday::Tue).single_day() // Some(Tue)
    /// WeekdaySet::ALL.single_day() // None
    /// ```
    #[inline]
    pub fn single_day(self) -> Option<Weekday>
        // A day is answered exactly if the set has that day alone.
        ensures { (d : Weekday) → (result ≡ Some d) ↔ (self ≡ set.single d) }
    {
        if self.digits.count_ones() == 1 {
            self.first()
        } else {
            None
        }
    }

    /// Adds `day`. Returns whether that changed the set.
    ///
    /// ```
    /// let mut set = WeekdaySet::EMPTY;
    /// set.insert(Weekday::Mon) // true
    /// set.insert(Weekday::Mon) // false
    /// ```
    #[inline]
    pub fn insert(&mut self, day: Weekday) -> bool
        ensures is_new { result ≡ not (set.contains self.old day) }
        // False stands exactly for a set that stays as it was.
        ensures changed { (result ≡ false) ↔ (self.new ≡ self.old) }
        ensures after { self.new ≡ set.union self.old (set.single day) }
    {
        let is_new = !self.contains(day);
        *self = self.union(WeekdaySet::single(day));
        is_new
    }

    /// Removes `day`. Returns whether that changed the set.
    ///
    /// ```
    /// let mut set = WeekdaySet::ALL;
    /// set.remove(Weekday::Sun) // true
    /// set // WeekdaySet(0111111)
    /// ```
    #[inline]
    pub fn remove(&mut self, day: Weekday) -> bool
        ensures was_member { result ≡ set.contains self.old day }
        // False stands exactly for a set that stays as it was.
        ensures changed { (result ≡ false) ↔ (self.new ≡ self.old) }
        ensures after { self.new ≡ set.difference self.old (set.single day) }
    {
        let was_member = self.contains(day);
        *self = self.difference(WeekdaySet::single(day));
        was_member
    }

    /// Returns whether every day of this set is in `other`.
    ///
    /// ```
    /// let weekend = WeekdaySet::from_array([Weekday::Sat, Weekday::Sun]);
    /// WeekdaySet::single(Weekday::Sun).is_subset(weekend) // true
    /// ```
    #[inline]
    pub fn is_subset(self, other: WeekdaySet) -> bool
        ensures { IsTrue result ↔ set.IsSubset self other }
    {
        self.difference(other).is_empty()
    }

    /// Returns the days that are in both sets.
    ///
    /// ```
    /// let weekend = WeekdaySet::from_array([Weekday::Sat, Weekday::Sun]);
    /// weekend.intersection(WeekdaySet::single(Weekday::Sun)) // WeekdaySet(1000000)
    /// ```
    #[inline]
    pub fn intersection(self, other: WeekdaySet) -> WeekdaySet
        ensures { result ≡ set.intersection self other }
    {
        WeekdaySet {
            digits: self.digits & other.digits,
        }
    }

    /// Returns the days that are in this set, in `other` or in both.
    ///
    /// ```
    /// WeekdaySet::single(Weekday::Mon).union(WeekdaySet::single(Weekday::Tue)) // WeekdaySet(0000011)
    /// ```
    #[inline]
    pub fn union(self, other: WeekdaySet) -> WeekdaySet
        ensures { result ≡ set.union self other }
    {
        WeekdaySet {
            digits: self.digits | other.digits,
        }
    }

    /// Returns the days that are in exactly one of the two sets.
    ///
    /// ```
    /// let weekend = WeekdaySet::from_array([Weekday::Sat, Weekday::Sun]);
    /// weekend.symmetric_difference(WeekdaySet::single(Weekday::Sun)) // WeekdaySet(0100000)
    /// ```
    #[inline]
    pub fn symmetric_difference(self, other: WeekdaySet) -> WeekdaySet
        ensures { result ≡ set.symmetric_difference self other }
    {
        WeekdaySet {
            digits: self.digits ^ other.digits,
        }
    }

    /// Returns the days of this set that are not in `other`.
    ///
    /// ```
    /// WeekdaySet::ALL.difference(WeekdaySet::single(Weekday::Sun)) // WeekdaySet(0111111)
    /// ```
    #[inline]
    pub fn difference(self, other: WeekdaySet) -> WeekdaySet
        ensures { result ≡ set.difference self other }
    {
        WeekdaySet {
            digits: self.digits & !other.digits,
        }
    }

    /// Returns the first day of the set, in the order Monday to Sunday.
    ///
    /// Returns `None` if the set is empty.
    ///
    /// ```
    /// WeekdaySet::from_array([Weekday::Sun, Weekday::Tue]).first() // Some(Tue)
    /// WeekdaySet::EMPTY.first() // None
    /// ```
    #[inline]
    pub fn first(self) -> Option<Weekday>
        ensures { result ≡ set.first_day (walk self Weekday.Mon) }
    {
        lowest_day(self.digits)
    }

    /// Returns the last day of the set, in the order Monday to Sunday.
    ///
    /// Returns `None` if the set is empty.
    ///
    /// ```
    /// WeekdaySet::from_array([Weekday::Sun, Weekday::Tue]).last() // Some(Sun)
    /// WeekdaySet::EMPTY.last() // None
    /// ```
    #[inline]
    pub fn last(self) -> Option<Weekday>
        ensures { result ≡ set.last_day (walk self Weekday.Mon) }
    {
        highest_day(self.digits)
    }

    /// Returns an iterator over the members, in the order of the week from `start`. Monday follows Sunday.
    ///
    /// ```
    /// let mut days = WeekdaySet::from_array([Weekday::Mon, Weekday::Thu, Weekday::Sun]).iter(Weekday::Wed);
    /// (days.next(), days.next(), days.next(), days.next()) // (Some(Thu), Some(Sun), Some(Mon), None)
    /// ```
    #[inline]
    pub fn iter(self, start: Weekday) -> WeekdaySetIter
        ensures { result ≡ walk self start }
    {
        WeekdaySetIter::new(self, start)
    }

    /// Returns how many days pass from `from` until the first member: 0 to 6. A member itself has 0.
    ///
    /// Returns `None` if the set is empty.
    ///
    /// ```
    /// let set = WeekdaySet::from_array([Weekday::Tue, Weekday::Thu]);
    /// set.days_until(Weekday::Sat) // Some(3)
    /// WeekdaySet::EMPTY.days_until(Weekday::Sat) // None
    /// ```
    #[inline]
    pub fn days_until(self, from: Weekday) -> Option<u32>
        ensures days { result ≡ set.days_until self from }
        ensures none { (result ≡ None) ↔ (self ≡ set.no_days) }
        ensures within { IfSome result (λ n. n < 7) }
        // The day that many days on is a member, and none before it is.
        ensures member { IfSome result (λ n. IsTrue (set.contains self (weekday_after from n))) }
        ensures least { IfSome result (λ n. (k : ℕ) → k < n →
            set.contains self (weekday_after from k) ≡ false) }
    {
        if self.is_empty() {
            return None;
        }
        // Two weeks in a row, of which the first day is `from`.
        let ahead = (u32::from(self.digits) * 0b1000_0001) >> from.num_days_from_monday();
        Some(ahead.trailing_zeros())
    }

    /// Returns whether `day` is in the set.
    ///
    /// ```
    /// WeekdaySet::single(Weekday::Tue).contains(Weekday::Tue) // true
    /// ```
    #[inline]
    pub fn contains(self, day: Weekday) -> bool
        ensures { result ≡ set.contains self day }
    {
        self.digits & digit(day) != 0
    }

    /// Returns whether the set has no day.
    ///
    /// ```
    /// WeekdaySet::EMPTY.is_empty() // true
    /// ```
    #[inline]
    pub fn is_empty(self) -> bool
        ensures { IsTrue result ↔ (self ≡ set.no_days) }
    {
        self.digits == 0
    }

    /// Returns the number of days in the set: 0 to 7.
    ///
    /// ```
    /// WeekdaySet::from_array([Weekday::Tue, Weekday::Thu, Weekday::Tue]).len() // 2
    /// ```
    #[inline]
    pub fn len(self) -> u8
        ensures { result ≡ length (walk self Weekday.Mon) }
    {
        self.digits.count_ones() as u8
    }
}

impl WeekdaySet {
    // The first member in week order from `start` on.
    #[inline]
    pub(crate) fn first_from(self, start: Weekday) -> Option<Weekday>
        ensures { result ≡ set.first_day (walk self start) }
    {
        let later = self.digits & !(digit(start) - 1);
        if later == 0 {
            self.first()
        } else {
            lowest_day(later)
        }
    }

    // The last member in week order from `start` on, so the last one before the next `start`.
    #[inline]
    pub(crate) fn last_before(self, start: Weekday) -> Option<Weekday>
        ensures { result ≡ set.last_day (walk self start) }
    {
        let earlier = self.digits & (digit(start) - 1);
        if earlier == 0 {
            self.last()
        } else {
            highest_day(earlier)
        }
    }
}

impl Default for WeekdaySet {
    ghost is_default = { λ days. days ≡ set.no_days };

    /// Returns the set with no day.
    #[inline]
    fn default() -> WeekdaySet {
        Self::EMPTY
    }
}

impl PartialEq for WeekdaySet {
    ghost eq = { on set_number ◌==◌ };

    ghost laws = { Prim.search (comparing, rules) };

    #[inline]
    fn eq(&self, other: &WeekdaySet) -> bool
        ensures same { IsTrue result ↔ (self.now ≡ other.now) }
        ensures number { result ≡ (set_number self.now == set_number other.now) }
    {
        self.digits == other.digits
    }
}

impl Eq for WeekdaySet {
    ghost laws = { Prim.search (comparing, rules) };
}

impl PartialOrd for WeekdaySet {
    ghost partial_cmp = { as_partial_cmp (on set_number nat_cmp) };

    ghost laws = { partial_order_from_own_ties
        (Prim.search (comparing, rules)) (Prim.search (comparing, rules)) };

    #[inline]
    fn partial_cmp(&self, other: &WeekdaySet) -> Option<Ordering> {
        Some(self.cmp(other))
    }
}

impl Ord for WeekdaySet {
    ghost cmp = { on set_number nat_cmp };

    ghost total = { Prim.search (comparing, rules) };

    ghost matches_partial_cmp = { Prim.search (comparing, rules) };

    ghost matches_eq = { Prim.search (comparing, rules) };

    #[inline]
    fn cmp(&self, other: &WeekdaySet) -> Ordering {
        self.digits.cmp(&other.digits)
    }
}

impl Hash for WeekdaySet {
    ghost hash_input = { λ s. hash.u8 (set_number s) };

    ghost respects_eq = { Prim.search (hashing, rules) };

    #[inline]
    fn hash<H: Hasher>(&self, state: &mut H) {
        self.digits.hash(state);
    }
}

// The binary digit of the day.
#[inline]
fn digit(day: Weekday) -> u8
    ensures { result ≡ 2 ^ days_from_monday day }
{
    1 << day.num_days_from_monday()
}

// The day of the lowest digit that is set.
#[inline]
fn lowest_day(digits: u8) -> Option<Weekday>
    requires { digits < 128 }
    ensures { result ≡ set.first_day (walk (set_at digits) Weekday.Mon) }
{
    Weekday::from_u32(digits.trailing_zeros())
}

// The day of the highest digit that is set.
#[inline]
fn highest_day(digits: u8) -> Option<Weekday>
    requires { digits < 128 }
    ensures { result ≡ set.last_day (walk (set_at digits) Weekday.Mon) }
{
    Weekday::from_u32(7u32.checked_sub(digits.leading_zeros())?)
}
