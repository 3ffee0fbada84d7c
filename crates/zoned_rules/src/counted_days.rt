//! The instances of a rule, counted by whole days.
//!
//! Where a clock keeps its offset, each local time stands for one instant. Where INTERVAL counts the same units on each day, each day of the
//! rule of days has as many times. So a day costs one addition.
ghost use Rattle.std.specs.Prelude.{◌≡◌, ◌≤◌, ◌<◌, ℤ, true, pos, neg_ℤ, ◌+ℤ◌, ◌≤ℤ◌, ◌<ℤ◌, IfNone, IfSome};
ghost use Rattle.chrono_datetime.specs.Days.{IsDate};
ghost use Rattle.chrono_datetime.specs.PassedOver.{PassedBetween, PassedUpTo};
ghost use Rattle.chrono_datetime.specs.Recurrence.{count_between};
ghost use Rattle.chrono_instant.specs.Instants.{IsEpochSecond};
ghost use Rattle.chrono_instant.specs.Offsets.{IsOffset};
ghost use Rattle.chrono_rules.specs.Instances.{is_instance};
ghost use Rattle.zoned_rules.specs.LocalTimes.{is_counted_time};
ghost use Rattle.zoned_rules.specs.Private.{AreBehind, AreWholeDays, count_below};
ghost use Rattle.zoned_rules.specs.Recurs.{Recurs};

use crate::bound::{LAST_SECOND, earlier_of};
use crate::clock_steps::DAY;
use crate::local_rule::LocalRule;
use crate::search::days::beginning;
use crate::zoned_rule::ZonedRule;
use chrono_datetime::{Datelike, NaiveDate, NaiveDateTime, Timelike};
use chrono_instant::{FromTimestamp, Timestamp};
use chrono_zoned::TimeZone;

// The seconds of three days.
const THREE_DAYS: i64 = 259_200;

// The longest step over days, which no two dates lie twice apart, and one so short that a walk serves as well.
const LONGEST_STEP: u32 = 134_217_728;

const SHORTEST_STEP: u32 = 1_000;

// Instances that lie behind a second, up to another.
#[derive(Drop)]
pub(crate) struct Counted {
    // How many they are.
    pub(crate) seen: u32,
    // Up to which second.
    pub(crate) second: i64,
}

// Days of the rule of days that lie behind a day, up to another.
#[derive(Drop)]
struct CountedDays {
    seen: u32,
    last: NaiveDate,
}

// Whole days of a clock that keeps its offset: those behind one day, up to another.
#[derive(Drop)]
struct WholeDays {
    offset: i64,
    before: NaiveDate,
    last: NaiveDate,
}

impl LocalRule {
    // How many times each day has, if INTERVAL counts the same units on each day.
    pub(crate) fn times_of_each_day(&self) -> Option<u32>
        ensures value { IfSome result (λ n. (d : ℤ) → count_below (is_counted_time self.now d) 86_400 ≡ n) }
    {
        if self.steps.common_interval() < self.steps.step() {
            return None;
        }
        Some(self.count_times(self.start.date()))
    }

    // How many times a day has.
    fn count_times(&self, date: NaiveDate) -> u32
        ensures value { result ≡ count_below (is_counted_time self.now date) 86_400 }
    {
        let mut from = 0;
        let mut count = 0;
        while let Some(second) = self.first_time(date, from) {
            from = second + 1;
            count += 1;
        }
        count
    }

    // The days of the rule of days behind a day and up to another, at most so many.
    fn count_days(&self, day: NaiveDate, end: NaiveDate, most: u32) -> CountedDays
        requires first { IsDate day }
        requires last { IsDate end }
        requires order { day ≤ℤ end }
        ensures order { day ≤ℤ result.last }
        ensures within { result.last ≤ℤ end }
        ensures value { result.seen ≡ count_between (is_instance self.now.days self.now.start.date) (day +ℤ pos 1) (result.last +ℤ pos 1) }
        ensures few { result.seen ≤ most }
    {
        let passed = self.pass_days(day, end, most);
        let mut last = passed.last;
        let mut seen = passed.seen;
        while seen < most {
            let Some(next) = self.next_up_to(last, end) else {
                return CountedDays { seen, last: end };
            };
            last = next;
            seen += 1;
        }
        CountedDays { seen, last }
    }

    // Days of the rule of days behind a day and up to another, at most so many, as far as steps of halves come: all but some of the last thousand days.
    fn pass_days(&self, day: NaiveDate, end: NaiveDate, most: u32) -> CountedDays
        requires first { IsDate day }
        requires order { day ≤ℤ end }
        ensures order { day ≤ℤ result.last }
        ensures within { result.last ≤ℤ end }
        ensures value { result.seen ≡ count_between (is_instance self.now.days self.now.start.date) (day +ℤ pos 1) (result.last +ℤ pos 1) }
        ensures few { result.seen ≤ most }
    {
        let mut last = day;
        let mut seen = 0;
        let mut step = LONGEST_STEP;
        while step > SHORTEST_STEP {
            if let Some(further) = self.count_further(day, last, i64::from(step), end, most) {
                last = further.last;
                seen = further.seen;
            }
            step /= 2;
        }
        CountedDays { seen, last }
    }

    // The days of the rule of days behind a day and up to so many days later than another one, if they are at most so many and end in time.
    fn count_further(
        &self,
        day: NaiveDate,
        last: NaiveDate,
        later: i64,
        end: NaiveDate,
        most: u32,
    ) -> Option<CountedDays>
        requires first { IsDate day }
        requires order { day ≤ℤ last }
        requires later { pos 0 ≤ℤ later }
        ensures order { IfSome result (λ c. day ≤ℤ c.last) }
        ensures within { IfSome result (λ c. c.last ≤ℤ end) }
        ensures value { IfSome result (λ c. c.seen ≡ count_between (is_instance self.now.days self.now.start.date) (day +ℤ pos 1) (c.last +ℤ pos 1)) }
        ensures few { IfSome result (λ c. c.seen ≤ most) }
    {
        let start = self.start.date();
        let next = last.moved_by_days(later)?;
        if end < next || day.num_days_from_ce() + 1 < start.num_days_from_ce() {
            return None;
        }
        let seen = self.days.count_to(start, next) - self.days.count_to(start, day);
        if most < seen {
            return None;
        }
        Some(CountedDays { seen, last: next })
    }

    // The first day of the rule of days behind a day and up to another.
    fn next_up_to(&self, day: NaiveDate, end: NaiveDate) -> Option<NaiveDate>
        requires first { IsDate day }
        requires last { IsDate end }
        ensures instance { IfSome result (λ e. is_instance self.now.days self.now.start.date e ≡ true) }
        ensures later { IfSome result (λ e. day <ℤ e) }
        ensures within { IfSome result (λ e. e ≤ℤ end) }
        ensures least { IfSome result (λ e. PassedBetween (is_instance self.now.days self.now.start.date) day e) }
        ensures none { IfNone result (PassedUpTo (is_instance self.now.days self.now.start.date) day end) }
    {
        let next = self.days.next_after(self.start.date(), day)?;
        if end < next {
            return None;
        }
        Some(next)
    }
}

impl<Z: TimeZone> ZonedRule<Z> {
    // The first instances behind a second, at most so many: the first alone, or those of whole days, where more are left.
    //
    // `next` is the first of them, and each day has so many times, if they are known.
    pub(crate) fn count_on(&self, second: i64, next: i64, times: Option<u32>, most: u32) -> Counted
        requires low { neg_ℤ (pos 8_334_601_228_801) ≤ℤ second }
        requires later { second <ℤ next }
        requires recurs { Recurs self.now.local (Z.ahead self.now.zone) next }
        requires least { (u : ℤ) → second <ℤ u → Recurs self.now.local (Z.ahead self.now.zone) u → next ≤ℤ u }
        requires times { IfSome times (λ n. (d : ℤ) → count_below (is_counted_time self.now.local d) 86_400 ≡ n) }
        requires some { 0 < most }
        ensures value { AreBehind (Recurs self.now.local (Z.ahead self.now.zone)) result.seen second result.second }
        ensures some { 0 < result.seen }
        ensures few { result.seen ≤ most }
        ensures low { neg_ℤ (pos 8_334_601_228_801) ≤ℤ result.second }
        ensures high { result.second ≤ℤ pos 8_210_266_876_799 }
    {
        if let Some(counted) = self.count_whole_days(second, next, times, most - 1) {
            return counted;
        }
        Counted {
            seen: 1,
            second: next,
        }
    }

    // The instances of whole days behind a second, from the day of the first instance on. Else none.
    fn count_whole_days(
        &self,
        second: i64,
        next: i64,
        times: Option<u32>,
        most: u32,
    ) -> Option<Counted>
        requires low { neg_ℤ (pos 8_334_601_228_801) ≤ℤ second }
        requires date { IsEpochSecond next }
        requires least { (u : ℤ) → second <ℤ u → Recurs self.now.local (Z.ahead self.now.zone) u → next ≤ℤ u }
        requires times { IfSome times (λ n. (d : ℤ) → count_below (is_counted_time self.now.local d) 86_400 ≡ n) }
        ensures value { IfSome result (λ c. AreBehind (Recurs self.now.local (Z.ahead self.now.zone)) c.seen second c.second) }
        ensures some { IfSome result (λ c. 0 < c.seen) }
        ensures few { IfSome result (λ c. c.seen ≤ most) }
        ensures low { IfSome result (λ c. neg_ℤ (pos 8_334_601_228_801) ≤ℤ c.second) }
        ensures high { IfSome result (λ c. c.second ≤ℤ pos 8_210_266_876_799) }
    {
        let times = times?;
        if times == 0 {
            return None;
        }
        let whole = self.held_days(second, next)?;
        let days = self
            .local
            .count_days(whole.before, whole.last, most / times);
        if days.seen == 0 {
            return None;
        }
        Some(Counted {
            seen: times * days.seen,
            second: beginning(days.last, DAY - 1).timestamp() - whole.offset,
        })
    }

    // The whole days from that of `next` on in which the clock keeps its offset, if they begin behind a second, and no earlier than the start.
    fn held_days(&self, second: i64, next: i64) -> Option<WholeDays>
        requires low { neg_ℤ (pos 8_334_601_228_801) ≤ℤ second }
        requires date { IsEpochSecond next }
        ensures days { IfSome result (λ w. AreWholeDays self.now.local (Z.ahead self.now.zone) second next w.offset w.before w.last) }
        ensures offset { IfSome result (λ w. IsOffset w.offset) }
    {
        let stretch = self.zone.stretch_from(next - THREE_DAYS);
        let offset = i64::from(stretch.offset.local_minus_utc());
        let local = NaiveDateTime::from_timestamp(next + offset, 0)?;
        let begin = next - i64::from(local.num_seconds_from_midnight());
        let start = self.local.start();
        if begin <= second || begin < self.start_second() || begin + offset < start.timestamp() {
            return None;
        }
        let end = earlier_of(earlier_of(stretch.until, LAST_SECOND) + offset, LAST_SECOND);
        let before = local.date().pred_opt()?;
        let last = NaiveDateTime::from_timestamp(end, 0)?.date().pred_opt()?;
        if last < before {
            return None;
        }
        Some(WholeDays {
            offset,
            before,
            last,
        })
    }
}
