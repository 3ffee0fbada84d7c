//! The distance to the next period that INTERVAL counts.
ghost use Rattle.std.specs.Prelude.{◌≡◌, ◌<◌, ◌≤ℤ◌, ◌<ℤ◌, ◌+ℤ◌, ℤ, ℕ, neg_ℤ, pos, true, false};
ghost use Rattle.chrono_datetime.specs.PassedOver.{PassedOver};
ghost use Rattle.chrono_rules.specs.Instances.{in_interval, is_member};
ghost use Rattle.chrono_rules.specs.Periods.{period_of};

use crate::rule::{Frequency, Rule};
use crate::search::periods::remainder;
use crate::search::skipped_days::days_to_month;
use chrono_datetime::{Datelike, NaiveDate};

impl Rule {
    // The number of the start's period, or 0 where every period counts.
    #[inline]
    pub(crate) fn period_of_start(&self, start: NaiveDate) -> i64
        ensures value { 1 < self.now.interval → result ≡ period_of self.now.frequency self.now.week_start start }
        ensures low { neg_ℤ (pos 100_000_000) ≤ℤ result }
        ensures high { result ≤ℤ pos 100_000_000 }
    {
        if self.interval <= 1 {
            0
        } else {
            self.period_of(start)
        }
    }

    // How many periods from that of the day on are none that counts. `first` is the number of the start's period.
    #[inline]
    #[tactic(auto, unfolding(crate::specs::Instances::in_interval))]
    fn periods_left_out(&self, start: NaiveDate, first: i64, day: NaiveDate) -> i64
        requires first { 1 < self.now.interval → first ≡ period_of self.now.frequency self.now.week_start start }
        requires low { neg_ℤ (pos 100_000_000) ≤ℤ first }
        requires high { first ≤ℤ pos 100_000_000 }
        ensures left_out { (d : ℤ) (j : ℕ) → pos j <ℤ result →
            period_of self.now.frequency self.now.week_start d ≡ period_of self.now.frequency self.now.week_start day +ℤ pos j →
            is_member self.now start d ≡ false }
        ensures counts { result ≡ pos 0 → in_interval self.now start day ≡ true }
        ensures low { pos 0 ≤ℤ result }
        ensures high { result ≤ℤ pos 5_000_000_000 }
    {
        if self.interval <= 1 {
            return 0;
        }
        let step = self.step();
        let behind = remainder(self.periods_apart(first, day), step);
        if behind == 0 {
            return 0;
        }
        step - behind as i64
    }

    // How many days from this one on lie in periods that do not count. `first` is the number of the start's period.
    pub(crate) fn passed_by_interval(&self, start: NaiveDate, first: i64, day: NaiveDate) -> i64
        requires first { 1 < self.now.interval → first ≡ period_of self.now.frequency self.now.week_start start }
        requires low { neg_ℤ (pos 100_000_000) ≤ℤ first }
        requires high { first ≤ℤ pos 100_000_000 }
        ensures passed { PassedOver (is_member self.now start) day (day +ℤ result) }
        ensures counts { result ≡ pos 0 → in_interval self.now start day ≡ true }
        ensures low { pos 0 ≤ℤ result }
        ensures high { result ≤ℤ pos 50_000_000_000 }
    {
        let periods = self.periods_left_out(start, first, day);
        if periods == 0 {
            return 0;
        }
        self.days_to_period(day, periods)
    }

    // How many days from this one on lie before the period that is so many periods later. By months and years they are all that are left if
    // the calendar has none.
    #[tactic(auto, unfolding(crate::specs::Periods::period_of))]
    fn days_to_period(&self, day: NaiveDate, periods: i64) -> i64
        requires some { pos 0 <ℤ periods }
        requires few { periods ≤ℤ pos 5_000_000_000 }
        ensures earlier { (d : ℤ) → day ≤ℤ d → d <ℤ (day +ℤ result) →
            period_of self.now.frequency self.now.week_start d <ℤ (period_of self.now.frequency self.now.week_start day +ℤ periods) }
        ensures low { pos 0 <ℤ result }
        ensures high { result ≤ℤ pos 50_000_000_000 }
    {
        match self.frequency {
            Frequency::Daily => periods,
            Frequency::Weekly => {
                7 * periods - i64::from(day.weekday().days_since(self.week_start))
            }
            Frequency::Monthly => days_to_month(day, periods),
            Frequency::Yearly => days_to_month(day, 12 * periods - i64::from(day.month() - 1)),
        }
    }
}
