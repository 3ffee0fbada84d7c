//! Moving closed dates to open days.
ghost use Rattle.std.specs.Prelude.{◌≡◌, ℤ, IfSome, IfNone};
ghost use Rattle.chrono_datetime.specs.Days.{IsDate};
ghost use Rattle.chrono_business.specs.Rolls.{RollsTo};
ghost use Rattle.chrono_business.specs.declared.roll.Roll.TheVariants.{ModifiedFollowing, ModifiedPreceding, NearestIsda, NearestQuantLib};

use crate::calendar::Calendar;
use crate::roll::Roll;
use chrono_datetime::{Datelike, LAST_DAY, NaiveDate, Weekday, WeekdaySet};

impl<'a> Calendar<'a> {
    /// Returns the date that `date` moves to by `roll`. An open date stays.
    ///
    /// Returns `None` if there is no such open day in the calendar.
    ///
    /// ```
    /// use chrono_datetime::{NaiveDate, Weekday, WeekdaySet};
    /// let calendar = Calendar::new(WeekdaySet::from_array([Weekday::Sat, Weekday::Sun]), &[]);
    /// let saturday = NaiveDate::from_ymd_opt(2024, 3, 30)?;
    /// calendar.roll(saturday, Roll::Following) // Some(2024-04-01)
    /// calendar.roll(saturday, Roll::ModifiedFollowing) // Some(2024-03-29)
    /// calendar.roll(saturday.succ_opt()?, Roll::NearestIsda) // Some(2024-04-01)
    /// ```
    pub fn roll(&self, date: NaiveDate, roll: Roll) -> Option<NaiveDate>
        ensures exists { IfSome result (λ e. IsDate e) }
        ensures rolled { IfSome result (λ e. RollsTo self.now roll date e) }
        ensures none { IfNone result ((e : ℤ) → IsDate e → ¬ RollsTo self.now roll date e) }
    {
        match roll {
            Roll::Unadjusted => {
                prove!(date.num_days_from_ce() <= LAST_DAY);
                Some(date)
            }
            Roll::Following => self.next_open(date),
            Roll::Preceding => self.last_open(date),
            Roll::ModifiedFollowing => self.modified_following(date),
            Roll::ModifiedPreceding => self.modified_preceding(date),
            Roll::NearestIsda => self.nearest_isda(date),
            Roll::NearestQuantLib => self.nearest_open(date),
        }
    }

    // The next open day, or the last one where the rest of the month is closed.
    fn modified_following(&self, date: NaiveDate) -> Option<NaiveDate>
        ensures exists { IfSome result (λ e. IsDate e) }
        ensures rolled { IfSome result (λ e. RollsTo self.now ModifiedFollowing date e) }
        ensures none { IfNone result ((e : ℤ) → IsDate e → ¬ RollsTo self.now ModifiedFollowing date e) }
    {
        match self.next_open_in_month(date) {
            Some(next) => Some(next),
            None => self.last_open(date),
        }
    }

    // The last open day, or the next one where the month up to the date is closed.
    fn modified_preceding(&self, date: NaiveDate) -> Option<NaiveDate>
        ensures exists { IfSome result (λ e. IsDate e) }
        ensures rolled { IfSome result (λ e. RollsTo self.now ModifiedPreceding date e) }
        ensures none { IfNone result ((e : ℤ) → IsDate e → ¬ RollsTo self.now ModifiedPreceding date e) }
    {
        match self.last_open_in_month(date) {
            Some(last) => Some(last),
            None => self.next_open(date),
        }
    }

    // The next open day from a Sunday or a Monday on, and the last one up to any other day.
    fn nearest_isda(&self, date: NaiveDate) -> Option<NaiveDate>
        ensures exists { IfSome result (λ e. IsDate e) }
        ensures rolled { IfSome result (λ e. RollsTo self.now NearestIsda date e) }
        ensures none { IfNone result ((e : ℤ) → IsDate e → ¬ RollsTo self.now NearestIsda date e) }
    {
        let onward = WeekdaySet::from_array([Weekday::Sun, Weekday::Mon]);
        if onward.contains(date.weekday()) {
            self.next_open(date)
        } else {
            self.last_open(date)
        }
    }

    // The open day that is nearest, and of two the later.
    fn nearest_open(&self, date: NaiveDate) -> Option<NaiveDate>
        ensures exists { IfSome result (λ e. IsDate e) }
        ensures rolled { IfSome result (λ e. RollsTo self.now NearestQuantLib date e) }
        ensures none { IfNone result ((e : ℤ) → IsDate e → ¬ RollsTo self.now NearestQuantLib date e) }
    {
        let Some(last) = self.last_open(date) else {
            return self.next_open(date);
        };
        let Some(next) = self.next_open(date) else {
            return Some(last);
        };
        let (before, after) = (last.num_days_from_ce(), next.num_days_from_ce());
        let number = date.num_days_from_ce();
        if after - number <= number - before {
            Some(next)
        } else {
            Some(last)
        }
    }
}
