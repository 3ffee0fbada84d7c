//! Instances at a time of day: those of a rule whose start is a date-time.
ghost use Rattle.std.specs.Prelude.{◌≡◌, ◌&&◌, IsTrue, IfSome, IfNone, false};
ghost use Rattle.std.specs.Ordering.{is_lt};
ghost use Rattle.chrono_datetime.specs.Moment.{IsBefore, IsMoment, Moment};
ghost use Rattle.chrono_datetime.specs.Time.{time_cmp};
ghost use Rattle.chrono_rules.specs.Instances.{is_instance};
ghost use Rattle.chrono_rules.specs.InstanceMoments.{is_instance_at};

use crate::rule::Rule;
use chrono_datetime::NaiveDateTime;

impl Rule {
    /// Returns whether `moment` is an instance of the rule that begins at `start`.
    ///
    /// Its day is an instance, and it has the time of day of `start`.
    ///
    /// ```
    /// use chrono_datetime::{AndTime, NaiveDate};
    /// let rule = read_rule(b"FREQ=WEEKLY").ok()?;
    /// let start = NaiveDate::from_ymd_opt(2024, 1, 1)?.and_hms_opt(9, 30, 0)?;
    /// rule.is_instance_at(start, NaiveDate::from_ymd_opt(2024, 1, 8)?.and_hms_opt(9, 30, 0)?) // true
    /// rule.is_instance_at(start, NaiveDate::from_ymd_opt(2024, 1, 8)?.and_hms_opt(9, 0, 0)?) // false
    /// ```
    #[tactic(auto, unfolding(crate::specs::InstanceMoments::is_instance_at))]
    pub fn is_instance_at(&self, start: NaiveDateTime, moment: NaiveDateTime) -> bool
        ensures { result ≡ is_instance_at self.now start moment }
    {
        self.is_instance(start.date(), moment.date()) && start.time() == moment.time()
    }

    // Whether the moment's day has an instance later than the moment.
    #[inline]
    fn follows_on_day(&self, start: NaiveDateTime, moment: NaiveDateTime) -> bool
        ensures { result ≡ (is_lt (time_cmp moment.time start.time) && is_instance self.now start.date moment.date) }
    {
        moment.time() < start.time() && self.is_instance(start.date(), moment.date())
    }

    /// Returns the first instance after `moment` of the rule that begins at `start`, at the time of day of `start`.
    ///
    /// Returns `None` if there is none in the calendar.
    ///
    /// ```
    /// use chrono_datetime::{AndTime, NaiveDate};
    /// let rule = read_rule(b"FREQ=WEEKLY").ok()?;
    /// let start = NaiveDate::from_ymd_opt(2024, 1, 1)?.and_hms_opt(9, 30, 0)?;
    /// rule.next_date_time(start, start) // Some(2024-01-08T09:30:00)
    /// ```
    ///
    /// UNTIL is a whole day. An instance on that day counts at any time of day.
    pub fn next_date_time(
        &self,
        start: NaiveDateTime,
        moment: NaiveDateTime,
    ) -> Option<NaiveDateTime>
        ensures member { IfSome result (λ m. IsTrue (is_instance_at self.now start m)) }
        ensures later { IfSome result (λ m. IsBefore moment m) }
        ensures least { IfSome result (λ m. (q : Moment) → IsMoment q → IsBefore moment q → IsBefore q m →
            is_instance_at self.now start q ≡ false) }
        ensures none { IfNone result ((q : Moment) → IsMoment q → IsBefore moment q →
            is_instance_at self.now start q ≡ false) }
    {
        let date = moment.date();
        if self.follows_on_day(start, moment) {
            return Some(NaiveDateTime::new(date, start.time()));
        }
        let day = self.next_after(start.date(), date)?;
        Some(NaiveDateTime::new(day, start.time()))
    }

    // Whether the moment's day has an instance earlier than the moment.
    #[inline]
    fn precedes_on_day(&self, start: NaiveDateTime, moment: NaiveDateTime) -> bool
        ensures { result ≡ (is_lt (time_cmp start.time moment.time) && is_instance self.now start.date moment.date) }
    {
        start.time() < moment.time() && self.is_instance(start.date(), moment.date())
    }

    /// Returns the last instance before `moment` of the rule that begins at `start`, at the time of day of `start`.
    ///
    /// Returns `None` if there is none.
    ///
    /// ```
    /// use chrono_datetime::{AndTime, NaiveDate};
    /// let rule = read_rule(b"FREQ=WEEKLY").ok()?;
    /// let start = NaiveDate::from_ymd_opt(2024, 1, 1)?.and_hms_opt(9, 30, 0)?;
    /// rule.prev_date_time(start, NaiveDate::from_ymd_opt(2024, 1, 8)?.and_hms_opt(9, 30, 0)?)
    /// // Some(2024-01-01T09:30:00)
    /// ```
    ///
    /// UNTIL is a whole day. An instance on that day counts at any time of day.
    pub fn prev_date_time(
        &self,
        start: NaiveDateTime,
        moment: NaiveDateTime,
    ) -> Option<NaiveDateTime>
        ensures member { IfSome result (λ m. IsTrue (is_instance_at self.now start m)) }
        ensures earlier { IfSome result (λ m. IsBefore m moment) }
        ensures greatest { IfSome result (λ m. (q : Moment) → IsMoment q → IsBefore m q → IsBefore q moment →
            is_instance_at self.now start q ≡ false) }
        ensures none { IfNone result ((q : Moment) → IsMoment q → IsBefore q moment →
            is_instance_at self.now start q ≡ false) }
    {
        let date = moment.date();
        if self.precedes_on_day(start, moment) {
            return Some(NaiveDateTime::new(date, start.time()));
        }
        let day = self.prev_before(start.date(), date)?;
        Some(NaiveDateTime::new(day, start.time()))
    }
}
