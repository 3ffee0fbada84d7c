//! Two calendars as one.
ghost use Rattle.std.specs.Prelude.{◌≡◌, ◌≤◌, ◌&&◌, ◌⊎◌, ℤ, true, length, IfSome, IfNone};
ghost use Rattle.chrono_datetime.specs.WeekdaySet.{union};
ghost use Rattle.chrono_business.specs.OpenDays.{is_holiday, is_open, is_workday};
ghost use Rattle.chrono_business.specs.HolidayLists.{AreTooMany};

use crate::calendar::Calendar;
use crate::holiday_list::insert_all;
use chrono_datetime::NaiveDate;

impl<'a> Calendar<'a> {
    /// Returns the calendar that is open on the days on which both `self` and `other` are open.
    ///
    /// It writes the holidays at the beginning of `out`. Returns `None` if `out` is too short for them.
    ///
    /// ```
    /// use chrono_datetime::{NaiveDate, Weekday, WeekdaySet};
    /// let saturdays = Calendar::new(WeekdaySet::from_array([Weekday::Sat]), &[]);
    /// let sundays = Calendar::new(WeekdaySet::from_array([Weekday::Sun]), &[]);
    /// let joined = saturdays.joined(&sundays, &mut [])?;
    /// joined.next_open(NaiveDate::from_ymd_opt(2024, 3, 30)?) // Some(2024-04-01)
    /// ```
    pub fn joined<'b>(&self, other: &Calendar<'_>, out: &'b mut [NaiveDate]) -> Option<Calendar<'b>>
        ensures weekend { IfSome result (λ c. c.weekend ≡ union self.now.weekend other.now.weekend) }
        ensures open { IfSome result (λ c. (d : ℤ) →
            is_open c d ≡ (is_open self.now d && is_open other.now d)) }
        ensures room { IfSome result (λ c. length c.holidays ≤ length out.old) }
        ensures none { IfNone result (AreTooMany (λ d.
            ((is_holiday self.now.holidays d ≡ true) ⊎ (is_holiday other.now.holidays d ≡ true)) ×
            (is_workday (union self.now.weekend other.now.weekend) d ≡ true)) (length out.old)) }
    {
        let weekend = self.week.weekend().union(other.week.weekend());
        let days = self.holidays.as_slice();
        let other_days = other.holidays.as_slice();
        let own = insert_all(weekend, days, out, 0)?;
        let all = insert_all(weekend, other_days, out, own)?;
        Some(Calendar::new(weekend, &out[..all]))
    }
}
