//! Moves of a date by days, by months and by durations. Also the difference of dates, the weeks of a date, and iterators
//! from it on.
ghost use Rattle.std.specs.Prelude.{◌≡◌, ◌+◌, ◌<◌, ◌≤◌, ℤ, pos, neg_ℤ, ◌+ℤ◌, ◌-ℤ◌, ◌*ℤ◌, ◌≤ℤ◌, ◌<ℤ◌, length, min, unsigned_abs, false, Some, IsSome, IfSome, IfNone, IsSomeAnd, IsTrue, ◌↔◌};
ghost use Rattle.std.specs.Iterator.{YieldsFirst};
ghost use Rattle.std.specs.Iterator.Adapters.{take_steps};
ghost use Rattle.std.specs.Iterator.Runs.{YieldsInOrder};
ghost use Rattle.chrono_units.specs.Years.{IsYear};
ghost use Rattle.chrono_units.specs.WeekdaySet.{DaySet, IsSubset, contains, walk};
ghost use Rattle.chrono_units.specs.declared.weekday.Weekday.TheVariants.{Mon};
ghost use Rattle.chrono_clock.specs.Duration.{nanos_per_day, units_of, whole_units};
ghost use Rattle.chrono_calendar.specs.Days.{IsDate, date_of_day, day_of, year_of};
ghost use Rattle.chrono_calendar.specs.Weeks.{week_first_of, weekday_of};
ghost use Rattle.chrono_calendar.specs.MonthMoves.{MonthMovesAddUp, ComesBack, KeepsOrder, LaterMultiplesAreLater, month_index_of, month_length_of, month_move, year_of_month_index};
ghost use Rattle.chrono_calendar.specs.Recurrence.{IsLastOfFebruary, IsLeapDay, date_every, date_on, dates_left};
ghost use Rattle.chrono_calendar.specs.YearsBetween.{years_between as whole_years};
ghost use Rattle.chrono_naive.specs.DateLists.{days_from, days_taken, weeks_from, weeks_taken};

use crate::days::Days;
use crate::naive_date::NaiveDate;
use crate::naive_date_days_iterator::NaiveDateDaysIterator;
use crate::naive_date_weeks_iterator::NaiveDateWeeksIterator;
use crate::naive_week::NaiveWeek;
use chrono_calendar::ends::LAST_DAY;
use chrono_calendar::{DayForm, Steps, forms};
use chrono_clock::TimeDelta;
use chrono_units::year::is_year;
use chrono_units::{Months, Weekday, WeekdaySet};

impl NaiveDate {
    /// Returns the date `days` days later, or earlier if `days` is negative.
    ///
    /// Returns `None` if that is after [`MAX`](Self::MAX) or before [`MIN`](Self::MIN).
    ///
    /// ```
    /// NaiveDate::from_ymd_opt(2024, 2, 28)?.moved_by_days(2) // Some(2024-03-01)
    /// NaiveDate::from_ymd_opt(2024, 1, 1)?.moved_by_days(-1) // Some(2023-12-31)
    /// NaiveDate::MAX.moved_by_days(1) // None
    /// ```
    #[inline]
    pub fn moved_by_days(self, days: i64) -> Option<NaiveDate>
        ensures date { result ≡ date_of_day (self +ℤ days) }
        ensures exists { IsSome result ↔ IsDate (self +ℤ days) }
        ensures moved { IfSome result (λ e. e ≡ self +ℤ days) }
        // As many days back, the answer is the date again.
        ensures back { IfSome result (λ e. e -ℤ days ≡ self) }
        ensures in_range { IsDate self }
    {
        let mut steps = Steps::new();
        let date = self.moved_by_days_counted(days, &mut steps);
        steps.end();
        date
    }

    /// Returns the date `days` days later.
    ///
    /// Returns `None` if that is after [`MAX`](Self::MAX).
    ///
    /// ```
    /// NaiveDate::from_ymd_opt(2024, 2, 28)?.checked_add_days(Days::new(2)) // Some(2024-03-01)
    /// NaiveDate::MAX.checked_add_days(Days::new(1)) // None
    /// ```
    #[inline]
    pub fn checked_add_days(self, days: Days) -> Option<NaiveDate>
        ensures date { result ≡ date_of_day (self +ℤ pos days) }
        ensures exists { IsSome result ↔ IsDate (self +ℤ pos days) }
        ensures moved { IfSome result (λ e. e ≡ self +ℤ pos days) }
        // As many days less, the answer is the date again.
        ensures back { IfSome result (λ e. e -ℤ pos days ≡ self) }
    {
        let mut steps = Steps::new();
        let date = self.checked_add_days_counted(days, &mut steps);
        steps.end();
        date
    }

    /// Returns the date `days` days later, as [`checked_add_days`](Self::checked_add_days) does, and counts the
    /// steps in `steps`. It takes one step, whether that date exists or not.
    ///
    /// ```
    /// use chrono_calendar::Steps;
    /// let start = NaiveDate::from_ymd_opt(2024, 2, 28)?;
    /// let mut steps = Steps::new();
    /// let date = start.checked_add_days_counted(Days::new(2), &mut steps);
    /// steps.end();
    /// date // Some(2024-03-01)
    /// ```
    #[inline]
    pub fn checked_add_days_counted(self, days: Days, steps: &mut Steps) -> Option<NaiveDate>
        ensures date { result ≡ date_of_day (self +ℤ pos days) }
        ensures taken { steps.new ≡ steps.old + 1 }
        ensures kept { steps.old ≤ steps.new }
        ensures cost { steps.new ≤ steps.old + 4 }
    {
        self.moved_by_days_counted(days.clipped(), steps)
    }

    /// Returns the date `days` days earlier.
    ///
    /// Returns `None` if that is before [`MIN`](Self::MIN).
    ///
    /// ```
    /// NaiveDate::from_ymd_opt(2024, 3, 1)?.checked_sub_days(Days::new(2)) // Some(2024-02-28)
    /// NaiveDate::MIN.checked_sub_days(Days::new(1)) // None
    /// ```
    #[inline]
    pub fn checked_sub_days(self, days: Days) -> Option<NaiveDate>
        ensures date { result ≡ date_of_day (self -ℤ pos days) }
        ensures exists { IsSome result ↔ IsDate (self -ℤ pos days) }
        ensures moved { IfSome result (λ e. e ≡ self -ℤ pos days) }
        // As many days more, the answer is the date again.
        ensures back { IfSome result (λ e. e +ℤ pos days ≡ self) }
    {
        self.moved_by_days(-days.clipped())
    }

    /// Returns the next date.
    ///
    /// Returns `None` for [`MAX`](Self::MAX).
    ///
    /// ```
    /// NaiveDate::from_ymd_opt(2024, 2, 28)?.succ_opt() // Some(2024-02-29)
    /// NaiveDate::MAX.succ_opt() // None
    /// ```
    #[inline]
    pub fn succ_opt(&self) -> Option<NaiveDate>
        ensures date { result ≡ date_of_day (self.now +ℤ pos 1) }
        ensures exists { IsSome result ↔ IsDate (self.now +ℤ pos 1) }
        ensures moved { IfSome result (λ e. e ≡ self.now +ℤ pos 1) }
        // A day back, the answer is the date again.
        ensures back { IfSome result (λ e. e -ℤ pos 1 ≡ self.now) }
        ensures in_range { IfSome result (λ e. IsDate e) }
    {
        self.moved_by_days(1)
    }

    /// Returns the date before this one.
    ///
    /// Returns `None` for [`MIN`](Self::MIN).
    ///
    /// ```
    /// NaiveDate::from_ymd_opt(2024, 3, 1)?.pred_opt() // Some(2024-02-29)
    /// NaiveDate::MIN.pred_opt() // None
    /// ```
    #[inline]
    pub fn pred_opt(&self) -> Option<NaiveDate>
        ensures date { result ≡ date_of_day (self.now -ℤ pos 1) }
        ensures exists { IsSome result ↔ IsDate (self.now -ℤ pos 1) }
        ensures moved { IfSome result (λ e. e ≡ self.now -ℤ pos 1) }
        // A day on, the answer is the date again.
        ensures back { IfSome result (λ e. e +ℤ pos 1 ≡ self.now) }
        ensures in_range { IfSome result (λ e. IsDate e) }
    {
        self.moved_by_days(-1)
    }

    // The date so many days later, or earlier for a negative number, with the steps counted.
    #[inline]
    fn moved_by_days_counted(self, days: i64, steps: &mut Steps) -> Option<NaiveDate>
        ensures date { result ≡ date_of_day (self +ℤ days) }
        ensures in_range { IsDate self }
        ensures taken { steps.new ≡ steps.old + 1 }
        ensures kept { steps.old ≤ steps.new }
        ensures cost { steps.new ≤ steps.old + 4 }
    {
        // No date is past the last.
        prove!(self.day_number() <= LAST_DAY);
        Some(NaiveDate {
            form: forms::move_days(self.form, days, steps)?,
        })
    }

    /// Returns the same day `months` months later, or earlier if `months` is negative. If that month is too
    /// short, returns its last day.
    ///
    /// Returns `None` if the year would not be from -262,143 to 262,142.
    ///
    /// ```
    /// NaiveDate::from_ymd_opt(2024, 1, 31)?.moved_by_months(1) // Some(2024-02-29)
    /// NaiveDate::from_ymd_opt(2024, 3, 31)?.moved_by_months(-13) // Some(2023-02-28)
    /// NaiveDate::MAX.moved_by_months(1) // None
    /// ```
    #[inline]
    pub fn moved_by_months(self, months: i64) -> Option<NaiveDate>
        ensures date { result ≡ month_move self months }
        ensures exists { IsSome result
            ↔ IsYear (year_of_month_index (month_index_of self +ℤ months)) }
        ensures month { IfSome result (λ e. month_index_of e ≡ month_index_of self +ℤ months) }
        ensures day { IfSome result (λ e. day_of e ≡ min (day_of self) (month_length_of e)) }
        // No later date comes to lie before the answer by the same move.
        ensures order { IfSome result (λ e. KeepsOrder self months e) }
        // Moved the other way, the answer comes to the date again, or one to three days before it in its month.
        ensures back { IfSome result (λ e. ComesBack self (neg_ℤ months) e) }
        // A second move ends in the month of one move by the sum, and not later.
        ensures sum { IfSome result (λ e. MonthMovesAddUp self months e) }
        ensures in_range { IsYear (year_of self) }
    {
        prove!(is_year(self.form.year()));
        Some(NaiveDate {
            form: forms::move_months(self.form, months)?,
        })
    }

    /// Returns the same day `months` months later. If that month is too short, returns its last day.
    ///
    /// Returns `None` if the year would be after 262,142.
    ///
    /// ```
    /// NaiveDate::from_ymd_opt(2024, 1, 31)?.checked_add_months(Months::new(1)) // Some(2024-02-29)
    /// NaiveDate::MAX.checked_add_months(Months::new(1)) // None
    /// ```
    #[inline]
    pub fn checked_add_months(self, months: Months) -> Option<NaiveDate>
        ensures date { result ≡ month_move self (pos months) }
        ensures exists { IsSome result
            ↔ IsYear (year_of_month_index (month_index_of self +ℤ pos months)) }
        ensures month { IfSome result (λ e. month_index_of e ≡ month_index_of self +ℤ pos months) }
        ensures day { IfSome result (λ e. day_of e ≡ min (day_of self) (month_length_of e)) }
        // No later date comes to lie before the answer by the same move.
        ensures order { IfSome result (λ e. KeepsOrder self (pos months) e) }
        // Moved back, the answer comes to the date again, or one to three days before it in its month.
        ensures back { IfSome result (λ e. ComesBack self (neg_ℤ (pos months)) e) }
        // A second move ends in the month of one move by the sum, and not later.
        ensures sum { IfSome result (λ e. MonthMovesAddUp self (pos months) e) }
        ensures later { 0 < months → IfSome result (λ e. self <ℤ e) }
    {
        self.moved_by_months(i64::from(months.as_u32()))
    }

    /// Returns the same day `months` months earlier. If that month is too short, returns its last day.
    ///
    /// Returns `None` if the year would be before -262,143.
    ///
    /// ```
    /// NaiveDate::from_ymd_opt(2024, 3, 31)?.checked_sub_months(Months::new(1)) // Some(2024-02-29)
    /// NaiveDate::MIN.checked_sub_months(Months::new(1)) // None
    /// ```
    #[inline]
    pub fn checked_sub_months(self, months: Months) -> Option<NaiveDate>
        ensures date { result ≡ month_move self (neg_ℤ (pos months)) }
        ensures exists { IsSome result
            ↔ IsYear (year_of_month_index (month_index_of self -ℤ pos months)) }
        ensures month { IfSome result (λ e. month_index_of e ≡ month_index_of self -ℤ pos months) }
        ensures day { IfSome result (λ e. day_of e ≡ min (day_of self) (month_length_of e)) }
        // No later date comes to lie before the answer by the same move.
        ensures order { IfSome result (λ e. KeepsOrder self (neg_ℤ (pos months)) e) }
        // Moved on again, the answer comes to the date again, or one to three days before it in its month.
        ensures back { IfSome result (λ e. ComesBack self (pos months) e) }
        // A second move ends in the month of one move by the sum, and not later.
        ensures sum { IfSome result (λ e. MonthMovesAddUp self (neg_ℤ (pos months)) e) }
        ensures earlier { 0 < months → IfSome result (λ e. e <ℤ self) }
    {
        self.moved_by_months(-i64::from(months.as_u32()))
    }

    /// Returns the same day `k * i` months later, or earlier if `k` is negative. If that month is too short,
    /// returns its last day.
    ///
    /// Returns `None` if the year would not be from -262,143 to 262,142.
    ///
    /// It is one move from this date and not `i` moves in a row, so a short month does not change the later
    /// dates.
    ///
    /// ```
    /// NaiveDate::from_ymd_opt(2024, 1, 31)?.every_months(1, 1) // Some(2024-02-29)
    /// NaiveDate::from_ymd_opt(2024, 1, 31)?.every_months(1, 2) // Some(2024-03-31)
    /// ```
    #[inline]
    pub fn every_months(self, k: i32, i: u32) -> Option<NaiveDate>
        ensures date { result ≡ date_every self k i }
        ensures start { i ≡ 0 → result ≡ Some self }
        ensures exists { IsSome result
            ↔ IsYear (year_of_month_index (month_index_of self +ℤ k *ℤ pos i)) }
        ensures month { IfSome result (λ e. month_index_of e ≡ month_index_of self +ℤ k *ℤ pos i) }
        ensures day { IfSome result (λ e. day_of e ≡ min (day_of self) (month_length_of e)) }
        // A higher multiple of a positive number of months comes to a later date, if to one.
        ensures later { pos 0 <ℤ k → IfSome result (λ e. LaterMultiplesAreLater self k i e) }
        // Whole years from a leap day end on the last day of February.
        ensures leap_day { IsLeapDay self → (years : ℤ) → k ≡ pos 12 *ℤ years →
            IfSome result (λ e. IsLastOfFebruary e) }
    {
        self.moved_by_months(i64::from(k) * i64::from(i))
    }

    /// Returns the date later by the whole days of `rhs`, or earlier if `rhs` is negative. The days are rounded
    /// towards zero, so a duration of less than a day moves no date.
    ///
    /// Returns `None` if the date would be after [`MAX`](Self::MAX) or before [`MIN`](Self::MIN).
    ///
    /// ```
    /// NaiveDate::from_ymd_opt(2024, 2, 28)?.checked_add_signed(TimeDelta::hours(47)) // Some(2024-02-29)
    /// NaiveDate::from_ymd_opt(2024, 2, 28)?.checked_add_signed(TimeDelta::hours(-23)) // Some(2024-02-28)
    /// NaiveDate::MAX.checked_add_signed(TimeDelta::days(1)) // None
    /// ```
    #[inline]
    pub fn checked_add_signed(self, rhs: TimeDelta) -> Option<NaiveDate>
        ensures date { result ≡ date_of_day (self +ℤ whole_units nanos_per_day rhs) }
        ensures exists { IsSome result ↔ IsDate (self +ℤ whole_units nanos_per_day rhs) }
        ensures moved { IfSome result (λ e. e ≡ self +ℤ whole_units nanos_per_day rhs) }
    {
        self.moved_by_days(rhs.num_days())
    }

    /// Returns the date earlier by the whole days of `rhs`, or later if `rhs` is negative. The days are rounded
    /// towards zero, so a duration of less than a day moves no date.
    ///
    /// Returns `None` if the date would be before [`MIN`](Self::MIN) or after [`MAX`](Self::MAX).
    ///
    /// The result is that of [`checked_add_signed`](Self::checked_add_signed) with `-rhs`.
    ///
    /// ```
    /// NaiveDate::from_ymd_opt(2024, 3, 1)?.checked_sub_signed(TimeDelta::hours(47)) // Some(2024-02-29)
    /// NaiveDate::MIN.checked_sub_signed(TimeDelta::days(1)) // None
    /// ```
    #[inline]
    pub fn checked_sub_signed(self, rhs: TimeDelta) -> Option<NaiveDate>
        ensures date { result ≡ date_of_day (self -ℤ whole_units nanos_per_day rhs) }
        ensures exists { IsSome result ↔ IsDate (self -ℤ whole_units nanos_per_day rhs) }
        ensures moved { IfSome result (λ e. e ≡ self -ℤ whole_units nanos_per_day rhs) }
        // The duration the other way leads to the same date.
        ensures turned { result ≡ date_of_day (self +ℤ whole_units nanos_per_day (neg_ℤ rhs)) }
    {
        self.moved_by_days(-rhs.num_days())
    }

    /// Returns the duration from `rhs` to this date, in days of 86,400 seconds. It is negative if this date is
    /// the earlier one.
    ///
    /// ```
    /// let base = NaiveDate::from_ymd_opt(2024, 2, 28)?;
    /// NaiveDate::from_ymd_opt(2024, 3, 1)?.signed_duration_since(base).num_days() // 2
    /// ```
    #[inline]
    pub fn signed_duration_since(self, rhs: NaiveDate) -> TimeDelta
        ensures { result ≡ units_of nanos_per_day (self -ℤ rhs) }
    {
        TimeDelta::days(i64::from(self.day_number() - rhs.day_number()))
    }

    /// Returns the number of whole years from `base` to this date. It is the difference of the years, less one
    /// if this month and day come before those of `base`.
    ///
    /// Returns `None` if this date is before `base`.
    ///
    /// ```
    /// let birth = NaiveDate::from_ymd_opt(2004, 2, 29)?;
    /// NaiveDate::from_ymd_opt(2022, 3, 1)?.years_since(birth) // Some(18)
    /// NaiveDate::from_ymd_opt(2022, 2, 28)?.years_since(birth) // Some(17)
    /// ```
    #[inline]
    pub fn years_since(&self, base: NaiveDate) -> Option<u32>
        ensures { result ≡ whole_years self.now base }
    {
        forms::years_between(&self.form, &base.form)
    }

    /// Returns the number of days between the two dates, whichever is the earlier one.
    ///
    /// ```
    /// let other = NaiveDate::from_ymd_opt(2024, 3, 1)?;
    /// NaiveDate::from_ymd_opt(2024, 2, 28)?.abs_diff(other) == Days::new(2) // true
    /// ```
    #[inline]
    pub fn abs_diff(self, rhs: NaiveDate) -> Days
        ensures { result ≡ unsigned_abs (self -ℤ rhs) }
    {
        Days::new(u64::from(self.day_number().abs_diff(rhs.day_number())))
    }

    /// Returns the week that contains the date and begins on `start`.
    ///
    /// A week near [`MIN`](Self::MIN) or [`MAX`](Self::MAX) may have days that are not dates. The checked
    /// functions of [`NaiveWeek`] return `None` then.
    ///
    /// ```
    /// NaiveDate::from_ymd_opt(2024, 2, 29)?.week(Weekday::Mon).checked_first_day() // Some(2024-02-26)
    /// NaiveDate::from_ymd_opt(2024, 2, 29)?.week(Weekday::Sun).checked_first_day() // Some(2024-02-25)
    /// ```
    #[inline]
    pub fn week(&self, start: Weekday) -> NaiveWeek
        ensures first { result ≡ week_first_of self.now start }
        // The first day has that weekday, and the date is one of the seven.
        ensures starts { weekday_of result ≡ start }
        ensures not_after { result ≤ℤ self.now }
        ensures within { self.now <ℤ (result +ℤ pos 7) }
    {
        NaiveWeek::new(forms::week_first(&self.form, start))
    }

    /// Returns the first date from this one on whose weekday is in `set`. It is this date, if its own weekday
    /// is in `set`.
    ///
    /// Returns `None` if no date from this one to [`MAX`](Self::MAX) has such a weekday. For an empty set that
    /// is always so.
    ///
    /// ```
    /// let set = WeekdaySet::from_array([Weekday::Tue, Weekday::Thu]);
    /// NaiveDate::from_ymd_opt(2024, 12, 30)?.first_on(set) // Some(2024-12-31)
    /// NaiveDate::from_ymd_opt(2024, 12, 30)?.first_on(WeekdaySet::EMPTY) // None
    /// ```
    #[inline]
    pub fn first_on(self, set: WeekdaySet) -> Option<NaiveDate>
        ensures date { result ≡ date_on self set }
        ensures member { IfSome result (λ e. IsTrue (contains set (weekday_of e))) }
        // No date from this one to before the answer has such a weekday.
        ensures least { IfSome result (λ e. (d : ℤ) → self ≤ℤ d → d <ℤ e →
            contains set (weekday_of d) ≡ false) }
        ensures none { IfNone result ((d : ℤ) → self ≤ℤ d → IsDate d →
            contains set (weekday_of d) ≡ false) }
        ensures not_before { IfSome result (λ e. self ≤ℤ e) }
        ensures near { IfSome result (λ e. e <ℤ (self +ℤ pos 7)) }
        // Of a set that lacks two weekdays at most, it is at most two days later.
        ensures within_two { 5 ≤ length (walk set Mon) → IfSome result (λ e. e ≤ℤ (self +ℤ pos 2)) }
        // If six dates follow this one, a set that is not empty has such a date.
        ensures exists { 1 ≤ length (walk set Mon) → IsDate (self +ℤ pos 6) → IsSome result }
        ensures start { IsTrue (contains set (weekday_of self)) → result ≡ Some self }
        // Asked again from the answer it is the answer.
        ensures again { IfSome result (λ e. date_on e set ≡ Some e) }
        // A larger set has a date that is not later.
        ensures larger { IfSome result (λ e. (more : DaySet) → IsSubset set more →
            IsSomeAnd (date_on self more) (λ f. f ≤ℤ e)) }
    {
        // No date is past the last.
        prove!(self.day_number() <= LAST_DAY);
        Some(NaiveDate {
            form: forms::first_on(self.form, set)?,
        })
    }

    /// Returns an iterator over this date and all later dates, up to [`MAX`](Self::MAX).
    ///
    /// ```
    /// let mut days = NaiveDate::from_ymd_opt(2024, 2, 28)?.iter_days();
    /// days.next() // Some(2024-02-28)
    /// days.next() // Some(2024-02-29)
    /// ```
    #[inline]
    pub fn iter_days(&self) -> NaiveDateDaysIterator
        ensures start { result ≡ self.now }
        ensures count { length (days_from self.now) ≡ dates_left self.now }
        // There are no more dates than that in all.
        ensures few { length (days_from self.now) ≤ 191_491_529 }
        // Any calls of `next` give the list's dates in order: what chains of iterators are proved by.
        ensures runs { YieldsInOrder (YieldsFirst days_from) days_from }
        // After `take(n)` they give the first `n` dates of the list.
        ensures taken { YieldsInOrder (take_steps (YieldsFirst days_from)) days_taken }
    {
        // No date is before the first or past the last.
        prove!(self.day_number() <= LAST_DAY);
        NaiveDateDaysIterator::new(*self)
    }

    /// Returns an iterator over this date and the dates 7, 14, 21 and so on days later. It leaves out a date
    /// that has no date 7 days after it.
    ///
    /// ```
    /// let mut weeks = NaiveDate::from_ymd_opt(2024, 2, 28)?.iter_weeks();
    /// weeks.next() // Some(2024-02-28)
    /// weeks.next() // Some(2024-03-06)
    /// NaiveDate::MAX.iter_weeks().next() // None
    /// ```
    #[inline]
    pub fn iter_weeks(&self) -> NaiveDateWeeksIterator
        ensures start { result ≡ self.now }
        // There are no more whole weeks than that in all.
        ensures few { length (weeks_from self.now) ≤ 27_355_932 }
        // Any calls of `next` give the list's dates in order: what chains of iterators are proved by.
        ensures runs { YieldsInOrder (YieldsFirst weeks_from) weeks_from }
        // After `take(n)` they give the first `n` dates of the list.
        ensures taken { YieldsInOrder (take_steps (YieldsFirst weeks_from)) weeks_taken }
    {
        // No date is before the first or past the last.
        prove!(self.day_number() <= LAST_DAY);
        NaiveDateWeeksIterator::new(*self)
    }
}
