//! The instances of a rule.
ghost use Rattle.std.specs.Prelude.{◌≡◌, ◌≤◌, ◌<◌, ◌+◌, min, if◌then◌else◌, ◌≤ℤ◌, ◌<ℤ◌, ◌+ℤ◌, ℤ, neg_ℤ, pos, true, false, IsTrue, IfSome, IfNone};
ghost use Rattle.chrono_datetime.specs.Days.{IsDate};
ghost use Rattle.chrono_datetime.specs.Recurrence.{count_between, dates_before};
ghost use Rattle.chrono_datetime.specs.PassedOver.{NoneAfter, PassedBetween};
ghost use Rattle.chrono_rules.specs.ByParts.{date_passes};
ghost use Rattle.chrono_sets.specs.FiniteSets.{has};
ghost use Rattle.chrono_rules.specs.Instances.{in_positions, is_counted, is_instance, is_member};
ghost use Rattle.chrono_rules.specs.Periods.{period_end, period_first};

use crate::by_parts::days_of_year;
use crate::rule::{End, Frequency, Rule};
use chrono_datetime::{Datelike, NaiveDate};

impl Rule {
    // Whether the day that lies so many days later is a date that passes.
    #[inline]
    #[tactic(auto, unfolding(crate::specs::ByParts::date_passes))]
    fn passes_later(&self, start: NaiveDate, date: NaiveDate, later: i64) -> bool
        ensures { result ≡ date_passes self.now start (date +ℤ later) }
    {
        match date.moved_by_days(later) {
            Some(day) => self.passes(start, day),
            None => false,
        }
    }

    // How many dates pass from the day that lies `first` days later to before the one that lies `end` days later.
    pub(crate) fn count_passing(
        &self,
        start: NaiveDate,
        date: NaiveDate,
        first: i64,
        end: i64,
    ) -> u32
        requires order { first ≤ℤ end }
        requires first { neg_ℤ (pos 400) ≤ℤ first }
        requires end { end ≤ℤ pos 400 }
        ensures value { result ≡ count_between (date_passes self.now start) (date +ℤ first) (date +ℤ end) }
        ensures few { (first +ℤ pos result) ≤ℤ end }
    {
        let mut count = 0;
        let mut later = first;
        while later < end {
            count = self.and_later(start, date, later, count);
            later += 1;
        }
        count
    }

    // The count, and one more if the day that lies so many days later is a date that passes.
    #[inline]
    pub(crate) fn and_later(&self, start: NaiveDate, date: NaiveDate, later: i64, count: u32) -> u32
        requires { count ≤ 1000 }
        ensures value { result ≡ count + (if date_passes self.now start (date +ℤ later) then 1 else 0) }
        ensures step { result ≤ count + 1 }
    {
        if self.passes_later(start, date, later) {
            count + 1
        } else {
            count
        }
    }

    // How many days later the first day of the date's period lies, 0 or less.
    #[inline]
    #[tactic(auto, unfolding(crate::specs::Periods::period_first))]
    pub(crate) fn to_period_first(&self, date: NaiveDate) -> i64
        ensures value { date +ℤ result ≡ period_first self.now.frequency self.now.week_start date }
        ensures low { neg_ℤ (pos 366) ≤ℤ result }
        ensures high { result ≤ℤ pos 0 }
    {
        match self.frequency {
            Frequency::Daily => 0,
            Frequency::Weekly => 0 - i64::from(date.weekday().days_since(self.week_start)),
            Frequency::Monthly => 0 - i64::from(date.day() - 1),
            Frequency::Yearly => 1 - i64::from(date.ordinal()),
        }
    }

    // How many days later the day after the last of the date's period lies, 1 or more.
    #[inline]
    #[tactic(auto, unfolding(crate::specs::Periods::period_end))]
    pub(crate) fn to_period_end(&self, date: NaiveDate) -> i64
        ensures value { date +ℤ result ≡ period_end self.now.frequency self.now.week_start date }
        ensures low { pos 1 ≤ℤ result }
        ensures high { result ≤ℤ pos 366 }
    {
        match self.frequency {
            Frequency::Daily => 1,
            Frequency::Weekly => 7 - i64::from(date.weekday().days_since(self.week_start)),
            Frequency::Monthly => 1 + i64::from(u32::from(date.num_days_in_month()) - date.day()),
            Frequency::Yearly => 1 + i64::from(days_of_year(date) - date.ordinal()),
        }
    }

    // The date's place among the days of its period that pass.
    fn place(&self, start: NaiveDate, date: NaiveDate) -> u32
        ensures value { result ≡ count_between (date_passes self.now start)
            (period_first self.now.frequency self.now.week_start date) (date +ℤ pos 1) }
        ensures few { result < 384 }
    {
        let first = self.to_period_first(date);
        self.count_passing(start, date, first, 1)
    }

    // Its place from the last of them.
    fn place_from_end(&self, start: NaiveDate, date: NaiveDate) -> u32
        ensures value { result ≡ count_between (date_passes self.now start) date
            (period_end self.now.frequency self.now.week_start date) }
        ensures few { result < 384 }
    {
        let end = self.to_period_end(date);
        self.count_passing(start, date, 0, end)
    }

    // Whether BYSETPOS names its place from the front.
    #[inline]
    fn has_place(&self, start: NaiveDate, date: NaiveDate) -> bool
        ensures { result ≡ has self.now.positions (count_between (date_passes self.now start)
            (period_first self.now.frequency self.now.week_start date) (date +ℤ pos 1)) }
    {
        if self.positions.is_empty() {
            return false;
        }
        self.positions.contains(self.place(start, date))
    }

    // Whether it names that from the back.
    #[inline]
    fn has_place_from_end(&self, start: NaiveDate, date: NaiveDate) -> bool
        ensures { result ≡ has self.now.positions_from_end (count_between (date_passes self.now start)
            date (period_end self.now.frequency self.now.week_start date)) }
    {
        if self.positions_from_end.is_empty() {
            return false;
        }
        self.positions_from_end
            .contains(self.place_from_end(start, date))
    }

    /// Returns whether BYSETPOS names the place of `date` among the days of its period that pass the other parts.
    ///
    /// Places count from the front or from the back. Returns true if the rule has no BYSETPOS.
    ///
    /// ```
    /// use chrono_datetime::NaiveDate;
    /// let rule = read_rule(b"FREQ=MONTHLY;BYDAY=MO,TU,WE,TH,FR;BYSETPOS=-1").ok()?;
    /// let start = NaiveDate::from_ymd_opt(2024, 1, 1)?;
    /// rule.in_positions(start, NaiveDate::from_ymd_opt(2024, 1, 31)?) // true
    /// rule.in_positions(start, NaiveDate::from_ymd_opt(2024, 1, 30)?) // false
    /// ```
    #[tactic(auto, unfolding(crate::specs::Instances::in_positions))]
    pub fn in_positions(&self, start: NaiveDate, date: NaiveDate) -> bool
        ensures { result ≡ in_positions self.now start date }
    {
        self.lacks_positions()
            || (self.has_place(start, date) || self.has_place_from_end(start, date))
    }

    /// Returns whether `date` is an instance of the rule that begins on `start`, if COUNT is left out.
    ///
    /// ```
    /// use chrono_datetime::NaiveDate;
    /// let rule = read_rule(b"FREQ=DAILY;COUNT=2").ok()?;
    /// let (start, date) = (NaiveDate::from_ymd_opt(2024, 1, 1)?, NaiveDate::from_ymd_opt(2024, 1, 3)?);
    /// (rule.is_member(start, date), rule.is_instance(start, date)) // (true, false)
    /// ```
    #[tactic(auto, unfolding(crate::specs::Instances::is_member))]
    pub fn is_member(&self, start: NaiveDate, date: NaiveDate) -> bool
        ensures { result ≡ is_member self.now start date }
    {
        start <= date
            && (self.not_after(date)
                && (self.in_interval(start, date)
                    && (self.passes(start, date) && self.in_positions(start, date))))
    }

    // The count, and one more if the date is a member.
    #[inline]
    pub(crate) fn and_member(&self, start: NaiveDate, date: NaiveDate, count: u32) -> u32
        requires { count ≤ 1_000_000_000 }
        ensures value { result ≡ count + (if is_member self.now start date then 1 else 0) }
        ensures step { result ≤ count + 1 }
    {
        if self.is_member(start, date) {
            count + 1
        } else {
            count
        }
    }

    // How many members lie from the start to before the date, but at most so many.
    pub(crate) fn count_members(&self, start: NaiveDate, date: NaiveDate, most: u32) -> u32
        ensures value { result ≡ min most (count_between (is_member self.now start) start date) }
        ensures few { result ≤ dates_before date }
    {
        if date.num_days_from_ce() <= start.num_days_from_ce() {
            return 0;
        }
        let walked = self.first_members(start, date, most);
        walked.seen
    }

    // How many members lie from the start up to the date, but at most so many.
    fn count_members_to(&self, start: NaiveDate, date: NaiveDate, most: u32) -> u32
        ensures value { result ≡ min most (count_between (is_member self.now start) start (date +ℤ pos 1)) }
        ensures few { result ≤ 1_000_000_000 }
    {
        let before = self.count_members(start, date, most);
        if before < most {
            self.and_member(start, date, before)
        } else {
            before
        }
    }

    /// Returns how many instances the rule has from `start` to `date`, both included.
    ///
    /// The days of a rule repeat after a cycle of 400 years, or with INTERVAL after a multiple of them.
    /// With no BY parts but BYDAY and BYSETPOS, those of a rule by days or weeks repeat after 7 days times the interval.
    /// So the function counts the instances of one cycle one by one, and adds whole cycles.
    ///
    /// ```
    /// use chrono_datetime::NaiveDate;
    /// let (start, date) = (NaiveDate::from_ymd_opt(2024, 1, 1)?, NaiveDate::from_ymd_opt(2024, 1, 31)?);
    /// read_rule(b"FREQ=WEEKLY").ok()?.count_to(start, date) // 5
    /// ```
    pub fn count_to(&self, start: NaiveDate, date: NaiveDate) -> u32
        ensures { result ≡ count_between (is_instance self.now start) start (date +ℤ pos 1) }
    {
        match self.end {
            End::Never => self.count_members_to(start, date, u32::MAX),
            End::Until(_) => self.count_members_to(start, date, u32::MAX),
            End::Count(count) => self.count_members_to(start, date, count),
        }
    }

    // Whether COUNT lets the date be an instance.
    #[inline]
    #[tactic(auto, unfolding(crate::specs::Instances::is_counted))]
    fn is_counted(&self, start: NaiveDate, date: NaiveDate) -> bool
        ensures { result ≡ is_counted self.now.end self.now start date }
    {
        match self.end {
            End::Never => true,
            End::Until(_) => true,
            End::Count(count) => self.count_members(start, date, count) < count,
        }
    }

    /// Returns whether `date` is an instance of the rule that begins on `start`.
    ///
    /// ```
    /// use chrono_datetime::NaiveDate;
    /// let rule = read_rule(b"FREQ=MONTHLY;BYDAY=-1FR").ok()?;
    /// let start = NaiveDate::from_ymd_opt(2024, 1, 1)?;
    /// rule.is_instance(start, NaiveDate::from_ymd_opt(2024, 1, 26)?) // true
    /// rule.is_instance(start, start) // false
    /// ```
    ///
    /// So `start` is no instance unless the rule has it.
    #[tactic(auto, unfolding(crate::specs::Instances::is_instance))]
    pub fn is_instance(&self, start: NaiveDate, date: NaiveDate) -> bool
        ensures { result ≡ is_instance self.now start date }
    {
        self.is_member(start, date) && self.is_counted(start, date)
    }

    /// Returns the first instance after `day` of the rule that begins on `start`.
    ///
    /// Returns `None` if there is none in the calendar.
    ///
    /// ```
    /// use chrono_datetime::NaiveDate;
    /// let rule = read_rule(b"FREQ=YEARLY").ok()?;
    /// let start = NaiveDate::from_ymd_opt(2024, 2, 29)?;
    /// rule.next_after(start, start) // Some(2028-02-29)
    /// ```
    ///
    /// The calendar repeats after 400 years. So a search looks at the periods of about 400 years at most.
    /// Every call counts the instances of a rule with COUNT from `start` on. [`Rule::instances`] counts them once.
    #[tactic(auto, unfolding(crate::specs::Instances::is_instance))]
    pub fn next_after(&self, start: NaiveDate, day: NaiveDate) -> Option<NaiveDate>
        ensures member { IfSome result (λ e. IsTrue (is_instance self.now start e)) }
        ensures later { IfSome result (λ e. day <ℤ e) }
        ensures least { IfSome result (λ e. PassedBetween (is_instance self.now start) day e) }
        ensures none { IfNone result (NoneAfter (is_instance self.now start) day) }
    {
        if !self.may_follow(0) {
            return None;
        }
        let next = self.first_member(start, day.succ_opt()?)?;
        if self.is_counted(start, next) {
            Some(next)
        } else {
            None
        }
    }
}
