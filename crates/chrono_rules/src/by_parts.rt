//! The BY parts of a rule, as tests of a date.
ghost use Rattle.std.specs.Prelude.{◌≡◌, ◌<◌, ◌+◌, ◌-◌, ◌/◌, ◌&&◌, ◌||◌};
ghost use Rattle.std.specs.Int.{IsInRange};
ghost use Rattle.chrono_datetime.specs.Days.{month_of, year_of};
ghost use Rattle.chrono_datetime.specs.Years.{year_length};
ghost use Rattle.chrono_sets.specs.FiniteSets.{has};
ghost use Rattle.chrono_rules.specs.ByParts.{counted_place, counts_in_month, days_behind, filled, fills_day, fills_month, fills_weekday, has_numbers, in_week, on_month_day, on_weekday, on_year_day, passes};
ghost use Rattle.chrono_rules.specs.RuleParts.{lacks_month_days, lacks_months, lacks_positions, lacks_weekdays, lacks_weeks, lacks_year_days};

use crate::rule::{Frequency, Rule};
use crate::search::periods::like_fourth_of_week;
use crate::weekday_places::numbers_of;
use chrono_datetime::{Datelike, NaiveDate};
use chrono_sets::NumberSet;

impl Rule {
    // Which parts the rule does not have.
    #[inline]
    pub(crate) fn lacks_months(&self) -> bool
        ensures { result ≡ lacks_months self.now }
    {
        self.months.is_empty()
    }

    #[inline]
    pub(crate) fn lacks_month_days(&self) -> bool
        ensures { result ≡ lacks_month_days self.now }
    {
        self.month_days.is_empty() && self.month_days_from_end.is_empty()
    }

    #[inline]
    pub(crate) fn lacks_weekdays(&self) -> bool
        ensures { result ≡ lacks_weekdays self.now }
    {
        self.weekdays.is_empty()
    }

    #[inline]
    pub(crate) fn lacks_year_days(&self) -> bool
        ensures { result ≡ lacks_year_days self.now }
    {
        self.year_days.is_empty() && self.year_days_from_end.is_empty()
    }

    #[inline]
    pub(crate) fn lacks_weeks(&self) -> bool
        ensures { result ≡ lacks_weeks self.now }
    {
        self.weeks.is_empty() && self.weeks_from_end.is_empty()
    }

    #[inline]
    pub(crate) fn lacks_positions(&self) -> bool
        ensures { result ≡ lacks_positions self.now }
    {
        self.positions.is_empty() && self.positions_from_end.is_empty()
    }

    // Whether the start's weekday stands for BYDAY.
    #[inline]
    #[tactic(auto, unfolding(crate::specs::ByParts::fills_weekday))]
    pub(crate) fn fills_weekday(&self) -> bool
        ensures { result ≡ fills_weekday self.now.frequency self.now }
    {
        match self.frequency {
            Frequency::Daily => false,
            Frequency::Weekly => self.lacks_weekdays(),
            Frequency::Monthly => false,
            Frequency::Yearly => {
                !self.lacks_weeks()
                    && (self.lacks_weekdays()
                        && (self.lacks_month_days() && self.lacks_year_days()))
            }
        }
    }

    // Whether the start's day stands for BYMONTHDAY.
    #[inline]
    #[tactic(auto, unfolding(crate::specs::ByParts::fills_day))]
    pub(crate) fn fills_day(&self) -> bool
        ensures { result ≡ fills_day self.now.frequency self.now }
    {
        match self.frequency {
            Frequency::Daily => false,
            Frequency::Weekly => false,
            Frequency::Monthly => self.lacks_month_days() && self.lacks_weekdays(),
            Frequency::Yearly => {
                (self.lacks_month_days() && self.lacks_weekdays())
                    && (self.lacks_year_days() && self.lacks_weeks())
            }
        }
    }

    // Whether the start's month stands for BYMONTH.
    #[inline]
    #[tactic(auto, unfolding(crate::specs::ByParts::fills_month, crate::specs::ByParts::fills_day))]
    pub(crate) fn fills_month(&self) -> bool
        ensures { result ≡ fills_month self.now.frequency self.now }
    {
        match self.frequency {
            Frequency::Daily => false,
            Frequency::Weekly => false,
            Frequency::Monthly => false,
            Frequency::Yearly => self.lacks_months() && self.fills_day(),
        }
    }

    // Whether the date has what the start says where the rule does not.
    fn filled(&self, start: NaiveDate, date: NaiveDate) -> bool
        ensures { result ≡ filled self.now start date }
    {
        let weekday = !self.fills_weekday()
            || date.weekday().num_days_from_monday() == start.weekday().num_days_from_monday();
        let day = !self.fills_day() || date.day() == start.day();
        let month = !self.fills_month() || date.month() == start.month();
        weekday && (day && month)
    }

    // Whether a numbered weekday counts in the month.
    #[inline]
    #[tactic(auto, unfolding(crate::specs::ByParts::counts_in_month))]
    pub(crate) fn counts_in_month(&self) -> bool
        ensures { result ≡ counts_in_month self.now.frequency self.now }
    {
        match self.frequency {
            Frequency::Daily => true,
            Frequency::Weekly => true,
            Frequency::Monthly => true,
            Frequency::Yearly => !self.lacks_months(),
        }
    }

    // Whether a weekday may have a number.
    #[inline]
    #[tactic(auto, unfolding(crate::specs::ByParts::has_numbers))]
    pub(crate) fn has_numbers(&self) -> bool
        ensures { result ≡ has_numbers self.now.frequency }
    {
        match self.frequency {
            Frequency::Daily => false,
            Frequency::Weekly => false,
            Frequency::Monthly => true,
            Frequency::Yearly => true,
        }
    }

    // The date's place where numbered weekdays count.
    #[inline]
    pub(crate) fn counted_place(&self, date: NaiveDate) -> u32
        ensures value { result ≡ counted_place self.now date }
        ensures in_range { IsInRange 1 366 result }
    {
        if self.counts_in_month() {
            date.day()
        } else {
            date.ordinal()
        }
    }

    // The days behind it there.
    #[inline]
    pub(crate) fn days_behind(&self, date: NaiveDate) -> u32
        ensures value { result ≡ days_behind self.now date }
        ensures in_range { result < 366 }
    {
        if self.counts_in_month() {
            u32::from(date.num_days_in_month()) - date.day()
        } else {
            days_of_year(date) - date.ordinal()
        }
    }

    // Whether the numbers have that of the date, which is counted only if there are any.
    #[inline]
    fn has_place_of(&self, date: NaiveDate, numbers: NumberSet) -> bool
        ensures { result ≡ has numbers (1 + (counted_place self.now date - 1) / 7) }
    {
        if numbers.is_empty() {
            return false;
        }
        numbers.contains(1 + (self.counted_place(date) - 1) / 7)
    }

    // The same for its number from the end.
    #[inline]
    fn has_end_place_of(&self, date: NaiveDate, numbers: NumberSet) -> bool
        ensures { result ≡ has numbers (1 + days_behind self.now date / 7) }
    {
        if numbers.is_empty() {
            return false;
        }
        numbers.contains(1 + self.days_behind(date) / 7)
    }

    /// Returns whether BYDAY names `date`.
    ///
    /// An item without a number names every day with its weekday.
    /// An item with a number `k` names the `k`-th such day.
    /// In a monthly rule, and in a yearly one with BYMONTH, `k` counts in the month, and else in the year.
    /// A negative number counts from the end. Numbers count in monthly and yearly rules alone.
    ///
    /// ```
    /// use chrono_datetime::NaiveDate;
    /// let rule = read_rule(b"FREQ=MONTHLY;BYDAY=-1FR").ok()?;
    /// rule.on_weekday(NaiveDate::from_ymd_opt(2024, 1, 26)?) // true
    /// rule.on_weekday(NaiveDate::from_ymd_opt(2024, 1, 19)?) // false
    /// ```
    #[tactic(auto, unfolding(crate::specs::ByParts::on_weekday))]
    pub fn on_weekday(&self, date: NaiveDate) -> bool
        ensures { result ≡ on_weekday self.now date }
    {
        let weekday = date.weekday().num_days_from_monday();
        let day = weekday as usize;
        self.weekdays.every.contains(weekday)
            || (self.has_numbers()
                && (self.has_place_of(date, numbers_of(&self.weekdays.front, day))
                    || self.has_end_place_of(date, numbers_of(&self.weekdays.back, day))))
    }

    /// Returns whether BYWEEKNO names the week of `date`, from either end of the week's year.
    ///
    /// ```
    /// use chrono_datetime::NaiveDate;
    /// let rule = read_rule(b"FREQ=YEARLY;BYWEEKNO=1").ok()?;
    /// rule.in_week(NaiveDate::from_ymd_opt(2024, 12, 30)?) // true
    /// ```
    ///
    /// So week 1 of 2025 begins in 2024.
    #[tactic(auto, unfolding(crate::specs::ByParts::in_week))]
    pub fn in_week(&self, date: NaiveDate) -> bool
        ensures { result ≡ in_week self.now date }
    {
        let fourth = like_fourth_of_week(date, self.week_start);
        let place = fourth.ordinal();
        let behind = days_of_year(fourth) - place;
        self.weeks.contains(1 + (place - 1) / 7) || self.weeks_from_end.contains(1 + behind / 7)
    }

    // Whether each of the parts that the rule has names the date.
    #[inline]
    fn is_named(&self, date: NaiveDate) -> bool
        ensures { result ≡ ((lacks_months self.now || has self.now.months (month_of date))
            && ((lacks_month_days self.now || on_month_day self.now date)
            && ((lacks_weekdays self.now || on_weekday self.now date)
            && ((lacks_year_days self.now || on_year_day self.now date)
            && (lacks_weeks self.now || in_week self.now date))))) }
    {
        (self.lacks_months() || self.months.contains(date.month()))
            && ((self.lacks_month_days() || self.on_month_day(date))
                && ((self.lacks_weekdays() || self.on_weekday(date))
                    && ((self.lacks_year_days() || self.on_year_day(date))
                        && (self.lacks_weeks() || self.in_week(date)))))
    }

    /// Returns whether `date` passes every BY part of the rule, BYSETPOS aside.
    ///
    /// Where the rule has no BY part, `date` needs what `start` has.
    /// For example, it needs its weekday in a weekly rule.
    ///
    /// ```
    /// use chrono_datetime::NaiveDate;
    /// let (start, rule) = (NaiveDate::from_ymd_opt(2024, 1, 1)?, read_rule(b"FREQ=WEEKLY").ok()?);
    /// rule.passes(start, NaiveDate::from_ymd_opt(2024, 1, 8)?) // true
    /// rule.passes(start, NaiveDate::from_ymd_opt(2024, 1, 9)?) // false
    /// ```
    #[tactic(auto, unfolding(crate::specs::ByParts::passes))]
    pub fn passes(&self, start: NaiveDate, date: NaiveDate) -> bool
        ensures { result ≡ passes self.now start date }
    {
        // Most days fail here, and `filled` costs more.
        self.is_named(date) && self.filled(start, date)
    }

    /// Returns whether BYYEARDAY names `date`, from either end of the year.
    ///
    /// ```
    /// use chrono_datetime::NaiveDate;
    /// let rule = read_rule(b"FREQ=YEARLY;BYYEARDAY=-1").ok()?;
    /// rule.on_year_day(NaiveDate::from_ymd_opt(2024, 12, 31)?) // true
    /// ```
    #[tactic(auto, unfolding(crate::specs::ByParts::on_year_day))]
    pub fn on_year_day(&self, date: NaiveDate) -> bool
        ensures { result ≡ on_year_day self.now date }
    {
        let place = date.ordinal();
        let length = days_of_year(date);
        self.year_days.contains(place) || self.year_days_from_end.contains(length - place + 1)
    }
}

// The days of the date's year.
#[inline]
pub(crate) fn days_of_year(date: NaiveDate) -> u32
    ensures value { result ≡ year_length (year_of date) }
    ensures in_range { IsInRange 365 366 result }
{
    if date.leap_year() { 366 } else { 365 }
}
