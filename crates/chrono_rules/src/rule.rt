//! `Rule`: a recurrence rule over days (RFC 5545, section 3.3.10).
ghost use Rattle.std.specs.Prelude.{◌≡◌};
ghost use Rattle.chrono_rules.specs.ByParts.{on_month_day};
ghost use Rattle.chrono_rules.specs.Instances.{not_after};
ghost use Rattle.chrono_rules.specs.RuleParts.{plain};

use crate::weekday_places::WeekdayPlaces;
use chrono_datetime::{Datelike, NaiveDate, Weekday};
use chrono_sets::{NumberSet, PlaceSet};

/// FREQ: the kind of a rule's periods.
#[derive(Clone, Copy, PartialEq, Eq, Debug)]
pub enum Frequency {
    /// Each period is a day.
    Daily,
    /// Each period is a week. It begins on the rule's `week_start`.
    Weekly,
    /// Each period is a month.
    Monthly,
    /// Each period is a year.
    Yearly,
}

/// COUNT or UNTIL: where a rule ends.
#[derive(Clone, Copy, PartialEq, Eq, Debug)]
pub enum End {
    /// The rule never ends.
    Never,
    /// COUNT: the rule has at most this many instances, counted from the start.
    Count(u32),
    /// UNTIL: no instance is after this day. The day itself can be one.
    Until(NaiveDate),
}

/// A recurrence rule over days (RFC 5545, 3.3.10).
///
/// A BY part with an empty set is one that the rule does not have.
/// A number that a part cannot have, such as the month 13, names no day.
/// A part that has such numbers alone lets no day pass.
#[derive(Clone, Copy, PartialEq, Eq, Debug)]
pub struct Rule {
    /// FREQ: the kind of the rule's periods.
    pub frequency: Frequency,
    /// INTERVAL: use every `interval`-th period, beginning with the one that contains the start. 0 means 1.
    ///
    /// For example, `Weekly` with 2 is every other week.
    pub interval: u32,
    /// COUNT or UNTIL: where the rule ends.
    pub end: End,
    /// BYMONTH: the months, 1 to 12.
    pub months: NumberSet,
    /// BYMONTHDAY: the days of the month, 1 to 31.
    pub month_days: NumberSet,
    /// BYMONTHDAY: the days of the month from its end. 1 is the last day, which RFC 5545 writes as -1.
    pub month_days_from_end: NumberSet,
    /// BYDAY: the weekdays.
    pub weekdays: WeekdayPlaces,
    /// BYYEARDAY: the days of the year, 1 to 366.
    pub year_days: PlaceSet,
    /// BYYEARDAY: the days of the year from its end. 1 is the last day.
    pub year_days_from_end: PlaceSet,
    /// BYWEEKNO: the weeks of the year, 1 to 53.
    ///
    /// A week begins on `week_start`, and belongs to the year of its fourth day.
    pub weeks: NumberSet,
    /// BYWEEKNO: the weeks from the end of the week's year. 1 is the last week.
    pub weeks_from_end: NumberSet,
    /// BYSETPOS: the `k`-th of the days of a period that pass all other parts, 1 to 366.
    ///
    /// Days before the start count too.
    pub positions: PlaceSet,
    /// BYSETPOS: the same days from the end. 1 is the last of them.
    pub positions_from_end: PlaceSet,
    /// WKST: the weekday on which weeks begin. RFC 5545 takes Monday if a rule has none.
    pub week_start: Weekday,
}

impl Rule {
    /// Returns the rule with FREQ alone: every period counts, it never ends, and weeks begin on Monday.
    ///
    /// ```
    /// Rule::new(Frequency::Weekly) == read_rule(b"FREQ=WEEKLY").ok()? // true
    /// ```
    #[inline]
    pub fn new(frequency: Frequency) -> Rule
        ensures { result ≡ plain frequency }
    {
        Rule {
            frequency,
            interval: 1,
            end: End::Never,
            months: NumberSet::none(),
            month_days: NumberSet::none(),
            month_days_from_end: NumberSet::none(),
            weekdays: WeekdayPlaces::none(),
            year_days: PlaceSet::none(),
            year_days_from_end: PlaceSet::none(),
            weeks: NumberSet::none(),
            weeks_from_end: NumberSet::none(),
            positions: PlaceSet::none(),
            positions_from_end: PlaceSet::none(),
            week_start: Weekday::Mon,
        }
    }
    /// Returns whether `date` is not after UNTIL. Returns true if the rule has no UNTIL.
    ///
    /// ```
    /// use chrono_datetime::NaiveDate;
    /// let rule = read_rule(b"FREQ=DAILY;UNTIL=20241231").ok()?;
    /// rule.not_after(NaiveDate::from_ymd_opt(2024, 12, 31)?) // true
    /// ```
    #[tactic(auto, unfolding(crate::specs::Instances::not_after))]
    pub fn not_after(&self, date: NaiveDate) -> bool
        ensures { result ≡ not_after self.now.end date }
    {
        match self.end {
            End::Never => true,
            End::Count(_) => true,
            End::Until(last) => date <= last,
        }
    }

    /// Returns whether BYMONTHDAY names `date`, from either end of the month.
    ///
    /// ```
    /// use chrono_datetime::NaiveDate;
    /// let rule = read_rule(b"FREQ=MONTHLY;BYMONTHDAY=-1").ok()?;
    /// rule.on_month_day(NaiveDate::from_ymd_opt(2024, 2, 29)?) // true
    /// ```
    #[tactic(auto, unfolding(crate::specs::ByParts::on_month_day))]
    pub fn on_month_day(&self, date: NaiveDate) -> bool
        ensures { result ≡ on_month_day self.now date }
    {
        let day = date.day();
        let length = date.last_day_of_month().day();
        self.month_days.contains(day) || self.month_days_from_end.contains(length - day + 1)
    }
}
