//! Years of which holidays are known: `KnownYears`, and the first year of rules.
ghost use Rattle.std.specs.Prelude.{◌≡◌, ◌↔◌, ◌⊎◌, ◌≤ℤ◌, ◌+ℤ◌, ◌-ℤ◌, [], true, IfSome, IfNone, All};
ghost use Rattle.chrono_datetime.specs.Days.{date_of_day};
ghost use Rattle.chrono_business.specs.KnownYears.{AreKnownDays, BeginsIn, is_known, is_roll_known, is_some_known};

use crate::holiday_rule::HolidayRule;
use crate::roll::Roll;
use chrono_datetime::{Datelike, LAST_DAY, NaiveDate};

/// The years of which the holidays of a calendar are known: from `first` to `last`, both included.
///
/// ```
/// use chrono_datetime::NaiveDate;
/// KnownYears { first: 2024, last: 2026 }.contains(NaiveDate::from_ymd_opt(2026, 12, 31)?) // true
/// ```
#[derive(Clone, Copy, PartialEq, Eq, Hash, Debug)]
pub struct KnownYears {
    /// The first year.
    pub first: i32,
    /// The last year.
    pub last: i32,
}

impl KnownYears {
    /// Returns whether `date` lies in one of the years.
    ///
    /// ```
    /// use chrono_datetime::NaiveDate;
    /// KnownYears { first: 2024, last: 2026 }.contains(NaiveDate::from_ymd_opt(2027, 1, 1)?) // false
    /// ```
    #[tactic(auto, unfolding(crate::specs::KnownYears::is_known))]
    pub fn contains(self, date: NaiveDate) -> bool
        ensures { result ≡ is_known self date }
    {
        prove!(date.num_days_from_ce() <= LAST_DAY);
        let year = date.year();
        self.first <= year && year <= self.last
    }

    /// Returns whether each day from `from` on and before `to` lies in one of the years.
    ///
    /// So the result is `true` if there is no such day.
    ///
    /// ```
    /// use chrono_datetime::NaiveDate;
    /// let (from, to) = (NaiveDate::from_ymd_opt(2026, 1, 1)?, NaiveDate::from_ymd_opt(2027, 1, 1)?);
    /// KnownYears { first: 2024, last: 2026 }.contains_all(from, to) // true
    /// ```
    pub fn contains_all(self, from: NaiveDate, to: NaiveDate) -> bool
        ensures { (result ≡ true) ↔ AreKnownDays self from to }
    {
        if to.num_days_from_ce() <= from.num_days_from_ce() {
            return true;
        }
        if !self.contains(from) {
            return false;
        }
        self.contains_some(to.moved_by_days(-1))
    }

    // Whether there is a date, and it lies in one of the years.
    fn contains_some(self, date: Option<NaiveDate>) -> bool
        ensures { result ≡ is_some_known self date }
    {
        match date {
            Some(date) => self.contains(date),
            None => false,
        }
    }

    // Whether the days that a roll looks at lie in the years, if it leads from one date to another.
    pub(crate) fn contains_roll(self, roll: Roll, date: NaiveDate, rolled: NaiveDate) -> bool
        ensures { result ≡ is_roll_known self roll date rolled }
    {
        if !self.contains(date) {
            return false;
        }
        if !self.contains(rolled) {
            return false;
        }
        match roll {
            Roll::NearestQuantLib => self.contains_some(mirrored(date, rolled)),
            _ => true,
        }
    }
}

// The day as far from a date as another, on the other side.
fn mirrored(date: NaiveDate, other: NaiveDate) -> Option<NaiveDate>
    ensures { result ≡ date_of_day (date +ℤ (date -ℤ other)) }
{
    let days = i64::from(date.num_days_from_ce()) - i64::from(other.num_days_from_ce());
    date.moved_by_days(days)
}

/// Returns the first year in which one of the rules holds. Before it their holidays are not known.
///
/// Returns `None` if there is no rule.
///
/// ```
/// first_known_year(&target()) // Some(1999)
/// ```
pub fn first_known_year(rules: &[HolidayRule]) -> Option<i32>
    ensures begins { IfSome result (λ y. BeginsIn rules.now y) }
    ensures least { IfSome result (λ y. All (λ r. y ≤ℤ r.first_year) rules.now) }
    ensures none { IfNone result (rules.now ≡ []) }
{
    if rules.is_empty() {
        return None;
    }
    let mut first = rules[0].first_year;
    for rule in rules {
        first = earlier(first, rule);
    }
    Some(first)
}

// A year, or the first one of a rule if that is earlier.
fn earlier(year: i32, rule: &HolidayRule) -> i32
    ensures either { (result ≡ year) ⊎ (result ≡ rule.now.first_year) }
    ensures before { result ≤ℤ year }
    ensures holds { result ≤ℤ rule.now.first_year }
{
    if year <= rule.first_year {
        year
    } else {
        rule.first_year
    }
}
