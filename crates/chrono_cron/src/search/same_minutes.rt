//! Whether a schedule is due at no moment, and whether two are due at the same.
ghost use Rattle.std.specs.Prelude.{◌≡◌, ◌↔◌, ◌<◌, ℕ, ℤ, IsTrue};
ghost use Rattle.chrono_datetime.specs.Days.{IsDate};
ghost use Rattle.chrono_cron.specs.Due.{IsNeverDue, MeanTheSame, is_day, is_minute};

use crate::field_sets::FieldSets;
use crate::search::days::CYCLE;
use crate::search::minutes::MINUTES_PER_DAY;
use chrono_datetime::NaiveDate;
use chrono_datetime::law::first_date;

impl FieldSets {
    /// Returns whether the fields list no moment at all.
    ///
    /// ```
    /// read_schedule(b"0 0 30 2 *").ok()?.sets.is_never_due() // true
    /// ```
    pub fn is_never_due(&self) -> bool
        ensures { IsTrue result ↔ IsNeverDue self.now }
    {
        let (first, _) = first_date();
        let Some(_) = self.first_minute(0) else {
            return true;
        };
        let Some(_) = self.first_day(first) else {
            return true;
        };
        false
    }
}

// Whether the two are due at the same moments.
pub(crate) fn mean_the_same(one: &FieldSets, other: &FieldSets) -> bool
    ensures { IsTrue result ↔ MeanTheSame one.now other.now }
{
    let (first, _) = first_date();
    let Some(minute) = one.first_minute(0) else {
        return other.is_never_due();
    };
    let Some(day) = one.first_day(first) else {
        return other.is_never_due();
    };
    if !other.is_day(day) {
        return false;
    }
    if !other.is_minute(minute) {
        return false;
    }
    if !have_same_minutes(one, other) {
        return false;
    }
    have_same_days(one, other)
}

// Whether the two have the same minutes of a day.
fn have_same_minutes(one: &FieldSets, other: &FieldSets) -> bool
    ensures { IsTrue result ↔ ((k : ℕ) → k < 1440 → is_minute one.now k ≡ is_minute other.now k) }
{
    let mut minute = 0;
    while minute < MINUTES_PER_DAY {
        if one.is_minute(minute) != other.is_minute(minute) {
            return false;
        }
        minute += 1;
    }
    true
}

// Whether the two have the same days: those of 400 years tell, after which days of the month and weekdays come again.
fn have_same_days(one: &FieldSets, other: &FieldSets) -> bool
    ensures { IsTrue result ↔ ((d : ℤ) → IsDate d → is_day one.now d ≡ is_day other.now d) }
{
    let (first, _) = first_date();
    let mut date = first;
    let mut left = CYCLE as u32;
    while left > 0 {
        let later = date.moved_by_days(1);
        if one.is_day(date) != other.is_day(date) {
            return false;
        }
        let Some(next) = later else {
            return true;
        };
        date = next;
        left -= 1;
    }
    true
}
