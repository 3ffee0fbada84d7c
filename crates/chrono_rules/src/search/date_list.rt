//! Searches in a strictly increasing list of dates.
ghost use Rattle.std.specs.Prelude.{◌≡◌, ◌↔◌, ◌≤ℤ◌, ◌<ℤ◌, ℤ, true, false, IfSome, IfNone};
ghost use Rattle.chrono_datetime.specs.Days.{IsDate};
ghost use Rattle.chrono_datetime.specs.PassedOver.{PassedBetween, PassedOver};
ghost use Rattle.chrono_datetime.specs.RisingDates.{AreRising, is_listed};

use chrono_datetime::{NaiveDate, RisingDates};

// Whether each date is before those behind it.
pub(crate) fn are_rising(days: &[NaiveDate]) -> bool
    ensures { (result ≡ true) ↔ AreRising days.now }
{
    RisingDates::try_new(days).is_some()
}

// The first date of the list that is not before the day.
pub(crate) fn first_listed(days: &[NaiveDate], day: NaiveDate) -> Option<NaiveDate>
    requires rising { AreRising days.now }
    ensures member { IfSome result (λ e. is_listed days.now e ≡ true) }
    ensures not_before { IfSome result (λ e. day ≤ℤ e) }
    ensures dates { IfSome result (λ e. (d : ℤ) → day ≤ℤ d → d ≤ℤ e → IsDate d) }
    ensures least { IfSome result (λ e. PassedOver (is_listed days.now) day e) }
    ensures none { IfNone result ((d : ℤ) → day ≤ℤ d → is_listed days.now d ≡ false) }
{
    let Some(first) = RisingDates::new(days).first_from(day) else {
        return None;
    };
    Some(first)
}

// The last date of the list that is before the day.
pub(crate) fn last_listed(days: &[NaiveDate], day: NaiveDate) -> Option<NaiveDate>
    requires rising { AreRising days.now }
    ensures member { IfSome result (λ e. is_listed days.now e ≡ true) }
    ensures before { IfSome result (λ e. e <ℤ day) }
    ensures dates { IfSome result (λ e. (d : ℤ) → e ≤ℤ d → d <ℤ day → IsDate d) }
    ensures greatest { IfSome result (λ e. PassedBetween (is_listed days.now) e day) }
    ensures none { IfNone result ((d : ℤ) → d <ℤ day → is_listed days.now d ≡ false) }
{
    let Some(last) = RisingDates::new(days).last_before(day) else {
        return None;
    };
    Some(last)
}

// Whether the day is a date of the list.
pub(crate) fn is_listed(days: &[NaiveDate], day: NaiveDate) -> bool
    requires rising { AreRising days.now }
    ensures { result ≡ is_listed days.now day }
{
    RisingDates::new(days).contains(day)
}
