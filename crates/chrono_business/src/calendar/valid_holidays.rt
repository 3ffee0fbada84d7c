//! Holidays that are checked.
ghost use Rattle.std.specs.Prelude.{◌≡◌, ◌↔◌, IsOk, IfOk, IfErr, IfSome, IfNone};
ghost use Rattle.chrono_business.specs.OpenDays.{AreHolidays};
ghost use Rattle.chrono_business.specs.WrongHolidays.{IsWrong};

use crate::calendar::Calendar;
use crate::holiday_error::HolidayError;
use chrono_datetime::{Datelike, NaiveDate, WeekdaySet};

impl<'a> Calendar<'a> {
    /// Returns the calendar that is closed on the days of `weekend` and on `holidays`, if the holidays are valid.
    ///
    /// Returns an error if the holidays are not strictly increasing, or if one of them is on the weekend.
    /// The error has the place of the first wrong holiday, counted from 0.
    /// If both faults apply to that holiday, the error is `OnWeekend`.
    ///
    /// ```
    /// use chrono_datetime::{NaiveDate, Weekday, WeekdaySet};
    /// let holidays = [NaiveDate::from_ymd_opt(2024, 1, 1)?, NaiveDate::from_ymd_opt(2024, 6, 1)?];
    /// let weekend = WeekdaySet::from_array([Weekday::Sat, Weekday::Sun]);
    /// Calendar::try_new(weekend, &holidays).err() // Some(OnWeekend(1))
    /// ```
    pub fn try_new(
        weekend: WeekdaySet,
        holidays: &'a [NaiveDate],
    ) -> Result<Calendar<'a>, HolidayError>
        ensures ok { IfOk result (λ c. c ≡ record { weekend = weekend; holidays = holidays.now }) }
        ensures checked { IsOk result ↔ AreHolidays weekend holidays.now }
        ensures wrong { IfErr result (λ e. IsWrong weekend holidays.now e) }
    {
        match wrong_holiday(weekend, holidays) {
            Some(wrong) => Err(wrong),
            None => Ok(Calendar::new(weekend, holidays)),
        }
    }
}

// The first holiday of a list that cannot be one of a calendar.
fn wrong_holiday(weekend: WeekdaySet, holidays: &[NaiveDate]) -> Option<HolidayError>
    ensures some { IfSome result (λ e. IsWrong weekend holidays.now e) }
    ensures none { IfNone result (AreHolidays weekend holidays.now) }
{
    for place in 0..holidays.len() {
        let holiday = holidays[place];
        let number = holiday.num_days_from_ce();
        if weekend.contains(holiday.weekday()) {
            return Some(HolidayError::OnWeekend(place));
        }
        if place > 0 && number <= holidays[place - 1].num_days_from_ce() {
            return Some(HolidayError::NotRising(place));
        }
    }
    None
}
