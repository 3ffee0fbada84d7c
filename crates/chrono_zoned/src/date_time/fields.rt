//! The fields of the local date and time.
//!
//! They have the names of [`Datelike`] and [`Timelike`]. A `DateTime` has neither trait: its `with_` functions would return
//! `None` where the clock skips the local time.
ghost use Rattle.std.specs.Prelude.{◌≡◌, ◌↔◌, ◌+◌, ◌≤◌, IsTrue};
ghost use Rattle.chrono_datetime.specs.Days.{day_of, month_of, ordinal_of, year_of};
ghost use Rattle.chrono_datetime.specs.Fields.{is_common_era, iso_year_and_week_of, quarter_of_month, year_of_era};
ghost use Rattle.chrono_datetime.specs.Time.{hour12_of, hour_of, minute_of, second_of};
ghost use Rattle.chrono_datetime.specs.Weeks.{weekday_of};
ghost use Rattle.chrono_zoned.specs.Zoned.{local_at};

use crate::date_time::DateTime;
use crate::time_zone::TimeZone;
use chrono_datetime::{Datelike, IsoWeek, NaiveDate, NaiveTime, Timelike, Weekday};

impl<Z: TimeZone> DateTime<Z> {
    /// Returns the local date.
    ///
    /// ```
    /// Utc.with_ymd_and_hms(2024, 2, 29, 15, 4, 5).single()?.date_naive() // 2024-02-29
    /// ```
    #[inline]
    pub fn date_naive(&self) -> NaiveDate
        ensures { result ≡ (local_at (Z.ahead self.now.zone) self.now.utc).date }
    {
        self.naive_local().date()
    }

    /// Returns the local time of day.
    ///
    /// ```
    /// Utc.with_ymd_and_hms(2024, 2, 29, 15, 4, 5).single()?.time() // 15:04:05
    /// ```
    #[inline]
    pub fn time(&self) -> NaiveTime
        ensures { result ≡ (local_at (Z.ahead self.now.zone) self.now.utc).time }
    {
        self.naive_local().time()
    }

    /// Returns the year of the local date, as [`Datelike::year`].
    ///
    /// ```
    /// Utc.with_ymd_and_hms(2024, 2, 29, 15, 4, 5).single()?.year() // 2024
    /// ```
    #[inline]
    pub fn year(&self) -> i32
        ensures { result ≡ year_of (local_at (Z.ahead self.now.zone) self.now.utc).date }
    {
        self.naive_local().year()
    }

    /// Returns whether the local year is in the common era, and the year counted within its era.
    ///
    /// ```
    /// Utc.with_ymd_and_hms(2024, 2, 29, 15, 4, 5).single()?.year_ce() // (true, 2024)
    /// ```
    #[inline]
    pub fn year_ce(&self) -> (bool, u32)
        ensures era { result.0 ≡ is_common_era (year_of (local_at (Z.ahead self.now.zone) self.now.utc).date) }
        ensures year { result.1 ≡ year_of_era (year_of (local_at (Z.ahead self.now.zone) self.now.utc).date) }
    {
        self.naive_local().year_ce()
    }

    /// Returns the quarter of the local year, from 1 to 4.
    ///
    /// ```
    /// Utc.with_ymd_and_hms(2024, 2, 29, 15, 4, 5).single()?.quarter() // 1
    /// ```
    #[inline]
    pub fn quarter(&self) -> u32
        ensures { result ≡ quarter_of_month (month_of (local_at (Z.ahead self.now.zone) self.now.utc).date) }
    {
        self.naive_local().quarter()
    }

    /// Returns the month of the local date, from 1 for January to 12.
    ///
    /// ```
    /// Utc.with_ymd_and_hms(2024, 2, 29, 15, 4, 5).single()?.month() // 2
    /// ```
    #[inline]
    pub fn month(&self) -> u32
        ensures { result ≡ month_of (local_at (Z.ahead self.now.zone) self.now.utc).date }
    {
        self.naive_local().month()
    }

    /// Returns the month of the local date, from 0 for January to 11.
    ///
    /// ```
    /// Utc.with_ymd_and_hms(2024, 2, 29, 15, 4, 5).single()?.month0() // 1
    /// ```
    #[inline]
    pub fn month0(&self) -> u32
        ensures { result + 1 ≡ month_of (local_at (Z.ahead self.now.zone) self.now.utc).date }
    {
        self.naive_local().month0()
    }

    /// Returns the day of the month of the local date, from 1 to 31.
    ///
    /// ```
    /// Utc.with_ymd_and_hms(2024, 2, 29, 15, 4, 5).single()?.day() // 29
    /// ```
    #[inline]
    pub fn day(&self) -> u32
        ensures { result ≡ day_of (local_at (Z.ahead self.now.zone) self.now.utc).date }
    {
        self.naive_local().day()
    }

    /// Returns the day of the month of the local date, from 0 to 30.
    ///
    /// ```
    /// Utc.with_ymd_and_hms(2024, 2, 29, 15, 4, 5).single()?.day0() // 28
    /// ```
    #[inline]
    pub fn day0(&self) -> u32
        ensures { result + 1 ≡ day_of (local_at (Z.ahead self.now.zone) self.now.utc).date }
    {
        self.naive_local().day0()
    }

    /// Returns the day of the year of the local date, from 1 to 366.
    ///
    /// ```
    /// Utc.with_ymd_and_hms(2024, 2, 29, 15, 4, 5).single()?.ordinal() // 60
    /// ```
    #[inline]
    pub fn ordinal(&self) -> u32
        ensures { result ≡ ordinal_of (local_at (Z.ahead self.now.zone) self.now.utc).date }
    {
        self.naive_local().ordinal()
    }

    /// Returns the day of the year of the local date, from 0 to 365.
    ///
    /// ```
    /// Utc.with_ymd_and_hms(2024, 2, 29, 15, 4, 5).single()?.ordinal0() // 59
    /// ```
    #[inline]
    pub fn ordinal0(&self) -> u32
        ensures { result + 1 ≡ ordinal_of (local_at (Z.ahead self.now.zone) self.now.utc).date }
    {
        self.naive_local().ordinal0()
    }

    /// Returns the weekday of the local date.
    ///
    /// ```
    /// Utc.with_ymd_and_hms(2024, 2, 29, 15, 4, 5).single()?.weekday() // Thu
    /// ```
    #[inline]
    pub fn weekday(&self) -> Weekday
        ensures { result ≡ weekday_of (local_at (Z.ahead self.now.zone) self.now.utc).date }
    {
        self.naive_local().weekday()
    }

    /// Returns the ISO week of the local date (ISO 8601 week date).
    ///
    /// ```
    /// Utc.with_ymd_and_hms(2024, 2, 29, 15, 4, 5).single()?.iso_week() // 2024-W09
    /// ```
    #[inline]
    pub fn iso_week(&self) -> IsoWeek
        ensures { result ≡ iso_year_and_week_of (local_at (Z.ahead self.now.zone) self.now.utc).date }
    {
        self.naive_local().iso_week()
    }

    /// Returns the hour of the local time: 0 to 23.
    ///
    /// ```
    /// Utc.with_ymd_and_hms(2024, 2, 29, 15, 4, 5).single()?.hour() // 15
    /// ```
    #[inline]
    pub fn hour(&self) -> u32
        ensures { result ≡ hour_of (local_at (Z.ahead self.now.zone) self.now.utc).time }
    {
        self.naive_local().hour()
    }

    /// Returns whether it is noon or later, and the hour of the 12-hour clock: 1 to 12.
    ///
    /// ```
    /// Utc.with_ymd_and_hms(2024, 2, 29, 15, 4, 5).single()?.hour12() // (true, 3)
    /// ```
    #[inline]
    pub fn hour12(&self) -> (bool, u32)
        ensures afternoon { IsTrue result.0 ↔ (12 ≤ hour_of (local_at (Z.ahead self.now.zone) self.now.utc).time) }
        ensures hour { result.1 ≡ hour12_of (local_at (Z.ahead self.now.zone) self.now.utc).time }
    {
        self.naive_local().hour12()
    }

    /// Returns the minute of the local hour: 0 to 59.
    ///
    /// ```
    /// Utc.with_ymd_and_hms(2024, 2, 29, 15, 4, 5).single()?.minute() // 4
    /// ```
    #[inline]
    pub fn minute(&self) -> u32
        ensures { result ≡ minute_of (local_at (Z.ahead self.now.zone) self.now.utc).time }
    {
        self.naive_local().minute()
    }

    /// Returns the second of the local minute: 0 to 59. It does not count a leap second.
    ///
    /// ```
    /// Utc.with_ymd_and_hms(2024, 2, 29, 15, 4, 5).single()?.second() // 5
    /// ```
    #[inline]
    pub fn second(&self) -> u32
        ensures { result ≡ second_of (local_at (Z.ahead self.now.zone) self.now.utc).time }
    {
        self.naive_local().second()
    }

    /// Returns the nanoseconds past the second: 0 to 1,999,999,999. From 1,000,000,000 on they lie in a leap second.
    ///
    /// ```
    /// Utc.with_ymd_and_hms(2024, 2, 29, 15, 4, 5).single()?.nanosecond() // 0
    /// ```
    #[inline]
    pub fn nanosecond(&self) -> u32
        ensures { result ≡ ((local_at (Z.ahead self.now.zone) self.now.utc).time).fraction }
    {
        self.naive_local().nanosecond()
    }

    /// Returns the day number of the local date, in which 1 January of year 1 is 1.
    ///
    /// ```
    /// Utc.with_ymd_and_hms(2024, 2, 29, 15, 4, 5).single()?.num_days_from_ce() // 738945
    /// ```
    #[inline]
    pub fn num_days_from_ce(&self) -> i32
        ensures { result ≡ (local_at (Z.ahead self.now.zone) self.now.utc).date }
    {
        self.naive_local().num_days_from_ce()
    }

    /// Returns the seconds of the local day: 0 to 86,399.
    ///
    /// ```
    /// Utc.with_ymd_and_hms(2024, 2, 29, 15, 4, 5).single()?.num_seconds_from_midnight() // 54245
    /// ```
    #[inline]
    pub fn num_seconds_from_midnight(&self) -> u32
        ensures { result ≡ ((local_at (Z.ahead self.now.zone) self.now.utc).time).second }
    {
        self.naive_local().num_seconds_from_midnight()
    }
}
