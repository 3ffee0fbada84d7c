//! `IsoWeek`: a week of ISO 8601.
ghost use Rattle.std.specs.Prelude.{◌≡◌, ◌+◌, ◌<◌};
ghost use Rattle.std.specs.Int.{IsInRange};
ghost use Rattle.chrono_naive.specs.Fields.{IsIsoYear};

mod order;
mod text;

use std::marker::Model;

/// A week of an ISO year (ISO 8601 week date). A week begins on Monday, and the first week of a year contains
/// the year's first Thursday.
///
/// Contracts see the ISO year and the week. Weeks are ordered by the year, then by the week.
#[derive(Clone, Copy, PartialEq, Eq, Hash)]
pub struct IsoWeek {
    year: i32,
    week: u32,
}

impl Model for IsoWeek {
    ghost use Rattle.std.specs.Int.{IsInRange};
    ghost use Rattle.chrono_naive.specs.Fields.{IsIsoYear, IsoYearAndWeek};

    ghost Value = { IsoYearAndWeek };

    ghost view = { λ w. record { year = w.year; week = w.week } };

    ghost invariant = { λ w. IsIsoYear w.year × IsInRange 1 53 w.week };

    ghost inverse = { λ n. record { year = n.year; week = n.week } };
}

impl IsoWeek {
    // The week of that number in the ISO year.
    #[inline]
    pub(crate) fn new(year: i32, week: u32) -> IsoWeek
        requires year { IsIsoYear year }
        requires week { IsInRange 1 53 week }
        ensures { result ≡ record { year = year; week = week } }
    {
        IsoWeek { year, week }
    }

    /// Returns the ISO year, from -262,143 to 262,143. It is the calendar year of the week's Thursday, so it
    /// may be the year before or after that of a day in the week.
    ///
    /// ```
    /// NaiveDate::from_ymd_opt(2024, 12, 30)?.iso_week().year() // 2025
    /// ```
    #[inline]
    pub fn year(&self) -> i32
        ensures value { result ≡ self.now.year }
        ensures in_range { IsIsoYear result }
    {
        self.year
    }

    /// Returns the week of the ISO year, from 1 to 53.
    ///
    /// ```
    /// NaiveDate::from_ymd_opt(2021, 1, 3)?.iso_week().week() // 53
    /// ```
    #[inline]
    pub fn week(&self) -> u32
        ensures value { result ≡ self.now.week }
        ensures in_range { IsInRange 1 53 result }
    {
        self.week
    }

    /// Returns the week of the ISO year counted from 0, from 0 to 52.
    ///
    /// ```
    /// NaiveDate::from_ymd_opt(2021, 1, 3)?.iso_week().week0() // 52
    /// ```
    #[inline]
    pub fn week0(&self) -> u32
        ensures value { result + 1 ≡ self.now.week }
        ensures in_range { result < 53 }
    {
        self.week - 1
    }
}
