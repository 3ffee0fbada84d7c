//! A month and a day with the flags of a year, to convert between a month with a day and an ordinal.
ghost use Rattle.std.specs.Prelude.{◌≡◌, ◌+◌, ◌*◌, ◌/◌, ◌%◌, ◌≤◌, SomeIff};
ghost use Rattle.std.specs.Int.{IsInRange};
ghost use Rattle.chrono_calendar.specs.Flags.{IsYearFlags};
ghost use Rattle.chrono_internals.specs.MonthDay.{IsDayOfMonth, ordinal_of_month_day, month_day_of_ordinal};

use crate::tables::mdl_to_ol::mdl_to_ol;
use crate::tables::ol_to_mdl::ol_to_mdl;
use chrono_calendar::{Steps, YearFlags};
use std::marker::Model;

/// A month, a day and the flags of a year. They need not be a real day: 30 February is allowed.
///
/// It is stored as `(month << 9) + (day << 4) + flags`. Contracts see the three numbers.
#[derive(Clone, Copy, PartialEq, Eq)]
pub struct Mdf {
    bits: u32,
}

impl Model for Mdf {
    ghost use Rattle.std.specs.Prelude.{ℕ, ◌/◌, ◌%◌, ◌≤◌};
    ghost use Rattle.std.proofs.Common.{ap};
    ghost use Rattle.chrono_calendar.specs.Flags.{IsYearFlags};
    ghost use Rattle.chrono_internals.specs.MonthDay.{MonthDayFlags, stored_month_day, month_day_stored, stored_month_day-stored};

    ghost Value = { MonthDayFlags };

    ghost view = { λ a. month_day_stored a.bits };

    ghost invariant = { λ a. (a.bits / 512 ≤ 12) × IsYearFlags (a.bits % 16) };

    ghost inverse = { λ v. record { bits = stored_month_day v } };

    ghost inverse_ok = { λ a h. ap (λ (n : ℕ). record { bits = n }) (stored_month_day-stored a.bits) };
}

impl Mdf {
    /// Returns the month `month` and the day `day` with the flags `flags`. A month or a day of 0 is allowed.
    ///
    /// Returns `None` if `month` is above 12 or `day` is above 31.
    ///
    /// ```
    /// use chrono_calendar::YearFlags;
    /// Mdf::new(2, 29, YearFlags::from_year(2024))?.ordinal() // Some(60)
    /// Mdf::new(13, 1, YearFlags::from_year(2024)) == None // true
    /// ```
    #[inline]
    pub fn new(month: u32, day: u32, flags: YearFlags) -> Option<Mdf>
        ensures { SomeIff result ((month ≤ 12) × (day ≤ 31))
            (record { month = month; day = day; flags = flags }) }
    {
        if month > 12 || day > 31 {
            return None;
        }
        Some(Mdf {
            bits: (month << 9) + (day << 4) + u32::from(flags.bits()),
        })
    }

    /// Returns the month and the day of an ordinal, in a year with the flags `flags`.
    ///
    /// `ol` is `(ordinal << 1) + l`, where `l` is 0 for a leap year and 1 for a common year. Requires `ol` to be from 2
    /// to 732, and `l` to fit `flags`.
    ///
    /// ```
    /// use chrono_calendar::YearFlags;
    /// let date = Mdf::from_ol(60 << 1, YearFlags::from_year(2024));
    /// (date.month(), date.day()) // (2, 29)
    /// ```
    #[inline]
    pub fn from_ol(ol: u32, flags: YearFlags) -> Mdf
        requires ol { IsInRange 2 732 ol }
        requires length { ol % 2 ≡ flags / 8 }
        ensures { result ≡ month_day_of_ordinal (ol / 2) flags }
    {
        let mut steps = Steps::new();
        let mdl = ol + u32::from(ol_to_mdl(ol, &mut steps));
        steps.end();
        Mdf {
            bits: (mdl << 3) + u32::from(flags.bits() % 8),
        }
    }

    /// Returns the month: 0 to 12.
    ///
    /// ```
    /// use chrono_calendar::YearFlags;
    /// Mdf::new(2, 30, YearFlags::from_year(2024))?.month() // 2
    /// ```
    #[inline]
    pub fn month(&self) -> u32
        ensures value { result ≡ self.now.month }
        ensures bound { result ≤ 12 }
    {
        self.bits >> 9
    }

    /// Returns the day: 0 to 31.
    ///
    /// ```
    /// use chrono_calendar::YearFlags;
    /// Mdf::new(2, 30, YearFlags::from_year(2024))?.day() // 30
    /// ```
    #[inline]
    pub fn day(&self) -> u32
        ensures value { result ≡ self.now.day }
        ensures bound { result ≤ 31 }
    {
        (self.bits >> 4) % 32
    }

    /// Returns the same day and flags with the month `month`.
    ///
    /// Returns `None` if `month` is above 12.
    ///
    /// ```
    /// use chrono_calendar::YearFlags;
    /// Mdf::new(2, 29, YearFlags::from_year(2024))?.with_month(1)?.ordinal() // Some(29)
    /// ```
    #[inline]
    pub fn with_month(&self, month: u32) -> Option<Mdf>
        ensures { SomeIff result (month ≤ 12) (record self.now { month = month }) }
    {
        if month > 12 {
            return None;
        }
        Some(Mdf {
            bits: (month << 9) + self.bits % 512,
        })
    }

    /// Returns the same month and flags with the day `day`.
    ///
    /// Returns `None` if `day` is above 31.
    ///
    /// ```
    /// use chrono_calendar::YearFlags;
    /// Mdf::new(2, 29, YearFlags::from_year(2024))?.with_day(1)?.ordinal() // Some(32)
    /// ```
    #[inline]
    pub fn with_day(&self, day: u32) -> Option<Mdf>
        ensures { SomeIff result (day ≤ 31) (record self.now { day = day }) }
    {
        if day > 31 {
            return None;
        }
        Some(Mdf {
            bits: self.bits - self.bits % 512 + (day << 4) + self.bits % 16,
        })
    }

    /// Returns the same month and day with the flags `flags`.
    ///
    /// ```
    /// use chrono_calendar::YearFlags;
    /// let date = Mdf::new(2, 29, YearFlags::from_year(2024))?;
    /// date.with_flags(YearFlags::from_year(2023)).ordinal() // None
    /// ```
    #[inline]
    pub fn with_flags(&self, flags: YearFlags) -> Mdf
        ensures { result ≡ record self.now { flags = flags } }
    {
        Mdf {
            bits: self.bits - self.bits % 16 + u32::from(flags.bits()),
        }
    }

    /// Returns the day of the year.
    ///
    /// Returns `None` if a year with these flags has no such day.
    ///
    /// ```
    /// use chrono_calendar::YearFlags;
    /// Mdf::new(2, 29, YearFlags::from_year(2024))?.ordinal() // Some(60)
    /// Mdf::new(2, 29, YearFlags::from_year(2023))?.ordinal() // None
    /// ```
    #[inline]
    pub fn ordinal(&self) -> Option<u32>
        ensures { SomeIff result (IsDayOfMonth self.now) (ordinal_of_month_day self.now) }
    {
        match self.ordinal_and_flags() {
            Some(packed) => Some(packed >> 4),
            None => None,
        }
    }

    /// Returns the day of the year and the flags, as `(ordinal << 4) + flags`.
    ///
    /// Returns `None` if a year with these flags has no such day.
    ///
    /// ```
    /// use chrono_calendar::YearFlags;
    /// Mdf::new(2, 29, YearFlags::from_year(2024))?.ordinal_and_flags() // Some(966)
    /// ```
    #[inline]
    pub fn ordinal_and_flags(&self) -> Option<u32>
        ensures value { SomeIff result (IsDayOfMonth self.now)
            (ordinal_of_month_day self.now * 16 + self.now.flags) }
        ensures flags { IsYearFlags self.now.flags }
    {
        let mut steps = Steps::new();
        let above = u32::from(mdl_to_ol(self.bits >> 3, &mut steps));
        steps.end();
        if above == 0 {
            return None;
        }
        Some(self.bits - (above << 3))
    }
}
