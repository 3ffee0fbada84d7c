//! The flags of a year: its length and the weekday of the day before it. They determine the ISO weeks of its days.
ghost use Rattle.std.specs.Prelude.{◌≡◌, ℕ, ◌+◌, ◌/◌, ◌<◌, SomeIff, ℤ, pos};
ghost use Rattle.std.specs.Int.{IsInRange, int_rem_euclid};
ghost use Rattle.chrono_units.specs.Years.{year_length};
ghost use Rattle.chrono_calendar.specs.Days.{IsOrdinalName};
ghost use Rattle.chrono_calendar.specs.Flags.{flags_of_year, IsYearFlags, weeks_of_iso_year, week_counted_in};

mod table;

use crate::steps::Steps;
use crate::year_flags::table::year_to_flags;
use std::marker::Model;

/// The flags of a year, a number of four binary digits.
///
/// The highest digit (8) is set in a common year. The others name the weekday of the last day before the year, from 1 for
/// Tuesday to 7 for Monday. Contracts see the flags as that number.
#[derive(Clone, Copy, PartialEq, Eq)]
pub struct YearFlags {
    number: u8,
}

impl Model for YearFlags {
    ghost use Rattle.std.specs.Prelude.{ℕ};

    ghost Value = { ℕ };

    ghost view = { λ f. f.number };

    ghost use Rattle.chrono_calendar.specs.Flags.{IsYearFlags};

    ghost invariant = { λ f. IsYearFlags f.number };

    ghost inverse = { λ n. record { number = n } };
}

impl YearFlags {
    /// Returns the flags of the proleptic Gregorian year `year`. Each `i32` is allowed.
    ///
    /// ```
    /// YearFlags::from_year(2024).bits() // 6
    /// ```
    ///
    /// The year 2024 is a leap year after a Sunday.
    #[inline]
    pub fn from_year(year: i32) -> YearFlags
        ensures value { result ≡ flags_of_year year }
        ensures in_range { IsYearFlags result }
    {
        let mut steps = Steps::new();
        let flags = YearFlags::from_year_counted(year, &mut steps);
        steps.end();
        flags
    }

    /// Returns the flags of the year `year`. It adds one step to `steps`.
    ///
    /// ```
    /// let mut steps = Steps::new();
    /// let flags = YearFlags::from_year_counted(2023, &mut steps);
    /// steps.end();
    /// flags.bits() // 13
    /// ```
    #[inline]
    pub fn from_year_counted(year: i32, steps: &mut Steps) -> YearFlags
        ensures value { result ≡ flags_of_year year }
        ensures in_range { IsYearFlags result }
        ensures cost { steps.new ≡ steps.old + 1 }
    {
        YearFlags {
            number: year_to_flags(year_of_cycle(year), steps),
        }
    }

    /// Returns the number of the flags: 1 to 7 for a leap year, 9 to 15 for a common year.
    ///
    /// ```
    /// YearFlags::from_year(2024).bits() // 6
    /// ```
    #[inline]
    pub fn bits(&self) -> u8
        ensures value { result ≡ self.now }
        ensures in_range { IsYearFlags self.now }
    {
        self.number
    }

    /// Returns the flags with the number `bits`.
    ///
    /// Returns `None` if `bits` is none of the fourteen numbers that years have.
    ///
    /// ```
    /// YearFlags::from_bits(6)?.ndays() // 366
    /// YearFlags::from_bits(8) == None // true
    /// ```
    #[inline]
    pub fn from_bits(bits: u8) -> Option<YearFlags>
        ensures { SomeIff result (IsYearFlags bits) bits }
    {
        if bits == 0 || bits == 8 || bits > 15 {
            return None;
        }
        Some(YearFlags { number: bits })
    }

    /// Returns the number of days in the year: 366 in a leap year, 365 in a common year.
    ///
    /// ```
    /// YearFlags::from_year(2024).ndays() // 366
    /// ```
    #[inline]
    pub fn ndays(&self) -> u32
        ensures { (y : ℤ) → self.now ≡ flags_of_year y → result ≡ year_length y }
    {
        366 - u32::from(self.bits() / 8)
    }

    /// Returns the number `delta`, from 3 to 9, that gives the ISO week of a day: week `(ordinal + delta) / 7`.
    ///
    /// ```
    /// (365 + YearFlags::from_year(2021).isoweek_delta()) / 7 // 52
    /// ```
    ///
    /// The week is 0 for a day of the ISO year before (ISO 8601). It is [`nisoweeks`](YearFlags::nisoweeks) + 1 for a
    /// day of the ISO year after.
    #[inline]
    pub fn isoweek_delta(&self) -> u32
        ensures week { (y : ℤ) (o : ℕ) → self.now ≡ flags_of_year y → IsOrdinalName y o →
            week_counted_in y o ≡ (o + result) / 7 }
        ensures bound { IsInRange 3 9 result }
    {
        let digits = u32::from(self.bits() % 8);
        if digits < 3 { digits + 7 } else { digits }
    }

    /// Returns the number of weeks in the ISO year (ISO 8601): 52 or 53.
    ///
    /// A year has 53 weeks if it begins on Thursday, or if it is a leap year and begins on Wednesday.
    ///
    /// ```
    /// YearFlags::from_year(2020).nisoweeks() // 53
    /// YearFlags::from_year(2021).nisoweeks() // 52
    /// ```
    #[inline]
    pub fn nisoweeks(&self) -> u32
        ensures weeks { (y : ℤ) → self.now ≡ flags_of_year y → result ≡ weeks_of_iso_year y }
        ensures bound { IsInRange 52 53 result }
    {
        52 + u32::from(matches!(self.bits(), 1 | 2 | 10))
    }
}

// A multiple of 400 that makes every year of an `i32` positive.
const CYCLES: i64 = 400 * 5_368_710;

// The Euclidean remainder of a year by 400. A remainder of unsigned numbers needs no branch.
#[inline]
fn year_of_cycle(year: i32) -> u32
    ensures value { pos result ≡ int_rem_euclid year (pos 400) }
    ensures bound { result < 400 }
{
    ((i64::from(year) + CYCLES) as u64 % 400) as u32
}
