//! The months of the year: their cycle of twelve, their numbers, names and lengths.

ghost use Rattle.std.specs.Prelude.{◌≡◌, ◌≤◌, ◌≤ℤ◌, pos, unsigned_abs};
ghost use Rattle.std.specs.Cmp.{partial_order_from_own_ties};
ghost use Rattle.std.specs.Cmp.Rules.{comparing};
ghost use Rattle.std.specs.Option.{SomeIff};
ghost use Rattle.std.specs.Ordering.{as_partial_cmp, nat_cmp, on};
ghost use Rattle.std.proofs.Common.{rules};
ghost use Rattle.std.specs.Result.{OkIff};
ghost use Rattle.chrono_units.specs.Month.{month_from_number, month_name, next_month, number_from_month, previous_month};
ghost use Rattle.chrono_units.specs.Years.{IsYear, month_length as length_of_month};

use crate::out_of_range::OutOfRange;
use crate::year::{is_leap_year, is_year, month_length};
use num_traits::cast;
use std::cmp::Ordering;

/// A month of the year.
///
/// The months form a cycle of twelve. They compare by their numbers, so January is the least.
#[derive(Clone, Copy, PartialEq, Eq, Hash, Debug)]
pub enum Month {
    /// January.
    January = 0,
    /// February.
    February = 1,
    /// March.
    March = 2,
    /// April.
    April = 3,
    /// May.
    May = 4,
    /// June.
    June = 5,
    /// July.
    July = 6,
    /// August.
    August = 7,
    /// September.
    September = 8,
    /// October.
    October = 9,
    /// November.
    November = 10,
    /// December.
    December = 11,
}

impl Month {
    /// Returns the next month of the cycle. January comes after December.
    ///
    /// ```
    /// Month::December.succ() // January
    /// ```
    #[inline]
    pub fn succ(&self) -> Month
        ensures { result ≡ next_month self.now }
    {
        match self {
            Month::January => Month::February,
            Month::February => Month::March,
            Month::March => Month::April,
            Month::April => Month::May,
            Month::May => Month::June,
            Month::June => Month::July,
            Month::July => Month::August,
            Month::August => Month::September,
            Month::September => Month::October,
            Month::October => Month::November,
            Month::November => Month::December,
            Month::December => Month::January,
        }
    }

    /// Returns the previous month of the cycle. December comes before January.
    ///
    /// ```
    /// Month::January.pred() // December
    /// ```
    #[inline]
    pub fn pred(&self) -> Month
        ensures { result ≡ previous_month self.now }
    {
        match self {
            Month::January => Month::December,
            Month::February => Month::January,
            Month::March => Month::February,
            Month::April => Month::March,
            Month::May => Month::April,
            Month::June => Month::May,
            Month::July => Month::June,
            Month::August => Month::July,
            Month::September => Month::August,
            Month::October => Month::September,
            Month::November => Month::October,
            Month::December => Month::November,
        }
    }

    /// Returns the number of the month: 1 for January, 12 for December.
    ///
    /// ```
    /// Month::December.number_from_month() // 12
    /// ```
    #[inline]
    pub fn number_from_month(&self) -> u32
        ensures { result ≡ number_from_month self.now }
    {
        *self as u32 + 1
    }

    /// Returns the English name of the month.
    ///
    /// ```
    /// Month::January.name() // "January"
    /// ```
    #[inline]
    pub fn name(&self) -> &'static str
        ensures { result.now ≡ month_name self.now }
    {
        match self {
            Month::January => "January",
            Month::February => "February",
            Month::March => "March",
            Month::April => "April",
            Month::May => "May",
            Month::June => "June",
            Month::July => "July",
            Month::August => "August",
            Month::September => "September",
            Month::October => "October",
            Month::November => "November",
            Month::December => "December",
        }
    }

    /// Returns how many days the month has in the year `year`: 28 to 31.
    ///
    /// Returns `None` if `year` is below -262,143 or above 262,142.
    ///
    /// ```
    /// Month::February.num_days(1900) // Some(28)
    /// Month::February.num_days(0) // Some(29)
    /// Month::January.num_days(262_143) // None
    /// ```
    #[inline]
    pub fn num_days(&self, year: i32) -> Option<u8>
        ensures { SomeIff result (IsYear year) (length_of_month year (number_from_month self.now)) }
    {
        if is_year(year) {
            Some(month_length(is_leap_year(year), self.number_from_month()))
        } else {
            None
        }
    }

    /// Returns the month with the number `n`: 1 is January, 12 is December.
    ///
    /// Returns `None` for any other number.
    ///
    /// ```
    /// Month::from_u32(2) // Some(February)
    /// Month::from_u32(13) // None
    /// ```
    #[inline]
    pub fn from_u32(n: u32) -> Option<Month>
        ensures { SomeIff result ((1 ≤ n) × (n ≤ 12)) (month_from_number n) }
    {
        match n {
            1 => Some(Month::January),
            2 => Some(Month::February),
            3 => Some(Month::March),
            4 => Some(Month::April),
            5 => Some(Month::May),
            6 => Some(Month::June),
            7 => Some(Month::July),
            8 => Some(Month::August),
            9 => Some(Month::September),
            10 => Some(Month::October),
            11 => Some(Month::November),
            12 => Some(Month::December),
            _ => None,
        }
    }

    /// Returns the month with the number `n`: 1 is January, 12 is December.
    ///
    /// Returns `None` for any other number.
    ///
    /// ```
    /// Month::from_u64(12) // Some(December)
    /// Month::from_u64(0) // None
    /// ```
    #[inline]
    pub fn from_u64(n: u64) -> Option<Month>
        ensures { SomeIff result ((1 ≤ n) × (n ≤ 12)) (month_from_number n) }
    {
        Month::from_u32(cast(n)?)
    }

    /// Returns the month with the number `n`: 1 is January, 12 is December.
    ///
    /// Returns `None` for any other number.
    ///
    /// ```
    /// Month::from_i64(2) // Some(February)
    /// Month::from_i64(-2) // None
    /// ```
    #[inline]
    pub fn from_i64(n: i64) -> Option<Month>
        ensures { SomeIff result ((pos 1 ≤ℤ n) × (n ≤ℤ pos 12))
            (month_from_number (unsigned_abs n)) }
    {
        Month::from_u64(cast(n)?)
    }
}

impl Ord for Month {
    ghost cmp = { on number_from_month nat_cmp };

    ghost total = { Prim.search (comparing, rules) };

    ghost matches_partial_cmp = { Prim.search (comparing, rules) };

    ghost matches_eq = { Prim.search (comparing, rules) };

    /// Months compare by their numbers, so January is the least and December the greatest.
    #[inline]
    fn cmp(&self, other: &Month) -> Ordering
        ensures number { result
            ≡ nat_cmp (number_from_month self.now) (number_from_month other.now) }
    {
        self.number_from_month().cmp(&other.number_from_month())
    }
}

impl PartialOrd for Month {
    ghost partial_cmp = { as_partial_cmp (on number_from_month nat_cmp) };

    ghost laws = { partial_order_from_own_ties
        (Prim.search (comparing, rules)) (Prim.search (comparing, rules)) };

    #[inline]
    fn partial_cmp(&self, other: &Month) -> Option<Ordering> {
        Some(self.cmp(other))
    }
}

impl TryFrom<u8> for Month {
    type Error = OutOfRange;

    ghost try_from_gives = { λ n r. OkIff r ((1 ≤ n) × (n ≤ 12)) (month_from_number n) };

    /// Returns the month with the number `value`: 1 is January, 12 is December. Any other number is an error.
    #[inline]
    fn try_from(value: u8) -> Result<Month, OutOfRange> {
        Month::from_u32(u32::from(value)).ok_or(OutOfRange::new())
    }
}
