//! Years, months and days between two days.
ghost use Rattle.std.specs.Prelude.{◌≡◌, ◌∷◌, ◌+ℤ◌, ◌*ℤ◌, [], pos, Some};
ghost use Rattle.dates_answer.specs.declared.span.Unit.TheVariants.{Days, Months};
ghost use Rattle.dates_answer.specs.Moves.{moved_from};
ghost use Rattle.dates_answer.specs.Parts.{IsPartsBetween};

use crate::between::{days_between, distance};
use crate::moves::moved_by;
use crate::span::Unit;
use chrono_datetime::NaiveDate;

/// Years, months and days. None is above 0 if they go back.
#[derive(Clone, Copy)]
pub struct Parts {
    /// The whole years.
    pub years: i64,
    /// The whole months beside the years, from -11 to 11.
    pub months: i64,
    /// The days after the months.
    pub days: i64,
}

const MONTHS_OF_A_YEAR: i64 = 12;

/// Returns the years, months and days that lead from `from` to `to`.
///
/// Years and months are counted together. They are the most whole months by which `from` moves without passing `to`, and twelve are a
/// year. The days that are left follow. All go back if `to` is earlier.
///
/// From 31 January 2024 to 1 March 2025 is one year, one month and one day: 13 months lead to 28 February 2025. From 29 February 2024
/// to 29 August 2025 is one year and six months.
///
/// From 29 February 2024 to 28 February 2028 is three years, eleven months and 30 days: 47 months lead to 29 January 2028. From a
/// 29 February, moves by the years and then by the months may lead to another day.
pub fn parts_between(from: NaiveDate, to: NaiveDate) -> Parts
    ensures is { IsPartsBetween from to result }
    ensures adds_up { moved_from (record { count = pos 12 *ℤ result.years +ℤ result.months; unit = Months } ∷ record { count = result.days; unit = Days } ∷ []) from ≡ Some to }
{
    let whole = distance(from, to, Unit::Months);
    let with_months = moved_by(from, Unit::Months, whole).unwrap_or(to);
    let days = days_between(with_months, to);
    Parts {
        years: whole / MONTHS_OF_A_YEAR,
        months: whole % MONTHS_OF_A_YEAR,
        days,
    }
}
