//! Day counts: the part of a year between two dates, as an exact fraction.
ghost use Rattle.std.specs.Prelude.{◌≡◌};
ghost use Rattle.chrono_datetime.specs.Days.{IsDate};
ghost use Rattle.layers_c.specs.DayCounts.{day_count, no_fraction};

use chrono_business::{
    Fraction, actual_360, actual_365_fixed, actual_actual_isda, thirty_360, thirty_e_360,
};
use chrono_datetime::NaiveDate;
use numbers_c::date_of;

/// An exact fraction, which is not reduced. Its denominator is 0 if there is none.
#[repr(C)]
#[derive(Clone, Copy)]
pub struct CalendarFraction {
    /// The number above the line.
    pub numerator: i64,
    /// The number below the line.
    pub denominator: i64,
}

/// Returns the part of a year from one date to another by a day count, from 0 to 4.
#[unsafe(no_mangle)]
pub extern "C" fn calendar_day_count(kind: u32, from: i32, to: i32) -> CalendarFraction
    ensures fraction { IsDate from → IsDate to → result ≡ day_count kind from to }
    ensures no_from { (IsDate from → ⊥) → result ≡ no_fraction }
    ensures no_to { (IsDate to → ⊥) → result ≡ no_fraction }
{
    let Some(from) = date_of(from) else {
        return none();
    };
    match date_of(to) {
        Some(to) => day_count(kind, from, to),
        None => none(),
    }
}

// The part of a year between two dates by a day count.
fn day_count(kind: u32, from: NaiveDate, to: NaiveDate) -> CalendarFraction
    ensures { result ≡ day_count kind from to }
{
    if kind == 0 {
        numbers_of(actual_actual_isda(from, to))
    } else if kind == 1 {
        numbers_of(actual_360(from, to))
    } else if kind == 2 {
        numbers_of(actual_365_fixed(from, to))
    } else if kind == 3 {
        numbers_of(thirty_360(from, to))
    } else if kind == 4 {
        numbers_of(thirty_e_360(from, to))
    } else {
        none()
    }
}

// The numbers of a fraction.
fn numbers_of(fraction: Fraction) -> CalendarFraction
    ensures numerator { result.numerator ≡ fraction.numerator }
    ensures denominator { result.denominator ≡ fraction.denominator }
{
    CalendarFraction {
        numerator: fraction.numerator,
        denominator: fraction.denominator,
    }
}

// No fraction.
fn none() -> CalendarFraction
    ensures { result ≡ no_fraction }
{
    CalendarFraction {
        numerator: 0,
        denominator: 0,
    }
}
