//! How many whole units lie between two days.
ghost use Rattle.std.specs.Prelude.{◌≡◌, ◌-ℤ◌, ◌≤ℤ◌, neg_ℤ, pos};
ghost use Rattle.chrono_datetime.specs.Days.{IsDate};
ghost use Rattle.chrono_datetime.specs.MonthMoves.{month_index_of};
ghost use Rattle.dates_answer.specs.Distances.{IsUnitsBetween, units_apart};

use crate::moves::moved_by;
use crate::span::Unit;
use chrono_datetime::{Datelike, NaiveDate};

/// Returns the whole units from `from` to `to`: the most by which `from` moves without passing `to`.
///
/// The number is negative if `to` is earlier. From 31 January 2024 to 29 February is one month. From 29 February 2024 to
/// 27 February 2025 is no year.
pub fn distance(from: NaiveDate, to: NaiveDate, unit: Unit) -> i64
    ensures { IsUnitsBetween unit from to result }
{
    let units = units_apart(from, to, unit);
    let reached = moved_by(from, unit, units).unwrap_or(to);
    let left = days_between(reached, to);
    if days_between(from, to) < 0 {
        if left > 0 { units + 1 } else { units }
    } else if left < 0 {
        units - 1
    } else {
        units
    }
}

// The days from one day to another.
pub(crate) fn days_between(from: NaiveDate, to: NaiveDate) -> i64
    ensures is { result ≡ to -ℤ from }
    ensures first { IsDate from }
    ensures second { IsDate to }
{
    i64::from(to.num_days_from_ce()) - i64::from(from.num_days_from_ce())
}

// The units from one day to another, of months and years by their numbers alone: from 31 January to 1 February is a month.
#[tactic(auto, unfolding(crate::specs::Distances::units_apart))]
fn units_apart(from: NaiveDate, to: NaiveDate, unit: Unit) -> i64
    ensures is { result ≡ units_apart unit from to }
    ensures low { neg_ℤ (pos 200_000_000) ≤ℤ result }
    ensures high { result ≤ℤ pos 200_000_000 }
{
    match unit {
        Unit::Days => days_between(from, to),
        Unit::Weeks => days_between(from, to) / 7,
        Unit::Months => month_index(to) - month_index(from),
        Unit::Years => i64::from(to.year()) - i64::from(from.year()),
    }
}

// The months before that of a day, from January of year 0 on.
fn month_index(date: NaiveDate) -> i64
    ensures is { result ≡ month_index_of date }
    ensures low { neg_ℤ (pos 4_000_000) ≤ℤ result }
    ensures high { result ≤ℤ pos 4_000_000 }
{
    12 * i64::from(date.year()) + i64::from(date.month0())
}
