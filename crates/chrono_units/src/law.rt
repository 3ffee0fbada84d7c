//! Laws of the sets that have names, as the contract of a function.
ghost use Rattle.std.specs.Prelude.{◌≡◌};
ghost use Rattle.chrono_units.specs.WeekdaySet.{all_days, no_days};

use crate::weekday_set::WeekdaySet;

/// Returns [`WeekdaySet::EMPTY`], which has no day, and [`WeekdaySet::ALL`], which has all seven.
///
/// ```
/// law::named_sets() // (WeekdaySet(0000000), WeekdaySet(1111111))
/// ```
pub fn named_sets() -> (WeekdaySet, WeekdaySet)
    ensures empty { result.0 ≡ no_days }
    ensures all { result.1 ≡ all_days }
{
    (WeekdaySet::EMPTY, WeekdaySet::ALL)
}
