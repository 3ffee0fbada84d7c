//! Cycles of 400 years. Each has 146,097 days, counted from 1 January of its year 0.
ghost use Rattle.std.specs.Prelude.{◌≡◌, ◌+◌, ◌/◌, ◌<◌, ◌≤◌, pos, ◌+ℤ◌};
ghost use Rattle.chrono_calendar.specs.Days.{IsOrdinalName, day_number_of_yo};

use crate::tables::year_deltas::year_delta;
use chrono_calendar::Steps;

/// Returns the year of the cycle, from 0 to 399, and the day of the year, for the day `cycle` days after the cycle's first.
///
/// Requires `cycle` to be from 0 to 146,096.
///
/// ```
/// use chrono_calendar::Steps;
/// let mut steps = Steps::new();
/// let found = cycle_to_yo(365, &mut steps);
/// steps.end();
/// found // (0, 366)
/// ```
///
/// It divides by 365 first. It adds one step to `steps` if that gives the year, and two if it gives the year after.
#[inline]
pub fn cycle_to_yo(cycle: u32, steps: &mut Steps) -> (u32, u32)
    requires { cycle < 146_097 }
    ensures year { result.0 < 400 }
    ensures exists { IsOrdinalName (pos result.0) result.1 }
    ensures place { day_number_of_yo (pos result.0) result.1 +ℤ pos 365 ≡ pos cycle }
    ensures taken { steps.new + result.0 ≡ steps.old + 1 + cycle / 365 }
    ensures kept { steps.old + 1 ≤ steps.new }
    ensures cost { steps.new ≤ steps.old + 2 }
{
    let year = cycle / 365;
    let rest = cycle % 365;
    let delta = u32::from(year_delta(year, steps));
    if rest >= delta {
        return (year, rest + 1 - delta);
    }
    let previous = year - 1;
    (
        previous,
        rest + 366 - u32::from(year_delta(previous, steps)),
    )
}

/// Returns how many days after the cycle's first day lies the day `ordinal` of the year `year`. It adds one step to
/// `steps`.
///
/// Requires `year` to be from 0 to 399.
///
/// ```
/// use chrono_calendar::Steps;
/// let mut steps = Steps::new();
/// let days = yo_to_cycle(1, 1, &mut steps);
/// steps.end();
/// days // 366
/// ```
#[inline]
pub fn yo_to_cycle(year: u32, ordinal: u32, steps: &mut Steps) -> u32
    requires year { year < 400 }
    requires exists { IsOrdinalName (pos year) ordinal }
    ensures place { pos result ≡ day_number_of_yo (pos year) ordinal +ℤ pos 365 }
    ensures in_range { result < 146_097 }
    ensures cost { steps.new ≡ steps.old + 1 }
{
    year * 365 + u32::from(year_delta(year, steps)) + ordinal - 1
}
