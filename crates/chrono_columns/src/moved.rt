//! One element moved by days, and its distance from another.
ghost use Rattle.std.specs.Prelude.{◌≡◌, pos, neg_ℤ, ◌≤ℤ◌, ◌<ℤ◌};
ghost use Rattle.chrono_columns.specs.Columns.{distance_entry, later_entry};

use crate::nearest::{is_date, nearest_date};
use crate::none::NONE;

// The days from the first date to the day past the last: whatever is moved so far is no date.
const PAST_ALL: i32 = 191_491_529;

// The number nearest to another, of those up to so many days each way.
#[inline]
fn nearest_count(days: i32) -> i32
    ensures same { neg_ℤ (pos 191_491_529) ≤ℤ days → days ≤ℤ pos 191_491_529 → result ≡ days }
    // Any other is taken for one of the two ends.
    ensures inner { neg_ℤ (pos 191_491_529) <ℤ result → result <ℤ pos 191_491_529 → result ≡ days }
    ensures in_range { (neg_ℤ (pos 191_491_529) ≤ℤ result) × (result ≤ℤ pos 191_491_529) }
{
    if days < -PAST_ALL {
        return -PAST_ALL;
    }
    if days > PAST_ALL { PAST_ALL } else { days }
}

/// Returns the date `days` days later, or [`NONE`].
#[inline]
pub(crate) fn days_later(number: i32, days: i32) -> i32
    ensures { result ≡ later_entry days number }
{
    let moved = nearest_date(number) + nearest_count(days);
    if is_date(number) & is_date(moved) {
        moved
    } else {
        NONE
    }
}

/// Returns the days from `base` to `number`, or [`NONE`].
#[inline]
pub(crate) fn days_from(number: i32, base: i32) -> i32
    ensures { result ≡ distance_entry number base }
{
    let days = nearest_date(number) - nearest_date(base);
    if is_date(number) & is_date(base) {
        days
    } else {
        NONE
    }
}
