//! `Turn`: which of two yearly changes came last, and when one comes next, told by the changes of one year.
ghost use Rattle.std.specs.Prelude.{◌≡◌, ◌<◌, ℤ, pos, ◌+ℤ◌, ◌-ℤ◌, ◌≤ℤ◌, ◌<ℤ◌, IfSome, unsigned_abs};
ghost use Rattle.zone_rule.specs.Changes.{IsYearOfCycle, change_second};
ghost use Rattle.zone_rule.specs.Private.{AreInOrder, ComesWithin, IsLastOfTwo, IsTurn, IsYearly};

use crate::change::Change;
use crate::mean_year::{Past, SECS_PER_MEAN_YEAR};
use chrono_zoned::FixedOffset;

// Counted from 1 January, the day of a change differs by at most 32 days from year to year. So two changes that lie further apart than
// twice that come in the same order each year.
const SECS_IN_ORDER: i64 = 5_529_600;

// And a change comes again after at least 333 days.
const SECS_TO_NEXT: i64 = 28_771_200;

// Which of two changes came last by a second, and when one of them comes next.
#[derive(Clone, Copy)]
pub(crate) struct Turn {
    // Whether it is the one that comes first in the year of the second.
    pub(crate) is_first: bool,
    // The next second at which one of the two comes.
    pub(crate) next: i64,
}

// The turn at a second, where the first change of its year comes at `came`, and the other one at `comes`.
//
// `None` if the two lie too near to each other, or too far from the second, for the changes of one year to tell it.
#[inline(always)]
pub(crate) fn turn_at(
    first: &Change,
    offset: FixedOffset,
    year: i32,
    came: i64,
    comes: i64,
    second: i64,
) -> Option<Turn>
    requires year { IsYearOfCycle year }
    requires came { came ≡ change_second offset first.now year }
    requires near { unsigned_abs came < 8_400_000_000_000 }
    requires far { unsigned_abs comes < 8_400_000_000_000 }
    ensures turn { (other : ℤ → ℤ) → comes ≡ other year → IsYearly (change_second offset first.now) → IsYearly other
        → AreInOrder (change_second offset first.now) other → IfSome result (IsTurn (change_second offset first.now) other year second) }
    ensures in_range { IfSome result (λ t. unsigned_abs t.next < 8_400_000_000_000) }
{
    if comes <= came + SECS_IN_ORDER || came + SECS_TO_NEXT <= comes {
        return None;
    }
    if second < comes - SECS_TO_NEXT || came + SECS_TO_NEXT <= second {
        return None;
    }
    // With no branch, since which of the two came last is told by chance.
    let is_first = (came <= second) & (second < comes);
    let next = if second < came { came } else { comes };
    if second < comes {
        return Some(Turn { is_first, next });
    }
    Some(Turn {
        is_first,
        next: first.second_in(year + 1, offset),
    })
}

// Whether the first of two changes came last by a second, and up to which second that stays so, where the first one comes next. Its own year tells.
//
// `None` if the windows of the two do not tell in which order they come.
#[inline(always)]
pub(crate) fn turn_near(
    first: &Change,
    offset: FixedOffset,
    last: Past,
    other: Past,
    second: i64,
    place: i64,
) -> Option<Turn>
    requires first { pos 0 ≤ℤ second }
    requires last { second ≤ℤ pos 12_622_867_200 }
    requires place { (pos 0 ≤ℤ place) × (place <ℤ pos 31_556_952) }
    requires year { (pos 1_969 ≤ℤ last.year) × (last.year ≤ℤ pos 2_370) }
    requires low { (unsigned_abs last.low < 80_000_000) × (unsigned_abs other.low < 80_000_000) }
    requires high { (unsigned_abs last.high < 80_000_000) × (unsigned_abs other.high < 80_000_000) }
    requires come { (last.high ≤ℤ place) × (other.high ≤ℤ place) }
    ensures turn { (g : ℤ → ℤ) → ComesWithin (change_second offset first.now) (second -ℤ place) last → ComesWithin g (second -ℤ place) other
        → IfSome result (λ t. (u : ℤ) → second ≤ℤ u → u <ℤ t.next → IsLastOfTwo (change_second offset first.now) g u t.is_first) }
    ensures in_range { IfSome result (λ t. unsigned_abs t.next < 8_400_000_000_000) }
{
    if other.low <= last.high || last.low + SECS_PER_MEAN_YEAR <= other.high {
        return None;
    }
    let next = first.second_in(last.year + 1, offset);
    if second < next {
        return Some(Turn {
            is_first: false,
            next,
        });
    }
    Some(Turn {
        is_first: true,
        next: comes_again(second, place, other.low),
    })
}

// The first second at which a change may come again that came no sooner than `low` seconds behind the beginning of the mean year.
#[inline(always)]
fn comes_again(second: i64, place: i64, low: i64) -> i64
    requires first { pos 0 ≤ℤ second }
    requires last { second ≤ℤ pos 12_622_867_200 }
    requires place { (pos 0 ≤ℤ place) × (place <ℤ pos 31_556_952) }
    requires low { unsigned_abs low < 80_000_000 }
    ensures value { result ≡ second -ℤ place +ℤ low +ℤ pos 31_556_952 }
    ensures in_range { unsigned_abs result < 8_400_000_000_000 }
{
    second - place + low + SECS_PER_MEAN_YEAR
}
