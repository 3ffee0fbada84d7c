//! Searches in lists of instants.
ghost use Rattle.std.specs.Prelude.{◌≡◌, true, ℤ, ◌<ℤ◌, IfSome};
ghost use Rattle.zoned_rules.specs.LocalInstants.{HasDates};
ghost use Rattle.zoned_rules.specs.ZonedSets.{lists_second};
ghost use Rattle.zoned_rules.specs.Private.{IsReached, IsReachedBack};

use crate::search::instants::{earlier, has_dates, later};
use chrono_instant::Timestamp;
use chrono_zoned::{DateTime, TimeZone};

// Whether one of the instants lies in a second.
pub(crate) fn lists<Z: TimeZone>(instants: &[DateTime<Z>], second: i64) -> bool
    ensures { result ≡ lists_second instants.now second }
{
    instants.iter().any(|instant| instant.timestamp() == second)
}

// The first second after another in which one of the instants lies, if the clock of the zone has a date there.
pub(crate) fn first_listed<Z: TimeZone>(
    zone: Z,
    instants: &[DateTime<Z>],
    after: i64,
) -> Option<i64>
    ensures listed { IfSome result (λ c. (after <ℤ c) × HasDates (Z.ahead zone) c × (lists_second instants.now c ≡ true)) }
    ensures least { (u : ℤ) → after <ℤ u → HasDates (Z.ahead zone) u → lists_second instants.now u ≡ true → IsReached result u }
{
    let mut best: Option<i64> = None;
    let mut rest = instants;
    while let Some((first, others)) = rest.split_first() {
        best = earlier(best, second_after(zone, first.timestamp(), after));
        rest = others;
    }
    best
}

// The last second before another in which one of the instants lies, if the clock of the zone has a date there.
pub(crate) fn last_listed<Z: TimeZone>(zone: Z, instants: &[DateTime<Z>], end: i64) -> Option<i64>
    ensures listed { IfSome result (λ c. (c <ℤ end) × HasDates (Z.ahead zone) c × (lists_second instants.now c ≡ true)) }
    ensures greatest { (u : ℤ) → u <ℤ end → HasDates (Z.ahead zone) u → lists_second instants.now u ≡ true → IsReachedBack result u }
{
    let mut best: Option<i64> = None;
    let mut rest = instants;
    while let Some((first, others)) = rest.split_first() {
        best = later(best, second_before(zone, first.timestamp(), end));
        rest = others;
    }
    best
}

// A second if it lies after another, and UTC and the clock have a date there.
fn second_after<Z: TimeZone>(zone: Z, second: i64, after: i64) -> Option<i64>
    ensures found { IfSome result (λ c. (c ≡ second) × (after <ℤ c) × HasDates (Z.ahead zone) c) }
    ensures only { after <ℤ second → HasDates (Z.ahead zone) second → IsReached result second }
{
    if after < second && has_dates(zone, second) {
        Some(second)
    } else {
        None
    }
}

// A second if it lies before another, and UTC and the clock have a date there.
fn second_before<Z: TimeZone>(zone: Z, second: i64, end: i64) -> Option<i64>
    ensures found { IfSome result (λ c. (c ≡ second) × (c <ℤ end) × HasDates (Z.ahead zone) c) }
    ensures only { second <ℤ end → HasDates (Z.ahead zone) second → IsReachedBack result second }
{
    if second < end && has_dates(zone, second) {
        Some(second)
    } else {
        None
    }
}
