//! The offset at an instant, and the offsets of a local time.
ghost use Rattle.std.specs.Prelude.{◌≡◌, ◌⊎◌, ℕ, ◌≤◌, ◌<◌, ◌+◌, ◌-◌, pos, ◌+ℤ◌, ◌≤ℤ◌, ◌<ℤ◌, IfSome, length};
ghost use Rattle.chrono_zoned.specs.declared.mapped_local_time.MappedLocalTime.TheVariants.{Single};
ghost use Rattle.chrono_zoned.specs.Offsets.{IsOffset};
ghost use Rattle.chrono_zoned.specs.Zones.{HoldsUntil, IsMapped};
ghost use Rattle.zone_table.specs.Sequence.{Come, IsRising, local_start};
ghost use Rattle.zone_table.specs.Table.{BeginsAt, IsTable, offset_after, table_offset, row_second};

use crate::row::{Row, second_at, table_offset};
use crate::search::{last_begun, rows_begun};
use chrono_zoned::{FixedOffset, MappedLocalTime, Stretch};

// No offset is as much.
const SECS_PER_DAY: i64 = 86_400;

/// Returns the offset at the instant `second`: that of the last row that has begun by then, or `first` before all rows.
///
/// Requires rows in which each follows the one before it ([`first_unordered`](crate::first_unordered)).
///
/// ```
/// let hour = FixedOffset::east_opt(3_600)?;
/// let rows = [Row { second: 1_000, offset: hour }];
/// let zero = FixedOffset::east_opt(0)?;
/// offset_of_instant(zero, &rows, 999) // +00:00
/// offset_of_instant(zero, &rows, 1_000) // +01:00
/// ```
// Within a caller's loop the search would have a branch for each step.
#[inline(never)]
pub fn offset_of_instant(first: FixedOffset, rows: &[Row], second: i64) -> FixedOffset
    requires { IsTable first rows.now }
    ensures { result ≡ table_offset first rows.now second }
{
    match last_begun(rows, second) {
        Some(from) => table_offset(from, 0),
        None => first,
    }
}

/// Returns the offset at the instant `second`, and the second of the next row, up to which it holds.
///
/// It is `i64::MAX` if no row is left. Requires rows in which each follows the one before it
/// ([`first_unordered`](crate::first_unordered)).
///
/// ```
/// let hour = FixedOffset::east_opt(3_600)?;
/// let rows = [Row { second: 1_000, offset: hour }];
/// let zero = FixedOffset::east_opt(0)?;
/// stretch_of_instant(zero, &rows, 999).until // 1000
/// stretch_of_instant(zero, &rows, 1_000).until == i64::MAX // true
/// ```
#[inline(never)]
pub fn stretch_of_instant(first: FixedOffset, rows: &[Row], second: i64) -> Stretch
    requires { IsTable first rows.now }
    ensures offset { result.offset ≡ table_offset first rows.now second }
    ensures holds { HoldsUntil (table_offset first rows.now) second result.until }
    ensures later { second <ℤ pos 9_223_372_036_854_775_807 → second <ℤ result.until }
    // It ends where the first of the later rows begins, if there is one.
    ensures rows { (k : ℕ) → k < length rows.now → second <ℤ row_second rows.now k → result.until ≤ℤ row_second rows.now k }
    ensures end { (result.until ≡ pos 9_223_372_036_854_775_807) ⊎ (BeginsAt rows.now result.until × (second <ℤ result.until)) }
{
    let count = rows_begun(rows, second);
    let offset = offset_of_count(first, rows, count);
    if count < rows.len() {
        let until = second_at(rows, count);
        return Stretch { offset, until };
    }
    Stretch::without_end(offset)
}

/// Returns the offsets at all instants at which the clock shows the local second `local`, the earlier instant first.
///
/// There is none if the clock is set ahead past `local`. There are two if it is set back, and shows `local` twice.
/// Requires rows in which each follows the one before it ([`first_unordered`](crate::first_unordered)).
///
/// ```
/// let zero = FixedOffset::east_opt(0)?;
/// let hour = FixedOffset::east_opt(3_600)?;
/// let ahead = [Row { second: 1_000, offset: hour }];
/// offsets_of_local(zero, &ahead, 999) // Single(+00:00)
/// offsets_of_local(zero, &ahead, 1_000) // None
/// offsets_of_local(zero, &ahead, 4_599) // None
/// offsets_of_local(zero, &ahead, 4_600) // Single(+01:00)
/// let back = [Row { second: 1_000, offset: zero }];
/// offsets_of_local(hour, &back, 999) // Single(+01:00)
/// offsets_of_local(hour, &back, 1_000) // Ambiguous(+01:00, +00:00)
/// offsets_of_local(hour, &back, 4_600) // Single(+00:00)
/// ```
#[inline(never)]
pub fn offsets_of_local(
    first: FixedOffset,
    rows: &[Row],
    local: i64,
) -> MappedLocalTime<FixedOffset>
    requires { IsTable first rows.now }
    ensures { IsMapped (table_offset first rows.now) local result }
{
    match settled_offset(first, rows, local) {
        Some(offset) => MappedLocalTime::Single(offset),
        None => offsets_near_change(first, rows, local),
    }
}

// The offset of the local second, if no row begins within a day of it.
#[inline(always)]
fn settled_offset(first: FixedOffset, rows: &[Row], local: i64) -> Option<FixedOffset>
    requires { IsTable first rows.now }
    ensures { IfSome result (λ only. IsMapped (table_offset first rows.now) local (Single only)) }
{
    let early = local.checked_sub(SECS_PER_DAY)?;
    let late = local.checked_add(SECS_PER_DAY)?;
    let Some(from) = last_begun(rows, late) else {
        touch_offsets(first, rows, 0);
        return Some(first);
    };
    touch_offsets(first, rows, rows.len() - from.len() + 1);
    if second_at(from, 0) < early {
        return Some(table_offset(from, 0));
    }
    None
}

// Reads the offsets around that of `count` rows, since a proof knows the range of what is read. The compiler leaves it out.
#[inline(always)]
fn touch_offsets(first: FixedOffset, rows: &[Row], count: usize)
    requires { count ≤ length rows.now }
    ensures before { IsOffset (offset_after first rows.now (count - 1)) }
    ensures here { IsOffset (offset_after first rows.now count) }
    ensures next { count < length rows.now → IsOffset (offset_after first rows.now (count + 1)) }
{
    let _before = offset_of_count(first, rows, count.saturating_sub(1));
    let _here = offset_of_count(first, rows, count);
    let _next = offset_of_count(first, rows, rows.len().min(count + 1));
}

// The offsets of any local second.
#[inline(never)]
fn offsets_near_change(first: FixedOffset, rows: &[Row], local: i64) -> MappedLocalTime<FixedOffset>
    requires { IsTable first rows.now }
    ensures { IsMapped (table_offset first rows.now) local result }
{
    let count = starts_by(first, rows, local);
    let after = offset_of_count(first, rows, count);
    if count == 0 {
        return MappedLocalTime::Single(after);
    }
    let before = offset_of_count(first, rows, count - 1);
    let second = second_at(rows, count - 1);
    if i128::from(local) < local_of(second, after) {
        return MappedLocalTime::None;
    }
    if i128::from(local) < local_of(second, before) {
        return MappedLocalTime::Ambiguous(before, after);
    }
    MappedLocalTime::Single(after)
}

// The offset once `count` rows have begun.
#[inline]
pub(crate) fn offset_of_count(first: FixedOffset, rows: &[Row], count: usize) -> FixedOffset
    requires { count ≤ length rows.now }
    ensures { result ≡ offset_after first rows.now count }
{
    if count == 0 {
        first
    } else {
        table_offset(rows, count - 1)
    }
}

// How many rows skip or repeat local seconds from `local` or an earlier one on.
fn starts_by(first: FixedOffset, rows: &[Row], local: i64) -> usize
    requires { IsRising (local_start (row_second rows.now) (offset_after first rows.now)) (length rows.now) }
    ensures { Come (local_start (row_second rows.now) (offset_after first rows.now)) (length rows.now) local result }
{
    let mut low = 0;
    let mut high = rows.len();
    while low < high {
        let middle = low + (high - low) / 2;
        if start_of(first, rows, middle) <= i128::from(local) {
            low = middle + 1;
        } else {
            high = middle;
        }
    }
    low
}

// The local second from which a row skips or repeats seconds.
#[inline]
pub(crate) fn start_of(first: FixedOffset, rows: &[Row], place: usize) -> i128
    requires { place < length rows.now }
    ensures { result ≡ local_start (row_second rows.now) (offset_after first rows.now) place }
{
    let before = offset_of_count(first, rows, place);
    let after = offset_of_count(first, rows, place + 1);
    shown(
        second_at(rows, place),
        before.local_minus_utc().min(after.local_minus_utc()),
    )
}

// What the clock shows at a second, where it is ahead by an offset.
#[inline]
fn local_of(second: i64, offset: FixedOffset) -> i128
    ensures { result ≡ second +ℤ offset }
{
    shown(second, offset.local_minus_utc())
}

// The same with the offset as a number of seconds.
#[inline]
pub(crate) fn shown(second: i64, offset: i32) -> i128
    ensures { result ≡ second +ℤ offset }
{
    i128::from(second) + i128::from(offset)
}
