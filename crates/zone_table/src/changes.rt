//! The changes of the offset before and after an instant.
ghost use Rattle.std.specs.Prelude.{◌≡◌, ◌+◌, ◌≤◌, ◌<◌, ◌↔◌, IfNone, IfSome, IsTrue, length};
ghost use Rattle.zone_table.specs.Changes.{IsNextChange, IsPreviousChange, IsSteadyFrom, IsSteadyTo};
ghost use Rattle.zone_table.specs.Sequence.{ChangesFirst, ChangesLast, IsSameFrom, IsSameTo};
ghost use Rattle.zone_table.specs.Table.{IsTable, offset_after, table_offset};

use crate::offsets::offset_of_count;
use crate::row::{Row, second_at};
use crate::search::rows_begun;
use chrono_zoned::FixedOffset;

/// Returns the first second after `second` at which the offset changes.
///
/// Returns `None` if one offset holds from `second` on. A row that sets the offset that holds already is no change.
/// Requires rows in which each follows the one before it ([`first_unordered`](crate::first_unordered)).
///
/// ```
/// let zero = FixedOffset::east_opt(0)?;
/// let hour = FixedOffset::east_opt(3_600)?;
/// let rows = [Row { second: 1_000, offset: hour }, Row { second: 9_000, offset: hour }];
/// next_change(zero, &rows, 999) // Some(1000)
/// next_change(zero, &rows, 1_000) // None
/// ```
pub fn next_change(first: FixedOffset, rows: &[Row], second: i64) -> Option<i64>
    requires { IsTable first rows.now }
    ensures next { IfSome result (IsNextChange (table_offset first rows.now) second) }
    ensures none { IfNone result (IsSteadyFrom (table_offset first rows.now) second) }
{
    match change_from(first, rows, rows_begun(rows, second)) {
        Some(place) => Some(second_at(rows, place)),
        None => None,
    }
}

/// Returns the last second up to `second` at which the offset changed.
///
/// Returns `None` if one offset holds up to `second`. A row that sets the offset that holds already is no change.
/// Requires rows in which each follows the one before it ([`first_unordered`](crate::first_unordered)).
///
/// ```
/// let zero = FixedOffset::east_opt(0)?;
/// let hour = FixedOffset::east_opt(3_600)?;
/// let rows = [Row { second: 1_000, offset: hour }, Row { second: 9_000, offset: hour }];
/// previous_change(zero, &rows, 10_000) // Some(1000)
/// previous_change(zero, &rows, 1_000) // Some(1000)
/// previous_change(zero, &rows, 999) // None
/// ```
pub fn previous_change(first: FixedOffset, rows: &[Row], second: i64) -> Option<i64>
    requires { IsTable first rows.now }
    ensures previous { IfSome result (IsPreviousChange (table_offset first rows.now) second) }
    ensures none { IfNone result (IsSteadyTo (table_offset first rows.now) second) }
{
    match change_before(first, rows, rows_begun(rows, second)) {
        Some(place) => Some(second_at(rows, place)),
        None => None,
    }
}

// The first row, from `count` on, that sets another offset than held before it.
fn change_from(first: FixedOffset, rows: &[Row], count: usize) -> Option<usize>
    requires { count ≤ length rows.now }
    ensures found { IfSome result (ChangesFirst (offset_after first rows.now) count (length rows.now)) }
    ensures none { IfNone result (IsSameFrom (offset_after first rows.now) count (length rows.now)) }
{
    let mut place = count;
    while place < rows.len() {
        if !keeps_offset(first, rows, place) {
            return Some(place);
        }
        place += 1;
    }
    None
}

// The last row before `count` that sets another offset than held before it.
fn change_before(first: FixedOffset, rows: &[Row], count: usize) -> Option<usize>
    requires { count ≤ length rows.now }
    ensures found { IfSome result (ChangesLast (offset_after first rows.now) count) }
    ensures none { IfNone result (IsSameTo (offset_after first rows.now) count) }
{
    let mut place = count;
    while 0 < place {
        if !keeps_offset(first, rows, place - 1) {
            return Some(place - 1);
        }
        place -= 1;
    }
    None
}

// Whether a row sets the offset that held before it.
fn keeps_offset(first: FixedOffset, rows: &[Row], place: usize) -> bool
    requires { place < length rows.now }
    ensures { IsTrue result ↔ (offset_after first rows.now (place + 1) ≡ offset_after first rows.now place) }
{
    offset_of_count(first, rows, place + 1) == offset_of_count(first, rows, place)
}
