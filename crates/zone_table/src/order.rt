//! Whether rows make a table.
ghost use Rattle.std.specs.Prelude.{◌≡◌, ℕ, ◌+◌, ◌<◌, ◌≤◌, ◌↔◌, IfNone, IfSome, IsTrue, length};
ghost use Rattle.chrono_zoned.specs.Offsets.{IsOffset};
ghost use Rattle.zone_table.specs.Sequence.{local_end};
ghost use Rattle.zone_table.specs.Table.{IsFirstUnordered, IsTable, RowFollows, offset_after, row_second};

use crate::offsets::{offset_of_count, shown, start_of};
use crate::row::{Row, second_at};
use chrono_zoned::FixedOffset;

/// Returns the place of the first row that does not follow the one before it, counted from 0.
///
/// Returns `None` if each row follows: the rows are then a table, as the other functions require. A row follows if its
/// second is later, and if the local seconds that it skips or repeats come after those of the row before.
///
/// ```
/// let zero = FixedOffset::east_opt(0)?;
/// let hour = FixedOffset::east_opt(3_600)?;
/// first_unordered(zero, &[Row { second: 1_000, offset: hour }, Row { second: 9_000, offset: zero }]) // None
/// first_unordered(zero, &[Row { second: 9_000, offset: hour }, Row { second: 1_000, offset: zero }]) // Some(1)
/// first_unordered(zero, &[Row { second: 1_000, offset: hour }, Row { second: 4_599, offset: zero }]) // Some(1)
/// ```
pub fn first_unordered(first: FixedOffset, rows: &[Row]) -> Option<usize>
    ensures unordered { IfSome result (IsFirstUnordered first rows.now) }
    ensures none { IfNone result (IsTable first rows.now) }
    // Each offset is less than a day.
    ensures near { (k : ℕ) → k ≤ length rows.now → IsOffset (offset_after first rows.now k) }
{
    touch_all(first, rows);
    let mut place = 1;
    while place < rows.len() {
        if !follows(first, rows, place - 1) {
            return Some(place);
        }
        place += 1;
    }
    None
}

// Reads each offset, since a proof knows the range of what is read. The compiler leaves it out.
fn touch_all(first: FixedOffset, rows: &[Row])
    ensures { (k : ℕ) → k ≤ length rows.now → IsOffset (offset_after first rows.now k) }
{
    let mut place = 0;
    while place < rows.len() {
        let _offset = offset_of_count(first, rows, place);
        place += 1;
    }
    let _last = offset_of_count(first, rows, rows.len());
}

// Whether the row behind a place follows the one there.
fn follows(first: FixedOffset, rows: &[Row], place: usize) -> bool
    requires { place + 1 < length rows.now }
    ensures { IsTrue result ↔ RowFollows first rows.now place }
{
    second_at(rows, place) < second_at(rows, place + 1)
        && end_of(first, rows, place) <= start_of(first, rows, place + 1)
}

// The local second from which a row skips or repeats seconds no more.
fn end_of(first: FixedOffset, rows: &[Row], place: usize) -> i128
    requires { place < length rows.now }
    ensures { result ≡ local_end (row_second rows.now) (offset_after first rows.now) place }
{
    let before = offset_of_count(first, rows, place);
    let after = offset_of_count(first, rows, place + 1);
    shown(
        second_at(rows, place),
        before.local_minus_utc().max(after.local_minus_utc()),
    )
}
