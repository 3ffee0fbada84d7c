//! The search for the last row that has begun.
ghost use Rattle.std.specs.Prelude.{◌≡◌, ◌+◌, ◌<◌, ◌≤◌, ◌≤ℤ◌, IfNone, IfSome, drop, if◌then◌else◌, int_le, length};
ghost use Rattle.zone_table.specs.Search.{FromLast};
ghost use Rattle.zone_table.specs.Sequence.{Come, IsRising};
ghost use Rattle.zone_table.specs.Table.{row_second};

use crate::row::{Row, second_at};

// How many rows have begun by the second.
pub(crate) fn rows_begun(rows: &[Row], second: i64) -> usize
    requires { IsRising (row_second rows.now) (length rows.now) }
    ensures { Come (row_second rows.now) (length rows.now) second result }
{
    match last_begun(rows, second) {
        Some(from) => rows.len() - from.len() + 1,
        None => 0,
    }
}

// The rows from the last one on that has begun by the second, if one has.
//
// Where the width is a number, the steps are made one by one, with no branch.
#[inline(always)]
pub(crate) fn last_begun(rows: &[Row], second: i64) -> Option<&[Row]>
    requires { IsRising (row_second rows.now) (length rows.now) }
    ensures some { IfSome result (λ from. FromLast rows.now second from.now) }
    ensures none { IfNone result (Come (row_second rows.now) (length rows.now) second 0) }
{
    if rows.is_empty() {
        return None;
    }
    if second < second_at(rows, 0) {
        return None;
    }
    Some(last_of(rows, second))
}

// The rows from the last one on that has begun by the second, where the first has.
#[inline(always)]
fn last_of(rows: &[Row], second: i64) -> &[Row]
    requires rising { IsRising (row_second rows.now) (length rows.now) }
    requires some { 0 < length rows.now }
    requires begun { row_second rows.now 0 ≤ℤ second }
    ensures { FromLast rows.now second result.now }
{
    let len = rows.len();
    if 512 < len {
        return last_within(rows, len - len / 2, second);
    }
    if 256 <= len {
        return last_within(rows, 256, second);
    }
    if 128 <= len {
        return last_within(rows, 128, second);
    }
    if 64 <= len {
        return last_within(rows, 64, second);
    }
    if 32 <= len {
        return last_within(rows, 32, second);
    }
    if 16 <= len {
        return last_within(rows, 16, second);
    }
    last_within(rows, len - len / 2, second)
}

// The same, searched in the rows of two windows of this width, which overlap.
#[inline(always)]
fn last_within(rows: &[Row], width: usize, second: i64) -> &[Row]
    requires rising { IsRising (row_second rows.now) (length rows.now) }
    requires some { 0 < width }
    requires most { width ≤ length rows.now }
    requires least { length rows.now ≤ width + width }
    requires begun { row_second rows.now 0 ≤ℤ second }
    ensures { FromLast rows.now second result.now }
{
    let mut from = step(rows, rows.len() - width, second);
    let mut width = width;
    while 1 < width {
        let half = width / 2;
        from = step(from, half, second);
        width -= half;
    }
    from
}

// The rows from a place on if the row there has begun by the second, and else all of them.
#[inline(always)]
fn step(from: &[Row], place: usize, second: i64) -> &[Row]
    requires { place < length from.now }
    ensures { result.now ≡ (if int_le (row_second from.now place) second then drop place from.now else from.now) }
{
    if second_at(from, place) <= second {
        &from[place..]
    } else {
        from
    }
}
