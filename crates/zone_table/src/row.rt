//! `Row`: one change of a clock.
ghost use Rattle.std.specs.Prelude.{◌≡◌, ◌<◌, length};
ghost use Rattle.zone_table.specs.Table.{row_at, row_second};

use chrono_zoned::FixedOffset;

/// From this second on the clock is ahead of UTC by this offset.
///
/// ```
/// Row { second: 1_711_846_800, offset: FixedOffset::east_opt(3_600)? } // Row { second: 1711846800, offset: +01:00 }
/// ```
#[derive(Clone, Copy, Debug, PartialEq, Eq)]
pub struct Row {
    /// Seconds from 1 January 1970 in UTC.
    pub second: i64,
    /// The offset from that second on.
    pub offset: FixedOffset,
}

// The second from which the row at a place holds.
#[inline]
pub(crate) fn second_at(rows: &[Row], place: usize) -> i64
    requires { place < length rows.now }
    ensures { result ≡ row_second rows.now place }
{
    rows[place].second
}

// The offset that the row at a place sets.
#[inline]
pub(crate) fn table_offset(rows: &[Row], place: usize) -> FixedOffset
    requires { place < length rows.now }
    ensures { result ≡ (row_at rows.now place).offset }
{
    rows[place].offset
}
