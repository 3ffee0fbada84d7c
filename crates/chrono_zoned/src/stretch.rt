//! `Stretch`: an offset, and how long it holds.
ghost use Rattle.std.specs.Prelude.{◌≡◌, pos};
ghost use Rattle.chrono_instant.specs.Offsets.{IsOffset};

use chrono_instant::FixedOffset;

/// An offset, and the second up to which it holds.
///
/// [`TimeZone::stretch_from`](crate::TimeZone::stretch_from) makes it.
///
/// ```
/// FixedOffset::east_opt(3_600)?.stretch_from(0).offset // +01:00
/// ```
#[derive(Clone, Copy, Debug, PartialEq, Eq)]
pub struct Stretch {
    /// The offset.
    pub offset: FixedOffset,
    /// It holds before this second, counted from 1 January 1970 in UTC. From there on another may hold.
    pub until: i64,
}

impl Stretch {
    /// Returns a stretch of one offset that never ends.
    ///
    /// ```
    /// Stretch::without_end(FixedOffset::east_opt(3_600)?).until == i64::MAX // true
    /// ```
    #[inline]
    pub fn without_end(offset: FixedOffset) -> Stretch
        ensures offset { result.offset ≡ offset }
        ensures end { result.until ≡ pos 9_223_372_036_854_775_807 }
        ensures near { IsOffset offset }
    {
        let _near = offset.local_minus_utc();
        Stretch {
            offset,
            until: i64::MAX,
        }
    }
}
