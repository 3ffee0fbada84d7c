//! `FixedOffset`: how far local time is ahead of UTC.
ghost use Rattle.std.specs.Prelude.{◌≡◌, neg_ℤ};
ghost use Rattle.std.specs.Option.{SomeIff};
ghost use Rattle.chrono_instant.specs.Offsets.{IsOffset};

use std::marker::Model;

mod read;
mod text;

pub use read::read_offset;

const SECS_PER_DAY: i32 = 86_400;

/// How far local time is ahead of UTC: less than a day, to the second.
///
/// A contract sees it as a number of seconds, negative if local time is behind UTC.
///
/// ```
/// FixedOffset::east_opt(19_800) // Some(+05:30)
/// FixedOffset::west_opt(18_000) // Some(-05:00)
/// ```
#[derive(Clone, Copy, PartialEq, Eq, Hash)]
pub struct FixedOffset {
    local_minus_utc: i32,
}

impl Model for FixedOffset {
    ghost use Rattle.std.specs.Prelude.{ℤ};
    ghost use Rattle.chrono_instant.specs.Offsets.{IsOffset};

    ghost Value = { ℤ };

    ghost view = { λ a. a.local_minus_utc };

    ghost invariant = { λ a. IsOffset a.local_minus_utc };

    ghost inverse = { λ x. record { local_minus_utc = x } };
}

impl FixedOffset {
    /// Returns the offset of local time `secs` seconds ahead of UTC, as east of Greenwich.
    ///
    /// Returns `None` if `secs` is not from -86,399 to 86,399.
    ///
    /// ```
    /// FixedOffset::east_opt(3_600) // Some(+01:00)
    /// FixedOffset::east_opt(86_400) // None
    /// ```
    #[inline]
    pub fn east_opt(secs: i32) -> Option<FixedOffset>
        ensures { SomeIff result (IsOffset secs) secs }
    {
        if secs <= -SECS_PER_DAY || SECS_PER_DAY <= secs {
            return None;
        }
        Some(FixedOffset {
            local_minus_utc: secs,
        })
    }

    /// Returns the offset of local time `secs` seconds behind UTC, as west of Greenwich.
    ///
    /// Returns `None` if `secs` is not from -86,399 to 86,399.
    ///
    /// ```
    /// FixedOffset::west_opt(3_600) // Some(-01:00)
    /// FixedOffset::west_opt(i32::MIN) // None
    /// ```
    #[inline]
    pub fn west_opt(secs: i32) -> Option<FixedOffset>
        ensures { SomeIff result (IsOffset secs) (neg_ℤ secs) }
    {
        if secs <= -SECS_PER_DAY || SECS_PER_DAY <= secs {
            return None;
        }
        Some(FixedOffset {
            local_minus_utc: -secs,
        })
    }

    /// Returns the seconds by which local time is ahead of UTC.
    ///
    /// ```
    /// FixedOffset::east_opt(3_600)?.local_minus_utc() // 3600
    /// ```
    #[inline]
    pub fn local_minus_utc(&self) -> i32
        ensures value { result ≡ self.now }
        ensures in_range { IsOffset result }
    {
        self.local_minus_utc
    }

    /// Returns the seconds by which UTC is ahead of local time.
    ///
    /// ```
    /// FixedOffset::east_opt(3_600)?.utc_minus_local() // -3600
    /// ```
    #[inline]
    pub fn utc_minus_local(&self) -> i32
        ensures value { result ≡ neg_ℤ self.now }
        ensures in_range { IsOffset result }
    {
        -self.local_minus_utc
    }
}
