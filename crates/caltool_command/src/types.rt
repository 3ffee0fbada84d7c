//! Numbers converted to the types that commands take.
ghost use Rattle.std.specs.Prelude.{◌≡◌};
ghost use Rattle.chrono_text.specs.Numbers.{to_i32, to_u32, to_u8};
ghost use Rattle.caltool_command.specs.Types.{to_months, to_weekday};

use crate::arguments::MonthSpan;
use chrono_units::Weekday;

// The number, if it fits an `i32`.
#[inline]
#[tactic(auto, unfolding(chrono_text::specs::Numbers::to_i32))]
pub(crate) fn to_i32(n: i64) -> Option<i32>
    ensures { result ≡ to_i32 n }
{
    if i64::from(i32::MIN) <= n && n <= i64::from(i32::MAX) {
        Some(n as i32)
    } else {
        None
    }
}

// The number, if it fits a `u32`.
#[inline]
#[tactic(auto, unfolding(chrono_text::specs::Numbers::to_u32))]
pub(crate) fn to_u32(n: i64) -> Option<u32>
    ensures { result ≡ to_u32 n }
{
    if 0 <= n && n <= i64::from(u32::MAX) {
        Some(n as u32)
    } else {
        None
    }
}

// The number, if it fits a `u8`.
#[inline]
#[tactic(auto, unfolding(chrono_text::specs::Numbers::to_u8))]
pub(crate) fn to_u8(n: i64) -> Option<u8>
    ensures { result ≡ to_u8 n }
{
    if 0 <= n && n <= i64::from(u8::MAX) {
        Some(n as u8)
    } else {
        None
    }
}

// The number of months, if its size fits a `u32`.
#[inline]
#[tactic(auto, unfolding(crate::specs::Types::to_months))]
pub(crate) fn to_months(n: i64) -> Option<MonthSpan>
    ensures { result ≡ to_months n }
{
    if -i64::from(u32::MAX) <= n && n <= i64::from(u32::MAX) {
        if n < 0 {
            Some(MonthSpan::Earlier((-n) as u32))
        } else {
            Some(MonthSpan::Later(n as u32))
        }
    } else {
        None
    }
}

// The weekday of a number from 1 for Monday to 7 for Sunday.
#[inline]
#[tactic(auto, unfolding(crate::specs::Types::to_weekday))]
pub(crate) fn to_weekday(n: i64) -> Option<Weekday>
    ensures { result ≡ to_weekday n }
{
    if 1 <= n && n <= 7 {
        Weekday::from_u32(n as u32 - 1)
    } else {
        None
    }
}
