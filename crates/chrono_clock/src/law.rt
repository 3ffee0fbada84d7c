//! Known values: the ends of the day and of durations, and texts of known times. Each is the contract of a function.
ghost use Rattle.std.specs.Prelude.{◌≡◌, pos, neg_ℤ, codes};
ghost use Rattle.chrono_text.specs.Text.{duration_text};
ghost use Rattle.chrono_clock.specs.Duration.{longest};
ghost use Rattle.chrono_clock.specs.Time.{time_at};
ghost use Rattle.chrono_clock.specs.TimeText.{time_text};

use crate::{NaiveTime, TimeDelta};

/// Returns [`NaiveTime::MIN`], which is midnight.
///
/// ```
/// law::first_time() // 00:00:00
/// ```
pub fn first_time() -> NaiveTime
    ensures { result ≡ time_at 0 0 0 0 }
{
    NaiveTime::MIN
}

/// Returns [`NaiveTime::MAX`], which is 23:59:59.999999999.
///
/// ```
/// law::last_time() // 23:59:59.999999999
/// ```
pub fn last_time() -> NaiveTime
    ensures { result ≡ time_at 23 59 59 999_999_999 }
{
    NaiveTime::MAX
}

/// Returns [`TimeDelta::MIN`], which is -`i64::MAX` milliseconds. The contract also states its text.
///
/// ```
/// law::least_duration().num_milliseconds() // -9223372036854775807
/// ```
pub fn least_duration() -> TimeDelta
    ensures value { result ≡ neg_ℤ (pos longest) }
    ensures text { duration_text result ≡ codes "-PT9223372036854775.807S" }
{
    TimeDelta::MIN
}

/// Returns [`TimeDelta::MAX`], which is `i64::MAX` milliseconds. The contract also states its text.
///
/// ```
/// law::greatest_duration().num_milliseconds() // 9223372036854775807
/// ```
pub fn greatest_duration() -> TimeDelta
    ensures value { result ≡ pos longest }
    ensures text { duration_text result ≡ codes "PT9223372036854775.807S" }
{
    TimeDelta::MAX
}

/// States the texts of two times: one with a fraction of six digits, and one in a leap second with a fraction of three.
pub fn known_time_texts()
    ensures six_digits { time_text (time_at 13 4 56 500_001_000) ≡ codes "13:04:56.500001" }
    ensures leap { time_text (time_at 23 59 59 1_042_000_000) ≡ codes "23:59:60.042" }
{}
