//! Log lines, each with its instant and offset.
ghost use Rattle.std.specs.Prelude.{◌≡◌, count_by};
ghost use Rattle.chrono_uses.specs.Logs.{is_within_hour};

use chrono_zoned::{DateTime, FixedOffset, TimeZone, Timestamp, Utc};

/// Returns whether an instant lies in the hour before `now`, or at its ends.
pub fn is_of_last_hour<Z: TimeZone>(line: &DateTime<Z>, now: &DateTime<Utc>) -> bool
    ensures { result ≡ is_within_hour now.now.utc line.now.utc }
{
    let age = now.timestamp() - line.timestamp();
    0 <= age && age <= 3_600
}

/// Returns how many lines lie in the hour before `now`.
pub fn lines_of_last_hour(lines: &[DateTime<FixedOffset>], now: &DateTime<Utc>) -> usize
    ensures { result ≡ count_by (λ line. is_within_hour now.now.utc line.utc) lines.now }
{
    lines
        .iter()
        .filter(|line| is_of_last_hour(*line, now))
        .count()
}
