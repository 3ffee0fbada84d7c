//! The numbers that stand for results.
ghost use Rattle.std.specs.Prelude.{◌≡◌, ◌↔◌, IsSome};
ghost use Rattle.chrono_datetime.specs.Days.{IsDate};
ghost use Rattle.numbers_c.specs.Answers.{or_none};

use chrono_datetime::{Datelike, NaiveDate};

/// Stands for a date, a field or a length that does not exist.
pub const NONE: i32 = i32::MIN;

/// Returns the day number of the date. Returns [`NONE`] if there is no date.
///
/// ```
/// use chrono_datetime::NaiveDate;
/// number_or_none(NaiveDate::from_ymd_opt(2024, 2, 29)) // 738945
/// ```
#[inline]
pub fn number_or_none(date: Option<NaiveDate>) -> i32
    ensures number { result ≡ or_none date }
    ensures exists { IsDate result ↔ IsSome date }
{
    match date {
        Some(date) => date.num_days_from_ce(),
        None => NONE,
    }
}
