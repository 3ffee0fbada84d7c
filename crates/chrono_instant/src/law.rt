//! Laws of instants and offsets, each as the contract of a function.
ghost use Rattle.std.specs.Prelude.{◌≡◌, ◌↔◌, ◌<◌, ◌^◌, ◌-◌, ◌⊎◌, ℕ, ℤ, pos, neg_ℤ, ◌<ℤ◌, IsSomeAnd};
ghost use Rattle.chrono_datetime.specs.Days.{date_of_ymd};
ghost use Rattle.chrono_datetime.specs.Moment.{Moment, IsBefore, IsMoment, moment};
ghost use Rattle.chrono_datetime.specs.Time.{FractionFits, time_at};
ghost use Rattle.chrono_instant.specs.Instants.{LiesIn, epoch_nanos, epoch_second, second_of_minute};
ghost use Rattle.chrono_instant.specs.Offsets.{IsShifted};

use crate::from_timestamp::FromTimestamp;
use crate::timestamp::Timestamp;
use chrono_datetime::{NaiveDateTime, Timelike};

/// A second and the nanoseconds past it name one date-time.
pub fn seconds_name_one_date_time()
    ensures { (s : ℤ) (nanos : ℕ) (a b : Moment) → LiesIn s nanos a → LiesIn s nanos b → a ≡ b }
{}

/// Date-times are in the order of their seconds, and within a second in that of their nanoseconds.
pub fn seconds_are_in_order()
    ensures { (a b : Moment) → IsMoment a → IsMoment b → IsBefore a b
        ↔ ((epoch_second a <ℤ epoch_second b)
        ⊎ ((epoch_second a ≡ epoch_second b) × (a.time.fraction < b.time.fraction))) }
{}

/// A clock set ahead by an offset and back by it shows what it showed.
pub fn offsets_lead_back()
    ensures { (m e back : Moment) (x : ℤ) → IsMoment m → IsShifted m x e → IsShifted e (neg_ℤ x) back
        → back ≡ m }
{}

/// Returns the date-time made of its own timestamp: it is `datetime` again.
///
/// It is `None` only for a leap second that is not at the end of a minute.
///
/// ```
/// use chrono_datetime::{AndTime, NaiveDate};
/// let noon = NaiveDate::from_ymd_opt(2024, 2, 29)?.and_hms_opt(12, 0, 0)?;
/// law::timestamps_lead_back(noon) // Some(2024-02-29T12:00:00)
/// ```
pub fn timestamps_lead_back(datetime: NaiveDateTime) -> Option<NaiveDateTime>
    ensures { FractionFits (second_of_minute (epoch_second datetime)) datetime.time.fraction
        → result ≡ Some datetime }
{
    NaiveDateTime::from_timestamp(datetime.timestamp(), datetime.nanosecond())
}

/// The epoch, and the first and the last nanosecond that an `i64` counts.
///
/// They are 1970-01-01T00:00:00, 1677-09-21T00:12:43.145224192 and 2262-04-11T23:47:16.854775807.
pub fn known_instants()
    ensures epoch { IsSomeAnd (date_of_ymd (pos 1970) 1 1)
        (λ n. epoch_second (moment n (time_at 0 0 0 0)) ≡ pos 0) }
    ensures first { IsSomeAnd (date_of_ymd (pos 1677) 9 21)
        (λ n. epoch_nanos (moment n (time_at 0 12 43 145_224_192)) ≡ neg_ℤ (pos (2 ^ 63))) }
    ensures last { IsSomeAnd (date_of_ymd (pos 2262) 4 11)
        (λ n. epoch_nanos (moment n (time_at 23 47 16 854_775_807)) ≡ pos (2 ^ 63 - 1)) }
{}
