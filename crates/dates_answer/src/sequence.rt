//! Sequences of days, each so many spans from the first.
ghost use Rattle.std.specs.Prelude.{◌≡◌};
ghost use Rattle.dates_answer.specs.Sequences.{moved_times, sequence_day, days_up_to};

use crate::between::days_between;
use crate::moves::moved_by;
use crate::span::Span;
use chrono_datetime::NaiveDate;

/// Returns the day at `place` of a sequence: `first` moved once by `place` times `step`. Place 0 is `first`.
///
/// From 31 January 2024 by one month, place 1 is 29 February and place 2 is 31 March.
///
/// Returns `None` if there is no such date, or if it lies past `end`. If `step` goes back, a date before `end` is past it.
pub fn sequence_day(first: NaiveDate, end: NaiveDate, step: Span, place: u32) -> Option<NaiveDate>
    ensures { result ≡ sequence_day first end step place }
{
    let count = step.count;
    let date = moved_times(first, step, place)?;
    days_up_to(date, end, count)
}

// The date moved by so many spans at once.
#[tactic(auto, using(crate::proofs::FarMoves::none_so_far))]
fn moved_times(first: NaiveDate, step: Span, place: u32) -> Option<NaiveDate>
    ensures { result ≡ moved_times first step place }
{
    prove!(days_between(first, first) == 0);
    let unit = step.unit;
    let Some(count) = step.count.checked_mul(i64::from(place)) else {
        return None;
    };
    moved_by(first, unit, count)
}

// The date, if it does not lie past the end for one who goes on, or back where the number is below 0.
#[tactic(auto, unfolding(crate::specs::Sequences::days_up_to))]
fn days_up_to(date: NaiveDate, end: NaiveDate, count: i64) -> Option<NaiveDate>
    ensures { result ≡ days_up_to count end date }
{
    let is_up_to = if 0 <= count { date <= end } else { end <= date };
    if is_up_to { Some(date) } else { None }
}
