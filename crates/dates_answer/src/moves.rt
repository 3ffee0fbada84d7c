//! Days moved by spans.
ghost use Rattle.std.specs.Prelude.{◌≡◌, ◌*ℤ◌, pos};
ghost use Rattle.chrono_datetime.specs.Days.{IsDate, date_of_day};
ghost use Rattle.chrono_datetime.specs.MonthMoves.{month_move};
ghost use Rattle.dates_answer.specs.Moves.{span_move, unit_move};

use crate::span::{Span, Unit};
use chrono_datetime::{Datelike, NaiveDate};

/// Returns `date` moved by `span`. A month or a year leads to the same day of the month, or to the last day of a shorter month.
///
/// Returns `None` if the span leads out of the calendar.
pub fn moved(date: NaiveDate, span: Span) -> Option<NaiveDate>
    ensures { result ≡ span_move date span }
{
    moved_by(date, span.unit, span.count)
}

// More days, weeks, months or years than this lead out of the calendar from every date.
const FAR: i64 = 200_000_000;

// The date that so many units are away.
#[tactic(auto, using(crate::proofs::FarMoves::unit_move_far), unfolding(crate::specs::Moves::unit_move))]
pub(crate) fn moved_by(date: NaiveDate, unit: Unit, count: i64) -> Option<NaiveDate>
    ensures { result ≡ unit_move unit date count }
{
    prove!(date.num_days_from_ce() >= -95_746_129);
    prove!(date.num_days_from_ce() <= 95_745_399);
    if count < -FAR {
        return None;
    }
    if count > FAR {
        return None;
    }
    match unit {
        Unit::Days => date.moved_by_days(count),
        Unit::Weeks => date.moved_by_days(7 * count),
        Unit::Months => date.moved_by_months(count),
        Unit::Years => date.moved_by_months(12 * count),
    }
}
