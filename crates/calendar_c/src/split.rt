//! The year, the month and the day of a date at once.
ghost use Rattle.std.specs.Prelude.{◌≡◌};
ghost use Rattle.chrono_columns.specs.Columns.{day_entry, month_entry, year_entry};

use chrono_datetime::Datelike;
use numbers_c::{NONE, date_of};

/// A year, a month from 1 to 12 and a day of the month from 1. If there is no date: the least `i32` and twice 0.
#[repr(C)]
#[derive(Clone, Copy)]
pub struct CalendarYmd {
    /// The year.
    pub year: i32,
    /// The month, from 1 for January to 12.
    pub month: u8,
    /// The day of the month, from 1.
    pub day: u8,
}

/// Returns the year, the month and the day of a date (ISO 8601 calendar date).
#[tactic(auto, unfolding(chrono_columns::specs::Columns::year_entry, chrono_columns::specs::Columns::month_entry, chrono_columns::specs::Columns::day_entry))]
#[unsafe(no_mangle)]
pub extern "C" fn calendar_split(date: i32) -> CalendarYmd
    ensures year { result.year ≡ year_entry date }
    ensures month { result.month ≡ month_entry date }
    ensures day { result.day ≡ day_entry date }
{
    match date_of(date) {
        Some(date) => CalendarYmd {
            year: date.year(),
            month: date.month() as u8,
            day: date.day() as u8,
        },
        None => CalendarYmd {
            year: NONE,
            month: 0,
            day: 0,
        },
    }
}
