//! A month as a sheet: which day stands in which cell.
ghost use Rattle.std.specs.Prelude.{◌≡◌, ◌↔◌, ◌+◌, ◌*◌, ◌-ℤ◌, None, false, pos};
ghost use Rattle.chrono_datetime.specs.Days.{date_of_day};
ghost use Rattle.dates_answer.specs.Sheets.{IsEmptyRow, cell_of, cells_of_row, day_of_cell, is_marked, sheet_day, week_of_row};

use crate::between::days_between;
use crate::row::{Cell, SheetRow};
use chrono_business::Calendar;
use chrono_datetime::{Datelike, NaiveDate, Weekday};

/// A month as a sheet of seven columns: its weeks below one another.
#[derive(Clone, Copy)]
pub struct MonthSheet {
    /// A day of the month.
    pub month: NaiveDate,
    /// The weekday on which its weeks begin.
    pub start: Weekday,
    /// The day that is marked, if one is.
    pub marked: Option<NaiveDate>,
}

impl MonthSheet {
    /// The day in a row and a column, each counted from 0; `None` exactly where the cell is empty, since its day lies in another month.
    pub fn day(&self, row: u32, column: u32) -> Option<NaiveDate>
        ensures { result ≡ sheet_day self.now.month self.now.start row column }
    {
        let first = self.month.first_day_of_month();
        let last = self.month.last_day_of_month();
        let Some(date) = self.date(row, column) else {
            return None;
        };
        if days_between(first, date) < 0 {
            return None;
        }
        if days_between(date, last) < 0 {
            return None;
        }
        Some(date)
    }

    /// The ISO week of a row, counted from 0: that of its Thursday; `None` exactly where that is no date.
    pub fn week(&self, row: u32) -> Option<u32>
        ensures { result ≡ week_of_row self.now.month self.now.start row }
    {
        let date = self.date(row, Weekday::Thu.days_since(self.start))?;
        Some(date.iso_week().week())
    }

    /// A row as it is printed, with a mark behind the days that are not open; blank where none of its days lies in the month.
    pub fn row(&self, row: u32, calendar: &Calendar) -> SheetRow
        ensures cells { result.cells ≡ cells_of_row calendar.now self.now.marked self.now.month self.now.start row }
        ensures week { ¬ IsEmptyRow self.now.month self.now.start row → result.week ≡ week_of_row self.now.month self.now.start row }
        ensures blank { IsEmptyRow self.now.month self.now.start row → result.week ≡ None }
    {
        let cells = [
            self.cell(row, 0, calendar),
            self.cell(row, 1, calendar),
            self.cell(row, 2, calendar),
            self.cell(row, 3, calendar),
            self.cell(row, 4, calendar),
            self.cell(row, 5, calendar),
            self.cell(row, 6, calendar),
        ];
        let week = self.shown_week(row);
        SheetRow { week, cells }
    }

    /// Whether a row has a day of the month.
    #[tactic(auto, using(crate::proofs::CellLemmas::ends_empty))]
    pub fn has_days(&self, row: u32) -> bool
        ensures { result ≡ false ↔ IsEmptyRow self.now.month self.now.start row }
    {
        self.day(row, 0).is_some() || self.day(row, 6).is_some()
    }

    // The ISO week in front of a row, if that has a day of the month.
    fn shown_week(&self, row: u32) -> Option<u32>
        ensures week { ¬ IsEmptyRow self.now.month self.now.start row → result ≡ week_of_row self.now.month self.now.start row }
        ensures blank { IsEmptyRow self.now.month self.now.start row → result ≡ None }
    {
        if self.has_days(row) {
            return self.week(row);
        }
        None
    }

    // What stands in a cell.
    fn cell(&self, row: u32, column: u32, calendar: &Calendar) -> Cell
        ensures { result ≡ cell_of calendar.now self.now.marked (sheet_day self.now.month self.now.start row column) }
    {
        match self.day(row, column) {
            Some(date) => Cell {
                day: Some(date.day()),
                closed: !calendar.is_open(date),
                marked: is_marked(self.marked, date),
            },
            None => Cell {
                day: None,
                closed: false,
                marked: false,
            },
        }
    }

    // The date of a cell, also of another month.
    fn date(&self, row: u32, column: u32) -> Option<NaiveDate>
        ensures { result ≡ date_of_day (day_of_cell self.now.month self.now.start row column) }
    {
        let first = self.month.first_day_of_month();
        let before = first.weekday().days_since(self.start);
        first.moved_by_days(days_on(row, column, before))
    }
}

// Whether a day is the one that is marked, if one is.
fn is_marked(marked: Option<NaiveDate>, date: NaiveDate) -> bool
    ensures { result ≡ is_marked marked date }
{
    match marked {
        Some(day) => day == date,
        None => false,
    }
}

// How many days a cell lies behind the first day of the month, before which so many cells of the first row stand.
fn days_on(row: u32, column: u32, before: u32) -> i64
    ensures { result ≡ pos (7 * row + column) -ℤ pos before }
{
    7 * i64::from(row) + i64::from(column) - i64::from(before)
}
