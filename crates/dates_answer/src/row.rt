//! A row of a sheet, as it is printed.
ghost use Rattle.std.specs.Prelude.{Some};
ghost use Rattle.dates_answer.specs.Sheets.{cell_text, label_text, row_text};

use std::fmt;

/// A cell of a sheet.
#[derive(Clone, Copy)]
pub struct Cell {
    /// The day of the month, from 1 to 31; `None` where the cell is empty.
    pub day: Option<u32>,
    /// Whether that day is closed.
    pub closed: bool,
    /// Whether that day is the one that is marked.
    pub marked: bool,
}

/// A row of a sheet, as `W09 26 27 28 29  1  2* 3*`: 25 bytes.
#[derive(Clone, Copy)]
pub struct SheetRow {
    /// The number of its ISO week.
    pub week: Option<u32>,
    /// Its cells.
    pub cells: [Cell; 7],
}

impl fmt::Display for Cell {
    ghost output = { λ cell. Some (cell_text cell) };

    /// Writes the day in two columns, and behind it `*` where it is closed, `<` where it is marked, and `#` where it is both.
    fn fmt<W: fmt::Write>(&self, f: &mut fmt::Formatter<W>) -> fmt::Result {
        let mark = match (self.closed, self.marked) {
            (true, true) => "#",
            (true, false) => "*",
            (false, true) => "<",
            (false, false) => " ",
        };
        match self.day {
            None => write!(f, "  {mark}"),
            Some(day) if day < 10 => write!(f, " {day}{mark}"),
            Some(day) => write!(f, "{day}{mark}"),
        }
    }
}

impl fmt::Display for SheetRow {
    ghost output = { λ row. Some (row_text row) };

    /// Writes the week and the cells.
    fn fmt<W: fmt::Write>(&self, f: &mut fmt::Formatter<W>) -> fmt::Result {
        let week = WeekLabel { week: self.week };
        let [a, b, c, d, e, g, h] = self.cells;
        write!(f, "{week} {a}{b}{c}{d}{e}{g}{h}")
    }
}

/// What stands in front of a row, as `W09`.
#[derive(Clone, Copy)]
pub struct WeekLabel {
    /// The number of the row's ISO week.
    pub week: Option<u32>,
}

impl fmt::Display for WeekLabel {
    ghost output = { λ label. Some (label_text label.week) };

    /// Writes the week behind `W`, or spaces.
    fn fmt<W: fmt::Write>(&self, f: &mut fmt::Formatter<W>) -> fmt::Result {
        match self.week {
            None => f.write_str("   "),
            Some(week) if week < 10 => write!(f, "W0{week}"),
            Some(week) => write!(f, "W{week}"),
        }
    }
}
