//! A day by its names, as they are printed.
ghost use Rattle.std.specs.Prelude.{Some};
ghost use Rattle.dates_answer.specs.DayNames.{names_text, ordinal_name, week_name};

use chrono_datetime::{Datelike, NaiveDate};
use chrono_text::Text;
use std::fmt;

/// A day by all its names, as `2024-02-29 2024-060 2024-W09-4 Thu 738945 19782`: its calendar, ordinal and week date, its weekday, its number
/// and the days since 1970-01-01.
#[derive(Clone, Copy)]
pub struct DayNames {
    /// The day.
    pub date: NaiveDate,
}

/// A day by its year and its place there (ISO 8601 ordinal date), as `2024-060`.
#[derive(Clone, Copy)]
pub struct OrdinalName {
    /// The day.
    pub date: NaiveDate,
}

/// A day by its week and its place there (ISO 8601 week date), as `2024-W09-4`.
#[derive(Clone, Copy)]
pub struct WeekName {
    /// The day.
    pub date: NaiveDate,
}

impl fmt::Display for DayNames {
    ghost output = { λ names. Some (names_text names.date) };

    /// Writes the names, with a space between each two.
    #[tactic(auto, unfolding(crate::specs::DayNames::names_text))]
    fn fmt<W: fmt::Write>(&self, f: &mut fmt::Formatter<W>) -> fmt::Result {
        let date = self.date;
        let ordinal = OrdinalName { date };
        let week = WeekName { date };
        let weekday = date.weekday();
        let number = date.num_days_from_ce();
        let unix = date.to_epoch_days();
        write!(f, "{date} {ordinal} {week} {weekday} {number} {unix}")
    }
}

impl fmt::Display for OrdinalName {
    ghost output = { λ name. Some (ordinal_name name.date) };

    /// Writes the year and the place.
    fn fmt<W: fmt::Write>(&self, f: &mut fmt::Formatter<W>) -> fmt::Result {
        let mut text = Text::<11>::new();
        text.push_ordinal_date(self.date.year(), self.date.ordinal());
        text.print(f)
    }
}

impl fmt::Display for WeekName {
    ghost output = { λ name. Some (week_name name.date) };

    /// Writes the week and the place.
    fn fmt<W: fmt::Write>(&self, f: &mut fmt::Formatter<W>) -> fmt::Result {
        let week = self.date.iso_week();
        let weekday = self.date.weekday().number_from_monday();
        let mut text = Text::<13>::new();
        text.push_week_date(week.year(), week.week(), weekday);
        text.print(f)
    }
}
