//! The names that a field of a schedule's text has for its numbers.
ghost use Rattle.std.specs.Prelude.{◌≡◌};
ghost use Rattle.chrono_cron.specs.FieldTexts.{number_of_name};

use chrono_datetime::{Month, Weekday};

/// The names that a field has for its numbers.
#[derive(Clone, Copy, PartialEq, Eq, Debug)]
pub enum Names {
    /// The field has no names, only numbers.
    Numbers,
    /// The names of the months: `jan` to `dec` for 1 to 12.
    Months,
    /// The names of the weekdays: `sun` to `sat` for 0 to 6.
    Weekdays,
}

impl Names {
    // The number that has the name, in letters of any case.
    #[tactic(auto, unfolding(crate::specs::FieldTexts::number_of_name))]
    pub(crate) fn number_of(self, name: &[u8]) -> Option<u32>
        ensures { result ≡ number_of_name self name.now }
    {
        match self {
            Names::Numbers => None,
            Names::Months => Some(Month::from_letters(name)?.number_from_month()),
            Names::Weekdays => Some(Weekday::from_letters(name, 3)?.num_days_from_sunday()),
        }
    }
}
