//! `FieldForm`: the numbers that a field has, and their names. `Span`: what an item of it lists.
ghost use Rattle.std.specs.Prelude.{◌≡◌, ◌+◌, ◌<◌, ◌≤◌, ℕ};
ghost use Rattle.chrono_sets.specs.Steps.{is_by_steps};
ghost use Rattle.timed_cron.specs.DialectFields.{named_number, field_size, span_end, span_lists};
ghost use Rattle.timed_cron.specs.Private.{IsForm, IsSpanOf};

use chrono_datetime::{Month, Weekday};

// The names of a field's numbers.
#[derive(Clone, Copy)]
pub(crate) enum FieldNames {
    // It has none.
    Nothing,
    // The months, from 1 for January.
    Months,
    // The weekdays, from 1 for Sunday.
    Weekdays,
    // The weekdays, from 0 for Sunday.
    WeekdaysFromZero,
}

impl FieldNames {
    // The number that has the name, in letters of any case.
    #[tactic(auto, unfolding(crate::specs::DialectFields::named_number))]
    pub(crate) fn number_of(self, name: &[u8]) -> Option<u32>
        ensures { result ≡ named_number self name.now }
    {
        match self {
            FieldNames::Nothing => None,
            FieldNames::Months => Some(Month::from_letters(name)?.number_from_month()),
            FieldNames::Weekdays => Some(Weekday::from_letters(name, 3)?.number_from_sunday()),
            FieldNames::WeekdaysFromZero => {
                Some(Weekday::from_letters(name, 3)?.num_days_from_sunday())
            }
        }
    }
}

// The numbers of a field.
#[derive(Clone, Copy)]
pub(crate) struct FieldForm {
    pub(crate) names: FieldNames,
    // How many digits a number has at most.
    pub(crate) digits: usize,
    pub(crate) low: u32,
    pub(crate) high: u32,
    // The number that has the place 0 in a set.
    pub(crate) base: u32,
    // A range may go over the end.
    pub(crate) wraps: bool,
    // `?` stands for all numbers, as `*` does.
    pub(crate) marks: bool,
}

impl FieldForm {
    // How many numbers the field has.
    pub(crate) fn size(self) -> u32
        requires { IsForm self }
        ensures { result ≡ field_size self }
    {
        self.high + 1 - self.low
    }
}

// What an item lists: the numbers from the first to the last, by steps.
#[derive(Clone, Copy)]
pub(crate) struct Span {
    pub(crate) first: u32,
    pub(crate) last: u32,
    pub(crate) step: u32,
}

impl Span {
    // Where the span ends: past the end of the field, if it comes round.
    fn end(self, form: FieldForm) -> u32
        requires form { IsForm form }
        requires span { IsSpanOf form self }
        ensures value { result ≡ span_end form self }
        ensures small { result < 20_000 }
    {
        if self.first <= self.last {
            self.last
        } else {
            self.last + form.size()
        }
    }

    // Whether the span lists a number of the field.
    #[tactic(auto, unfolding(crate::specs::DialectFields::span_lists))]
    pub(crate) fn lists(self, form: FieldForm, number: u32) -> bool
        requires form { IsForm form }
        requires span { IsSpanOf form self }
        requires number { number < 10_000 }
        ensures { result ≡ span_lists form self number }
    {
        let end = self.end(form);
        is_by_steps(self.first, end, self.step, number)
            || is_by_steps(self.first, end, self.step, number + form.size())
    }
}

// Whether a number is one of those from the first to the last, by steps.
fn is_by_steps(first: u32, last: u32, step: u32, number: u32) -> bool
    requires { 0 < step }
    ensures { result ≡ is_by_steps first last step number }
{
    first <= number && (number <= last && (number - first) % step == 0)
}
