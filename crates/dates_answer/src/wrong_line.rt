//! Lines of `check`.
ghost use Rattle.std.specs.Prelude.{Some};
ghost use Rattle.dates_answer.specs.Quoted.{wrong_line};

use crate::form::OutputForm;
use crate::quoted::Quoted;
use std::fmt;

/// A line of input that is no day: as a text, such as `2: the month has 29 days`, or as an object of JSON.
#[derive(Clone, Copy)]
pub struct WrongLine<'a, 'b> {
    /// The form that is wanted.
    pub form: OutputForm,
    /// The number of the line, from 1 on.
    pub number: u64,
    /// Its text.
    pub text: &'a str,
    /// Why it is no day.
    pub reason: &'b str,
}

impl fmt::Display for WrongLine<'_, '_> {
    ghost output = { λ l. Some (wrong_line l.form l.number l.text.now l.reason.now) };

    /// Writes the number and the reason, and in an object the text too.
    #[tactic(auto, unfolding(crate::specs::Quoted::wrong_line))]
    fn fmt<W: fmt::Write>(&self, f: &mut fmt::Formatter<W>) -> fmt::Result {
        let number = self.number;
        let text = Quoted { text: self.text };
        let reason = Quoted { text: self.reason };
        match self.form {
            OutputForm::Text => write!(f, "{number}: {}", self.reason),
            OutputForm::Json => {
                write!(
                    f,
                    "{{\"line\":{number},\"text\":{text},\"reason\":{reason}}}"
                )
            }
        }
    }
}
