//! Lines that hold a text of somebody else's: of a pattern, of a time zone's file.
ghost use Rattle.std.specs.Prelude.{Some};
ghost use Rattle.dates_answer.specs.Lines.{clock_line, text_line};

use crate::form::OutputForm;
use crate::line::{Key, key_name};
use crate::quoted::Quoted;
use chrono_zoned::{DateTime, FixedOffset};
use std::fmt;

/// A text: as it stands, such as `29.02.2024`, or as an object of JSON, such as `{"date":"29.02.2024"}`.
#[derive(Clone, Copy)]
pub struct TextLine<'a> {
    /// The form that is wanted.
    pub form: OutputForm,
    /// The key under which an object has it.
    pub key: Key,
    /// The text.
    pub text: &'a str,
}

impl fmt::Display for TextLine<'_> {
    ghost output = { λ line. Some (text_line line.form line.key line.text.now) };

    /// Writes the text.
    #[tactic(auto, unfolding(crate::specs::Lines::text_line))]
    fn fmt<W: fmt::Write>(&self, f: &mut fmt::Formatter<W>) -> fmt::Result {
        let text = Quoted { text: self.text };
        match self.form {
            OutputForm::Text => f.write_str(self.text),
            OutputForm::Json => write!(f, "{{\"{}\":{text}}}", key_name(self.key)),
        }
    }
}

/// What a time zone's clock shows, and the name of its time: as a text, such as `2024-02-29T07:00:00-05:00 EST`, or as an object of JSON.
#[derive(Clone, Copy)]
pub struct ClockLine<'a> {
    /// The form that is wanted.
    pub form: OutputForm,
    /// What the clock shows.
    pub shown: DateTime<FixedOffset>,
    /// The name of its time.
    pub name: &'a str,
}

impl fmt::Display for ClockLine<'_> {
    ghost output = { λ line. Some (clock_line line.form line.shown.utc line.shown.zone line.name.now) };

    /// Writes the time and the name.
    #[tactic(auto, unfolding(crate::specs::Lines::clock_line))]
    fn fmt<W: fmt::Write>(&self, f: &mut fmt::Formatter<W>) -> fmt::Result {
        let shown = self.shown;
        let name = Quoted { text: self.name };
        match self.form {
            OutputForm::Text => write!(f, "{shown:?} {}", self.name),
            OutputForm::Json => write!(f, "{{\"moment\":\"{shown:?}\",\"name\":{name}}}"),
        }
    }
}
