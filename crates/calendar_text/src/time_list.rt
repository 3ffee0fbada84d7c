//! `TimeList`: the times of a calendar's lists, one after another.
ghost use Rattle.std.specs.Prelude.{◌≡◌, ◌+◌, ◌≤◌, ◌∷◌, [], IfNone, IfSome, length};
ghost use Rattle.std.specs.Iterator.{YieldsFirst, item_count};
ghost use Rattle.std.specs.Str.{byte};
ghost use Rattle.chrono_text.specs.Lists.{pieces};
ghost use Rattle.calendar_text.specs.CalendarTexts.{content_lines, line_times, times_of};
ghost use Rattle.calendar_text.specs.Lines.{text_in};
ghost use Rattle.calendar_text.specs.TimeLists.{pieces_left, size_left, times_left, times_listed};

use crate::calendar_time::{CalendarTime, read_calendar_time};
use crate::pieces::cut_at;
use crate::property::{Property, is_line_of};
use chrono_text::first_piece;
use std::iter::FusedIterator;
use std::marker::Model;

/// The times of all lines RDATE, or of all lines EXDATE, in the order of the text.
///
/// Contracts see it as the list of the times that are left.
#[derive(Drop)]
pub struct TimeList<'a> {
    property: Property,
    // What is left of the list in a line.
    values: Option<&'a [u8]>,
    // The lines behind it.
    text: Option<&'a [u8]>,
}

impl<'a> Model for TimeList<'a> {
    ghost use Rattle.std.specs.Prelude.{List};
    ghost use Rattle.calendar_text.specs.Lines.{text_in};
    ghost use Rattle.calendar_text.specs.TimeLists.{times_left};
    ghost use Rattle.calendar_text.specs.declared.calendar_time.CalendarTime.{CalendarTime};

    ghost Value = { List CalendarTime };

    ghost view = { λ l. times_left l.property (text_in l.values) (text_in l.text) };
}

impl<'a> TimeList<'a> {
    // The times of all lines of a property.
    #[tactic(auto, unfolding(crate::specs::TimeLists::times_left))]
    pub(crate) fn of(property: Property, text: &'a [u8]) -> TimeList<'a>
        ensures { result ≡ times_of property (content_lines text.now) }
    {
        TimeList {
            property,
            values: None,
            text: Some(text),
        }
    }
}

impl<'a> Iterator for TimeList<'a> {
    type Item = CalendarTime;

    ghost next_gives = { YieldsFirst (λ left. left) };

    ghost remaining = { item_count (λ left. left) };

    /// Removes the first of the times that are left and returns it. Returns `None` once none is left.
    fn next(&mut self) -> Option<CalendarTime> {
        let property = self.property;
        let values = self.values;
        let text = self.text;
        match next_time(property, values, text) {
            Some((time, values, text)) => {
                self.values = values;
                self.text = text;
                Some(time)
            }
            None => None,
        }
    }
}

impl<'a> FusedIterator for TimeList<'a> {}

// The first time that is left, and what is left behind it.
#[tactic(auto, unfolding(crate::specs::TimeLists::times_left))]
fn next_time<'a>(
    property: Property,
    values: Option<&'a [u8]>,
    text: Option<&'a [u8]>,
) -> Option<(CalendarTime, Option<&'a [u8]>, Option<&'a [u8]>)>
    ensures some { IfSome result (λ r. times_left property (text_in values.entry) (text_in text.entry) ≡ r.0 ∷ times_left property (text_in r.1) (text_in r.2)) }
    ensures none { IfNone result (times_left property (text_in values.entry) (text_in text.entry) ≡ []) }
{
    let mut values = values;
    let mut text = text;
    loop {
        match values {
            Some(list) => {
                let (value, behind) = next_piece(list, b',');
                values = behind;
                if let Some(time) = read_calendar_time(value) {
                    return Some((time, values, text));
                }
            }
            None => {
                let (line, behind) = next_piece(text?, b'\n');
                text = behind;
                values = values_of(property, line);
            }
        }
    }
}

// The first piece of a text, and the text behind its separator.
fn next_piece(text: &[u8], separator: u8) -> (&[u8], Option<&[u8]>)
    ensures pieces { pieces separator text.now ≡ result.0.now ∷ pieces_left separator (text_in result.1) }
    ensures whole { length result.0.now + size_left (text_in result.1) ≡ length text.now }
{
    let (piece, behind) = first_piece(text, separator);
    match behind {
        [_, next @ ..] => (piece, Some(next)),
        [] => (piece, None),
    }
}

// The list in a line, if it is of a property.
fn values_of(property: Property, line: &[u8]) -> Option<&[u8]>
    ensures times { times_listed (text_in result) ≡ line_times property line.now }
    ensures small { size_left (text_in result) ≤ length line.now }
{
    if !is_line_of(property, line) {
        return None;
    }
    let (_, value) = cut_at(line, b':')?;
    Some(value)
}
