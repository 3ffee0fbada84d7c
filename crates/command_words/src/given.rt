//! What a program asks of the words that are read.
ghost use Rattle.std.specs.Prelude.{◌≡◌, map};
ghost use Rattle.std.specs.Option.{option_map};
ghost use Rattle.command_words.specs.Arguments.{first_value, is_given, missing, pair, seen, value_named};

use crate::table::{CommandRow, Opt};
use crate::words::{Arguments, GivenOption, Word, is_given, option_named};

impl<'a> Arguments<'a> {
    /// Returns the value of the option of that name as it is given first; else its default in the table, as a word at place 0.
    pub fn value(&self, table: &'static [Opt], name: &str) -> Option<Word<'a>>
        ensures { option_map seen result ≡ value_named name.now table.now (map pair self.now.options.items) }
    {
        if let Some(value) = first_value(self.options.as_slice(), name) {
            return Some(value);
        }
        let text = option_named(table, name)?.default;
        if text.is_empty() {
            None
        } else {
            Some(Word { place: 0, text })
        }
    }

    /// Returns whether the option of that name is given.
    pub fn has(&self, name: &str) -> bool
        ensures { result ≡ is_given name.now (map pair self.now.options.items) }
    {
        is_given(self.options.as_slice(), name)
    }

    /// Returns the first option of a table that has to be given and is not.
    pub fn missing(&self, table: &'static [Opt]) -> Option<&'static Opt>
        ensures { option_map (λ o. o.now) result ≡ missing (map pair self.now.options.items) table.now }
    {
        let [option, others @ ..] = table else {
            return None;
        };
        if option.required && !is_given(self.options.as_slice(), option.name) {
            return Some(option);
        }
        self.missing(others)
    }

    /// Returns the operand at a place, counted from 0.
    pub fn operand(&self, place: usize) -> Option<Word<'a>> {
        let words = self.operands.as_slice();
        if place < words.len() {
            Some(words[place])
        } else {
            None
        }
    }

    /// Returns the place in the command's row of the first operand that has to be there and is not.
    pub fn missing_operand(&self, command: &CommandRow) -> Option<usize> {
        let mut left = self.operands.len();
        let mut place: usize = 0;
        for operand in command.operands {
            if operand.required && left == 0 {
                return Some(place);
            }
            if operand.required {
                left = left.saturating_sub(1);
            }
            place = place.saturating_add(1);
        }
        None
    }

    /// Returns the first operand for which the command's row has no place.
    pub fn extra_operand(&self, command: &CommandRow) -> Option<Word<'a>> {
        let mut places = command.operands.len();
        for operand in command.operands {
            if operand.many {
                return None;
            }
            if !operand.keyword.is_empty() {
                places = places.saturating_add(1);
            }
        }
        self.operand(places)
    }
}

// The value of the first option with that name.
pub(crate) fn first_value<'a>(options: &[GivenOption<'a>], name: &str) -> Option<Word<'a>>
    ensures { option_map seen result ≡ first_value name.now (map pair options.now) }
{
    let mut rest = options;
    while let [given, others @ ..] = rest {
        if name == given.option.name {
            return Some(given.value);
        }
        rest = others;
    }
    None
}
