//! `ClockPart`: the parts of a rule that list times of day.
ghost use Rattle.std.specs.Prelude.{◌≡◌, ◌<◌};
ghost use Rattle.calendar_rules.specs.TimedRuleTexts.{greatest_number, number_list_of, clock_part_key, with_number_text};

use chrono_sets::NumberSet;
use chrono_text::{ItemReader, read_digits, read_list};

/// A part of a rule that lists times of day.
#[derive(Clone, Copy, PartialEq, Eq, Debug)]
pub enum ClockPart {
    /// BYHOUR: hours from 0 to 23.
    ByHour,
    /// BYMINUTE: minutes from 0 to 59.
    ByMinute,
    /// BYSECOND: seconds from 0 to 60. 60 is a leap second.
    BySecond,
}

impl ClockPart {
    // The name of the part, with the sign behind it.
    #[tactic(auto, unfolding(crate::specs::TimedRuleTexts::clock_part_key))]
    pub(crate) fn key(self) -> &'static [u8]
        ensures { result.now ≡ clock_part_key self }
    {
        match self {
            ClockPart::ByHour => b"BYHOUR=",
            ClockPart::ByMinute => b"BYMINUTE=",
            ClockPart::BySecond => b"BYSECOND=",
        }
    }

    // The greatest number that the part may list.
    #[tactic(auto, unfolding(crate::specs::TimedRuleTexts::greatest_number))]
    fn greatest(self) -> u32
        ensures value { result ≡ greatest_number self }
        ensures small { result < 64 }
    {
        match self {
            ClockPart::ByHour => 23,
            ClockPart::ByMinute => 59,
            ClockPart::BySecond => 60,
        }
    }

    // The numbers that a text lists.
    #[tactic(auto, unfolding(crate::specs::TimedRuleTexts::number_list_of))]
    pub(crate) fn read_numbers(self, text: &[u8]) -> Option<NumberSet>
        ensures { result ≡ number_list_of self text.now }
    {
        read_list(&NumberReader { part: self }, NumberSet::none(), text, b',')
    }
}

// Reads the numbers of a part's list.
#[derive(Drop)]
struct NumberReader {
    part: ClockPart,
}

impl ItemReader<NumberSet> for NumberReader {
    ghost step = { λ reader. with_number_text reader.part };

    #[tactic(auto, unfolding(crate::specs::TimedRuleTexts::with_number_text))]
    fn with_item(&self, list: NumberSet, item: &[u8]) -> Option<NumberSet> {
        match read_digits(item, 2) {
            Some(number) => {
                if number <= self.part.greatest() {
                    Some(list.with(number))
                } else {
                    None
                }
            }
            None => None,
        }
    }
}
