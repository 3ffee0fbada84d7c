//! `TextParts`: the values of the parts of a rule's text, all found in one pass.
ghost use Rattle.std.specs.Prelude.{◌≡◌, ◌≤◌, ◌<◌, ◌∷◌, [], None, IfSome, IfNone, length, slice_index_or};
ghost use Rattle.chrono_rules.specs.PartsFound.{and_part, found_of, part_index, texts_found};
ghost use Rattle.chrono_rules.specs.RuleErrors.{part_key};
ghost use Rattle.chrono_rules.specs.RuleTexts.{values_in};
ghost use Rattle.chrono_rules.specs.declared.text.rule_error.RulePart.{RulePart};

use crate::text::part_by_name::{SEMICOLON, behind_name};
use crate::text::rule_error::{RulePart, key_of};
use chrono_text::split_at_byte;
use std::marker::Model;

// How many kinds of parts there are.
const KINDS: usize = 11;

// The values that the parts of a text have, of each name the one.
// `Some(None)` stands for a name that no part has, and `None` for a name that several have.
//
// Contracts see it as the text.
#[derive(Drop)]
pub(crate) struct TextParts<'a> {
    pub(crate) text: &'a [u8],
    values: [Option<Option<&'a [u8]>>; KINDS],
}

impl<'a> Model for TextParts<'a> {
    ghost use Rattle.std.specs.Prelude.{List, ℕ};
    ghost use Rattle.chrono_rules.specs.PartsFound.{AreFound};

    ghost Value = { List ℕ };

    ghost view = { λ p. p.text.now };

    ghost invariant = { λ p. AreFound p.values p.text.now };
}

impl<'a> TextParts<'a> {
    // Finds the values of the text's parts.
    pub(crate) fn of(text: &'a [u8]) -> TextParts<'a>
        ensures { result ≡ text.now }
    {
        let mut values = [Some(None); KINDS];
        let mut rest = text;
        while let Some((part, behind)) = split_at_byte(rest, SEMICOLON) {
            values = and_part(&values, part);
            rest = behind;
        }
        TextParts {
            text,
            values: and_part(&values, rest),
        }
    }

    // The part's value; `Some(None)` if the text has no such part, `None` if it has more than one.
    pub(crate) fn value_of(&self, part: RulePart) -> Option<Option<&'a [u8]>>
        ensures once { IfSome result (λ found. IfSome found (λ value. values_in self.now (part_key part) ≡ value.now ∷ [])) }
        ensures absent { IfSome result (λ found. IfNone found (values_in self.now (part_key part) ≡ [])) }
        ensures repeated { IfNone result (2 ≤ length (values_in self.now (part_key part))) }
    {
        value_at(&self.values, index_of(part))
    }
}

// The values behind one more part.
fn and_part<'a>(
    values: &[Option<Option<&'a [u8]>>; KINDS],
    part: &'a [u8],
) -> [Option<Option<&'a [u8]>>; KINDS]
    ensures { (kind : RulePart) → found_of result kind ≡ and_part (part_key kind) part.now (found_of values.now kind) }
{
    [
        and_value(value_at(values, 0), part, RulePart::Freq),
        and_value(value_at(values, 1), part, RulePart::Interval),
        and_value(value_at(values, 2), part, RulePart::Count),
        and_value(value_at(values, 3), part, RulePart::Until),
        and_value(value_at(values, 4), part, RulePart::ByMonth),
        and_value(value_at(values, 5), part, RulePart::ByMonthDay),
        and_value(value_at(values, 6), part, RulePart::ByDay),
        and_value(value_at(values, 7), part, RulePart::ByYearDay),
        and_value(value_at(values, 8), part, RulePart::ByWeekNo),
        and_value(value_at(values, 9), part, RulePart::BySetPos),
        and_value(value_at(values, 10), part, RulePart::Wkst),
    ]
}

// What was found of a kind of part, and the part if it is of that kind.
fn and_value<'a>(
    found: Option<Option<&'a [u8]>>,
    part: &'a [u8],
    kind: RulePart,
) -> Option<Option<&'a [u8]>>
    ensures { texts_found result ≡ and_part (part_key kind) part.now (texts_found found.entry) }
{
    let Some(value) = behind_name(part, key_of(kind).as_bytes()) else {
        return found;
    };
    match found {
        Some(None) => Some(Some(value)),
        Some(Some(_)) | None => None,
    }
}

// The value at an index.
#[inline]
#[tactic(auto, using(std::proofs::lemmas::List::get_or_read))]
fn value_at<'a>(
    values: &[Option<Option<&'a [u8]>>; KINDS],
    index: usize,
) -> Option<Option<&'a [u8]>>
    requires { index < 11 }
    ensures { result ≡ slice_index_or values.now index None }
{
    values[index]
}

// The part's place in the order of parts.
#[tactic(auto, unfolding(crate::specs::PartsFound::part_index))]
fn index_of(part: RulePart) -> usize
    ensures index { result ≡ part_index part }
    ensures small { result < 11 }
{
    match part {
        RulePart::Freq => 0,
        RulePart::Interval => 1,
        RulePart::Count => 2,
        RulePart::Until => 3,
        RulePart::ByMonth => 4,
        RulePart::ByMonthDay => 5,
        RulePart::ByDay => 6,
        RulePart::ByYearDay => 7,
        RulePart::ByWeekNo => 8,
        RulePart::BySetPos => 9,
        RulePart::Wkst => 10,
    }
}
