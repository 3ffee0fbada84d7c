//! The properties of a calendar that are read: DTSTART, RRULE, RDATE and EXDATE.
ghost use Rattle.std.specs.Prelude.{◌≡◌, ◌≤◌, ◌==◌, length};
ghost use Rattle.std.specs.List.{before_first};
ghost use Rattle.std.specs.Str.{byte};
ghost use Rattle.calendar_text.specs.Lines.{is_line_of, property_name, property_key, property_of};

use crate::pieces::cut_at;
use chrono_text::{first_piece, same_but_for_case};

// A property.
#[derive(Clone, Copy)]
pub(crate) enum Property {
    // DTSTART: the first time.
    Start,
    // RRULE: the rule.
    Rule,
    // RDATE: times beside those of the rule.
    Dates,
    // EXDATE: times that are left out.
    Exceptions,
}

// The name of a property.
#[tactic(auto, unfolding(crate::specs::Lines::property_key))]
pub(crate) fn property_key(property: Property) -> &'static [u8]
    ensures key { result.now ≡ property_key property }
    ensures small { length result.now ≤ 7 }
{
    match property {
        Property::Start => b"DTSTART",
        Property::Rule => b"RRULE",
        Property::Dates => b"RDATE",
        Property::Exceptions => b"EXDATE",
    }
}

// The property that has a name.
#[tactic(auto, unfolding(crate::specs::Lines::property_of, crate::specs::Lines::property_key))]
pub(crate) fn property_of(name: &[u8]) -> Option<Property>
    ensures { result ≡ property_of name.now }
{
    if same_but_for_case(name, b"DTSTART") {
        Some(Property::Start)
    } else if same_but_for_case(name, b"RRULE") {
        Some(Property::Rule)
    } else if same_but_for_case(name, b"RDATE") {
        Some(Property::Dates)
    } else if same_but_for_case(name, b"EXDATE") {
        Some(Property::Exceptions)
    } else {
        None
    }
}

// The name in front of a line's parameters.
pub(crate) fn name_of(head: &[u8]) -> &[u8]
    ensures { result.now ≡ before_first (λ x. x == byte ";") head.now }
{
    let (name, _) = first_piece(head, b';');
    name
}

// Whether a line is of a property.
pub(crate) fn is_line_of(property: Property, line: &[u8]) -> bool
    ensures { result ≡ is_line_of property line.now }
{
    let (head, _) = first_piece(line, b':');
    same_but_for_case(name_of(head), property_key(property))
}
