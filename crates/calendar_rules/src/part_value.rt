//! The value of the part of a rule's text that has a name.
ghost use Rattle.std.specs.Prelude.{◌≡◌, ◌≤◌, ◌∷◌, [], IfNone, IfSome, length};
ghost use Rattle.std.specs.Str.{byte};
ghost use Rattle.chrono_text.specs.Lists.{pieces_behind};
ghost use Rattle.chrono_rules.specs.RuleTexts.{parts, values, values_in};

use calendar_text::behind_name;
use chrono_text::first_piece;

pub(crate) const SEMICOLON: u8 = b';';

// A value, and what stands behind its part.
#[derive(Clone, Copy)]
struct FoundValue<'a> {
    value: &'a [u8],
    behind: &'a [u8],
}

// The value of the part with the name; `Some(None)` if the text has no such part, `None` if it has more than one.
pub(crate) fn value_of<'a>(text: &'a [u8], name: &[u8]) -> Option<Option<&'a [u8]>>
    ensures once { IfSome result (λ found. IfSome found (λ value. values_in text.now name.now ≡ value.now ∷ [])) }
    ensures absent { IfSome result (λ found. IfNone found (values_in text.now name.now ≡ [])) }
    ensures repeated { IfNone result (2 ≤ length (values_in text.now name.now)) }
{
    let Some(first) = first_value(text, name) else {
        return Some(None);
    };
    match next_value(first.behind, name) {
        Some(_) => None,
        None => Some(Some(first.value)),
    }
}

// The value of the first part with the name.
fn first_value<'a>(text: &'a [u8], name: &[u8]) -> Option<FoundValue<'a>>
    ensures some { IfSome result (λ found. values name.now (parts text.now) ≡ found.value.now ∷ values name.now (pieces_behind (byte ";") found.behind.now)) }
    ensures none { IfNone result (values name.now (parts text.now) ≡ []) }
{
    let mut rest = text;
    loop {
        let (part, behind) = first_piece(rest, SEMICOLON);
        if let Some(value) = behind_name(part, name) {
            return Some(FoundValue { value, behind });
        }
        match behind {
            [_, next @ ..] => rest = next,
            [] => return None,
        }
    }
}

// The same of what stands behind a part.
fn next_value<'a>(behind: &'a [u8], name: &[u8]) -> Option<FoundValue<'a>>
    ensures some { IfSome result (λ _. 1 ≤ length (values name.now (pieces_behind (byte ";") behind.now))) }
    ensures none { IfNone result (values name.now (pieces_behind (byte ";") behind.now) ≡ []) }
{
    match behind {
        [_, next @ ..] => first_value(next, name),
        [] => None,
    }
}
