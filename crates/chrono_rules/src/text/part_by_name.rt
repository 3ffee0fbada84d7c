//! The parts of a rule's text, and the values after their names.
ghost use Rattle.std.specs.Prelude.{◌≡◌, ◌≤◌, ◌<◌, ◌+◌, ◌^◌, ◌∷◌, [], true, false, IfSome, IfNone, IsTrue, IsFalse, length, drop};
ghost use Rattle.std.specs.List.{list_all};
ghost use Rattle.std.specs.Str.{byte};
ghost use Rattle.chrono_text.specs.Lists.{begins_alike, pieces_behind};
ghost use Rattle.chrono_rules.specs.RuleErrors.{placed_values};
ghost use Rattle.chrono_rules.specs.RuleTexts.{is_list_part, is_part, parts, values};

use chrono_text::{begins_but_for_case, first_piece, same_but_for_case};

pub(crate) const SEMICOLON: u8 = b';';

// A part that has a name: where it begins and ends, its value, and what stands behind the part.
#[derive(Clone, Copy)]
pub(crate) struct PlacedValue<'a> {
    pub(crate) place: usize,
    pub(crate) end: usize,
    pub(crate) value: &'a [u8],
    pub(crate) behind: &'a [u8],
}

impl<'a> PlacedValue<'a> {
    // The next part that has the name.
    pub(crate) fn next(&self, name: &[u8]) -> Option<PlacedValue<'a>>
        requires { self.now.end + length self.now.behind.now < 2 ^ 64 }
        ensures some { IfSome result (λ found. placed_values name.now (self.now.end + 1) (pieces_behind (byte ";") self.now.behind.now)
            ≡ (found.place, found.value.now) ∷ placed_values name.now (found.end + 1) (pieces_behind (byte ";") found.behind.now)) }
        ensures several { IfSome result (λ _. 1 ≤ length (values name.now (pieces_behind (byte ";") self.now.behind.now))) }
        ensures within { IfSome result (λ found. found.place ≤ self.now.end + length self.now.behind.now) }
        ensures none { IfNone result (placed_values name.now (self.now.end + 1) (pieces_behind (byte ";") self.now.behind.now) ≡ []) }
        ensures absent { IfNone result (values name.now (pieces_behind (byte ";") self.now.behind.now) ≡ []) }
    {
        match self.behind {
            [_, next @ ..] => first_placed(next, name, self.end + 1),
            [] => None,
        }
    }
}

// The first part that has the name, in a text that begins at the byte `at`.
pub(crate) fn first_placed<'a>(text: &'a [u8], name: &[u8], at: usize) -> Option<PlacedValue<'a>>
    requires { at + length text.now < 2 ^ 64 }
    ensures some { IfSome result (λ found. placed_values name.now at (parts text.now)
        ≡ (found.place, found.value.now) ∷ placed_values name.now (found.end + 1) (pieces_behind (byte ";") found.behind.now)) }
    ensures value { IfSome result (λ found. values name.now (parts text.now)
        ≡ found.value.now ∷ values name.now (pieces_behind (byte ";") found.behind.now)) }
    ensures end { IfSome result (λ found. found.place + length name.now + length found.value.now ≡ found.end) }
    ensures whole { IfSome result (λ found. found.end + length found.behind.now ≡ at + length text.now) }
    ensures none { IfNone result (placed_values name.now at (parts text.now) ≡ []) }
    ensures absent { IfNone result (values name.now (parts text.now) ≡ []) }
{
    let mut place = at;
    let mut rest = text;
    loop {
        let (part, behind) = first_piece(rest, SEMICOLON);
        let end = place + part.len();
        if let Some(value) = behind_name(part, name) {
            return Some(PlacedValue {
                place,
                end,
                value,
                behind,
            });
        }
        match behind {
            [_, next @ ..] => {
                place = end + 1;
                rest = next;
            }
            [] => return None,
        }
    }
}

// What stands behind the name, if the part begins with it, in letters of either case.
pub(crate) fn behind_name<'a>(part: &'a [u8], name: &[u8]) -> Option<&'a [u8]>
    ensures some { IfSome result (λ value. begins_alike name.now part.now ≡ true) }
    ensures value { IfSome result (λ value. value.now ≡ drop (length name.now) part.now) }
    ensures whole { IfSome result (λ value. length name.now + length value.now ≡ length part.now) }
    ensures none { IfNone result (begins_alike name.now part.now ≡ false) }
{
    let (front, value) = part.split_at(name.len().min(part.len()));
    if same_but_for_case(front, name) {
        Some(value)
    } else {
        None
    }
}

// Whether each part has a name that the parts of rules have.
pub(crate) fn are_parts(text: &[u8]) -> bool
    ensures { list_all is_part (parts text.now) ≡ result }
{
    let mut rest = text;
    loop {
        let (part, behind) = first_piece(rest, SEMICOLON);
        if !is_part(part) {
            return false;
        }
        match behind {
            [_, next @ ..] => rest = next,
            [] => return true,
        }
    }
}

// Whether the part has one of these names.
pub(crate) fn is_part(part: &[u8]) -> bool
    ensures { result ≡ is_part part.now }
{
    begins_but_for_case(part, b"FREQ=")
        || (begins_but_for_case(part, b"INTERVAL=")
            || (begins_but_for_case(part, b"COUNT=")
                || (begins_but_for_case(part, b"UNTIL=")
                    || (begins_but_for_case(part, b"WKST=") || is_list_part(part)))))
}

// Whether it has the name of a list.
fn is_list_part(part: &[u8]) -> bool
    ensures { result ≡ is_list_part part.now }
{
    begins_but_for_case(part, b"BYMONTH=")
        || (begins_but_for_case(part, b"BYMONTHDAY=")
            || (begins_but_for_case(part, b"BYDAY=")
                || (begins_but_for_case(part, b"BYYEARDAY=")
                    || (begins_but_for_case(part, b"BYWEEKNO=")
                        || begins_but_for_case(part, b"BYSETPOS=")))))
}
