//! The numbers that the BY parts of a rule list, as texts.
ghost use Rattle.std.specs.Prelude.{◌≡◌, ◌≤◌, ◌<◌, ℕ, IfSome};
ghost use Rattle.std.specs.Option.{option_map};
ghost use Rattle.chrono_rules.specs.NumberLists.{signed_list_of, listed_number, no_signed, signed_number, signed_number_of, with_signed, with_signed_text};

use chrono_sets::NumberSet;
use chrono_text::{ItemReader, read_digits, read_list};

// A number, counted from the front or from the end.
#[derive(Clone, Copy, PartialEq, Eq, Debug)]
pub(crate) struct SignedNumber {
    // Whether it counts from the end.
    pub(crate) from_end: bool,
    // The number. 1 is the first or the last.
    pub(crate) number: u32,
}

/// Numbers that count from the front, and others that count from the end.
#[derive(Clone, Copy, PartialEq, Eq, Debug)]
pub struct BothEnds {
    /// The numbers without a sign, or with a `+`.
    pub front: NumberSet,
    /// The numbers with a `-`.
    pub back: NumberSet,
}

impl BothEnds {
    // No number.
    pub(crate) fn none() -> BothEnds
        ensures { result ≡ no_signed }
    {
        BothEnds {
            front: NumberSet::none(),
            back: NumberSet::none(),
        }
    }

    // These numbers and that.
    fn with(self, one: SignedNumber) -> BothEnds
        requires { one.number < 64 }
        ensures { result ≡ with_signed self one }
    {
        if one.from_end {
            BothEnds {
                front: self.front,
                back: self.back.with(one.number),
            }
        } else {
            BothEnds {
                front: self.front.with(one.number),
                back: self.back,
            }
        }
    }
}

// The number from 1 to `most` that the text writes in at most `digits` digits.
#[tactic(auto, unfolding(crate::specs::NumberLists::listed_number))]
pub(crate) fn read_from_one(text: &[u8], digits: usize, most: u32) -> Option<u32>
    requires { digits ≤ 9 }
    ensures value { result ≡ listed_number digits most text.now }
    ensures small { IfSome result (λ n. n ≤ most) }
{
    match read_digits(text, digits) {
        Some(number) => {
            if 1 <= number && number <= most {
                Some(number)
            } else {
                None
            }
        }
        None => None,
    }
}

// The same with a sign.
#[tactic(auto, unfolding(crate::specs::NumberLists::signed_number_of))]
pub(crate) fn read_signed(text: &[u8], digits: usize, most: u32) -> Option<SignedNumber>
    requires { digits ≤ 9 }
    ensures value { result ≡ signed_number_of digits most text.now }
    ensures small { IfSome result (λ p. p.number ≤ most) }
{
    match text {
        [b'-', number @ ..] => signed(read_from_one(number, digits, most), true),
        [b'+', number @ ..] => signed(read_from_one(number, digits, most), false),
        [] => None,
        _ => signed(read_from_one(text, digits, most), false),
    }
}

// The number, counted from the end or not.
fn signed(number: Option<u32>, from_end: bool) -> Option<SignedNumber>
    ensures value { result ≡ option_map (signed_number from_end) number }
    ensures small { (most : ℕ) → IfSome number (λ n. n ≤ most)
        → IfSome result (λ p. p.number ≤ most) }
{
    match number {
        Some(number) => Some(SignedNumber { from_end, number }),
        None => None,
    }
}

/// Returns the days of the month that a BYMONTHDAY list names, such as `1,-1` (RFC 5545, 3.3.10).
///
/// `text` is numbers of one or two digits from 1 to 31, with commas between them. Each has a sign or none.
/// `-` counts from the end of the month. Returns `None` if `text` is no such list.
///
/// ```
/// let days = read_month_days(b"1,-2")?;
/// (days.front.contains(1), days.back.contains(2)) // (true, true)
/// read_month_days(b"32") // None
/// ```
#[tactic(auto, unfolding(crate::specs::NumberLists::signed_list_of))]
pub fn read_month_days(text: &[u8]) -> Option<BothEnds>
    ensures { result ≡ signed_list_of 2 31 text.now }
{
    read_list(&MonthDayReader, BothEnds::none(), text, b',')
}

// Reads the days of the month of a list.
struct MonthDayReader;

impl ItemReader<BothEnds> for MonthDayReader {
    ghost step = { λ _. with_signed_text 2 31 };

    fn with_item(&self, list: BothEnds, item: &[u8]) -> Option<BothEnds> {
        with_text(list, item, 2, 31)
    }
}

/// Returns the weeks of the year that a BYWEEKNO list names, such as `20,-1` (RFC 5545, 3.3.10).
///
/// `text` is numbers of one or two digits from 1 to 53, with commas between them. Each has a sign or none.
/// `-` counts from the end of the year. Returns `None` if `text` is no such list.
///
/// ```
/// let weeks = read_weeks(b"20,-1")?;
/// (weeks.front.contains(20), weeks.back.contains(1)) // (true, true)
/// read_weeks(b"54") // None
/// ```
#[tactic(auto, unfolding(crate::specs::NumberLists::signed_list_of))]
pub fn read_weeks(text: &[u8]) -> Option<BothEnds>
    ensures { result ≡ signed_list_of 2 53 text.now }
{
    read_list(&WeekReader, BothEnds::none(), text, b',')
}

// Reads the weeks of the year of a list.
struct WeekReader;

impl ItemReader<BothEnds> for WeekReader {
    ghost step = { λ _. with_signed_text 2 53 };

    fn with_item(&self, list: BothEnds, item: &[u8]) -> Option<BothEnds> {
        with_text(list, item, 2, 53)
    }
}

// The numbers and the one from 1 to `most` that the text writes in at most `digits` digits, with a sign or none.
#[tactic(auto, unfolding(crate::specs::NumberLists::with_signed_text))]
fn with_text(ends: BothEnds, text: &[u8], digits: usize, most: u32) -> Option<BothEnds>
    requires few { digits ≤ 9 }
    requires small { most < 64 }
    ensures { result ≡ with_signed_text digits most ends text.now }
{
    match read_signed(text, digits, most) {
        Some(number) => Some(ends.with(number)),
        None => None,
    }
}
