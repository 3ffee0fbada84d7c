//! The days of the year and the positions that a rule lists, as texts.
ghost use Rattle.std.specs.Prelude.{◌≡◌, ◌<◌};
ghost use Rattle.chrono_rules.specs.NumberLists.{no_year_ends, with_signed_day, with_year_text, signed_year_list_of};

use crate::text::number_list::{SignedNumber, read_signed};
use chrono_sets::PlaceSet;
use chrono_text::{ItemReader, read_list};

/// Numbers from 1 to 366 that count from the front, and others that count from the end.
#[derive(Clone, Copy, PartialEq, Eq, Debug)]
pub struct YearEnds {
    /// The numbers without a sign, or with a `+`.
    pub front: PlaceSet,
    /// The numbers with a `-`.
    pub back: PlaceSet,
}

impl YearEnds {
    // No number.
    pub(crate) fn none() -> YearEnds
        ensures { result ≡ no_year_ends }
    {
        YearEnds {
            front: PlaceSet::none(),
            back: PlaceSet::none(),
        }
    }

    // These numbers and that.
    fn with(self, one: SignedNumber) -> YearEnds
        requires { one.number < 384 }
        ensures { result ≡ with_signed_day self one }
    {
        if one.from_end {
            YearEnds {
                front: self.front,
                back: self.back.with(one.number),
            }
        } else {
            YearEnds {
                front: self.front.with(one.number),
                back: self.back,
            }
        }
    }
}

/// Returns the numbers of a BYYEARDAY or BYSETPOS list, such as `1,-1` (RFC 5545, 3.3.10).
///
/// `text` is numbers of one to three digits from 1 to 366, with commas between them. Each has a sign or none.
/// `-` counts from the end. Returns `None` if `text` is no such list.
///
/// ```
/// let days = read_year_days(b"1,-306")?;
/// (days.front.contains(1), days.back.contains(306)) // (true, true)
/// read_year_days(b"367") // None
/// ```
#[tactic(auto, unfolding(crate::specs::NumberLists::signed_year_list_of))]
pub fn read_year_days(text: &[u8]) -> Option<YearEnds>
    ensures { result ≡ signed_year_list_of text.now }
{
    read_list(&YearDayReader, YearEnds::none(), text, b',')
}

// Reads the days of the year of a list, or its positions.
struct YearDayReader;

impl ItemReader<YearEnds> for YearDayReader {
    ghost step = { λ _. with_year_text };

    #[tactic(auto, unfolding(crate::specs::NumberLists::with_year_text))]
    fn with_item(&self, list: YearEnds, item: &[u8]) -> Option<YearEnds> {
        match read_signed(item, 3, 366) {
            Some(number) => Some(list.with(number)),
            None => None,
        }
    }
}
