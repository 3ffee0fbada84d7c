//! The months that BYMONTH lists, as texts.
ghost use Rattle.std.specs.Prelude.{◌≡◌};
ghost use Rattle.chrono_rules.specs.NumberLists.{month_list_of, with_month_text};

use crate::text::number_list::read_from_one;
use chrono_sets::NumberSet;
use chrono_text::{ItemReader, read_list};

/// Returns the months that a BYMONTH list names, such as `6,7` (RFC 5545, 3.3.10).
///
/// `text` is numbers of one or two digits from 1 to 12, with commas between them.
/// Returns `None` if it is no such list.
///
/// ```
/// let months = read_months(b"6,7")?;
/// (months.contains(6), months.contains(8)) // (true, false)
/// read_months(b"13") // None
/// ```
#[tactic(auto, unfolding(crate::specs::NumberLists::month_list_of))]
pub fn read_months(text: &[u8]) -> Option<NumberSet>
    ensures { result ≡ month_list_of text.now }
{
    read_list(&MonthReader, NumberSet::none(), text, b',')
}

// Reads the months of a list.
struct MonthReader;

impl ItemReader<NumberSet> for MonthReader {
    ghost step = { λ _. with_month_text };

    #[tactic(auto, unfolding(crate::specs::NumberLists::with_month_text))]
    fn with_item(&self, list: NumberSet, item: &[u8]) -> Option<NumberSet> {
        match read_from_one(item, 2, 12) {
            Some(month) => Some(list.with(month)),
            None => None,
        }
    }
}
