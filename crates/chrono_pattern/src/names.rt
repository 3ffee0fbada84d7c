//! What the texts of a pattern may name, as its specifiers tell.
ghost use Rattle.std.specs.Prelude.{◌≡◌};
ghost use Rattle.chrono_pattern.specs.NamedParts.{names_told, sure_parts};

use crate::date_parts::names_date;
use crate::date_time_parts::names_moment;
use crate::named_parts::named_parts;
use crate::needs::{Sort, has_item_of};
use crate::parsed::Parsed;
use crate::time_parts::names_time;
use crate::zoned_parts::names_zoned;

// Whether a text of a pattern may name a date, a time of day, a date-time, and one with its offset.
#[derive(Clone, Copy)]
pub(crate) struct Names {
    pub(crate) date: bool,
    pub(crate) time: bool,
    pub(crate) date_time: bool,
    pub(crate) zoned: bool,
}

// What the texts of a pattern may name.
pub(crate) fn names_told(bytes: &[u8]) -> Names
    ensures { result ≡ names_told bytes.now }
{
    let parts = sure_parts(bytes);
    Names {
        date: names_date(parts),
        time: names_time(parts),
        date_time: names_moment(parts),
        zoned: names_zoned(parts),
    }
}

// The parts that each text of a pattern gives, each as 0.
fn sure_parts(bytes: &[u8]) -> Parsed
    ensures { result ≡ sure_parts bytes.now }
{
    let mut parts = named_parts(bytes);
    if !has_item_of(Sort::OfFraction, bytes) {
        parts.nanosecond = None;
    }
    parts
}
