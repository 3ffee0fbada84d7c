//! Between a column of dates and one of their texts, of ten bytes each.
ghost use Rattle.std.specs.Prelude.{◌≡◌, ℕ, ◌<◌, ◌≤◌, [], length, map, pos, slice_index, slice_index_or};
ghost use Rattle.chrono_columns.specs.Columns.{IsTextEntry, name_text_entry, text_entry};

use crate::names::split_dates;
use crate::read::date_of_text_entry;
use crate::written::text_of_name_entry;

// How many dates are named before their texts are written.
const BLOCK: usize = 256;

// The text of each year, month and day.
fn write_names(years: &[i32], months: &[u8], days: &[u8], texts: &mut [[u8; 10]])
    requires months { length months.now ≡ length years.now }
    requires days { length days.now ≡ length years.now }
    requires texts { length texts.old ≡ length years.now }
    requires two_digits { (i : ℕ) → i < length years.now → (slice_index months.now i < 100) × (slice_index days.now i < 100) }
    ensures { (i : ℕ) → i < length years.now → slice_index_or texts.new i []
        ≡ name_text_entry (slice_index_or years.now i (pos 0)) (slice_index months.now i) (slice_index days.now i) }
{
    for i in 0..years.len() {
        texts[i] = text_of_name_entry(years[i], months[i], days[i]);
    }
}

// The text of each date of a block, by the names of all of them.
fn write_block(dates: &[i32], texts: &mut [[u8; 10]])
    requires few { length dates.now ≤ 256 }
    requires texts { length texts.old ≡ length dates.now }
    ensures { texts.new ≡ map text_entry dates.now }
{
    let count = dates.len();
    let mut years = [0; BLOCK];
    let mut months = [0; BLOCK];
    let mut days = [0; BLOCK];
    split_dates(
        dates,
        &mut years[..count],
        &mut months[..count],
        &mut days[..count],
    );
    write_names(&years[..count], &months[..count], &days[..count], texts);
}

/// Writes the text of each of `dates`, such as `2024-02-29` (ISO 8601 calendar date).
///
/// It writes ten zero bytes where the date is missing or its year is not from 0 to 9999.
/// Requires that `texts` is as long as `dates`.
///
/// ```
/// let mut texts = [[0; 10]; 2];
/// write_dates(&[738_945, NONE], &mut texts);
/// texts[0] == *b"2024-02-29" // true
/// texts[1] // [0, 0, 0, 0, 0, 0, 0, 0, 0, 0]
/// ```
pub fn write_dates(dates: &[i32], texts: &mut [[u8; 10]])
    requires { length texts.old ≡ length dates.now }
    ensures { texts.new ≡ map text_entry dates.now }
{
    let mut begun = 0;
    while begun < dates.len() {
        let end = begun + BLOCK.min(dates.len() - begun);
        write_block(&dates[begun..end], &mut texts[begun..end]);
        begun = end;
    }
}

/// Writes the date that each of `texts` is the text of (ISO 8601 calendar date).
///
/// It writes [`NONE`](crate::NONE) where a text is no date. Requires that `out` is as long as `texts`.
///
/// ```
/// let mut out = [0; 2];
/// read_dates(&[*b"2024-02-29", *b"2023-02-29"], &mut out);
/// out // [738945, -2147483648]
/// ```
pub fn read_dates(texts: &[[u8; 10]], out: &mut [i32])
    requires { length out.old ≡ length texts.now }
    ensures { (i : ℕ) → i < length texts.now
        → IsTextEntry (slice_index_or texts.now i []) (slice_index_or out.new i (pos 0)) }
{
    for i in 0..texts.len() {
        out[i] = date_of_text_entry(texts[i]);
    }
}
