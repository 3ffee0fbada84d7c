//! Between a column of dates and one of their texts of eight digits.
ghost use Rattle.std.specs.Prelude.{◌≡◌, ℕ, ℤ, ◌<◌, ◌≤◌, [], length, map, pos, replicate, slice_index, slice_index_or};
ghost use Rattle.chrono_text.specs.Text.{calendar_text};
ghost use Rattle.pattern_columns.specs.Layouts.{AreNameTexts, AreReadBy, NamesSame, compact_text, entry_by};

use crate::texts::BLOCK;
use chrono_columns::{date_of_text_entry, split_dates, text_of_name_entry};

// Puts the eight digits of an ISO text in place of a text. For ten zero bytes it puts eight of them.
#[inline]
fn put_digits_of_iso(iso: [u8; 10], text: &mut [u8; 8])
    ensures date { (y : ℤ) → (m : ℕ) → (d : ℕ) → calendar_text y m d ≡ iso → compact_text y m d ≡ text.new }
    ensures none { iso ≡ replicate 10 0 → text.new ≡ replicate 8 0 }
{
    text[0] = iso[0];
    text[1] = iso[1];
    text[2] = iso[2];
    text[3] = iso[3];
    text[4] = iso[5];
    text[5] = iso[6];
    text[6] = iso[8];
    text[7] = iso[9];
}

// The ISO text for a text of eight digits. For no date's text it returns none.
#[inline]
fn iso_of_digits(text: &[u8; 8]) -> [u8; 10]
    ensures { NamesSame compact_text text.now result }
{
    [
        text[0], text[1], text[2], text[3], b'-', text[4], text[5], b'-', text[6], text[7],
    ]
}

// The text of each year, month and day.
fn write_compact_names(years: &[i32], months: &[u8], days: &[u8], texts: &mut [[u8; 8]])
    requires months { length months.now ≡ length years.now }
    requires days { length days.now ≡ length years.now }
    requires texts { length texts.old ≡ length years.now }
    requires two_digits { (i : ℕ) → i < length years.now → (slice_index months.now i < 100) × (slice_index days.now i < 100) }
    ensures { AreNameTexts 8 compact_text years.now months.now days.now texts.new }
{
    for i in 0..years.len() {
        let iso = text_of_name_entry(years[i], months[i], days[i]);
        put_digits_of_iso(iso, &mut texts[i]);
    }
}

// The text of each date of a block, by the names of all of them.
fn write_compact_block(dates: &[i32], texts: &mut [[u8; 8]])
    requires few { length dates.now ≤ 256 }
    requires texts { length texts.old ≡ length dates.now }
    ensures { (i : ℕ) → i < length dates.now
        → slice_index_or texts.new i [] ≡ entry_by 8 compact_text (slice_index_or dates.now i (pos 0)) }
{
    let count = dates.len();
    let mut years = [0; BLOCK];
    let mut months = [0; BLOCK];
    let mut days = [0; BLOCK];
    split_dates(
        dates,
        &mut years[..count],
        &mut months[..count],
        &mut days[..count],
    );
    write_compact_names(&years[..count], &months[..count], &days[..count], texts);
}

/// Writes the text of each of `dates` in eight digits, such as `20240229`: the pattern `%Y%m%d`.
///
/// It writes eight zero bytes where the date is missing or its year is not from 0 to 9999.
/// Requires that `texts` is as long as `dates`.
///
/// ```
/// let mut texts = [[0; 8]; 2];
/// write_compact_dates(&[738_945, chrono_columns::NONE], &mut texts);
/// texts[0] == *b"20240229" // true
/// texts[1] // [0, 0, 0, 0, 0, 0, 0, 0]
/// ```
pub fn write_compact_dates(dates: &[i32], texts: &mut [[u8; 8]])
    requires { length texts.old ≡ length dates.now }
    ensures { texts.new ≡ map (entry_by 8 compact_text) dates.now }
{
    let mut begun = 0;
    while begun < dates.len() {
        let end = begun + BLOCK.min(dates.len() - begun);
        write_compact_block(&dates[begun..end], &mut texts[begun..end]);
        begun = end;
    }
}

/// Writes the date that each of `texts` is the text of in eight digits, such as `20240229`: the pattern `%Y%m%d`.
///
/// It writes [`NONE`](chrono_columns::NONE) where a text is no date. Requires that `out` is as long as `texts`.
///
/// ```
/// let mut out = [0; 2];
/// read_compact_dates(&[*b"20240229", *b"20230229"], &mut out);
/// out // [738945, -2147483648]
/// ```
pub fn read_compact_dates(texts: &[[u8; 8]], out: &mut [i32])
    requires { length out.old ≡ length texts.now }
    ensures { AreReadBy compact_text texts.now out.new }
{
    for i in 0..texts.len() {
        out[i] = date_of_text_entry(iso_of_digits(&texts[i]));
    }
}
