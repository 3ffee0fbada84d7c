//! The text of one year, month and day: ten bytes for a year from 0 to 9999 (ISO 8601 calendar date).
ghost use Rattle.std.specs.Prelude.{◌≡◌, ◌<◌, pos, ◌≤ℤ◌};
ghost use Rattle.chrono_text.specs.Text.{calendar_text};
ghost use Rattle.chrono_columns.specs.Columns.{has_four_digits, name_text_entry};

use chrono_text::codes_of_two;

// The year nearest to another, of those from 0 to 9999.
#[inline]
fn nearest_short_year(year: i32) -> u32
    ensures in_range { result < 10_000 }
    ensures same { pos 0 ≤ℤ year → year ≤ℤ pos 9_999 → pos result ≡ year }
{
    year.max(0).min(9_999) as u32
}

// Whether a year has four digits and no sign.
#[inline]
fn is_short_year(year: i32) -> bool
    ensures { result ≡ has_four_digits year }
{
    (year >= 0) & (year <= 9_999)
}

// The text of a year of four digits, a month and a day.
#[inline]
fn text_of_name(year: u32, month: u32, day: u32) -> [u8; 10]
    requires year { year < 10_000 }
    requires month { month < 100 }
    requires day { day < 100 }
    ensures { result ≡ calendar_text (pos year) month day }
{
    let (thousands, hundreds) = codes_of_two(year / 100);
    let (tens, ones) = codes_of_two(year % 100);
    let (month_tens, month_ones) = codes_of_two(month);
    let (day_tens, day_ones) = codes_of_two(day);
    [
        thousands, hundreds, tens, ones, b'-', month_tens, month_ones, b'-', day_tens, day_ones,
    ]
}

/// Returns the text of a year from 0 to 9999, a month and a day. For another year it returns ten zero bytes.
///
/// With [`split_dates`](crate::split_dates) it computes one element of [`write_dates`](crate::write_dates), for loops that use the text.
/// Requires a month and a day below 100.
///
/// ```
/// text_of_name_entry(2024, 2, 29) == *b"2024-02-29" // true
/// text_of_name_entry(10_000, 1, 1) // [0, 0, 0, 0, 0, 0, 0, 0, 0, 0]
/// ```
#[inline]
pub fn text_of_name_entry(year: i32, month: u8, day: u8) -> [u8; 10]
    requires month { month < 100 }
    requires day { day < 100 }
    ensures { result ≡ name_text_entry year month day }
{
    let text = text_of_name(nearest_short_year(year), u32::from(month), u32::from(day));
    if is_short_year(year) { text } else { [0; 10] }
}
