//! Between a column of dates and one of their texts in a layout, of ten bytes each.
ghost use Rattle.std.specs.Prelude.{◌≡◌, ℕ, ◌<◌, ◌≤◌, [], length, map, pos, slice_index, slice_index_or};
ghost use Rattle.pattern_columns.specs.Layouts.{AreLaidOut, AreReadBy, entry_by, layout_text};

use crate::arranged::{from_iso, to_iso};
use crate::layout::{DateLayout, DateOrder};
use chrono_columns::{date_of_text_entry, split_dates, text_of_name_entry};

// How many dates are named before their texts are written.
pub(crate) const BLOCK: usize = 256;

// The text in a layout for each year, month and day.
#[inline]
fn write_each(layout: DateLayout, years: &[i32], months: &[u8], days: &[u8], texts: &mut [[u8; 10]])
    requires months { length months.now ≡ length years.now }
    requires days { length days.now ≡ length years.now }
    requires texts { length texts.old ≡ length years.now }
    requires two_digits { (i : ℕ) → i < length years.now → (slice_index months.now i < 100) × (slice_index days.now i < 100) }
    ensures { AreLaidOut layout years.now months.now days.now texts.new }
{
    for i in 0..years.len() {
        texts[i] = from_iso(layout, text_of_name_entry(years[i], months[i], days[i]));
    }
}

// The same by a loop for each order, which does not ask for the order.
fn write_names(
    layout: DateLayout,
    years: &[i32],
    months: &[u8],
    days: &[u8],
    texts: &mut [[u8; 10]],
)
    requires months { length months.now ≡ length years.now }
    requires days { length days.now ≡ length years.now }
    requires texts { length texts.old ≡ length years.now }
    requires two_digits { (i : ℕ) → i < length years.now → (slice_index months.now i < 100) × (slice_index days.now i < 100) }
    ensures { AreLaidOut layout years.now months.now days.now texts.new }
{
    let separator = layout.separator;
    match layout.order {
        DateOrder::YearMonthDay => {
            let order = DateOrder::YearMonthDay;
            write_each(DateLayout { order, separator }, years, months, days, texts);
        }
        DateOrder::DayMonthYear => {
            let order = DateOrder::DayMonthYear;
            write_each(DateLayout { order, separator }, years, months, days, texts);
        }
        DateOrder::MonthDayYear => {
            let order = DateOrder::MonthDayYear;
            write_each(DateLayout { order, separator }, years, months, days, texts);
        }
    }
}

// The text of each date of a block, by the names of all of them.
fn write_block(layout: DateLayout, dates: &[i32], texts: &mut [[u8; 10]])
    requires few { length dates.now ≤ 256 }
    requires texts { length texts.old ≡ length dates.now }
    ensures { (i : ℕ) → i < length dates.now
        → slice_index_or texts.new i [] ≡ entry_by 10 (layout_text layout) (slice_index_or dates.now i (pos 0)) }
{
    let count = dates.len();
    let mut years = [0; BLOCK];
    let mut months = [0; BLOCK];
    let mut days = [0; BLOCK];
    split_dates(
        dates,
        &mut years[..count],
        &mut months[..count],
        &mut days[..count],
    );
    write_names(
        layout,
        &years[..count],
        &months[..count],
        &days[..count],
        texts,
    );
}

/// Writes the text of each of `dates` in a layout, such as `29/02/2024`.
///
/// It writes ten zero bytes where the date is missing or its year is not from 0 to 9999.
/// Requires that `texts` is as long as `dates`.
///
/// ```
/// let layout = DateLayout { order: DateOrder::DayMonthYear, separator: b'/' };
/// let mut texts = [[0; 10]; 2];
/// write_layout_dates(layout, &[738_945, chrono_columns::NONE], &mut texts);
/// texts[0] == *b"29/02/2024" // true
/// texts[1] // [0, 0, 0, 0, 0, 0, 0, 0, 0, 0]
/// ```
pub fn write_layout_dates(layout: DateLayout, dates: &[i32], texts: &mut [[u8; 10]])
    requires { length texts.old ≡ length dates.now }
    ensures { texts.new ≡ map (entry_by 10 (layout_text layout)) dates.now }
{
    let mut begun = 0;
    while begun < dates.len() {
        let end = begun + BLOCK.min(dates.len() - begun);
        write_block(layout, &dates[begun..end], &mut texts[begun..end]);
        begun = end;
    }
}

// The date of each text.
#[inline]
fn read_each(layout: DateLayout, texts: &[[u8; 10]], out: &mut [i32])
    requires { length out.old ≡ length texts.now }
    ensures { AreReadBy (layout_text layout) texts.now out.new }
{
    for i in 0..texts.len() {
        out[i] = date_of_text_entry(to_iso(layout, texts[i]));
    }
}

/// Writes the date that each of `texts` is the text of in a layout.
///
/// It writes [`NONE`](chrono_columns::NONE) where a text is no date. Requires that `out` is as long as `texts`.
///
/// ```
/// let layout = DateLayout { order: DateOrder::MonthDayYear, separator: b'/' };
/// let mut out = [0; 2];
/// read_layout_dates(layout, &[*b"02/29/2024", *b"02/29/2023"], &mut out);
/// out // [738945, -2147483648]
/// ```
pub fn read_layout_dates(layout: DateLayout, texts: &[[u8; 10]], out: &mut [i32])
    requires { length out.old ≡ length texts.now }
    ensures { AreReadBy (layout_text layout) texts.now out.new }
{
    // A loop for each order does not ask for the order.
    let separator = layout.separator;
    match layout.order {
        DateOrder::YearMonthDay => {
            let order = DateOrder::YearMonthDay;
            read_each(DateLayout { order, separator }, texts, out);
        }
        DateOrder::DayMonthYear => {
            let order = DateOrder::DayMonthYear;
            read_each(DateLayout { order, separator }, texts, out);
        }
        DateOrder::MonthDayYear => {
            let order = DateOrder::MonthDayYear;
            read_each(DateLayout { order, separator }, texts, out);
        }
    }
}
