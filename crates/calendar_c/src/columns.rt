//! Columns of dates: each function computes one calendar operation for every element of the caller's columns.
//!
//! A column is a pointer and a length. If the columns have different lengths, nothing is written and the result is `false`. In
//! a column the least `i32` stands for no date, year or distance, and the least `i64` for no days since 1970. 0 stands for no
//! month, day, ordinal, week or weekday. A text has ten bytes: ten zero bytes stand for no text.
ghost use Rattle.std.specs.Prelude.{◌≡◌, ◌==◌, ◌&&◌, ℕ, ◌<◌, [], true, false, count_by, length, map, pos, slice_index, slice_index_or};
ghost use Rattle.chrono_units.specs.SetDigits.{set_at};
ghost use Rattle.chrono_calendar.specs.Days.{is_date};
ghost use Rattle.chrono_columns.specs.Columns.{IsTextEntry, date_entry, day_entry, distance_entry, first_on_entry, iso_week_entry, iso_year_entry, later_entry, month_entry, months_later_entry, ordinal_entry, text_entry, unix_date_entry, unix_days_entry, weekday_entry, year_entry};

use numbers_c::set_of;

/// Writes the weekday of each date, from 1 for Monday to 7 for Sunday.
#[unsafe(no_mangle)]
pub extern "C" fn calendar_column_weekdays(dates: &[i32], weekdays: &mut [u8]) -> bool
    ensures answer { result ≡ (length weekdays.old == length dates.now) }
    ensures filled { result ≡ true → weekdays.new ≡ map weekday_entry dates.now }
    ensures kept { result ≡ false → weekdays.new ≡ weekdays.old }
{
    if weekdays.len() != dates.len() {
        return false;
    }
    chrono_columns::weekdays(dates, weekdays);
    true
}

/// Writes the year of each date.
#[unsafe(no_mangle)]
pub extern "C" fn calendar_column_years(dates: &[i32], years: &mut [i32]) -> bool
    ensures answer { result ≡ (length years.old == length dates.now) }
    ensures filled { result ≡ true → years.new ≡ map year_entry dates.now }
    ensures kept { result ≡ false → years.new ≡ years.old }
{
    if years.len() != dates.len() {
        return false;
    }
    chrono_columns::years(dates, years);
    true
}

/// Writes the day of the year of each date, from 1 to 366 (ISO 8601 ordinal date).
#[unsafe(no_mangle)]
pub extern "C" fn calendar_column_ordinals(dates: &[i32], ordinals: &mut [u16]) -> bool
    ensures answer { result ≡ (length ordinals.old == length dates.now) }
    ensures filled { result ≡ true → ordinals.new ≡ map ordinal_entry dates.now }
    ensures kept { result ≡ false → ordinals.new ≡ ordinals.old }
{
    if ordinals.len() != dates.len() {
        return false;
    }
    chrono_columns::ordinals(dates, ordinals);
    true
}

/// Writes the year, the month and the day of each date (ISO 8601 calendar date).
#[unsafe(no_mangle)]
pub extern "C" fn calendar_column_split(
    dates: &[i32],
    years: &mut [i32],
    months: &mut [u8],
    days: &mut [u8],
) -> bool
    ensures answer { result ≡ ((length years.old == length dates.now) && (length months.old == length dates.now) && (length days.old == length dates.now)) }
    ensures years { result ≡ true → years.new ≡ map year_entry dates.now }
    ensures months { result ≡ true → months.new ≡ map month_entry dates.now }
    ensures days { result ≡ true → days.new ≡ map day_entry dates.now }
    ensures years_kept { result ≡ false → years.new ≡ years.old }
    ensures months_kept { result ≡ false → months.new ≡ months.old }
    ensures days_kept { result ≡ false → days.new ≡ days.old }
{
    if years.len() != dates.len() {
        return false;
    }
    if months.len() != dates.len() {
        return false;
    }
    if days.len() != dates.len() {
        return false;
    }
    chrono_columns::split_dates(dates, years, months, days);
    true
}

/// Writes the ISO year and week of each date (ISO 8601 week date).
#[unsafe(no_mangle)]
pub extern "C" fn calendar_column_iso_weeks(
    dates: &[i32],
    years: &mut [i32],
    weeks: &mut [u8],
) -> bool
    ensures answer { result ≡ ((length years.old == length dates.now) && (length weeks.old == length dates.now)) }
    ensures years { result ≡ true → years.new ≡ map iso_year_entry dates.now }
    ensures weeks { result ≡ true → weeks.new ≡ map iso_week_entry dates.now }
    ensures years_kept { result ≡ false → years.new ≡ years.old }
    ensures weeks_kept { result ≡ false → weeks.new ≡ weeks.old }
{
    if years.len() != dates.len() {
        return false;
    }
    if weeks.len() != dates.len() {
        return false;
    }
    chrono_columns::iso_weeks(dates, years, weeks);
    true
}

/// Writes the date of each year, month and day (ISO 8601 calendar date).
#[unsafe(no_mangle)]
pub extern "C" fn calendar_column_join(
    years: &[i32],
    months: &[u8],
    days: &[u8],
    dates: &mut [i32],
) -> bool
    ensures answer { result ≡ ((length months.now == length years.now) && (length days.now == length years.now) && (length dates.old == length years.now)) }
    ensures filled { result ≡ true → (i : ℕ) → i < length years.now → slice_index_or dates.new i (pos 0)
        ≡ date_entry (slice_index_or years.now i (pos 0)) (slice_index months.now i) (slice_index days.now i) }
    ensures kept { result ≡ false → dates.new ≡ dates.old }
{
    if months.len() != years.len() {
        return false;
    }
    if days.len() != years.len() {
        return false;
    }
    if dates.len() != years.len() {
        return false;
    }
    chrono_columns::join_dates(years, months, days, dates);
    true
}

/// Writes the date `days` days after each, or before it if `days` is negative. It writes none where a
/// date is missing or would be out of range.
#[unsafe(no_mangle)]
pub extern "C" fn calendar_column_add_days(dates: &[i32], days: i32, moved: &mut [i32]) -> bool
    ensures answer { result ≡ (length moved.old == length dates.now) }
    ensures filled { result ≡ true → moved.new ≡ map (later_entry days) dates.now }
    ensures kept { result ≡ false → moved.new ≡ moved.old }
{
    if moved.len() != dates.len() {
        return false;
    }
    chrono_columns::add_days(dates, days, moved);
    true
}

/// Moves each date by `days` days, in place.
#[unsafe(no_mangle)]
pub extern "C" fn calendar_column_add_days_in_place(dates: &mut [i32], days: i32)
    ensures { dates.new ≡ map (later_entry days) dates.old }
{
    chrono_columns::add_days_in_place(dates, days);
}

/// Writes each date moved by the number of days at the same place in `days`.
#[unsafe(no_mangle)]
pub extern "C" fn calendar_column_add_days_each(
    dates: &[i32],
    days: &[i32],
    moved: &mut [i32],
) -> bool
    ensures answer { result ≡ ((length days.now == length dates.now) && (length moved.old == length dates.now)) }
    ensures filled { result ≡ true → (i : ℕ) → i < length dates.now → slice_index_or moved.new i (pos 0)
        ≡ later_entry (slice_index_or days.now i (pos 0)) (slice_index_or dates.now i (pos 0)) }
    ensures kept { result ≡ false → moved.new ≡ moved.old }
{
    if days.len() != dates.len() {
        return false;
    }
    if moved.len() != dates.len() {
        return false;
    }
    chrono_columns::add_days_each(dates, days, moved);
    true
}

/// Moves each date by the number of days at the same place in `days`, in place.
#[unsafe(no_mangle)]
pub extern "C" fn calendar_column_add_days_each_in_place(dates: &mut [i32], days: &[i32]) -> bool
    ensures answer { result ≡ (length days.now == length dates.old) }
    ensures filled { result ≡ true → (i : ℕ) → i < length dates.old → slice_index_or dates.new i (pos 0)
        ≡ later_entry (slice_index_or days.now i (pos 0)) (slice_index_or dates.old i (pos 0)) }
    ensures kept { result ≡ false → dates.new ≡ dates.old }
{
    if days.len() != dates.len() {
        return false;
    }
    chrono_columns::add_days_each_in_place(dates, days);
    true
}

/// Writes the date `months` months after each, or before it if `months` is negative. If that month is too short, writes
/// its last day.
#[unsafe(no_mangle)]
pub extern "C" fn calendar_column_add_months(dates: &[i32], months: i32, moved: &mut [i32]) -> bool
    ensures answer { result ≡ (length moved.old == length dates.now) }
    ensures filled { result ≡ true → moved.new ≡ map (months_later_entry months) dates.now }
    ensures kept { result ≡ false → moved.new ≡ moved.old }
{
    if moved.len() != dates.len() {
        return false;
    }
    chrono_columns::add_months(dates, months, moved);
    true
}

/// Moves each date by `months` months, in place. If that month is too short, the date becomes its last day.
#[unsafe(no_mangle)]
pub extern "C" fn calendar_column_add_months_in_place(dates: &mut [i32], months: i32)
    ensures { dates.new ≡ map (months_later_entry months) dates.old }
{
    chrono_columns::add_months_in_place(dates, months);
}

/// Writes the days from each date of `bases` to the date at the same place in `dates`.
#[unsafe(no_mangle)]
pub extern "C" fn calendar_column_days_between(
    dates: &[i32],
    bases: &[i32],
    days: &mut [i32],
) -> bool
    ensures answer { result ≡ ((length bases.now == length dates.now) && (length days.old == length dates.now)) }
    ensures filled { result ≡ true → (i : ℕ) → i < length dates.now → slice_index_or days.new i (pos 0)
        ≡ distance_entry (slice_index_or dates.now i (pos 0)) (slice_index_or bases.now i (pos 0)) }
    ensures kept { result ≡ false → days.new ≡ days.old }
{
    if bases.len() != dates.len() {
        return false;
    }
    if days.len() != dates.len() {
        return false;
    }
    chrono_columns::days_between(dates, bases, days);
    true
}

/// Writes the date of each number of days since 1 January 1970.
#[unsafe(no_mangle)]
pub extern "C" fn calendar_column_from_unix_days(days: &[i64], dates: &mut [i32]) -> bool
    ensures answer { result ≡ (length dates.old == length days.now) }
    ensures filled { result ≡ true → dates.new ≡ map unix_date_entry days.now }
    ensures kept { result ≡ false → dates.new ≡ dates.old }
{
    if dates.len() != days.len() {
        return false;
    }
    chrono_columns::from_unix_days(days, dates);
    true
}

/// Writes the days from 1 January 1970 to each date.
#[unsafe(no_mangle)]
pub extern "C" fn calendar_column_to_unix_days(dates: &[i32], days: &mut [i64]) -> bool
    ensures answer { result ≡ (length days.old == length dates.now) }
    ensures filled { result ≡ true → days.new ≡ map unix_days_entry dates.now }
    ensures kept { result ≡ false → days.new ≡ days.old }
{
    if days.len() != dates.len() {
        return false;
    }
    chrono_columns::to_unix_days(dates, days);
    true
}

/// Writes the first date whose weekday is in the set, from each date on, which counts too.
#[unsafe(no_mangle)]
pub extern "C" fn calendar_column_first_on(dates: &[i32], weekdays: u8, found: &mut [i32]) -> bool
    ensures answer { result ≡ (length found.old == length dates.now) }
    ensures filled { result ≡ true → found.new ≡ map (first_on_entry (set_at weekdays)) dates.now }
    ensures kept { result ≡ false → found.new ≡ found.old }
{
    if found.len() != dates.len() {
        return false;
    }
    chrono_columns::first_on(dates, set_of(weekdays), found);
    true
}

/// Returns how many elements of the column are dates.
#[unsafe(no_mangle)]
pub extern "C" fn calendar_column_count_dates(dates: &[i32]) -> usize
    ensures { result ≡ count_by is_date dates.now }
{
    chrono_columns::count_dates(dates)
}

/// Writes the text of each date in ten bytes (ISO 8601 calendar date). If its year is outside 0 to 9999, writes ten zero
/// bytes.
#[unsafe(no_mangle)]
pub extern "C" fn calendar_column_write_dates(dates: &[i32], texts: &mut [[u8; 10]]) -> bool
    ensures answer { result ≡ (length texts.old == length dates.now) }
    ensures filled { result ≡ true → texts.new ≡ map text_entry dates.now }
    ensures kept { result ≡ false → texts.new ≡ texts.old }
{
    if texts.len() != dates.len() {
        return false;
    }
    chrono_columns::write_dates(dates, texts);
    true
}

/// Writes the date whose text each ten bytes are, as [`calendar_column_write_dates`] writes it.
#[unsafe(no_mangle)]
pub extern "C" fn calendar_column_read_dates(texts: &[[u8; 10]], dates: &mut [i32]) -> bool
    ensures answer { result ≡ (length dates.old == length texts.now) }
    ensures filled { result ≡ true → (i : ℕ) → i < length texts.now
        → IsTextEntry (slice_index_or texts.now i []) (slice_index_or dates.new i (pos 0)) }
    ensures kept { result ≡ false → dates.new ≡ dates.old }
{
    if dates.len() != texts.len() {
        return false;
    }
    chrono_columns::read_dates(texts, dates);
    true
}
