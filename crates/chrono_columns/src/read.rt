//! The dates of single texts of ten bytes.
ghost use Rattle.std.specs.Prelude.{◌≡◌, ◌<◌, ◌∷◌, [], ℕ, true};
ghost use Rattle.chrono_text.specs.Text.{two_digits};
ghost use Rattle.chrono_columns.specs.Columns.{IsTextEntry};

use crate::named::date_of_name;
use crate::none::NONE;
use chrono_text::digit;

// The number that two bytes write, and whether both are digits.
#[inline]
fn number_of_two(tens: u8, ones: u8) -> (u8, bool)
    ensures read { result.1 ≡ true → (result.0 < 100) × (two_digits result.0 ≡ tens ∷ ones ∷ []) }
    ensures every { (n : ℕ) → n < 100 → two_digits n ≡ tens ∷ ones ∷ []
        → (result.0 ≡ n) × (result.1 ≡ true) }
{
    let tens = digit(tens);
    let ones = digit(ones);
    (
        tens.wrapping_mul(10).wrapping_add(ones),
        (tens < 10) & (ones < 10),
    )
}

/// Returns the date that the text writes, such as `2024-02-29` (ISO 8601 calendar date). For no date's text it returns [`NONE`].
///
/// It computes one element of [`read_dates`](crate::read_dates), for loops that make the text.
///
/// ```
/// date_of_text_entry(*b"2024-02-29") // 738945
/// date_of_text_entry(*b"2023-02-29") == NONE // true
/// ```
#[inline]
pub fn date_of_text_entry(text: [u8; 10]) -> i32
    ensures { IsTextEntry text result }
{
    let (centuries, has_centuries) = number_of_two(text[0], text[1]);
    let (years, has_years) = number_of_two(text[2], text[3]);
    let (month, has_month) = number_of_two(text[5], text[6]);
    let (day, has_day) = number_of_two(text[8], text[9]);
    let date = date_of_name(100 * i32::from(centuries) + i32::from(years), month, day);
    let has_digits = has_centuries & has_years & has_month & has_day;
    if has_digits & (text[4] == b'-') & (text[7] == b'-') {
        date
    } else {
        NONE
    }
}
