//! Offsets read from the texts that print them.
ghost use Rattle.std.specs.Prelude.{◌≡◌, ◌<◌, ◌++◌, ◌∷◌, ℕ, ℤ, Some, IfSome};
ghost use Rattle.std.specs.Str.{byte};
ghost use Rattle.chrono_datetime.specs.Time.{seconds_per_day};
ghost use Rattle.chrono_text.specs.Text.{colon_seconds_text, two_digits};
ghost use Rattle.chrono_instant.specs.Offsets.{IsOffset};
ghost use Rattle.chrono_instant.specs.OffsetText.{offset_size_text, offset_text};

use super::FixedOffset;
use chrono_text::read_two;

/// Reads an offset, such as `+05:30` or `-00:00:01`: each text that is printed for an offset, and no other.
///
/// Returns `None` for any other text. So seconds stand only where they are not 0, and `-00:00` is no offset.
///
/// ```
/// read_offset(b"+05:30") // Some(+05:30)
/// read_offset(b"-00:00:01") // Some(-00:00:01)
/// read_offset(b"-00:00") // None
/// ```
pub fn read_offset(text: &[u8]) -> Option<FixedOffset>
    ensures read { IfSome result (λ x. offset_text x ≡ text.now) }
    // Whatever offset has this text is the answer.
    ensures every { (x : ℤ) → IsOffset x → offset_text x ≡ text.now → result ≡ Some x }
{
    let (sign, size) = text.split_first()?;
    let seconds = read_size(size)?;
    if *sign == b'+' {
        return FixedOffset::east_opt(seconds as i32);
    }
    if *sign != b'-' {
        return None;
    }
    if seconds == 0 {
        return None;
    }
    FixedOffset::west_opt(seconds as i32)
}

// The seconds that hours, minutes and seconds write.
fn read_size(text: &[u8]) -> Option<u32>
    ensures read { IfSome result (λ n. (n < seconds_per_day) × (offset_size_text n ≡ text.now)) }
    ensures every { (n : ℕ) → n < seconds_per_day → offset_size_text n ≡ text.now → result ≡ Some n }
{
    let (front, end) = text.split_first_chunk::<5>()?;
    let (hours, minutes) = read_minutes(*front)?;
    let seconds = read_seconds(end)?;
    if hours >= 24 || minutes >= 60 {
        return None;
    }
    Some(hours * 3_600 + minutes * 60 + seconds)
}

// The hours and the minutes that stand with `:` between.
fn read_minutes(text: [u8; 5]) -> Option<(u32, u32)>
    ensures small { IfSome result (λ read. (read.0 < 100) × (read.1 < 100)) }
    ensures read { IfSome result (λ read. two_digits read.0 ++ byte ":" ∷ two_digits read.1 ≡ text) }
    ensures every { (hours minutes : ℕ) → hours < 100 → minutes < 100
        → two_digits hours ++ byte ":" ∷ two_digits minutes ≡ text → result ≡ Some (hours, minutes) }
{
    if let [hour_tens, hour_ones, b':', minute_tens, minute_ones] = text {
        let hours = read_two(hour_tens, hour_ones)?;
        let minutes = read_two(minute_tens, minute_ones)?;
        Some((hours, minutes))
    } else {
        None
    }
}

// The seconds past the minute: `:` and two digits, or nothing for 0.
fn read_seconds(text: &[u8]) -> Option<u32>
    ensures read { IfSome result (λ n. (n < 60) × (colon_seconds_text n ≡ text.now)) }
    ensures every { (n : ℕ) → n < 60 → colon_seconds_text n ≡ text.now → result ≡ Some n }
{
    match text {
        [] => Some(0),
        [b':', tens, ones] => {
            let seconds = read_two(*tens, *ones)?;
            if seconds == 0 || seconds >= 60 {
                return None;
            }
            Some(seconds)
        }
        _ => None,
    }
}
