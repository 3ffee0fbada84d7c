//! Numbers with an upper limit.
ghost use Rattle.std.specs.Prelude.{◌≡◌, ◌≤◌, IfSome};
ghost use Rattle.zone_text.specs.HourTexts.{count_up_to};

use chrono_text::read_count;

// The number that one digit or more write, if it is no greater than `most`.
pub(crate) fn count_up_to(text: &[u8], most: u32) -> Option<u32>
    ensures value { result ≡ count_up_to most text.now }
    ensures within { IfSome result (λ n. n ≤ most) }
{
    let number = read_count(text)?;
    if number > most {
        return None;
    }
    Some(number)
}
