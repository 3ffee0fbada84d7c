//! Hours, minutes and seconds.
ghost use Rattle.std.specs.Prelude.{◌≡◌, ◌<◌, IfSome, unsigned_abs};
ghost use Rattle.zone_text.specs.HourTexts.{seconds_of_hours, seconds_of_minutes, signed_seconds};

use crate::number::count_up_to;
use chrono_text::split_at_byte;

// The last hour that a text may have.
const LAST_HOUR: u32 = 167;

const SECS_PER_HOUR: u32 = 3_600;

const SECS_PER_MINUTE: u32 = 60;

// The seconds of `hh[:mm[:ss]]` with a sign in front, or none.
#[tactic(auto, unfolding(crate::specs::HourTexts::signed_seconds))]
pub(crate) fn signed_seconds(text: &[u8]) -> Option<i32>
    ensures value { result ≡ signed_seconds text.now }
    ensures small { IfSome result (λ n. unsigned_abs n < 604_800) }
{
    let (first, rest) = text.split_first()?;
    if *first == b'-' {
        let size = seconds_of_hours(rest)?;
        return Some(-(size as i32));
    }
    if *first == b'+' {
        let size = seconds_of_hours(rest)?;
        return Some(size as i32);
    }
    let size = seconds_of_hours(text)?;
    Some(size as i32)
}

// The seconds of `hh[:mm[:ss]]`.
#[tactic(auto, unfolding(crate::specs::HourTexts::seconds_of_hours))]
fn seconds_of_hours(text: &[u8]) -> Option<u32>
    ensures value { result ≡ seconds_of_hours text.now }
    ensures small { IfSome result (λ n. n < 604_800) }
{
    let Some((hours, minutes)) = split_at_byte(text, b':') else {
        let hours = count_up_to(text, LAST_HOUR)?;
        return Some(hours * SECS_PER_HOUR);
    };
    let hours = count_up_to(hours, LAST_HOUR)?;
    let seconds = seconds_of_minutes(minutes)?;
    Some(hours * SECS_PER_HOUR + seconds)
}

// The seconds of `mm[:ss]`.
#[tactic(auto, unfolding(crate::specs::HourTexts::seconds_of_minutes))]
fn seconds_of_minutes(text: &[u8]) -> Option<u32>
    ensures value { result ≡ seconds_of_minutes text.now }
    ensures small { IfSome result (λ n. n < 3_600) }
{
    let Some((minutes, seconds)) = split_at_byte(text, b':') else {
        let minutes = count_up_to(text, 59)?;
        return Some(minutes * SECS_PER_MINUTE);
    };
    let minutes = count_up_to(minutes, 59)?;
    let seconds = count_up_to(seconds, 59)?;
    Some(minutes * SECS_PER_MINUTE + seconds)
}
