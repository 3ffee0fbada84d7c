//! Nicknames of schedules, such as `@daily`, and the five fields that they stand for.
ghost use Rattle.std.specs.Prelude.{◌≡◌};
ghost use Rattle.chrono_cron.specs.ScheduleTexts.{nickname_meaning};

use chrono_text::same_but_for_case;

/// Returns the five fields that a nickname such as `@daily` stands for. Returns `word` itself if it is no nickname.
///
/// The nicknames are those of [`read_schedule`](crate::read_schedule), in letters of either case. No blank stands before or behind them.
///
/// ```
/// nickname_meaning(b"@Daily") == b"0 0 * * *".as_slice() // true
/// nickname_meaning(b"@day") == b"@day".as_slice() // true
/// ```
#[tactic(auto, unfolding(crate::specs::ScheduleTexts::nickname_meaning))]
pub fn nickname_meaning(word: &[u8]) -> &[u8]
    ensures { result.now ≡ nickname_meaning word.now }
{
    if same_but_for_case(word, b"@yearly") || same_but_for_case(word, b"@annually") {
        b"0 0 1 1 *"
    } else if same_but_for_case(word, b"@monthly") {
        b"0 0 1 * *"
    } else if same_but_for_case(word, b"@weekly") {
        b"0 0 * * 0"
    } else if same_but_for_case(word, b"@daily") || same_but_for_case(word, b"@midnight") {
        b"0 0 * * *"
    } else if same_but_for_case(word, b"@hourly") {
        b"0 * * * *"
    } else {
        word
    }
}
