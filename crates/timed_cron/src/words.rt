//! The words of a text: where each begins and ends.
ghost use Rattle.std.specs.Prelude.{◌≡◌, ◌≤◌, ◌<◌, ◌+◌, length, drop, IfSome, IfNone, IfOk, IfErr, ℕ, List, ◌≢◌, ◌∷◌, [], slice_index, true, false};
ghost use Rattle.chrono_text.specs.Lists.{is_blank};
ghost use Rattle.chrono_cron.specs.PlacedWords.{placed_words};
ghost use Rattle.timed_cron.specs.Private.{AreBlank, AreOfWord, HasFourWords, IsWordAt, IsWordOf, bytes_of};
ghost use Rattle.timed_cron.specs.TimedErrors.{four_fault};

use chrono_cron::ScheduleFault;

// Where a word of a text begins and ends.
#[derive(Clone, Copy)]
pub(crate) struct Ends {
    pub(crate) place: usize,
    pub(crate) end: usize,
}

// The first word of a text that begins at a place or after it.
pub(crate) fn next_word(text: &[u8], from: usize) -> Option<Ends>
    requires { from ≤ length text.now }
    ensures some { IfSome result (λ w. IsWordAt text.now from w.place w.end) }
    ensures none { IfNone result (AreBlank text.now from (length text.now)) }
{
    let place = blanks_end(text, from);
    let end = word_end(text, place);
    if place == end {
        return None;
    }
    Some(Ends { place, end })
}

// The bytes of a word.
pub(crate) fn word(text: &[u8], ends: Ends) -> &[u8]
    requires { IsWordOf text.now ends }
    ensures bytes { result.now ≡ bytes_of text.now ends.place ends.end }
    ensures length { ends.place + length result.now ≤ length text.now }
{
    &text[ends.place..ends.end]
}

// Where the blanks end that stand at a place of a text.
fn blanks_end(text: &[u8], from: usize) -> usize
    requires { from ≤ length text.now }
    ensures order { from ≤ result }
    ensures within { result ≤ length text.now }
    ensures blanks { AreBlank text.now from result }
    ensures end { result < length text.now → is_blank (slice_index text.now result) ≡ false }
{
    let mut place = from;
    while place < text.len() {
        if !is_blank(text[place]) {
            return place;
        }
        place += 1;
    }
    place
}

// Where the bytes end that stand at a place of a text and are no blanks.
fn word_end(text: &[u8], from: usize) -> usize
    requires { from ≤ length text.now }
    ensures order { from ≤ result }
    ensures within { result ≤ length text.now }
    ensures word { AreOfWord text.now from result }
    ensures behind { result < length text.now → is_blank (slice_index text.now result) ≡ true }
{
    let mut place = from;
    while place < text.len() {
        if is_blank(text[place]) {
            return place;
        }
        place += 1;
    }
    place
}

// Whether a byte is a space or a tab.
fn is_blank(byte: u8) -> bool
    ensures { result ≡ is_blank byte }
{
    byte == b' ' || byte == b'\t'
}

// Where the third of four words ends, if so many stand behind a place. Otherwise what is wrong with their number, and where.
pub(crate) fn four_words(text: &[u8], from: usize) -> Result<usize, (usize, ScheduleFault)>
    requires { from ≤ length text.now }
    ensures four { IfOk result (λ third. HasFourWords text.now from third) }
    ensures fault { IfErr result (λ fault. fault ≡ four_fault (length text.now) (placed_words from (drop from text.now))) }
    ensures others { IfErr result (λ _. (c d e f : ℕ × List ℕ) → placed_words from (drop from text.now) ≢ c ∷ d ∷ e ∷ f ∷ []) }
    ensures within { IfErr result (λ fault. fault.0 ≤ length text.now) }
{
    let too_few = (text.len(), ScheduleFault::TooFewFields);
    let Some(first) = next_word(text, from) else {
        return Err(too_few);
    };
    let Some(second) = next_word(text, first.end) else {
        return Err(too_few);
    };
    let Some(third) = next_word(text, second.end) else {
        return Err(too_few);
    };
    let Some(fourth) = next_word(text, third.end) else {
        return Err(too_few);
    };
    if let Some(fifth) = next_word(text, fourth.end) {
        return Err((fifth.place, ScheduleFault::TooManyFields));
    }
    Ok(third.end)
}
