//! The words of the texts of RFC 2822, with white space and comments between them.
ghost use Rattle.std.specs.Prelude.{◌≡◌, ◌↔◌, ◌<◌, IsTrue, ◌^◌, ◌-◌, [], ℕ, List, length, take, drop, false};
ghost use Rattle.std.specs.List.{prefix_len};
ghost use Rattle.chrono_text.specs.Lists.{is_of_word};
ghost use Rattle.chrono_stamps.specs.MailWords.{AreMailWords, IsColonWord, IsCommaWord, IsMailGap, IsSpacedWord, behind_gap, gap_end, gap_step, is_white};

use chrono_text::word_len;

// The words of a text, and what stands behind the last one. A word that is not there is empty.
#[derive(Drop)]
pub(crate) struct MailWords<'a> {
    pub(crate) weekday: &'a [u8],
    pub(crate) day: &'a [u8],
    pub(crate) month: &'a [u8],
    pub(crate) year: &'a [u8],
    pub(crate) hour: &'a [u8],
    pub(crate) minute: &'a [u8],
    pub(crate) second: &'a [u8],
    pub(crate) zone: &'a [u8],
    pub(crate) end: &'a [u8],
}

// The words of a text, one after another.
pub(crate) fn mail_words(text: &[u8]) -> MailWords<'_>
    // Where no word but the weekday and the second is left out, the text has these words.
    ensures read { 0 < length result.day.now → 0 < length result.month.now → 0 < length result.year.now
        → 0 < length result.hour.now → 0 < length result.minute.now → 0 < length result.zone.now
        → AreMailWords text.now result.weekday.now result.day.now result.month.now result.year.now
        result.hour.now result.minute.now result.second.now result.zone.now result.end.now }
    ensures every { (weekday day month year hour minute second zone end : List ℕ)
        → AreMailWords text.now weekday day month year hour minute second zone end
        → (result.weekday.now ≡ weekday) × (result.day.now ≡ day) × (result.month.now ≡ month)
        × (result.year.now ≡ year) × (result.hour.now ≡ hour) × (result.minute.now ≡ minute)
        × (result.second.now ≡ second) × (result.zone.now ≡ zone) × (result.end.now ≡ end) }
{
    let (weekday, after_weekday) = comma_word(text);
    let (day, after_day) = split_word(skip_gap(after_weekday));
    let (month, after_month) = spaced_word(after_day);
    let (year, after_year) = spaced_word(after_month);
    let (hour, after_hour) = spaced_word(after_year);
    let (minute, after_minute) = colon_word(after_hour);
    let (second, after_second) = colon_word(after_minute);
    let (zone, end) = spaced_word(after_second);
    MailWords {
        weekday,
        day,
        month,
        year,
        hour,
        minute,
        second,
        zone,
        end,
    }
}

// The word in front of a comma, and what stands behind the comma. Where there is none, nothing and the text.
fn comma_word(text: &[u8]) -> (&[u8], &[u8])
    ensures read { 0 < length result.0.now → IsCommaWord text.now result.0.now result.1.now }
    ensures every { (word rest : List ℕ) → IsCommaWord text.now word rest
        → (result.0.now ≡ word) × (result.1.now ≡ rest) }
    ensures nothing { result.0.now ≡ [] → result.1.now ≡ text.now }
{
    let (word, after) = split_word(skip_gap(text));
    match skip_gap(after) {
        [b',', rest @ ..] if !word.is_empty() => (word, rest),
        _ => (&[], text),
    }
}

// The word behind a colon, and what stands behind it. Where there is none, nothing and the text.
fn colon_word(text: &[u8]) -> (&[u8], &[u8])
    ensures read { 0 < length result.0.now → IsColonWord text.now result.0.now result.1.now }
    ensures every { (word rest : List ℕ) → IsColonWord text.now word rest
        → (result.0.now ≡ word) × (result.1.now ≡ rest) }
    ensures nothing { result.0.now ≡ [] → result.1.now ≡ text.now }
{
    let [b':', after @ ..] = skip_gap(text) else {
        return (&[], text);
    };
    let (word, rest) = split_word(skip_gap(after));
    if word.is_empty() {
        return (word, text);
    }
    (word, rest)
}

// The word behind white space and comments, and what stands behind it. Where there is none, nothing and what stands there.
fn spaced_word(text: &[u8]) -> (&[u8], &[u8])
    ensures read { 0 < length result.0.now → IsSpacedWord text.now result.0.now result.1.now }
    ensures every { (word rest : List ℕ) → IsSpacedWord text.now word rest
        → (result.0.now ≡ word) × (result.1.now ≡ rest) }
{
    let front = skip_gap(text);
    if front.len() >= text.len() {
        return (&[], text);
    }
    split_word(front)
}

// The longest word in front, and what stands behind it.
pub(crate) fn split_word(text: &[u8]) -> (&[u8], &[u8])
    ensures word { result.0.now ≡ take (prefix_len is_of_word text.now) text.now }
    ensures rest { result.1.now ≡ drop (prefix_len is_of_word text.now) text.now }
{
    text.split_at(word_len(text))
}

// What stands behind white space and comments. It is nothing if a comment has no end.
pub(crate) fn skip_gap(text: &[u8]) -> &[u8]
    ensures { result.now ≡ behind_gap text.now }
{
    gap_end(text).1
}

// Whether a text is white space and comments alone.
pub(crate) fn is_gap(text: &[u8]) -> bool
    ensures { IsTrue result ↔ IsMailGap text.now }
{
    let (depth, rest) = gap_end(text);
    depth == 0 && rest.is_empty()
}

// How many comments are open behind white space and comments, and what stands there.
pub(crate) fn gap_end(text: &[u8]) -> (usize, &[u8])
    ensures depth { result.0 ≡ (gap_end 0 false text.now).0 }
    ensures rest { result.1.now ≡ (gap_end 0 false text.now).1 }
{
    let mut state = (0, false);
    let mut rest = text;
    while let Some((byte, behind)) = rest.split_first() {
        let Some(next) = gap_step(state.0, state.1, *byte) else {
            return (state.0, rest);
        };
        state = next;
        rest = behind;
    }
    (state.0, rest)
}

// How many comments are open behind a byte, and whether a `\` stands there.
#[inline]
fn gap_step(depth: usize, quoted: bool, byte: u8) -> Option<(usize, bool)>
    requires { depth < 2 ^ 64 - 1 }
    ensures { result ≡ gap_step depth quoted byte }
{
    if quoted {
        Some((depth, false))
    } else if byte == b'(' {
        Some((depth + 1, false))
    } else if depth == 0 {
        if is_white(byte) {
            Some((0, false))
        } else {
            None
        }
    } else if byte == b')' {
        Some((depth - 1, false))
    } else {
        Some((depth, byte == b'\\'))
    }
}

// Whether a byte is white space.
#[inline]
fn is_white(byte: u8) -> bool
    ensures { result ≡ is_white byte }
{
    (byte == b' ' || byte == b'\t') || (byte == b'\n' || byte == b'\r')
}
