//! The words of a schedule's text, cut at its blanks, and the five of them that are its fields.
ghost use Rattle.std.specs.Prelude.{◌≡◌, ◌≢◌, ◌+◌, ◌<◌, ◌≤◌, ◌^◌, ◌∷◌, [], ℕ, List, length, drop, slice_index, false, IfSome, IfNone, IfOk, IfErr};
ghost use Rattle.std.specs.List.{position_or_len};
ghost use Rattle.chrono_text.specs.Lists.{is_blank};
ghost use Rattle.chrono_cron.specs.PlacedWords.{first_word, placed_words};
ghost use Rattle.chrono_cron.specs.ScheduleErrors.{count_fault, front_fault, front_or, one_word_fault, place_of_field};

use crate::text::schedule_error::{ScheduleFault, ScheduleField};
use chrono_text::{begins_but_for_case, same_but_for_case};

// A word of a text, and where in the text it begins.
#[derive(Clone, Copy)]
pub(crate) struct PlacedWord<'a> {
    pub(crate) place: usize,
    pub(crate) text: &'a [u8],
}

impl PlacedWord<'_> {
    // Where the word ends.
    pub(crate) fn end(&self) -> usize
        requires { self.now.place + length self.now.text.now < 2 ^ 64 }
        ensures { result ≡ self.now.place + length self.now.text.now }
    {
        self.place + self.text.len()
    }
}

// The words of the five fields.
#[derive(Clone, Copy)]
pub(crate) struct Fields<'a> {
    pub(crate) minute: PlacedWord<'a>,
    pub(crate) hour: PlacedWord<'a>,
    pub(crate) day: PlacedWord<'a>,
    pub(crate) month: PlacedWord<'a>,
    pub(crate) weekday: PlacedWord<'a>,
}

impl<'a> Fields<'a> {
    // The word of a field.
    pub(crate) fn word(&self, field: ScheduleField) -> PlacedWord<'a>
        ensures word { first_word (drop (place_of_field field) ((self.now.minute.place, self.now.minute.text.now)
            ∷ (self.now.hour.place, self.now.hour.text.now) ∷ (self.now.day.place, self.now.day.text.now)
            ∷ (self.now.month.place, self.now.month.text.now) ∷ (self.now.weekday.place, self.now.weekday.text.now) ∷ []))
            ≡ (result.place, result.text.now) }
        ensures within { (end : ℕ) → self.now.minute.place + length self.now.minute.text.now ≤ end
            → self.now.hour.place + length self.now.hour.text.now ≤ end → self.now.day.place + length self.now.day.text.now ≤ end
            → self.now.month.place + length self.now.month.text.now ≤ end → self.now.weekday.place + length self.now.weekday.text.now ≤ end
            → result.place + length result.text.now ≤ end }
    {
        match field {
            ScheduleField::Minute => self.minute,
            ScheduleField::Hour => self.hour,
            ScheduleField::Day => self.day,
            ScheduleField::Month => self.month,
            ScheduleField::Weekday => self.weekday,
        }
    }
}

// The five words of a text, or what is wrong with them, and where, if there are more or fewer.
pub(crate) fn five_words(text: &[u8]) -> Result<Fields<'_>, (usize, ScheduleFault)>
    ensures five { IfOk result (λ f. placed_words 0 text.now ≡
        (f.minute.place, f.minute.text.now) ∷ (f.hour.place, f.hour.text.now) ∷ (f.day.place, f.day.text.now)
        ∷ (f.month.place, f.month.text.now) ∷ (f.weekday.place, f.weekday.text.now) ∷ []) }
    ensures minute { IfOk result (λ f. f.minute.place + length f.minute.text.now ≤ length text.now) }
    ensures hour { IfOk result (λ f. f.hour.place + length f.hour.text.now ≤ length text.now) }
    ensures day { IfOk result (λ f. f.day.place + length f.day.text.now ≤ length text.now) }
    ensures month { IfOk result (λ f. f.month.place + length f.month.text.now ≤ length text.now) }
    ensures weekday { IfOk result (λ f. f.weekday.place + length f.weekday.text.now ≤ length text.now) }
    ensures fault { IfErr result (λ fault. fault ≡ count_fault (length text.now) (placed_words 0 text.now)) }
    ensures within { IfErr result (λ fault. fault.0 ≤ length text.now) }
    ensures others { IfErr result (λ _. (a b c d e : ℕ × List ℕ) → placed_words 0 text.now ≢ a ∷ b ∷ c ∷ d ∷ e ∷ []) }
{
    let too_few = (text.len(), ScheduleFault::TooFewFields);
    let Some(minute) = next_word(text, 0) else {
        return Err((text.len(), ScheduleFault::Empty));
    };
    let Some(hour) = next_word(text, minute.end()) else {
        return Err(one_word_fault(text.len(), &minute));
    };
    let Some(day) = next_word(text, hour.end()) else {
        return Err(too_few);
    };
    let Some(month) = next_word(text, day.end()) else {
        return Err(too_few);
    };
    let Some(weekday) = next_word(text, month.end()) else {
        return Err(too_few);
    };
    if let Some(sixth) = next_word(text, weekday.end()) {
        return Err((sixth.place, ScheduleFault::TooManyFields));
    }
    Ok(Fields {
        minute,
        hour,
        day,
        month,
        weekday,
    })
}

// What is wrong with a word that is all of a text with this end, and where.
fn one_word_fault(end: usize, word: &PlacedWord) -> (usize, ScheduleFault)
    requires { word.now.place ≤ end }
    ensures fault { result ≡ one_word_fault end (word.now.place, word.now.text.now) }
    ensures within { result.0 ≤ end }
{
    if word.text.first() == Some(&b'@') {
        (word.place, ScheduleFault::UnknownNickname)
    } else {
        (end, ScheduleFault::TooFewFields)
    }
}

// What is wrong with the first word of a text, and where, or else what is wrong with the number of its words.
pub(crate) fn front_or(text: &[u8], count: (usize, ScheduleFault)) -> (usize, ScheduleFault)
    requires { count.0 ≤ length text.now }
    ensures fault { result ≡ front_or (placed_words 0 text.now) count }
    ensures within { result.0 ≤ length text.now }
{
    let Some(word) = next_word(text, 0) else {
        return count;
    };
    match front_fault(word.text) {
        Some(fault) => (word.place, fault),
        None => count,
    }
}

// What a first word is in place of a field: an interval, the start of a machine or a time zone.
#[tactic(auto, unfolding(crate::specs::ScheduleErrors::front_fault))]
fn front_fault(word: &[u8]) -> Option<ScheduleFault>
    ensures { result ≡ front_fault word.now }
{
    if same_but_for_case(word, b"@every") {
        return Some(ScheduleFault::Interval);
    }
    if same_but_for_case(word, b"@reboot") {
        return Some(ScheduleFault::Reboot);
    }
    if begins_but_for_case(word, b"TZ=") || begins_but_for_case(word, b"CRON_TZ=") {
        return Some(ScheduleFault::TimeZone);
    }
    None
}

// The first word of a text that begins at a place or after it. `None` if there is none.
pub(crate) fn next_word(text: &[u8], from: usize) -> Option<PlacedWord<'_>>
    requires { from ≤ length text.now }
    ensures some { IfSome result (λ w. placed_words from (drop from text.now)
        ≡ (w.place, w.text.now) ∷ placed_words (w.place + length w.text.now) (drop (w.place + length w.text.now) text.now)) }
    ensures within { IfSome result (λ w. w.place + length w.text.now ≤ length text.now) }
    ensures none { IfNone result (placed_words from (drop from text.now) ≡ []) }
{
    let place = blanks_end(text, from);
    let behind = text_from(text, place);
    let len = blank_place(behind);
    if len == 0 {
        return None;
    }
    Some(PlacedWord {
        place,
        text: &behind[..len],
    })
}

// What a text has from a place on.
fn text_from(text: &[u8], place: usize) -> &[u8]
    requires { place ≤ length text.now }
    ensures { result.now ≡ drop place text.now }
{
    &text[place..]
}

// Where the blanks end that stand at a place of a text.
fn blanks_end(text: &[u8], from: usize) -> usize
    requires { from ≤ length text.now }
    ensures within { result ≤ length text.now }
    ensures passed { placed_words from (drop from text.now) ≡ placed_words result (drop result text.now) }
    ensures end { result < length text.now → is_blank (slice_index text.now result) ≡ false }
{
    let mut place = from;
    while place < text.len() {
        if !is_blank(text[place]) {
            return place;
        }
        place += 1;
    }
    place
}

// Where the first blank stands, or how long the text is if there is none.
fn blank_place(text: &[u8]) -> usize
    ensures within { result ≤ length text.now }
    ensures place { position_or_len is_blank text.now ≡ result }
{
    let mut place = 0;
    while place < text.len() {
        if is_blank(text[place]) {
            return place;
        }
        place += 1;
    }
    place
}

// Whether a byte is a space or a tab.
fn is_blank(byte: u8) -> bool
    ensures { result ≡ is_blank byte }
{
    byte == b' ' || byte == b'\t'
}
