//! Reads a pattern byte by byte.
ghost use Rattle.std.specs.Prelude.{◌≡◌};
ghost use Rattle.chrono_pattern.specs.PatternSteps.{date_number_at, colon_step, digits_at, digits_step, group_at, grouped_step, marked_step, named_step, opened_step, padding_at, pattern_step, single_step, stamped_step, time_number_at, timed_step, unless_padded, unpadded_step, with_colon, word_at, zoned_step};

use crate::item::{
    GroupField, Item, NumberField, OffsetForm, Padding, State, WordField, ZonedField,
};

// Where a reader stands behind a byte, and what the byte writes. Nothing if no pattern has the byte there.
pub(crate) fn pattern_step(state: State, byte: u8) -> Option<(State, Item)>
    ensures { result ≡ pattern_step state byte }
{
    match state {
        State::Outside => {
            if byte == b'%' {
                Some((State::Opened(Padding::Usual), Item::Empty))
            } else {
                Some((State::Outside, Item::Byte(byte)))
            }
        }
        State::Opened(padding) => opened_step(padding, byte),
        State::Digits(point, count) => digits_step(point, count, byte),
        State::Marked(form) => marked_step(form, byte),
    }
}

// The same behind `%` and a padding or none.
#[inline(always)]
#[tactic(auto, unfolding(crate::specs::PatternSteps::opened_step))]
pub(crate) fn opened_step(padding: Padding, byte: u8) -> Option<(State, Item)>
    ensures { result ≡ opened_step padding byte }
{
    match date_number_at(byte) {
        Some(number) => Some((State::Outside, Item::Number(number, padding))),
        None => timed_step(padding, byte),
    }
}

// The same where the byte names no number of a date.
#[inline(always)]
fn timed_step(padding: Padding, byte: u8) -> Option<(State, Item)>
    ensures { result ≡ timed_step padding byte }
{
    match time_number_at(byte) {
        Some(number) => Some((State::Outside, Item::Number(number, padding))),
        None => stamped_step(padding, byte),
    }
}

// The same where the byte names no number of a time of day.
#[inline(always)]
fn stamped_step(padding: Padding, byte: u8) -> Option<(State, Item)>
    ensures { result ≡ stamped_step padding byte }
{
    if byte == b's' {
        Some((State::Outside, Item::Zoned(ZonedField::Stamp)))
    } else {
        unless_padded(padding, byte)
    }
}

// The same where the byte names no number at all.
#[inline(always)]
fn unless_padded(padding: Padding, byte: u8) -> Option<(State, Item)>
    ensures { result ≡ unless_padded padding byte }
{
    match padding {
        Padding::Usual => unpadded_step(byte),
        Padding::Nothing | Padding::Spaces | Padding::Zeros => None,
    }
}

// The same behind `%` alone.
#[inline(always)]
#[tactic(auto, unfolding(crate::specs::PatternSteps::unpadded_step))]
fn unpadded_step(byte: u8) -> Option<(State, Item)>
    ensures { result ≡ unpadded_step byte }
{
    match padding_at(byte) {
        Some(padding) => Some((State::Opened(padding), Item::Empty)),
        None => named_step(byte),
    }
}

// The same where the byte asks for no padding.
#[inline(always)]
fn named_step(byte: u8) -> Option<(State, Item)>
    ensures { result ≡ named_step byte }
{
    match word_at(byte) {
        Some(word) => Some((State::Outside, Item::Word(word))),
        None => grouped_step(byte),
    }
}

// The same where the byte names no word either.
#[inline(always)]
fn grouped_step(byte: u8) -> Option<(State, Item)>
    ensures { result ≡ grouped_step byte }
{
    match group_at(byte) {
        Some(group) => Some((State::Outside, Item::Group(group))),
        None => single_step(byte),
    }
}

// The same where the byte names no group either.
#[inline(always)]
fn single_step(byte: u8) -> Option<(State, Item)>
    ensures { result ≡ single_step byte }
{
    if byte == b'%' {
        Some((State::Outside, Item::Byte(b'%')))
    } else if byte == b'n' {
        Some((State::Outside, Item::Byte(b'\n')))
    } else if byte == b't' {
        Some((State::Outside, Item::Byte(b'\t')))
    } else if byte == b'.' {
        Some((State::Digits(true, 0), Item::Empty))
    } else {
        zoned_step(byte)
    }
}

// The same where the byte may stand for an offset or a name of a zone, or be the first mark of an offset.
#[inline(always)]
fn zoned_step(byte: u8) -> Option<(State, Item)>
    ensures { result ≡ zoned_step byte }
{
    if byte == b'z' {
        Some((
            State::Outside,
            Item::Zoned(ZonedField::Offset(OffsetForm::Plain)),
        ))
    } else if byte == b'Z' {
        Some((State::Outside, Item::Zoned(ZonedField::ZoneName)))
    } else if byte == b'+' {
        Some((State::Outside, Item::Zoned(ZonedField::Iso8601)))
    } else if byte == b':' {
        Some((State::Marked(OffsetForm::Colon), Item::Empty))
    } else if byte == b'#' {
        Some((State::Marked(OffsetForm::Loose), Item::Empty))
    } else {
        digits_at(false, byte)
    }
}

// The same behind the marks of an offset.
#[inline(always)]
fn marked_step(form: OffsetForm, byte: u8) -> Option<(State, Item)>
    ensures { result ≡ marked_step form byte }
{
    if byte == b'z' {
        Some((State::Outside, Item::Zoned(ZonedField::Offset(form))))
    } else if byte == b':' {
        colon_step(form)
    } else {
        None
    }
}

// The same where the byte is a colon.
#[inline(always)]
fn colon_step(form: OffsetForm) -> Option<(State, Item)>
    ensures { result ≡ colon_step form }
{
    match with_colon(form) {
        Some(more) => Some((State::Marked(more), Item::Empty)),
        None => None,
    }
}

// The marks of an offset with one more colon.
#[inline(always)]
fn with_colon(form: OffsetForm) -> Option<OffsetForm>
    ensures { result ≡ with_colon form }
{
    match form {
        OffsetForm::Plain => Some(OffsetForm::Colon),
        OffsetForm::Colon => Some(OffsetForm::Seconds),
        OffsetForm::Seconds => Some(OffsetForm::Hours),
        OffsetForm::Hours | OffsetForm::Loose => None,
    }
}

// The same where the byte is a number of digits.
#[inline(always)]
fn digits_at(point: bool, byte: u8) -> Option<(State, Item)>
    ensures { result ≡ digits_at point byte }
{
    if byte == b'3' {
        Some((State::Digits(point, 3), Item::Empty))
    } else if byte == b'6' {
        Some((State::Digits(point, 6), Item::Empty))
    } else if byte == b'9' {
        Some((State::Digits(point, 9), Item::Empty))
    } else {
        None
    }
}

// The same behind a point or a number of digits.
#[inline(always)]
fn digits_step(point: bool, count: u8, byte: u8) -> Option<(State, Item)>
    ensures { result ≡ digits_step point count byte }
{
    if byte == b'f' {
        Some((State::Outside, Item::Subsecond(point, count)))
    } else if count == 0 {
        digits_at(point, byte)
    } else {
        None
    }
}

// The padding that a byte asks for.
#[inline(always)]
fn padding_at(byte: u8) -> Option<Padding>
    ensures { result ≡ padding_at byte }
{
    if byte == b'-' {
        Some(Padding::Nothing)
    } else if byte == b'_' {
        Some(Padding::Spaces)
    } else if byte == b'0' {
        Some(Padding::Zeros)
    } else {
        None
    }
}

// The number of a date that a byte names.
#[inline(always)]
#[tactic(auto, unfolding(crate::specs::PatternSteps::date_number_at))]
fn date_number_at(byte: u8) -> Option<NumberField>
    ensures { result ≡ date_number_at byte }
{
    if byte == b'Y' {
        Some(NumberField::Year)
    } else if byte == b'C' {
        Some(NumberField::Century)
    } else if byte == b'y' {
        Some(NumberField::YearOfCentury)
    } else if byte == b'q' {
        Some(NumberField::Quarter)
    } else if byte == b'm' {
        Some(NumberField::Month)
    } else if byte == b'd' {
        Some(NumberField::Day)
    } else if byte == b'e' {
        Some(NumberField::SpacedDay)
    } else if byte == b'j' {
        Some(NumberField::DayOfYear)
    } else if byte == b'u' {
        Some(NumberField::FromMonday)
    } else if byte == b'w' {
        Some(NumberField::FromSunday)
    } else if byte == b'G' {
        Some(NumberField::IsoYear)
    } else if byte == b'g' {
        Some(NumberField::IsoYearOfCentury)
    } else if byte == b'V' {
        Some(NumberField::IsoWeek)
    } else if byte == b'U' {
        Some(NumberField::WeekFromSunday)
    } else if byte == b'W' {
        Some(NumberField::WeekFromMonday)
    } else {
        None
    }
}

// The number of a time of day that a byte names.
#[inline(always)]
#[tactic(auto, unfolding(crate::specs::PatternSteps::time_number_at))]
fn time_number_at(byte: u8) -> Option<NumberField>
    ensures { result ≡ time_number_at byte }
{
    if byte == b'H' {
        Some(NumberField::Hour)
    } else if byte == b'k' {
        Some(NumberField::SpacedHour)
    } else if byte == b'I' {
        Some(NumberField::HalfHour)
    } else if byte == b'l' {
        Some(NumberField::SpacedHalfHour)
    } else if byte == b'M' {
        Some(NumberField::Minute)
    } else if byte == b'S' {
        Some(NumberField::Second)
    } else if byte == b'f' {
        Some(NumberField::Nanosecond)
    } else {
        None
    }
}

// The word that a byte names.
#[inline(always)]
#[tactic(auto, unfolding(crate::specs::PatternSteps::word_at))]
fn word_at(byte: u8) -> Option<WordField>
    ensures { result ≡ word_at byte }
{
    if byte == b'B' {
        Some(WordField::MonthName)
    } else if byte == b'b' || byte == b'h' {
        Some(WordField::MonthLetters)
    } else if byte == b'A' {
        Some(WordField::WeekdayName)
    } else if byte == b'a' {
        Some(WordField::WeekdayLetters)
    } else if byte == b'p' {
        Some(WordField::Half)
    } else if byte == b'P' {
        Some(WordField::SmallHalf)
    } else {
        None
    }
}

// The group that a byte names.
#[inline(always)]
#[tactic(auto, unfolding(crate::specs::PatternSteps::group_at))]
fn group_at(byte: u8) -> Option<GroupField>
    ensures { result ≡ group_at byte }
{
    if byte == b'F' {
        Some(GroupField::YearMonthDay)
    } else if byte == b'D' || byte == b'x' {
        Some(GroupField::MonthDayYear)
    } else if byte == b'R' {
        Some(GroupField::HourMinute)
    } else if byte == b'T' || byte == b'X' {
        Some(GroupField::HourMinuteSecond)
    } else if byte == b'r' {
        Some(GroupField::HalfClock)
    } else if byte == b'v' {
        Some(GroupField::DayMonthYear)
    } else if byte == b'c' {
        Some(GroupField::DateAndTime)
    } else {
        None
    }
}
