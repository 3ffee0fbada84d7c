//! `ReadError`: why a text cannot be read, and at which byte.
ghost use Rattle.std.specs.Prelude.{◌≡◌, ◌++◌, Some, codes};
ghost use Rattle.chrono_reading.specs.DateErrors.{error_at};
ghost use Rattle.chrono_reading.specs.ErrorTexts.{error_text, words_before};

use std::fmt;

/// Why a text cannot be read.
#[derive(Clone, Copy, PartialEq, Eq, Debug)]
pub enum ReadCause {
    /// The text does not have the form.
    NotThisForm,
    /// The year is not from -262143 to 262142. An ISO year may be 262143.
    YearOutOfRange,
    /// The month is 0.
    MonthZero,
    /// The month is above 12.
    MonthAbove12,
    /// The day of the month is 0.
    DayZero,
    /// The day is above the length of its month, which is this number of days.
    DayAbove(u32),
    /// The day of the year is 0.
    OrdinalZero,
    /// The day of the year is above the length of the year, which is this number of days: 365 or 366.
    OrdinalAbove(u32),
    /// The week is 0.
    WeekZero,
    /// The week is above the number of weeks in its ISO year, which is this number: 52 or 53.
    WeekAbove(u32),
    /// The weekday is not from 1 to 7.
    WeekdayOutOfRange,
    /// The week date is in a year of the calendar, but before its first date or after its last.
    DateOutOfRange,
    /// The hour is above 23.
    HourAbove23,
    /// The minute is above 59.
    MinuteAbove59,
    /// The second is above 60.
    SecondAbove60,
    /// A duration of zero is written in seconds. Its text is `P0D`.
    ZeroInSeconds,
    /// The duration is below `TimeDelta::MIN` or above `TimeDelta::MAX`.
    DurationOutOfRange,
    /// The text is no name of a weekday or of a month.
    UnknownName,
}

/// Why a text cannot be read, and where. It prints as one line.
///
/// ```
/// let error = read_date(b"2024-02-30").err()?;
/// (error.cause, error.byte) // (DayAbove(29), 8)
/// error.to_string(rt.alloc()).ok()? // "byte 8: the month has 29 days"
/// ```
#[derive(Clone, Copy, PartialEq, Eq, Debug)]
pub struct ReadError {
    /// What is wrong. If several things are, this is the first one in the text.
    pub cause: ReadCause,
    /// Where in the text the wrong number or name begins, in bytes from 0.
    ///
    /// For [`NotThisForm`](ReadCause::NotThisForm) it is the first byte that does not fit the form, or the text's length if the text ends early.
    /// For [`UnknownName`](ReadCause::UnknownName) it is the first byte that no name has there, or the text's length.
    pub byte: usize,
}

// An error at a byte.
pub(crate) fn error_at(cause: ReadCause, byte: usize) -> ReadError
    ensures { result ≡ error_at cause byte }
{
    ReadError { cause, byte }
}

impl fmt::Display for ReadError {
    ghost output = { λ e. Some (error_text e) };

    #[tactic(auto, unfolding(crate::specs::ErrorTexts::error_text, crate::specs::ErrorTexts::words_before, crate::specs::ErrorTexts::number_in))]
    /// Writes one line, such as `byte 8: the month has 29 days`.
    fn fmt<W: fmt::Write>(&self, f: &mut fmt::Formatter<W>) -> fmt::Result {
        let words = words_before(self.cause);
        match self.cause {
            ReadCause::DayAbove(days) | ReadCause::OrdinalAbove(days) => {
                write!(f, "byte {}: {words}{days} days", self.byte)
            }
            ReadCause::WeekAbove(weeks) => write!(f, "byte {}: {words}{weeks} weeks", self.byte),
            _ => write!(f, "byte {}: {words}", self.byte),
        }
    }
}

// What is wrong, up to the number if there is one.
#[tactic(auto, unfolding(crate::specs::ErrorTexts::words_before))]
fn words_before(cause: ReadCause) -> &'static str
    ensures { result.now ≡ words_before cause }
{
    match cause {
        ReadCause::NotThisForm => "not of this form",
        ReadCause::YearOutOfRange => "the year is not from -262143 to 262142",
        ReadCause::MonthZero => "the month is 0",
        ReadCause::MonthAbove12 => "the month is above 12",
        ReadCause::DayZero => "the day is 0",
        ReadCause::DayAbove(_) => "the month has ",
        ReadCause::OrdinalZero => "the day of the year is 0",
        ReadCause::OrdinalAbove(_) | ReadCause::WeekAbove(_) => "the year has ",
        ReadCause::WeekZero => "the week is 0",
        ReadCause::WeekdayOutOfRange => "the weekday is not from 1 to 7",
        ReadCause::DateOutOfRange => "the date is not from -262143-01-01 to 262142-12-31",
        ReadCause::HourAbove23 => "the hour is above 23",
        ReadCause::MinuteAbove59 => "the minute is above 59",
        ReadCause::SecondAbove60 => "the second is above 60",
        ReadCause::ZeroInSeconds => "a duration of zero is P0D",
        ReadCause::DurationOutOfRange => "the duration is too long",
        ReadCause::UnknownName => "an unknown name",
    }
}
