//! The items of a pattern, and where a reader of its bytes stands.

// What is put in front of a number that has fewer digits than its specifier.
#[derive(Clone, Copy)]
pub(crate) enum Padding {
    // What the specifier itself says.
    Usual,
    Nothing,
    Spaces,
    Zeros,
}

// A number of a date or of a time of day.
#[derive(Clone, Copy)]
pub(crate) enum NumberField {
    Year,
    Century,
    YearOfCentury,
    Quarter,
    Month,
    Day,
    SpacedDay,
    DayOfYear,
    FromMonday,
    FromSunday,
    IsoYear,
    IsoYearOfCentury,
    IsoWeek,
    WeekFromSunday,
    WeekFromMonday,
    Hour,
    SpacedHour,
    HalfHour,
    SpacedHalfHour,
    Minute,
    Second,
    Nanosecond,
}

// A word of a date or of a time of day.
#[derive(Clone, Copy)]
pub(crate) enum WordField {
    MonthName,
    MonthLetters,
    WeekdayName,
    WeekdayLetters,
    Half,
    SmallHalf,
}

// Numbers and words with bytes between them.
#[derive(Clone, Copy)]
pub(crate) enum GroupField {
    YearMonthDay,
    MonthDayYear,
    HourMinute,
    HourMinuteSecond,
    HalfClock,
    DayMonthYear,
    DateAndTime,
}

// How an offset from UTC is written and read.
#[derive(Clone, Copy)]
pub(crate) enum OffsetForm {
    // Hours and minutes.
    Plain,
    // Hours, a colon and minutes.
    Colon,
    // Hours, minutes and seconds, with colons.
    Seconds,
    // Hours alone.
    Hours,
    // As `Plain`. In reading the minutes may be missing.
    Loose,
}

// A piece that needs the offset from UTC, or the seconds from 1970.
#[derive(Clone, Copy)]
pub(crate) enum ZonedField {
    Offset(OffsetForm),
    ZoneName,
    Stamp,
    Iso8601,
}

// What a pattern writes where one of its bytes stands.
#[derive(Clone, Copy)]
pub(crate) enum Item {
    // The byte is of a specifier that goes on.
    Empty,
    Byte(u8),
    Number(NumberField, Padding),
    Word(WordField),
    Group(GroupField),
    // So many digits of the fraction of a second, or as few as hold it for 0, and whether a point is before them.
    Subsecond(bool, u8),
    Zoned(ZonedField),
}

// Where a reader of a pattern stands.
#[derive(Clone, Copy)]
pub(crate) enum State {
    // Outside a specifier.
    Outside,
    // Behind `%` and a padding.
    Opened(Padding),
    // Behind `%`, a point or none, and a number of digits or 0 for none.
    Digits(bool, u8),
    // Behind `%` and the marks of an offset.
    Marked(OffsetForm),
}

// What may not stand behind an item of a separable pattern.
#[derive(Clone, Copy)]
pub(crate) enum Bar {
    // Anything may.
    Free,
    // A digit.
    NoDigit,
    // A digit, or a point behind blanks or none.
    NoFraction,
    // A point behind blanks or none.
    NoPoint,
    // A digit behind colons and blanks or none.
    NoMinutes,
}
