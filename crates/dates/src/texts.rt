//! Texts of days, date-times, spans, weeks and months.

use crate::prelude::*;
use chrono_pattern::PatternReadError;
use chrono_reading::{
    fitting_len, leading_digits, read_date, read_duration, read_ordinal_date, read_week_date,
    read_weekday,
};
use chrono_stamps::parse_from_iso8601;
use chrono_text::{Text, byte_place, read_decimal};
use std::str::from_utf8;

// The day that a text names by its calendar date, its ordinal date or its week date, the first and the last also without hyphens, or by its
// calendar date with slashes; else what is wrong by the form that it has.
pub(crate) fn read_day(text: &[u8]) -> Result<NaiveDate, ReadError> {
    let other = match read_hyphened(text) {
        Err(error) if error.cause == ReadCause::NotThisForm => error,
        read => return read,
    };
    let full = hyphened(text);
    match read_hyphened(full.as_bytes()) {
        Ok(date) => Ok(date),
        Err(error) if error.cause == ReadCause::NotThisForm => Err(other),
        Err(error) if full.as_bytes().len() == text.len() => Err(error),
        Err(ReadError { cause, byte }) => {
            let byte = byte.saturating_sub(added(b'-', text, &full, byte));
            Err(ReadError { cause, byte })
        }
    }
}

// A day of the basic form with its hyphens, a week with its Monday, and a day with slashes; no text where it has another form.
fn hyphened(text: &[u8]) -> Joined {
    let marks = match text.len() {
        7 if byte_at(text, 4) == b'W' => "dddd-ddd-1",
        8 if byte_at(text, 5) == b'W' => "dddddddd-1",
        8 if byte_at(text, 4) == b'W' => "dddd-ddd-d",
        8 => "dddd-dd-dd",
        10 if byte_at(text, 4) == b'/' && byte_at(text, 7) == b'/' => return slashed(text),
        _ => return Joined::new(),
    };
    spread(text, marks)
}

// Whether a text is a day of seven digits, which may be an ordinal date or a calendar date without a zero, maybe with a time of day.
pub(crate) fn is_of_seven_digits(text: &[u8]) -> bool {
    let behind = byte_at(text, 7);
    leading_digits(text) == 7 && (text.len() == 7 || behind == b'T' || behind == b' ')
}

// A text with hyphens for its slashes.
fn slashed(text: &[u8]) -> Joined {
    let mut full = Joined::new();
    for byte in text {
        let byte = if *byte == b'/' { b'-' } else { *byte };
        full.push_clipped(&[byte]);
    }
    full
}

// The byte at a place of a text, and 0 behind its end.
fn byte_at(text: &[u8], place: usize) -> u8 {
    text.get(place).copied().unwrap_or(0)
}

// A text with marks between its bytes: each `d` stands for the next byte, and what is left of the text stands behind them.
fn spread(text: &[u8], marks: &str) -> Joined {
    let mut full = Joined::new();
    let mut rest = text;
    for mark in marks.as_bytes() {
        match rest {
            [byte, others @ ..] if *mark == b'd' => {
                full.push_clipped(&[*byte]);
                rest = others;
            }
            _ => full.push_clipped(&[*mark]),
        }
    }
    full.push_clipped(rest);
    full
}

// How many marks were put into a text in front of a byte.
fn added(mark: u8, text: &[u8], full: &Joined, byte: usize) -> usize {
    let before = full.as_bytes().get(..byte).unwrap_or(full.as_bytes());
    count_of(mark, before).saturating_sub(count_of(mark, text))
}

// How often a byte stands in a text.
pub(crate) fn count_of(byte: u8, text: &[u8]) -> usize {
    let mut count: usize = 0;
    for it in text {
        if *it == byte {
            count = count.saturating_add(1);
        }
    }
    count
}

// The day that a text names with hyphens.
fn read_hyphened(text: &[u8]) -> Result<NaiveDate, ReadError> {
    let of_date = match read_date(text) {
        Ok(date) => return Ok(date),
        Err(error) => error,
    };
    let of_ordinal = match read_ordinal_date(text) {
        Ok(date) => return Ok(date),
        Err(error) => error,
    };
    match read_week_date(text) {
        Ok(date) => Ok(date),
        Err(_) if of_date.cause != ReadCause::NotThisForm => Err(of_date),
        Err(_) if of_ordinal.cause != ReadCause::NotThisForm => Err(of_ordinal),
        Err(error) => Err(error),
    }
}

/// A day, a date-time, an instant, or a time of day alone.
#[derive(Clone, Copy)]
pub enum Start {
    /// A time of day.
    Clock(NaiveTime),
    /// A day.
    Day(NaiveDate),
    /// A date-time.
    DateTime(NaiveDateTime),
    /// A date-time with its offset.
    Stamp(DateTime<FixedOffset>),
}

impl Start {
    // The date-time that is written; midnight of a day; a time of day on some day.
    pub(crate) fn local(&self) -> NaiveDateTime {
        match *self {
            Start::Clock(time) => NaiveDateTime::new(NaiveDate::default(), time),
            Start::Day(date) => NaiveDateTime::new(date, NaiveTime::MIN),
            Start::DateTime(moment) => moment,
            Start::Stamp(stamp) => stamp.naive_local(),
        }
    }

    // The same, with a day as its midnight.
    pub(crate) fn timed(self) -> Start {
        match self {
            Start::Day(_) => Start::DateTime(self.local()),
            other => other,
        }
    }

    // Whether it is a day alone.
    pub(crate) fn is_day(&self) -> bool {
        matches!(self, Start::Day(_))
    }

    // Whether it is a date-time or an instant.
    pub(crate) fn is_moment(&self) -> bool {
        self.key() == Key::Moment
    }

    // Whether it is a time of day alone.
    pub(crate) fn is_clock(&self) -> bool {
        matches!(self, Start::Clock(_))
    }

    // The time of day that stands alone, if one does.
    pub(crate) fn clock(&self) -> Option<NaiveTime> {
        match *self {
            Start::Clock(time) => Some(time),
            _ => None,
        }
    }

    // The key of its object.
    pub(crate) fn key(&self) -> Key {
        match self {
            Start::Clock(_) => Key::Time,
            Start::Day(_) => Key::Date,
            _ => Key::Moment,
        }
    }

    // Whether both are days, both date-times, both instants or both times of day.
    pub(crate) fn is_like(&self, other: &Start) -> bool {
        self.key() == other.key() && self.has_offset() == other.has_offset()
    }

    // How long it is until another, of local times where they have no offset.
    pub(crate) fn until(&self, other: &Start) -> TimeDelta {
        other.placed().signed_duration_since(self.placed())
    }

    // The date-time in UTC of an instant; else the one that is written.
    pub(crate) fn placed(&self) -> NaiveDateTime {
        match *self {
            Start::Stamp(stamp) => stamp.naive_utc(),
            _ => self.local(),
        }
    }

    // Whether it has an offset.
    pub(crate) fn has_offset(&self) -> bool {
        matches!(self, Start::Stamp(_))
    }

    // What is written in the same way of another date-time: of a day its date alone, of an instant with the same offset. A time of day
    // stays on its day.
    pub(crate) fn at(&self, moment: NaiveDateTime) -> Option<Start> {
        match *self {
            Start::Clock(_) if moment.date() != NaiveDate::default() => None,
            Start::Clock(_) => Some(Start::Clock(moment.time())),
            Start::Day(_) => Some(Start::Day(moment.date())),
            Start::DateTime(_) => Some(Start::DateTime(moment)),
            Start::Stamp(stamp) => {
                let found = stamp.timezone().from_local_datetime(&moment);
                Some(Start::Stamp(found.single()?))
            }
        }
    }
}

impl fmt::Display for Start {
    fn fmt<W: fmt::Write>(&self, f: &mut fmt::Formatter<W>) -> fmt::Result {
        match self {
            Start::Clock(time) => write!(f, "{time}"),
            Start::Day(date) => write!(f, "{date}"),
            Start::DateTime(moment) => write!(f, "{moment:?}"),
            Start::Stamp(stamp) => write!(f, "{stamp:?}"),
        }
    }
}

// The day or the date-time that a text names: a date-time where a time of day stands behind the day.
pub(crate) fn read_start(text: &[u8]) -> Result<Start, ReadError> {
    if let [mark @ (b'#' | b'@'), number @ ..] = text {
        let Some(number) = read_number(number) else {
            return Err(no_form(1));
        };
        return counted(*mark, number).ok_or(out_of_range());
    }
    match parted(text) {
        Some((day, time)) => moment_at(day, time),
        None => Ok(Start::Day(read_day(text)?)),
    }
}

// The time of day that a text names, as `10:30`.
fn read_clock(text: &[u8]) -> Option<Start> {
    let shown = parse_from_iso8601(in_full(text, b"").as_bytes()).ok()?;
    Some(Start::Clock(shown.naive_local().time()))
}

// The day of a number behind `#`, counted from 1 January of year 1, or the instant of the seconds behind `@`.
fn counted(mark: u8, number: i64) -> Option<Start> {
    if mark == b'@' {
        return Some(Start::Stamp(instant_at(number)?));
    }
    let number = i32::try_from(number).ok()?;
    Some(Start::Day(NaiveDate::from_num_days_from_ce_opt(number)?))
}

// The instant that a text names by the seconds since 1970 in UTC, or by a date-time with its offset.
pub(crate) fn read_instant(text: &[u8]) -> Result<Start, ReadError> {
    if let Some(seconds) = read_number(text) {
        return counted(b'@', seconds).ok_or(out_of_range());
    }
    match read_start(text)? {
        start @ Start::Stamp(_) => Ok(start),
        _ => Err(no_form(0)),
    }
}

// The instant so many seconds after the start of 1970 in UTC.
pub(crate) fn instant_at(seconds: i64) -> Option<DateTime<FixedOffset>> {
    FixedOffset::east_opt(0)?.timestamp_opt(seconds, 0)
}

/// In which order a text names year, month and day, where it has neither hyphens nor the name of a month.
#[derive(Clone, Copy)]
pub(crate) enum Order {
    /// In none: such a text names no day.
    None,
    /// The day first, as 29.02.2024.
    Day,
    /// The month first, as 02/29/2024.
    Month,
}

// A day behind which its month is named.
const DAY_AND_MONTH: &str = "%d %B %Y";

// The patterns of days with the name of a month.
const SPELLED: &[&str] = &[DAY_AND_MONTH, "%B %d, %Y", "%B %d %Y", "%A, %d %B %Y"];

const DAY_FIRST: &[&str] = &["%d.%m.%Y", "%d/%m/%Y", "%d-%m-%Y"];

const MONTH_FIRST: &[&str] = &["%m.%d.%Y", "%m/%d/%Y", "%m-%d-%Y"];

// The day, the date-time or the instant that a text names, also by the name of a month, or in an order; a time of day where that may
// stand alone.
pub(crate) fn read_written(
    text: &[u8],
    order: Order,
    takes_clock: bool,
) -> Result<Start, Unreadable> {
    let error = match read_start(text) {
        Ok(start) => return Ok(start),
        Err(error) => error,
    };
    if takes_clock && byte_at(text, 2) == b':' {
        if ends_day(text) {
            let cause = ReadCause::HourAbove23;
            return Err(Unreadable::Form(ReadError { cause, byte: 0 }));
        }
        if let Some(start) = read_clock(text) {
            return Ok(start);
        }
    }
    let found = match read_spelled(SPELLED, text)? {
        None => read_in_order(text, order)?,
        found => found,
    };
    found.ok_or(Unreadable::Form(error))
}

// The day that a text names by the name of its month and by one of these patterns, if it names one.
fn read_spelled(patterns: &[&str], text: &[u8]) -> Result<Option<Start>, PatternReadError> {
    if ends_in_year(text) {
        read_by_any(patterns, text)
    } else {
        Ok(None)
    }
}

// Whether a text ends in a year that is apart from the day in front of it: four digits, or four or more behind a sign that a blank, a
// comma or a point parts from the rest.
fn ends_in_year(text: &[u8]) -> bool {
    let front = without_digits(text);
    let digits = text.len().saturating_sub(front.len());
    let is_year = match front {
        [.., before, b'+' | b'-'] => digits >= 4 && b" ,.".contains(before),
        _ => digits == 4,
    };
    is_year && has_digit(front)
}

// What stands in front of the digits at the end of a text.
fn without_digits(text: &[u8]) -> &[u8] {
    let mut len: usize = 0;
    let mut place: usize = 0;
    for byte in text {
        place = place.saturating_add(1);
        if !byte.is_ascii_digit() {
            len = place;
        }
    }
    text.get(..len).unwrap_or(text)
}

// Whether a digit stands in a text.
fn has_digit(text: &[u8]) -> bool {
    for byte in text {
        if byte.is_ascii_digit() {
            return true;
        }
    }
    false
}

// The day that a text names by numbers in an order, if it names one.
fn read_in_order(text: &[u8], order: Order) -> Result<Option<Start>, PatternReadError> {
    match order {
        Order::None => Ok(None),
        Order::Day => read_by_any(DAY_FIRST, text),
        Order::Month => read_by_any(MONTH_FIRST, text),
    }
}

// Whether a text is written as a day in some order.
pub(crate) fn has_order(text: &[u8]) -> bool {
    is_of_any(DAY_FIRST, text) || is_of_any(MONTH_FIRST, text)
}

// Whether a text has the form of one of these patterns.
fn is_of_any(patterns: &[&str], text: &[u8]) -> bool {
    !matches!(read_by_any(patterns, text), Ok(None))
}

// What a text names by the first of these patterns that has its form; nothing where none has, or where no year of four digits ends it.
fn read_by_any(patterns: &[&str], text: &[u8]) -> Result<Option<Start>, PatternReadError> {
    let year = text.len().saturating_sub(4);
    if fitting_len(b"dddd", &text[year..]) < 4 {
        return Ok(None);
    }
    for written in patterns {
        if let Ok(pattern) = Pattern::new(written.as_bytes()) {
            match read_by(&pattern, text) {
                Ok(start) => return Ok(Some(start)),
                Err(error) if is_other_form(error) => {}
                Err(error) => return Err(error),
            }
        }
    }
    Ok(None)
}

// What stands in front of the first `T` or blank, behind which a time of day stands, and behind it.
pub(crate) fn parted(text: &[u8]) -> Option<(&[u8], &[u8])> {
    let place = byte_place(text, b'T').min(byte_place(text, b' '));
    match text.split_at(place) {
        (day, [_, time @ ..]) => Some((day, time)),
        _ => None,
    }
}

// The date-time that texts name: a day, and a time of day behind which an offset may stand. 24:00 is the end of the day.
fn moment_at(day: &[u8], time: &[u8]) -> Result<Start, ReadError> {
    let date = read_day(day)?;
    let before = byte_place(time, b'+').min(byte_place(time, b'-'));
    let (clock, offset) = time.split_at(before.min(byte_place(time, b'Z')));
    let offset = without_name(offset);
    let text = in_full(clock, offset);
    let shown = match parse_from_iso8601(text.as_bytes()) {
        Ok(shown) => shown,
        Err(ReadError { cause, byte }) => {
            let byte = byte.saturating_sub(added(b':', time, &text, byte));
            let byte = byte.saturating_sub(SOME_DAY.len());
            let byte = day.len().saturating_add(1).saturating_add(byte);
            return Err(ReadError { cause, byte });
        }
    };
    let date = if ends_day(clock) {
        date.succ_opt()
    } else {
        Some(date)
    };
    shown_on(date, shown, offset.is_empty()).ok_or(out_of_range())
}

// An offset without the name of its time, as `+01:00 CET`, which commands print behind it.
fn without_name(offset: &[u8]) -> &[u8] {
    match offset.split_at(byte_place(offset, b' ')) {
        (alone @ [_, ..], [_, name @ ..]) if is_name(name) => alone,
        _ => offset,
    }
}

// Whether a text may be the name of a time, as `CEST` or `-03`.
fn is_name(name: &[u8]) -> bool {
    for byte in name {
        if !byte.is_ascii_alphanumeric() && *byte != b'+' && *byte != b'-' {
            return false;
        }
    }
    3 <= name.len() && name.len() <= 6
}

// What a clock shows on a day, with its offset where it has one.
fn shown_on(
    date: Option<NaiveDate>,
    shown: DateTime<FixedOffset>,
    is_local: bool,
) -> Option<Start> {
    let moment = NaiveDateTime::new(date?, shown.naive_local().time());
    if is_local {
        return Some(Start::DateTime(moment));
    }
    let stamp = shown.timezone().from_local_datetime(&moment).single();
    Some(Start::Stamp(stamp?))
}

// A day in front of a time: each offset that is read goes with it.
const SOME_DAY: &[u8] = b"2000-01-01T";

// What a clock shows on some day, in full, and the offset; UTC where there is none.
fn in_full(clock: &[u8], offset: &[u8]) -> Joined {
    let mut full = Joined::new();
    full.push_clipped(SOME_DAY);
    full.push_clipped(coloned(clock).as_bytes());
    full.push_clipped(offset_in_full(offset).as_bytes());
    full
}

// Whether a clock shows 24:00, the end of the day.
fn ends_day(clock: &[u8]) -> bool {
    matches!(
        text_of(clock),
        "24" | "24:00" | "2400" | "24:00:00" | "240000"
    )
}

// What a clock shows, with its colons and its minutes; midnight for 24:00.
fn coloned(clock: &[u8]) -> Joined {
    if ends_day(clock) {
        return spread(b"", "00:00");
    }
    let marks = match clock.len() {
        2 => "dd:00",
        4 => "dd:dd",
        5.. if byte_at(clock, 2) != b':' => "dd:dd:",
        _ => "",
    };
    spread(clock, marks)
}

// An offset with its colons; UTC where there is none.
fn offset_in_full(offset: &[u8]) -> Joined {
    let marks = match offset.len() {
        0 => "Z",
        5 => "ddd:",
        7 if byte_at(offset, 3) != b':' => "ddd:dd:",
        _ => "",
    };
    spread(offset, marks)
}

// That a text has no form, as that byte shows.
pub(crate) fn no_form(byte: usize) -> ReadError {
    let cause = ReadCause::NotThisForm;
    ReadError { cause, byte }
}

// That there is no such day.
fn out_of_range() -> ReadError {
    let cause = ReadCause::DateOutOfRange;
    ReadError { cause, byte: 0 }
}

// A text of one day and one time of day: none that can be read has more bytes.
type Joined = Text<63>;

// The first day of the month that a text names, as `2024-02` or `Feb 2024`.
pub(crate) fn read_month(text: &[u8]) -> Result<NaiveDate, ReadError> {
    let mut day = Joined::new();
    day.push_clipped(text);
    day.push_clipped(b"-01");
    match (read_date(day.as_bytes()), first_of_spelled(text)) {
        (Err(_), Some(first)) => Ok(first),
        (read, _) => read,
    }
}

// The first day of the month that a text names by its name and its year.
fn first_of_spelled(text: &[u8]) -> Option<NaiveDate> {
    if !byte_at(text, 0).is_ascii_alphabetic() {
        return None;
    }
    let mut day = Joined::new();
    day.push_clipped(b"1 ");
    day.push_clipped(text);
    match read_spelled(&[DAY_AND_MONTH], day.as_bytes()) {
        Ok(Some(start)) => Some(start.local().date()),
        _ => None,
    }
}

/// By what a day or a date-time is moved, back where the number is below 0.
#[derive(Clone, Copy)]
pub(crate) enum Move {
    /// Days, weeks, months or years.
    Calendar(Span),
    /// Months that are written by `m`.
    ShortMonths(Span),
    /// So many open days.
    OpenDays(i64),
    /// A duration; `None` where it is too long for one.
    Time(Option<TimeDelta>),
}

// The first move that a text writes, as `3d`, `-2w`, `1y2mo`, `1 month`, `PT1.5S` or `P1Y2M`.
pub(crate) fn read_move(text: &[u8]) -> Option<Move> {
    Some(move_at(text, 0)?.0)
}

// The move that stands at a place of a text, and where the next one stands. A sign in front holds for all.
pub(crate) fn move_at(text: &[u8], place: usize) -> Option<(Move, usize)> {
    if let Ok(duration) = read_duration(text) {
        return Some((Move::Time(Some(duration)), text.len()));
    }
    let front = front_of(text);
    let begin = place.max(front.len);
    let name_at = begin.saturating_add(leading_digits(text.get(begin..)?));
    let behind = name_of(text.get(name_at..)?);
    let count = i64::try_from(read_decimal(text.get(begin..name_at)?)?).ok()?;
    let count = if front.is_back {
        count.checked_neg()?
    } else {
        count
    };
    let next = name_at.saturating_add(behind.len());
    if front.is_iso {
        let is_time = count_of(b'T', text.get(..begin)?) > 0;
        return Some((move_by(count, plain_name(behind, is_time))?, next));
    }
    Some((
        move_by(count, text_of(behind.as_bytes().trim_ascii()))?,
        next,
    ))
}

// What stands in front of the numbers of a span: a sign, and `P` or `PT` where it is written as ISO 8601 writes it.
#[derive(Clone, Copy)]
struct Front {
    is_back: bool,
    is_iso: bool,
    len: usize,
}

// What stands in front of the numbers of a span.
fn front_of(text: &[u8]) -> Front {
    let first = byte_at(text, 0);
    let sign: usize = if first == b'-' || first == b'+' { 1 } else { 0 };
    let is_iso = byte_at(text, sign) == b'P';
    let is_time = is_iso && byte_at(text, sign.saturating_add(1)) == b'T';
    let letters: usize = if is_time {
        2
    } else if is_iso {
        1
    } else {
        0
    };
    Front {
        is_back: first == b'-',
        is_iso,
        len: sign.saturating_add(letters),
    }
}

// What stands in front of the first digit of a text.
fn name_of(text: &[u8]) -> &str {
    let mut len: usize = 0;
    for byte in text {
        if byte.is_ascii_digit() {
            break;
        }
        len = len.saturating_add(1);
    }
    text_of(text.get(..len).unwrap_or(text))
}

// The plain name of a unit for its letter of ISO 8601, behind a `T` or not; no name for what is no such letter.
fn plain_name(letter: &str, is_time: bool) -> &'static str {
    match letter {
        "D" | "DT" => "d",
        "W" | "WT" => "w",
        "M" if is_time => "min",
        "M" | "MT" => "mo",
        "Y" | "YT" => "y",
        "H" => "h",
        "S" => "s",
        _ => "",
    }
}

// The move by so many of the unit of that name.
fn move_by(count: i64, name: &str) -> Option<Move> {
    let unit = match name {
        "b" => return Some(Move::OpenDays(count)),
        "h" | "hour" | "hours" => return Some(Move::Time(TimeDelta::try_hours(count))),
        "min" | "minute" | "minutes" => return Some(Move::Time(TimeDelta::try_minutes(count))),
        "s" | "second" | "seconds" => return Some(Move::Time(TimeDelta::try_seconds(count))),
        "m" => {
            let unit = Unit::Months;
            return Some(Move::ShortMonths(Span { count, unit }));
        }
        "d" | "day" | "days" => Unit::Days,
        "w" | "week" | "weeks" => Unit::Weeks,
        "mo" | "month" | "months" => Unit::Months,
        "y" | "year" | "years" => Unit::Years,
        _ => return None,
    };
    Some(Move::Calendar(Span { count, unit }))
}

// The text that bytes are; none for other bytes.
pub(crate) fn text_of(bytes: &[u8]) -> &str {
    from_utf8(bytes).unwrap_or("")
}

// The number that a text writes: `-` where it is below 0, and up to 18 digits without zeros in front.
fn read_number(text: &[u8]) -> Option<i64> {
    match text {
        [b'-', size @ ..] => i64::try_from(read_decimal(size)?).ok()?.checked_neg(),
        _ => i64::try_from(read_decimal(text)?).ok(),
    }
}

// The weekday that a text names, as `fri` or `Friday`.
pub(crate) fn weekday_named(text: &str) -> Option<Weekday> {
    read_weekday(text.as_bytes()).ok()
}
