//! Writes the numbers of a date-time.
ghost use Rattle.std.specs.Prelude.{◌≡◌, ◌+◌, ◌/◌, ◌<◌, ◌≤◌, ◌++◌, ◌∷◌, [], length, true};
ghost use Rattle.std.specs.Str.{byte};
ghost use Rattle.chrono_datetime.specs.Duration.{nanos_per_second};
ghost use Rattle.chrono_datetime.specs.Time.{second_of};
ghost use Rattle.chrono_pattern.specs.GroupParts.{padded_year, spaced, two};
ghost use Rattle.chrono_pattern.specs.Numbers.{least_digits, field_text, padded, padding_of, sign_of, size_of, year_sign};
ghost use Rattle.chrono_pattern.specs.declared.item.Padding.TheVariants.{Zeros};

use crate::item::{NumberField, Padding};
use crate::year_week::{week_from_monday, week_from_sunday};
use chrono_datetime::{Datelike, NaiveDateTime, NaiveTime, Timelike};
use chrono_text::{NANOS_PER_SEC, Text};

// Puts a number of a date-time. The usual ones come first.
#[inline(never)]
#[tactic(auto, unfolding(crate::specs::Numbers::field_text, crate::specs::GroupParts::two, crate::specs::GroupParts::padded_year))]
pub(crate) fn put_number<const N: usize>(
    text: &mut Text<N>,
    field: NumberField,
    padding: Padding,
    moment: NaiveDateTime,
)
    requires room { length text.old + 11 ≤ N }
    ensures text { text.new ≡ text.old ++ field_text field padding moment }
    ensures fits { length text.new ≤ length text.old + 11 }
{
    match padding {
        Padding::Usual => match field {
            NumberField::Year => put_year(text, moment.date().year()),
            NumberField::Month => put_two(text, moment.date().month()),
            NumberField::Day => put_two(text, moment.date().day()),
            NumberField::Hour => put_two(text, moment.time().hour()),
            NumberField::Minute => put_two(text, moment.time().minute()),
            NumberField::Second => put_two(text, clock_second(moment.time())),
            _ => put_any_number(text, field, padding, moment),
        },
        Padding::Nothing | Padding::Spaces | Padding::Zeros => put_any_number(
            text, field, padding, moment,
        ),
    }
}

// The same by the padding, the sign and the size of the number.
#[inline(never)]
#[tactic(auto, unfolding(crate::specs::Numbers::field_text))]
fn put_any_number<const N: usize>(
    text: &mut Text<N>,
    field: NumberField,
    padding: Padding,
    moment: NaiveDateTime,
)
    requires room { length text.old + 11 ≤ N }
    ensures text { text.new ≡ text.old ++ field_text field padding moment }
    ensures fits { length text.new ≤ length text.old + 11 }
{
    let sign = sign_of(field, moment);
    let least = least_digits(field, sign.len());
    put_padded(
        text,
        padding_of(field, padding),
        least,
        sign,
        size_of(field, moment),
    );
}

// Puts a number below 100 in two digits.
#[inline]
#[tactic(auto, using(crate::proofs::WriteLemmas::few_digits), unfolding(crate::specs::GroupParts::two))]
pub(crate) fn put_two<const N: usize>(text: &mut Text<N>, n: u32)
    requires small { n < 100 }
    requires room { length text.old + 2 ≤ N }
    ensures text { text.new ≡ text.old ++ two n }
    ensures fits { length text.new ≤ length text.old + 2 }
{
    text.push_two(n);
}

// Puts a number below 100 in two digits, or a space and a digit.
#[tactic(auto, using(crate::proofs::WriteLemmas::few_digits), unfolding(crate::specs::GroupParts::spaced))]
pub(crate) fn put_spaced<const N: usize>(text: &mut Text<N>, n: u32)
    requires small { n < 100 }
    requires room { length text.old + 2 ≤ N }
    ensures text { text.new ≡ text.old ++ spaced n }
    ensures fits { length text.new ≤ length text.old + 2 }
{
    if n >= 10 {
        return text.push_two(n);
    }
    text.push(b' ');
    put_digit(text, n);
}

// Puts a number below 10 in one digit.
fn put_digit<const N: usize>(text: &mut Text<N>, n: u32)
    requires small { n < 10 }
    requires room { length text.old < N }
    ensures { text.new ≡ text.old ++ (byte "0" + n) ∷ [] }
{
    text.push(b'0' + n as u8);
}

// Puts a year: its sign, and its size in four digits or more.
#[inline(always)]
#[tactic(auto, unfolding(crate::specs::GroupParts::padded_year))]
pub(crate) fn put_year<const N: usize>(text: &mut Text<N>, year: i32)
    requires room { length text.old + 11 ≤ N }
    ensures text { text.new ≡ text.old ++ padded_year year }
    ensures fits { length text.new ≤ length text.old + 11 }
{
    put_padded(
        text,
        Padding::Zeros,
        4,
        year_sign(year),
        year.unsigned_abs(),
    );
}

// Puts a sign or none and a number, with what is missing to so many digits. The usual cases come first.
#[inline(always)]
fn put_padded<const N: usize>(
    text: &mut Text<N>,
    padding: Padding,
    least: usize,
    sign: &[u8],
    size: u32,
)
    requires room { length text.old + 11 ≤ N }
    requires least { least ≤ 9 }
    requires sign { length sign.now ≤ 1 }
    ensures text { text.new ≡ text.old ++ padded padding least sign.now size }
    ensures fits { length text.new ≤ length text.old + 11 }
{
    if is_plain(padding, sign) {
        if least == 2 && size < 100 {
            return text.push_two(size);
        }
        if least == 4 && size < 10_000 {
            return text.push_four(size);
        }
    }
    put_filled(text, padding, least, sign, size);
}

// Whether a number has zeros in front and no sign.
#[inline(always)]
fn is_plain(padding: Padding, sign: &[u8]) -> bool
    ensures padding { result ≡ true → padding ≡ Zeros }
    ensures sign { result ≡ true → sign.now ≡ [] }
{
    match padding {
        Padding::Zeros => sign.is_empty(),
        _ => false,
    }
}

// Puts a sign or none and a number, with what is missing to so many digits.
fn put_filled<const N: usize>(
    text: &mut Text<N>,
    padding: Padding,
    least: usize,
    sign: &[u8],
    size: u32,
)
    requires room { length text.old + 11 ≤ N }
    requires least { least ≤ 9 }
    requires sign { length sign.now ≤ 1 }
    ensures text { text.new ≡ text.old ++ padded padding least sign.now size }
    ensures fits { length text.new ≤ length text.old + 11 }
{
    let mut digits = Text::<19>::new();
    digits.push_u32(size);
    let missing = least.saturating_sub(digits.as_bytes().len());
    match padding {
        Padding::Spaces => {
            text.push_text(&b"         "[..missing]);
            text.push_text(sign);
        }
        Padding::Zeros => {
            text.push_text(sign);
            text.push_text(&b"000000000"[..missing]);
        }
        Padding::Nothing | Padding::Usual => text.push_text(sign),
    }
    text.push_text(digits.as_bytes());
}

// The padding that is asked for, or else that of the number's specifier.
#[inline(always)]
pub(crate) fn padding_of(field: NumberField, padding: Padding) -> Padding
    ensures { result ≡ padding_of field padding }
{
    match padding {
        Padding::Usual => match field {
            NumberField::SpacedDay | NumberField::SpacedHour | NumberField::SpacedHalfHour => {
                Padding::Spaces
            }
            _ => Padding::Zeros,
        },
        _ => padding,
    }
}

// How many digits are written at least, with a sign of so many bytes.
#[inline(always)]
fn least_digits(field: NumberField, sign: usize) -> usize
    ensures value { result ≡ least_digits field sign }
    ensures few { result ≤ 9 }
{
    match field {
        NumberField::Year | NumberField::IsoYear => 4,
        NumberField::Century => 2_usize.saturating_sub(sign),
        NumberField::DayOfYear => 3,
        NumberField::Quarter | NumberField::FromMonday | NumberField::FromSunday => 1,
        NumberField::Nanosecond => 9,
        _ => 2,
    }
}

// The sign of a year: `-` below 0, and `+` where it has more than four digits.
#[inline(always)]
fn year_sign(year: i32) -> &'static [u8]
    ensures sign { result.now ≡ year_sign year }
    ensures short { length result.now ≤ 1 }
{
    if year < 0 {
        b"-"
    } else if year > 9_999 {
        b"+"
    } else {
        b""
    }
}

// The sign of a number.
fn sign_of(field: NumberField, moment: NaiveDateTime) -> &'static [u8]
    ensures sign { result.now ≡ sign_of field moment }
    ensures short { length result.now ≤ 1 }
{
    match field {
        NumberField::Year => year_sign(moment.date().year()),
        NumberField::IsoYear => year_sign(moment.date().iso_week().year()),
        NumberField::Century => { if moment.date().year() < 0 { b"-" } else { b"" } }
        _ => b"",
    }
}

// The second of the minute, and 60 in a leap second.
#[inline(always)]
pub(crate) fn clock_second(time: NaiveTime) -> u32
    ensures value { result ≡ second_of time + time.fraction / nanos_per_second }
    ensures small { result ≤ 60 }
{
    time.second() + time.nanosecond() / NANOS_PER_SEC
}

// The size of a number.
fn size_of(field: NumberField, moment: NaiveDateTime) -> u32
    ensures { result ≡ size_of field moment }
{
    let date = moment.date();
    let time = moment.time();
    match field {
        NumberField::Year => date.year().unsigned_abs(),
        NumberField::Century => date.year().div_euclid(100).unsigned_abs(),
        NumberField::YearOfCentury => date.year().rem_euclid(100).unsigned_abs(),
        NumberField::Quarter => date.quarter(),
        NumberField::Month => date.month(),
        NumberField::Day | NumberField::SpacedDay => date.day(),
        NumberField::DayOfYear => date.ordinal(),
        NumberField::FromMonday => date.weekday().number_from_monday(),
        NumberField::FromSunday => date.weekday().num_days_from_sunday(),
        NumberField::IsoYear => date.iso_week().year().unsigned_abs(),
        NumberField::IsoYearOfCentury => date.iso_week().year().rem_euclid(100).unsigned_abs(),
        NumberField::IsoWeek => date.iso_week().week(),
        NumberField::WeekFromSunday => week_from_sunday(date),
        NumberField::WeekFromMonday => week_from_monday(date),
        NumberField::Hour | NumberField::SpacedHour => time.hour(),
        NumberField::HalfHour | NumberField::SpacedHalfHour => time.hour12().1,
        NumberField::Minute => time.minute(),
        NumberField::Second => clock_second(time),
        NumberField::Nanosecond => time.nanosecond() % NANOS_PER_SEC,
    }
}
