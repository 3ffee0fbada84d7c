//! Laws of the texts that are read, each as the contract of a function.
//!
//! What is printed is a text of its value, so it is read back. A text has one value. Two texts of one value differ only as the laws say. Known
//! texts, near misses and errors stand below.
ghost use Rattle.std.specs.Prelude.{◌≡◌, ◌+◌, ◌++◌, ◌∷◌, ◌⊎◌, ◌↔◌, [], ℕ, ℤ, List, codes, neg_ℤ, pos};
ghost use Rattle.chrono_datetime.specs.DateText.{date_text};
ghost use Rattle.chrono_datetime.specs.Days.{IsDate, ordinal_of, year_of};
ghost use Rattle.chrono_datetime.specs.Duration.{IsDuration};
ghost use Rattle.chrono_datetime.specs.Moment.{Moment, moment};
ghost use Rattle.chrono_datetime.specs.MomentText.{moment_text};
ghost use Rattle.chrono_datetime.specs.Month.{month_name};
ghost use Rattle.chrono_text.specs.Text.{duration_text, ordinal_text, week_date_text};
ghost use Rattle.chrono_datetime.specs.TimeText.{time_text};
ghost use Rattle.chrono_datetime.specs.Time.{FractionFits, IsTime, TimeOfDay, second_of, time_at};
ghost use Rattle.chrono_datetime.specs.Weekday.{number_from_monday};
ghost use Rattle.chrono_datetime.specs.Weeks.{iso_week_of, iso_year_of, weekday_of};
ghost use Rattle.chrono_datetime.specs.WeekdayText.{weekday_text};
ghost use Rattle.chrono_datetime.specs.declared.Month.{Month};
ghost use Rattle.chrono_datetime.specs.declared.Month.TheVariants.{September};
ghost use Rattle.chrono_datetime.specs.declared.Weekday.{Weekday};
ghost use Rattle.chrono_datetime.specs.declared.Weekday.TheVariants.{Mon, Thu};
ghost use Rattle.chrono_reading.specs.DateErrors.{IsDateError, IsOrdinalDateError, IsWeekDateError, error_at};
ghost use Rattle.chrono_reading.specs.declared.error.ReadError.{ReadError};
ghost use Rattle.chrono_reading.specs.TimeErrors.{IsTimeError};
ghost use Rattle.chrono_reading.specs.declared.error.ReadCause.TheVariants.{DayAbove, MonthAbove12, NotThisForm, OrdinalAbove, WeekAbove};
ghost use Rattle.chrono_reading.specs.DateTimeTexts.{IsDateTimeText, IsSeparator, SameDateTime};
ghost use Rattle.chrono_reading.specs.DurationTexts.{IsDurationText, SameSeconds};
ghost use Rattle.chrono_reading.specs.TimeTexts.{IsTimeText, SameClock};
ghost use Rattle.chrono_reading.specs.DateTexts.{IsDateText, IsOrdinalDateText, IsWeekDateText};
ghost use Rattle.chrono_datetime.specs.Names.{IsMonthText, IsNameText, IsWeekdayText};

use crate::{
    read_date, read_date_time, read_duration, read_month, read_ordinal_date, read_time,
    read_week_date, read_weekday,
};
use chrono_datetime::law::{
    dates_have_one_calendar_name, dates_have_one_iso_name, dates_have_one_ordinal_name, known_days,
    known_weeks,
};
use chrono_datetime::{Datelike, NaiveDate, Weekday};
pub use chrono_text::law::texts_of_a_fraction_differ_in_last_zeros;

/// `{}` prints a text of the weekday, which is read as that weekday.
pub fn printed_weekdays_are_read()
    ensures { (d : Weekday) → IsWeekdayText (weekday_text d) d }
{}

/// The name of a month is a text of it, which is read as that month.
pub fn names_of_months_are_read()
    ensures { (m : Month) → IsMonthText (month_name m) m }
{}

/// A text names at most one weekday.
pub fn texts_have_one_weekday(text: &[u8])
    ensures { (d e : Weekday) → IsWeekdayText text.now d → IsWeekdayText text.now e → d ≡ e }
{
    let _weekday = read_weekday(text);
}

/// A text names at most one month.
pub fn texts_have_one_month(text: &[u8])
    ensures { (m n : Month) → IsMonthText text.now m → IsMonthText text.now n → m ≡ n }
{
    let _month = read_month(text);
}

/// Of two texts of one weekday, one is the other or its first three letters. Their letters may differ in case.
pub fn texts_of_a_weekday_differ_in_case_and_length()
    ensures { (text other : List ℕ) (d : Weekday) → IsWeekdayText text d → IsWeekdayText other d
        → IsNameText text other ⊎ IsNameText other text }
{}

/// Of two texts of one month, one is the other or its first three letters. Their letters may differ in case.
pub fn texts_of_a_month_differ_in_case_and_length()
    ensures { (text other : List ℕ) (m : Month) → IsMonthText text m → IsMonthText other m
        → IsNameText text other ⊎ IsNameText other text }
{}

/// `{}` prints a text of the date, which is read as that date.
pub fn printed_dates_are_read()
    ensures { (n : ℤ) → IsDate n → IsDateText (date_text n) n }
{
    dates_have_one_calendar_name();
}

/// A text is that of at most one date.
pub fn texts_have_one_date(text: &[u8])
    ensures { (n m : ℤ) → IsDateText text.now n → IsDateText text.now m → n ≡ m }
{
    let _date = read_date(text);
}

/// The one text of a date is what `{}` prints of it.
pub fn dates_have_one_text(text: &[u8])
    ensures { (n : ℤ) → IsDateText text.now n → IsDate n × (text.now ≡ date_text n) }
{
    if let Ok(date) = read_date(text) {
        let _number = date.num_days_from_ce();
        dates_have_one_calendar_name();
    }
}

/// A year, `-` and the day of the year in three digits are read as that date.
pub fn ordinal_names_are_read()
    ensures { (n : ℤ) → IsDate n
        → IsOrdinalDateText (ordinal_text (year_of n) (ordinal_of n)) n }
{
    dates_have_one_ordinal_name();
}

/// A text is the ordinal name of at most one date.
pub fn texts_have_one_ordinal_date(text: &[u8])
    ensures { (n m : ℤ) → IsOrdinalDateText text.now n → IsOrdinalDateText text.now m → n ≡ m }
{
    let _date = read_ordinal_date(text);
}

/// The one ordinal name of a date is its year, `-` and its day of the year in three digits.
pub fn dates_have_one_ordinal_text(text: &[u8])
    ensures { (n : ℤ) → IsOrdinalDateText text.now n → IsDate n
        × (text.now ≡ ordinal_text (year_of n) (ordinal_of n)) }
{
    if let Ok(date) = read_ordinal_date(text) {
        let _number = date.num_days_from_ce();
        dates_have_one_ordinal_name();
    }
}

/// The ISO year and week as `{:?}` prints them, `-` and the number of the weekday are read as that date.
pub fn week_names_are_read(date: NaiveDate)
    ensures { IsWeekDateText (week_date_text (iso_year_of date) (iso_week_of date)
        (number_from_monday (weekday_of date))) date }
{
    let _number = date.num_days_from_ce();
    let week = date.iso_week();
    let _year = week.year();
    let _week = week.week();
    dates_have_one_iso_name();
}

/// A text is the week name of at most one date.
pub fn texts_have_one_week_date(text: &[u8])
    ensures { (n m : ℤ) → IsWeekDateText text.now n → IsWeekDateText text.now m → n ≡ m }
{
    let _date = read_week_date(text);
}

/// The one week name of a date is its ISO year and week as `{:?}` prints them, `-` and the number of its weekday.
pub fn dates_have_one_week_text(text: &[u8])
    ensures { (n : ℤ) → IsWeekDateText text.now n → IsDate n
        × (text.now ≡ week_date_text (iso_year_of n) (iso_week_of n)
        (number_from_monday (weekday_of n))) }
{
    if let Ok(date) = read_week_date(text) {
        let _number = date.num_days_from_ce();
        dates_have_one_iso_name();
    }
}

/// `{}` prints a text of the time, which is read as that time. A leap fraction has to stand at second 59.
pub fn printed_times_are_read()
    ensures { (t : TimeOfDay) → IsTime t → FractionFits (second_of t) t.fraction
        → IsTimeText (time_text t) t }
{}

/// A text is that of at most one time of day.
pub fn texts_have_one_time(text: &[u8])
    ensures { (t u : TimeOfDay) → IsTimeText text.now t → IsTimeText text.now u → t ≡ u }
{
    let _time = read_time(text);
}

/// Two texts of one time of day have the same first eight bytes. Behind those they differ only in zeros at the end of the fraction.
pub fn texts_of_a_time_differ_in_last_zeros()
    ensures { (text other : List ℕ) (t : TimeOfDay) → IsTimeText text t → IsTimeText other t
        → SameClock text other }
{}

/// `{}` and `{:?}` print texts of the date-time, with a space and with a `T`. They are read as that date-time. A leap fraction has to stand at second
/// 59.
pub fn printed_date_times_are_read()
    ensures { (m : Moment) (separator : ℕ) → IsDate m.date → IsTime m.time
        → FractionFits (second_of m.time) m.time.fraction → IsSeparator separator
        → IsDateTimeText (moment_text separator m) m }
{
    printed_dates_are_read();
    printed_times_are_read();
}

/// A text is that of at most one date-time.
pub fn texts_have_one_date_time(text: &[u8])
    ensures { (m n : Moment) → IsDateTimeText text.now m → IsDateTimeText text.now n → m ≡ n }
{
    let _date_time = read_date_time(text);
}

/// Two texts of one date-time have the same date, and a `T` or a space each. Their times differ only in zeros at the end of the fraction.
pub fn texts_of_a_date_time_differ_in_separator_and_last_zeros(text: &[u8])
    ensures { (other : List ℕ) (m : Moment) → IsDateTimeText text.now m → IsDateTimeText other m
        → SameDateTime text.now other }
{
    if let Ok(date_time) = read_date_time(text) {
        let _number = date_time.date().num_days_from_ce();
        dates_have_one_calendar_name();
    }
}

/// `{}` prints a text of the duration, which is read as that duration.
pub fn printed_durations_are_read()
    ensures { (x : ℤ) → IsDuration x → IsDurationText (duration_text x) x }
{}

/// A text is that of at most one duration.
pub fn texts_have_one_duration(text: &[u8])
    ensures { (x y : ℤ) → IsDurationText text.now x → IsDurationText text.now y → x ≡ y }
{
    let _duration = read_duration(text);
}

/// Two texts of one duration are the same, or they have the same sign and whole seconds. Then they differ only in zeros at the end of the
/// fraction.
pub fn texts_of_a_duration_differ_in_last_zeros()
    ensures { (text other : List ℕ) (x : ℤ) → IsDurationText text x → IsDurationText other x
        → (text ≡ other) ⊎ SameSeconds text other }
{}

/// Known texts of weekdays and months, and two texts that name none.
pub fn known_texts_of_names()
    ensures any_case { IsWeekdayText (codes "mON") Mon }
    ensures whole { IsWeekdayText (codes "THURSDAY") Thu }
    ensures month { IsMonthText (codes "sep") September }
    ensures whole_month { IsMonthText (codes "SEPTEMBER") September }
    ensures four_letters { (d : Weekday) → ¬ IsWeekdayText (codes "Tues") d }
    ensures two_letters { (m : Month) → ¬ IsMonthText (codes "Ja") m }
{}

/// Known texts of dates:
///
/// - a leap day, by calendar and by ordinal;
/// - a year of five digits, and the day before the year 0;
/// - the first date and the last;
/// - 30 December 2024 in week 1 of 2025, and 3 January 2021 in week 53 of 2020.
///
/// A month of one digit, 29 February 1900 and a year 0 with a sign are invalid.
pub fn known_texts_of_dates()
    ensures leap_day { IsDateText (codes "2024-02-29") (pos 738_945) }
    ensures ordinal { IsOrdinalDateText (codes "2024-060") (pos 738_945) }
    ensures five_digits { IsDateText (codes "+12345-01-01") (pos 4_508_554) }
    ensures before_zero { IsDateText (codes "-0001-12-31") (neg_ℤ (pos 366)) }
    ensures first { IsDateText (codes "-262143-01-01") (neg_ℤ (pos 95_746_129)) }
    ensures last { IsOrdinalDateText (codes "+262142-365") (pos 95_745_399) }
    ensures week_one { IsWeekDateText (codes "2025-W01-1") (pos 739_250) }
    ensures week_53 { IsWeekDateText (codes "2020-W53-7") (pos 737_793) }
    ensures one_digit { (n : ℤ) → ¬ IsDateText (codes "2024-2-29") n }
    ensures no_leap_day { (n : ℤ) → ¬ IsDateText (codes "1900-02-29") n }
    ensures signed_zero { (n : ℤ) → ¬ IsDateText (codes "-0000-01-01") n }
{
    known_days();
    known_weeks();
}

/// Known texts of times of day: midnight with a fraction and without, and leap seconds at the end of a day and in its middle.
///
/// An hour 24, a second 61, an hour of one digit and a point with no digit are invalid.
pub fn known_texts_of_times()
    ensures midnight { IsTimeText (codes "00:00:00") (time_at 0 0 0 0) }
    ensures zeros { IsTimeText (codes "00:00:00.000") (time_at 0 0 0 0) }
    ensures leap { IsTimeText (codes "23:59:60") (time_at 23 59 59 1_000_000_000) }
    ensures half_leap { IsTimeText (codes "23:59:60.5") (time_at 23 59 59 1_500_000_000) }
    ensures any_minute { IsTimeText (codes "12:34:60") (time_at 12 34 59 1_000_000_000) }
    ensures hour_24 { (t : TimeOfDay) → ¬ IsTimeText (codes "24:00:00") t }
    ensures second_61 { (t : TimeOfDay) → ¬ IsTimeText (codes "23:59:61") t }
    ensures one_digit { (t : TimeOfDay) → ¬ IsTimeText (codes "1:02:03") t }
    ensures no_digit { (t : TimeOfDay) → ¬ IsTimeText (codes "01:02:03.") t }
{}

/// Known texts of the leap second after a leap day: with a `T`, and with a space and a fraction. A small `t` is invalid.
pub fn known_texts_of_date_times()
    ensures with_t { IsDateTimeText (codes "2024-02-29T23:59:60")
        (moment (pos 738_945) (time_at 23 59 59 1_000_000_000)) }
    ensures with_space { IsDateTimeText (codes "2024-02-29 23:59:60.5")
        (moment (pos 738_945) (time_at 23 59 59 1_500_000_000)) }
    ensures small_t { (m : Moment) → ¬ IsDateTimeText (codes "2024-02-29t23:59:60") m }
{
    known_texts_of_dates();
    known_texts_of_times();
}

/// Known texts of durations: zero, a second and a half back with a zero at the end and without, and a day.
///
/// Small letters, a `+` and zero in seconds are invalid.
pub fn known_texts_of_durations()
    ensures zero { IsDurationText (codes "P0D") (pos 0) }
    ensures back { IsDurationText (codes "-PT1.5S") (neg_ℤ (pos 1_500_000_000)) }
    ensures zeros { IsDurationText (codes "-PT1.50S") (neg_ℤ (pos 1_500_000_000)) }
    ensures whole { IsDurationText (codes "PT86400S") (pos 86_400_000_000_000) }
    ensures small_letters { (x : ℤ) → ¬ IsDurationText (codes "pt1s") x }
    ensures plus { (x : ℤ) → ¬ IsDurationText (codes "+PT1S") x }
    ensures zero_seconds { (x : ℤ) → ¬ IsDurationText (codes "PT0S") x }
{}

/// Known errors, each with its byte: 29 February 2023, month 13, a month of one digit, day 366 of 2023, and week 53 of 2021.
pub fn known_errors_of_dates()
    ensures day { IsDateError (codes "2023-02-29") (error_at (DayAbove 28) 8) }
    ensures month { IsDateError (codes "2024-13-01") (error_at MonthAbove12 5) }
    ensures one_digit { IsDateError (codes "2024-2-29") (error_at NotThisForm 6) }
    ensures ordinal { IsOrdinalDateError (codes "2023-366") (error_at (OrdinalAbove 365) 5) }
    ensures week_53 { IsWeekDateError (codes "2021-W53-1") (error_at (WeekAbove 52) 6) }
{
    known_weeks();
    let _date = NaiveDate::from_isoywd_opt(2021, 53, Weekday::Mon);
}

/// A text has at most one error as a date, as an ordinal date, as a week date and as a time of day.
pub fn texts_have_one_error(text: &[u8])
    ensures date { (a b : ReadError) → IsDateError text.now a → IsDateError text.now b → a ≡ b }
    ensures ordinal_date { (a b : ReadError) → IsOrdinalDateError text.now a → IsOrdinalDateError text.now b → a ≡ b }
    ensures week_date { (a b : ReadError) → IsWeekDateError text.now a → IsWeekDateError text.now b → a ≡ b }
    ensures time { (a b : ReadError) → IsTimeError text.now a → IsTimeError text.now b → a ≡ b }
{}
