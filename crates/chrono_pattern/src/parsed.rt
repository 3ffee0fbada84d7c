//! `Parsed`: the numbers that a text gives, by the fields that they are of.
ghost use Rattle.std.specs.Prelude.{◌≡◌, Ok, Err, IfErr, IfOk};
ghost use Rattle.chrono_pattern.specs.Parts.{no_parts, part_of, put, put_stamp, part_range, with_part, with_stamp};

use crate::error::ReadFault;

// The first and the last second of the dates, from 1 January 1970.
const FIRST_SECOND: i64 = -8_334_601_228_800;

const LAST_SECOND: i64 = 8_210_266_876_799;

// A field of a date-time.
#[derive(Clone, Copy)]
pub(crate) enum Part {
    FullYear,
    YearDiv100,
    YearMod100,
    FullIsoYear,
    IsoYearMod100,
    QuarterOfYear,
    MonthOfYear,
    WeekOfIsoYear,
    WeekFromSun,
    WeekFromMon,
    DayOfWeek,
    OrdinalDay,
    DayOfMonth,
    HourDiv12,
    HourMod12,
    MinuteOfHour,
    SecondOfMinute,
    NanosecondOfSecond,
    OffsetFromUtc,
}

/// The numbers that a text gives of a date-time. A field that it does not give is `None`.
///
/// ```
/// let parsed = Pattern::new(b"%d.%m.").ok()?.read_parts(b"29.02.").ok()?;
/// parsed.day // Some(29)
/// ```
#[derive(Clone, Copy, Debug, PartialEq, Eq)]
pub struct Parsed {
    /// The year.
    pub year: Option<i32>,
    /// The century: the year divided by 100.
    pub year_div_100: Option<i32>,
    /// The year of the century.
    pub year_mod_100: Option<i32>,
    /// The ISO year.
    pub isoyear: Option<i32>,
    /// The year of the century of the ISO year.
    pub isoyear_mod_100: Option<i32>,
    /// The quarter of the year, from 1.
    pub quarter: Option<i32>,
    /// The month, from 1.
    pub month: Option<i32>,
    /// The ISO week, from 1.
    pub isoweek: Option<i32>,
    /// The week of the year that begins on Sunday, from 0.
    pub week_from_sun: Option<i32>,
    /// The week of the year that begins on Monday, from 0.
    pub week_from_mon: Option<i32>,
    /// The weekday, from 1 for Monday.
    pub weekday: Option<i32>,
    /// The day of the year, from 1.
    pub ordinal: Option<i32>,
    /// The day of the month, from 1.
    pub day: Option<i32>,
    /// The half of the day: 0 before noon, and 1 from noon on.
    pub hour_div_12: Option<i32>,
    /// The hour of the half day, from 0.
    pub hour_mod_12: Option<i32>,
    /// The minute.
    pub minute: Option<i32>,
    /// The second, 60 in a leap second.
    pub second: Option<i32>,
    /// The nanoseconds past the second.
    pub nanosecond: Option<i32>,
    /// The seconds by which local time is ahead of UTC.
    pub offset: Option<i32>,
    /// The seconds from 1 January 1970, 00:00:00 UTC.
    pub timestamp: Option<i64>,
}

impl Parsed {
    /// Returns the parts of a text that gives none.
    ///
    /// ```
    /// Parsed::new().year // None
    /// ```
    pub fn new() -> Parsed
        ensures { result ≡ no_parts }
    {
        Parsed {
            year: None,
            year_div_100: None,
            year_mod_100: None,
            isoyear: None,
            isoyear_mod_100: None,
            quarter: None,
            month: None,
            isoweek: None,
            week_from_sun: None,
            week_from_mon: None,
            weekday: None,
            ordinal: None,
            day: None,
            hour_div_12: None,
            hour_mod_12: None,
            minute: None,
            second: None,
            nanosecond: None,
            offset: None,
            timestamp: None,
        }
    }

    // A part, if it is given.
    #[inline(always)]
    fn part(&self, part: Part) -> Option<i32>
        ensures { result ≡ part_of part self.now }
    {
        match part {
            Part::FullYear => self.year,
            Part::YearDiv100 => self.year_div_100,
            Part::YearMod100 => self.year_mod_100,
            Part::FullIsoYear => self.isoyear,
            Part::IsoYearMod100 => self.isoyear_mod_100,
            Part::QuarterOfYear => self.quarter,
            Part::MonthOfYear => self.month,
            Part::WeekOfIsoYear => self.isoweek,
            Part::WeekFromSun => self.week_from_sun,
            Part::WeekFromMon => self.week_from_mon,
            Part::DayOfWeek => self.weekday,
            Part::OrdinalDay => self.ordinal,
            Part::DayOfMonth => self.day,
            Part::HourDiv12 => self.hour_div_12,
            Part::HourMod12 => self.hour_mod_12,
            Part::MinuteOfHour => self.minute,
            Part::SecondOfMinute => self.second,
            Part::NanosecondOfSecond => self.nanosecond,
            Part::OffsetFromUtc => self.offset,
        }
    }

    // Gives a part another value.
    #[inline(always)]
    pub(crate) fn set(&mut self, part: Part, value: i32)
        ensures { self.new ≡ with_part part value self.old }
    {
        let value = Some(value);
        match part {
            Part::FullYear => self.year = value,
            Part::YearDiv100 => self.year_div_100 = value,
            Part::YearMod100 => self.year_mod_100 = value,
            Part::FullIsoYear => self.isoyear = value,
            Part::IsoYearMod100 => self.isoyear_mod_100 = value,
            Part::QuarterOfYear => self.quarter = value,
            Part::MonthOfYear => self.month = value,
            Part::WeekOfIsoYear => self.isoweek = value,
            Part::WeekFromSun => self.week_from_sun = value,
            Part::WeekFromMon => self.week_from_mon = value,
            Part::DayOfWeek => self.weekday = value,
            Part::OrdinalDay => self.ordinal = value,
            Part::DayOfMonth => self.day = value,
            Part::HourDiv12 => self.hour_div_12 = value,
            Part::HourMod12 => self.hour_mod_12 = value,
            Part::MinuteOfHour => self.minute = value,
            Part::SecondOfMinute => self.second = value,
            Part::NanosecondOfSecond => self.nanosecond = value,
            Part::OffsetFromUtc => self.offset = value,
        }
    }

    // Gives one part more. A part has its range, and is given the same in all places.
    #[inline(always)]
    #[tactic(auto, unfolding(crate::specs::Parts::put))]
    pub(crate) fn put(&mut self, part: Part, value: i32) -> Result<(), ReadFault>
        ensures put { IfOk result (λ u. put part value self.old ≡ Ok self.new) }
        ensures refused { IfErr result (λ cause. put part value self.old ≡ Err cause) }
    {
        let (least, most) = part_range(part);
        if value < least {
            return Err(ReadFault::OutOfRange);
        }
        if most < value {
            return Err(ReadFault::OutOfRange);
        }
        match self.part(part) {
            None => {
                self.set(part, value);
                Ok(())
            }
            Some(before) => {
                if before == value {
                    Ok(())
                } else {
                    Err(ReadFault::Impossible)
                }
            }
        }
    }

    // Gives the seconds from 1970 another value.
    pub(crate) fn set_stamp(&mut self, value: i64)
        ensures { self.new ≡ with_stamp value self.old }
    {
        self.timestamp = Some(value);
    }

    // Gives the seconds from 1970. Some date has the second, and all places give the same.
    #[tactic(auto, unfolding(crate::specs::Parts::put_stamp))]
    pub(crate) fn put_stamp(&mut self, value: i64) -> Result<(), ReadFault>
        ensures put { IfOk result (λ u. put_stamp value self.old ≡ Ok self.new) }
        ensures refused { IfErr result (λ cause. put_stamp value self.old ≡ Err cause) }
    {
        if value < FIRST_SECOND {
            return Err(ReadFault::OutOfRange);
        }
        if LAST_SECOND < value {
            return Err(ReadFault::OutOfRange);
        }
        match self.timestamp {
            None => {
                self.set_stamp(value);
                Ok(())
            }
            Some(given) => {
                if given == value {
                    Ok(())
                } else {
                    Err(ReadFault::Impossible)
                }
            }
        }
    }
}

// The least and the greatest value of a part that a text may give.
#[inline(always)]
fn part_range(part: Part) -> (i32, i32)
    ensures { result ≡ part_range part }
{
    match part {
        Part::FullYear | Part::FullIsoYear => (-999_999_999, 999_999_999),
        Part::YearDiv100 | Part::YearMod100 | Part::IsoYearMod100 => (0, 99),
        Part::QuarterOfYear => (1, 4),
        Part::MonthOfYear => (1, 12),
        Part::WeekOfIsoYear => (1, 53),
        Part::WeekFromSun | Part::WeekFromMon => (0, 53),
        Part::DayOfWeek => (1, 7),
        Part::OrdinalDay => (1, 366),
        Part::DayOfMonth => (1, 31),
        Part::HourDiv12 => (0, 1),
        Part::HourMod12 => (0, 11),
        Part::MinuteOfHour => (0, 59),
        Part::SecondOfMinute => (0, 60),
        Part::NanosecondOfSecond => (0, 999_999_999),
        Part::OffsetFromUtc => (-86_399, 86_399),
    }
}
