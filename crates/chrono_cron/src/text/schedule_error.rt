//! `ScheduleError`: what is wrong with a text that writes no schedule, and where.
ghost use Rattle.std.specs.Prelude.{◌≡◌, Some};
ghost use Rattle.chrono_cron.specs.ErrorTexts.{schedule_error_text, schedule_fault_text, field_in_front};

use std::fmt;

/// One of the five fields of a schedule.
#[derive(Clone, Copy, PartialEq, Eq, Debug)]
pub enum ScheduleField {
    /// The first field: minutes past the hour.
    Minute,
    /// The second field: hours.
    Hour,
    /// The third field: days of the month.
    Day,
    /// The fourth field: months.
    Month,
    /// The fifth field: weekdays.
    Weekday,
}

/// What is wrong with a string that is no schedule.
#[derive(Clone, Copy, PartialEq, Eq, Debug)]
pub enum ScheduleFault {
    /// Something is missing: the string is blank, or an item, a number or a step in a field is empty.
    Empty,
    /// The string has fewer than five fields.
    TooFewFields,
    /// The string has more than five fields.
    TooManyFields,
    /// The string is one word that begins with `@`, but no nickname such as `@daily`.
    UnknownNickname,
    /// The first word is `@every`. A schedule has times of a day, and no intervals.
    Interval,
    /// The first word is `@reboot`. A schedule has times of a day, and no start of a machine.
    Reboot,
    /// The string begins with a time zone, such as `TZ=UTC`. No schedule has one.
    TimeZone,
    /// The letters are no name of a month or a weekday that the field takes.
    UnknownName,
    /// The letters begin with a name and go on, such as `monday`. A name has three letters.
    LongName,
    /// The item is neither a number of one or two digits nor letters.
    NotANumber,
    /// The number or the name is not one of the field's.
    OutOfRange,
    /// The range ends below its beginning, such as `5-3`.
    RangeTurnedRound,
    /// The step is 0.
    StepOfZero,
    /// The step follows a single number. A step may only follow `*` or a range.
    StepOfNumber,
}

/// What is wrong with a string that is no schedule, and where. If several things are wrong, this is the first.
///
/// ```
/// let error = read_schedule(b"5,60 * * * *").err()?;
/// (error.field, error.byte, error.fault) // (Some(Minute), 2, OutOfRange)
/// error.to_string(rt.alloc()).ok()? // "minute, byte 2: a number that is out of range"
/// ```
#[derive(Clone, Copy, PartialEq, Eq, Debug)]
pub struct ScheduleError {
    /// The first field that cannot be read. `None` if there are not five fields.
    pub field: Option<ScheduleField>,
    /// The position of the error in the string, in bytes from 0.
    ///
    /// In a field it is where the wrong number, name or step begins. For [`StepOfNumber`](ScheduleFault::StepOfNumber) it is the slash. Without a
    /// field it is where the sixth field or the unknown nickname begins. If something is missing at the end, it is the string's length.
    pub byte: usize,
    /// What is wrong at that byte.
    pub fault: ScheduleFault,
}

impl fmt::Display for ScheduleError {
    ghost output = { λ error. Some (schedule_error_text error) };

    /// Writes one line, such as `minute, byte 2: a number that is out of range`. Without a field it is such as `byte 9: too few fields`.
    fn fmt<W: fmt::Write>(&self, f: &mut fmt::Formatter<W>) -> fmt::Result {
        let field = field_in_front(self.field);
        let fault = schedule_fault_text(self.fault);
        write!(f, "{field}byte {}: {fault}", self.byte)
    }
}

// The field, as it stands in front of a fault, and nothing where none is told.
#[tactic(auto, unfolding(crate::specs::ErrorTexts::field_in_front))]
fn field_in_front(field: Option<ScheduleField>) -> &'static str
    ensures { result.now ≡ field_in_front field }
{
    match field {
        None => "",
        Some(ScheduleField::Minute) => "minute, ",
        Some(ScheduleField::Hour) => "hour, ",
        Some(ScheduleField::Day) => "day of the month, ",
        Some(ScheduleField::Month) => "month, ",
        Some(ScheduleField::Weekday) => "weekday, ",
    }
}

// What is wrong.
#[tactic(auto, unfolding(crate::specs::ErrorTexts::schedule_fault_text))]
fn schedule_fault_text(fault: ScheduleFault) -> &'static str
    ensures { result.now ≡ schedule_fault_text fault }
{
    match fault {
        ScheduleFault::Empty => "nothing stands there",
        ScheduleFault::TooFewFields => "too few fields",
        ScheduleFault::TooManyFields => "too many fields",
        ScheduleFault::UnknownNickname => "an unknown nickname",
        ScheduleFault::Interval => "an interval, which is no schedule",
        ScheduleFault::Reboot => "the start of a machine, which is no schedule",
        ScheduleFault::TimeZone => "a time zone, which no schedule has",
        ScheduleFault::UnknownName => "an unknown name",
        ScheduleFault::LongName => "a name of more than three letters",
        ScheduleFault::NotANumber => "no number of one digit or two",
        ScheduleFault::OutOfRange => "a number that is out of range",
        ScheduleFault::RangeTurnedRound => "a range whose end is below its beginning",
        ScheduleFault::StepOfZero => "a step of 0",
        ScheduleFault::StepOfNumber => "a step behind a number alone",
    }
}
