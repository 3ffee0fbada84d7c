//! Rows of texts that are no schedule's: `error text = field byte fault`, with `none` for the field where there are not five.
use chrono_cron::{Schedule, ScheduleError, ScheduleFault, ScheduleField};

// Whether the text is refused for the fault behind it; `none` is for a text that is read.
pub fn is_refused(text: &str, expected: &str) -> bool {
    match text.parse::<Schedule>() {
        Ok(_) => expected == "none",
        Err(error) => is_told(&error, expected),
    }
}

// Whether the error is the one that the row tells.
fn is_told(error: &ScheduleError, expected: &str) -> bool {
    let Some((field, rest)) = expected.split_once(' ') else {
        return false;
    };
    let Some((byte, fault)) = rest.split_once(' ') else {
        return false;
    };
    field == field_name(error.field)
        && byte.parse() == Ok(error.byte)
        && fault == fault_name(error.fault)
}

fn field_name(field: Option<ScheduleField>) -> &'static str {
    match field {
        None => "none",
        Some(ScheduleField::Minute) => "minute",
        Some(ScheduleField::Hour) => "hour",
        Some(ScheduleField::Day) => "day",
        Some(ScheduleField::Month) => "month",
        Some(ScheduleField::Weekday) => "weekday",
    }
}

fn fault_name(fault: ScheduleFault) -> &'static str {
    match fault {
        ScheduleFault::Empty => "empty",
        ScheduleFault::TooFewFields => "few",
        ScheduleFault::TooManyFields => "many",
        ScheduleFault::UnknownNickname => "nickname",
        ScheduleFault::Interval => "every",
        ScheduleFault::Reboot => "reboot",
        ScheduleFault::TimeZone => "zone",
        ScheduleFault::UnknownName => "name",
        ScheduleFault::LongName => "long",
        ScheduleFault::NotANumber => "number",
        ScheduleFault::OutOfRange => "range",
        ScheduleFault::RangeTurnedRound => "turned",
        ScheduleFault::StepOfZero => "zero",
        ScheduleFault::StepOfNumber => "step",
    }
}
