//! What is wrong with a text that is no schedule, as numbers.
ghost use Rattle.std.specs.Prelude.{◌≡◌, ◌≤◌, Some, length};
ghost use Rattle.std.specs.Option.{option_map};
ghost use Rattle.layers_c.specs.Faults.{IsPartEnd, numbered};
ghost use Rattle.layers_c.specs.Schedules.{schedule_error_from_c, schedule_faults, schedule_fields};

use crate::faults::CalendarFault;
use crate::part_end::part_end;
use chrono_cron::{ScheduleError, ScheduleFault, ScheduleField};

// What can be wrong, in the order of its numbers.
const FAULTS: [ScheduleFault; 14] = [
    ScheduleFault::Empty,
    ScheduleFault::TooFewFields,
    ScheduleFault::TooManyFields,
    ScheduleFault::UnknownNickname,
    ScheduleFault::Interval,
    ScheduleFault::Reboot,
    ScheduleFault::TimeZone,
    ScheduleFault::UnknownName,
    ScheduleFault::LongName,
    ScheduleFault::NotANumber,
    ScheduleFault::OutOfRange,
    ScheduleFault::RangeTurnedRound,
    ScheduleFault::StepOfZero,
    ScheduleFault::StepOfNumber,
];

// The fields, in the order of their numbers.
const FIELDS: [ScheduleField; 5] = [
    ScheduleField::Minute,
    ScheduleField::Hour,
    ScheduleField::Day,
    ScheduleField::Month,
    ScheduleField::Weekday,
];

// The numbers of what is wrong with a text.
#[tactic(auto, unfolding(crate::specs::Schedules::schedule_error_from_c))]
pub(crate) fn fault_of(text: &[u8], error: ScheduleError) -> CalendarFault
    requires { error.byte ≤ length text.now }
    ensures fault { schedule_error_from_c result ≡ Some error }
    ensures end { IsPartEnd text.now result.byte result.end }
{
    CalendarFault {
        code: fault_number(error.fault),
        field: field_number_or_zero(error.field),
        byte: error.byte,
        end: part_end(text, error.byte),
    }
}

// What is wrong by its numbers.
#[tactic(auto, unfolding(crate::specs::Schedules::schedule_error_from_c))]
pub(crate) fn error_of(fault: &CalendarFault) -> Option<ScheduleError>
    ensures { result ≡ schedule_error_from_c fault.now }
{
    match fault_numbered(fault.code) {
        Some(cause) => Some(ScheduleError {
            field: field_numbered(fault.field),
            byte: fault.byte,
            fault: cause,
        }),
        None => None,
    }
}

// The fault with a number.
#[tactic(auto, using(crate::proofs::Numbered::numbered_past, crate::proofs::Numbered::numbered_within))]
pub(crate) fn fault_numbered(number: u32) -> Option<ScheduleFault>
    ensures { result ≡ numbered schedule_faults number }
{
    if number == 0 {
        return None;
    }
    let place = (number - 1) as usize;
    if place >= FAULTS.len() {
        return None;
    }
    Some(FAULTS[place])
}

// The field with a number.
fn field_numbered(number: u32) -> Option<ScheduleField>
    ensures { result ≡ numbered schedule_fields number }
{
    if number == 0 {
        return None;
    }
    FIELDS.get((number - 1) as usize).copied()
}

// The number of a fault.
pub(crate) fn fault_number(fault: ScheduleFault) -> u32
    ensures { numbered schedule_faults result ≡ Some fault }
{
    match fault {
        ScheduleFault::Empty => 1,
        ScheduleFault::TooFewFields => 2,
        ScheduleFault::TooManyFields => 3,
        ScheduleFault::UnknownNickname => 4,
        ScheduleFault::Interval => 5,
        ScheduleFault::Reboot => 6,
        ScheduleFault::TimeZone => 7,
        ScheduleFault::UnknownName => 8,
        ScheduleFault::LongName => 9,
        ScheduleFault::NotANumber => 10,
        ScheduleFault::OutOfRange => 11,
        ScheduleFault::RangeTurnedRound => 12,
        ScheduleFault::StepOfZero => 13,
        ScheduleFault::StepOfNumber => 14,
    }
}

// The number of a field, or 0 if there is none.
fn field_number_or_zero(field: Option<ScheduleField>) -> u32
    ensures { numbered schedule_fields result ≡ field }
{
    match field {
        None => 0,
        Some(ScheduleField::Minute) => 1,
        Some(ScheduleField::Hour) => 2,
        Some(ScheduleField::Day) => 3,
        Some(ScheduleField::Month) => 4,
        Some(ScheduleField::Weekday) => 5,
    }
}
