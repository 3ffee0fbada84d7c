//! What a fault of a schedule says, in one line. It is the text of `Display` for `ScheduleError`, and here it cannot fail.
ghost use Rattle.std.specs.Prelude.{◌≡◌, ◌≤◌, length};
ghost use Rattle.chrono_cron.specs.ErrorTexts.{field_in_front, schedule_error_text, schedule_fault_text};

use chrono_cron::{ScheduleError, ScheduleFault, ScheduleField};
use chrono_text::Text;
use itoa::Buffer;

// No line is longer.
const LONGEST: usize = 99;

// The field, if there is one, the byte, and what is wrong there.
#[tactic(auto, unfolding(chrono_cron::specs::ErrorTexts::schedule_error_text))]
pub(crate) fn schedule_line(error: ScheduleError) -> Text<LONGEST>
    ensures { result ≡ schedule_error_text error }
{
    let mut digits = Buffer::new();
    let mut line = Text::<LONGEST>::new();
    line.push_text(field_in_front(error.field).as_bytes());
    line.push_text(b"byte ");
    line.push_text(digits.format(error.byte).as_bytes());
    line.push_text(b": ");
    line.push_text(words_of(error.fault).as_bytes());
    line
}

// The field, as it stands in front of a fault, and nothing where none is told.
#[tactic(auto, unfolding(chrono_cron::specs::ErrorTexts::field_in_front))]
fn field_in_front(field: Option<ScheduleField>) -> &'static str
    ensures field { result.now ≡ field_in_front field }
    ensures short { length result.now ≤ 18 }
{
    match field {
        None => "",
        Some(ScheduleField::Minute) => "minute, ",
        Some(ScheduleField::Hour) => "hour, ",
        Some(ScheduleField::Day) => "day of the month, ",
        Some(ScheduleField::Month) => "month, ",
        Some(ScheduleField::Weekday) => "weekday, ",
    }
}

// What is wrong.
#[tactic(auto, unfolding(chrono_cron::specs::ErrorTexts::schedule_fault_text))]
fn words_of(fault: ScheduleFault) -> &'static str
    ensures words { result.now ≡ schedule_fault_text fault }
    ensures short { length result.now ≤ 54 }
{
    match fault {
        ScheduleFault::Empty => "nothing stands there",
        ScheduleFault::TooFewFields => "too few fields",
        ScheduleFault::TooManyFields => "too many fields",
        ScheduleFault::UnknownNickname => "an unknown nickname",
        ScheduleFault::Interval => "an interval, which is no schedule",
        ScheduleFault::Reboot => "the start of a machine, which is no schedule",
        ScheduleFault::TimeZone => "a time zone, which no schedule has",
        ScheduleFault::UnknownName => "an unknown name",
        ScheduleFault::LongName => "a name of more than three letters",
        ScheduleFault::NotANumber => "no number of one digit or two",
        ScheduleFault::OutOfRange => "a number that is out of range",
        ScheduleFault::RangeTurnedRound => "a range whose end is below its beginning",
        ScheduleFault::StepOfZero => "a step of 0",
        ScheduleFault::StepOfNumber => "a step behind a number alone",
    }
}
