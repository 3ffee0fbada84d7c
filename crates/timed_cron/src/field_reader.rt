//! The reading of one of the five fields of a text, and its errors.
ghost use Rattle.std.specs.Prelude.{◌≡◌, ◌+◌, ◌<◌, ◌≤◌, ◌^◌, length, IfErr, Some};
ghost use Rattle.chrono_cron.specs.ScheduleErrors.{schedule_error_at};
ghost use Rattle.timed_cron.specs.DialectFields.{numbers_read};
ghost use Rattle.timed_cron.specs.DialectTexts.{in_field};
ghost use Rattle.timed_cron.specs.Private.{IsForm, IsWordOf, bytes_of};
ghost use Rattle.timed_cron.specs.TimedErrors.{error_byte};
ghost use Rattle.timed_cron.specs.declared.timed_error.TimedError.TheVariants.{Fields as InFields};

use crate::dialect_field::{FieldFault, read_items};
use crate::field_form::FieldForm;
use crate::timed_error::TimedError;
use crate::words::{Ends, word};
use chrono_cron::{ScheduleError, ScheduleField};
use chrono_sets::NumberSet;

// The numbers that a word lists as one of the five fields.
pub(crate) fn read_field(
    text: &[u8],
    ends: Ends,
    form: FieldForm,
    field: ScheduleField,
) -> Result<NumberSet, TimedError>
    requires word { IsWordOf text.now ends }
    requires form { IsForm form }
    requires places { form.high < form.base + 64 }
    ensures read { result ≡ in_field field ends.place (numbers_read form (bytes_of text.now ends.place ends.end)) }
    ensures byte { IfErr result (λ e. error_byte e ≤ length text.now) }
{
    match read_items(word(text, ends), form, NumberSet::none()) {
        Ok(numbers) => Ok(numbers),
        Err(fault) => Err(field_error(ends, field, fault)),
    }
}

// The error of one of the five fields.
pub(crate) fn field_error(word: Ends, field: ScheduleField, fault: FieldFault) -> TimedError
    requires { word.place + fault.0 < 2 ^ 64 }
    ensures { result ≡ InFields (schedule_error_at (Some field) (word.place + fault.0, fault.1)) }
{
    TimedError::Fields(error_at(word, Some(field), fault))
}

// The error of a field, by the place of its word.
pub(crate) fn error_at(word: Ends, field: Option<ScheduleField>, fault: FieldFault) -> ScheduleError
    requires { word.place + fault.0 < 2 ^ 64 }
    ensures { result ≡ schedule_error_at field (word.place + fault.0, fault.1) }
{
    ScheduleError {
        field,
        byte: word.place + fault.0,
        fault: fault.1,
    }
}
