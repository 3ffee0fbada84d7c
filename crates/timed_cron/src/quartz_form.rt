//! The numbers of the fields of Quartz.
ghost use Rattle.std.specs.Prelude.{◌≡◌, ◌<◌, ◌≤◌};
ghost use Rattle.timed_cron.specs.Private.{IsForm};
ghost use Rattle.timed_cron.specs.QuartzTexts.{months_form, plain_form, weekdays_form, years_form};

use crate::field_form::{FieldForm, FieldNames};

// A field of numbers without names.
pub(crate) fn plain(low: u32, high: u32) -> FieldForm
    requires order { low ≤ high }
    requires small { high < 64 }
    ensures value { result ≡ plain_form low high }
    ensures form { IsForm result }
{
    FieldForm {
        names: FieldNames::Nothing,
        digits: 2,
        low,
        high,
        base: 0,
        wraps: true,
        marks: false,
    }
}

// The days of the month.
pub(crate) fn days() -> FieldForm
    ensures value { result ≡ plain_form 1 31 }
    ensures form { IsForm result }
{
    plain(1, 31)
}

// The months.
pub(crate) fn months() -> FieldForm
    ensures value { result ≡ months_form }
    ensures form { IsForm result }
{
    FieldForm {
        names: FieldNames::Months,
        digits: 2,
        low: 1,
        high: 12,
        base: 0,
        wraps: true,
        marks: false,
    }
}

// The weekdays, from 1 for Sunday.
pub(crate) fn weekdays() -> FieldForm
    ensures value { result ≡ weekdays_form }
    ensures form { IsForm result }
{
    FieldForm {
        names: FieldNames::Weekdays,
        digits: 2,
        low: 1,
        high: 7,
        base: 1,
        wraps: true,
        marks: false,
    }
}

// The years.
pub(crate) fn years() -> FieldForm
    ensures value { result ≡ years_form }
    ensures form { IsForm result }
{
    FieldForm {
        names: FieldNames::Nothing,
        digits: 4,
        low: 1_970,
        high: 2_099,
        base: 1_970,
        wraps: false,
        marks: false,
    }
}
