//! The numbers of the fields of robfig/cron.
ghost use Rattle.std.specs.Prelude.{◌≡◌, ◌<◌, ◌≤◌};
ghost use Rattle.timed_cron.specs.Private.{IsForm};
ghost use Rattle.timed_cron.specs.RobfigTexts.{robfig_form};

use crate::field_form::{FieldForm, FieldNames};

// A field of numbers with these names.
pub(crate) fn robfig_form(names: FieldNames, low: u32, high: u32) -> FieldForm
    requires order { low ≤ high }
    requires small { high < 64 }
    ensures value { result ≡ robfig_form names low high }
    ensures form { IsForm result }
{
    FieldForm {
        names,
        digits: 2,
        low,
        high,
        base: 0,
        wraps: false,
        marks: true,
    }
}
