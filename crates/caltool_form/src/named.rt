//! The times of day and durations that the numbers of a command give.
ghost use Rattle.std.specs.Prelude.{◌≡◌};
ghost use Rattle.caltool_form.specs.Named.{time_named as the_time, duration_named as the_duration};

use caltool_command::ClockTime;
use chrono_clock::{NaiveTime, TimeDelta};

// The time of an hour, a minute, a second and nanoseconds.
#[inline]
pub(crate) fn time_named(time: ClockTime) -> Option<NaiveTime>
    ensures { result ≡ the_time time }
{
    NaiveTime::from_hms_nano_opt(time.hour, time.minute, time.second, time.nanosecond)
}

// The duration of seconds and nanoseconds.
#[inline]
pub(crate) fn duration_named(seconds: i64, nanoseconds: u32) -> Option<TimeDelta>
    ensures { result ≡ the_duration seconds nanoseconds }
{
    TimeDelta::new(seconds, nanoseconds)
}
