//! `TimedError`: what is wrong with a text that is no schedule of its dialect, and where.
ghost use Rattle.std.specs.Prelude.{Some};
ghost use Rattle.timed_cron.specs.TimedErrors.{timed_error_text};

use chrono_cron::ScheduleError;
use std::fmt;

/// What is wrong with a string that is no schedule of its dialect.
///
/// `byte` of the error counts from 0 in the whole string, in each case.
///
/// ```
/// let error = read_timed_schedule(Dialect::Seconds, b"0,60 * * * * *").err()?;
/// matches!(error, TimedError::Seconds(_)) // true
/// error.to_string(rt.alloc()).ok()? // "second, byte 2: a number that is out of range"
/// ```
#[derive(Clone, Copy, PartialEq, Eq, Debug)]
pub enum TimedError {
    /// The field of seconds cannot be read. `field` of the error is `None`, since this is none of the five.
    Seconds(ScheduleError),
    /// The five fields behind the seconds or the nickname cannot be read, or the string has other fields than these.
    /// `TooFewFields` and `TooManyFields` speak of the five fields. So `* * * * *` has too few of them where seconds stand in front.
    Fields(ScheduleError),
    /// In [`Quartz`](crate::Dialect::Quartz), neither field of days is `?`, or both are. The number is the byte where the weekday begins.
    QuestionMarks(usize),
    /// The field of years cannot be read. `field` of the error is `None`, since this is none of the five.
    Years(ScheduleError),
}

impl fmt::Display for TimedError {
    ghost output = { λ error. Some (timed_error_text error) };

    /// Writes one line, such as `second, byte 2: a number that is out of range`. Without seconds it is that of the [`ScheduleError`].
    fn fmt<W: fmt::Write>(&self, f: &mut fmt::Formatter<W>) -> fmt::Result {
        match self {
            TimedError::Seconds(error) => write!(f, "second, {error}"),
            TimedError::Fields(error) => write!(f, "{error}"),
            TimedError::QuestionMarks(byte) => {
                write!(f, "weekday, byte {byte}: not just one field of days is ?")
            }
            TimedError::Years(error) => write!(f, "year, {error}"),
        }
    }
}
