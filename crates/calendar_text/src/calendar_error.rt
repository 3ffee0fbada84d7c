//! `CalendarTextError`: what is wrong with a text of a calendar, and where.
ghost use Rattle.std.specs.Prelude.{◌≡◌, ◌+◌, ◌^◌, ◌<◌};

/// What is wrong with a text of a calendar.
#[derive(Clone, Copy, PartialEq, Eq, Debug)]
pub enum CalendarTextFault {
    /// The line has no colon.
    NoColon,
    /// The line begins with none of the names DTSTART, RRULE, RDATE and EXDATE.
    UnknownProperty,
    /// A second DTSTART or RRULE.
    PropertyTwice,
    /// No line is DTSTART.
    NoStart,
    /// The parameter is neither TZID nor VALUE. RRULE has none.
    UnknownParameter,
    /// The parameter occurs more than once in the line.
    ParameterTwice,
    /// The name of a zone is empty, or has a byte that no name has.
    NotAZoneName,
    /// VALUE is neither DATE nor DATE-TIME.
    UnknownValueType,
    /// TZID does not go with VALUE=DATE.
    ZoneOfDate,
    /// The text is no date and no date-time, or there is no such date or time of day.
    NotATime,
    /// The time is of another kind than the line's parameters say.
    OtherKind,
    /// A local time of a list is not in the zone of DTSTART.
    OtherZone,
    /// The rule is empty, or has a byte that no rule has.
    NotARule,
}

/// What is wrong with a text of a calendar, and where.
#[derive(Clone, Copy, PartialEq, Eq, Debug)]
pub struct CalendarTextError {
    /// The position in the text, in bytes from 0.
    pub byte: usize,
    /// What is wrong there.
    pub fault: CalendarTextFault,
}

impl CalendarTextError {
    // The error of a text that begins so many bytes behind the beginning of another.
    pub(crate) fn behind(self, bytes: usize) -> CalendarTextError
        requires { bytes + self.byte < 2 ^ 64 }
        ensures { result ≡ record { byte = bytes + self.byte; fault = self.fault } }
    {
        CalendarTextError {
            byte: bytes + self.byte,
            fault: self.fault,
        }
    }
}

// The error at a byte.
pub(crate) fn error_at(byte: usize, fault: CalendarTextFault) -> CalendarTextError
    ensures { result ≡ record { byte = byte; fault = fault } }
{
    CalendarTextError { byte, fault }
}
