//! `ZoneTextError`: why a text writes no rule, and at which byte.
ghost use Rattle.std.specs.Prelude.{◌≡◌};
ghost use Rattle.zone_text.specs.declared.error.ZoneTextFault.{ZoneTextFault};

/// What is wrong with a text that writes no rule.
#[derive(Clone, Copy, Debug, PartialEq, Eq)]
pub enum ZoneTextFault {
    /// No name stands there: three letters or more, or in angle brackets letters, digits and signs.
    NoName,
    /// No offset stands there: a sign or none, hours up to 167, and minutes and seconds up to 59.
    NoOffset,
    /// The offset is of a day or more, which a [`FixedOffset`](zone_rule::FixedOffset) cannot be.
    OffsetOfDay,
    /// Daylight time has a name, but not the days on which it begins and ends. POSIX leaves these to the system.
    NoDays,
    /// No day and time stand there at which the clock is set.
    NoChange,
}

/// Why a text writes no rule, and where.
///
/// ```
/// read(b"EST5EDT").err() // Some(ZoneTextError { fault: NoDays, byte: 7 })
/// read(b"EST5EDT,M3.2.0,M13.1.0").err() // Some(ZoneTextError { fault: NoChange, byte: 15 })
/// ```
#[derive(Clone, Copy, Debug, PartialEq, Eq)]
pub struct ZoneTextError {
    /// What is wrong.
    pub fault: ZoneTextFault,
    /// Where the part that is wrong begins, in bytes from 0, or the text's length if something is missing.
    pub byte: usize,
}

// The fault at a byte.
pub(crate) fn error_at(fault: ZoneTextFault, byte: usize) -> ZoneTextError
    ensures { result.byte ≡ byte }
{
    ZoneTextError { fault, byte }
}
