//! `PatternError` and `PatternReadError`: why bytes are no pattern, and why a text is of none, at which byte.
ghost use Rattle.std.specs.Prelude.{◌≡◌, Some};
ghost use Rattle.chrono_pattern.specs.ErrorTexts.{pattern_error_text, pattern_fault_text, read_error_text, read_fault_text};

use std::fmt;

/// What is wrong with bytes that are no pattern.
#[derive(Clone, Copy, Debug, PartialEq, Eq)]
pub enum PatternFault {
    /// No specifier is written so.
    Unknown,
    /// The bytes end within a specifier.
    Cut,
}

impl fmt::Display for PatternFault {
    ghost output = { λ fault. Some (pattern_fault_text fault) };

    /// Writes what is wrong, such as `an unknown specifier`.
    fn fmt<W: fmt::Write>(&self, f: &mut fmt::Formatter<W>) -> fmt::Result {
        f.write_str(pattern_fault_text(*self))
    }
}

// What is wrong with bytes.
#[tactic(auto, unfolding(crate::specs::ErrorTexts::pattern_fault_text))]
fn pattern_fault_text(fault: PatternFault) -> &'static str
    ensures { result.now ≡ pattern_fault_text fault }
{
    match fault {
        PatternFault::Unknown => "an unknown specifier",
        PatternFault::Cut => "the bytes end within a specifier",
    }
}

/// Why bytes are no pattern, and where.
///
/// ```
/// Pattern::new(b"%Y-%Q").err() // Some(PatternError { byte: 3, cause: Unknown })
/// Pattern::new(b"100%").err() // Some(PatternError { byte: 3, cause: Cut })
/// Pattern::new(b"%Y-%Q").err()?.to_string(rt.alloc()).ok()? // "byte 3: an unknown specifier"
/// ```
#[derive(Clone, Copy, Debug, PartialEq, Eq)]
pub struct PatternError {
    /// Where the first wrong specifier begins, in bytes from 0.
    pub byte: usize,
    /// What is wrong with it.
    pub cause: PatternFault,
}

impl fmt::Display for PatternError {
    ghost output = { λ error. Some (pattern_error_text error) };

    /// Writes one line, such as `byte 3: an unknown specifier`.
    fn fmt<W: fmt::Write>(&self, f: &mut fmt::Formatter<W>) -> fmt::Result {
        let words = pattern_fault_text(self.cause);
        write!(f, "byte {}: {words}", self.byte)
    }
}

/// What is wrong with a text that a pattern does not read.
#[derive(Clone, Copy, Debug, PartialEq, Eq)]
pub enum ReadFault {
    /// The text ends too soon.
    TooShort,
    /// The text goes on behind the pattern's end.
    TooLong,
    /// The pattern has no such text there.
    Invalid,
    /// The field has no such value.
    OutOfRange,
    /// No value fits all fields: two contradict each other, or the calendar has no such day.
    Impossible,
    /// The fields do not suffice for the value.
    NotEnough,
}

impl fmt::Display for ReadFault {
    ghost output = { λ fault. Some (read_fault_text fault) };

    /// Writes what is wrong, such as `the text ends too soon`.
    fn fmt<W: fmt::Write>(&self, f: &mut fmt::Formatter<W>) -> fmt::Result {
        f.write_str(read_fault_text(*self))
    }
}

// What is wrong with a text.
#[tactic(auto, unfolding(crate::specs::ErrorTexts::read_fault_text))]
fn read_fault_text(fault: ReadFault) -> &'static str
    ensures { result.now ≡ read_fault_text fault }
{
    match fault {
        ReadFault::TooShort => "the text ends too soon",
        ReadFault::TooLong => "the text goes on behind the end of the pattern",
        ReadFault::Invalid => "the pattern has no such text there",
        ReadFault::OutOfRange => "the field has no such value",
        ReadFault::Impossible => "no value fits all fields",
        ReadFault::NotEnough => "the fields do not suffice for the value",
    }
}

/// Why a pattern does not read a text, and where.
///
/// ```
/// let pattern = Pattern::new(b"%H:%M").ok()?;
/// pattern.read_parts(b"09:65").err() // Some(PatternReadError { byte: 3, cause: OutOfRange })
/// pattern.read_parts(b"09.30").err() // Some(PatternReadError { byte: 2, cause: Invalid })
/// pattern.read_parts(b"09:65").err()?.to_string(rt.alloc()).ok()? // "byte 3: the field has no such value"
/// ```
#[derive(Clone, Copy, Debug, PartialEq, Eq)]
pub struct PatternReadError {
    /// Where the first wrong piece of the text begins, in bytes from 0.
    pub byte: usize,
    /// What is wrong with it.
    pub cause: ReadFault,
}

impl fmt::Display for PatternReadError {
    ghost output = { λ error. Some (read_error_text error) };

    /// Writes one line, such as `byte 3: the field has no such value`.
    fn fmt<W: fmt::Write>(&self, f: &mut fmt::Formatter<W>) -> fmt::Result {
        let words = read_fault_text(self.cause);
        write!(f, "byte {}: {words}", self.byte)
    }
}

// The error of a pattern whose specifiers name no such value.
pub(crate) const NOT_ENOUGH: PatternReadError = PatternReadError {
    byte: 0,
    cause: ReadFault::NotEnough,
};
