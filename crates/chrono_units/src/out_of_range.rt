//! The error of a number that is no day's and no month's number.

ghost use Rattle.std.specs.Prelude.{◌≡◌, Some, codes};
ghost use Rattle.chrono_units.specs.declared.out_of_range.OutOfRange.{OutOfRange};

use std::fmt;

/// An error: a number is out of the range of the type that it should become.
///
/// All values of this type are equal. It prints as `out of range`.
#[derive(Clone, Copy, PartialEq, Eq, Hash, Debug)]
pub struct OutOfRange {
    _private: (),
}

impl OutOfRange {
    /// Returns the error.
    ///
    /// ```
    /// Month::try_from(13u8) == Err(OutOfRange::new()) // true
    /// ```
    #[inline]
    pub fn new() -> OutOfRange
        ensures only_value { (other : OutOfRange) → other ≡ result }
    {
        OutOfRange { _private: () }
    }
}

impl fmt::Display for OutOfRange {
    ghost output = { λ _. Some (codes "out of range") };

    ghost styled_output = { λ _ _. Some (codes "out of range") };

    /// Writes `out of range`. A width or a precision changes nothing.
    fn fmt<W: fmt::Write>(&self, f: &mut fmt::Formatter<W>) -> fmt::Result {
        f.write_str("out of range")
    }
}
