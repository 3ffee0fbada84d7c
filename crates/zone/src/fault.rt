//! `ZoneFault`: why rows and a rule make up no zone.
ghost use Rattle.std.specs.Prelude.{Some};
ghost use Rattle.zone.specs.FaultTexts.{zone_fault_text};

use std::fmt;

/// Why rows and a rule make up no zone.
///
/// ```
/// ZoneFault::Unordered(7) // Unordered(7)
/// ```
#[derive(Clone, Copy, Debug, PartialEq, Eq)]
pub enum ZoneFault {
    /// The row at that place, counted from 0, is the first that does not follow the one before it.
    Unordered(usize),
    /// The rule shows another offset than the last row in the two days from it on, or sets the clock there past `i64::MAX`.
    NotJoined,
}

impl fmt::Display for ZoneFault {
    ghost output = { λ fault. Some (zone_fault_text fault) };

    /// Writes what is wrong: the row's number as `row {n} does not follow the one before it`, or that the rule does not join the last row.
    #[tactic(auto, unfolding(crate::specs::FaultTexts::zone_fault_text))]
    fn fmt<W: fmt::Write>(&self, f: &mut fmt::Formatter<W>) -> fmt::Result {
        match self {
            ZoneFault::Unordered(place) => write!(
                f,
                "row {place} does not follow the one before it"
            ),
            ZoneFault::NotJoined => f.write_str("the rule does not go on from the last row"),
        }
    }
}
