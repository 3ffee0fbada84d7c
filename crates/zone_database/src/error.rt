//! `ZoneError`: why there is no zone.
ghost use Rattle.std.specs.Prelude.{◌≡◌};
ghost use Rattle.zone_database.specs.ErrorTexts.{file_fault_text, text_fault_text, zone_error_text};

use std::alloc::AllocError;
use std::{fmt, io};
use zone::ZoneFault;
use zone_file::{ZoneFileError, ZoneFileFault};
use zone_text::{ZoneTextError, ZoneTextFault};

/// Why there is no zone. `Display` says it in plain words.
///
/// ```
/// ZoneError::NoSuchZone.to_string(rt.alloc()).ok()? // "there is no such time zone"
/// let error = OwnedZone::from_posix(rt.alloc(), b"EST").err()?;
/// error.to_string(rt.alloc()).ok()? // "its rule at byte 3: an offset is missing"
/// ```
#[derive(Clone, Copy, Debug)]
pub enum ZoneError {
    /// No zone can have the name: [`is_zone_name`](crate::is_zone_name) says which can.
    NoName,
    /// The folder has no zone of the name.
    NoSuchZone,
    /// The file, or the environment, cannot be read.
    Unread(io::Error),
    /// The file has more than 1 MiB.
    LongFile,
    /// The file is no TZif file, at that byte.
    File(ZoneFileError),
    /// The file does not say which local time holds at first.
    NoFirstKind,
    /// The row at that place, counted from 0, has no kind of local time, or one whose offset is a day or more.
    NoRow(usize),
    /// The text is no rule, at that byte: that of the file's footer or that of `TZ`.
    Rule(ZoneTextError),
    /// The rows and the rule make up no zone.
    Zone(ZoneFault),
    /// Memory is short.
    OutOfMemory,
}

impl From<AllocError> for ZoneError {
    ghost use Rattle.std.specs.Prelude.{◌≡◌};
    ghost use Rattle.zone_database.specs.declared.error.ZoneError.TheVariants.{OutOfMemory};

    ghost from_gives = { λ _ e. e ≡ OutOfMemory };

    fn from(_error: AllocError) -> Self {
        ZoneError::OutOfMemory
    }
}

impl fmt::Display for ZoneError {
    ghost output = { λ error. zone_error_text error };

    /// Writes one line, such as `its rule at byte 3: an offset is missing`.
    #[tactic(auto, unfolding(crate::specs::ErrorTexts::zone_error_text))]
    fn fmt<W: fmt::Write>(&self, f: &mut fmt::Formatter<W>) -> fmt::Result {
        match *self {
            ZoneError::NoName => f.write_str("no time zone has such a name"),
            ZoneError::NoSuchZone => f.write_str("there is no such time zone"),
            ZoneError::Unread(error) => write!(f, "it cannot be read: {error}"),
            ZoneError::LongFile => f.write_str("its file has more than 1 MiB"),
            ZoneError::File(error) => {
                let fault = file_fault_text(error.fault);
                write!(f, "its file at byte {}: {fault}", error.byte)
            }
            ZoneError::NoFirstKind => f.write_str("its file names no local time to begin with"),
            ZoneError::NoRow(place) => write!(f, "its file names no local time in row {place}"),
            ZoneError::Rule(error) => {
                let fault = text_fault_text(error.fault);
                write!(f, "its rule at byte {}: {fault}", error.byte)
            }
            ZoneError::Zone(fault) => write!(f, "{fault}"),
            ZoneError::OutOfMemory => f.write_str("memory is short"),
        }
    }
}

// What is wrong with a file.
#[tactic(auto, unfolding(crate::specs::ErrorTexts::file_fault_text))]
fn file_fault_text(fault: ZoneFileFault) -> &'static str
    ensures { result.now ≡ file_fault_text fault }
{
    match fault {
        ZoneFileFault::NoHeader => "no header of a TZif file stands there",
        ZoneFileFault::UnknownVersion => "an unknown version",
        ZoneFileFault::CutOff => "the file is cut off",
        ZoneFileFault::WrongCounts => "the header's counts are wrong",
        ZoneFileFault::LeapSeconds => "it counts leap seconds",
        ZoneFileFault::WrongFooter => "the footer is wrong",
        ZoneFileFault::OtherVersion => "the two headers name different versions",
    }
}

// What is wrong with the text of a rule.
#[tactic(auto, unfolding(crate::specs::ErrorTexts::text_fault_text))]
fn text_fault_text(fault: ZoneTextFault) -> &'static str
    ensures { result.now ≡ text_fault_text fault }
{
    match fault {
        ZoneTextFault::NoName => "a name is missing",
        ZoneTextFault::NoOffset => "an offset is missing",
        ZoneTextFault::OffsetOfDay => "the offset is a day or more",
        ZoneTextFault::NoDays => "the days of daylight time are missing",
        ZoneTextFault::NoChange => "no day stands there on which the clock is set",
    }
}
