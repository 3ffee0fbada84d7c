//! `ZoneFileError`: why bytes are no TZif file, and where.
ghost use Rattle.std.specs.Prelude.{◌≤◌, length};

use chrono_text::part_place;

/// What is wrong with bytes that are no TZif file.
#[derive(Clone, Copy, Debug, PartialEq, Eq)]
pub enum ZoneFileFault {
    /// No header begins with `TZif` there.
    NoHeader,
    /// The version is not from 1 to 4.
    UnknownVersion,
    /// The file ends within the header, or before the data that it counts.
    CutOff,
    /// The header counts no kind or no name, or indicators for some kinds alone.
    WrongCounts,
    /// The file counts leap seconds, as those of the folder `right/` do.
    LeapSeconds,
    /// The file goes on, but not with a text between newlines that ends it.
    WrongFooter,
    /// The second header has another version than the first.
    OtherVersion,
}

/// Why bytes are no TZif file, and where.
///
/// ```
/// read(b"GIF89a").err() // Some(ZoneFileError { fault: CutOff, byte: 0 })
/// read(&[b'?'; 60]).err() // Some(ZoneFileError { fault: NoHeader, byte: 0 })
/// ```
#[derive(Clone, Copy, Debug, PartialEq, Eq)]
pub struct ZoneFileError {
    /// What is wrong.
    pub fault: ZoneFileFault,
    /// Where the header, the data or the footer begins that is wrong, in bytes from 0.
    pub byte: usize,
}

// The fault at the end of a file that begins with a part.
pub(crate) fn error_at(fault: ZoneFileFault, whole: &[u8], part: &[u8]) -> ZoneFileError
    ensures { result.byte ≤ length whole.now }
{
    ZoneFileError {
        fault,
        byte: part_place(whole, part, 0),
    }
}
