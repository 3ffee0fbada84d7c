//! The names of time zones.
ghost use Rattle.std.specs.Prelude.{◌≡◌};
ghost use Rattle.std.specs.List.{list_all};
ghost use Rattle.zone_database.specs.Names.{are_name_parts, is_name_part, is_of_zone_name, is_zone_name};

use chrono_text::split_at_byte;

// How many bytes a name has at most.
const LONGEST_NAME: usize = 255;

/// Returns whether `name` may be the name of a zone, such as `Europe/Berlin`. Whether there is such a zone, the folder says.
///
/// A name has parts of ASCII letters, digits, `-`, `+` and `_`, with a slash between each two, and at most 255 bytes. So it leads
/// to a file below the folder, and no part is `.` or `..`.
///
/// ```
/// is_zone_name("Europe/Berlin") // true
/// is_zone_name("Etc/GMT+5") // true
/// is_zone_name("../passwd") // false
/// is_zone_name("/etc/localtime") // false
/// ```
pub fn is_zone_name(name: &str) -> bool
    ensures { result ≡ is_zone_name name.now }
{
    name.len() <= LONGEST_NAME && are_name_parts(name.as_bytes())
}

// Whether bytes are parts of a name with slashes between them.
fn are_name_parts(name: &[u8]) -> bool
    ensures { result ≡ are_name_parts name.now }
{
    let mut rest = name;
    while let Some((part, behind)) = split_at_byte(rest, b'/') {
        if !is_name_part(part) {
            return false;
        }
        rest = behind;
    }
    is_name_part(rest)
}

// Whether bytes are a part of a name.
fn is_name_part(part: &[u8]) -> bool
    ensures { result ≡ is_name_part part.now }
{
    !part.is_empty() && are_of_zone_name(part)
}

// Whether each byte is one of a name.
fn are_of_zone_name(part: &[u8]) -> bool
    ensures { result ≡ list_all is_of_zone_name part.now }
{
    part.iter().all(|byte| is_of_zone_name(*byte))
}

// Whether a byte may stand in a name.
fn is_of_zone_name(byte: u8) -> bool
    ensures { result ≡ is_of_zone_name byte }
{
    byte.is_ascii_alphanumeric() || (byte == b'-' || (byte == b'+' || byte == b'_'))
}
