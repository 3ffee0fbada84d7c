//! `Database`: a folder with a file for each zone.
ghost use Rattle.std.specs.Prelude.{◌≡◌, ◌≤◌, ◌^◌, Err, IfOk, false, length};
ghost use Rattle.zone_database.specs.Names.{is_zone_name};
ghost use Rattle.zone_database.specs.declared.error.ZoneError.TheVariants.{NoName};

use crate::error::ZoneError;
use crate::name::is_zone_name;
use crate::owned_zone::OwnedZone;
use std::alloc::Allocator;
use std::env::{self, VarError};
use std::fs;
use std::io::{self, ErrorKind, Read};
use std::rt::{Env, Files};

// Where the files are, unless the environment says otherwise.
const FOLDER: &str = "/usr/share/zoneinfo";

// How many bytes a file has at most.
const LONGEST_FILE: u64 = 1_048_576;

/// A folder with a TZif file for each time zone.
///
/// ```
/// let database = Database::new(String::from_str(rt.alloc(), "/no/folder").ok()?);
/// database.zone(rt, "Europe/Berlin").err() // Some(NoSuchZone)
/// database.zone(rt, "../Berlin").err() // Some(NoName)
/// ```
#[derive(Drop)]
pub struct Database<A: Allocator> {
    folder: String<A>,
}

impl<A: Allocator> Database<A> {
    /// Returns the database in a folder.
    ///
    /// ```
    /// Database::new(String::from_str(rt.alloc(), "zoneinfo").ok()?).folder() // "zoneinfo"
    /// ```
    pub fn new(folder: String<A>) -> Database<A> {
        Database { folder }
    }

    /// Returns the folder.
    ///
    /// ```
    /// Database::new(String::from_str(rt.alloc(), "zoneinfo").ok()?).folder() // "zoneinfo"
    /// ```
    pub fn folder(&self) -> &str {
        self.folder.as_str()
    }

    /// Reads the zone of a name, such as `Europe/Berlin`.
    ///
    /// # Errors
    ///
    /// Returns an error if `name` is no [zone's name](is_zone_name), if the folder has no such file, or if the file is not a zone's.
    /// A file of more than 1 MiB is none.
    ///
    /// ```
    /// let database = Database::new(String::from_str(rt.alloc(), "/no/folder").ok()?);
    /// database.zone(rt, "Europe/Berlin").err() // Some(NoSuchZone)
    /// ```
    pub fn zone<R: Files + Alloc>(&self, rt: &R, name: &str) -> Result<OwnedZone<R::A>, ZoneError>
        ensures { is_zone_name name.now ≡ false → result ≡ Err NoName }
    {
        if !is_zone_name(name) {
            return Err(ZoneError::NoName);
        }
        let mut path = String::from_str(rt.alloc(), self.folder.as_str())?;
        path.push('/')?;
        path.push_str(name)?;
        zone_in_file(rt, path.as_str())
    }
}

/// Returns the database of the machine: in the folder that `TZDIR` of the environment names, or else in `/usr/share/zoneinfo`.
///
/// # Errors
///
/// Returns an error if `TZDIR` is not UTF-8, or if memory is short.
///
/// ```
/// system_database(rt).is_ok() // true
/// ```
pub fn system_database<R: Env + Alloc>(rt: &R) -> Result<Database<R::A>, ZoneError> {
    match value_of(rt, "TZDIR")? {
        Some(folder) if !folder.is_empty() => Ok(Database::new(folder)),
        _ => Ok(Database::new(String::from_str(rt.alloc(), FOLDER)?)),
    }
}

// The value of a variable of the environment, if it is set.
pub(crate) fn value_of<R: Env + Alloc>(
    rt: &R,
    name: &str,
) -> Result<Option<String<R::A>>, ZoneError> {
    match env::var(rt, name) {
        Ok(value) => Ok(Some(value)),
        Err(VarError::NotPresent) => Ok(None),
        Err(VarError::NotUnicode) => Err(unread(io::Error::from(ErrorKind::InvalidData))),
        Err(VarError::OutOfMemory) => Err(ZoneError::OutOfMemory),
    }
}

// The zone of the file at a path.
pub(crate) fn zone_in_file<R: Files + Alloc>(
    rt: &R,
    path: &str,
) -> Result<OwnedZone<R::A>, ZoneError> {
    let bytes = bytes_of_file(rt, path)?;
    OwnedZone::from_tzif(rt.alloc(), bytes)
}

// The bytes of the file at a path. What is no file, as a folder or a pipe, is no zone.
fn bytes_of_file<R: Files + Alloc>(rt: &R, path: &str) -> Result<Vec<u8, R::A>, ZoneError>
    ensures { IfOk result (λ bytes. length bytes.items ≤ 2 ^ 20) }
{
    match fs::metadata(rt, path) {
        Ok(metadata) if metadata.is_file() => {}
        Ok(_) => return Err(ZoneError::NoSuchZone),
        Err(error) => return Err(unread(error)),
    }
    let file = match fs::open(rt, path) {
        Ok(file) => file,
        Err(error) => return Err(unread(error)),
    };
    let mut bytes = Vec::new(rt.alloc());
    if let Err(error) = file.take(LONGEST_FILE + 1).read_to_end(&mut bytes) {
        return Err(unread(error));
    }
    if bytes.len() as u64 > LONGEST_FILE {
        return Err(ZoneError::LongFile);
    }
    Ok(bytes)
}

// Why a file cannot be read.
fn unread(error: io::Error) -> ZoneError {
    match error.kind() {
        ErrorKind::NotFound | ErrorKind::NotADirectory => ZoneError::NoSuchZone,
        ErrorKind::OutOfMemory => ZoneError::OutOfMemory,
        _ => ZoneError::Unread(error),
    }
}
