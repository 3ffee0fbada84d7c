//! The zone of the machine.

use crate::database::{system_database, value_of, zone_in_file};
use crate::error::ZoneError;
use crate::name::is_zone_name;
use crate::owned_zone::OwnedZone;
use std::alloc::Allocator;
use std::fs;
use std::rt::{Env, Files};

// The file of the machine's zone, mostly a link into the folder of zones.
const LOCAL_FILE: &str = "/etc/localtime";

// What stands in front of a zone's name in the path of its file.
const IN_FRONT: &str = "zoneinfo/";

/// The zone of the machine, with its name where it has one.
///
/// ```
/// local_zone(rt).is_ok() // true
/// ```
#[derive(Drop)]
pub struct LocalZone<A: Allocator> {
    /// Its name, such as `Europe/Berlin`. `None` if it is a rule, or a file whose path does not tell the name.
    pub name: Option<String<A>>,
    /// The zone.
    pub zone: OwnedZone<A>,
}

/// Reads the zone of the machine.
///
/// It is that of the variable `TZ` of the environment, if it is set: the name of a zone, or the path of a file from the root on, or
/// the text of a rule. A colon may stand in front, and an empty text means UTC. Otherwise it is that of the file `/etc/localtime`,
/// and UTC if there is no such file.
///
/// # Errors
///
/// Returns an error if `TZ` is none of these, or if the file is not a zone's.
///
/// ```
/// local_zone(rt).is_ok() // true
/// ```
pub fn local_zone<R: Files + Env + Alloc>(rt: &R) -> Result<LocalZone<R::A>, ZoneError> {
    match value_of(rt, "TZ")? {
        Some(text) => zone_of_text(rt, text.as_str()),
        None => match zone_of_path(rt, LOCAL_FILE) {
            Err(ZoneError::NoSuchZone) => utc(rt),
            zone => zone,
        },
    }
}

// UTC by its name.
fn utc<R: Alloc>(rt: &R) -> Result<LocalZone<R::A>, ZoneError> {
    let zone = OwnedZone::utc(rt.alloc())?;
    named(rt, "UTC", zone)
}

// A zone with its name.
fn named<R: Alloc>(
    rt: &R,
    name: &str,
    zone: OwnedZone<R::A>,
) -> Result<LocalZone<R::A>, ZoneError> {
    let name = Some(String::from_str(rt.alloc(), name)?);
    Ok(LocalZone { name, zone })
}

// The zone of the text of `TZ`.
fn zone_of_text<R: Files + Env + Alloc>(rt: &R, text: &str) -> Result<LocalZone<R::A>, ZoneError> {
    let text = text.strip_prefix(':').unwrap_or(text);
    if text.is_empty() {
        return utc(rt);
    }
    if text.starts_with('/') {
        return zone_of_path(rt, text);
    }
    match system_database(rt)?.zone(rt, text) {
        Ok(zone) => named(rt, text, zone),
        Err(ZoneError::NoName) => zone_of_rule(rt, text),
        // A rule such as `UTC0` looks like a name.
        Err(ZoneError::NoSuchZone) => match zone_of_rule(rt, text) {
            Err(ZoneError::Rule(_)) => Err(ZoneError::NoSuchZone),
            zone => zone,
        },
        Err(error) => Err(error),
    }
}

// The zone of the text of a rule.
fn zone_of_rule<R: Alloc>(rt: &R, text: &str) -> Result<LocalZone<R::A>, ZoneError> {
    let zone = OwnedZone::from_posix(rt.alloc(), text.as_bytes())?;
    Ok(LocalZone { name: None, zone })
}

// The zone of the file at a path, with the name that the path tells, or a link there.
fn zone_of_path<R: Files + Alloc>(rt: &R, path: &str) -> Result<LocalZone<R::A>, ZoneError> {
    let zone = zone_in_file(rt, path)?;
    if let Some(name) = name_in_path(path) {
        return named(rt, name, zone);
    }
    if let Ok(target) = fs::read_link(rt, path) {
        if let Some(name) = name_in_path(target.as_str()) {
            return named(rt, name, zone);
        }
    }
    Ok(LocalZone { name: None, zone })
}

// The zone's name at the end of the path of its file.
fn name_in_path(path: &str) -> Option<&str> {
    let (_, name) = path.rsplit_once(IN_FRONT)?;
    if !is_zone_name(name) {
        return None;
    }
    Some(name)
}
