//! Time zones by name, as files of the IANA time zone database on the machine.
//!
//! ```
//! is_zone_name("America/Argentina/Buenos_Aires") // true
//! let new_york = OwnedZone::from_posix(rt.alloc(), b"EST5EDT,M3.2.0,M11.1.0").ok()?;
//! new_york.zone().offset_of_instant(1_710_054_000) // -04:00
//! new_york.abbreviation(1_710_054_000) // Some("EDT")
//! ```
//!
//! [`Database`] reads the zone of a name, and [`local_zone`] that of the machine. An [`OwnedZone`] keeps what was read, and lends it as a
//! [`Zone`]. Files and the environment come from the caller's host.
#![tactic(auto)]

mod database;
mod error;
pub mod law;
mod local;
mod name;
mod owned_zone;

pub use database::{Database, system_database};
pub use error::ZoneError;
pub use local::{LocalZone, local_zone};
pub use name::is_zone_name;
pub use owned_zone::OwnedZone;
pub use zone::Zone;
pub use zone_file::LocalTimeKind;
