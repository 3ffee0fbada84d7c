//! The date-time with its offset that the parts of a text give.
ghost use Rattle.std.specs.Prelude.{◌≡◌, ◌↔◌, ◌-ℤ◌, ℤ, true, false, Ok, Err, Some, None, IfOk, IfSome, IfErr, ◌⊎◌};
ghost use Rattle.chrono_datetime.specs.Moment.{Moment, IsMoment};
ghost use Rattle.chrono_instant.specs.Instants.{IsEpochSecond, epoch_second};
ghost use Rattle.chrono_instant.specs.Offsets.{IsOffset, moment_ahead};
ghost use Rattle.chrono_zoned.specs.Zoned.{Zoned};
ghost use Rattle.chrono_pattern.specs.TimeParts.{counts};
ghost use Rattle.chrono_pattern.specs.ZonedParts.{IsClockZoned, moment_fits, names_zoned, zoned_fits};
ghost use Rattle.chrono_pattern.specs.Parts.{fault_of_parts};
ghost use Rattle.chrono_pattern.specs.declared.error.ReadFault.TheVariants.{NotEnough, OutOfRange};

use crate::date_time_parts::{named_moment, names_moment};
use crate::error::ReadFault;
use crate::parsed::Parsed;
use chrono_datetime::NaiveDateTime;
use chrono_zoned::{AddOffset, DateTime, FixedOffset, InZone};

impl Parsed {
    /// Returns the offset from UTC.
    ///
    /// # Errors
    ///
    /// Returns `NotEnough` if no offset is given. Returns `OutOfRange` if it is a day or more, which no text gives.
    ///
    /// ```
    /// Pattern::new(b"%z").ok()?.read_parts(b"-0330").ok()?.to_fixed_offset().ok() // Some(-03:30)
    /// Parsed::new().to_fixed_offset().err() // Some(NotEnough)
    /// ```
    pub fn to_fixed_offset(&self) -> Result<FixedOffset, ReadFault>
        ensures given { IfOk result (λ x. self.now.offset ≡ Some x) }
        ensures every { (x : ℤ) → IsOffset x → self.now.offset ≡ Some x → result ≡ Ok x }
        ensures not_enough { (result ≡ Err NotEnough) ↔ (self.now.offset ≡ None) }
        ensures range { IfErr result (λ e. (e ≡ NotEnough) ⊎ (e ≡ OutOfRange)) }
    {
        match self.offset {
            Some(seconds) => FixedOffset::east_opt(seconds).ok_or(ReadFault::OutOfRange),
            None => Err(ReadFault::NotEnough),
        }
    }

    /// Returns the date-time with its offset that fits all parts. It is chrono's `to_datetime`.
    ///
    /// It has to be named in one of these ways:
    ///
    /// - by its date, its time of day and its offset;
    /// - by the seconds from 1970, with any other parts. Its offset is 0 if none is given. chrono 0.4.23 asks for one.
    ///
    /// The date and the time of day are local ones. Second 60 and the seconds from 1970 go together as [`Parsed::to_date_time`] says.
    ///
    /// # Errors
    ///
    /// Returns `NotEnough` if no such date-time is named, which is told by the fields alone. Returns `Impossible` if none fits, or if UTC has
    /// no date at that instant.
    ///
    /// ```
    /// let parsed = Pattern::new(b"%F %R %z").ok()?.read_parts(b"2024-02-29 09:30 +0530").ok()?;
    /// parsed.to_zoned().ok() // Some(2024-02-29T09:30:00+05:30)
    /// let parsed = Pattern::new(b"%s %:z").ok()?.read_parts(b"0 -01:00").ok()?;
    /// parsed.to_zoned().ok() // Some(1969-12-31T23:00:00-01:00)
    /// Pattern::new(b"%F %R").ok()?.read_parts(b"2024-02-29 09:30").ok()?.to_zoned().err() // Some(NotEnough)
    /// ```
    pub fn to_zoned(&self) -> Result<DateTime<FixedOffset>, ReadFault>
        ensures named { IfOk result (λ d. names_zoned self.now ≡ true) }
        // The local date-time and the offset fit.
        ensures fits { IfOk result (λ d. zoned_fits self.now (moment_ahead d.utc d.zone) d.zone ≡ true) }
        ensures clock { IfOk result (λ d. IsClockZoned d) }
        // So no two date-times with their offsets fit parts that name one.
        ensures every { (d : Zoned ℤ) → IsClockZoned d → names_zoned self.now ≡ true
            → zoned_fits self.now (moment_ahead d.utc d.zone) d.zone ≡ true → result ≡ Ok d }
        ensures not_enough { (result ≡ Err NotEnough) ↔ (names_zoned self.now ≡ false) }
        ensures error { IfErr result (λ e. e ≡ fault_of_parts (names_zoned self.now)) }
    {
        let parts = *self;
        if !names_zoned(parts) {
            return Err(ReadFault::NotEnough);
        }
        match zoned_by(parts) {
            Some(moment) => Ok(moment),
            None => Err(ReadFault::Impossible),
        }
    }
}

// Whether the parts suffice for a date-time with its offset.
#[tactic(auto, unfolding(crate::specs::ZonedParts::names_zoned))]
pub(crate) fn names_zoned(parts: Parsed) -> bool
    ensures { result ≡ names_zoned parts }
{
    if parts.timestamp.is_some() {
        true
    } else {
        names_moment(parts) && parts.offset.is_some()
    }
}

// The date-time that fits all parts, if the parts name one.
fn zoned_by(parts: Parsed) -> Option<DateTime<FixedOffset>>
    requires { names_zoned parts ≡ true }
    ensures fits { IfSome result (λ d. zoned_fits parts (moment_ahead d.utc d.zone) d.zone ≡ true) }
    ensures clock { IfSome result (λ d. IsClockZoned d) }
    ensures every { (d : Zoned ℤ) → IsClockZoned d → zoned_fits parts (moment_ahead d.utc d.zone) d.zone ≡ true → result ≡ Some d }
{
    match named_offset(parts) {
        Some(offset) => match named_moment(&parts, offset) {
            Ok(local) => at_local(local, offset),
            Err(_) => None,
        },
        None => None,
    }
}

// The offset that is given, or else 0. Nothing if it is a day or more.
fn named_offset(parts: Parsed) -> Option<FixedOffset>
    ensures counted { IfSome result (λ x. counts parts.offset x ≡ true) }
    ensures in_range { IfSome result (λ x. IsOffset x) }
    ensures every { (x : ℤ) → IsOffset x → counts parts.offset x ≡ true → result ≡ Some x }
{
    FixedOffset::east_opt(offset_or_zero(parts.offset))
}

// The offset, and 0 if none is given.
fn offset_or_zero(offset: Option<i32>) -> i32
    ensures only { (x : ℤ) → counts offset x ≡ true → result ≡ x }
    ensures counted { counts offset result ≡ true }
{
    match offset {
        Some(seconds) => seconds,
        None => 0,
    }
}

// The instant at which a clock of this offset shows the local date-time, if UTC has a date then.
fn at_local(local: NaiveDateTime, offset: FixedOffset) -> Option<DateTime<FixedOffset>>
    ensures local { IfSome result (λ d. moment_ahead d.utc d.zone ≡ local) }
    ensures zone { IfSome result (λ d. d.zone ≡ offset) }
    ensures utc { IfSome result (λ d. IsMoment d.utc) }
    ensures every { (d : Zoned ℤ) → IsMoment d.utc → d.zone ≡ offset → moment_ahead d.utc d.zone ≡ local → result ≡ Some d }
{
    let utc = local.checked_sub_offset(offset)?;
    offset.from_utc_datetime(&utc)
}
