//! The date-time that the parts of a text give, by a date and a time of day or by the seconds from 1970.
ghost use Rattle.std.specs.Prelude.{◌≡◌, ◌↔◌, ◌⊎◌, ◌&&◌, ◌+◌, ◌≤ℤ◌, ◌+ℤ◌, ℤ, neg_ℤ, pos, true, false, Ok, Err, Some, None, IfOk, IfErr, IfSome};
ghost use Rattle.chrono_datetime.specs.Moment.{Moment};
ghost use Rattle.chrono_datetime.specs.Duration.{nanos_per_second};
ghost use Rattle.chrono_instant.specs.Instants.{epoch_second};
ghost use Rattle.chrono_pattern.specs.DateParts.{date_fits, names_date};
ghost use Rattle.chrono_pattern.specs.TimeParts.{names_time, time_fits};
ghost use Rattle.chrono_pattern.specs.ZonedParts.{IsClockMoment, is_next_to, is_stamp_of, moment_fits, names_leap, names_moment, shows_second, stamped_time_fits};
ghost use Rattle.chrono_pattern.specs.Parts.{fault_of_parts};
ghost use Rattle.chrono_pattern.specs.declared.error.ReadFault.TheVariants.{Impossible, NotEnough};

use crate::date_parts::{fits_date, names_date};
use crate::error::ReadFault;
use crate::parsed::Parsed;
use crate::time_parts::{counts, fits_clock, names_time, size_or_zero};
use crate::zoned_piece::utc_second;
use chrono_datetime::{NaiveDateTime, NaiveTime, Timelike};
use chrono_text::NANOS_PER_SEC;
use chrono_zoned::{FixedOffset, FromTimestamp};

// More than the seconds from 1970 to any date, either way.
const MOST_SECONDS: i64 = 10_000_000_000_000;

impl Parsed {
    /// Returns the date-time that fits all parts.
    ///
    /// It has to be named in one of these ways:
    ///
    /// - by its date and its time of day, as [`Parsed::to_date`] and [`Parsed::to_time`] say;
    /// - by the seconds from 1970. They are of UTC, and so is the date-time.
    ///
    /// With the seconds from 1970 any other parts may be given or not. They have to agree with UTC, whatever offset is given: an offset makes
    /// no difference. Second 60 is a leap second. The seconds from 1970 are then those of second 59, or of the next minute's beginning.
    ///
    /// # Errors
    ///
    /// Returns `NotEnough` if no date-time is named, which is told by the fields alone. Returns `Impossible` if none fits.
    ///
    /// ```
    /// Pattern::new(b"%F %T").ok()?.read_parts(b"2024-02-29 09:30:00").ok()?.to_date_time().ok() // Some(2024-02-29T09:30:00)
    /// Pattern::new(b"%s").ok()?.read_parts(b"1709199000").ok()?.to_date_time().ok() // Some(2024-02-29T09:30:00)
    /// Pattern::new(b"%s %a").ok()?.read_parts(b"1709199000 Fri").ok()?.to_date_time().err() // Some(Impossible)
    /// Pattern::new(b"%F %H").ok()?.read_parts(b"2024-02-29 09").ok()?.to_date_time().err() // Some(NotEnough)
    /// ```
    pub fn to_date_time(&self) -> Result<NaiveDateTime, ReadFault>
        ensures named { IfOk result (λ m. names_moment self.now ≡ true) }
        ensures fits { IfOk result (λ m. moment_fits self.now m (pos 0) ≡ true) }
        ensures clock { IfOk result (λ m. IsClockMoment m) }
        // So no two date-times fit parts that name one.
        ensures every { (m : Moment) → IsClockMoment m → names_moment self.now ≡ true → moment_fits self.now m (pos 0) ≡ true → result ≡ Ok m }
        ensures not_enough { (result ≡ Err NotEnough) ↔ (names_moment self.now ≡ false) }
        ensures error { IfErr result (λ e. e ≡ fault_of_parts (names_moment self.now)) }
    {
        named_moment(self, FixedOffset::east_opt(0).unwrap())
    }
}

// The local date-time that fits all parts, where the clock is ahead of UTC by the offset.
#[tactic(auto, unfolding(crate::specs::ZonedParts::names_moment, crate::specs::ZonedParts::moment_fits))]
#[inline(always)]
pub(crate) fn named_moment(parts: &Parsed, offset: FixedOffset) -> Result<NaiveDateTime, ReadFault>
    ensures named { IfOk result (λ m. names_moment parts.now ≡ true) }
    ensures fits { IfOk result (λ m. moment_fits parts.now m offset ≡ true) }
    ensures clock { IfOk result (λ m. IsClockMoment m) }
    ensures every { (m : Moment) → IsClockMoment m → names_moment parts.now ≡ true → moment_fits parts.now m offset ≡ true → result ≡ Ok m }
    ensures not_enough { (result ≡ Err NotEnough) ↔ (names_moment parts.now ≡ false) }
    ensures error { IfErr result (λ e. e ≡ fault_of_parts (names_moment parts.now)) }
{
    match parts.timestamp {
        Some(stamp) => stamped_moment(*parts, stamp, offset),
        None => usual_moment(parts),
    }
}

// Whether the parts suffice for a date-time.
#[tactic(auto, unfolding(crate::specs::ZonedParts::names_moment))]
pub(crate) fn names_moment(parts: Parsed) -> bool
    ensures { result ≡ names_moment parts }
{
    if parts.timestamp.is_some() {
        true
    } else {
        names_date(parts) && names_time(parts)
    }
}

// The date-time by its date and its time of day.
#[inline(always)]
fn usual_moment(parts: &Parsed) -> Result<NaiveDateTime, ReadFault>
    ensures named { IfOk result (λ m. (names_date parts.now && names_time parts.now) ≡ true) }
    ensures date { IfOk result (λ m. date_fits parts.now m.date ≡ true) }
    ensures time { IfOk result (λ m. time_fits parts.now m.time ≡ true) }
    ensures clock { IfOk result (λ m. IsClockMoment m) }
    ensures every { (m : Moment) → IsClockMoment m → names_date parts.now ≡ true → names_time parts.now ≡ true
        → date_fits parts.now m.date ≡ true → time_fits parts.now m.time ≡ true → result ≡ Ok m }
    ensures not_enough { (result ≡ Err NotEnough) ↔ ((names_date parts.now && names_time parts.now) ≡ false) }
    ensures error { IfErr result (λ e. e ≡ fault_of_parts (names_date parts.now && names_time parts.now)) }
{
    match (parts.to_date(), parts.to_time()) {
        (Ok(date), Ok(time)) => Ok(NaiveDateTime::new(date, time)),
        (Err(ReadFault::NotEnough), _) | (_, Err(ReadFault::NotEnough)) => {
            Err(ReadFault::NotEnough)
        }
        _ => Err(ReadFault::Impossible),
    }
}

// The date-time by the seconds from 1970.
#[inline(never)]
fn stamped_moment(
    parts: Parsed,
    stamp: i64,
    offset: FixedOffset,
) -> Result<NaiveDateTime, ReadFault>
    ensures date { IfOk result (λ m. date_fits parts m.date ≡ true) }
    ensures time { IfOk result (λ m. stamped_time_fits parts m.time ≡ true) }
    ensures stamp { IfOk result (λ m. is_stamp_of stamp m offset ≡ true) }
    ensures clock { IfOk result (λ m. IsClockMoment m) }
    ensures every { (m : Moment) → IsClockMoment m → date_fits parts m.date ≡ true → stamped_time_fits parts m.time ≡ true
        → is_stamp_of stamp m offset ≡ true → result ≡ Ok m }
    ensures impossible { IfErr result (λ e. e ≡ Impossible) }
{
    match moment_at_stamp(parts, stamp, offset) {
        Some(moment) => {
            if fits_stamped(parts, moment, stamp, offset) {
                Ok(moment)
            } else {
                Err(ReadFault::Impossible)
            }
        }
        None => Err(ReadFault::Impossible),
    }
}

// Whether a date-time fits all parts with the seconds from 1970.
fn fits_stamped(parts: Parsed, moment: NaiveDateTime, stamp: i64, offset: FixedOffset) -> bool
    ensures { result ≡ (date_fits parts moment.date && (stamped_time_fits parts moment.time && is_stamp_of stamp moment offset)) }
{
    fits_date(parts, moment.date())
        && fits_stamped_time(parts, moment.time())
        && is_stamp_of(stamp, moment, offset)
}

// Whether a time of day fits its parts, in a known second.
#[tactic(auto, unfolding(crate::specs::ZonedParts::stamped_time_fits))]
fn fits_stamped_time(parts: Parsed, time: NaiveTime) -> bool
    ensures { result ≡ stamped_time_fits parts time }
{
    fits_clock(parts, time)
        && shows_second(parts.second, time)
        && counts(parts.nanosecond, (time.nanosecond() % NANOS_PER_SEC) as i32)
}

// Whether a clock shows this second, and no leap second if none is given.
fn shows_second(second: Option<i32>, time: NaiveTime) -> bool
    ensures { result ≡ shows_second second time }
{
    match second {
        None => time.nanosecond() < NANOS_PER_SEC,
        Some(given) => given == (time.second() + time.nanosecond() / NANOS_PER_SEC) as i32,
    }
}

// Whether the seconds from 1970 are those of a local date-time.
fn is_stamp_of(stamp: i64, moment: NaiveDateTime, offset: FixedOffset) -> bool
    ensures { result ≡ is_stamp_of stamp moment offset }
{
    let second = utc_second(moment, offset);
    if moment.time().nanosecond() >= NANOS_PER_SEC {
        is_next_to(stamp, second)
    } else {
        stamp == second
    }
}

// Whether a second is this one or the next.
fn is_next_to(stamp: i64, second: i64) -> bool
    requires { second ≤ℤ pos 10_000_000_000_000 }
    ensures { result ≡ is_next_to stamp second }
{
    stamp == second || stamp == second + 1
}

// The local date-time that the seconds from 1970 name, with the fraction and a leap second if these are given.
fn moment_at_stamp(parts: Parsed, stamp: i64, offset: FixedOffset) -> Option<NaiveDateTime>
    ensures clock { IfSome result (λ m. IsClockMoment m) }
    ensures every { (m : Moment) → IsClockMoment m → stamped_time_fits parts m.time ≡ true → is_stamp_of stamp m offset ≡ true → result ≡ Some m }
{
    if stamp < -MOST_SECONDS || MOST_SECONDS < stamp {
        return None;
    }
    let local = local_second(stamp, offset);
    let nanos = size_or_zero(parts.nanosecond);
    if names_leap(parts.second) {
        leap_second_at(local, nanos)
    } else {
        NaiveDateTime::from_timestamp(local, nanos)
    }
}

// The seconds from 1970 that a local clock has.
fn local_second(stamp: i64, offset: FixedOffset) -> i64
    requires least { neg_ℤ (pos 10_000_000_000_000) ≤ℤ stamp }
    requires most { stamp ≤ℤ pos 10_000_000_000_000 }
    ensures { result ≡ stamp +ℤ offset }
{
    stamp + i64::from(offset.local_minus_utc())
}

// Whether a second is that of a leap second.
fn names_leap(second: Option<i32>) -> bool
    ensures { result ≡ names_leap second }
{
    match second {
        None => false,
        Some(given) => given == 60,
    }
}

// The leap second whose seconds from 1970 are these, or one less.
fn leap_second_at(local: i64, nanos: u32) -> Option<NaiveDateTime>
    requires range { local ≤ℤ pos 20_000_000_000_000 }
    requires least { neg_ℤ (pos 20_000_000_000_000) ≤ℤ local }
    ensures clock { IfSome result (λ m. IsClockMoment m) }
    ensures every { (m : Moment) → IsClockMoment m → m.time.fraction ≡ nanos_per_second + nanos
        → (local ≡ epoch_second m) ⊎ (local ≡ epoch_second m +ℤ pos 1) → result ≡ Some m }
{
    if nanos >= NANOS_PER_SEC {
        return None;
    }
    let second = if local.rem_euclid(60) == 0 {
        local - 1
    } else {
        local
    };
    NaiveDateTime::from_timestamp(second, NANOS_PER_SEC + nanos)
}
