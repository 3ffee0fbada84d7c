//! The time of day, and the date-time, that the parts of a text give.
ghost use Rattle.std.specs.Prelude.{◌≡◌, ◌↔◌, ◌+◌, ◌/◌, ◌%◌, ℕ, pos, true, false, Ok, Err, Some, IfOk, IfSome, IfErr};
ghost use Rattle.chrono_datetime.specs.Duration.{nanos_per_second};
ghost use Rattle.chrono_datetime.specs.Time.{TimeOfDay, hour_of, minute_of, second_of};
ghost use Rattle.chrono_pattern.specs.TimeParts.{IsClockTime, clock_fits, counts, names_second, names_time, size_or_zero, time_fits};
ghost use Rattle.chrono_pattern.specs.Parts.{fault_of_parts};
ghost use Rattle.chrono_pattern.specs.declared.error.ReadFault.TheVariants.{NotEnough};

use crate::date_parts::{natural, says};
use crate::error::ReadFault;
use crate::parsed::Parsed;
use chrono_datetime::{NaiveTime, Timelike};
use chrono_text::NANOS_PER_SEC;

impl Parsed {
    /// Returns the time of day that fits all parts.
    ///
    /// It has to be named by its hour and its minute: an hour from 0 to 23, or one of the half day with `AM` or `PM`. A second that is not
    /// given is 0. A fraction needs a second. Second 60 is a leap second.
    ///
    /// # Errors
    ///
    /// Returns `NotEnough` if no time is named, which is told by the fields alone. Returns `Impossible` if no time fits.
    ///
    /// ```
    /// Pattern::new(b"%I:%M %p").ok()?.read_parts(b"12:30 am").ok()?.to_time().ok() // Some(00:30:00)
    /// Pattern::new(b"%T%.f").ok()?.read_parts(b"23:59:60.5").ok()?.to_time().ok() // Some(23:59:60.500)
    /// Pattern::new(b"%I:%M").ok()?.read_parts(b"12:30").ok()?.to_time().err() // Some(NotEnough)
    /// ```
    pub fn to_time(&self) -> Result<NaiveTime, ReadFault>
        ensures named { IfOk result (λ t. names_time self.now ≡ true) }
        ensures fits { IfOk result (λ t. time_fits self.now t ≡ true) }
        ensures clock { IfOk result (λ t. IsClockTime t) }
        // So no two times fit parts that name one.
        ensures every { (t : TimeOfDay) → IsClockTime t → names_time self.now ≡ true → time_fits self.now t ≡ true → result ≡ Ok t }
        ensures not_enough { (result ≡ Err NotEnough) ↔ (names_time self.now ≡ false) }
        ensures error { IfErr result (λ e. e ≡ fault_of_parts (names_time self.now)) }
    {
        if !names_time(*self) {
            return Err(ReadFault::NotEnough);
        }
        match named_time(*self) {
            Some(time) => Ok(time),
            None => Err(ReadFault::Impossible),
        }
    }
}

// Whether the parts suffice for a time of day.
#[tactic(auto, unfolding(crate::specs::TimeParts::names_time))]
pub(crate) fn names_time(parts: Parsed) -> bool
    ensures { result ≡ names_time parts }
{
    parts.hour_div_12.is_some()
        && parts.hour_mod_12.is_some()
        && parts.minute.is_some()
        && names_second(parts)
}

// Whether a fraction stands behind a second.
fn names_second(parts: Parsed) -> bool
    ensures { result ≡ names_second parts }
{
    if parts.second.is_some() {
        true
    } else {
        !parts.nanosecond.is_some()
    }
}

// Whether a part is this value, or is not given and the value is 0.
pub(crate) fn counts(part: Option<i32>, value: i32) -> bool
    ensures { result ≡ counts part value }
{
    match part {
        None => 0 == value,
        Some(given) => given == value,
    }
}

// Whether the hour and the minute fit.
#[tactic(auto, unfolding(crate::specs::TimeParts::clock_fits))]
pub(crate) fn fits_clock(parts: Parsed, time: NaiveTime) -> bool
    ensures { result ≡ clock_fits parts time }
{
    says(parts.hour_div_12, (time.hour() / 12) as i32)
        && says(parts.hour_mod_12, (time.hour() % 12) as i32)
        && says(parts.minute, time.minute() as i32)
}

// The time of day that the parts name, if they name one. It fits them all.
#[inline(always)]
fn named_time(parts: Parsed) -> Option<NaiveTime>
    ensures fits { IfSome result (λ t. time_fits parts t ≡ true) }
    ensures clock { IfSome result (λ t. IsClockTime t) }
    ensures every { (t : TimeOfDay) → IsClockTime t → names_time parts ≡ true → time_fits parts t ≡ true → result ≡ Some t }
{
    let half = natural(parts.hour_div_12)?;
    let hour = natural(parts.hour_mod_12)?;
    let minute = natural(parts.minute)?;
    let second = natural_or_zero(parts.second)?;
    let nanos = natural_or_zero(parts.nanosecond)?;
    clock_time(half, hour, minute, second, nanos)
}

// A part that is no number below 0, and 0 if it is not given.
#[inline(always)]
fn natural_or_zero(part: Option<i32>) -> Option<u32>
    ensures value { IfSome result (λ n. counts part (pos n) ≡ true) }
    ensures every { (n : ℕ) → counts part (pos n) ≡ true → result ≡ Some n }
{
    match part {
        None => Some(0),
        Some(_) => natural(part),
    }
}

// The size of a part, and 0 if it is not given.
pub(crate) fn size_or_zero(part: Option<i32>) -> u32
    ensures { result ≡ size_or_zero part }
{
    match part {
        None => 0,
        Some(value) => value.unsigned_abs(),
    }
}

// The time of day that a clock shows so, second 60 in a leap second.
#[inline(always)]
fn clock_time(half: u32, hour: u32, minute: u32, second: u32, nanos: u32) -> Option<NaiveTime>
    ensures every { (t : TimeOfDay) → IsClockTime t → half ≡ hour_of t / 12 → hour ≡ hour_of t % 12 → minute ≡ minute_of t
        → second ≡ second_of t + t.fraction / nanos_per_second → nanos ≡ t.fraction % nanos_per_second → result ≡ Some t }
    ensures clock { IfSome result (λ t. IsClockTime t) }
    ensures half { IfSome result (λ t. half ≡ hour_of t / 12) }
    ensures hour { IfSome result (λ t. hour ≡ hour_of t % 12) }
    ensures minute { IfSome result (λ t. minute ≡ minute_of t) }
    ensures second { IfSome result (λ t. second ≡ second_of t + t.fraction / nanos_per_second) }
    ensures nanos { IfSome result (λ t. nanos ≡ t.fraction % nanos_per_second) }
{
    if half > 1 || hour > 11 || second > 60 || nanos >= NANOS_PER_SEC {
        return None;
    }
    let hour = half * 12 + hour;
    if second == 60 {
        NaiveTime::from_hms_nano_opt(hour, minute, 59, NANOS_PER_SEC + nanos)
    } else {
        NaiveTime::from_hms_nano_opt(hour, minute, second, nanos)
    }
}
