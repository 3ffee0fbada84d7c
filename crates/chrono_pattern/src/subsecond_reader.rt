//! Reads the fraction of a second.
ghost use Rattle.std.specs.Prelude.{◌≡◌, ◌≤◌, ◌<◌, ◌*◌, ◌-◌, ◌^◌, Ok, Err, IfErr, IfOk, length};
ghost use Rattle.chrono_datetime.specs.Duration.{nanos_per_second};
ghost use Rattle.chrono_pattern.specs.SubsecondReads.{fixed_read, point_read, places_read, subsecond_read};

use crate::class::{Class, class_len};
use crate::error::ReadFault;
use crate::parsed::Part;
use crate::reader::{Reader, put_behind};
use crate::stop::{Stop, fault_without, stopped};
use chrono_text::read_digits;

// The digits of a nanosecond behind the point.
const MOST_PLACES: usize = 9;

// Reads the fraction of a second: with a point, or so many digits.
#[tactic(auto, unfolding(crate::specs::SubsecondReads::subsecond_read))]
pub(crate) fn read_subsecond(reader: &mut Reader<'_>, point: bool, count: u8) -> Result<(), Stop>
    ensures read { IfOk result (λ u. subsecond_read point count reader.old ≡ Ok reader.new) }
    ensures stop { IfErr result (λ e. subsecond_read point count reader.old ≡ Err e) }
{
    if point {
        read_point(reader)
    } else {
        read_fixed(reader, usize::from(count).min(MOST_PLACES))
    }
}

// Reads a point and digits, or nothing if there is no point.
fn read_point(reader: &mut Reader<'_>) -> Result<(), Stop>
    ensures read { IfOk result (λ u. point_read reader.old ≡ Ok reader.new) }
    ensures stop { IfErr result (λ e. point_read reader.old ≡ Err e) }
{
    match reader.rest.split_first() {
        None => Ok(()),
        Some((first, digits)) => {
            if *first == b'.' {
                let count = class_len(Class::Digit, digits);
                read_places(reader, digits, count.min(MOST_PLACES), count)
            } else {
                Ok(())
            }
        }
    }
}

// Reads so many digits.
fn read_fixed(reader: &mut Reader<'_>, count: usize) -> Result<(), Stop>
    requires { count ≤ 9 }
    ensures read { IfOk result (λ u. fixed_read count reader.old ≡ Ok reader.new) }
    ensures stop { IfErr result (λ e. fixed_read count reader.old ≡ Err e) }
{
    if reader.rest.len() < count {
        Err(stopped(ReadFault::TooShort, reader.rest))
    } else {
        let text = reader.rest;
        read_places(reader, text, count, count)
    }
}

// Reads the first digits of a text as places behind a point, and leaves out more of them.
#[tactic(auto, unfolding(crate::specs::SubsecondReads::places_read))]
fn read_places<'a>(
    reader: &mut Reader<'a>,
    text: &'a [u8],
    places: usize,
    count: usize,
) -> Result<(), Stop>
    requires few { places ≤ 9 }
    requires first { places ≤ count }
    requires within { count ≤ length text.now }
    ensures read { IfOk result (λ u. places_read places count text.now reader.old.parsed ≡ Ok reader.new) }
    ensures stop { IfErr result (λ e. places_read places count text.now reader.old.parsed ≡ Err e) }
{
    match read_digits(&text[..places], places) {
        None => Err(stopped(fault_without(1, text), text)),
        Some(value) => {
            let nanos = in_nanos(value, places);
            put_behind(reader, Part::NanosecondOfSecond, nanos as i32, count, text)
        }
    }
}

// So many places behind the point, in nanoseconds.
fn in_nanos(value: u32, places: usize) -> u32
    requires few { places ≤ 9 }
    requires small { value < 10 ^ places }
    ensures value { result ≡ value * 10 ^ (9 - places) }
    ensures small { result < nanos_per_second }
{
    value * 10u32.pow((MOST_PLACES - places) as u32)
}
