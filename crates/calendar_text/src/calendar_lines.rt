//! `CalendarLines`: what a text of a calendar is written from.
ghost use Rattle.std.specs.Prelude.{◌≡◌, ◌≤◌, ◌++◌, codes, IfNone, IfSome, length, take};
ghost use Rattle.calendar_text.specs.CalendarTimes.{calendar_time_text};
ghost use Rattle.calendar_text.specs.Lines.{property_key, text_in};
ghost use Rattle.calendar_text.specs.Puts.{IsPut, IsTooLong};
ghost use Rattle.calendar_text.specs.WrittenCalendars.{calendar_lines, time_line, parameter_text, parts_written, rule_line, times_text, zone_in_line};
ghost use Rattle.calendar_text.specs.declared.property.Property.TheVariants.{Dates, Exceptions, Start};

use crate::calendar_time::CalendarTime;
use crate::folds::fold;
use crate::property::{Property, property_key};
use crate::time_writer::put_time;
use crate::writer::put_three;
use chrono_text::Text;

/// What a text of a calendar is written from: a start, a rule, times beside it and exceptions.
#[derive(Clone, Copy)]
pub struct CalendarLines<'a> {
    /// DTSTART: the first time.
    pub start: CalendarTime,
    /// TZID: the name of the zone in which local times are. `None` for no zone.
    pub zone: Option<&'a [u8]>,
    /// RRULE: the text of the rule, such as `FREQ=DAILY`.
    pub rule: Option<&'a [u8]>,
    /// RDATE: times beside those of the rule.
    pub dates: &'a [CalendarTime],
    /// EXDATE: times that are left out.
    pub exceptions: &'a [CalendarTime],
}

impl<'a> CalendarLines<'a> {
    /// Writes DTSTART, RRULE, RDATE and EXDATE into `buffer`, with a line feed behind each line and no fold. Returns the number of bytes.
    ///
    /// Returns `None` if `buffer` is too short. Each time of the lists has a line of its own.
    /// A fraction of a second is left out. A year outside 0 to 9999 is written, but no reader takes it.
    /// [`fold`] makes lines of a calendar's file of it.
    ///
    /// ```
    /// let start = read_calendar_time(b"20240131T090000")?;
    /// let lines = CalendarLines { start, zone: Some(b"Europe/Berlin"), rule: Some(b"FREQ=DAILY"), dates: &[], exceptions: &[] };
    /// let mut buffer = [0; 64];
    /// let len = lines.write(&mut buffer)?;
    /// Some(&buffer[..len]) == Some(b"DTSTART;TZID=Europe/Berlin:20240131T090000\nRRULE:FREQ=DAILY\n") // true
    /// ```
    pub fn write(&self, buffer: &mut [u8]) -> Option<usize>
        ensures text { IfSome result (λ len. take len buffer.new ≡ calendar_lines (parts_written self.now)) }
        ensures within { IfSome result (λ len. len ≤ length buffer.new) }
        ensures none { IfNone result (IsTooLong buffer.old 0 (calendar_lines (parts_written self.now))) }
        ensures length { length buffer.new ≡ length buffer.old }
    {
        self.put_all(buffer, 0)
    }

    // Puts all lines.
    #[tactic(auto, unfolding(crate::specs::WrittenCalendars::calendar_lines))]
    fn put_all(&self, buffer: &mut [u8], len: usize) -> Option<usize>
        requires { len ≤ length buffer.old }
        ensures put { IfSome result (λ end. IsPut buffer.old buffer.new len (calendar_lines (parts_written self.now)) end) }
        ensures none { IfNone result (IsTooLong buffer.old len (calendar_lines (parts_written self.now))) }
        ensures length { length buffer.new ≡ length buffer.old }
    {
        let end = self.put_front(buffer, len)?;
        self.put_lists(buffer, end)
    }

    // Puts DTSTART and RRULE.
    fn put_front(&self, buffer: &mut [u8], len: usize) -> Option<usize>
        requires { len ≤ length buffer.old }
        ensures put { IfSome result (λ end. IsPut buffer.old buffer.new len (time_line Start (text_in self.now.zone) self.now.start ++ rule_line (text_in self.now.rule)) end) }
        ensures none { IfNone result (IsTooLong buffer.old len (time_line Start (text_in self.now.zone) self.now.start ++ rule_line (text_in self.now.rule))) }
        ensures length { length buffer.new ≡ length buffer.old }
    {
        let end = put_line(buffer, len, Property::Start, self.zone, &self.start)?;
        put_rule(buffer, end, self.rule)
    }

    // Puts RDATE and EXDATE.
    fn put_lists(&self, buffer: &mut [u8], len: usize) -> Option<usize>
        requires { len ≤ length buffer.old }
        ensures put { IfSome result (λ end. IsPut buffer.old buffer.new len (times_text Dates (text_in self.now.zone) self.now.dates.now ++ times_text Exceptions (text_in self.now.zone) self.now.exceptions.now) end) }
        ensures none { IfNone result (IsTooLong buffer.old len (times_text Dates (text_in self.now.zone) self.now.dates.now ++ times_text Exceptions (text_in self.now.zone) self.now.exceptions.now)) }
        ensures length { length buffer.new ≡ length buffer.old }
    {
        let end = put_times(buffer, len, Property::Dates, self.zone, self.dates)?;
        put_times(
            buffer,
            end,
            Property::Exceptions,
            self.zone,
            self.exceptions,
        )
    }
}

// Puts a line for each time.
fn put_times(
    buffer: &mut [u8],
    len: usize,
    property: Property,
    zone: Option<&[u8]>,
    times: &[CalendarTime],
) -> Option<usize>
    requires { len ≤ length buffer.old }
    ensures put { IfSome result (λ end. IsPut buffer.old buffer.new len (times_text property (text_in zone.entry) times.now) end) }
    ensures none { IfNone result (IsTooLong buffer.old len (times_text property (text_in zone.entry) times.now)) }
    ensures length { length buffer.new ≡ length buffer.old }
{
    let mut end = len;
    let mut rest = times;
    while let Some((time, behind)) = rest.split_first() {
        end = put_line(buffer, end, property, zone, time)?;
        rest = behind;
    }
    Some(end)
}

// Puts a line with a time.
#[tactic(auto, unfolding(crate::specs::WrittenCalendars::time_line))]
fn put_line(
    buffer: &mut [u8],
    len: usize,
    property: Property,
    zone: Option<&[u8]>,
    time: &CalendarTime,
) -> Option<usize>
    requires { len ≤ length buffer.old }
    ensures put { IfSome result (λ end. IsPut buffer.old buffer.new len (time_line property (text_in zone.entry) time.now) end) }
    ensures none { IfNone result (IsTooLong buffer.old len (time_line property (text_in zone.entry) time.now)) }
    ensures length { length buffer.new ≡ length buffer.old }
{
    let front = front_of(property, zone, time);
    let back = back_of(time);
    put_three(
        buffer,
        len,
        front.as_bytes(),
        zone_text(zone, time),
        back.as_bytes(),
    )
}

// Puts the line of a rule, if there is one.
#[tactic(auto, unfolding(crate::specs::WrittenCalendars::rule_line))]
fn put_rule(buffer: &mut [u8], len: usize, rule: Option<&[u8]>) -> Option<usize>
    requires { len ≤ length buffer.old }
    ensures put { IfSome result (λ end. IsPut buffer.old buffer.new len (rule_line (text_in rule.entry)) end) }
    ensures none { IfNone result (IsTooLong buffer.old len (rule_line (text_in rule.entry))) }
    ensures length { length buffer.new ≡ length buffer.old }
{
    match rule {
        None => Some(len),
        Some(text) => put_three(buffer, len, b"RRULE:", text, b"\n"),
    }
}

// The name of a property, and the parameter of a time.
fn front_of(property: Property, zone: Option<&[u8]>, time: &CalendarTime) -> Text<32>
    ensures { result ≡ property_key property ++ parameter_text (text_in zone.entry) time.now }
{
    let mut text = Text::new();
    text.push_text(property_key(property));
    text.push_text(parameter_text(zone, time));
    text
}

// The parameter of a time, but for the name of a zone.
#[tactic(auto, unfolding(crate::specs::WrittenCalendars::parameter_text))]
fn parameter_text(zone: Option<&[u8]>, time: &CalendarTime) -> &'static [u8]
    ensures value { result.now ≡ parameter_text (text_in zone.entry) time.now }
    ensures small { length result.now ≤ 11 }
{
    match time {
        CalendarTime::Date(_) => b";VALUE=DATE",
        CalendarTime::Local(_) => match zone {
            Some(_) => b";TZID=",
            None => b"",
        },
        CalendarTime::Utc(_) => b"",
    }
}

// The name of the zone of a local time.
#[tactic(auto, unfolding(crate::specs::WrittenCalendars::zone_in_line))]
fn zone_text<'a>(zone: Option<&'a [u8]>, time: &CalendarTime) -> &'a [u8]
    ensures { result.now ≡ zone_in_line (text_in zone.entry) time.now }
{
    match time {
        CalendarTime::Local(_) => match zone {
            Some(name) => name,
            None => b"",
        },
        CalendarTime::Date(_) | CalendarTime::Utc(_) => b"",
    }
}

// A colon, a time and a line feed.
fn back_of(time: &CalendarTime) -> Text<48>
    ensures { result ≡ (codes ":" ++ calendar_time_text time.now) ++ codes "\n" }
{
    let mut text = Text::new();
    text.push(b':');
    put_time(&mut text, time);
    text.push(b'\n');
    text
}
