//! Laws of calendars' texts, and known texts. Each is a clause of a function that does nothing.
ghost use Rattle.std.specs.Prelude.{◌≡◌, ℕ, List, [], ◌∷◌, Some, None, Err, pos, codes, true};
ghost use Rattle.chrono_datetime.specs.Moment.{moment};
ghost use Rattle.chrono_datetime.specs.Time.{time_at};
ghost use Rattle.calendar_text.specs.CalendarTexts.{CalendarParts, IsCalendarText, start_read};
ghost use Rattle.calendar_text.specs.CalendarTimes.{CanBeReadBack, time_of, calendar_time_text};
ghost use Rattle.calendar_text.specs.Folds.{are_short, folded, may_fold, unfolded};
ghost use Rattle.calendar_text.specs.WrittenCalendars.{AreWritableParts, calendar_lines};
ghost use Rattle.calendar_text.specs.Reads.{calendar_error_at};
ghost use Rattle.calendar_text.specs.declared.calendar_error.CalendarTextFault.TheVariants.{OtherKind, OtherZone, PropertyTwice};
ghost use Rattle.calendar_text.specs.declared.calendar_time.CalendarTime.{CalendarTime};
ghost use Rattle.calendar_text.specs.declared.calendar_time.CalendarTime.TheVariants.{Date, Local, Utc};

/// A text that is folded and unfolded is the same again, if no line begins with a blank and no byte is a carriage return.
pub fn folded_texts_are_unfolded()
    ensures { (text : List ℕ) → may_fold text ≡ true → unfolded (folded text) ≡ text }
{}

/// Each line of a folded text has at most 75 bytes, its line break excluded, as RFC 5545 (3.1) asks.
pub fn folded_lines_are_short()
    ensures { (text : List ℕ) → are_short 0 (folded text) ≡ true }
{}

/// A time that is written is read back, if its year is from 0 to 9999 and it is no fraction of a second.
pub fn written_times_are_read()
    ensures { (t : CalendarTime) → CanBeReadBack t → time_of (calendar_time_text t) ≡ Some t }
{}

/// A text that is written for a calendar and folded is read as what it was written from.
///
/// Each time can be read back. A zone has a name of safe characters, and the start is local; so is it beside local times of the lists.
pub fn written_calendars_are_read()
    ensures { (c : CalendarParts) → AreWritableParts c → IsCalendarText (folded (calendar_lines c)) c }
{}

/// Texts with lines of RFC 5545 (3.8.5), folded too: a daily rule in New York, three exceptions in UTC, and two dates.
pub fn known_calendars()
    ensures new_york { IsCalendarText (codes "DTSTART;TZID=America/New_York:19970902T090000\r\nRRULE:FREQ=DAILY;CO\r\n UNT=10\r\n")
        (record { start = Local (moment (pos 729_269) (time_at 9 0 0 0)); zone = Some (codes "America/New_York"); rule = Some (codes "FREQ=DAILY;COUNT=10"); dates = []; exceptions = [] }) }
    ensures utc { IsCalendarText (codes "EXDATE:19960402T010000Z,19960403T010000Z\nDTSTART:19960401T010000Z\n")
        (record {
          start = Utc (moment (pos 728_750) (time_at 1 0 0 0));
          zone = None;
          rule = None;
          dates = [];
          exceptions = Utc (moment (pos 728_751) (time_at 1 0 0 0)) ∷ Utc (moment (pos 728_752) (time_at 1 0 0 0)) ∷ [];
        }) }
    ensures dates { IsCalendarText (codes "DTSTART;VALUE=DATE:19961230\r\nrdate;value=date:19970101,19970120\r\n")
        (record { start = Date (pos 729_023); zone = None; rule = None; dates = Date (pos 729_025) ∷ Date (pos 729_044) ∷ []; exceptions = [] }) }
{}

/// Unfolded texts with an error: a date with no VALUE, a second DTSTART, and an exception with no zone beside a start in a zone.
pub fn known_errors()
    ensures kind { start_read (codes "DTSTART:20240131") ≡ Err (calendar_error_at 8 OtherKind) }
    ensures twice { start_read (codes "DTSTART:20240131T090000Z\nDTSTART:20240131T090000Z") ≡ Err (calendar_error_at 25 PropertyTwice) }
    ensures zone { start_read (codes "DTSTART;TZID=UTC:20240131T090000\nEXDATE:20240131T090000") ≡ Err (calendar_error_at 40 OtherZone) }
{}
