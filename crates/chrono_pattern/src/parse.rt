//! Reads dates, times of day and date-times by patterns.
ghost use Rattle.std.specs.Prelude.{◌≡◌, ℕ, ℤ, List, false, Ok, Err, IfErr, IfOk, IsOk};
ghost use Rattle.chrono_datetime.specs.Days.{IsDate};
ghost use Rattle.chrono_datetime.specs.Moment.{Moment};
ghost use Rattle.chrono_datetime.specs.Time.{TimeOfDay};
ghost use Rattle.chrono_pattern.specs.DateParts.{names_date};
ghost use Rattle.chrono_pattern.specs.NamedParts.{sure_parts};
ghost use Rattle.chrono_pattern.specs.Parses.{IsDateBy, IsDateInFront, IsFrontParseError, IsParseError, IsMomentBy, IsMomentInFront, IsTimeBy, IsTimeInFront, not_named_error};
ghost use Rattle.chrono_pattern.specs.TimeParts.{IsClockTime, names_time};
ghost use Rattle.chrono_pattern.specs.ZonedParts.{IsClockMoment, names_moment};

use crate::error::{NOT_ENOUGH, PatternReadError};
use crate::pattern::{Pattern, read_error};
use crate::reader::reader_of;
use chrono_datetime::{NaiveDate, NaiveDateTime, NaiveTime};

impl<'a> Pattern<'a> {
    /// Returns the date that `text` is of.
    ///
    /// # Errors
    ///
    /// Returns `NotEnough` at byte 0 for each text if the specifiers name no such value ([`names_date`](Pattern::names_date)). Then no text is read.
    ///
    /// Else it returns [`PatternReadError`] as [`Pattern::read_parts`] does, and at the end of the text for the causes of [`Parsed::to_date`](crate::Parsed::to_date).
    ///
    /// ```
    /// Pattern::new(b"%d.%m.%Y").ok()?.parse_date(b"29.2.2024").ok() // Some(2024-02-29)
    /// Pattern::new(b"%d.%m.%Y").ok()?.parse_date(b"29.2.2023").err() // Some(PatternReadError { byte: 9, cause: Impossible })
    /// Pattern::new(b"%d.%m.").ok()?.parse_date(b"any text").err() // Some(PatternReadError { byte: 0, cause: NotEnough })
    /// ```
    pub fn parse_date(&self, text: &[u8]) -> Result<NaiveDate, PatternReadError>
        ensures date { IfOk result (λ n. IsDateBy self.now text.now n) }
        ensures in_range { IfOk result (λ n. IsDate n) }
        ensures every { (n : ℤ) → IsDate n → IsDateBy self.now text.now n → result ≡ Ok n }
        ensures not_enough { names_date (sure_parts self.now) ≡ false → result ≡ Err not_named_error }
        ensures error { IfErr result (IsParseError names_date self.now text.now) }
    {
        if !self.names.date {
            return Err(NOT_ENOUGH);
        }
        match self.read_parts(text) {
            Ok(parts) => match parts.to_date() {
                Ok(date) => Ok(date),
                Err(cause) => Err(PatternReadError {
                    byte: text.len(),
                    cause,
                }),
            },
            Err(error) => Err(error),
        }
    }

    /// Returns the time of day that `text` is of.
    ///
    /// # Errors
    ///
    /// Returns `NotEnough` at byte 0 for each text if the specifiers name no such value ([`names_time`](Pattern::names_time)). Then no text is read.
    ///
    /// Else it returns [`PatternReadError`] as [`Pattern::read_parts`] does, and at the end of the text for the causes of [`Parsed::to_time`](crate::Parsed::to_time).
    ///
    /// ```
    /// Pattern::new(b"%l:%M %P").ok()?.parse_time(b" 9:30 pm").ok() // Some(21:30:00)
    /// Pattern::new(b"%l:%M").ok()?.parse_time(b" 9:30").err() // Some(PatternReadError { byte: 0, cause: NotEnough })
    /// Pattern::new(b"%R%.f").ok()?.parse_time(b"09:30").ok() // Some(09:30:00)
    /// Pattern::new(b"%R%.f").ok()?.parse_time(b"09:30.5").err() // Some(PatternReadError { byte: 7, cause: NotEnough })
    /// ```
    pub fn parse_time(&self, text: &[u8]) -> Result<NaiveTime, PatternReadError>
        ensures time { IfOk result (λ t. IsTimeBy self.now text.now t) }
        ensures clock { IfOk result (λ t. IsClockTime t) }
        ensures every { (t : TimeOfDay) → IsClockTime t → IsTimeBy self.now text.now t → result ≡ Ok t }
        ensures not_enough { names_time (sure_parts self.now) ≡ false → result ≡ Err not_named_error }
        ensures error { IfErr result (IsParseError names_time self.now text.now) }
    {
        if !self.names.time {
            return Err(NOT_ENOUGH);
        }
        match self.read_parts(text) {
            Ok(parts) => match parts.to_time() {
                Ok(time) => Ok(time),
                Err(cause) => Err(PatternReadError {
                    byte: text.len(),
                    cause,
                }),
            },
            Err(error) => Err(error),
        }
    }

    /// Returns the date-time that `text` is of.
    ///
    /// It is the local one: an offset is read and dropped. The seconds from 1970 give that of UTC.
    ///
    /// # Errors
    ///
    /// Returns `NotEnough` at byte 0 for each text if the specifiers name no such value ([`names_date_time`](Pattern::names_date_time)). Then no text is read.
    ///
    /// Else it returns [`PatternReadError`] as [`Pattern::read_parts`] does, and at the end of the text for the causes of
    /// [`Parsed::to_date_time`](crate::Parsed::to_date_time).
    ///
    /// ```
    /// Pattern::new(b"%F %R").ok()?.parse_date_time(b"2024-02-29 09:30").ok() // Some(2024-02-29T09:30:00)
    /// Pattern::new(b"%F %H").ok()?.parse_date_time(b"2024-02-29 09").err() // Some(PatternReadError { byte: 0, cause: NotEnough })
    /// ```
    pub fn parse_date_time(&self, text: &[u8]) -> Result<NaiveDateTime, PatternReadError>
        ensures moment { IfOk result (λ m. IsMomentBy self.now text.now m) }
        ensures clock { IfOk result (λ m. IsClockMoment m) }
        ensures every { (m : Moment) → IsDate m.date → IsClockTime m.time → IsMomentBy self.now text.now m → result ≡ Ok m }
        ensures not_enough { names_moment (sure_parts self.now) ≡ false → result ≡ Err not_named_error }
        ensures error { IfErr result (IsParseError names_moment self.now text.now) }
    {
        if !self.names.date_time {
            return Err(NOT_ENOUGH);
        }
        let mut reader = reader_of(text);
        match self.read_into(&mut reader) {
            Ok(()) => match reader.parsed.to_date_time() {
                Ok(moment) => Ok(moment),
                Err(cause) => Err(PatternReadError {
                    byte: text.len(),
                    cause,
                }),
            },
            Err(stop) => Err(read_error(text, stop)),
        }
    }

    /// Returns the date that the front of `text` is of, and what is behind it.
    ///
    /// # Errors
    ///
    /// Returns `NotEnough` at byte 0 for each text if the specifiers name no such value ([`names_date`](Pattern::names_date)). Then no text is read.
    ///
    /// Else it returns [`PatternReadError`] as [`Pattern::read_front`] does, and at the end of the front for the causes of [`Parsed::to_date`](crate::Parsed::to_date).
    ///
    /// ```
    /// let (date, rest) = Pattern::new(b"%F").ok()?.parse_date_and_remainder(b"2024-02-29T09:30").ok()?;
    /// date // 2024-02-29
    /// rest.len() // 6
    /// ```
    pub fn parse_date_and_remainder<'t>(
        &self,
        text: &'t [u8],
    ) -> Result<(NaiveDate, &'t [u8]), PatternReadError>
        ensures date { IfOk result (λ r. IsDateInFront self.now text.now r.0 r.1.now) }
        ensures in_range { IfOk result (λ r. IsDate r.0) }
        ensures exists { (n : ℤ) → (rest : List ℕ) → IsDate n → IsDateInFront self.now text.now n rest → IsOk result }
        ensures only { (n : ℤ) → (rest : List ℕ) → IsDate n → IsDateInFront self.now text.now n rest
            → IfOk result (λ r. (r.0 ≡ n) × (r.1.now ≡ rest)) }
        ensures not_enough { names_date (sure_parts self.now) ≡ false → result ≡ Err not_named_error }
        ensures error { IfErr result (IsFrontParseError names_date self.now text.now) }
    {
        if !self.names.date {
            return Err(NOT_ENOUGH);
        }
        match self.read_front(text) {
            Ok((parts, rest)) => match parts.to_date() {
                Ok(date) => Ok((date, rest)),
                Err(cause) => Err(PatternReadError {
                    byte: text.len().saturating_sub(rest.len()),
                    cause,
                }),
            },
            Err(error) => Err(error),
        }
    }

    /// Returns the time of day that the front of `text` is of, and what is behind it.
    ///
    /// # Errors
    ///
    /// Returns `NotEnough` at byte 0 for each text if the specifiers name no such value ([`names_time`](Pattern::names_time)). Then no text is read.
    ///
    /// Else it returns [`PatternReadError`] as [`Pattern::read_front`] does, and at the end of the front for the causes of [`Parsed::to_time`](crate::Parsed::to_time).
    ///
    /// ```
    /// let (time, rest) = Pattern::new(b"%R").ok()?.parse_time_and_remainder(b"09:30:15").ok()?;
    /// time // 09:30:00
    /// rest // [58, 49, 53]
    /// ```
    pub fn parse_time_and_remainder<'t>(
        &self,
        text: &'t [u8],
    ) -> Result<(NaiveTime, &'t [u8]), PatternReadError>
        ensures time { IfOk result (λ r. IsTimeInFront self.now text.now r.0 r.1.now) }
        ensures clock { IfOk result (λ r. IsClockTime r.0) }
        ensures exists { (t : TimeOfDay) → (rest : List ℕ) → IsClockTime t → IsTimeInFront self.now text.now t rest → IsOk result }
        ensures only { (t : TimeOfDay) → (rest : List ℕ) → IsClockTime t → IsTimeInFront self.now text.now t rest
            → IfOk result (λ r. (r.0 ≡ t) × (r.1.now ≡ rest)) }
        ensures not_enough { names_time (sure_parts self.now) ≡ false → result ≡ Err not_named_error }
        ensures error { IfErr result (IsFrontParseError names_time self.now text.now) }
    {
        if !self.names.time {
            return Err(NOT_ENOUGH);
        }
        match self.read_front(text) {
            Ok((parts, rest)) => match parts.to_time() {
                Ok(time) => Ok((time, rest)),
                Err(cause) => Err(PatternReadError {
                    byte: text.len().saturating_sub(rest.len()),
                    cause,
                }),
            },
            Err(error) => Err(error),
        }
    }

    /// Returns the date-time that the front of `text` is of, and what is behind it.
    ///
    /// # Errors
    ///
    /// Returns `NotEnough` at byte 0 for each text if the specifiers name no such value ([`names_date_time`](Pattern::names_date_time)). Then no text is read.
    ///
    /// Else it returns [`PatternReadError`] as [`Pattern::read_front`] does, and at the end of the front for the causes of
    /// [`Parsed::to_date_time`](crate::Parsed::to_date_time).
    ///
    /// ```
    /// let (moment, rest) = Pattern::new(b"%F %R").ok()?.parse_date_time_and_remainder(b"2024-02-29 09:30 UTC").ok()?;
    /// moment // 2024-02-29T09:30:00
    /// rest.len() // 4
    /// ```
    pub fn parse_date_time_and_remainder<'t>(
        &self,
        text: &'t [u8],
    ) -> Result<(NaiveDateTime, &'t [u8]), PatternReadError>
        ensures moment { IfOk result (λ r. IsMomentInFront self.now text.now r.0 r.1.now) }
        ensures clock { IfOk result (λ r. IsClockMoment r.0) }
        ensures exists { (m : Moment) → (rest : List ℕ) → IsClockMoment m → IsMomentInFront self.now text.now m rest → IsOk result }
        ensures only { (m : Moment) → (rest : List ℕ) → IsClockMoment m → IsMomentInFront self.now text.now m rest
            → IfOk result (λ r. (r.0 ≡ m) × (r.1.now ≡ rest)) }
        ensures not_enough { names_moment (sure_parts self.now) ≡ false → result ≡ Err not_named_error }
        ensures error { IfErr result (IsFrontParseError names_moment self.now text.now) }
    {
        if !self.names.date_time {
            return Err(NOT_ENOUGH);
        }
        match self.read_front(text) {
            Ok((parts, rest)) => match parts.to_date_time() {
                Ok(moment) => Ok((moment, rest)),
                Err(cause) => Err(PatternReadError {
                    byte: text.len().saturating_sub(rest.len()),
                    cause,
                }),
            },
            Err(error) => Err(error),
        }
    }
}
