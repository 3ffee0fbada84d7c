//! Writes date-times in a zone by patterns, and reads them.
ghost use Rattle.std.specs.Prelude.{◌≡◌, ◌↔◌, ◌≤◌, ℕ, ℤ, List, false, Ok, Err, IfErr, IfOk, IfSome, IsOk, IsSome, length};
ghost use Rattle.chrono_instant.specs.Offsets.{moment_ahead};
ghost use Rattle.chrono_zoned.specs.Zoned.{Zoned, local_at, offset_at};
ghost use Rattle.chrono_pattern.specs.DateParts.{is_present};
ghost use Rattle.chrono_pattern.specs.NamedParts.{named_parts, sure_parts};
ghost use Rattle.chrono_pattern.specs.Parses.{IsFrontParseError, IsParseError, IsZonedBy, IsZonedInFront, not_named_error};
ghost use Rattle.chrono_pattern.specs.Patterns.{text_at_offset};
ghost use Rattle.chrono_pattern.specs.ZonedParts.{IsClockZoned, names_zoned};

use crate::error::{NOT_ENOUGH, PatternReadError};
use crate::named_parts::named_parts;
use crate::pattern::Pattern;
use crate::writer::text_of;
use chrono_text::Text;
use chrono_zoned::{DateTime, FixedOffset, TimeZone};

impl<'a> Pattern<'a> {
    /// Returns the text of `moment`: of the date, the time of day and the offset that its zone's clock shows. Returns `None` if the text
    /// has more than `N` bytes.
    ///
    /// ```
    /// use chrono_zoned::{FixedOffset, InZone};
    /// let india = FixedOffset::east_opt(19_800)?;
    /// let moment = india.with_ymd_and_hms(2024, 2, 29, 9, 30, 0).single()?;
    /// Pattern::new(b"%+").ok()?.format_zoned::<64, FixedOffset>(moment)?.as_bytes().len() // 25
    /// Pattern::new(b"%z").ok()?.format_zoned::<8, FixedOffset>(moment)?.as_bytes() // [43, 48, 53, 51, 48]
    /// ```
    pub fn format_zoned<const N: usize, Z: TimeZone>(&self, moment: DateTime<Z>) -> Option<Text<N>>
        ensures text { IfSome result (λ text. text
            ≡ text_at_offset self.now (local_at (Z.ahead moment.zone) moment.utc) (offset_at (Z.ahead moment.zone) moment.utc)) }
        ensures exists { IsSome result
            ↔ (length (text_at_offset self.now (local_at (Z.ahead moment.zone) moment.utc) (offset_at (Z.ahead moment.zone) moment.utc)) ≤ N) }
    {
        text_of(self.bytes, moment.naive_local(), moment.offset())
    }

    /// Returns whether the pattern reads an offset from UTC, such as by `%z` or `%+`. `%Z` reads a name alone.
    ///
    /// ```
    /// Pattern::new(b"%T %:z").ok()?.names_offset() // true
    /// Pattern::new(b"%T %Z").ok()?.names_offset() // false
    /// ```
    pub fn names_offset(&self) -> bool
        ensures { result ≡ is_present (named_parts self.now).offset }
    {
        named_parts(self.bytes).offset.is_some()
    }

    /// Returns whether the specifiers of the pattern may name a date-time with its offset, as [`Parsed::to_zoned`](crate::Parsed::to_zoned)
    /// says. If they do not, no text gives one.
    ///
    /// ```
    /// Pattern::new(b"%F %R %z").ok()?.names_zoned() // true
    /// Pattern::new(b"%s").ok()?.names_zoned() // true
    /// Pattern::new(b"%F %R %Z").ok()?.names_zoned() // false
    /// ```
    pub fn names_zoned(&self) -> bool
        ensures { result ≡ names_zoned (sure_parts self.now) }
    {
        self.names.zoned
    }

    /// Returns the date-time with its offset that `text` is of.
    ///
    /// # Errors
    ///
    /// Returns `NotEnough` at byte 0 for each text if the specifiers name no such value ([`names_zoned`](Pattern::names_zoned)). Then no text is read.
    ///
    /// Else it returns [`PatternReadError`] as [`Pattern::read_parts`] does, and at the end of the text for the causes of
    /// [`Parsed::to_zoned`](crate::Parsed::to_zoned).
    ///
    /// ```
    /// Pattern::new(b"%F %R %z").ok()?.parse_zoned(b"2024-02-29 09:30 +0530").ok() // Some(2024-02-29T09:30:00+05:30)
    /// Pattern::new(b"%+").ok()?.parse_zoned(b"2024-02-29T09:30:00.5Z").ok() // Some(2024-02-29T09:30:00.500+00:00)
    /// Pattern::new(b"%F %R").ok()?.parse_zoned(b"2024-02-29 09:30").err() // Some(PatternReadError { byte: 0, cause: NotEnough })
    /// ```
    pub fn parse_zoned(&self, text: &[u8]) -> Result<DateTime<FixedOffset>, PatternReadError>
        ensures zoned { IfOk result (λ d. IsZonedBy self.now text.now (moment_ahead d.utc d.zone) d.zone) }
        ensures clock { IfOk result (λ d. IsClockZoned d) }
        ensures every { (d : Zoned ℤ) → IsClockZoned d → IsZonedBy self.now text.now (moment_ahead d.utc d.zone) d.zone → result ≡ Ok d }
        ensures not_enough { names_zoned (sure_parts self.now) ≡ false → result ≡ Err not_named_error }
        ensures error { IfErr result (IsParseError names_zoned self.now text.now) }
    {
        if !self.names.zoned {
            return Err(NOT_ENOUGH);
        }
        match self.read_parts(text) {
            Ok(parts) => match parts.to_zoned() {
                Ok(moment) => Ok(moment),
                Err(cause) => Err(PatternReadError {
                    byte: text.len(),
                    cause,
                }),
            },
            Err(error) => Err(error),
        }
    }

    /// Returns the date-time with its offset that the front of `text` is of, and what is behind it.
    ///
    /// # Errors
    ///
    /// Returns `NotEnough` at byte 0 for each text if the specifiers name no such value ([`names_zoned`](Pattern::names_zoned)). Then no text is read.
    ///
    /// Else it returns [`PatternReadError`] as [`Pattern::read_front`] does, and at the end of the front for the causes of
    /// [`Parsed::to_zoned`](crate::Parsed::to_zoned).
    ///
    /// ```
    /// let (moment, rest) = Pattern::new(b"%s").ok()?.parse_zoned_and_remainder(b"0 s").ok()?;
    /// moment // 1970-01-01T00:00:00+00:00
    /// rest.len() // 2
    /// ```
    pub fn parse_zoned_and_remainder<'t>(
        &self,
        text: &'t [u8],
    ) -> Result<(DateTime<FixedOffset>, &'t [u8]), PatternReadError>
        ensures zoned { IfOk result (λ r. IsZonedInFront self.now text.now (moment_ahead r.0.utc r.0.zone) r.0.zone r.1.now) }
        ensures clock { IfOk result (λ r. IsClockZoned r.0) }
        ensures exists { (d : Zoned ℤ) → (rest : List ℕ) → IsClockZoned d
            → IsZonedInFront self.now text.now (moment_ahead d.utc d.zone) d.zone rest → IsOk result }
        ensures only { (d : Zoned ℤ) → (rest : List ℕ) → IsClockZoned d
            → IsZonedInFront self.now text.now (moment_ahead d.utc d.zone) d.zone rest → IfOk result (λ r. (r.0 ≡ d) × (r.1.now ≡ rest)) }
        ensures not_enough { names_zoned (sure_parts self.now) ≡ false → result ≡ Err not_named_error }
        ensures error { IfErr result (IsFrontParseError names_zoned self.now text.now) }
    {
        if !self.names.zoned {
            return Err(NOT_ENOUGH);
        }
        match self.read_front(text) {
            Ok((parts, rest)) => match parts.to_zoned() {
                Ok(moment) => Ok((moment, rest)),
                Err(cause) => Err(PatternReadError {
                    byte: text.len().saturating_sub(rest.len()),
                    cause,
                }),
            },
            Err(error) => Err(error),
        }
    }
}
