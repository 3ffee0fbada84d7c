//! `OwnedZone`: a zone with the memory for its rows and names.
ghost use Rattle.std.specs.Prelude.{◌≡◌, Option, None, IfErr, IfNone, IfOk, IfSome, codes, length};
ghost use Rattle.zone_file.specs.Tables.{AreFileRows};
ghost use Rattle.zone_rule.specs.declared.rule.ZoneRule.{ZoneRule};
ghost use Rattle.zone.specs.Parts.{IsFault, IsZone};
ghost use Rattle.zone_database.specs.OwnedZones.{IsFileError, IsFooterOf, IsOwnedRowsError, IsRowsFileError, IsRowsOfFile, IsTextError, IsZoneOfFile, IsZoneOfText};

use crate::error::ZoneError;
use std::alloc::Allocator;
use std::marker::Model;
use std::str;
use zone::{FixedOffset, Row, Zone, ZoneFault, ZoneRule};
use zone_file::{LocalTimeKind, ZoneFile, ZoneRowsError};
use zone_text::ZoneTextError;

/// A time zone with its memory: rows, a rule, and the file or the text that they are from. [`zone`](OwnedZone::zone) lends it.
///
/// A contract sees it as a record of the offset at first, the rows and the rule.
///
/// ```
/// let utc = OwnedZone::utc(rt.alloc()).ok()?;
/// utc.zone().offset_of_instant(0) // +00:00
/// ```
#[derive(Drop)]
pub struct OwnedZone<A: Allocator> {
    first: FixedOffset,
    rows: Vec<Row, A>,
    rule: Option<ZoneRule>,
    // The file, or the text of the rule.
    source: Vec<u8, A>,
    is_file: bool,
}

impl<A: Allocator> Model for OwnedZone<A> {
    ghost use Rattle.zone.specs.Parts.{IsZone, ZoneParts};

    ghost Value = { ZoneParts };

    ghost view = { λ z. record { first = z.first; rows = z.rows.items; rule = z.rule } };

    ghost invariant = { λ z. IsZone (record { first = z.first; rows = z.rows.items; rule = z.rule }) };
}

impl<A: Allocator> OwnedZone<A> {
    /// Returns the zone that the bytes of a TZif file hold. `alloc` gives the memory for its rows.
    ///
    /// # Errors
    ///
    /// Returns an error if the bytes are no TZif file, if a row names no kind of local time, or if rows and rule make up no zone.
    /// Each error is what it says, so no good file is refused unless memory is short. [`from_tzif_rows`](OwnedZone::from_tzif_rows) reads
    /// the rows of a file whose rule does not go on from them.
    ///
    /// ```
    /// let mut bytes = Vec::new(rt.alloc());
    /// bytes.push(b'?').ok()?;
    /// OwnedZone::from_tzif(rt.alloc(), bytes).err() // Some(File(ZoneFileError { fault: CutOff, byte: 0 }))
    /// ```
    pub fn from_tzif(alloc: A, bytes: Vec<u8, A>) -> Result<OwnedZone<A>, ZoneError>
        ensures read { IfOk result (λ zone. IsZoneOfFile bytes.items zone) }
        ensures error { IfErr result (IsFileError bytes.items) }
    {
        let (first, rows, rule) = parts_of_file(alloc, bytes.as_slice())?;
        if let Some(fault) = fault_of(first, rows.as_slice(), &rule) {
            return Err(ZoneError::Zone(fault));
        }
        Ok(OwnedZone {
            first,
            rows,
            rule,
            source: bytes,
            is_file: true,
        })
    }

    /// Returns the zone of the rows of a TZif file alone. The footer is not looked at, and the last row's offset holds for ever.
    ///
    /// It is for a file that [`from_tzif`](OwnedZone::from_tzif) refuses since its rule does not go on from its last row. RFC 9636, section
    /// 3.3, asks for that. `zic -b slim` writes such a file of `America/Ojinaga`.
    ///
    /// # Errors
    ///
    /// Returns an error if the bytes are no TZif file, if a row names no kind of local time, or if a row does not follow the one before it.
    ///
    /// ```
    /// let mut bytes = Vec::new(rt.alloc());
    /// bytes.push(b'?').ok()?;
    /// OwnedZone::from_tzif_rows(rt.alloc(), bytes).err() // Some(File(ZoneFileError { fault: CutOff, byte: 0 }))
    /// ```
    pub fn from_tzif_rows(alloc: A, bytes: Vec<u8, A>) -> Result<OwnedZone<A>, ZoneError>
        ensures read { IfOk result (λ zone. IsRowsOfFile bytes.items zone) }
        ensures error { IfErr result (IsRowsFileError bytes.items) }
    {
        let (first, rows) = first_and_rows(alloc, bytes.as_slice())?;
        if let Some(fault) = fault_of(first, rows.as_slice(), &None) {
            return Err(ZoneError::Zone(fault));
        }
        Ok(OwnedZone {
            first,
            rows,
            rule: None,
            source: bytes,
            is_file: true,
        })
    }

    /// Returns the zone of the rule that `text` writes, such as `EST5EDT,M3.2.0,M11.1.0`. `alloc` gives the memory for its names.
    ///
    /// # Errors
    ///
    /// Returns an error if `text` writes no rule, or if memory is short.
    ///
    /// ```
    /// let zone = OwnedZone::from_posix(rt.alloc(), b"<+0330>-3:30").ok()?;
    /// zone.zone().offset_of_instant(0) // +03:30
    /// OwnedZone::from_posix(rt.alloc(), b"EST").err() // Some(Rule(ZoneTextError { fault: NoOffset, byte: 3 }))
    /// ```
    pub fn from_posix(alloc: A, text: &[u8]) -> Result<OwnedZone<A>, ZoneError>
    where
        A: Clone,
        ensures read { IfOk result (λ zone. IsZoneOfText text.now zone) }
        ensures error { IfErr result (IsTextError text.now) }
    {
        let rule = match zone_text::read(text) {
            Ok(read) => read.rule,
            Err(error) => return Err(ZoneError::Rule(error)),
        };
        let rows = Vec::new(alloc.clone()?);
        let source = Vec::from_slice(alloc, text)?;
        Ok(OwnedZone {
            first: rule.standard,
            rows,
            rule: Some(rule),
            source,
            is_file: false,
        })
    }

    /// Returns UTC.
    ///
    /// ```
    /// OwnedZone::utc(rt.alloc()).ok()?.abbreviation(0) // Some("UTC")
    /// ```
    pub fn utc(alloc: A) -> Result<OwnedZone<A>, ZoneError>
    where
        A: Clone,
        ensures { IfOk result (IsZoneOfText (codes "UTC0")) }
    {
        OwnedZone::from_posix(alloc, b"UTC0")
    }

    /// Lends the zone. This walks all rows once, so keep what it returns.
    ///
    /// ```
    /// let zone = OwnedZone::from_posix(rt.alloc(), b"CET-1CEST,M3.5.0,M10.5.0/3").ok()?;
    /// let zone = zone.zone();
    /// zone.offset_of_instant(1_720_000_000) // +02:00
    /// zone.offsets_of_local(1_711_852_200) // None
    /// ```
    pub fn zone(&self) -> Zone<'_>
        ensures same { result ≡ self.now }
        ensures zone { IsZone self.now }
    {
        Zone::new(self.first, self.rows.as_slice(), self.rule).unwrap()
    }

    /// Returns the offset before all rows.
    ///
    /// ```
    /// OwnedZone::utc(rt.alloc()).ok()?.first() // +00:00
    /// ```
    pub fn first(&self) -> FixedOffset
        ensures { result ≡ self.now.first }
    {
        self.first
    }

    /// Returns the rows: the seconds at which the clock is set, each with the offset from then on.
    ///
    /// ```
    /// OwnedZone::utc(rt.alloc()).ok()?.rows().len() // 0
    /// ```
    pub fn rows(&self) -> &[Row]
        ensures { result.now ≡ self.now.rows }
    {
        self.rows.as_slice()
    }

    /// Returns the rule that goes on behind the rows, if there is one.
    ///
    /// ```
    /// OwnedZone::utc(rt.alloc()).ok()?.rule()?.standard // +00:00
    /// ```
    pub fn rule(&self) -> Option<ZoneRule>
        ensures { result ≡ self.now.rule }
    {
        self.rule
    }

    /// Returns the text of the rule, such as `CET-1CEST,M3.5.0,M10.5.0/3`. It is empty if there is none.
    ///
    /// ```
    /// OwnedZone::utc(rt.alloc()).ok()?.rule_text() // "UTC0"
    /// ```
    pub fn rule_text(&self) -> &str {
        match str::from_utf8(self.rule_bytes()) {
            Ok(text) => text,
            Err(_) => "",
        }
    }

    // The bytes of that text.
    fn rule_bytes(&self) -> &[u8] {
        let source = self.source.as_slice();
        if !self.is_file {
            return source;
        }
        if self.rule.is_none() {
            return b"";
        }
        match zone_file::read(source) {
            Ok(file) => file.footer,
            Err(_) => b"",
        }
    }

    /// Returns the kind of local time that holds at the instant `second`, in seconds from 1 January 1970 in UTC: its offset, whether
    /// it is daylight time, and its name.
    ///
    /// Returns `None` if the file names none there. No contract says which it is.
    ///
    /// ```
    /// let zone = OwnedZone::from_posix(rt.alloc(), b"CET-1CEST,M3.5.0,M10.5.0/3").ok()?;
    /// let summer = zone.kind_at(1_720_000_000)?;
    /// (summer.offset, summer.is_dst, summer.name) // (+02:00, true, [67, 69, 83, 84])
    /// ```
    pub fn kind_at(&self, second: i64) -> Option<LocalTimeKind<'_>> {
        let source = self.source.as_slice();
        if !self.is_file {
            return kind_of_text(source, second);
        }
        let Ok(file) = zone_file::read(source) else {
            return None;
        };
        let begun = rows_begun(self.rows.as_slice(), second);
        if begun == file.places.len() && self.rule.is_some() {
            return kind_of_text(file.footer, second);
        }
        if begun == 0 {
            return file.kind(0);
        }
        file.kind(*file.places.get(begun - 1)?)
    }

    /// Returns the name of the local time that holds at the instant `second`, such as `CEST`.
    ///
    /// Returns `None` if the file names none, or not in UTF-8.
    ///
    /// ```
    /// let zone = OwnedZone::from_posix(rt.alloc(), b"CET-1CEST,M3.5.0,M10.5.0/3").ok()?;
    /// zone.abbreviation(1_720_000_000) // Some("CEST")
    /// ```
    pub fn abbreviation(&self, second: i64) -> Option<&str> {
        let Some(kind) = self.kind_at(second) else {
            return None;
        };
        match str::from_utf8(kind.name) {
            Ok(name) => Some(name),
            Err(_) => None,
        }
    }
}

// Why the parts make up no zone.
fn fault_of(first: FixedOffset, rows: &[Row], rule: &Option<ZoneRule>) -> Option<ZoneFault>
    ensures zone { IfNone result (IsZone (record { first = first; rows = rows.now; rule = rule.now })) }
    ensures fault { IfSome result (IsFault (record { first = first; rows = rows.now; rule = rule.now })) }
{
    match Zone::new(first, rows, *rule) {
        Ok(_) => None,
        Err(fault) => Some(fault),
    }
}

// The offset at first, the rows and the rule of the bytes of a file.
fn parts_of_file<A: Allocator>(
    alloc: A,
    bytes: &[u8],
) -> Result<(FixedOffset, Vec<Row, A>, Option<ZoneRule>), ZoneError>
    ensures read { IfOk result (λ it. IsZoneOfFile bytes.now (record { first = it.0; rows = it.1.items; rule = it.2 })) }
    ensures error { IfErr result (IsFileError bytes.now) }
{
    let file = match zone_file::read(bytes) {
        Ok(file) => file,
        Err(error) => return Err(ZoneError::File(error)),
    };
    let Some(kind) = file.kind(0) else {
        return Err(ZoneError::NoFirstKind);
    };
    let rule = match rule_of_footer(file.footer) {
        Ok(rule) => rule,
        Err(error) => return Err(ZoneError::Rule(error)),
    };
    let rows = rows_of_file(alloc, &file, kind.offset)?;
    Ok((kind.offset, rows, rule))
}

// The offset at first and the rows of the bytes of a file.
fn first_and_rows<A: Allocator>(
    alloc: A,
    bytes: &[u8],
) -> Result<(FixedOffset, Vec<Row, A>), ZoneError>
    ensures read { IfOk result (λ it. IsRowsOfFile bytes.now (record { first = it.0; rows = it.1.items; rule = None })) }
    ensures error { IfErr result (IsRowsFileError bytes.now) }
{
    let file = match zone_file::read(bytes) {
        Ok(file) => file,
        Err(error) => return Err(ZoneError::File(error)),
    };
    let offset = match file.kind(0) {
        Some(kind) => kind.offset,
        None => return Err(ZoneError::NoFirstKind),
    };
    let rows = rows_of_file(alloc, &file, offset)?;
    Ok((offset, rows))
}

// The rows of a file. Until they are read, the offset stands in them.
fn rows_of_file<A: Allocator>(
    alloc: A,
    file: &ZoneFile<'_>,
    offset: FixedOffset,
) -> Result<Vec<Row, A>, ZoneError>
    ensures count { IfOk result (λ rows. length rows.items ≡ length file.now.places.now) }
    ensures rows { IfOk result (λ rows. AreFileRows file.now.version file.now.times.now file.now.places.now file.now.kinds.now (length file.now.places.now) rows.items) }
    ensures error { IfErr result (IsOwnedRowsError file.now.version file.now.times.now file.now.places.now file.now.kinds.now) }
{
    let mut rows = vec![in alloc; Row { second: 0, offset }; file.places.len()]?;
    match file.read_rows(rows.as_mut_slice()) {
        Ok(_) => Ok(rows),
        Err(ZoneRowsError::NoRow(place)) => Err(ZoneError::NoRow(place)),
        // (not reached: there is room)
        Err(ZoneRowsError::NoRoom(count)) => Err(ZoneError::NoRow(count)),
    }
}

// The rule that a footer writes, if it is not empty.
fn rule_of_footer(footer: &[u8]) -> Result<Option<ZoneRule>, ZoneTextError>
    ensures read { IfOk result (λ rule. IsFooterOf footer.now rule) }
    ensures error { IfErr result (λ _. (rule : Option ZoneRule) → ¬ IsFooterOf footer.now rule) }
{
    if footer.is_empty() {
        return Ok(None);
    }
    match zone_text::read(footer) {
        Ok(read) => Ok(Some(read.rule)),
        Err(error) => Err(error),
    }
}

// How many rows have begun by the second.
fn rows_begun(rows: &[Row], second: i64) -> usize {
    rows.partition_point(|row| row.second <= second)
}

// The kind of local time at the second by the rule that a text writes.
fn kind_of_text(text: &[u8], second: i64) -> Option<LocalTimeKind<'_>> {
    let Ok(read) = zone_text::read(text) else {
        return None;
    };
    if !read.rule.is_daylight_at(second) {
        return Some(LocalTimeKind {
            offset: read.rule.standard,
            is_dst: false,
            name: read.standard_name,
        });
    }
    Some(LocalTimeKind {
        offset: read.rule.daylight?.offset,
        is_dst: true,
        name: read.daylight_name,
    })
}
