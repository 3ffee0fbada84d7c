//! `Zone`: a table of changes, and the rule behind them.
ghost use Rattle.std.specs.Prelude.{◌≡◌, ◌↔◌, ◌⊎◌, ◌-◌, ◌<◌, ℤ, pos, ◌+ℤ◌, ◌≤ℤ◌, ◌<ℤ◌, IfErr, IfOk, IfSome, IsFalse, IsSome, IsTrue, Some, length};
ghost use Rattle.chrono_zoned.specs.Offsets.{IsOffset};
ghost use Rattle.chrono_zoned.specs.Zones.{HoldsUntil, IsMapped};
ghost use Rattle.zone_rule.specs.Rules.{rule_offset};
ghost use Rattle.zone_table.specs.Sequence.{IsRising};
ghost use Rattle.zone_table.specs.Table.{IsTable, offset_after, row_second, table_offset};
ghost use Rattle.zone.specs.Parts.{GoesOn, IsFault, IsJoined, IsZone, SetsAt, is_behind, last_row, offset_with, zone_offset};
ghost use Rattle.zone.specs.Private.{ShowAlike};

use crate::fault::ZoneFault;
use chrono_zoned::{FixedOffset, MappedLocalTime, Stretch};
use std::marker::Model;
use zone_rule::ZoneRule;
use zone_table::{Row, first_unordered};

// The rule keeps the offset of the last row for two days.
const SECS_KEPT: i64 = 172_800;

/// A time zone: the offset before all rows, the rows of its changes, and the rule that goes on behind them.
///
/// The rows are a slice of the caller's. A contract sees a zone as a record of the three parts.
///
/// ```
/// let zero = FixedOffset::east_opt(0)?;
/// let hour = FixedOffset::east_opt(3_600)?;
/// let rows = [Row { second: 1_000, offset: hour }];
/// let zone = Zone::new(zero, &rows, None).ok()?;
/// zone.offset_of_instant(1_000) // +01:00
/// ```
#[derive(Drop)]
pub struct Zone<'a> {
    first: FixedOffset,
    rows: &'a [Row],
    rule: Option<ZoneRule>,
}

impl<'a> Model for Zone<'a> {
    ghost use Rattle.zone.specs.Parts.{ZoneParts};
    ghost use Rattle.zone.specs.Private.{IsWhole};

    ghost Value = { ZoneParts };

    ghost view = { λ z. record { first = z.first; rows = z.rows.now; rule = z.rule } };

    ghost invariant = { λ z. IsWhole (record { first = z.first; rows = z.rows.now; rule = z.rule }) };
}

impl<'a> Zone<'a> {
    /// Returns the zone of an offset before all rows, of rows, and of the rule that goes on behind them.
    ///
    /// With no rule the last offset holds for ever. With no row the rule holds always.
    ///
    /// # Errors
    ///
    /// Returns [`ZoneFault::Unordered`] if a row does not follow the one before it. Otherwise returns [`ZoneFault::NotJoined`] if the
    /// rule does not keep the offset of the last row for two days. It also does so if the rule sets the clock there past `i64::MAX`.
    ///
    /// ```
    /// let zero = FixedOffset::east_opt(0)?;
    /// let hour = FixedOffset::east_opt(3_600)?;
    /// let rule = ZoneRule { standard: zero, daylight: None };
    /// let rows = [Row { second: 1_000, offset: hour }; 2];
    /// Zone::new(zero, &rows[..1], Some(rule)).err() // Some(NotJoined)
    /// Zone::new(zero, &rows, None).err() // Some(Unordered(1))
    /// Zone::new(zero, &[], Some(rule)).is_ok() // true
    /// ```
    pub fn new(
        first: FixedOffset,
        rows: &'a [Row],
        rule: Option<ZoneRule>,
    ) -> Result<Zone<'a>, ZoneFault>
        ensures parts { IfOk result (λ z. z ≡ record { first = first; rows = rows.now; rule = rule }) }
        ensures zone { IfOk result (λ z. IsZone z) }
        ensures fault { IfErr result (IsFault (record { first = first; rows = rows.now; rule = rule })) }
    {
        if let Some(place) = first_unordered(first, rows) {
            return Err(ZoneFault::Unordered(place));
        }
        if !is_joined(rows, &rule) {
            return Err(ZoneFault::NotJoined);
        }
        Ok(Zone { first, rows, rule })
    }

    /// Returns the offset at the instant `second`, in seconds from 1 January 1970 in UTC.
    ///
    /// ```
    /// let zero = FixedOffset::east_opt(0)?;
    /// let hour = FixedOffset::east_opt(3_600)?;
    /// let rows = [Row { second: 1_000, offset: hour }];
    /// let zone = Zone::new(zero, &rows, None).ok()?;
    /// zone.offset_of_instant(999) // +00:00
    /// ```
    pub fn offset_of_instant(&self, second: i64) -> FixedOffset
        ensures { result ≡ zone_offset self.now second }
    {
        if let Some(rule) = &self.rule {
            if is_behind(self.rows, second) {
                return rule.offset_of_instant(second);
            }
        }
        zone_table::offset_of_instant(self.first, self.rows, second)
    }

    /// Returns the offset at the instant `second`, and a later second up to which it holds: that of the next row, or of the next
    /// change by the rule.
    ///
    /// It is `i64::MAX` if there is none up to then.
    ///
    /// ```
    /// let zero = FixedOffset::east_opt(0)?;
    /// let hour = FixedOffset::east_opt(3_600)?;
    /// let rows = [Row { second: 1_000, offset: hour }];
    /// let zone = Zone::new(zero, &rows, None).ok()?;
    /// zone.stretch_of_instant(999).until // 1000
    /// ```
    pub fn stretch_of_instant(&self, second: i64) -> Stretch
        ensures offset { result.offset ≡ zone_offset self.now second }
        ensures holds { HoldsUntil (zone_offset self.now) second result.until }
        ensures later { second <ℤ pos 9_223_372_036_854_775_807 → second <ℤ result.until }
        ensures near { (u : ℤ) → IsOffset (zone_offset self.now u) }
        ensures first { (t : ℤ) → SetsAt self.now t → second <ℤ t → result.until ≤ℤ t }
        ensures end { (result.until ≡ pos 9_223_372_036_854_775_807) ⊎ (SetsAt self.now result.until × (second <ℤ result.until)) }
    {
        if let Some(rule) = &self.rule {
            // A proof knows the range of what is read. The compiler leaves it out.
            let _most = rule_most(rule);
            if is_behind(self.rows, second) {
                return rule.stretch_of_instant(second);
            }
        }
        zone_table::stretch_of_instant(self.first, self.rows, second)
    }

    /// Returns the offsets at all instants at which the clock shows the local second `local`, the earlier instant first.
    ///
    /// There is none if the clock is set ahead past `local`. There are two if it is set back, and shows `local` twice.
    ///
    /// ```
    /// let zero = FixedOffset::east_opt(0)?;
    /// let hour = FixedOffset::east_opt(3_600)?;
    /// let rows = [Row { second: 1_000, offset: hour }];
    /// let zone = Zone::new(zero, &rows, None).ok()?;
    /// zone.offsets_of_local(999) // Single(+00:00)
    /// zone.offsets_of_local(1_000) // None
    /// zone.offsets_of_local(4_600) // Single(+01:00)
    /// ```
    pub fn offsets_of_local(&self, local: i64) -> MappedLocalTime<FixedOffset>
        ensures { IsMapped (zone_offset self.now) local result }
    {
        if let Some(rule) = &self.rule {
            if is_local_behind(self.first, self.rows, rule, local) {
                return offsets_by_rule(rule, local);
            }
        }
        zone_table::offsets_of_local(self.first, self.rows, local)
    }
}

// The last row, if there is one.
fn last_row(rows: &[Row]) -> Option<Row>
    ensures some { IfSome result (λ row. row ≡ last_row rows.now) }
    ensures exists { IsSome result ↔ 0 < length rows.now }
{
    if rows.is_empty() {
        return None;
    }
    Some(rows[rows.len() - 1])
}

// Whether the rule goes on from the last row, or one of the two is missing.
fn is_joined(rows: &[Row], rule: &Option<ZoneRule>) -> bool
    ensures { IsTrue result ↔ IsJoined rows.now rule.now }
{
    match (rule, last_row(rows)) {
        (Some(rule), Some(row)) => goes_on(row, rule),
        _ => true,
    }
}

// The offsets of a local second by a rule. It stands alone, so that those by the rows need not save what it works on.
#[inline(never)]
fn offsets_by_rule(rule: &ZoneRule, local: i64) -> MappedLocalTime<FixedOffset>
    ensures { IsMapped (rule_offset rule.now) local result }
{
    rule.offsets_of_local(local)
}

// Whether the rule goes on from a row.
fn goes_on(row: Row, rule: &ZoneRule) -> bool
    ensures { IsTrue result ↔ GoesOn row rule.now }
{
    let mut at = row.second;
    let mut left = SECS_KEPT;
    while rule.offset_of_instant(at) == row.offset {
        let Some(wait) = rule.seconds_to_change(at) else {
            return true;
        };
        if left < wait {
            return true;
        }
        let Some(next) = at.checked_add(wait) else {
            return false;
        };
        at = next;
        left -= wait;
    }
    false
}

// Whether all rows have begun by the second.
fn is_behind(rows: &[Row], second: i64) -> bool
    requires { IsRising (row_second rows.now) (length rows.now) }
    ensures { result ≡ is_behind rows.now second }
{
    match last_row(rows) {
        Some(row) => row.second <= second,
        None => true,
    }
}

// Whether no clock shows the local second before the last row: neither that of the rows nor the rule's.
fn is_local_behind(first: FixedOffset, rows: &[Row], rule: &ZoneRule, local: i64) -> bool
    requires table { IsTable first rows.now }
    requires keeps { 0 < length rows.now → GoesOn (last_row rows.now) rule.now }
    ensures rule { IsTrue result → ShowAlike (rule_offset rule.now) (offset_with first rows.now (Some rule.now)) local }
    ensures rows { IsFalse result → ShowAlike (table_offset first rows.now) (offset_with first rows.now (Some rule.now)) local }
{
    match last_row(rows) {
        Some(row) => {
            let most = rows_most(first, rows).max(rule_most(rule));
            local_of(row.second, most) <= i128::from(local)
        }
        None => true,
    }
}

// What a clock shows at a second, where it is so far ahead of UTC.
fn local_of(second: i64, offset: i32) -> i128
    ensures { result ≡ second +ℤ offset }
{
    i128::from(second) + i128::from(offset)
}

// The greatest offset of a rule.
fn rule_most(rule: &ZoneRule) -> i32
    ensures most { (u : ℤ) → rule_offset rule.now u ≤ℤ result }
    ensures near { (u : ℤ) → IsOffset (rule_offset rule.now u) }
    ensures in_range { IsOffset result }
{
    let standard = rule.standard.local_minus_utc();
    match rule.daylight {
        Some(daylight) => standard.max(daylight.offset.local_minus_utc()),
        None => standard,
    }
}

// The greater of the offsets before and from the last row.
fn rows_most(first: FixedOffset, rows: &[Row]) -> i32
    requires { 0 < length rows.now }
    ensures before { offset_after first rows.now (length rows.now - 1) ≤ℤ result }
    ensures last { (last_row rows.now).offset ≤ℤ result }
    ensures in_range { IsOffset result }
{
    let last = rows[rows.len() - 1].offset.local_minus_utc();
    let before = if rows.len() == 1 {
        first
    } else {
        rows[rows.len() - 2].offset
    };
    last.max(before.local_minus_utc())
}
