//! Laws of zones, each as the contract of a function, and known values.
ghost use Rattle.std.specs.Prelude.{◌≡◌, ◌<◌, ◌<ℤ◌, ◌≤ℤ◌, ℤ, pos, [], List, None, Some, length};
ghost use Rattle.zone_rule.specs.Rules.{rule_offset};
ghost use Rattle.zone_rule.specs.declared.rule.ZoneRule.{ZoneRule};
ghost use Rattle.zone_table.specs.Changes.{ChangesAt};
ghost use Rattle.zone_table.specs.Table.{table_offset};
ghost use Rattle.zone_table.specs.declared.row.Row.{Row};
ghost use Rattle.zone.specs.KnownRules.{northern_rows, northern_rule, southern_rule};
ghost use Rattle.zone.specs.Parts.{IsZone, ZoneParts, last_row, zone_offset};

/// A zone with no rule is its table, and a zone with no row is its rule.
pub fn a_zone_has_one_part_alone()
    ensures table { (first : ℤ) (rows : List Row) (u : ℤ) →
        zone_offset (record { first = first; rows = rows; rule = None }) u ≡ table_offset first rows u }
    ensures rule { (first : ℤ) (r : ZoneRule) (u : ℤ) →
        zone_offset (record { first = first; rows = []; rule = Some r }) u ≡ rule_offset r u }
{}

/// Before the second of the last row the table holds, and from that second on the rule.
pub fn the_rule_begins_with_the_last_row()
    ensures before { (z : ZoneParts) → IsZone z → 0 < length z.rows → (u : ℤ) → u <ℤ (last_row z.rows).second →
        zone_offset z u ≡ table_offset z.first z.rows u }
    ensures after { (z : ZoneParts) → IsZone z → (r : ZoneRule) → z.rule ≡ Some r → (u : ℤ) → (last_row z.rows).second ≤ℤ u →
        zone_offset z u ≡ rule_offset r u }
{}

/// States the offsets of two known rules at noon of 15 January and of 15 July 2024 in UTC.
///
/// North of the equator daylight time lasts from March to October, and south of it from October to March.
pub fn known_offsets_of_rules()
    ensures northern_january { rule_offset northern_rule (pos 1_705_320_000) ≡ pos 0 }
    ensures northern_july { rule_offset northern_rule (pos 1_721_044_800) ≡ pos 3_600 }
    ensures southern_january { rule_offset southern_rule (pos 1_705_320_000) ≡ pos 3_600 }
    ensures southern_july { rule_offset southern_rule (pos 1_721_044_800) ≡ pos 0 }
{}

/// States at which seconds the offset of a known table changes, and at which of those next to them it does not.
pub fn known_changes_of_rows()
    ensures ahead { ChangesAt (table_offset (pos 0) northern_rows) (pos 1_709_258_400) }
    ensures back { ChangesAt (table_offset (pos 0) northern_rows) (pos 1_729_990_800) }
    ensures before { ChangesAt (table_offset (pos 0) northern_rows) (pos 1_709_258_399) → ⊥ }
    ensures behind { ChangesAt (table_offset (pos 0) northern_rows) (pos 1_709_258_401) → ⊥ }
{}
