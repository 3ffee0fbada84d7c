//! Laws of tables, each as the contract of a function.
//!
//! Those of all zones, as that a local time stands for the same instants whichever way they are found, are laws of
//! `chrono_zoned`.
ghost use Rattle.std.specs.Prelude.{◌≡◌, ℕ, ◌<◌, ℤ, pos, List, length};
ghost use Rattle.chrono_zoned.specs.KnownZones.{set_ahead};
ghost use Rattle.chrono_zoned.specs.Zones.{IsMapped};
ghost use Rattle.zone_table.specs.Changes.{IsNextChange, IsPreviousChange, IsSteadyFrom, IsSteadyTo};
ghost use Rattle.zone_table.specs.declared.row.Row.{Row};
ghost use Rattle.zone_table.specs.Table.{table_offset, row_at};

use chrono_zoned::MappedLocalTime;

/// In a table of one offset each local time stands for one instant.
pub fn one_offset_maps_each_local_time_once()
    ensures { (first : ℤ) (rows : List Row) → ((k : ℕ) → k < length rows → (row_at rows k).offset ≡ first) →
        (l : ℤ) → IsMapped (table_offset first rows) l (MappedLocalTime.Single first) }
{}

/// States when the offset changes of a clock that is set an hour ahead at the second 1,000.
///
/// That second is the next change after 999, and the last one up to 1,000. No change comes after it, and none up to 999.
pub fn known_changes()
    ensures next { IsNextChange set_ahead (pos 999) (pos 1_000) }
    ensures none_after { (t : ℤ) → ¬ IsNextChange set_ahead (pos 1_000) t }
    ensures previous { IsPreviousChange set_ahead (pos 1_000) (pos 1_000) }
    ensures none_before { (t : ℤ) → ¬ IsPreviousChange set_ahead (pos 999) t }
    ensures steady_from { IsSteadyFrom set_ahead (pos 1_000) }
    ensures not_from { ¬ IsSteadyFrom set_ahead (pos 999) }
    ensures steady_to { IsSteadyTo set_ahead (pos 999) }
    ensures not_to { ¬ IsSteadyTo set_ahead (pos 1_000) }
{}
