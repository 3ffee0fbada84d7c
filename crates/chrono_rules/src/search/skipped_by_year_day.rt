//! What a search passes over by BYYEARDAY.
ghost use Rattle.std.specs.Prelude.{◌≡◌, ◌||◌, ◌≤◌, ◌<◌, ◌+◌, ◌-◌, ◌≤ℤ◌, ◌<ℤ◌, ◌+ℤ◌, ℤ, ℕ, pos, true, false};
ghost use Rattle.chrono_datetime.specs.PassedOver.{PassedOver};
ghost use Rattle.chrono_sets.specs.FiniteSets.{has};
ghost use Rattle.chrono_rules.specs.Instances.{is_member};
ghost use Rattle.chrono_rules.specs.ByParts.{on_year_day};
ghost use Rattle.chrono_rules.specs.RuleParts.{lacks_year_days};

use crate::by_parts::days_of_year;
use crate::rule::Rule;
use chrono_datetime::{Datelike, NaiveDate};

impl Rule {
    // How many days from this one on, in its month, are none that BYYEARDAY names.
    #[inline]
    pub(crate) fn passed_by_year_day(&self, start: NaiveDate, day: NaiveDate) -> u32
        ensures passed { PassedOver (is_member self.now start) day (day +ℤ pos result) }
        ensures named { result ≡ 0 → (lacks_year_days self.now || on_year_day self.now day) ≡ true }
        ensures few { result ≤ 31 }
    {
        if self.lacks_year_days() {
            0
        } else {
            self.days_to_year_day(day)
        }
    }

    // How many days from this one on to one that BYYEARDAY names, or at most to the end of its month.
    fn days_to_year_day(&self, day: NaiveDate) -> u32
        ensures passed { PassedOver (on_year_day self.now) day (day +ℤ pos result) }
        ensures named { result ≡ 0 → on_year_day self.now day ≡ true }
        ensures few { result ≤ 31 }
    {
        let place = day.ordinal();
        let behind = days_of_year(day) - place;
        let rest = u32::from(day.num_days_in_month()) - day.day() + 1;
        let front = self.year_days.gap_up(place);
        let back = self.year_days_from_end.gap_down(behind + 1);
        front.min(back).min(rest)
    }
}
