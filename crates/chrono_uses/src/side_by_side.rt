//! A third stored form of dates, to show that another form needs no change below.
ghost use Rattle.std.specs.Prelude.{◌≡◌};

use chrono_calendar::{DayForm, Steps};
use chrono_stored::CountedForm;
use chrono_units::Weekday;
use std::cmp::Ordering;
use std::hash::{Hash, Hasher};
use std::marker::Model;

/// A date stored as its year, its month and its day of the month, side by side.
#[derive(Clone, Copy, Debug)]
pub struct SideBySide {
    year: i32,
    month: u32,
    day: u32,
}

impl Model for SideBySide {
    ghost use Rattle.std.specs.Prelude.{◌≡◌, ℤ, Some};
    ghost use Rattle.chrono_calendar.specs.Days.{date_of_ymd, day_number_of_ymd, year_of, month_of, day_of};
    ghost use Rattle.chrono_uses.specs.Named.{fields_again};

    ghost Value = { ℤ };

    ghost view = { λ a. day_number_of_ymd a.year a.month a.day };

    ghost invariant = { λ a. date_of_ymd a.year a.month a.day ≡ Some (day_number_of_ymd a.year a.month a.day) };

    ghost inverse = { λ n. record { year = year_of n; month = month_of n; day = day_of n } };

    ghost inverse_ok = { λ a h. fields_again a.year a.month a.day h (λ y m d. record { year = y; month = m; day = d }) };
}

impl SideBySide {
    // The same date, counted.
    fn counted(&self) -> CountedForm
        ensures { result ≡ self.now }
    {
        match CountedForm::from_ymd(self.year, self.month, self.day) {
            Some(date) => date,
            None => unreachable!(),
        }
    }

    // The form of a counted date.
    fn of_counted(date: CountedForm) -> SideBySide
        ensures { result ≡ date }
    {
        let (year, month, day) = date.year_month_day();
        SideBySide { year, month, day }
    }
}

impl PartialEq for SideBySide {
    ghost use Rattle.std.specs.Ordering.{int_eq};
    ghost use Rattle.std.proofs.Common.{rules};
    ghost use Rattle.std.specs.Cmp.Rules.{comparing};

    ghost eq = { int_eq };

    ghost laws = { Prim.search (comparing, rules) };

    fn eq(&self, other: &SideBySide) -> bool {
        self.counted() == other.counted()
    }
}

impl Eq for SideBySide {
    ghost use Rattle.std.proofs.Common.{rules};
    ghost use Rattle.std.specs.Cmp.Rules.{comparing};

    ghost laws = { Prim.search (comparing, rules) };
}

impl Ord for SideBySide {
    ghost use Rattle.std.specs.Ordering.{int_cmp};
    ghost use Rattle.std.proofs.Common.{rules};
    ghost use Rattle.std.specs.Cmp.Rules.{comparing};

    ghost cmp = { int_cmp };

    ghost total = { Prim.search (comparing, rules) };

    ghost matches_partial_cmp = { Prim.search (comparing, rules) };

    ghost matches_eq = { Prim.search (comparing, rules) };

    fn cmp(&self, other: &SideBySide) -> Ordering {
        self.counted().cmp(&other.counted())
    }
}

impl PartialOrd for SideBySide {
    ghost use Rattle.std.specs.Ordering.{int_cmp, as_partial_cmp};
    ghost use Rattle.std.specs.Cmp.{partial_order_from_own_ties};
    ghost use Rattle.std.proofs.Common.{rules};
    ghost use Rattle.std.specs.Cmp.Rules.{comparing};

    ghost partial_cmp = { as_partial_cmp int_cmp };

    ghost laws = { partial_order_from_own_ties (Prim.search (comparing, rules)) (Prim.search (comparing, rules)) };

    fn partial_cmp(&self, other: &SideBySide) -> Option<Ordering> {
        Some(self.cmp(other))
    }
}

impl Hash for SideBySide {
    ghost use Rattle.std.specs.Hash as fed;
    ghost use Rattle.std.proofs.Common.{rules};
    ghost use Rattle.std.specs.Cmp.Rules.{hashing};

    ghost hash_input = { λ n. fed.i32 n };

    ghost respects_eq = { Prim.search (hashing, rules) };

    fn hash<H: Hasher>(&self, state: &mut H) {
        self.counted().day().hash(state);
    }
}

impl DayForm for SideBySide {
    ghost use Rattle.std.specs.Prelude.{ℤ, refl};

    ghost number = { λ n. n };

    ghost steps_of = { λ n. 0 };

    ghost no_step = { λ n h. refl };

    ghost one_form = { λ a b h. h };

    ghost in_order = { λ a b. refl };

    fn from_yo(year: i32, ordinal: u32) -> Option<Self> {
        Some(SideBySide::of_counted(CountedForm::from_yo(year, ordinal)?))
    }

    fn from_ymd(year: i32, month: u32, day: u32) -> Option<Self> {
        Some(SideBySide::of_counted(CountedForm::from_ymd(year, month, day)?))
    }

    fn from_day(days: i32, steps: &mut Steps) -> Option<Self> {
        Some(SideBySide::of_counted(CountedForm::from_day(days, steps)?))
    }

    fn day(&self) -> i32 {
        self.counted().day()
    }

    fn year(&self) -> i32 {
        self.counted().year()
    }

    fn ordinal(&self) -> u32 {
        self.counted().ordinal()
    }

    fn month_day(&self) -> (u32, u32) {
        self.counted().month_day()
    }

    fn is_leap(&self) -> bool {
        self.counted().is_leap()
    }

    fn weekday(&self) -> Weekday {
        self.counted().weekday()
    }
}
