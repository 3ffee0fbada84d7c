//! The packed form of a date: its year, its day of the year and the flags of its year in one number.

ghost use Rattle.std.specs.Prelude.{◌≡◌, SomeIff, pos, neg_ℤ};
ghost use Rattle.chrono_units.specs.Years.{IsYear};
ghost use Rattle.chrono_calendar.specs.Days.{IsOrdinalName, IsCalendarName, day_number_of_yo, day_number_of_ymd, year_of, ordinal_of};
ghost use Rattle.chrono_calendar.specs.Flags.{flags_of_year};
ghost use Rattle.chrono_stored.specs.PackedName.{packed_name};

use crate::conversion::{days_before_year, year_and_ordinal};
use crate::month_day::{month_day, ordinal_of_month_day};
use crate::packing::{flags_in, is_leap_by, ordinal_in, packed_number, weekday_by, year_in};
use chrono_calendar::ends::{FIRST_DAY, LAST_DAY};
use chrono_calendar::{DayForm, Steps, YearFlags};
use chrono_units::Weekday;
use chrono_units::year::is_year;
use std::cmp::Ordering;
use std::hash::{Hash, Hasher};
use std::marker::Model;

/// A date of the proleptic Gregorian calendar, stored as `(year << 13) + (ordinal << 4) + flags`.
///
/// The flags are the [`YearFlags`] of the year. A shift, a mask and a small remainder give the year, the ordinal and
/// the weekday. Two forms compare as their dates do. Contracts see a form as the day number of its date: 1 for 1
/// January of year 1. Each day number has exactly one form.
#[derive(Clone, Copy, Debug)]
pub struct PackedForm {
    packed: i32,
}

impl Model for PackedForm {
    ghost use Rattle.std.specs.Prelude.{ℤ};
    ghost use Rattle.std.proofs.Common.{◌∙◌, ap, sym};
    ghost use Rattle.chrono_calendar.specs.Days.{day_number_of_yo, year_of, ordinal_of};
    ghost use Rattle.chrono_stored.specs.PackedName.{IsPackedName, packed_name, packed_year, packed_ordinal};
    ghost use Rattle.chrono_calendar.proofs.Names.{fields_from_number};

    ghost Value = { ℤ };

    ghost view = { λ a. day_number_of_yo (packed_year a.packed) (packed_ordinal a.packed) };

    ghost invariant = { λ a. IsPackedName a.packed };

    ghost inverse = { λ n. record { packed = packed_name (year_of n) (ordinal_of n) } };

    ghost inverse_ok = { λ a h. fields_from_number (packed_year a.packed) (packed_ordinal a.packed) h.exists (λ y o. record { packed = packed_name y o })
        ∙ ap (λ z. record { packed = z }) (sym h.flags) };
}

impl PackedForm {
    /// The first date, -262143-01-01.
    pub const MIN: PackedForm = PackedForm {
        packed: -2_147_475_430,
    };

    /// The last date, +262142-12-31.
    pub const MAX: PackedForm = PackedForm {
        packed: 2_147_473_118,
    };

    /// Returns the first date, whose day number is -95,746,129.
    ///
    /// ```
    /// use chrono_calendar::DayForm;
    /// PackedForm::min_value().year_month_day() // (-262143, 1, 1)
    /// ```
    #[inline]
    #[tactic(auto, using(crate::proofs::Ends::ends))]
    pub fn min_value() -> PackedForm
        ensures { result ≡ neg_ℤ (pos 95_746_129) }
    {
        PackedForm::MIN
    }

    /// Returns the last date, whose day number is 95,745,399.
    ///
    /// ```
    /// use chrono_calendar::DayForm;
    /// PackedForm::max_value().year_month_day() // (262142, 12, 31)
    /// ```
    #[inline]
    #[tactic(auto, using(crate::proofs::Ends::ends))]
    pub fn max_value() -> PackedForm
        ensures { result ≡ pos 95_745_399 }
    {
        PackedForm::MAX
    }

    /// Returns the stored number. It depends on the date alone.
    ///
    /// ```
    /// use chrono_calendar::DayForm;
    /// PackedForm::from_yo(2024, 60)?.bits() // 16581574
    /// PackedForm::MIN.bits() // -2147475430
    /// ```
    #[inline]
    pub fn bits(&self) -> i32
        ensures { result ≡ packed_name (year_of self.now) (ordinal_of self.now) }
    {
        self.packed
    }

    // The date of an ordinal of a year with these flags, or `None` if the year has no such day.
    #[inline]
    fn of_ordinal(year: i32, ordinal: u32, flags: YearFlags) -> Option<PackedForm>
        requires year { IsYear year }
        requires flags { flags ≡ flags_of_year year }
        ensures { SomeIff result (IsOrdinalName year ordinal) (day_number_of_yo year ordinal) }
    {
        if ordinal < 1 || ordinal > flags.ndays() {
            return None;
        }
        Some(PackedForm::pack(year, ordinal, flags))
    }

    // The date of a month and day of a year with these flags, or `None` if the year has no such day.
    #[inline]
    fn of_month(year: i32, month: u32, day: u32, flags: YearFlags) -> Option<PackedForm>
        requires year { IsYear year }
        requires flags { flags ≡ flags_of_year year }
        ensures { SomeIff result (IsCalendarName year month day) (day_number_of_ymd year month day) }
    {
        let ordinal = ordinal_of_month_day(is_leap_by(flags.bits()), month, day)?;
        Some(PackedForm::pack(year, ordinal, flags))
    }

    // The date of an ordinal name, with the flags of its year.
    #[inline]
    fn pack(year: i32, ordinal: u32, flags: YearFlags) -> PackedForm
        requires year { IsYear year }
        requires ordinal { IsOrdinalName year ordinal }
        requires flags { flags ≡ flags_of_year year }
        ensures { result ≡ day_number_of_yo year ordinal }
    {
        PackedForm {
            packed: packed_number(year, ordinal, flags.bits()),
        }
    }
}

impl PartialEq for PackedForm {
    ghost use Rattle.std.specs.Ordering.{int_eq};
    ghost use Rattle.std.proofs.Common.{rules};
    ghost use Rattle.std.specs.Cmp.Rules.{comparing};

    ghost eq = { int_eq };

    ghost laws = { Prim.search (comparing, rules) };

    #[inline]
    fn eq(&self, other: &PackedForm) -> bool {
        self.packed == other.packed
    }
}

impl Eq for PackedForm {
    ghost use Rattle.std.proofs.Common.{rules};
    ghost use Rattle.std.specs.Cmp.Rules.{comparing};

    ghost laws = { Prim.search (comparing, rules) };
}

impl Ord for PackedForm {
    ghost use Rattle.std.specs.Ordering.{int_cmp};
    ghost use Rattle.std.proofs.Common.{rules};
    ghost use Rattle.std.specs.Cmp.Rules.{comparing};

    ghost cmp = { int_cmp };

    ghost total = { Prim.search (comparing, rules) };

    ghost matches_partial_cmp = { Prim.search (comparing, rules) };

    ghost matches_eq = { Prim.search (comparing, rules) };

    #[inline]
    fn cmp(&self, other: &PackedForm) -> Ordering {
        self.packed.cmp(&other.packed)
    }
}

impl PartialOrd for PackedForm {
    ghost use Rattle.std.specs.Ordering.{int_cmp, as_partial_cmp};
    ghost use Rattle.std.specs.Cmp.{partial_order_from_own_ties};
    ghost use Rattle.std.proofs.Common.{rules};
    ghost use Rattle.std.specs.Cmp.Rules.{comparing};

    ghost partial_cmp = { as_partial_cmp int_cmp };

    ghost laws = { partial_order_from_own_ties (Prim.search (comparing, rules)) (Prim.search (comparing, rules)) };

    #[inline]
    fn partial_cmp(&self, other: &PackedForm) -> Option<Ordering> {
        Some(self.cmp(other))
    }
}

impl Hash for PackedForm {
    ghost use Rattle.std.specs.Hash as fed;
    ghost use Rattle.std.proofs.Common.{rules};
    ghost use Rattle.std.specs.Cmp.Rules.{hashing};
    ghost use Rattle.chrono_calendar.specs.Days.{year_of, ordinal_of};
    ghost use Rattle.chrono_stored.specs.PackedName.{packed_name};

    ghost hash_input = { λ n. fed.i32 (packed_name (year_of n) (ordinal_of n)) };

    ghost respects_eq = { Prim.search (hashing, rules) };

    #[inline]
    fn hash<H: Hasher>(&self, state: &mut H) {
        self.packed.hash(state);
    }
}

impl DayForm for PackedForm {
    ghost use Rattle.std.specs.Prelude.{ℤ, refl, if◌then◌else◌};
    ghost use Rattle.std.proofs.Common.{ap};
    ghost use Rattle.chrono_calendar.specs.Days.{is_date};

    ghost number = { λ n. n };

    // The flags of the year are read once, for a date alone.
    ghost steps_of = { λ n. if is_date n then 1 else 0 };

    ghost no_step = { λ n h. ap (λ b. if b then 1 else 0) h };

    ghost one_form = { λ a b h. h };

    ghost in_order = { λ a b. refl };

    #[inline]
    fn from_yo(year: i32, ordinal: u32) -> Option<Self> {
        if !is_year(year) {
            return None;
        }
        PackedForm::of_ordinal(year, ordinal, YearFlags::from_year(year))
    }

    #[inline]
    fn from_ymd(year: i32, month: u32, day: u32) -> Option<Self> {
        if !is_year(year) {
            return None;
        }
        PackedForm::of_month(year, month, day, YearFlags::from_year(year))
    }

    #[inline]
    fn from_day(days: i32, steps: &mut Steps) -> Option<Self> {
        if days < FIRST_DAY || days > LAST_DAY {
            return None;
        }
        let (year, ordinal) = year_and_ordinal(days);
        let flags = YearFlags::from_year_counted(year, steps);
        Some(PackedForm::pack(year, ordinal, flags))
    }

    #[inline]
    fn day(&self) -> i32 {
        days_before_year(self.year()) + self.ordinal() as i32
    }

    #[inline]
    fn year(&self) -> i32 {
        year_in(self.packed)
    }

    #[inline]
    fn ordinal(&self) -> u32 {
        ordinal_in(self.packed)
    }

    #[inline]
    fn month_day(&self) -> (u32, u32) {
        month_day(self.is_leap(), self.ordinal())
    }

    #[inline]
    fn is_leap(&self) -> bool {
        is_leap_by(flags_in(self.packed))
    }

    #[inline]
    fn weekday(&self) -> Weekday {
        weekday_by(ordinal_in(self.packed), flags_in(self.packed))
    }
}
