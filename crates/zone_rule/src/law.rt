//! Laws of rules, each as the contract of a function, and known values.
ghost use Rattle.std.specs.Prelude.{◌≡◌, true, ℤ, pos, neg_ℤ, ◌+ℤ◌, ◌≤ℤ◌, ◌<ℤ◌, Some};
ghost use Rattle.chrono_units.specs.declared.weekday.Weekday.TheVariants.{Sun};
ghost use Rattle.chrono_datetime.specs.Days.{day_number_of_ymd};
ghost use Rattle.chrono_zoned.specs.Offsets.{IsOffset};
ghost use Rattle.zone_rule.specs.Changes.{IsChange, YearlyChange, change_second, day_in_year, last_by, year_of_second};
ghost use Rattle.zone_rule.specs.RuleDays.{date_of_rule_day};
ghost use Rattle.zone_rule.specs.Rules.{is_daylight};
ghost use Rattle.zone_rule.specs.declared.rule_day.RuleDay.{RuleDay};
ghost use Rattle.zone_rule.specs.declared.rule_day.RuleDay.TheVariants.{FromZero, Julian, Week};

/// A day of each year, and so a change, comes again after 400 years, which are 146,097 days.
pub fn changes_come_again()
    ensures day { (day : RuleDay) (y : ℤ) → day_in_year (y +ℤ pos 400) day ≡ day_in_year y day +ℤ pos 146_097 }
    ensures change { (offset : ℤ) (c : YearlyChange) (y : ℤ) →
        change_second offset c (y +ℤ pos 400) ≡ change_second offset c y +ℤ pos 12_622_780_800 }
{}

/// A change comes on the date that its day has in the year, if it has one.
pub fn changes_come_on_their_dates()
    ensures { (y : ℤ) (day : RuleDay) (n : ℤ) → date_of_rule_day y day ≡ Some n → day_in_year y day ≡ n }
{}

/// Daylight time that ends as it begins again holds always.
///
/// RFC 9636, section 3.3.1, has `XXX3EDT4,0/0,J365/23` for a clock that is four hours behind UTC all year.
pub fn daylight_time_may_last_all_year()
    ensures { (u : ℤ) → is_daylight (neg_ℤ (pos 10_800)) (record {
      offset = neg_ℤ (pos 14_400);
      begins = record { day = FromZero 0; second = pos 0 };
      ends = record { day = Julian 365; second = pos 82_800 };
    }) u ≡ true }
{}

/// Known days. In each year `J60` is 1 March.
///
/// In 2024 the last Sunday of October is the 27th, its fourth. In 2021 it is the 31st, its fifth. Of 2024, day 59 from zero is
/// 29 February. Of 2023, day 365 from zero is 1 January 2024.
pub fn known_days()
    ensures first_of_march { (y : ℤ) → day_in_year y (Julian 60) ≡ day_number_of_ymd y 3 1 }
    ensures fourth_sunday { day_in_year (pos 2024) (Week 10 5 Sun) ≡ day_number_of_ymd (pos 2024) 10 27 }
    ensures fifth_sunday { day_in_year (pos 2021) (Week 10 5 Sun) ≡ day_number_of_ymd (pos 2021) 10 31 }
    ensures leap_day { day_in_year (pos 2024) (FromZero 59) ≡ day_number_of_ymd (pos 2024) 2 29 }
    ensures past_the_year { day_in_year (pos 2023) (FromZero 365) ≡ day_number_of_ymd (pos 2024) 1 1 }
{}

/// Known changes of 2024, in seconds from 1 January 1970 in UTC.
///
/// New York begins daylight time at 02:00 of 10 March, and ends it at 02:00 of 3 November. Dublin's daylight time is that of
/// winter: it begins at 02:00 of 27 October, and ends at 01:00 of 31 March. Sydney begins daylight time at 02:00 of 6 October,
/// and ends it at 03:00 of 7 April.
pub fn known_changes()
    ensures new_york_begins { change_second (neg_ℤ (pos 18_000)) (record { day = Week 3 2 Sun; second = pos 7_200 }) (pos 2024)
        ≡ pos 1_710_054_000 }
    ensures new_york_ends { change_second (neg_ℤ (pos 14_400)) (record { day = Week 11 1 Sun; second = pos 7_200 }) (pos 2024)
        ≡ pos 1_730_613_600 }
    ensures dublin_begins { change_second (pos 3_600) (record { day = Week 10 5 Sun; second = pos 7_200 }) (pos 2024)
        ≡ pos 1_729_990_800 }
    ensures dublin_ends { change_second (pos 0) (record { day = Week 3 5 Sun; second = pos 3_600 }) (pos 2024)
        ≡ pos 1_711_846_800 }
    ensures sydney_begins { change_second (pos 36_000) (record { day = Week 10 1 Sun; second = pos 7_200 }) (pos 2024)
        ≡ pos 1_728_144_000 }
    ensures sydney_ends { change_second (pos 39_600) (record { day = Week 4 1 Sun; second = pos 10_800 }) (pos 2024)
        ≡ pos 1_712_419_200 }
{}

/// The last change by a second, as the offset at the second follows from it, is the last of all years.
///
/// It is looked for in four years. A change lies less than nine days from its year, and in the next year it comes later.
pub fn last_changes_are_last()
    ensures come { (offset : ℤ) (c : YearlyChange) (u : ℤ) → IsChange c → IsOffset offset →
        last_by (change_second offset c) (year_of_second u) u ≤ℤ u }
    ensures last { (offset : ℤ) (c : YearlyChange) (u : ℤ) → IsChange c → IsOffset offset → (y : ℤ) →
        change_second offset c y ≤ℤ u → change_second offset c y ≤ℤ last_by (change_second offset c) (year_of_second u) u }
    ensures later { (offset : ℤ) (c : YearlyChange) (y : ℤ) → IsChange c →
        change_second offset c y <ℤ change_second offset c (y +ℤ pos 1) }
{}
