//! Known entries of columns, each as the contract of a function.
ghost use Rattle.std.specs.Prelude.{◌≡◌, ℤ, codes, pos, neg_ℤ, replicate};
ghost use Rattle.chrono_units.specs.WeekdaySet.{single};
ghost use Rattle.chrono_units.specs.declared.weekday.Weekday.TheVariants.{Mon, Tue};
ghost use Rattle.chrono_columns.specs.Columns.{IsTextEntry, date_entry, day_entry, distance_entry, first_on_entry, iso_week_entry, iso_year_entry, later_entry, month_entry, months_later_entry, name_text_entry, ordinal_entry, text_entry, unix_date_entry, unix_days_entry, weekday_entry, year_entry};

use chrono_datetime::law;

/// A missing date has no fields and no text. No date is a day or a month later than it, and its distance is missing.
/// No weekday comes after it.
#[tactic(auto, unfolding(chrono_calendar::specs::Days::date_of_day, crate::specs::Columns::year_entry, crate::specs::Columns::ordinal_entry, crate::specs::Columns::month_entry, crate::specs::Columns::day_entry, crate::specs::Columns::weekday_entry, crate::specs::Columns::iso_year_entry, crate::specs::Columns::iso_week_entry, crate::specs::Columns::later_entry, crate::specs::Columns::months_later_entry, crate::specs::Columns::distance_entry, crate::specs::Columns::first_on_entry, crate::specs::Columns::unix_days_entry, crate::specs::Columns::text_entry))]
pub fn none_comes_of_none()
    ensures year { year_entry (neg_ℤ (pos 2_147_483_648)) ≡ neg_ℤ (pos 2_147_483_648) }
    ensures ordinal { ordinal_entry (neg_ℤ (pos 2_147_483_648)) ≡ 0 }
    ensures month { month_entry (neg_ℤ (pos 2_147_483_648)) ≡ 0 }
    ensures day { day_entry (neg_ℤ (pos 2_147_483_648)) ≡ 0 }
    ensures weekday { weekday_entry (neg_ℤ (pos 2_147_483_648)) ≡ 0 }
    ensures iso_year { iso_year_entry (neg_ℤ (pos 2_147_483_648)) ≡ neg_ℤ (pos 2_147_483_648) }
    ensures iso_week { iso_week_entry (neg_ℤ (pos 2_147_483_648)) ≡ 0 }
    ensures later { later_entry (pos 1) (neg_ℤ (pos 2_147_483_648)) ≡ neg_ℤ (pos 2_147_483_648) }
    ensures months_later { months_later_entry (pos 1) (neg_ℤ (pos 2_147_483_648)) ≡ neg_ℤ (pos 2_147_483_648) }
    ensures distance { distance_entry (neg_ℤ (pos 2_147_483_648)) (pos 1) ≡ neg_ℤ (pos 2_147_483_648) }
    ensures unix_days { unix_days_entry (neg_ℤ (pos 2_147_483_648)) ≡ neg_ℤ (pos 9_223_372_036_854_775_808) }
    ensures text { text_entry (neg_ℤ (pos 2_147_483_648)) ≡ replicate 10 0 }
    ensures first_on { first_on_entry (single Tue) (neg_ℤ (pos 2_147_483_648)) ≡ neg_ℤ (pos 2_147_483_648) }
    ensures distance_to_none { distance_entry (pos 1) (neg_ℤ (pos 2_147_483_648)) ≡ neg_ℤ (pos 2_147_483_648) }
{}

/// Known dates: 1 January of year 1 is a Monday, 1970 begins at 0 days, and 2023 has no 29 February as 2024 has.
///
/// No date is a day after the last one, nor a day before the first one, nor so many days after 1970.
/// Nor is one a day before what is no date.
#[tactic(auto, unfolding(chrono_calendar::specs::Days::date_of_day, chrono_calendar::specs::Days::date_of_ymd, crate::specs::Columns::weekday_entry, crate::specs::Columns::date_entry, crate::specs::Columns::later_entry, crate::specs::Columns::distance_entry, crate::specs::Columns::unix_date_entry, crate::specs::Columns::unix_days_entry))]
pub fn known_entries()
    ensures weekday { weekday_entry (pos 1) ≡ 1 }
    ensures leap_day { date_entry (pos 2_024) 2 29 ≡ pos 738_945 }
    ensures no_name { date_entry (pos 2_023) 2 29 ≡ neg_ℤ (pos 2_147_483_648) }
    ensures later { later_entry (pos 2) (pos 1) ≡ pos 3 }
    ensures distance { distance_entry (pos 3) (pos 1) ≡ pos 2 }
    ensures unix_date { unix_date_entry (pos 0) ≡ pos 719_163 }
    ensures next_unix_date { unix_date_entry (pos 1) ≡ pos 719_164 }
    ensures unix_days { unix_days_entry (pos 719_163) ≡ pos 0 }
    ensures next_unix_days { unix_days_entry (pos 719_164) ≡ pos 1 }
    ensures sunday { weekday_entry (pos 7) ≡ 7 }
    ensures past_the_last { later_entry (pos 1) (pos 95_745_399) ≡ neg_ℤ (pos 2_147_483_648) }
    ensures before_the_first { later_entry (neg_ℤ (pos 1)) (neg_ℤ (pos 95_746_129)) ≡ neg_ℤ (pos 2_147_483_648) }
    ensures before_no_date { later_entry (neg_ℤ (pos 1)) (pos 95_745_400) ≡ neg_ℤ (pos 2_147_483_648) }
    ensures unix_past_the_last { unix_date_entry (pos 95_026_237) ≡ neg_ℤ (pos 2_147_483_648) }
{}

/// Known moves, each day by its number.
///
/// A month takes 31 January of the year 4 to 29 February. A month back takes 31 March of the year 1 to 28 February.
/// From 1 January of the year 1, 3,145,704 months lead past the last date.
/// The last date is a Monday, and the first one from six days before it on, and from itself on. No Tuesday comes after it.
#[tactic(auto, unfolding(chrono_calendar::specs::Days::date_of_day, crate::specs::Columns::months_later_entry, crate::specs::Columns::first_on_entry))]
pub fn known_moves()
    ensures month { months_later_entry (pos 1) (pos 1_126) ≡ pos 1_155 }
    ensures month_back { months_later_entry (neg_ℤ (pos 1)) (pos 90) ≡ pos 59 }
    ensures no_month { months_later_entry (pos 3_145_704) (pos 1) ≡ neg_ℤ (pos 2_147_483_648) }
    ensures monday { first_on_entry (single Mon) (pos 95_745_393) ≡ pos 95_745_399 }
    ensures monday_itself { first_on_entry (single Mon) (pos 95_745_399) ≡ pos 95_745_399 }
    ensures no_tuesday { first_on_entry (single Tue) (pos 95_745_399) ≡ neg_ℤ (pos 2_147_483_648) }
{
    law::known_moves();
    law::known_recurrences();
}

/// Known names: 30 December 2024, day 739,250, is the 365th day of its year, and lies in week 1 of 2025.
#[tactic(auto, unfolding(chrono_calendar::specs::Days::date_of_day, crate::specs::Columns::year_entry, crate::specs::Columns::ordinal_entry, crate::specs::Columns::month_entry, crate::specs::Columns::day_entry, crate::specs::Columns::iso_year_entry, crate::specs::Columns::iso_week_entry))]
pub fn known_names()
    ensures year { year_entry (pos 739_250) ≡ pos 2_024 }
    ensures ordinal { ordinal_entry (pos 739_250) ≡ 365 }
    ensures month { month_entry (pos 739_250) ≡ 12 }
    ensures day { day_entry (pos 739_250) ≡ 30 }
    ensures iso_year { iso_year_entry (pos 739_250) ≡ pos 2_025 }
    ensures iso_week { iso_week_entry (pos 739_250) ≡ 1 }
{
    law::known_days();
    law::known_weeks();
}

/// Known texts: those of 29 February 2024, and of the first and last day of the years 0 to 9999.
/// The day before the first and the day after the last have none.
pub fn known_texts()
    ensures leap_day { text_entry (pos 738_945) ≡ codes "2024-02-29" }
    ensures first { text_entry (neg_ℤ (pos 365)) ≡ codes "0000-01-01" }
    ensures before_first { text_entry (neg_ℤ (pos 366)) ≡ replicate 10 0 }
    ensures last { text_entry (pos 3_652_059) ≡ codes "9999-12-31" }
    ensures after_last { text_entry (pos 3_652_060) ≡ replicate 10 0 }
    ensures name { name_text_entry (pos 2_024) 2 29 ≡ codes "2024-02-29" }
    ensures late_name { name_text_entry (pos 10_000) 1 1 ≡ replicate 10 0 }
{}

/// Known entries of texts: 29 February 2024 is a date, and 29 February 1900 is none.
pub fn known_text_entries()
    ensures leap_day { (n : ℤ) → IsTextEntry (codes "2024-02-29") n → n ≡ pos 738_945 }
    ensures no_leap_day { (n : ℤ) → IsTextEntry (codes "1900-02-29") n → n ≡ neg_ℤ (pos 2_147_483_648) }
{
    chrono_reading::law::known_texts_of_dates();
}
