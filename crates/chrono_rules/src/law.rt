//! Known instances and texts of rules, and laws of texts. Each is a clause of a function that does nothing.
//!
//! Where a law says so, its dates are 2,000 years earlier than those that it names.
//! These are five whole cycles of 400 years, after which the calendar repeats. So less has to be counted.
ghost use Rattle.std.specs.Prelude.{◌≡◌, ◌&&◌, true, false, None, Some, Result, Ok, Err, [], ◌∷◌, neg_ℤ, pos, codes};
ghost use Rattle.chrono_text.specs.Lists.{list_text};
ghost use Rattle.chrono_datetime.specs.declared.Weekday.TheVariants.{Mon, Sun};
ghost use Rattle.chrono_sets.specs.FiniteSets.{is_empty, numbers};
ghost use Rattle.chrono_rules.specs.InstanceLists.{instances_from};
ghost use Rattle.chrono_rules.specs.InstanceMoments.{instance_moments, is_instance_at};
ghost use Rattle.chrono_rules.specs.Instances.{is_instance};
ghost use Rattle.chrono_rules.specs.KnownRules.{at_midnight, at_one, by_month_days, by_months, by_positions, by_week_days, by_week_years, by_weekdays, by_weeks, by_year_days, daily, daily_until, every_days, fortnightly, each_weekday, greatest_numbers, last_days, monday_or_first_friday, nth_weekday, nth_weekday_from_end, tenths};
ghost use Rattle.chrono_rules.specs.KnownTexts.{both_sundays, days_of_the_year, election_day, every_other_day, every_other_week, first_and_last, first_friday, june_and_july, last_monday_but_one, last_workday_but_one, monday_of_week_20, third_to_last, until_christmas};
ghost use Rattle.chrono_rules.specs.NumberLists.{signed_list_of, month_list_of, signed_year_list_of};
ghost use Rattle.chrono_rules.specs.RecurrenceSets.{is_in_recurrence, recurrence_from};
ghost use Rattle.chrono_rules.specs.RuleErrors.{IsRuleRead};
ghost use Rattle.chrono_rules.specs.RuleParts.{plain};
ghost use Rattle.chrono_rules.specs.RuleTexts.{IsRuleText, rule_body};
ghost use Rattle.chrono_rules.specs.WritableRules.{IsWritableRule, is_from_one_to};
ghost use Rattle.chrono_rules.specs.WrittenRules.{both_items, items, rule_text};
ghost use Rattle.chrono_rules.specs.declared.rule.Frequency.TheVariants.{Daily, Monthly, Weekly, Yearly};
ghost use Rattle.chrono_rules.specs.declared.rule.Rule.{Rule};
ghost use Rattle.chrono_rules.specs.declared.text.list_writer.Naming.TheVariants.{Number};
ghost use Rattle.chrono_rules.specs.declared.text.rule_error.RuleError.{RuleError};
ghost use Rattle.chrono_rules.specs.declared.text.rule_error.RuleFault.TheVariants.{Alone, Extension, NotAWeekday};
ghost use Rattle.chrono_rules.specs.declared.text.rule_error.RulePart.TheVariants.{BySetPos, Wkst};

mod instances;

use crate::rule::Rule;
use chrono_sets::{NumberSet, PlaceSet};
pub use instances::{
    instances_have_listed_month_days, instances_have_listed_weekdays, no_instance_is_after_until,
    no_instance_is_before_the_start,
};

/// Instances that RFC 5545 gives (3.8.5.3).
///
/// The first rule is every other week on Tuesday and Sunday, four times from Tuesday, 5 August 1997.
/// With weeks from Monday on, the others are the 10th, the 19th and the 24th.
/// With weeks from Sunday on, they are the 17th, the 19th and the 31st. There is no fifth time.
/// The second rule is every tenth day, five times from 2 September 1997. The 12th is one, and 12 October is the last.
pub fn known_rules()
    ensures monday_10 { is_instance (fortnightly Mon) (pos 729_241) (pos 729_246) ≡ true }
    ensures monday_17 { is_instance (fortnightly Mon) (pos 729_241) (pos 729_253) ≡ false }
    ensures monday_19 { is_instance (fortnightly Mon) (pos 729_241) (pos 729_255) ≡ true }
    ensures monday_24 { is_instance (fortnightly Mon) (pos 729_241) (pos 729_260) ≡ true }
    ensures monday_fifth { is_instance (fortnightly Mon) (pos 729_241) (pos 729_269) ≡ false }
    ensures sunday_10 { is_instance (fortnightly Sun) (pos 729_241) (pos 729_246) ≡ false }
    ensures sunday_17 { is_instance (fortnightly Sun) (pos 729_241) (pos 729_253) ≡ true }
    ensures sunday_19 { is_instance (fortnightly Sun) (pos 729_241) (pos 729_255) ≡ true }
    ensures sunday_31 { is_instance (fortnightly Sun) (pos 729_241) (pos 729_267) ≡ true }
    ensures day_11 { is_instance daily (pos 729_269) (pos 729_278) ≡ false }
    ensures day_12 { is_instance daily (pos 729_269) (pos 729_279) ≡ true }
    ensures october_12 { is_instance daily (pos 729_269) (pos 729_309) ≡ true }
    ensures october_22 { is_instance daily (pos 729_269) (pos 729_319) ≡ false }
{}

/// Weeks of the year (BYWEEKNO), 2,000 years earlier.
///
/// - Monday of week 20 from 12 May 1997 (RFC 5545, 3.8.5.3). If no weekday is named, it is the week's Monday.
/// - Monday of the last week, which is the 52nd of 1997 and the 53rd of 1998 (ISO 8601).
/// - Sunday of the first week of 2000, with weeks that begin on Sunday and on Monday (WKST).
///
/// A week has its number in the year of its fourth day. INTERVAL and BYSETPOS go by the year in which a day lies.
/// So Monday of week 1 of 2025 is a day of 2024. The first Monday of weeks 1 and 2 in 1998 is that of week 2.
pub fn known_weeks()
    ensures week_20_1998 { is_instance (by_weeks Mon (20 ∷ []) [] (0 ∷ [])) (neg_ℤ (pos 1329)) (neg_ℤ (pos 965)) ≡ true }
    ensures week_20_1999 { is_instance (by_weeks Mon (20 ∷ []) [] (0 ∷ [])) (neg_ℤ (pos 1329)) (neg_ℤ (pos 594)) ≡ true }
    ensures week_20_1999_early { is_instance (by_weeks Mon (20 ∷ []) [] (0 ∷ [])) (neg_ℤ (pos 1329)) (neg_ℤ (pos 601)) ≡ false }
    ensures week_20_alone_monday { is_instance (by_weeks Mon (20 ∷ []) [] []) (neg_ℤ (pos 1329)) (neg_ℤ (pos 965)) ≡ true }
    ensures week_20_alone_tuesday { is_instance (by_weeks Mon (20 ∷ []) [] []) (neg_ℤ (pos 1329)) (neg_ℤ (pos 964)) ≡ false }
    ensures last_week_1997 { is_instance (by_weeks Mon [] (1 ∷ []) (0 ∷ [])) (neg_ℤ (pos 1329)) (neg_ℤ (pos 1105)) ≡ true }
    ensures last_week_1998_early { is_instance (by_weeks Mon [] (1 ∷ []) (0 ∷ [])) (neg_ℤ (pos 1329)) (neg_ℤ (pos 741)) ≡ false }
    ensures last_week_1998 { is_instance (by_weeks Mon [] (1 ∷ []) (0 ∷ [])) (neg_ℤ (pos 1329)) (neg_ℤ (pos 734)) ≡ true }
    ensures sunday_weeks_first { is_instance (by_weeks Sun (1 ∷ []) [] (6 ∷ [])) (neg_ℤ (pos 1329)) (neg_ℤ (pos 364)) ≡ true }
    ensures sunday_weeks_second { is_instance (by_weeks Sun (1 ∷ []) [] (6 ∷ [])) (neg_ℤ (pos 1329)) (neg_ℤ (pos 357)) ≡ false }
    ensures monday_weeks_before { is_instance (by_weeks Mon (1 ∷ []) [] (6 ∷ [])) (neg_ℤ (pos 1329)) (neg_ℤ (pos 364)) ≡ false }
    ensures monday_weeks_first { is_instance (by_weeks Mon (1 ∷ []) [] (6 ∷ [])) (neg_ℤ (pos 1329)) (neg_ℤ (pos 357)) ≡ true }
    ensures week_53_december { is_instance (by_weeks Mon [] (53 ∷ []) (0 ∷ [])) (pos 5611) (pos 6938) ≡ true }
    ensures other_years_week_1 { is_instance (by_week_years 2 (1 ∷ []) []) (pos 8401) (pos 8765) ≡ true }
    ensures other_years_next { is_instance (by_week_years 2 (1 ∷ []) []) (pos 8401) (pos 9129) ≡ false }
    ensures first_of_year { is_instance (by_week_years 1 (1 ∷ 2 ∷ []) (1 ∷ [])) (neg_ℤ (pos 1216)) (neg_ℤ (pos 1091)) ≡ true }
    ensures week_20_15th { is_instance (by_week_days (20 ∷ []) (15 ∷ []) []) (neg_ℤ (pos 1329)) (neg_ℤ (pos 961)) ≡ true }
    ensures week_20_day_135 { is_instance (by_week_days (20 ∷ []) [] (135 ∷ [])) (neg_ℤ (pos 1329)) (neg_ℤ (pos 961)) ≡ true }
{}

/// Days of the year (BYYEARDAY), 2,000 years earlier.
///
/// Every third year on the 1st, the 100th and the 200th day, from 1 January 1997 (RFC 5545, 3.8.5.3).
/// From the end, -1 is 31 December and -306 is 1 March (3.3.10), in leap years too.
pub fn known_year_days()
    ensures front_1997 { is_instance (by_year_days 3 (1 ∷ 100 ∷ 200 ∷ []) []) (neg_ℤ (pos 1460)) (neg_ℤ (pos 1361)) ≡ true }
    ensures front_1998 { is_instance (by_year_days 3 (1 ∷ 100 ∷ 200 ∷ []) []) (neg_ℤ (pos 1460)) (neg_ℤ (pos 996)) ≡ false }
    ensures front_2000 { is_instance (by_year_days 3 (1 ∷ 100 ∷ 200 ∷ []) []) (neg_ℤ (pos 1460)) (neg_ℤ (pos 266)) ≡ true }
    ensures front_2000_late { is_instance (by_year_days 3 (1 ∷ 100 ∷ 200 ∷ []) []) (neg_ℤ (pos 1460)) (neg_ℤ (pos 265)) ≡ false }
    ensures back_march_1997 { is_instance (by_year_days 1 [] (1 ∷ 306 ∷ [])) (neg_ℤ (pos 1460)) (neg_ℤ (pos 1401)) ≡ true }
    ensures back_december_1997 { is_instance (by_year_days 1 [] (1 ∷ 306 ∷ [])) (neg_ℤ (pos 1460)) (neg_ℤ (pos 1096)) ≡ true }
    ensures back_february_2000 { is_instance (by_year_days 1 [] (1 ∷ 306 ∷ [])) (neg_ℤ (pos 1460)) (neg_ℤ (pos 306)) ≡ false }
    ensures back_march_2000 { is_instance (by_year_days 1 [] (1 ∷ 306 ∷ [])) (neg_ℤ (pos 1460)) (neg_ℤ (pos 305)) ≡ true }
    ensures back_december_2000 { is_instance (by_year_days 1 [] (1 ∷ 306 ∷ [])) (neg_ℤ (pos 1460)) (pos 0) ≡ true }
{}

/// Numbered weekdays (BYDAY), 2,000 years earlier.
///
/// - From 3.8.5.3: the 20th Monday of the year and the last, and the first Friday of the month.
///   Also the fifth Friday, and the last Monday but one.
/// - From 3.6.5: the last Sunday of October. It counts in its month, though the rule is yearly.
/// - A list: Monday or the first Friday. Any of its items is enough.
pub fn known_weekdays()
    ensures of_year_early { is_instance (by_weekdays Yearly [] (nth_weekday 0 20)) (neg_ℤ (pos 1322)) (neg_ℤ (pos 965)) ≡ false }
    ensures of_year_monday { is_instance (by_weekdays Yearly [] (nth_weekday 0 20)) (neg_ℤ (pos 1322)) (neg_ℤ (pos 958)) ≡ true }
    ensures of_month_friday { is_instance (by_weekdays Monthly [] (nth_weekday 4 1)) (neg_ℤ (pos 1213)) (neg_ℤ (pos 1185)) ≡ true }
    ensures of_month_late { is_instance (by_weekdays Monthly [] (nth_weekday 4 1)) (neg_ℤ (pos 1213)) (neg_ℤ (pos 1178)) ≡ false }
    ensures of_month_seventh { is_instance (by_weekdays Monthly [] (nth_weekday 4 1)) (neg_ℤ (pos 1213)) (neg_ℤ (pos 1150)) ≡ true }
    ensures of_month_back_monday { is_instance (by_weekdays Monthly [] (nth_weekday_from_end 0 2)) (neg_ℤ (pos 1196)) (neg_ℤ (pos 1168)) ≡ true }
    ensures of_month_back_late { is_instance (by_weekdays Monthly [] (nth_weekday_from_end 0 2)) (neg_ℤ (pos 1196)) (neg_ℤ (pos 1161)) ≡ false }
    ensures of_month_back_november { is_instance (by_weekdays Monthly [] (nth_weekday_from_end 0 2)) (neg_ℤ (pos 1196)) (neg_ℤ (pos 1140)) ≡ true }
    ensures of_october_early { is_instance (by_weekdays Yearly (10 ∷ []) (nth_weekday_from_end 6 1)) (neg_ℤ (pos 1460)) (neg_ℤ (pos 1169)) ≡ false }
    ensures of_october_sunday { is_instance (by_weekdays Yearly (10 ∷ []) (nth_weekday_from_end 6 1)) (neg_ℤ (pos 1460)) (neg_ℤ (pos 1162)) ≡ true }
    ensures of_year_back_leap { is_instance (by_weekdays Yearly [] (nth_weekday_from_end 0 1)) (pos 3784) (pos 4376) ≡ false }
    ensures of_year_back_last { is_instance (by_weekdays Yearly [] (nth_weekday_from_end 0 1)) (pos 3784) (pos 4383) ≡ true }
    ensures fifth_friday { is_instance (by_weekdays Monthly [] (nth_weekday 4 5)) (neg_ℤ (pos 1213)) (neg_ℤ (pos 1157)) ≡ true }
    ensures fifth_of_four { is_instance (by_weekdays Monthly [] (nth_weekday 4 5)) (neg_ℤ (pos 1213)) (neg_ℤ (pos 1192)) ≡ false }
    ensures of_no_month { is_instance (by_weekdays Weekly [] (nth_weekday 4 1)) (neg_ℤ (pos 1213)) (neg_ℤ (pos 1213)) ≡ false }
    ensures of_no_day { is_instance (by_weekdays Daily [] (nth_weekday 4 1)) (neg_ℤ (pos 1213)) (neg_ℤ (pos 1213)) ≡ false }
    ensures either_monday { is_instance monday_or_first_friday (neg_ℤ (pos 1216)) (neg_ℤ (pos 1210)) ≡ true }
    ensures either_friday { is_instance monday_or_first_friday (neg_ℤ (pos 1216)) (neg_ℤ (pos 1213)) ≡ true }
    ensures either_late { is_instance monday_or_first_friday (neg_ℤ (pos 1216)) (neg_ℤ (pos 1206)) ≡ false }
{}

/// Days of the month (BYMONTHDAY), 2,000 years earlier.
///
/// The first is the third day from the end. Where none is named, it is the start's day.
/// So it is the 10th in June and July (3.8.5.3).
/// A rule by months, weeks or years alone takes the start's day of the month, of the week or of the year (3.3.10).
/// A yearly rule with days in June and July has none in August.
/// A rule by every 18th month from September 1997 has none in March 1998, and one in March 1999.
pub fn known_month_days()
    ensures third_to_last_october { is_instance (by_month_days Monthly [] [] (3 ∷ [])) (neg_ℤ (pos 1190)) (neg_ℤ (pos 1159)) ≡ true }
    ensures third_to_last_february { is_instance (by_month_days Monthly [] [] (3 ∷ [])) (neg_ℤ (pos 1190)) (neg_ℤ (pos 1039)) ≡ true }
    ensures third_to_last_late { is_instance (by_month_days Monthly [] [] (3 ∷ [])) (neg_ℤ (pos 1190)) (neg_ℤ (pos 1038)) ≡ false }
    ensures in_july_tenth { is_instance (by_month_days Yearly (6 ∷ 7 ∷ []) [] []) (neg_ℤ (pos 1300)) (neg_ℤ (pos 1270)) ≡ true }
    ensures in_july_ninth { is_instance (by_month_days Yearly (6 ∷ 7 ∷ []) [] []) (neg_ℤ (pos 1300)) (neg_ℤ (pos 1271)) ≡ false }
    ensures each_month_second { is_instance (plain Monthly) (neg_ℤ (pos 1216)) (neg_ℤ (pos 1186)) ≡ true }
    ensures each_month_third { is_instance (plain Monthly) (neg_ℤ (pos 1216)) (neg_ℤ (pos 1185)) ≡ false }
    ensures each_week_tuesday { is_instance (plain Weekly) (neg_ℤ (pos 1216)) (neg_ℤ (pos 1209)) ≡ true }
    ensures each_week_wednesday { is_instance (plain Weekly) (neg_ℤ (pos 1216)) (neg_ℤ (pos 1208)) ≡ false }
    ensures each_week_next_month { is_instance (plain Weekly) (neg_ℤ (pos 1216)) (neg_ℤ (pos 1181)) ≡ true }
    ensures each_year_next_month { is_instance (by_month_days Yearly [] [] []) (neg_ℤ (pos 1216)) (neg_ℤ (pos 1186)) ≡ false }
    ensures each_year_next_year { is_instance (by_month_days Yearly [] [] []) (neg_ℤ (pos 1216)) (neg_ℤ (pos 851)) ≡ true }
    ensures fifteenth_october { is_instance (by_month_days Monthly [] (15 ∷ []) []) (neg_ℤ (pos 1216)) (neg_ℤ (pos 1173)) ≡ true }
    ensures fifteenth_start { is_instance (by_month_days Monthly [] (15 ∷ []) []) (neg_ℤ (pos 1216)) (neg_ℤ (pos 1186)) ≡ false }
    ensures of_year_fifteenth { is_instance (by_month_days Yearly [] (15 ∷ []) []) (neg_ℤ (pos 1216)) (neg_ℤ (pos 1173)) ≡ true }
    ensures in_august { is_instance (by_month_days Yearly (6 ∷ 7 ∷ []) [] []) (neg_ℤ (pos 1300)) (neg_ℤ (pos 1239)) ≡ false }
    ensures monthly_in_august { is_instance (by_month_days Monthly (6 ∷ 7 ∷ []) [] []) (neg_ℤ (pos 1300)) (neg_ℤ (pos 1239)) ≡ false }
    ensures daily_in_june { is_instance (by_month_days Daily (6 ∷ 7 ∷ []) [] []) (neg_ℤ (pos 1300)) (neg_ℤ (pos 1299)) ≡ true }
    ensures daily_in_august { is_instance (by_month_days Daily (6 ∷ 7 ∷ []) [] []) (neg_ℤ (pos 1300)) (neg_ℤ (pos 1239)) ≡ false }
    ensures months_6_later { is_instance (by_months 18 (10 ∷ [])) (neg_ℤ (pos 1208)) (neg_ℤ (pos 1027)) ≡ false }
    ensures months_18_later { is_instance (by_months 18 (10 ∷ [])) (neg_ℤ (pos 1208)) (neg_ℤ (pos 662)) ≡ true }
{}

/// What the start fills in where a period lacks the day, 2,000 years earlier.
///
/// A yearly rule from 29 February has instances in leap years alone.
/// A monthly rule from the 31st has instances in months of 31 days. Dates that do not exist are left out (3.3.10).
pub fn known_gaps()
    ensures leap_day_28 { is_instance (plain Yearly) (neg_ℤ (pos 306)) (pos 59) ≡ false }
    ensures leap_day_march { is_instance (plain Yearly) (neg_ℤ (pos 306)) (pos 60) ≡ false }
    ensures leap_day { is_instance (plain Yearly) (neg_ℤ (pos 306)) (pos 1155) ≡ true }
    ensures day_31_april { is_instance (plain Monthly) (neg_ℤ (pos 335)) (neg_ℤ (pos 245)) ≡ false }
    ensures day_31_may_first { is_instance (plain Monthly) (neg_ℤ (pos 335)) (neg_ℤ (pos 244)) ≡ false }
    ensures day_31_may { is_instance (plain Monthly) (neg_ℤ (pos 335)) (neg_ℤ (pos 214)) ≡ true }
{}

/// Days by their place in the period (BYSETPOS), 2,000 years earlier.
///
/// - The third of the month's Tuesdays, Wednesdays and Thursdays (3.8.5.3).
///   In the start's own month the first two lie before the start, and count too.
/// - The month's last workday but one (3.8.5.3).
/// - The first and the last of Monday and Sunday, with weeks that begin on either (WKST).
/// - The first of a single day, which is its last. There is no second.
/// - The first and the last day of each day, though those before it and behind it pass too.
/// - The second Monday of a year and the last.
/// - The calendar's own last day, a Monday. The Sunday of its week is no date, so it is the last of both.
pub fn known_positions()
    ensures third_start { is_instance (by_positions Monthly Mon (1 ∷ 2 ∷ 3 ∷ []) (3 ∷ []) []) (neg_ℤ (pos 1214)) (neg_ℤ (pos 1214)) ≡ true }
    ensures third_october { is_instance (by_positions Monthly Mon (1 ∷ 2 ∷ 3 ∷ []) (3 ∷ []) []) (neg_ℤ (pos 1214)) (neg_ℤ (pos 1181)) ≡ true }
    ensures third_late { is_instance (by_positions Monthly Mon (1 ∷ 2 ∷ 3 ∷ []) (3 ∷ []) []) (neg_ℤ (pos 1214)) (neg_ℤ (pos 1180)) ≡ false }
    ensures third_november { is_instance (by_positions Monthly Mon (1 ∷ 2 ∷ 3 ∷ []) (3 ∷ []) []) (neg_ℤ (pos 1214)) (neg_ℤ (pos 1151)) ≡ true }
    ensures last_but_one_october { is_instance (by_positions Monthly Mon (0 ∷ 1 ∷ 2 ∷ 3 ∷ 4 ∷ []) [] (2 ∷ [])) (neg_ℤ (pos 1189)) (neg_ℤ (pos 1158)) ≡ true }
    ensures last_but_one_late { is_instance (by_positions Monthly Mon (0 ∷ 1 ∷ 2 ∷ 3 ∷ 4 ∷ []) [] (2 ∷ [])) (neg_ℤ (pos 1189)) (neg_ℤ (pos 1157)) ≡ false }
    ensures sunday_weeks_sunday { is_instance (by_positions Weekly Sun (0 ∷ 6 ∷ []) (1 ∷ []) []) (neg_ℤ (pos 1216)) (neg_ℤ (pos 1211)) ≡ true }
    ensures sunday_weeks_monday { is_instance (by_positions Weekly Sun (0 ∷ 6 ∷ []) (1 ∷ []) []) (neg_ℤ (pos 1216)) (neg_ℤ (pos 1210)) ≡ false }
    ensures monday_weeks_monday { is_instance (by_positions Weekly Mon (0 ∷ 6 ∷ []) (1 ∷ []) []) (neg_ℤ (pos 1216)) (neg_ℤ (pos 1210)) ≡ true }
    ensures monday_weeks_sunday { is_instance (by_positions Weekly Mon (0 ∷ 6 ∷ []) (1 ∷ []) []) (neg_ℤ (pos 1216)) (neg_ℤ (pos 1204)) ≡ false }
    ensures year_second_monday { is_instance (by_positions Yearly Mon (0 ∷ []) (2 ∷ []) []) (neg_ℤ (pos 1216)) (neg_ℤ (pos 1084)) ≡ true }
    ensures year_february { is_instance (by_positions Yearly Mon (0 ∷ []) (2 ∷ []) []) (neg_ℤ (pos 1216)) (neg_ℤ (pos 1056)) ≡ false }
    ensures year_last_monday { is_instance (by_positions Yearly Mon (0 ∷ []) [] (1 ∷ [])) (neg_ℤ (pos 1216)) (neg_ℤ (pos 734)) ≡ true }
    ensures year_november { is_instance (by_positions Yearly Mon (0 ∷ []) [] (1 ∷ [])) (neg_ℤ (pos 1216)) (neg_ℤ (pos 762)) ≡ false }
    ensures sunday_weeks_last { is_instance (by_positions Weekly Sun (0 ∷ 6 ∷ []) [] (1 ∷ [])) (neg_ℤ (pos 1216)) (neg_ℤ (pos 1210)) ≡ true }
    ensures sunday_weeks_last_but_one { is_instance (by_positions Weekly Sun (0 ∷ 6 ∷ []) [] (1 ∷ [])) (neg_ℤ (pos 1216)) (neg_ℤ (pos 1211)) ≡ false }
    ensures monday_weeks_last { is_instance (by_positions Weekly Mon (0 ∷ 6 ∷ []) [] (1 ∷ [])) (neg_ℤ (pos 1216)) (neg_ℤ (pos 1204)) ≡ true }
    ensures monday_weeks_last_but_one { is_instance (by_positions Weekly Mon (0 ∷ 6 ∷ []) [] (1 ∷ [])) (neg_ℤ (pos 1216)) (neg_ℤ (pos 1210)) ≡ false }
    ensures day_first { is_instance (by_positions Daily Mon (0 ∷ []) (1 ∷ []) []) (neg_ℤ (pos 1216)) (neg_ℤ (pos 1210)) ≡ true }
    ensures day_second { is_instance (by_positions Daily Mon (0 ∷ []) (2 ∷ []) []) (neg_ℤ (pos 1216)) (neg_ℤ (pos 1210)) ≡ false }
    ensures day_last { is_instance (by_positions Daily Mon (0 ∷ []) [] (1 ∷ [])) (neg_ℤ (pos 1216)) (neg_ℤ (pos 1210)) ≡ true }
    ensures day_behind_another { is_instance (by_positions Daily Mon (0 ∷ 6 ∷ []) (1 ∷ []) []) (neg_ℤ (pos 1216)) (neg_ℤ (pos 1210)) ≡ true }
    ensures day_before_another { is_instance (by_positions Daily Mon (0 ∷ 6 ∷ []) [] (1 ∷ [])) (neg_ℤ (pos 1216)) (neg_ℤ (pos 1211)) ≡ true }
    ensures calendar_last { is_instance (by_positions Weekly Mon (0 ∷ 6 ∷ []) [] (1 ∷ [])) (pos 95_745_392) (pos 95_745_399) ≡ true }
{}

/// Ends of rules, 2,000 years earlier.
///
/// The day of UNTIL is an instance, and no later day is. No day before the start is one.
/// An interval of 0 means 1 (3.3.10).
pub fn known_ends()
    ensures until_itself { is_instance (daily_until (neg_ℤ (pos 1104))) (neg_ℤ (pos 1216)) (neg_ℤ (pos 1104)) ≡ true }
    ensures until_behind { is_instance (daily_until (neg_ℤ (pos 1104))) (neg_ℤ (pos 1216)) (neg_ℤ (pos 1103)) ≡ false }
    ensures start { is_instance (every_days 1) (neg_ℤ (pos 1216)) (neg_ℤ (pos 1216)) ≡ true }
    ensures before_start { is_instance (every_days 1) (neg_ℤ (pos 1216)) (neg_ℤ (pos 1217)) ≡ false }
    ensures interval_0 { is_instance (every_days 0) (neg_ℤ (pos 1216)) (neg_ℤ (pos 1215)) ≡ true }
    ensures interval_2 { is_instance (every_days 2) (neg_ℤ (pos 1216)) (neg_ℤ (pos 1215)) ≡ false }
{}

/// Lists of instances: every other day to the last date of the calendar.
///
/// Of five days (COUNT), the list from the last day on has that day alone.
/// The other lists are of the same days at one o'clock, and with a date and an exception.
pub fn known_lists()
    ensures second { instances_from (every_days 2) (pos 95_745_395) (pos 95_745_396) ≡ pos 95_745_397 ∷ pos 95_745_399 ∷ [] }
    ensures before_start { instances_from (every_days 1) (pos 95_745_399) (pos 95_745_397) ≡ pos 95_745_399 ∷ [] }
    ensures counted { instances_from daily (pos 95_745_349) (pos 95_745_389) ≡ pos 95_745_389 ∷ [] }
    ensures moments { instance_moments (every_days 2) (at_one (pos 95_745_395) 5) (pos 95_745_396) ≡ at_one (pos 95_745_397) 5 ∷ at_one (pos 95_745_399) 5 ∷ [] }
    ensures recurrence { recurrence_from last_days (pos 95_745_396) ≡ pos 95_745_396 ∷ pos 95_745_399 ∷ [] }
{}

/// Every other day at one o'clock from 2 September 1997: an instance has the start's second and fraction (3.3.10).
pub fn known_moments()
    ensures next { is_instance_at (every_days 2) (at_one (pos 729_269) 5) (at_one (pos 729_271) 5) ≡ true }
    ensures between { is_instance_at (every_days 2) (at_one (pos 729_269) 5) (at_one (pos 729_270) 5) ≡ false }
    ensures fraction { is_instance_at (every_days 2) (at_one (pos 729_269) 5) (at_one (pos 729_271) 6) ≡ false }
    ensures second { is_instance_at (every_days 2) (at_midnight (pos 729_269)) (at_one (pos 729_271) 0) ≡ false }
{}

/// A known recurrence with RDATE and EXDATE (RFC 5545, 3.8.5.1 and 3.8.5.2).
///
/// It is every tenth day from 2 September 1997, plus the two days after the start.
/// The second of these and the second instance are exceptions.
/// COUNT counts the excluded instance too. So the fifth instance, 12 October, is the last.
pub fn known_recurrence()
    ensures instance { is_in_recurrence tenths (pos 729269) ≡ true }
    ensures date { is_in_recurrence tenths (pos 729270) ≡ true }
    ensures date_excepted { is_in_recurrence tenths (pos 729271) ≡ false }
    ensures neither { is_in_recurrence tenths (pos 729272) ≡ false }
    ensures instance_excepted { is_in_recurrence tenths (pos 729279) ≡ false }
    ensures next { is_in_recurrence tenths (pos 729289) ≡ true }
    ensures last { is_in_recurrence tenths (pos 729309) ≡ true }
    ensures no_sixth { is_in_recurrence tenths (pos 729319) ≡ false }
{}

/// What texts of RFC 5545 say (3.8.5.3), with UNTIL as a date.
///
/// - Every other day, and each day until Christmas Eve.
/// - Tuesday and Thursday of every other week, with weeks from Sunday on.
/// - The first Friday, the first and the last Sunday, and the last Monday but one of the month.
/// - The third day of the month from the end, and its first and its last.
/// - June and July, days of the year, and Monday of week 20.
/// - The last workday but one of the month, and the Tuesday after the first Monday of November.
///
/// The last days of the month end with the 31st, and weeks with the 53rd (3.3.10).
pub fn known_rule_texts()
    ensures every_other_day { IsRuleText (codes "FREQ=DAILY;INTERVAL=2") every_other_day }
    ensures until_christmas { IsRuleText (codes "FREQ=DAILY;UNTIL=19971224") until_christmas }
    ensures every_other_week { IsRuleText (codes "FREQ=WEEKLY;INTERVAL=2;COUNT=8;WKST=SU;BYDAY=TU,TH") every_other_week }
    ensures first_friday { IsRuleText (codes "FREQ=MONTHLY;COUNT=10;BYDAY=1FR") first_friday }
    ensures both_sundays { IsRuleText (codes "FREQ=MONTHLY;INTERVAL=2;COUNT=10;BYDAY=1SU,-1SU") both_sundays }
    ensures last_monday_but_one { IsRuleText (codes "FREQ=MONTHLY;COUNT=6;BYDAY=-2MO") last_monday_but_one }
    ensures third_to_last { IsRuleText (codes "FREQ=MONTHLY;BYMONTHDAY=-3") third_to_last }
    ensures first_and_last { IsRuleText (codes "FREQ=MONTHLY;COUNT=10;BYMONTHDAY=1,-1") first_and_last }
    ensures june_and_july { IsRuleText (codes "FREQ=YEARLY;COUNT=10;BYMONTH=6,7") june_and_july }
    ensures days_of_the_year { IsRuleText (codes "FREQ=YEARLY;INTERVAL=3;COUNT=10;BYYEARDAY=1,100,200") days_of_the_year }
    ensures monday_of_week_20 { IsRuleText (codes "FREQ=YEARLY;BYWEEKNO=20;BYDAY=MO") monday_of_week_20 }
    ensures last_workday_but_one { IsRuleText (codes "FREQ=MONTHLY;BYDAY=MO,TU,WE,TH,FR;BYSETPOS=-2") last_workday_but_one }
    ensures election_day { IsRuleText (codes "FREQ=YEARLY;INTERVAL=4;BYMONTH=11;BYDAY=TU;BYMONTHDAY=2,3,4,5,6,7,8") election_day }
    ensures last_numbers { IsRuleText (codes "FREQ=YEARLY;BYMONTHDAY=31;BYWEEKNO=-53") (record (plain Yearly) { month_days = numbers (31 ∷ []); weeks_from_end = numbers (53 ∷ []) }) }
{}

/// Texts that no rule has.
///
/// One lacks FREQ, and one has a part of a user. In one the parts do not go together, and one has a 32nd day.
pub fn known_texts_of_no_rule()
    ensures no_frequency { (r : Rule) → IsRuleText (codes "INTERVAL=2") r → ⊥ }
    ensures extension { (r : Rule) → IsRuleText (codes "FREQ=DAILY;X-A=1") r → ⊥ }
    ensures unfit { (r : Rule) → IsRuleText (codes "FREQ=WEEKLY;BYMONTHDAY=1") r → ⊥ }
    ensures day_32 { (r : Rule) → IsRuleText (codes "FREQ=MONTHLY;BYMONTHDAY=32") r → ⊥ }
{}

/// What a reading answers to known texts with `RRULE:` in front: a rule, or an error by its place in the whole text.
///
/// The errors are a part of a user, a value that cannot be read, and a part that needs another.
pub fn known_answers()
    ensures rule { (result : Result Rule RuleError) → IsRuleRead (codes "RRULE:FREQ=DAILY;INTERVAL=2;") result → result ≡ Ok every_other_day }
    ensures unknown { (result : Result Rule RuleError) → IsRuleRead (codes "RRULE:X-A=1") result
        → result ≡ Err (record { part = None; byte = 6; fault = Extension }) }
    ensures unread { (result : Result Rule RuleError) → IsRuleRead (codes "RRULE:FREQ=DAILY;WKST=X") result
        → result ≡ Err (record { part = Some Wkst; byte = 22; fault = NotAWeekday }) }
    ensures unfit { (result : Result Rule RuleError) → IsRuleRead (codes "RRULE:FREQ=YEARLY;BYSETPOS=1") result
        → result ≡ Err (record { part = Some BySetPos; byte = 18; fault = Alone }) }
{}

/// What is written for some of these rules: the parts in one order, and the numbers too.
pub fn known_written_rules()
    ensures until_christmas { rule_text until_christmas ≡ codes "FREQ=DAILY;UNTIL=19971224" }
    ensures every_other_week { rule_text every_other_week ≡ codes "FREQ=WEEKLY;INTERVAL=2;COUNT=8;BYDAY=TU,TH;WKST=SU" }
    ensures both_sundays { rule_text both_sundays ≡ codes "FREQ=MONTHLY;INTERVAL=2;COUNT=10;BYDAY=1SU,-1SU" }
    ensures days_of_the_year { rule_text days_of_the_year ≡ codes "FREQ=YEARLY;INTERVAL=3;COUNT=10;BYYEARDAY=1,100,200" }
    ensures monday_of_week_20 { rule_text monday_of_week_20 ≡ codes "FREQ=YEARLY;BYDAY=MO;BYWEEKNO=20" }
    ensures last_workday_but_one { rule_text last_workday_but_one ≡ codes "FREQ=MONTHLY;BYDAY=MO,TU,WE,TH,FR;BYSETPOS=-2" }
    ensures election_day { rule_text election_day ≡ codes "FREQ=YEARLY;INTERVAL=4;BYMONTH=11;BYMONTHDAY=2,3,4,5,6,7,8;BYDAY=TU" }
{}

/// Rules that a text can write, and rules that none can.
///
/// The greatest number of each part can be written, and the 53rd Monday of the year.
/// None can write an interval of 0, the months 0 and 13, an eighth weekday, or an end on the first day of the year 10000.
pub fn known_writable_rules()
    ensures greatest { IsWritableRule greatest_numbers }
    ensures monday_53 { IsWritableRule (by_weekdays Yearly [] (nth_weekday 0 53)) }
    ensures interval_0 { IsWritableRule (every_days 0) → ⊥ }
    ensures month_0 { IsWritableRule (by_month_days Yearly (0 ∷ []) [] []) → ⊥ }
    ensures month_13 { IsWritableRule (by_month_days Yearly (13 ∷ []) [] []) → ⊥ }
    ensures eighth_weekday { IsWritableRule (by_weekdays Weekly [] (each_weekday (7 ∷ []))) → ⊥ }
    ensures year_10000 { IsWritableRule (daily_until (pos 3_652_060)) → ⊥ }
{}

/// The text of a list of months, days of the month or weeks is read back as its numbers.
///
/// It has one number at least, from the front or from the end, and none that the list cannot have.
pub fn written_numbers_are_read(front: NumberSet, back: NumberSet)
    ensures months { is_from_one_to 12 front ≡ true → is_empty front ≡ false
        → month_list_of (list_text (items front Number false 12 1)) ≡ Some front }
    ensures month_days { is_from_one_to 31 front ≡ true → is_from_one_to 31 back ≡ true → (is_empty front && is_empty back) ≡ false
        → signed_list_of 2 31 (list_text (both_items front back 31)) ≡ Some (record { front = front; back = back }) }
    ensures weeks { is_from_one_to 53 front ≡ true → is_from_one_to 53 back ≡ true → (is_empty front && is_empty back) ≡ false
        → signed_list_of 2 53 (list_text (both_items front back 53)) ≡ Some (record { front = front; back = back }) }
{}

/// The text of a list of days of the year, or of positions, is read back as its numbers.
///
/// It has one number at least, from the front or from the end, and none that the list cannot have.
pub fn written_year_days_are_read(front: &PlaceSet, back: &PlaceSet)
    ensures { is_from_one_to 366 front.now ≡ true → is_from_one_to 366 back.now ≡ true → (is_empty front.now && is_empty back.now) ≡ false
        → signed_year_list_of (list_text (both_items front.now back.now 366)) ≡ Some (record { front = front.now; back = back.now }) }
{}

/// The text that is written for a rule is a text of it. So `read_rule` returns the rule again.
/// It has no `RRULE:` in front, and no `;` at its end.
///
/// The rule has to be one that a text can write.
/// Its interval is at least 1, and its UNTIL is in a year from 0 to 9999.
/// Its parts have their own numbers alone, and go together.
pub fn written_rules_are_read(rule: Rule)
    ensures text { IsWritableRule rule → IsRuleText (rule_text rule) rule }
    ensures bare { IsWritableRule rule → rule_body (rule_text rule) ≡ rule_text rule }
{}

/// A rule that was read is one that a text can write, whatever its text is.
///
/// So it can be written, and that text is read back as the same rule.
pub fn read_rules_are_writable(text: &[u8], rule: &Rule)
    ensures { IsRuleText (rule_body text.now) rule.now → IsWritableRule rule.now }
{}
