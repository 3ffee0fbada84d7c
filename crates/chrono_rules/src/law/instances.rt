//! Laws of the instances of every rule. Call one in a body: its clauses are known below that line.
ghost use Rattle.std.specs.Prelude.{◌≡◌, ◌≤ℤ◌, ◌-◌, ◌+◌, ℤ, true, false, IsTrue};
ghost use Rattle.chrono_datetime.specs.Days.{day_of};
ghost use Rattle.chrono_datetime.specs.MonthMoves.{month_length_of};
ghost use Rattle.chrono_datetime.specs.Weekday.{days_from_monday};
ghost use Rattle.chrono_datetime.specs.Weeks.{weekday_of};
ghost use Rattle.chrono_rules.specs.ByParts.{on_month_day, on_weekday};
ghost use Rattle.chrono_rules.specs.Instances.{is_instance};
ghost use Rattle.chrono_rules.specs.RuleParts.{lacks_month_days, lacks_weekdays};
ghost use Rattle.chrono_rules.specs.declared.rule.End.TheVariants.{Until};
ghost use Rattle.chrono_sets.specs.FiniteSets.{are_empty, has, is_empty};

use crate::rule::Rule;
use chrono_datetime::NaiveDate;

/// No instance of a rule is before the start.
#[tactic(auto, unfolding(crate::specs::Instances::is_instance, crate::specs::Instances::is_member))]
pub fn no_instance_is_before_the_start(rule: &Rule, start: NaiveDate)
    ensures { (n : ℤ) → IsTrue (is_instance rule.now start n) → start ≤ℤ n }
{}

/// No instance of a rule with UNTIL is after that day.
#[tactic(auto, unfolding(crate::specs::Instances::is_instance, crate::specs::Instances::is_member, crate::specs::Instances::not_after))]
pub fn no_instance_is_after_until(rule: &Rule, start: NaiveDate)
    ensures { (last n : ℤ) → rule.now.end ≡ Until last → IsTrue (is_instance rule.now start n) → n ≤ℤ last }
{}

/// Each instance of a rule with BYDAY has one of its weekdays.
///
/// An item with a number names one such day of the month or of the year ([`Rule::on_weekday`]).
/// Where no item has a number, the weekday is in the set `every`.
#[tactic(auto, unfolding(crate::specs::Instances::is_instance, crate::specs::Instances::is_member, crate::specs::ByParts::passes))]
pub fn instances_have_listed_weekdays(rule: &Rule, start: NaiveDate)
    ensures listed { (n : ℤ) → lacks_weekdays rule.now ≡ false → IsTrue (is_instance rule.now start n) →
        IsTrue (on_weekday rule.now n) }
    ensures plain { (n : ℤ) → is_empty rule.now.weekdays.every ≡ false
        → are_empty rule.now.weekdays.front ≡ true → are_empty rule.now.weekdays.back ≡ true
        → IsTrue (is_instance rule.now start n) → IsTrue (has rule.now.weekdays.every (days_from_monday (weekday_of n))) }
{}

/// Each instance of a rule with BYMONTHDAY is one of its days of the month.
///
/// Where the rule has days from one end alone, the day's number from that end is in the set of that end.
#[tactic(auto, unfolding(crate::specs::Instances::is_instance, crate::specs::Instances::is_member, crate::specs::ByParts::passes))]
pub fn instances_have_listed_month_days(rule: &Rule, start: NaiveDate)
    ensures listed { (n : ℤ) → lacks_month_days rule.now ≡ false → IsTrue (is_instance rule.now start n) →
        IsTrue (on_month_day rule.now n) }
    ensures front { (n : ℤ) → is_empty rule.now.month_days ≡ false → is_empty rule.now.month_days_from_end ≡ true
        → IsTrue (is_instance rule.now start n) → IsTrue (has rule.now.month_days (day_of n)) }
    ensures back { (n : ℤ) → is_empty rule.now.month_days ≡ true → is_empty rule.now.month_days_from_end ≡ false
        → IsTrue (is_instance rule.now start n)
        → IsTrue (has rule.now.month_days_from_end ((month_length_of n - day_of n) + 1)) }
{}
