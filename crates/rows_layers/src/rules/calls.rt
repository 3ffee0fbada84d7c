//! Each call of a rule, tried at each of its instances.

use crate::date_of;
use chrono_datetime::{AndTime, NaiveDate, NaiveDateTime};
use chrono_rules::Rule;

/// Whether these are the first instances of the rule from the start on, as each of its calls gives them.
pub fn are_instances(rule: &Rule, start: NaiveDate, days: &str) -> Option<bool> {
    let mut left = rule.instances(start);
    let mut moments = rule.date_times(noon_of(start)?);
    let mut before = None;
    let mut number = 0u32;
    for word in days.split_ascii_whitespace() {
        let next = left.next();
        let moment = moments.next();
        if word == "end" {
            return Some(next.is_none() && moment.is_none());
        }
        let day = date_of(word)?;
        number = number.wrapping_add(1);
        if next != Some(day) || moment != noon_of(day) || rule.count_to(start, day) != number {
            return Some(false);
        }
        if !is_behind(rule, start, day, before) || !is_at_noon(rule, start, day)? {
            return Some(false);
        }
        before = next;
    }
    Some(true)
}

// Whether the day comes first in an iterator from it on, and the instance before it is that one.
fn is_behind(rule: &Rule, start: NaiveDate, day: NaiveDate, before: Option<NaiveDate>) -> bool {
    let mut left = rule.instances_from(start, day);
    left.next() == Some(day) && rule.prev_before(start, day) == before
}

// Whether noon of the day, and no second beside it, is an instance of the rule from noon of the start on.
fn is_at_noon(rule: &Rule, start: NaiveDate, day: NaiveDate) -> Option<bool> {
    let (first, noon) = (noon_of(start)?, noon_of(day)?);
    let earlier = day.and_hms_opt(11, 59, 59)?;
    let later = day.and_hms_opt(12, 0, 1)?;
    let beside = rule.is_instance_at(first, earlier) || rule.is_instance_at(first, later);
    let next = rule.next_date_time(first, earlier);
    let prev = rule.prev_date_time(first, later);
    let of_day = rule.date_times_from(first, day).next();
    let is_each = next == Some(noon) && prev == Some(noon) && of_day == Some(noon);
    Some(rule.is_instance_at(first, noon) && !beside && is_each)
}

fn noon_of(day: NaiveDate) -> Option<NaiveDateTime> {
    day.and_hms_opt(12, 0, 0)
}
