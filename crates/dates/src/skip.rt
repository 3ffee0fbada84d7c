//! The instances of a rule with SKIP (RFC 7529), which says where a day goes that a month does not have.

use crate::prelude::*;
use chrono_datetime::Days;
use chrono_rules::{End, Frequency, Instances, NumberSet, Rule};
use chrono_text::{begins_but_for_case, same_but_for_case};

/// SKIP: where a day goes that a month does not have. A place from the end that it lacks lies before its first day.
#[derive(Clone, Copy)]
pub(crate) enum Skip {
    /// Nowhere: it is left out, as in RFC 5545.
    Omit,
    /// To the last day of the month, or to that of the month before.
    Backward,
    /// To the first day of the next month, or to that of the month itself.
    Forward,
}

impl Skip {
    // What it says.
    pub(crate) fn words(self) -> &'static str {
        match self {
            Skip::Omit => "",
            Skip::Backward => ", or the last day of a month that has no such day",
            Skip::Forward => ", or the first day after a month that has no such day",
        }
    }

    // What it says of places from the end.
    pub(crate) fn words_from_end(self) -> &'static str {
        match self {
            Skip::Omit => "",
            Skip::Backward => ", or the last day before a month that has no such day",
            Skip::Forward => ", or the first day of a month that has no such day",
        }
    }

    // What it says of a rule: nothing by days and by weeks, where days of months only limit (RFC 7529, 4.1).
    pub(crate) fn of_rule(self, rule: &Rule) -> Skip {
        match rule.frequency {
            Frequency::Daily | Frequency::Weekly => Skip::Omit,
            Frequency::Monthly | Frequency::Yearly => self,
        }
    }
}

// What is wrong with RSCALE and SKIP in a rule's text.
pub(crate) fn skip_fault(text: &[u8]) -> Option<&'static str> {
    let (mut calendars, mut skips) = (0_u64, 0_u64);
    for part in text.split(|byte| *byte == b';') {
        let part = part.strip_prefix(b"RRULE:").unwrap_or(part);
        if begins_but_for_case(part, b"RSCALE=") {
            calendars = calendars.saturating_add(1);
            if !same_but_for_case(part, b"RSCALE=GREGORIAN") {
                return Some("RSCALE: expected GREGORIAN, the one calendar that is known here");
            }
        }
        if begins_but_for_case(part, b"SKIP=") {
            skips = skips.saturating_add(1);
            if skip_named(part).is_none() {
                return Some("SKIP: expected one of OMIT, BACKWARD and FORWARD");
            }
        }
    }
    if calendars > 1 {
        Some("RSCALE: stands twice")
    } else if skips > 1 {
        Some("SKIP: stands twice")
    } else {
        None
    }
}

// Puts the parts of a rule's text behind another, but for SKIP and the calendar of RFC 5545; what SKIP says.
pub(crate) fn cut_skip(text: &[u8], others: &mut Vec<u8>) -> io::Result<Skip> {
    let mut skip = None;
    let mut gap: &[u8] = b"";
    for part in text.split(|byte| *byte == b';') {
        let alone = part.strip_prefix(b"RRULE:").unwrap_or(part);
        if same_but_for_case(alone, b"RSCALE=GREGORIAN") {
            continue;
        }
        if let (None, Some(named)) = (skip, skip_named(alone)) {
            skip = Some(named);
            continue;
        }
        others.extend_from_slice(gap)?;
        others.extend_from_slice(part)?;
        gap = b";";
    }
    Ok(skip.unwrap_or(Skip::Omit))
}

// What a part of a rule's text says of days that a month does not have.
fn skip_named(part: &[u8]) -> Option<Skip> {
    if same_but_for_case(part, b"SKIP=OMIT") {
        Some(Skip::Omit)
    } else if same_but_for_case(part, b"SKIP=BACKWARD") {
        Some(Skip::Backward)
    } else if same_but_for_case(part, b"SKIP=FORWARD") {
        Some(Skip::Forward)
    } else {
        None
    }
}

/// Which days of a rule are printed.
#[derive(Drop)]
pub(crate) struct DaysWanted {
    /// From which day on, and how many at most.
    pub from: NaiveDate,
    pub most: u64,
    /// What is added, in order, and how many of these have been passed.
    pub added: Vec<NaiveDate>,
    pub passed: usize,
    /// What is left out.
    pub left_out: Vec<NaiveDate>,
}

impl DaysWanted {
    // Prints a day, if it is wanted.
    fn print(&mut self, asked: &mut Asked<'_>, day: NaiveDate) {
        if self.most > 0 && day >= self.from && !self.left_out.as_slice().contains(&day) {
            asked.print(Reply::Date(day));
            self.most = self.most.saturating_sub(1);
        }
    }

    // Prints what is added before an instance, and passes over what is that day; all that is added where no instance follows.
    fn print_added(&mut self, asked: &mut Asked<'_>, due: Option<NaiveDate>) {
        for place in self.passed..self.added.len() {
            let Some(day) = self.added.get(place).copied() else {
                break;
            };
            let is_that_day = match due {
                Some(due) if due < day => break,
                Some(due) => due == day,
                None => false,
            };
            self.passed = place.saturating_add(1);
            if !is_that_day {
                self.print(asked, day);
            }
        }
    }
}

// Prints the instances of a rule from a day on, with what is added: a day that a month lacks goes where SKIP says.
pub(crate) fn print_skipping(
    asked: &mut Asked<'_>,
    rule: &Rule,
    skip: Skip,
    start: NaiveDate,
    wanted: &mut DaysWanted,
) {
    let (from, mut count) = match rule.end {
        End::Count(count) => (start, u64::from(count)),
        _ => (wanted.from, u64::MAX),
    };
    let mut days = SkipDays::new(rule, skip, start, from);
    for _ in 0..u64::MAX {
        if count == 0 || wanted.most == 0 || asked.is_over {
            break;
        }
        let day = match days.next() {
            Some(day) if rule.not_after(day) => day,
            _ => break,
        };
        wanted.print_added(asked, Some(day));
        wanted.print(asked, day);
        count = count.saturating_sub(1);
    }
    wanted.print_added(asked, None);
}

/// The days of a rule with SKIP, in order, each once. Neither COUNT nor UNTIL ends them.
#[derive(Drop)]
pub(crate) struct SkipDays {
    rule: Rule,
    skip: Skip,
    // The first days of the rule's months; that of the month which is gone through, and the next place in it.
    months: Instances,
    first: Option<NaiveDate>,
    place: u32,
    // The number of the first day that may follow.
    next: i32,
}

impl SkipDays {
    // The days of a rule from its start on. Those that lie some weeks before `from` are left out.
    pub(crate) fn new(rule: &Rule, skip: Skip, start: NaiveDate, from: NaiveDate) -> SkipDays {
        let rule = filled(rule, start);
        // (no month that begins earlier reaches the day, or one of the two before it)
        let begin = from.checked_sub_days(Days::new(64)).unwrap_or(start);
        let mut months = months_of(&rule).instances_from(first_period(&rule, start), begin);
        let first = months.next();
        SkipDays {
            rule,
            skip,
            months,
            first,
            place: 0,
            next: start.num_days_from_ce(),
        }
    }

    // The next day.
    pub(crate) fn next(&mut self) -> Option<NaiveDate> {
        for _ in 0..u64::MAX {
            let first = self.first?;
            let place = self.place;
            self.place = place.saturating_add(1);
            if place > 31 {
                self.first = self.months.next();
                self.place = 0;
                continue;
            }
            if let Some(day) = landed(&self.rule, first, place, self.skip) {
                let number = day.num_days_from_ce();
                if number >= self.next {
                    self.next = number.saturating_add(1);
                    return Some(day);
                }
            }
        }
        None
    }
}

// Whether SKIP has a meaning for a rule: its days are those of months alone.
pub(crate) fn goes_with_skip(rule: &Rule) -> bool {
    let is_by_months = matches!(rule.frequency, Frequency::Monthly | Frequency::Yearly);
    let is_by_weeks = !rule.weekdays.is_empty()
        || !rule.weeks.is_empty()
        || !rule.weeks_from_end.is_empty();
    let is_by_year_days = !rule.year_days.is_empty() || !rule.year_days_from_end.is_empty();
    let is_by_places = !rule.positions.is_empty() || !rule.positions_from_end.is_empty();
    is_by_months && !is_by_weeks && !is_by_year_days && !is_by_places
}

// The rule with the day of the start, if it names none, and then with its month too, if it recurs each year.
fn filled(rule: &Rule, start: NaiveDate) -> Rule {
    let mut filled = *rule;
    if rule.month_days.is_empty() && rule.month_days_from_end.is_empty() {
        filled.month_days = NumberSet::single(start.day());
        if matches!(rule.frequency, Frequency::Yearly) && rule.months.is_empty() {
            filled.months = NumberSet::single(start.month());
        }
    }
    filled
}

// The rule of the first days of the months in which a rule recurs.
fn months_of(rule: &Rule) -> Rule {
    Rule {
        month_days: NumberSet::single(1),
        month_days_from_end: NumberSet::none(),
        end: End::Never,
        ..*rule
    }
}

// The first day of the rule's first period, in which the start lies.
fn first_period(rule: &Rule, start: NaiveDate) -> NaiveDate {
    let first = start.with_day(1).unwrap_or(start);
    match rule.frequency {
        Frequency::Yearly => first.with_month(1).unwrap_or(first),
        _ => first,
    }
}

// The day at a place of a month, if the rule names it; where SKIP puts it, if the month lacks it. The place 0 is the day before the month.
fn landed(rule: &Rule, first: NaiveDate, place: u32, skip: Skip) -> Option<NaiveDate> {
    match skip {
        Skip::Backward if place == 0 && lacks_from_end(rule, first) => return first.pred_opt(),
        Skip::Forward if place == 1 && lacks_from_end(rule, first) => return Some(first),
        _ => {}
    }
    if let Some(day) = first.with_day(place) {
        return if rule.on_month_day(day) {
            Some(day)
        } else {
            None
        };
    }
    let is_named = place < 32 && rule.month_days.contains(place);
    match skip {
        Skip::Backward if is_named => Some(first.last_day_of_month()),
        Skip::Forward if is_named => first.last_day_of_month().succ_opt(),
        _ => None,
    }
}

// Whether the rule names a place from a month's end that the month lacks.
fn lacks_from_end(rule: &Rule, first: NaiveDate) -> bool {
    let length = first.last_day_of_month().day();
    for place in 29..32 {
        if place > length && rule.month_days_from_end.contains(place) {
            return true;
        }
    }
    false
}
