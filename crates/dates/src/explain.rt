//! A schedule in plain English, and lists of numbers as words.

use crate::due::{DIALECT, Plan};
use crate::prelude::*;
use chrono_datetime::Month;
use chrono_rules::{NumberSet, PlaceSet};
use timed_cron::TimedSchedule;
use zoned_cron::Schedule;

pub(crate) fn command() -> &'static CommandRow {
    row!(
        "explain", &[operand!("CRON|RRULE")], &[DIALECT, JSON, HELP];
        help: "tell a schedule or a rule in plain English",
        more: "A CRON is written as for next, an RRULE as for rule.",
        example: "$ dates explain '30 4 1,15 * 5'\n\
            at 04:30 on the 1st and 15th of every month, and on Fridays"
    )
}

// What a schedule or a rule says.
pub(crate) fn answer(asked: &mut Asked<'_>) {
    let word = asked.word(0);
    let mut out = Buffer::new(asked.rt.alloc());
    if word.text.contains("FREQ") || word.text.contains("freq") {
        asked.put_rule_of(&mut out, word);
    } else {
        match asked.plan(word) {
            Some(Plan::Minutes(schedule)) => put_schedule(&mut out, &schedule),
            Some(Plan::Seconds(timed)) => put_timed(&mut out, &timed),
            None => {}
        }
    }
    asked.print_buffer(Key::Rule, &out);
}

/// How the numbers of a list are named.
#[derive(Clone, Copy)]
pub(crate) enum Names {
    /// As 9.
    Number,
    /// As 1st.
    Ordinal,
    /// As last and 2nd last, of which 1 is the last.
    FromEnd,
    /// As Fridays, of which 0 are Mondays.
    Weekdays,
    /// As January.
    Months,
    /// As 2024, which is 54.
    Years,
    /// As 3rd Friday: a day of seven from Sunday on in each week of a month, of which the sixth is the last.
    WeekdayPlaces,
}

// Puts the name of a number behind a text.
fn put_name(out: &mut Buffer, names: Names, number: u32) {
    match names {
        Names::Number => out.show(&number),
        Names::Ordinal => put_ordinal(out, number),
        Names::FromEnd => put_from_end(out, number),
        Names::Weekdays => put!(out, weekday_name(number), "s"),
        Names::Months => out.put(month_name(number)),
        Names::Years => out.show(&number.saturating_add(1970)),
        Names::WeekdayPlaces => {
            match number / 7 {
                5 => out.put("last"),
                week => put_ordinal(out, week.saturating_add(1)),
            }
            put!(out, " ", weekday_name(number.saturating_add(6) % 7));
        }
    }
}

// Puts a number from the end behind a text, as last and 2nd last.
fn put_from_end(out: &mut Buffer, number: u32) {
    if number > 1 {
        put_ordinal(out, number);
        out.put(" ");
    }
    out.put("last");
}

// The name of a weekday, of which 0 is Monday.
pub(crate) fn weekday_name(number: u32) -> &'static str {
    match Weekday::from_u32(number) {
        Some(weekday) => weekday.name(),
        None => "",
    }
}

// The name of a month, of which 1 is January.
pub(crate) fn month_name(number: u32) -> &'static str {
    match Month::from_u32(number) {
        Some(month) => month.name(),
        None => "",
    }
}

// Puts a number as 1st, 2nd, 3rd or 4th behind a text.
fn put_ordinal(out: &mut Buffer, number: u32) {
    out.show(&number);
    let is_teen = 10 < number % 100 && number % 100 < 20;
    out.put(match number % 10 {
        1 if !is_teen => "st",
        2 if !is_teen => "nd",
        3 if !is_teen => "rd",
        _ => "th",
    });
}

// No list has a greater number.
const MOST: u32 = 383;

// Puts the numbers of a list behind a text, three or more in a row by the first and the last of them.
pub(crate) fn put_list(out: &mut Buffer, list: &PlaceSet, names: Names) {
    let last = last_named(list);
    let mut front = "";
    let mut row: u32 = 0;
    for number in 0..MOST {
        if !list.contains(number) {
            row = 0;
            continue;
        }
        if row == 0 || !list.contains(number + 1) {
            out.put(match row {
                0 | 1 if number == last && !front.is_empty() => " and ",
                0 | 1 => front,
                _ => " to ",
            });
            put_name(out, names, number);
            front = ", ";
        }
        row = row.saturating_add(1);
    }
}

// The last number of a list that no `to` stands in front of.
fn last_named(list: &PlaceSet) -> u32 {
    let (mut last, mut row): (u32, u32) = (0, 0);
    for number in 0..MOST {
        row = if list.contains(number) {
            row.saturating_add(1)
        } else {
            0
        };
        match row {
            1 | 2 => last = number,
            3 => last = number.saturating_sub(2),
            _ => {}
        }
    }
    last
}

// Puts the numbers of a small list behind a text.
pub(crate) fn put_set(out: &mut Buffer, set: NumberSet, names: Names) {
    put_list(out, &places_of(set), names);
}

// Puts each number of a small list behind a text, with texts in front of the first and behind each; what stands in front of the next.
fn put_each(
    out: &mut Buffer,
    set: NumberSet,
    names: Names,
    first: &'static str,
    noun: &'static str,
) -> &'static str {
    let mut front = first;
    for number in 0..64 {
        if set.contains(number) {
            out.put(front);
            put_name(out, names, number);
            out.put(noun);
            front = AND_THE;
        }
    }
    front
}

pub(crate) const AND_THE: &str = " and the ";

// The numbers of a small list.
pub(crate) fn places_of(set: NumberSet) -> PlaceSet {
    let mut places = PlaceSet::none();
    for number in 0..64 {
        if set.contains(number) {
            places = places.with(number);
        }
    }
    places
}

// How many numbers a small list has.
pub(crate) fn count_of(set: NumberSet) -> u32 {
    let mut count: u32 = 0;
    for number in 0..64 {
        if set.contains(number) {
            count = count.saturating_add(1);
        }
    }
    count
}

// Puts when a schedule is due behind a text.
fn put_schedule(out: &mut Buffer, schedule: &Schedule) {
    let (minutes, hours) = (schedule.sets.minutes, schedule.sets.hours);
    let (count, step) = (count_of(minutes), step_of(minutes, 0, 59));
    if count == 60 {
        out.put("every minute");
        put_hours(out, hours, "");
    } else if step > 0 && hours == NumberSet::range(0, 24) {
        out.put("every ");
        out.show(&step);
        out.put(" minutes");
    } else if count.saturating_mul(count_of(hours)) <= 8 {
        out.put("at ");
        put_clocks(out, minutes, hours);
    } else {
        out.put(if count == 1 {
            "at minute "
        } else {
            "at minutes "
        });
        put_set(out, minutes, Names::Number);
        put_hours(out, hours, " of every hour");
    }
    put_days(out, schedule);
}

// Puts a schedule with seconds behind a text.
fn put_timed(out: &mut Buffer, timed: &TimedSchedule) {
    put_schedule(out, &timed.schedule);
    if count_of(timed.seconds) == 60 {
        out.put(", at every second");
    } else if timed.seconds != NumberSet::single(0) {
        out.put(", at the seconds ");
        put_set(out, timed.seconds, Names::Number);
    }
    if let Some(years) = &timed.years {
        out.put(", in ");
        put_list(out, &years.places, Names::Years);
    }
}

// Puts hours behind a text, or what is said of all.
pub(crate) fn put_hours(out: &mut Buffer, hours: NumberSet, all: &str) {
    let step = step_of(hours, 0, 23);
    if hours == NumberSet::range(0, 24) {
        out.put(all);
    } else if step > 0 {
        out.put(" of every ");
        put_ordinal(out, step);
        out.put(" hour");
    } else {
        out.put(if count_of(hours) == 1 {
            " of hour "
        } else {
            " of the hours "
        });
        put_set(out, hours, Names::Number);
    }
}

// How far apart the numbers of a list are, from its first possible one to its last; 0 where they are not so, or are too few.
fn step_of(list: NumberSet, first: u32, last: u32) -> u32 {
    let last = last.min(59);
    for step in 2..31 {
        let is_even = last.saturating_add(1) % step == 0 || first > 0 && step < 8;
        if is_even && list == NumberSet::by_steps(first, last, step) {
            return step;
        }
    }
    0
}

// Puts the times of hours and minutes behind a text.
pub(crate) fn put_clocks(out: &mut Buffer, minutes: NumberSet, hours: NumberSet) {
    let mut left = count_of(minutes).saturating_mul(count_of(hours));
    for hour in 0..24 {
        for minute in 0..60 {
            if hours.contains(hour) && minutes.contains(minute) {
                put_two_digits(out, hour);
                out.put(":");
                put_two_digits(out, minute);
                left = left.saturating_sub(1);
                out.put(match left {
                    0 => "",
                    1 => " and ",
                    _ => ", ",
                });
            }
        }
    }
}

// Puts a number behind a text, of two digits at least.
fn put_two_digits(out: &mut Buffer, number: u32) {
    if number < 10 {
        out.put("0");
    }
    out.show(&number);
}

// Puts the days on which a schedule is due behind a text.
fn put_days(out: &mut Buffer, schedule: &Schedule) {
    let has_days = schedule.sets.days != NumberSet::range(1, 32);
    let has_weekdays = schedule.sets.weekdays != NumberSet::range(0, 7);
    if has_days {
        put_month_days(out, schedule);
        put_months(out, schedule.sets.months, " of every month");
    }
    if has_weekdays {
        out.put(match (has_days, schedule.sets.either) {
            (false, _) => " on ",
            (true, true) => ", and on ",
            (true, false) => ", where they are ",
        });
        put_weekdays_due(out, schedule);
    } else if !has_days {
        out.put(" every day");
        put_months(out, schedule.sets.months, "");
    }
}

// Puts the weekdays on which a schedule is due behind a text: those of every week from Monday on, and those by their place.
fn put_weekdays_due(out: &mut Buffer, schedule: &Schedule) {
    let (days, named) = (schedule.sets.weekdays, schedule.sets.month_days);
    let from_monday = if days.contains(0) {
        days.lowered(1).with(6)
    } else {
        days.lowered(1)
    };
    put_set(out, from_monday, Names::Weekdays);
    let front = if days.is_empty() { "the " } else { AND_THE };
    let places = named.nth_weekdays.union(named.last_weekdays.raised(35));
    put_each(out, places, Names::WeekdayPlaces, front, "");
    let all = if places.is_empty() {
        ""
    } else {
        " of every month"
    };
    put_months(out, schedule.sets.months, all);
}

// Puts months behind a text, or what is said of all.
fn put_months(out: &mut Buffer, months: NumberSet, all: &str) {
    if months == NumberSet::range(1, 13) {
        out.put(all);
    } else {
        out.put(" in ");
        put_set(out, months, Names::Months);
    }
}

// Puts the days of the month on which a schedule is due behind a text.
fn put_month_days(out: &mut Buffer, schedule: &Schedule) {
    let (days, named) = (schedule.sets.days, schedule.sets.month_days);
    let step = step_of(days, 1, 31);
    if step > 0 {
        out.put(" on every ");
        put_ordinal(out, step);
        out.put(" day from the 1st");
    } else if !days.is_empty() {
        out.put(ON_THE);
        put_set(out, days, Names::Ordinal);
    }
    let front = if days.is_empty() { ON_THE } else { AND_THE };
    let front = put_each(out, named.from_end.raised(1), Names::FromEnd, front, " day");
    if named.last_workday {
        put!(out, front, "last workday");
    }
    if !named.nearest_workdays.is_empty() {
        out.put(if named.last_workday { AND_THE } else { front });
        out.put("workday nearest to the ");
        put_set(out, named.nearest_workdays, Names::Ordinal);
    }
}

pub(crate) const ON_THE: &str = " on the ";
