//! The text of a schedule.
ghost use Rattle.std.specs.Prelude.{◌≡◌, ◌+◌, ◌-◌, ◌*◌, ◌<◌, ◌≤◌, ◌++◌, Some, length, drop, map, codes, [], ◌∷◌, if◌then◌else◌};
ghost use Rattle.std.specs.Str.{byte};
ghost use Rattle.chrono_text.specs.Lists.{each_behind, list_text};
ghost use Rattle.chrono_cron.specs.declared.text.schedule_writer.DayName.TheVariants.{FromEnd, NthWeekday};
ghost use Rattle.chrono_cron.specs.WrittenTexts.{are_all, day_field_items, is_starred_by_day, is_starred_by_hour, is_starred_by_minute, is_starred_by_weekday, name_text, names_from, number_items, plain_text, range_text, ranges_from, schedule_text, weekday_field_items};

use crate::field_sets::{FieldSets, MINUTES};
use crate::schedule::Schedule;
use chrono_sets::NumberSet;
use chrono_text::Text;
use std::fmt;

// No text of a schedule is longer, and none of the items of a field.
const LONGEST: usize = 1_000;

const LONGEST_FIELD: usize = 420;

// The hours of a day, and the days of a week.
const HOURS: u32 = 24;

const WEEK: u32 = 7;

// How days of a month are named by a number.
#[derive(Clone, Copy)]
pub(crate) enum DayName {
    // `L` and `L-k`.
    FromEnd,
    // `kW`.
    NearestWorkday,
    // `dL`.
    LastWeekday,
    // `d#k`.
    NthWeekday,
}

impl Schedule {
    /// Appends the five fields of the schedule to `text`. Requires that `text` has space for 1,000 more bytes.
    ///
    /// ```
    /// use chrono_text::Text;
    /// let mut text = Text::<1000>::new();
    /// read_schedule(b"0 9-17 * * mon-fri").ok()?.put_into(&mut text);
    /// std::str::from_utf8(text.as_bytes()) // Ok("0 9-17 * * 1-5")
    /// ```
    pub fn put_into<const N: usize>(&self, text: &mut Text<N>)
        requires { length text.old + 1000 ≤ N }
        ensures text { text.new ≡ text.old ++ schedule_text self.now.sets }
        ensures fits { length text.new ≤ length text.old + 1000 }
    {
        let sets = &self.sets;
        put_plain(text, is_starred_by_minute(sets), sets.minutes, 0, MINUTES);
        text.push(b' ');
        put_plain(text, is_starred_by_hour(sets), sets.hours, 0, HOURS);
        text.push(b' ');
        put_days(text, &self.sets);
        text.push(b' ');
        put_plain(
            text,
            lists_all(self.sets.months, 1, 13),
            self.sets.months,
            1,
            13,
        );
        text.push(b' ');
        put_weekdays(text, &self.sets);
    }
}

impl fmt::Display for Schedule {
    ghost output = { λ s. Some (schedule_text s.sets) };

    ghost styled_output = { λ s _. Some (schedule_text s.sets) };

    /// Writes the five fields with a space between each two, such as `0 9-17 * * 1-5`.
    ///
    /// A field of months that lists all its numbers is `*`.
    /// Any other has its numbers, rising, in ranges that are as long as possible.
    /// After them come `L`, `L-3`, `LW`, `15W`, `5L` and `5#2`.
    ///
    /// If either field of days is enough, neither begins with `*`. So all days are `1-31`.
    /// If both have to match, one begins with `*`. So `*/31,1,15 * 5` is the 1st and the 15th where they are Fridays.
    ///
    /// If the schedule follows the clock, its minutes or its hours begin with `*`. Each that lists all its numbers is `*`.
    /// If neither does, `*/24` stands in front of hours that list 0, and else `*/60` in front of the minutes.
    /// So `*/5 2 * * *` is written `*/60,0,5,10,15,20,25,30,35,40,45,50,55 2 * * *`.
    /// If it does not follow the clock, neither begins with `*`. So all hours are `0-23`.
    ///
    /// Three kinds of schedules are written but not read back. One kind lists nothing in a field.
    /// In another both fields of days have to match, but neither the 1st nor Sunday is listed.
    /// Then neither of these two fields begins with `*`.
    /// The third follows the clock, but lists neither the hour 0 nor the minute 0. Then neither the minutes nor the hours begin with `*`.
    ///
    /// A width, a fill, an alignment, a sign or a precision makes no difference.
    fn fmt<W: fmt::Write>(&self, f: &mut fmt::Formatter<W>) -> fmt::Result {
        let mut text = Text::<LONGEST>::new();
        self.put_into(&mut text);
        text.print(f)
    }
}

// Puts a field of minutes, hours or months: the numbers from `low` to before `end`, with `*` in front or without.
fn put_plain<const N: usize>(text: &mut Text<N>, starred: bool, set: NumberSet, low: u32, end: u32)
    requires order { low ≤ end }
    requires end { end ≤ 60 }
    requires room { length text.old + (3 * (end - low) + 5) ≤ N }
    ensures text { text.new ≡ text.old ++ plain_text starred set (end - low) low }
    ensures fits { length text.new ≤ length text.old + (3 * (end - low) + 5) }
{
    let mut items = Text::<LONGEST_FIELD>::new();
    put_numbers(&mut items, starred, set, low, end);
    put_field(text, &items);
}

// Puts the field of days.
fn put_days<const N: usize>(text: &mut Text<N>, sets: &FieldSets)
    requires { length text.old + 420 ≤ N }
    ensures text { text.new ≡ text.old ++ list_text (day_field_items sets.now) }
    ensures fits { length text.new ≤ length text.old + 420 }
{
    let mut items = Text::<LONGEST_FIELD>::new();
    put_numbers(&mut items, is_starred_by_day(sets), sets.days, 1, 32);
    put_names(
        &mut items,
        DayName::FromEnd,
        sets.month_days.from_end,
        0,
        31,
    );
    put_last_workday(&mut items, sets.month_days.last_workday);
    put_names(
        &mut items,
        DayName::NearestWorkday,
        sets.month_days.nearest_workdays,
        1,
        32,
    );
    put_field(text, &items);
}

// Puts the field of weekdays.
fn put_weekdays<const N: usize>(text: &mut Text<N>, sets: &FieldSets)
    requires { length text.old + 250 ≤ N }
    ensures text { text.new ≡ text.old ++ list_text (weekday_field_items sets.now) }
    ensures fits { length text.new ≤ length text.old + 250 }
{
    let mut items = Text::<LONGEST_FIELD>::new();
    put_numbers(
        &mut items,
        is_starred_by_weekday(sets),
        sets.weekdays,
        0,
        WEEK,
    );
    put_names(
        &mut items,
        DayName::LastWeekday,
        sets.month_days.last_weekdays,
        0,
        WEEK,
    );
    put_names(
        &mut items,
        DayName::NthWeekday,
        sets.month_days.nth_weekdays,
        0,
        5 * WEEK,
    );
    put_field(text, &items);
}

// Whether the field of minutes begins with `*`.
#[tactic(auto, unfolding(crate::specs::WrittenTexts::is_starred_by_minute))]
fn is_starred_by_minute(sets: &FieldSets) -> bool
    ensures { result ≡ is_starred_by_minute sets.now }
{
    let all_minutes = lists_all(sets.minutes, 0, MINUTES);
    let all_hours = lists_all(sets.hours, 0, HOURS);
    sets.follows_clock
        && (all_minutes || (!all_hours && (!sets.hours.contains(0) && sets.minutes.contains(0))))
}

// Whether the field of hours does.
#[tactic(auto, unfolding(crate::specs::WrittenTexts::is_starred_by_hour))]
fn is_starred_by_hour(sets: &FieldSets) -> bool
    ensures { result ≡ is_starred_by_hour sets.now }
{
    let all_minutes = lists_all(sets.minutes, 0, MINUTES);
    let all_hours = lists_all(sets.hours, 0, HOURS);
    sets.follows_clock && (all_hours || (!all_minutes && sets.hours.contains(0)))
}

// Whether the field of days begins with `*`.
#[tactic(auto, unfolding(crate::specs::WrittenTexts::is_starred_by_day))]
fn is_starred_by_day(sets: &FieldSets) -> bool
    ensures { result ≡ is_starred_by_day sets.now }
{
    let all_days = lists_all(sets.days, 1, 32);
    let all_weekdays = lists_all(sets.weekdays, 0, WEEK);
    !sets.either && (all_days || (!all_weekdays && sets.days.contains(1)))
}

// Whether the field of weekdays does.
#[tactic(auto, unfolding(crate::specs::WrittenTexts::is_starred_by_weekday))]
fn is_starred_by_weekday(sets: &FieldSets) -> bool
    ensures { result ≡ is_starred_by_weekday sets.now }
{
    let all_days = lists_all(sets.days, 1, 32);
    let all_weekdays = lists_all(sets.weekdays, 0, WEEK);
    !sets.either
        && (all_weekdays || (!all_days && (!sets.days.contains(1) && sets.weekdays.contains(0))))
}

// Whether all numbers from `low` to before `end` are members.
fn lists_all(set: NumberSet, low: u32, end: u32) -> bool
    requires order { low ≤ end }
    requires end { end ≤ 60 }
    ensures { result ≡ are_all set (end - low) low }
{
    set.first_gap(low, end) == end
}

// Puts the items of a field, which stand behind a comma each, with commas between them.
fn put_field<const N: usize, const M: usize>(text: &mut Text<N>, items: &Text<M>)
    requires { length text.old + length items.now ≤ N }
    ensures text { text.new ≡ text.old ++ drop 1 items.now }
    ensures fits { length text.new ≤ length text.old + length items.now }
{
    if let [_, rest @ ..] = items.as_bytes() {
        text.push_text(rest);
    }
}

// Puts the items that list numbers, each behind a comma.
fn put_numbers<const N: usize>(
    text: &mut Text<N>,
    starred: bool,
    set: NumberSet,
    low: u32,
    end: u32,
)
    requires order { low ≤ end }
    requires end { end ≤ 60 }
    requires room { length text.old + (3 * (end - low) + 5) ≤ N }
    ensures text { text.new ≡ text.old ++ each_behind (byte ",") (number_items starred set (end - low) low) }
    ensures fits { length text.new ≤ length text.old + (3 * (end - low) + 5) }
{
    if !starred {
        put_ranges(text, set, low, end);
        return;
    }
    if lists_all(set, low, end) {
        text.push_text(b",*");
        return;
    }
    text.push_text(b",*/");
    text.push_number(end - low);
    put_ranges(text, set, low, end);
}

// Puts the members from `low` to before `end` in ranges, each behind a comma.
fn put_ranges<const N: usize>(text: &mut Text<N>, set: NumberSet, low: u32, end: u32)
    requires order { low ≤ end }
    requires end { end ≤ 60 }
    requires room { length text.old + 3 * (end - low) ≤ N }
    ensures text { text.new ≡ text.old ++ each_behind (byte ",") (map range_text (ranges_from set (end - low) low)) }
    ensures fits { length text.new ≤ length text.old + 3 * (end - low) }
{
    let mut from = low;
    while from < end {
        let gap = set.first_gap(from, end);
        if gap == from {
            from += 1;
        } else {
            put_range(text, from, gap - 1);
            from = gap;
        }
    }
}

// Puts a range behind a comma.
fn put_range<const N: usize>(text: &mut Text<N>, first: u32, last: u32)
    requires order { first ≤ last }
    requires last { last < 60 }
    requires room { length text.old + 3 * (last + 1 - first) ≤ N }
    ensures text { text.new ≡ text.old ++ codes "," ++ range_text (first, last) }
    ensures fits { length text.new ≤ length text.old + 3 * (last + 1 - first) }
{
    text.push(b',');
    text.push_number(first);
    if first != last {
        text.push(b'-');
        text.push_number(last);
    }
}

// Puts the members from `low` to before `end` as names of days, each behind a comma.
fn put_names<const N: usize>(
    text: &mut Text<N>,
    naming: DayName,
    set: NumberSet,
    low: u32,
    end: u32,
)
    requires order { low ≤ end }
    requires end { end ≤ 60 }
    requires room { length text.old + 5 * (end - low) ≤ N }
    ensures text { text.new ≡ text.old ++ each_behind (byte ",") (names_from naming set (end - low) low) }
    ensures fits { length text.new ≤ length text.old + 5 * (end - low) }
{
    let mut number = low;
    while number < end {
        if set.contains(number) {
            text.push(b',');
            put_name(text, naming, number);
        }
        number += 1;
    }
}

// Puts `LW` behind a comma, if it is named.
fn put_last_workday<const N: usize>(text: &mut Text<N>, is_named: bool)
    requires { length text.old + 3 ≤ N }
    ensures text { text.new ≡ text.old ++ each_behind (byte ",") (if is_named then codes "LW" ∷ [] else []) }
    ensures fits { length text.new ≤ length text.old + 3 }
{
    if is_named {
        text.push_text(b",LW");
    }
}

// Puts the name of a day.
fn put_name<const N: usize>(text: &mut Text<N>, naming: DayName, number: u32)
    requires number { number < 60 }
    requires room { length text.old + 4 ≤ N }
    ensures text { text.new ≡ text.old ++ name_text naming number }
    ensures fits { length text.new ≤ length text.old + 4 }
{
    match naming {
        DayName::FromEnd => put_from_end(text, number),
        DayName::NearestWorkday => {
            text.push_number(number);
            text.push(b'W');
        }
        DayName::LastWeekday => {
            text.push_number(number);
            text.push(b'L');
        }
        DayName::NthWeekday => put_nth_weekday(text, number),
    }
}

// Puts `L`, or `L-k`.
fn put_from_end<const N: usize>(text: &mut Text<N>, number: u32)
    requires number { number < 60 }
    requires room { length text.old + 4 ≤ N }
    ensures text { text.new ≡ text.old ++ name_text FromEnd number }
    ensures fits { length text.new ≤ length text.old + 4 }
{
    text.push(b'L');
    if number > 0 {
        text.push(b'-');
        text.push_number(number);
    }
}

// Puts `d#k`.
fn put_nth_weekday<const N: usize>(text: &mut Text<N>, number: u32)
    requires number { number < 60 }
    requires room { length text.old + 4 ≤ N }
    ensures text { text.new ≡ text.old ++ name_text NthWeekday number }
    ensures fits { length text.new ≤ length text.old + 4 }
{
    text.push(b'0' + (number % WEEK) as u8);
    text.push(b'#');
    text.push_number(number / WEEK + 1);
}
