//! The text of a rule, written.
ghost use Rattle.std.specs.Prelude.{◌≡◌, ◌+◌, ◌<◌, ◌≤◌, ◌++◌, ◌==◌, nat_le, false, Some, length, codes};
ghost use Rattle.std.specs.Fmt.{decimal};
ghost use Rattle.std.specs.Str.{IsAscii, byte};
ghost use Rattle.chrono_text.specs.Lists.{each_behind, list_text};
ghost use Rattle.chrono_datetime.specs.Weekday.{days_from_monday};
ghost use Rattle.chrono_rules.specs.RuleParts.{lacks_month_days, lacks_months, lacks_positions, lacks_weekdays, lacks_weeks, lacks_year_days};
ghost use Rattle.chrono_rules.specs.WrittenRules.{basic_date_text, both_items, end_parts, four_digits, items, list_parts, rule_text, text_unless, weekday_items, letters_from_monday};
ghost use Rattle.chrono_rules.specs.declared.text.list_writer.Naming.TheVariants.{Number};

use crate::rule::{End, Rule};
use crate::text::list_writer::{
    ListedSet, Naming, WrittenList, put_both, put_numbered, put_weekday,
};
use crate::text::rule_error::frequency_name;
use chrono_datetime::{Datelike, NaiveDate, Weekday};
use chrono_text::Text;
use std::fmt;

// No text of a rule is longer.
const LONGEST: usize = 17_000;

impl Rule {
    /// Appends the rule's text to `text`. Requires that `text` has space for 17,000 more bytes.
    ///
    /// ```
    /// use chrono_text::Text;
    /// let mut text = Text::<17_000>::new();
    /// read_rule(b"byday=-1fr;freq=monthly").ok()?.put_into(&mut text);
    /// text.as_str() // "FREQ=MONTHLY;BYDAY=-1FR"
    /// ```
    pub fn put_into<const N: usize>(&self, text: &mut Text<N>)
        requires { length text.old + 17000 ≤ N }
        ensures text { text.new ≡ text.old ++ rule_text self.now }
        ensures ascii { IsAscii (rule_text self.now) }
        ensures fits { length text.new ≤ length text.old + 17000 }
    {
        text.push_text(b"FREQ=");
        text.push_text(frequency_name(self.frequency).as_bytes());
        put_interval(text, self.interval);
        put_end(text, self.end);
        self.put_lists(text);
        put_week_start(text, self.week_start);
    }

    // Puts the lists.
    fn put_lists<const N: usize>(&self, text: &mut Text<N>)
        requires { length text.old + 16900 ≤ N }
        ensures text { text.new ≡ text.old ++ each_behind (byte ";") (list_parts self.now) }
        ensures fits { length text.new ≤ length text.old + 16900 }
    {
        self.put_months(text);
        self.put_month_days(text);
        self.put_weekdays(text);
        self.put_year_days(text);
        self.put_weeks(text);
        self.put_positions(text);
    }
}

impl Rule {
    // Puts the months.
    #[tactic(auto, unfolding(crate::specs::WrittenRules::limit, crate::specs::WrittenRules::members))]
    fn put_months<const N: usize>(&self, text: &mut Text<N>)
        requires { length text.old + 117 ≤ N }
        ensures text { text.new ≡ text.old ++ text_unless (lacks_months self.now) (codes ";BYMONTH=" ++ list_text (items self.now.months Number false 12 1)) }
        ensures fits { length text.new ≤ length text.old + 93 }
    {
        if self.lacks_months() {
            return;
        }
        text.push_text(b";BYMONTH=");
        let list = WrittenList {
            listed: ListedSet::Small(self.months),
            naming: Naming::Number,
            from_end: false,
            low: 1,
            end: 13,
        };
        let _ = list.put_into(text, false);
    }

    // Puts the days of the month.
    #[tactic(auto, unfolding(crate::specs::WrittenRules::limit, crate::specs::WrittenRules::members))]
    fn put_month_days<const N: usize>(&self, text: &mut Text<N>)
        requires { length text.old + 470 ≤ N }
        ensures text { text.new ≡ text.old ++ text_unless (lacks_month_days self.now) (codes ";BYMONTHDAY=" ++ list_text (both_items self.now.month_days self.now.month_days_from_end 31)) }
        ensures fits { length text.new ≤ length text.old + 446 }
    {
        if self.lacks_month_days() {
            return;
        }
        text.push_text(b";BYMONTHDAY=");
        put_both(
            text,
            ListedSet::Small(self.month_days),
            ListedSet::Small(self.month_days_from_end),
            31,
        );
    }

    // Puts the weekdays.
    #[tactic(auto, unfolding(crate::specs::WrittenRules::limit, crate::specs::WrittenRules::members))]
    fn put_weekdays<const N: usize>(&self, text: &mut Text<N>)
        requires { length text.old + 5360 ≤ N }
        ensures text { text.new ≡ text.old ++ text_unless (lacks_weekdays self.now) (codes ";BYDAY=" ++ list_text (weekday_items self.now)) }
        ensures fits { length text.new ≤ length text.old + 5256 }
    {
        if self.lacks_weekdays() {
            return;
        }
        text.push_text(b";BYDAY=");
        let list = WrittenList {
            listed: ListedSet::Small(self.weekdays.every),
            naming: Naming::Each,
            from_end: false,
            low: 0,
            end: 7,
        };
        let begun = list.put_into(text, false);
        let begun = put_numbered(text, begun, &self.weekdays.front, false);
        let _ = put_numbered(text, begun, &self.weekdays.back, true);
    }

    // Puts the days of the year.
    #[tactic(auto, unfolding(crate::specs::WrittenRules::limit, crate::specs::WrittenRules::members))]
    fn put_year_days<const N: usize>(&self, text: &mut Text<N>)
        requires { length text.old + 5159 ≤ N }
        ensures text { text.new ≡ text.old ++ text_unless (lacks_year_days self.now) (codes ";BYYEARDAY=" ++ list_text (both_items self.now.year_days self.now.year_days_from_end 366)) }
        ensures fits { length text.new ≤ length text.old + 5135 }
    {
        if self.lacks_year_days() {
            return;
        }
        text.push_text(b";BYYEARDAY=");
        put_both(
            text,
            ListedSet::Large(self.year_days),
            ListedSet::Large(self.year_days_from_end),
            366,
        );
    }

    // Puts the weeks.
    #[tactic(auto, unfolding(crate::specs::WrittenRules::limit, crate::specs::WrittenRules::members))]
    fn put_weeks<const N: usize>(&self, text: &mut Text<N>)
        requires { length text.old + 776 ≤ N }
        ensures text { text.new ≡ text.old ++ text_unless (lacks_weeks self.now) (codes ";BYWEEKNO=" ++ list_text (both_items self.now.weeks self.now.weeks_from_end 53)) }
        ensures fits { length text.new ≤ length text.old + 752 }
    {
        if self.lacks_weeks() {
            return;
        }
        text.push_text(b";BYWEEKNO=");
        put_both(
            text,
            ListedSet::Small(self.weeks),
            ListedSet::Small(self.weeks_from_end),
            53,
        );
    }

    // Puts the positions.
    #[tactic(auto, unfolding(crate::specs::WrittenRules::limit, crate::specs::WrittenRules::members))]
    fn put_positions<const N: usize>(&self, text: &mut Text<N>)
        requires { length text.old + 5158 ≤ N }
        ensures text { text.new ≡ text.old ++ text_unless (lacks_positions self.now) (codes ";BYSETPOS=" ++ list_text (both_items self.now.positions self.now.positions_from_end 366)) }
        ensures fits { length text.new ≤ length text.old + 5134 }
    {
        if self.lacks_positions() {
            return;
        }
        text.push_text(b";BYSETPOS=");
        put_both(
            text,
            ListedSet::Large(self.positions),
            ListedSet::Large(self.positions_from_end),
            366,
        );
    }
}

impl fmt::Display for Rule {
    ghost output = { λ r. Some (rule_text r) };

    ghost styled_output = { λ r _. Some (rule_text r) };

    /// Writes the rule's text, such as `FREQ=MONTHLY;BYDAY=-1FR`.
    ///
    /// The parts come in this order: FREQ, INTERVAL, COUNT or UNTIL, BYMONTH, BYMONTHDAY, BYDAY, BYYEARDAY, BYWEEKNO,
    /// BYSETPOS, WKST. A part other than FREQ is left out if its value is what a missing part means.
    /// A list first has the numbers that count from the front. Each kind of number rises.
    /// Weekdays without a number come before all others.
    ///
    /// A rule that was read is written so that it is read again. Two kinds of rules are written but cannot be read.
    /// A part that has only numbers which it cannot have is written with no value.
    /// An UNTIL outside the years 0 to 9999 is written with a year that does not have four digits.
    /// Otherwise numbers that a part cannot have are left out.
    ///
    /// A width, a fill, an alignment, a sign or a precision makes no difference.
    fn fmt<W: fmt::Write>(&self, f: &mut fmt::Formatter<W>) -> fmt::Result {
        let mut text = Text::<LONGEST>::new();
        self.put_into(&mut text);
        text.print(f)
    }
}

// Puts INTERVAL, if it is more than 1.
fn put_interval<const N: usize>(text: &mut Text<N>, interval: u32)
    requires { length text.old + 29 ≤ N }
    ensures text { text.new ≡ text.old ++ text_unless (nat_le interval 1) (codes ";INTERVAL=" ++ decimal interval) }
    ensures ascii { IsAscii (decimal interval) }
    ensures fits { length text.new ≤ length text.old + 20 }
{
    if interval <= 1 {
        return;
    }
    text.push_text(b";INTERVAL=");
    text.push_u32(interval);
}

// Puts COUNT or UNTIL, if the rule has one.
fn put_end<const N: usize>(text: &mut Text<N>, end: End)
    requires { length text.old + 31 ≤ N }
    ensures text { text.new ≡ text.old ++ each_behind (byte ";") (end_parts end) }
    ensures ascii { IsAscii (each_behind (byte ";") (end_parts end)) }
    ensures fits { length text.new ≤ length text.old + 22 }
{
    match end {
        End::Never => (),
        End::Count(count) => put_count(text, count),
        End::Until(last) => {
            text.push_text(b";UNTIL=");
            put_day(text, last);
        }
    }
}

// Puts COUNT.
fn put_count<const N: usize>(text: &mut Text<N>, count: u32)
    requires { length text.old + 26 ≤ N }
    ensures text { text.new ≡ text.old ++ (codes ";COUNT=" ++ decimal count) }
    ensures ascii { IsAscii (decimal count) }
    ensures fits { length text.new ≤ length text.old + 17 }
{
    text.push_text(b";COUNT=");
    text.push_u32(count);
}

// Puts a date's year, month and day.
fn put_day<const N: usize>(text: &mut Text<N>, day: NaiveDate)
    requires { length text.old + 24 ≤ N }
    ensures text { text.new ≡ text.old ++ basic_date_text day }
    ensures ascii { IsAscii (basic_date_text day) }
    ensures fits { length text.new ≤ length text.old + 15 }
{
    put_year(text, day.year());
    text.push_two(day.month());
    text.push_two(day.day());
}

// Puts a year, in four digits if it is one from 0 to 9999.
fn put_year<const N: usize>(text: &mut Text<N>, year: i32)
    requires { length text.old + 20 ≤ N }
    ensures text { text.new ≡ text.old ++ four_digits year }
    ensures fits { length text.new ≤ length text.old + 11 }
{
    if 0 <= year && year <= 9_999 {
        text.push_four(year.unsigned_abs());
    } else {
        text.push_i32(year);
    }
}

// Puts WKST, if it is not Monday.
fn put_week_start<const N: usize>(text: &mut Text<N>, week_start: Weekday)
    requires { length text.old + 8 ≤ N }
    ensures text { text.new ≡ text.old ++ text_unless (days_from_monday week_start == 0) (codes ";WKST=" ++ letters_from_monday (days_from_monday week_start)) }
    ensures fits { length text.new ≤ length text.old + 8 }
{
    let weekday = week_start.num_days_from_monday();
    if weekday == 0 {
        return;
    }
    text.push_text(b";WKST=");
    put_weekday(text, weekday);
}
