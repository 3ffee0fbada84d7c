//! The texts of weekdays and of sets of weekdays.
ghost use Rattle.std.specs.Prelude.{◌≡◌, ◌+◌, ◌-◌, ◌*◌, ◌<◌, ◌≤◌, ◌++◌, Some, length};
ghost use Rattle.std.specs.Fmt.{WritesOnOk, WritesStyledOnOk, padded};
ghost use Rattle.chrono_units.specs.WeekdayText.{weekday_text, days_text, set_text, digit_text, set_digits_text};

use crate::weekday::Weekday;
use crate::weekday_set::WeekdaySet;
use crate::weekday_set_iter::WeekdaySetIter;
use chrono_text::Text;
use std::fmt;

// How many bytes the text of a set has at most: that of the full one.
const LONGEST_SET: usize = 35;

// How many bytes the digits of a set have, with its type's name and parentheses.
const SET_DIGITS: usize = 19;

impl Weekday {
    /// Appends the English name of the day, in three letters, to `text`.
    ///
    /// Requires 3 free bytes in `text`.
    ///
    /// ```
    /// use chrono_text::Text;
    /// let mut text = Text::<8>::new();
    /// Weekday::Thu.put_into(&mut text);
    /// text.as_str() // "Thu"
    /// ```
    #[inline]
    pub fn put_into<const N: usize>(self, text: &mut Text<N>)
        requires { length text.old + 3 ≤ N }
        ensures { text.new ≡ text.old ++ weekday_text self }
    {
        let name = short_name(self).as_bytes();
        text.push(name[0]);
        text.push(name[1]);
        text.push(name[2]);
    }
}

impl fmt::Display for Weekday {
    ghost output = { λ d. Some (weekday_text d) };

    ghost styled_output = { λ d spec. Some (padded spec (weekday_text d)) };

    /// Writes the English name of the day in three letters. Width, fill and alignment apply.
    fn fmt<W: fmt::Write>(&self, f: &mut fmt::Formatter<W>) -> fmt::Result {
        f.pad(short_name(*self))
    }
}

// The English name of the day in three letters.
#[inline]
fn short_name(day: Weekday) -> &'static str
    ensures { result.now ≡ weekday_text day }
{
    match day {
        Weekday::Mon => "Mon",
        Weekday::Tue => "Tue",
        Weekday::Wed => "Wed",
        Weekday::Thu => "Thu",
        Weekday::Fri => "Fri",
        Weekday::Sat => "Sat",
        Weekday::Sun => "Sun",
    }
}

impl WeekdaySet {
    /// Appends the members in brackets, in the order Monday to Sunday, to `text`.
    ///
    /// Requires 35 free bytes in `text`.
    ///
    /// ```
    /// use chrono_text::Text;
    /// let mut text = Text::<35>::new();
    /// WeekdaySet::from_array([Weekday::Thu, Weekday::Mon]).put_into(&mut text);
    /// text.as_str() // "[Mon, Thu]"
    /// ```
    pub fn put_into<const N: usize>(self, text: &mut Text<N>)
        requires { length text.old + 35 ≤ N }
        ensures text { text.new ≡ text.old ++ set_text self }
        ensures fits { length text.new ≤ length text.old + 35 }
    {
        text.push(b'[');
        put_days(text, self.iter(Weekday::Mon));
        text.push(b']');
    }

    // Puts a digit for each day, 1 for a member, from Sunday down to Monday, with the type's name round them.
    fn put_digits<const N: usize>(self, text: &mut Text<N>)
        requires { length text.old + 19 ≤ N }
        ensures { text.new ≡ text.old ++ set_digits_text self }
    {
        text.push_text(b"WeekdaySet(");
        put_digit(text, self.contains(Weekday::Sun));
        put_digit(text, self.contains(Weekday::Sat));
        put_digit(text, self.contains(Weekday::Fri));
        put_digit(text, self.contains(Weekday::Thu));
        put_digit(text, self.contains(Weekday::Wed));
        put_digit(text, self.contains(Weekday::Tue));
        put_digit(text, self.contains(Weekday::Mon));
        text.push(b')');
    }
}

impl fmt::Display for WeekdaySet {
    ghost output = { λ s. Some (set_text s) };

    ghost styled_output = { λ s _. Some (set_text s) };

    /// Writes the members in brackets, in the order Monday to Sunday, as `[Mon, Thu]`. Width and precision change nothing.
    fn fmt<W: fmt::Write>(&self, f: &mut fmt::Formatter<W>) -> fmt::Result {
        let mut text = Text::<LONGEST_SET>::new();
        self.put_into(&mut text);
        text.print(f)
    }
}

impl fmt::Debug for WeekdaySet {
    ghost debug_output = { λ s. Some (set_digits_text s) };

    /// Writes a digit for each day, from Sunday down to Monday, as `WeekdaySet(0001001)`. A member has 1, any other day 0.
    ///
    /// Width and precision change nothing.
    fn fmt<W: fmt::Write>(&self, f: &mut fmt::Formatter<W>) -> fmt::Result
        ensures writes { WritesOnOk W.write_str_gives f.old result
            (set_digits_text self.now) f.new }
        ensures styled { WritesStyledOnOk W.write_str_gives f.old result
            (set_digits_text self.now) f.new }
    {
        let mut text = Text::<SET_DIGITS>::new();
        self.put_digits(&mut text);
        text.print(f)
    }
}

// Puts 1 for a member, else 0.
#[inline]
fn put_digit<const N: usize>(text: &mut Text<N>, member: bool)
    requires { length text.old < N }
    ensures text { text.new ≡ text.old ++ digit_text member }
    ensures longer { length text.new ≡ length text.old + 1 }
{
    if member {
        text.push(b'1');
    } else {
        text.push(b'0');
    }
}

// Puts the days with a comma and a space between each two.
fn put_days<const N: usize>(text: &mut Text<N>, mut days: WeekdaySetIter)
    requires { length text.old + (5 * length days - 2) ≤ N }
    ensures text { text.new ≡ text.old ++ days_text days }
    ensures fits { length text.new ≤ length text.old + (5 * length days - 2) }
{
    if let Some(first) = days.next() {
        first.put_into(text);
        while let Some(day) = days.next() {
            text.push_text(b", ");
            day.put_into(text);
        }
    }
}
