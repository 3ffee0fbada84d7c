//! The text of a rule and its names.
ghost use Rattle.std.specs.Prelude.{◌≡◌, ◌↔◌, ◌+◌, ◌<◌, ◌≤◌, ◌++◌, IfSome, IsSome, IsTrue, length, neg_ℤ, unsigned_abs};
ghost use Rattle.std.specs.Fmt.{decimal};
ghost use Rattle.std.specs.Str.{IsAscii};
ghost use Rattle.zone_rule.specs.Changes.{IsRuleDay};
ghost use Rattle.chrono_text.specs.Text.{colon_seconds_text};
ghost use Rattle.zone_text.specs.WrittenTexts.{AreNames, IsDaylightName, IsName, change_text, change_time_text, changes_text, daylight_hour_text, daylight_part, daylight_text, hour_text, minute_text, rule_day_text, zone_name_text, zone_text};

use crate::name::{are_letters, is_name};
use crate::zone::ZoneText;
use chrono_text::Text;
use zone_rule::{Change, Daylight, FixedOffset, RuleDay};

// How many bytes the two names have at most.
const LONGEST_NAMES: usize = 64;

// The time that a text leaves out: 02:00:00.
const DEFAULT_SECOND: i32 = 7_200;

const SECS_PER_HOUR: i32 = 3_600;

impl<'a> ZoneText<'a> {
    /// Returns the text of the rule and the names, such as `EST5EDT,M3.2.0,M11.1.0`. [`read`](crate::read) reads it as the same
    /// rule and names.
    ///
    /// Minutes and seconds that are 0 are left out, and so is the time 02:00. The offset of daylight time is left out if it is an
    /// hour ahead of standard time. A name has angle brackets unless it has letters alone.
    ///
    /// Returns `None` if a name has fewer than three bytes, or one that is no letter, digit or sign. Also returns `None` if there
    /// is a name of daylight time and no daylight time, or if the names have more than 64 bytes together.
    ///
    /// ```
    /// read(b"<+0330>-03:30:00").ok()?.to_text()?.as_str() // "<+0330>-3:30"
    /// read(b"IST-2IDT-3,M3.4.4/26,M10.5.0/2").ok()?.to_text()?.as_str() // "IST-2IDT,M3.4.4/26,M10.5.0"
    /// ```
    pub fn to_text(&self) -> Option<Text<160>>
        ensures text { IfSome result (λ text. text ≡ zone_text self.now.standard_name.now self.now.daylight_name.now self.now.rule) }
        ensures ascii { IfSome result (λ text. IsAscii text) }
        ensures exists { IsSome result
            ↔ (AreNames self.now.standard_name.now self.now.daylight_name.now self.now.rule.daylight
            × (length self.now.standard_name.now + length self.now.daylight_name.now ≤ 64)) }
    {
        if !self.has_names() || !self.has_short_names() {
            return None;
        }
        let mut text = Text::new();
        self.put_into(&mut text);
        Some(text)
    }

    // Puts the text.
    fn put_into<const N: usize>(&self, text: &mut Text<N>)
        requires names { AreNames self.now.standard_name.now self.now.daylight_name.now self.now.rule.daylight }
        requires room { length text.old + (length self.now.standard_name.now + length self.now.daylight_name.now + 96) ≤ N }
        ensures text { text.new ≡ text.old ++ zone_text self.now.standard_name.now self.now.daylight_name.now self.now.rule }
        ensures ascii { IsAscii (zone_text self.now.standard_name.now self.now.daylight_name.now self.now.rule) }
    {
        put_name(text, self.standard_name);
        put_hours(text, self.rule.standard.utc_minus_local());
        self.put_daylight_part(text);
    }

    // Puts daylight time, if there is some.
    fn put_daylight_part<const N: usize>(&self, text: &mut Text<N>)
        requires name { IsDaylightName self.now.daylight_name.now self.now.rule.daylight }
        requires room { length text.old + (length self.now.daylight_name.now + 72) ≤ N }
        ensures text { text.new ≡ text.old ++ daylight_part self.now.rule.standard self.now.daylight_name.now self.now.rule.daylight }
        ensures ascii { IsAscii (daylight_part self.now.rule.standard self.now.daylight_name.now self.now.rule.daylight) }
    {
        if let Some(daylight) = &self.rule.daylight {
            put_daylight(text, self.rule.standard, self.daylight_name, daylight);
        }
    }

    // Whether the times have the names that a text gives them.
    fn has_names(&self) -> bool
        ensures { IsTrue result ↔ AreNames self.now.standard_name.now self.now.daylight_name.now self.now.rule.daylight }
    {
        if !is_name(self.standard_name) {
            return false;
        }
        match self.rule.daylight {
            Some(_) => is_name(self.daylight_name),
            None => self.daylight_name.is_empty(),
        }
    }

    // Whether the names are no longer than what is written.
    fn has_short_names(&self) -> bool
        ensures { IsTrue result ↔ length self.now.standard_name.now + length self.now.daylight_name.now ≤ 64 }
    {
        self.standard_name.len() <= LONGEST_NAMES
            && self.daylight_name.len() <= LONGEST_NAMES - self.standard_name.len()
    }
}

// Puts daylight time behind standard time, which has the offset.
fn put_daylight<const N: usize>(
    text: &mut Text<N>,
    standard: FixedOffset,
    name: &[u8],
    daylight: &Daylight,
)
    requires name { IsName name.now }
    requires room { length text.old + length name.now + 70 ≤ N }
    ensures text { text.new ≡ text.old ++ daylight_text standard name.now daylight.now }
    ensures ascii { IsAscii (daylight_text standard name.now daylight.now) }
{
    put_name(text, name);
    put_daylight_hours(text, standard, daylight.offset);
    put_changes(text, daylight.begins, daylight.ends);
}

// Puts how far daylight time is behind UTC, unless it is an hour ahead of standard time.
fn put_daylight_hours<const N: usize>(
    text: &mut Text<N>,
    standard: FixedOffset,
    daylight: FixedOffset,
)
    requires { length text.old + 20 ≤ N }
    ensures text { text.new ≡ text.old ++ daylight_hour_text standard daylight }
    ensures fits { length text.new ≤ length text.old + 10 }
    ensures ascii { IsAscii (daylight_hour_text standard daylight) }
{
    if daylight.local_minus_utc() != standard.local_minus_utc() + SECS_PER_HOUR {
        put_hours(text, daylight.utc_minus_local());
    }
}

// Puts when daylight time begins and ends.
fn put_changes<const N: usize>(text: &mut Text<N>, begins: Change, ends: Change)
    requires { length text.old + 58 ≤ N }
    ensures text { text.new ≡ text.old ++ changes_text begins ends }
    ensures ascii { IsAscii (changes_text begins ends) }
{
    text.push(b',');
    put_change(text, begins);
    text.push(b',');
    put_change(text, ends);
}

// Puts a name.
fn put_name<const N: usize>(text: &mut Text<N>, name: &[u8])
    requires name { IsName name.now }
    requires room { length text.old + length name.now + 2 ≤ N }
    ensures text { text.new ≡ text.old ++ zone_name_text name.now }
    ensures fits { length text.new ≤ length text.old + length name.now + 2 }
    ensures ascii { IsAscii (zone_name_text name.now) }
{
    if are_letters(name) {
        text.push_text(name);
        return;
    }
    text.push(b'<');
    text.push_text(name);
    text.push(b'>');
}

// Puts a day, and the time on it.
fn put_change<const N: usize>(text: &mut Text<N>, change: Change)
    requires { length text.old + 33 ≤ N }
    ensures text { text.new ≡ text.old ++ change_text change }
    ensures fits { length text.new ≤ length text.old + 23 }
    ensures ascii { IsAscii (change_text change) }
{
    put_day(text, change.day());
    put_time(text, change.second());
}

// Puts a time, unless it is 02:00.
fn put_time<const N: usize>(text: &mut Text<N>, second: i32)
    requires small { unsigned_abs second < 604_800 }
    requires room { length text.old + 21 ≤ N }
    ensures text { text.new ≡ text.old ++ change_time_text second }
    ensures fits { length text.new ≤ length text.old + 11 }
    ensures ascii { IsAscii (change_time_text second) }
{
    if second != DEFAULT_SECOND {
        text.push(b'/');
        put_hours(text, second);
    }
}

// Puts a day.
fn put_day<const N: usize>(text: &mut Text<N>, day: RuleDay)
    requires day { IsRuleDay day }
    requires room { length text.old + 28 ≤ N }
    ensures text { text.new ≡ text.old ++ rule_day_text day }
    ensures fits { length text.new ≤ length text.old + 12 }
    ensures ascii { IsAscii (rule_day_text day) }
{
    match day {
        RuleDay::Week {
            month,
            week,
            weekday,
        } => {
            text.push(b'M');
            put_number(text, month);
            text.push(b'.');
            put_number(text, u32::from(week));
            text.push(b'.');
            put_number(text, weekday.num_days_from_sunday());
        }
        RuleDay::Julian(n) => {
            text.push(b'J');
            put_number(text, u32::from(n));
        }
        RuleDay::FromZero(n) => put_number(text, u32::from(n)),
    }
}

// Puts seconds as hours, and minutes and seconds where they are not 0.
fn put_hours<const N: usize>(text: &mut Text<N>, seconds: i32)
    requires small { unsigned_abs seconds < 604_800 }
    requires room { length text.old + 20 ≤ N }
    ensures text { text.new ≡ text.old ++ hour_text seconds }
    ensures fits { length text.new ≤ length text.old + 10 }
    ensures ascii { IsAscii (hour_text seconds) }
{
    let size = seconds.unsigned_abs();
    text.push_if(seconds < 0, b'-');
    put_number(text, size / 3_600);
    put_minutes(text, size % 3_600);
}

// Puts the minutes and seconds of an hour, each if it is not 0.
fn put_minutes<const N: usize>(text: &mut Text<N>, seconds: u32)
    requires small { seconds < 3_600 }
    requires room { length text.old + 6 ≤ N }
    ensures text { text.new ≡ text.old ++ minute_text seconds }
    ensures fits { length text.new ≤ length text.old + 6 }
    ensures ascii { IsAscii (minute_text seconds) }
{
    if seconds == 0 {
        return;
    }
    text.push(b':');
    text.push_two(seconds / 60);
    put_second(text, seconds % 60);
}

// Puts the seconds of a minute, if they are not 0.
fn put_second<const N: usize>(text: &mut Text<N>, second: u32)
    requires small { second < 60 }
    requires room { length text.old + 3 ≤ N }
    ensures text { text.new ≡ text.old ++ colon_seconds_text second }
    ensures fits { length text.new ≤ length text.old + 3 }
    ensures ascii { IsAscii (colon_seconds_text second) }
{
    if second != 0 {
        text.push(b':');
        text.push_two(second);
    }
}

// Puts a number of at most three digits.
fn put_number<const N: usize>(text: &mut Text<N>, n: u32)
    requires small { n < 1_000 }
    requires room { length text.old + 19 ≤ N }
    ensures text { text.new ≡ text.old ++ decimal n }
    ensures fits { length text.new ≤ length text.old + 3 }
    ensures ascii { IsAscii (decimal n) }
{
    text.push_short_u32(n);
}
