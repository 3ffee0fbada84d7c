//! The days and times at which a clock is set.
ghost use Rattle.std.specs.Prelude.{◌≡◌, ◌<◌, Some, IfSome};
ghost use Rattle.chrono_units.specs.Weekday.{weekday_from_sunday};
ghost use Rattle.zone_rule.specs.Changes.{YearlyChange};
ghost use Rattle.zone_text.specs.ChangeTexts.{IsChangeText, monthly_day_of, weekly_day_of, written_day};

use crate::hours::signed_seconds;
use crate::number::count_up_to;
use chrono_datetime::Weekday;
use chrono_text::split_at_byte;
use zone_rule::{Change, RuleDay};

// 02:00:00, where a text has no time.
const DEFAULT_SECOND: i32 = 7_200;

// The change that a day, and a time behind a slash, write.
pub(crate) fn read_change(text: &[u8]) -> Option<Change>
    ensures read { IfSome result (λ c. IsChangeText text.now c) }
    ensures every { (c : YearlyChange) → IsChangeText text.now c → result ≡ Some c }
{
    let Some((day, time)) = split_at_byte(text, b'/') else {
        let day = written_day(text)?;
        return Change::new(day, DEFAULT_SECOND);
    };
    let day = written_day(day)?;
    let second = signed_seconds(time)?;
    Change::new(day, second)
}

// The day that `Mm.n.d`, `Jn` or `n` writes.
#[tactic(auto, unfolding(crate::specs::ChangeTexts::written_day))]
fn written_day(text: &[u8]) -> Option<RuleDay>
    ensures { result ≡ written_day text.now }
{
    let (first, rest) = text.split_first()?;
    if *first == b'M' {
        return monthly_day_of(rest);
    }
    if *first == b'J' {
        let day = count_up_to(rest, 365)?;
        return Some(RuleDay::Julian(day as u16));
    }
    let day = count_up_to(text, 365)?;
    Some(RuleDay::FromZero(day as u16))
}

// The day that `m.n.d` writes.
fn monthly_day_of(text: &[u8]) -> Option<RuleDay>
    ensures { result ≡ monthly_day_of text.now }
{
    let (month, week) = split_at_byte(text, b'.')?;
    let month = count_up_to(month, 12)?;
    weekly_day_of(month, week)
}

// The day that `n.d` writes in a month.
fn weekly_day_of(month: u32, text: &[u8]) -> Option<RuleDay>
    ensures { result ≡ weekly_day_of month text.now }
{
    let (week, weekday) = split_at_byte(text, b'.')?;
    let week = count_up_to(week, 5)?;
    let weekday = count_up_to(weekday, 6)?;
    Some(RuleDay::Week {
        month,
        week: week as u8,
        weekday: weekday_from_sunday(weekday),
    })
}

// The weekday so many days after Sunday: the one before that of so many days after Monday.
fn weekday_from_sunday(days: u32) -> Weekday
    requires { days < 7 }
    ensures { result ≡ weekday_from_sunday days }
{
    Weekday::from_u32(days).unwrap().pred()
}
