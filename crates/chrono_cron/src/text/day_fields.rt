//! Reading the two fields of days. Some of their items name days, and the others list numbers.
ghost use Rattle.std.specs.Prelude.{◌≡◌, ◌<◌, ◌==◌, ◌&&◌, ◌||◌, nat_lt, ℕ, List, false, Some, if◌then◌else◌, IfSome};
ghost use Rattle.std.specs.Option.{option_map};
ghost use Rattle.chrono_sets.specs.FiniteSets.{has};
ghost use Rattle.chrono_cron.specs.FieldTexts.{item_lists, items_list};
ghost use Rattle.chrono_cron.specs.ScheduleErrors.{greatest_of_field, least_of_field, names_days, names_of_field};
ghost use Rattle.chrono_cron.specs.ScheduleTexts.{AreNamedDays, AreNamedWith, days_list, is_number, other_items, weekdays_list};

use crate::named_days::MonthDays;
use crate::text::day_items::{
    from_end_of, is_last_workday, last_weekday_of, names_by_place, names_by_weekday,
    nearest_workday_of, nth_weekday_of,
};
use crate::text::field::{COMMA, read_item};
use crate::text::number_names::Names;
use crate::text::schedule_error::ScheduleField;
use chrono_sets::NumberSet;
use chrono_text::split_at_byte;

// What the items of a field of days list, and which days they name.
#[derive(Clone, Copy)]
pub(crate) struct DayItems {
    pub(crate) numbers: NumberSet,
    pub(crate) named: MonthDays,
}

impl DayItems {
    // These, what one item more lists, and the days that it names.
    fn with_item(self, numbers: NumberSet, item: &[u8]) -> DayItems
        ensures numbers { (k : ℕ) → has result.numbers k ≡ (has self.numbers k || has numbers k) }
        ensures named { AreNamedWith self.named item.now result.named }
    {
        DayItems {
            numbers: self.numbers.union(numbers),
            named: with_named(self.named, item),
        }
    }
}

// The days that the items of the two fields name.
pub(crate) fn named_days(day: MonthDays, weekday: MonthDays) -> MonthDays
    ensures { (a b : List ℕ) → AreNamedDays a a day → AreNamedDays b b weekday → AreNamedDays a b result }
{
    MonthDays {
        from_end: day.from_end,
        nearest_workdays: day.nearest_workdays,
        last_workday: day.last_workday,
        last_weekdays: weekday.last_weekdays,
        nth_weekdays: weekday.nth_weekdays,
    }
}

// These days and that which an item names.
fn with_named(days: MonthDays, item: &[u8]) -> MonthDays
    ensures { AreNamedWith days item.now result }
{
    MonthDays {
        from_end: with_number(days.from_end, from_end_of(item)),
        nearest_workdays: with_number(days.nearest_workdays, nearest_workday_of(item)),
        last_workday: days.last_workday || is_last_workday(item),
        last_weekdays: with_number(days.last_weekdays, last_weekday_of(item)),
        nth_weekdays: with_number(days.nth_weekdays, nth_weekday_of(item)),
    }
}

// The members and the number, if there is one.
fn with_number(set: NumberSet, number: Option<u32>) -> NumberSet
    requires { IfSome number (λ n. n < 64) }
    ensures { (k : ℕ) → has result k ≡ (has set k || is_number k number) }
{
    match number {
        Some(number) => set.with(number),
        None => set,
    }
}

// The days that a field lists and names.
#[tactic(auto, unfolding(crate::specs::ScheduleTexts::days_list))]
pub(crate) fn read_days(text: &[u8]) -> Option<DayItems>
    ensures numbers { (k : ℕ) → option_map (λ items. has items.numbers k) result ≡ days_list text.now k }
    ensures named { IfSome result (λ items. AreNamedDays text.now text.now items.named) }
{
    read_items(text, ScheduleField::Day)
}

// The weekdays that a field lists, from 0 for Sunday, for which 7 stands too, and the days that it names.
pub(crate) fn read_weekdays(text: &[u8]) -> Option<DayItems>
    ensures numbers { (k : ℕ) → option_map (λ items. has items.numbers k) result ≡ weekdays_list text.now k }
    ensures named { IfSome result (λ items. AreNamedDays text.now text.now items.named) }
{
    let Some(items) = read_items(text, ScheduleField::Weekday) else {
        return None;
    };
    Some(DayItems {
        numbers: one_week(items.numbers),
        named: items.named,
    })
}

// The numbers below 7, and 0 if 7 is one.
fn one_week(set: NumberSet) -> NumberSet
    ensures { (k : ℕ) → has result k ≡ (nat_lt k 7 && (has set k || (k == 0 && has set 7))) }
{
    let week = if set.contains(7) { set.with(0) } else { set };
    week.between(0, 7)
}

// What the items of a field list, and which days they name, found in one pass.
fn read_items(text: &[u8], field: ScheduleField) -> Option<DayItems>
    ensures numbers { (k : ℕ) → option_map (λ items. has items.numbers k) result
        ≡ items_list (names_of_field field) (least_of_field field) (greatest_of_field field) (other_items (names_days field) text.now) k }
    ensures named { IfSome result (λ items. AreNamedDays text.now text.now items.named) }
{
    let mut items = DayItems {
        numbers: NumberSet::none(),
        named: MonthDays::none(),
    };
    let mut rest = text;
    while let Some((item, behind)) = split_at_byte(rest, COMMA) {
        let Some(numbers) = read_other_item(item, field) else {
            return None;
        };
        items = items.with_item(numbers, item);
        rest = behind;
    }
    let Some(numbers) = read_other_item(rest, field) else {
        return None;
    };
    Some(items.with_item(numbers, rest))
}

// The numbers that an item of a field lists: none if it names days.
pub(crate) fn read_other_item(item: &[u8], field: ScheduleField) -> Option<NumberSet>
    ensures { (k : ℕ) → option_map (λ set. has set k) result ≡ (if names_days field item.now then Some false
        else item_lists (names_of_field field) (least_of_field field) (greatest_of_field field) item.now k) }
{
    if names_days(item, field) {
        return Some(NumberSet::none());
    }
    let (names, low, high) = field.numbers();
    read_item(item, names, low, high)
}

// Whether an item of a field names days.
fn names_days(item: &[u8], field: ScheduleField) -> bool
    ensures { result ≡ names_days field item.now }
{
    match field {
        ScheduleField::Day => names_by_place(item),
        ScheduleField::Weekday => names_by_weekday(item),
        ScheduleField::Minute | ScheduleField::Hour | ScheduleField::Month => false,
    }
}

impl ScheduleField {
    // The names that it has for its numbers, and the least and the greatest of these.
    pub(crate) fn numbers(self) -> (Names, u32, u32)
        ensures names { result.0 ≡ names_of_field self }
        ensures low { result.1 ≡ least_of_field self }
        ensures high { result.2 ≡ greatest_of_field self }
        ensures small { result.2 < 64 }
    {
        match self {
            ScheduleField::Minute => (Names::Numbers, 0, 59),
            ScheduleField::Hour => (Names::Numbers, 0, 23),
            ScheduleField::Day => (Names::Numbers, 1, 31),
            ScheduleField::Month => (Names::Months, 1, 12),
            ScheduleField::Weekday => (Names::Weekdays, 0, 7),
        }
    }
}
