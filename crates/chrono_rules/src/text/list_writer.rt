//! The items of a rule's lists, written.
ghost use Rattle.std.specs.Prelude.{◌≡◌, ◌+◌, ◌-◌, ◌*◌, ◌<◌, ◌≤◌, ◌++◌, ◌||◌, false, length};
ghost use Rattle.std.specs.Fmt.{decimal, sign_text};
ghost use Rattle.chrono_sets.specs.FiniteSets.{has};
ghost use Rattle.chrono_rules.specs.WrittenRules.{both_items, item_at, item_text, items, letters_from_monday, limit, listed_on, members, numbered_items, some_in};
ghost use Rattle.chrono_rules.specs.declared.text.list_writer.Naming.TheVariants.{Numbered};

use crate::weekday_places::numbers_of;
use chrono_datetime::Weekday;
use chrono_sets::{NumberSet, PlaceSet};
use chrono_text::Text;

// How the items of a list are named by numbers.
#[derive(Clone, Copy)]
pub(crate) enum Naming {
    // By the number.
    Number,
    // By the weekday, from 0 for Monday.
    Each,
    // By the number and this weekday.
    Numbered(u32),
}

// The numbers that a list has.
#[derive(Clone, Copy)]
pub(crate) enum ListedSet {
    // Up to 63.
    Small(NumberSet),
    // Up to 383.
    Large(PlaceSet),
}

impl ListedSet {
    // Whether it has the number.
    #[tactic(auto, unfolding(crate::specs::WrittenRules::limit, crate::specs::WrittenRules::members))]
    fn has(&self, number: u32) -> bool
        requires { number < limit self.now }
        ensures { result ≡ has (members self.now) number }
    {
        match self {
            ListedSet::Small(set) => set.contains(number),
            ListedSet::Large(set) => set.contains(number),
        }
    }
}

// Numbers of a list, from `low` to before `end`, and how they are written.
#[derive(Clone, Copy)]
pub(crate) struct WrittenList {
    pub(crate) listed: ListedSet,
    pub(crate) naming: Naming,
    pub(crate) from_end: bool,
    pub(crate) low: u32,
    pub(crate) end: u32,
}

impl WrittenList {
    // Puts the items, behind others or as the first of a list; whether there is one so far.
    pub(crate) fn put_into<const N: usize>(&self, text: &mut Text<N>, begun: bool) -> bool
        requires order { self.now.low ≤ self.now.end }
        requires small { self.now.end ≤ limit self.now.listed }
        requires room { length text.old + 7 * (self.now.end - self.now.low) + 24 ≤ N }
        ensures text { text.new ≡ text.old ++ listed_on begun (items (members self.now.listed) self.now.naming self.now.from_end (self.now.end - self.now.low) self.now.low) }
        ensures begun { result ≡ (begun || some_in (items (members self.now.listed) self.now.naming self.now.from_end (self.now.end - self.now.low) self.now.low)) }
        ensures fits { length text.new ≤ length text.old + 7 * (self.now.end - self.now.low) }
    {
        let mut begun = begun;
        let mut number = self.low;
        while number < self.end {
            begun = self.put_number(text, begun, number);
            number += 1;
        }
        begun
    }

    // Puts the item of the number, if it is listed; whether there is one so far.
    fn put_number<const N: usize>(&self, text: &mut Text<N>, begun: bool, number: u32) -> bool
        requires small { number < limit self.now.listed }
        requires room { length text.old + 24 ≤ N }
        ensures text { text.new ≡ text.old ++ listed_on begun (item_at (members self.now.listed) self.now.naming self.now.from_end number) }
        ensures begun { result ≡ (begun || some_in (item_at (members self.now.listed) self.now.naming self.now.from_end number)) }
        ensures fits { length text.new ≤ length text.old + 7 }
    {
        if !self.listed.has(number) {
            return begun;
        }
        text.push_if(begun, b',');
        put_item(text, self.naming, self.from_end, number);
        true
    }
}

// Puts an item of a list.
#[tactic(auto, unfolding(crate::specs::WrittenRules::item_text))]
fn put_item<const N: usize>(text: &mut Text<N>, naming: Naming, from_end: bool, number: u32)
    requires small { number < 384 }
    requires room { length text.old + 23 ≤ N }
    ensures text { text.new ≡ text.old ++ item_text naming from_end number }
    ensures fits { length text.new ≤ length text.old + 6 }
{
    match naming {
        Naming::Number => put_signed(text, from_end, number),
        Naming::Each => put_weekday(text, number),
        Naming::Numbered(weekday) => {
            put_signed(text, from_end, number);
            put_weekday(text, weekday);
        }
    }
}

// Puts a number, with a `-` if it counts from the end.
fn put_signed<const N: usize>(text: &mut Text<N>, from_end: bool, number: u32)
    requires small { number < 384 }
    requires room { length text.old + 20 ≤ N }
    ensures text { text.new ≡ text.old ++ (sign_text from_end ++ decimal number) }
    ensures fits { length text.new ≤ length text.old + 4 }
{
    text.push_if(from_end, b'-');
    text.push_short_u32(number);
}

// Puts a weekday in two letters, from 0 for Monday.
pub(crate) fn put_weekday<const N: usize>(text: &mut Text<N>, weekday: u32)
    requires { length text.old + 2 ≤ N }
    ensures text { text.new ≡ text.old ++ letters_from_monday weekday }
    ensures fits { length text.new ≤ length text.old + 2 }
{
    text.push_text(letters_from_monday(weekday).as_bytes());
}

// A weekday's two letters, from 0 for Monday.
#[tactic(auto, unfolding(crate::specs::WrittenRules::letters_from_monday))]
fn letters_from_monday(weekday: u32) -> &'static str
    ensures letters { result.now ≡ letters_from_monday weekday }
    ensures two { length result.now ≤ 2 }
{
    match Weekday::from_u32(weekday) {
        Some(day) => day.letters(),
        None => Weekday::Sun.letters(),
    }
}

// Puts the numbers from 1 to `most` that one list has from the front and another from the end.
#[tactic(auto, unfolding(crate::specs::WrittenRules::limit, crate::specs::WrittenRules::members))]
pub(crate) fn put_both<const N: usize>(
    text: &mut Text<N>,
    front: ListedSet,
    back: ListedSet,
    most: u32,
)
    requires front { most < limit front }
    requires back { most < limit back }
    requires room { length text.old + 14 * most + 24 ≤ N }
    ensures text { text.new ≡ text.old ++ listed_on false (both_items (members front) (members back) most) }
    ensures fits { length text.new ≤ length text.old + 14 * most }
{
    let list = WrittenList {
        listed: front,
        naming: Naming::Number,
        from_end: false,
        low: 1,
        end: most + 1,
    };
    let begun = list.put_into(text, false);
    let list = WrittenList {
        listed: back,
        from_end: true,
        ..list
    };
    let _ = list.put_into(text, begun);
}

// Puts the numbered weekdays, behind other weekdays or as the first of a list; whether there is one so far.
pub(crate) fn put_numbered<const N: usize>(
    text: &mut Text<N>,
    begun: bool,
    sets: &[NumberSet; 7],
    from_end: bool,
) -> bool
    requires { length text.old + 2700 ≤ N }
    ensures text { text.new ≡ text.old ++ listed_on begun (numbered_items from_end sets.now 0) }
    ensures begun { result ≡ (begun || some_in (numbered_items from_end sets.now 0)) }
    ensures fits { length text.new ≤ length text.old + 2600 }
{
    let mut begun = begun;
    let mut weekday = 0;
    while weekday < 7 {
        begun = put_nth(
            text,
            begun,
            numbers_of(sets, weekday),
            weekday as u32,
            from_end,
        );
        weekday += 1;
    }
    begun
}

// Puts those of one weekday.
#[tactic(auto, unfolding(crate::specs::WrittenRules::limit, crate::specs::WrittenRules::members))]
fn put_nth<const N: usize>(
    text: &mut Text<N>,
    begun: bool,
    set: NumberSet,
    weekday: u32,
    from_end: bool,
) -> bool
    requires { length text.old + 400 ≤ N }
    ensures text { text.new ≡ text.old ++ listed_on begun (items set (Numbered weekday) from_end 53 1) }
    ensures begun { result ≡ (begun || some_in (items set (Numbered weekday) from_end 53 1)) }
    ensures fits { length text.new ≤ length text.old + 371 }
{
    let list = WrittenList {
        listed: ListedSet::Small(set),
        naming: Naming::Numbered(weekday),
        from_end,
        low: 1,
        end: 54,
    };
    list.put_into(text, begun)
}
