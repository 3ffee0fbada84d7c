//! The names of weekdays and months, and readers of them.
ghost use Rattle.std.specs.Prelude.{◌≡◌, ◌≤◌, ◌<◌, Some, IfSome, IfNone, IsTrue, ◌↔◌, length, map, take};
ghost use Rattle.std.specs.Char.{to_ascii_lowercase};
ghost use Rattle.chrono_units.specs.Month.{month_name};
ghost use Rattle.chrono_units.specs.Names.{IsMonthText, IsNameText, IsWeekdayText, begins, month_of_letters, weekday_letters, weekday_name, weekday_of_letters};
ghost use Rattle.chrono_units.specs.declared.month.Month.{Month};
ghost use Rattle.chrono_units.specs.declared.weekday.Weekday.{Weekday};

use crate::month::Month;
use crate::weekday::Weekday;

impl Weekday {
    /// Returns the English name of the day.
    ///
    /// ```
    /// Weekday::Mon.name() // "Monday"
    /// ```
    #[inline]
    pub fn name(&self) -> &'static str
        ensures { result.now ≡ weekday_name self.now }
    {
        match self {
            Weekday::Mon => "Monday",
            Weekday::Tue => "Tuesday",
            Weekday::Wed => "Wednesday",
            Weekday::Thu => "Thursday",
            Weekday::Fri => "Friday",
            Weekday::Sat => "Saturday",
            Weekday::Sun => "Sunday",
        }
    }

    /// Returns the two letters of the day, as RFC 5545 writes it (section 3.3.10).
    ///
    /// ```
    /// Weekday::Mon.letters() // "MO"
    /// ```
    #[inline]
    pub fn letters(&self) -> &'static str
        ensures { result.now ≡ weekday_letters self.now }
    {
        match self {
            Weekday::Mon => "MO",
            Weekday::Tue => "TU",
            Weekday::Wed => "WE",
            Weekday::Thu => "TH",
            Weekday::Fri => "FR",
            Weekday::Sat => "SA",
            Weekday::Sun => "SU",
        }
    }

    /// Returns the day that `text` names: by its whole English name or its first three letters, in either case.
    ///
    /// Returns `None` if it names none.
    ///
    /// ```
    /// Weekday::from_name(b"FRIDAY") // Some(Fri)
    /// Weekday::from_name(b"Tues") // None
    /// ```
    pub fn from_name(text: &[u8]) -> Option<Weekday>
        ensures read { IfSome result (λ d. IsWeekdayText text.now d) }
        ensures every { (d : Weekday) → IsWeekdayText text.now d → result ≡ Some d }
    {
        let weekday = weekday_in_front(first_letters(text)?)?;
        if is_name(text, weekday.name()) {
            Some(weekday)
        } else {
            None
        }
    }

    /// Returns the day of whose English name `text` is the first `count` letters, in either case.
    ///
    /// Two letters are how RFC 5545 writes days. Returns `None` if there is no such day. Requires `count` to be 2 or 3.
    ///
    /// ```
    /// Weekday::from_letters(b"th", 2) // Some(Thu)
    /// Weekday::from_letters(b"thu", 2) // None
    /// ```
    #[tactic(auto, unfolding(crate::specs::Names::weekday_of_letters))]
    pub fn from_letters(text: &[u8], count: usize) -> Option<Weekday>
        requires least { 2 ≤ count }
        requires most { count ≤ 3 }
        ensures { result ≡ weekday_of_letters count text.now }
    {
        if begins(text, Weekday::Mon.name(), count) {
            Some(Weekday::Mon)
        } else if begins(text, Weekday::Tue.name(), count) {
            Some(Weekday::Tue)
        } else if begins(text, Weekday::Wed.name(), count) {
            Some(Weekday::Wed)
        } else if begins(text, Weekday::Thu.name(), count) {
            Some(Weekday::Thu)
        } else if begins(text, Weekday::Fri.name(), count) {
            Some(Weekday::Fri)
        } else if begins(text, Weekday::Sat.name(), count) {
            Some(Weekday::Sat)
        } else if begins(text, Weekday::Sun.name(), count) {
            Some(Weekday::Sun)
        } else {
            None
        }
    }
}

impl Month {
    /// Returns the month that `text` names: by its whole English name or its first three letters, in either case.
    ///
    /// Returns `None` if it names none.
    ///
    /// ```
    /// Month::from_name(b"feb") // Some(February)
    /// Month::from_name(b"Febr") // None
    /// ```
    pub fn from_name(text: &[u8]) -> Option<Month>
        ensures read { IfSome result (λ m. IsMonthText text.now m) }
        ensures every { (m : Month) → IsMonthText text.now m → result ≡ Some m }
    {
        let month = month_in_front(first_letters(text)?)?;
        if is_name(text, month.name()) {
            Some(month)
        } else {
            None
        }
    }

    /// Returns the month of whose English name `text` is the first three letters, in either case.
    ///
    /// Returns `None` if there is no such month.
    ///
    /// ```
    /// Month::from_letters(b"JUN") // Some(June)
    /// Month::from_letters(b"June") // None
    /// ```
    #[tactic(auto, unfolding(crate::specs::Names::month_of_letters))]
    pub fn from_letters(text: &[u8]) -> Option<Month>
        ensures { result ≡ month_of_letters text.now }
    {
        if begins(text, Month::January.name(), 3) {
            Some(Month::January)
        } else if begins(text, Month::February.name(), 3) {
            Some(Month::February)
        } else if begins(text, Month::March.name(), 3) {
            Some(Month::March)
        } else if begins(text, Month::April.name(), 3) {
            Some(Month::April)
        } else if begins(text, Month::May.name(), 3) {
            Some(Month::May)
        } else if begins(text, Month::June.name(), 3) {
            Some(Month::June)
        } else if begins(text, Month::July.name(), 3) {
            Some(Month::July)
        } else if begins(text, Month::August.name(), 3) {
            Some(Month::August)
        } else if begins(text, Month::September.name(), 3) {
            Some(Month::September)
        } else if begins(text, Month::October.name(), 3) {
            Some(Month::October)
        } else if begins(text, Month::November.name(), 3) {
            Some(Month::November)
        } else if begins(text, Month::December.name(), 3) {
            Some(Month::December)
        } else {
            None
        }
    }
}

// Whether a text is so many first letters of a name, in letters of any case.
fn begins(text: &[u8], name: &str, count: usize) -> bool
    requires { count ≤ length name.now }
    ensures { result ≡ begins count text.now name.now }
{
    text.eq_ignore_ascii_case(&name.as_bytes()[..count])
}

// The first three letters of a text, in lower case.
fn first_letters(text: &[u8]) -> Option<[u8; 3]>
    ensures some { IfSome result (λ letters. letters ≡ take 3 (map to_ascii_lowercase text.now)) }
    ensures none { IfNone result (length text.now ≤ 2) }
{
    if let [first, second, third, ..] = text {
        Some([
            first.to_ascii_lowercase(),
            second.to_ascii_lowercase(),
            third.to_ascii_lowercase(),
        ])
    } else {
        None
    }
}

// Whether a text is this name of three letters or more, or its first three, in letters of any case.
fn is_name(text: &[u8], name: &str) -> bool
    requires { 3 ≤ length name.now }
    ensures { IsTrue result ↔ IsNameText text.now name.now }
{
    text.eq_ignore_ascii_case(name.as_bytes()) || begins(text, name, 3)
}

// The weekday whose name begins with these small letters, if one does.
fn weekday_in_front(letters: [u8; 3]) -> Option<Weekday>
    ensures { (d : Weekday) → letters ≡ take 3 (map to_ascii_lowercase (weekday_name d)) → result ≡ Some d }
{
    Weekday::from_letters(&letters, 3)
}

// The month whose name begins with these small letters, if one does.
fn month_in_front(letters: [u8; 3]) -> Option<Month>
    ensures { (m : Month) → letters ≡ take 3 (map to_ascii_lowercase (month_name m)) → result ≡ Some m }
{
    Month::from_letters(&letters)
}
