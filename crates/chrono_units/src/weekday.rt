//! The days of the week: their cycle of seven and their numbers.

ghost use Rattle.std.specs.Prelude.{◌≡◌, ◌<◌, ◌≤ℤ◌, ◌<ℤ◌, pos, unsigned_abs};
ghost use Rattle.std.specs.Option.{SomeIff};
ghost use Rattle.std.specs.Result.{OkIff};
ghost use Rattle.chrono_units.specs.Weekday.{days_from_monday, days_from_sunday, days_since, next_weekday, number_from_monday, number_from_sunday, previous_weekday, weekday_from_monday};

use crate::out_of_range::OutOfRange;
use num_traits::cast;

/// A day of the week.
///
/// The days form a cycle of seven, Monday to Sunday, in the order of ISO 8601. Weekdays do not compare: compare their
/// numbers, for example those of [`Weekday::num_days_from_monday`].
#[derive(Clone, Copy, PartialEq, Eq, Hash, Debug)]
pub enum Weekday {
    /// Monday.
    Mon = 0,
    /// Tuesday.
    Tue = 1,
    /// Wednesday.
    Wed = 2,
    /// Thursday.
    Thu = 3,
    /// Friday.
    Fri = 4,
    /// Saturday.
    Sat = 5,
    /// Sunday.
    Sun = 6,
}

impl Weekday {
    /// Returns the next day of the week. Monday comes after Sunday.
    ///
    /// ```
    /// Weekday::Sun.succ() // Mon
    /// ```
    #[inline]
    pub fn succ(&self) -> Weekday
        ensures { result ≡ next_weekday self.now }
    {
        match self {
            Weekday::Mon => Weekday::Tue,
            Weekday::Tue => Weekday::Wed,
            Weekday::Wed => Weekday::Thu,
            Weekday::Thu => Weekday::Fri,
            Weekday::Fri => Weekday::Sat,
            Weekday::Sat => Weekday::Sun,
            Weekday::Sun => Weekday::Mon,
        }
    }

    /// Returns the previous day of the week. Sunday comes before Monday.
    ///
    /// ```
    /// Weekday::Mon.pred() // Sun
    /// ```
    #[inline]
    pub fn pred(&self) -> Weekday
        ensures { result ≡ previous_weekday self.now }
    {
        match self {
            Weekday::Mon => Weekday::Sun,
            Weekday::Tue => Weekday::Mon,
            Weekday::Wed => Weekday::Tue,
            Weekday::Thu => Weekday::Wed,
            Weekday::Fri => Weekday::Thu,
            Weekday::Sat => Weekday::Fri,
            Weekday::Sun => Weekday::Sat,
        }
    }

    /// Returns the ISO 8601 number of the day: 1 for Monday, 7 for Sunday.
    ///
    /// ```
    /// Weekday::Sun.number_from_monday() // 7
    /// ```
    #[inline]
    pub fn number_from_monday(&self) -> u32
        ensures { result ≡ number_from_monday self.now }
    {
        self.num_days_from_monday() + 1
    }

    /// Returns the number of the day, counted from Sunday: 1 for Sunday, 7 for Saturday.
    ///
    /// ```
    /// Weekday::Sat.number_from_sunday() // 7
    /// ```
    #[inline]
    pub fn number_from_sunday(&self) -> u32
        ensures { result ≡ number_from_sunday self.now }
    {
        self.num_days_from_sunday() + 1
    }

    /// Returns how many days the day is after Monday: 0 for Monday, 6 for Sunday.
    ///
    /// ```
    /// Weekday::Sun.num_days_from_monday() // 6
    /// ```
    #[inline]
    pub fn num_days_from_monday(&self) -> u32
        ensures { result ≡ days_from_monday self.now }
    {
        *self as u32
    }

    /// Returns how many days the day is after Sunday: 0 for Sunday, 6 for Saturday.
    ///
    /// ```
    /// Weekday::Mon.num_days_from_sunday() // 1
    /// ```
    #[inline]
    pub fn num_days_from_sunday(&self) -> u32
        ensures { result ≡ days_from_sunday self.now }
    {
        self.days_since(Weekday::Sun)
    }

    /// Returns how many days pass from `other` until the next day that is `self`: 0 to 6.
    ///
    /// A day since itself is 0.
    ///
    /// ```
    /// Weekday::Mon.days_since(Weekday::Sun) // 1
    /// Weekday::Sun.days_since(Weekday::Mon) // 6
    /// ```
    #[inline]
    pub fn days_since(&self, other: Weekday) -> u32
        ensures { result ≡ days_since self.now other }
    {
        let from = other.num_days_from_monday();
        let to = self.num_days_from_monday();
        if to < from { to + 7 - from } else { to - from }
    }

    /// Returns the day with the number `n`: 0 is Monday, 6 is Sunday.
    ///
    /// Returns `None` for any other number.
    ///
    /// ```
    /// Weekday::from_u32(6) // Some(Sun)
    /// Weekday::from_u32(7) // None
    /// ```
    #[inline]
    pub fn from_u32(n: u32) -> Option<Weekday>
        ensures { SomeIff result (n < 7) (weekday_from_monday n) }
    {
        match n {
            0 => Some(Weekday::Mon),
            1 => Some(Weekday::Tue),
            2 => Some(Weekday::Wed),
            3 => Some(Weekday::Thu),
            4 => Some(Weekday::Fri),
            5 => Some(Weekday::Sat),
            6 => Some(Weekday::Sun),
            _ => None,
        }
    }

    /// Returns the day with the number `n`: 0 is Monday, 6 is Sunday.
    ///
    /// Returns `None` for any other number.
    ///
    /// ```
    /// Weekday::from_u64(0) // Some(Mon)
    /// Weekday::from_u64(7) // None
    /// ```
    #[inline]
    pub fn from_u64(n: u64) -> Option<Weekday>
        ensures { SomeIff result (n < 7) (weekday_from_monday n) }
    {
        Weekday::from_u32(cast(n)?)
    }

    /// Returns the day with the number `n`: 0 is Monday, 6 is Sunday.
    ///
    /// Returns `None` for any other number.
    ///
    /// ```
    /// Weekday::from_i64(1) // Some(Tue)
    /// Weekday::from_i64(-1) // None
    /// ```
    #[inline]
    pub fn from_i64(n: i64) -> Option<Weekday>
        ensures { SomeIff result ((pos 0 ≤ℤ n) × (n <ℤ pos 7))
            (weekday_from_monday (unsigned_abs n)) }
    {
        Weekday::from_u64(cast(n)?)
    }
}

impl TryFrom<u8> for Weekday {
    type Error = OutOfRange;

    ghost try_from_gives = { λ n r. OkIff r (n < 7) (weekday_from_monday n) };

    /// Returns the day with the number `value`: 0 is Monday, 6 is Sunday. Any other number is an error.
    #[inline]
    fn try_from(value: u8) -> Result<Weekday, OutOfRange> {
        Weekday::from_u32(u32::from(value)).ok_or(OutOfRange::new())
    }
}
