//! Texts of years, dates and weeks, in the form of ISO 8601.
ghost use Rattle.std.specs.Prelude.{◌≡◌, ◌+◌, ◌<◌, ◌≤◌, ◌++◌, length, unsigned_abs};
ghost use Rattle.std.specs.Str.{IsAscii};
ghost use Rattle.chrono_text.specs.Text.{year_digits, year_text, calendar_text, ordinal_text, week_text, week_date_text};

use crate::digits::codes_of_two;
use crate::text::Text;

impl<const N: usize> Text<N> {
    /// Appends a year, a month and a day of the month, separated by `-` (ISO 8601 calendar date).
    ///
    /// Requires `year` to have at most six digits, `month` and `day` to be below 100, and 13 free bytes.
    ///
    /// ```
    /// let mut text = Text::<13>::new();
    /// text.push_calendar_date(2024, 2, 29);
    /// text.as_str() // "2024-02-29"
    /// ```
    pub fn push_calendar_date(&mut self, year: i32, month: u32, day: u32)
        requires year { unsigned_abs year < 1_000_000 }
        requires month { month < 100 }
        requires day { day < 100 }
        requires room { length self.old + 13 ≤ N }
        ensures text { self.new ≡ self.old ++ calendar_text year month day }
        ensures ascii { IsAscii (calendar_text year month day) }
        ensures fits { length self.new ≤ length self.old + 13 }
    {
        self.push_year(year);
        self.push(b'-');
        self.push_two(month);
        self.push(b'-');
        self.push_two(day);
    }

    /// Appends a year, `-` and a day of the year in three digits (ISO 8601 ordinal date).
    ///
    /// Requires `year` to have at most six digits, `ordinal` to be below 1,000, and 11 free bytes.
    ///
    /// ```
    /// let mut text = Text::<11>::new();
    /// text.push_ordinal_date(2024, 60);
    /// text.as_str() // "2024-060"
    /// ```
    pub fn push_ordinal_date(&mut self, year: i32, ordinal: u32)
        requires year { unsigned_abs year < 1_000_000 }
        requires ordinal { ordinal < 1_000 }
        requires room { length self.old + 11 ≤ N }
        ensures text { self.new ≡ self.old ++ ordinal_text year ordinal }
        ensures ascii { IsAscii (ordinal_text year ordinal) }
        ensures fits { length self.new ≤ length self.old + 11 }
    {
        self.push_year(year);
        self.push(b'-');
        self.push_three(ordinal);
    }

    /// Appends a year, `-W`, a week, `-` and a weekday, 1 for Monday to 7 for Sunday (ISO 8601 week date).
    ///
    /// Requires `year` to have at most six digits, `week` to be below 100, `weekday` to be below 10, and 13 free bytes.
    ///
    /// ```
    /// let mut text = Text::<13>::new();
    /// text.push_week_date(2024, 9, 4);
    /// text.as_str() // "2024-W09-4"
    /// ```
    pub fn push_week_date(&mut self, year: i32, week: u32, weekday: u32)
        requires year { unsigned_abs year < 1_000_000 }
        requires week { week < 100 }
        requires weekday { weekday < 10 }
        requires room { length self.old + 13 ≤ N }
        ensures text { self.new ≡ self.old ++ week_date_text year week weekday }
        ensures ascii { IsAscii (week_date_text year week weekday) }
        ensures fits { length self.new ≤ length self.old + 13 }
    {
        self.push_week(year, week);
        self.push(b'-');
        self.push(b'0' + weekday as u8);
    }

    /// Appends a year, `-W` and a week (ISO 8601 week date without its day).
    ///
    /// Requires `year` to have at most six digits, `week` to be below 100, and 11 free bytes.
    ///
    /// ```
    /// let mut text = Text::<11>::new();
    /// text.push_week(2024, 9);
    /// text.as_str() // "2024-W09"
    /// ```
    pub fn push_week(&mut self, year: i32, week: u32)
        requires year { unsigned_abs year < 1_000_000 }
        requires week { week < 100 }
        requires room { length self.old + 11 ≤ N }
        ensures text { self.new ≡ self.old ++ week_text year week }
        ensures ascii { IsAscii (week_text year week) }
        ensures fits { length self.new ≤ length self.old + 11 }
    {
        self.push_year(year);
        self.push(b'-');
        self.push(b'W');
        self.push_two(week);
    }

    // Puts a year: four digits from 0 to 9999, and else a sign and its size. No branch is on how long it is,
    // since processors guess that badly.
    #[inline(always)]
    fn push_year(&mut self, year: i32)
        requires year { unsigned_abs year < 1_000_000 }
        requires room { length self.old + 7 ≤ N }
        ensures text { self.new ≡ self.old ++ year_text year }
        ensures fits { length self.new ≤ length self.old + 7 }
    {
        let sign = if year < 0 { b'-' } else { b'+' };
        self.push_if((year < 0) | (year > 9_999), sign);
        self.push_year_digits(year.unsigned_abs());
    }

    // Puts the size of a year in at least four digits.
    #[inline(always)]
    fn push_year_digits(&mut self, size: u32)
        requires size { size < 1_000_000 }
        requires room { length self.old + 6 ≤ N }
        ensures text { self.new ≡ self.old ++ year_digits size }
        ensures fits { length self.new ≤ length self.old + 6 }
    {
        let front = size / 10_000;
        let (tens, ones) = codes_of_two(front);
        self.push_if(front >= 10, tens);
        self.push_if(front > 0, ones);
        self.push_four(size % 10_000);
    }
}
