//! Numbers as decimal texts.
ghost use Rattle.std.specs.Prelude.{◌≡◌, ◌+◌, ◌%◌, ◌^◌, ◌<◌, ◌≤◌, ◌++◌, [], length, nat_lt, if◌then◌else◌};
ghost use Rattle.std.specs.Fmt.{decimal, signed_decimal};
ghost use Rattle.chrono_text.specs.Text.{all_digits};

use crate::digits::codes_of_two;
use crate::text::Text;

impl<const N: usize> Text<N> {
    /// Appends the number `n` in decimal, with `-` before a negative one. Requires 20 free bytes.
    ///
    /// ```
    /// let mut text = Text::<20>::new();
    /// text.push_i32(-42);
    /// text.as_str() // "-42"
    /// ```
    pub fn push_i32(&mut self, n: i32)
        requires { length self.old + 20 ≤ N }
        ensures text { self.new ≡ self.old ++ signed_decimal n }
        ensures fits { length self.new ≤ length self.old + 11 }
    {
        self.push_if(n < 0, b'-');
        self.push_natural(u64::from(n.unsigned_abs()));
    }

    /// Appends the number `n` in decimal. Requires 19 free bytes.
    ///
    /// ```
    /// let mut text = Text::<19>::new();
    /// text.push_u32(1_024);
    /// text.as_str() // "1024"
    /// ```
    ///
    /// For up to eight digits it has no branch on the number of digits.
    pub fn push_u32(&mut self, n: u32)
        requires { length self.old + 19 ≤ N }
        ensures text { self.new ≡ self.old ++ decimal n }
        ensures fits { length self.new ≤ length self.old + 10 }
    {
        self.push_natural(u64::from(n));
    }

    /// Appends the number `n` in decimal. Requires 19 free bytes.
    ///
    /// ```
    /// let mut text = Text::<19>::new();
    /// text.push_short_u32(366);
    /// text.as_str() // "366"
    /// ```
    ///
    /// It is faster than [`push_u32`](Self::push_u32) for at most four digits, such as those of a day of the year.
    pub fn push_short_u32(&mut self, n: u32)
        requires { length self.old + 19 ≤ N }
        ensures text { self.new ≡ self.old ++ decimal n }
        ensures fits { length self.new ≤ length self.old + 10 }
    {
        if n < 10_000 {
            return self.push_last_four(n);
        }
        self.push_u32(n);
    }

    // Puts a number of at most 19 digits in decimal.
    pub(crate) fn push_natural(&mut self, n: u64)
        requires small { n < 10 ^ 19 }
        requires room { length self.old + 19 ≤ N }
        ensures { self.new ≡ self.old ++ decimal n }
    {
        if n < 100_000_000 {
            return self.push_below_hundred_million(n as u32);
        }
        self.push_natural(n / 100_000_000);
        let last = (n % 100_000_000) as u32;
        self.push_four(last / 10_000);
        self.push_four(last % 10_000);
    }

    // Puts a number of at most eight digits in decimal, with no branch on how many it has.
    #[inline(always)]
    fn push_below_hundred_million(&mut self, n: u32)
        requires small { n < 100_000_000 }
        requires room { length self.old + 8 ≤ N }
        ensures { self.new ≡ self.old ++ decimal n }
    {
        self.push_front(n / 10_000);
        self.push_last_four(n);
    }

    // Puts a number of at most four digits in decimal, but nothing for 0.
    #[inline(always)]
    fn push_front(&mut self, n: u32)
        requires small { n < 10_000 }
        requires room { length self.old + 4 ≤ N }
        ensures text { self.new ≡ self.old ++ (if nat_lt 0 n then decimal n else []) }
        ensures fits { length self.new ≤ length self.old + 4 }
    {
        let (thousands, hundreds) = codes_of_two(n / 100);
        let (tens, ones) = codes_of_two(n % 100);
        self.push_if(n >= 1_000, thousands);
        self.push_if(n >= 100, hundreds);
        self.push_if(n >= 10, tens);
        self.push_if(n > 0, ones);
    }

    // Puts the last four digits of a number, or all that it has where these are fewer.
    #[inline(always)]
    fn push_last_four(&mut self, n: u32)
        requires room { length self.old + 4 ≤ N }
        ensures text { self.new
            ≡ self.old ++ (if nat_lt n 10_000 then decimal n else all_digits 4 (n % 10_000)) }
        ensures fits { length self.new ≤ length self.old + 4 }
    {
        let last = n % 10_000;
        let (thousands, hundreds) = codes_of_two(last / 100);
        let (tens, ones) = codes_of_two(last % 100);
        self.push_if(n >= 1_000, thousands);
        self.push_if(n >= 100, hundreds);
        self.push_if(n >= 10, tens);
        self.push(ones);
    }
}
