//! Numbers as texts with a fixed number of digits, or in one digit or two.
ghost use Rattle.std.specs.Prelude.{◌≡◌, ◌+◌, ◌/◌, ◌%◌, ◌<◌, ◌≤◌, ◌++◌, length};
ghost use Rattle.std.specs.Str.{byte};
ghost use Rattle.chrono_text.specs.Text.{two_digits, all_digits, number_text};

use crate::text::Text;

// The two digits of each number below 100, one number after another.
const TWO_DIGITS: [u8; 200] = *b"00010203040506070809\
    10111213141516171819\
    20212223242526272829\
    30313233343536373839\
    40414243444546474849\
    50515253545556575859\
    60616263646566676869\
    70717273747576777879\
    80818283848586878889\
    90919293949596979899";

/// Returns the two digits of a number below 100, as ASCII codes. Requires `n < 100`.
///
/// ```
/// codes_of_two(7) // (48, 55)
/// ```
#[inline]
pub fn codes_of_two(n: u32) -> (u8, u8)
    requires { n < 100 }
    ensures tens { result.0 ≡ byte "0" + n / 10 }
    ensures ones { result.1 ≡ byte "0" + n % 10 }
{
    let place = 2 * n as usize;
    (TWO_DIGITS[place], TWO_DIGITS[place + 1])
}

impl<const N: usize> Text<N> {
    /// Appends the number `n` in two digits. Requires `n < 100`, and room for two bytes.
    ///
    /// ```
    /// let mut text: Text<2> = Text::new();
    /// text.push_two(7);
    /// text.as_bytes() // [48, 55]
    /// ```
    #[inline]
    pub fn push_two(&mut self, n: u32)
        requires small { n < 100 }
        requires room { length self.old + 2 ≤ N }
        ensures { self.new ≡ self.old ++ two_digits n }
    {
        let (tens, ones) = codes_of_two(n);
        self.push(tens);
        self.push(ones);
    }

    /// Appends the number `n` in one digit or two. Requires `n < 100`, and room for two bytes.
    ///
    /// ```
    /// let mut text = Text::<8>::new();
    /// text.push_number(7);
    /// text.push_number(10);
    /// text.as_str() // "710"
    /// ```
    #[inline]
    pub fn push_number(&mut self, n: u32)
        requires small { n < 100 }
        requires room { length self.old + 2 ≤ N }
        ensures text { self.new ≡ self.old ++ number_text n }
        ensures fits { length self.new ≤ length self.old + 2 }
    {
        if n < 10 {
            self.push(b'0' + n as u8);
        } else {
            self.push_two(n);
        }
    }

    /// Appends `n` in three digits.
    ///
    /// Requires `n` to be below 1,000, and 3 free bytes.
    ///
    /// ```
    /// let mut text = Text::<8>::new();
    /// text.push_three(7);
    /// text.as_str() // "007"
    /// ```
    #[inline]
    #[tactic(auto, using(crate::proofs::Decimals::places))]
    pub fn push_three(&mut self, n: u32)
        requires small { n < 1_000 }
        requires room { length self.old + 3 ≤ N }
        ensures { self.new ≡ self.old ++ all_digits 3 n }
    {
        self.push(b'0' + (n / 100) as u8);
        self.push_two(n % 100);
    }

    /// Appends `n` in four digits.
    ///
    /// Requires `n` to be below 10,000, and 4 free bytes.
    ///
    /// ```
    /// let mut text = Text::<8>::new();
    /// text.push_four(7);
    /// text.as_str() // "0007"
    /// ```
    #[inline]
    #[tactic(auto, using(crate::proofs::Decimals::places))]
    pub fn push_four(&mut self, n: u32)
        requires small { n < 10_000 }
        requires room { length self.old + 4 ≤ N }
        ensures { self.new ≡ self.old ++ all_digits 4 n }
    {
        self.push_two(n / 100);
        self.push_two(n % 100);
    }
}
