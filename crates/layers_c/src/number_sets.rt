//! Sets of numbers as whole numbers, whose binary digits say which numbers are members.
ghost use Rattle.std.specs.Prelude.{◌≡◌, ◌<◌, ◌≤◌, ◌+◌, ◌^◌, ◌%◌};
ghost use Rattle.layers_c.specs.NumberSets.{set_of_digits};

use chrono_sets::NumberSet;

// The set of the numbers whose digits are 1.
//
// Each digit has a line of its own, so that compilers make one copy of all.
#[inline]
pub(crate) fn set_of(digits: u64) -> NumberSet
    ensures { result ≡ set_of_digits digits }
{
    let set = with_sixteen(NumberSet::none(), digits, 0);
    let set = with_sixteen(set, digits, 16);
    let set = with_sixteen(set, digits, 32);
    with_sixteen(set, digits, 48)
}

// The set with sixteen digits more.
#[inline]
fn with_sixteen(set: NumberSet, digits: u64, first: u32) -> NumberSet
    requires first { first ≤ 48 }
    requires before { set.code ≡ digits % 2 ^ first }
    ensures { result.code ≡ digits % 2 ^ (first + 16) }
{
    let set = with_four(set, digits, first);
    let set = with_four(set, digits, first + 4);
    let set = with_four(set, digits, first + 8);
    with_four(set, digits, first + 12)
}

// The set with four digits more.
#[inline]
fn with_four(set: NumberSet, digits: u64, first: u32) -> NumberSet
    requires first { first ≤ 60 }
    requires before { set.code ≡ digits % 2 ^ first }
    ensures { result.code ≡ digits % 2 ^ (first + 4) }
{
    let set = with_digit(set, digits, first);
    let set = with_digit(set, digits, first + 1);
    let set = with_digit(set, digits, first + 2);
    with_digit(set, digits, first + 3)
}

// The set with one digit more.
#[inline]
fn with_digit(set: NumberSet, digits: u64, number: u32) -> NumberSet
    requires number { number < 64 }
    requires before { set.code ≡ digits % 2 ^ number }
    ensures { result.code ≡ digits % 2 ^ (number + 1) }
{
    if digits >> number & 1 == 1 {
        set.with(number)
    } else {
        set
    }
}

// The number whose digits are 1 for the members.
pub(crate) fn digits_of(set: NumberSet) -> u64
    ensures { result ≡ set.code % 2 ^ 64 }
{
    let mut digits = 0;
    for number in 0..64 {
        if set.contains(number) {
            digits = digits | 1 << number;
        }
    }
    digits
}
