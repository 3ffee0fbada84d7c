//! Single digits.
ghost use Rattle.std.specs.Prelude.{◌≡◌, ◌-◌, ◌<◌, ◌≤◌};
ghost use Rattle.std.specs.Str.{byte};

/// Returns what `code` is worth as a digit; a number above 9 if it is no digit.
///
/// ```
/// digit(b'7') // 7
/// digit(b'-') > 9 // true
/// ```
#[inline(always)]
pub fn digit(code: u8) -> u8
    ensures value { byte "0" ≤ code → result ≡ code - byte "0" }
    ensures other { code < byte "0" → 9 < result }
{
    code.wrapping_sub(b'0')
}
