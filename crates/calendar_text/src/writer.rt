//! Bytes that are put into a buffer.
ghost use Rattle.std.specs.Prelude.{◌≡◌, ◌≤◌, ◌++◌, IfNone, IfSome, length};
ghost use Rattle.calendar_text.specs.Puts.{IsPut, IsTooLong};

// Puts the bytes of a text behind the first `len` bytes of a buffer. Returns where they end; None if they do not fit.
pub(crate) fn put(buffer: &mut [u8], len: usize, text: &[u8]) -> Option<usize>
    requires { len ≤ length buffer.old }
    ensures put { IfSome result (λ end. IsPut buffer.old buffer.new len text.now end) }
    ensures none { IfNone result (IsTooLong buffer.old len text.now) }
    ensures length { length buffer.new ≡ length buffer.old }
{
    if text.len() > buffer.len() - len {
        return None;
    }
    let end = len + text.len();
    buffer[len..end].copy_from_slice(text);
    Some(end)
}

// Puts two texts, one behind the other.
fn put_two(buffer: &mut [u8], len: usize, first: &[u8], second: &[u8]) -> Option<usize>
    requires { len ≤ length buffer.old }
    ensures put { IfSome result (λ end. IsPut buffer.old buffer.new len (first.now ++ second.now) end) }
    ensures none { IfNone result (IsTooLong buffer.old len (first.now ++ second.now)) }
    ensures length { length buffer.new ≡ length buffer.old }
{
    let end = put(buffer, len, first)?;
    put(buffer, end, second)
}

// Puts three texts, one behind the other.
pub(crate) fn put_three(
    buffer: &mut [u8],
    len: usize,
    first: &[u8],
    second: &[u8],
    third: &[u8],
) -> Option<usize>
    requires { len ≤ length buffer.old }
    ensures put { IfSome result (λ end. IsPut buffer.old buffer.new len (first.now ++ (second.now ++ third.now)) end) }
    ensures none { IfNone result (IsTooLong buffer.old len (first.now ++ (second.now ++ third.now))) }
    ensures length { length buffer.new ≡ length buffer.old }
{
    let end = put(buffer, len, first)?;
    put_two(buffer, end, second, third)
}
