//! How far a text goes on as a form does.
ghost use Rattle.std.specs.Prelude.{◌≡◌, ◌≤◌, ◌↔◌, ◌++◌, IsTrue, length, replicate};
ghost use Rattle.std.specs.Str.{byte};
ghost use Rattle.chrono_reading.specs.Fitting.{IsOfForm, fits_front, fitting, leading_digits, stands_for, year_form, year_front, year_more};

// Whether a byte is as a byte of a form says.
fn stands_for(sign: u8, byte: u8) -> bool
    ensures { result ≡ stands_for sign byte }
{
    match sign {
        b'd' => byte.is_ascii_digit(),
        b'n' => byte.is_ascii_digit() && b'1' <= byte,
        _ => byte == sign,
    }
}

/// Returns how many bytes of `text` are as `form` says, up to the first that is not.
///
/// In a form, `d` stands for any digit and `n` for a digit from 1 to 9. Every other byte stands for itself.
///
/// ```
/// fitting_len(b"dd:dd", b"09:3x") // 4
/// ```
pub fn fitting_len(form: &[u8], text: &[u8]) -> usize
    ensures value { result ≡ fitting form.now text.now }
    ensures within_form { result ≤ length form.now }
    ensures within_text { result ≤ length text.now }
{
    let mut len = 0;
    while len < form.len() && len < text.len() {
        if !stands_for(form[len], text[len]) {
            return len;
        }
        len += 1;
    }
    len
}

// Whether the text begins as the form says.
pub(crate) fn fits_front(form: &[u8], text: &[u8]) -> bool
    ensures value { result ≡ fits_front form.now text.now }
    ensures long { IsTrue result → length form.now ≤ length text.now }
{
    fitting_len(form, text) == form.len()
}

/// Returns how many digits `text` begins with.
///
/// ```
/// leading_digits(b"2024-02-29") // 4
/// ```
pub fn leading_digits(text: &[u8]) -> usize
    ensures value { result ≡ leading_digits text.now }
    ensures within { result ≤ length text.now }
{
    let mut len = 0;
    while len < text.len() {
        if !text[len].is_ascii_digit() {
            return len;
        }
        len += 1;
    }
    len
}

// The first bytes of the form of the year that the text begins with.
fn year_front(text: &[u8]) -> &'static [u8]
    ensures { result.now ≡ year_front text.now }
{
    if fits_front(b"-000", text) {
        b"-000n"
    } else if fits_front(b"-0", text) {
        b"-0ddd"
    } else if fits_front(b"-", text) {
        b"-nddd"
    } else if fits_front(b"+", text) {
        b"+ndddd"
    } else {
        b"dddd"
    }
}

// How many digits follow them in that form.
fn year_more(text: &[u8]) -> usize
    ensures value { result ≡ year_more text.now }
    ensures within { result ≤ length text.now }
{
    if fits_front(b"-0", text) {
        0
    } else if fits_front(b"-", text) {
        leading_digits(&text[1..]).saturating_sub(4)
    } else if fits_front(b"+", text) {
        leading_digits(&text[1..]).saturating_sub(5)
    } else {
        0
    }
}

// How many bytes of the text are as a form of three pieces says: its first bytes, digits, and its last bytes.
pub(crate) fn fitting_pieces(front: &[u8], digits: usize, end: &[u8], text: &[u8]) -> usize
    ensures value { result ≡ fitting (front.now ++ replicate digits (byte "d") ++ end.now) text.now }
    ensures within { result ≤ length text.now }
{
    let first = fitting_len(front, text);
    if first < front.len() {
        return first;
    }
    let second = leading_digits(&text[first..]);
    if second < digits {
        return first + second;
    }
    let third = fitting_len(end, &text[first + digits..]);
    first + digits + third
}

// How many bytes of the text are as a year and these bytes behind it say.
pub(crate) fn fitting_year(text: &[u8], end: &[u8]) -> usize
    ensures value { result ≡ fitting (year_form text.now ++ end.now) text.now }
    ensures within { result ≤ length text.now }
{
    fitting_pieces(year_front(text), year_more(text), end, text)
}

// How many bytes the form of the year has that the text begins with.
#[tactic(auto, unfolding(crate::specs::Fitting::year_form))]
fn year_len(text: &[u8]) -> usize
    ensures { result ≡ length (year_form text.now) }
{
    year_front(text).len() + year_more(text)
}

// Whether the text has the form of a year.
pub(crate) fn is_of_year_form(text: &[u8]) -> bool
    ensures { IsTrue result ↔ IsOfForm (year_form text.now) text.now }
{
    let len = fitting_year(text, b"");
    len == text.len() && year_len(text) == len
}
