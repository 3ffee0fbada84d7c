//! Why a text is of no duration.
ghost use Rattle.std.specs.Prelude.{◌≡◌, ◌≤◌, length};
ghost use Rattle.chrono_reading.specs.DurationErrors.{cause_of, duration_error, duration_form, end_form, ends_with_s, is_nought, noughts_in_front, point_front, point_more, seconds_form, seconds_front, whole_form, whole_front, whole_more};
ghost use Rattle.chrono_reading.specs.Fitting.{fitting};

use crate::error::{ReadCause, ReadError, error_at};
use crate::fitting::{fits_front, fitting_len, fitting_pieces, leading_digits};
use crate::time::places_of_form;

// Why a text is of no duration, and at which byte.
#[cold]
#[tactic(auto, unfolding(crate::specs::DurationErrors::duration_error))]
pub(crate) fn duration_error(text: &[u8]) -> ReadError
    ensures { result ≡ duration_error text.now }
{
    let fit = fitting_duration(text);
    if !ends_with_s(text) || fit != text.len() {
        return error_at(ReadCause::NotThisForm, fit);
    }
    error_at(cause_of(text), seconds_front(text).len())
}

// Why a text of the form of a duration is of none.
#[tactic(auto, unfolding(crate::specs::DurationErrors::noughts_in_front))]
fn cause_of(text: &[u8]) -> ReadCause
    ensures { result ≡ cause_of text.now }
{
    if noughts_in_front(text) == text.len() {
        ReadCause::ZeroInSeconds
    } else {
        ReadCause::DurationOutOfRange
    }
}

// Whether the text ends with `S`.
fn ends_with_s(text: &[u8]) -> bool
    ensures { result ≡ ends_with_s text.now }
{
    text.len() > 0 && text[text.len() - 1] == b'S'
}

// Behind how many bytes the first digit from 1 to 9 stands, or the length.
fn noughts_in_front(text: &[u8]) -> usize
    ensures { result ≡ noughts_in_front text.now }
{
    let mut len = 0;
    while len < text.len() {
        if !is_nought(text[len]) {
            return len;
        }
        len += 1;
    }
    len
}

// Whether a byte is no digit from 1 to 9.
fn is_nought(byte: u8) -> bool
    ensures { result ≡ is_nought byte }
{
    !(b'1' <= byte && byte <= b'9')
}

// How many bytes of the text are as a duration.
fn fitting_duration(text: &[u8]) -> usize
    ensures { result ≡ fitting (duration_form text.now) text.now }
{
    if fits_front(b"P0", text) {
        return fitting_len(b"P0D", text);
    }
    let front = seconds_front(text);
    let fit = fitting_len(front, text);
    if fit < front.len() {
        return fit;
    }
    fit + fitting_seconds(&text[fit..])
}

// What stands in front of the seconds.
fn seconds_front(text: &[u8]) -> &'static [u8]
    ensures { result.now ≡ seconds_front text.now }
{
    if fits_front(b"-", text) {
        b"-PT"
    } else {
        b"PT"
    }
}

// How many bytes of the text are as seconds and what follows them.
fn fitting_seconds(text: &[u8]) -> usize
    ensures value { result ≡ fitting (seconds_form text.now) text.now }
    ensures within { result ≤ length text.now }
{
    let fit = fitting_whole(text);
    if fit < whole_len(text) {
        return fit;
    }
    fit + fitting_end(&text[fit..])
}

// How many bytes of the text are as whole seconds.
fn fitting_whole(text: &[u8]) -> usize
    ensures value { result ≡ fitting (whole_form text.now) text.now }
    ensures within { result ≤ length text.now }
{
    fitting_pieces(whole_front(text), whole_more(text), b"", text)
}

// How many bytes the form of whole seconds has.
#[tactic(auto, unfolding(crate::specs::DurationErrors::whole_form))]
fn whole_len(text: &[u8]) -> usize
    ensures { result ≡ length (whole_form text.now) }
{
    whole_front(text).len() + whole_more(text)
}

// The first byte of the form of whole seconds.
fn whole_front(text: &[u8]) -> &'static [u8]
    ensures { result.now ≡ whole_front text.now }
{
    if fits_front(b"0", text) { b"0" } else { b"n" }
}

// How many digits follow it.
fn whole_more(text: &[u8]) -> usize
    ensures value { result ≡ whole_more text.now }
    ensures within { result ≤ length text.now }
{
    if fits_front(b"0", text) {
        0
    } else {
        leading_digits(text).saturating_sub(1)
    }
}

// How many bytes of the text are as what follows whole seconds.
#[tactic(auto, unfolding(crate::specs::DurationErrors::end_form))]
fn fitting_end(text: &[u8]) -> usize
    ensures value { result ≡ fitting (end_form text.now) text.now }
    ensures within { result ≤ length text.now }
{
    fitting_pieces(point_front(text), point_more(text), b"S", text)
}

// The point that a text begins with, if it does.
fn point_front(text: &[u8]) -> &'static [u8]
    ensures { result.now ≡ point_front text.now }
{
    if fits_front(b".", text) { b"." } else { b"" }
}

// How many digits stand behind it.
fn point_more(text: &[u8]) -> usize
    ensures { result ≡ point_more text.now }
{
    if fits_front(b".", text) {
        places_of_form(leading_digits(&text[1..]))
    } else {
        0
    }
}
