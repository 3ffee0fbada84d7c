//! Texts as strings of JSON.
ghost use Rattle.std.specs.Prelude.{◌≡◌, ◌<◌, Some};
ghost use Rattle.std.specs.Fmt.{WritesOnOk};
ghost use Rattle.dates_answer.specs.Quoted.{escaped, hex_digit, json_char, json_chars, quoted};

use std::fmt;

/// A text as a string of JSON (RFC 8259, section 7), with its quotation marks. Control characters stand there by their number.
///
/// ```
/// let quoted = Quoted { text: "a\"b\n" };
/// quoted.to_string(rt.alloc()).ok()? // "\"a\\\"b\\u000a\""
/// ```
#[derive(Clone, Copy)]
pub struct Quoted<'a> {
    /// The text.
    pub text: &'a str,
}

impl fmt::Display for Quoted<'_> {
    ghost output = { λ q. Some (quoted q.text.now) };

    /// Writes the text between quotation marks.
    #[tactic(auto, unfolding(crate::specs::Quoted::quoted))]
    fn fmt<W: fmt::Write>(&self, f: &mut fmt::Formatter<W>) -> fmt::Result {
        f.write_str("\"")?;
        write_characters(self.text, f)?;
        f.write_str("\"")
    }
}

// Each character of a text.
fn write_characters<W: fmt::Write>(text: &str, f: &mut fmt::Formatter<W>) -> fmt::Result
    ensures writes { WritesOnOk W.write_str_gives f.old result (json_chars text.now) f.new }
{
    for character in text.chars() {
        write_character(character, f)?;
    }
    Ok(())
}

// A character: a quotation mark or a backslash behind a backslash, a control character by its number.
#[tactic(auto, unfolding(crate::specs::Quoted::json_char))]
fn write_character<W: fmt::Write>(character: char, f: &mut fmt::Formatter<W>) -> fmt::Result
    ensures writes { WritesOnOk W.write_str_gives f.old result (json_char character) f.new }
{
    if character == '"' {
        return f.write_str("\\\"");
    }
    if character == '\\' {
        return f.write_str("\\\\");
    }
    if character.is_control() {
        return write_escaped(character as u32, f);
    }
    f.write_char(character)
}

// A character by its number, which is below 256.
#[tactic(auto, unfolding(crate::specs::Quoted::escaped))]
fn write_escaped<W: fmt::Write>(number: u32, f: &mut fmt::Formatter<W>) -> fmt::Result
    ensures writes { WritesOnOk W.write_str_gives f.old result (escaped number) f.new }
{
    let tens = hex_digit(number / 16 % 16);
    let ones = hex_digit(number % 16);
    write!(f, "\\u00{tens}{ones}")
}

// A digit of base 16.
fn hex_digit(k: u32) -> char
    requires { k < 16 }
    ensures { result ≡ hex_digit k }
{
    let digit = k as u8;
    if digit < 10 {
        (b'0' + digit) as char
    } else {
        (b'W' + digit) as char
    }
}
