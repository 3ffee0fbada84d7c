//! Rows of texts: `text TEXT = LINE`. The line is the text that is written for the rule of the text, or says what is wrong with that.
use chrono_rules::Rule;
use std::alloc::Allocator;
use std::{fmt, io};

// Whether the line is what is written for the text.
pub fn is_written(text: &str, line: &str, alloc: impl Allocator) -> io::Result<bool> {
    match text.parse::<Rule>() {
        Ok(rule) => is_shown(&rule, line, alloc),
        Err(error) => is_shown(&error, line, alloc),
    }
}

// Whether the value is shown as the line.
fn is_shown(value: &impl fmt::Display, line: &str, alloc: impl Allocator) -> io::Result<bool> {
    let shown = format!(in alloc; "{value}")?;
    Ok(shown.as_str() == line)
}
