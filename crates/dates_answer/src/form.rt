//! The forms of answers.

/// The form of answers.
#[derive(Clone, Copy)]
pub enum OutputForm {
    /// A text.
    Text,
    /// An object of JSON (RFC 8259) a line.
    Json,
}
