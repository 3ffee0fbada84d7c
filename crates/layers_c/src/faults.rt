//! What is wrong with a text, and where, as numbers.

/// What is wrong with a text, and where.
#[repr(C)]
#[derive(Clone, Copy)]
pub struct CalendarFault {
    /// What is wrong, from 1. 0 is no fault.
    pub code: u32,
    /// The field or the part that is wrong, from 1. 0 is none.
    pub field: u32,
    /// Where the wrong part begins, in bytes from 0.
    pub byte: usize,
    /// Where the wrong part ends: the place of the next comma, blank or semicolon, or the length of the text.
    pub end: usize,
}
