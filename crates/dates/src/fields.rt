//! The fields of lines, and the records of several lines that fields in quotation marks make (RFC 4180).

/// Where a part of a line begins and ends.
#[derive(Clone, Copy)]
pub(crate) struct Part {
    pub begin: usize,
    pub end: usize,
}

// The bytes of a part.
pub(crate) fn part_of(line: &[u8], part: Part) -> &[u8] {
    line.get(part.begin..part.end).unwrap_or(b"")
}

// The byte that parts fields.
pub(crate) fn separator_named(name: &str) -> u8 {
    match name {
        "tab" => b'\t',
        "semicolon" => b';',
        "space" => b' ',
        _ => b',',
    }
}

// What parts the fields of records which may have several lines: a comma or a semicolon.
pub(crate) fn separator_of_records(separator: u8) -> Option<u8> {
    if separator == b',' || separator == b';' {
        Some(separator)
    } else {
        None
    }
}

/// Where a record stands, byte by byte: at the beginning of a field, in one that begins with a quotation mark, and between two marks. A mark
/// that is doubled ends what stands between marks and begins it anew.
#[derive(Clone, Copy)]
pub(crate) struct Marks {
    begins: bool,
    has_marks: bool,
    is_open: bool,
}

impl Marks {
    // At the beginning of a record.
    pub(crate) fn new() -> Marks {
        Marks {
            begins: true,
            has_marks: false,
            is_open: false,
        }
    }

    // Takes the next byte; whether it parts two fields.
    fn parts_at(&mut self, byte: u8, separator: u8) -> bool {
        if byte == b'"' && (self.begins || self.has_marks) {
            self.has_marks = true;
            self.is_open = !self.is_open;
            self.begins = false;
            return false;
        }
        let parts = byte == separator && !self.is_open;
        self.has_marks = self.has_marks && !parts;
        self.begins = parts;
        parts
    }

    // Takes a line; whether the record goes on behind it.
    pub(crate) fn is_open_behind(&mut self, line: &[u8], separator: u8) -> bool {
        for byte in line {
            self.parts_at(*byte, separator);
        }
        self.is_open
    }
}

// The field of that number. One in quotation marks is what stands between them.
pub(crate) fn field_at(whole: &[u8], number: u64, separator: u8) -> Option<Part> {
    let line = whole.strip_suffix(b"\r").unwrap_or(whole);
    let mut marks = Marks::new();
    let mut left = number;
    let mut begin: usize = 0;
    for end in 0..=line.len() {
        if end < line.len() && !marks.parts_at(line[end], separator) {
            continue;
        }
        left = left.saturating_sub(1);
        if left == 0 {
            return Some(unquoted(line, Part { begin, end }));
        }
        begin = end.saturating_add(1);
    }
    None
}

// A field without its quotation marks, or without the blanks around it.
fn unquoted(line: &[u8], field: Part) -> Part {
    match part_of(line, field) {
        [b'"', .., b'"'] => Part {
            begin: field.begin.saturating_add(1),
            end: field.end.saturating_sub(1),
        },
        text => {
            let begin = text.len().saturating_sub(text.trim_ascii_start().len());
            let end = text.len().saturating_sub(text.trim_ascii_end().len());
            Part {
                begin: field.begin.saturating_add(begin).min(field.end),
                end: field.end.saturating_sub(end).max(field.begin),
            }
        }
    }
}
