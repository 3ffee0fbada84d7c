//! The layouts of dates in texts of ten bytes.

/// The order of the parts of a date in its text.
#[derive(Clone, Copy, Debug, PartialEq, Eq)]
pub enum DateOrder {
    /// The year, the month and the day, such as `2024-02-29`.
    YearMonthDay,
    /// The day, the month and the year, such as `29/02/2024`.
    DayMonthYear,
    /// The month, the day and the year, such as `02/29/2024`.
    MonthDayYear,
}

/// The layout of a date in ten bytes: four digits of the year, two of the month and two of the day.
///
/// With the separator `/` the three orders are the patterns `%Y/%m/%d`, `%d/%m/%Y` and `%m/%d/%Y`.
/// With `.` the second is `%d.%m.%Y`.
///
/// ```
/// DateLayout { order: DateOrder::DayMonthYear, separator: b'.' }.separator // 46
/// ```
#[derive(Clone, Copy, Debug, PartialEq, Eq)]
pub struct DateLayout {
    /// The order of the three parts.
    pub order: DateOrder,
    /// The byte between two parts, such as `b'/'`. Any byte is allowed.
    pub separator: u8,
}
