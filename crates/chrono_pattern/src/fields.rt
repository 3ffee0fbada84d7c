//! `Fields`: which fields of a date-time a pattern has.
ghost use Rattle.std.specs.Prelude.{◌≡◌};
ghost use Rattle.chrono_pattern.specs.Fields.{fields_given};

use crate::parsed::Parsed;

/// Which fields of a date-time a pattern reads. They have the names that they have in [`Parsed`].
///
/// A pattern writes them too. Besides, `%Z` writes an offset, but reads none.
///
/// ```
/// let fields = Pattern::new(b"%d.%m. %I").ok()?.fields();
/// fields.day // true
/// fields.hour_mod_12 // true
/// fields.hour_div_12 // false
/// ```
#[derive(Clone, Copy, Debug, PartialEq, Eq)]
pub struct Fields {
    /// The year, such as by `%Y`.
    pub year: bool,
    /// The century: `%C`.
    pub year_div_100: bool,
    /// The year of the century, such as by `%y`.
    pub year_mod_100: bool,
    /// The ISO year: `%G`.
    pub isoyear: bool,
    /// The year of the century of the ISO year: `%g`.
    pub isoyear_mod_100: bool,
    /// The quarter of the year: `%q`.
    pub quarter: bool,
    /// The month, by its number or its name.
    pub month: bool,
    /// The ISO week: `%V`.
    pub isoweek: bool,
    /// The week of the year that begins on Sunday: `%U`.
    pub week_from_sun: bool,
    /// The week of the year that begins on Monday: `%W`.
    pub week_from_mon: bool,
    /// The weekday, by its number or its name.
    pub weekday: bool,
    /// The day of the year: `%j`.
    pub ordinal: bool,
    /// The day of the month, such as by `%d`.
    pub day: bool,
    /// The half of the day, such as by `%p` or by an hour from 0 to 23.
    pub hour_div_12: bool,
    /// The hour of the half day, by any hour.
    pub hour_mod_12: bool,
    /// The minute, such as by `%M`.
    pub minute: bool,
    /// The second, such as by `%S`.
    pub second: bool,
    /// The fraction of the second, such as by `%f`. A text may leave out one with a point, as by `%.f`.
    pub nanosecond: bool,
    /// The offset from UTC, such as by `%z`.
    pub offset: bool,
    /// The seconds from 1970: `%s`.
    pub timestamp: bool,
}

// The fields that are given.
pub(crate) fn fields_given(parts: Parsed) -> Fields
    ensures { result ≡ fields_given parts }
{
    Fields {
        year: parts.year.is_some(),
        year_div_100: parts.year_div_100.is_some(),
        year_mod_100: parts.year_mod_100.is_some(),
        isoyear: parts.isoyear.is_some(),
        isoyear_mod_100: parts.isoyear_mod_100.is_some(),
        quarter: parts.quarter.is_some(),
        month: parts.month.is_some(),
        isoweek: parts.isoweek.is_some(),
        week_from_sun: parts.week_from_sun.is_some(),
        week_from_mon: parts.week_from_mon.is_some(),
        weekday: parts.weekday.is_some(),
        ordinal: parts.ordinal.is_some(),
        day: parts.day.is_some(),
        hour_div_12: parts.hour_div_12.is_some(),
        hour_mod_12: parts.hour_mod_12.is_some(),
        minute: parts.minute.is_some(),
        second: parts.second.is_some(),
        nanosecond: parts.nanosecond.is_some(),
        offset: parts.offset.is_some(),
        timestamp: parts.timestamp.is_some(),
    }
}
