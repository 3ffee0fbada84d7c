//! `MappedLocalTime`: what a local time stands for in a zone.
ghost use Rattle.std.specs.Prelude.{◌≡◌};
ghost use Rattle.chrono_zoned.specs.Zones.{earliest_of, latest_of, single_of};

/// The instants at which a zone's clock shows a local time, or what stands for them, such as their offsets.
///
/// ```
/// use chrono_datetime::{AndTime, NaiveDate};
/// let local = NaiveDate::from_ymd_opt(2024, 2, 29)?.and_hms_opt(9, 30, 0)?;
/// Utc.offset_from_local_datetime(&local) // Single(+00:00)
/// ```
#[derive(Clone, Copy, Debug, PartialEq, Eq, Hash)]
pub enum MappedLocalTime<T> {
    /// There is none: the clock was set ahead past the local time.
    None,
    /// There is one.
    Single(T),
    /// There are two, the earlier first: the clock was set back and shows the local time twice.
    Ambiguous(T, T),
}

impl<T: Copy> MappedLocalTime<T> {
    /// Returns the value if there is one alone, otherwise `None`.
    ///
    /// ```
    /// MappedLocalTime::Single(5).single() // Some(5)
    /// MappedLocalTime::Ambiguous(5, 6).single() // None
    /// ```
    #[inline]
    pub fn single(self) -> Option<T>
        ensures { result ≡ single_of self }
    {
        match self {
            MappedLocalTime::Single(it) => Some(it),
            MappedLocalTime::None | MappedLocalTime::Ambiguous(_, _) => None,
        }
    }

    /// Returns the value, or the earlier of two. Returns `None` if there is none.
    ///
    /// ```
    /// MappedLocalTime::Ambiguous(5, 6).earliest() // Some(5)
    /// ```
    #[inline]
    pub fn earliest(self) -> Option<T>
        ensures { result ≡ earliest_of self }
    {
        match self {
            MappedLocalTime::None => None,
            MappedLocalTime::Single(it) | MappedLocalTime::Ambiguous(it, _) => Some(it),
        }
    }

    /// Returns the value, or the later of two. Returns `None` if there is none.
    ///
    /// ```
    /// MappedLocalTime::Ambiguous(5, 6).latest() // Some(6)
    /// ```
    #[inline]
    pub fn latest(self) -> Option<T>
        ensures { result ≡ latest_of self }
    {
        match self {
            MappedLocalTime::None => None,
            MappedLocalTime::Single(it) | MappedLocalTime::Ambiguous(_, it) => Some(it),
        }
    }
}
