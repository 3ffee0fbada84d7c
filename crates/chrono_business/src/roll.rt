//! `Roll`: how a closed date is moved to an open one.

/// Where a date goes that is not open, by the names that markets use.
///
/// An open date stays, whatever the roll. Every roll but `Unadjusted` leads to an open day.
/// A modified roll stays in the date's month if any day of that month is open.
/// [`law::rolls_are_open`](crate::law::rolls_are_open) states this.
#[derive(Clone, Copy, PartialEq, Eq, Hash, Debug)]
pub enum Roll {
    /// The date stays, open or not.
    Unadjusted,
    /// The date goes to the next open day.
    Following,
    /// The date goes to the last open day before it.
    Preceding,
    /// The date goes to the next open day. If that is in a later month, it goes to the last open day before it.
    ModifiedFollowing,
    /// The date goes to the last open day before it. If that is in an earlier month, it goes to the next open day.
    ModifiedPreceding,
    /// The date goes to the next open day if it is a Sunday or a Monday, and else to the last open day before it.
    ///
    /// This is "Nearest" of ISDA 2006, section 4.12(a)(iv). So a holiday on a Tuesday goes to Monday.
    NearestIsda,
    /// The date goes to the nearest open day. Of two that are equally near it takes the later.
    ///
    /// This is `Nearest` of QuantLib. So a holiday on a Tuesday goes to Wednesday.
    NearestQuantLib,
}
