//! How many elements of a column are dates.
ghost use Rattle.std.specs.Prelude.{◌≡◌, count_by};
ghost use Rattle.chrono_calendar.specs.Days.{is_date as date_range};

use crate::nearest::is_date;

/// Returns how many elements of `dates` are dates.
///
/// ```
/// count_dates(&[738_945, NONE, i32::MAX]) // 1
/// ```
pub fn count_dates(dates: &[i32]) -> usize
    ensures { result ≡ count_by date_range dates.now }
{
    let mut count = 0;
    for i in 0..dates.len() {
        if is_date(dates[i]) {
            count += 1;
        }
    }
    count
}
