//! What a fault of holidays says, in one line.
ghost use Rattle.std.specs.Prelude.{◌≡◌};
ghost use Rattle.layers_c.specs.Holidays.{holiday_line_from_c};

use crate::faults::CalendarFault;
use crate::placed_line::{LONGEST_PLACED, placed_line};
use chrono_text::Text;

// The place of the holiday, and what is wrong with it, if there is such a fault.
pub(crate) fn holiday_line(fault: &CalendarFault) -> Option<Text<LONGEST_PLACED>>
    ensures { result ≡ holiday_line_from_c fault.now }
{
    let place = fault.byte;
    match fault.code {
        1 => Some(placed_line("holiday ", place, " is one too many")),
        2 => Some(placed_line("holiday ", place, " is no date")),
        3 => Some(placed_line("holiday ", place, " does not come after the one before")),
        4 => Some(placed_line("holiday ", place, " is on the weekend")),
        _ => None,
    }
}
