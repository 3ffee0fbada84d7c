//! Readers of digits, whole numbers, fractions of a second and years.

mod decimal;
mod fraction;
mod front;
pub(crate) mod lanes;
mod natural;
mod number;
mod places;
mod single_digit;
mod way;
mod year;

pub use decimal::read_decimal;
pub use fraction::read_fraction;
pub use natural::{are_digits, read_count, read_digits};
pub use number::read_number;
pub use places::{read_four, read_three, read_two};
pub use single_digit::digit;
pub use way::Way;
pub use year::read_year;
