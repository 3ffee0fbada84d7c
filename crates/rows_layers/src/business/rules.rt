//! Easter, and what the rules of given calendars name in a year.

use chrono_business::{
    HolidayRule, easter, england_and_wales, fedwire, france, germany, japan, nyse, target,
    us_federal,
};
use chrono_datetime::{Datelike, NaiveDate};

// Of a year Easter by its number; of a given calendar how many of its rules name the date in the year, and with `_days`
// behind its name how many name one.
pub fn answer_of(name: &str, date: NaiveDate, year: i32) -> Option<i64> {
    if name == "easter" {
        return Some(i64::from(easter(year)?.num_days_from_ce()));
    }
    match name.strip_suffix("_days") {
        Some(name) => naming_in(name, None, year),
        None => naming_in(name, Some(date), year),
    }
}

fn naming_in(name: &str, date: Option<NaiveDate>, year: i32) -> Option<i64> {
    match name {
        "us_federal" => Some(naming(&us_federal(), date, year)),
        "target" => Some(naming(&target(), date, year)),
        "england" => Some(naming(&england_and_wales(), date, year)),
        "fedwire" => Some(naming(&fedwire(), date, year)),
        "nyse" => Some(naming(&nyse(), date, year)),
        "germany" => Some(naming(&germany(), date, year)),
        "france" => Some(naming(&france(), date, year)),
        "japan" => Some(naming(&japan(), date, year)),
        _ => None,
    }
}

// How many of the rules name the date in the year, or any where none is given.
fn naming(rules: &[HolidayRule], date: Option<NaiveDate>, year: i32) -> i64 {
    let mut count = 0i64;
    for rule in rules {
        let named = rule.date_in(year);
        if named.is_some() && (date.is_none() || named == date) {
            count = count.wrapping_add(1);
        }
    }
    count
}
