//! Calls of `NaiveDate`.

use crate::date_walks::{is_walk_by_days, is_walk_by_weeks};
use crate::sets::set;
use crate::words::{
    Words, alike, are, count, date, duration, is_date, is_date_time, is_duration, is_number,
    is_order, signed, time, unsigned, weekday, whole,
};
use chrono_datetime::{
    AndTime, Datelike, Days, MAX_DATE, MIN_DATE, Months, NaiveDate, NaiveDateTime, TimeDelta,
};

/// Whether the call of that name has that answer; `None` if there is no such call, or its arguments are not right.
pub fn is_answered(name: &str, words: &mut Words<'_>, answer: &str) -> Option<bool> {
    if let Some(constant) = constant(name) {
        return Some(is_date(answer, Some(constant)));
    }
    let first = signed(words)?;
    if name.starts_with("from_") {
        return Some(is_date(answer, made(name, first, words)?));
    }
    of_one(
        name,
        NaiveDate::from_num_days_from_ce_opt(first)?,
        words,
        answer,
    )
}

fn constant(name: &str) -> Option<NaiveDate> {
    match name {
        "MIN" => alike(MIN_DATE, NaiveDate::MIN),
        "MAX" => alike(MAX_DATE, NaiveDate::MAX),
        "default" => Some(NaiveDate::default()),
        _ => None,
    }
}

// The date of a number, or of a year and of what further words name in it.
fn made(name: &str, first: i32, words: &mut Words<'_>) -> Option<Option<NaiveDate>> {
    Some(match name {
        "from_num_days_from_ce_opt" => NaiveDate::from_num_days_from_ce_opt(first),
        "from_epoch_days" => NaiveDate::from_epoch_days(first),
        _ => in_year(name, first, unsigned(words)?, words)?,
    })
}

// The date of a year, its part and the day of that.
fn in_year(name: &str, year: i32, part: u32, words: &mut Words<'_>) -> Option<Option<NaiveDate>> {
    Some(match name {
        "from_yo_opt" => NaiveDate::from_yo_opt(year, part),
        "from_ymd_opt" => NaiveDate::from_ymd_opt(year, part, unsigned(words)?),
        "from_isoywd_opt" => NaiveDate::from_isoywd_opt(year, part, weekday(words)?),
        "from_weekday_of_month_opt" => {
            let day = weekday(words)?;
            let n = u8::try_from(unsigned(words)?).ok()?;
            NaiveDate::from_weekday_of_month_opt(year, part, day, n)
        }
        _ => return None,
    })
}

fn of_one(name: &str, own: NaiveDate, words: &mut Words<'_>, answer: &str) -> Option<bool> {
    if let Some(is_same) = read(name, own, answer) {
        return Some(is_same);
    }
    if let Some(next) = neighbour(name, own) {
        return Some(is_date(answer, next));
    }
    if name.starts_with("with_") {
        return Some(is_date(answer, with_field(name, &own, words)?));
    }
    if name.starts_with("and_") {
        return Some(is_date_time(answer, joined(name, &own, words)?));
    }
    if let Some(moved) = moved(name, own, words) {
        return Some(is_date(answer, moved));
    }
    match name {
        "iter_days" => Some(is_walk_by_days(own, words.next()?, answer)),
        "iter_weeks" => Some(is_walk_by_weeks(own, words.next()?, answer)),
        _ => of_two(name, own, date(words)?, answer),
    }
}

// The date beside a date, or the last that is counted from it.
fn neighbour(name: &str, own: NaiveDate) -> Option<Option<NaiveDate>> {
    match name {
        "succ_opt" => Some(own.succ_opt()),
        "pred_opt" => Some(own.pred_opt()),
        "iter_days_last" => Some(own.iter_days().last()),
        _ => None,
    }
}

// The date that lies apart by what further words say.
fn moved(name: &str, own: NaiveDate, words: &mut Words<'_>) -> Option<Option<NaiveDate>> {
    match name {
        "checked_add_days" | "checked_sub_days" => {
            Some(by_days(name, own, Days::new(count(words)?)))
        }
        "checked_add_months" | "checked_sub_months" => {
            Some(by_months(name, own, Months::new(unsigned(words)?)))
        }
        "checked_add_signed" | "checked_sub_signed" => {
            Some(by_duration(name, own, duration(words)?))
        }
        "moved_by_days" => Some(own.moved_by_days(whole(words)?)),
        "moved_by_months" => Some(own.moved_by_months(whole(words)?)),
        "every_months" => Some(own.every_months(signed(words)?, unsigned(words)?)),
        "first_on" => Some(own.first_on(set(words)?)),
        _ => None,
    }
}

fn by_days(name: &str, own: NaiveDate, days: Days) -> Option<NaiveDate> {
    if name == "checked_add_days" {
        own.checked_add_days(days)
    } else {
        own.checked_sub_days(days)
    }
}

fn by_months(name: &str, own: NaiveDate, months: Months) -> Option<NaiveDate> {
    if name == "checked_add_months" {
        own.checked_add_months(months)
    } else {
        own.checked_sub_months(months)
    }
}

fn by_duration(name: &str, own: NaiveDate, by: TimeDelta) -> Option<NaiveDate> {
    if name == "checked_add_signed" {
        own.checked_add_signed(by)
    } else {
        own.checked_sub_signed(by)
    }
}

/// The date, or what has one, with one field replaced, through the trait alone.
pub fn with_field<T: Datelike + Drop>(
    name: &str,
    own: &T,
    words: &mut Words<'_>,
) -> Option<Option<T>> {
    if name == "with_year" {
        return Some(own.with_year(signed(words)?));
    }
    let new = unsigned(words)?;
    Some(match name {
        "with_month" => own.with_month(new),
        "with_month0" => own.with_month0(new),
        "with_day" => own.with_day(new),
        "with_day0" => own.with_day0(new),
        "with_ordinal" => own.with_ordinal(new),
        "with_ordinal0" => own.with_ordinal0(new),
        _ => return None,
    })
}

// The date at a time, through the trait alone.
fn joined<T: AndTime>(name: &str, own: &T, words: &mut Words<'_>) -> Option<Option<NaiveDateTime>> {
    if name == "and_time" {
        return Some(Some(own.and_time(time(words)?)));
    }
    let (hour, minute, second) = (unsigned(words)?, unsigned(words)?, unsigned(words)?);
    if name == "and_hms_opt" {
        return Some(own.and_hms_opt(hour, minute, second));
    }
    let fraction = unsigned(words)?;
    Some(match name {
        "and_hms_milli_opt" => own.and_hms_milli_opt(hour, minute, second, fraction),
        "and_hms_micro_opt" => own.and_hms_micro_opt(hour, minute, second, fraction),
        "and_hms_nano_opt" => own.and_hms_nano_opt(hour, minute, second, fraction),
        _ => return None,
    })
}

fn of_two(name: &str, own: NaiveDate, other: NaiveDate, answer: &str) -> Option<bool> {
    Some(match name {
        "signed_duration_since" => {
            let distance = own.signed_duration_since(other);
            is_duration(answer, Some(distance)) && own - other == distance
        }
        "abs_diff" => {
            let days = Days::new(answer.parse().ok()?);
            own.abs_diff(other) == days && other.abs_diff(own) == days
        }
        "years_since" => match own.years_since(other) {
            Some(years) => are(answer, &[i64::from(years)]),
            None => is_number(answer, None),
        },
        "cmp" => is_order(answer, &own, &other),
        _ => return None,
    })
}

fn read(name: &str, own: NaiveDate, answer: &str) -> Option<bool> {
    Some(match name {
        "num_days_from_ce" => are(answer, &[i64::from(own.num_days_from_ce())]),
        "to_epoch_days" => are(answer, &[i64::from(own.to_epoch_days())]),
        "leap_year" => are(answer, &[i64::from(own.leap_year())]),
        "year_month_day" => {
            let (year, month, day) = own.year_month_day();
            are(answer, &[i64::from(year), i64::from(month), i64::from(day)])
                && read_any(name, &own, answer)?
        }
        _ => return read_any(name, &own, answer),
    })
}

/// Whether the read of that name of a date, or of what has one, has that answer.
pub fn read_any<T: Datelike>(name: &str, own: &T, answer: &str) -> Option<bool> {
    Some(match name {
        "year_month_day" => are(
            answer,
            &[
                i64::from(own.year()),
                i64::from(own.month()),
                i64::from(own.day()),
            ],
        ),
        "month0_day0" => are(answer, &[i64::from(own.month0()), i64::from(own.day0())]),
        "ordinal_ordinal0" => are(
            answer,
            &[i64::from(own.ordinal()), i64::from(own.ordinal0())],
        ),
        "weekday" => are(answer, &[i64::from(own.weekday().number_from_monday())]),
        "iso_week" => {
            let week = own.iso_week();
            are(
                answer,
                &[
                    i64::from(week.year()),
                    i64::from(week.week()),
                    i64::from(week.week0()),
                ],
            )
        }
        "year_ce" => {
            let (is_common, year) = own.year_ce();
            are(answer, &[i64::from(is_common), i64::from(year)])
        }
        "quarter" => are(answer, &[i64::from(own.quarter())]),
        "num_days_in_month" => are(answer, &[i64::from(own.num_days_in_month())]),
        _ => return None,
    })
}
