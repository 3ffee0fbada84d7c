//! The calls of a date over each stored form: by the form's own, and by those of [`forms`].

use crate::words::{Words, are, count, is_number, is_order, signed, unsigned, weekday, whole};
use chrono_calendar::{DayForm, forms};

/// Whether the call of that name has that answer over a form; `None` if a form has no such call, or its arguments are not
/// right.
pub fn is_answered<F: DayForm>(name: &str, words: &mut Words<'_>, answer: &str) -> Option<bool> {
    let first = signed(words)?;
    if name.starts_with("from_") {
        return Some(is_form(answer, made::<F>(name, first, words)?));
    }
    of_one::<F>(name, forms::from_day(first)?, words, answer)
}

// The form of a number, or of a year, its part and the day of that.
fn made<F: DayForm>(name: &str, first: i32, words: &mut Words<'_>) -> Option<Option<F>> {
    if name == "from_num_days_from_ce_opt" {
        return Some(forms::from_day(first));
    }
    let part = unsigned(words)?;
    Some(match name {
        "from_ymd_opt" => F::from_ymd(first, part, unsigned(words)?),
        "from_yo_opt" => F::from_yo(first, part),
        "from_isoywd_opt" => forms::from_iso(first, part, weekday(words)?),
        "from_weekday_of_month_opt" => {
            let day = weekday(words)?;
            forms::nth_weekday(first, part, day, u8::try_from(unsigned(words)?).ok()?)
        }
        _ => return None,
    })
}

// Whether the answer is the day number of that form, or `none` where there is none.
fn is_form<F: DayForm>(answer: &str, form: Option<F>) -> bool {
    match form {
        Some(form) => are(answer, &[i64::from(form.day())]),
        None => answer == "none",
    }
}

fn of_one<F: DayForm>(name: &str, own: F, words: &mut Words<'_>, answer: &str) -> Option<bool> {
    if let Some(days) = days_of(name, words) {
        return Some(is_form(answer, forms::days_later(own, days)));
    }
    if let Some(months) = months_of(name, words) {
        return Some(is_form(answer, forms::move_months(own, months)));
    }
    match name {
        "years_since" | "cmp" => of_two(name, own, forms::from_day(signed(words)?)?, answer),
        "checked_first_day" => {
            let first = forms::week_first(&own, weekday(words)?);
            Some(is_form::<F>(answer, forms::from_day(first)))
        }
        _ => read(name, own, answer),
    }
}

fn of_two<F: DayForm>(name: &str, own: F, other: F, answer: &str) -> Option<bool> {
    if name == "cmp" {
        return Some(is_order(answer, &own, &other));
    }
    Some(is_number(answer, forms::years_between(&own, &other).map(i64::from)))
}

// How many days the call of that name moves by.
fn days_of(name: &str, words: &mut Words<'_>) -> Option<i64> {
    match name {
        "succ_opt" => Some(1),
        "pred_opt" => Some(-1),
        "checked_add_days" => days(words),
        "checked_sub_days" => Some(days(words)?.wrapping_neg()),
        "moved_by_days" => whole(words),
        _ => None,
    }
}

// How many months the call of that name moves by.
fn months_of(name: &str, words: &mut Words<'_>) -> Option<i64> {
    match name {
        "checked_add_months" => Some(i64::from(unsigned(words)?)),
        "checked_sub_months" => Some(-i64::from(unsigned(words)?)),
        "moved_by_months" => whole(words),
        _ => None,
    }
}

// The count of days of the next word, or one past every date if it does not fit.
fn days(words: &mut Words<'_>) -> Option<i64> {
    Some(i64::try_from(count(words)?).unwrap_or(i64::MAX))
}

fn read<F: DayForm>(name: &str, own: F, answer: &str) -> Option<bool> {
    Some(match name {
        "num_days_from_ce" => are(answer, &[i64::from(own.day())]),
        "leap_year" => are(answer, &[i64::from(own.is_leap())]),
        "year_month_day" => {
            let (month, day) = own.month_day();
            let year = own.year();
            are(answer, &[i64::from(year), i64::from(month), i64::from(day)])
                && own.year_month_day() == (year, month, day)
        }
        "ordinal_ordinal0" => {
            let ordinal = own.ordinal();
            are(answer, &[i64::from(ordinal), i64::from(ordinal) - 1])
                && own.year_ordinal().1 == ordinal
        }
        "weekday" => are(answer, &[i64::from(own.weekday().number_from_monday())]),
        "iso_week" => {
            let (year, week) = forms::iso_name(&own);
            are(
                answer,
                &[i64::from(year), i64::from(week), i64::from(week) - 1],
            )
        }
        _ => return None,
    })
}
