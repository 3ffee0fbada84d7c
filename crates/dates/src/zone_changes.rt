//! When a time zone's clock is set.

use crate::prelude::*;

const OF_YEAR: Opt =
    option!("--year", "YEAR"; "of which year (default: all, and the rule behind them)");

pub(crate) fn command() -> &'static CommandRow {
    row!(
        "zone", &[ZONE], &[OF_YEAR, FORMAT, LONG, JSON, HELP];
        help: "print when a time zone's clock is set",
        more: ZONES,
        example: "$ dates zone Europe/Berlin --year 2024\n\
            2024-03-31T03:00:00+02:00 CEST\n\
            2024-10-27T02:00:00+01:00 CET"
    )
}

// What the clock shows whenever it is set, a line each, and its rule behind them.
pub(crate) fn answer(asked: &mut Asked<'_>) {
    asked.none = Reply::NoClock;
    let year = match asked.value("--year") {
        Some(word) => Some(asked.year(word)),
        None => None,
    };
    let Some(zone) = asked.zone_of(asked.word(0)) else {
        return;
    };
    asked.end_by(NONE);
    for row in zone.rows() {
        print_set(asked, &zone, row.second, year);
    }
    match year {
        Some(year) => print_by_rule(asked, &zone, year),
        None if zone.rule_text().is_empty() => {}
        None => asked.print_text(Key::Rule, zone.rule_text()),
    }
    asked.print_none_if_alone();
}

// Prints what the clock shows when it is set at that second, unless that lies in another year than is asked for.
fn print_set(asked: &mut Asked<'_>, zone: &OwnedZone, second: i64, year: Option<i32>) {
    let status = asked.status;
    match shown_in(zone, instant_at(second)) {
        Some(shown) if is_in(shown, year) && is_set(zone, shown) => asked.print_in(zone, shown),
        _ => {}
    }
    asked.end_by(status.min(asked.status));
}

// Whether a zone's clock is set at an instant, to another offset or another name. Some files have rows at which it is not.
fn is_set(zone: &OwnedZone, shown: DateTime<FixedOffset>) -> bool {
    let second = shown.timestamp();
    let before = second.saturating_sub(1);
    let Some(was) = shown_in(zone, instant_at(before)) else {
        return true;
    };
    let is_other = was.timezone().local_minus_utc() != shown.timezone().local_minus_utc();
    is_other || zone.abbreviation(before).unwrap_or("") != zone.abbreviation(second).unwrap_or("")
}

// Whether a date-time lies in a year, if one is asked for.
fn is_in(shown: DateTime<FixedOffset>, year: Option<i32>) -> bool {
    let shown = shown.naive_local().date().year();
    year.unwrap_or(shown) == shown
}

// Prints what the clock shows when the rule sets it in a year, behind all rows.
fn print_by_rule(asked: &mut Asked<'_>, zone: &OwnedZone, year: i32) {
    let Some((begins, ends)) = rule_changes(zone, year) else {
        return;
    };
    let last = match zone.rows().last() {
        Some(row) => row.second,
        None => i64::MIN,
    };
    for second in [begins.min(ends), begins.max(ends)] {
        if last < second {
            print_set(asked, zone, second, Some(year));
        }
    }
}

// When the rule sets the clock in a year, ahead and back.
fn rule_changes<A: Allocator>(zone: &zone_database::OwnedZone<A>, year: i32) -> Option<(i64, i64)> {
    zone.rule()?.changes_in(year)
}
