//! When a schedule is due.

use crate::prelude::*;
use crate::zoned_seconds::SecondPlan;
use chrono_datetime::Timelike;
use timed_cron::{Dialect, NumberSet, TimedSchedule, read_timed_schedule};
use zoned_cron::{Policy, Schedule, ZonedSchedule, read_schedule};

const AFTER: Opt =
    option!("--from", "TIME"; "after which date-time, as 2024-02-29T04:30, or from\nwhich day on (default: now)", default: "now");

const BEFORE: Opt =
    option!("--from", "TIME"; "before which date-time, as 2024-02-29T04:30, or day\n(default: now)", default: "now");

const HOW_MANY: Opt =
    option!("--count", "N"; "how many are printed, a line each (default: 1)", default: "1");

const MORE: &str = "A CRON is a nickname as @daily, or five fields in one word, blanks between\n\
    them: minute 0-59, hour 0-23, day 1-31, month 1-12 or jan-dec, and weekday 0-7\n\
    or sun-sat, where 0 and 7 are sun.\n\
    A field is *, a number, a range as 1-5, a step as */15, or several with commas\n\
    between them.\n\
    Of days, L is the month's last, 15W the one from Monday to Friday that is\n\
    nearest to the 15th. Of weekdays, 5#3 is the month's third Friday, 5L its last.\n\
    With both days and weekdays, neither beginning with *, it is due on either, as\n\
    with cron.\n\
    With --zone it is due by the zone's clock, and TIME may be its local time.\n\
    What is planned for a time that the clock skips comes right behind the gap,\n\
    and for one that it shows twice at the first. Where the minute or the hour\n\
    begins with *, as */5, it follows the clock as it runs. So it does where the\n\
    clock is set ahead by three hours or back by more. A job of robfig always does,\n\
    and a trigger of Quartz too, but it takes the second of two showings alone.\n\
    With --dialect seconds a CRON has a field of seconds in front. With quartz it is\n\
    a trigger of Quartz: so too, with weekdays 1-7 from sun on and ? for one of both\n\
    days, and years from 1970 to 2099 may stand behind. With robfig it is a job of\n\
    Go's robfig/cron: five fields, with weekdays 0-6, ? as *, and 5/15 as 5-59/15.\n\
    There */2 of days counts as a list. cronie is crontab by another name. Years do\n\
    not go with --zone.";

const BY_CLOCK: Opt = option!("--zone", "ZONE"; "by the clock of which time zone");

pub(crate) const DIALECT: Opt = option!(
    "--dialect", "NAME"; "crontab, cronie, seconds, quartz or robfig\n(default: crontab)",
    values: &["crontab", "cronie", "seconds", "quartz", "robfig"], any: false
);

// The command that goes back.
const PREV: &str = "prev";

pub(crate) fn next() -> &'static CommandRow {
    row!(
        "next", &[operand!("CRON")], &[AFTER, HOW_MANY, BY_CLOCK, DIALECT, NOW, UNIX, PARSE, ORDER, FORMAT, LONG, JSON, HELP];
        help: "print when a schedule is due next",
        more: MORE,
        example: "$ dates next '0 9 * * 5#3' --from 2024-03-01T00:00\n2024-03-15T09:00:00"
    )
}

pub(crate) fn prev() -> &'static CommandRow {
    row!(
        PREV, &[operand!("CRON")], &[BEFORE, HOW_MANY, BY_CLOCK, DIALECT, NOW, UNIX, PARSE, ORDER, FORMAT, LONG, JSON, HELP];
        help: "print when a schedule was due before",
        more: MORE,
        example: "$ dates prev '0 0 L * *' --from 2024-03-15T00:00\n2024-02-29T00:00:00"
    )
}

/// A schedule.
#[derive(Clone, Copy)]
pub(crate) enum Plan {
    /// It is due where a minute begins, in each year.
    Minutes(Schedule),
    /// It is due at other seconds, or in some years.
    Seconds(TimedSchedule),
}

// The moments at which the schedule is due, on or back, a line each; `none` where there are fewer.
pub(crate) fn answer(asked: &mut Asked<'_>) {
    asked.none = match asked.reading.is_unix {
        false if asked.words.has("--zone") => Reply::NoClock,
        _ => asked.reading.no_moment(),
    };
    let plan = asked.plan(asked.word(0));
    let word = asked.option("--from");
    let goes_back = asked.command.name == PREV;
    let from = asked.moment_beside(word, goes_back);
    let count = asked.amount_if("--count").unwrap_or(1);
    asked.take_zone();
    let mut last = asked.once(word, from);
    let (Some(plan), zone) = (plan, asked.zone.take()) else {
        return;
    };
    let policy = asked.policy(&plan);
    for _ in 0..count {
        let Some(due) = due_beside(zone.as_ref(), &plan, policy, last, goes_back) else {
            return asked.print(asked.none);
        };
        print_due(asked, zone.as_ref(), &due);
        if asked.is_over {
            return;
        }
        last = due;
    }
    asked.end_by(ANSWERED);
}

// Prints when a schedule is due: an instant as the zone's clock shows it, if there is a zone and no seconds are asked for.
fn print_due(asked: &mut Asked<'_>, zone: Option<&OwnedZone>, due: &Start) {
    match (zone, *due) {
        (Some(zone), Start::Stamp(stamp)) if !asked.reading.is_unix => asked.print_in(zone, stamp),
        _ => asked.print_start(due),
    }
}

// When a schedule is due next, or was due last before: by the clock of a zone, if there is one.
fn due_beside(
    zone: Option<&OwnedZone>,
    plan: &Plan,
    policy: Policy,
    last: Start,
    goes_back: bool,
) -> Option<Start> {
    if let (Some(zone), Start::Stamp(stamp)) = (zone, last) {
        let fired = match *plan {
            Plan::Minutes(schedule) => fired_beside(zone, &schedule, policy, stamp, goes_back),
            Plan::Seconds(timed) => {
                second_beside(zone, &SecondPlan { timed, policy }, stamp, goes_back)
            }
        };
        return Some(Start::Stamp(fired?));
    }
    let moment = match plan {
        Plan::Minutes(schedule) if goes_back => schedule.prev_before(last.local()),
        Plan::Minutes(schedule) => schedule.next_after(last.local()),
        Plan::Seconds(timed) if goes_back => timed.prev_before(last.local()),
        Plan::Seconds(timed) => timed.next_after(last.local()),
    };
    last.at(moment?)
}

// The next instant at which a schedule is due by a zone's clock, or the last before.
fn fired_beside(
    zone: &OwnedZone,
    schedule: &Schedule,
    policy: Policy,
    last: DateTime<FixedOffset>,
    goes_back: bool,
) -> Option<DateTime<FixedOffset>> {
    let lent = zone.zone();
    let zoned = ZonedSchedule::new(*schedule, &lent, policy);
    let start = last.checked_with_timezone(&&lent)?;
    let due = if goes_back {
        zoned.prev_before(start)
    } else {
        zoned.next_after(start)
    };
    Some(due?.fixed_offset())
}

// The same of a schedule with seconds.
fn second_beside(
    zone: &OwnedZone,
    plan: &SecondPlan,
    last: DateTime<FixedOffset>,
    goes_back: bool,
) -> Option<DateTime<FixedOffset>> {
    let lent = zone.zone();
    let second = last.timestamp();
    let due = if !goes_back {
        plan.next_after(&lent, second)
    } else if last.naive_utc().time().nanosecond() > 0 {
        plan.prev_before(&lent, second.saturating_add(1))
    } else {
        plan.prev_before(&lent, second)
    };
    instant_at(due?)
}

impl Asked<'_> {
    // The date-time that a word names; of a day its midnight, or to go on the second before, so that midnight counts.
    fn moment_beside(&mut self, word: Word<'_>, goes_back: bool) -> Start {
        let start = self.start_as(word, MOMENT_EXPECTED);
        if !start.is_day() {
            return self.moment_at(word, start);
        }
        let midnight = start.local();
        let before = match TimeDelta::try_seconds(-1) {
            Some(second) if !goes_back => midnight.checked_add_signed(second),
            _ => None,
        };
        Start::DateTime(before.unwrap_or(midnight))
    }

    // The schedule that a word writes in the dialect that is named.
    pub(crate) fn plan(&mut self, word: Word<'_>) -> Option<Plan> {
        let named = self.option("--dialect");
        let dialect = match named.text {
            "seconds" => Dialect::Seconds,
            "quartz" => Dialect::Quartz,
            "robfig" => Dialect::Robfig,
            _ => return Some(Plan::Minutes(self.schedule(word)?)),
        };
        match read_timed_schedule(dialect, word.text.as_bytes()) {
            Ok(timed) if timed.years.is_some() => {
                if self.words.has("--zone") {
                    self.wrong(word, "expected no years beside --zone");
                }
                Some(Plan::Seconds(timed))
            }
            Ok(timed) if timed.seconds == NumberSet::single(0) => {
                Some(Plan::Minutes(timed.schedule))
            }
            Ok(timed) => Some(Plan::Seconds(timed)),
            Err(error) => {
                self.wrong_by(word, &error, "");
                None
            }
        }
    }

    // What becomes of what a zone's clock skips or shows twice, in the dialect that is named.
    fn policy(&self, plan: &Plan) -> Policy {
        match (self.option("--dialect").text, plan) {
            ("robfig", _) => Policy::robfig(),
            ("quartz", _) => Policy::quartz(),
            (_, Plan::Minutes(schedule)) => Policy::vixie(schedule),
            (_, Plan::Seconds(timed)) => Policy::vixie(&timed.schedule),
        }
    }

    // The schedule that a word writes.
    pub(crate) fn schedule(&mut self, word: Word<'_>) -> Option<Schedule> {
        match read_schedule(word.text.as_bytes()) {
            Ok(schedule) => Some(schedule),
            Err(error) => {
                let expected = if word.text.contains("FREQ=") {
                    "; dates rule takes a rule as FREQ=DAILY"
                } else {
                    "; expected a schedule as '30 4 1,15 * 5'"
                };
                self.wrong_by(word, &error, expected);
                None
            }
        }
    }
}
