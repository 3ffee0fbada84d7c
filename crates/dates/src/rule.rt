//! The instances of a recurrence rule.

use crate::prelude::*;
use crate::skip::{DaysWanted, Skip, cut_skip, goes_with_skip, print_skipping, skip_fault};
use crate::timed_rule::answer_timed;
use chrono_rules::{Recurrence, Rule, RuleError, RuleFault, read_rule};

const START: Opt =
    option!("--start", "TIME"; "from which day or date-time on it recurs", required: true);

const FROM: Opt =
    option!("--from", "TIME"; "from which day or date-time on they are wanted\n(default: that of --start)");

const EXDATE: Opt = option!(
    "--exdate", "TIME"; "a day or date-time that is left out; may be given again", repeated: true
);

const RDATE: Opt = option!(
    "--rdate", "TIME"; "one that is added; may be given again", repeated: true
);

const BY_CLOCK: Opt = option!("--zone", "ZONE"; "by the clock of which time zone");

const HOW_MANY: Opt = option!(
    "--count", "N"; "how many at most\n(default: all, to the end of the rule or the calendar)"
);

pub(crate) fn command() -> &'static CommandRow {
    row!(
        "rule", &[operand!("RRULE")], 
        &[START, FROM, HOW_MANY, EXDATE, RDATE, BY_CLOCK, NOW, PARSE, ORDER, FORMAT, LONG, JSON, HELP];
        help: "print the instances of a recurrence rule",
        more: "An RRULE is written as RFC 5545 writes it, in parts with ; between them:\n\
            FREQ=WEEKLY;INTERVAL=2;BYDAY=TU;COUNT=5        every other Tuesday, five times\n\
            FREQ=MONTHLY;BYMONTHDAY=15,-1;UNTIL=20240301   15th and last days, to 1 March\n\
            FREQ=MONTHLY;BYDAY=3FR                         third Fridays\n\
            FREQ=MONTHLY;BYDAY=MO,TU,WE,TH,FR;BYSETPOS=-1  months' last workdays, Mon-Fri\n\
            FREQ=MONTHLY;BYMONTHDAY=31;SKIP=BACKWARD       the 31st, or the last day\n\
            From a date-time on it recurs at that time, also by BYHOUR or HOURLY. --zone has\n\
            it go by the zone's clock, and a time that the clock skips goes by the offset\n\
            before. An --exdate that is a day leaves out all of it. BYSETPOS goes with one\n\
            time a day alone.",
        example: "$ dates rule 'FREQ=MONTHLY;BYDAY=-1FR' --start 2024-01-01 --count 2\n\
            2024-01-26\n\
            2024-02-23"
    )
}

// The instances of the rule, a line each; `none` where there is none.
pub(crate) fn answer(asked: &mut Asked<'_>) {
    if asked.words.has("--zone") {
        asked.none = Reply::NoClock;
        return answer_timed(asked);
    }
    let word = asked.option("--start");
    if asked.names_moment(word) {
        asked.none = asked.reading.no_moment();
        return answer_timed(asked);
    }
    let rule = asked.rule_with_skip(asked.word(0));
    let start = asked.day(word);
    let most = asked.amount_if("--count").unwrap_or(u64::MAX);
    let (added, left_out) = (asked.days_given("--rdate"), asked.days_given("--exdate"));
    let first = start.min(added.first().copied().unwrap_or(start));
    let from = asked.day_if(asked.value("--from")).unwrap_or(first);
    let Some((rule, skip)) = rule else {
        return;
    };
    let mut wanted = DaysWanted {
        from,
        most,
        added,
        passed: 0,
        left_out,
    };
    if matches!(skip, Skip::Omit) {
        print_instances(asked, rule, start, &mut wanted);
    } else {
        print_skipping(asked, &rule, skip, start, &mut wanted);
    }
    if wanted.most == most {
        asked.print(asked.none);
    }
}

// Prints the instances of a rule from a day on, with what is added, and without what is left out.
fn print_instances(asked: &mut Asked<'_>, rule: Rule, start: NaiveDate, wanted: &mut DaysWanted) {
    let (added, left_out) = (wanted.added.as_slice(), wanted.left_out.as_slice());
    let mut left = wanted.most;
    // (both are in order, each once)
    if let Some(days) = Recurrence::try_new(rule, start, added, left_out) {
        for day in days.iter_from(wanted.from).take(wanted.most as usize) {
            if asked.is_over {
                break;
            }
            asked.print(Reply::Date(day));
            left = left.saturating_sub(1);
        }
    }
    wanted.most = left;
}

impl Asked<'_> {
    // Whether a word names a date-time or an instant.
    fn names_moment(&self, word: Word<'_>) -> bool {
        matches!(self.reading.read(word.text.as_bytes()), Ok(start) if start.is_moment())
    }

    // The days that an option gives, in order, each once.
    fn days_given(&mut self, name: &str) -> Vec<NaiveDate> {
        let mut days = Vec::new(self.rt.alloc());
        for place in 0..self.words.options.len() {
            if let Some(given) = self.words.options.get(place).copied() {
                if given.option.name == name {
                    let day = self.day(given.value);
                    self.done(put_behind(&mut days, day));
                }
            }
        }
        days.as_mut_slice().sort_unstable();
        days.dedup();
        days
    }

    // The rule that a word writes, and where it puts a day that a month does not have.
    fn rule_with_skip(&mut self, word: Word<'_>) -> Option<(Rule, Skip)> {
        if let Some(why) = skip_fault(word.text.as_bytes()) {
            self.wrong(word, why);
            return None;
        }
        match read_rule_and_skip(self.rt, word.text.as_bytes()) {
            Ok(Ok((rule, skip))) if matches!(skip, Skip::Omit) || goes_with_skip(&rule) => {
                return Some((rule, skip));
            }
            Ok(Ok(_)) => self.wrong(word, SKIP_ALONE),
            Ok(Err(error)) => self.wrong_rule(word, error),
            Err(error) => self.fail(error),
        }
        None
    }

    // Ends since a word is no rule over days.
    pub(crate) fn wrong_rule(&mut self, word: Word<'_>, error: RuleError) {
        let expected = match error.fault {
            RuleFault::OfHours | RuleFault::OfMinutes | RuleFault::OfSeconds => TIME_NEEDED,
            RuleFault::NotAFrequency if counts_time(word.text) => TIME_NEEDED,
            _ => "; expected a rule as FREQ=MONTHLY;BYDAY=-1FR",
        };
        self.wrong_by(word, &error, expected);
    }
}

// What a rule by hours needs.
const TIME_NEEDED: &str = "; such a rule needs a time of day in --start";

// Whether a rule's text counts hours, minutes or seconds.
fn counts_time(text: &str) -> bool {
    text.contains("HOURLY") || text.contains("MINUTELY") || text.contains("SECONDLY")
}

// The rule over days that a text writes, and what SKIP says.
pub(crate) fn read_rule_and_skip(
    rt: &HostRuntime,
    text: &[u8],
) -> io::Result<Result<(Rule, Skip), RuleError>> {
    let mut others = Vec::new(rt.alloc());
    let skip = cut_skip(text, &mut others)?;
    match read_rule(others.as_slice()) {
        Ok(rule) => Ok(Ok((rule, skip.of_rule(&rule)))),
        Err(error) => Ok(Err(error)),
    }
}

/// That SKIP does not go with a rule.
pub(crate) const SKIP_ALONE: &str = "SKIP goes with days of months alone, as BYMONTHDAY=31";

// Puts an item behind others.
pub(crate) fn put_behind<T: Drop>(items: &mut Vec<T>, item: T) -> io::Result<()> {
    Ok(items.push(item)?)
}
