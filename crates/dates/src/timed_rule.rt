//! The instances of a recurrence rule over date-times.

use crate::prelude::*;
use crate::rule::{SKIP_ALONE, put_behind};
use crate::skip::{Skip, cut_skip, goes_with_skip, skip_fault};
use crate::skip_times::SkipTimes;
use calendar_rules::{ClockPart, ClockUnit, DayTimes, TimedRule, TimedRuleError, read_timed_rule};
use chrono_datetime::Timelike;
use chrono_rules::{Frequency, Rule, RuleFault, RulePart};
use chrono_text::begins_but_for_case;
use zoned_rules::{Bound, instant_of};

/// Where a rule begins, and by which clock it recurs: that of a zone, or one that is always so far ahead of UTC.
#[derive(Drop)]
pub(crate) struct Begin {
    start: Start,
    zone: Option<OwnedZone>,
}

// Which instances are printed.
#[derive(Drop)]
struct Wanted {
    // From which instant on, and how many at most.
    from: DateTime<FixedOffset>,
    most: u64,
    // What is added, as seconds since 1970, and what is left out: instants, or whole days.
    added: Vec<i64>,
    left_out: Vec<Start>,
}

// The instances from a date-time on, by the clock of a zone, if one is named, a line each; `none` where there is none.
pub(crate) fn answer_timed(asked: &mut Asked<'_>) {
    asked.take_zone();
    let word = asked.option("--start");
    let start = asked.moment(word);
    let rule = asked.timed_rule(asked.word(0), &start);
    asked.check_whole(word, &start);
    let zone = asked.zone.take();
    let begin = Begin { start, zone };
    asked.check_shown_first(word, &begin);
    let wanted = asked.wanted(&begin);
    let (Some((rule, skip)), Some(local), Some(wanted)) = (rule, begin.local(), wanted) else {
        return asked.print(asked.none);
    };
    let mut search = begin.search(&rule, skip, local, &wanted);
    if !print_instances(asked, &begin, &mut search, local, &wanted) {
        asked.print(asked.none);
    }
}

impl Begin {
    // The offset of an instant, and else that of UTC.
    fn offset(&self) -> Option<FixedOffset> {
        match self.start {
            Start::Stamp(stamp) => Some(stamp.timezone()),
            _ => FixedOffset::east_opt(0),
        }
    }

    // What the clock shows at the start.
    fn local(&self) -> Option<NaiveDateTime> {
        match self.start {
            Start::Stamp(stamp) => Some(self.shown(stamp)?.naive_local()),
            start => Some(start.local()),
        }
    }

    // What the clock shows at an instant.
    fn shown(&self, stamp: DateTime<FixedOffset>) -> Option<DateTime<FixedOffset>> {
        match &self.zone {
            Some(zone) => shown_in(zone, Some(stamp)),
            None => {
                let offset = self.offset()?;
                stamp.checked_with_timezone(&offset)
            }
        }
    }

    // The same, if there is an instant.
    fn shown_if(&self, stamp: Option<DateTime<FixedOffset>>) -> Option<DateTime<FixedOffset>> {
        self.shown(stamp?)
    }

    // The first instant at which the clock shows a date-time; of one that it skips, that by the offset before. An instant itself.
    pub(crate) fn instant(&self, start: Start) -> Option<DateTime<FixedOffset>> {
        if let Start::Stamp(stamp) = start {
            return Some(stamp);
        }
        match &self.zone {
            Some(zone) => {
                let lent = zone.zone();
                Some(instant_of(&lent, start.local())?.fixed_offset())
            }
            None => {
                let offset = self.offset()?;
                offset.from_local_datetime(&start.local()).single()
            }
        }
    }

    // Whether the clock has not shown the local time of the start before.
    fn is_shown_first(&self) -> bool {
        match self.local() {
            Some(local) => self.second_of(Start::DateTime(local)) == self.second_of(self.start),
            None => true,
        }
    }

    // The second of the first such instant.
    fn second_of(&self, start: Start) -> Option<i64> {
        Some(self.instant(start)?.timestamp())
    }

    // The instant of the start, or an earlier one that is added first.
    fn first(&self, added: &[i64]) -> Option<DateTime<FixedOffset>> {
        let start = self.instant(self.start)?;
        match added.first() {
            Some(second) if *second < start.timestamp() => instant_at(*second),
            _ => Some(start),
        }
    }

    // The next instance after an instant.
    fn due_after(
        &self,
        rule: &TimedRule,
        local: NaiveDateTime,
        last: DateTime<FixedOffset>,
    ) -> Option<DateTime<FixedOffset>> {
        match &self.zone {
            Some(zone) => due_in(zone, rule, local, last),
            None => due_by(self.offset()?, rule, local, last),
        }
    }

    // How many instances lie before an instant, where each comes equally long after the one before. `None` where that is not known.
    fn passed_before(&self, rule: &TimedRule, from: DateTime<FixedOffset>) -> Option<u64> {
        if self.zone.is_some() {
            return None;
        }
        let step = seconds_of_step(rule)?;
        let start = self.instant(self.start)?;
        if from <= start {
            return Some(0);
        }
        let seconds = from.timestamp().saturating_sub(start.timestamp());
        let begun = if from.nanosecond() > 0 { 1 } else { 0 };
        let last = seconds
            .unsigned_abs()
            .saturating_add(begun)
            .saturating_sub(1);
        Some(last.checked_div(step)?.saturating_add(1))
    }

    // The search for instances: from the start on where the rule counts them, and else from the first that is wanted.
    fn search(
        &self,
        rule: &TimedRule,
        skip: Skip,
        local: NaiveDateTime,
        wanted: &Wanted,
    ) -> Search {
        let from = match rule.bound {
            Bound::Count(_) => local.date(),
            _ => wanted.from.naive_local().date(),
        };
        let skipping = match skip {
            Skip::Omit => None,
            _ => Some(SkipTimes::new(rule, skip, local, from)),
        };
        let (bound, count, last) = match rule.bound {
            Bound::Count(count) => match self.passed_before(rule, wanted.from) {
                Some(passed) => {
                    let left = u64::from(count).saturating_sub(passed);
                    (Bound::Never, left, Some(wanted.from))
                }
                None => {
                    let first = self.first(wanted.added.as_slice());
                    (Bound::Never, u64::from(count), first)
                }
            },
            bound => (bound, u64::MAX, Some(wanted.from)),
        };
        Search {
            rule: TimedRule { bound, ..*rule },
            skipping,
            last: just_before(last),
            count,
        }
    }

    // Prints an instance in the way of the start.
    fn print(&self, asked: &mut Asked<'_>, due: DateTime<FixedOffset>) {
        match (&self.zone, self.start) {
            (Some(zone), _) => asked.print_in(zone, due),
            (None, Start::Stamp(_)) => asked.print_start(&Start::Stamp(due)),
            _ => asked.print_start(&Start::DateTime(due.naive_local())),
        }
    }
}

// How many seconds lie from each instance to the next, by a clock that keeps its offset, if a rule has no part but FREQ, INTERVAL and COUNT.
fn seconds_of_step(rule: &TimedRule) -> Option<u64> {
    let plain = Rule {
        interval: rule.days.interval,
        ..Rule::new(Frequency::Daily)
    };
    if rule.days != plain || rule.times != DayTimes::of_start() {
        return None;
    }
    let (unit, interval) = match rule.steps.unit {
        ClockUnit::Day => (86_400_u64, rule.days.interval),
        ClockUnit::Hour => (3_600, rule.steps.interval),
        ClockUnit::Minute => (60, rule.steps.interval),
        ClockUnit::Second => (1, rule.steps.interval),
    };
    Some(unit.saturating_mul(u64::from(interval.max(1))))
}

// The next instance by a clock so far ahead of UTC after an instant.
fn due_by(
    offset: FixedOffset,
    rule: &TimedRule,
    local: NaiveDateTime,
    last: DateTime<FixedOffset>,
) -> Option<DateTime<FixedOffset>> {
    let (Some(zoned), Some(start)) = (
        rule.in_zone(local, offset),
        last.checked_with_timezone(&offset),
    ) else {
        return None;
    };
    zoned.next_after(start)
}

// The next instance by a zone's clock after an instant.
fn due_in(
    zone: &OwnedZone,
    rule: &TimedRule,
    local: NaiveDateTime,
    last: DateTime<FixedOffset>,
) -> Option<DateTime<FixedOffset>> {
    let lent = zone.zone();
    let (Some(zoned), Some(start)) = (
        rule.in_zone(local, &lent),
        last.checked_with_timezone(&&lent),
    ) else {
        return None;
    };
    Some(zoned.next_after(start)?.fixed_offset())
}

// Prints the instances, with what is added, and without what is left out; whether there is one. COUNT counts from the start on.
fn print_instances(
    asked: &mut Asked<'_>,
    begin: &Begin,
    search: &mut Search,
    local: NaiveDateTime,
    wanted: &Wanted,
) -> bool {
    let mut left = wanted.most;
    for _ in 0..u64::MAX {
        let Some(due) = search.next(begin, local, wanted) else {
            break;
        };
        if due >= wanted.from && !wanted.leaves_out(due) {
            begin.print(asked, due);
            left = left.saturating_sub(1);
        }
        if asked.is_over || left == 0 {
            break;
        }
    }
    left < wanted.most
}

// Where the search for instances stands: behind which instant, and how many the rule still has.
#[derive(Drop)]
struct Search {
    rule: TimedRule,
    // Those of a rule with SKIP.
    skipping: Option<SkipTimes>,
    last: Option<DateTime<FixedOffset>>,
    count: u64,
}

impl Search {
    // The next instance, or what is added before it.
    fn next(
        &mut self,
        begin: &Begin,
        local: NaiveDateTime,
        wanted: &Wanted,
    ) -> Option<DateTime<FixedOffset>> {
        let last = self.last?;
        let due = if self.count > 0 {
            self.due_after(begin, local, last)
        } else {
            None
        };
        let next = begin.shown_if(wanted.earlier(last, due));
        if due.is_some() && next == due {
            self.count = self.count.saturating_sub(1);
        }
        self.last = next;
        next
    }

    // The next instance after an instant.
    fn due_after(
        &mut self,
        begin: &Begin,
        local: NaiveDateTime,
        last: DateTime<FixedOffset>,
    ) -> Option<DateTime<FixedOffset>> {
        match &mut self.skipping {
            Some(times) => times.due_after(begin, last),
            None => begin.due_after(&self.rule, local, last),
        }
    }
}

// A nanosecond before an instant.
fn just_before(stamp: Option<DateTime<FixedOffset>>) -> Option<DateTime<FixedOffset>> {
    stamp?.checked_sub_signed(TimeDelta::nanoseconds(1))
}

impl Wanted {
    // The next instance after an instant, or what is added before it.
    fn earlier(
        &self,
        last: DateTime<FixedOffset>,
        due: Option<DateTime<FixedOffset>>,
    ) -> Option<DateTime<FixedOffset>> {
        match (self.added_after(last.timestamp()), due) {
            (None, due) => due,
            (Some(second), Some(due)) if due.timestamp() <= second => Some(due),
            (Some(second), _) => instant_at(second),
        }
    }

    // The first second behind another that is added.
    fn added_after(&self, last: i64) -> Option<i64> {
        for second in self.added.as_slice() {
            if last < *second {
                return Some(*second);
            }
        }
        None
    }

    // Whether an instant, or its day, is left out.
    fn leaves_out(&self, due: DateTime<FixedOffset>) -> bool {
        for start in self.left_out.as_slice() {
            let is_it = match *start {
                Start::Day(date) => due.naive_local().date() == date,
                _ => start.placed() == due.naive_utc(),
            };
            if is_it {
                return true;
            }
        }
        false
    }
}

impl Asked<'_> {
    // Ends where a date-time lies within a second, which no rule has.
    fn check_whole(&mut self, word: Word<'_>, start: &Start) {
        if start.local().time().nanosecond() > 0 {
            self.wrong(word, "expected a whole second, and no leap second");
        }
    }

    // Ends where a clock shows the local time of the start for the second time: a rule begins at the first.
    fn check_shown_first(&mut self, word: Word<'_>, begin: &Begin) {
        if !begin.is_shown_first() {
            self.no_such(word, NOT_ONCE);
        }
    }

    // Ends where of two date-times without a zone one has an offset and one has none.
    fn check_alike(&mut self, word: Word<'_>, begin: &Begin, start: &Start) {
        if begin.zone.is_none() && begin.start.has_offset() != start.has_offset() {
            self.wrong(word, ONE_OFFSET);
        }
    }

    // Which instances the options ask for.
    fn wanted(&mut self, begin: &Begin) -> Option<Wanted> {
        let from = match self.value("--from") {
            Some(word) => Some(self.beside(begin, word)),
            None => None,
        };
        let most = self.amount_if("--count").unwrap_or(u64::MAX);
        let mut added = Vec::new(self.rt.alloc());
        let mut left_out = Vec::new(self.rt.alloc());
        for place in 0..self.words.options.len() {
            if let Some(given) = self.words.options.get(place).copied() {
                let put = match given.option.name {
                    "--rdate" => match self.added(begin, given.value) {
                        Some(stamp) => put_behind(&mut added, stamp.timestamp()),
                        None => Ok(()),
                    },
                    "--exdate" => match self.left_out(begin, given.value) {
                        Some(start) => put_behind(&mut left_out, start),
                        None => Ok(()),
                    },
                    _ => Ok(()),
                };
                self.done(put);
            }
        }
        added.as_mut_slice().sort_unstable();
        let from = match from {
            Some(from) => begin.instant(from)?,
            None => begin.first(added.as_slice())?,
        };
        Some(Wanted {
            from,
            most,
            added,
            left_out,
        })
    }

    // The date-time that a word names, or the midnight of a day, as the start is written.
    fn beside(&mut self, begin: &Begin, word: Word<'_>) -> Start {
        match self.start_as(word, MOMENT_EXPECTED) {
            Start::Day(date) => Start::DateTime(NaiveDateTime::new(date, NaiveTime::MIN)),
            start => {
                self.check_alike(word, begin, &start);
                self.moment_at(word, start)
            }
        }
    }

    // The instant that a word adds; of a day, at the time that the clock shows at the start.
    fn added(&mut self, begin: &Begin, word: Word<'_>) -> Option<DateTime<FixedOffset>> {
        let start = self.start_as(word, MOMENT_EXPECTED);
        if start.is_day() {
            let local = NaiveDateTime::new(start.local().date(), begin.local()?.time());
            return begin.instant(Start::DateTime(local));
        }
        let start = self.beside(begin, word);
        self.check_whole(word, &start);
        begin.instant(start)
    }

    // The day or the instant that a word leaves out.
    fn left_out(&mut self, begin: &Begin, word: Word<'_>) -> Option<Start> {
        let start = self.start_as(word, MOMENT_EXPECTED);
        if start.is_day() {
            return Some(start);
        }
        Some(Start::Stamp(begin.instant(self.beside(begin, word))?))
    }

    // The rule over date-times that a word writes, and where it puts a day that a month does not have.
    fn timed_rule(&mut self, word: Word<'_>, start: &Start) -> Option<(TimedRule, Skip)> {
        if let Some(why) = skip_fault(word.text.as_bytes()) {
            self.wrong(word, why);
            return None;
        }
        let is_local = !self.words.has("--zone") && !start.has_offset();
        match read_rule_in(self.rt, word.text.as_bytes(), is_local) {
            Ok(Ok((rule, skip))) if goes_together(&rule, skip) => return Some((rule, skip)),
            Ok(Ok(_)) => self.wrong(word, SKIP_ALONE),
            Ok(Err(error)) => self.wrong_timed_rule(word, error),
            Err(error) => self.fail(error),
        }
        None
    }

    // Ends since a word is no rule over date-times.
    pub(crate) fn wrong_timed_rule(&mut self, word: Word<'_>, error: TimedRuleError) {
        let text = word.text.as_bytes();
        match error {
            TimedRuleError::Days(error) if error.fault == RuleFault::Alone && lists_times(text) => {
                self.wrong(word, ONE_TIME);
            }
            TimedRuleError::Days(error) if error.part != Some(RulePart::Freq) => {
                self.wrong_by(word, &error, "; expected a rule as FREQ=DAILY;BYHOUR=9,17");
            }
            _ => self.wrong(word, why_no_rule(error, text)),
        }
    }
}

// Whether a rule has what SKIP asks for.
pub(crate) fn goes_together(rule: &TimedRule, skip: Skip) -> bool {
    matches!(skip, Skip::Omit) || goes_with_skip(&rule.days)
}

// The rule over date-times that a text writes, also behind `RRULE:` and with `;` at its end, and what SKIP says. UNTIL of a rule by local
// time alone is local time too.
pub(crate) fn read_rule_in(
    rt: &HostRuntime,
    text: &[u8],
    is_local: bool,
) -> io::Result<Result<(TimedRule, Skip), TimedRuleError>> {
    let text = text.strip_prefix(b"RRULE:").unwrap_or(text);
    let text = text.strip_suffix(b";").unwrap_or(text);
    let mut others: Vec<u8> = Vec::new(rt.alloc());
    let skip = cut_skip(text, &mut others)?;
    let mut full: Vec<u8> = Vec::new(rt.alloc());
    let mut gap: &[u8] = b"";
    for part in others.as_slice().split(|byte| *byte == b';') {
        full.extend_from_slice(gap)?;
        full.extend_from_slice(part)?;
        gap = b";";
        if is_local {
            full.extend_from_slice(end_of_until(part))?;
        }
    }
    let mut buffer: Vec<u8> = Vec::new(rt.alloc());
    buffer.resize(full.len().saturating_add(1), 0)?;
    match read_timed_rule(full.as_slice(), buffer.as_mut_slice()) {
        Ok(rule) => Ok(Ok((rule, skip.of_rule(&rule.days)))),
        Err(error) => Ok(Err(error)),
    }
}

// What UNTIL lacks of a time in UTC: the mark of UTC.
fn end_of_until(part: &[u8]) -> &'static [u8] {
    match part.strip_prefix(b"UNTIL=") {
        Some(value) if value.len() == 15 => b"Z",
        _ => b"",
    }
}

// That BYSETPOS counts days, and no times of day.
const ONE_TIME: &str = "BYSETPOS: goes with one time a day alone";

// Whether a text has a part that begins so.
fn has_part(text: &[u8], name: &[u8]) -> bool {
    for part in text.split(|byte| *byte == b';') {
        if begins_but_for_case(part.strip_prefix(b"RRULE:").unwrap_or(part), name) {
            return true;
        }
    }
    false
}

// Whether it lists times of day.
fn lists_times(text: &[u8]) -> bool {
    has_part(text, b"BYHOUR=") || has_part(text, b"BYMINUTE=") || has_part(text, b"BYSECOND=")
}

// Whether UNTIL is a day in it.
fn ends_by_day(text: &[u8]) -> bool {
    for part in text.split(|byte| *byte == b';') {
        if begins_but_for_case(part, b"UNTIL=") {
            return part.len() == 14;
        }
    }
    false
}

// Why UNTIL cannot be read.
fn why_no_until(text: &[u8]) -> &'static str {
    if has_part(text, b"COUNT=") {
        "UNTIL: does not go with COUNT"
    } else if ends_by_day(text) {
        "UNTIL: a day, but the start has a time; expected a date-time as 20241231T230000Z"
    } else {
        "UNTIL: expected a date-time in UTC as 20241231T230000Z, once"
    }
}

// Which parts do not go together.
fn why_not_together(text: &[u8]) -> &'static str {
    if has_part(text, b"BYSETPOS=") {
        ONE_TIME
    } else if has_part(text, b"BYWEEKNO=") {
        "BYWEEKNO: does not go with HOURLY, MINUTELY and SECONDLY"
    } else {
        "BYDAY: a number does not go with HOURLY, MINUTELY and SECONDLY"
    }
}

// Why a text is no rule over date-times.
fn why_no_rule(error: TimedRuleError, text: &[u8]) -> &'static str {
    match error {
        TimedRuleError::Part(ClockPart::ByHour) => "BYHOUR: there twice, or out of range",
        TimedRuleError::Part(ClockPart::ByMinute) => "BYMINUTE: there twice, or out of range",
        TimedRuleError::Part(ClockPart::BySecond) => "BYSECOND: there twice, or out of range",
        TimedRuleError::Frequency | TimedRuleError::Days(_) => {
            "FREQ: expected once one of SECONDLY, MINUTELY, HOURLY, DAILY, WEEKLY, MONTHLY and YEARLY"
        }
        TimedRuleError::Until => why_no_until(text),
        TimedRuleError::NotTogether => why_not_together(text),
    }
}
