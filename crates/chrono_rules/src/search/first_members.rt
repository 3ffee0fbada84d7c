//! The first members of a rule before a day, up to a given number of them.
ghost use Rattle.std.specs.Prelude.{◌≡◌, ◌≤◌, ◌<◌, ◌*◌, ◌≤ℤ◌, ◌<ℤ◌, ◌+ℤ◌, ◌-ℤ◌, ℤ, pos, true, false};
ghost use Rattle.chrono_datetime.specs.Recurrence.{count_between, first_date, past_last_date};
ghost use Rattle.chrono_datetime.specs.PassedOver.{PassedOver};
ghost use Rattle.chrono_rules.specs.Instances.{is_member, not_after};
ghost use Rattle.chrono_rules.specs.RuleCycles.{RepeatsAfter};

use crate::rule::Rule;
use crate::search::periods::{days_apart, moved};
use crate::search::repeats::LONGEST_PERIOD;
use chrono_datetime::{Datelike, NaiveDate};

// What a walk over the first members has come to.
#[derive(Drop)]
pub(crate) struct Walked {
    // The day behind the last of them; the start where there is none.
    pub(crate) day: NaiveDate,
    // How many they are.
    pub(crate) seen: u32,
}

impl Rule {
    // The first members from the start to before a day, at most `most`.
    // Before `day` come `seen` of them, and from it on they are found one after another.
    fn members_from(
        &self,
        start: NaiveDate,
        day: NaiveDate,
        seen: u32,
        end: NaiveDate,
        most: u32,
    ) -> Walked
        requires begun { start ≤ℤ day }
        requires order { day ≤ℤ end }
        requires counted { seen ≡ count_between (is_member self.now start) start day }
        requires few { seen ≤ most }
        requires fewer { (d : ℤ) → start ≤ℤ d → d <ℤ day → count_between (is_member self.now start) start d < most }
        ensures low { start ≤ℤ result.day }
        ensures high { result.day ≤ℤ end }
        ensures counted { result.seen ≡ count_between (is_member self.now start) start result.day }
        ensures few { result.seen ≤ most }
        ensures fewer { (d : ℤ) → start ≤ℤ d → d <ℤ result.day → count_between (is_member self.now start) start d < most }
        ensures all { result.seen < most → PassedOver (is_member self.now start) result.day end }
    {
        let behind = end.num_days_from_ce();
        let mut from = day;
        let mut count = seen;
        while count < most {
            let Some(member) = self.first_between(start, from, behind) else {
                return Walked {
                    day: from,
                    seen: count,
                };
            };
            let walked = self.members_on(start, member, count, end, most);
            from = walked.day;
            count = walked.seen;
        }
        Walked {
            day: from,
            seen: count,
        }
    }

    // Whole cycles on from `from`, up to `last`: as many as keep the members before their end fewer than `most`.
    // A cycle lies from `base` to `from`, and has `each` members. Before `from` come `seen` of them.
    fn cycles_on(
        &self,
        start: NaiveDate,
        base: NaiveDate,
        from: NaiveDate,
        seen: u32,
        each: u32,
        last: i32,
        most: u32,
    ) -> Walked
        requires repeats { RepeatsAfter self.now (from -ℤ base) }
        requires begun { start ≤ℤ base }
        requires low { (first_date +ℤ pos 366) ≤ℤ base }
        requires order { from ≤ℤ last }
        requires last { (last +ℤ pos 366) ≤ℤ past_last_date }
        requires inside { (d : ℤ) → d <ℤ last → not_after self.now.end d ≡ true }
        requires counted { seen ≡ count_between (is_member self.now start) start from }
        requires few { seen < most }
        requires each { each ≡ count_between (is_member self.now start) base from }
        ensures low { start ≤ℤ result.day }
        ensures high { result.day ≤ℤ last }
        ensures counted { result.seen ≡ count_between (is_member self.now start) start result.day }
        ensures few { result.seen < most }
    {
        let cycle = days_apart(base, from);
        let days = (last - from.num_days_from_ce()) as u32;
        let cycles = whole_times(cycle, days, each, most - 1 - seen);
        Walked {
            day: moved(from, i64::from(cycles * cycle)),
            seen: seen + cycles * each,
        }
    }

    // The first members from the start to before a day, at most `most`.
    // It counts those of one cycle, and then passes whole cycles.
    pub(crate) fn first_members(&self, start: NaiveDate, end: NaiveDate, most: u32) -> Walked
        requires { start ≤ℤ end }
        ensures low { start ≤ℤ result.day }
        ensures high { result.day ≤ℤ end }
        ensures counted { result.seen ≡ count_between (is_member self.now start) start result.day }
        ensures few { result.seen ≤ most }
        ensures fewer { (d : ℤ) → start ≤ℤ d → d <ℤ result.day → count_between (is_member self.now start) start d < most }
        ensures all { result.seen < most → PassedOver (is_member self.now start) result.day end }
    {
        let last = self.last_of_cycles(end);
        let Some(next) = self.cycle_behind(start, last) else {
            return self.members_from(start, start, 0, end, most);
        };
        let base = moved(start, LONGEST_PERIOD);
        let year = self.members_from(start, start, 0, base, most);
        if year.seen >= most {
            return year;
        }
        let walked = self.members_from(start, base, year.seen, next, most);
        if walked.seen >= most {
            return walked;
        }
        let each = walked.seen - year.seen;
        let skipped = self.cycles_on(start, base, next, walked.seen, each, last, most);
        self.members_from(start, skipped.day, skipped.seen, end, most)
    }
}

// How many times a cycle goes into so many days, and its members into so many.
fn whole_times(cycle: u32, days: u32, each: u32, members: u32) -> u32
    requires { 0 < cycle }
    ensures days { result * cycle ≤ days }
    ensures members { result * each ≤ members }
{
    let times = days / cycle;
    if each == 0 {
        return times;
    }
    times.min(members / each)
}
