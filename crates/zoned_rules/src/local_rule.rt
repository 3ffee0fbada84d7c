//! `LocalRule`: a rule over local date-times.
ghost use Rattle.std.specs.Prelude.{◌≡◌, ◌↔◌, ◌⊎◌, IfSome, IsSome, not, true};
ghost use Rattle.chrono_rules.specs.RuleParts.{lacks_positions};
ghost use Rattle.zoned_rules.specs.LocalTimes.{each_day, has_one_time, is_planned, lacks_times, without_end};

use crate::clock_steps::ClockSteps;
use crate::day_times::DayTimes;
use chrono_datetime::{NaiveDateTime, Timelike};
use chrono_rules::{End, Rule};
use std::marker::Model;

/// A rule of days, the times of day at which it recurs, and its local start (RFC 5545, DTSTART).
///
/// A rule with FREQ=HOURLY, MINUTELY or SECONDLY also counts the units of the clock ([`ClockSteps`]). Its rule of days says on which days it
/// may recur.
///
/// It has no COUNT and no UNTIL. Those count instants, and a local rule knows no zone.
#[derive(Clone, Copy, Debug)]
pub struct LocalRule {
    pub(crate) days: Rule,
    pub(crate) times: DayTimes,
    pub(crate) start: NaiveDateTime,
    pub(crate) steps: ClockSteps,
}

impl Model for LocalRule {
    ghost use Rattle.zoned_rules.specs.LocalTimes.{IsLocalRule, LocalParts};

    ghost Value = { LocalParts };

    ghost view = { λ r. record { days = r.days; times = r.times; start = r.start; steps = r.steps } };

    ghost invariant = { λ r. IsLocalRule (record { days = r.days; times = r.times; start = r.start; steps = r.steps }) };

    ghost inverse = { λ p. record { days = p.days; times = p.times; start = p.start; steps = p.steps } };
}

impl LocalRule {
    /// Returns the rule that recurs on the days of `days` at the times of `times`, from the local time `start` on.
    ///
    /// COUNT and UNTIL of `days` are left out. A [`ZonedRule`](crate::ZonedRule) has its own.
    /// A fraction of the start's second makes no difference to the times. The start is one of them only if its day and its time of day pass.
    ///
    /// Returns `None` if `days` has BYSETPOS and `times` lists a number. BYSETPOS would count date-times there, and a day may have several.
    /// With BYSETPOS the start alone says the time of day.
    ///
    /// ```
    /// use chrono_datetime::{AndTime, NaiveDate};
    /// let start = NaiveDate::from_ymd_opt(2024, 1, 1)?.and_hms_opt(9, 30, 0)?;
    /// let rule = read_rule(b"FREQ=MONTHLY;BYDAY=MO,TU,WE,TH,FR;BYSETPOS=-1").ok()?;
    /// LocalRule::new(rule, DayTimes::of_start(), start).is_some() // true
    /// ```
    pub fn new(days: Rule, times: DayTimes, start: NaiveDateTime) -> Option<LocalRule>
        ensures value { IfSome result (λ r. r ≡ record { days = without_end days; times = times; start = start; steps = each_day }) }
        ensures exists { IsSome result ↔ ((lacks_positions days ≡ true) ⊎ (lacks_times times ≡ true)) }
    {
        LocalRule::by_clock(ClockSteps::each_day(), days, times, start)
    }

    /// Returns the rule that recurs in each unit of the clock that `steps` counts, at the times of `times`, from the local time `start` on.
    ///
    /// It recurs on the days of `days` alone, as BYMONTH, BYMONTHDAY, BYYEARDAY and BYDAY limit them: give it [`Frequency::Daily`](crate::Frequency).
    /// With FREQ=HOURLY, the hours of `times` limit the instances. Where `times` lists no minute, each hour has the start's. With MINUTELY the
    /// minutes limit too, and with SECONDLY the seconds.
    ///
    /// The units are those of local time. So each hour counts once, also where the clock shows it twice or skips it.
    /// COUNT and UNTIL of `days` are left out, as by [`LocalRule::new`].
    ///
    /// Returns `None` if `days` has BYSETPOS, except where `steps` counts days and `times` lists no number.
    ///
    /// ```
    /// use chrono_datetime::{AndTime, NaiveDate};
    /// let start = NaiveDate::from_ymd_opt(2024, 1, 1)?.and_hms_opt(9, 30, 0)?;
    /// let steps = ClockSteps { unit: ClockUnit::Hour, interval: 5 };
    /// let local = LocalRule::by_clock(steps, Rule::new(Frequency::Daily), DayTimes::of_start(), start)?;
    /// local.is_planned(NaiveDate::from_ymd_opt(2024, 1, 2)?.and_hms_opt(0, 30, 0)?) // true
    /// local.is_planned(NaiveDate::from_ymd_opt(2024, 1, 2)?.and_hms_opt(1, 30, 0)?) // false
    /// ```
    pub fn by_clock(
        steps: ClockSteps,
        days: Rule,
        times: DayTimes,
        start: NaiveDateTime,
    ) -> Option<LocalRule>
        ensures value { IfSome result (λ r. r ≡ record { days = without_end days; times = times; start = start; steps = steps }) }
        ensures exists { IsSome result ↔ ((lacks_positions days ≡ true) ⊎ (has_one_time steps.unit times ≡ true)) }
    {
        if has_positions(&days) && !(steps.unit.is_above_hours() && lacks_times(&times)) {
            return None;
        }
        let mut days = days;
        days.end = End::Never;
        Some(LocalRule {
            days,
            times,
            start,
            steps,
        })
    }

    /// Returns the local start.
    ///
    /// ```
    /// use chrono_datetime::{AndTime, NaiveDate};
    /// let start = NaiveDate::from_ymd_opt(2024, 1, 1)?.and_hms_opt(9, 30, 0)?;
    /// LocalRule::new(Rule::new(Frequency::Daily), DayTimes::of_start(), start)?.start() // 2024-01-01T09:30:00
    /// ```
    #[inline]
    pub fn start(&self) -> NaiveDateTime
        ensures { result ≡ self.now.start }
    {
        self.start
    }

    /// Returns whether `local` is one of the local times at which the rule recurs.
    ///
    /// A time of the start's day counts even if it is before the start. A time within a second is none, and neither is one in a leap second.
    ///
    /// ```
    /// use chrono_datetime::{AndTime, NaiveDate};
    /// let start = NaiveDate::from_ymd_opt(2024, 1, 1)?.and_hms_opt(9, 30, 0)?;
    /// let daily = LocalRule::new(Rule::new(Frequency::Daily), DayTimes::of_start(), start)?;
    /// daily.is_planned(NaiveDate::from_ymd_opt(2024, 1, 2)?.and_hms_opt(9, 30, 0)?) // true
    /// daily.is_planned(NaiveDate::from_ymd_opt(2024, 1, 2)?.and_hms_opt(9, 30, 1)?) // false
    /// ```
    #[tactic(auto, unfolding(crate::specs::LocalTimes::is_planned_on))]
    pub fn is_planned(&self, local: NaiveDateTime) -> bool
        ensures { result ≡ is_planned self.now local }
    {
        let second = local.num_seconds_from_midnight();
        let date = local.date();
        (self.days.is_instance(self.start.date(), date) && self.is_counted_time(date, second))
            && local.nanosecond() == 0
    }
}

// Whether a rule has BYSETPOS.
fn has_positions(days: &Rule) -> bool
    ensures { result ≡ not (lacks_positions days.now) }
{
    !(days.positions.is_empty() && days.positions_from_end.is_empty())
}

// Whether no part of the times lists a number.
fn lacks_times(times: &DayTimes) -> bool
    ensures { result ≡ lacks_times times.now }
{
    times.hours.is_empty() && (times.minutes.is_empty() && times.seconds.is_empty())
}
