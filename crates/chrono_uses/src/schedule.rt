//! What comes when: deadlines and what is left until them, pay days and meetings.
ghost use Rattle.std.specs.Prelude.{◌≡◌, pos, neg_ℤ, ◌<ℤ◌, ◌<◌, ℕ, min, IfSome, [], ◌∷◌};
ghost use Rattle.chrono_datetime.specs.Days.{day_of, year_of, month_of};
ghost use Rattle.chrono_datetime.specs.Years.{month_length};
ghost use Rattle.chrono_datetime.specs.Duration.{nanos_per_hour, nanos_per_second, units_of};
ghost use Rattle.chrono_datetime.specs.Moment.{IsBefore, IsMoment, reach, moment_distance};
ghost use Rattle.chrono_datetime.specs.Recurrence.{date_every, date_on};
ghost use Rattle.chrono_datetime.specs.Time.{IsPlain};
ghost use Rattle.chrono_datetime.specs.WeekdaySet.{set_of};
ghost use Rattle.chrono_datetime.specs.declared.Weekday.TheVariants.{Tue, Thu};

use chrono_datetime::{NaiveDate, NaiveDateTime, TimeDelta, Weekday, WeekdaySet};

/// The date-time so many seconds after a start, if its date exists.
pub fn deadline(start: NaiveDateTime, seconds: u32) -> Option<NaiveDateTime>
    ensures { result ≡ reach start (units_of nanos_per_second (pos seconds)) }
{
    start.checked_add_signed(TimeDelta::seconds(i64::from(seconds)))
}

/// What is left until a deadline; negative past it.
pub fn time_left(deadline: NaiveDateTime, now: NaiveDateTime) -> TimeDelta
    ensures { result ≡ moment_distance deadline now }
{
    deadline.signed_duration_since(now)
}

/// The time that has passed since a deadline, negative before it: what is left until then, with the other sign.
pub fn time_passed(deadline: NaiveDateTime, now: NaiveDateTime) -> TimeDelta
    ensures { result ≡ neg_ℤ (moment_distance deadline now) }
{
    now.signed_duration_since(deadline)
}

/// The end of a shift of so many hours, past midnight too, if its date exists. From a start in no leap second it is that
/// many hours away, and in no leap second.
pub fn shift_end(start: NaiveDateTime, hours: u8) -> Option<NaiveDateTime>
    ensures end { IfSome result IsMoment }
    ensures later { 0 < hours → IfSome result (λ e. IsBefore start e) }
    ensures plain { IsPlain start.time → IfSome result (λ e. IsPlain e.time) }
    ensures hours { IsPlain start.time → IfSome result (λ e.
        moment_distance e start ≡ units_of nanos_per_hour (pos hours)) }
{
    start.checked_add_signed(TimeDelta::hours(i64::from(hours)))
}

/// The pay day so many months after the first, which was a 31st: the 31st, or the last day of a shorter month. Each
/// later one that there is comes after it.
pub fn pay_day(first: NaiveDate, months: u32) -> Option<NaiveDate>
    ensures day { day_of first ≡ 31 → IfSome result (λ e.
        day_of e ≡ min 31 (month_length (year_of e) (month_of e))) }
    ensures later { IfSome result (λ e. (more : ℕ) → months < more →
        IfSome (date_every first (pos 1) more) (λ f. e <ℤ f)) }
{
    first.every_months(1, months)
}

/// The next Tuesday or Thursday, which may be today.
pub fn next_meeting(today: NaiveDate) -> Option<NaiveDate>
    ensures { result ≡ date_on today (set_of (Tue ∷ Thu ∷ [])) }
{
    today.first_on(WeekdaySet::from_array([Weekday::Tue, Weekday::Thu]))
}
