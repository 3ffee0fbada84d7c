//! Answers to commands by dates, times of day and date-times. Each is the result of one public function.
use caltool_form::{CommandAnswers, MonthSpan};
use chrono_datetime::{
    Datelike, NaiveDate, NaiveDateTime, NaiveTime, TimeDelta, Weekday, WeekdaySet,
};

/// The type that answers each command by dates, times of day and date-times.
pub struct DateAnswers;

impl CommandAnswers for DateAnswers {
    type Date = NaiveDate;

    ghost number = { λ n. n };

    fn from_ymd(year: i32, month: u32, day: u32) -> Option<NaiveDate> {
        NaiveDate::from_ymd_opt(year, month, day)
    }

    fn from_yo(year: i32, ordinal: u32) -> Option<NaiveDate> {
        NaiveDate::from_yo_opt(year, ordinal)
    }

    fn from_iso(year: i32, week: u32, weekday: Weekday) -> Option<NaiveDate> {
        NaiveDate::from_isoywd_opt(year, week, weekday)
    }

    fn from_day(day: i32) -> Option<NaiveDate> {
        NaiveDate::from_num_days_from_ce_opt(day)
    }

    fn nth_weekday(year: i32, month: u32, weekday: Weekday, nth: u8) -> Option<NaiveDate> {
        NaiveDate::from_weekday_of_month_opt(year, month, weekday, nth)
    }

    fn move_days(date: NaiveDate, count: i64) -> Option<NaiveDate> {
        date.moved_by_days(count)
    }

    fn move_months(date: NaiveDate, span: MonthSpan) -> Option<NaiveDate> {
        date.moved_by_months(match span {
            MonthSpan::Later(months) => i64::from(months),
            MonthSpan::Earlier(months) => -i64::from(months),
        })
    }

    #[tactic(auto, unfolding(caltool_form::specs::Named::reach_named, chrono_datetime::specs::Moment::reach))]
    fn move_moment(
        date: NaiveDate,
        time: NaiveTime,
        by: TimeDelta,
    ) -> Option<(NaiveDate, NaiveTime)> {
        let moment = NaiveDateTime::new(date, time).checked_add_signed(by)?;
        Some((moment.date(), moment.time()))
    }

    fn week(date: NaiveDate, start: Weekday) -> (Option<NaiveDate>, Option<NaiveDate>) {
        let week = date.week(start);
        (week.checked_first_day(), week.checked_last_day())
    }

    fn first_on(date: NaiveDate, days: WeekdaySet) -> Option<NaiveDate> {
        date.first_on(days)
    }

    fn every_months(date: NaiveDate, months: i32, times: u32) -> Option<NaiveDate> {
        date.every_months(months, times)
    }

    fn distance(
        date: NaiveDate,
        time: NaiveTime,
        base: NaiveDate,
        base_time: NaiveTime,
    ) -> TimeDelta {
        NaiveDateTime::new(date, time).signed_duration_since(NaiveDateTime::new(base, base_time))
    }

    fn year_month_day(date: NaiveDate) -> (i32, u32, u32) {
        date.year_month_day()
    }

    fn day(date: NaiveDate) -> i32 {
        date.num_days_from_ce()
    }

    fn weekday(date: NaiveDate) -> Weekday {
        date.weekday()
    }

    fn iso_name(date: NaiveDate) -> (i32, u32) {
        let week = date.iso_week();
        (week.year(), week.week())
    }

    fn ordinal(date: NaiveDate) -> u32 {
        date.ordinal()
    }
}
