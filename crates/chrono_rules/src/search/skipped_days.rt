//! How many days a search for a member skips at once, by each part of the rule.
ghost use Rattle.std.specs.Prelude.{◌≡◌, ◌≤◌, ◌<◌, ◌+◌, ◌-◌, ◌*◌, ◌%◌, ◌==◌, ◌||◌, not, ◌≤ℤ◌, ◌<ℤ◌, ◌+ℤ◌, ℤ, ℕ, neg_ℤ, pos, true, false, IsFalse, IsTrue};
ghost use Rattle.std.specs.Int.{IsInRange};
ghost use Rattle.chrono_datetime.specs.Days.{IsDate, day_of, month_of};
ghost use Rattle.chrono_datetime.specs.MonthMoves.{month_index, month_index_of, month_length_of};
ghost use Rattle.chrono_datetime.specs.Weekday.{days_from_monday};
ghost use Rattle.chrono_datetime.specs.Weeks.{weekday_of};
ghost use Rattle.chrono_datetime.specs.Years.{month_length};
ghost use Rattle.chrono_datetime.specs.PassedOver.{PassedOver};
ghost use Rattle.chrono_sets.specs.FiniteSets.{has};
ghost use Rattle.chrono_rules.specs.Instances.{in_interval, is_member, not_after};
ghost use Rattle.chrono_rules.specs.ByParts.{fills_day, fills_month, fills_weekday, has_numbers, in_week, names_weekday, on_month_day, on_weekday};
ghost use Rattle.chrono_rules.specs.RuleParts.{lacks_month_days, lacks_months, lacks_weekdays, lacks_weeks};

use crate::rule::Rule;
use crate::search::repeats::PAST_LAST_DAY;
use crate::weekday_places::numbers_of;
use chrono_datetime::{Datelike, LAST_DAY, Month, NaiveDate};

impl Rule {
    // How many months in a row, from one on, are none of the rule's.
    fn months_left_out(&self, start: NaiveDate, month: u32) -> u32
        requires { IsInRange 1 12 month }
        ensures passed { (d : ℤ) (j : ℕ) → j < result → month_of d ≡ 1 + (month - 1 + j) % 12 → is_member self.now start d ≡ false }
        ensures named { result ≡ 0 → (lacks_months self.now || has self.now.months month) ≡ true }
        ensures filled { result ≡ 0 → (not (fills_month self.now.frequency self.now) || (month == month_of start)) ≡ true }
        ensures few { result ≤ 12 }
    {
        if !self.lacks_months() {
            return self.months.gap_around(1, month, 13);
        }
        if self.fills_month() {
            return (start.month() + 12 - month) % 12;
        }
        0
    }

    // How many days a month has at least that holds one which BYMONTHDAY names, or the start in its place.
    fn shortest_month(&self, start: NaiveDate) -> u32
        ensures { (d : ℤ) → month_length_of d < result → is_member self.now start d ≡ false }
    {
        if !self.lacks_month_days() {
            let front = self.month_days.gap_up(1);
            let back = self.month_days_from_end.gap_up(1);
            return 1 + front.min(back);
        }
        if self.fills_day() {
            return start.day();
        }
        0
    }

    // The same, where months of fewer days than so many are none of the rule's either.
    #[inline]
    fn months_left_out_or_short(
        &self,
        start: NaiveDate,
        year: i32,
        month: u32,
        shortest: u32,
    ) -> u32
        requires month { IsInRange 1 12 month }
        requires low { neg_ℤ (pos 300_000) ≤ℤ year }
        requires high { year ≤ℤ pos 300_000 }
        requires short { (d : ℤ) → month_length_of d < shortest → is_member self.now start d ≡ false }
        ensures passed { (d : ℤ) (j : ℕ) → j < result → month_index_of d ≡ month_index year month +ℤ pos j → is_member self.now start d ≡ false }
        ensures few { result ≤ 12 }
    {
        let months = self.months_left_out(start, month);
        if months > 0 || shortest <= 28 {
            return months;
        }
        if is_shorter(year, month, shortest) {
            1
        } else {
            0
        }
    }

    // How many months in a row, from that of a day on, hold no day that BYMONTH and BYMONTHDAY name, or the start in their place.
    // None where BYMONTH names the day's own month, whose days are looked at one by one.
    fn months_passed(&self, start: NaiveDate, day: NaiveDate) -> u32
        ensures passed { (d : ℤ) (j : ℕ) → j < result → month_index_of d ≡ month_index_of day +ℤ pos j → is_member self.now start d ≡ false }
        ensures named { result ≡ 0 → (lacks_months self.now || has self.now.months (month_of day)) ≡ true }
        ensures filled { result ≡ 0 → (not (fills_month self.now.frequency self.now) || (month_of day == month_of start)) ≡ true }
        ensures few { result ≤ 60 }
    {
        if self.lacks_months() && !self.fills_month() {
            return 0;
        }
        let (mut year, mut month, _) = day.year_month_day();
        let mut gap = self.months_left_out(start, month);
        if gap == 0 {
            return 0;
        }
        let shortest = self.shortest_month(start);
        let mut months = 0;
        while gap > 0 && months < 48 {
            months += gap;
            month += gap;
            if month > 12 {
                month -= 12;
                year += 1;
            }
            gap = self.months_left_out_or_short(start, year, month, shortest);
        }
        months
    }

    // How many days from this one on lie in months that are none of the rule's.
    #[inline]
    fn passed_by_month(&self, start: NaiveDate, day: NaiveDate) -> i64
        ensures passed { PassedOver (is_member self.now start) day (day +ℤ result) }
        ensures named { result ≡ pos 0 → (lacks_months self.now || has self.now.months (month_of day)) ≡ true }
        ensures filled { result ≡ pos 0 → (not (fills_month self.now.frequency self.now) || (month_of day == month_of start)) ≡ true }
        ensures low { pos 0 ≤ℤ result }
        ensures high { result ≤ℤ pos 1_000_000_000 }
    {
        let months = self.months_passed(start, day);
        if months == 0 {
            return 0;
        }
        days_to_month(day, i64::from(months))
    }

    // How many days from this one on, in its month, are none that BYMONTHDAY names.
    #[inline]
    fn passed_by_month_day(&self, start: NaiveDate, day: NaiveDate) -> u32
        ensures passed { PassedOver (is_member self.now start) day (day +ℤ pos result) }
        ensures named { result ≡ 0 → (lacks_month_days self.now || on_month_day self.now day) ≡ true }
        ensures filled { result ≡ 0 → (not (fills_day self.now.frequency self.now) || (day_of day == day_of start)) ≡ true }
        ensures few { result ≤ 31 }
    {
        if !self.lacks_month_days() {
            return self.days_to_month_day(day);
        }
        if self.fills_day() {
            return days_to_place(start.day(), day);
        }
        0
    }

    // How many days from this one on to one that BYMONTHDAY names, or to the end of its month.
    fn days_to_month_day(&self, day: NaiveDate) -> u32
        ensures passed { PassedOver (on_month_day self.now) day (day +ℤ pos result) }
        ensures named { result ≡ 0 → on_month_day self.now day ≡ true }
        ensures few { result ≤ 31 }
    {
        let (place, length) = (day.day(), u32::from(day.num_days_in_month()));
        let front = self.month_days.gap_up(place);
        let back = self.month_days_from_end.gap_down(length - place + 1);
        front.min(back).min(length - place + 1)
    }

    // How many days from this one on are none that BYDAY names, at most those of its month or year, where numbered weekdays count.
    fn passed_by_weekday(&self, start: NaiveDate, day: NaiveDate) -> u32
        requires { IsDate day }
        ensures passed { PassedOver (is_member self.now start) day (day +ℤ pos result) }
        ensures named { result ≡ 0 → (lacks_weekdays self.now || on_weekday self.now day) ≡ true }
        ensures filled { result ≡ 0 → (not (fills_weekday self.now.frequency self.now)
            || (days_from_monday (weekday_of day) == days_from_monday (weekday_of start))) ≡ true }
        ensures few { result ≤ 366 }
    {
        if self.fills_weekday() {
            return start.weekday().days_since(day.weekday());
        }
        if self.lacks_weekdays() {
            return 0;
        }
        self.days_to_weekday(day)
    }

    // How many days from this one on lie in its week, if that is none that BYWEEKNO names.
    fn passed_by_week(&self, start: NaiveDate, day: NaiveDate) -> u32
        ensures passed { PassedOver (is_member self.now start) day (day +ℤ pos result) }
        ensures named { result ≡ 0 → (lacks_weeks self.now || in_week self.now day) ≡ true }
        ensures few { result ≤ 7 }
    {
        if self.lacks_weeks() {
            return 0;
        }
        if self.in_week(day) {
            return 0;
        }
        7 - day.weekday().days_since(self.week_start)
    }

    // How many days from this one on to one that BYDAY names. Where numbers count, at most those of its month or year.
    fn days_to_weekday(&self, day: NaiveDate) -> u32
        requires { IsDate day }
        ensures passed { PassedOver (on_weekday self.now) day (day +ℤ pos result) }
        ensures named { result ≡ 0 → on_weekday self.now day ≡ true }
        ensures few { result ≤ 366 }
    {
        if self.has_numbers() {
            return self.days_to_numbered(day);
        }
        let weekday = day.weekday().num_days_from_monday();
        self.weekdays.every.gap_around(0, weekday, 7)
    }

    // How many days from this one on to one that BYDAY names, or to the end of the month or year in which numbered weekdays count.
    fn days_to_numbered(&self, day: NaiveDate) -> u32
        requires date { IsDate day }
        requires numbers { has_numbers self.now.frequency ≡ true }
        ensures passed { PassedOver (on_weekday self.now) day (day +ℤ pos result) }
        ensures named { result ≡ 0 → on_weekday self.now day ≡ true }
        ensures few { result ≤ 366 }
    {
        let place = self.counted_place(day);
        let behind = self.days_behind(day);
        let mut weekday = day.weekday().num_days_from_monday();
        let mut days = behind + 1;
        let mut first = 0;
        while first < days.min(7) {
            let one = self.days_to_one_weekday(weekday, first, place, behind);
            days = one.min(days);
            weekday = if weekday == 6 { 0 } else { weekday + 1 };
            first += 1;
        }
        days
    }

    // How many days from a place on to a day of the weekday that BYDAY names. The first day of that weekday comes `first` days later.
    // If BYDAY names none there, the days go to the end of the month or year.
    fn days_to_one_weekday(&self, weekday: u32, first: u32, place: u32, behind: u32) -> u32
        requires weekday { weekday < 7 }
        requires first { first < 7 }
        requires place { IsInRange 1 366 place }
        requires behind { behind < 366 }
        requires numbers { has_numbers self.now.frequency ≡ true }
        ensures passed { (j : ℕ) → j < result → j ≤ behind → j % 7 ≡ first → names_weekday self.now weekday (place + j) (behind - j) ≡ false }
        ensures named { result ≡ 0 → names_weekday self.now weekday place behind ≡ true }
        ensures here { result ≡ 0 → first ≡ 0 }
        ensures few { result ≤ behind + 1 }
    {
        if first > behind || !self.has_weekday(weekday) {
            return behind + 1;
        }
        if self.weekdays.every.contains(weekday) {
            return first;
        }
        let day = weekday as usize;
        let numbers = numbers_of(&self.weekdays.front, day);
        let from_end = numbers_of(&self.weekdays.back, day);
        let front = numbers.gap_up(1 + (place + first - 1) / 7);
        let back = from_end.gap_down(1 + (behind - first) / 7);
        (first + 7 * front.min(back)).min(behind + 1)
    }

    // Whether BYDAY names days of the weekday at all.
    #[inline]
    fn has_weekday(&self, weekday: u32) -> bool
        requires { weekday < 7 }
        ensures { IsFalse result → (place : ℕ) (behind : ℕ) → names_weekday self.now weekday place behind ≡ false }
    {
        let front = numbers_of(&self.weekdays.front, weekday as usize);
        let back = numbers_of(&self.weekdays.back, weekday as usize);
        self.weekdays.every.contains(weekday) || (!front.is_empty() || !back.is_empty())
    }

    // How many days from this one on one of the rule's BY parts passes over, 0 if none does.
    // Then the day is a member if its period counts, unless it is after UNTIL.
    pub(crate) fn passed_by_parts(&self, start: NaiveDate, day: NaiveDate) -> i64
        requires { start ≤ℤ day }
        ensures passed { PassedOver (is_member self.now start) day (day +ℤ result) }
        ensures member { result ≡ pos 0 → in_interval self.now start day ≡ true → not_after self.now.end day ≡ true → is_member self.now start day ≡ true }
        ensures low { pos 0 ≤ℤ result }
        ensures high { result ≤ℤ pos 1_000_000_000 }
        ensures in_range { IsDate day }
    {
        prove!(day.num_days_from_ce() <= LAST_DAY);
        let months = self.passed_by_month(start, day);
        if months > 0 {
            return months;
        }
        let days = self.passed_by_month_day(start, day);
        if days > 0 {
            return i64::from(days);
        }
        let weeks = self.passed_by_week(start, day);
        if weeks > 0 {
            return i64::from(weeks);
        }
        let weekdays = self.passed_by_weekday(start, day);
        if weekdays > 0 {
            return i64::from(weekdays);
        }
        let year_days = self.passed_by_year_day(start, day);
        if year_days > 0 {
            return i64::from(year_days);
        }
        self.passed_by_position(start, day)
    }
}

// How many days from this one on lie before the month that is so many months later; all that are left if the calendar has none.
#[inline]
pub(crate) fn days_to_month(day: NaiveDate, months: i64) -> i64
    requires some { pos 0 <ℤ months }
    requires high { months ≤ℤ pos 100_000_000_000 }
    ensures earlier { (d : ℤ) → day ≤ℤ d → d <ℤ (day +ℤ result) → month_index_of d <ℤ (month_index_of day +ℤ months) }
    ensures low { pos 0 <ℤ result }
    ensures high { result ≤ℤ pos 1_000_000_000 }
{
    let here = i64::from(day.num_days_from_ce());
    match day.first_day_of_month().moved_by_months(months) {
        Some(first) => i64::from(first.num_days_from_ce()) - here,
        None => i64::from(PAST_LAST_DAY) - here,
    }
}

// Whether a month has fewer days than so many; no where the calendar has not its year.
#[inline]
fn is_shorter(year: i32, month: u32, days: u32) -> bool
    requires { IsInRange 1 12 month }
    ensures { IsTrue result → month_length year month < days }
{
    match Month::from_u32(month).unwrap().num_days(year) {
        Some(length) => u32::from(length) < days,
        None => false,
    }
}

// How many days from this one on to the day of its month at a place, or to the end of its month.
#[inline]
fn days_to_place(place: u32, day: NaiveDate) -> u32
    ensures passed { (d : ℤ) → day ≤ℤ d → d <ℤ (day +ℤ pos result) → (day_of d == place) ≡ false }
    ensures here { result ≡ 0 → day_of day ≡ place }
    ensures few { result ≤ 31 }
{
    let (here, end) = (day.day(), u32::from(day.num_days_in_month()) + 1);
    if place < here {
        return end - here;
    }
    place.min(end) - here
}
