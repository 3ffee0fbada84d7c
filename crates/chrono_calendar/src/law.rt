//! Laws of names of dates, weekdays, weeks, months and month moves, and of days that pass a test.
//!
//! Each law is the contract of a function that does nothing. After a call of the function, a proof can use its clauses.
//! A name of a date is a calendar date, an ordinal date or a week date.
ghost use Rattle.std.specs.Prelude.{◌≡◌, ◌↔◌, ◌<◌, ◌≤◌, ◌+◌, ◌*◌, ◌%◌, ℕ, Bool, true, false, if◌then◌else◌, ℤ, Some, None, pos, neg_ℤ, ◌+ℤ◌, ◌-ℤ◌, ◌*ℤ◌, ◌<ℤ◌, ◌≤ℤ◌, filter, length};
ghost use Rattle.std.specs.Int.{IsInRange};
ghost use Rattle.std.specs.Ordering.{int_cmp};
ghost use Rattle.chrono_units.specs.declared.weekday.Weekday.{Weekday};
ghost use Rattle.chrono_units.specs.declared.weekday.Weekday.TheVariants.{Fri, Mon, Sun, Tue};
ghost use Rattle.chrono_units.specs.Weekday.{days_since, next_weekday, previous_weekday};
ghost use Rattle.chrono_units.specs.WeekdaySet.{DaySet, days_in_row, single, walk, weekday_after};
ghost use Rattle.chrono_units.specs.Years.{is_leap_year, month_length, year_length};
ghost use Rattle.chrono_calendar.specs.Days.{IsCalendarName, IsDate, IsOrdinalName, date_of_day, date_of_ymd, date_of_yo, day_number_of_ymd, day_number_of_yo, day_of, month_of, ordinal_of, year_of};
ghost use Rattle.chrono_calendar.specs.MonthMoves.{InSameMonth, MonthMovesAddUp, ComesBack, KeepsOrder, LaterMultiplesAreLater, month_first_of, month_index_of, month_last_of, month_length_of, month_move};
ghost use Rattle.chrono_calendar.specs.NameLaws.{DatesAreDaysOfYears, DatesHaveOneCalendarName, DatesHaveOneIsoName, DatesHaveOneNumber, DatesHaveOneOrdinalName, WeeksHaveOneFirstDay, iso_cmp};
ghost use Rattle.chrono_calendar.specs.Order.{calendar_cmp, ordinal_cmp};
ghost use Rattle.chrono_calendar.specs.Recurrence.{IsFirstWhere, IsLeapDay, IsWeekly, NoneFrom, count_between, count_where, date_every, date_on, dates_before, dates_left, first_date, first_where, is_on, past_last_date};
ghost use Rattle.chrono_calendar.specs.Weeks.{date_of_iso, date_of_last_weekday, date_of_nth_weekday, iso_week_of, iso_year_of, week_first_of, weekday_of};
ghost use Rattle.chrono_calendar.specs.YearsBetween.{birthday, years_between};

use crate::ends::{FIRST_DAY, LAST_DAY};

/// The number of a date gives that date, and no other number does.
pub fn dates_have_one_number()
    ensures { DatesHaveOneNumber }
{}

/// The dates are the days of the years from -262,143 to 262,142.
pub fn dates_are_days_of_years()
    ensures { DatesAreDaysOfYears }
{}

/// The year, the month and the day of a date name that date, and no other name does.
pub fn dates_have_one_calendar_name()
    ensures { DatesHaveOneCalendarName }
{}

/// The year and the ordinal of a date name that date, and no other name does.
pub fn dates_have_one_ordinal_name()
    ensures { DatesHaveOneOrdinalName }
{}

/// The ISO year, the week and the weekday of a date name that date, and no other name does.
pub fn dates_have_one_iso_name()
    ensures { DatesHaveOneIsoName }
{}

/// Days compare as their calendar names do: by year, then month, then day.
pub fn calendar_names_are_in_order()
    ensures { (n m : ℤ) → calendar_cmp n m ≡ int_cmp n m }
{}

/// Days compare as their ordinal names do: by year, then ordinal.
pub fn ordinal_names_are_in_order()
    ensures { (n m : ℤ) → ordinal_cmp n m ≡ int_cmp n m }
{}

/// Days compare as their ISO names do: by ISO year, then week, then weekday from Monday.
pub fn iso_names_are_in_order()
    ensures { (n m : ℤ) → iso_cmp n m ≡ int_cmp n m }
{}

/// The week of a day that begins on a given weekday has one first day. That first day has the weekday. The day is one
/// of the seven days from it on.
pub fn weeks_have_one_first_day()
    ensures { WeeksHaveOneFirstDay }
{}

/// A month move ends on a date.
pub fn month_moves_reach_dates()
    ensures { (n k e : ℤ) → month_move n k ≡ Some e → IsDate e }
{}

/// A month move puts no later day before an earlier one.
pub fn month_moves_keep_order()
    ensures { (n k e : ℤ) → month_move n k ≡ Some e → KeepsOrder n k e }
{}

/// A month move and its reverse end in the date's month. They end on the date if the month between has that day, and
/// else one to three days before it.
pub fn month_moves_come_back()
    ensures { (n k back e : ℤ) → IsDate n → k +ℤ back ≡ pos 0 → month_move n k ≡ Some e →
        ComesBack n back e }
{}

/// Two month moves end in the same month as one move by their sum, and never on a later day.
pub fn month_moves_add_up()
    ensures { (n k e : ℤ) → month_move n k ≡ Some e → MonthMovesAddUp n k e }
{}

/// For moves by multiples of a positive number of months, a higher multiple ends on a later day.
pub fn later_multiples_are_later()
    ensures { (n k : ℤ) (i : ℕ) (e : ℤ) → pos 0 <ℤ k → month_move n (k *ℤ pos i) ≡ Some e →
        LaterMultiplesAreLater n k i e }
{}

/// The weekday of a day `k` days later is `k` days later in the cycle of seven. Call it where a loop steps days and their
/// weekdays together, or where two days are whole weeks apart.
pub fn weekdays_follow()
    ensures after { (n : ℤ) (k : ℕ) →
        weekday_of (n +ℤ pos k) ≡ weekday_after (weekday_of n) k }
    ensures next { (n : ℤ) → weekday_of (n +ℤ pos 1) ≡ next_weekday (weekday_of n) }
    ensures previous { (n : ℤ) → weekday_of (n -ℤ pos 1) ≡ previous_weekday (weekday_of n) }
    ensures weeks_later { (n : ℤ) (w : ℕ) → weekday_of (n +ℤ pos (7 * w)) ≡ weekday_of n }
    ensures since { (n : ℤ) (k : ℕ) →
        days_since (weekday_of (n +ℤ pos k)) (weekday_of n) ≡ k % 7 }
{}

/// The days of a month are those from its first to its last, and the next day is the first of the next month. Call it where
/// code passes a whole month at once, or counts its days.
pub fn months_are_days_in_a_row()
    ensures days { (n d : ℤ) →
        InSameMonth d n ↔ ((month_first_of n ≤ℤ d) × (d ≤ℤ month_last_of n)) }
    ensures later { (n : ℤ) (k : ℕ) → day_of n + k ≤ month_length_of n →
        day_of (n +ℤ pos k) ≡ day_of n + k }
    ensures earlier { (n : ℤ) (k : ℕ) → k < day_of n →
        day_of (n -ℤ pos k) + k ≡ day_of n }
    ensures first { (n : ℤ) → day_of (month_first_of n) ≡ 1 }
    ensures last { (n : ℤ) → day_of (month_last_of n) ≡ month_length_of n }
    ensures next_month { (n : ℤ) →
        month_index_of (month_last_of n +ℤ pos 1) ≡ month_index_of n +ℤ pos 1 }
    ensures next_first { (n : ℤ) → day_of (month_last_of n +ℤ pos 1) ≡ 1 }
    ensures month_before { (n : ℤ) →
        month_index_of (month_first_of n -ℤ pos 1) ≡ month_index_of n -ℤ pos 1 }
    ensures dates { (n d : ℤ) → IsDate n → InSameMonth d n → IsDate d }
{}

/// A month has 28 to 31 days, in any year. Call it where code takes a day that each month has, or where a month is the least
/// or the most that a step can pass.
pub fn months_have_28_to_31_days()
    ensures at_least { (y : ℤ) (m : ℕ) → 28 ≤ month_length y m }
    ensures at_most { (y : ℤ) (m : ℕ) → month_length y m ≤ 31 }
    ensures of_a_day { (n : ℤ) → IsInRange 28 31 (month_length_of n) }
{}

/// A later day is in no earlier year, month or ISO year. Call it where a walk over days ends at a year or at a month.
pub fn years_and_months_rise()
    ensures year { (n m : ℤ) → n ≤ℤ m → year_of n ≤ℤ year_of m }
    ensures month { (n m : ℤ) → n ≤ℤ m → month_index_of n ≤ℤ month_index_of m }
    ensures iso_year { (n m : ℤ) → n ≤ℤ m → iso_year_of n ≤ℤ iso_year_of m }
{}

/// Each day, also one outside the range of dates, has a calendar name, an ordinal name and an ISO week.
///
/// The month is from 1 to 12, the day is in its month, the ordinal in its year, and the week is from 1 to 53. The two
/// names give the day's number. Call it where a field is an index, or where a day need not be a date.
pub fn days_have_names()
    ensures month { (n : ℤ) → IsInRange 1 12 (month_of n) }
    ensures day { (n : ℤ) → IsInRange 1 (month_length_of n) (day_of n) }
    ensures ordinal { (n : ℤ) → IsInRange 1 (year_length (year_of n)) (ordinal_of n) }
    ensures week { (n : ℤ) → IsInRange 1 53 (iso_week_of n) }
    ensures by_calendar { (n : ℤ) →
        day_number_of_ymd (year_of n) (month_of n) (day_of n) ≡ n }
    ensures by_ordinal { (n : ℤ) → day_number_of_yo (year_of n) (ordinal_of n) ≡ n }
{}

/// A name that the calendar has, in any year, is the name of the day with its number. Call it where code computes a day's
/// number from a name.
pub fn names_have_days()
    ensures year { (y : ℤ) (m d : ℕ) → IsCalendarName y m d →
        year_of (day_number_of_ymd y m d) ≡ y }
    ensures month { (y : ℤ) (m d : ℕ) → IsCalendarName y m d →
        month_of (day_number_of_ymd y m d) ≡ m }
    ensures day { (y : ℤ) (m d : ℕ) → IsCalendarName y m d →
        day_of (day_number_of_ymd y m d) ≡ d }
    ensures year_of_ordinal { (y : ℤ) (o : ℕ) → IsOrdinalName y o →
        year_of (day_number_of_yo y o) ≡ y }
    ensures ordinal { (y : ℤ) (o : ℕ) → IsOrdinalName y o →
        ordinal_of (day_number_of_yo y o) ≡ o }
{}

/// A count of days that pass a test grows by at most one a day, and the counts of two stretches add up. Call it where a
/// loop counts days, or where code counts by parts.
pub fn counts_add_up()
    ensures next { (p : ℤ → Bool) (k : ℕ) (n : ℤ) →
        count_where p (k + 1) n ≡ count_where p k n + (if p (n +ℤ pos k) then 1 else 0) }
    ensures sum { (p : ℤ → Bool) (j k : ℕ) (n : ℤ) →
        count_where p (j + k) n ≡ count_where p j n + count_where p k (n +ℤ pos j) }
    ensures at_most { (p : ℤ → Bool) (k : ℕ) (n : ℤ) → count_where p k n ≤ k }
    ensures none { (p : ℤ → Bool) (k : ℕ) (n : ℤ) →
        ((d : ℤ) → n ≤ℤ d → d <ℤ (n +ℤ pos k) → p d ≡ false) → count_where p k n ≡ 0 }
    ensures all { (p : ℤ → Bool) (k : ℕ) (n : ℤ) →
        ((d : ℤ) → n ≤ℤ d → d <ℤ (n +ℤ pos k) → p d ≡ true) → count_where p k n ≡ k }
    ensures same { (p q : ℤ → Bool) (k : ℕ) (n : ℤ) →
        ((d : ℤ) → n ≤ℤ d → d <ℤ (n +ℤ pos k) → p d ≡ q d) →
        count_where p k n ≡ count_where q k n }
{}

/// A count of the days between two days that pass a test is the sum of the counts before and after any day between.
///
/// It equals the count over that many days in a row. Call it where code counts the days between two dates.
pub fn counts_between_days()
    ensures is_count_where { (p : ℤ → Bool) (n : ℤ) (k : ℕ) →
        count_between p n (n +ℤ pos k) ≡ count_where p k n }
    ensures empty { (p : ℤ → Bool) (a b : ℤ) → b ≤ℤ a → count_between p a b ≡ 0 }
    ensures sum { (p : ℤ → Bool) (a b c : ℤ) → a ≤ℤ b → b ≤ℤ c →
        count_between p a c ≡ count_between p a b + count_between p b c }
    ensures next { (p : ℤ → Bool) (a b : ℤ) → a ≤ℤ b →
        count_between p a (b +ℤ pos 1) ≡ count_between p a b + (if p b then 1 else 0) }
    ensures first { (p : ℤ → Bool) (a b : ℤ) → a <ℤ b →
        count_between p a b ≡ (if p a then 1 else 0) + count_between p (a +ℤ pos 1) b }
    ensures at_most { (p : ℤ → Bool) (a b : ℤ) → a ≤ℤ b → pos (count_between p a b) ≤ℤ (b -ℤ a) }
    ensures none { (p : ℤ → Bool) (a b : ℤ) →
        ((d : ℤ) → a ≤ℤ d → d <ℤ b → p d ≡ false) → count_between p a b ≡ 0 }
    ensures same { (p q : ℤ → Bool) (a b : ℤ) → ((d : ℤ) → a ≤ℤ d → d <ℤ b → p d ≡ q d) →
        count_between p a b ≡ count_between q a b }
{}

/// A test that is the same a week later passes equally often in each week. A test of weekdays is one, and passes as
/// often as its set has members. Call it where code counts whole weeks at once.
pub fn weekly_counts_come_again()
    ensures weeks { (p : ℤ → Bool) → IsWeekly p → (w r : ℕ) (n : ℤ) →
        count_where p (7 * w + r) n ≡ w * count_where p 7 n + count_where p r n }
    ensures any_week { (p : ℤ → Bool) → IsWeekly p → (n m : ℤ) →
        count_where p 7 m ≡ count_where p 7 n }
    ensures weekdays { (q : Weekday → Bool) → IsWeekly (λ d. q (weekday_of d)) }
    ensures row { (q : Weekday → Bool) (k : ℕ) (n : ℤ) →
        count_where (λ d. q (weekday_of d)) k n ≡ length (filter q (days_in_row k (weekday_of n))) }
    ensures members { (set : DaySet) (n : ℤ) → count_where (is_on set) 7 n ≡ length (walk set Mon) }
{}

/// `first_where` is the least date from a date on that passes a test. It is none exactly if no such date passes.
///
/// `date_on` is the same for the weekdays of a set. Call it to state a search over days in one word.
pub fn first_where_is_least()
    ensures found { (p : ℤ → Bool) (n e : ℤ) → IsDate n →
        (first_where p n ≡ Some e) ↔ (IsFirstWhere p n e × IsDate e) }
    ensures none { (p : ℤ → Bool) (n : ℤ) → IsDate n →
        (first_where p n ≡ None) ↔ NoneFrom p n }
    ensures past_last { (p : ℤ → Bool) → first_where p past_last_date ≡ None }
    ensures weekdays { (n : ℤ) (set : DaySet) → date_on n set ≡ first_where (is_on set) n }
{}

/// The dates before a date and those from it on are 191,491,529 in all. A step of one day, either way,
/// takes one date from those that lie ahead. Call it where a loop over dates must end.
pub fn dates_are_counted()
    ensures all { (n : ℤ) → IsDate n → dates_before n + dates_left n ≡ 191_491_529 }
    ensures on { (n : ℤ) → IsDate n → dates_left (n +ℤ pos 1) + 1 ≡ dates_left n }
    ensures back { (n : ℤ) → IsDate n → first_date <ℤ n →
        dates_before (n -ℤ pos 1) + 1 ≡ dates_before n }
{}

/// The calendar repeats after 146,097 days, which are 400 years and whole weeks. Call it where one such cycle shows
/// what a rule does in all of them.
pub fn calendar_comes_again()
    ensures year { (n : ℤ) → year_of (n +ℤ pos 146_097) ≡ year_of n +ℤ pos 400 }
    ensures month { (n : ℤ) → month_of (n +ℤ pos 146_097) ≡ month_of n }
    ensures day { (n : ℤ) → day_of (n +ℤ pos 146_097) ≡ day_of n }
    ensures ordinal { (n : ℤ) → ordinal_of (n +ℤ pos 146_097) ≡ ordinal_of n }
    ensures weekday { (n : ℤ) → weekday_of (n +ℤ pos 146_097) ≡ weekday_of n }
    ensures iso_year { (n : ℤ) → iso_year_of (n +ℤ pos 146_097) ≡ iso_year_of n +ℤ pos 400 }
    ensures iso_week { (n : ℤ) → iso_week_of (n +ℤ pos 146_097) ≡ iso_week_of n }
{}

/// The ISO week of a day is that of its Monday. Two days are in the same week of the same ISO year exactly if they have the
/// same Monday. Call it where code groups days by ISO week.
pub fn iso_weeks_begin_on_monday()
    ensures weekday { (n : ℤ) → weekday_of (week_first_of n Mon) ≡ Mon }
    ensures year { (n : ℤ) → iso_year_of (week_first_of n Mon) ≡ iso_year_of n }
    ensures week { (n : ℤ) → iso_week_of (week_first_of n Mon) ≡ iso_week_of n }
    ensures same { (n m : ℤ) → ((iso_year_of n ≡ iso_year_of m) × (iso_week_of n ≡ iso_week_of m))
        ↔ (week_first_of n Mon ≡ week_first_of m Mon) }
{}

/// From a day to a later one pass `k` whole years exactly if the `k`-th birthday has come and the next has not.
///
/// Birthday 0 is the day itself. A birthday is where a move by whole years ends; for 29 February it is 1 March in a
/// common year. Call it for an age, or for the day on which it grows.
pub fn whole_years_are_birthdays()
    ensures come { (n base : ℤ) (k : ℕ) → (years_between n base ≡ Some k)
        ↔ ((birthday base k ≤ℤ n) × (n <ℤ birthday base (k + 1))) }
    ensures before { (n base : ℤ) → (years_between n base ≡ None) ↔ (n <ℤ base) }
    ensures start { (base : ℤ) → birthday base 0 ≡ base }
    ensures moved { (base : ℤ) (k : ℕ) (e : ℤ) → date_every base (pos 12) k ≡ Some e →
        (IsLeapDay base → is_leap_year (year_of e) ≡ true) → birthday base k ≡ e }
    ensures first_of_march { (base : ℤ) (k : ℕ) (e : ℤ) →
        date_every base (pos 12) k ≡ Some e → IsLeapDay base → is_leap_year (year_of e) ≡ false →
        birthday base k ≡ e +ℤ pos 1 }
{}

/// Known days: 1 January 1970, the first and the last date, and 1 January of year 1, which is a Monday.
///
/// The contract also names 30 December 2024, the 365th day of its year and day 739,250.
pub fn known_days()
    ensures epoch { date_of_ymd (pos 1970) 1 1 ≡ Some (pos 719_163) }
    ensures first { date_of_ymd (neg_ℤ (pos 262_143)) 1 1 ≡ Some (neg_ℤ (pos 95_746_129)) }
    ensures last { date_of_yo (pos 262_142) 365 ≡ Some (pos 95_745_399) }
    ensures first_day { FIRST_DAY ≡ neg_ℤ (pos 95_746_129) }
    ensures last_day { LAST_DAY ≡ pos 95_745_399 }
    ensures past_last { date_of_day (pos 95_745_400) ≡ None }
    ensures monday { weekday_of (pos 1) ≡ Mon }
    ensures year { year_of (pos 739_250) ≡ pos 2024 }
    ensures month { month_of (pos 739_250) ≡ 12 }
    ensures day { day_of (pos 739_250) ≡ 30 }
    ensures ordinal { ordinal_of (pos 739_250) ≡ 365 }
{}

/// Known weeks: Monday, 30 December 2024 is in week 1 of 2025, and Sunday, 3 January 2021 is in week 53 of 2020. The
/// year 2021 has no week 53.
pub fn known_weeks()
    ensures year { iso_year_of (pos 739_250) ≡ pos 2025 }
    ensures week { iso_week_of (pos 739_250) ≡ 1 }
    ensures week_one { date_of_iso (pos 2025) 1 Mon ≡ Some (pos 739_250) }
    ensures week_53 { date_of_iso (pos 2020) 53 Sun ≡ Some (pos 737_793) }
    ensures no_week_53 { date_of_iso (pos 2021) 53 Mon ≡ None }
    ensures first { week_first_of (pos 737_793) Mon ≡ pos 737_787 }
{}

/// Known moves and differences, each day by its number.
///
/// One month takes 31 January to 28 February in the year 1, and to 29 February in the year 4. One month back takes 31
/// March to 28 February, and 31 January to 31 December. Twelve months take a leap day to 28 February. From 1 January of
/// the year 1 the last month is 3,145,703 months later. From 29 February of the year 4 to 28 February of the year 5 is
/// no whole year, and to the day after passes one. January of the year 1 has four Fridays, the third on the 19th and
/// the last on the 26th. Its last Monday is the fifth, on the 29th.
pub fn known_moves()
    ensures to_february { month_move (pos 31) (pos 1) ≡ Some (pos 59) }
    ensures to_leap_day { month_move (pos 1126) (pos 1) ≡ Some (pos 1155) }
    ensures back { month_move (pos 90) (neg_ℤ (pos 1)) ≡ Some (pos 59) }
    ensures to_december { month_move (pos 31) (neg_ℤ (pos 1)) ≡ Some (pos 0) }
    ensures twelve { month_move (pos 1155) (pos 12) ≡ Some (pos 1520) }
    ensures last_month { month_move (pos 1) (pos 3_145_703) ≡ date_of_ymd (pos 262_142) 12 1 }
    ensures no_month { month_move (pos 1) (pos 3_145_704) ≡ None }
    ensures no_whole_year { years_between (pos 1520) (pos 1155) ≡ Some 0 }
    ensures one_year { years_between (pos 1521) (pos 1155) ≡ Some 1 }
    ensures before { years_between (pos 1154) (pos 1155) ≡ None }
    ensures third_friday { date_of_nth_weekday (pos 1) 1 Fri 3 ≡ Some (pos 19) }
    ensures no_fifth_friday { date_of_nth_weekday (pos 1) 1 Fri 5 ≡ None }
    ensures last_friday { date_of_last_weekday (pos 1) 1 Fri ≡ Some (pos 26) }
    ensures last_monday { date_of_last_weekday (pos 1) 1 Mon ≡ Some (pos 29) }
{}

/// Known dates at intervals, each by its day number.
///
/// From 31 January of the year 4, steps of one month give 29 February and 31 March. From that leap day, steps of twelve
/// months give 28 February first, and the next leap day fourth. The last date is a Monday. It is the first Monday from
/// six days before it on, and from itself on. No Tuesday comes after it.
pub fn known_recurrences()
    ensures first { date_every (pos 1126) (pos 1) 0 ≡ Some (pos 1126) }
    ensures second { date_every (pos 1126) (pos 1) 1 ≡ Some (pos 1155) }
    ensures third { date_every (pos 1126) (pos 1) 2 ≡ Some (pos 1186) }
    ensures year_on { date_every (pos 1155) (pos 12) 1 ≡ Some (pos 1520) }
    ensures leap_day { date_every (pos 1155) (pos 12) 4 ≡ Some (pos 2616) }
    ensures monday { date_on (pos 95_745_393) (single Mon) ≡ Some (pos 95_745_399) }
    ensures itself { date_on (pos 95_745_399) (single Mon) ≡ Some (pos 95_745_399) }
    ensures no_tuesday { date_on (pos 95_745_399) (single Tue) ≡ None }
{}
