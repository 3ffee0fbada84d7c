//! Laws of open days, and known values of open days, rolls, day counts and holidays.
//!
//! Each is the contract of a function that does nothing. After a call of it the prover knows its clauses.
ghost use Rattle.std.specs.Prelude.{◌≡◌, ◌≢◌, ◌↔◌, ◌+◌, ◌<◌, ◌≤◌, ℕ, ℤ, true, false, pos, neg_ℤ, ◌+ℤ◌, ◌-ℤ◌, ◌*ℤ◌, ◌≤ℤ◌, ◌<ℤ◌, List, [], ◌∷◌, map, filter, take, drop, slice_index_or, int_lt, Some, None};
ghost use Rattle.chrono_datetime.specs.WeekdaySet.{DaySet, set_of};
ghost use Rattle.chrono_datetime.specs.Days.{IsDate, month_of, year_of};
ghost use Rattle.chrono_datetime.specs.MonthMoves.{InSameMonth};
ghost use Rattle.chrono_datetime.specs.Recurrence.{is_on};
ghost use Rattle.chrono_datetime.specs.Weeks.{date_of_last_weekday, weekday_of};
ghost use Rattle.chrono_datetime.specs.declared.Weekday.{Weekday};
ghost use Rattle.chrono_datetime.specs.declared.Weekday.TheVariants.{Fri, Mon, Sat, Sun, Thu, Tue, Wed};
ghost use Rattle.chrono_datetime.specs.declared.Month.TheVariants.{December, February, January, July, June, May, November};
ghost use Rattle.chrono_business.specs.Easter.{date_of_easter, easter_day};
ghost use Rattle.chrono_business.specs.HolidayRules.{date_of_rule, holiday_named, moved_by, rule_of};
ghost use Rattle.chrono_business.specs.declared.holiday_rule.HolidayDay.TheVariants.{AutumnalEquinox, EasterPlus, Fixed, LastWeekday, NthWeekday, VernalEquinox};
ghost use Rattle.chrono_business.specs.declared.holiday_rule.HolidayRule.{HolidayRule};
ghost use Rattle.chrono_business.specs.declared.holiday_rule.Moved.TheVariants.{Stays, SundayPlus, SundayToMonday, ToMonday, ToNearer, TwoDaysOn};
ghost use Rattle.chrono_business.specs.DayCounts.{days_30_360, days_30e_360, days_actual_actual};
ghost use Rattle.chrono_business.specs.Rolls.{IsLastOpen, IsNextOpen, MonthBeginsClosed, MonthEndsClosed, MonthIsClosed, RollsTo, sunday_and_monday};
ghost use Rattle.chrono_business.specs.WrongHolidays.{IsWrong};
ghost use Rattle.chrono_business.specs.OpenDayLists.{open_days_list};
ghost use Rattle.chrono_business.specs.HolidayLists.{AreHolidaysWith, AreTooMany, IsOfRules};
ghost use Rattle.chrono_business.specs.PublicHolidays.{england_and_wales_rules, fedwire_rules, france_rules, germany_rules, japan_rules, nyse_rules, target_rules, us_federal_rules};
ghost use Rattle.chrono_business.specs.declared.holiday_error.HolidayError.TheVariants.{NotRising, OnWeekend};
ghost use Rattle.chrono_business.specs.declared.holiday_error.HolidayError.{HolidayError};
ghost use Rattle.chrono_business.specs.declared.roll.Roll.{Roll};
ghost use Rattle.chrono_business.specs.declared.roll.Roll.TheVariants.{Following, ModifiedFollowing, ModifiedPreceding, NearestIsda, NearestQuantLib, Preceding, Unadjusted};
ghost use Rattle.chrono_business.specs.OpenDays.{AreHolidays, Closed, IsMovedByOpenDays, IsMovedFromNext, IsMovedFromPrevious, IsNthOpenBack, IsNthOpenFrom, closed, is_open, open_days, open_days_signed};

/// The `n`-th open day from an open day on has that day as its `n`-th one back, and the other way round.
pub fn open_days_come_back()
    ensures on { (c : Closed) (d e : ℤ) (n : ℕ) → is_open c d ≡ true → IsNthOpenFrom c d n e →
        IsNthOpenBack c e n d }
    ensures back { (c : Closed) (d e : ℤ) (n : ℕ) → is_open c d ≡ true → IsNthOpenBack c d n e →
        IsNthOpenFrom c e n d }
{}

/// There is at most one `n`-th open day from a day on. Up to any earlier day at most `n` days are open.
pub fn nth_open_days_are_least()
    ensures one { (c : Closed) (d e f : ℤ) (n : ℕ) → IsNthOpenFrom c d n e →
        IsNthOpenFrom c d n f → e ≡ f }
    ensures least { (c : Closed) (d e f : ℤ) (n : ℕ) → IsNthOpenFrom c d n e →
        d ≤ℤ f → f <ℤ e → open_days c d (f +ℤ pos 1) ≤ n }
{}

/// The counts of two stretches add up, whichever way each goes.
pub fn open_days_add_up()
    ensures { (c : Closed) (a b e : ℤ) →
        open_days_signed c a b +ℤ open_days_signed c b e ≡ open_days_signed c a e }
{}

/// How many open days lie between a day and where `add_open_days` moves it by `n`.
///
/// From an open day there are `n`, and also from any day if `n` is not positive.
/// From a closed day there are `n - 1` if `n` is positive, since the next open day counts as the first.
/// So a closed day moves by 1 to the next open day, and by -1 to the last one before it.
pub fn moved_open_days_are_counted()
    ensures open { (c : Closed) (d e n : ℤ) → is_open c d ≡ true → IsMovedByOpenDays c d n e →
        open_days_signed c d e ≡ n }
    ensures back { (c : Closed) (d e n : ℤ) → n ≤ℤ pos 0 → IsMovedByOpenDays c d n e →
        open_days_signed c d e ≡ n }
    ensures on { (c : Closed) (d e n : ℤ) → is_open c d ≡ false → pos 0 <ℤ n → IsMovedByOpenDays c d n e →
        open_days_signed c d e +ℤ pos 1 ≡ n }
    ensures first_on { (c : Closed) (d e : ℤ) → is_open c d ≡ false → IsNextOpen c d e →
        IsMovedByOpenDays c d (pos 1) e }
    ensures first_back { (c : Closed) (d e : ℤ) → is_open c d ≡ false → IsLastOpen c d e →
        IsMovedByOpenDays c d (neg_ℤ (pos 1)) e }
{}

/// Moving a day by `n` open days and then by `-n` returns to it exactly if the day is open.
pub fn moved_open_days_come_back()
    ensures { (c : Closed) (d e n m : ℤ) → n +ℤ m ≡ pos 0 → IsMovedByOpenDays c d n e →
        IsMovedByOpenDays c e m d ↔ (is_open c d ≡ true) }
{}

/// Moving an open day by `n` open days and then by `m` is moving it by `n + m`.
///
/// This holds of a closed day too if `n` and `n + m` are both positive, or if neither is.
pub fn moved_open_days_add_up()
    ensures open { (c : Closed) (d e f n m : ℤ) → is_open c d ≡ true → IsMovedByOpenDays c d n e →
        IsMovedByOpenDays c e m f → IsMovedByOpenDays c d (n +ℤ m) f }
    ensures on { (c : Closed) (d e f n m : ℤ) → pos 0 <ℤ n → pos 0 <ℤ (n +ℤ m) → IsMovedByOpenDays c d n e →
        IsMovedByOpenDays c e m f → IsMovedByOpenDays c d (n +ℤ m) f }
    ensures back { (c : Closed) (d e f n m : ℤ) → n ≤ℤ pos 0 → (n +ℤ m) ≤ℤ pos 0 → IsMovedByOpenDays c d n e →
        IsMovedByOpenDays c e m f → IsMovedByOpenDays c d (n +ℤ m) f }
{}

/// A day moves by `n` open days to one day at most. A later day never ends earlier.
pub fn moved_open_days_keep_order()
    ensures one { (c : Closed) (d e f n : ℤ) → IsMovedByOpenDays c d n e → IsMovedByOpenDays c d n f → e ≡ f }
    ensures order { (c : Closed) (d g e f n : ℤ) → d ≤ℤ g → IsMovedByOpenDays c d n e →
        IsMovedByOpenDays c g n f → e ≤ℤ f }
{}

/// Known moves by open days, of a calendar that is closed on Saturday and Sunday.
///
/// From Saturday, 2 March 2024, day 738,947, the first open day is Monday, 4 March, and the first one back is Friday.
/// By 0 it goes to Monday. From Friday, 1 March, by 1 and by 0 it goes to Monday and to Friday.
/// From the next open day, the Saturday moves by 1 to Tuesday and by -1 to Friday.
/// From the previous one it moves by 1 to Monday and by -1 to Thursday. By 0 it stays in neither way.
pub fn known_open_day_moves()
    ensures saturday { IsMovedByOpenDays (closed (set_of (Sat ∷ Sun ∷ [])) []) (pos 738_947) (pos 1) (pos 738_949) }
    ensures saturday_back { IsMovedByOpenDays (closed (set_of (Sat ∷ Sun ∷ [])) []) (pos 738_947) (neg_ℤ (pos 1))
        (pos 738_946) }
    ensures saturday_zero { IsMovedByOpenDays (closed (set_of (Sat ∷ Sun ∷ [])) []) (pos 738_947) (pos 0) (pos 738_949) }
    ensures friday { IsMovedByOpenDays (closed (set_of (Sat ∷ Sun ∷ [])) []) (pos 738_946) (pos 1) (pos 738_949) }
    ensures friday_zero { IsMovedByOpenDays (closed (set_of (Sat ∷ Sun ∷ [])) []) (pos 738_946) (pos 0) (pos 738_946) }
    ensures monday_back { IsMovedByOpenDays (closed (set_of (Sat ∷ Sun ∷ [])) []) (pos 738_949) (neg_ℤ (pos 1))
        (pos 738_946) }
    ensures not_tuesday { IsMovedByOpenDays (closed (set_of (Sat ∷ Sun ∷ [])) []) (pos 738_947) (pos 1)
        (pos 738_950) → ⊥ }
    ensures not_thursday { IsMovedByOpenDays (closed (set_of (Sat ∷ Sun ∷ [])) []) (pos 738_947) (neg_ℤ (pos 1))
        (pos 738_945) → ⊥ }
    ensures from_next { IsMovedFromNext (closed (set_of (Sat ∷ Sun ∷ [])) []) (pos 738_947) (pos 1) (pos 738_950) }
    ensures from_next_back { IsMovedFromNext (closed (set_of (Sat ∷ Sun ∷ [])) []) (pos 738_947) (neg_ℤ (pos 1))
        (pos 738_946) }
    ensures from_previous { IsMovedFromPrevious (closed (set_of (Sat ∷ Sun ∷ [])) []) (pos 738_947) (pos 1)
        (pos 738_949) }
    ensures from_previous_back { IsMovedFromPrevious (closed (set_of (Sat ∷ Sun ∷ [])) []) (pos 738_947)
        (neg_ℤ (pos 1)) (pos 738_945) }
    ensures from_next_not_saturday { IsMovedFromNext (closed (set_of (Sat ∷ Sun ∷ [])) []) (pos 738_947) (pos 0)
        (pos 738_947) → ⊥ }
    ensures from_previous_not_saturday { IsMovedFromPrevious (closed (set_of (Sat ∷ Sun ∷ [])) []) (pos 738_947)
        (pos 0) (pos 738_947) → ⊥ }
{}

/// Known open days of two calendars.
///
/// The first is closed on Saturday, Sunday and 1 January 2024, a Monday, which is day 738,886.
/// That day and Saturday, 6 January are closed, and Tuesday is open.
/// The week from that Monday has four open days. The second from Monday on, counted from 0, is Thursday.
/// From Sunday back the second is Wednesday.
/// The second calendar is closed on Friday and Saturday, and open on Sunday.
pub fn known_open_days()
    ensures new_year { is_open (closed (set_of (Sat ∷ Sun ∷ [])) (pos 738_886 ∷ []))
        (pos 738_886) ≡ false }
    ensures saturday { is_open (closed (set_of (Sat ∷ Sun ∷ [])) (pos 738_886 ∷ []))
        (pos 738_891) ≡ false }
    ensures tuesday { is_open (closed (set_of (Sat ∷ Sun ∷ [])) (pos 738_886 ∷ []))
        (pos 738_887) ≡ true }
    ensures sunday { is_open (closed (set_of (Fri ∷ Sat ∷ [])) (pos 738_886 ∷ []))
        (pos 738_892) ≡ true }
    ensures week { open_days (closed (set_of (Sat ∷ Sun ∷ [])) (pos 738_886 ∷ []))
        (pos 738_886) (pos 738_893) ≡ 4 }
    ensures back { open_days_signed (closed (set_of (Sat ∷ Sun ∷ [])) (pos 738_886 ∷ []))
        (pos 738_893) (pos 738_886) ≡ neg_ℤ (pos 4) }
    ensures list { open_days_list (closed (set_of (Sat ∷ Sun ∷ [])) (pos 738_886 ∷ [])) (pos 738_886) (pos 738_890)
        ≡ pos 738_887 ∷ pos 738_888 ∷ pos 738_889 ∷ [] }
    ensures no_list { open_days_list (closed (set_of (Sat ∷ Sun ∷ [])) []) (pos 738_890) (pos 738_886) ≡ [] }
    ensures second_from { IsNthOpenFrom (closed (set_of (Sat ∷ Sun ∷ [])) (pos 738_886 ∷ [])) (pos 738_886) 2
        (pos 738_889) }
    ensures second_back { IsNthOpenBack (closed (set_of (Sat ∷ Sun ∷ [])) (pos 738_886 ∷ [])) (pos 738_892) 2
        (pos 738_888) }
{}

/// Known day counts.
///
/// From 1 November 2003 to 1 May 2004 (days 731,520 and 731,702) there are 61 days in a common year.
/// 121 more are in a leap year. The whole year from 1 January 2024, day 738,886, counts as 1 by ACT/ACT.
/// From 28 February to 31 August 2007 (days 732,735 and 732,919) there are 184 days.
/// There are 183 by 30/360, which keeps the 31st, and 182 by 30E/360.
/// From 31 August 2006, day 732,554, to 28 February 2007 there are 178 by both.
/// From 29 January to 31 March 2024 (days 738,914 and 738,976) there are 62 by 30/360.
/// From 30 and from 31 January (days 738,915 and 738,916) there are 60.
pub fn known_day_counts()
    ensures actual { pos 732_919 -ℤ pos 732_735 ≡ pos 184 }
    ensures actual_actual { days_actual_actual (pos 731_520) (pos 731_702)
        ≡ pos 366 *ℤ pos 61 +ℤ pos 365 *ℤ pos 121 }
    ensures actual_actual_back { days_actual_actual (pos 731_702) (pos 731_520) ≡ neg_ℤ (pos 66_491) }
    ensures leap_year { days_actual_actual (pos 738_886) (pos 739_252) ≡ pos 133_590 }
    ensures bond { days_30_360 (pos 732_735) (pos 732_919) ≡ pos 183 }
    ensures eurobond { days_30e_360 (pos 732_735) (pos 732_919) ≡ pos 182 }
    ensures bond_to_february { days_30_360 (pos 732_554) (pos 732_735) ≡ pos 178 }
    ensures eurobond_to_february { days_30e_360 (pos 732_554) (pos 732_735) ≡ pos 178 }
    ensures bond_from_29th { days_30_360 (pos 738_914) (pos 738_976) ≡ pos 62 }
    ensures bond_from_30th { days_30_360 (pos 738_915) (pos 738_976) ≡ pos 60 }
    ensures bond_from_31st { days_30_360 (pos 738_916) (pos 738_976) ≡ pos 60 }
{}

/// Known rolls of a calendar that is closed on Saturday and Sunday.
///
/// Saturday, 30 March 2024, day 738,975, goes to Monday, 1 April, or within the month to Friday, 29 March.
/// Saturday, 1 June, day 739,038, goes to Friday, 31 May, or within the month to Monday, 3 June.
/// By both kinds of nearest the Saturday in March goes to Friday, and the Sunday after it to Monday.
/// If 1 January 2024, a Monday, is closed too, it goes to Tuesday by `NearestIsda`, though Friday is
/// before it. Sunday, 31 December 2023 goes to Tuesday by `NearestQuantLib`, which is as near as Friday, and later.
/// From Saturday, 30 March and up to Sunday, 2 June the month is closed. From Friday, 29 March and up to
/// Monday, 3 June it is not. With a weekend of seven days a whole month is closed.
/// If only Tuesday, 2 January is closed, it goes to Monday by `NearestIsda`, and to Wednesday by `NearestQuantLib`.
/// Within March, Saturday the 2nd (day 738,947) does not go back, nor Saturday the 9th (day 738,954) on, by the two modified rolls.
pub fn known_rolls()
    ensures unadjusted { RollsTo (closed (set_of (Sat ∷ Sun ∷ [])) []) Unadjusted (pos 738_975) (pos 738_975) }
    ensures following { RollsTo (closed (set_of (Sat ∷ Sun ∷ [])) []) Following (pos 738_975) (pos 738_977) }
    ensures preceding { RollsTo (closed (set_of (Sat ∷ Sun ∷ [])) []) Preceding (pos 739_038) (pos 739_037) }
    ensures modified_following { RollsTo (closed (set_of (Sat ∷ Sun ∷ [])) []) ModifiedFollowing
        (pos 738_975) (pos 738_974) }
    ensures not_into_april { RollsTo (closed (set_of (Sat ∷ Sun ∷ [])) []) ModifiedFollowing
        (pos 738_975) (pos 738_977) → ⊥ }
    ensures modified_preceding { RollsTo (closed (set_of (Sat ∷ Sun ∷ [])) []) ModifiedPreceding
        (pos 739_038) (pos 739_040) }
    ensures not_into_may { RollsTo (closed (set_of (Sat ∷ Sun ∷ [])) []) ModifiedPreceding
        (pos 739_038) (pos 739_037) → ⊥ }
    ensures nearest { RollsTo (closed (set_of (Sat ∷ Sun ∷ [])) []) NearestQuantLib (pos 738_975) (pos 738_974) }
    ensures nearest_sunday { RollsTo (closed (set_of (Sat ∷ Sun ∷ [])) []) NearestQuantLib (pos 738_976) (pos 738_977) }
    ensures nearest_later { RollsTo (closed (set_of (Sat ∷ Sun ∷ [])) (pos 738_886 ∷ [])) NearestQuantLib
        (pos 738_885) (pos 738_887) }
    ensures nearest_tuesday { RollsTo (closed (set_of (Sat ∷ Sun ∷ [])) (pos 738_887 ∷ [])) NearestQuantLib
        (pos 738_887) (pos 738_888) }
    ensures isda_saturday { RollsTo (closed (set_of (Sat ∷ Sun ∷ [])) []) NearestIsda (pos 738_975) (pos 738_974) }
    ensures isda_sunday { RollsTo (closed (set_of (Sat ∷ Sun ∷ [])) []) NearestIsda (pos 738_976) (pos 738_977) }
    ensures isda_monday { RollsTo (closed (set_of (Sat ∷ Sun ∷ [])) (pos 738_886 ∷ [])) NearestIsda
        (pos 738_886) (pos 738_887) }
    ensures isda_tuesday { RollsTo (closed (set_of (Sat ∷ Sun ∷ [])) (pos 738_887 ∷ [])) NearestIsda
        (pos 738_887) (pos 738_886) }
    ensures isda_wednesday { is_on sunday_and_monday (pos 738_888) ≡ false }
    ensures isda_thursday { is_on sunday_and_monday (pos 738_889) ≡ false }
    ensures isda_friday { is_on sunday_and_monday (pos 738_890) ≡ false }
    ensures following_open { RollsTo (closed (set_of (Sat ∷ Sun ∷ [])) []) Following (pos 738_977) (pos 738_977) }
    ensures preceding_open { RollsTo (closed (set_of (Sat ∷ Sun ∷ [])) []) Preceding (pos 739_037) (pos 739_037) }
    ensures following_not_tuesday { RollsTo (closed (set_of (Sat ∷ Sun ∷ [])) []) Following (pos 738_975)
        (pos 738_978) → ⊥ }
    ensures preceding_not_thursday { RollsTo (closed (set_of (Sat ∷ Sun ∷ [])) []) Preceding (pos 739_038)
        (pos 739_036) → ⊥ }
    ensures ends_closed { MonthEndsClosed (closed (set_of (Sat ∷ Sun ∷ [])) []) (pos 738_975) }
    ensures ends_open { MonthEndsClosed (closed (set_of (Sat ∷ Sun ∷ [])) []) (pos 738_974) → ⊥ }
    ensures begins_closed { MonthBeginsClosed (closed (set_of (Sat ∷ Sun ∷ [])) []) (pos 739_039) }
    ensures begins_open { MonthBeginsClosed (closed (set_of (Sat ∷ Sun ∷ [])) []) (pos 739_040) → ⊥ }
    ensures month_open { MonthIsClosed (closed (set_of (Sat ∷ Sun ∷ [])) []) (pos 738_975) → ⊥ }
    ensures month_closed { MonthIsClosed (closed (set_of (Mon ∷ Tue ∷ Wed ∷ Thu ∷ Fri ∷ Sat ∷ Sun ∷ [])) [])
        (pos 738_975) }
    ensures isda_not_back_on_sunday { RollsTo (closed (set_of (Sat ∷ Sun ∷ [])) []) NearestIsda
        (pos 738_976) (pos 738_974) → ⊥ }
    ensures isda_not_on_on_saturday { RollsTo (closed (set_of (Sat ∷ Sun ∷ [])) []) NearestIsda
        (pos 738_975) (pos 738_977) → ⊥ }
    ensures unadjusted_not_on { RollsTo (closed (set_of (Sat ∷ Sun ∷ [])) []) Unadjusted (pos 738_975)
        (pos 738_977) → ⊥ }
    ensures nearest_not_farther { RollsTo (closed (set_of (Sat ∷ Sun ∷ [])) []) NearestQuantLib
        (pos 738_975) (pos 738_977) → ⊥ }
    ensures nearest_not_earlier { RollsTo (closed (set_of (Sat ∷ Sun ∷ [])) (pos 738_886 ∷ [])) NearestQuantLib
        (pos 738_885) (pos 738_883) → ⊥ }
    ensures modified_following_not_back { RollsTo (closed (set_of (Sat ∷ Sun ∷ [])) []) ModifiedFollowing
        (pos 738_947) (pos 738_946) → ⊥ }
    ensures modified_preceding_not_on { RollsTo (closed (set_of (Sat ∷ Sun ∷ [])) []) ModifiedPreceding
        (pos 738_954) (pos 738_956) → ⊥ }
{}

/// Every roll but `Unadjusted` leads to an open day, and an open date stays.
///
/// A modified roll stays in the month, if any day of the month is open.
pub fn rolls_are_open()
    ensures open { (c : Closed) (roll : Roll) (d e : ℤ) → roll ≢ Unadjusted → RollsTo c roll d e →
        is_open c e ≡ true }
    ensures stays { (c : Closed) (roll : Roll) (d e : ℤ) → IsDate d → is_open c d ≡ true → RollsTo c roll d e →
        e ≡ d }
    ensures following_in_month { (c : Closed) (d e f : ℤ) → RollsTo c ModifiedFollowing d e →
        InSameMonth f d → is_open c f ≡ true → InSameMonth e d }
    ensures preceding_in_month { (c : Closed) (d e f : ℤ) → RollsTo c ModifiedPreceding d e →
        InSameMonth f d → is_open c f ≡ true → InSameMonth e d }
{}

/// A list of holidays has at most one error: the first wrong holiday, with one of its faults.
pub fn wrong_holidays_are_one()
    ensures { (weekend : DaySet) (xs : List ℤ) (e f : HolidayError) → IsWrong weekend xs e →
        IsWrong weekend xs f → e ≡ f }
{}

/// The last day of a month with a weekday is in the month and has the weekday. No later day of the month has it.
pub fn last_weekdays_are_last()
    ensures month { (y e : ℤ) (m : ℕ) (weekday : Weekday) → date_of_last_weekday y m weekday ≡ Some e →
        (year_of e ≡ y) × (month_of e ≡ m) }
    ensures weekday { (y e : ℤ) (m : ℕ) (weekday : Weekday) → date_of_last_weekday y m weekday ≡ Some e →
        weekday_of e ≡ weekday }
    ensures last { (y e f : ℤ) (m : ℕ) (weekday : Weekday) → date_of_last_weekday y m weekday ≡ Some e →
        InSameMonth f e → weekday_of f ≡ weekday → f ≤ℤ e }
{}

/// Rules for counting open days.
///
/// An open day counts one and a closed one none. The counts of two adjacent stretches add up.
/// More than `n` days are open up to the `n`-th open day, itself included. No earlier day has that property.
pub fn open_days_are_in_order()
    ensures open { (c : Closed) (a b : ℤ) → a ≤ℤ b → is_open c b ≡ true →
        open_days c a (b +ℤ pos 1) ≡ open_days c a b + 1 }
    ensures closed { (c : Closed) (a b : ℤ) → a ≤ℤ b → is_open c b ≡ false →
        open_days c a (b +ℤ pos 1) ≡ open_days c a b }
    ensures parts { (c : Closed) (a b e : ℤ) → a ≤ℤ b → b ≤ℤ e →
        open_days c a e ≡ open_days c a b + open_days c b e }
    ensures nth { (c : Closed) (d e : ℤ) (n : ℕ) → IsNthOpenFrom c d n e →
        (open_days c d (e +ℤ pos 1) ≡ n + 1) × ((f : ℤ) → d ≤ℤ f → n < open_days c d (f +ℤ pos 1) → e ≤ℤ f) }
{}

/// Known Easters.
///
/// Easter of 2024 is 31 March, day 738,976. The earliest and the latest are 22 March 1818 and 25 April 1943.
/// In 1954 and 1981 it is 18 and 19 April, since the last two epacts count a day earlier.
/// In 1974 it is 14 April, a week after a full moon on a Sunday.
/// In 1761, 2160 and 3902 it is 22 March, 23 March and 6 April, by the moons of their centuries.
/// Epact 25 counts a day earlier from the 12th year of the cycle on: in 3165 Easter is 18 April, and in 7515 25 April.
/// The library has no year 262,143.
pub fn known_easters()
    ensures in_2024 { easter_day (pos 2_024) ≡ pos 738_976 }
    ensures earliest { easter_day (pos 1_818) ≡ pos 663_726 }
    ensures latest { easter_day (pos 1_943) ≡ pos 709_415 }
    ensures in_1954 { easter_day (pos 1_954) ≡ pos 713_426 }
    ensures in_1981 { easter_day (pos 1_981) ≡ pos 723_289 }
    ensures full_moon_on_sunday { easter_day (pos 1_974) ≡ pos 720_727 }
    ensures in_1761 { easter_day (pos 1_761) ≡ pos 642_908 }
    ensures in_2160 { easter_day (pos 2_160) ≡ pos 788_641 }
    ensures in_3902 { easter_day (pos 3_902) ≡ pos 1_424_906 }
    ensures in_3165 { easter_day (pos 3_165) ≡ pos 1_155_735 }
    ensures in_7515 { easter_day (pos 7_515) ≡ pos 2_744_546 }
    ensures date { date_of_easter (pos 2_024) ≡ Some (pos 738_976) }
    ensures no_year { date_of_easter (pos 262_143) ≡ None }
{}

/// Known days of equinoxes in Japan.
///
/// In March they are 20 March 1980, 21 March 2055, 20 March of 2026, 2088 and 2099, and 19 March 2092.
/// In September they are 23 September of 1980, 2074 and 2099, and 22 September of 2012 and 2045.
/// The formula has no year 1979 and no year 2100.
pub fn known_equinoxes()
    ensures march_first { holiday_named VernalEquinox (pos 1_980) ≡ Some (pos 722_894) }
    ensures march_2026 { holiday_named VernalEquinox (pos 2_026) ≡ Some (pos 739_695) }
    ensures march_2055 { holiday_named VernalEquinox (pos 2_055) ≡ Some (pos 750_288) }
    ensures march_2088 { holiday_named VernalEquinox (pos 2_088) ≡ Some (pos 762_341) }
    ensures march_2092 { holiday_named VernalEquinox (pos 2_092) ≡ Some (pos 763_801) }
    ensures march_last { holiday_named VernalEquinox (pos 2_099) ≡ Some (pos 766_358) }
    ensures september_first { holiday_named AutumnalEquinox (pos 1_980) ≡ Some (pos 723_081) }
    ensures september_2012 { holiday_named AutumnalEquinox (pos 2_012) ≡ Some (pos 734_768) }
    ensures september_2045 { holiday_named AutumnalEquinox (pos 2_045) ≡ Some (pos 746_821) }
    ensures september_2074 { holiday_named AutumnalEquinox (pos 2_074) ≡ Some (pos 757_414) }
    ensures september_last { holiday_named AutumnalEquinox (pos 2_099) ≡ Some (pos 766_545) }
    ensures march_before { holiday_named VernalEquinox (pos 1_979) ≡ None }
    ensures march_behind { holiday_named VernalEquinox (pos 2_100) ≡ None }
    ensures september_before { holiday_named AutumnalEquinox (pos 1_979) ≡ None }
    ensures september_behind { holiday_named AutumnalEquinox (pos 2_100) ≡ None }
{}

/// Known days by which holidays of a weekend are moved.
///
/// Saturday and Sunday are 30 and 31 March 2024 (days 738,975 and 738,976). Friday and Monday stay (days 738,974 and 738,977).
pub fn known_moves_from_weekends()
    ensures saturday_stays { moved_by Stays (pos 738_975) ≡ pos 0 }
    ensures sunday_stays { moved_by Stays (pos 738_976) ≡ pos 0 }
    ensures saturday_unless_sunday { moved_by SundayToMonday (pos 738_975) ≡ pos 0 }
    ensures sunday_to_monday { moved_by SundayToMonday (pos 738_976) ≡ pos 1 }
    ensures saturday_to_monday { moved_by ToMonday (pos 738_975) ≡ pos 2 }
    ensures sunday_too { moved_by ToMonday (pos 738_976) ≡ pos 1 }
    ensures saturday_to_friday { moved_by ToNearer (pos 738_975) ≡ neg_ℤ (pos 1) }
    ensures sunday_to_nearer { moved_by ToNearer (pos 738_976) ≡ pos 1 }
    ensures saturday_two_days { moved_by TwoDaysOn (pos 738_975) ≡ pos 2 }
    ensures sunday_two_days { moved_by TwoDaysOn (pos 738_976) ≡ pos 2 }
    ensures saturday_unless_plus { moved_by (SundayPlus 3) (pos 738_975) ≡ pos 0 }
    ensures sunday_plus { moved_by (SundayPlus 3) (pos 738_976) ≡ pos 3 }
    ensures friday { moved_by ToNearer (pos 738_974) ≡ pos 0 }
    ensures monday { moved_by TwoDaysOn (pos 738_977) ≡ pos 0 }
{}

/// Known holidays by rules.
///
/// In the United States Juneteenth of 2022, a Sunday, is kept on Monday, 20 June, day 738,326.
/// In 2021, the first year of the law, it is on Saturday and kept on Friday, 18 June, day 737,959. Before it there is none.
/// The closing day of 31 December 1999, day 730,119, is of that year alone.
/// Independence Day of 2021, a Sunday, is kept on 5 July, day 737,976.
/// New Year's Day of 2022, a Saturday, is kept on 31 December 2021, day 738,155.
/// Thanksgiving of 2024 is 28 November, day 739,218, and Memorial Day is 27 May, day 739,033.
/// Good Friday of 2024 is 29 March, day 738,974. The first Monday in May of 2024 is the 6th, day 739,012.
/// In England Boxing Day of 2021, a Sunday, is kept on 28 December, day 738,152.
/// No rule gives a date for a fifth Monday in February 2023, nor for 29 February 2023.
pub fn known_holidays()
    ensures juneteenth { date_of_rule (rule_of (Fixed June 19) ToNearer (pos 2_021) (pos 262_142))
        (pos 2_022) ≡ Some (pos 738_326) }
    ensures first_year { date_of_rule (rule_of (Fixed June 19) ToNearer (pos 2_021) (pos 262_142))
        (pos 2_021) ≡ Some (pos 737_959) }
    ensures last_year { date_of_rule (rule_of (Fixed December 31) Stays (pos 1_999) (pos 1_999))
        (pos 1_999) ≡ Some (pos 730_119) }
    ensures after_the_last_year { date_of_rule (rule_of (Fixed December 31) Stays (pos 1_999) (pos 1_999))
        (pos 2_000) ≡ None }
    ensures before_the_law { date_of_rule (rule_of (Fixed June 19) ToNearer (pos 2_021) (pos 262_142))
        (pos 2_020) ≡ None }
    ensures independence_day { date_of_rule (rule_of (Fixed July 4) ToNearer (pos 1_971) (pos 262_142))
        (pos 2_021) ≡ Some (pos 737_976) }
    ensures new_year { date_of_rule (rule_of (Fixed January 1) ToNearer (pos 1_971) (pos 262_142))
        (pos 2_022) ≡ Some (pos 738_155) }
    ensures thanksgiving { date_of_rule (rule_of (NthWeekday 4 Thu November) Stays (pos 1_971) (pos 262_142))
        (pos 2_024) ≡ Some (pos 739_218) }
    ensures memorial_day { date_of_rule (rule_of (LastWeekday Mon May) Stays (pos 1_971) (pos 262_142))
        (pos 2_024) ≡ Some (pos 739_033) }
    ensures good_friday { date_of_rule (rule_of (EasterPlus (neg_ℤ (pos 2))) Stays (pos 1_978) (pos 262_142))
        (pos 2_024) ≡ Some (pos 738_974) }
    ensures early_may { date_of_rule (rule_of (NthWeekday 1 Mon May) Stays (pos 2_021) (pos 262_142))
        (pos 2_024) ≡ Some (pos 739_012) }
    ensures boxing_day { date_of_rule (rule_of (Fixed December 26) TwoDaysOn (pos 1_978) (pos 262_142))
        (pos 2_021) ≡ Some (pos 738_152) }
    ensures no_fifth_monday { date_of_rule (rule_of (NthWeekday 5 Mon February) Stays (pos 2_000) (pos 2_100))
        (pos 2_023) ≡ None }
    ensures no_leap_day { date_of_rule (rule_of (Fixed February 29) Stays (pos 2_000) (pos 2_100))
        (pos 2_023) ≡ None }
{}

/// Known wrong holidays, if Saturday and Sunday are closed.
///
/// Saturday, 6 January 2024 (day 738,891) is wrong, and so is a second Monday, 1 January (day 738,886).
/// A Saturday that is not later than the Monday before it is wrong as a day of the weekend.
/// A Monday and the Tuesday after it are right. The day after the last date is wrong too.
pub fn known_wrong_holidays()
    ensures saturday { IsWrong (set_of (Sat ∷ Sun ∷ [])) (pos 738_891 ∷ []) (OnWeekend 0) }
    ensures twice { IsWrong (set_of (Sat ∷ Sun ∷ [])) (pos 738_886 ∷ pos 738_886 ∷ []) (NotRising 1) }
    ensures both { IsWrong (set_of (Sat ∷ Sun ∷ [])) (pos 738_886 ∷ pos 738_884 ∷ []) (OnWeekend 1) }
    ensures not_both { IsWrong (set_of (Sat ∷ Sun ∷ [])) (pos 738_886 ∷ pos 738_884 ∷ []) (NotRising 1) → ⊥ }
    ensures tuesday { IsWrong (set_of (Sat ∷ Sun ∷ [])) (pos 738_886 ∷ pos 738_887 ∷ []) (NotRising 1) → ⊥ }
    ensures right { AreHolidays (set_of (Sat ∷ Sun ∷ [])) (pos 738_886 ∷ pos 738_887 ∷ []) }
    ensures not_twice { AreHolidays (set_of (Sat ∷ Sun ∷ [])) (pos 738_886 ∷ pos 738_886 ∷ []) → ⊥ }
    ensures not_on_saturday { AreHolidays (set_of (Sat ∷ Sun ∷ [])) (pos 738_891 ∷ []) → ⊥ }
    ensures not_past_the_last { AreHolidays (set_of (Sat ∷ Sun ∷ [])) (pos 95_745_400 ∷ []) → ⊥ }
{}

/// Known lists of holidays.
///
/// By a rule of 1 January of each year, day 738,886 is a holiday of the years 2024 to 2024, and not of 2025.
/// That one day is too many for no places, and not for one. The list of it adds it to the empty list.
/// The empty list lacks it, and a list with the day after it has too much, also beside it.
/// A list that had the day after it keeps that day. Saturday, 30 December 2023 (day 738,884) is added to no list.
pub fn known_holiday_lists()
    ensures of_year { IsOfRules (rule_of (Fixed January 1) Stays (pos 2_000) (pos 2_100) ∷ []) (pos 2_024) (pos 2_024)
        (pos 738_886) }
    ensures of_other_year { IsOfRules (rule_of (Fixed January 1) Stays (pos 2_000) (pos 2_100) ∷ []) (pos 2_025)
        (pos 2_025) (pos 738_886) → ⊥ }
    ensures too_many { AreTooMany (λ d. d ≡ pos 738_886) 0 }
    ensures not_too_many { AreTooMany (λ d. d ≡ pos 738_886) 1 → ⊥ }
    ensures added { AreHolidaysWith (set_of (Sat ∷ Sun ∷ [])) [] (λ d. d ≡ pos 738_886) (pos 738_886 ∷ []) }
    ensures lacking { AreHolidaysWith (set_of (Sat ∷ Sun ∷ [])) [] (λ d. d ≡ pos 738_886) [] → ⊥ }
    ensures other { AreHolidaysWith (set_of (Sat ∷ Sun ∷ [])) [] (λ d. d ≡ pos 738_886) (pos 738_887 ∷ []) → ⊥ }
    ensures more { AreHolidaysWith (set_of (Sat ∷ Sun ∷ [])) [] (λ d. d ≡ pos 738_886) (pos 738_886 ∷ pos 738_887 ∷ []) → ⊥ }
    ensures dropped { AreHolidaysWith (set_of (Sat ∷ Sun ∷ [])) (pos 738_887 ∷ []) (λ d. d ≡ pos 738_886) (pos 738_886 ∷ []) → ⊥ }
    ensures saturday { AreHolidaysWith (set_of (Sat ∷ Sun ∷ [])) [] (λ d. d ≡ pos 738_884) [] }
{}

/// Known holidays of the given calendars: what each rule names, in its order.
///
/// TARGET, the federal holidays and those of France are of 2024. England and Wales are of 2022, and Germany of 2017.
/// Fedwire and the New York Stock Exchange are of 2022 up to May, and of 2027 from June on. Japan is of 2026.
/// The last Mondays of May and August are left out, but for the rule of Memorial Day.
pub fn known_given_calendars()
    ensures target { map (λ r. date_of_rule r (pos 2_024)) target_rules ≡
        Some (pos 738_886) ∷ Some (pos 739_245) ∷ Some (pos 738_974) ∷ Some (pos 738_977) ∷
        Some (pos 739_007) ∷ Some (pos 739_246) ∷ None ∷ None ∷ [] }
    ensures us_federal { map (λ r. date_of_rule r (pos 2_024)) (take 3 us_federal_rules) ≡
        Some (pos 738_886) ∷ Some (pos 738_900) ∷ Some (pos 738_935) ∷ [] }
    ensures memorial_day { (r : HolidayRule) → slice_index_or us_federal_rules 3 r ≡
        rule_of (LastWeekday Mon May) Stays (pos 1_971) (pos 262_142) }
    ensures us_federal_from_june { map (λ r. date_of_rule r (pos 2_024)) (drop 4 us_federal_rules) ≡
        Some (pos 739_056) ∷ Some (pos 739_071) ∷ Some (pos 739_131) ∷ Some (pos 739_173) ∷ None ∷
        Some (pos 739_201) ∷ Some (pos 739_218) ∷ Some (pos 739_245) ∷ [] }
    ensures england_and_wales { map (λ r. date_of_rule r (pos 2_022)) (take 18 england_and_wales_rules) ≡
        Some (pos 738_158) ∷ Some (pos 738_260) ∷ Some (pos 738_263) ∷ None ∷ None ∷ None ∷ None ∷
        Some (pos 738_277) ∷ None ∷ None ∷ None ∷ None ∷ None ∷ None ∷ None ∷ Some (pos 738_308) ∷
        Some (pos 738_309) ∷ None ∷ [] }
    ensures england_and_wales_from_christmas { map (λ r. date_of_rule r (pos 2_022)) (drop 19 england_and_wales_rules) ≡
        Some (pos 738_516) ∷ Some (pos 738_515) ∷ None ∷ None ∷ None ∷ Some (pos 738_417) ∷ None ∷ [] }
    ensures fedwire { map (λ r. date_of_rule r (pos 2_022)) (take 3 fedwire_rules) ≡
        Some (pos 738_156) ∷ Some (pos 738_172) ∷ Some (pos 738_207) ∷ [] }
    ensures fedwire_from_june { map (λ r. date_of_rule r (pos 2_027)) (drop 4 fedwire_rules) ≡
        Some (pos 740_151) ∷ Some (pos 740_167) ∷ Some (pos 740_230) ∷ Some (pos 740_265) ∷ None ∷ Some (pos 740_296) ∷ Some (pos 740_310) ∷ Some (pos 740_340) ∷ [] }
    ensures nyse { map (λ r. date_of_rule r (pos 2_022)) (take 4 nyse_rules) ≡
        Some (pos 738_156) ∷ Some (pos 738_172) ∷ Some (pos 738_207) ∷ Some (pos 738_260) ∷ [] }
    ensures nyse_from_june { map (λ r. date_of_rule r (pos 2_027)) (take 5 (drop 5 nyse_rules)) ≡
        Some (pos 740_150) ∷ Some (pos 740_167) ∷ Some (pos 740_230) ∷ Some (pos 740_310) ∷ Some (pos 740_339) ∷ [] }
    ensures germany { map (λ r. date_of_rule r (pos 2_017)) germany_rules ≡
        Some (pos 736_330) ∷ Some (pos 736_433) ∷ Some (pos 736_436) ∷ Some (pos 736_450) ∷ Some (pos 736_474) ∷ Some (pos 736_485) ∷ Some (pos 736_605) ∷ Some (pos 736_688) ∷ Some (pos 736_689) ∷ Some (pos 736_633) ∷ [] }
    ensures france { map (λ r. date_of_rule r (pos 2_024)) france_rules ≡
        Some (pos 738_886) ∷ Some (pos 738_977) ∷ Some (pos 739_007) ∷ Some (pos 739_014) ∷ Some (pos 739_015) ∷ Some (pos 739_026) ∷ Some (pos 739_081) ∷ Some (pos 739_113) ∷ Some (pos 739_191) ∷ Some (pos 739_201) ∷ Some (pos 739_245) ∷ [] }
    ensures japan { map (λ r. date_of_rule r (pos 2_026)) japan_rules ≡
        Some (pos 739_617) ∷ Some (pos 739_618) ∷ Some (pos 739_619) ∷ Some (pos 739_628) ∷ Some (pos 739_658) ∷ Some (pos 739_670) ∷ Some (pos 739_695) ∷ Some (pos 739_735) ∷ Some (pos 739_742) ∷ Some (pos 739_740) ∷ Some (pos 739_741) ∷ None ∷ None ∷ None ∷ Some (pos 739_817) ∷ None ∷ None ∷ None ∷ Some (pos 739_839) ∷ Some (pos 739_880) ∷ Some (pos 739_882) ∷ None ∷ None ∷ None ∷ Some (pos 739_901) ∷ Some (pos 739_923) ∷ Some (pos 739_943) ∷ None ∷ Some (pos 739_981) ∷ None ∷ None ∷ None ∷ None ∷ None ∷ None ∷ Some (pos 739_881) ∷ None ∷ None ∷ None ∷ None ∷ None ∷ None ∷ None ∷ None ∷ None ∷ None ∷ None ∷ [] }
{}

/// Known days on which banks in Japan are closed, where a holiday is named on a Sunday or a Saturday: what each rule names, in its order.
///
/// 4 May 2008 is a Sunday, and kept on 6 May (day 733,168). 3 November 2030 is one too, and kept on the 4th (day 741,385).
/// 23 February 2030 is a Saturday, and stays (day 741,131). No rule can move in another way and have these days.
pub fn known_weekends_of_japan()
    ensures in_2008 { map (λ r. date_of_rule r (pos 2_008)) japan_rules ≡
        Some (pos 733_042) ∷ Some (pos 733_043) ∷ Some (pos 733_044) ∷ Some (pos 733_055) ∷ Some (pos 733_083) ∷ None ∷ Some (pos 733_121) ∷ Some (pos 733_161) ∷ Some (pos 733_165) ∷ Some (pos 733_168) ∷ Some (pos 733_167) ∷ Some (pos 733_244) ∷ None ∷ None ∷ None ∷ None ∷ None ∷ None ∷ None ∷ Some (pos 733_300) ∷ Some (pos 733_308) ∷ Some (pos 733_328) ∷ None ∷ None ∷ None ∷ Some (pos 733_349) ∷ Some (pos 733_370) ∷ Some (pos 733_399) ∷ Some (pos 733_407) ∷ None ∷ None ∷ None ∷ None ∷ None ∷ None ∷ None ∷ None ∷ None ∷ None ∷ None ∷ None ∷ None ∷ None ∷ None ∷ None ∷ None ∷ None ∷ [] }
    ensures in_2017 { map (λ r. date_of_rule r (pos 2_017)) japan_rules ≡
        Some (pos 736_331) ∷ Some (pos 736_331) ∷ Some (pos 736_332) ∷ Some (pos 736_338) ∷ Some (pos 736_371) ∷ None ∷ Some (pos 736_408) ∷ Some (pos 736_448) ∷ Some (pos 736_452) ∷ Some (pos 736_453) ∷ Some (pos 736_454) ∷ Some (pos 736_527) ∷ None ∷ None ∷ None ∷ Some (pos 736_552) ∷ None ∷ None ∷ None ∷ Some (pos 736_590) ∷ Some (pos 736_595) ∷ Some (pos 736_611) ∷ None ∷ None ∷ None ∷ Some (pos 736_636) ∷ Some (pos 736_656) ∷ Some (pos 736_686) ∷ Some (pos 736_694) ∷ None ∷ None ∷ None ∷ None ∷ None ∷ None ∷ None ∷ None ∷ None ∷ None ∷ None ∷ None ∷ None ∷ None ∷ None ∷ None ∷ None ∷ None ∷ [] }
    ensures in_2018 { map (λ r. date_of_rule r (pos 2_018)) japan_rules ≡
        Some (pos 736_695) ∷ Some (pos 736_696) ∷ Some (pos 736_697) ∷ Some (pos 736_702) ∷ Some (pos 736_737) ∷ None ∷ Some (pos 736_774) ∷ Some (pos 736_814) ∷ Some (pos 736_817) ∷ Some (pos 736_818) ∷ Some (pos 736_819) ∷ Some (pos 736_891) ∷ None ∷ None ∷ None ∷ Some (pos 736_917) ∷ None ∷ None ∷ None ∷ Some (pos 736_954) ∷ Some (pos 736_961) ∷ Some (pos 736_975) ∷ None ∷ None ∷ None ∷ Some (pos 737_001) ∷ Some (pos 737_021) ∷ Some (pos 737_052) ∷ Some (pos 737_059) ∷ None ∷ None ∷ None ∷ None ∷ None ∷ None ∷ None ∷ None ∷ None ∷ None ∷ None ∷ None ∷ None ∷ None ∷ None ∷ None ∷ None ∷ None ∷ [] }
    ensures in_2021 { map (λ r. date_of_rule r (pos 2_021)) japan_rules ≡
        Some (pos 737_791) ∷ Some (pos 737_792) ∷ Some (pos 737_793) ∷ Some (pos 737_801) ∷ Some (pos 737_832) ∷ Some (pos 737_844) ∷ Some (pos 737_869) ∷ Some (pos 737_909) ∷ Some (pos 737_913) ∷ Some (pos 737_914) ∷ Some (pos 737_915) ∷ None ∷ None ∷ Some (pos 737_993) ∷ None ∷ None ∷ None ∷ Some (pos 738_011) ∷ None ∷ Some (pos 738_053) ∷ Some (pos 738_056) ∷ None ∷ None ∷ Some (pos 737_994) ∷ None ∷ Some (pos 738_097) ∷ Some (pos 738_117) ∷ None ∷ Some (pos 738_155) ∷ None ∷ None ∷ None ∷ None ∷ None ∷ None ∷ None ∷ None ∷ None ∷ None ∷ None ∷ None ∷ None ∷ None ∷ None ∷ None ∷ None ∷ None ∷ [] }
    ensures in_2029 { map (λ r. date_of_rule r (pos 2_029)) japan_rules ≡
        Some (pos 740_713) ∷ Some (pos 740_714) ∷ Some (pos 740_715) ∷ Some (pos 740_720) ∷ Some (pos 740_755) ∷ Some (pos 740_766) ∷ Some (pos 740_791) ∷ Some (pos 740_832) ∷ Some (pos 740_835) ∷ Some (pos 740_836) ∷ Some (pos 740_837) ∷ None ∷ None ∷ None ∷ Some (pos 740_909) ∷ None ∷ None ∷ None ∷ Some (pos 740_935) ∷ Some (pos 740_972) ∷ Some (pos 740_979) ∷ None ∷ None ∷ None ∷ Some (pos 740_993) ∷ Some (pos 741_019) ∷ Some (pos 741_039) ∷ None ∷ Some (pos 741_077) ∷ None ∷ None ∷ None ∷ None ∷ None ∷ None ∷ None ∷ None ∷ None ∷ None ∷ None ∷ None ∷ None ∷ None ∷ None ∷ None ∷ None ∷ None ∷ [] }
    ensures in_2030 { map (λ r. date_of_rule r (pos 2_030)) japan_rules ≡
        Some (pos 741_078) ∷ Some (pos 741_079) ∷ Some (pos 741_080) ∷ Some (pos 741_091) ∷ Some (pos 741_119) ∷ Some (pos 741_131) ∷ Some (pos 741_156) ∷ Some (pos 741_196) ∷ Some (pos 741_200) ∷ Some (pos 741_201) ∷ Some (pos 741_203) ∷ None ∷ None ∷ None ∷ Some (pos 741_273) ∷ None ∷ None ∷ None ∷ Some (pos 741_301) ∷ Some (pos 741_336) ∷ Some (pos 741_343) ∷ None ∷ None ∷ None ∷ Some (pos 741_364) ∷ Some (pos 741_385) ∷ Some (pos 741_404) ∷ None ∷ Some (pos 741_442) ∷ None ∷ None ∷ None ∷ None ∷ None ∷ None ∷ None ∷ None ∷ None ∷ None ∷ None ∷ None ∷ None ∷ None ∷ None ∷ None ∷ None ∷ None ∷ [] }
    ensures in_2033 { map (λ r. date_of_rule r (pos 2_033)) japan_rules ≡
        Some (pos 742_174) ∷ Some (pos 742_175) ∷ Some (pos 742_176) ∷ Some (pos 742_183) ∷ Some (pos 742_215) ∷ Some (pos 742_227) ∷ Some (pos 742_253) ∷ Some (pos 742_292) ∷ Some (pos 742_296) ∷ Some (pos 742_297) ∷ Some (pos 742_298) ∷ None ∷ None ∷ None ∷ Some (pos 742_372) ∷ None ∷ None ∷ None ∷ Some (pos 742_396) ∷ Some (pos 742_435) ∷ Some (pos 742_439) ∷ None ∷ None ∷ None ∷ Some (pos 742_456) ∷ Some (pos 742_480) ∷ Some (pos 742_500) ∷ None ∷ Some (pos 742_538) ∷ None ∷ None ∷ None ∷ None ∷ None ∷ None ∷ None ∷ None ∷ None ∷ None ∷ None ∷ None ∷ None ∷ None ∷ None ∷ None ∷ None ∷ None ∷ [] }
{}

/// Known holidays of the given calendars: what each rule names in its first year, or in its last one.
///
/// The last Mondays of May and August are those of `known_last_mondays`.
pub fn known_first_and_last_years()
    ensures target_first { map (λ r. date_of_rule r r.first_year) target_rules ≡
        Some (pos 729_755) ∷ Some (pos 730_113) ∷ Some (pos 730_231) ∷ Some (pos 730_234) ∷ Some (pos 730_241) ∷ Some (pos 730_480) ∷ Some (pos 730_119) ∷ Some (pos 730_850) ∷ [] }
    ensures us_federal_first { map (λ r. date_of_rule r r.first_year) (take 3 us_federal_rules) ≡
        Some (pos 719_528) ∷ Some (pos 725_026) ∷ Some (pos 719_573) ∷ [] }
    ensures us_federal_first_from_june { map (λ r. date_of_rule r r.first_year) (drop 4 us_federal_rules) ≡
        Some (pos 737_959) ∷ Some (pos 719_713) ∷ Some (pos 719_776) ∷ Some (pos 719_811) ∷ Some (pos 719_825) ∷ Some (pos 722_398) ∷ Some (pos 719_856) ∷ Some (pos 719_885) ∷ [] }
    ensures us_federal_last { map (λ r. date_of_rule r r.last_year) (take 1 (drop 8 us_federal_rules)) ≡
        Some (pos 722_016) ∷ [] }
    ensures england_and_wales_first { map (λ r. date_of_rule r r.first_year) (take 8 england_and_wales_rules) ≡
        Some (pos 722_086) ∷ Some (pos 722_167) ∷ Some (pos 722_170) ∷ Some (pos 722_205) ∷ Some (pos 728_421) ∷ Some (pos 728_785) ∷ Some (pos 737_553) ∷ Some (pos 737_913) ∷ [] }
    ensures england_and_wales_may_last { map (λ r. date_of_rule r r.last_year) (take 4 (drop 3 england_and_wales_rules)) ≡
        Some (pos 728_050) ∷ Some (pos 728_421) ∷ Some (pos 737_185) ∷ Some (pos 737_553) ∷ [] }
    ensures england_and_wales_2002 { map (λ r. date_of_rule r r.first_year) (take 2 (drop 9 england_and_wales_rules)) ≡
        Some (pos 731_004) ∷ Some (pos 731_005) ∷ [] }
    ensures england_and_wales_2012 { map (λ r. date_of_rule r r.first_year) (take 2 (drop 12 england_and_wales_rules)) ≡
        Some (pos 734_658) ∷ Some (pos 734_659) ∷ [] }
    ensures england_and_wales_2022 { map (λ r. date_of_rule r r.first_year) (take 2 (drop 15 england_and_wales_rules)) ≡
        Some (pos 738_308) ∷ Some (pos 738_309) ∷ [] }
    ensures england_and_wales_first_from_christmas { map (λ r. date_of_rule r r.first_year) (drop 19 england_and_wales_rules) ≡
        Some (pos 722_443) ∷ Some (pos 722_444) ∷ Some (pos 723_390) ∷ Some (pos 730_119) ∷ Some (pos 734_256) ∷ Some (pos 738_417) ∷ Some (pos 738_648) ∷ [] }
    ensures england_and_wales_last { map (λ r. date_of_rule r r.last_year) (drop 21 england_and_wales_rules) ≡
        Some (pos 723_390) ∷ Some (pos 730_119) ∷ Some (pos 734_256) ∷ Some (pos 738_417) ∷ Some (pos 738_648) ∷ [] }
    ensures fedwire_first { map (λ r. date_of_rule r r.first_year) (take 3 fedwire_rules) ≡
        Some (pos 719_528) ∷ Some (pos 725_026) ∷ Some (pos 719_573) ∷ [] }
    ensures fedwire_first_from_june { map (λ r. date_of_rule r r.first_year) (drop 4 fedwire_rules) ≡
        Some (pos 738_326) ∷ Some (pos 719_713) ∷ Some (pos 719_776) ∷ Some (pos 719_811) ∷ Some (pos 719_825) ∷ Some (pos 722_399) ∷ Some (pos 719_856) ∷ Some (pos 719_886) ∷ [] }
    ensures fedwire_last { map (λ r. date_of_rule r r.last_year) (take 1 (drop 8 fedwire_rules)) ≡
        Some (pos 722_016) ∷ [] }
    ensures nyse_first { map (λ r. date_of_rule r r.first_year) (take 4 nyse_rules) ≡
        Some (pos 729_390) ∷ Some (pos 729_408) ∷ Some (pos 729_436) ∷ Some (pos 729_489) ∷ [] }
    ensures nyse_first_from_june { map (λ r. date_of_rule r r.first_year) (drop 5 nyse_rules) ≡
        Some (pos 738_326) ∷ Some (pos 729_573) ∷ Some (pos 729_639) ∷ Some (pos 729_719) ∷ Some (pos 729_748) ∷ Some (pos 730_739) ∷ Some (pos 730_740) ∷ Some (pos 730_741) ∷ Some (pos 730_742) ∷ Some (pos 731_743) ∷ Some (pos 732_678) ∷ Some (pos 734_805) ∷ Some (pos 734_806) ∷ Some (pos 737_033) ∷ Some (pos 739_260) ∷ [] }
    ensures nyse_last { map (λ r. date_of_rule r r.last_year) (drop 10 nyse_rules) ≡
        Some (pos 730_739) ∷ Some (pos 730_740) ∷ Some (pos 730_741) ∷ Some (pos 730_742) ∷ Some (pos 731_743) ∷ Some (pos 732_678) ∷ Some (pos 734_805) ∷ Some (pos 734_806) ∷ Some (pos 737_033) ∷ Some (pos 739_260) ∷ [] }
    ensures germany_first { map (λ r. date_of_rule r r.first_year) germany_rules ≡
        Some (pos 728_294) ∷ Some (pos 728_397) ∷ Some (pos 728_400) ∷ Some (pos 728_414) ∷ Some (pos 728_438) ∷ Some (pos 728_449) ∷ Some (pos 728_569) ∷ Some (pos 728_652) ∷ Some (pos 728_653) ∷ Some (pos 736_633) ∷ [] }
    ensures germany_last { map (λ r. date_of_rule r r.last_year) (drop 9 germany_rules) ≡
        Some (pos 736_633) ∷ [] }
    ensures france_first { map (λ r. date_of_rule r r.first_year) france_rules ≡
        Some (pos 723_546) ∷ Some (pos 723_647) ∷ Some (pos 723_666) ∷ Some (pos 723_673) ∷ Some (pos 723_685) ∷ Some (pos 723_696) ∷ Some (pos 723_740) ∷ Some (pos 723_772) ∷ Some (pos 723_850) ∷ Some (pos 723_860) ∷ Some (pos 723_904) ∷ [] }
    ensures japan_first { map (λ r. date_of_rule r r.first_year) japan_rules ≡
        Some (pos 732_677) ∷ Some (pos 732_678) ∷ Some (pos 732_679) ∷ Some (pos 732_684) ∷ Some (pos 732_719) ∷ Some (pos 737_479) ∷ Some (pos 732_756) ∷ Some (pos 732_796) ∷ Some (pos 732_799) ∷ Some (pos 732_800) ∷ Some (pos 732_801) ∷ Some (pos 732_873) ∷ Some (pos 737_629) ∷ Some (pos 737_993) ∷ Some (pos 738_354) ∷ Some (pos 736_187) ∷ Some (pos 737_647) ∷ Some (pos 738_011) ∷ Some (pos 738_378) ∷ Some (pos 732_936) ∷ Some (pos 732_943) ∷ Some (pos 732_957) ∷ Some (pos 737_630) ∷ Some (pos 737_994) ∷ Some (pos 738_438) ∷ Some (pos 732_983) ∷ Some (pos 733_003) ∷ Some (pos 733_034) ∷ Some (pos 733_041) ∷ Some (pos 737_179) ∷ Some (pos 737_180) ∷ Some (pos 737_181) ∷ Some (pos 737_354) ∷ Some (pos 733_672) ∷ Some (pos 735_863) ∷ Some (pos 739_881) ∷ Some (pos 742_072) ∷ Some (pos 743_899) ∷ Some (pos 746_090) ∷ Some (pos 748_281) ∷ Some (pos 750_108) ∷ Some (pos 752_299) ∷ Some (pos 756_317) ∷ Some (pos 758_508) ∷ Some (pos 762_526) ∷ Some (pos 764_717) ∷ Some (pos 766_544) ∷ [] }
    ensures japan_last { map (λ r. date_of_rule r r.last_year) (filter (λ r. int_lt r.last_year (pos 262_142)) japan_rules) ≡
        Some (pos 766_358) ∷ Some (pos 737_255) ∷ Some (pos 737_629) ∷ Some (pos 737_993) ∷ Some (pos 737_283) ∷ Some (pos 737_647) ∷ Some (pos 738_011) ∷ Some (pos 766_545) ∷ Some (pos 737_346) ∷ Some (pos 737_630) ∷ Some (pos 737_994) ∷ Some (pos 737_052) ∷ Some (pos 737_179) ∷ Some (pos 737_180) ∷ Some (pos 737_181) ∷ Some (pos 737_354) ∷ Some (pos 733_672) ∷ Some (pos 735_863) ∷ Some (pos 739_881) ∷ Some (pos 742_072) ∷ Some (pos 743_899) ∷ Some (pos 746_090) ∷ Some (pos 748_281) ∷ Some (pos 750_108) ∷ Some (pos 752_299) ∷ Some (pos 756_317) ∷ Some (pos 758_508) ∷ Some (pos 762_526) ∷ Some (pos 764_717) ∷ Some (pos 766_544) ∷ [] }
{}

/// Known last Mondays of May and August in the given calendars, in the first year of each rule and in its last one.
pub fn known_last_mondays()
    ensures memorial_day { (r : HolidayRule) → date_of_rule (slice_index_or us_federal_rules 3 r) (pos 1_971) ≡ Some (pos 719_678) }
    ensures spring_of_1978 { (r : HolidayRule) → date_of_rule (slice_index_or england_and_wales_rules 8 r) (pos 1_978) ≡ Some (pos 722_233) }
    ensures spring_of_2001 { (r : HolidayRule) → date_of_rule (slice_index_or england_and_wales_rules 8 r) (pos 2_001) ≡ Some (pos 730_633) }
    ensures spring_of_2003 { (r : HolidayRule) → date_of_rule (slice_index_or england_and_wales_rules 11 r) (pos 2_003) ≡ Some (pos 731_361) }
    ensures spring_of_2011 { (r : HolidayRule) → date_of_rule (slice_index_or england_and_wales_rules 11 r) (pos 2_011) ≡ Some (pos 734_287) }
    ensures spring_of_2013 { (r : HolidayRule) → date_of_rule (slice_index_or england_and_wales_rules 14 r) (pos 2_013) ≡ Some (pos 735_015) }
    ensures spring_of_2021 { (r : HolidayRule) → date_of_rule (slice_index_or england_and_wales_rules 14 r) (pos 2_021) ≡ Some (pos 737_941) }
    ensures spring_of_2023 { (r : HolidayRule) → date_of_rule (slice_index_or england_and_wales_rules 17 r) (pos 2_023) ≡ Some (pos 738_669) }
    ensures summer_of_1978 { (r : HolidayRule) → date_of_rule (slice_index_or england_and_wales_rules 18 r) (pos 1_978) ≡ Some (pos 722_324) }
    ensures memorial_day_of_fedwire { (r : HolidayRule) → date_of_rule (slice_index_or fedwire_rules 3 r) (pos 1_971) ≡ Some (pos 719_678) }
    ensures memorial_day_of_nyse { (r : HolidayRule) → date_of_rule (slice_index_or nyse_rules 4 r) (pos 1_998) ≡ Some (pos 729_534) }
{}

/// Known first years of the given calendars: a rule holds from this year on, and none before it.
pub fn known_first_years()
    ensures us_federal { map (λ r. r.first_year) (take 1 (filter (λ r. int_lt r.first_year (pos 1_972)) us_federal_rules)) ≡ pos 1_971 ∷ [] }
    ensures us_federal_none { filter (λ r. int_lt r.first_year (pos 1_971)) us_federal_rules ≡ [] }
    ensures target { map (λ r. r.first_year) (take 1 (filter (λ r. int_lt r.first_year (pos 2_000)) target_rules)) ≡ pos 1_999 ∷ [] }
    ensures target_none { filter (λ r. int_lt r.first_year (pos 1_999)) target_rules ≡ [] }
    ensures england_and_wales { map (λ r. r.first_year) (take 1 (filter (λ r. int_lt r.first_year (pos 1_979)) england_and_wales_rules)) ≡ pos 1_978 ∷ [] }
    ensures england_and_wales_none { filter (λ r. int_lt r.first_year (pos 1_978)) england_and_wales_rules ≡ [] }
    ensures fedwire { map (λ r. r.first_year) (take 1 (filter (λ r. int_lt r.first_year (pos 1_972)) fedwire_rules)) ≡ pos 1_971 ∷ [] }
    ensures fedwire_none { filter (λ r. int_lt r.first_year (pos 1_971)) fedwire_rules ≡ [] }
    ensures nyse { map (λ r. r.first_year) (take 1 (filter (λ r. int_lt r.first_year (pos 1_999)) nyse_rules)) ≡ pos 1_998 ∷ [] }
    ensures nyse_none { filter (λ r. int_lt r.first_year (pos 1_998)) nyse_rules ≡ [] }
    ensures germany { map (λ r. r.first_year) (take 1 (filter (λ r. int_lt r.first_year (pos 1_996)) germany_rules)) ≡ pos 1_995 ∷ [] }
    ensures germany_none { filter (λ r. int_lt r.first_year (pos 1_995)) germany_rules ≡ [] }
    ensures france { map (λ r. r.first_year) (take 1 (filter (λ r. int_lt r.first_year (pos 1_983)) france_rules)) ≡ pos 1_982 ∷ [] }
    ensures france_none { filter (λ r. int_lt r.first_year (pos 1_982)) france_rules ≡ [] }
    ensures japan { map (λ r. r.first_year) (take 1 (filter (λ r. int_lt r.first_year (pos 2_008)) japan_rules)) ≡ pos 2_007 ∷ [] }
    ensures japan_none { filter (λ r. int_lt r.first_year (pos 2_007)) japan_rules ≡ [] }
{}
