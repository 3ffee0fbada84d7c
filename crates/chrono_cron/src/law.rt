//! Known days, moments and texts, and laws of schedules. Each is a clause of a function that does nothing.
ghost use Rattle.std.specs.Prelude.{◌≡◌, ◌<◌, ◌≤◌, ◌-◌, ℕ, Bool, true, false, None, Some, Result, Err, pos, neg_ℤ, [], ◌∷◌, codes};
ghost use Rattle.chrono_sets.specs.FiniteSets.{has};
ghost use Rattle.chrono_cron.specs.Due.{IsNeverDue, MeanTheSame, NotDueAfter, NotDueBefore, NotDueBetween, is_due};
ghost use Rattle.chrono_cron.specs.DueMoments.{dues_after, dues_left};
ghost use Rattle.chrono_cron.specs.KnownMonthDays.{is_named_day, days_named};
ghost use Rattle.chrono_cron.specs.KnownSchedules.{dues_of, every_day, every_month, every_weekday, each_minute, fields, fields_with, following, in_a_row, known_moment, last_days_on, no_minute, odd_days};
ghost use Rattle.chrono_cron.specs.FieldTexts.{field_lists};
ghost use Rattle.chrono_cron.specs.ScheduleErrors.{IsScheduleRead};
ghost use Rattle.chrono_cron.specs.ScheduleTexts.{AreListed, IsScheduleText};
ghost use Rattle.chrono_cron.specs.WritableSchedules.{IsWritable, LieBetween, Member};
ghost use Rattle.chrono_cron.specs.WrittenTexts.{one_lists, plain_text, ranges_from, schedule_text};
ghost use Rattle.chrono_cron.specs.declared.field_sets.FieldSets.{FieldSets};
ghost use Rattle.chrono_cron.specs.declared.schedule.Schedule.{Schedule};
ghost use Rattle.chrono_cron.specs.declared.text.number_names.Names.TheVariants.{Months, Numbers};
ghost use Rattle.chrono_cron.specs.declared.text.schedule_error.ScheduleError.{ScheduleError};
ghost use Rattle.chrono_cron.specs.declared.text.schedule_error.ScheduleFault.TheVariants.{OutOfRange, TooFewFields};
ghost use Rattle.chrono_cron.specs.declared.text.schedule_error.ScheduleField.TheVariants.{Minute};

use crate::schedule::Schedule;
use chrono_sets::NumberSet;

/// Known days of 2024.
///
/// - 31 May is `L` and the 30th is not. 28 February is `L-1`.
/// - Friday, 29 March is `LW`, and so is Tuesday, 30 April.
/// - Friday, 14 June is `14W` and `15W`. Monday, 16 September is `15W`.
/// - Monday, 3 June is `1W`, and 29 March is `31W`. Neither goes into another month.
///   31 May is not `1W`, and February has no `31W`.
/// - 23 February is `5L`, 29 March is `5#5`, and 10 March is `0#2`.
/// - Neither 30 nor 31 March, a weekend, is `LW`. Nor is Monday, 29 April, nor Friday, 27 September.
/// - Saturday, 15 June is not `15W`, and Monday the 17th is not. Friday the 14th is not `16W`.
/// - June 2023 has no `31W`, and no month has `0W`. 24 May is not `5L`, and 14 June is `5#2`.
/// - Monday, 30 September is `LW`, and Saturday, 31 August is not. Friday, 30 August is `31W`, and Monday, 2 September is `1W`.
pub fn known_month_days()
    ensures last { is_named_day (days_named (0 ∷ []) [] false [] []) (pos 739_037) ≡ true }
    ensures before_last { is_named_day (days_named (0 ∷ []) [] false [] []) (pos 739_036) ≡ false }
    ensures one_before { is_named_day (days_named (1 ∷ []) [] false [] []) (pos 738_944) ≡ true }
    ensures last_workday { is_named_day (days_named [] [] true [] []) (pos 738_974) ≡ true }
    ensures earlier_workday { is_named_day (days_named [] [] true [] []) (pos 738_973) ≡ false }
    ensures last_is_workday { is_named_day (days_named [] [] true [] []) (pos 739_006) ≡ true }
    ensures own_day { is_named_day (days_named [] (14 ∷ []) false [] []) (pos 739_051) ≡ true }
    ensures friday { is_named_day (days_named [] (15 ∷ []) false [] []) (pos 739_051) ≡ true }
    ensures monday { is_named_day (days_named [] (15 ∷ []) false [] []) (pos 739_145) ≡ true }
    ensures after_first { is_named_day (days_named [] (1 ∷ []) false [] []) (pos 739_040) ≡ true }
    ensures before_end { is_named_day (days_named [] (31 ∷ []) false [] []) (pos 738_974) ≡ true }
    ensures not_before_first { is_named_day (days_named [] (1 ∷ []) false [] []) (pos 739_037) ≡ false }
    ensures no_such_day { is_named_day (days_named [] (31 ∷ []) false [] []) (pos 738_945) ≡ false }
    ensures last_friday { is_named_day (days_named [] [] false (5 ∷ []) []) (pos 738_939) ≡ true }
    ensures earlier_friday { is_named_day (days_named [] [] false (5 ∷ []) []) (pos 738_932) ≡ false }
    ensures fifth_friday { is_named_day (days_named [] [] false [] (33 ∷ [])) (pos 738_974) ≡ true }
    ensures fourth_friday { is_named_day (days_named [] [] false [] (33 ∷ [])) (pos 738_967) ≡ false }
    ensures second_sunday { is_named_day (days_named [] [] false [] (7 ∷ [])) (pos 738_955) ≡ true }
    ensures not_saturday { is_named_day (days_named [] [] true [] []) (pos 738_975) ≡ false }
    ensures not_sunday { is_named_day (days_named [] [] true [] []) (pos 738_976) ≡ false }
    ensures day_before_last_workday { is_named_day (days_named [] [] true [] []) (pos 739_005) ≡ false }
    ensures friday_before_last_workday { is_named_day (days_named [] [] true [] []) (pos 739_156) ≡ false }
    ensures not_saturday_itself { is_named_day (days_named [] (15 ∷ []) false [] []) (pos 739_052) ≡ false }
    ensures not_friday_for_sunday { is_named_day (days_named [] (16 ∷ []) false [] []) (pos 739_051) ≡ false }
    ensures not_monday_for_saturday { is_named_day (days_named [] (15 ∷ []) false [] []) (pos 739_054) ≡ false }
    ensures no_31_june { is_named_day (days_named [] (31 ∷ []) false [] []) (pos 738_701) ≡ false }
    ensures no_day_0 { is_named_day (days_named [] (0 ∷ []) false [] []) (pos 738_977) ≡ false }
    ensures friday_a_week_before { is_named_day (days_named [] [] false (5 ∷ []) []) (pos 739_030) ≡ false }
    ensures second_friday { is_named_day (days_named [] [] false [] (12 ∷ [])) (pos 739_051) ≡ true }
    ensures monday_is_workday { is_named_day (days_named [] [] true [] []) (pos 739_159) ≡ true }
    ensures last_saturday { is_named_day (days_named [] [] true [] []) (pos 739_129) ≡ false }
    ensures friday_for_last_saturday { is_named_day (days_named [] (31 ∷ []) false [] []) (pos 739_128) ≡ true }
    ensures monday_for_first_sunday { is_named_day (days_named [] (1 ∷ []) false [] []) (pos 739_131) ≡ true }
{}

/// Moments of 2024 at which known schedules are due or not.
///
/// `0 0 29 2 *` is due on 29 February at midnight. It is not due on the day before, nor on 29 March.
/// It is not due a minute or an hour later, nor within that minute.
/// `30 4 1,15 * 5` goes by either field. So it is due on Friday, 9 February and on Thursday the 15th.
/// It is not due on Wednesday between them. `0 0 */2 * 1` goes by both fields.
/// So it is due on Monday, 11 March, but not on Monday the 4th and not on Sunday the 3rd.
/// On that Sunday `0 0 * * 0` is due. If `L` and Friday have both to match, 31 May is due, and 29 February is not.
/// By `5L` alone 31 May is due, and by `L` alone 29 February.
pub fn known_schedules()
    ensures leap_day { is_due (fields (0 ∷ []) (0 ∷ []) (29 ∷ []) (2 ∷ []) every_weekday false) (known_moment (pos 738_945) 0 0 0 0) ≡ true }
    ensures day_before { is_due (fields (0 ∷ []) (0 ∷ []) (29 ∷ []) (2 ∷ []) every_weekday false) (known_moment (pos 738_944) 0 0 0 0) ≡ false }
    ensures month_after { is_due (fields (0 ∷ []) (0 ∷ []) (29 ∷ []) (2 ∷ []) every_weekday false) (known_moment (pos 738_974) 0 0 0 0) ≡ false }
    ensures minute_after { is_due (fields (0 ∷ []) (0 ∷ []) (29 ∷ []) (2 ∷ []) every_weekday false) (known_moment (pos 738_945) 0 1 0 0) ≡ false }
    ensures hour_after { is_due (fields (0 ∷ []) (0 ∷ []) (29 ∷ []) (2 ∷ []) every_weekday false) (known_moment (pos 738_945) 1 0 0 0) ≡ false }
    ensures within_the_minute { is_due (fields (0 ∷ []) (0 ∷ []) (29 ∷ []) (2 ∷ []) every_weekday false) (known_moment (pos 738_945) 0 0 1 0) ≡ false }
    ensures within_the_second { is_due (fields (0 ∷ []) (0 ∷ []) (29 ∷ []) (2 ∷ []) every_weekday false) (known_moment (pos 738_945) 0 0 0 1) ≡ false }
    ensures friday { is_due (fields (30 ∷ []) (4 ∷ []) (1 ∷ 15 ∷ []) every_month (5 ∷ []) true) (known_moment (pos 738_925) 4 30 0 0) ≡ true }
    ensures fifteenth { is_due (fields (30 ∷ []) (4 ∷ []) (1 ∷ 15 ∷ []) every_month (5 ∷ []) true) (known_moment (pos 738_931) 4 30 0 0) ≡ true }
    ensures neither { is_due (fields (30 ∷ []) (4 ∷ []) (1 ∷ 15 ∷ []) every_month (5 ∷ []) true) (known_moment (pos 738_930) 4 30 0 0) ≡ false }
    ensures hour_and_minute_swapped { is_due (fields (30 ∷ []) (4 ∷ []) (1 ∷ 15 ∷ []) every_month (5 ∷ []) true) (known_moment (pos 738_925) 6 4 0 0) ≡ false }
    ensures odd_monday { is_due (fields (0 ∷ []) (0 ∷ []) odd_days every_month (1 ∷ []) false) (known_moment (pos 738_956) 0 0 0 0) ≡ true }
    ensures even_monday { is_due (fields (0 ∷ []) (0 ∷ []) odd_days every_month (1 ∷ []) false) (known_moment (pos 738_949) 0 0 0 0) ≡ false }
    ensures odd_sunday { is_due (fields (0 ∷ []) (0 ∷ []) odd_days every_month (1 ∷ []) false) (known_moment (pos 738_948) 0 0 0 0) ≡ false }
    ensures sunday { is_due (fields (0 ∷ []) (0 ∷ []) every_day every_month (0 ∷ []) false) (known_moment (pos 738_948) 0 0 0 0) ≡ true }
    ensures last_friday { is_due (last_days_on (0 ∷ []) (5 ∷ [])) (known_moment (pos 739_037) 0 0 0 0) ≡ true }
    ensures last_thursday { is_due (last_days_on (0 ∷ []) (5 ∷ [])) (known_moment (pos 738_945) 0 0 0 0) ≡ false }
    ensures named_friday { is_due (fields_with [] [] false (5 ∷ []) []) (known_moment (pos 739_037) 0 0 0 0) ≡ true }
    ensures not_named_thursday { is_due (fields_with [] [] false (5 ∷ []) []) (known_moment (pos 738_945) 0 0 0 0) ≡ false }
    ensures named_last_day { is_due (fields_with (0 ∷ []) [] false [] []) (known_moment (pos 738_945) 0 0 0 0) ≡ true }
{}

/// The last two moments of `* * * * *` in the calendar.
///
/// After 23:57:30 on 31 December 262142 it is due at 23:58 and at 23:59, and then no more.
pub fn known_last_dues()
    ensures two { dues_after each_minute (known_moment (pos 95_745_399) 23 57 30 0) ≡
        (known_moment (pos 95_745_399) 23 58 0 0 ∷ known_moment (pos 95_745_399) 23 59 0 0 ∷ []) }
    ensures none { dues_after each_minute (known_moment (pos 95_745_399) 23 59 0 0) ≡ [] }
    ensures left { dues_left (dues_of each_minute (known_moment (pos 95_745_399) 23 57 30 0)) ≡
        (known_moment (pos 95_745_399) 23 58 0 0 ∷ known_moment (pos 95_745_399) 23 59 0 0 ∷ []) }
{}

/// Known gaps: `* * * * *` has none of two days, none from the first date on and none up to the last, and is sometimes due.
///
/// A schedule with no minute is due at other moments. Gaps may end within a day: a minute after midnight `* * * * *` is due.
/// It is due after 23:58:59 of the last date. It is due at the beginning of the first date.
pub fn known_gaps()
    ensures between { NotDueBetween each_minute (known_moment (pos 1) 0 0 0 0) (known_moment (pos 3) 0 0 0 0) → ⊥ }
    ensures after { NotDueAfter each_minute (known_moment (neg_ℤ (pos 95_746_129)) 0 0 0 0) → ⊥ }
    ensures before { NotDueBefore each_minute (known_moment (pos 95_745_399) 23 59 59 1_999_999_999) → ⊥ }
    ensures never { IsNeverDue each_minute → ⊥ }
    ensures others { MeanTheSame each_minute no_minute → ⊥ }
    ensures two_minutes { NotDueBetween each_minute (known_moment (pos 2) 0 0 0 0) (known_moment (pos 2) 0 1 0 1) → ⊥ }
    ensures last_minute { NotDueAfter each_minute (known_moment (pos 95_745_399) 23 58 59 0) → ⊥ }
    ensures first_minute { NotDueBefore each_minute (known_moment (neg_ℤ (pos 95_746_129)) 0 0 0 1) → ⊥ }
{}

/// Known texts of schedules.
///
/// Each minute is all stars, and all days are ranges if either field of days is enough.
/// Numbers are written in ranges that are as long as possible.
/// If both fields have to match, one begins with `*`: by the 1st, or else by Sunday. Without either, no text says it, and none begins with `*`.
/// Named days follow the numbers. All minutes and hours are ranges if the schedule does not follow the clock. If it does, `*` stands in front of the
/// hours or the minutes.
pub fn known_texts()
    ensures stars { schedule_text each_minute ≡ codes "* * * * *" }
    ensures ranges { schedule_text (fields (0 ∷ 30 ∷ []) (in_a_row 9 9) every_day (2 ∷ 3 ∷ 5 ∷ 6 ∷ 7 ∷ 8 ∷ 9 ∷ 12 ∷ []) (in_a_row 5 1) false) ≡ codes "0,30 9-17 * 2-3,5-9,12 1-5" }
    ensures either { schedule_text (fields (0 ∷ []) (0 ∷ []) (1 ∷ 15 ∷ []) every_month every_weekday true) ≡ codes "0 0 1,15 * 0-6" }
    ensures both_by_first { schedule_text (fields (0 ∷ []) (0 ∷ []) (1 ∷ 15 ∷ []) every_month (5 ∷ []) false) ≡ codes "0 0 */31,1,15 * 5" }
    ensures both_by_sunday { schedule_text (fields (0 ∷ []) (0 ∷ []) (13 ∷ []) every_month (0 ∷ 5 ∷ []) false) ≡ codes "0 0 13 * */7,0,5" }
    ensures both_by_either { schedule_text (fields (0 ∷ []) (0 ∷ []) (1 ∷ 15 ∷ []) every_month (0 ∷ 5 ∷ []) false) ≡ codes "0 0 */31,1,15 * 0,5" }
    ensures both_by_neither { schedule_text (fields (0 ∷ []) (0 ∷ []) (15 ∷ []) every_month (5 ∷ []) false) ≡ codes "0 0 15 * 5" }
    ensures names { schedule_text (fields_with (0 ∷ 3 ∷ []) (15 ∷ []) true (5 ∷ []) (12 ∷ [])) ≡ codes "0 0 L,L-3,LW,15W * 5L,5#2" }
    ensures starred_weekdays { schedule_text (fields (0 ∷ []) (0 ∷ []) (1 ∷ 15 ∷ []) every_month every_weekday false) ≡ codes "0 0 1,15 * *" }
    ensures fixed { schedule_text (fields (in_a_row 60 0) (in_a_row 24 0) every_day every_month every_weekday false) ≡ codes "0-59 0-23 * * *" }
    ensures each_hour { schedule_text (following (fields (0 ∷ []) (in_a_row 24 0) every_day every_month every_weekday false)) ≡ codes "0 * * * *" }
    ensures by_hour { schedule_text (following (fields (0 ∷ []) (0 ∷ 12 ∷ []) every_day every_month every_weekday false)) ≡ codes "0 */24,0,12 * * *" }
    ensures by_minute { schedule_text (following (fields (0 ∷ 30 ∷ []) (2 ∷ []) every_day every_month every_weekday false)) ≡ codes "*/60,0,30 2 * * *" }
{}

/// What a reading answers to known texts: an error with the field, the place, and what is wrong there.
pub fn known_answers()
    ensures minute { (result : Result Schedule ScheduleError) → IsScheduleRead (codes "5,60 * * * *") result
        → result ≡ Err (record { field = Some Minute; byte = 2; fault = OutOfRange }) }
    ensures four_fields { (result : Result Schedule ScheduleError) → IsScheduleRead (codes "* * * *") result
        → result ≡ Err (record { field = None; byte = 7; fault = TooFewFields }) }
{}

/// Schedules that no text can write: one has a day 0. In another both fields have to match, without the 1st and without Sunday. The third follows
/// the clock, without the hour 0 and without the minute 0.
pub fn known_unwritable_schedules()
    ensures day_0 { IsWritable (fields (0 ∷ []) (0 ∷ []) (0 ∷ 1 ∷ []) every_month (5 ∷ []) true) → ⊥ }
    ensures unstarred { IsWritable (fields (0 ∷ []) (0 ∷ []) (15 ∷ []) every_month (5 ∷ []) false) → ⊥ }
    ensures untimed { IsWritable (following (fields (30 ∷ []) (2 ∷ []) (1 ∷ []) every_month every_weekday false)) → ⊥ }
{}

/// Which texts are of schedules that follow the clock: those whose minutes or hours begin with `*`, as `*/5` does and `0,*` does not.
///
/// So `@hourly` is one and `@daily` is none. A `*` in a field of days makes no difference.
pub fn known_followers()
    ensures minutes { (s : FieldSets) → IsScheduleText (codes "*/5 2 * * *") s → s.follows_clock ≡ true }
    ensures hours { (s : FieldSets) → IsScheduleText (codes "0 */2 1 1 1") s → s.follows_clock ≡ true }
    ensures hourly { (s : FieldSets) → IsScheduleText (codes "@hourly") s → s.follows_clock ≡ true }
    ensures daily { (s : FieldSets) → IsScheduleText (codes "@daily") s → s.follows_clock ≡ false }
    ensures star_behind { (s : FieldSets) → IsScheduleText (codes "0,* 0-23 * * *") s → s.follows_clock ≡ false }
{}

/// The ranges that are written for the numbers of a field list its members, and no other of these numbers.
pub fn ranges_list_the_members(set: NumberSet, low: u32, end: u32)
    ensures { (k : ℕ) → low ≤ k → k < end → one_lists (ranges_from set (end - low) low) k ≡ has set k }
{}

/// The text that is written for a field of minutes, hours or months is read back as the same set.
///
/// This holds for a set with a member and with the field's own numbers alone. With a `*` in front it has to list the first of them.
pub fn written_fields_are_read(set: NumberSet)
    ensures minutes { (starred : Bool) → (starred ≡ true → has set 0 ≡ true) → LieBetween set 0 60 → Member set
        → AreListed set (field_lists Numbers 0 59 (plain_text starred set 60 0)) }
    ensures hours { (starred : Bool) → (starred ≡ true → has set 0 ≡ true) → LieBetween set 0 24 → Member set
        → AreListed set (field_lists Numbers 0 23 (plain_text starred set 24 0)) }
    ensures months { (starred : Bool) → (starred ≡ true → has set 1 ≡ true) → LieBetween set 1 13 → Member set
        → AreListed set (field_lists Months 1 12 (plain_text starred set 12 1)) }
{}

/// The text that is written for a schedule is a text of it. So `read_schedule` returns the same sets.
///
/// The schedule has to be one that a text can write. It has numbers of its fields alone, and no empty field.
/// If both fields of days have to match, it lists the 1st or Sunday. If it follows the clock, it lists the hour 0 or the minute 0.
pub fn written_schedules_are_read(schedule: &Schedule)
    ensures { IsWritable schedule.now.sets → IsScheduleText (schedule_text schedule.now.sets) schedule.now.sets }
{}

/// A schedule that was read is one that a text can write, whatever its text is.
///
/// It has numbers of its fields alone, and no empty field.
/// If both fields of days have to match, it lists the 1st or Sunday. If it follows the clock, it lists the hour 0 or the minute 0.
/// So it can be written, and that text is read back as the same schedule.
pub fn read_schedules_are_writable(text: &[u8], schedule: &Schedule)
    ensures { IsScheduleText text.now schedule.now.sets → IsWritable schedule.now.sets }
{}
