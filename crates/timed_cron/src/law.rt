//! Known moments, and laws of schedules with seconds. Each is a clause of a function that does nothing.
ghost use Rattle.std.specs.Prelude.{◌≡◌, ◌<◌, ℕ, [], ◌∷◌, true, false, pos, codes, None};
ghost use Rattle.chrono_datetime.specs.Moment.{Moment};
ghost use Rattle.chrono_sets.specs.FiniteSets.{has, numbers};
ghost use Rattle.chrono_cron.specs.Due.{is_due};
ghost use Rattle.chrono_cron.specs.KnownSchedules.{known_moment};
ghost use Rattle.timed_cron.specs.DueSeconds.{NoSecondAfter, NoSecondBefore, NoSecondBetween, is_due_at_second, second_in_minute};
ghost use Rattle.timed_cron.specs.KnownSeconds.{leap_day_seconds};
ghost use Rattle.timed_cron.specs.TimedTexts.{IsSixFieldText};
ghost use Rattle.timed_cron.specs.declared.timed_schedule.TimedSchedule.{TimedSchedule};

use chrono_cron::law::known_schedules;

/// What a text of six fields says: its first word lists the seconds, and the other five are those of a crontab.
///
/// `*/20 30 4 * * 5` is due at seconds 0, 20 and 40 of the minute 4:30, in every year. It has fixed times, since neither its minutes nor its hours
/// begin with `*`. Five words are no such text.
pub fn known_six_fields()
    ensures listed { (s : TimedSchedule) → IsSixFieldText (codes "*/20 30 4 * * 5") s → has s.seconds 40 ≡ true }
    ensures other { (s : TimedSchedule) → IsSixFieldText (codes "*/20 30 4 * * 5") s → has s.seconds 30 ≡ false }
    ensures minute { (s : TimedSchedule) → IsSixFieldText (codes "*/20 30 4 * * 5") s → has s.schedule.sets.minutes 30 ≡ true }
    ensures fixed { (s : TimedSchedule) → IsSixFieldText (codes "*/20 30 4 * * 5") s → s.schedule.sets.follows_clock ≡ false }
    ensures years { (s : TimedSchedule) → IsSixFieldText (codes "*/20 30 4 * * 5") s → s.years ≡ None }
    ensures five_words { (s : TimedSchedule) → ¬ IsSixFieldText (codes "30 4 * * 5") s }
{}

/// With second 0 alone a schedule is due exactly where its five fields are.
pub fn second_zero_is_the_schedule()
    ensures { (s : TimedSchedule) (m : Moment) → s.seconds ≡ numbers (0 ∷ []) → is_due_at_second s m ≡ is_due s.schedule.sets m }
{}

/// In a minute in which the five fields are due, a schedule is due at the beginnings of the seconds that are listed, and of no other.
pub fn listed_seconds_are_due()
    ensures { (s : TimedSchedule) (m : Moment) (k : ℕ) → k < 60 → is_due s.schedule.sets m ≡ true
        → is_due_at_second s (second_in_minute m k) ≡ has s.seconds k }
{}

/// In a minute in which the five fields are not due, a schedule is due at no moment.
pub fn other_minutes_are_not_due()
    ensures { (s : TimedSchedule) (m : Moment) → is_due s.schedule.sets (second_in_minute m 0) ≡ false → is_due_at_second s m ≡ false }
{}

/// Moments of 29 February 2024 at which `15,45 0 0 29 2 *` is due or not.
///
/// It is due at 00:00:15 and at 00:00:45, and not within that second. It is not due at 00:00:30, nor at 00:01:45.
pub fn known_seconds()
    ensures first { is_due_at_second leap_day_seconds (known_moment (pos 738_945) 0 0 15 0) ≡ true }
    ensures second { is_due_at_second leap_day_seconds (known_moment (pos 738_945) 0 0 45 0) ≡ true }
    ensures between { is_due_at_second leap_day_seconds (known_moment (pos 738_945) 0 0 30 0) ≡ false }
    ensures minute_after { is_due_at_second leap_day_seconds (known_moment (pos 738_945) 0 1 45 0) ≡ false }
    ensures within { is_due_at_second leap_day_seconds (known_moment (pos 738_945) 0 0 45 1) ≡ false }
{
    known_schedules();
}

/// Known gaps of `15,45 0 0 29 2 *`: it has none from 00:00:15 to 00:01 of 29 February 2024, none after 00:00:15, and none before 00:01.
pub fn known_second_gaps()
    ensures between { NoSecondBetween leap_day_seconds (known_moment (pos 738_945) 0 0 15 0) (known_moment (pos 738_945) 0 1 0 0) → ⊥ }
    ensures after { NoSecondAfter leap_day_seconds (known_moment (pos 738_945) 0 0 15 0) → ⊥ }
    ensures before { NoSecondBefore leap_day_seconds (known_moment (pos 738_945) 0 1 0 0) → ⊥ }
{
    known_seconds();
}
