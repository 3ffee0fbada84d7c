//! `Policy`: what becomes of a planned local time that the clock skips or shows twice.
ghost use Rattle.std.specs.Prelude.{◌≡◌};
ghost use Rattle.zoned_cron.specs.Fires.{FollowsClock, as_planned, as_shown, as_shown_last};

use chrono_cron::Schedule;

/// What becomes of a planned local time in a gap: the clock is set ahead past it, and never shows it.
///
/// ```
/// Gap::Skip // Skip
/// ```
#[derive(Clone, Copy, PartialEq, Eq, Debug)]
pub enum Gap {
    /// The schedule does not fire.
    Skip,
    /// It fires at the first instant behind the gap.
    FirstAfter,
    /// It fires there if the clock is set ahead by less than three hours, and else not at all.
    FirstAfterShort,
}

/// What becomes of a planned local time in a fold: the clock is set back, and shows it twice.
///
/// ```
/// Fold::Earlier // Earlier
/// ```
#[derive(Clone, Copy, PartialEq, Eq, Debug)]
pub enum Fold {
    /// The schedule fires at the earlier instant alone.
    Earlier,
    /// It fires at the later instant alone.
    Later,
    /// It fires at both.
    Both,
    /// It fires at the earlier one, and at the later one if that is more than three hours behind it.
    EarlierOfShort,
}

/// What becomes of a planned local time that the clock does not show exactly once.
///
/// ```
/// Policy { gap: Gap::Skip, fold: Fold::Later }.fold // Later
/// ```
#[derive(Clone, Copy, PartialEq, Eq, Debug)]
pub struct Policy {
    /// For a local time that the clock skips.
    pub gap: Gap,
    /// For a local time that it shows twice.
    pub fold: Fold,
}

impl Policy {
    /// Returns the policy of Vixie's cron, of cronie and of Debian's cron for a schedule.
    ///
    /// A schedule with fixed times fires once for each planned local time: at the first instant behind a gap, and at the earlier instant of a
    /// fold. One whose minutes or hours begin with `*`, such as `*/5 2 * * *` or `@hourly`, follows the clock as it runs. The fields of days make
    /// no difference. [`FieldSets::follows_clock`](chrono_cron::FieldSets) tells which it is.
    ///
    /// A gap of three hours or more, and a fold of more than three, is a correction of a wrong clock. Behind it a schedule with fixed times
    /// goes by what the clock shows, as the others do.
    ///
    /// Times that one gap skips fire together, at one instant. The program starts a job once for each of them.
    ///
    /// ```
    /// Policy::vixie(&read_schedule(b"30 2 * * *").ok()?) // Policy { gap: FirstAfterShort, fold: EarlierOfShort }
    /// Policy::vixie(&read_schedule(b"*/30 2 * * *").ok()?) // Policy { gap: Skip, fold: Both }
    /// ```
    pub fn vixie(schedule: &Schedule) -> Policy
        ensures clock { FollowsClock schedule.now.sets → result ≡ as_shown }
        ensures fixed { ¬ FollowsClock schedule.now.sets → result ≡ as_planned }
    {
        if schedule.sets.follows_clock {
            return Policy::robfig();
        }
        Policy {
            gap: Gap::FirstAfterShort,
            fold: Fold::EarlierOfShort,
        }
    }

    /// Returns the policy of Go's library robfig/cron: each schedule goes by what the clock shows.
    ///
    /// A time that the clock skips does not fire, and one that it shows twice fires twice. The library's version 3.0.1 loses some firings
    /// besides, near changes at midnight and changes of other than an hour. Those are its faults, and are left out here.
    ///
    /// ```
    /// Policy::robfig() // Policy { gap: Skip, fold: Both }
    /// ```
    pub fn robfig() -> Policy
        ensures { result ≡ as_shown }
    {
        Policy {
            gap: Gap::Skip,
            fold: Fold::Both,
        }
    }

    /// Returns the policy of Quartz: a time that the clock skips does not fire, and one that it shows twice fires at the later instant.
    ///
    /// So a schedule of each minute has no firing in the first showing of an hour that comes twice.
    ///
    /// ```
    /// Policy::quartz() // Policy { gap: Skip, fold: Later }
    /// ```
    pub fn quartz() -> Policy
        ensures { result ≡ as_shown_last }
    {
        Policy {
            gap: Gap::Skip,
            fold: Fold::Later,
        }
    }
}
