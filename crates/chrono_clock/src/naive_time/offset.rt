//! The time of day that a clock at an offset shows.
ghost use Rattle.std.specs.Prelude.{◌≡◌};
ghost use Rattle.chrono_clock.specs.Time.{IsTime, clock_ahead};

use super::NaiveTime;
use crate::lengths::SECS_PER_DAY;

impl NaiveTime {
    /// Returns the time that a clock `offset` seconds ahead shows, and the days that it is ahead.
    ///
    /// The days are negative if the other clock shows an earlier day. The nanoseconds stay, also those of a leap
    /// second.
    ///
    /// ```
    /// NaiveTime::from_hms_opt(23, 30, 0)?.overflowing_add_offset(3_600) // (00:30:00, 1)
    /// NaiveTime::from_hms_opt(0, 30, 0)?.overflowing_add_offset(-3_600) // (23:30:00, -1)
    /// ```
    #[inline]
    pub fn overflowing_add_offset(&self, offset: i32) -> (NaiveTime, i32)
        ensures time { result.0 ≡ (clock_ahead self.now offset).time }
        ensures days { result.1 ≡ (clock_ahead self.now offset).day }
        ensures start { IsTime self.now }
        ensures end { IsTime result.0 }
    {
        let day = i64::from(SECS_PER_DAY);
        let second = i64::from(self.secs) + i64::from(offset);
        let time = NaiveTime {
            secs: second.rem_euclid(day) as u32,
            frac: self.frac,
        };
        (time, second.div_euclid(day) as i32)
    }
}
