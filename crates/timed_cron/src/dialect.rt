//! `Dialect`: how many fields a schedule's text has.

/// Which fields a schedule's text has.
///
/// A nickname such as `@daily` may stand in place of the fields, except in [`Quartz`](Dialect::Quartz). It is due at second 0.
///
/// No dialect reads a time zone in front (`TZ=`, `CRON_TZ=`), `@every` or `@reboot`. The error names each.
#[derive(Clone, Copy, PartialEq, Eq, Debug)]
pub enum Dialect {
    /// Five fields, of which the first is the minute. It is due at second 0.
    ///
    /// This is the table of POSIX's `crontab`, as the manual page crontab(5) of cronie has it.
    Crontab,
    /// Six fields, of which the first is the second, 0 to 59. The others are those of [`Crontab`](Dialect::Crontab).
    ///
    /// The option `cron.Second` of Go's library robfig/cron has seconds in this place. Its `?` is not read, and neither is a step behind a
    /// number alone, such as `5/10`. [`Robfig`](Dialect::Robfig) reads both.
    Seconds,
    /// Six fields as in the cron triggers of Quartz, or seven: a year from 1970 to 2099 may stand behind the weekday.
    ///
    /// Weekdays are 1 for Sunday to 7 for Saturday, or `SUN` to `SAT`. One of the two fields of days has to be `?`, and the other not.
    ///
    /// - `5/15` lists every 15th number from 5 to the end of the field, and `22-2` goes over that end. Years do not.
    /// - The day of the month may be `L`, `L-3`, `LW` or `15W`, alone. `L-3W` is not read.
    /// - The weekday may be `L` for Saturday, `6L` or `6#3`, alone.
    ///
    /// With no year the schedule is due in all years of the calendar, and `*` stands for 1970 to 2099. A step is 1 to 999. Nicknames are not read.
    Quartz,
    /// Five fields as `ParseStandard` of Go's library robfig/cron, version 3, reads them. It is due at second 0.
    ///
    /// Weekdays are 0 for Sunday to 6, or `SUN` to `SAT`. A range may not go over the end of its field. Nothing names a day as `L` does.
    ///
    /// - `*` and `?` stand for all numbers, and may stand in a list or before a step.
    /// - `5/15` lists every 15th number from 5 to the end of the field. A step is 1 to 999.
    /// - A day has to be in both fields of days if one lists `*` or `?` with no step, or with the step 1. Otherwise one field is enough. So `*/2`
    ///   restricts here, and does not in [`Crontab`](Dialect::Crontab).
    ///
    /// Numbers have one or two digits. Empty items, signs and a range that begins with `*` are not read, which the library lets pass.
    Robfig,
}
