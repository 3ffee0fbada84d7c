//! The holidays of a command: read once, and put together once for the lines that touch the same years.

use crate::prelude::*;
use chrono_business::{
    Calendar, HolidayRule, england_and_wales, fedwire, first_known_year, france, germany, japan,
    nyse, target, us_federal, without_weekends,
};
use chrono_datetime::WeekdaySet;

/// The holidays by the options of a command.
#[derive(Drop)]
pub(crate) struct Holidays {
    /// The weekdays that are closed.
    pub weekend: WeekdaySet,
    /// The rules that give others.
    pub rules: Vec<HolidayRule>,
    /// Those that the file of the options lists, in order and each once.
    pub listed: Vec<NaiveDate>,
    // These and those of the rules in some years, in order and but for those on the weekend.
    days: Vec<NaiveDate>,
    // Those years.
    years: Option<Years>,
    /// The first year of which the rules are known.
    pub first: i32,
}

/// That the holidays of a day are not known.
pub(crate) const UNKNOWN: &str = "before the first year of --calendar";

impl Holidays {
    // Those of a weekend alone.
    pub(crate) fn of_weekend(alloc: Global, weekend: WeekdaySet) -> Holidays {
        Holidays {
            weekend,
            rules: Vec::new(alloc),
            listed: Vec::new(alloc),
            days: Vec::new(alloc),
            years: None,
            first: i32::MIN,
        }
    }

    // Whether no weekday is open that is not one of these.
    pub(crate) fn closes_all_but(&self, weekdays: WeekdaySet) -> bool {
        self.weekend.union(weekdays).len() == 7
    }

    // Whether there is no holiday from a day on, or before it if that is asked for.
    pub(crate) fn ends_before(&self, day: NaiveDate, is_back: bool) -> bool {
        for listed in self.listed.as_slice() {
            if *listed == day || (day < *listed) != is_back {
                return false;
            }
        }
        self.rules.is_empty()
    }

    // The calendar by the options, with the holidays of these years at least.
    pub(crate) fn calendar(&mut self, years: Years) -> io::Result<Calendar<'_>> {
        match self.years {
            Some(known) if known.first <= years.first && years.last <= known.last => {}
            Some(known) => self.put_together(both_years(known, years))?,
            None => self.put_together(years)?,
        }
        match Calendar::try_new(self.weekend, self.days.as_slice()) {
            Ok(calendar) => Ok(calendar),
            // (not reached: they are in order, each once, and none is on the weekend)
            Err(_) => Err(io::Error::from(ErrorKind::InvalidData)),
        }
    }

    // Whether the holidays of a day's year are known.
    pub(crate) fn knows(&self, day: NaiveDate) -> bool {
        self.first <= day.year()
    }

    // A day, if its holidays are known.
    pub(crate) fn known(&self, day: Option<NaiveDate>) -> Option<NaiveDate> {
        let day = day?;
        if self.knows(day) { Some(day) } else { None }
    }

    // Why there is no day near another, whose holidays are known.
    pub(crate) fn why_none(&self, day: NaiveDate) -> &'static str {
        if day.year() == self.first {
            UNKNOWN
        } else {
            PAST
        }
    }

    // Puts the holidays of these years together.
    fn put_together(&mut self, years: Years) -> io::Result<()> {
        self.years = None;
        self.days.clear();
        self.days.extend_from_slice(self.listed.as_slice())?;
        put_ruled(self.rules.as_slice(), years, &mut self.days)?;
        put_in_order(&mut self.days, self.weekend);
        self.years = Some(years);
        Ok(())
    }
}

// Puts days in order, each once and without those on the weekend.
fn put_in_order(days: &mut Vec<NaiveDate>, weekend: WeekdaySet) {
    days.as_mut_slice().sort_unstable();
    days.dedup();
    let count = without_weekends(weekend, days.as_mut_slice());
    days.truncate(count);
}

impl Asked<'_> {
    // The holidays by the options of the command.
    pub(crate) fn holidays(&mut self) -> Holidays {
        let weekend = self.weekend(self.option("--weekend"));
        let mut holidays = Holidays::of_weekend(self.rt.alloc(), weekend);
        if let Some(word) = self.value("--calendar") {
            self.put_calendars(word, &mut holidays);
        }
        if let Some(word) = self.value("--holidays") {
            let put = self.put_listed(word, &mut holidays.listed);
            self.done(put);
            holidays.listed.as_mut_slice().sort_unstable();
            holidays.listed.dedup();
        }
        holidays
    }

    // Adds the rules of the calendars that a word names.
    fn put_calendars(&mut self, word: Word<'_>, holidays: &mut Holidays) {
        for name in word.text.split(',') {
            match place_of_calendar(name) {
                0 => self.put_rules(&us_federal(), holidays),
                1 => self.put_rules(&target(), holidays),
                2 => self.put_rules(&england_and_wales(), holidays),
                3 => self.put_rules(&fedwire(), holidays),
                4 => self.put_rules(&nyse(), holidays),
                5 => self.put_rules(&germany(), holidays),
                6 => self.put_rules(&france(), holidays),
                7 => self.put_rules(&japan(), holidays),
                _ => return self.wrong_choice(word, CALENDARS),
            }
        }
    }

    // Adds rules, whose first year then is the first one that is known, unless that of others is later.
    fn put_rules(&mut self, rules: &[HolidayRule], holidays: &mut Holidays) {
        let put = holidays.rules.extend_from_slice(rules);
        self.kept(put);
        let first = first_known_year(rules).unwrap_or(i32::MIN);
        holidays.first = holidays.first.max(first);
    }

    // Puts the days that the file of a word lists into a list.
    fn put_listed(&mut self, word: Word<'_>, days: &mut Vec<NaiveDate>) -> io::Result<()> {
        let Some(file) = self.open_file(word) else {
            return Ok(());
        };
        let mut line = Vec::new(self.rt.alloc());
        let mut reader = BufReader::new(self.rt.alloc(), file)?;
        for number in 1..u64::MAX {
            line.clear();
            match read_line(&mut reader, &mut line, MOST_BYTES) {
                Ok(true) => match self.reading.day_of_line(line.as_slice()) {
                    Ok(day) => days.push(day)?,
                    Err(reason) => {
                        self.wrong_holiday(word, number, reason);
                        break;
                    }
                },
                Ok(false) => break,
                Err(error) => {
                    self.wrong_by(word, &error, "");
                    break;
                }
            }
        }
        Ok(())
    }

    // Ends since a line of holidays is no day.
    fn wrong_holiday(&mut self, word: Word<'_>, number: u64, reason: Reason) {
        let mut said = self.blame(word);
        said.put(", line ");
        said.show(&number);
        said.put(": ");
        if !matches!(reason, Reason::Form) {
            put_reason(&mut said, reason);
            said.put("; ");
        }
        said.put("expected a day as 2024-02-29");
        self.refuse(&said);
    }
}

// The place of a calendar among all, by its name in small letters or in capitals.
fn place_of_calendar(name: &str) -> usize {
    let mut place: usize = 0;
    for calendar in CALENDARS {
        if calendar.as_bytes().eq_ignore_ascii_case(name.as_bytes()) {
            break;
        }
        place = place.saturating_add(1);
    }
    place
}
