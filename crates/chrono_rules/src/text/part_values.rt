//! What the parts of a rule's text say.
ghost use Rattle.std.specs.Prelude.{◌≡◌, Some, None, codes};
ghost use Rattle.std.specs.Option.{is_some};
ghost use Rattle.chrono_text.specs.Numbers.{count_of};
ghost use Rattle.chrono_datetime.specs.declared.Weekday.TheVariants.{Mon};
ghost use Rattle.chrono_sets.specs.FiniteSets.{no_numbers};
ghost use Rattle.chrono_rules.specs.RuleParts.{no_weekdays};
ghost use Rattle.chrono_rules.specs.NumberLists.{signed_list_of, month_list_of, no_signed, no_year_ends, weekdays_of, signed_year_list_of};
ghost use Rattle.chrono_rules.specs.RuleTexts.{date_of, end_of, frequency_of, interval_of, said, values_in, weekday_of_text};

use crate::rule::{End, Frequency};
use crate::text::all_parts::TextParts;
use crate::text::month_list::read_months;
use crate::text::number_list::{BothEnds, read_month_days, read_weeks};
use crate::text::rule_error::RulePart;
use crate::text::weekday_list::read_weekdays;
use crate::text::year_day_list::{YearEnds, read_year_days};
use crate::weekday_places::WeekdayPlaces;
use chrono_datetime::{NaiveDate, Weekday};
use chrono_sets::NumberSet;
use chrono_text::{read_count, read_digits, same_but_for_case};

impl<'a> TextParts<'a> {
    // What FREQ says, which has to stand.
    #[tactic(auto, unfolding(crate::specs::RuleErrors::part_name))]
    pub(crate) fn frequency(&self) -> Option<Frequency>
        ensures { result ≡ said frequency_of None (values_in self.now (codes "FREQ=")) }
    {
        match self.value_of(RulePart::Freq)? {
            Some(value) => read_frequency(value),
            None => None,
        }
    }

    // What INTERVAL says, else 1.
    #[tactic(auto, unfolding(crate::specs::RuleErrors::part_name))]
    pub(crate) fn interval(&self) -> Option<u32>
        ensures { result ≡ said interval_of (Some 1) (values_in self.now (codes "INTERVAL=")) }
    {
        match self.value_of(RulePart::Interval)? {
            Some(value) => read_interval(value),
            None => Some(1),
        }
    }

    // What COUNT or UNTIL say, of which one may stand.
    #[tactic(auto, unfolding(crate::specs::RuleErrors::part_name, crate::specs::RuleTexts::end_of))]
    pub(crate) fn end(&self) -> Option<End>
        ensures { result ≡ end_of (values_in self.now (codes "COUNT=")) (values_in self.now (codes "UNTIL=")) }
    {
        let count = self.value_of(RulePart::Count)?;
        let until = self.value_of(RulePart::Until)?;
        match (count, until) {
            (None, None) => Some(End::Never),
            (Some(count), None) => read_count(count).map(End::Count),
            (None, Some(until)) => read_date(until).map(End::Until),
            (Some(_), Some(_)) => None,
        }
    }

    // What BYMONTH lists.
    #[tactic(auto, unfolding(crate::specs::RuleErrors::part_name))]
    pub(crate) fn months(&self) -> Option<NumberSet>
        ensures { result ≡ said month_list_of (Some no_numbers) (values_in self.now (codes "BYMONTH=")) }
    {
        match self.value_of(RulePart::ByMonth)? {
            Some(value) => read_months(value),
            None => Some(NumberSet::none()),
        }
    }

    // What BYMONTHDAY lists.
    #[tactic(auto, unfolding(crate::specs::RuleErrors::part_name))]
    pub(crate) fn month_days(&self) -> Option<BothEnds>
        ensures { result ≡ said (signed_list_of 2 31) (Some no_signed) (values_in self.now (codes "BYMONTHDAY=")) }
    {
        match self.value_of(RulePart::ByMonthDay)? {
            Some(value) => read_month_days(value),
            None => Some(BothEnds::none()),
        }
    }

    // What BYDAY lists.
    #[tactic(auto, unfolding(crate::specs::RuleErrors::part_name))]
    pub(crate) fn weekdays(&self) -> Option<WeekdayPlaces>
        ensures { result ≡ said weekdays_of (Some no_weekdays) (values_in self.now (codes "BYDAY=")) }
    {
        match self.value_of(RulePart::ByDay)? {
            Some(value) => read_weekdays(value),
            None => Some(WeekdayPlaces::none()),
        }
    }

    // What BYYEARDAY lists.
    #[tactic(auto, unfolding(crate::specs::RuleErrors::part_name))]
    pub(crate) fn year_days(&self) -> Option<YearEnds>
        ensures { result ≡ said signed_year_list_of (Some no_year_ends) (values_in self.now (codes "BYYEARDAY=")) }
    {
        match self.value_of(RulePart::ByYearDay)? {
            Some(value) => read_year_days(value),
            None => Some(YearEnds::none()),
        }
    }

    // What BYWEEKNO lists.
    #[tactic(auto, unfolding(crate::specs::RuleErrors::part_name))]
    pub(crate) fn weeks(&self) -> Option<BothEnds>
        ensures { result ≡ said (signed_list_of 2 53) (Some no_signed) (values_in self.now (codes "BYWEEKNO=")) }
    {
        match self.value_of(RulePart::ByWeekNo)? {
            Some(value) => read_weeks(value),
            None => Some(BothEnds::none()),
        }
    }

    // What BYSETPOS lists.
    #[tactic(auto, unfolding(crate::specs::RuleErrors::part_name))]
    pub(crate) fn positions(&self) -> Option<YearEnds>
        ensures { result ≡ said signed_year_list_of (Some no_year_ends) (values_in self.now (codes "BYSETPOS=")) }
    {
        match self.value_of(RulePart::BySetPos)? {
            Some(value) => read_year_days(value),
            None => Some(YearEnds::none()),
        }
    }

    // What WKST says, else Monday.
    #[tactic(auto, unfolding(crate::specs::RuleErrors::part_name))]
    pub(crate) fn week_start(&self) -> Option<Weekday>
        ensures { result ≡ said weekday_of_text (Some Mon) (values_in self.now (codes "WKST=")) }
    {
        match self.value_of(RulePart::Wkst)? {
            Some(value) => read_weekday(value),
            None => Some(Weekday::Mon),
        }
    }

    // Whether COUNT can be read, beside an UNTIL too.
    #[tactic(auto, unfolding(crate::specs::RuleErrors::part_name))]
    pub(crate) fn is_count_read(&self) -> bool
        ensures { result ≡ is_some (said count_of (Some 0) (values_in self.now (codes "COUNT="))) }
    {
        match self.value_of(RulePart::Count) {
            Some(Some(value)) => read_count(value).is_some(),
            Some(None) => true,
            None => false,
        }
    }
}

// The frequency that the text names, in letters of either case.
#[tactic(auto, unfolding(crate::specs::RuleTexts::frequency_of))]
fn read_frequency(text: &[u8]) -> Option<Frequency>
    ensures { result ≡ frequency_of text.now }
{
    if same_but_for_case(text, b"DAILY") {
        Some(Frequency::Daily)
    } else if same_but_for_case(text, b"WEEKLY") {
        Some(Frequency::Weekly)
    } else if same_but_for_case(text, b"MONTHLY") {
        Some(Frequency::Monthly)
    } else if same_but_for_case(text, b"YEARLY") {
        Some(Frequency::Yearly)
    } else {
        None
    }
}

// The number above 0 that digits write.
#[tactic(auto, unfolding(crate::specs::RuleTexts::interval_of))]
fn read_interval(text: &[u8]) -> Option<u32>
    ensures { result ≡ interval_of text.now }
{
    match read_count(text) {
        Some(0) => None,
        count => count,
    }
}

// The date that eight digits name.
#[tactic(auto, unfolding(crate::specs::RuleTexts::date_of))]
fn read_date(text: &[u8]) -> Option<NaiveDate>
    ensures { result ≡ date_of text.now }
{
    if text.len() != 8 {
        return None;
    }
    let (year, rest) = text.split_at(4);
    let (month, day) = rest.split_at(2);
    let year = read_digits(year, 4)?;
    let month = read_digits(month, 2)?;
    let day = read_digits(day, 2)?;
    NaiveDate::from_ymd_opt(year as i32, month, day)
}

// The weekday that two letters name.
#[tactic(auto, unfolding(crate::specs::RuleTexts::weekday_of_text))]
fn read_weekday(text: &[u8]) -> Option<Weekday>
    ensures { result ≡ weekday_of_text text.now }
{
    Weekday::from_letters(text, 2)
}
