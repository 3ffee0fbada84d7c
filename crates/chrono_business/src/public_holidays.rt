//! Public holidays: those that laws and notices name, as rules.
//!
//! Each rule has its source next to it. A day that was proclaimed once is a rule of one year.
ghost use Rattle.std.specs.Prelude.{◌≡◌, pos};
ghost use Rattle.chrono_business.specs.PublicHolidays.{england_and_wales_rules, fedwire_rules, france_rules, germany_rules, japan_rules, nyse_rules, target_rules, us_federal_rules};
ghost use Rattle.chrono_business.specs.HolidayRules.{rule_of};
ghost use Rattle.chrono_business.specs.declared.holiday_rule.HolidayDay.TheVariants.{EasterPlus, Fixed, LastWeekday, NthWeekday};
ghost use Rattle.chrono_business.specs.declared.holiday_rule.Moved.TheVariants.{Stays, SundayToMonday};

use crate::holiday_rule::{HolidayDay, HolidayRule, Moved};
use chrono_datetime::{MAX_YEAR, Month, Weekday};

// The last year of a rule that still holds: that of the calendar.
const STILL: i32 = MAX_YEAR;

/// Returns the rules of the federal holidays of the United States, from 1971 on (5 U.S.C. 6103(a)).
///
/// A holiday on a Saturday is kept on Friday, and one on a Sunday on Monday.
/// The sources are 5 U.S.C. 6103(b) and Executive Order 11582.
///
/// ```
/// us_federal()[0].date_in(2022) // Some(2021-12-31)
/// ```
///
/// So New Year's Day on a Saturday is kept in the year before.
/// For a calendar of one year, find the holidays of the next year too.
/// Inauguration Day is left out: it is a holiday in and about Washington alone (6103(c)).
/// Single days on which an executive order closed offices, such as 24 December 2024, are left out too.
#[tactic(auto, unfolding(crate::specs::PublicHolidays::us_federal_rules))]
pub fn us_federal() -> [HolidayRule; 12]
    ensures rules { result ≡ us_federal_rules }
{
    [
        // New Year's Day, 1 January.
        fixed(Month::January, 1, Moved::ToNearer, 1971, STILL),
        // Birthday of Martin Luther King, Jr., the third Monday in January (Public Law 98-144, from 1986 on).
        nth(3, Weekday::Mon, Month::January, 1986, STILL),
        // Washington's Birthday, the third Monday in February.
        nth(3, Weekday::Mon, Month::February, 1971, STILL),
        // Memorial Day, the last Monday in May.
        last(Weekday::Mon, Month::May, 1971, STILL),
        // Juneteenth National Independence Day, 19 June (Public Law 117-17, from 2021 on).
        fixed(Month::June, 19, Moved::ToNearer, 2021, STILL),
        // Independence Day, 4 July.
        fixed(Month::July, 4, Moved::ToNearer, 1971, STILL),
        // Labor Day, the first Monday in September.
        nth(1, Weekday::Mon, Month::September, 1971, STILL),
        // Columbus Day, the second Monday in October.
        nth(2, Weekday::Mon, Month::October, 1971, STILL),
        // Veterans Day, the fourth Monday in October up to 1977 (Public Law 90-363), and from 1978 on 11 November
        // again (Public Law 94-97).
        nth(4, Weekday::Mon, Month::October, 1971, 1977),
        fixed(Month::November, 11, Moved::ToNearer, 1978, STILL),
        // Thanksgiving Day, the fourth Thursday in November.
        nth(4, Weekday::Thu, Month::November, 1971, STILL),
        // Christmas Day, 25 December.
        fixed(Month::December, 25, Moved::ToNearer, 1971, STILL),
    ]
}

/// Returns the rules of the days on which TARGET is closed, from 1999 on, besides Saturdays and Sundays.
///
/// The European Central Bank set the closing days for 1999, 2000 and 2001.
/// From 2002 on its long-term calendar holds (ECB, 14 December 2000).
///
/// ```
/// let good_friday = target()[2];
/// good_friday.date_in(2024) // Some(2024-03-29)
/// good_friday.date_in(1999) // None
/// ```
#[tactic(auto, unfolding(crate::specs::PublicHolidays::target_rules))]
pub fn target() -> [HolidayRule; 8]
    ensures rules { result ≡ target_rules }
{
    [
        // New Year's Day and Christmas Day.
        fixed(Month::January, 1, Moved::Stays, 1999, STILL),
        fixed(Month::December, 25, Moved::Stays, 1999, STILL),
        // Good Friday and Easter Monday, from 2000 on.
        easter(-2, 2000),
        easter(1, 2000),
        // 1 May and 26 December, from 2000 on.
        fixed(Month::May, 1, Moved::Stays, 2000, STILL),
        fixed(Month::December, 26, Moved::Stays, 2000, STILL),
        // 31 December of 1999 and of 2001.
        fixed(Month::December, 31, Moved::Stays, 1999, 1999),
        fixed(Month::December, 31, Moved::Stays, 2001, 2001),
    ]
}

/// Returns the rules of the bank holidays of England and Wales, from 1978 on.
///
/// They include Good Friday and Christmas Day, which are holidays by common law. The others come from two sources.
/// One is the Banking and Financial Dealings Act 1971, schedule 1.
/// The other is royal proclamations under its section 1.
///
/// ```
/// let christmas_day = england_and_wales()[19];
/// christmas_day.date_in(2021) // Some(2021-12-27)
/// ```
#[tactic(auto, unfolding(crate::specs::PublicHolidays::england_and_wales_rules))]
pub fn england_and_wales() -> [HolidayRule; 26]
    ensures rules { result ≡ england_and_wales_rules }
{
    [
        // New Year's Day, or the Monday after it: by proclamation, from 1974 on.
        fixed(Month::January, 1, Moved::ToMonday, 1978, STILL),
        // Good Friday, and Easter Monday of schedule 1.
        easter(-2, 1978),
        easter(1, 1978),
        // The first Monday in May: by proclamation from 1978 on, and in 1995 and 2020 on 8 May instead.
        nth(1, Weekday::Mon, Month::May, 1978, 1994),
        fixed(Month::May, 8, Moved::Stays, 1995, 1995),
        nth(1, Weekday::Mon, Month::May, 1996, 2019),
        fixed(Month::May, 8, Moved::Stays, 2020, 2020),
        nth(1, Weekday::Mon, Month::May, 2021, STILL),
        // The last Monday in May of schedule 1, put off into June in 2002, 2012 and 2022, with a day for a jubilee.
        last(Weekday::Mon, Month::May, 1978, 2001),
        fixed(Month::June, 3, Moved::Stays, 2002, 2002),
        fixed(Month::June, 4, Moved::Stays, 2002, 2002),
        last(Weekday::Mon, Month::May, 2003, 2011),
        fixed(Month::June, 4, Moved::Stays, 2012, 2012),
        fixed(Month::June, 5, Moved::Stays, 2012, 2012),
        last(Weekday::Mon, Month::May, 2013, 2021),
        fixed(Month::June, 2, Moved::Stays, 2022, 2022),
        fixed(Month::June, 3, Moved::Stays, 2022, 2022),
        last(Weekday::Mon, Month::May, 2023, STILL),
        // The last Monday in August of schedule 1.
        last(Weekday::Mon, Month::August, 1978, STILL),
        // Christmas Day and Boxing Day: on a weekend a substitute day each, two days on.
        fixed(Month::December, 25, Moved::TwoDaysOn, 1978, STILL),
        fixed(Month::December, 26, Moved::TwoDaysOn, 1978, STILL),
        // Single days: 29 July 1981, 31 December 1999, 29 April 2011, 19 September 2022 and 8 May 2023.
        fixed(Month::July, 29, Moved::Stays, 1981, 1981),
        fixed(Month::December, 31, Moved::Stays, 1999, 1999),
        fixed(Month::April, 29, Moved::Stays, 2011, 2011),
        fixed(Month::September, 19, Moved::Stays, 2022, 2022),
        fixed(Month::May, 8, Moved::Stays, 2023, 2023),
    ]
}

/// Returns the rules of the days on which the Fedwire services are closed, from 1971 on, besides Saturdays and Sundays.
///
/// The source is the holiday schedule of the Federal Reserve Banks. They keep the federal holidays.
/// They keep a holiday on a Sunday on Monday. For one on a Saturday they stay open on Friday.
///
/// ```
/// fedwire()[0].date_in(2022) // Some(2022-01-01)
/// ```
#[tactic(auto, unfolding(crate::specs::PublicHolidays::fedwire_rules))]
pub fn fedwire() -> [HolidayRule; 12]
    ensures rules { result ≡ fedwire_rules }
{
    [
        // New Year's Day, 1 January.
        fixed(Month::January, 1, Moved::SundayToMonday, 1971, STILL),
        // Birthday of Martin Luther King, Jr., the third Monday in January (Public Law 98-144, from 1986 on).
        nth(3, Weekday::Mon, Month::January, 1986, STILL),
        // Washington's Birthday, the third Monday in February.
        nth(3, Weekday::Mon, Month::February, 1971, STILL),
        // Memorial Day, the last Monday in May.
        last(Weekday::Mon, Month::May, 1971, STILL),
        // Juneteenth National Independence Day, 19 June, in the schedule from 2022 on. In 2021 it was a Saturday.
        fixed(Month::June, 19, Moved::SundayToMonday, 2022, STILL),
        // Independence Day, 4 July.
        fixed(Month::July, 4, Moved::SundayToMonday, 1971, STILL),
        // Labor Day, the first Monday in September.
        nth(1, Weekday::Mon, Month::September, 1971, STILL),
        // Columbus Day, the second Monday in October.
        nth(2, Weekday::Mon, Month::October, 1971, STILL),
        // Veterans Day, the fourth Monday in October up to 1977 (Public Law 90-363), and from 1978 on 11 November
        // again (Public Law 94-97).
        nth(4, Weekday::Mon, Month::October, 1971, 1977),
        fixed(Month::November, 11, Moved::SundayToMonday, 1978, STILL),
        // Thanksgiving Day, the fourth Thursday in November.
        nth(4, Weekday::Thu, Month::November, 1971, STILL),
        // Christmas Day, 25 December.
        fixed(Month::December, 25, Moved::SundayToMonday, 1971, STILL),
    ]
}

/// Returns the rules of the days on which the New York Stock Exchange is closed, from 1998 on.
///
/// The source is NYSE Rule 7.2. The Exchange announced the closings of single days.
/// A holiday on a Saturday is kept on Friday, and one on a Sunday on Monday.
/// Only New Year's Day is not kept on Friday, since an accounting period ends then.
/// Days on which the Exchange opens late or closes early are not in the rules.
///
/// ```
/// nyse()[0].date_in(2022) // Some(2022-01-01)
/// nyse()[9].date_in(2021) // Some(2021-12-24)
/// ```
#[tactic(auto, unfolding(crate::specs::PublicHolidays::nyse_rules))]
pub fn nyse() -> [HolidayRule; 20]
    ensures rules { result ≡ nyse_rules }
{
    [
        // New Year's Day, 1 January.
        fixed(Month::January, 1, Moved::SundayToMonday, 1998, STILL),
        // Martin Luther King, Jr. Day, the third Monday in January, which the Exchange keeps from 1998 on.
        nth(3, Weekday::Mon, Month::January, 1998, STILL),
        // Washington's Birthday, the third Monday in February.
        nth(3, Weekday::Mon, Month::February, 1998, STILL),
        // Good Friday.
        easter(-2, 1998),
        // Memorial Day, the last Monday in May.
        last(Weekday::Mon, Month::May, 1998, STILL),
        // Juneteenth National Independence Day, 19 June, which the Exchange keeps from 2022 on.
        fixed(Month::June, 19, Moved::ToNearer, 2022, STILL),
        // Independence Day, 4 July.
        fixed(Month::July, 4, Moved::ToNearer, 1998, STILL),
        // Labor Day, the first Monday in September.
        nth(1, Weekday::Mon, Month::September, 1998, STILL),
        // Thanksgiving Day, the fourth Thursday in November.
        nth(4, Weekday::Thu, Month::November, 1998, STILL),
        // Christmas Day, 25 December.
        fixed(Month::December, 25, Moved::ToNearer, 1998, STILL),
        // 11 to 14 September 2001, after the attack on New York.
        fixed(Month::September, 11, Moved::Stays, 2001, 2001),
        fixed(Month::September, 12, Moved::Stays, 2001, 2001),
        fixed(Month::September, 13, Moved::Stays, 2001, 2001),
        fixed(Month::September, 14, Moved::Stays, 2001, 2001),
        // Mourning for the Presidents Reagan and Ford: 11 June 2004 and 2 January 2007.
        fixed(Month::June, 11, Moved::Stays, 2004, 2004),
        fixed(Month::January, 2, Moved::Stays, 2007, 2007),
        // 29 and 30 October 2012, in Hurricane Sandy.
        fixed(Month::October, 29, Moved::Stays, 2012, 2012),
        fixed(Month::October, 30, Moved::Stays, 2012, 2012),
        // Mourning for the Presidents Bush (the elder) and Carter: 5 December 2018 and 9 January 2025.
        fixed(Month::December, 5, Moved::Stays, 2018, 2018),
        fixed(Month::January, 9, Moved::Stays, 2025, 2025),
    ]
}

/// Returns the rules of the holidays that all Länder of Germany have, from 1995 on.
///
/// The sources are the laws on holidays of the sixteen Länder. German Unity Day is in the Unification Treaty.
/// Holidays of some Länder alone, such as Epiphany, are left out.
///
/// ```
/// germany()[5].date_in(2024) // Some(2024-05-20)
/// ```
///
/// The example is Whit Monday.
#[tactic(auto, unfolding(crate::specs::PublicHolidays::germany_rules))]
pub fn germany() -> [HolidayRule; 10]
    ensures rules { result ≡ germany_rules }
{
    [
        // New Year's Day.
        fixed(Month::January, 1, Moved::Stays, 1995, STILL),
        // Good Friday and Easter Monday.
        easter(-2, 1995),
        easter(1, 1995),
        // 1 May.
        fixed(Month::May, 1, Moved::Stays, 1995, STILL),
        // Ascension Day and Whit Monday.
        easter(39, 1995),
        easter(50, 1995),
        // German Unity Day, 3 October (Unification Treaty, article 2(2)).
        fixed(Month::October, 3, Moved::Stays, 1995, STILL),
        // Christmas Day and the day after it.
        fixed(Month::December, 25, Moved::Stays, 1995, STILL),
        fixed(Month::December, 26, Moved::Stays, 1995, STILL),
        // Reformation Day, 500 years on, by laws and ordinances of the Länder that do not have it every year.
        fixed(Month::October, 31, Moved::Stays, 2017, 2017),
    ]
}

/// Returns the rules of the legal holidays of France, from 1982 on (Code du travail, L3133-1, and L222-1 before).
///
/// None moves off a weekend. Those of Alsace and Moselle alone are left out.
///
/// ```
/// france()[4].date_in(2024) // Some(2024-05-09)
/// ```
///
/// The example is Ascension Day.
#[tactic(auto, unfolding(crate::specs::PublicHolidays::france_rules))]
pub fn france() -> [HolidayRule; 11]
    ensures rules { result ≡ france_rules }
{
    [
        // New Year's Day.
        fixed(Month::January, 1, Moved::Stays, 1982, STILL),
        // Easter Monday.
        easter(1, 1982),
        // 1 May, and 8 May (Law 81-893, from 1982 on).
        fixed(Month::May, 1, Moved::Stays, 1982, STILL),
        fixed(Month::May, 8, Moved::Stays, 1982, STILL),
        // Ascension Day and Whit Monday. Work on the day of solidarity does not change that it is a holiday.
        easter(39, 1982),
        easter(50, 1982),
        // 14 July.
        fixed(Month::July, 14, Moved::Stays, 1982, STILL),
        // Assumption Day and All Saints' Day.
        fixed(Month::August, 15, Moved::Stays, 1982, STILL),
        fixed(Month::November, 1, Moved::Stays, 1982, STILL),
        // 11 November.
        fixed(Month::November, 11, Moved::Stays, 1982, STILL),
        // Christmas Day.
        fixed(Month::December, 25, Moved::Stays, 1982, STILL),
    ]
}

/// Returns the rules of the days on which banks in Japan are closed, from 2007 on, besides Saturdays and Sundays.
///
/// They are the national holidays, 31 December, and 2 and 3 January.
/// The source of the former is the Act on National Holidays (No. 178 of 1948, as amended by No. 43 of 2005).
/// That of the last three days is the Order for Enforcement of the Banking Act, article 5.
/// A holiday on a Sunday is kept on the next day that is none (article 3(2) of the Act).
/// A day between two holidays is one too (article 3(3)).
///
/// ```
/// japan()[8].date_in(2026) // Some(2026-05-06)
/// japan()[20].date_in(2026) // Some(2026-09-23)
/// ```
///
/// So Constitution Memorial Day of 2026, a Sunday, is kept behind the two holidays after it.
/// The Cabinet announces the days of the equinoxes a year ahead. Those of the rules are computed, up to 2099.
/// From 2100 on the rules have no equinoxes, and no days between holidays.
#[tactic(auto, unfolding(crate::specs::PublicHolidays::japan_rules))]
pub fn japan() -> [HolidayRule; 47]
    ensures rules { result ≡ japan_rules }
{
    [
        // New Year's Day, and the days after it on which banks are closed (Order for Enforcement of the
        // Banking Act, article 5).
        fixed(Month::January, 1, Moved::SundayToMonday, 2007, STILL),
        fixed(Month::January, 2, Moved::Stays, 2007, STILL),
        fixed(Month::January, 3, Moved::Stays, 2007, STILL),
        // Coming of Age Day, the second Monday in January.
        nth(2, Weekday::Mon, Month::January, 2007, STILL),
        // National Foundation Day.
        fixed(Month::February, 11, Moved::SundayToMonday, 2007, STILL),
        // The Emperor's Birthday, from 2020 on (Act No. 63 of 2017). In 2019 there was none.
        fixed(Month::February, 23, Moved::SundayToMonday, 2020, STILL),
        // Vernal Equinox Day.
        equinox(HolidayDay::VernalEquinox),
        // Shōwa Day.
        fixed(Month::April, 29, Moved::SundayToMonday, 2007, STILL),
        // Constitution Memorial Day, Greenery Day and Children's Day: one on a Sunday is kept on 6 May.
        fixed(Month::May, 3, Moved::SundayPlus(3), 2007, STILL),
        fixed(Month::May, 4, Moved::SundayPlus(2), 2007, STILL),
        fixed(Month::May, 5, Moved::SundayToMonday, 2007, STILL),
        // Marine Day, the third Monday in July, and in 2020 and 2021 by the opening of the Olympic Games (Acts
        // No. 55 of 2018 and No. 68 of 2020).
        nth(3, Weekday::Mon, Month::July, 2007, 2019),
        fixed(Month::July, 23, Moved::Stays, 2020, 2020),
        fixed(Month::July, 22, Moved::Stays, 2021, 2021),
        nth(3, Weekday::Mon, Month::July, 2022, STILL),
        // Mountain Day, from 2016 on (Act No. 43 of 2014), and in 2020 and 2021 by the end of the Games.
        fixed(Month::August, 11, Moved::SundayToMonday, 2016, 2019),
        fixed(Month::August, 10, Moved::Stays, 2020, 2020),
        fixed(Month::August, 8, Moved::SundayToMonday, 2021, 2021),
        fixed(Month::August, 11, Moved::SundayToMonday, 2022, STILL),
        // Respect for the Aged Day, the third Monday in September.
        nth(3, Weekday::Mon, Month::September, 2007, STILL),
        // Autumnal Equinox Day.
        equinox(HolidayDay::AutumnalEquinox),
        // Sports Day, which was Health and Sports Day up to 2019: the second Monday in October, but for
        // 2020 and 2021.
        nth(2, Weekday::Mon, Month::October, 2007, 2019),
        fixed(Month::July, 24, Moved::Stays, 2020, 2020),
        fixed(Month::July, 23, Moved::Stays, 2021, 2021),
        nth(2, Weekday::Mon, Month::October, 2022, STILL),
        // Culture Day and Labour Thanksgiving Day.
        fixed(Month::November, 3, Moved::SundayToMonday, 2007, STILL),
        fixed(Month::November, 23, Moved::SundayToMonday, 2007, STILL),
        // The Emperor's Birthday, up to 2018.
        fixed(Month::December, 23, Moved::SundayToMonday, 2007, 2018),
        // The last day of the year, on which banks are closed.
        fixed(Month::December, 31, Moved::Stays, 2007, STILL),
        // The accession of the Emperor in 2019, with the days between holidays around it, and his
        // enthronement (Act No. 99 of 2018).
        fixed(Month::April, 30, Moved::Stays, 2019, 2019),
        fixed(Month::May, 1, Moved::Stays, 2019, 2019),
        fixed(Month::May, 2, Moved::Stays, 2019, 2019),
        fixed(Month::October, 22, Moved::Stays, 2019, 2019),
        // The Tuesday between Respect for the Aged Day and an equinox on a Wednesday, a day between two
        // holidays (article 3(3)).
        fixed(Month::September, 22, Moved::Stays, 2009, 2009),
        fixed(Month::September, 22, Moved::Stays, 2015, 2015),
        fixed(Month::September, 22, Moved::Stays, 2026, 2026),
        fixed(Month::September, 21, Moved::Stays, 2032, 2032),
        fixed(Month::September, 22, Moved::Stays, 2037, 2037),
        fixed(Month::September, 22, Moved::Stays, 2043, 2043),
        fixed(Month::September, 21, Moved::Stays, 2049, 2049),
        fixed(Month::September, 22, Moved::Stays, 2054, 2054),
        fixed(Month::September, 21, Moved::Stays, 2060, 2060),
        fixed(Month::September, 22, Moved::Stays, 2071, 2071),
        fixed(Month::September, 21, Moved::Stays, 2077, 2077),
        fixed(Month::September, 21, Moved::Stays, 2088, 2088),
        fixed(Month::September, 21, Moved::Stays, 2094, 2094),
        fixed(Month::September, 22, Moved::Stays, 2099, 2099),
    ]
}

fn fixed(month: Month, day: u32, moved: Moved, first_year: i32, last_year: i32) -> HolidayRule
    ensures { result ≡ rule_of (Fixed month day) moved first_year last_year }
{
    rule(HolidayDay::Fixed(month, day), moved, first_year, last_year)
}

fn nth(n: u8, weekday: Weekday, month: Month, first_year: i32, last_year: i32) -> HolidayRule
    ensures { result ≡ rule_of (NthWeekday n weekday month) Stays first_year last_year }
{
    let day = HolidayDay::NthWeekday(n, weekday, month);
    rule(day, Moved::Stays, first_year, last_year)
}

fn last(weekday: Weekday, month: Month, first_year: i32, last_year: i32) -> HolidayRule
    ensures { result ≡ rule_of (LastWeekday weekday month) Stays first_year last_year }
{
    let day = HolidayDay::LastWeekday(weekday, month);
    rule(day, Moved::Stays, first_year, last_year)
}

fn easter(days: i32, first_year: i32) -> HolidayRule
    ensures { result ≡ rule_of (EasterPlus days) Stays first_year (pos 262_142) }
{
    let day = HolidayDay::EasterPlus(days);
    rule(day, Moved::Stays, first_year, STILL)
}

// The rule of an equinox in Japan, up to the last year of its formula.
fn equinox(day: HolidayDay) -> HolidayRule
    ensures { result ≡ rule_of day SundayToMonday (pos 2_007) (pos 2_099) }
{
    rule(day, Moved::SundayToMonday, 2007, 2099)
}

fn rule(day: HolidayDay, moved: Moved, first_year: i32, last_year: i32) -> HolidayRule
    ensures { result ≡ rule_of day moved first_year last_year }
{
    HolidayRule {
        day,
        moved,
        first_year,
        last_year,
    }
}
