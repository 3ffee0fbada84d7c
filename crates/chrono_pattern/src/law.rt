//! Laws of patterns, each as the contract of a function.
ghost use Rattle.std.specs.Prelude.{◌≡◌, ◌≢◌, ◌↔◌, ◌<◌, ◌+◌, ◌-◌, ◌*◌, ◌/◌, ◌%◌, ℕ, ℤ, Bool, List, [], ◌∷◌, ◌++◌, false, true, Some, Ok, Err, codes, neg_ℤ, pos, ◌-ℤ◌, unsigned_abs};
ghost use Rattle.std.specs.List.{list_all};
ghost use Rattle.std.specs.Str.{IsAscii, IsUtf8};
ghost use Rattle.chrono_datetime.specs.Days.{IsDate, day_of, month_of, ordinal_of, year_of};
ghost use Rattle.chrono_datetime.specs.Moment.{Moment, moment};
ghost use Rattle.chrono_datetime.specs.Duration.{nanos_per_second};
ghost use Rattle.chrono_datetime.specs.Fields.{unix_epoch_day};
ghost use Rattle.chrono_datetime.specs.Time.{IsTime, TimeOfDay, time_at};
ghost use Rattle.chrono_datetime.specs.Weekday.{days_from_monday, days_from_sunday};
ghost use Rattle.chrono_datetime.specs.Weeks.{iso_week_of, iso_year_of, weekday_of};
ghost use Rattle.chrono_datetime.specs.declared.Weekday.TheVariants.{Mon, Sun};
ghost use Rattle.chrono_instant.specs.Instants.{epoch_second};
ghost use Rattle.chrono_instant.specs.Offsets.{IsOffset};
ghost use Rattle.chrono_pattern.specs.DateParts.{is_present, names_date, year_fits};
ghost use Rattle.chrono_pattern.specs.Fields.{fields_given};
ghost use Rattle.chrono_pattern.specs.NamedParts.{named_parts, sure_parts};
ghost use Rattle.chrono_pattern.specs.Needs.{needs_date, needs_offset, needs_time};
ghost use Rattle.chrono_text.specs.Numbers.{signed};
ghost use Rattle.chrono_pattern.specs.OffsetTexts.{GivesOffset, offset_written};
ghost use Rattle.chrono_pattern.specs.Progress.{is_of};
ghost use Rattle.chrono_pattern.specs.declared.class.Class.TheVariants.{Gap};
ghost use Rattle.chrono_pattern.specs.Parses.{IsDateBy, IsMomentBy, IsParseError, IsTimeBy, IsZonedBy};
ghost use Rattle.chrono_pattern.specs.Parts.{no_parts};
ghost use Rattle.chrono_pattern.specs.PatternItems.{pattern_items};
ghost use Rattle.chrono_pattern.specs.Kept.{LosesNothing, given_parts, keeps_stamp, keeps_year, tells_date, tells_moment, tells_time, tells_zoned};
ghost use Rattle.chrono_pattern.specs.ReadBack.{parts_of};
ghost use Rattle.chrono_pattern.specs.Separable.{is_separable, shows_ends};
ghost use Rattle.chrono_pattern.specs.Reads.{front_read, text_read};
ghost use Rattle.chrono_pattern.specs.TextPieces.{Reads, ReadsFront};
ghost use Rattle.chrono_pattern.specs.YearWeeks.{week_from_monday, week_from_sunday};
ghost use Rattle.chrono_pattern.specs.declared.error.ReadFault.TheVariants.{Impossible, Invalid, NotEnough, OutOfRange, TooLong, TooShort};
ghost use Rattle.chrono_pattern.specs.CutFractions.{as_written};
ghost use Rattle.chrono_pattern.specs.TimeParts.{IsClockTime, names_second, names_time, second_fits};
ghost use Rattle.chrono_pattern.specs.ZonedParts.{names_moment, names_zoned};
ghost use Rattle.chrono_pattern.specs.Patterns.{IsPattern, pattern_error, pattern_text, text_at_offset};
ghost use Rattle.chrono_pattern.specs.declared.error.PatternReadError.{PatternReadError};
ghost use Rattle.chrono_pattern.specs.declared.error.PatternFault.TheVariants.{Cut, Unknown};
ghost use Rattle.chrono_pattern.specs.declared.parsed.Parsed.{Parsed};
ghost use Rattle.chrono_pattern.specs.declared.stop.Stop.{Stop};

/// States known texts of times of day: midnight and noon on the clock of twelve hours, an hour of one digit with each padding, and a
/// leap second with its fraction.
pub fn known_texts_of_times()
    ensures midnight { (n : ℤ) → pattern_text (codes "%I:%M %p") (moment n (time_at 0 0 0 0)) ≡ codes "12:00 AM" }
    ensures noon { (n : ℤ) → pattern_text (codes "%l:%M %P") (moment n (time_at 12 0 0 0)) ≡ codes "12:00 pm" }
    ensures hour { (n : ℤ) → pattern_text (codes "%H %k %-H %_I") (moment n (time_at 3 0 0 0)) ≡ codes "03  3 3  3" }
    ensures leap { (n : ℤ) → pattern_text (codes "%T%.f %f") (moment n (time_at 23 59 59 1_500_000_000))
        ≡ codes "23:59:60.500 500000000" }
    ensures leap_of_an_hour { (n : ℤ) → pattern_text (codes "%S %-S %_S") (moment n (time_at 8 59 59 1_999_999_999)) ≡ codes "60 60 60" }
    ensures hour_before_one { (n : ℤ) → pattern_text (codes "%I %-I %l %p") (moment n (time_at 0 59 0 0)) ≡ codes "12 12 12 AM" }
    ensures digits { (n : ℤ) → pattern_text (codes "%R%.3f %6f%.f") (moment n (time_at 9 5 0 0)) ≡ codes "09:05.000 000000" }
{}

/// States known texts of dates:
///
/// - 29 February 2024 by its numbers, and 5 March 2024 with a space and with no padding;
/// - a date of the year -1, whose century is the one below 0;
/// - 30 December 2024, which lies in the first ISO week of 2025.
pub fn known_texts_of_dates()
    ensures leap_day { (m : Moment) → year_of m.date ≡ pos 2024 → month_of m.date ≡ 2 → day_of m.date ≡ 29
        → pattern_text (codes "%Y-%m-%d, %d.%m.%y") m ≡ codes "2024-02-29, 29.02.24" }
    ensures padded { (m : Moment) → day_of m.date ≡ 5 → ordinal_of m.date ≡ 65
        → pattern_text (codes "%e %-d %j") m ≡ codes " 5 5 065" }
    ensures before_zero { (m : Moment) → year_of m.date ≡ neg_ℤ (pos 1)
        → pattern_text (codes "%C %y %Y") m ≡ codes "-1 99 -0001" }
    ensures five_digits { (m : Moment) → year_of m.date ≡ pos 12_345
        → pattern_text (codes "%C %y %Y") m ≡ codes "123 45 +12345" }
    ensures week { (m : Moment) → iso_year_of m.date ≡ pos 2025 → iso_week_of m.date ≡ 1 → weekday_of m.date ≡ Mon
        → pattern_text (codes "%G-W%V-%u %a") m ≡ codes "2025-W01-1 Mon" }
{}

/// States known texts of each specifier but those of offsets, with each padding, as GNU date and chrono write them.
///
/// - A number of a date is written with no padding asked for, with `-`, with `_` and with `0`. It has fewer digits than are written at least.
/// - Hours are those of three in the afternoon and of three in the morning. The fraction begins with zeros.
/// - Groups are of 15:04:05 on Monday, 30 December 2024.
pub fn known_texts_of_all_specifiers()
    ensures year { (m : Moment) → year_of m.date ≡ pos 5
        → pattern_text (codes "%Y %-Y %_Y %0Y|%C %-C %_C %0C|%y %-y %_y %0y") m ≡ codes "0005 5    5 0005|00 0  0 00|05 5  5 05" }
    ensures iso_year { (m : Moment) → iso_year_of m.date ≡ pos 4 → pattern_text (codes "%G %-G %_G %0G|%g %-g %_g %0g") m
        ≡ codes "0004 4    4 0004|04 4  4 04" }
    ensures month { (m : Moment) → month_of m.date ≡ 6 → pattern_text (codes "%m %-m %_m %0m|%q %-q %_q %0q|%B|%b|%h") m
        ≡ codes "06 6  6 06|2 2 2 2|June|Jun|Jun" }
    ensures day { (m : Moment) → day_of m.date ≡ 2 → pattern_text (codes "%d %-d %_d %0d|%e %-e %_e %0e") m ≡ codes "02 2  2 02| 2 2  2 02" }
    ensures ordinal { (m : Moment) → ordinal_of m.date ≡ 2 → pattern_text (codes "%j %-j %_j %0j") m ≡ codes "002 2   2 002" }
    ensures weekday { (m : Moment) → weekday_of m.date ≡ Sun → pattern_text (codes "%u %-u %_u %0u|%w %-w %_w %0w|%A|%a") m
        ≡ codes "7 7 7 7|0 0 0 0|Sunday|Sun" }
    ensures iso_week { (m : Moment) → iso_week_of m.date ≡ 1 → pattern_text (codes "%V %-V %_V %0V") m ≡ codes "01 1  1 01" }
    ensures sundays { (m : Moment) → week_from_sunday m.date ≡ 1 → pattern_text (codes "%U %-U %_U %0U") m ≡ codes "01 1  1 01" }
    ensures mondays { (m : Moment) → week_from_monday m.date ≡ 0 → pattern_text (codes "%W %-W %_W %0W") m ≡ codes "00 0  0 00" }
    ensures afternoon { (n : ℤ) → pattern_text (codes "%H %k %I %l %p %P") (moment n (time_at 15 4 5 0)) ≡ codes "15 15 03  3 PM pm" }
    ensures hour { (n : ℤ) → pattern_text (codes "%H %-H %_H %0H|%k %-k %_k %0k|%I %-I %_I %0I|%l %-l %_l %0l") (moment n (time_at 3 4 5 0))
        ≡ codes "03 3  3 03| 3 3  3 03|03 3  3 03| 3 3  3 03" }
    ensures minute { (n : ℤ) → pattern_text (codes "%M %-M %_M %0M|%S %-S %_S %0S") (moment n (time_at 3 4 5 0))
        ≡ codes "04 4  4 04|05 5  5 05" }
    ensures fraction { (n : ℤ) → pattern_text (codes "%f %-f %_f %0f|%3f %6f %9f|%.f %.3f %.6f %.9f") (moment n (time_at 3 4 5 6_007_008))
        ≡ codes "006007008 6007008   6007008 006007008|006 006007 006007008|.006007008 .006 .006007 .006007008" }
    ensures dates { (m : Moment) → year_of m.date ≡ pos 2024 → month_of m.date ≡ 12 → day_of m.date ≡ 30
        → pattern_text (codes "%F %D %x %v") m ≡ codes "2024-12-30 12/30/24 12/30/24 30-Dec-2024" }
    ensures times { (n : ℤ) → pattern_text (codes "%R %T %X %r") (moment n (time_at 15 4 5 0)) ≡ codes "15:04 15:04:05 15:04:05 03:04:05 PM" }
    ensures all { (n : ℤ) → year_of n ≡ pos 2024 → month_of n ≡ 12 → day_of n ≡ 30 → weekday_of n ≡ Mon
        → pattern_text (codes "%c") (moment n (time_at 15 4 5 0)) ≡ codes "Mon Dec 30 15:04:05 2024" }
    ensures bytes { (m : Moment) → pattern_text (codes "%n%t%%") m ≡ 10 ∷ 9 ∷ codes "%" }
{}

/// States known errors: a specifier that is unknown, one that is cut, a padding before a word, a second padding, and a fourth colon.
pub fn known_errors()
    ensures unknown { pattern_error (codes "%Y-%Q") ≡ Some (record { byte = 3; cause = Unknown }) }
    ensures cut { pattern_error (codes "100%") ≡ Some (record { byte = 3; cause = Cut }) }
    ensures cut_padding { pattern_error (codes "%H:%-") ≡ Some (record { byte = 3; cause = Cut }) }
    ensures word { pattern_error (codes "%-a") ≡ Some (record { byte = 0; cause = Unknown }) }
    ensures second_padding { pattern_error (codes "%%%--d") ≡ Some (record { byte = 2; cause = Unknown }) }
    ensures digits { pattern_error (codes "%.5f") ≡ Some (record { byte = 0; cause = Unknown }) }
    ensures colons { pattern_error (codes "%::::z") ≡ Some (record { byte = 0; cause = Unknown }) }
    ensures cut_colon { pattern_error (codes "%H%:") ≡ Some (record { byte = 2; cause = Cut }) }
    ensures none { IsPattern (codes "100%% %.3f %-d") }
    ensures zoned { IsPattern (codes "%+ %:::z %#z %Z %-s") }
{}

/// States what known texts give:
///
/// - a name in small letters, and a number behind blanks;
/// - a year below 0, and a year of four digits with digits behind it;
/// - midnight on the clock of twelve hours, and a leap second with its fraction;
/// - Sunday by its number and by its name;
/// - the greatest numbers: second 60, day 366 of the year, ISO week 53, quarter 4, and week 0 of the year, which is the least.
pub fn known_readings()
    ensures date { text_read (codes "%d %b %Y") (codes "9 feb  2024")
        ≡ Ok (record no_parts { day = Some (pos 9); month = Some (pos 2); year = Some (pos 2024) }) }
    ensures below_zero { text_read (codes "%Y") (codes "-0044") ≡ Ok (record no_parts { year = Some (neg_ℤ (pos 44)) }) }
    ensures four_digits { text_read (codes "%Y%m") (codes "202407")
        ≡ Ok (record no_parts { year = Some (pos 2024); month = Some (pos 7) }) }
    ensures midnight { text_read (codes "%I %p") (codes "12 AM")
        ≡ Ok (record no_parts { hour_div_12 = Some (pos 0); hour_mod_12 = Some (pos 0) }) }
    ensures leap { text_read (codes "%S%.f") (codes "60.5")
        ≡ Ok (record no_parts { second = Some (pos 60); nanosecond = Some (pos 500_000_000) }) }
    ensures sunday { text_read (codes "%w %A") (codes "0 SUNDAY") ≡ Ok (record no_parts { weekday = Some (pos 7) }) }
    ensures blanks { text_read (codes "%d %m") (codes "9" ++ (9 ∷ 10 ∷ 11 ∷ 12 ∷ 13 ∷ 32 ∷ codes "2"))
        ≡ Ok (record no_parts { day = Some (pos 9); month = Some (pos 2) }) }
    ensures sixty { text_read (codes "%S") (codes "60") ≡ Ok (record no_parts { second = Some (pos 60) }) }
    ensures last_day { text_read (codes "%j") (codes "366") ≡ Ok (record no_parts { ordinal = Some (pos 366) }) }
    ensures last_week { text_read (codes "%V") (codes "53") ≡ Ok (record no_parts { isoweek = Some (pos 53) }) }
    ensures week_zero { text_read (codes "%U %W") (codes "00 0") ≡ Ok (record no_parts { week_from_sun = Some (pos 0); week_from_mon = Some (pos 0) }) }
    ensures last_quarter { text_read (codes "%q") (codes "4") ≡ Ok (record no_parts { quarter = Some (pos 4) }) }
{}

/// States where known texts are wrong, by the bytes that are left:
///
/// - a second value of a field, also in a group;
/// - numbers out of range: month 13, day 32, second 61, hour 24, minute 60, day 0 and 367 of the year, ISO week 54, and week 54 of the year;
/// - quarters 0 and 5, and a point with no digit behind it;
/// - hour 00 of the clock of twelve hours, and Sunday as 7 by `%w`, since neither is written so;
/// - another byte than that of the pattern, another word, and no digit;
/// - an end that comes too soon, and one that comes too late.
pub fn known_reading_errors()
    ensures twice { text_read (codes "%d %d") (codes "1 2") ≡ Err (record { cause = Impossible; left = 1 }) }
    ensures thirteen { text_read (codes "%m") (codes "13") ≡ Err (record { cause = OutOfRange; left = 2 }) }
    ensures letter { text_read (codes "%d.") (codes "12-") ≡ Err (record { cause = Invalid; left = 1 }) }
    ensures short { text_read (codes "%b") (codes "ma") ≡ Err (record { cause = TooShort; left = 2 }) }
    ensures long { text_read (codes "%y") (codes "2024") ≡ Err (record { cause = TooLong; left = 2 }) }
    ensures other_hour { text_read (codes "%R %H") (codes "09:30 10") ≡ Err (record { cause = Impossible; left = 2 }) }
    ensures day { text_read (codes "%d.") (codes "32.") ≡ Err (record { cause = OutOfRange; left = 3 }) }
    ensures second { text_read (codes "%S") (codes "61") ≡ Err (record { cause = OutOfRange; left = 2 }) }
    ensures hour { text_read (codes "%H") (codes "24") ≡ Err (record { cause = OutOfRange; left = 2 }) }
    ensures minute { text_read (codes "%R") (codes "09:60") ≡ Err (record { cause = OutOfRange; left = 2 }) }
    ensures day_zero { text_read (codes "%j") (codes "000") ≡ Err (record { cause = OutOfRange; left = 3 }) }
    ensures day_of_year { text_read (codes "%j") (codes "367") ≡ Err (record { cause = OutOfRange; left = 3 }) }
    ensures iso_week { text_read (codes "W%V") (codes "W54") ≡ Err (record { cause = OutOfRange; left = 2 }) }
    ensures week { text_read (codes "%U") (codes "54") ≡ Err (record { cause = OutOfRange; left = 2 }) }
    ensures quarter_zero { text_read (codes "%q") (codes "0") ≡ Err (record { cause = OutOfRange; left = 1 }) }
    ensures quarter { text_read (codes "%q") (codes "5") ≡ Err (record { cause = OutOfRange; left = 1 }) }
    ensures half_hour { text_read (codes "%I") (codes "00") ≡ Err (record { cause = OutOfRange; left = 2 }) }
    ensures sunday { text_read (codes "%w") (codes "7") ≡ Err (record { cause = OutOfRange; left = 1 }) }
    ensures slash { text_read (codes "%F") (codes "2024/02/29") ≡ Err (record { cause = Invalid; left = 6 }) }
    ensures no_month { text_read (codes "%B") (codes "Foo") ≡ Err (record { cause = Invalid; left = 3 }) }
    ensures no_half { text_read (codes "%p") (codes "xm") ≡ Err (record { cause = Invalid; left = 2 }) }
    ensures no_weekday { text_read (codes "%a") (codes "Foo") ≡ Err (record { cause = Invalid; left = 3 }) }
    ensures no_digit { text_read (codes "%H") (codes "x") ≡ Err (record { cause = Invalid; left = 1 }) }
    ensures no_minute { text_read (codes "%R") (codes "09:") ≡ Err (record { cause = TooShort; left = 0 }) }
    ensures no_fraction { text_read (codes "%S%.f") (codes "05.") ≡ Err (record { cause = TooShort; left = 0 }) }
    ensures no_digit_of_fraction { text_read (codes "%S%.f") (codes "05.x") ≡ Err (record { cause = Invalid; left = 1 }) }
    ensures second_behind { text_read (codes "%R") (codes "09:30:15") ≡ Err (record { cause = TooLong; left = 3 }) }
{}

/// States which values known parts fit:
///
/// - a year of the century alone is from 1970 to 2069, so 69 is 2069 and 70 is 1970. With its century it is any year;
/// - a leap second is second 60, and no other second is.
pub fn known_fitting_values()
    ensures last_of_window { year_fits (record no_parts { year_mod_100 = Some (pos 69) }) (pos 2069) ≡ true }
    ensures before_window { year_fits (record no_parts { year_mod_100 = Some (pos 69) }) (pos 1969) ≡ false }
    ensures first_of_window { year_fits (record no_parts { year_mod_100 = Some (pos 70) }) (pos 1970) ≡ true }
    ensures behind_window { year_fits (record no_parts { year_mod_100 = Some (pos 70) }) (pos 2070) ≡ false }
    ensures century { year_fits (record no_parts { year_div_100 = Some (pos 18); year_mod_100 = Some (pos 70) }) (pos 1870) ≡ true }
    ensures leap { second_fits (record no_parts { second = Some (pos 60) }) (time_at 8 59 59 1_000_000_000) ≡ true }
    ensures no_leap { second_fits (record no_parts { second = Some (pos 60) }) (time_at 8 59 59 999_999_999) ≡ false }
{}

/// States known texts of offsets from UTC, of the seconds from 1970, and of a date-time with its offset:
///
/// - nine hours and a half, with each specifier;
/// - five hours and fifteen seconds behind UTC, and half a minute behind it;
/// - the first second of 1970 in UTC, and an hour ahead of it.
pub fn known_texts_of_offsets()
    ensures half_hour { (m : Moment) → text_at_offset (codes "%z %:z %::z %:::z %#z %Z") m (pos 34_200)
        ≡ codes "+0930 +09:30 +09:30:00 +09 +0930 +09:30" }
    ensures behind { (m : Moment) → text_at_offset (codes "%z %::z %Z") m (neg_ℤ (pos 18_015)) ≡ codes "-0500 -05:00:15 -05:00:15" }
    ensures half_minute { (m : Moment) → text_at_offset (codes "%z %:z") m (neg_ℤ (pos 30)) ≡ codes "-0000 -00:00" }
    ensures first_second { pattern_text (codes "%s") (moment unix_epoch_day (time_at 0 0 0 0)) ≡ codes "0" }
    ensures hour_ahead { text_at_offset (codes "%-s") (moment unix_epoch_day (time_at 0 0 0 0)) (pos 3_600) ≡ codes "-3600" }
    ensures all { (n : ℤ) → year_of n ≡ pos 2024 → month_of n ≡ 2 → day_of n ≡ 29
        → text_at_offset (codes "%+") (moment n (time_at 9 30 5 250_000_000)) (pos 19_800) ≡ codes "2024-02-29T09:30:05.250+05:30" }
{}

/// States what known texts give of an offset and of the seconds from 1970:
///
/// - an offset with a colon or a blank where the pattern has none, and one with seconds;
/// - hours alone, and UTC by its name;
/// - a name of a zone, which gives nothing;
/// - seconds before 1970, and a date-time with its offset.
pub fn known_readings_of_offsets()
    ensures colon { text_read (codes "%z") (codes "+09:30") ≡ Ok (record no_parts { offset = Some (pos 34_200) }) }
    ensures blank { text_read (codes "%:z") (codes "-00 30") ≡ Ok (record no_parts { offset = Some (neg_ℤ (pos 1_800)) }) }
    ensures seconds { text_read (codes "%::z") (codes "-05:00:15") ≡ Ok (record no_parts { offset = Some (neg_ℤ (pos 18_015)) }) }
    ensures hours { text_read (codes "%:::z.") (codes "+09.") ≡ Ok (record no_parts { offset = Some (pos 32_400) }) }
    ensures hours_alone { text_read (codes "%#z") (codes "+05") ≡ Ok (record no_parts { offset = Some (pos 18_000) }) }
    ensures utc { text_read (codes "%#z") (codes "Z") ≡ Ok (record no_parts { offset = Some (pos 0) }) }
    ensures zone { text_read (codes "%Z %M") (codes "Europe/Oslo 30") ≡ Ok (record no_parts { minute = Some (pos 30) }) }
    ensures before { text_read (codes "%s") (codes "-86400") ≡ Ok (record no_parts { timestamp = Some (neg_ℤ (pos 86_400)) }) }
    ensures all { text_read (codes "%+") (codes "2024-02-29 09:30:05.5utc")
        ≡ Ok (record no_parts {
          year = Some (pos 2024);
          month = Some (pos 2);
          day = Some (pos 29);
          hour_div_12 = Some (pos 0);
          hour_mod_12 = Some (pos 9);
          minute = Some (pos 30);
          second = Some (pos 5);
          nanosecond = Some (pos 500_000_000);
          offset = Some (pos 0);
        }) }
{}

/// States that `%z` reads each offset of less than a day as ISO 8601 writes it: a sign, hours and minutes of two digits, and a colon
/// between them or nothing. Any other colons and blanks are read there too, and blanks in front. It reads nothing else.
pub fn offsets_are_read_as_they_are_written()
    ensures exact { (text : List ℕ) → (parts : Parsed) → text_read (codes "%z") text ≡ Ok parts ↔ GivesOffset text parts }
    ensures written { (negative : Bool) → (hours minutes : ℕ) → (between : List ℕ) → hours < 24 → minutes < 60 → list_all (is_of Gap) between ≡ true
        → text_read (codes "%z") (offset_written negative hours between minutes)
        ≡ Ok (record no_parts { offset = Some (signed negative (hours * 3_600 + minutes * 60)) }) }
    ensures colon { offset_written true 9 (codes ":") 30 ≡ codes "-09:30" }
    ensures nothing { offset_written false 9 [] 30 ≡ codes "+0930" }
{}

/// States that a pattern reads exactly the texts that are pieces in a row, one for each of its items, and with which parts. The same is so of
/// the front of a text, with what is behind it.
///
/// `Reads` says what the piece of each item is, and not how a reader finds it: blanks and digits for a number, letters of any case for a word.
pub fn texts_are_read_by_their_pieces()
    ensures exact { (bytes text : List ℕ) → (parts : Parsed) → text_read bytes text ≡ Ok parts ↔ Reads (pattern_items bytes) text parts }
    ensures front { (bytes text : List ℕ) → (parts : Parsed) → (rest : List ℕ)
        → front_read bytes text ≡ Ok (record { rest = rest; parsed = parts }) ↔ ReadsFront (pattern_items bytes) text parts rest }
{}

/// States where known texts of an offset and of the seconds from 1970 are wrong, by the bytes that are left:
///
/// - sixty minutes, a whole day, and minutes that are missing;
/// - an offset with no sign, and one that contradicts another;
/// - a second that no date has, and one of 19 digits;
/// - `%+` with another byte than `T` or a blank between the date and the time, and with no time.
pub fn known_reading_errors_of_offsets()
    ensures sixty { text_read (codes "%z") (codes "+0960") ≡ Err (record { cause = OutOfRange; left = 2 }) }
    ensures day { text_read (codes "%z") (codes "-2400") ≡ Err (record { cause = OutOfRange; left = 5 }) }
    ensures short { text_read (codes "%:z") (codes "+09:") ≡ Err (record { cause = TooShort; left = 0 }) }
    ensures empty { text_read (codes "%z") [] ≡ Err (record { cause = TooShort; left = 0 }) }
    ensures letter { text_read (codes "%z") (codes "+x9") ≡ Err (record { cause = Invalid; left = 2 }) }
    ensures sign { text_read (codes "%:::z") (codes "09") ≡ Err (record { cause = Invalid; left = 2 }) }
    ensures twice { text_read (codes "%z%z") (codes "+0930-0930") ≡ Err (record { cause = Impossible; left = 5 }) }
    ensures late { text_read (codes "%s") (codes "8210266876800") ≡ Err (record { cause = OutOfRange; left = 13 }) }
    ensures digits { text_read (codes "%s") (codes "1234567890123456789") ≡ Err (record { cause = OutOfRange; left = 19 }) }
    ensures other_between { text_read (codes "%+") (codes "2024-02-29x09:30:05Z") ≡ Err (record { cause = Invalid; left = 10 }) }
    ensures none_between { text_read (codes "%+") (codes "2024-02-29") ≡ Err (record { cause = TooShort; left = 0 }) }
{}

/// States that the specifiers of a pattern tell what its texts name, before any text is read:
///
/// - a date: all texts that it reads name one, or none does;
/// - a time of day: the same, unless the pattern has a fraction and no second. A text may leave such a fraction out;
/// - a date-time, and one with its offset: the same.
pub fn fields_tell_what_is_named()
    ensures date { (bytes text : List ℕ) → (parts : Parsed) → text_read bytes text ≡ Ok parts → names_date parts ≡ names_date (named_parts bytes) }
    ensures time { (bytes text : List ℕ) → (parts : Parsed) → names_second (named_parts bytes) ≡ true → text_read bytes text ≡ Ok parts
        → names_time parts ≡ names_time (named_parts bytes) }
    ensures date_time { (bytes text : List ℕ) → (parts : Parsed) → names_second (named_parts bytes) ≡ true → text_read bytes text ≡ Ok parts
        → names_moment parts ≡ names_moment (named_parts bytes) }
    ensures zoned { (bytes text : List ℕ) → (parts : Parsed) → names_second (named_parts bytes) ≡ true → text_read bytes text ≡ Ok parts
        → names_zoned parts ≡ names_zoned (named_parts bytes) }
{}

/// States which parts suffice for a date, each given as any number, and that fewer do not:
///
/// - a year with a month and a day, or with a day of the year; the place of the year in its century serves as the year, the century alone does not;
/// - an ISO year with a week and a weekday; the place of the ISO year in its century does not serve;
/// - a year with a week from Sunday or from Monday, and a weekday.
pub fn known_names_of_dates()
    ensures calendar { (v : ℤ) → names_date (record no_parts { year = Some v; month = Some v; day = Some v }) ≡ true }
    ensures in_century { (v : ℤ) → names_date (record no_parts { year_mod_100 = Some v; month = Some v; day = Some v }) ≡ true }
    ensures century_alone { (v : ℤ) → names_date (record no_parts { year_div_100 = Some v; month = Some v; day = Some v }) ≡ false }
    ensures no_year { (v : ℤ) → names_date (record no_parts { month = Some v; day = Some v }) ≡ false }
    ensures no_month { (v : ℤ) → names_date (record no_parts { year = Some v; day = Some v }) ≡ false }
    ensures no_day { (v : ℤ) → names_date (record no_parts { year = Some v; month = Some v }) ≡ false }
    ensures ordinal { (v : ℤ) → names_date (record no_parts { year = Some v; ordinal = Some v }) ≡ true }
    ensures ordinal_in_century { (v : ℤ) → names_date (record no_parts { year_mod_100 = Some v; ordinal = Some v }) ≡ true }
    ensures ordinal_alone { (v : ℤ) → names_date (record no_parts { ordinal = Some v }) ≡ false }
    ensures iso { (v : ℤ) → names_date (record no_parts { isoyear = Some v; isoweek = Some v; weekday = Some v }) ≡ true }
    ensures iso_in_century { (v : ℤ) → names_date (record no_parts { isoyear_mod_100 = Some v; isoweek = Some v; weekday = Some v }) ≡ false }
    ensures iso_of_year { (v : ℤ) → names_date (record no_parts { year = Some v; isoweek = Some v; weekday = Some v }) ≡ false }
    ensures no_iso_week { (v : ℤ) → names_date (record no_parts { isoyear = Some v; weekday = Some v }) ≡ false }
    ensures no_iso_weekday { (v : ℤ) → names_date (record no_parts { isoyear = Some v; isoweek = Some v }) ≡ false }
    ensures sunday_weeks { (v : ℤ) → names_date (record no_parts { year = Some v; week_from_sun = Some v; weekday = Some v }) ≡ true }
    ensures monday_weeks { (v : ℤ) → names_date (record no_parts { year = Some v; week_from_mon = Some v; weekday = Some v }) ≡ true }
    ensures no_weekday_from_sunday { (v : ℤ) → names_date (record no_parts { year = Some v; week_from_sun = Some v }) ≡ false }
    ensures no_weekday_from_monday { (v : ℤ) → names_date (record no_parts { year = Some v; week_from_mon = Some v }) ≡ false }
    ensures weeks_of_no_year { (v : ℤ) → names_date (record no_parts { week_from_sun = Some v; week_from_mon = Some v; weekday = Some v }) ≡ false }
{}

/// States which parts suffice for a time of day, for a date-time and for one with its offset, each given as any number, and that fewer do not:
///
/// - a half of the day, an hour of it and a minute; a fraction needs its second;
/// - a date with a time of day, or the seconds from 1970 alone;
/// - both with an offset, or the seconds from 1970 alone.
pub fn known_names_of_times()
    ensures minute { (v : ℤ) → names_time (record no_parts { hour_div_12 = Some v; hour_mod_12 = Some v; minute = Some v }) ≡ true }
    ensures second { (v : ℤ) → names_time (record no_parts { hour_div_12 = Some v; hour_mod_12 = Some v; minute = Some v; second = Some v }) ≡ true }
    ensures fraction { (v : ℤ) → names_time (record no_parts { hour_div_12 = Some v; hour_mod_12 = Some v; minute = Some v; second = Some v; nanosecond = Some v }) ≡ true }
    ensures fraction_alone { (v : ℤ) → names_time (record no_parts { hour_div_12 = Some v; hour_mod_12 = Some v; minute = Some v; nanosecond = Some v }) ≡ false }
    ensures no_half { (v : ℤ) → names_time (record no_parts { hour_mod_12 = Some v; minute = Some v }) ≡ false }
    ensures no_hour { (v : ℤ) → names_time (record no_parts { hour_div_12 = Some v; minute = Some v }) ≡ false }
    ensures no_minute { (v : ℤ) → names_time (record no_parts { hour_div_12 = Some v; hour_mod_12 = Some v }) ≡ false }
    ensures date_time { (v : ℤ) → names_moment (record no_parts { year = Some v; month = Some v; day = Some v; hour_div_12 = Some v; hour_mod_12 = Some v; minute = Some v }) ≡ true }
    ensures date_alone { (v : ℤ) → names_moment (record no_parts { year = Some v; month = Some v; day = Some v }) ≡ false }
    ensures time_alone { (v : ℤ) → names_moment (record no_parts { hour_div_12 = Some v; hour_mod_12 = Some v; minute = Some v }) ≡ false }
    ensures stamp { (v : ℤ) → names_moment (record no_parts { timestamp = Some v }) ≡ true }
    ensures zoned { (v : ℤ) → names_zoned (record no_parts { year = Some v; month = Some v; day = Some v; hour_div_12 = Some v; hour_mod_12 = Some v; minute = Some v; offset = Some v }) ≡ true }
    ensures no_offset { (v : ℤ) → names_zoned (record no_parts { year = Some v; month = Some v; day = Some v; hour_div_12 = Some v; hour_mod_12 = Some v; minute = Some v }) ≡ false }
    ensures offset_alone { (v : ℤ) → names_zoned (record no_parts { offset = Some v }) ≡ false }
    ensures stamp_in_utc { (v : ℤ) → names_zoned (record no_parts { timestamp = Some v }) ≡ true }
{}

/// States which specifiers are of a date, of the time of day, of the offset, or of none of them.
pub fn known_needs()
    ensures dates { list_all needs_date (codes "%Y" ∷ codes "%C" ∷ codes "%y" ∷ codes "%q" ∷ codes "%m" ∷ codes "%b" ∷ codes "%B" ∷ codes "%h" ∷ codes "%d" ∷ codes "%e" ∷ codes "%a" ∷ codes "%A" ∷ codes "%w" ∷ codes "%u" ∷ codes "%U" ∷ codes "%W" ∷ codes "%G" ∷ codes "%g" ∷ codes "%V" ∷ codes "%j" ∷ codes "%D" ∷ codes "%x" ∷ codes "%F" ∷ codes "%v" ∷ codes "%c" ∷ codes "%s" ∷ codes "%+" ∷ []) ≡ true }
    ensures no_dates { needs_date (codes "%H%k%I%l%P%p%M%S%f%3f%.f%.3f%R%T%X%r%z%:z%::z%:::z%#z%Z") ≡ false }
    ensures times { list_all needs_time (codes "%H" ∷ codes "%k" ∷ codes "%I" ∷ codes "%l" ∷ codes "%P" ∷ codes "%p" ∷ codes "%M" ∷ codes "%S" ∷ codes "%f" ∷ codes "%3f" ∷ codes "%.f" ∷ codes "%.3f" ∷ codes "%R" ∷ codes "%T" ∷ codes "%X" ∷ codes "%r" ∷ codes "%c" ∷ codes "%s" ∷ codes "%+" ∷ []) ≡ true }
    ensures no_times { needs_time (codes "%Y%C%y%q%m%b%B%h%d%e%a%A%w%u%U%W%G%g%V%j%D%x%F%v%z%:z%::z%:::z%#z%Z") ≡ false }
    ensures offsets { list_all needs_offset (codes "%z" ∷ codes "%:z" ∷ codes "%::z" ∷ codes "%:::z" ∷ codes "%#z" ∷ codes "%Z" ∷ codes "%+" ∷ []) ≡ true }
    ensures no_offsets { needs_offset (codes "%Y%C%y%q%m%b%B%h%d%e%a%A%w%u%U%W%G%g%V%j%D%x%F%v%H%k%I%l%P%p%M%S%f%3f%.f%.3f%R%T%X%r%c%s") ≡ false }
    ensures bytes { list_all needs_date (codes "%%" ∷ codes "%n%t." ∷ []) ≡ false }
{}

/// States what no text of a pattern names, by its specifiers alone. They tell `sure_parts`, the parts that each text gives:
///
/// - If those name no date, no text names one. Else each text does.
/// - The same is so of a time of day, of a date-time and of one with its offset. But a text may give a fraction that it need not give, and no
///   second before it. Such a text names no time of day.
/// - `%R%.f` may name a time of day, since a text may leave the fraction out. `%R%f` names none.
pub fn specifiers_tell_what_no_text_names()
    ensures no_date { (bytes text : List ℕ) → (parts : Parsed) → names_date (sure_parts bytes) ≡ false → text_read bytes text ≡ Ok parts
        → names_date parts ≡ false }
    ensures no_time { (bytes text : List ℕ) → (parts : Parsed) → names_time (sure_parts bytes) ≡ false → text_read bytes text ≡ Ok parts
        → names_time parts ≡ false }
    ensures no_date_time { (bytes text : List ℕ) → (parts : Parsed) → names_moment (sure_parts bytes) ≡ false → text_read bytes text ≡ Ok parts
        → names_moment parts ≡ false }
    ensures no_zoned { (bytes text : List ℕ) → (parts : Parsed) → names_zoned (sure_parts bytes) ≡ false → text_read bytes text ≡ Ok parts
        → names_zoned parts ≡ false }
    ensures date { (bytes text : List ℕ) → (parts : Parsed) → text_read bytes text ≡ Ok parts → names_date parts ≡ names_date (sure_parts bytes) }
    ensures time { (bytes text : List ℕ) → (parts : Parsed) → text_read bytes text ≡ Ok parts → names_second parts ≡ true
        → names_time parts ≡ names_time (sure_parts bytes) }
    ensures date_time { (bytes text : List ℕ) → (parts : Parsed) → text_read bytes text ≡ Ok parts → names_second parts ≡ true
        → names_moment parts ≡ names_moment (sure_parts bytes) }
    ensures zoned { (bytes text : List ℕ) → (parts : Parsed) → text_read bytes text ≡ Ok parts → names_second parts ≡ true
        → names_zoned parts ≡ names_zoned (sure_parts bytes) }
    ensures fraction_left_out { names_time (sure_parts (codes "%R%.f")) ≡ true }
    ensures fraction_alone { names_time (sure_parts (codes "%R%f")) ≡ false }
{}

/// States that no place of a text is why fields do not suffice: a reader stops for other causes. So `NotEnough` is told by the parts alone.
pub fn no_text_stops_for_missing_fields()
    ensures whole { (bytes text : List ℕ) → (stop : Stop) → text_read bytes text ≡ Err stop → stop.cause ≢ NotEnough }
    ensures front { (bytes text : List ℕ) → (stop : Stop) → front_read bytes text ≡ Err stop → stop.cause ≢ NotEnough }
{}

/// States that the error of a text is `NotEnough` exactly if the specifiers of the pattern name no such value:
///
/// - of a date in any case;
/// - of a time of day, of a date-time and of one with its offset, if the pattern has no fraction or a second too.
pub fn not_enough_is_told_by_the_specifiers()
    ensures date { (bytes text : List ℕ) → (e : PatternReadError) → IsParseError names_date bytes text e
        → (e.cause ≡ NotEnough) ↔ (names_date (sure_parts bytes) ≡ false) }
    ensures time { (bytes text : List ℕ) → (e : PatternReadError) → names_second (named_parts bytes) ≡ true → IsParseError names_time bytes text e
        → (e.cause ≡ NotEnough) ↔ (names_time (sure_parts bytes) ≡ false) }
    ensures date_time { (bytes text : List ℕ) → (e : PatternReadError) → names_second (named_parts bytes) ≡ true
        → IsParseError names_moment bytes text e → (e.cause ≡ NotEnough) ↔ (names_moment (sure_parts bytes) ≡ false) }
    ensures zoned { (bytes text : List ℕ) → (e : PatternReadError) → names_second (named_parts bytes) ≡ true → IsParseError names_zoned bytes text e
        → (e.cause ≡ NotEnough) ↔ (names_zoned (sure_parts bytes) ≡ false) }
{}

/// States that which fields are given tells what they name, whatever their values are. So the fields of a pattern tell what it names.
pub fn fields_tell_the_names()
    ensures date { (a b : Parsed) → fields_given a ≡ fields_given b → names_date a ≡ names_date b }
    ensures time { (a b : Parsed) → fields_given a ≡ fields_given b → names_time a ≡ names_time b }
    ensures date_time { (a b : Parsed) → fields_given a ≡ fields_given b → names_moment a ≡ names_moment b }
    ensures zoned { (a b : Parsed) → fields_given a ≡ fields_given b → names_zoned a ≡ names_zoned b }
{}

/// States that a separable pattern reads back what it writes of a date-time that it keeps.
///
/// Each text of a separable pattern shows where every item ends. A number with fewer digits than are read at most has no digit behind it.
/// The same is so of a fraction behind a point, of `%s`, and of hours alone. `%.f` also has no point behind it. No pattern with `%Z` is
/// separable, since `%Z` reads all bytes up to a blank. For all years, a year has no digit behind it, and no century stands in the pattern.
///
/// A pattern keeps a date-time whose fraction and offset have no more digits than it writes, and whose years are in its range.
///
/// - It keeps each whole second of those years at an offset of whole hours.
/// - A text gives the parts that the pattern names, each as the date-time has it.
/// - It is of the date, if the pattern names one, and tells the century or the year is from 1970 to 2069.
/// - It is of the time of day, if the pattern names one, and what it does not name of the second is 0.
/// - It is of the date-time, and of the one with its offset, if the pattern names and tells them so.
pub fn separable_patterns_read_back()
    ensures whole { (wide : Bool) → (bytes : List ℕ) → (m : Moment) → (x : ℤ) → shows_ends wide bytes ≡ true → IsTime m.time → IsOffset x
        → keeps_year wide (year_of m.date) ≡ true → keeps_year wide (iso_year_of m.date) ≡ true → m.time.fraction % nanos_per_second ≡ 0
        → unsigned_abs x % 3_600 ≡ 0 → keeps_stamp (epoch_second m -ℤ x) ≡ true → LosesNothing wide bytes m x }
    ensures parts { (wide : Bool) → (bytes : List ℕ) → (m : Moment) → (x : ℤ) → shows_ends wide bytes ≡ true → LosesNothing wide bytes m x
        → text_read bytes (text_at_offset bytes m x) ≡ Ok (parts_of (given_parts bytes m.time) m x) }
    ensures date { (wide : Bool) → (bytes : List ℕ) → (m : Moment) → shows_ends wide bytes ≡ true → LosesNothing wide bytes m (pos 0)
        → names_date (named_parts bytes) ≡ true → tells_date (named_parts bytes) m.date ≡ true → IsDateBy bytes (pattern_text bytes m) m.date }
    ensures time { (wide : Bool) → (bytes : List ℕ) → (m : Moment) → shows_ends wide bytes ≡ true → LosesNothing wide bytes m (pos 0)
        → names_time (named_parts bytes) ≡ true → tells_time (named_parts bytes) m.time ≡ true → IsTimeBy bytes (pattern_text bytes m) m.time }
    ensures date_time { (wide : Bool) → (bytes : List ℕ) → (m : Moment) → shows_ends wide bytes ≡ true → LosesNothing wide bytes m (pos 0)
        → names_moment (named_parts bytes) ≡ true → tells_moment (named_parts bytes) m ≡ true → IsMomentBy bytes (pattern_text bytes m) m }
    ensures zoned { (wide : Bool) → (bytes : List ℕ) → (m : Moment) → (x : ℤ) → shows_ends wide bytes ≡ true → LosesNothing wide bytes m x
        → names_zoned (named_parts bytes) ≡ true → tells_zoned (named_parts bytes) m x ≡ true → IsZonedBy bytes (text_at_offset bytes m x) m x }
{}

/// States that what a separable pattern loses of a year or of a fraction it loses for good: the value that its text gives writes the same
/// text again. An offset has to be one that the pattern keeps.
///
/// So `%d.%m.%y` of a date of 1900 gives one of 2000, with the same text, and `%T%.3f` loses the microseconds alone. The pattern writes the same
/// of `as_written bytes m`: of the date-time with as many digits of its fraction as the pattern has. It keeps that one whole, as the law above says.
///
/// - Beside a date or a time of day alone stands no `%s`. In `%s %d.%m.%y` the year of two digits may contradict the seconds.
/// - `date_time` and `zoned` are of patterns without `%s`, and of any value that fits the text.
/// - `clock` and `zoned_clock` are of all patterns, and of what a clock shows: its leap seconds are behind second 59. The offset has whole minutes.
pub fn lossy_patterns_write_the_same_again()
    ensures cut { (bytes : List ℕ) → (m : Moment) → (x : ℤ) → text_at_offset bytes m x ≡ text_at_offset bytes (as_written bytes m) x }
    ensures date { (wide : Bool) → (bytes : List ℕ) → (m : Moment) → (n : ℤ) → shows_ends wide bytes ≡ true
        → LosesNothing wide bytes (as_written bytes m) (pos 0)
        → is_present (named_parts bytes).timestamp ≡ false → IsDateBy bytes (pattern_text bytes m) n
        → pattern_text bytes (moment n m.time) ≡ pattern_text bytes m }
    ensures time { (wide : Bool) → (bytes : List ℕ) → (m : Moment) → (t : TimeOfDay) → shows_ends wide bytes ≡ true
        → LosesNothing wide bytes (as_written bytes m) (pos 0)
        → is_present (named_parts bytes).timestamp ≡ false → IsTimeBy bytes (pattern_text bytes m) t
        → pattern_text bytes (moment m.date t) ≡ pattern_text bytes m }
    ensures date_time { (wide : Bool) → (bytes : List ℕ) → (m w : Moment) → shows_ends wide bytes ≡ true
        → LosesNothing wide bytes (as_written bytes m) (pos 0) → is_present (named_parts bytes).timestamp ≡ false
        → IsMomentBy bytes (pattern_text bytes m) w → pattern_text bytes w ≡ pattern_text bytes m }
    ensures zoned { (wide : Bool) → (bytes : List ℕ) → (m : Moment) → (x : ℤ) → (w : Moment) → (y : ℤ) → shows_ends wide bytes ≡ true
        → LosesNothing wide bytes (as_written bytes m) x → is_present (named_parts bytes).timestamp ≡ false
        → IsZonedBy bytes (text_at_offset bytes m x) w y → text_at_offset bytes w y ≡ text_at_offset bytes m x }
    ensures clock { (wide : Bool) → (bytes : List ℕ) → (m w : Moment) → shows_ends wide bytes ≡ true
        → LosesNothing wide bytes (as_written bytes m) (pos 0) → IsClockTime w.time
        → IsMomentBy bytes (pattern_text bytes m) w → pattern_text bytes w ≡ pattern_text bytes m }
    ensures zoned_clock { (wide : Bool) → (bytes : List ℕ) → (m : Moment) → (x : ℤ) → (w : Moment) → (y : ℤ) → shows_ends wide bytes ≡ true
        → LosesNothing wide bytes (as_written bytes m) x → unsigned_abs x % 60 ≡ 0 → IsClockTime w.time
        → IsZonedBy bytes (text_at_offset bytes m x) w y → text_at_offset bytes w y ≡ text_at_offset bytes m x }
{}

/// States which known patterns are separable:
///
/// - for all years: a year with a byte behind it, `%c`, and RFC 3339;
/// - for the years 0 to 9999: a year with digits behind it, and a century;
/// - for no years: numbers without padding side by side, digits or a point behind a fraction, minutes behind hours, and the name of a zone;
/// - with a fraction behind a point if a second or `%s` stands beside it, or if the fraction may be left out.
pub fn known_separable_patterns()
    ensures dashes { is_separable true (codes "%Y-%m-%d") ≡ true }
    ensures whole { is_separable true (codes "%+") ≡ true }
    ensures long_date { is_separable true (codes "%A, %-d. %B %Y, %-I:%M %p") ≡ true }
    ensures spaces { is_separable true (codes "%e%t%k:%M:%S%.f %:z") ≡ true }
    ensures stamp { is_separable true (codes "%s %z") ≡ true }
    ensures digits { is_separable false (codes "%Y%m%dT%H%M%S%3f") ≡ true }
    ensures signed_digits { is_separable true (codes "%Y%m%d") ≡ false }
    ensures century { is_separable false (codes "%C%y") ≡ true }
    ensures signed_century { is_separable true (codes "%C %y") ≡ false }
    ensures year_behind { is_separable true (codes "%c%H") ≡ false }
    ensures unpadded { is_separable false (codes "%-d%m") ≡ false }
    ensures spaced { is_separable false (codes "%e%m") ≡ false }
    ensures fraction { is_separable false (codes "%.f%H") ≡ false }
    ensures second_point { is_separable false (codes "%S%.f %.3f") ≡ false }
    ensures minutes { is_separable false (codes "%:::z : %M") ≡ false }
    ensures zone { is_separable false (codes "%R %Z") ≡ false }
    ensures fraction_with_no_second { is_separable false (codes "%R%.3f") ≡ false }
    ensures its_ends { shows_ends true (codes "%R%.3f") ≡ true }
    ensures fraction_of_second { is_separable true (codes "%T%.3f") ≡ true }
    ensures fraction_of_stamp { is_separable true (codes "%s%.6f") ≡ true }
    ensures fraction_left_out { is_separable true (codes "%R%.f") ≡ true }
{}

/// States that patterns with the same items write the same texts, and read each text alike.
///
/// So `%x` is `%D`, `%X` is `%T`, and `%h` is `%b`.
pub fn items_tell_the_pattern()
    ensures written { (a b : List ℕ) → (m : Moment) → pattern_items a ≡ pattern_items b → pattern_text a m ≡ pattern_text b m }
    ensures zoned { (a b : List ℕ) → (m : Moment) → (x : ℤ) → pattern_items a ≡ pattern_items b → text_at_offset a m x ≡ text_at_offset b m x }
    ensures read { (a b text : List ℕ) → pattern_items a ≡ pattern_items b → text_read a text ≡ text_read b text }
    ensures short_date { pattern_items (codes "%x %h") ≡ pattern_items (codes "%D %b") }
    ensures short_time { pattern_items (codes "%X") ≡ pattern_items (codes "%T") }
{}

/// States the week of the year by the place of a day in its year and by its weekday.
pub fn weeks_are_found_by_places()
    ensures from_sunday { (n : ℤ) → week_from_sunday n ≡ (ordinal_of n + 6 - days_from_sunday (weekday_of n)) / 7 }
    ensures from_monday { (n : ℤ) → week_from_monday n ≡ (ordinal_of n + 6 - days_from_monday (weekday_of n)) / 7 }
{}

/// States that a pattern of ASCII bytes writes ASCII. So its text is a string, as `as_str` of `Text` asks.
pub fn ascii_patterns_write_ascii()
    ensures utc { (bytes : List ℕ) → (m : Moment) → IsAscii bytes → IsDate m.date → IsTime m.time → IsAscii (pattern_text bytes m) }
    ensures zoned { (bytes : List ℕ) → (m : Moment) → (x : ℤ) → IsOffset x → IsAscii bytes → IsDate m.date → IsTime m.time
        → IsAscii (text_at_offset bytes m x) }
{}

/// States that a pattern of UTF-8 bytes, such as those of a `str`, writes UTF-8. So `delayed` prints each of them.
pub fn utf8_patterns_write_utf8()
    ensures utc { (bytes : List ℕ) → (m : Moment) → IsUtf8 bytes → IsDate m.date → IsTime m.time → IsUtf8 (pattern_text bytes m) }
    ensures zoned { (bytes : List ℕ) → (m : Moment) → (x : ℤ) → IsOffset x → IsUtf8 bytes → IsDate m.date → IsTime m.time
        → IsUtf8 (text_at_offset bytes m x) }
{}
