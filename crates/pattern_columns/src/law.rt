//! Known texts in layouts, each as the contract of a function.
ghost use Rattle.std.specs.Prelude.{◌≡◌, ◌≢◌, ◌≤ℤ◌, ℤ, codes, pos, neg_ℤ, replicate};
ghost use Rattle.std.specs.Str.{byte};
ghost use Rattle.chrono_datetime.specs.Days.{day_of, month_of, year_of};
ghost use Rattle.chrono_datetime.specs.Moment.{moment};
ghost use Rattle.chrono_datetime.specs.Time.{TimeOfDay};
ghost use Rattle.chrono_pattern.specs.Patterns.{pattern_text};
ghost use Rattle.pattern_columns.specs.Layouts.{IsEntryBy, compact_text, entry_by, layout_pattern, layout_text};
ghost use Rattle.pattern_columns.specs.declared.layout.DateLayout.{DateLayout};
ghost use Rattle.pattern_columns.specs.declared.layout.DateOrder.TheVariants.{DayMonthYear, MonthDayYear, YearMonthDay};

/// The texts of 29 February 2024 in the three orders and in eight digits.
pub fn known_layout_texts()
    ensures year_first { layout_text (record { order = YearMonthDay; separator = byte "/" }) (pos 2_024) 2 29 ≡ codes "2024/02/29" }
    ensures day_first { layout_text (record { order = DayMonthYear; separator = byte "." }) (pos 2_024) 2 29 ≡ codes "29.02.2024" }
    ensures month_first { layout_text (record { order = MonthDayYear; separator = byte "/" }) (pos 2_024) 2 29 ≡ codes "02/29/2024" }
    ensures compact { compact_text (pos 2_024) 2 29 ≡ codes "20240229" }
{}

/// The text of a date in a layout is what the pattern of the layout writes, for years from 0 to 9999 and each separator but `%`.
///
/// So a column by `%d/%m/%Y` has the texts that `Pattern` of chrono_pattern writes.
pub fn layouts_are_patterns()
    ensures separated { (layout : DateLayout) → (n : ℤ) → (t : TimeOfDay) → layout.separator ≢ byte "%" → pos 0 ≤ℤ year_of n → year_of n ≤ℤ pos 9_999
        → pattern_text (layout_pattern layout) (moment n t) ≡ layout_text layout (year_of n) (month_of n) (day_of n) }
    ensures compact { (n : ℤ) → (t : TimeOfDay) → pos 0 ≤ℤ year_of n → year_of n ≤ℤ pos 9_999
        → pattern_text (codes "%Y%m%d") (moment n t) ≡ compact_text (year_of n) (month_of n) (day_of n) }
    ensures slashes { layout_pattern (record { order = DayMonthYear; separator = byte "/" }) ≡ codes "%d/%m/%Y" }
    ensures dashes { layout_pattern (record { order = YearMonthDay; separator = byte "-" }) ≡ codes "%Y-%m-%d" }
{}

/// Known entries: 29 February 2024 has a text. A missing date and the first day after the year 9999 have zero bytes.
pub fn known_layout_entries()
    ensures leap_day { entry_by 10 (layout_text (record { order = DayMonthYear; separator = byte "/" })) (pos 738_945) ≡ codes "29/02/2024" }
    ensures compact { entry_by 8 compact_text (pos 738_945) ≡ codes "20240229" }
    ensures after_last { entry_by 8 compact_text (pos 3_652_060) ≡ replicate 8 0 }
    ensures none { entry_by 8 compact_text (neg_ℤ (pos 2_147_483_648)) ≡ replicate 8 0 }
{}

/// Known dates: the text `29/02/2024` is that of a date. With another separator it is no date's text.
pub fn known_layout_dates()
    ensures leap_day { (n : ℤ) → IsEntryBy (layout_text (record { order = DayMonthYear; separator = byte "/" })) (codes "29/02/2024") n → n ≡ pos 738_945 }
    ensures compact { (n : ℤ) → IsEntryBy compact_text (codes "20240229") n → n ≡ pos 738_945 }
    ensures other_separator { (n : ℤ) → IsEntryBy (layout_text (record { order = DayMonthYear; separator = byte "/" })) (codes "29.02.2024") n → n ≡ neg_ℤ (pos 2_147_483_648) }
{}
