//! Values of the definitions that are known, each the contract of a function with an empty body.
ghost use Rattle.std.specs.Prelude.{◌≡◌, ◌∷◌, [], ℤ, pos, neg_ℤ, Some, None, codes, true, false};
ghost use Rattle.chrono_datetime.specs.declared.Weekday.TheVariants.{Mon, Sun};
ghost use Rattle.chrono_datetime.specs.WeekdaySet.{no_days};
ghost use Rattle.chrono_business.specs.OpenDays.{closed};
ghost use Rattle.chrono_clock.specs.Time.{time_at};
ghost use Rattle.chrono_datetime.specs.Moment.{moment};
ghost use Rattle.dates_answer.specs.declared.span.Unit.TheVariants.{Days, Months, Weeks, Years};
ghost use Rattle.dates_answer.specs.declared.form.OutputForm.TheVariants.{Text, Json};
ghost use Rattle.dates_answer.specs.declared.line.Reply.TheVariants.{Date, Names, Nothing, Number, Parts, Stamp, Week, Whether};
ghost use Rattle.dates_answer.specs.declared.line.Key.TheVariants as keys;
ghost use Rattle.dates_answer.specs.declared.parts.Parts as parts;
ghost use Rattle.dates_answer.specs.Lines.{day_object, line_text};
ghost use Rattle.dates_answer.specs.Moves.{moved_from, unit_move};
ghost use Rattle.dates_answer.specs.Parts.{IsPartsBetween};
ghost use Rattle.dates_answer.specs.Sequences.{sequence_day};
ghost use Rattle.dates_answer.specs.Sheets.{cells_of_row, row_text, sheet_day, week_of_row};

/// States known moves of days by spans, and known days of sequences.
///
/// In year 1, a month after 31 January is 28 February, and two weeks after 1 January is the 15th. A day before 1 January is day 0.
/// A year after 29 February of year 4 is 28 February. A week later and then a day earlier than 1 January is the 7th. A day earlier and
/// then two days later than the last date is out of range.
#[tactic(auto, unfolding(crate::specs::Sequences::days_up_to, crate::specs::Moves::moved_from, crate::specs::Moves::unit_move, chrono_calendar::specs::Days::date_of_day, chrono_calendar::specs::MonthMoves::month_move, chrono_calendar::specs::Days::days_before_year, chrono_calendar::specs::Days::days_of_years, chrono_calendar::specs::Days::days_of_months_in, chrono_calendar::specs::Days::ordinal_name_of, chrono_calendar::specs::Days::days_after_zero, chrono_calendar::specs::Days::days_before_zero, chrono_calendar::specs::Days::month_of_ordinal, chrono_calendar::specs::Days::day_of_ordinal))]
pub fn known_moves()
    ensures month { unit_move Months (pos 31) (pos 1) ≡ Some (pos 59) }
    ensures weeks { unit_move Weeks (pos 1) (pos 2) ≡ Some (pos 15) }
    ensures day_back { unit_move Days (pos 1) (neg_ℤ (pos 1)) ≡ Some (pos 0) }
    ensures year { unit_move Years (pos 1155) (pos 1) ≡ Some (pos 1520) }
    ensures both { moved_from (record { count = pos 1; unit = Weeks } ∷ record { count = neg_ℤ (pos 1); unit = Days } ∷ []) (pos 1) ≡ Some (pos 7) }
    ensures past { moved_from (record { count = neg_ℤ (pos 1); unit = Days } ∷ record { count = pos 2; unit = Days } ∷ []) (pos 95_745_399) ≡ None }
    ensures from_the_first { sequence_day (pos 31) (pos 90) (record { count = pos 1; unit = Months }) 2 ≡ Some (pos 90) }
    ensures past_the_end { sequence_day (pos 31) (pos 89) (record { count = pos 1; unit = Months }) 2 ≡ None }
    ensures back { sequence_day (pos 10) (pos 4) (record { count = neg_ℤ (pos 3); unit = Days }) 2 ≡ Some (pos 4) }
    ensures back_past_the_end { sequence_day (pos 10) (pos 4) (record { count = neg_ℤ (pos 3); unit = Days }) 3 ≡ None }
{}

/// States that the years, months and days between two days are unique.
#[tactic(auto, using(crate::proofs::KnownParts::one_of_parts))]
pub fn parts_are_the_only_ones()
    ensures { (from to : ℤ) (p q : parts.Parts) → IsPartsBetween from to p → IsPartsBetween from to q → (p.years ≡ q.years) × (p.months ≡ q.months) × (p.days ≡ q.days) }
{}

/// States known lines of answers.
///
/// As text: the names of a day, a week, years and days without months, years and months without days, no days, and `yes`. As JSON: a date, a number, a day by its names, no answer, an
/// instant of an offset behind UTC, and a day of a sheet.
pub fn known_lines()
    ensures day { line_text Text (Names (pos 1)) ≡ codes "0001-01-01 0001-001 0001-W01-1 Mon 1 -719162" }
    ensures week { line_text Text (Week (pos 1) (pos 7)) ≡ codes "0001-01-01 0001-01-07" }
    ensures parts { line_text Text (Parts (record { years = pos 1; months = pos 0; days = pos 3 })) ≡ codes "1y 3d" }
    ensures months { line_text Text (Parts (record { years = pos 1; months = neg_ℤ (pos 2); days = pos 0 })) ≡ codes "1y -2m" }
    ensures no_days { line_text Text (Parts (record { years = pos 0; months = pos 0; days = pos 0 })) ≡ codes "0d" }
    ensures whether { line_text Text (Whether keys.Open true) ≡ codes "yes" }
    ensures date { line_text Json (Date (pos 1)) ≡ codes "{\"date\":\"0001-01-01\"}" }
    ensures number { line_text Json (Number keys.Days (neg_ℤ (pos 7))) ≡ codes "{\"days\":-7}" }
    ensures names { line_text Json (Names (pos 1))
        ≡ codes "{\"date\":\"0001-01-01\",\"ordinal\":\"0001-001\",\"week\":\"0001-W01-1\",\"weekday\":\"Monday\",\"day_number\":1,\"unix_day\":-719162}" }
    ensures none { line_text Json (Nothing keys.Leap) ≡ codes "{\"leap\":null}" }
    ensures stamp { line_text Json (Stamp (record { utc = moment (pos 1) (time_at 2 0 0 0); zone = neg_ℤ (pos 3_600) }))
        ≡ codes "{\"moment\":\"0001-01-01T01:00:00-01:00\"}" }
    ensures day_of_sheet { day_object (pos 1) false ≡ codes "{\"date\":\"0001-01-01\",\"week\":\"0001-W01-1\",\"weekday\":\"Monday\",\"open\":false}" }
{}

/// States known cells of January of year 1, which begins on a Monday.
///
/// They are cells of its first and last rows. In the last row the 30th is a holiday, and marked. With weeks from Sunday, the first row is ISO week 1.
/// A further row shows how a row is written.
pub fn known_sheets()
    ensures first { sheet_day (pos 15) Mon 0 0 ≡ Some (pos 1) }
    ensures before_first { sheet_day (pos 15) Sun 0 0 ≡ None }
    ensures second_column { sheet_day (pos 15) Sun 0 1 ≡ Some (pos 1) }
    ensures last { sheet_day (pos 15) Mon 4 2 ≡ Some (pos 31) }
    ensures behind_last { sheet_day (pos 15) Mon 4 3 ≡ None }
    ensures week_from_sunday { week_of_row (pos 15) Sun 0 ≡ Some 1 }
    ensures cells { cells_of_row (closed no_days (pos 30 ∷ [])) (Some (pos 30)) (pos 15) Mon 4
        ≡ record { day = Some 29; closed = false; marked = false } ∷ record { day = Some 30; closed = true; marked = true } ∷ record { day = Some 31; closed = false; marked = false } ∷ record { day = None; closed = false; marked = false } ∷ record { day = None; closed = false; marked = false } ∷ record { day = None; closed = false; marked = false } ∷ record { day = None; closed = false; marked = false } ∷ [] }
    ensures row { row_text (record { week = Some 9; cells = record { day = Some 29; closed = false; marked = true } ∷ record { day = Some 1; closed = true; marked = false } ∷ record { day = Some 2; closed = true; marked = true } ∷ record { day = None; closed = false; marked = false } ∷ [] })
        ≡ codes "W09 29< 1* 2#   " }
{}
