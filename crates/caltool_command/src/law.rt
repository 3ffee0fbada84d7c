//! Laws of words and command lines, for proofs of callers.
ghost use Rattle.std.specs.Prelude.{◌≡◌, ◌++◌, ◌∷◌, [], ℕ, ℤ, List, Some, None, pos, neg_ℤ, codes, replicate};
ghost use Rattle.std.specs.Str.{byte};
ghost use Rattle.chrono_units.specs.declared.weekday.Weekday.TheVariants.{Fri, Sat, Sun, Thu, Tue};
ghost use Rattle.chrono_units.specs.WeekdaySet.{set_of};
ghost use Rattle.caltool_command.specs.declared.arguments.MonthSpan.TheVariants.{Earlier, Later};
ghost use Rattle.caltool_command.specs.declared.command.Command.TheVariants.{Ymd, Yo, Iwd, Day, Wom, Days, Months, Week, Move, Diff, Since, Set, On, Every};
ghost use Rattle.caltool_command.specs.Commands.{command_of};
ghost use Rattle.caltool_command.specs.Words.{words, AreWords};
ghost use Rattle.caltool_command.specs.Grammar.{arguments_of, IsCommandLine};

/// A line has exactly one split into words that single spaces join.
pub fn words_are_unique()
    ensures joined { (line : List ℕ) → AreWords line (words line) }
    ensures only { (line : List ℕ) (parts : List (List ℕ))
        → AreWords line parts → parts ≡ words line }
{}

/// A line is a word followed by whole numbers that fit an `i64`, each after one space.
pub fn lines_are_commands()
    ensures read { (line name : List ℕ) (numbers : List ℤ)
        → arguments_of line ≡ Some (name, numbers) → IsCommandLine line name numbers }
    ensures written { (line name : List ℕ) (numbers : List ℤ)
        → IsCommandLine line name numbers → arguments_of line ≡ Some (name, numbers) }
{}

/// States one known line of each command. Each of its numbers has its place and its type.
pub fn known_commands()
    ensures ymd { command_of (codes "ymd 2008 12 030")
        ≡ Some (Ymd (record { year = pos 2008; month = 12; day = 30 })) }
    ensures yo { command_of (codes "yo -1 365") ≡ Some (Yo (neg_ℤ (pos 1)) 365) }
    ensures iwd { command_of (codes "iwd 2009 53 7") ≡ Some (Iwd (pos 2009) 53 Sun) }
    ensures day { command_of (codes "day -719163") ≡ Some (Day (neg_ℤ (pos 719_163))) }
    ensures wom { command_of (codes "wom 2026 11 4 255") ≡ Some (Wom (pos 2026) 11 Thu 255) }
    ensures days { command_of (codes "days 1 2 3 -4")
        ≡ Some (Days (record { year = pos 1; month = 2; day = 3 }) (neg_ℤ (pos 4))) }
    ensures months_on { command_of (codes "months 4 3 2 4294967295")
        ≡ Some (Months (record { year = pos 4; month = 3; day = 2 }) (Later 4_294_967_295)) }
    ensures months_back { command_of (codes "months 4 3 2 -1")
        ≡ Some (Months (record { year = pos 4; month = 3; day = 2 }) (Earlier 1)) }
    ensures week { command_of (codes "week 7 6 5 4")
        ≡ Some (Week (record { year = pos 7; month = 6; day = 5 }) Thu) }
    ensures moved { command_of (codes "move 1 2 3 4 5 6 7 -8 9")
        ≡ Some (Move (record {
          date = record { year = pos 1; month = 2; day = 3 };
          time = record { hour = 4; minute = 5; second = 6; nanosecond = 7 };
        }) (neg_ℤ (pos 8)) 9) }
    ensures diff { command_of (codes "diff 1 2 3 4 5 6 7 8 9 10 11 12 13 14")
        ≡ Some (Diff (record {
          date = record { year = pos 1; month = 2; day = 3 };
          time = record { hour = 4; minute = 5; second = 6; nanosecond = 7 };
        })
        (record {
          date = record { year = pos 8; month = 9; day = 10 };
          time = record { hour = 11; minute = 12; second = 13; nanosecond = 14 };
        })) }
    ensures since { command_of (codes "since 9 8 7 6 5 4")
        ≡ Some (Since (record { year = pos 9; month = 8; day = 7 })
        (record { year = pos 6; month = 5; day = 4 })) }
    ensures set { command_of (codes "set 6 2 5 2") ≡ Some (Set Sat (set_of (Tue ∷ Fri ∷ []))) }
    ensures on { command_of (codes "on 3 4 5 7")
        ≡ Some (On (record { year = pos 3; month = 4; day = 5 }) (set_of (Sun ∷ []))) }
    ensures every { command_of (codes "every 3 1 31 -2 6")
        ≡ Some (Every (record { year = pos 3; month = 1; day = 31 }) (neg_ℤ (pos 2)) 6) }
    ensures longest { command_of (codes "day " ++ replicate 115 (byte "0") ++ codes "5") ≡ Some (Day (pos 5)) }
{}

/// States known lines that are not commands.
///
/// Some have a name in another case, a number too few or too many, or one that does not fit its type. Others have a
/// sign too many, spaces with no number between or after them, no byte, or more than 120 bytes.
pub fn known_errors()
    ensures name { command_of (codes "Day 1") ≡ None }
    ensures too_few { command_of (codes "week 7 6 5") ≡ None }
    ensures too_many { command_of (codes "yo 4 60 1") ≡ None }
    ensures past_i32 { command_of (codes "day 2147483648") ≡ None }
    ensures past_u32 { command_of (codes "months 4 3 2 -4294967296") ≡ None }
    ensures no_weekday { command_of (codes "set 8") ≡ None }
    ensures plus { command_of (codes "day +1") ≡ None }
    ensures two_spaces { command_of (codes "day  1") ≡ None }
    ensures last_space { command_of (codes "set 1 ") ≡ None }
    ensures nothing { command_of [] ≡ None }
    ensures too_long { command_of (codes "day " ++ replicate 116 (byte "0") ++ codes "5") ≡ None }
{}
