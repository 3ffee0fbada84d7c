//! Laws of the lines of an input, and known answers, for proofs of callers.
ghost use Rattle.std.specs.Prelude.{◌≡◌, ◌++◌, ◌∷◌, [], ℕ, List, codes, replicate};
ghost use Rattle.std.specs.Str.{byte};
ghost use Rattle.caltool_form.specs.Answers.{answer_of, output_of};
ghost use Rattle.caltool_form.specs.Lines.{IsCut, ended_lines, rest_of};

/// The bytes of an input have exactly one cut into lines that a newline ends and a rest after the last newline.
pub fn cut_is_unique()
    ensures cut { (bytes : List ℕ) → IsCut bytes (ended_lines bytes) (rest_of bytes) }
    ensures only_lines { (bytes : List ℕ) (cut : List (List ℕ)) (rest : List ℕ)
        → IsCut bytes cut rest → cut ≡ ended_lines bytes }
    ensures only_rest { (bytes : List ℕ) (cut : List (List ℕ)) (rest : List ℕ)
        → IsCut bytes cut rest → rest ≡ rest_of bytes }
{}

/// States one known answer of each command, and three more.
///
/// The dates lie at the ends of years and of ISO weeks, on a leap day, and in the week of day 0. One time is the end of
/// a leap second. The last three answer an invalid date, a line that is not a command, and a line that is one byte too
/// long.
pub fn known_answers()
    ensures ymd { answer_of (codes "ymd 2 12 31") ≡ codes "0002-12-31 730 Tue 0003-W01 365" }
    ensures yo { answer_of (codes "yo 4 366") ≡ codes "0004-12-31 1461 Fri 0004-W53 366" }
    ensures iwd { answer_of (codes "iwd 4 53 7") ≡ codes "0005-01-02 1463 Sun 0004-W53 2" }
    ensures day { answer_of (codes "day -366") ≡ codes "-0001-12-31 -366 Fri -0001-W52 365" }
    ensures wom { answer_of (codes "wom 1 2 3 4") ≡ codes "0001-02-28 59 Wed 0001-W09 59" }
    ensures days { answer_of (codes "days 1 3 1 -60") ≡ codes "0000-12-31 0 Sun 0000-W52 366" }
    ensures months { answer_of (codes "months 3 12 31 2")
        ≡ codes "0004-02-29 1155 Sun 0004-W09 60" }
    ensures week { answer_of (codes "week 1 1 1 7") ≡ codes "0000-12-31 0001-01-06" }
    ensures moved { answer_of (codes "move 1 12 31 23 59 59 1250000000 0 750000000")
        ≡ codes "0002-01-01T00:00:00" }
    ensures diff { answer_of (codes "diff 1 1 1 0 0 0 0 1 1 2 0 0 1 500001000")
        ≡ codes "-PT86401.500001S" }
    ensures since { answer_of (codes "since 5 2 28 4 2 29") ≡ codes "0" }
    ensures set { answer_of (codes "set 6 2 5 7") ≡ codes "[Tue, Fri, Sun] Sun Tue Fri" }
    ensures on { answer_of (codes "on 1 1 6 2 7") ≡ codes "0001-01-07 7 Sun 0001-W01 7" }
    ensures every { answer_of (codes "every 1 1 31 1 2") ≡ codes "0001-03-31 90 Sat 0001-W13 90" }
    ensures none { answer_of (codes "ymd 1 2 29") ≡ codes "none" }
    ensures error { answer_of (codes "yo 4") ≡ codes "error" }
    ensures too_long { answer_of (codes "day " ++ replicate 116 (byte "0") ++ codes "5") ≡ codes "error" }
{}

/// States known outputs: of an empty input, of a line with no newline, of an empty line, and of two lines.
pub fn known_outputs()
    ensures nothing { output_of answer_of [] ≡ [] }
    ensures unended { output_of answer_of (codes "set 7 7") ≡ codes "[Sun] Sun\n" }
    ensures empty { output_of answer_of (codes "\n") ≡ codes "error\n" }
    ensures two { output_of answer_of (codes "set 7 7\nset 1\n")
        ≡ codes "[Sun] Sun\n[]\n" }
{}
