//! The answer to one line, from its name and its numbers.
ghost use Rattle.std.specs.Prelude.{◌≡◌, ◌≤◌, ◌+◌, ◌++◌, length, codes};
ghost use Rattle.std.specs.Option.{option_map_or};
ghost use Rattle.caltool_form.specs.Answers.{answer_of, answer_to};
ghost use Rattle.caltool_command.specs.Commands.{command_from as the_command_from};

use crate::asked::{
    date_named, difference, first_of_days, moved, moved_by_days, moved_by_months, moved_every,
    years_since,
};
use crate::command_answers::CommandAnswers;
use crate::texts::{
    push_date_line, push_distance, push_moment, push_set_and_walk, push_week_line, push_years,
};
use caltool_command::{Command, Line, Name, Numbers, command_from, read_line};
use chrono_text::Text;

// An answer has at most 63 bytes.
const LONGEST_ANSWER: usize = 63;

/// The answer to one line, without its newline.
pub type Answer = Text<LONGEST_ANSWER>;

/// Returns the answer to one line. `line` has no newline.
///
/// It is the answer of `A` to the line's command. It is `error` if the line is not a command, or has more than 120 bytes.
pub fn answer_by<A: CommandAnswers>(line: &[u8]) -> Answer
    ensures { result ≡ answer_of line.now }
{
    let mut answer = Text::new();
    read_and_answer::<A, LONGEST_ANSWER>(&mut answer, &Line::whole(line), &mut Numbers::new());
    answer
}

// Reads a line, and puts the answer to it behind the text. The line's numbers go into the given room.
#[tactic(auto, unfolding(crate::specs::Answers::answer_of))]
pub(crate) fn read_and_answer<A: CommandAnswers, const N: usize>(
    out: &mut Text<N>,
    line: &Line<'_>,
    numbers: &mut Numbers,
)
    requires { length out.old + 63 ≤ N }
    ensures fits { length out.new ≤ length out.old + 63 }
    ensures text { out.new ≡ out.old ++ answer_of line.now }
{
    match read_line(line, numbers) {
        Some(name) => type_and_answer::<A, N>(out, name, numbers.as_slice()),
        None => out.push_text(b"error"),
    }
}

// Gives the numbers of a name their types, and puts the answer to the command that they make behind the text.
//
// Each name has an arm of its own, so that what a command asks for is not told apart by its name a second time.
fn type_and_answer<A: CommandAnswers, const N: usize>(
    out: &mut Text<N>,
    name: Name,
    numbers: &[i64],
)
    requires { length out.old + 63 ≤ N }
    ensures fits { length out.new ≤ length out.old + 63 }
    ensures text { out.new
        ≡ out.old ++ option_map_or answer_to (the_command_from name numbers.now) (codes "error") }
{
    match name {
        Name::Ymd => push_answer_or_error::<A, N>(out, command_from(Name::Ymd, numbers)),
        Name::Yo => push_answer_or_error::<A, N>(out, command_from(Name::Yo, numbers)),
        Name::Iwd => push_answer_or_error::<A, N>(out, command_from(Name::Iwd, numbers)),
        Name::Day => push_answer_or_error::<A, N>(out, command_from(Name::Day, numbers)),
        Name::Wom => push_answer_or_error::<A, N>(out, command_from(Name::Wom, numbers)),
        Name::Days => push_answer_or_error::<A, N>(out, command_from(Name::Days, numbers)),
        Name::Months => push_answer_or_error::<A, N>(out, command_from(Name::Months, numbers)),
        Name::Week => push_answer_or_error::<A, N>(out, command_from(Name::Week, numbers)),
        Name::Move => push_answer_or_error::<A, N>(out, command_from(Name::Move, numbers)),
        Name::Diff => push_answer_or_error::<A, N>(out, command_from(Name::Diff, numbers)),
        Name::Since => push_answer_or_error::<A, N>(out, command_from(Name::Since, numbers)),
        Name::Set => push_answer_or_error::<A, N>(out, command_from(Name::Set, numbers)),
        Name::On => push_answer_or_error::<A, N>(out, command_from(Name::On, numbers)),
        Name::Every => push_answer_or_error::<A, N>(out, command_from(Name::Every, numbers)),
    }
}

// The text that answers a command, or `error` where there is no command.
#[inline(always)]
fn push_answer_or_error<A: CommandAnswers, const N: usize>(
    out: &mut Text<N>,
    command: Option<Command>,
)
    requires { length out.old + 63 ≤ N }
    ensures fits { length out.new ≤ length out.old + 63 }
    ensures text { out.new ≡ out.old ++ option_map_or answer_to command (codes "error") }
{
    match command {
        Some(command) => push_answer::<A, N>(out, command),
        None => out.push_text(b"error"),
    }
}

// The text that answers a command: the names of a date that it asks for, a moment, a distance, or `none`.
#[inline(always)]
#[tactic(auto, unfolding(crate::specs::Answers::answer_to))]
fn push_answer<A: CommandAnswers, const N: usize>(out: &mut Text<N>, command: Command)
    requires { length out.old + 63 ≤ N }
    ensures text { out.new ≡ out.old ++ answer_to command }
    ensures fits { length out.new ≤ length out.old + 63 }
{
    match command {
        Command::Ymd { date } => push_date_line::<A, N>(out, date_named::<A>(date)),
        Command::Yo { year, ordinal } => push_date_line::<A, N>(out, A::from_yo(year, ordinal)),
        Command::Iwd {
            year,
            week,
            weekday,
        } => push_date_line::<A, N>(out, A::from_iso(year, week, weekday)),
        Command::Day { number } => push_date_line::<A, N>(out, A::from_day(number)),
        Command::Wom {
            year,
            month,
            weekday,
            nth,
        } => push_date_line::<A, N>(out, A::nth_weekday(year, month, weekday, nth)),
        Command::Days { date, count } => push_date_line::<A, N>(
            out,
            moved_by_days::<A>(date, count),
        ),
        Command::Months { date, span } => push_date_line::<A, N>(
            out,
            moved_by_months::<A>(date, span),
        ),
        Command::Week { date, start } => push_week_line::<A, N>(out, date_named::<A>(date), start),
        Command::Move {
            from,
            seconds,
            nanoseconds,
        } => push_moment::<A, N>(out, moved::<A>(from, seconds, nanoseconds)),
        Command::Diff { first, second } => push_distance(out, difference::<A>(first, second)),
        Command::Since { date, base } => push_years(out, years_since::<A>(date, base)),
        Command::Set { start, days } => push_set_and_walk(out, days, start),
        Command::On { date, days } => push_date_line::<A, N>(out, first_of_days::<A>(date, days)),
        Command::Every {
            date,
            months,
            times,
        } => push_date_line::<A, N>(out, moved_every::<A>(date, months, times)),
    }
}
