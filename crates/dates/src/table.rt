//! The commands of `dates`: a row each. Help, the man page, completion and messages come from these rows.

use crate::day::shell_of;
use crate::prelude::*;
use command_words::{
    Program, put_command_help, put_completion, put_man_page, put_program_help, put_reference,
    read_words,
};

// The rows: the module of each command and its function there, in the order in which the help lists them.
macro_rules! each_command {
    ($rows:ident $(, $with:ident)*) => {
        $rows! {
            $($with,)*
            day::command,
            add::command,
            diff::command,
            seq::command,
            week::command,
            weekday::command,
            ends::first,
            ends::last,
            round::command,
            easter::command,
            leap::command,
            open::command,
            roll::command,
            check::command,
            grep::grep,
            grep::sort,
            test::command,
            due::next,
            due::prev,
            rule::command,
            explain::command,
            cal::command,
            now::now,
            now::today,
            format::format,
            format::parse,
            in_zone::command,
            zone_changes::command,
        }
    };
}

macro_rules! count_rows {
    ($($module:ident::$command:ident,)*) => {
        [$(stringify!($command)),*].len()
    };
}

macro_rules! list_rows {
    ($($module:ident::$command:ident,)*) => {
        [$(crate::$module::$command()),*]
    };
}

macro_rules! answer_named {
    ($asked:ident, $($module:ident::$command:ident,)*) => {
        $(
            if $asked.command.name == crate::$module::$command().name {
                return crate::$module::answer($asked);
            }
        )*
    };
}

const ROWS: usize = each_command!(count_rows);

// The rows of all commands. Each comes from a function, so that no proof reads all of them at once.
pub(crate) fn commands() -> [&'static CommandRow; ROWS] {
    each_command!(list_rows)
}

// Answers the command that is asked.
fn answer(asked: &mut Asked<'_>) {
    each_command!(answer_named, asked);
}

/// The name of the program.
pub(crate) const NAME: &str = "dates";

/// The program with its commands.
fn program<'a>(commands: &'a [&'static CommandRow]) -> Program<'a> {
    Program {
        name: NAME,
        help: "answer what one asks of dates",
        more: MORE,
        commands,
        alone: crate::day::OPTIONS,
    }
}

// What stands at the end of the help.
const MORE: &str = "A DAY is a calendar date, an ordinal date or a week date, as 2024-02-29,\n\
    2024-060 and 2024-W09-4, the first and the last also as 20240229 and 2024W094;\n\
    or 'Feb 29, 2024', '29 Feb 2024' or '#738945'. It is printed by its three dates,\n\
    its weekday, its number from 1 January of year 1, which is 1, and the days since\n\
    1970-01-01. A date-time has T or a blank and a time behind it, as\n\
    2024-02-29T04:30, and maybe an offset, as Z or +01:00; @1709208000 is one by the\n\
    seconds since 1970.\n\
    \n\
    Where DAY is - or left out, most commands answer each line of standard input.\n\
    dates alone, add, diff, first, format, in, last, open, roll, week and weekday do\n\
    so if something is piped in, and else answer for today or now. A line that is no\n\
    day is answered by none; check says why.\n\
    today, tomorrow, yesterday, friday and 'last friday' are days by the clock, and\n\
    now is a time. Without such a word only commands of no day, next, prev, now,\n\
    today and in of a time alone ask what time it is.\n\
    \n\
    An option may stand anywhere, and its value behind = too. Behind -- all words\n\
    are operands. 'dates COMMAND --help' says more of a command.\n\
    \n\
    The exit status is 0; 1 where a question has no answer, for which none is\n\
    printed, where check finds a line, grep finds none, sort finds one of no day, or\n\
    a test does not hold; and 2 after a wrong command, or a read or a write that\n\
    failed.";

// Answers what the arguments ask for; the exit status.
pub(crate) fn answer_arguments<'a>(rt: &'a HostRuntime, arguments: &'a [String]) -> u8 {
    let mut asked = Asked::new(rt, crate::day::command());
    let read = asked.read_arguments(arguments);
    asked.done(read);
    if !asked.is_over {
        answer_words(&mut asked);
    }
    asked.status
}

// The command with that name, and a day where there is none.
fn command_named(name: &str) -> &'static CommandRow {
    for command in commands() {
        if command.name == name {
            return command;
        }
    }
    crate::day::command()
}

// Whether the option of a name has a value behind it.
fn takes_value(name: &str) -> bool {
    for command in commands() {
        if has_value(command, name) {
            return true;
        }
    }
    false
}

// Whether a command has an option of a name, and a value behind it.
fn has_value(command: &CommandRow, name: &str) -> bool {
    for option in command.options {
        if option.name == name && !option.value.is_empty() {
            return true;
        }
    }
    false
}

// Answers a command by its words, or prints its help.
fn answer_words(asked: &mut Asked<'_>) {
    if asked.words.has("--help") {
        if let Some(word) = asked.words.operand(0) {
            asked.check_first(word);
        }
        return print_page(asked);
    }
    if asked.words.has("--json") {
        asked.form = OutputForm::Json;
    }
    asked.check_count();
    asked.take_patterns();
    asked.check_pairs();
    asked.take_clock();
    asked.take_order();
    asked.take_within();
    if !asked.is_over {
        answer(asked);
    }
}

// Options of which one alone may be given.
const APART: &[[&str; 2]] = &[
    ["--parse", "--unix"],
    ["--parse", "--order"],
    ["--order", "--unix"],
    ["--format", "--long"],
    ["--within", "--field"],
    ["--within", "--json"],
    ["--field", "--json"],
];

impl<'a> Asked<'a> {
    // Reads the arguments: the first that is no option may name the command.
    fn read_arguments(&mut self, arguments: &'a [String]) -> io::Result<()> {
        let mut words: Vec<Word<'a>> = Vec::new(self.rt.alloc());
        let mut is_named = false;
        let mut is_value = false;
        let mut place: usize = 0;
        for argument in arguments {
            place = place.saturating_add(1);
            let text = match argument.as_str() {
                "-h" => "--help",
                "help" if place == 1 => "--help",
                text => text,
            };
            if !is_named && !is_value && text.starts_with("--") && text != "--" {
                is_value = takes_value(text);
            } else if is_value {
                is_value = false;
            } else if !is_named {
                is_named = true;
                self.command = command_named(text);
                if !self.command.name.is_empty() {
                    continue;
                }
            }
            words.push(Word { place, text })?;
        }
        match read_words(self.rt.alloc(), self.command.options, words.as_slice())? {
            Ok(read) => self.words = read,
            Err(wrong) => {
                self.check_first(words.first().copied().unwrap_or(NO_WORD));
                self.refuse_word(wrong);
            }
        }
        Ok(())
    }

    // Ends where the first word names no command and is neither an option nor a day.
    fn check_first(&mut self, first: Word<'_>) {
        let is_right = first.text.starts_with("--") || is_named(first.text.as_bytes());
        if self.command.name.is_empty() && !is_right {
            self.day_or_command(first);
        }
    }

    // Ends where an operand or an option is missing, or an operand is one too many.
    fn check_count(&mut self) {
        if let Some(place) = self.words.missing_operand(self.command) {
            self.missing_operand(place);
        } else if let Some(option) = self.words.missing(self.command.options) {
            self.missing(option.name, option.value);
        } else if let Some(extra) = self.words.extra_operand(self.command) {
            self.check_first(self.word(0));
            self.wrong(extra, NO_MORE);
        }
    }

    // Takes the patterns by which the command prints and reads.
    fn take_patterns(&mut self) {
        let format = pattern_word(self.command, &self.words, FORMAT);
        self.format = self.pattern_if(format);
        let parse = pattern_word(self.command, &self.words, PARSE);
        self.reading.pattern = self.reading_if(parse);
        if let Some(word) = parse {
            self.reading.blanks = count_of(b' ', word.text.as_bytes());
        }
    }

    // Ends where two options are given of which one alone may be.
    fn check_pairs(&mut self) {
        for [one, other] in APART {
            if let Some(word) = self.words.value(&[], one) {
                if self.words.has(other) {
                    let text = if word.text.is_empty() { one } else { word.text };
                    let place = word.place;
                    let mut said = self.blame(Word { place, text });
                    put!(said, ": expected no ", one, " beside ", other);
                    self.refuse(&said);
                }
            }
        }
    }

    // Takes how days and instants are read without a pattern.
    fn take_order(&mut self) {
        self.reading.is_unix = self.words.has("--unix");
        self.reading.order = match self.words.value(&[], "--order") {
            Some(word) if word.text == "dmy" => Order::Day,
            Some(_) => Order::Month,
            None => Order::None,
        };
    }
}

// Prints the page that an option asks for.
pub(crate) fn print_page(asked: &mut Asked<'_>) {
    let rows = commands();
    let mut page = Buffer::new(asked.rt.alloc());
    put_page(&mut page, asked, &program(&rows));
    asked.print_page(&page);
}

// Puts the page that an option asks for behind a text: how a command, or the program, is used, or one of the pages of the program.
fn put_page(out: &mut Buffer, asked: &Asked<'_>, program: &Program<'_>) {
    let words = &asked.words;
    if words.has("--help") && asked.command.name.is_empty() {
        put_program_help(out, program);
    } else if words.has("--help") {
        put_command_help(out, program, asked.command);
    } else if words.has("--man") {
        put_man_page(out, program);
    } else if words.has("--reference") {
        put_reference(out, program);
    } else {
        let shell = shell_of(asked.option("--completion").text);
        put_completion(out, program, shell);
    }
}
