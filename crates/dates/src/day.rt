//! A day by all its names, and what the program says of itself.

use crate::each::{Asks, answer_each};
use crate::prelude::*;
use command_words::Shell;
use std::fs;
use std::os::unix::fs::FileTypeExt;

const VERSION: Opt = flag!("--version", "print the version");

const MAN: Opt = flag!("--man", "print the man page");

const REFERENCE: Opt = flag!("--reference", "print the help of every command as Markdown");

const COMPLETION: Opt = option!(
    "--completion", "SHELL"; "print the completion for bash, zsh or fish",
    values: &["bash", "zsh", "fish"], any: false
);

/// The options that stand without the name of a command.
pub(crate) const OPTIONS: &[Opt] = &[
    NOW, PARSE, ORDER, FORMAT, LONG, JSON, HELP, VERSION, MAN, REFERENCE, COMPLETION,
];

// What the program does without the name of a command.
pub(crate) fn command() -> &'static CommandRow {
    row!(
        "", &[DAY_OR_LINES], OPTIONS;
        help: "print a day by all its names",
        more: "",
        example: "$ dates 2024-W09-4\n2024-02-29 2024-060 2024-W09-4 Thu 738945 19782"
    )
}

// The day by all its names, or that of each line, or a page of the program.
pub(crate) fn answer(asked: &mut Asked<'_>) {
    let words = &asked.words;
    if words.has("--version") {
        return asked.print(Reply::Version);
    }
    if words.has("--man") || words.has("--reference") || words.has("--completion") {
        return print_page(asked);
    }
    let date = match asked.word_or_lines(0) {
        Some(word) => Some(asked.day_or_command(word)),
        None if asked.words.operands.is_empty() && is_alone(asked.rt) => Some(asked.day_shown()),
        None => None,
    };
    answer_each(asked, date, Asks::Names);
}

// Whether nothing is piped into the program: its standard input is a terminal, or nothing.
pub(crate) fn is_alone(rt: &HostRuntime) -> bool {
    match fs::metadata(rt, "/dev/stdin") {
        Ok(input) => input.file_type().is_char_device(),
        Err(_) => false,
    }
}

// The shell of that name.
pub(crate) fn shell_of(name: &str) -> Shell {
    match name {
        "bash" => Shell::Bash,
        "zsh" => Shell::Zsh,
        _ => Shell::Fish,
    }
}
