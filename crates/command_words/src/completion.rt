//! Completion of a program's words by bash, zsh and fish.

use crate::pieces::{Buffer, put_each};
use crate::table::{CommandRow, Opt, Program};

/// A shell.
#[derive(Clone, Copy)]
pub enum Shell {
    /// bash.
    Bash,
    /// zsh, which takes the completion of bash.
    Zsh,
    /// fish.
    Fish,
}

/// Puts the completion for a shell behind a text: a command, then its options and the words that its operands and values may be.
pub fn put_completion(out: &mut Buffer, program: &Program<'_>, shell: Shell) {
    match shell {
        Shell::Bash => put_bash(out, program),
        Shell::Zsh => {
            put!(out, "#compdef ", program.name, ZSH);
            put_bash(out, program)
        }
        Shell::Fish => put_fish(out, program),
    }
}

// How zsh takes the completion of bash.
const ZSH: &str = "\nautoload -U +X bashcompinit && bashcompinit\n";

// What the function for bash does first.
const BEGIN: &str = "()\n{\n    local IFS=$'\\n' word=${COMP_WORDS[COMP_CWORD]}\n    \
    local command=$((COMP_CWORD > 1)); command=${COMP_WORDS[command]}\n    \
    case $command:${COMP_WORDS[COMP_CWORD - 1]} in\n";

// What it does last.
const END: &str = "    esac\n}\ncomplete -o default -F _";

// How bash offers words: what stands in front of them, and what behind.
const OFFER: &str = "COMPREPLY=($(compgen -W $'";

const OFFERED: &str = "' -- \"$word\"))";

// How bash offers the names of files.
const FILES: &str = "COMPREPLY+=($(compgen -f -- \"$word\")); compopt -o filenames 2>/dev/null";

// What ends a case of bash, and a word that is offered.
const CASE: &str = " ;;\n";

const WORD: &str = "\\n";

// The function that bash calls.
fn put_bash(out: &mut Buffer, program: &Program<'_>) {
    let name = program.name;
    put!(out, "# Completion of ", name, ".\n_", name, BEGIN);
    for command in program.commands {
        put_cases(out, command);
    }
    put!(out, "    *) ", OFFER);
    for command in program.commands {
        put!(out, command.name, WORD);
    }
    put_names(out, program.alone);
    put!(out, OFFERED, CASE, END, name, " ", name, "\n");
}

// What bash offers behind a command.
fn put_cases(out: &mut Buffer, command: &CommandRow) {
    let name = command.name;
    for option in command.options {
        if option.value == "FILE" {
            put!(out, "    ", name, ":", option.name, ") ", FILES, CASE);
        } else if !option.value.is_empty() {
            put_case(out, name, option.name, option.values);
        }
    }
    for operand in command.operands {
        if !operand.keyword.is_empty() {
            put_case(out, name, operand.keyword, operand.values);
        }
    }
    if name.is_empty() {
        return;
    }
    put!(out, "    ", name, ":*) ");
    put_words(out, command);
}

// That bash offers these words behind another of a command.
fn put_case(out: &mut Buffer, command: &str, word: &str, values: &'static [&'static str]) {
    put!(out, "    ", command, ":", word, ") ", OFFER);
    put_each(out, values, WORD);
    put!(out, OFFERED, CASE);
}

// What bash offers where a command has an operand or an option.
fn put_words(out: &mut Buffer, command: &CommandRow) {
    out.put(OFFER);
    let (mut gap, mut files) = ("", "");
    for operand in command.operands {
        if operand.keyword.is_empty() {
            put_each(out, operand.values, WORD);
        }
        if operand.name == "FILE" {
            (gap, files) = ("; ", FILES);
        }
    }
    put_names(out, command.options);
    put!(out, OFFERED, gap, files, CASE);
}

// The names of options, as bash offers them.
fn put_names(out: &mut Buffer, options: &'static [Opt]) {
    for option in options {
        put!(out, option.name, WORD);
    }
}

// A line for each command and for each of its options.
fn put_fish(out: &mut Buffer, program: &Program<'_>) {
    let name = program.name;
    for command in program.commands {
        let word = command.name;
        if !word.is_empty() {
            put!(out, "complete -c ", name, " -n __fish_use_subcommand");
            put!(out, " -a ", word, " -d '", command.help, "'\n");
            for option in command.options {
                put_fish_option(out, name, word, option);
            }
        }
    }
}

// How fish asks whether a command is given.
const SEEN: &str = " -n '__fish_seen_subcommand_from ";

// The line of an option of a command.
fn put_fish_option(out: &mut Buffer, name: &'static str, word: &'static str, option: &Opt) {
    let long = option.name.strip_prefix("--").unwrap_or("");
    put!(out, "complete -c ", name, SEEN, word, "' -l ", long);
    if !option.value.is_empty() {
        out.put(" -r -a '");
        put_each(out, option.values, " ");
        out.put("'");
    }
    out.put("\n");
}
