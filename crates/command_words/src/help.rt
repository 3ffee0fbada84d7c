//! Help, as a terminal of 80 columns shows it.

use crate::pieces::{Buffer, gap_before, text_if};
use crate::table::{CommandRow, Operand, Opt, Program};

/// Puts behind a text how a command is called, as `dates add [DAY] SPAN... [OPTION]...`: with its options that have to be given.
pub fn put_usage(out: &mut Buffer, program: &str, command: &CommandRow) {
    out.put(program);
    if !command.name.is_empty() {
        put!(out, " ", command.name);
    }
    for operand in command.operands {
        put_operand(out, operand);
    }
    for option in command.options {
        if option.required {
            put!(out, " ", option.name, " ", option.value);
        }
    }
    out.put(" [OPTION]...");
}

// An operand with a space in front of it.
fn put_operand(out: &mut Buffer, operand: &Operand) {
    let (name, keyword) = (operand.name, operand.keyword);
    let open = text_if(!operand.required, "[");
    put!(out, " ", open, keyword, gap_before(keyword), name);
    out.put(text_if(operand.many, "..."));
    out.put(text_if(!operand.required, "]"));
}

/// Puts behind a text the words that a value may be, as `a, b or c`.
pub fn put_choices(out: &mut Buffer, values: &'static [&'static str]) {
    let mut left = values.len();
    for value in values {
        left = left.saturating_sub(1);
        let end = match left {
            0 => "",
            1 => " or ",
            _ => ", ",
        };
        put!(out, value, end);
    }
}

/// Puts behind a text what there is to know of a command: how it is called, what it does, its options and an example.
pub fn put_command_help(out: &mut Buffer, program: &Program<'_>, command: &CommandRow) {
    out.put("Usage: ");
    put_usage(out, program.name, command);
    put_sentence(out, command.help);
    if !command.more.is_empty() {
        put!(out, "\n", command.more, "\n");
    }
    put_options(out, command.options);
    if command.example.is_empty() {
        return;
    }
    out.put("\nExample:\n");
    for line in command.example.split('\n') {
        put!(out, "  ", line, "\n");
    }
}

/// Puts behind a text what there is to know of a program: how it is called, its commands and its options.
pub fn put_program_help(out: &mut Buffer, program: &Program<'_>) {
    out.put("Usage:");
    for command in program.commands {
        if command.name.is_empty() {
            out.put(" ");
            put_usage(out, program.name, command);
            out.put("\n   or:");
        }
    }
    put!(out, " ", program.name, " COMMAND [ARGUMENT]... [OPTION]...");
    put_sentence(out, program.help);
    out.put("\nCommands:\n");
    put_commands(out, program.commands);
    put_options(out, program.alone);
    put!(out, "\n", program.more, "\n");
}

// The commands that have a name, and what each does.
fn put_commands(out: &mut Buffer, commands: &[&'static CommandRow]) {
    for command in commands {
        let CommandRow { name, help, .. } = **command;
        if !name.is_empty() {
            put!(out, "  ", name);
            put_spaces(out, name.len(), 9);
            put!(out, help, "\n");
        }
    }
}

// So many columns are in front of what an option is for.
const COLUMN: usize = 22;

// Options, and what each is for behind it.
fn put_options(out: &mut Buffer, options: &'static [Opt]) {
    out.put("\nOptions:\n");
    for option in options {
        let Opt { name, value, .. } = *option;
        let mut from = out.len();
        put!(out, "  ", name, gap_before(value), value);
        for line in option.help.split('\n') {
            put_spaces(out, out.len().saturating_sub(from), COLUMN);
            put!(out, line, "\n");
            from = out.len();
        }
    }
}

// Spaces from one column to another.
fn put_spaces(out: &mut Buffer, used: usize, column: usize) {
    for _ in used..column {
        out.put(" ");
    }
}

// A text as a sentence of a line of its own: with a capital letter and a full stop.
fn put_sentence(out: &mut Buffer, text: &str) {
    let mut letters = text.chars();
    out.put("\n");
    if let Some(first) = letters.next() {
        out.put_char(first.to_ascii_uppercase());
    }
    put!(out, letters.as_str(), ".\n");
}
