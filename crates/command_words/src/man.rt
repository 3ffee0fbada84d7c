//! The help of a program and of all its commands as one page: a man page, and a page of a reference.

use crate::help::{put_command_help, put_program_help};
use crate::pieces::Buffer;
use crate::table::Program;

/// Puts a man page behind a text, as troff takes it: the help of the program and of each command as it stands.
pub fn put_man_page(out: &mut Buffer, program: &Program<'_>) {
    let name = program.name;
    put!(out, ".TH ", name, " 1\n.SH NAME\n", name, " \\- ");
    put!(out, program.help, "\n.SH DESCRIPTION");
    put_page(out, program, ".SH ", "\n.nf\n.eo\n", ".ec\n.fi\n");
}

/// Puts a page of Markdown behind a text that has the help of every command.
pub fn put_reference(out: &mut Buffer, program: &Program<'_>) {
    put!(out, "# Commands of ", program.name);
    put_page(out, program, "\n## ", "\n\n```text\n", "```\n");
}

// The help of a program, and that of each command behind its name: with texts in front of the name, behind it and behind the help.
fn put_page(
    out: &mut Buffer,
    program: &Program<'_>,
    front: &'static str,
    open: &'static str,
    close: &str,
) {
    out.put(open);
    put_program_help(out, program);
    out.put(close);
    for command in program.commands {
        if !command.name.is_empty() {
            put!(out, front, program.name, " ", command.name, open);
            put_command_help(out, program, command);
            out.put(close);
        }
    }
}
