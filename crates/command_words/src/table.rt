//! The table of a program's commands.

/// An option of a command.
#[derive(Clone, Copy)]
pub struct Opt {
    /// Its name with its hyphens, as `--from`.
    pub name: &'static str,
    /// What its value is called, as `TIME`; empty for a flag, which has no value.
    pub value: &'static str,
    /// The values that it may have.
    pub values: &'static [&'static str],
    /// Whether it may have any other value too.
    pub any: bool,
    /// Its value where it is not given; empty where it has none then.
    pub default: &'static str,
    /// Whether it has to be given.
    pub required: bool,
    /// Whether it may be given more than once.
    pub repeated: bool,
    /// What it is for, in one line or a few.
    pub help: &'static str,
}

/// An operand of a command.
#[derive(Clone, Copy)]
pub struct Operand {
    /// What it is called, as `DAY`.
    pub name: &'static str,
    /// The word in front of it, as `in`; empty where there is none.
    pub keyword: &'static str,
    /// The words that it may be, for completion; empty where any word may be one.
    pub values: &'static [&'static str],
    /// Whether it has to be there.
    pub required: bool,
    /// Whether more may follow. Only the last operand may say so.
    pub many: bool,
}

/// A command.
#[derive(Clone, Copy)]
pub struct CommandRow {
    /// Its name; empty for what the program does without one.
    pub name: &'static str,
    /// Its operands.
    pub operands: &'static [Operand],
    /// Its options.
    pub options: &'static [Opt],
    /// What it does, in one line.
    pub help: &'static str,
    /// What else there is to know; empty where there is nothing.
    pub more: &'static str,
    /// An example: the command behind `$ `, and what it prints.
    pub example: &'static str,
}

/// A program.
#[derive(Clone, Copy)]
pub struct Program<'a> {
    /// Its name.
    pub name: &'static str,
    /// What it does, in one line.
    pub help: &'static str,
    /// What else there is to know.
    pub more: &'static str,
    /// Its commands.
    pub commands: &'a [&'static CommandRow],
    /// The options that stand alone, as `--version`.
    pub alone: &'static [Opt],
}

/// An option that takes a value, which a table changes field by field.
pub const OPTION: Opt = Opt {
    name: "",
    value: "",
    values: &[],
    any: true,
    default: "",
    required: false,
    repeated: false,
    help: "",
};

/// An operand that has to be there, which a table changes field by field.
pub const OPERAND: Operand = Operand {
    name: "",
    keyword: "",
    values: &[],
    required: true,
    many: false,
};
