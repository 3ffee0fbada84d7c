//! Command lines read by a table: the operands and the options of a list of words, or the word that breaks the table. Help, a man
//! page and completion come from the same table.
#![tactic(auto)]

// Puts pieces behind a text, one after another.
macro_rules! put {
    ($out:expr, $($piece:expr),+ $(,)?) => {
        {
            $($out.put($piece);)+
        }
    };
}

mod completion;
mod given;
mod help;
mod man;
mod near;
mod pieces;
mod table;
mod words;

pub use completion::{Shell, put_completion};
pub use help::{put_choices, put_command_help, put_program_help, put_usage};
pub use man::{put_man_page, put_reference};
pub use near::Nearest;
pub use pieces::{Buffer, gap_before};
pub use table::{CommandRow, OPERAND, OPTION, Operand, Opt, Program};
pub use words::{Arguments, GivenOption, Why, Word, Wrong, read_words};
