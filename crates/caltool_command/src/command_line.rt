//! Lines read as commands.
ghost use Rattle.std.specs.Prelude.{◌≡◌};
ghost use Rattle.std.specs.Option.{option_and_then};
ghost use Rattle.caltool_command.specs.Commands.{command_from as the_command_from, command_of};

use crate::command::Command;
use crate::name::{Name, name_of};
use crate::numbers::Numbers;
use crate::read::command_from;
use crate::words::split_name;
use chrono_text::Line;

// A longer line asks for nothing.
const LONGEST_LINE: usize = 120;

/// Returns the command of a line. `line` has no newline.
///
/// Returns `None` if the line has more than 120 bytes, does not begin with a command word, or has a space too many or
/// too few. It also returns `None` if the line has a wrong number of numbers, or one that does not fit its type.
///
/// For example, `day 719163` gives `Day { number: 719163 }`.
pub fn command_of(line: &[u8]) -> Option<Command>
    ensures { result ≡ command_of line.now }
{
    read_command(&Line::whole(line), &mut Numbers::new())
}

// The command of a line, whose numbers go into the given room.
fn read_command(line: &Line<'_>, numbers: &mut Numbers) -> Option<Command>
    ensures { result ≡ command_of line.now }
{
    let name = read_line(line, numbers)?;
    command_from(name, numbers.as_slice())
}

/// Returns the command word that begins `line`, and puts the numbers after it into `numbers`.
///
/// Returns `None` if `line` has more than 120 bytes, does not begin with a command word, or has something other than
/// numbers after it. [`command_from`] makes the command of both.
pub fn read_line(line: &Line<'_>, numbers: &mut Numbers) -> Option<Name>
    // With the name that is answered the numbers in the room make the line's command; with none it has no command.
    ensures { command_of line.now ≡ option_and_then (λ name. the_command_from name numbers.new) result }
{
    if line.len() > LONGEST_LINE {
        return None;
    }
    let (word, rest) = split_name(line);
    let name = name_of(word)?;
    numbers.read(rest, name.ways())?;
    Some(name)
}
