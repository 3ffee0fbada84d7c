//! The command words.
ghost use Rattle.std.specs.Prelude.{◌≡◌};
ghost use Rattle.caltool_command.specs.Commands.{name_of};

use crate::ways::Ways;
use chrono_text::Way::{Long, Short};

/// A command word, which begins a line.
#[derive(Clone, Copy, Debug, PartialEq, Eq)]
pub enum Name {
    /// `ymd`.
    Ymd,
    /// `yo`.
    Yo,
    /// `iwd`.
    Iwd,
    /// `day`.
    Day,
    /// `wom`.
    Wom,
    /// `days`.
    Days,
    /// `months`.
    Months,
    /// `week`.
    Week,
    /// `move`.
    Move,
    /// `diff`.
    Diff,
    /// `since`.
    Since,
    /// `set`.
    Set,
    /// `on`.
    On,
    /// `every`.
    Every,
}

impl Name {
    // How each of the command's numbers is best read; the last way is that of all further ones, too. A month, an hour or a weekday
    // has one digit or two; a year, a fraction or a count may have more.
    #[inline]
    pub(crate) fn ways(self) -> Ways {
        match self {
            Name::Ymd | Name::Iwd | Name::Wom | Name::Week | Name::On | Name::Every => {
                Ways::of(&[Long, Short])
            }
            Name::Yo | Name::Day => Ways::of(&[Long]),
            Name::Days | Name::Months => Ways::of(&[Long, Short, Short, Long]),
            Name::Move => Ways::of(&[Long, Short, Short, Short, Short, Short, Long]),
            Name::Diff => Ways::of(&[
                Long, Short, Short, Short, Short, Short, Long, Long, Short, Short, Short, Short,
                Short, Long,
            ]),
            Name::Since => Ways::of(&[Long, Short, Short, Long, Short]),
            Name::Set => Ways::of(&[Short]),
        }
    }
}

// The command word that these bytes are, if they are one.
#[tactic(auto, unfolding(crate::specs::Commands::name_of))]
pub(crate) fn name_of(word: &[u8]) -> Option<Name>
    ensures { result ≡ name_of word.now }
{
    match word {
        b"ymd" => Some(Name::Ymd),
        b"yo" => Some(Name::Yo),
        b"iwd" => Some(Name::Iwd),
        b"day" => Some(Name::Day),
        b"wom" => Some(Name::Wom),
        b"days" => Some(Name::Days),
        b"months" => Some(Name::Months),
        b"week" => Some(Name::Week),
        b"move" => Some(Name::Move),
        b"diff" => Some(Name::Diff),
        b"since" => Some(Name::Since),
        b"set" => Some(Name::Set),
        b"on" => Some(Name::On),
        b"every" => Some(Name::Every),
        _ => None,
    }
}
