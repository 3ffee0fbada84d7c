//! The names that the modules of the program use.

pub(crate) use crate::asked::*;
pub(crate) use crate::closed::*;
pub(crate) use crate::fault::*;
pub(crate) use crate::holidays::*;
pub(crate) use crate::lines::*;
pub(crate) use crate::named::*;
pub(crate) use crate::options::*;
pub(crate) use crate::patterned::*;
pub(crate) use crate::table::*;
pub(crate) use crate::texts::*;
pub(crate) use crate::values::*;
pub(crate) use crate::within::*;
pub(crate) use crate::zoned::*;
pub(crate) use chrono_datetime::{
    Datelike, NaiveDate, NaiveDateTime, NaiveTime, TimeDelta, Weekday,
};
pub(crate) use chrono_pattern::Pattern;
pub(crate) use chrono_reading::{ReadCause, ReadError};
pub(crate) use chrono_zoned::{DateTime, FixedOffset, InZone, MappedLocalTime, Timestamp};
pub(crate) use command_words::{
    Arguments, Buffer, CommandRow, OPERAND, OPTION, Operand, Opt, Word, gap_before,
};
pub(crate) use dates_answer::{Key, OutputForm, Reply, Span, Unit};
pub(crate) use std::alloc::{AllocError, Allocator, Global};
pub(crate) use std::fmt;
pub(crate) use std::io::{self, BufReader, ErrorKind};
