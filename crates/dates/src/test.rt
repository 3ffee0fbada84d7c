//! Whether a day is before another, by the exit status.

use crate::diff::like;
use crate::prelude::*;

// The names of tests.
const TESTS: &[&str] = &["-lt", "-le", "-eq", "-ne", "-ge", "-gt"];

pub(crate) fn command() -> &'static CommandRow {
    row!(
        "test", &[DAY, operand!("TEST"; values: TESTS), DAY], &[ZONED, NOW, UNIX, PARSE, ORDER, JSON, HELP];
        help: "tell by the exit status which day is earlier",
        more: "A TEST is -lt (earlier), -le, -eq (the same), -ne, -ge or -gt (later). The exit\n\
            status is 0 where it holds, and else 1; it is 2 if a day does not exist. Nothing\n\
            is printed. Both may be date-times.",
        example: "$ dates test 2024-02-29 -lt 2024-03-01 && echo earlier\nearlier"
    )
}

// 0 where the test holds, and else 1; 2 where a day does not exist. An answer of none is held, and so never printed.
pub(crate) fn answer(asked: &mut Asked<'_>) {
    asked.take_zone();
    asked.reading.takes_clock = true;
    asked.held = Some(Buffer::new(asked.rt.alloc()));
    let from = asked.start(asked.word(0));
    let test = asked.word(1);
    let to = like(asked, &from, asked.word(2));
    let (apart, zero) = (from.until(&to), TimeDelta::zero());
    let (is_earlier, is_later) = (zero < apart, apart < zero);
    let holds = match asked.choice(test, TESTS) {
        0 => is_earlier,
        1 => !is_later,
        2 => !is_earlier && !is_later,
        3 => is_earlier || is_later,
        4 => !is_earlier,
        _ => is_later,
    };
    asked.end_by(if holds { ANSWERED } else { NONE });
    if asked.is_over {
        asked.status = WRONG;
    }
}
