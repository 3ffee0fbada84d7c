//! The loop that reads lines and writes their answers.
ghost use Rattle.std.specs.Prelude.{◌≡◌, ◌⊎◌, ◌+◌, ◌-◌, ◌^◌, ◌<◌, ◌≤◌, ℕ, ◌++◌, [], take, OnOk, OnErr, IfErr, IsErrOf};
ghost use Rattle.std.specs.Io.KnownBytes.{Appends, ReadConsumes};
ghost use Rattle.std.specs.Io.{ReadsAtMost};
ghost use Rattle.caltool_form.specs.Answers.{answer_of, answers_of};
ghost use Rattle.caltool_form.specs.Lines.{but_last, last_part, last_line};
ghost use Rattle.caltool_form.specs.Private.{pieces_after, mark_of_read, mark_of_write, mark_of_flush};
ghost use Rattle.caltool_form.specs.Runs.{AnsweredAll, AnsweredEnded, AnsweredPart};
ghost use Rattle.caltool_form.specs.declared.watch.Mark.{Mark};

use crate::command_answers::CommandAnswers;
use crate::fault::RunFault;
use crate::output::{KEPT, Output};
use crate::watch::{WatchedReader, WatchedWriter};
use caltool_command::{Line, split_line};
use chrono_text::Text;
use std::io::{Read, Write};

// The most bytes that one read gives.
const PIECE: usize = 65536;

/// Answers each line of the input with one line, until the input ends.
///
/// `A` answers each command, and the answer to any other line is `error`. The function writes all answers before each
/// read, so a user who waits for an answer gets it. It repeats no failed call and allocates no memory.
pub fn run_by<A: CommandAnswers, R: Read, W: Write>(r: &mut R, w: &mut W) -> Result<(), RunFault>
    // The input was read to its end, and its whole output written.
    ensures ok { OnOk result (AnsweredAll answer_of
        (R.remaining r.old) (R.remaining r.new) (W.contents w.old) (W.contents w.new)) }
    // The lines that a newline ends among the bytes read are answered, and nothing else is written.
    ensures read { IsErrOf result RunFault.Read
        → AnsweredEnded answer_of
        (R.remaining r.old) (R.remaining r.new) (W.contents w.old) (W.contents w.new) }
    // The writer got a first part of the output of the bytes read, or all of it.
    ensures write { IsErrOf result RunFault.Write
        → AnsweredPart answer_of
        (R.remaining r.old) (R.remaining r.new) (W.contents w.old) (W.contents w.new) }
{
    answer_watched::<A, R, W>(&mut WatchedReader::new(r), &mut WatchedWriter::new(w))
}

// The loop, over a reader and a writer that keep in mind what came of their calls. A fault comes of a
// failed call alone, or of as many reads as a `u64` counts; the output is flushed after the end alone.
fn answer_watched<A: CommandAnswers, R: Read, W: Write>(
    r: &mut WatchedReader<'_, R>,
    w: &mut WatchedWriter<'_, W>,
) -> Result<(), RunFault>
    requires reader { r.old.mark ≡ Mark.Open }
    requires writer { w.old.mark ≡ Mark.Open }
    ensures same_reader { r.new.inner.ghost_name ≡ r.old.inner.ghost_name }
    ensures same_writer { w.new.inner.ghost_name ≡ w.old.inner.ghost_name }
    ensures ok { OnOk result (AnsweredAll answer_of
        (R.remaining r.old.inner.now) (R.remaining r.new.inner.now)
        (W.contents w.old.inner.now) (W.contents w.new.inner.now)) }
    ensures read { IsErrOf result RunFault.Read → AnsweredEnded answer_of
        (R.remaining r.old.inner.now) (R.remaining r.new.inner.now)
        (W.contents w.old.inner.now) (W.contents w.new.inner.now) }
    ensures write { IsErrOf result RunFault.Write → AnsweredPart answer_of
        (R.remaining r.old.inner.now) (R.remaining r.new.inner.now)
        (W.contents w.old.inner.now) (W.contents w.new.inner.now) }
    // Both ends were reached: the input was read to its end, and then the output flushed.
    ensures ended { OnOk result ((r.new.mark ≡ Mark.Ended) × (w.new.mark ≡ Mark.Ended)) }
    // A read failed, or the count of reads is at its end; no write failed, and there was no flush.
    ensures read_cause { IsErrOf result RunFault.Read
        → ((r.new.mark ≡ Mark.Failed) ⊎ (2 ^ 64 - 1 ≤ r.new.reads)) × (w.new.mark ≡ Mark.Open) }
    // A write or the flush failed.
    ensures write_cause { IsErrOf result RunFault.Write → w.new.mark ≡ Mark.Failed }
{
    let mut piece = [0u8; PIECE];
    let mut carried = Text::new();
    let mut out = Output::new();
    while r.may_read() {
        let n = read_piece(r, &mut piece, &out, w)?;
        if n == 0 {
            return finish::<A, R, W>(&mut carried, &mut out, r, w);
        }
        answer_piece::<A, W>(&piece[..n], &mut carried, &mut out, w)?;
    }
    Err(RunFault::Read)
}

// The only read. No write failed, and all answers so far are written, so that a user who waits for them has them.
fn read_piece<R: Read, W: Write>(
    r: &mut WatchedReader<'_, R>,
    piece: &mut [u8],
    out: &Output,
    w: &WatchedWriter<'_, W>,
) -> Result<usize, RunFault>
    requires reader { r.old.mark ≡ Mark.Open }
    requires counted { r.old.reads < 2 ^ 64 - 1 }
    requires writer { w.now.mark ≡ Mark.Open }
    requires nothing_waits { out.now ≡ [] }
    ensures same { r.new.inner.ghost_name ≡ r.old.inner.ghost_name }
    ensures bound { ReadsAtMost result piece.new }
    ensures bytes { ReadConsumes
        (R.remaining r.old.inner.now) (R.remaining r.new.inner.now) result piece.new }
    ensures mark { r.new.mark ≡ mark_of_read result }
    ensures reads { r.new.reads ≡ r.old.reads + 1 }
    ensures fault { IfErr result (λ e. e ≡ RunFault.Read) }
{
    r.read(piece)
}

// Answers the lines that end in this piece, and carries the rest on. Nothing waits before or after.
fn answer_piece<A: CommandAnswers, W: Write>(
    piece: &[u8],
    carried: &mut Text<KEPT>,
    out: &mut Output,
    w: &mut WatchedWriter<'_, W>,
) -> Result<(), RunFault>
    requires nothing { out.old ≡ [] }
    requires writer { w.old.mark ≡ Mark.Open }
    ensures same { w.new.inner.ghost_name ≡ w.old.inner.ghost_name }
    ensures ok { OnOk result (Appends (W.contents w.old.inner.now) (W.contents w.new.inner.now)
        (answers_of answer_of (but_last (pieces_after carried.old piece.now)))) }
    ensures carries { OnOk result
        (carried.new ≡ take 121 (last_part (pieces_after carried.old piece.now))) }
    ensures nothing { OnOk result (out.new ≡ []) }
    ensures err { OnErr result ((n : ℕ)
        × Appends (W.contents w.old.inner.now) (W.contents w.new.inner.now)
        (take n (answers_of answer_of (but_last (pieces_after carried.old piece.now))))) }
    ensures mark { w.new.mark ≡ mark_of_write result }
    ensures fault { IfErr result (λ e. e ≡ RunFault.Write) }
{
    let mut rest = piece;
    while let Some((line, after)) = split_line(rest, b'\n') {
        out.make_room(w)?;
        out.answer_carried::<A>(carried, &line);
        rest = after;
    }
    carried.push_clipped(rest);
    out.send(w)
}

// Answers a last line that no newline ends, and flushes once.
fn finish<A: CommandAnswers, R: Read, W: Write>(
    carried: &mut Text<KEPT>,
    out: &mut Output,
    r: &WatchedReader<'_, R>,
    w: &mut WatchedWriter<'_, W>,
) -> Result<(), RunFault>
    requires nothing { out.old ≡ [] }
    requires reader { r.now.mark ≡ Mark.Ended }
    requires writer { w.old.mark ≡ Mark.Open }
    ensures same { w.new.inner.ghost_name ≡ w.old.inner.ghost_name }
    ensures ok { OnOk result (Appends (W.contents w.old.inner.now) (W.contents w.new.inner.now)
        (answers_of answer_of (last_line carried.old))) }
    ensures err { OnErr result ((n : ℕ)
        × Appends (W.contents w.old.inner.now) (W.contents w.new.inner.now)
        (take n (answers_of answer_of (last_line carried.old)))) }
    ensures mark { w.new.mark ≡ mark_of_flush result }
    ensures fault { IfErr result (λ e. e ≡ RunFault.Write) }
{
    answer_last::<A, W>(carried, out, w)?;
    w.flush(r)
}

// Answers a last line that no newline ends.
fn answer_last<A: CommandAnswers, W: Write>(
    carried: &mut Text<KEPT>,
    out: &mut Output,
    w: &mut WatchedWriter<'_, W>,
) -> Result<(), RunFault>
    requires nothing { out.old ≡ [] }
    requires writer { w.old.mark ≡ Mark.Open }
    ensures same { w.new.inner.ghost_name ≡ w.old.inner.ghost_name }
    ensures ok { OnOk result (Appends (W.contents w.old.inner.now) (W.contents w.new.inner.now)
        (answers_of answer_of (last_line carried.old))) }
    ensures err { OnErr result ((n : ℕ)
        × Appends (W.contents w.old.inner.now) (W.contents w.new.inner.now)
        (take n (answers_of answer_of (last_line carried.old)))) }
    ensures mark { w.new.mark ≡ mark_of_write result }
    ensures fault { IfErr result (λ e. e ≡ RunFault.Write) }
{
    if carried.is_empty() {
        return Ok(());
    }
    out.answer_carried::<A>(carried, &Line::whole(b""));
    out.send(w)
}
