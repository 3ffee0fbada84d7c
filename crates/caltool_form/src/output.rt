//! The answers that wait to be written.
ghost use Rattle.std.specs.Prelude.{◌≡◌, ◌+◌, ◌≤◌, ◌<◌, ◌++◌, codes, ℕ, List, [], length, take, OnOk, OnErr, IfErr};
ghost use Rattle.std.specs.Io.KnownBytes.{Appends};
ghost use Rattle.caltool_form.specs.Private.{mark_of_write};
ghost use Rattle.caltool_form.specs.declared.watch.Mark.{Mark};
ghost use Rattle.caltool_form.specs.Answers.{answer_of};

use crate::answer::read_and_answer;
use crate::command_answers::CommandAnswers;
use crate::fault::RunFault;
use crate::watch::WatchedWriter;
use caltool_command::{Line, Numbers};
use chrono_text::Text;
use std::io::Write;
use std::marker::Model;

// The most bytes that wait to be written.
const ROOM: usize = 65536;

// One byte more than the longest line that is read: of a longer one the rest does not matter.
pub(crate) const KEPT: usize = 121;

// The answers that wait to be written.
#[derive(Drop)]
pub(crate) struct Output {
    text: Text<ROOM>,
    // Room for the numbers of the line that is answered.
    numbers: Numbers,
}

impl Model for Output {
    ghost Value = { List ℕ };

    ghost view = { λ o. o.text };
}

impl Output {
    pub(crate) fn new() -> Output
        ensures { result ≡ [] }
    {
        Output {
            text: Text::new(),
            numbers: Numbers::new(),
        }
    }

    // Adds the answer to a line, and its newline.
    pub(crate) fn answer<A: CommandAnswers>(&mut self, line: &Line<'_>)
        requires { length self.old + 63 < 65536 }
        ensures { self.new ≡ self.old ++ answer_of line.now ++ codes "\n" }
    {
        read_and_answer::<A, ROOM>(&mut self.text, line, &mut self.numbers);
        self.text.push(b'\n');
    }

    // Adds the answer to a line of which the first bytes were carried on, and its newline. Nothing is carried on.
    #[tactic(auto, using(crate::proofs::Pieces::clipped))]
    pub(crate) fn answer_carried<A: CommandAnswers>(
        &mut self,
        carried: &mut Text<KEPT>,
        end: &Line<'_>,
    )
        requires { length self.old + 63 < 65536 }
        ensures answer { self.new ≡ self.old ++ answer_of (carried.old ++ end.now) ++ codes "\n" }
        ensures nothing { carried.new ≡ [] }
    {
        if carried.is_empty() {
            self.answer::<A>(end);
            return;
        }
        carried.push_clipped(end.as_slice());
        self.answer::<A>(&Line::whole(carried.as_bytes()));
        carried.clear();
    }

    // Makes room for an answer of at most 63 bytes and its newline.
    pub(crate) fn make_room<W: Write>(
        &mut self,
        w: &mut WatchedWriter<'_, W>,
    ) -> Result<(), RunFault>
        requires { w.old.mark ≡ Mark.Open }
        ensures same { w.new.inner.ghost_name ≡ w.old.inner.ghost_name }
        ensures ok { OnOk result ((done : List ℕ)
            × Appends (W.contents w.old.inner.now) (W.contents w.new.inner.now) done
            × (self.old ≡ done ++ self.new)) }
        ensures room { OnOk result (length self.new + 63 < 65536) }
        ensures err { OnErr result ((n : ℕ)
            × Appends (W.contents w.old.inner.now) (W.contents w.new.inner.now) (take n self.old)) }
        ensures mark { w.new.mark ≡ mark_of_write result }
        ensures fault { IfErr result (λ e. e ≡ RunFault.Write) }
    {
        if self.text.room() > 63 {
            return Ok(());
        }
        self.send(w)
    }

    // Writes what waits. After a fault a beginning of it is written.
    pub(crate) fn send<W: Write>(&mut self, w: &mut WatchedWriter<'_, W>) -> Result<(), RunFault>
        requires { w.old.mark ≡ Mark.Open }
        ensures same { w.new.inner.ghost_name ≡ w.old.inner.ghost_name }
        ensures ok { OnOk result
            (Appends (W.contents w.old.inner.now) (W.contents w.new.inner.now) self.old) }
        ensures nothing { OnOk result (self.new ≡ []) }
        ensures err { OnErr result ((n : ℕ)
            × Appends (W.contents w.old.inner.now) (W.contents w.new.inner.now) (take n self.old)) }
        ensures mark { w.new.mark ≡ mark_of_write result }
        ensures fault { IfErr result (λ e. e ≡ RunFault.Write) }
    {
        write_whole(w, self.text.as_bytes())?;
        self.text.clear();
        Ok(())
    }
}

// Writes the bytes, by as many writes as it takes.
fn write_whole<W: Write>(w: &mut WatchedWriter<'_, W>, bytes: &[u8]) -> Result<(), RunFault>
    requires { w.old.mark ≡ Mark.Open }
    ensures same { w.new.inner.ghost_name ≡ w.old.inner.ghost_name }
    ensures ok { OnOk result
        (Appends (W.contents w.old.inner.now) (W.contents w.new.inner.now) bytes.now) }
    ensures err { OnErr result ((n : ℕ)
        × Appends (W.contents w.old.inner.now) (W.contents w.new.inner.now) (take n bytes.now)) }
    ensures mark { w.new.mark ≡ mark_of_write result }
    ensures fault { IfErr result (λ e. e ≡ RunFault.Write) }
{
    let mut at = 0;
    while at < bytes.len() {
        let n = w.write(&bytes[at..])?;
        at += n;
    }
    Ok(())
}
