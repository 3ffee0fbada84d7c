//! A reader and a writer that remember the results of their calls.
//!
//! Proofs use this: a fault has a cause, and no call follows a call that failed or was the last.
ghost use Rattle.std.specs.Prelude.{◌≡◌, ◌+◌, ◌-◌, ◌^◌, ◌<◌, ◌≤◌, ◌↔◌, length, IfOk, IfErr, IsTrue};
ghost use Rattle.std.specs.Io.KnownBytes.{Keeps, ReadConsumes, WriteAppends};
ghost use Rattle.std.specs.Io.{ReadsAtMost};
ghost use Rattle.caltool_form.specs.Private.{mark_of_read, mark_of_write, mark_of_flush};

use crate::fault::RunFault;
use std::io::{Read, Write};

// What came of the calls so far.
#[derive(Clone, Copy, Debug, PartialEq, Eq)]
pub(crate) enum Mark {
    // None failed, and more may follow.
    Open,
    // The last one found the end of the input, or flushed the output.
    Ended,
    // The last one failed.
    Failed,
}

// A reader with a mark and the count of its reads.
#[derive(Drop)]
pub(crate) struct WatchedReader<'a, R> {
    inner: &'a mut R,
    mark: Mark,
    reads: u64,
}

impl<'a, R: Read> WatchedReader<'a, R> {
    pub(crate) fn new(inner: &'a mut R) -> WatchedReader<'a, R>
        ensures same { result.inner.ghost_name ≡ inner.entry.ghost_name }
        ensures bytes { result.inner.now ≡ inner.old }
        ensures open { result.mark ≡ Mark.Open }
        ensures reads { result.reads ≡ 0 }
    {
        WatchedReader {
            inner,
            mark: Mark::Open,
            reads: 0,
        }
    }

    // Whether a `u64` can count one more read.
    pub(crate) fn may_read(&self) -> bool
        ensures { IsTrue result ↔ (self.now.reads < 2 ^ 64 - 1) }
    {
        self.reads < u64::MAX
    }

    // Reads once. An answer of no byte is the end.
    pub(crate) fn read(&mut self, piece: &mut [u8]) -> Result<usize, RunFault>
        requires open { self.old.mark ≡ Mark.Open }
        requires counted { self.old.reads < 2 ^ 64 - 1 }
        ensures same { self.new.inner.ghost_name ≡ self.old.inner.ghost_name }
        ensures bound { ReadsAtMost result piece.new }
        ensures bytes { ReadConsumes
            (R.remaining self.old.inner.now) (R.remaining self.new.inner.now) result piece.new }
        ensures mark { self.new.mark ≡ mark_of_read result }
        ensures reads { self.new.reads ≡ self.old.reads + 1 }
        ensures fault { IfErr result (λ e. e ≡ RunFault.Read) }
    {
        self.reads += 1;
        match self.inner.read(piece) {
            Ok(0) => {
                self.mark = Mark::Ended;
                Ok(0)
            }
            Ok(n) => Ok(n),
            Err(_) => {
                self.mark = Mark::Failed;
                Err(RunFault::Read)
            }
        }
    }
}

// A writer with a mark.
#[derive(Drop)]
pub(crate) struct WatchedWriter<'a, W> {
    inner: &'a mut W,
    mark: Mark,
}

impl<'a, W: Write> WatchedWriter<'a, W> {
    pub(crate) fn new(inner: &'a mut W) -> WatchedWriter<'a, W>
        ensures same { result.inner.ghost_name ≡ inner.entry.ghost_name }
        ensures bytes { result.inner.now ≡ inner.old }
        ensures open { result.mark ≡ Mark.Open }
    {
        WatchedWriter {
            inner,
            mark: Mark::Open,
        }
    }

    // Writes a first part of the bytes, and gives its length. To take none of them is to fail.
    pub(crate) fn write(&mut self, bytes: &[u8]) -> Result<usize, RunFault>
        requires open { self.old.mark ≡ Mark.Open }
        requires some { 0 < length bytes.now }
        ensures same { self.new.inner.ghost_name ≡ self.old.inner.ghost_name }
        ensures some { IfOk result (λ n. 0 < n) }
        ensures bound { IfOk result (λ n. n ≤ length bytes.now) }
        ensures bytes { WriteAppends
            (W.contents self.old.inner.now) (W.contents self.new.inner.now) result bytes.now }
        ensures mark { self.new.mark ≡ mark_of_write result }
        ensures fault { IfErr result (λ e. e ≡ RunFault.Write) }
    {
        match self.inner.write(bytes) {
            Ok(0) | Err(_) => {
                self.mark = Mark::Failed;
                Err(RunFault::Write)
            }
            Ok(n) => Ok(n),
        }
    }

    // Flushes, after the reader's end: the last call.
    pub(crate) fn flush<R: Read>(&mut self, r: &WatchedReader<'_, R>) -> Result<(), RunFault>
        requires open { self.old.mark ≡ Mark.Open }
        requires ended { r.now.mark ≡ Mark.Ended }
        ensures same { self.new.inner.ghost_name ≡ self.old.inner.ghost_name }
        ensures bytes { Keeps (W.contents self.old.inner.now) (W.contents self.new.inner.now) }
        ensures mark { self.new.mark ≡ mark_of_flush result }
        ensures fault { IfErr result (λ e. e ≡ RunFault.Write) }
    {
        match self.inner.flush() {
            Ok(()) => {
                self.mark = Mark::Ended;
                Ok(())
            }
            Err(_) => {
                self.mark = Mark::Failed;
                Err(RunFault::Write)
            }
        }
    }
}
