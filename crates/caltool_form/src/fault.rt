//! The faults that stop a run.
ghost use Rattle.std.specs.Prelude.{◌≡◌, Some};
ghost use Rattle.caltool_form.specs.Faults.{fault_text, status_of};

use std::fmt;

/// A fault that stops a run. It prints as `read fault` or `write fault`.
#[derive(Clone, Copy, Debug, PartialEq, Eq)]
pub enum RunFault {
    /// A read failed, or as many reads as a `u64` counts saw no end.
    Read,
    /// A write failed or wrote no byte, or the flush at the end failed.
    Write,
}

impl RunFault {
    /// Returns the exit status of a program whose run stopped with this fault: 1 for a read, 2 for a write.
    pub fn status(&self) -> u8
        ensures { result ≡ status_of self.now }
    {
        match self {
            RunFault::Read => 1,
            RunFault::Write => 2,
        }
    }
}

impl fmt::Display for RunFault {
    ghost output = { λ fault. Some (fault_text fault) };

    ghost styled_output = { λ fault _. Some (fault_text fault) };

    /// Writes `read fault` or `write fault`. Width and precision change nothing.
    fn fmt<W: fmt::Write>(&self, f: &mut fmt::Formatter<W>) -> fmt::Result {
        match self {
            RunFault::Read => f.write_str("read fault"),
            RunFault::Write => f.write_str("write fault"),
        }
    }
}
