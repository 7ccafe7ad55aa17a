//! The steps of a shelf and its files, and which of them fail.

ghost use Rattle.std.specs.Prelude.{◌≡◌, true, IfErr, IsOk};
ghost use Rattle.std.specs.IoError.{error_kind};
ghost use Rattle.file_place.specs.Shelf.{fails_at, works_with};

use std::cell::Cell;
use std::io;
use std::io::ErrorKind;

/// Which steps fail. They are counted from 1.
#[derive(Clone, Copy, Debug, PartialEq, Eq)]
pub enum Fault {
    /// No step.
    Never,
    /// This step.
    At(u64),
    /// This step and all later ones.
    Since(u64),
}

impl Fault {
    /// Returns whether the step with this number, counted from 1, fails.
    pub fn fails(self, step: u64) -> bool
        ensures { result ≡ fails_at self step }
    {
        match self {
            Fault::Never => false,
            Fault::At(at) => step == at,
            Fault::Since(first) => step >= first,
        }
    }
}

/// The steps of a shelf and its files, with one common count.
#[derive(Clone, Copy)]
pub struct Steps<'a> {
    /// The number of steps that were taken.
    pub taken: &'a Cell<u64>,
    /// Which steps fail.
    pub fault: Fault,
}

impl Steps<'_> {
    /// Takes a step. It fails if `fault` includes its number.
    pub fn take(self) -> io::Result<()>
        ensures succeeds { works_with self.entry.fault ≡ true → IsOk result }
        ensures kind { IfErr result (λ e. error_kind e ≡ ErrorKind.TimedOut) }
    {
        let step = self.taken.get().saturating_add(1);
        self.taken.set(step);
        if self.fault.fails(step) {
            return Err(io::Error::from(ErrorKind::TimedOut));
        }
        Ok(())
    }
}
