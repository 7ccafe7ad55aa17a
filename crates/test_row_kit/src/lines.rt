//! The lines of an answer.

use std::alloc::{AllocError, Global};
use std::fmt::Display;

/// The answer to a row, collected in memory. `put`, `write!` and `writeln!` append to it and can't fail. If an
/// allocation failed, `end` returns the error.
#[derive(Drop)]
pub struct Lines {
    alloc: Global,
    text: String,
    is_short: bool,
}

impl Lines {
    /// Returns an answer without lines.
    pub fn new(alloc: Global) -> Lines {
        Lines {
            alloc,
            text: String::new(alloc),
            is_short: false,
        }
    }

    /// Returns the allocator of the answer.
    pub fn alloc(&self) -> Global {
        self.alloc
    }

    /// Appends text.
    pub fn write_fmt<D: Display + Drop>(&mut self, text: D) {
        let grown = self.text.write_fmt(text);
        self.note(grown);
    }

    /// Appends the line `NAME: VALUE`.
    pub fn put<D: Display + Drop>(&mut self, name: &str, value: D) {
        writeln!(self, "{name}: {value}");
    }

    /// Records a failed allocation, if `grown` is an error. Then `end` fails.
    pub fn note<E: Drop>(&mut self, grown: Result<(), E>) {
        if grown.is_err() {
            self.is_short = true;
        }
    }

    /// Returns all text that was appended, or an error if an allocation failed.
    pub fn end(self) -> Result<String, AllocError> {
        if self.is_short {
            return Err(AllocError);
        }
        Ok(self.text)
    }
}
