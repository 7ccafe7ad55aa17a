//! Formats a state as text, for debugging.

use crate::State;
use bitflags::Flags as _;
use bstr::ByteSlice;
use std::fmt;

/// Writes the version, the hash algorithm and the number of entries, then a line for each entry. The line has the
/// entry's mode in octal, id, stage and quoted path, in the order of the file. No entries are written if a path is
/// outside of the storage; no state that was read has such a path.
impl fmt::Debug for State {
    fn fmt<W: fmt::Write>(&self, f: &mut fmt::Formatter<W>) -> fmt::Result {
        let (version, kind) = (self.version(), self.object_hash());
        let len = self.entries().len();
        writeln!(f, "{version:?}, {kind:?}, {len} entries")?;
        if !self.paths_in_storage() {
            return Ok(());
        }
        let entries = self.slice();
        for place in 0..len {
            let (entry, path) = (entries.entry(place), entries.path(place).as_bstr());
            let (mode, stage) = (entry.mode.bits(), entry.stage());
            writeln!(f, "{mode:06o} {} {stage:?} {path:?}", entry.id)?;
        }
        Ok(())
    }
}
