//! Rows about an index in a file, which is read as a caller of the library reads it.

use crate::show;
use gix_index::entry::FileTime;
use gix_index::file::init::Error;
use gix_index::hash::Kind;
use gix_index::{File, decode};
use std::alloc::Global;
use std::path::PathBuf;
use test_row_kit::show::Text;
use test_row_kit::{Fault, Lines, Words, refusal};

/// `at`: reads the file at a path, with the shared index that it links to, and appends the lines of its state. With
/// `or-default`, the path may have no file.
pub fn at(words: &mut Words<'_>, out: &mut Lines) -> Result<(), Fault> {
    let kind = words.kind()?;
    let path = PathBuf::from_str(out.alloc(), words.next("a file")?)?;
    let or_default = words.has("or-default");
    match read(words.rt(), out.alloc(), path, kind, or_default) {
        Ok(file) => {
            let checksum = file.checksum();
            show::state::state(out, &file.into_parts().0, checksum);
        }
        Err(fault) => refused(out, &fault),
    }
    Ok(())
}

fn read(
    rt: &HostRuntime,
    alloc: Global,
    path: PathBuf,
    kind: Kind,
    or_default: bool,
) -> Result<File, Error> {
    let (time, options) = (FileTime::EPOCH, decode::Options::default());
    if or_default {
        return File::at_or_default(rt, alloc, path, kind, false, time, options);
    }
    File::at(rt, alloc, path, kind, false, time, options)
}

/// Appends the line of an error. If a file can't be read, the line has its name.
fn refused(out: &mut Lines, fault: &Error) {
    match fault {
        Error::Io(fault) => {
            let name = fault.path.as_str().as_bytes();
            writeln!(out, "fault: file {}", Text(name));
        }
        _ => refusal::file(out, fault),
    }
}
