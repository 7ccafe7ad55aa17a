//! The listing of an index: a line for each entry.

ghost use Rattle.std.specs.Prelude.{◌≡◌, ◌<◌, OnOk, ◌++◌};
ghost use Rattle.index_parts.specs.Id.{id_bytes};
ghost use Rattle.base_text.specs.Blocks.{PutsText};
ghost use Rattle.index_state.specs.State.{contents};
ghost use Rattle.view_list.specs.Line.{entry_line, line_of_parts, listing};

use base_text::append::{Appended, append_hex};
use base_text::block::{BLOCK_LEN, SPARE_LEN, put_block, put_text};
use base_text::digits::low_octal;
use base_text::lines::Lines;
use bitflags::Flags as _;
use entry_list::Entry;
use index_parts::hash::ObjectId;
use index_parts::hash::io::Out;
use index_state::State;
use std::alloc::Global;
use std::io;

/// Appends the line with these fields.
fn append_parts(
    lines: &mut Vec<u8>,
    style: Lines,
    mode: u32,
    id: &ObjectId,
    stage: u32,
    path: &[u8],
) -> Appended
    requires { stage < 4 }
    ensures { OnOk result (lines.new.items
        ≡ lines.old.items ++ line_of_parts style mode (id_bytes id.now) stage path.now) }
{
    lines.extend_from_slice(&low_octal(mode))?;
    lines.extend_from_slice(b" ")?;
    append_hex(lines, id)?;
    lines.extend_from_slice(&[b' ', b'0' + stage as u8, b'\t'])?;
    style.append_path(lines, path)?;
    lines.extend_from_slice(&[style.end()])
}

/// Appends the line of an entry.
fn append_line(lines: &mut Vec<u8>, style: Lines, state: &State, entry: &Entry) -> Appended
    ensures { OnOk result (lines.new.items ≡ lines.old.items ++ entry_line style state.now
        entry.now) }
{
    let path = entry.path(state);
    append_parts(
        lines,
        style,
        entry.mode.bits(),
        &entry.id,
        entry.stage_raw(),
        path,
    )
}

/// Writes a line for each entry, in the order of the index: the mode in six octal digits, the id, the stage, a tab and
/// the path. If paths are quoted, `git ls-files --stage` prints these lines.
///
/// Lines are collected in one buffer, which is written when it has more than 64 KiB.
///
/// # Errors
///
/// [`ErrorKind::OutOfMemory`]: the buffer can't be allocated. Any other error is that of the output, which has failed
/// then. What was written is a prefix of the listing.
pub fn write_listing<W: Out>(
    alloc: Global,
    state: &State,
    style: Lines,
    out: &mut W,
) -> io::Result<()>
    ensures { PutsText W.Out out.old out.new result (listing style (contents state.now).records) }
{
    let mut lines = Vec::with_capacity(alloc, BLOCK_LEN + SPARE_LEN)?;
    for entry in state.entries() {
        append_line(&mut lines, style, state, entry)?;
        put_block(&mut lines, out)?;
    }
    put_text(lines.as_slice(), out)
}
