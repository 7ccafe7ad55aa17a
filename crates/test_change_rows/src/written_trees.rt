//! Rows about the tree objects that are written for an index, and about a cache tree compared with the entries.

ghost use Rattle.std.specs.Prelude.{None, Some};

use crate::objects::check_of;
use crate::trees::tree_of;
use gix_index::BitFlags as _;
use gix_index::extension::Tree;
use gix_index::hash::{Kind, ObjectId};
use gix_index::verify::tree_ids;
use gix_index::write_trees::{Error, NameFault, Sink};
use test_row_kit::show::{Bytes, ShortId, Text};
use test_row_kit::{Fault, Lines, Words, refusal};

/// A sink for tree objects: collects a line for each object, and fails after `left` more of them.
#[derive(Drop)]
struct Objects {
    lines: Lines,
    left: u32,
}

impl Sink for Objects {
    ghost stored = { λ _. None };

    ghost fault = { λ _. Some 7 };

    fn put(&mut self, id: &ObjectId, bytes: &[u8]) -> Result<(), u32> {
        if self.left == 0 {
            return Err(7);
        }
        self.left -= 1;
        writeln!(self.lines, "object: {id} {}", Bytes(bytes));
        Ok(())
    }
}

/// `write-trees`: appends the tree objects of the entries in the order of writing, and their cache tree or the first
/// error.
pub fn write(out: &mut Lines, kind: Kind, words: &mut Words<'_>) -> Result<(), Fault> {
    let state = match words.state(kind)? {
        Ok(state) => state,
        Err(e) => {
            refusal::decode(out, &e);
            return Ok(());
        }
    };
    if state.verify_entries().is_err() {
        return Err(Fault::Wrong("a state in strict order"));
    }
    let left = if words.has("room") {
        words.number()?
    } else {
        u32::MAX
    };
    let check = check_of(words)?;
    let lines = Lines::new(out.alloc());
    let mut sink = Objects { lines, left };
    let written = state.write_trees(out.alloc(), &check, &mut sink);
    write!(out, "{}", sink.lines.end()?);
    match written {
        Ok(tree) => nodes(out, &tree),
        Err(e) => refused(out, &e),
    }
    Ok(())
}

/// Appends the nodes of a cache tree in preorder.
fn nodes(out: &mut Lines, tree: &Tree) {
    let mut left = Vec::new(out.alloc());
    out.note(left.push(tree));
    for _ in 0..u64::MAX {
        let Some(it) = left.pop() else {
            break;
        };
        write!(out, "node: {}:", Text(&it.name));
        match it.num_entries {
            Some(count) => write!(out, "{count}"),
            None => write!(out, "-"),
        }
        writeln!(out, ":{}:{}", it.children.len(), ShortId(it.id));
        push_children(out, &mut left, it);
    }
}

/// Pushes the children of a node onto the stack `left`, the last child first.
fn push_children<'a>(out: &mut Lines, left: &mut Vec<&'a Tree>, it: &'a Tree) {
    for child in it.children.iter().rev() {
        out.note(left.push(child));
    }
}

/// `verify-tree-ids`: appends the first node of a cache tree that doesn't match the entries.
pub fn verify(out: &mut Lines, kind: Kind, words: &mut Words<'_>) -> Result<(), Fault> {
    let mut state = words.entries(kind)?;
    if words.has("tree") {
        state.set_tree(tree_of(kind, words)?);
    }
    if state.verify_entries().is_err() {
        return Err(Fault::Wrong("a state in strict order"));
    }
    match state.verify_tree_ids(out.alloc()) {
        Ok(()) => out.put("verify", "right"),
        Err(e) => told(out, &e),
    }
    Ok(())
}

fn told(out: &mut Lines, fault: &tree_ids::Error) {
    match fault {
        tree_ids::Error::Other {
            path,
            id,
            count,
            given_id,
            given_count,
        } => {
            let path = Text(path);
            writeln!(
                out,
                "fault: {path} has {id} {count}, not {given_id} {given_count}"
            );
        }
        tree_ids::Error::Ungiven { path, id, count } => {
            writeln!(out, "fault: {} has {id} {count}, not nothing", Text(path));
        }
        tree_ids::Error::Entries(fault) => refused(out, fault),
        tree_ids::Error::Memory => out.put("fault", "memory"),
    }
}

fn refused(out: &mut Lines, fault: &Error) {
    match fault {
        Error::TooManyEntries => out.put("fault", "too many entries"),
        Error::Unmerged { path } => writeln!(out, "fault: {} isn't merged", Text(path)),
        Error::Mode { path, mode } => {
            writeln!(out, "fault: {} of mode {:o}", Text(path), mode.bits());
        }
        Error::Path { path, fault } => misnamed(out, path, *fault),
        Error::OtherKind { path } => writeln!(out, "fault: {} of another kind", Text(path)),
        Error::NullId { path } => writeln!(out, "fault: {} of no object", Text(path)),
        Error::Both { file, below } => {
            writeln!(out, "fault: {} in {}", Text(below), Text(file));
        }
        Error::Sink { fault } => writeln!(out, "fault: sink {fault}"),
        Error::Memory => out.put("fault", "memory"),
    }
}

fn misnamed(out: &mut Lines, path: &[u8], fault: NameFault) {
    let path = Text(path);
    match fault {
        NameFault::Empty => writeln!(out, "fault: {path} with an empty name"),
        NameFault::Nul => writeln!(out, "fault: {path} with a nul"),
        NameFault::Refused(number) => writeln!(out, "fault: {path} refused by {number}"),
        NameFault::NoSlash => writeln!(out, "fault: {path} without its slash"),
        NameFault::TooDeep => writeln!(out, "fault: {path} too deep"),
    }
}
