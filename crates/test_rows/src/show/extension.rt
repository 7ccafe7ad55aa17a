//! Formats the values of extensions. For a missing extension, a line has the value `none`.

use gix_index::ewah;
use gix_index::extension::fs_monitor::Token;
use gix_index::extension::index_entry_offset_table::Offset;
use gix_index::extension::link::Link;
use gix_index::extension::resolve_undo::{ResolvePath, Stage};
use gix_index::extension::{FsMonitor, Tree};
use std::fmt::{self, Display};
use test_row_kit::Lines;
use test_row_kit::show::{Listed, ShortId, Text, yes};

/// The largest number of nodes, directories or positions that is printed.
pub const MOST: usize = 100;

/// Appends the number of nodes of a cache tree extension (TREE), and the first [`MOST`] nodes, each before its
/// children.
pub fn tree(out: &mut Lines, tree: Option<&Tree>) {
    let Some(tree) = tree else {
        return out.put("tree", "none");
    };
    let nodes = nodes_of(out, tree);
    writeln!(out, "tree: {} nodes", nodes.len());
    for (place, it) in nodes.iter().take(MOST).enumerate() {
        node(out, place, it);
    }
}

/// Returns the nodes of a tree, each before its children.
fn nodes_of<'a>(out: &mut Lines, tree: &'a Tree) -> Vec<&'a Tree> {
    let mut left = Vec::new(out.alloc());
    let mut nodes = Vec::new(out.alloc());
    out.note(left.push(tree));
    for _ in 0..u64::MAX {
        let Some(it) = left.pop() else {
            break;
        };
        out.note(nodes.push(it));
        push_children(out, &mut left, it);
    }
    nodes
}

/// Pushes the children of a node onto the stack `left`, the last child first.
fn push_children<'a>(out: &mut Lines, left: &mut Vec<&'a Tree>, it: &'a Tree) {
    for child in it.children.iter().rev() {
        out.note(left.push(child));
    }
}

fn node(out: &mut Lines, place: usize, it: &Tree) {
    let count = match &it.num_entries {
        Some(count) => Dashed(Some(count)),
        None => Dashed(None),
    };
    let (name, children) = (Text(&it.name), it.children.len());
    writeln!(
        out,
        "node {place}: {name}:{count}:{children}:{}",
        ShortId(it.id)
    );
}

/// Displays a value, or `-`.
#[derive(Clone, Copy)]
struct Dashed<T>(Option<T>);

impl<T: Display> Display for Dashed<T> {
    fn fmt<W: fmt::Write>(&self, f: &mut fmt::Formatter<W>) -> fmt::Result {
        match &self.0 {
            Some(value) => write!(f, "{value}"),
            None => write!(f, "-"),
        }
    }
}

/// Appends the paths of a resolve-undo extension, each with the stages that it had.
pub fn resolve_undo(out: &mut Lines, paths: Option<&[ResolvePath]>) {
    let Some(paths) = paths else {
        return out.put("resolve_undo", "none");
    };
    writeln!(out, "resolve_undo: {} paths", paths.len());
    for (place, path) in paths.iter().enumerate() {
        undo(out, place, path);
    }
}

fn undo(out: &mut Lines, place: usize, path: &ResolvePath) {
    write!(out, "undo {place}: {}", Text(path.name()));
    for stage in path.stages() {
        write!(out, ":{}", Dashed(stage.as_ref().map(Undone)));
    }
    writeln!(out);
}

/// Displays the mode and the id of a stage.
#[derive(Clone, Copy)]
struct Undone<'a>(&'a Stage);

impl Display for Undone<'_> {
    fn fmt<W: fmt::Write>(&self, f: &mut fmt::Formatter<W>) -> fmt::Result {
        write!(f, "{:o},{}", self.0.mode(), ShortId(self.0.id()))
    }
}

/// Appends the token of a file system monitor, and the indices of the dirty entries.
pub fn monitor(out: &mut Lines, monitor: Option<&FsMonitor>) {
    let Some(monitor) = monitor else {
        return out.put("fs_monitor", "none");
    };
    match monitor.token() {
        Token::V1 { nanos_since_1970 } => writeln!(out, "fs_monitor: v1 {nanos_since_1970}"),
        Token::V2 { token } => writeln!(out, "fs_monitor: v2 {}", Text(token)),
    }
    bitmap(out, "fs_monitor entry_dirty ", monitor.entry_dirty());
}

/// Appends the blocks of an offset table.
pub fn offsets(out: &mut Lines, blocks: Option<&[Offset]>) {
    let Some(blocks) = blocks else {
        return out.put("offsets", "none");
    };
    write!(out, "offsets: [");
    for (index, it) in blocks.iter().enumerate() {
        if index > 0 {
            write!(out, ";");
        }
        write!(out, "{}:{}", it.from_beginning_of_file, it.num_entries);
    }
    writeln!(out, "]");
}

/// Appends the checksum of the shared index of a link, and which entries of that index are deleted and replaced.
pub fn link(out: &mut Lines, link: Option<&Link>) {
    let Some(link) = link else {
        return out.put("link", "none");
    };
    out.put("link", link.shared_index_checksum);
    out.put("link bitmaps", yes(link.bitmaps.is_some()));
    if let Some(bitmaps) = &link.bitmaps {
        bitmap(out, "link delete ", &bitmaps.delete);
        bitmap(out, "link replace ", &bitmaps.replace);
    }
}

/// Appends the number of bits of a bitmap, and its first [`MOST`] positions. The names of the lines begin with `label`.
pub fn bitmap(out: &mut Lines, label: &str, bitmap: &ewah::Vec) {
    writeln!(out, "{label}num_bits: {}", bitmap.num_bits());
    let mut places = Vec::new(out.alloc());
    for place in bitmap.positions().take(MOST) {
        out.note(places.push(Position(place.ok())));
    }
    writeln!(out, "{label}positions: {}", Listed(&places));
}

/// Displays a position of a bitmap, or `malformed`.
#[derive(Clone, Copy)]
struct Position(Option<u64>);

impl Display for Position {
    fn fmt<W: fmt::Write>(&self, f: &mut fmt::Formatter<W>) -> fmt::Result {
        match self.0 {
            Some(place) => write!(f, "{place}"),
            None => write!(f, "malformed"),
        }
    }
}
