//! Lines of a tree: one for each directory.

ghost use Rattle.std.specs.Prelude.{◌≡◌, ◌++◌, [], OnOk};
ghost use Rattle.std.specs.List.{flat_map};
ghost use Rattle.base_text.specs.Blocks.{PutsText};
ghost use Rattle.ext_tree.specs.Tree.{node_of};
ghost use Rattle.ext_tree.specs.TreeImage.{count_bytes};
ghost use Rattle.view_list.specs.Directories.{name_prefix, subtree_lines, tree_line};
ghost use Rattle.view_list.specs.DirectorySteps.{PutsLines};

use base_text::append::{Appended, append_hex};
use base_text::block::{put_block, put_text};
use base_text::lines::Lines;
use ext_tree::Tree;
use index_parts::hash::io::Out;
use itoa::Buffer;
use std::alloc::Global;
use std::io;

/// Appends the number of entries, or -1 if it isn't known.
fn append_count(lines: &mut Vec<u8>, count: Option<u32>) -> Appended
    ensures { OnOk result (lines.new.items ≡ lines.old.items ++ count_bytes count) }
{
    let mut buffer = Buffer::new();
    match count {
        Some(n) => lines.extend_from_slice(buffer.format(n).as_bytes()),
        None => lines.extend_from_slice(b"-1"),
    }
}

/// Appends the line of one directory, without those below it.
fn append_line(lines: &mut Vec<u8>, style: Lines, path: &[u8], tree: &Tree) -> Appended
    ensures { OnOk result (lines.new.items ≡ lines.old.items ++ tree_line style path.now tree.now) }
{
    append_hex(lines, &tree.id)?;
    lines.extend_from_slice(b" ")?;
    append_count(lines, tree.num_entries)?;
    lines.extend_from_slice(b"\t")?;
    style.append_path(lines, path)?;
    lines.extend_from_slice(&[style.end()])
}

/// Changes the path of a directory to the prefix of the names in it.
fn go_in(path: &mut Vec<u8>) -> Appended
    ensures { OnOk result (path.new.items ≡ name_prefix path.old.items) }
{
    if !path.is_empty() {
        path.push(b'/')?;
    }
    Ok(())
}

/// Appends the lines of a directory and of all below it, and writes them when they fill a block. The path of the
/// directory is `front` with its name appended. Afterwards `front` is as it was.
#[cycle(directories)]
fn append_directory<W: Out>(
    lines: &mut Vec<u8>,
    style: Lines,
    front: &mut Vec<u8>,
    tree: &Tree,
    out: &mut W,
) -> io::Result<()>
    ensures { PutsLines W.Out out.old out.new result lines.old.items lines.new.items
        (subtree_lines style front.old.items (node_of tree.now)) front.old.items
        front.new.items }
{
    let len = front.len();
    front.extend_from_slice(tree.name.as_slice())?;
    append_line(lines, style, front, tree)?;
    put_block(lines, out)?;
    go_in(front)?;
    append_directories(lines, style, front, &tree.children, out)?;
    front.truncate(len);
    Ok(())
}

/// Appends the lines of the directories in one directory, and writes them when they fill a block.
#[cycle(directories)]
fn append_directories<W: Out>(
    lines: &mut Vec<u8>,
    style: Lines,
    front: &mut Vec<u8>,
    trees: &[Tree],
    out: &mut W,
) -> io::Result<()>
    ensures { PutsLines W.Out out.old out.new result lines.old.items lines.new.items
        (flat_map (λ t. subtree_lines style front.old.items (node_of t)) trees.now)
        front.old.items front.new.items }
{
    for tree in trees {
        append_directory(lines, style, front, tree, out)?;
    }
    Ok(())
}

/// Writes a line for each directory of a tree, in preorder: the id, a space, the number of entries below it, a tab, and
/// the path. The number is -1 if one of the entries is intent-to-add. The path of the root is empty.
///
/// Lines are collected in one buffer, which is written when it has more than 64 KiB.
///
/// # Errors
///
/// [`ErrorKind::OutOfMemory`]: the buffer or a path can't be allocated. Any other error is that of the output, which
/// has failed then. What was written is a prefix of the lines.
pub fn write_trees<W: Out>(alloc: Global, tree: &Tree, style: Lines, out: &mut W) -> io::Result<()>
    ensures { PutsText W.Out out.old out.new result (subtree_lines style [] (node_of tree.now)) }
{
    let mut lines = Vec::new(alloc);
    let mut front = Vec::new(alloc);
    append_directory(&mut lines, style, &mut front, tree, out)?;
    put_text(lines.as_slice(), out)
}
