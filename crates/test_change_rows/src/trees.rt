//! Rows about cache tree extensions (TREE) that are verified, with or without objects, and about indexes of tree
//! objects.

use crate::objects::{check_of, store_of};
use gix_index::entry::FileTime;
use gix_index::extension::Tree;
use gix_index::extension::tree::verify::Error;
use gix_index::hash::Kind;
use gix_index::init::from_tree::{self, Traversal};
use gix_index::object::NoObjects;
use gix_index::{SmallVec, State};
use std::alloc::Global;
use test_row_kit::show::{Bytes, Text, entries};
use test_row_kit::words::{id_of, items_of, number_of, text_of};
use test_row_kit::{Fault, Lines, Words, refusal};

/// `verify-tree`: appends the first error in a cache tree.
pub fn tree(out: &mut Lines, kind: Kind, words: &mut Words<'_>) -> Result<(), Fault> {
    let tree = tree_of(kind, words)?;
    let alloc = out.alloc();
    if words.has("objects") {
        show(out, tree.verify(alloc, true, &store_of(words)?));
    } else {
        show(out, tree.verify(alloc, false, &NoObjects));
    }
    Ok(())
}

/// Takes the nodes of a cache tree in preorder and returns the tree.
pub fn tree_of(kind: Kind, words: &mut Words<'_>) -> Result<Tree, Fault> {
    let alloc = words.alloc();
    let mut trees = Vec::new(alloc);
    for node in items_of(alloc, words.list()?)?.iter().rev() {
        push_node(alloc, &mut trees, kind, node)?;
    }
    let (Some(tree), true) = (trees.pop(), trees.is_empty()) else {
        return Err(Fault::Wrong("one tree"));
    };
    Ok(tree)
}

/// `from-tree`: appends the entries of an index that is made of a tree object, or the first error.
pub fn leaves(out: &mut Lines, kind: Kind, words: &mut Words<'_>) -> Result<(), Fault> {
    let alloc = out.alloc();
    let root = id_of(alloc, kind, words.next("an id")?)?;
    let (most, store) = (words.number()?, store_of(words)?);
    let check = check_of(words)?;
    match State::from_tree(alloc, &root, &store, &check, most, FileTime::EPOCH) {
        Ok(state) => {
            entries(out, &state);
            out.put("storage", Bytes(state.path_backing()));
        }
        Err(e) => leaves_fault(out, &e),
    }
    Ok(())
}

/// Adds a node to `trees`, which are in reverse order. The last trees of this list become its children.
fn push_node(alloc: Global, trees: &mut Vec<Tree>, kind: Kind, node: &str) -> Result<(), Fault> {
    let mut fields = node.split(':');
    let name = text_of(alloc, fields.next().unwrap_or(""))?;
    let name = SmallVec::from_slice(alloc, &name)?;
    let num_entries = count_of(fields.next().unwrap_or(""))?;
    let children: usize = number_of(fields.next().unwrap_or(""))?;
    let id = id_of(alloc, kind, fields.next().unwrap_or("11"))?;
    if children > trees.len() {
        return Err(Fault::Wrong("a node before its children"));
    }
    let mut children = trees.split_off(trees.len() - children)?;
    children.reverse();
    trees.push(Tree {
        name,
        id,
        num_entries,
        children,
    })?;
    Ok(())
}

/// Parses the number of entries below a node. `-` is `None`.
fn count_of(word: &str) -> Result<Option<u32>, Fault> {
    match word {
        "-" => Ok(None),
        _ => Ok(Some(number_of(word)?)),
    }
}

/// `verify-extensions`: appends the first error in the cache tree of an index.
pub fn extensions(out: &mut Lines, kind: Kind, words: &mut Words<'_>) -> Result<(), Fault> {
    match words.state(kind)? {
        Ok(state) if words.has("objects") => {
            let store = store_of(words)?;
            show(out, state.verify_extensions(out.alloc(), true, &store));
        }
        Ok(state) => show(out, state.verify_extensions(out.alloc(), false, &NoObjects)),
        Err(e) => refusal::decode(out, &e),
    }
    Ok(())
}

fn show(out: &mut Lines, found: Result<(), Error>) {
    match found {
        Ok(()) => out.put("verify", "sound"),
        Err(e) => fault(out, &e),
    }
}

fn fault(out: &mut Lines, fault: &Error) {
    match fault {
        Error::RootWithName { name } => writeln!(out, "fault: a root named {}", Text(name)),
        Error::EntriesCount { actual, expected } => {
            writeln!(out, "fault: {actual} within {expected}");
        }
        Error::EntriesCountOverflow => out.put("fault", "too many"),
        Error::OutOfOrder {
            parent_id,
            current_path,
            previous_path,
        } => {
            let (current, previous) = (Text(current_path), Text(previous_path));
            writeln!(out, "fault: {current} behind {previous} in {parent_id}");
        }
        Error::EntriesCountExceedsIndex {
            name,
            actual,
            expected,
        } => writeln!(out, "fault: {} counts {actual} of {expected}", Text(name)),
        Error::TreeNodeNotFound { id } => writeln!(out, "fault: no tree {id}"),
        Error::MissingTreeDirectory {
            parent_id,
            entry_id,
            name,
        } => writeln!(
            out,
            "fault: no child {} ({entry_id}) in {parent_id}",
            Text(name)
        ),
        Error::TreeNodeChildcountMismatch {
            oid,
            expected_childcount: listed,
            actual_childcount: there,
        } => writeln!(
            out,
            "fault: {listed} directories in {oid}, {there} children"
        ),
        Error::Memory => out.put("fault", "memory"),
    }
}

fn leaves_fault(out: &mut Lines, fault: &from_tree::Error) {
    match fault {
        from_tree::Error::InvalidComponent { path, source } => {
            writeln!(out, "fault: {} refused by {source}", Text(path));
        }
        from_tree::Error::Traversal(fault) => traversal_fault(out, fault),
        from_tree::Error::Memory => out.put("fault", "memory"),
    }
}

fn traversal_fault(out: &mut Lines, fault: &Traversal) {
    match fault {
        Traversal::NotFound { id } => writeln!(out, "fault: no object {id}"),
        Traversal::NotATree { id } => writeln!(out, "fault: no tree {id}"),
        Traversal::Find { id, fault } => writeln!(out, "fault: {fault} of the store at {id}"),
        Traversal::Malformed { id } => writeln!(out, "fault: malformed {id}"),
        Traversal::TooManyObjects => out.put("fault", "too many objects"),
    }
}
