//! The events of the cache tree extension (TREE).

ghost use Rattle.std.specs.Option.{option_map};
ghost use Rattle.ext_tree.specs.Tree.{node_of};
ghost use Rattle.view_events.specs.Event.{Sends, AddsEvents};
ghost use Rattle.view_events.specs.Trees.{cached_tree_events, tree_events, tree_opened};

use crate::event::Datum::{Absent, Count, Id};
use crate::event::Event::{BeginArray, BeginObject, Bytes, EndArray, EndObject, Value};
use crate::event::Where::{self, Element, Member};
use crate::event::{Item, Key};
use crate::printer::{Printer, Text};
use base_text::append::Appended;
use base_text::block::put_block;
use ext_tree::Tree;
use index_parts::hash::io::Out;
use std::io;

/// Appends a directory up to its list of directories. Its members are at depth `depth`.
#[tactic(auto, unfolding(crate::specs::Trees::opened_events))]
fn append_own<P: Printer>(text: &mut Text, at: Where, depth: u32, tree: &Tree) -> Appended
    ensures { AddsEvents P.spell result text.old text.new (tree_opened at depth tree.now) }
{
    text.put_all::<P>(&[
        BeginObject(at),
        Bytes(Member(Key::DirectoryName, depth, 0), tree.name.as_slice()),
        Value(Member(Key::DirectoryId, depth, 1), Id(Some(tree.id))),
        Value(Member(Key::NumEntries, depth, 2), Count(tree.num_entries)),
        BeginArray(Member(Key::Children, depth, 3), tree.children.len()),
    ])
}

/// Appends a directory and all below it. Text that fills a block is written.
fn write_directory<P: Printer, W: Out>(
    text: &mut Text,
    at: Where,
    depth: u32,
    tree: &Tree,
    out: &mut W,
) -> io::Result<()>
    ensures { Sends P.spell W.Out out.old out.new result text.old text.new
        (tree_events at depth (node_of tree.now)) }
{
    append_own::<P>(text, at, depth, tree)?;
    put_block(&mut text.bytes, out)?;
    for (place, child) in tree.children.iter().enumerate() {
        let child_at = Element(Item::Child, depth.saturating_add(1), place);
        write_directory::<P, W>(text, child_at, depth.saturating_add(2), child, out)?;
    }
    Ok(text.put_all::<P>(&[EndArray(Member(Key::Children, depth, 3)), EndObject(at)])?)
}

/// Appends a tree from its root on. Text that fills a block is written.
pub fn write_tree<P: Printer, W: Out>(
    text: &mut Text,
    tree: Option<&Tree>,
    out: &mut W,
) -> io::Result<()>
    ensures { Sends P.spell W.Out out.old out.new result text.old text.new
        (cached_tree_events (option_map (λ t. node_of t.now) tree.entry)) }
{
    let at = Member(Key::Tree, 0, 4);
    let Some(tree) = tree else {
        return Ok(P::put(text, Value(at, Absent))?);
    };
    write_directory::<P, W>(text, at, 1, tree, out)
}
