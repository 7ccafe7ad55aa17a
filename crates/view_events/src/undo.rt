//! The events of resolved conflicts.

ghost use Rattle.std.specs.Prelude.{map};
ghost use Rattle.std.specs.Option.{option_map};
ghost use Rattle.ext_small.specs.ResolveUndo.{path_stages};
ghost use Rattle.view_events.specs.Event.{Sends, AddsEvents};
ghost use Rattle.view_events.specs.Undo.{path_events, undo_events};

use crate::event::Datum::{Absent, Side};
use crate::event::Event::{BeginArray, BeginObject, Bytes, EndArray, EndObject, Value};
use crate::event::Where::{Element, Member};
use crate::event::{Item, Key};
use crate::printer::{Printer, Text};
use base_text::append::Appended;
use base_text::block::put_block;
use ext_small::resolve_undo::{Paths, ResolvePath};
use index_parts::hash::io::Out;
use std::io;

/// Appends a path and its three sides.
#[tactic(auto, unfolding(crate::specs::Undo::path_events))]
fn append_path<P: Printer>(text: &mut Text, place: usize, path: &ResolvePath) -> Appended
    ensures { AddsEvents P.spell result text.old text.new (path_events place (path_stages path.now)) }
{
    let sides = path.stages();
    let at = Element(Item::ResolvedPath, 1, place);
    let stages = Member(Key::Stages, 2, 1);
    text.put_all::<P>(&[
        BeginObject(at),
        Bytes(Member(Key::ResolvedPath, 2, 0), path.name()),
        BeginArray(stages, 3),
        Value(Element(Item::Base, 3, 0), Side(sides[0])),
        Value(Element(Item::Ours, 3, 1), Side(sides[1])),
        Value(Element(Item::Theirs, 3, 2), Side(sides[2])),
        EndArray(stages),
        EndObject(at),
    ])
}

/// Appends the paths that were in conflict. Text that fills a block is written.
pub fn write_undo<P: Printer, W: Out>(
    text: &mut Text,
    paths: Option<&Paths>,
    out: &mut W,
) -> io::Result<()>
    ensures { Sends P.spell W.Out out.old out.new result text.old text.new
        (undo_events (option_map (λ p. map path_stages p.now.items) paths.entry)) }
{
    let at = Member(Key::ResolveUndo, 0, 6);
    let Some(paths) = paths else {
        return Ok(P::put(text, Value(at, Absent))?);
    };
    P::put(text, BeginArray(at, paths.len()))?;
    for (place, path) in paths.iter().enumerate() {
        append_path::<P>(text, place, path)?;
        put_block(&mut text.bytes, out)?;
    }
    Ok(P::put(text, EndArray(at))?)
}
