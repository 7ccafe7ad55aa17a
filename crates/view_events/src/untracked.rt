//! The events of an untracked cache.

ghost use Rattle.std.specs.Prelude.{map};
ghost use Rattle.std.specs.Option.{option_map};
ghost use Rattle.bstr.specs.Owned.{bstring_bytes};
ghost use Rattle.ext_untracked.specs.Blocks.{directory_value};
ghost use Rattle.ext_untracked.specs.Untracked.{cache_of};
ghost use Rattle.view_events.specs.Event.{Sends, AddsEvents, listed};
ghost use Rattle.view_events.specs.Untracked.{cache_begin, cached_events, name_events, subdirectory_events, untracked_events};

use crate::event::Datum::{Absent, Number};
use crate::event::Event::{
    BeginArray, BeginCollection, BeginObject, Bytes, DirectoryFacts, EndArray, EndObject,
    ExcludeFile, Value,
};
use crate::event::Where::{Element, Member};
use crate::event::{Item, Key};
use crate::printer::{Printer, Text};
use base_text::append::Appended;
use base_text::block::put_block;
use bstr::BString;
use ext_untracked::{Directory, UntrackedCache};
use index_parts::hash::io::Out;
use std::io;

/// Appends names of untracked files.
#[tactic(auto, unfolding(crate::specs::Untracked::name_events))]
fn append_names<P: Printer>(text: &mut Text, names: &[BString]) -> Appended
    ensures { AddsEvents P.spell result text.old text.new
        (listed name_events (map bstring_bytes names.now)) }
{
    for (place, name) in names.iter().enumerate() {
        let at = Element(Item::UntrackedEntry, 4, place);
        P::put(text, BeginObject(at))?;
        P::put(
            text,
            Bytes(Member(Key::UntrackedName, 5, 0), name.as_bytes()),
        )?;
        P::put(text, EndObject(at))?;
    }
    Ok(())
}

/// Appends indices of directories.
fn append_places<P: Printer>(text: &mut Text, places: &[usize]) -> Appended
    ensures { AddsEvents P.spell result text.old text.new (listed subdirectory_events places.now) }
{
    for (index, place) in places.iter().enumerate() {
        let place = Number(*place as u64);
        P::put(text, Value(Element(Item::SubDirectory, 4, index), place))?;
    }
    Ok(())
}

/// Appends a directory: the facts about it, its untracked files, and the indices of its directories.
fn append_directory<P: Printer>(text: &mut Text, place: usize, directory: &Directory) -> Appended
    ensures { AddsEvents P.spell result text.old text.new
        (cached_events place (directory_value directory.now)) }
{
    let at = Element(Item::Directory, 2, place);
    let (names, places) = (directory.untracked_entries(), directory.sub_directories());
    let untracked = Member(Key::UntrackedEntries, 3, 4);
    let subs = Member(Key::SubDirectories, 3, 5);
    P::put(text, BeginObject(at))?;
    P::put(text, DirectoryFacts(directory))?;
    P::put(text, BeginArray(untracked, names.len()))?;
    append_names::<P>(text, names)?;
    P::put(text, EndArray(untracked))?;
    P::put(text, BeginArray(subs, places.len()))?;
    append_places::<P>(text, places)?;
    P::put(text, EndArray(subs))?;
    P::put(text, EndObject(at))
}

/// Appends the number of directories, and the fields of the cache itself.
#[tactic(auto, unfolding(crate::specs::Untracked::cache_begin))]
fn append_begin<P: Printer>(text: &mut Text, cache: &UntrackedCache) -> Appended
    ensures { AddsEvents P.spell result text.old text.new (cache_begin (cache_of cache.now)) }
{
    let count = cache.directories().len();
    let flags = Number(u64::from(cache.dir_flags()));
    text.put_all::<P>(&[
        BeginCollection(Member(Key::Untracked, 0, 7), count),
        Bytes(Member(Key::Identifier, 1, 0), cache.identifier()),
        Value(Member(Key::DirFlags, 1, 1), flags),
        Bytes(
            Member(Key::ExcludeFilenamePerDir, 1, 2),
            cache.exclude_filename_per_dir(),
        ),
        ExcludeFile(Member(Key::InfoExclude, 1, 3), cache.info_exclude()),
        ExcludeFile(Member(Key::ExcludesFile, 1, 4), cache.excludes_file()),
        BeginArray(Member(Key::Directories, 1, 5), count),
    ])
}

/// Appends the untracked cache. Text that fills a block is written.
pub fn write_untracked<P: Printer, W: Out>(
    text: &mut Text,
    cache: Option<&UntrackedCache>,
    out: &mut W,
) -> io::Result<()>
    ensures { Sends P.spell W.Out out.old out.new result text.old text.new
        (untracked_events (option_map (λ c. cache_of c.now) cache.entry)) }
{
    let at = Member(Key::Untracked, 0, 7);
    let Some(cache) = cache else {
        return Ok(P::put(text, Value(at, Absent))?);
    };
    append_begin::<P>(text, cache)?;
    for (place, directory) in cache.directories().iter().enumerate() {
        append_directory::<P>(text, place, directory)?;
        put_block(&mut text.bytes, out)?;
    }
    Ok(text.put_all::<P>(&[EndArray(Member(Key::Directories, 1, 5)), EndObject(at)])?)
}
