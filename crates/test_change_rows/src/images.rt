//! Rows about writing.

use crate::objects::check_of;
use crate::trees::tree_of;
use gix_index::decode::entry::Pathless;
use gix_index::entry::{FileTime, Flags, Mode, Stat};
use gix_index::extension::tree::write::Error;
use gix_index::extension::{Tree, end_of_index_entry, sparse};
use gix_index::hash::Kind;
use gix_index::hash::io::Plain;
use gix_index::write::{Extensions, Options, VersionChoice};
use gix_index::{BitFlags as _, File, State, decode};
use std::alloc::Global;
use std::path::PathBuf;
use test_row_kit::show::{Bytes, OrNone, version_of};
use test_row_kit::words::id_of;
use test_row_kit::{Fault, Lines, Words, refusal};

/// `image`, and `image4` in version 4: appends the file that is written for a state. Before that, the state is written
/// and read again as often as the row requires.
pub fn image(
    out: &mut Lines,
    version: VersionChoice,
    kind: Kind,
    words: &mut Words<'_>,
) -> Result<(), Fault> {
    let mut state = match words.state(kind)? {
        Ok(state) => state,
        Err(e) => {
            refusal::decode(out, &e);
            return Ok(());
        }
    };
    let options = Options {
        version,
        extensions: choice_of(words.next("a choice of extensions")?)?,
        skip_hash: has_null_trailer(words.next("a trailer")?)?,
    };
    let times = words.number::<u32>()?;
    if words.has("removed") {
        mark_removed(&mut state);
    }
    if words.has("tree") {
        set_tree(&mut state, tree_of(kind, words)?)?;
    }
    if words.has("staged") {
        stage_removed(&mut state, kind, words)?;
    }
    for _ in 0..times {
        state = rewritten(out.alloc(), kind, state, options)?;
    }
    let file = File::from_state(state, PathBuf::new(out.alloc()));
    show(out, &file, options)
}

/// Marks each entry with `REMOVE`, so that a file leaves it out.
fn mark_removed(state: &mut State) {
    for entry in state.entries_mut() {
        entry.flags = entry.flags.union(Flags::REMOVE);
    }
}

/// Replaces the state's cache tree extension (TREE). The error is that the state has none.
fn set_tree(state: &mut State, made: Tree) -> Result<(), Fault> {
    let Some(tree) = state.tree_mut() else {
        return Err(Fault::Wrong("a state with a cached tree"));
    };
    *tree = made;
    Ok(())
}

/// Stages an entry that a file leaves out: a plain file with the id of bytes 11.
fn stage_removed(state: &mut State, kind: Kind, words: &mut Words<'_>) -> Result<(), Fault> {
    let path = words.text()?;
    let entry = Pathless {
        stat: Stat::default(),
        id: id_of(words.alloc(), kind, "11")?,
        flags: Flags::REMOVE,
        mode: Mode::FILE,
    };
    match state.stage(&check_of(words)?, entry, &path) {
        Ok(_) => Ok(()),
        Err(_) => Err(Fault::Wrong("a path at which an entry can be staged")),
    }
}

fn has_null_trailer(word: &str) -> Result<bool, Fault> {
    match word {
        "digest" => Ok(false),
        "null" => Ok(true),
        _ => Err(Fault::Wrong("digest or null")),
    }
}

fn choice_of(word: &str) -> Result<Extensions, Fault> {
    let (tree_cache, end_of_index_entry) = match word {
        "all" => return Ok(Extensions::All),
        "kept" => return Ok(Extensions::Kept),
        "none" => return Ok(Extensions::None),
        "neither" => (false, false),
        "tree" => (true, false),
        "marker" => (false, true),
        "both" => (true, true),
        _ => return Err(Fault::Wrong("a choice of extensions")),
    };
    Ok(Extensions::Given {
        tree_cache,
        end_of_index_entry,
    })
}

/// Writes the state to memory and returns the state that is read back.
fn rewritten(alloc: Global, kind: Kind, state: State, options: Options) -> Result<State, Fault> {
    let file = File::from_state(state, PathBuf::new(alloc));
    let mut image = Plain::new(Vec::new(alloc));
    if file.write_to(&mut image, options).is_err() {
        return Err(Fault::Wrong("a state that can be written"));
    }
    let options = decode::Options::default();
    match State::from_bytes(alloc, &image.inner, FileTime::EPOCH, kind, options) {
        Ok((state, _)) => Ok(state),
        Err(_) => Err(Fault::Wrong("a state that can be read again")),
    }
}

/// Appends the result of writing the file: version, checksum, length and bytes.
fn show(out: &mut Lines, file: &File, options: Options) -> Result<(), Fault> {
    let mut image = Plain::new(Vec::new(out.alloc()));
    match file.write_to(&mut image, options) {
        Ok((version, id)) => {
            out.put("version", version_of(version));
            out.put("checksum", id);
        }
        Err(e) => refusal::write(out, &e),
    }
    out.put("len", image.inner.len());
    out.put("bytes", Bytes(&image.inner));
    Ok(())
}

/// `end-marker`: appends the end marker for entries that end at this offset, with no extension before the marker.
pub fn end_marker(out: &mut Lines, kind: Kind, words: &mut Words<'_>) -> Result<(), Fault> {
    let mut image = Plain::new(Vec::new(out.alloc()));
    end_of_index_entry::write_to(&mut image, kind, words.number()?, &[])?;
    out.put("write_to", Bytes(&image.inner));
    Ok(())
}

/// `sparse-mark`: appends the extension that marks an index with sparse directories.
pub fn sparse_mark(out: &mut Lines) -> Result<(), Fault> {
    let mut image = Plain::new(Vec::new(out.alloc()));
    sparse::write_to(&mut image)?;
    out.put("write_to", Bytes(&image.inner));
    Ok(())
}

/// `write-tree`: appends the bytes of a cache tree extension (TREE), and the length of its content.
pub fn tree(out: &mut Lines, kind: Kind, words: &mut Words<'_>) -> Result<(), Fault> {
    let tree = tree_of(kind, words)?;
    let mut image = Plain::new(Vec::new(out.alloc()));
    out.put("content_len", OrNone(tree.content_len()));
    match tree.write_to(&mut image) {
        Ok(()) => out.put("write_to", Bytes(&image.inner)),
        Err(Error::TooLarge) => out.put("fault", "too large"),
        Err(Error::Io(_)) => out.put("fault", "writer"),
    }
    Ok(())
}
