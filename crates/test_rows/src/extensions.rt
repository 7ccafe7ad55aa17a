//! Rows about the content of one extension.

use crate::ranges::ranges;
use crate::show::{extension, untracked};
use gix_index::ewah;
use gix_index::extension::{
    Iter, Signature, end_of_index_entry, fs_monitor, index_entry_offset_table, link, resolve_undo,
    tree, untracked_cache,
};
use gix_index::hash::Kind;
use std::alloc::Global;
use test_row_kit::show::{Bytes, OrNone, Text};
use test_row_kit::{Fault, Lines, Words, refusal};

/// The calls that read extensions.
#[derive(Clone, Copy)]
pub enum Call {
    /// `tree`: a cache tree extension (`TREE`).
    Tree,
    /// `resolve-undo`: a resolve-undo extension (`REUC`).
    ResolveUndo,
    /// `untracked`: an untracked cache extension (`UNTR`).
    Untracked,
    /// `monitor`: a file system monitor extension (`FSMN`).
    Monitor,
    /// `offsets`: an offset table (`IEOT`).
    Offsets,
    /// `first-offsets`: the first offset table among extensions that a trailer follows.
    FirstOffsets,
    /// `marker`: the offset at which the entries of a complete file end, according to its end marker (`EOIE`).
    Marker,
    /// `link`: a link to a shared index (`link`).
    Link,
    /// `bitmap`: a bitmap.
    Bitmap,
    /// `walk`: the extensions one by one.
    Walk,
    /// `walk-file`: the extensions before a trailer, one by one.
    WalkFile,
}

impl Call {
    /// Returns the call of this name.
    pub fn named(word: &str) -> Option<Call> {
        match word {
            "tree" => Some(Call::Tree),
            "resolve-undo" => Some(Call::ResolveUndo),
            "untracked" => Some(Call::Untracked),
            "monitor" => Some(Call::Monitor),
            "offsets" => Some(Call::Offsets),
            "first-offsets" => Some(Call::FirstOffsets),
            "marker" => Some(Call::Marker),
            "link" => Some(Call::Link),
            "bitmap" => Some(Call::Bitmap),
            "walk" => Some(Call::Walk),
            "walk-file" => Some(Call::WalkFile),
            _ => None,
        }
    }

    /// Appends the lines of the call's answer. `words` are the arguments after the call.
    pub fn answer(self, words: &mut Words<'_>, out: &mut Lines) -> Result<(), Fault> {
        match self {
            Call::Monitor | Call::Offsets | Call::Walk | Call::Bitmap => {
                self.answer_bytes(&words.bytes()?, out)
            }
            _ => {
                let kind = words.kind()?;
                let bytes = words.bytes()?;
                let limit = words.number_named("limit")?;
                self.answer_kind(kind, &bytes, limit, out)
            }
        }
    }

    /// Appends the lines of the call's answer to these bytes, without a memory limit. A call that takes no hash
    /// algorithm ignores `kind`.
    pub fn answer_content(self, kind: Kind, bytes: &[u8], out: &mut Lines) -> Result<(), Fault> {
        match self {
            Call::Monitor | Call::Offsets | Call::Walk | Call::Bitmap => {
                self.answer_bytes(bytes, out)
            }
            _ => self.answer_kind(kind, bytes, None, out),
        }
    }

    /// Appends the lines of a call that takes only bytes.
    fn answer_bytes(self, bytes: &[u8], out: &mut Lines) -> Result<(), Fault> {
        match self {
            Call::Monitor => monitor(out, bytes)?,
            Call::Offsets => {
                let blocks = index_entry_offset_table::decode(out.alloc(), bytes)?;
                extension::offsets(out, blocks.as_deref());
            }
            Call::Walk => walk(out, Iter::new(bytes)),
            _ => bitmap(out, bytes),
        }
        Ok(())
    }

    /// Appends the lines of a call that takes a hash algorithm before the bytes.
    fn answer_kind(
        self,
        kind: Kind,
        bytes: &[u8],
        limit: Option<usize>,
        out: &mut Lines,
    ) -> Result<(), Fault> {
        let alloc = out.alloc();
        match self {
            Call::Tree => {
                let tree = tree::decode(alloc, bytes, kind, limit)?;
                extension::tree(out, tree.as_ref());
            }
            Call::ResolveUndo => {
                let paths = resolve_undo::decode(alloc, bytes, kind)?;
                extension::resolve_undo(out, paths.as_deref());
            }
            Call::Untracked => {
                let cache = untracked_cache::decode(alloc, bytes, kind, limit)?;
                untracked::untracked(out, cache.as_ref());
            }
            _ => self.answer_place(kind, bytes, out)?,
        }
        Ok(())
    }

    /// Appends the lines of a call that takes a hash algorithm and no limit.
    fn answer_place(self, kind: Kind, bytes: &[u8], out: &mut Lines) -> Result<(), Fault> {
        let alloc = out.alloc();
        match self {
            Call::FirstOffsets => {
                let blocks = index_entry_offset_table::find(alloc, bytes, kind)?;
                extension::offsets(out, blocks.as_deref());
            }
            Call::Marker => out.put("marker", OrNone(end_of_index_entry::decode(bytes, kind))),
            Call::Link => match link::decode::decode(alloc, bytes, kind) {
                Ok(link) => extension::link(out, Some(&link)),
                Err(e) => refusal::link(out, &e),
            },
            _ => match Iter::new_without_checksum(bytes, kind) {
                Some(extensions) => walk(out, extensions),
                None => out.put("extensions", "none"),
            },
        }
        Ok(())
    }
}

/// The names of the lines that `content-fronts` prints.
const CONTENT_NAMES: [&str; 8] = [
    "fault",
    "tree",
    "link",
    "resolve_undo",
    "untracked",
    "fs_monitor",
    "offsets",
    "num_bits",
];

/// `content-fronts`: appends what a reader answers to each prefix of an extension's content.
pub fn prefixes(words: &mut Words<'_>, out: &mut Lines) -> Result<(), Fault> {
    let reader = words.next("a reader")?;
    let reader = Call::named(reader).ok_or(Fault::Wrong("a reader"))?;
    let kind = words.kind()?;
    let texts = texts_of(out.alloc(), reader, kind, &words.bytes()?)?;
    for name in &CONTENT_NAMES {
        ranges(out, &texts, name);
    }
    Ok(())
}

/// Returns the lines that the reader answers to each prefix, from no bytes to all of them.
fn texts_of(alloc: Global, reader: Call, kind: Kind, bytes: &[u8]) -> Result<Vec<String>, Fault> {
    let mut texts = Vec::new(alloc);
    for len in 0..=bytes.len() {
        let mut lines = Lines::new(alloc);
        reader.answer_content(kind, &bytes[..len], &mut lines)?;
        texts.push(lines.end()?)?;
    }
    Ok(texts)
}

fn monitor(out: &mut Lines, bytes: &[u8]) -> Result<(), Fault> {
    let monitor = fs_monitor::decode(out.alloc(), bytes)?;
    extension::monitor(out, monitor.as_ref());
    Ok(())
}

fn bitmap(out: &mut Lines, bytes: &[u8]) {
    match ewah::decode(out.alloc(), bytes) {
        Ok((bitmap, rest)) => {
            extension::bitmap(out, "", &bitmap);
            out.put("rest", rest.len());
        }
        Err(e) => refusal::bitmap(out, &e),
    }
}

/// Appends a line for each extension that the iterator returns, and the number of bytes that they take.
fn walk(out: &mut Lines, mut extensions: Iter<'_>) {
    let mut place = 0;
    while let Some(item) = extensions.next() {
        self::item(out, place, item);
        place = usize::saturating_add(place, 1);
    }
    out.put("consumed", extensions.consumed);
}

fn item(out: &mut Lines, place: usize, item: (Signature, &[u8])) {
    writeln!(
        out,
        "extension {place}: {} {}",
        Text(&item.0),
        Bytes(item.1)
    );
}
