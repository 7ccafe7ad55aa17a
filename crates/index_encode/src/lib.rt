//! Encodes an index as the bytes of a file (gitformat-index).
#![tactic(auto)]

mod chosen;
mod layout;
mod marker;
pub mod storable;

ghost use Rattle.std.specs.Prelude.{◌≡◌, ◌↔◌, IfOk, IsTrue, OnOk};
ghost use Rattle.index_parts.specs.Taking.{Hashes};
ghost use Rattle.index_parts.specs.Puts.{Puts};
ghost use Rattle.ext_encode.specs.Chosen.{extensions_of};
ghost use Rattle.index_model.specs.Image.{image_version, body};
ghost use Rattle.index_model.specs.Contents.{parts_contents};
ghost use Rattle.index_model.specs.Storable.{CanEncode, IsWritable};
ghost use Rattle.index_model.specs.Writing.{RefusedWith, Writes};
ghost use Rattle.index_encode.specs.Layout.{IsLayout};

use entry_list::paths::paths_without_nul;
use entry_list::{Version, write};
use ext_encode::items::put_items;
use ext_encode::marker::put_marker;
use index_model::Parts;
use index_model::write::{Error, Options, VersionChoice};
use index_parts::hash::io::Out;
use layout::{Layout, layout_of};
use marker::has_marker;
use std::io;

/// Writes everything except the trailer.
fn put_body<W: Out>(
    parts: &Parts,
    layout: Layout<'_>,
    out: &mut W,
    options: Options,
) -> io::Result<()>
    requires layout { IsLayout layout.entries.version layout.entries.count
        (extensions_of layout.list) layout.lens (parts_contents parts.now) options }
    ensures { Puts W.Out out.old out.new result
        (body (parts_contents parts.now) options) }
{
    let Layout {
        entries,
        list,
        lens,
    } = layout;
    let version = entries.version;
    out.put(&write::header(version, entries.count))?;
    let end = write::put_entries(version, &parts.entries, &parts.path_backing, out)?;
    put_items(list, parts.object_hash, lens, out)?;
    if has_marker(parts, list, lens, options) {
        return put_marker(lens, list.is_sparse, parts.object_hash, end, out);
    }
    Ok(())
}

/// Returns whether a file of the chosen version can have all paths that would be written.
fn can_encode(parts: &Parts, choice: VersionChoice) -> bool
    ensures { IsTrue result ↔ CanEncode choice (parts_contents parts.now) }
{
    match choice {
        VersionChoice::Smallest => true,
        VersionChoice::V4 => paths_without_nul(&parts.entries, &parts.path_backing),
    }
}

/// Writes the index as the bytes of a file, except the trailer, and returns the version that was written. No memory is
/// allocated.
///
/// # Errors
///
/// - [`Error::TooManyEntries`], then [`Error::NulInPath`], then [`Error::TooLarge`]: returned before any byte is
///   written.
/// - [`Error::Io`]: the writer failed, after it took a prefix of the bytes.
pub fn write_to<W: Out>(parts: &Parts, out: &mut W, options: Options) -> Result<Version, Error>
    ensures version { IfOk result
        (λ version. version ≡ image_version (parts_contents parts.now) options) }
    ensures bytes { Writes W.taken W.failed out.old out.new result
        (body (parts_contents parts.now) options) }
    ensures hashed { OnOk result
        (Hashes W.hashed out.old out.new (body (parts_contents parts.now) options)) }
    ensures loan { W.loan out.new ≡ W.loan out.old }
    ensures too_many { (result ≡ Err Error.TooManyEntries)
        ↔ RefusedWith (parts_contents parts.now) options Error.TooManyEntries }
    ensures nul_in_path { (result ≡ Err Error.NulInPath)
        ↔ RefusedWith (parts_contents parts.now) options Error.NulInPath }
    ensures too_large { (result ≡ Err Error.TooLarge)
        ↔ RefusedWith (parts_contents parts.now) options Error.TooLarge }
    ensures writable { OnOk result (IsWritable (parts_contents parts.now) options) }
{
    if parts.entries.len() > u32::MAX as usize {
        return Err(Error::TooManyEntries);
    }
    if !can_encode(parts, options.version) {
        return Err(Error::NulInPath);
    }
    let Some(layout) = layout_of(parts, options) else {
        return Err(Error::TooLarge);
    };
    put_body(parts, layout, out, options)?;
    Ok(layout.entries.version)
}
