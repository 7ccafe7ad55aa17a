//! Writes the untracked cache extension (gitformat-index, "Untracked cache").

ghost use Rattle.std.specs.Prelude.{◌≡◌, ◌==◌, ◌++◌, ◌<◌, ◌^◌, [], ◌∷◌, not, length, map};
ghost use Rattle.std.specs.List.{flat_map, list_all};
ghost use Rattle.bstr.specs.Owned.{bstring_bytes};
ghost use Rattle.index_extensions.specs.Encoding.{item_bytes};
ghost use Rattle.index_parts.specs.Id.{id_bytes};
ghost use Rattle.index_parts.specs.Puts.{Puts};
ghost use Rattle.ext_untracked.specs.Blocks.{directory_value};
ghost use Rattle.ext_untracked.specs.Untracked.{cache_of};
ghost use Rattle.ext_encode.specs.SpellableCache.{has_names, names_are_some};
ghost use Rattle.ext_encode.specs.UntrackedImage.{cache_bytes, cache_item};
ghost use Rattle.ext_encode.specs.UntrackedImage.{directories_bytes, untracked_directory_bytes};
ghost use Rattle.ext_encode.specs.UntrackedImage.{file_id, file_stat, preamble_bytes};
ghost use Rattle.ext_encode.specs.UntrackedImage.{start_bytes, stat_bytes, valid_id, valid_stat};

use crate::marks::Mark;
pub use crate::untracked_sizes::content_len;
use bstr::BString;
use entry_fields::entry::Stat;
use ext_bitmap::marks;
use ext_bitmap::pieces::{put_head, put_text};
use ext_untracked::{Directory, OidStat, SIGNATURE, UntrackedCache};
use index_parts::encode;
use index_parts::hash::io::Out;
use index_parts::hash::{Kind, ObjectId};
use index_parts::util::write_var_int;
use std::io;

/// The number of bytes of a stat.
const STAT_LEN: usize = 36;

/// Returns the nine numbers of a stat as bytes.
#[tactic(auto, unfolding(crate::specs::UntrackedImage::stat_bytes))]
fn numbers_of(stat: &Stat) -> [u8; STAT_LEN]
    ensures { result ≡ stat_bytes stat.now }
{
    let [a0, a1, a2, a3] = stat.ctime.secs.to_be_bytes();
    let [b0, b1, b2, b3] = stat.ctime.nsecs.to_be_bytes();
    let [c0, c1, c2, c3] = stat.mtime.secs.to_be_bytes();
    let [d0, d1, d2, d3] = stat.mtime.nsecs.to_be_bytes();
    let [e0, e1, e2, e3] = stat.dev.to_be_bytes();
    let [f0, f1, f2, f3] = stat.ino.to_be_bytes();
    let [g0, g1, g2, g3] = stat.uid.to_be_bytes();
    let [h0, h1, h2, h3] = stat.gid.to_be_bytes();
    let [i0, i1, i2, i3] = stat.size.to_be_bytes();
    [
        a0, a1, a2, a3, b0, b1, b2, b3, c0, c1, c2, c3, d0, d1, d2, d3, e0, e1, e2, e3, f0, f1, f2,
        f3, g0, g1, g2, g3, h0, h1, h2, h3, i0, i1, i2, i3,
    ]
}

/// Returns the stat of a file of exclude patterns as bytes, or zeros if there is no such file.
fn file_stat(file: &Option<OidStat>) -> [u8; STAT_LEN]
    ensures { result ≡ file_stat file.now }
{
    match file {
        Some(file) => numbers_of(file.stat()),
        None => [0; STAT_LEN],
    }
}

/// Returns the id of a file of exclude patterns, or the null id if there is no such file.
pub(crate) fn file_id(kind: Kind, file: &Option<OidStat>) -> ObjectId
    ensures { id_bytes result ≡ file_id kind file.now }
{
    match file {
        Some(file) => file.id(),
        None => kind.null(),
    }
}

/// Writes the fields of a cache before its directories.
#[tactic(auto, unfolding(crate::specs::UntrackedImage::preamble_bytes))]
fn put_preamble<W: Out>(cache: &UntrackedCache, kind: Kind, out: &mut W) -> io::Result<()>
    ensures { Puts W.Out out.old out.new result (preamble_bytes kind (cache_of cache.now).preamble) }
{
    let (bytes, start) = encode::offset(cache.identifier().len() as u64);
    let (_, len) = bytes.split_at(start);
    let info = cache.info_exclude().copied();
    let excludes = cache.excludes_file().copied();
    out.put_each(&[
        len,
        cache.identifier(),
        &file_stat(&info),
        &file_stat(&excludes),
        &cache.dir_flags().to_be_bytes(),
        file_id(kind, &info).as_bytes(),
        file_id(kind, &excludes).as_bytes(),
        cache.exclude_filename_per_dir(),
        b"\0",
    ])
}

/// Writes names, each followed by a NUL.
fn put_names<W: Out>(names: &[BString], out: &mut W) -> io::Result<()>
    ensures { Puts W.Out out.old out.new result
        (flat_map (λ name. bstring_bytes name ++ 0 ∷ []) names.now) }
{
    for name in names {
        put_text(name.as_bytes(), out)?;
    }
    Ok(())
}

/// Writes the number of untracked names in a directory, the number of its subdirectories, and its name.
fn put_start<W: Out>(directory: &Directory, out: &mut W) -> io::Result<()>
    ensures { Puts W.Out out.old out.new result (start_bytes (directory_value directory.now)) }
{
    let (bytes, start) = encode::offset(directory.untracked_entries().len() as u64);
    let (_, names) = bytes.split_at(start);
    let (bytes, start) = encode::offset(directory.sub_directories().len() as u64);
    let (_, directories) = bytes.split_at(start);
    out.put_each(&[names, directories, directory.name(), b"\0"])
}

/// Writes a directory and its untracked names, without its subdirectories.
fn put_directory<W: Out>(directory: &Directory, out: &mut W) -> io::Result<()>
    ensures { Puts W.Out out.old out.new result (untracked_directory_bytes (directory_value directory.now)) }
{
    put_start(directory, out)?;
    put_names(directory.untracked_entries(), out)
}

/// Writes directories, one after another.
fn put_blocks<W: Out>(directories: &[Directory], out: &mut W) -> io::Result<()>
    ensures { Puts W.Out out.old out.new result
        (flat_map (λ d. untracked_directory_bytes (directory_value d)) directories.now) }
{
    for directory in directories {
        put_directory(directory, out)?;
    }
    Ok(())
}

/// Writes a stat, if it is valid.
fn put_stat<W: Out>(stat: &Option<Stat>, out: &mut W) -> io::Result<()>
    ensures { Puts W.Out out.old out.new result (valid_stat stat.now) }
{
    match stat {
        Some(stat) => out.put(&numbers_of(stat)),
        None => Ok(()),
    }
}

/// Writes an id, if it is valid.
fn put_id<W: Out>(id: &Option<ObjectId>, out: &mut W) -> io::Result<()>
    ensures { Puts W.Out out.old out.new result (valid_id id.now) }
{
    match id {
        Some(id) => out.put(id.as_bytes()),
        None => Ok(()),
    }
}

/// Writes the valid stats of directories.
fn put_stats<W: Out>(directories: &[Directory], out: &mut W) -> io::Result<()>
    ensures { Puts W.Out out.old out.new result (flat_map (λ d. valid_stat d.stat) directories.now) }
{
    for directory in directories {
        put_stat(&directory.stat, out)?;
    }
    Ok(())
}

/// Writes the valid ids of directories.
fn put_ids<W: Out>(directories: &[Directory], out: &mut W) -> io::Result<()>
    ensures { Puts W.Out out.old out.new result
        (flat_map (λ d. valid_id d.exclude_file_oid) directories.now) }
{
    for directory in directories {
        put_id(&directory.exclude_file_oid, out)?;
    }
    Ok(())
}

/// Writes directories, and then the three bitmaps, the valid stats, the valid ids, and a NUL.
fn put_directories<W: Out>(directories: &[Directory], out: &mut W) -> io::Result<()>
    requires few { length directories.now < 2 ^ 32 }
    ensures { Puts W.Out out.old out.new result
        (directories_bytes (map directory_value directories.now)) }
{
    if directories.is_empty() {
        return Ok(());
    }
    put_blocks(directories, out)?;
    marks::put(directories, Mark::Valid, out)?;
    marks::put(directories, Mark::CheckOnly, out)?;
    marks::put(directories, Mark::HashValid, out)?;
    put_stats(directories, out)?;
    put_ids(directories, out)?;
    out.put(b"\0")
}

/// Writes the content of the extension.
fn put_content<W: Out>(cache: &UntrackedCache, kind: Kind, out: &mut W) -> io::Result<()>
    requires few { length (cache_of cache.now).directories < 2 ^ 32 }
    ensures { Puts W.Out out.old out.new result (cache_bytes kind (cache_of cache.now)) }
{
    put_preamble(cache, kind, out)?;
    write_var_int(out, cache.directories().len() as u64)?;
    put_directories(cache.directories(), out)
}

/// Writes `cache` as an extension with ids of the hash algorithm `kind` (gitformat-index, "Untracked cache"). It
/// allocates no memory.
///
/// The bitmaps are those that git's encoder makes. `len` is the length of the content in bytes, as [`content_len`]
/// returns it. An error occurs only if the writer failed, which then took a prefix of the bytes.
pub fn put_item<W: Out>(cache: &UntrackedCache, kind: Kind, len: u32, out: &mut W) -> io::Result<()>
    requires len { len ≡ length (cache_bytes kind (cache_of cache.now)) }
    ensures written { Puts W.Out out.old out.new result
        (item_bytes (cache_item kind (cache_of cache.now))) }
{
    put_head(SIGNATURE, len, out)?;
    put_content(cache, kind, out)
}

/// Returns whether a name isn't empty.
fn is_some_name(name: &BString) -> bool
    ensures { result ≡ not (length (bstring_bytes name.now) == 0) }
{
    !name.as_bytes().is_empty()
}

/// Returns whether none of these names is empty.
fn names_are_some(names: &[BString]) -> bool
    ensures { result ≡ list_all (λ name. not (length (bstring_bytes name) == 0)) names.now }
{
    let mut all = true;
    for name in names {
        all &= is_some_name(name);
    }
    all
}

/// Returns whether no untracked name in a directory is empty.
fn has_names(directory: &Directory) -> bool
    ensures { result ≡ has_names (directory_value directory.now) }
{
    names_are_some(directory.untracked_entries())
}

/// Returns whether no untracked name in these directories is empty.
fn have_names(directories: &[Directory]) -> bool
    ensures { result ≡ list_all (λ d. has_names (directory_value d)) directories.now }
{
    let mut all = true;
    for directory in directories {
        all &= has_names(directory);
    }
    all
}

/// Returns whether no untracked name of the cache is empty. Git writes no empty name.
///
/// A file has at least two bytes for each name that a directory counts. So the bytes that are written for a cache with
/// an empty name may be read as no cache.
pub fn is_spellable(cache: &UntrackedCache) -> bool
    ensures { result ≡ names_are_some (cache_of cache.now) }
{
    have_names(cache.directories())
}
