//! Writes the conflicts as they were before they were resolved (gitformat-index, "Resolve undo").

ghost use Rattle.std.specs.Prelude.{◌≡◌, ◌++◌, ◌<◌, ◌≤◌, ◌^◌, ◌+◌, ◌-◌, drop, length, map};
ghost use Rattle.std.specs.List.{flat_map};
ghost use Rattle.index_parts.specs.Numbers.{within_32};
ghost use Rattle.index_extensions.specs.Encoding.{item_bytes};
ghost use Rattle.index_parts.specs.Puts.{Puts};
ghost use Rattle.ext_small.specs.ResolveUndo.{path_stages};
ghost use Rattle.ext_encode.specs.ResolveUndoImage.{mode_bytes, octal_digits, path_bytes, resolve_undo_bytes};
ghost use Rattle.ext_encode.specs.ResolveUndoImage.{resolve_undo_item, stage_id, stage_mode};

use ext_bitmap::pieces::{put_head, put_text};
use ext_small::resolve_undo::{ResolvePath, SIGNATURE, Stage};
use index_parts::hash::io::Out;
use std::io;

/// The maximum number of octal digits of a number of 32 bits.
const MOST_DIGITS: usize = 11;

/// Returns an array that ends with the octal digits of `n`, without leading zeros, and the index of the first digit.
fn octal(n: u32) -> ([u8; MOST_DIGITS], usize)
    ensures digits { drop result.1 result.0 ≡ octal_digits n }
    ensures place { result.1 ≤ 10 }
{
    let mut digits = [0; MOST_DIGITS];
    let mut start = MOST_DIGITS - 1;
    let mut higher = n;
    digits[start] = b'0' + (higher % 8) as u8;
    while higher >= 8 {
        higher /= 8;
        start -= 1;
        digits[start] = b'0' + (higher % 8) as u8;
    }
    (digits, start)
}

/// Returns the mode of a stage, or 0 if there is none.
fn stage_mode(stage: &Option<Stage>) -> u32
    ensures { result ≡ stage_mode stage.now }
{
    match stage {
        Some(stage) => stage.mode(),
        None => 0,
    }
}

/// Writes the mode of a stage in octal digits, and a NUL.
fn put_mode<W: Out>(stage: &Option<Stage>, out: &mut W) -> io::Result<()>
    ensures { Puts W.Out out.old out.new result (mode_bytes stage.now) }
{
    let (digits, start) = octal(stage_mode(stage));
    let (_, text) = digits.split_at(start);
    put_text(text, out)
}

/// Writes the modes of stages.
fn put_modes<W: Out>(stages: &[Option<Stage>], out: &mut W) -> io::Result<()>
    ensures { Puts W.Out out.old out.new result (flat_map mode_bytes stages.now) }
{
    for stage in stages {
        put_mode(stage, out)?;
    }
    Ok(())
}

/// Writes the id of a stage, if there is one.
fn put_id<W: Out>(stage: &Option<Stage>, out: &mut W) -> io::Result<()>
    ensures { Puts W.Out out.old out.new result (stage_id stage.now) }
{
    match stage {
        Some(stage) => out.put(stage.id().as_bytes()),
        None => Ok(()),
    }
}

/// Writes the ids of stages.
fn put_ids<W: Out>(stages: &[Option<Stage>], out: &mut W) -> io::Result<()>
    ensures { Puts W.Out out.old out.new result (flat_map stage_id stages.now) }
{
    for stage in stages {
        put_id(stage, out)?;
    }
    Ok(())
}

/// Writes stages: their modes, and then their ids.
fn put_stages<W: Out>(stages: &[Option<Stage>], out: &mut W) -> io::Result<()>
    ensures { Puts W.Out out.old out.new result
        (flat_map mode_bytes stages.now ++ flat_map stage_id stages.now) }
{
    put_modes(stages, out)?;
    put_ids(stages, out)
}

/// Writes a path and its stages.
fn put_path<W: Out>(path: &ResolvePath, out: &mut W) -> io::Result<()>
    ensures { Puts W.Out out.old out.new result (path_bytes (path_stages path.now)) }
{
    put_text(path.name(), out)?;
    put_stages(path.stages(), out)
}

/// Writes paths, one after another.
fn put_paths<W: Out>(paths: &[ResolvePath], out: &mut W) -> io::Result<()>
    ensures { Puts W.Out out.old out.new result
        (flat_map (λ p. path_bytes (path_stages p)) paths.now) }
{
    for path in paths {
        put_path(path, out)?;
    }
    Ok(())
}

/// Returns the length in bytes of the mode and the id of a stage.
fn stage_len(stage: &Option<Stage>) -> u64
    ensures len { result ≡ length (mode_bytes stage.now) + length (stage_id stage.now) }
    ensures few { result ≤ 44 }
{
    let (_, start) = octal(stage_mode(stage));
    let digits = (MOST_DIGITS - start) as u64;
    match stage {
        Some(stage) => digits + 1 + stage.id().as_bytes().len() as u64,
        None => digits + 1,
    }
}

/// Returns the length in bytes of the modes and the ids of a path's stages.
fn stages_len(stages: &[Option<Stage>; 3]) -> u64
    ensures len { result ≡ length (flat_map mode_bytes stages.now ++ flat_map stage_id stages.now) }
    ensures few { result ≤ 132 }
{
    let [base, ours, theirs] = stages;
    stage_len(base) + stage_len(ours) + stage_len(theirs)
}

/// Returns the length in bytes of a path and its stages.
fn path_len(path: &ResolvePath) -> u64
    ensures len { result ≡ length (path_bytes (path_stages path.now)) }
    ensures fits { result < 2 ^ 63 + 133 }
{
    path.name().len() as u64 + 1 + stages_len(path.stages())
}

/// Returns the length in bytes of the content of the extension, or `None` if it is more than 2^32 - 1. It allocates no
/// memory.
pub fn content_len(paths: &[ResolvePath]) -> Option<u32>
    ensures { result ≡ within_32 (length (resolve_undo_bytes (map path_stages paths.now))) }
{
    let mut len = 0;
    for path in paths {
        let longer = u64::from(len) + path_len(path);
        if longer > u64::from(u32::MAX) {
            return None;
        }
        len = longer as u32;
    }
    Some(len)
}

/// Writes `paths` as an extension (gitformat-index, "Resolve undo"). It allocates no memory.
///
/// Each mode is written in octal digits without leading zeros. `len` is the length of the content in bytes, as
/// [`content_len`] returns it. An error occurs only if the writer failed, which then took a prefix of the bytes.
pub fn put_item<W: Out>(paths: &[ResolvePath], len: u32, out: &mut W) -> io::Result<()>
    requires len { len ≡ length (resolve_undo_bytes (map path_stages paths.now)) }
    ensures written { Puts W.Out out.old out.new result
        (item_bytes (resolve_undo_item (map path_stages paths.now))) }
{
    put_head(SIGNATURE, len, out)?;
    put_paths(paths, out)
}
