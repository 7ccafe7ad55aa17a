//! The extensions of a large index that is read in windows, and what is held of them.

ghost use Rattle.std.specs.Prelude.{◌≡◌, ◌≤◌, ◌+◌, ◌++◌, [], drop, vec_len, IfOk, IfSome, OnOk};
ghost use Rattle.index_parts.specs.Digest.{hasher_kind, Holds};
ghost use Rattle.index_parts.specs.Id.{id_len};
ghost use Rattle.index_parts.specs.declared.hash.Kind.TheVariants.{Sha1};
ghost use Rattle.file_windows.specs.Abridged.{IsExtensionAt, PassesExtension, PassesExtensions, ReadsOn, ReadsRest};
ghost use Rattle.file_windows.specs.Abridged.{held_part, is_known, is_unknown};

use crate::plan::{KEPT_LEN, Plan, WINDOW_LEN, hash_piece};
use ext_small::{fs_monitor, index_entry_offset_table, resolve_undo};
use ext_split::link;
use ext_tree as tree;
use ext_untracked as untracked_cache;
use file_place::folder::Source;
use file_place::pieces::{fill, remove_front};
use index_decode::extension::is_understood;
use index_extensions::head::signature_of;
use index_extensions::{MIN_SIZE, Signature, end_of_index_entry, sparse};
use index_parts::hash::{Hasher, Kind};
use index_parts::util::from_be_u32;
use std::alloc::{AllocError, Global};
use std::io;

/// The position of reading.
#[derive(Clone, Copy)]
pub(super) struct Place {
    /// The index in the window up to which it was read.
    pub(super) start: usize,
    /// The number of bytes of the file that weren't read yet.
    pub(super) left: u64,
}

/// What is held of extensions that were passed.
#[derive(Drop)]
pub(super) struct Held {
    /// The bytes of the extensions that the library knows.
    pub(super) bytes: Vec<u8>,
    /// The hasher of the heads of all extensions, as for the digest of an end marker.
    pub(super) heads: Hasher,
}

impl Held {
    /// Returns the value for no extensions.
    pub(super) fn none(alloc: Global) -> Held
        ensures bytes { result.bytes.items ≡ [] }
        ensures heads { Holds result.heads [] }
        ensures kind { hasher_kind result.heads ≡ Sha1 }
    {
        Held {
            bytes: Vec::new(alloc),
            heads: Hasher::new(Kind::Sha1),
        }
    }
}

/// An extension at the begin of bytes.
#[derive(Clone, Copy)]
struct Extension {
    /// The number of its bytes, including its head.
    len: usize,
    /// Whether its bytes are held.
    is_held: bool,
}

/// Returns whether the library knows the extension.
fn is_known(signature: Signature) -> bool
    ensures { result ≡ is_known signature }
{
    signature == link::SIGNATURE
        || signature == tree::SIGNATURE
        || signature == resolve_undo::SIGNATURE
        || signature == untracked_cache::SIGNATURE
        || signature == fs_monitor::SIGNATURE
        || signature == sparse::SIGNATURE
        || signature == end_of_index_entry::SIGNATURE
        || signature == index_entry_offset_table::SIGNATURE
}

/// Returns whether the library doesn't know the extension and may skip it.
fn is_unknown(signature: Signature) -> bool
    ensures { result ≡ is_unknown signature }
{
    is_understood(signature, &[]) && !is_known(signature)
}

/// Returns the extension whose head is at the begin of the bytes. Returns `None` if they are fewer than a head has.
fn extension_at(bytes: &[u8]) -> Option<Extension>
    ensures { IfSome result (IsExtensionAt bytes.now) }
{
    if bytes.len() < MIN_SIZE {
        return None;
    }
    let (signature, rest) = bytes.split_at(4);
    let (size, _) = rest.split_at(4);
    Some(Extension {
        len: MIN_SIZE + from_be_u32(size) as usize,
        is_held: !is_unknown(signature_of(signature)),
    })
}

/// Returns the number of bytes before the trailer, and before the end marker, if there is one. It counts those in the
/// window and those that weren't read yet. Returns `None` if there are too few bytes.
fn before_ending(plan: Plan, at_hand: usize, left: u64) -> Option<u64>
    ensures { IfSome result (λ n. n + id_len plan.kind ≤ at_hand + left) }
{
    let ending = match plan.offset {
        Some(_) => KEPT_LEN,
        None => plan.kind.len_in_bytes(),
    };
    (at_hand as u64)
        .checked_add(left)?
        .checked_sub(ending as u64)
}

/// Appends bytes if they are to be held.
fn hold(held: &mut Vec<u8>, is_held: bool, bytes: &[u8]) -> Result<(), AllocError>
    ensures { OnOk result (held.new.items ≡ held.old.items ++ held_part is_held bytes.now) }
{
    if is_held {
        held.extend_from_slice(bytes)?;
    }
    Ok(())
}

/// Reads on if fewer bytes are in the window than the head of an extension has. The begin of the window is hashed and
/// removed. Returns `None` if no bytes come, or if the file is longer than its status reported.
fn read_on<S: Source>(
    file: &mut S,
    plan: Plan,
    hasher: &mut Hasher,
    window: &mut Vec<u8>,
    place: Place,
) -> io::Result<Option<Place>>
    requires inside { place.start ≤ vec_len window.old }
    ensures { ReadsOn S.Source plan place file.old file.new hasher.old hasher.new window.old
        window.new result }
{
    let Place { start, left } = place;
    if window.len() - start >= MIN_SIZE {
        return Ok(Some(place));
    }
    let done = start.saturating_sub(KEPT_LEN);
    hash_piece(plan, hasher, &window[..done]);
    remove_front(window, done);
    let came = fill(file, window, WINDOW_LEN)? as u64;
    if came == 0 || came > left {
        return Ok(None);
    }
    Ok(Some(Place {
        start: start - done,
        left: left - came,
    }))
}

/// Passes an extension, and holds its bytes if requested. Returns `None` if the file ends before, or is longer than its
/// status reported.
fn pass_extension<S: Source>(
    file: &mut S,
    plan: Plan,
    hasher: &mut Hasher,
    window: &mut Vec<u8>,
    held: &mut Vec<u8>,
    extension: Extension,
    mut place: Place,
) -> io::Result<Option<Place>>
    requires inside { place.start ≤ vec_len window.old }
    ensures { PassesExtension S.Source plan extension place file.old file.new hasher.old hasher.new
        window.old window.new held.old held.new result }
{
    let mut rest = extension.len;
    'pieces: loop {
        let len = rest.min(window.len() - place.start);
        let end = place.start + len;
        hold(held, extension.is_held, &window[place.start..end])?;
        place.start = end;
        rest -= len;
        if rest == 0 {
            return Ok(Some(place));
        }
        let Some(next) = read_on(file, plan, hasher, window, place)? else {
            return Ok(None);
        };
        place = next;
    }
}

/// Passes all complete extensions before the trailer, or before the end marker, if there is one. Holds those that the
/// library knows. Passes none if all are to be held. Returns `None` if the length of the file isn't the reported one.
pub(super) fn pass_extensions<S: Source>(
    file: &mut S,
    plan: Plan,
    hasher: &mut Hasher,
    window: &mut Vec<u8>,
    held: &mut Held,
    mut place: Place,
) -> io::Result<Option<Place>>
    requires inside { place.start ≤ vec_len window.old }
    requires none_yet { held.old.bytes.items ≡ [] }
    requires no_head { Holds held.old.heads [] }
    requires heads { hasher_kind held.old.heads ≡ Sha1 }
    ensures { PassesExtensions S.Source plan place file.old file.new hasher.old hasher.new
        window.old window.new held.new result }
{
    'extensions: loop {
        let at_hand = window.len() - place.start;
        let Some(before) = before_ending(plan, at_hand, place.left) else {
            return Ok(None);
        };
        if before < MIN_SIZE as u64 || plan.keeps_ending {
            return Ok(Some(place));
        }
        let Some(next) = read_on(file, plan, hasher, window, place)? else {
            return Ok(None);
        };
        let Some(extension) = extension_at(&window[next.start..]) else {
            return Ok(None);
        };
        if before < extension.len as u64 {
            return Ok(Some(next));
        }
        held.heads
            .update(&window[next.start..next.start + MIN_SIZE]);
        let bytes = &mut held.bytes;
        let Some(behind) = pass_extension(file, plan, hasher, window, bytes, extension, next)?
        else {
            return Ok(None);
        };
        place = behind;
    }
}

/// Reads the rest of the file. Returns false in two cases: the length of the file isn't the reported one; or more than
/// a trailer is left after extensions that were passed.
pub(super) fn read_rest<S: Source>(
    file: &mut S,
    window: &mut Vec<u8>,
    held: &[u8],
    left: u64,
) -> io::Result<bool>
    ensures { ReadsRest S.Source file.old file.new window.old window.new left result }
{
    if left > WINDOW_LEN as u64 && !held.is_empty() {
        return Ok(false);
    }
    window.reserve(left.saturating_add(1) as usize)?;
    let came = fill(file, window, usize::MAX)?;
    Ok(came as u64 == left)
}

/// Returns the bytes that are held of the extensions, and then those of the window from an index on.
pub(super) fn join_held(
    mut held: Vec<u8>,
    mut window: Vec<u8>,
    start: usize,
) -> Result<Vec<u8>, AllocError>
    requires inside { start ≤ vec_len window }
    ensures { IfOk result (λ x. x.items ≡ held.items ++ drop start window.items) }
{
    if held.is_empty() {
        remove_front(&mut window, start);
        return Ok(window);
    }
    held.extend_from_slice(&window[start..])?;
    Ok(held)
}
