//! Records a removed side of a conflict (gitformat-index, "Resolve undo").

ghost use Rattle.std.specs.Prelude.{◌≡◌, ◌≢◌, IsFalse, IsTrue, OnOk, map};
ghost use Rattle.std.specs.Ordering.{is_lt};
ghost use Rattle.entry_list.specs.Order.{path_cmp, record_stage};
ghost use Rattle.ext_small.specs.ResolveUndo.{path_stages};
ghost use Rattle.entry_edit.specs.EditSteps.{entry_record};
ghost use Rattle.index_edit.specs.RecordingSteps.{AreRisingIf, IsHere, IsOther, IsPlaceFor, PutsSide, RecordsSide};
ghost use Rattle.index_edit.specs.Rising.{ArePathsRising};

use base_search::ordered::Ordered;
use bitflags::Flags as _;
use entry_edit::near_end::first_near_end;
use entry_list::Entry;
use ext_small::resolve_undo::{Paths, ResolvePath, Stage};
use std::alloc::AllocError;
use std::cmp::Ordering;

/// Returns whether a recorded path is before this one.
fn stands_before(recorded: &ResolvePath, path: &[u8]) -> bool
    ensures { result ≡ is_lt (path_cmp (path_stages recorded.now).name path.now) }
{
    Entry::cmp_filepaths(recorded.name(), path).is_lt()
}

/// Recorded paths by their order relative to a path.
#[derive(Clone, Copy)]
struct Named<'a> {
    paths: &'a [ResolvePath],
    path: &'a [u8],
}

impl Ordered for Named<'_> {
    ghost answers = { λ s. map (λ p. path_cmp (path_stages p).name s.path.now) s.paths.now };

    fn len(&self) -> usize {
        self.paths.len()
    }

    fn compare(&self, place: usize) -> Ordering {
        Entry::cmp_filepaths(self.paths[place].name(), self.path)
    }
}

/// Returns how many of the first paths are before this one. Each of these is compared.
fn count_before(paths: &[ResolvePath], path: &[u8]) -> usize
    ensures { IsPlaceFor path_stages path.now paths.now result }
{
    let mut place = 0;
    while place < paths.len() && stands_before(&paths[place], path) {
        place += 1;
    }
    place
}

/// Returns how many of the first paths are before this one. Few are compared if the paths are `rising`.
fn place_for(paths: &[ResolvePath], path: &[u8], rising: bool) -> usize
    requires { IsTrue rising → ArePathsRising (map path_stages paths.now) }
    ensures { IsPlaceFor path_stages path.now paths.now result }
{
    if rising {
        return first_near_end(&Named { paths, path });
    }
    count_before(paths, path)
}

/// Returns whether the recorded paths are known to increase, each before the next. Each is compared.
pub(crate) fn are_rising(undo: &Option<Paths>) -> bool
    ensures { AreRisingIf result undo.now }
{
    match undo {
        Some(paths) => paths.is_sorted_by(|a, b| stands_before(a, b.name())),
        None => true,
    }
}

/// Returns whether the path at this index is this one.
fn is_there(paths: &[ResolvePath], place: usize, path: &[u8]) -> bool
    ensures there { IsTrue result → IsHere path_stages path.now paths.now place }
    ensures other { IsFalse result → IsOther path_stages path.now paths.now place }
{
    place < paths.len() && Entry::cmp_filepaths(paths[place].name(), path).is_eq()
}

/// Stores the entry's mode and id for its stage.
fn put_side(path: &mut ResolvePath, entry: &Entry)
    requires { record_stage (entry_record (path_stages path.old).name entry.now) ≢ 0 }
    ensures { PutsSide entry.now path.old path.new }
{
    let side = Stage::new(entry.mode.bits(), entry.id);
    path.set_side((entry.stage_raw() - 1) as usize, side);
}

/// Records an entry, which is a side of a conflict, at its path. It replaces what was recorded for its stage. If the
/// path isn't recorded yet, it is inserted after those below it, with this side only.
///
/// The error is an allocation failure.
pub(crate) fn record_side(
    paths: &mut Paths,
    path: &[u8],
    entry: &Entry,
    rising: bool,
) -> Result<(), AllocError>
    requires side { record_stage (entry_record path.now entry.now) ≢ 0 }
    requires rising { IsTrue rising → ArePathsRising (map path_stages paths.old.items) }
    ensures { OnOk result (RecordsSide path.now entry.now paths.old paths.new) }
{
    let place = place_for(paths, path, rising);
    if is_there(paths, place, path) {
        put_side(&mut paths[place], entry);
        return Ok(());
    }
    let mut made = ResolvePath::new(*paths.allocator(), path)?;
    put_side(&mut made, entry);
    paths.insert(place, made)?;
    Ok(())
}
